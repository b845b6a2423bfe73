//! Why a certificate is refused.
ghost use Rattle.std.specs.Prelude.{◌≡◌};
ghost use Rattle.pm_check.specs.Kinds.{refusal_word};

use std::fmt;
use thiserror::Error;

/// What is wrong with a line. Of several kinds at one line the first in this order counts.
#[derive(Clone, Copy, Debug, PartialEq, Eq)]
pub enum RefusalKind {
    /// The root's clause is no start clause.
    NotStart = 1,
    /// The children of the root or of an inner node aren't an instance of its clause.
    NotInstance = 2,
    /// The ancestor that a leaf names isn't complementary to it.
    NotComplementary = 3,
    /// An inner node has no child that is a leaf and complementary to it.
    NotConnected = 4,
    /// The class is regular, and an ancestor carries the node's literal.
    NotRegular = 5,
    /// The bound is the depth, nothing else is wrong, and the header's number isn't the depth.
    DepthDiffers = 6,
    /// The bound is the number of clause instances, nothing else is wrong, and the header's number
    /// isn't that number.
    SizeDiffers = 7,
}

impl RefusalKind {
    /// The kind's name.
    pub fn word(&self) -> &str
        ensures { result.now ≡ refusal_word self.now }
    {
        match self {
            RefusalKind::NotStart => "NotStart",
            RefusalKind::NotInstance => "NotInstance",
            RefusalKind::NotComplementary => "NotComplementary",
            RefusalKind::NotConnected => "NotConnected",
            RefusalKind::NotRegular => "NotRegular",
            RefusalKind::DepthDiffers => "DepthDiffers",
            RefusalKind::SizeDiffers => "SizeDiffers",
        }
    }
}

impl fmt::Display for RefusalKind {
    fn fmt<W: fmt::Write>(&self, f: &mut fmt::Formatter<W>) -> Result<(), fmt::Error> {
        f.write_str(self.word())
    }
}

/// The line that is refused, counted from 1, and why.
#[derive(Clone, Copy, Debug, PartialEq, Eq, Error)]
#[error("line {line} {kind}")]
pub struct Refusal {
    pub line: u64,
    pub kind: RefusalKind,
}
