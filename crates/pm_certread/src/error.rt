//! Why a certificate isn't read.
ghost use Rattle.std.specs.Prelude.{◌≡◌};
ghost use Rattle.pm_certread.specs.Kinds.{kind_word};

use std::alloc::{AllocError, AllocFailed};
use std::fmt;
use thiserror::Error;

/// What is wrong with a line. Of several kinds at one line the first in this order counts, `Counts`
/// aside, which only a header has.
#[derive(Clone, Copy, Debug, PartialEq, Eq)]
pub enum CertKind {
    /// The line hasn't the form that is due in its place, or is missing.
    Syntax = 1,
    /// The number of a term line that isn't there, or, on a term line, that doesn't come before it.
    TermRange = 2,
    /// The problem has no function, or no predicate, of this text with so many arguments.
    UnknownSymbol = 3,
    /// The number of a clause that the problem hasn't.
    ClauseRange = 4,
    /// The depth of a node isn't from 1 to 250, or doesn't follow from the nodes before it, or a
    /// leaf is closed by no ancestor.
    DepthOrder = 5,
    /// The number of lines after the header isn't the one that it says.
    Counts = 6,
}

impl CertKind {
    /// The kind's name.
    pub fn word(&self) -> &str
        ensures { result.now ≡ kind_word self.now }
    {
        match self {
            CertKind::Syntax => "Syntax",
            CertKind::TermRange => "TermRange",
            CertKind::UnknownSymbol => "UnknownSymbol",
            CertKind::ClauseRange => "ClauseRange",
            CertKind::DepthOrder => "DepthOrder",
            CertKind::Counts => "Counts",
        }
    }
}

impl fmt::Display for CertKind {
    fn fmt<W: fmt::Write>(&self, f: &mut fmt::Formatter<W>) -> Result<(), fmt::Error> {
        f.write_str(self.word())
    }
}

/// Why a document isn't read.
#[derive(Clone, Copy, Debug, PartialEq, Eq, Error)]
pub enum CertError {
    /// The first line that is refused, counted from 1, and why.
    #[error("line {line} {kind}")]
    At { line: u64, kind: CertKind },
    #[error("out of memory")]
    Memory,
}

impl From<AllocError> for CertError {
    ghost use Rattle.std.specs.Prelude.{◌≡◌};
    ghost use Rattle.pm_certread.specs.declared.error.CertError.TheVariants.{Memory};

    ghost from_gives = { λ _ e. e ≡ Memory };

    fn from(_error: AllocError) -> CertError {
        CertError::Memory
    }
}

impl<T: Drop> From<AllocFailed<T>> for CertError {
    ghost use Rattle.std.specs.Prelude.{◌≡◌};
    ghost use Rattle.pm_certread.specs.declared.error.CertError.TheVariants.{Memory};

    ghost from_gives = { λ _ e. e ≡ Memory };

    fn from(_error: AllocFailed<T>) -> CertError {
        CertError::Memory
    }
}
