//! What is wrong in a clause file, and where.
ghost use Rattle.std.specs.Prelude.{◌≡◌};
ghost use Rattle.pm_scan.specs.Words.{kind_word};

use std::fmt;

/// A place in a file: its line and its column in bytes, both counted from 1. Only LF ends a line.
#[derive(Clone, Copy, Debug, PartialEq, Eq)]
pub struct Place {
    pub line: u32,
    pub column: u32,
}

/// What is wrong at a place. Of several kinds at one place the first in the order of
/// docs/FORMAT.md counts.
#[derive(Clone, Copy, Debug, PartialEq, Eq)]
pub enum CnfKind {
    BadByte = 1,
    BadToken = 2,
    UnclosedComment = 3,
    UnclosedQuote = 4,
    Unexpected = 5,
    EndInItem = 6,
    NotCnf = 7,
    Include = 8,
    Equality = 9,
    Number = 10,
    DistinctObject = 11,
    TooManyClauses = 12,
    TooManyLiterals = 13,
    TooManyVariables = 14,
    ArityTooLarge = 15,
    TooDeep = 16,
}

impl CnfKind {
    /// The kind's name.
    pub fn word(&self) -> &str
        ensures { result.now ≡ kind_word self.now }
    {
        match self {
            CnfKind::BadByte => "BadByte",
            CnfKind::BadToken => "BadToken",
            CnfKind::UnclosedComment => "UnclosedComment",
            CnfKind::UnclosedQuote => "UnclosedQuote",
            CnfKind::Unexpected => "Unexpected",
            CnfKind::EndInItem => "EndInItem",
            CnfKind::NotCnf => "NotCnf",
            CnfKind::Include => "Include",
            CnfKind::Equality => "Equality",
            CnfKind::Number => "Number",
            CnfKind::DistinctObject => "DistinctObject",
            CnfKind::TooManyClauses => "TooManyClauses",
            CnfKind::TooManyLiterals => "TooManyLiterals",
            CnfKind::TooManyVariables => "TooManyVariables",
            CnfKind::ArityTooLarge => "ArityTooLarge",
            CnfKind::TooDeep => "TooDeep",
        }
    }
}

impl fmt::Display for Place {
    fn fmt<W: fmt::Write>(&self, f: &mut fmt::Formatter<W>) -> Result<(), fmt::Error> {
        write!(f, "line {} column {}", self.line, self.column)
    }
}

impl fmt::Display for CnfKind {
    fn fmt<W: fmt::Write>(&self, f: &mut fmt::Formatter<W>) -> Result<(), fmt::Error> {
        f.write_str(self.word())
    }
}
