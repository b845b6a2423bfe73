//! The lexemes of clause files, and what is wrong in a file and where.
#![tactic(auto)]

mod offence;
mod scan;
mod token;

pub use offence::{CnfKind, Place};
pub use scan::{lexeme_at, place_at, quoted_text};
pub use token::{Lexeme, Mark, Token};
