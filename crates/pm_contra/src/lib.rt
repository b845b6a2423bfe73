//! The literals of a problem's clauses, found by predicate and sign.
#![tactic(auto)]

mod heads;
mod index;

pub use heads::Head;
pub use index::Contras;
