//! Clauses and terms as the text of a clause file.
#![tactic(auto)]

mod clauses;
mod terms;

pub use clauses::write;
pub use terms::write_term;
