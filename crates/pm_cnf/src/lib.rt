//! Clause files in the CNF form of TPTP's language, in the profile of docs/FORMAT.md: reading and
//! writing.
#![tactic(auto)]

mod error;
mod item;
mod laws;
mod limits;
mod number;
mod parser;
mod reading;

pub use error::CnfError;
pub use laws::{
    offence_is_determined, problem_is_determined, read_problems_are_valid,
    written_clauses_read_back,
};
pub use limits::Limits;
pub use pm_scan::{CnfKind, Place};
pub use pm_write::write;
pub use reading::read;

#[cfg(test)]
mod tests;
