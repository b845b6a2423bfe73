//! Clauses as the instructions that a step of the search runs.
#![tactic(auto)]

mod building;
mod clauses;
mod code;
mod heads;
mod instr;
mod laws;
mod source;
#[cfg(test)]
mod tests;
mod writing;

pub use clauses::compile;
pub use code::Code;
pub use instr::Instr;
pub use laws::code_follows_scheme;
pub use writing::listing;
