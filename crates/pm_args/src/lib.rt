//! The command line: what the words of a run ask for.
#![tactic(auto)]

mod command;
mod job;
mod values;

pub use job::{ArgsFault, Job, Options, read_job};

#[cfg(test)]
mod tests;
