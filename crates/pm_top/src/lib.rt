//! The top call: what the program does with its words, its files and its output.
#![tactic(auto)]

mod answer;
mod check;
mod files;
mod jobs;
mod put;
mod search;
mod status;
mod top;

pub use status::Status;
pub use top::{output_is_determined, proofs_are_accepted, run, run_alone};

#[cfg(test)]
mod tests;
