//! The texts that a run prints, and the sample problem.
#![tactic(auto)]

mod chain;
mod lines;
mod sample_text;
mod terms;
mod texts;

pub use chain::sample;
pub use lines::{level_lines_differ, texts_say_works};
pub use sample_text::{summary, summary_is_determined};
pub use texts::{
    accepted, accepted_inferences, bad_words, gave_up, input_error, level_lines, refused,
    resource_out, too_long,
};

#[cfg(test)]
mod tests;
