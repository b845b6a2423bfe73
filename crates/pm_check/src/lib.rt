//! The checker of certificates: it accepts one exactly where its tableau is in the class that it
//! names, and else names the first line that is wrong.
#![tactic(auto)]

mod branch;
mod checker;
mod family;
mod images;
mod laws;
mod literals;
mod matching;
mod nodes;
mod refusal;

pub use checker::Checker;
pub use laws::{members_are_accepted, verdicts_are_determined};
pub use refusal::{Refusal, RefusalKind};
