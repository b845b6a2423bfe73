//! Pieces of a level: intervals that were searched.
#![tactic(auto)]

use pm_choice::{Bound, Choices};

/// An interval of a level that was searched, with `work` attempts: `path` is its first complete
/// list, where it has one.
#[derive(Debug, Drop)]
pub struct Piece {
    pub from: Choices,
    pub to: Bound,
    pub work: u64,
    pub path: Option<Choices>,
}
