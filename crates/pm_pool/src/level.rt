//! How the search of a level ends, and what the workers of a level leave.
#![tactic(auto)]

use pm_book::Book;
use pm_choice::Choices;
use pm_work::Piece;

/// How the search of a level ends.
#[derive(Debug, Drop)]
pub enum LevelEnd {
    /// The level has no complete list, and `work` attempts.
    Exhausted { work: u64 },
    /// `path` is the first complete list of the level, and attempt number `work`.
    Found { path: Choices, work: u64 },
    /// The work of the level exceeds the budget.
    Over,
}

/// A book that was put aside, with the pieces that were there: one of its rows fits none of them.
#[derive(Drop)]
pub struct Aside {
    pub book: Book,
    pub pieces: Vec<Piece>,
}

/// How the search of a level by workers ended, the book from whose rows the end is read, and the
/// pieces of those who searched the rows. `aside` is the last book that was put aside, if any.
#[derive(Drop)]
pub struct LevelRun {
    pub end: LevelEnd,
    pub book: Book,
    pub pieces: Vec<Piece>,
    pub aside: Option<Aside>,
}
