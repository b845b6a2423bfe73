//! The search of a level, whole: by one search, or by workers that share the level's task book; and
//! what a task book says of a level.
#![tactic(auto)]

mod alone;
mod laws;
mod level;
mod run;
mod seat;
mod settle;

pub use alone::run_level_alone;
pub use laws::{fronts_tell_of_level, settled_books_tell_of_level};
pub use level::{Aside, LevelEnd, LevelRun};
pub use pm_work::Piece;
pub use run::run_level;

#[cfg(test)]
mod tests;
