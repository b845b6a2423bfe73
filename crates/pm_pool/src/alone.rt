//! The search of a level by one search.
#![tactic(auto)]

ghost use Rattle.std.specs.Prelude.{◌≤◌, ◌^◌, IfOk};
ghost use Rattle.pm_pool.specs.Level.{EndsLevel};

use super::level::LevelEnd;
use pm_choice::Bound;
use pm_search::{Search, Turn};
use pm_space::Maker;
use std::alloc::{AllocError, Global};

/// Searches a level from 0 to 250 of a maker with a budget of at most 10^12 attempts. Over where
/// the level's work exceeds the budget; else Found where the level has a complete list, with the
/// first one, and Exhausted where it has none.
pub fn run_level_alone<M: Maker>(
    alloc: Global,
    maker: &M,
    level: u32,
    budget: u64,
) -> Result<LevelEnd, AllocError>
    requires level { level ≤ 250 }
    requires budget { budget ≤ 10 ^ 12 }
    ensures { IfOk result (EndsLevel (M.key_at maker.now level) budget) }
{
    let space = maker.make(alloc, level)?;
    let mut search = Search::seek(alloc, space, &[], Bound::End)?;
    // A search that pauses has made an attempt more than the budget allows.
    let turn = search.run(budget + 1)?;
    match turn {
        Turn::Closed { work } if work <= budget => Ok(LevelEnd::Exhausted { work }),
        Turn::Found { path, work } if work <= budget => Ok(LevelEnd::Found { path, work }),
        _ => Ok(LevelEnd::Over),
    }
}
