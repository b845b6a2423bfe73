//! Levels, searched in order up to the first that isn't exhausted.
#![tactic(auto)]

ghost use Rattle.std.specs.Prelude.{◌≤◌, ◌^◌, IfOk};
ghost use Rattle.pm_deepen.specs.Answer.{IsAnswer};
ghost use Rattle.pm_deepen.specs.Levels.{AnswerIsDetermined};

use pm_choice::Choices;
use pm_pool::{LevelEnd, run_level_alone};
use pm_space::Maker;
use std::alloc::{AllocError, Global};

mod shared;

pub use shared::deepen;

/// How a search of levels ends.
#[derive(Debug, Drop)]
pub enum DeepEnd {
    /// Level `depth` has a complete list. `path` is the first one, and attempt number `work`.
    Proof {
        depth: u32,
        path: Choices,
        work: u64,
    },
    /// No level has a complete list.
    DepthReached,
    /// The work of level `depth` exceeds the budget.
    BudgetOut {
        depth: u32,
    },
}

/// What a search of levels answers: the works of the exhausted levels from level 0 on, and its end.
#[derive(Drop)]
pub struct Outcome {
    pub works: Vec<u64>,
    pub end: DeepEnd,
}

/// Searches the levels of a maker from 0 to `depth`, at most 250, in order, each with a budget of
/// at most 10^12 attempts, up to the first that isn't exhausted.
pub fn deepen_alone<M: Maker>(
    alloc: Global,
    maker: &M,
    depth: u32,
    budget: u64,
) -> Result<Outcome, AllocError>
    requires depth { depth ≤ 250 }
    requires budget { budget ≤ 10 ^ 12 }
    ensures { IfOk result
        (λ outcome. IsAnswer (M.key_at maker.now) depth budget outcome.works.items outcome.end) }
{
    let mut works = Vec::new(alloc);
    'levels: for level in 0..depth + 1 {
        match run_level_alone(alloc, maker, level, budget)? {
            LevelEnd::Exhausted { work } => works.push(work)?,
            LevelEnd::Found { path, work } => {
                let depth = level;
                let end = DeepEnd::Proof { depth, path, work };
                return Ok(Outcome { works, end });
            }
            LevelEnd::Over => {
                let end = DeepEnd::BudgetOut { depth: level };
                return Ok(Outcome { works, end });
            }
        }
    }
    let end = DeepEnd::DepthReached;
    Ok(Outcome { works, end })
}

/// The answer of a search of a problem's levels is determined by the problem, the class, the start
/// rule, the last level and the budget: two answers are equal.
pub fn answer_is_determined()
    ensures { AnswerIsDetermined }
{}

#[cfg(test)]
mod tests;
