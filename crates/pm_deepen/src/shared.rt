//! Levels, each searched by workers.
#![tactic(auto)]

ghost use Rattle.std.specs.Prelude.{◌≤◌, ◌^◌, IfOk};
ghost use Rattle.pm_pool.specs.Level.{EndsLevel};
ghost use Rattle.pm_deepen.specs.Answer.{IsAnswer};

use super::{DeepEnd, Outcome};
use pm_outside::Gate;
use pm_pool::{LevelEnd, LevelRun, run_level};
use pm_space::Maker;
use std::alloc::{AllocError, Global};
use std::sync::Wait;
use std::thread::Threads;

// The end of a level.
fn level_end<M: Maker + Sync, G: Gate + Sync, R: Threads + Wait + Sync>(
    rt: &R,
    alloc: Global,
    maker: &M,
    gate: &G,
    workers: u16,
    level: u32,
    budget: u64,
) -> Result<LevelEnd, AllocError>
    requires workers { (1 ≤ workers) × (workers ≤ 64) }
    requires level { level ≤ 250 }
    requires budget { budget ≤ 10 ^ 12 }
    ensures { IfOk result (EndsLevel (M.key_at maker.now level) budget) }
{
    let LevelRun { end, .. } = run_level(rt, alloc, maker, level, gate, workers, budget)?;
    Ok(end)
}

/// Searches the levels as `deepen_alone`, each by 1 to 64 workers. The answer is the same, whatever
/// the schedule and the gate.
pub fn deepen<M: Maker + Sync, G: Gate + Sync, R: Threads + Wait + Sync>(
    rt: &R,
    alloc: Global,
    maker: &M,
    gate: &G,
    workers: u16,
    depth: u32,
    budget: u64,
) -> Result<Outcome, AllocError>
    requires workers { (1 ≤ workers) × (workers ≤ 64) }
    requires depth { depth ≤ 250 }
    requires budget { budget ≤ 10 ^ 12 }
    ensures { IfOk result
        (λ outcome. IsAnswer (M.key_at maker.now) depth budget outcome.works.items outcome.end) }
{
    let mut works = Vec::new(alloc);
    'levels: for level in 0..depth + 1 {
        match level_end(rt, alloc, maker, gate, workers, level, budget)? {
            LevelEnd::Exhausted { work } => works.push(work)?,
            LevelEnd::Found { path, work } => {
                let depth = level;
                let end = DeepEnd::Proof { depth, path, work };
                return Ok(Outcome { works, end });
            }
            LevelEnd::Over => {
                let end = DeepEnd::BudgetOut { depth: level };
                return Ok(Outcome { works, end });
            }
        }
    }
    let end = DeepEnd::DepthReached;
    Ok(Outcome { works, end })
}
