//! Tests over lists of digits: the search by one and by workers.
ghost use Rattle.std.specs.Prelude.{◌≤◌, ◌^◌};

use super::*;
use pm_outside::OpenGate;
use pm_space::ToyMaker;
use std::alloc::Global;
use std::sync::Wait;
use std::test::Fail;
use std::thread::Threads;

mod failing;

#[test]
fn ends(rt: HostRuntime) -> Result<(), Fail> {
    let maker = ToyMaker::new(2, 5, 31);
    let LevelEnd::Found { path, work } = run_level_alone(rt.alloc(), &maker, 0, 1_000)? else {
        panic!(rt; "not found");
    };
    assert_eq!(rt; path.as_slice(), [1, 1, 1, 1, 1].as_slice());
    assert_eq!(rt; work, 62);
    let LevelEnd::Found { path: _, work } = run_level_alone(rt.alloc(), &maker, 7, 62)? else {
        panic!(rt; "not found within its work");
    };
    assert_eq!(rt; work, 62);
    let LevelEnd::Over = run_level_alone(rt.alloc(), &maker, 0, 61)? else {
        panic!(rt; "not over");
    };
    let none = ToyMaker::new(2, 5, 32);
    let LevelEnd::Exhausted { work } = run_level_alone(rt.alloc(), &none, 250, 62)? else {
        panic!(rt; "not exhausted");
    };
    assert_eq!(rt; work, 62);
    Ok(())
}

/// The end of level 0; none after want of memory.
pub fn end_by<R: Threads + Wait + Sync>(
    rt: &R,
    alloc: Global,
    maker: &ToyMaker,
    workers: u16,
    budget: u64,
) -> Option<LevelEnd>
    requires { (1 ≤ workers) × (workers ≤ 64) × (budget ≤ 10 ^ 12) }
{
    match run_level(rt, alloc, maker, 0, &OpenGate, workers, budget) {
        Ok(run) => Some(run.end),
        Err(_) => None,
    }
}

// Whether the end names this path and this work.
pub fn is_found(end: Option<LevelEnd>, list: &[u32], count: u64) -> bool {
    match end {
        Some(LevelEnd::Found { path, work }) => path.as_slice() == list && work == count,
        _ => false,
    }
}

// Whether the level is exhausted with this work.
pub fn is_exhausted(end: Option<LevelEnd>, count: u64) -> bool {
    match end {
        Some(LevelEnd::Exhausted { work }) => work == count,
        _ => false,
    }
}

// Whether the budget is exceeded.
pub fn is_over(end: Option<LevelEnd>) -> bool {
    matches!(end, Some(LevelEnd::Over))
}

#[test]
fn found_by_workers(rt: HostRuntime) -> Result<(), Fail> {
    let alloc = rt.alloc();
    // 200,000 is 4 1 4 1 5 3 2 in base 6, attempt number 240,003 of 335,922.
    let maker = ToyMaker::new(6, 7, 200_000);
    let path = [4, 1, 4, 1, 5, 3, 2];
    assert!(rt; is_found(end_by(&rt, alloc, &maker, 1, 1_000_000), &path, 240_003));
    assert!(rt; is_found(end_by(&rt, alloc, &maker, 2, 1_000_000), &path, 240_003));
    assert!(rt; is_found(end_by(&rt, alloc, &maker, 4, 1_000_000), &path, 240_003));
    assert!(rt; is_found(end_by(&rt, alloc, &maker, 64, 1_000_000), &path, 240_003));
    Ok(())
}

#[test]
fn exhausted_by_workers(rt: HostRuntime) -> Result<(), Fail> {
    let alloc = rt.alloc();
    // 300,000 is no number of seven digits in base 6.
    let maker = ToyMaker::new(6, 7, 300_000);
    assert!(rt; is_exhausted(end_by(&rt, alloc, &maker, 1, 335_922), 335_922));
    assert!(rt; is_exhausted(end_by(&rt, alloc, &maker, 4, 335_922), 335_922));
    assert!(rt; is_exhausted(end_by(&rt, alloc, &maker, 64, 335_922), 335_922));
    assert!(rt; is_over(end_by(&rt, alloc, &maker, 1, 335_921)));
    assert!(rt; is_over(end_by(&rt, alloc, &maker, 4, 335_921)));
    assert!(rt; is_over(end_by(&rt, alloc, &maker, 64, 10_000)));
    Ok(())
}
