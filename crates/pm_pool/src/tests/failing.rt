//! Spaces in which one step finds no memory.
use super::*;
use pm_space::{Maker, Space};
use std::alloc::{AllocError, Global};

// Makes the spaces of another maker, in each of which one step finds no memory.
#[derive(Drop)]
struct FailingMaker<M: Maker + Drop> {
    inner: M,
    fails_at: u64,
}

// A space that counts its steps. The one of this number finds no memory.
#[derive(Drop)]
struct FailingSpace<S: Space> {
    inner: S,
    fails_at: u64,
    steps: u64,
}

impl<M: Maker + Drop> Maker for FailingMaker<M> {
    type Made = FailingSpace<M::Made>;

    ghost key_at = { λ maker level. M.key_at maker.inner level };

    fn make(&self, alloc: Global, level: u32) -> Result<FailingSpace<M::Made>, AllocError> {
        Ok(FailingSpace {
            inner: self.inner.make(alloc, level)?,
            fails_at: self.fails_at,
            steps: 0,
        })
    }
}

impl<S: Space> Space for FailingSpace<S> {
    ghost path = { λ space. S.path space.inner };

    ghost key = { λ space. S.key space.inner };

    fn width(&self) -> u32 {
        self.inner.width()
    }

    fn is_complete(&self) -> bool {
        self.inner.is_complete()
    }

    fn length(&self) -> usize {
        self.inner.length()
    }

    fn step(&mut self, k: u32) -> Result<bool, AllocError> {
        let number = self.steps;
        self.steps = number.saturating_add(1);
        if number == self.fails_at {
            return Err(AllocError);
        }
        self.inner.step(k)
    }

    fn back(&mut self) {
        self.inner.back();
    }

    fn hopeful(&self, from: u32) -> u32 {
        self.inner.hopeful(from)
    }

    ghost is_key = { λ space. S.is_key space.inner };
}

// Whether two workers find the path in spaces whose step of this number fails, or are short of
// memory.
fn holds_at<R: Threads + Wait + Sync>(rt: &R, alloc: Global, step: u64) -> bool {
    let maker = FailingMaker {
        inner: ToyMaker::new(2, 5, 31),
        fails_at: step,
    };
    match run_level(rt, alloc, &maker, 0, &OpenGate, 2, 1_000) {
        Ok(run) => is_found(Some(run.end), &[1, 1, 1, 1, 1], 62),
        Err(_) => true,
    }
}

#[test]
fn a_step_without_memory(rt: HostRuntime) -> Result<(), Fail> {
    for step in 0..50 {
        assert!(rt; holds_at(&rt, rt.alloc(), step));
    }
    Ok(())
}
