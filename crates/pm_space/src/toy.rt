//! A small space for tests: lists of digits of which at most one of full length is complete.
ghost use Rattle.std.specs.Prelude.{◌≡◌, ◌<◌, ◌≤◌};
ghost use Rattle.pm_space.specs.Toy.{toy_key, value_of, IsInToy};
ghost use Rattle.pm_space.specs.Inside.ToyLaws.{toy_laws};

use super::*;

/// What makes toy spaces: for every level the same one.
#[derive(Drop)]
pub struct ToyMaker {
    branch: u32,
    length: u32,
    goal: u64,
    ghost wide: { 1 ≤ branch },
    ghost narrow: { branch ≤ 10 },
    ghost long: { 1 ≤ length },
    ghost short: { length ≤ 10 },
}

/// The lists of at most `length` digits below `branch`. Complete are those of full length that read
/// as `goal` in base `branch`, the highest digit first.
#[derive(Drop)]
pub struct ToySpace {
    branch: u32,
    length: u32,
    goal: u64,
    path: Vec<u32>,
    // What the path reads as.
    value: u64,
    ghost wide: { 1 ≤ branch },
    ghost narrow: { branch ≤ 10 },
    ghost long: { 1 ≤ length },
    ghost short: { length ≤ 10 },
    ghost inside: { IsInToy branch length path.items },
    ghost reads: { value ≡ value_of branch path.items },
}

impl ToyMaker {
    /// A maker of the space of at most `length` digits below `branch`, with this goal.
    pub fn new(branch: u32, length: u32, goal: u64) -> ToyMaker
        requires wide { 1 ≤ branch }
        requires narrow { branch ≤ 10 }
        requires long { 1 ≤ length }
        requires short { length ≤ 10 }
        ensures branch { result.branch ≡ branch }
        ensures length { result.length ≡ length }
        ensures goal { result.goal ≡ goal }
    {
        ToyMaker {
            branch,
            length,
            goal,
        }
    }
}

impl Maker for ToyMaker {
    type Made = ToySpace;

    ghost key_at = { λ maker level. toy_key maker.branch maker.length maker.goal };

    fn make(&self, alloc: Global, _level: u32) -> Result<ToySpace, AllocError> {
        Ok(ToySpace {
            branch: self.branch,
            length: self.length,
            goal: self.goal,
            path: Vec::new(alloc),
            value: 0,
        })
    }
}

impl Space for ToySpace {
    ghost path = { λ toy. toy.path.items };

    ghost key = { λ toy. toy_key toy.branch toy.length toy.goal };

    fn width(&self) -> u32 {
        if self.path.len() < self.length as usize {
            self.branch
        } else {
            0
        }
    }

    fn is_complete(&self) -> bool {
        self.path.len() == self.length as usize && self.value == self.goal
    }

    fn length(&self) -> usize {
        self.path.len()
    }

    fn step(&mut self, k: u32) -> Result<bool, AllocError> {
        self.path.push(k)?;
        self.value = self.value * self.branch as u64 + k as u64;
        Ok(true)
    }

    fn back(&mut self) {
        let _digit = self.path.pop();
        self.value = self.value / self.branch as u64;
    }

    fn hopeful(&self, from: u32) -> u32 {
        from
    }

    ghost is_key = { λ toy. toy_laws toy.branch toy.length toy.goal toy.long };
}
