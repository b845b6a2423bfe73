//! Pairs of cells that are to be made equal, and how they are taken apart.
ghost use Rattle.std.specs.Prelude.{◌≡◌, ◌<◌, ◌++◌, ◌∷◌, [], length, IfOk, OnOk};
ghost use Rattle.std.specs.List.{zip};
ghost use Rattle.pm_store.specs.Sound.{IsSound};
ghost use Rattle.pm_unify.specs.Inside.Support.{Notes};
ghost use Rattle.pm_unify.specs.Inside.Pairs.{ArePairsWithin, AreSupported};
ghost use Rattle.pm_unify.specs.Inside.Steps.{Takes};

use indexmap::IndexSet;
use pm_store::{Addr, Cell, Store};
use smallvec::SmallVec;
use std::alloc::{AllocError, Global};

/// What is to be done next.
#[derive(Clone, Copy, Debug)]
pub enum Step {
    /// No pair is pending.
    Done,
    /// A pair can't be made equal.
    Clash,
    /// The free variable is to be bound to the cell, unless it occurs in its tree.
    Bind(Addr, Addr),
}

/// Pairs of cells that are to be made equal.
#[derive(Drop)]
pub struct Pairs {
    pub pending: SmallVec<(Addr, Addr), 8>,
    /// The pairs that were taken apart, each of which is passed over when it is met again: it is
    /// equal where what is pending is.
    pub taken: IndexSet<(Addr, Addr)>,
    // How many pairs are still taken apart without a note.
    unnoted: u32,
}

// So many pairs are taken apart before the first note: most terms need no more.
const UNNOTED: u32 = 256;

impl Pairs {
    /// One pending pair.
    pub fn new(alloc: Global, a: Addr, b: Addr) -> Result<Pairs, AllocError>
        ensures pending { IfOk result (λ pairs. pairs.pending.items ≡ (a, b) ∷ []) }
        ensures taken { IfOk result (λ pairs. pairs.taken.keys ≡ []) }
    {
        let mut pending = SmallVec::new(alloc);
        pending.push((a, b))?;
        Ok(Pairs {
            pending,
            taken: IndexSet::new(alloc),
            unnoted: UNNOTED,
        })
    }

    /// Takes pending pairs apart until one needs a binding.
    pub fn next_step(&mut self, store: &Store) -> Result<Step, AllocError>
        requires sound { IsSound store.now }
        requires within { ArePairsWithin store.now self.old.pending.items }
        requires supported { AreSupported store.now self.old.pending.items self.old.taken.keys }
        ensures { IfOk result (Takes store.now self.old.pending.items self.old.taken.keys
            self.new.pending.items self.new.taken.keys) }
    {
        while let Some((a, b)) = self.pending.pop() {
            if a == b {
                continue;
            }
            match store.look(a) {
                Cell::Free(v) => match store.look(b) {
                    Cell::Free(w) => {
                        if v != w {
                            return Ok(Step::Bind(v, w));
                        }
                    }
                    Cell::App { .. } => return Ok(Step::Bind(v, store.end(b))),
                },
                Cell::App {
                    symbol: f,
                    args: left,
                } => match store.look(b) {
                    Cell::Free(w) => return Ok(Step::Bind(w, store.end(a))),
                    Cell::App {
                        symbol: g,
                        args: right,
                    } => {
                        if f != g || left.len() != right.len() {
                            return Ok(Step::Clash);
                        }
                        if take(&mut self.taken, &mut self.unnoted, a, b, left.is_empty())? {
                            add_pairs(&mut self.pending, left, right)?;
                        }
                    }
                },
            }
        }
        Ok(Step::Done)
    }
}

// Notes the pair, and answers whether it is new. One that has no parts needs no note, and the first
// ones count as new without a note.
fn take(
    taken: &mut IndexSet<(Addr, Addr)>,
    unnoted: &mut u32,
    a: Addr,
    b: Addr,
    is_last: bool,
) -> Result<bool, AllocError>
    ensures { IfOk result (Notes taken.old.keys taken.new.keys (a, b)) }
{
    if is_last {
        return Ok(true);
    }
    if *unnoted > 0 {
        *unnoted -= 1;
        return Ok(true);
    }
    Ok(taken.insert((a, b))?)
}

// Adds the pairs of cells at the same places.
fn add_pairs(
    pending: &mut SmallVec<(Addr, Addr), 8>,
    left: &[Addr],
    right: &[Addr],
) -> Result<(), AllocError>
    ensures { OnOk result (pending.new.items ≡ pending.old.items ++ zip left.now right.now) }
{
    for (&x, &y) in left.iter().zip(right) {
        pending.push((x, y))?;
    }
    Ok(())
}
