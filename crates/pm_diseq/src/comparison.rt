//! What keeps two lists of cells apart.
ghost use Rattle.std.specs.Prelude.{◌≡◌, ◌++◌, [], IfOk, OnOk};
ghost use Rattle.std.specs.List.{zip};
ghost use Rattle.pm_diseq.specs.Notes.{as_pair};
ghost use Rattle.pm_diseq.specs.Standing.{IsWithin};
ghost use Rattle.pm_diseq.specs.Inside.Comparing.{Tells, MayNote};

use indexmap::IndexSet;
use pm_store::{Addr, Cell, Store, stores_are_sound};
use smallvec::SmallVec;
use std::alloc::{AllocError, Global};

/// What keeps two lists of cells apart.
#[derive(Clone, Copy, Debug)]
pub enum Difference {
    /// They are identical.
    Nothing,
    /// They differ whatever is bound.
    Clash,
    /// They differ as long as the variable is free.
    OneVariable(Addr),
    /// They differ as long as both variables are free.
    TwoVariables(Addr, Addr),
}

// So many pairs of cells are taken apart before the first note: most terms need no more.
const UNNOTED: u32 = 256;

/// Compares two lists of cells, as long as each other, side by side up to a difference. Cells that
/// stand in them many times are compared once.
pub fn compare(
    alloc: Global,
    store: &Store,
    left: &[Addr],
    right: &[Addr],
) -> Result<Difference, AllocError>
    requires { IsWithin store.now (as_pair left.now right.now) }
    ensures { IfOk result (Tells store.now (as_pair left.now right.now)) }
{
    Comparison::new(alloc).difference(store, left, right)
}

// A comparison on its way.
#[derive(Drop)]
struct Comparison {
    // Cells at the same places, which are still to be compared.
    pending: SmallVec<(Addr, Addr), 8>,
    // The cells that were taken apart, each of which is passed over when it is met again.
    taken: IndexSet<(Addr, Addr)>,
    // How many are still taken apart without a note.
    unnoted: u32,
}

impl Comparison {
    fn new(alloc: Global) -> Comparison
        ensures pending { result.pending.items ≡ [] }
        ensures taken { result.taken.keys ≡ [] }
    {
        Comparison {
            pending: SmallVec::new(alloc),
            taken: IndexSet::new(alloc),
            unnoted: UNNOTED,
        }
    }

    // What keeps the lists apart. Nothing was compared before.
    fn difference(
        &mut self,
        store: &Store,
        left: &[Addr],
        right: &[Addr],
    ) -> Result<Difference, AllocError>
        requires pending { self.old.pending.items ≡ [] }
        requires taken { self.old.taken.keys ≡ [] }
        requires within { IsWithin store.now (as_pair left.now right.now) }
        ensures { IfOk result (Tells store.now (as_pair left.now right.now)) }
    {
        stores_are_sound(store);
        add_places(&mut self.pending, left, right)?;
        'places: while let Some((a, b)) = self.pending.pop() {
            if a == b {
                continue;
            }
            match store.look(a) {
                Cell::Free(v) => match store.look(b) {
                    Cell::Free(w) => {
                        if v != w {
                            return Ok(Difference::TwoVariables(v, w));
                        }
                    }
                    Cell::App { .. } => return Ok(Difference::OneVariable(v)),
                },
                Cell::App {
                    symbol: f,
                    args: xs,
                } => match store.look(b) {
                    Cell::Free(w) => return Ok(Difference::OneVariable(w)),
                    Cell::App {
                        symbol: g,
                        args: ys,
                    } => {
                        if f != g || xs.len() != ys.len() {
                            return Ok(Difference::Clash);
                        }
                        if note(&mut self.taken, &mut self.unnoted, a, b, xs.is_empty())? {
                            add_places(&mut self.pending, xs, ys)?;
                        }
                    }
                },
            }
        }
        Ok(Difference::Nothing)
    }
}

// Notes two cells that are taken apart, and answers whether they are new. Cells without arguments
// need no note, and the first ones count as new without a note.
fn note(
    taken: &mut IndexSet<(Addr, Addr)>,
    unnoted: &mut u32,
    a: Addr,
    b: Addr,
    is_last: bool,
) -> Result<bool, AllocError>
    ensures { IfOk result (MayNote taken.old.keys (a, b) taken.new.keys) }
{
    if is_last {
        return Ok(true);
    }
    if *unnoted > 0 {
        *unnoted -= 1;
        return Ok(true);
    }
    Ok(taken.insert((a, b))?)
}

// Adds the cells at the same places of two lists.
fn add_places(
    pending: &mut SmallVec<(Addr, Addr), 8>,
    left: &[Addr],
    right: &[Addr],
) -> Result<(), AllocError>
    ensures { OnOk result (pending.new.items ≡ pending.old.items ++ zip left.now right.now) }
{
    'places: for (&x, &y) in left.iter().zip(right) {
        pending.push((x, y))?;
    }
    Ok(())
}
