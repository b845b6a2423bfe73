//! The unification of two lists of cells.
ghost use Rattle.std.specs.Prelude.{◌≡◌, IfOk, OnErr, length};
ghost use Rattle.std.specs.Bool.{OnTrue, OnFalse};
ghost use Rattle.pm_store.specs.Sound.{IsSound};
ghost use Rattle.pm_store.specs.Marks.{IsLater};
ghost use Rattle.pm_run.specs.Meaning.{Unites};
ghost use Rattle.pm_run.specs.Failure.{CannotUnite};
ghost use Rattle.pm_run.specs.InStore.{AreBelow};
ghost use Rattle.pm_run.specs.Inside.Uniting.{United};

use pm_store::{Addr, Store};
use pm_unify::unify;
use std::alloc::{AllocError, Global};

/// Unifies the cells of two lists of one length in turn, as the code of a reduction does: on true
/// all pairs were unified. On false no solution of the store makes all pairs equal. On false and
/// after want of memory the store is as before.
pub fn unite(
    alloc: Global,
    store: &mut Store,
    left: &[Addr],
    right: &[Addr],
) -> Result<bool, AllocError>
    requires lengths { length left.now ≡ length right.now }
    requires left { AreBelow (length store.old.cells) left.now }
    requires right { AreBelow (length store.old.cells) right.now }
    ensures unites { IfOk result (λ answer. OnTrue answer
        (Unites store.old left.now right.now store.new)) }
    ensures fails { IfOk result (λ answer. OnFalse answer
        (CannotUnite store.old left.now right.now)) }
    ensures before { IfOk result (λ answer. OnFalse answer (store.new ≡ store.old)) }
    ensures err { OnErr result (store.new ≡ store.old) }
    ensures sound { IsSound store.new }
{
    let mark = store.mark();
    let united = unite_each(alloc, store, left, right);
    if !matches!(united, Ok(true)) {
        store.undo(mark);
    }
    united
}

// Unifies the pairs in turn, until one can't be. The bindings stay in each case.
fn unite_each(
    alloc: Global,
    store: &mut Store,
    left: &[Addr],
    right: &[Addr],
) -> Result<bool, AllocError>
    requires sound { IsSound store.old }
    requires lengths { length left.now ≡ length right.now }
    requires left { AreBelow (length store.old.cells) left.now }
    requires right { AreBelow (length store.old.cells) right.now }
    ensures united { IfOk result (United store.old left.now right.now store.new) }
    ensures later { IsLater store.old store.new }
    ensures sound { IsSound store.new }
{
    'pairs: for (i, &cell) in left.iter().enumerate() {
        if !unify(alloc, store, cell, right[i])? {
            return Ok(false);
        }
    }
    Ok(true)
}
