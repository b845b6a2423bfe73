//! Whether a variable occurs in a cell's tree.
ghost use Rattle.std.specs.Prelude.{◌≡◌, ◌↔◌, ◌<◌, All, length, map, IsTrue, IfOk, IfSome};
ghost use Rattle.pm_logic.specs.Term.{as_terms};
ghost use Rattle.pm_store.specs.Sound.{IsSound};
ghost use Rattle.pm_store.specs.Trees.{tree, Occurs, OccursAmong};
ghost use Rattle.pm_unify.specs.Inside.Support.{Notes};

use indexmap::IndexSet;
use pm_store::{Addr, Cell, Store};
use smallvec::SmallVec;
use std::alloc::{AllocError, Global};

/// Whether the variable occurs in the cell's tree.
pub fn occurs(alloc: Global, store: &Store, v: Addr, t: Addr) -> Result<bool, AllocError>
    requires sound { IsSound store.now }
    requires within { t < length store.now.cells }
    ensures { IfOk result (λ answer. IsTrue answer ↔ Occurs v (tree store.now t)) }
{
    match store.look(t) {
        Cell::Free(w) => Ok(w == v),
        Cell::App { args, .. } => match occurs_at_once(store, v, args) {
            Some(answer) => Ok(answer),
            None => occurs_below(alloc, store, v, t),
        },
    }
}

// Whether the variable occurs in the trees of the cells, where one look at each of them tells.
fn occurs_at_once(store: &Store, v: Addr, cells: &[Addr]) -> Option<bool>
    requires sound { IsSound store.now }
    requires within { All (λ c. c < length store.now.cells) cells.now }
    ensures { IfSome result (λ answer. IsTrue answer
        ↔ OccursAmong v (as_terms (map (tree store.now) cells.now))) }
{
    'cells: for &cell in cells.iter() {
        match store.look(cell) {
            Cell::Free(w) => {
                if w == v {
                    return Some(true);
                }
            }
            Cell::App { args, .. } => {
                if !args.is_empty() {
                    return None;
                }
            }
        }
    }
    Some(false)
}

// So many cells are gone into before the first note: most terms have no more.
const UNNOTED: u32 = 256;

// Whether the variable occurs in the cell's tree. Past the first cells, each is gone into once.
fn occurs_below(alloc: Global, store: &Store, v: Addr, t: Addr) -> Result<bool, AllocError>
    requires sound { IsSound store.now }
    requires within { t < length store.now.cells }
    ensures { IfOk result (λ answer. IsTrue answer ↔ Occurs v (tree store.now t)) }
{
    let mut visited = IndexSet::new(alloc);
    let mut unnoted = UNNOTED;
    let mut pending: SmallVec<Addr, 8> = SmallVec::new(alloc);
    pending.push(t)?;
    while let Some(cell) = pending.pop() {
        match store.look(cell) {
            Cell::Free(w) => {
                if w == v {
                    return Ok(true);
                }
            }
            Cell::App { args, .. } => {
                if visit(&mut visited, &mut unnoted, cell)? {
                    pending.extend_from_slice(args)?;
                }
            }
        }
    }
    Ok(false)
}

// Notes the cell, and answers whether it is new. The first ones count as new without a note.
fn visit(visited: &mut IndexSet<Addr>, unnoted: &mut u32, cell: Addr) -> Result<bool, AllocError>
    ensures { IfOk result (Notes visited.old.keys visited.new.keys cell) }
{
    if *unnoted > 0 {
        *unnoted -= 1;
        return Ok(true);
    }
    Ok(visited.insert(cell)?)
}
