//! The cells of the ground terms of a problem.
ghost use Rattle.std.specs.Prelude.{◌≡◌, ◌<◌, All, IfOk, List, Option, Some, length, map, slice_get};
ghost use Rattle.std.specs.Option.{option_map};
ghost use Rattle.pm_logic.specs.Term.{Term, tree_at};
ghost use Rattle.pm_store.specs.Equations.{Equations};
ghost use Rattle.pm_store.specs.Sound.{IsSound};
ghost use Rattle.pm_store.specs.Marks.{IsLater};
ghost use Rattle.pm_run.specs.Runner.{HasGroundCells};
ghost use Rattle.pm_run.specs.Inside.Ground.{IsGroundCell, AreGroundCells, AreArgCells};

use pm_logic::{Row, TermId, TermTable};
use pm_store::{Addr, Store};
use smallvec::SmallVec;
use std::alloc::{AllocError, Global};

// Makes the cells of the ground terms, and gives them by rows: none for a term with variables.
pub(crate) fn ground_cells(
    alloc: Global,
    terms: &TermTable,
    store: &mut Store,
) -> Result<Vec<Option<Addr>>, AllocError>
    ensures count { IfOk result (λ cells. length cells.items ≡ length terms.now) }
    ensures cells { IfOk result (λ cells. HasGroundCells terms.now cells.items store.new) }
    ensures later { IsLater store.old store.new }
{
    let mut cells = Vec::new(alloc);
    'rows: for row in 0..terms.len() {
        let cell = ground_cell(alloc, terms, terms.id(row), &cells, store)?;
        cells.push(cell)?;
    }
    Ok(cells)
}

// Makes the cell of a row's term, if it is ground, over those of the rows before.
fn ground_cell(
    alloc: Global,
    terms: &TermTable,
    id: TermId,
    cells: &[Option<Addr>],
    store: &mut Store,
) -> Result<Option<Addr>, AllocError>
    requires within { id < length terms.now }
    requires count { length cells.now ≡ id }
    requires cells { AreGroundCells terms.now cells.now store.old }
    ensures cell { IfOk result (IsGroundCell store.new (tree_at terms.now id)) }
    ensures later { IsLater store.old store.new }
{
    let Row::App { symbol, args } = terms.look(id) else {
        return Ok(None);
    };
    match cells_of_args(alloc, cells, args)? {
        Some(args) => Ok(Some(store.make(symbol, &args)?)),
        None => Ok(None),
    }
}

// The cells of the rows of arguments, if each has one.
fn cells_of_args(
    alloc: Global,
    cells: &[Option<Addr>],
    args: &[TermId],
) -> Result<Option<SmallVec<Addr, 8>>, AllocError>
    requires { All (λ arg. arg < length cells.now) args.now }
    ensures { (terms : List Term) (s : Equations) → AreGroundCells terms cells.now s
        → IfOk result (λ found. AreArgCells terms s args.now
        (option_map (λ items. items.items) found)) }
{
    let mut found = SmallVec::new(alloc);
    'args: for &arg in args {
        match cell_at(cells, arg.row()) {
            Some(cell) => found.push(cell)?,
            None => return Ok(None),
        }
    }
    Ok(Some(found))
}

// The cell at this place, if there is one.
fn cell_at(cells: &[Option<Addr>], place: usize) -> Option<Addr>
    requires { place < length cells.now }
    ensures { slice_get cells.now place ≡ Some result }
{
    cells[place]
}
