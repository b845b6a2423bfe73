//! What single instructions do.
ghost use Rattle.std.specs.Prelude.{◌≡◌, ◌<◌, ◌≤◌, ◌+◌, ◌++◌, ◌∷◌, [], ℕ, true, All, IfOk, List, OnOk, Option, Some, length, map, reverse, slice_get};
ghost use Rattle.std.specs.List.{range_with_len};
ghost use Rattle.pm_logic.specs.Term.{tree_at};
ghost use Rattle.pm_store.specs.Equations.{Equations, IsFree, with_new_variables};
ghost use Rattle.pm_store.specs.Marks.{IsLater};
ghost use Rattle.pm_store.specs.Sound.{IsSound};
ghost use Rattle.pm_unify.specs.Unified.{Answers};
ghost use Rattle.pm_compile.specs.Instructions.{FIRST, AGAIN, MEET, GROUND, MAKE, CONST, GOAL};
ghost use Rattle.pm_compile.specs.Scheme.{is_ground};
ghost use Rattle.pm_run.specs.State.{CellLiteral, Child, with_changed, closed_child};
ghost use Rattle.pm_run.specs.Meaning.{all_set, new_cells, unset_count, with_application};
ghost use Rattle.pm_run.specs.InStore.{AreBelow};
ghost use Rattle.pm_run.specs.Runner.{HasGroundCells, child_of};
ghost use Rattle.pm_run.specs.Inside.Ready.{Finds};
ghost use Rattle.pm_run.specs.Inside.Running.{Performs, state_of};

use crate::children::NewChild;
use crate::program::Program;
use pm_logic::TermId;
use pm_store::{Addr, Cell, Store};
use pm_unify::unify;
use smallvec::SmallVec;
use std::alloc::{AllocError, Global};

// The cell at a place where one is: in the local of a variable, or of the ground term of a row.
pub(crate) fn cell_in(cells: &[Option<Addr>], place: usize) -> Addr
    requires { (c : ℕ) × (slice_get cells.now place ≡ Some (Some c)) }
    ensures { slice_get cells.now place ≡ Some (Some result) }
{
    match cells[place] {
        Some(cell) => cell,
        None => unreachable!(),
    }
}

// Takes the top of the stack.
fn pop(stack: &mut Vec<Addr>) -> Addr
    requires { 0 < length stack.old.items }
    ensures { stack.old.items ≡ stack.new.items ++ result ∷ [] }
{
    match stack.pop() {
        Some(cell) => cell,
        None => unreachable!(),
    }
}

// Pushes cells, the last first.
pub(crate) fn push_reversed(stack: &mut Vec<Addr>, cells: &[Addr]) -> Result<(), AllocError>
    ensures { OnOk result (stack.new.items ≡ stack.old.items ++ reverse cells.now) }
{
    'cells: for &cell in cells.iter().rev() {
        stack.push(cell)?;
    }
    Ok(())
}

// Takes the top of the stack, and puts it in the local of the variable.
pub(crate) fn set_first(locals: &mut Vec<Option<Addr>>, stack: &mut Vec<Addr>, x: u32)
    requires { Finds (FIRST x) locals.old.items (length stack.old.items) }
    ensures { (s : Equations) (children : List Child) (branch : List CellLiteral)
        → Performs (FIRST x) (state_of locals.old.items s stack.old.items children branch)
        (state_of locals.new.items s stack.new.items children branch) true }
{
    let cell = pop(stack);
    locals[x as usize] = Some(cell);
}

// Takes the top of the stack, and unifies it with the cell.
fn unify_top(
    alloc: Global,
    store: &mut Store,
    stack: &mut Vec<Addr>,
    cell: Addr,
) -> Result<bool, AllocError>
    requires top { 0 < length stack.old.items }
    requires stack { AreBelow (length store.old.cells) stack.old.items }
    requires cell { cell < length store.old.cells }
    ensures answers { IfOk result (λ answer. (top : ℕ)
        × (stack.old.items ≡ stack.new.items ++ top ∷ [])
        × Answers store.old store.new top cell answer) }
    ensures later { IsLater store.old store.new }
{
    let top = pop(stack);
    unify(alloc, store, top, cell)
}

// Takes the top of the stack, and unifies it with the local of the variable.
pub(crate) fn unify_local(
    alloc: Global,
    store: &mut Store,
    locals: &[Option<Addr>],
    stack: &mut Vec<Addr>,
    x: u32,
) -> Result<bool, AllocError>
    requires finds { Finds (AGAIN x) locals.now (length stack.old.items) }
    requires locals { (c : ℕ) → slice_get locals.now x ≡ Some (Some c)
        → c < length store.old.cells }
    requires stack { AreBelow (length store.old.cells) stack.old.items }
    ensures unified { IfOk result (λ answer. (children : List Child) (branch : List CellLiteral)
        → Performs (AGAIN x) (state_of locals.now store.old stack.old.items children branch)
        (state_of locals.now store.new stack.new.items children branch) answer) }
    ensures later { IsLater store.old store.new }
{
    unify_top(alloc, store, stack, cell_in(locals, x as usize))
}

// Takes the top of the stack, and unifies it with the cell of the ground term.
pub(crate) fn unify_ground(
    program: &Program,
    store: &mut Store,
    stack: &mut Vec<Addr>,
    t: TermId,
) -> Result<bool, AllocError>
    requires row { t < length program.now.problem.now.terms }
    requires finds { Finds (GROUND (tree_at program.now.problem.now.terms t)) []
        (length stack.old.items) }
    requires cells { HasGroundCells program.now.problem.now.terms program.now.cells.items
        store.old }
    requires stack { AreBelow (length store.old.cells) stack.old.items }
    ensures unified { IfOk result (λ answer. (locals : List (Option ℕ)) (children : List Child)
        (branch : List CellLiteral) → Performs (GROUND (tree_at program.now.problem.now.terms t))
        (state_of locals store.old stack.old.items children branch)
        (state_of locals store.new stack.new.items children branch) answer) }
    ensures later { IsLater store.old store.new }
{
    unify_top(program.alloc, store, stack, program.cell(t))
}

// Pushes the cell of the ground term.
pub(crate) fn push_ground(
    program: &Program,
    stack: &mut Vec<Addr>,
    t: TermId,
) -> Result<(), AllocError>
    requires row { t < length program.now.problem.now.terms }
    requires term { is_ground (tree_at program.now.problem.now.terms t) ≡ true }
    requires cells { (s : Equations)
        × HasGroundCells program.now.problem.now.terms program.now.cells.items s }
    ensures { OnOk result ((s : Equations)
        → HasGroundCells program.now.problem.now.terms program.now.cells.items s
        → (locals : List (Option ℕ)) (children : List Child) (branch : List CellLiteral)
        → Performs (CONST (tree_at program.now.problem.now.terms t))
        (state_of locals s stack.old.items children branch)
        (state_of locals s stack.new.items children branch) true) }
{
    stack.push(program.cell(t))?;
    Ok(())
}

// Takes the top of the stack, which is to be an application of the symbol to so many arguments, and
// pushes these, the last first. A free variable is bound to such an application.
pub(crate) fn meet(
    alloc: Global,
    store: &mut Store,
    stack: &mut Vec<Addr>,
    f: u32,
    n: u8,
) -> Result<bool, AllocError>
    requires top { 0 < length stack.old.items }
    requires stack { AreBelow (length store.old.cells) stack.old.items }
    ensures met { IfOk result (λ answer. (locals : List (Option ℕ)) (children : List Child)
        (branch : List CellLiteral)
        → Performs (MEET f n) (state_of locals store.old stack.old.items children branch)
        (state_of locals store.new stack.new.items children branch) answer) }
    ensures later { IsLater store.old store.new }
{
    let cell = pop(stack);
    match store.look(cell) {
        Cell::App { symbol, args } => {
            if symbol != f {
                return Ok(false);
            }
            if args.len() != n as usize {
                return Ok(false);
            }
            push_reversed(stack, args)?;
            Ok(true)
        }
        Cell::Free(v) => {
            let args = bind_to_application(alloc, store, v, f, n)?;
            push_reversed(stack, &args)?;
            Ok(true)
        }
    }
}

// Binds a free variable to a new application of the symbol to so many new variables, and gives
// these.
fn bind_to_application(
    alloc: Global,
    store: &mut Store,
    v: Addr,
    f: u32,
    n: u8,
) -> Result<SmallVec<Addr, 8>, AllocError>
    requires sound { IsSound store.old }
    requires free { IsFree store.old v }
    ensures args { IfOk result (λ args. args.items ≡ new_cells store.old n) }
    ensures store { OnOk result (store.new ≡ with_application store.old v f n) }
    ensures later { IsLater store.old store.new }
{
    let count = n as usize;
    let first = store.fresh_many(count)?;
    let args = cells_from(alloc, store, first, count)?;
    let made = store.make(f, &args)?;
    store.bind(v, made)?;
    Ok(args)
}

// So many cells of the store, from this one on.
fn cells_from(
    alloc: Global,
    store: &Store,
    first: Addr,
    count: usize,
) -> Result<SmallVec<Addr, 8>, AllocError>
    requires { first + count ≤ length store.now.cells }
    ensures { IfOk result (λ cells. cells.items ≡ range_with_len first count) }
{
    let mut cells = SmallVec::new(alloc);
    'places: for place in 0..count {
        cells.push(store.cell_after(first, place))?;
    }
    Ok(cells)
}

// Makes a fresh variable for each local that isn't set.
pub(crate) fn set_rest(store: &mut Store, locals: &mut Vec<Option<Addr>>) -> Result<(), AllocError>
    ensures set { OnOk result (locals.new.items
        ≡ all_set (length store.old.cells) locals.old.items) }
    ensures store { OnOk result (store.new
        ≡ with_new_variables store.old (unset_count locals.old.items)) }
    ensures later { IsLater store.old store.new }
{
    'locals: for x in 0..locals.len() {
        if locals[x].is_none() {
            locals[x] = Some(store.fresh()?);
        }
    }
    Ok(())
}

// Takes so many arguments from the stack, and pushes the application of the symbol to them.
pub(crate) fn make(
    store: &mut Store,
    stack: &mut Vec<Addr>,
    f: u32,
    n: u8,
) -> Result<(), AllocError>
    requires height { n ≤ length stack.old.items }
    requires stack { AreBelow (length store.old.cells) stack.old.items }
    ensures made { OnOk result ((locals : List (Option ℕ)) (children : List Child)
        (branch : List CellLiteral)
        → Performs (MAKE f n) (state_of locals store.old stack.old.items children branch)
        (state_of locals store.new stack.new.items children branch) true) }
    ensures later { IsLater store.old store.new }
{
    let rest = stack.len() - n as usize;
    let made = store.make(f, &stack[rest..])?;
    stack.truncate(rest);
    stack.push(made)?;
    Ok(())
}

// Takes so many arguments from the stack, and appends a child with a literal that has them.
pub(crate) fn append_child(
    alloc: Global,
    stack: &mut Vec<Addr>,
    children: &mut Vec<NewChild>,
    positive: bool,
    predicate: u32,
    n: u8,
) -> Result<(), AllocError>
    requires { n ≤ length stack.old.items }
    ensures { OnOk result ((locals : List (Option ℕ)) (s : Equations) (branch : List CellLiteral)
        → Performs (GOAL positive predicate n)
        (state_of locals s stack.old.items (map child_of children.old.items) branch)
        (state_of locals s stack.new.items (map child_of children.new.items) branch) true) }
{
    let rest = stack.len() - n as usize;
    let args = SmallVec::from_slice(alloc, &stack[rest..])?;
    stack.truncate(rest);
    children.push(NewChild {
        positive,
        predicate,
        args,
        closed: false,
    })?;
    Ok(())
}

// Marks the child at this place as closed by its parent.
pub(crate) fn close_child(children: &mut Vec<NewChild>, j: u16)
    ensures { map child_of children.new.items
        ≡ with_changed j closed_child (map child_of children.old.items) }
{
    let place = j as usize;
    if place < children.len() {
        children[place].closed = true;
    }
}
