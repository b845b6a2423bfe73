//! Pools against a plain check of all their pairs.
ghost use Rattle.std.specs.Prelude.{◌≡◌, ◌<◌, ◌≤◌, IsTrue, All, Contains, IfOk, OnOk, length};
ghost use Rattle.pm_store.specs.Sound.{CanBind};
ghost use Rattle.pm_store.specs.Trees.{tree, Occurs};
ghost use Rattle.pm_diseq.specs.Standing.{StandsAt};
ghost use Rattle.pm_diseq.specs.Inside.Comparing.{AreCells};
ghost use Rattle.pm_diseq.specs.Inside.Trying.{Advances};

use crate::laws::empty_pools_stand;
use crate::pool::Pool;
use pm_logic::TermTable;
use pm_store::{Addr, Cell, Resolver, Store};
use std::alloc::{AllocError, Global};
use std::test::Fail;

// The symbols a, b, f and g.
const A: u32 = 0;

const B: u32 = 1;

const F: u32 = 2;

const G: u32 = 3;

// Whether two cells have the same tree: the rows of both terms in one table tell.
fn same(alloc: Global, store: &Store, a: Addr, b: Addr) -> Result<bool, AllocError>
    requires left { a < length store.now.cells }
    requires right { b < length store.now.cells }
{
    let mut table = TermTable::new(alloc);
    let mut resolver = Resolver::new(alloc);
    let left = resolver.resolve(store, a, &mut table)?;
    let right = resolver.resolve(store, b, &mut table)?;
    Ok(left == right)
}

// Whether all these pairs of cells differ.
fn all_differ(alloc: Global, store: &Store, kept: &[(Addr, Addr)]) -> Result<bool, AllocError>
    requires { All (AreCells store.now) kept.now }
{
    'pairs: for &(a, b) in kept.iter() {
        if same(alloc, store, a, b)? {
            return Ok(false);
        }
    }
    Ok(true)
}

// Whether a variable is shown not to occur in a cell's tree: that of another variable, or of an
// application to other variables and constants.
fn lacks(store: &Store, v: Addr, t: Addr) -> bool
    requires { t < length store.now.cells }
    ensures { IsTrue result → ¬ Occurs v (tree store.now t) }
{
    match store.look(t) {
        Cell::Free(w) => w != v,
        Cell::App { args, .. } => lacks_each(store, v, args),
    }
}

fn lacks_each(store: &Store, v: Addr, cells: &[Addr]) -> bool
    requires { All (λ c. c < length store.now.cells) cells.now }
    ensures { IsTrue result → All (λ c. ¬ Occurs v (tree store.now c)) cells.now }
{
    'cells: for &cell in cells.iter() {
        match store.look(cell) {
            Cell::Free(w) => {
                if w == v {
                    return false;
                }
            }
            Cell::App { args, .. } => {
                if !args.is_empty() {
                    return false;
                }
            }
        }
    }
    true
}

// Whether the first cell is shown to be a free variable that can be bound to the other.
fn can_bind(store: &Store, v: Addr, t: Addr) -> bool
    requires left { v < length store.now.cells }
    requires right { t < length store.now.cells }
    ensures { IsTrue result → CanBind store.now v t }
{
    match store.look(v) {
        Cell::Free(w) => w == v && lacks(store, v, t),
        Cell::App { .. } => false,
    }
}

// What a pool answered, and whether a plain check of all pairs gave the same.
#[derive(Clone, Copy, Debug)]
struct Tried {
    apart: bool,
    agrees: bool,
}

// Adds a pair of cells.
fn try_add(
    alloc: Global,
    store: &Store,
    pool: &mut Pool,
    kept: &mut Vec<(Addr, Addr)>,
    a: Addr,
    b: Addr,
) -> Result<Tried, AllocError>
    requires left { a < length store.now.cells }
    requires right { b < length store.now.cells }
    requires kept { All (AreCells store.now) kept.old.items }
    requires stands { StandsAt store.now pool.old }
    ensures kept { All (AreCells store.now) kept.new.items }
    ensures pool { OnOk result (Advances store.now store.now pool.old pool.new) }
{
    let apart = pool.add(store, &[a], &[b])?;
    let agrees = apart != same(alloc, store, a, b)?;
    if apart {
        kept.push((a, b))?;
    }
    Ok(Tried { apart, agrees })
}

// Binds the variable, and looks at the pairs. If one is identical then, the binding is undone.
fn try_bind(
    alloc: Global,
    store: &mut Store,
    pool: &mut Pool,
    kept: &[(Addr, Addr)],
    v: Addr,
    t: Addr,
) -> Result<Tried, AllocError>
    requires can { CanBind store.old v t }
    requires kept { All (AreCells store.old) kept.now }
    requires stands { StandsAt store.old pool.old }
    ensures cells { store.new.cells ≡ store.old.cells }
    ensures pool { OnOk result (Advances store.old store.new pool.old pool.new) }
{
    let mark = store.mark();
    store.bind(v, t)?;
    let apart = pool.settle_after(store, store.bound_since(&mark))?;
    let agrees = apart == all_differ(alloc, store, kept)?;
    if !apart {
        store.undo(mark);
    }
    Ok(Tried { apart, agrees })
}

// Something to be tried: the cells are to stay apart, or the first is bound to the other.
#[derive(Clone, Copy, Debug)]
struct Step {
    binds: bool,
    left: Addr,
    right: Addr,
}

fn try_step(
    alloc: Global,
    store: &mut Store,
    pool: &mut Pool,
    kept: &mut Vec<(Addr, Addr)>,
    step: Step,
) -> Result<Tried, AllocError>
    requires left { step.left < length store.old.cells }
    requires right { step.right < length store.old.cells }
    requires kept { All (AreCells store.old) kept.old.items }
    requires stands { StandsAt store.old pool.old }
    ensures cells { store.new.cells ≡ store.old.cells }
    ensures kept { All (AreCells store.old) kept.new.items }
    ensures pool { OnOk result (Advances store.old store.new pool.old pool.new) }
{
    if !step.binds {
        return try_add(alloc, store, pool, kept, step.left, step.right);
    }
    if !can_bind(store, step.left, step.right) {
        return Ok(Tried {
            apart: true,
            agrees: true,
        });
    }
    try_bind(alloc, store, pool, kept, step.left, step.right)
}

// Does the steps one after the other, as far as no pair is identical, and undoes them one after
// the other; answers whether a plain check agreed, and gives the answers.
fn run(
    alloc: Global,
    store: &mut Store,
    pool: &mut Pool,
    kept: &mut Vec<(Addr, Addr)>,
    steps: &[Step],
    answers: &mut Vec<bool>,
) -> Result<bool, AllocError>
    requires steps { All (λ step. (step.left < length store.old.cells)
        × (step.right < length store.old.cells)) steps.now }
    requires kept { All (AreCells store.old) kept.old.items }
    requires stands { StandsAt store.old pool.old }
    ensures store { OnOk result (store.new ≡ store.old) }
    ensures pool { OnOk result (pool.new ≡ pool.old) }
    ensures kept { All (AreCells store.old) kept.new.items }
{
    if steps.is_empty() {
        return Ok(true);
    }
    let store_mark = store.mark();
    let pool_mark = pool.mark();
    let kept_mark = kept.len();
    let tried = try_step(alloc, store, pool, kept, steps[0])?;
    answers.push(tried.apart)?;
    let rest_agree = run(alloc, store, pool, kept, &steps[1..], answers)?;
    kept.truncate(kept_mark);
    pool.undo(pool_mark);
    store.undo(store_mark);
    Ok(tried.agrees && rest_agree)
}

// The next of a row of random numbers.
fn random(seed: &mut u32) -> usize {
    *seed = seed.wrapping_mul(1_664_525).wrapping_add(1_013_904_223);
    (*seed >> 16) as usize
}

// One of the cells.
fn random_of(seed: &mut u32, cells: &[Addr]) -> Addr
    requires { 0 < length cells.now }
    ensures { Contains cells.now result }
{
    cells[random(seed) % cells.len()]
}

// A variable, a constant, or an application to these cells.
fn random_cell(store: &mut Store, seed: &mut u32, a: Addr, b: Addr) -> Result<Addr, AllocError>
    requires left { a < length store.old.cells }
    requires right { b < length store.old.cells }
    ensures grows { length store.old.cells ≤ length store.new.cells }
    ensures within { IfOk result (λ cell. cell < length store.new.cells) }
{
    match random(seed) % 6 {
        0 => store.make(A, &[]),
        1 => store.make(B, &[]),
        2 => store.make(F, &[a, b]),
        3 => store.make(G, &[a]),
        _ => store.fresh(),
    }
}

fn random_cells(alloc: Global, store: &mut Store, seed: &mut u32) -> Result<Vec<Addr>, AllocError>
    ensures within { IfOk result (λ cells. All (λ c. c < length store.new.cells) cells.items) }
    ensures some { IfOk result (λ cells. 0 < length cells.items) }
{
    let mut cells = Vec::new(alloc);
    cells.push(store.fresh()?)?;
    'cells: for _ in 0..20 {
        let a = random_of(seed, &cells);
        let b = random_of(seed, &cells);
        cells.push(random_cell(store, seed, a, b)?)?;
    }
    Ok(cells)
}

fn random_steps(
    alloc: Global,
    seed: &mut u32,
    cells: &[Addr],
    count: usize,
) -> Result<Vec<Step>, AllocError>
    requires { 0 < length cells.now }
    ensures { IfOk result (λ steps. All (λ step. Contains cells.now step.left
        × Contains cells.now step.right) steps.items) }
{
    let mut steps = Vec::new(alloc);
    'steps: for _ in 0..count {
        let left = random_of(seed, cells);
        let right = random_of(seed, cells);
        let binds = random(seed) % 2 == 0;
        steps.push(Step { binds, left, right })?;
    }
    Ok(steps)
}

// So many random steps, from an empty pool on.
fn round(alloc: Global, seed: &mut u32, count: usize) -> Result<bool, AllocError> {
    empty_pools_stand();
    let mut store = Store::new(alloc);
    let cells = random_cells(alloc, &mut store, seed)?;
    let steps = random_steps(alloc, seed, &cells, count)?;
    let mut pool = Pool::new(alloc);
    let mut kept = Vec::new(alloc);
    let mut answers = Vec::new(alloc);
    run(
        alloc,
        &mut store,
        &mut pool,
        &mut kept,
        &steps,
        &mut answers,
    )
}

#[test]
fn random_steps_agree_with_a_plain_check(rt: HostRuntime) -> Result<(), Fail> {
    let mut seed = 1;
    'rounds: for _ in 0..400 {
        assert!(rt; round(rt.alloc(), &mut seed, 25)?);
    }
    Ok(())
}

fn adds(left: Addr, right: Addr) -> Step
    ensures left { result.left ≡ left }
    ensures right { result.right ≡ right }
{
    Step {
        binds: false,
        left,
        right,
    }
}

fn binds(left: Addr, right: Addr) -> Step
    ensures left { result.left ≡ left }
    ensures right { result.right ≡ right }
{
    Step {
        binds: true,
        left,
        right,
    }
}

// What a pool that has kept nothing answers to the steps.
fn answers_to(alloc: Global, store: &mut Store, steps: &[Step]) -> Result<Vec<bool>, AllocError>
    requires { All (λ step. (step.left < length store.old.cells)
        × (step.right < length store.old.cells)) steps.now }
    ensures { OnOk result (store.new ≡ store.old) }
{
    empty_pools_stand();
    let mut pool = Pool::new(alloc);
    let mut kept = Vec::new(alloc);
    let mut answers = Vec::new(alloc);
    run(alloc, store, &mut pool, &mut kept, steps, &mut answers)?;
    Ok(answers)
}

// X and a are apart until X is bound to a; X and X aren't.
#[test]
fn a_variable_keeps_a_pair_apart(rt: HostRuntime) -> Result<(), Fail> {
    let alloc = rt.alloc();
    let mut store = Store::new(alloc);
    let x = store.fresh()?;
    let a = store.make(A, &[])?;
    let b = store.make(B, &[])?;
    let first = answers_to(alloc, &mut store, &[adds(x, a), adds(x, x), binds(x, a)])?;
    assert_eq!(rt; first.as_slice(), [true, false, false].as_slice());
    let second = answers_to(alloc, &mut store, &[adds(x, a), binds(x, b), adds(x, a)])?;
    assert_eq!(rt; second.as_slice(), [true, true, true].as_slice());
    Ok(())
}

// X and Y are looked at whichever is bound, and when both are.
#[test]
fn both_variables_are_watched(rt: HostRuntime) -> Result<(), Fail> {
    let alloc = rt.alloc();
    let mut store = Store::new(alloc);
    let x = store.fresh()?;
    let y = store.fresh()?;
    let a = store.make(A, &[])?;
    let b = store.make(B, &[])?;
    let left = answers_to(alloc, &mut store, &[adds(x, y), binds(x, y)])?;
    assert_eq!(rt; left.as_slice(), [true, false].as_slice());
    let right = answers_to(alloc, &mut store, &[adds(x, y), binds(y, x)])?;
    assert_eq!(rt; right.as_slice(), [true, false].as_slice());
    let same = answers_to(alloc, &mut store, &[adds(x, y), binds(x, a), binds(y, a)])?;
    assert_eq!(rt; same.as_slice(), [true, true, false].as_slice());
    let other = answers_to(alloc, &mut store, &[adds(x, y), binds(x, a), binds(y, b)])?;
    assert_eq!(rt; other.as_slice(), [true, true, true].as_slice());
    Ok(())
}

// A pair stays when what came after it is undone.
#[test]
fn a_pair_outlives_what_is_undone(rt: HostRuntime) -> Result<(), Fail> {
    let alloc = rt.alloc();
    empty_pools_stand();
    let mut store = Store::new(alloc);
    let x = store.fresh()?;
    let a = store.make(A, &[])?;
    let b = store.make(B, &[])?;
    let mut pool = Pool::new(alloc);
    let mut kept = Vec::new(alloc);
    let mut answers = Vec::new(alloc);
    let first = try_add(alloc, &store, &mut pool, &mut kept, x, a)?;
    assert!(rt; first.apart);
    run(
        alloc,
        &mut store,
        &mut pool,
        &mut kept,
        &[binds(x, b)],
        &mut answers,
    )?;
    run(
        alloc,
        &mut store,
        &mut pool,
        &mut kept,
        &[binds(x, a)],
        &mut answers,
    )?;
    run(
        alloc,
        &mut store,
        &mut pool,
        &mut kept,
        &[binds(x, b)],
        &mut answers,
    )?;
    assert_eq!(rt; answers.as_slice(), [true, false, true].as_slice());
    Ok(())
}

// So many applications of g above the cell, each to the one below it twice.
fn tower(store: &mut Store, bottom: Addr, times: usize) -> Result<Addr, AllocError>
    requires { bottom < length store.old.cells }
    ensures grows { length store.old.cells ≤ length store.new.cells }
    ensures within { IfOk result (λ top. top < length store.new.cells) }
{
    let mut top = bottom;
    'floors: for _ in 0..times {
        top = store.make(G, &[top, top])?;
    }
    Ok(top)
}

// Each tree has 2^28 leaves.
#[test]
fn shared_terms_are_compared_at_once(rt: HostRuntime) -> Result<(), Fail> {
    empty_pools_stand();
    let mut store = Store::new(rt.alloc());
    let x = store.fresh()?;
    let y = store.fresh()?;
    let left = tower(&mut store, x, 28)?;
    let same = tower(&mut store, x, 28)?;
    let other = tower(&mut store, y, 28)?;
    let mut pool = Pool::new(rt.alloc());
    assert!(rt; !pool.add(&store, &[left], &[same])?);
    assert!(rt; pool.add(&store, &[left], &[other])?);
    Ok(())
}
