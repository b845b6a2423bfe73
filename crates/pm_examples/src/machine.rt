//! Steps of the machine over clause files.
ghost use Rattle.std.specs.Prelude.{◌≡◌, ◌∷◌, ◌<◌, [], IfOk, OnErr, IsTrue, length};
ghost use Rattle.std.specs.Bool.{OnTrue, OnFalse};
ghost use Rattle.pm_compile.specs.Code.{IsCodeOf};

use pm_cnf::{Limits, read};
use pm_compile::{Code, compile};
use pm_logic::{Problem, TermTable};
use pm_machine::{Machine, leaves_may_step};
use pm_store::{Addr, Resolver, Store};
use std::alloc::{AllocError, Global};
use std::test::Fail;

// The symbols are, in order, p, a and f.
const NESTED: &str = "cnf(a,axiom,p(a)). cnf(b,axiom,~p(X)|p(f(X))). cnf(c,axiom,~p(f(f(a)))).";

const A: u32 = 1;

const F: u32 = 2;

// Extends the selected leaf by a literal of a clause, if a leaf is selected and the literal is
// there and has the opposite face: else the answer is false.
fn extend(
    machine: &mut Machine<'_>,
    problem: &Problem,
    clause: u32,
    literal: u16,
) -> Result<bool, AllocError>
    requires { machine.old.problem ≡ problem.now }
    ensures problem { machine.new.problem ≡ machine.old.problem }
    ensures taken { IfOk result (λ taken. OnTrue taken (machine.new.before
        ≡ machine.old.state ∷ machine.old.before)) }
    ensures refused { IfOk result (λ taken. OnFalse taken (machine.new ≡ machine.old)) }
    ensures err { OnErr result (machine.new ≡ machine.old) }
{
    leaves_may_step();
    let Some(leaf) = machine.leaf() else {
        return Ok(false);
    };
    if clause >= problem.clauses() || leaf.depth > 250 {
        return Ok(false);
    }
    let literals = &problem.clause(clause).literals;
    if literal as usize >= literals.len() {
        return Ok(false);
    }
    let with = &literals[literal as usize];
    if with.positive == leaf.positive || with.predicate != leaf.predicate {
        return Ok(false);
    }
    machine.extend(clause, literal)
}

// Closes the selected leaf by its ancestor at a depth, if there is one: else the answer is false.
fn reduce(machine: &mut Machine<'_>, depth: u32) -> Result<bool, AllocError>
    ensures problem { machine.new.problem ≡ machine.old.problem }
    ensures taken { IfOk result (λ taken. OnTrue taken (machine.new.before
        ≡ machine.old.state ∷ machine.old.before)) }
    ensures refused { IfOk result (λ taken. OnFalse taken (machine.new ≡ machine.old)) }
    ensures err { OnErr result (machine.new ≡ machine.old) }
{
    leaves_may_step();
    match machine.leaf() {
        Some(leaf) if depth > 0 && depth < leaf.depth => machine.reduce(depth),
        _ => Ok(false),
    }
}

// Whether a cell's term is a with so many f around it.
fn is_nested(alloc: Global, store: &Store, cell: Addr, times: usize) -> Result<bool, AllocError>
    requires { cell < length store.now.cells }
{
    let mut terms = TermTable::new(alloc);
    let row = Resolver::new(alloc).resolve(store, cell, &mut terms)?;
    let mut want = terms.add_app(A, &[])?;
    'times: for _ in 0..times {
        want = terms.add_app(F, &[want])?;
    }
    Ok(row == want)
}

// A node of one argument, as a test wants it: its depth, its sign, how many f its argument has, its
// clause, and the depth of the ancestor that closes it.
#[derive(Clone, Copy)]
struct Wanted(u32, bool, usize, Option<u32>, Option<u32>);

// Whether the nodes in pre-order are these.
fn has_nodes(alloc: Global, machine: &Machine<'_>, wanted: &[Wanted]) -> Result<bool, AllocError> {
    let nodes = machine.nodes();
    if nodes.len() != wanted.len() {
        return Ok(false);
    }
    'nodes: for place in 0..nodes.len() {
        let node = &nodes[place];
        let Wanted(depth, positive, times, clause, closed_by) = &wanted[place];
        let same = node.depth == *depth
            && node.positive == *positive
            && node.clause == *clause
            && node.closed_by == *closed_by;
        if !same || node.args.len() != 1 {
            return Ok(false);
        }
        if !is_nested(alloc, machine.store(), node.args[0], *times)? {
            return Ok(false);
        }
    }
    Ok(true)
}

// A step after the start.
#[derive(Clone, Copy)]
enum Move {
    Extend(u32, u16),
    Reduce(u32),
}

fn perform(machine: &mut Machine<'_>, problem: &Problem, step: Move) -> Result<bool, AllocError>
    requires { machine.old.problem ≡ problem.now }
    ensures problem { machine.new.problem ≡ machine.old.problem }
    ensures taken { IfOk result (λ taken. OnTrue taken (machine.new.before
        ≡ machine.old.state ∷ machine.old.before)) }
    ensures refused { IfOk result (λ taken. OnFalse taken (machine.new ≡ machine.old)) }
    ensures err { OnErr result (machine.new ≡ machine.old) }
{
    match step {
        Move::Extend(clause, literal) => extend(machine, problem, clause, literal),
        Move::Reduce(depth) => reduce(machine, depth),
    }
}

// Whether the steps are answered so, one after another.
fn answers(
    machine: &mut Machine<'_>,
    problem: &Problem,
    steps: &[(Move, bool)],
) -> Result<bool, AllocError>
    requires { machine.old.problem ≡ problem.now }
{
    'steps: for (step, taken) in steps {
        if perform(machine, problem, *step)? != *taken {
            return Ok(false);
        }
    }
    Ok(true)
}

// A machine that was started with a clause.
fn started<'p>(
    alloc: Global,
    problem: &'p Problem,
    code: &'p Code,
    clause: u32,
) -> Result<Machine<'p>, AllocError>
    requires code { IsCodeOf problem.now code.now }
    requires clause { clause < length problem.now.clauses }
    ensures { IfOk result (λ machine. machine.problem ≡ problem.now) }
{
    let mut machine = Machine::new(alloc, problem, code)?;
    machine.start(clause)?;
    Ok(machine)
}

// Whether the steps, after a start with a clause, are answered so and leave these nodes.
fn builds(
    alloc: Global,
    problem: &Problem,
    start: u32,
    steps: &[(Move, bool)],
    nodes: &[Wanted],
) -> Result<bool, AllocError>
    requires { start < length problem.now.clauses }
{
    let code = compile(alloc, problem)?;
    let mut machine = started(alloc, problem, &code, start)?;
    if !answers(&mut machine, problem, steps)? {
        return Ok(false);
    }
    has_nodes(alloc, &machine, nodes)
}

#[test]
fn a_step_fails_where_its_terms_differ(rt: HostRuntime) -> Result<(), Fail> {
    let problem = read(rt.alloc(), NESTED.as_bytes(), &Limits::standard())?;
    let steps = [
        (Move::Extend(0, 0), false),
        (Move::Extend(1, 1), true),
        (Move::Reduce(1), false),
    ];
    let nodes = [
        Wanted(1, false, 2, Some(1), None),
        Wanted(2, false, 1, None, None),
        Wanted(2, true, 2, None, Some(1)),
    ];
    assert_eq!(rt; problem.clauses(), 3);
    assert!(rt; builds(rt.alloc(), &problem, 2, &steps, &nodes)?);
    Ok(())
}

// The depth of the selected leaf after a step and a step back: 0 where no leaf is selected.
fn depth_after_back(
    machine: &mut Machine<'_>,
    problem: &Problem,
    step: Move,
) -> Result<u32, AllocError>
    requires { machine.old.problem ≡ problem.now }
{
    if perform(machine, problem, step)? {
        machine.back();
    }
    Ok(machine.leaf().map_or(0, |leaf| leaf.depth))
}

// The same on a machine that was started with the clause of this index.
fn back_leads_to(alloc: Global, problem: &Problem, start: u32) -> Result<u32, AllocError>
    requires { start < length problem.now.clauses }
{
    let code = compile(alloc, problem)?;
    let mut machine = started(alloc, problem, &code, start)?;
    depth_after_back(&mut machine, problem, Move::Extend(1, 1))
}

#[test]
fn a_step_back_returns_to_the_leaf(rt: HostRuntime) -> Result<(), Fail> {
    let problem = read(rt.alloc(), NESTED.as_bytes(), &Limits::standard())?;
    assert_eq!(rt; problem.clauses(), 3);
    assert_eq!(rt; back_leads_to(rt.alloc(), &problem, 2)?, 1);
    Ok(())
}

#[test]
fn four_steps_close_a_tableau(rt: HostRuntime) -> Result<(), Fail> {
    let problem = read(rt.alloc(), NESTED.as_bytes(), &Limits::standard())?;
    let steps = [
        (Move::Extend(1, 1), true),
        (Move::Extend(1, 1), true),
        (Move::Extend(0, 0), true),
    ];
    let nodes = [
        Wanted(1, false, 2, Some(1), None),
        Wanted(2, false, 1, Some(1), None),
        Wanted(3, false, 0, Some(0), None),
        Wanted(4, true, 0, None, Some(3)),
        Wanted(3, true, 1, None, Some(2)),
        Wanted(2, true, 2, None, Some(1)),
    ];
    assert_eq!(rt; problem.clauses(), 3);
    assert!(rt; builds(rt.alloc(), &problem, 2, &steps, &nodes)?);
    Ok(())
}

// Whether both have the same number of cells, and the same nodes over them.
fn are_alike(machine: &Machine<'_>, other: &Machine<'_>) -> bool {
    let nodes = machine.nodes();
    let others = other.nodes();
    machine.store().len() == other.store().len()
        && nodes.len() == others.len()
        && nodes.iter().zip(others).all(|(a, b)| {
            a.depth == b.depth
                && a.positive == b.positive
                && a.predicate == b.predicate
                && a.args.as_slice() == b.args.as_slice()
                && a.clause == b.clause
                && a.closed_by == b.closed_by
        })
}

// The next pseudo-random number.
fn random(seed: &mut u32) -> u32 {
    *seed = seed.wrapping_mul(1_664_525).wrapping_add(1_013_904_223);
    *seed >> 16
}

fn random_move(seed: &mut u32) -> Move {
    if random(seed) % 4 == 0 {
        Move::Reduce(random(seed) % 4)
    } else {
        Move::Extend(random(seed) % 5, (random(seed) % 2) as u16)
    }
}

// So many steps and steps back in random order; the steps that stay.
fn wander(
    alloc: Global,
    machine: &mut Machine<'_>,
    problem: &Problem,
    seed: &mut u32,
    times: usize,
) -> Result<Vec<Move>, AllocError>
    requires { machine.old.problem ≡ problem.now }
{
    let mut taken: Vec<Move> = Vec::new(alloc);
    'times: for _ in 0..times {
        let step = random_move(seed);
        match perform(machine, problem, step) {
            Ok(true) => taken.push(step)?,
            Ok(false) => {
                if taken.pop().is_some() {
                    machine.back();
                }
            }
            // A step that finds no memory leaves no trace.
            Err(_) => {}
        }
    }
    Ok(taken)
}

// Whether the steps are taken, one after another.
fn takes(machine: &mut Machine<'_>, problem: &Problem, steps: &[Move]) -> Result<bool, AllocError>
    requires { machine.old.problem ≡ problem.now }
{
    'steps: for step in steps {
        if !perform(machine, problem, *step)? {
            return Ok(false);
        }
    }
    Ok(true)
}

// Whether a machine that has wandered is like one that has only taken the steps that stayed.
fn wanders(
    alloc: Global,
    problem: &Problem,
    code: &Code,
    seed: &mut u32,
) -> Result<bool, AllocError>
    requires code { IsCodeOf problem.now code.now }
    requires some { 0 < length problem.now.clauses }
{
    let mut machine = started(alloc, problem, code, 0)?;
    let steps = wander(alloc, &mut machine, problem, seed, 40)?;
    let mut fresh = started(alloc, problem, code, 0)?;
    if !takes(&mut fresh, problem, &steps)? {
        return Ok(false);
    }
    Ok(are_alike(&machine, &fresh))
}

// Whether machines wander so in each of these rounds.
fn all_wander(alloc: Global, problem: &Problem, rounds: usize) -> Result<bool, AllocError>
    requires { 0 < length problem.now.clauses }
{
    let code = compile(alloc, problem)?;
    let mut seed = 1;
    'rounds: for _ in 0..rounds {
        if !wanders(alloc, problem, &code, &mut seed)? {
            return Ok(false);
        }
    }
    Ok(true)
}

const BRANCHING: &str = "cnf(1,axiom,~p(X,Y)|~q(f(X))). cnf(2,axiom,p(X,f(Y))|q(Y)).
cnf(3,axiom,p(X,X)|~q(X)). cnf(4,axiom,q(f(g(X,Y)))|~p(Y,X)). cnf(5,axiom,q(f(f(a)))).";

#[test]
fn steps_back_leave_no_trace(rt: HostRuntime) -> Result<(), Fail> {
    let problem = read(rt.alloc(), BRANCHING.as_bytes(), &Limits::standard())?;
    assert_eq!(rt; problem.clauses(), 5);
    assert!(rt; all_wander(rt.alloc(), &problem, 200)?);
    Ok(())
}
