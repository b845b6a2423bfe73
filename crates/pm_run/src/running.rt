//! Runs of code, one instruction after another.
ghost use Rattle.std.specs.Prelude.{◌≡◌, ◌∷◌, [], None, IfOk, List, OnErr, OnOk, map, replicate, reverse};
ghost use Rattle.std.specs.Bool.{OnTrue, OnFalse};
ghost use Rattle.pm_store.specs.Marks.{IsLater};
ghost use Rattle.pm_compile.specs.declared.instr.Instr.{Instr as SomeInstr};
ghost use Rattle.pm_compile.specs.Instructions.{instruction_of};
ghost use Rattle.pm_compile.specs.Code.{IsCodeOf, instructions};
ghost use Rattle.pm_run.specs.State.{CellLiteral};
ghost use Rattle.pm_run.specs.Meaning.{Does, NoBody};
ghost use Rattle.pm_run.specs.Failure.{Fails, NoBodyFails, RunFails};
ghost use Rattle.pm_run.specs.Bodies.{bodies_of};
ghost use Rattle.pm_run.specs.Runner.{EndsIn, child_of};
ghost use Rattle.pm_run.specs.Inside.Running.{CanPerform, CanRun, CanRunStep, IsBodyReady, Performs, RunsTo, StepPerforms, StepRunsTo, state_in};

use crate::children::NewChild;
use crate::instructions::{
    append_child, cell_in, close_child, make, meet, push_ground, push_reversed, set_first,
    set_rest, unify_ground, unify_local,
};
use crate::program::Program;
use pm_compile::Instr;
use pm_store::{Addr, Store};
use std::alloc::AllocError;

// The locals of a clause's variables, and a stack of cells with its top last.
#[derive(Drop)]
pub(crate) struct Registers {
    pub(crate) locals: Vec<Option<Addr>>,
    pub(crate) stack: Vec<Addr>,
}

impl Registers {
    // Before a step: so many locals, none of which is set, and these cells on the stack, the first
    // as its top.
    pub(crate) fn begin(&mut self, vars: u32, cells: &[Addr]) -> Result<(), AllocError>
        ensures locals { OnOk result (self.new.locals.items ≡ replicate vars None) }
        ensures stack { OnOk result (reverse self.new.stack.items ≡ cells.now) }
    {
        self.locals.clear();
        self.stack.clear();
        push_reversed(&mut self.stack, cells)?;
        'locals: for _ in 0..vars {
            self.locals.push(None)?;
        }
        Ok(())
    }
}

// Does one instruction that performs no body: true where it is done, false where it can't be.
fn perform(
    program: &Program,
    registers: &mut Registers,
    store: &mut Store,
    children: &mut Vec<NewChild>,
    instr: Instr,
) -> Result<bool, AllocError>
    requires { CanPerform program.now.problem.now.terms program.now.cells.items instr
        registers.old.locals.items store.old registers.old.stack.items }
    ensures performs { IfOk result (λ answer. (branch : List CellLiteral)
        → Performs (instruction_of program.now.problem.now.terms instr)
        (state_in registers.old store.old children.old.items branch)
        (state_in registers.new store.new children.new.items branch) answer) }
    ensures later { IsLater store.old store.new }
{
    let alloc = program.alloc;
    let locals = &mut registers.locals;
    let stack = &mut registers.stack;
    match instr {
        Instr::Again { x } => return unify_local(alloc, store, locals, stack, x),
        Instr::Meet { f, n } => return meet(alloc, store, stack, f, n),
        Instr::Ground { t } => return unify_ground(program, store, stack, t),
        Instr::First { x } => set_first(locals, stack, x),
        Instr::Fresh => set_rest(store, locals)?,
        Instr::Push { x } => stack.push(cell_in(locals, x as usize))?,
        Instr::Make { f, n } => make(store, stack, f, n)?,
        Instr::Constant { t } => push_ground(program, stack, t)?,
        Instr::Goal { positive, p, n } => append_child(alloc, stack, children, positive, p, n)?,
        Instr::Close { j } => close_child(children, j),
        Instr::EndBody | Instr::Done => {}
        Instr::Body { .. } | Instr::Reduce { .. } => unreachable!(),
    }
    Ok(true)
}

// Runs the code of a body: true where it comes to its end, false where an instruction can't be
// done.
fn run_body(
    program: &Program,
    registers: &mut Registers,
    store: &mut Store,
    children: &mut Vec<NewChild>,
    instrs: &[Instr],
) -> Result<bool, AllocError>
    requires { CanRun program.now.problem.now.terms program.now.cells.items IsBodyReady instrs.now
        (state_in registers.old store.old children.old.items []) }
    ensures runs { IfOk result (λ answer. (branch : List CellLiteral)
        → RunsTo (Does NoBody) (Fails NoBodyFails)
        (instructions program.now.problem.now.terms instrs.now)
        (state_in registers.old store.old children.old.items branch)
        (state_in registers.new store.new children.new.items branch) answer) }
    ensures later { IsLater store.old store.new }
{
    'code: for &instr in instrs {
        if !perform(program, registers, store, children, instr)? {
            return Ok(false);
        }
    }
    Ok(true)
}

// Does the first instruction of code, which may be a body: true where it is done, false where it
// can't be.
fn perform_first(
    program: &Program,
    registers: &mut Registers,
    store: &mut Store,
    children: &mut Vec<NewChild>,
    instr: Instr,
) -> Result<bool, AllocError>
    requires code { IsCodeOf program.now.problem.now program.now.code.now }
    requires can { (rest : List SomeInstr) × CanRunStep program.now.problem.now
        program.now.cells.items (instr ∷ rest)
        (state_in registers.old store.old children.old.items []) }
    ensures performs { IfOk result (λ answer. (branch : List CellLiteral)
        → StepPerforms (bodies_of program.now.problem.now.clauses)
        (instruction_of program.now.problem.now.terms instr)
        (state_in registers.old store.old children.old.items branch)
        (state_in registers.new store.new children.new.items branch) answer) }
    ensures later { IsLater store.old store.new }
{
    match instr {
        Instr::Body { c } => run_body(program, registers, store, children, program.code.body(c)),
        _ => perform(program, registers, store, children, instr),
    }
}

// Runs the code of a step: true where it comes to its end, false where an instruction can't be
// done.
fn run(
    program: &Program,
    registers: &mut Registers,
    store: &mut Store,
    children: &mut Vec<NewChild>,
    instrs: &[Instr],
) -> Result<bool, AllocError>
    requires code { IsCodeOf program.now.problem.now program.now.code.now }
    requires can { CanRunStep program.now.problem.now program.now.cells.items instrs.now
        (state_in registers.old store.old children.old.items []) }
    ensures runs { IfOk result (λ answer. (branch : List CellLiteral)
        → StepRunsTo (bodies_of program.now.problem.now.clauses)
        (instructions program.now.problem.now.terms instrs.now)
        (state_in registers.old store.old children.old.items branch)
        (state_in registers.new store.new children.new.items branch) answer) }
    ensures later { IsLater store.old store.new }
{
    'code: for &instr in instrs {
        if !perform_first(program, registers, store, children, instr)? {
            return Ok(false);
        }
    }
    Ok(true)
}

// Runs the code of a step: true where it comes to its end, false where an instruction can't be
// done. On false and on want of memory store and children are as before.
pub(crate) fn attempt(
    program: &Program,
    registers: &mut Registers,
    store: &mut Store,
    children: &mut Vec<NewChild>,
    instrs: &[Instr],
) -> Result<bool, AllocError>
    requires code { IsCodeOf program.now.problem.now program.now.code.now }
    requires children { children.old.items ≡ [] }
    requires can { CanRunStep program.now.problem.now program.now.cells.items instrs.now
        (state_in registers.old store.old [] []) }
    ensures comes { IfOk result (λ answer. OnTrue answer ((branch : List CellLiteral)
        → EndsIn (bodies_of program.now.problem.now.clauses)
        (instructions program.now.problem.now.terms instrs.now)
        (state_in registers.old store.old [] branch) store.new
        (map child_of children.new.items))) }
    ensures fails { IfOk result (λ answer. OnFalse answer ((branch : List CellLiteral)
        → RunFails (bodies_of program.now.problem.now.clauses)
        (instructions program.now.problem.now.terms instrs.now)
        (state_in registers.old store.old [] branch))) }
    ensures before { IfOk result (λ answer. OnFalse answer
        ((store.new ≡ store.old) × (children.new.items ≡ []))) }
    ensures err { OnErr result ((store.new ≡ store.old) × (children.new.items ≡ [])) }
{
    let mark = store.mark();
    match run(program, registers, store, children, instrs) {
        Ok(true) => Ok(true),
        Ok(false) => {
            store.undo(mark);
            children.clear();
            Ok(false)
        }
        Err(error) => {
            store.undo(mark);
            children.clear();
            Err(error)
        }
    }
}
