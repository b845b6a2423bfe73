//! What runs compiled code.
ghost use Rattle.std.specs.Prelude.{◌≡◌, [], IfOk, OnErr, OnOk, length, map};
ghost use Rattle.std.specs.Bool.{OnTrue, OnFalse};
ghost use Rattle.pm_logic.specs.Problem.{IsValid};
ghost use Rattle.pm_store.specs.Marks.{IsLater};
ghost use Rattle.pm_store.specs.Sound.{IsSound};
ghost use Rattle.pm_compile.specs.Code.{IsCodeOf};
ghost use Rattle.pm_run.specs.Runner.{HasGroundCells, CanStep, CanMeet, StartComesTo, ExtensionComesTo, ExtensionFails, child_of};

use crate::children::NewChild;
use crate::ground_terms::ground_cells;
use crate::program::Program;
use crate::running::{Registers, attempt};
use pm_compile::Code;
use pm_logic::Problem;
use pm_store::{Addr, Store, stores_are_sound};
use std::alloc::{AllocError, Global};
use std::marker::Model;

/// Runs the code of a problem's clauses. It has the problem and its code, the cells of the
/// problem's ground terms, and locals and a stack, which it uses again from run to run. Seen as the
/// problem, and for each row of its terms a cell, if the term is ground.
#[derive(Drop)]
pub struct Runner<'p> {
    program: Program<'p>,
    registers: Registers,
}

impl<'p> Model for Runner<'p> {
    ghost use Rattle.pm_run.specs.Runner.{GroundProblem};
    ghost use Rattle.std.specs.Coded.{codes};
    ghost use Rattle.pm_logic.specs.TermCode.{term_code};

    ghost Value = { GroundProblem };

    ghost coded = { Prim.hlevel (codes, term_code) };

    ghost use Rattle.pm_logic.specs.Problem.{IsValid};
    ghost use Rattle.pm_compile.specs.Code.{IsCodeOf};

    ghost view = { λ a. record {
      problem = a.program.problem.now;
      cells = a.program.cells.items;
    } };

    ghost invariant = { λ a. IsCodeOf a.program.problem.now a.program.code.now
        × IsValid a.program.problem.now };
}

impl<'p> Runner<'p> {
    /// Makes the cells of the problem's ground terms in the store. After want of memory the store
    /// is as before.
    pub fn new(
        alloc: Global,
        problem: &'p Problem,
        code: &'p Code,
        store: &mut Store,
    ) -> Result<Runner<'p>, AllocError>
        requires { IsCodeOf problem.now code.now }
        ensures problem { IfOk result (λ runner. runner.problem ≡ problem.now) }
        ensures valid { IsValid problem.now }
        ensures cells { IfOk result (λ runner.
            HasGroundCells problem.now.terms runner.cells store.new) }
        ensures later { OnOk result (IsLater store.old store.new) }
        ensures sound { IsSound store.new }
        ensures err { OnErr result (store.new ≡ store.old) }
    {
        // For the proof: the problem is a valid one.
        let _clauses = problem.clauses();
        let mark = store.mark();
        match ground_cells(alloc, problem.terms(), store) {
            Ok(cells) => {
                stores_are_sound(store);
                Ok(Runner {
                    program: Program {
                        alloc,
                        problem,
                        code,
                        cells,
                    },
                    registers: Registers {
                        locals: Vec::new(alloc),
                        stack: Vec::new(alloc),
                    },
                })
            }
            Err(error) => {
                store.undo(mark);
                Err(error)
            }
        }
    }

    /// Runs the code of the start with the clause of this index. There are no children before; then
    /// there are those of the clause. After want of memory store and children are as before.
    pub fn start(
        &mut self,
        store: &mut Store,
        clause: u32,
        children: &mut Vec<NewChild>,
    ) -> Result<(), AllocError>
        requires { CanStep self.old clause store.old children.old.items }
        ensures comes { OnOk result (StartComesTo self.old.problem.clauses clause
            store.old store.new (map child_of children.new.items)) }
        ensures same { self.new ≡ self.old }
        ensures err { OnErr result ((store.new ≡ store.old) × (children.new.items ≡ [])) }
    {
        stores_are_sound(store);
        self.registers
            .begin(self.program.problem.clause(clause).vars, &[])?;
        let code = self.program.code.start(clause);
        // The code of a start has no instruction that can't be done.
        attempt(&self.program, &mut self.registers, store, children, code)?;
        Ok(())
    }

    /// Runs the code of the extension by the literal of this index, of the clause of this index, of
    /// a leaf with these arguments: true where it comes to its end, false where an instruction
    /// can't be done, so that the leaf's arguments and the literal's can't be unified. There are no
    /// children before; on true there are those of the clause. On false and after want of memory
    /// store and children are as before.
    pub fn extend(
        &mut self,
        store: &mut Store,
        clause: u32,
        literal: u16,
        args: &[Addr],
        children: &mut Vec<NewChild>,
    ) -> Result<bool, AllocError>
        requires step { CanStep self.old clause store.old children.old.items }
        requires leaf { CanMeet self.old.problem.clauses clause literal args.now store.old }
        ensures comes { IfOk result (λ answer. OnTrue answer
            (ExtensionComesTo self.old.problem.clauses clause literal args.now
            store.old store.new (map child_of children.new.items))) }
        ensures fails { IfOk result (λ answer. OnFalse answer
            (ExtensionFails self.old.problem.clauses clause literal args.now store.old)) }
        ensures before { IfOk result (λ answer. OnFalse answer
            ((store.new ≡ store.old) × (children.new.items ≡ []))) }
        ensures same { self.new ≡ self.old }
        ensures err { OnErr result ((store.new ≡ store.old) × (children.new.items ≡ [])) }
    {
        stores_are_sound(store);
        self.registers
            .begin(self.program.problem.clause(clause).vars, args)?;
        let code = self.program.code.extend(clause, literal);
        let ended = attempt(&self.program, &mut self.registers, store, children, code)?;
        Ok(ended)
    }
}
