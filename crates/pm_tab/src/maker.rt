//! What all spaces of a search share.
ghost use Rattle.std.specs.Prelude.{◌≡◌, ◌<◌, ◌^◌, Some, IfOk, length, slice_get};
ghost use Rattle.pm_logic.specs.Problem.{IsValid, start_clauses};
ghost use Rattle.pm_calculus.specs.Skeleton.{State};
ghost use Rattle.pm_calculus.specs.Alternatives.{MayTake};
ghost use Rattle.pm_machine.specs.Value.{IsNew};
ghost use Rattle.pm_tab.specs.Inside.Numbering.{AreNumbersFor};
ghost use Rattle.pm_tab.specs.Inside.Steps.{step_named};

use crate::alternatives::Step;
use crate::numbers::number;
use pm_compile::{Code, compile};
use pm_contra::Contras;
use pm_logic::{BoundKind, Class, Problem, Start};
use pm_machine::Machine;
use std::alloc::{AllocError, Global};
use std::marker::Model;

/// A problem as it is searched: with its class, start rule and kind of bound, its clauses compiled,
/// and an index of their literals.
#[derive(Drop)]
pub struct TabMaker<'p> {
    pub(crate) problem: &'p Problem,
    pub(crate) class: Class,
    pub(crate) start: Start,
    pub(crate) bound: BoundKind,
    pub(crate) code: Code,
    pub(crate) contras: Contras,
    // For each clause the numbers of its literals, 0 for one that has variables.
    pub(crate) numbers: Vec<Vec<u32>>,
    // The start clauses by index.
    pub(crate) starts: Vec<u32>,
}

impl<'p> Model for TabMaker<'p> {
    ghost use Rattle.std.specs.Prelude.{◌≡◌, ◌<◌, ◌^◌, length, map};
    ghost use Rattle.std.specs.Coded.{codes};
    ghost use Rattle.pm_logic.specs.TermCode.{term_code};
    ghost use Rattle.pm_logic.specs.Problem.{IsValid, start_clauses};
    ghost use Rattle.pm_compile.specs.Code.{IsCodeOf};
    ghost use Rattle.pm_contra.specs.Index.{IsIndexOf};
    ghost use Rattle.pm_tab.specs.Searched.{Searched};
    ghost use Rattle.pm_tab.specs.Inside.Numbering.{AreNumbers};

    ghost Value = { Searched };

    ghost coded = { Prim.hlevel (codes, term_code) };

    ghost view = { λ a. record {
      problem = a.problem.now;
      class = a.class;
      start = a.start;
      kind = a.bound;
    } };

    ghost invariant = { λ a. IsValid a.problem.now × (length a.problem.now.symbols < 2 ^ 32)
        × IsCodeOf a.problem.now a.code
        × IsIndexOf a.problem.now.clauses a.contras
        × (a.starts.items ≡ start_clauses a.start a.problem.now.clauses)
        × AreNumbers a.problem.now.clauses (map (λ own. own.items) a.numbers.items) };
}

impl<'p> TabMaker<'p> {
    /// What the search of a problem needs: of the class and start rule of its tableaux, and of what
    /// bounds those of a level.
    pub fn new(
        alloc: Global,
        problem: &'p Problem,
        class: Class,
        start: Start,
        bound: BoundKind,
    ) -> Result<TabMaker<'p>, AllocError>
        ensures { IfOk result (λ maker. maker ≡ record {
          problem = problem.now;
          class = class;
          start = start;
          kind = bound;
        }) }
    {
        let code = compile(alloc, problem)?;
        let contras = Contras::new(alloc, problem)?;
        let numbers = number(alloc, problem)?;
        let starts = problem.starts(alloc, start)?;
        let _clauses = problem.clauses();
        let _symbols = problem.symbols().len();
        Ok(TabMaker {
            problem,
            class,
            start,
            bound,
            code,
            contras,
            numbers,
            starts,
        })
    }

    // A machine over the problem, before the first step.
    pub(crate) fn machine(&self, alloc: Global) -> Result<Machine<'_>, AllocError>
        ensures { IfOk result (IsNew self.now.problem) }
    {
        Machine::new(alloc, self.problem, &self.code)
    }

    // The class of the tableaux.
    pub(crate) fn class(&self) -> Class
        ensures class { result ≡ self.now.class }
        ensures valid { IsValid self.now.problem }
        ensures symbols { length self.now.problem.symbols < 2 ^ 32 }
    {
        self.class
    }

    // The numbers of the literals that a step gives.
    pub(crate) fn numbers(&self, step: Step) -> &[u32]
        requires { (state : State)
            × MayTake self.now.problem.clauses state (step_named step) }
        ensures { AreNumbersFor self.now.problem.clauses (step_named step) result.now }
    {
        match step {
            Step::Start { clause } | Step::Extend { clause, .. } => &self.numbers[clause as usize],
            Step::Reduce { .. } => &[],
        }
    }

    // The start clause of this number.
    pub(crate) fn start_clause(&self, k: u32) -> u32
        requires { k < length (start_clauses self.now.start self.now.problem.clauses) }
        ensures { slice_get (start_clauses self.now.start self.now.problem.clauses) k
            ≡ Some result }
    {
        self.starts[k as usize]
    }
}
