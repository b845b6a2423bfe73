//! The space of choice lists of a level: a machine that has taken the steps of a path.
ghost use Rattle.std.specs.Prelude.{◌≡◌, ◌↔◌, ℕ, ◌<◌, ◌≤◌, List, [], ◌∷◌, ◌++◌, reverse, length, IfOk, OnErr, IsTrue, MatchBool};
ghost use Rattle.pm_calculus.specs.Alternatives.{MayTake};
ghost use Rattle.pm_calculus.specs.Choices.{IsReachedState, IsReached, IsComplete, IsGeneral, width};
ghost use Rattle.pm_machine.specs.Value.{IsNotDeeper, skeleton};
ghost use Rattle.pm_space.specs.Key.{Key, Agree};
ghost use Rattle.pm_deepen.specs.Levels.{key_of};
ghost use Rattle.pm_tab.specs.Searched.{level_of};
ghost use Rattle.pm_tab.specs.Space.{HasTakenPath};
ghost use Rattle.pm_tab.specs.Hopeful.{IsFirstHopeful};
ghost use Rattle.pm_tab.specs.Inside.Steps.{step_named, IsAlternative, StartsFirst, TakesWithin};
ghost use Rattle.pm_tab.specs.Inside.Watched.{WatchesFor};

use crate::alternatives::{Step, take};
use crate::drawing::draw;
use crate::maker::TabMaker;
use crate::repeats::{NOTHING, Repeats, Watermark};
use pm_logic::{Class, Tableau};
use pm_machine::Machine;
use pm_space::{Maker, Space};
use std::alloc::{AllocError, Global};
use std::marker::Model;

// A choice of the path, and what there was before it: the number of alternatives, that of clause
// instances, and the mark of what is watched.
#[derive(Clone, Copy, Debug)]
pub(crate) struct Frame {
    choice: u32,
    width: u32,
    instances: u64,
    mark: Watermark,
}

/// A place in the space of a level.
#[derive(Drop)]
pub struct TabSpace<'m, 'p> {
    alloc: Global,
    maker: &'m TabMaker<'p>,
    level: u32,
    machine: Machine<'m>,
    repeats: Repeats,
    frames: Vec<Frame>,
    // The number of alternatives after the path.
    width: u32,
    // The number of clause instances that the path has built.
    instances: u64,
}

impl<'m, 'p> Model for TabSpace<'m, 'p> {
    ghost use Rattle.std.specs.Prelude.{◌≡◌, ◌≤◌, reverse};
    ghost use Rattle.std.specs.Coded.{codes};
    ghost use Rattle.pm_logic.specs.TermCode.{term_code};
    ghost use Rattle.pm_tab.specs.Searched.{level_of};
    ghost use Rattle.pm_tab.specs.Space.{Place};
    ghost use Rattle.pm_tab.specs.Inside.Standing.{path_of, Stands};

    ghost Value = { Place };

    ghost coded = { Prim.hlevel (codes, term_code) };

    ghost view = { λ a. record {
      level = level_of a.maker.now a.level;
      path = path_of (reverse a.frames.items);
      machine = a.machine;
    } };

    ghost invariant = { λ a. (a.level ≤ 250) × (a.machine.problem ≡ a.maker.now.problem)
        × Stands (level_of a.maker.now a.level) (reverse a.frames.items)
        (record { width = a.width; instances = a.instances })
        a.machine.state a.machine.before a.repeats };
}

impl<'m, 'p> TabSpace<'m, 'p> {
    // The space of a level, at the empty path.
    pub(crate) fn new(
        alloc: Global,
        maker: &'m TabMaker<'p>,
        level: u32,
    ) -> Result<TabSpace<'m, 'p>, AllocError>
        requires { level ≤ 250 }
        ensures level { IfOk result (λ space. space.level ≡ level_of maker.now level) }
        ensures path { IfOk result (λ space. space.path ≡ []) }
    {
        let machine = maker.machine(alloc)?;
        let width = maker.width(level, 0, &machine);
        Ok(TabSpace {
            alloc,
            maker,
            level,
            machine,
            repeats: Repeats::new(alloc),
            frames: Vec::new(alloc),
            width,
            instances: 0,
        })
    }

    /// The machine, which has taken exactly the steps that the path names. This takes no memory.
    pub fn machine(&self) -> &Machine<'m>
        ensures machine { result.now ≡ self.now.machine }
        ensures path { HasTakenPath self.now }
    {
        &self.machine
    }

    /// The general tableau of the path, which is complete.
    pub fn tableau(&self, alloc: Global) -> Result<Tableau, AllocError>
        requires { IsComplete self.now.level self.now.path }
        ensures { IfOk result
            (λ drawn. IsGeneral self.now.level self.now.path drawn.tableau) }
    {
        let root = self.maker.start_clause(self.frames[0].choice);
        draw(alloc, &self.machine, root)
    }
}

// Takes a step, if what it builds is within the level and, in the class regular, has no literal
// twice on a branch, and answers the mark of what was watched. Where it isn't taken, and after want
// of memory, all is as before.
fn take_within(
    maker: &TabMaker<'_>,
    level: u32,
    machine: &mut Machine<'_>,
    repeats: &mut Repeats,
    step: Step,
) -> Result<Option<Watermark>, AllocError>
    requires problem { machine.old.problem ≡ maker.now.problem }
    requires depth { IsNotDeeper 250 machine.old }
    requires first { StartsFirst step machine.old }
    requires alternative { IsAlternative (level_of maker.now level) machine.old step }
    requires may { MayTake machine.old.problem.clauses (skeleton machine.old) (step_named step) }
    requires reached { IsReachedState (level_of maker.now level) (skeleton machine.old) }
    requires watches { WatchesFor maker.now.class maker.now.problem.clauses machine.old.state
        repeats.old }
    ensures answer { IfOk result (TakesWithin (level_of maker.now level) step machine.old machine.new
        repeats.old repeats.new) }
    ensures err { OnErr result ((machine.new ≡ machine.old) × (repeats.new ≡ repeats.old)) }
{
    if !maker.fits(level, step) {
        return Ok(None);
    }
    match maker.class() {
        Class::Plain => Ok(take(machine, step)?.then_some(NOTHING)),
        Class::Regular => repeats.take(machine, step, maker.numbers(step)),
    }
}

impl<'m, 'p> Space for TabSpace<'m, 'p> {
    ghost use Rattle.pm_tab.specs.KeyLaws.{level_laws};

    ghost path = { λ space. space.path };

    ghost key = { λ space. key_of space.level };

    fn width(&self) -> u32 {
        self.width
    }

    fn is_complete(&self) -> bool {
        self.instances > 0 && self.machine.leaf().is_none()
    }

    fn length(&self) -> usize {
        self.frames.len()
    }

    /// Adds alternative `k` to the path where the longer list is reached, and else answers false
    /// and leaves the path. After want of memory the path is as before. The level stays.
    fn step(&mut self, k: u32) -> Result<bool, AllocError>
        requires { k < width self.old.level self.old.path }
        ensures reached { IfOk result
            (λ longer. IsTrue longer ↔ IsReached self.old.level (self.old.path ++ k ∷ [])) }
        ensures path { IfOk result (λ longer. MatchBool longer
            (self.new.path ≡ self.old.path ++ k ∷ []) (self.new.path ≡ self.old.path)) }
        ensures err { OnErr result (self.new.path ≡ self.old.path) }
        ensures level { self.new.level ≡ self.old.level }
        ensures key { Agree (key_of self.new.level) (key_of self.old.level) }
    {
        self.frames.reserve(1)?;
        let step = self.maker.step(&self.machine, k);
        let Some(mark) = take_within(
            self.maker,
            self.level,
            &mut self.machine,
            &mut self.repeats,
            step,
        )?
        else {
            return Ok(false);
        };
        let instances = self.instances + step.instances();
        let width = self.maker.width(self.level, instances, &self.machine);
        self.frames.push_reserved(Frame {
            choice: k,
            width: self.width,
            instances: self.instances,
            mark,
        });
        self.width = width;
        self.instances = instances;
        Ok(true)
    }

    /// Drops the last choice of the path. The level stays.
    fn back(&mut self)
        requires { 0 < length self.old.path }
        ensures path { (k : ℕ) × (self.old.path ≡ self.new.path ++ k ∷ []) }
        ensures level { self.new.level ≡ self.old.level }
        ensures key { Agree (key_of self.new.level) (key_of self.old.level) }
    {
        if let Some(frame) = self.frames.pop() {
            self.machine.back();
            self.repeats.undo(frame.mark);
            self.width = frame.width;
            self.instances = frame.instances;
        }
    }

    /// The least alternative from `from` on, at most the width, that is a start clause, a reduction
    /// with an ancestor of the opposite sign and the same predicate, or an extension by a literal
    /// whose first four arguments may match the leaf's by what they begin with; the width where
    /// there is none. This takes no memory.
    fn hopeful(&self, from: u32) -> u32
        requires { from ≤ width self.now.level self.now.path }
        ensures exact { IsFirstHopeful self.now.level self.now.machine.state from result }
        ensures from { from ≤ result }
        ensures width { result ≤ width self.now.level self.now.path }
        ensures hopeless { (k : ℕ) → from ≤ k → k < result
            → IsReached self.now.level (self.now.path ++ k ∷ []) → ⊥ }
    {
        self.maker.hopeful(&self.machine, self.width, from)
    }

    ghost is_key = { λ space. level_laws space.level };
}

impl<'m, 'p> Maker for &'m TabMaker<'p> {
    type Made = TabSpace<'m, 'p>;

    ghost key_at = { λ maker level. key_of (level_of maker.now level) };

    /// The space of a level, at most 250, at the empty path.
    fn make(&self, alloc: Global, level: u32) -> Result<TabSpace<'m, 'p>, AllocError>
        requires { level ≤ 250 }
        ensures path { IfOk result (λ space. space.path ≡ []) }
        ensures level { IfOk result (λ space. space.level ≡ level_of self.now.now level) }
        ensures key { IfOk result
            (λ space. Agree (key_of space.level) (key_of (level_of self.now.now level))) }
    {
        let maker: &'m TabMaker<'p> = *self;
        TabSpace::new(alloc, maker, level)
    }
}
