//! The numbered alternatives at the state of a machine, each found by its number.
ghost use Rattle.std.specs.Prelude.{◌≡◌, ◌↔◌, ℕ, ◌<◌, ◌≤◌, ◌^◌, [], ◌∷◌, All, Some, IsTrue, IfOk, OnErr, get_or, length, map, not, slice_get};
ghost use Rattle.std.specs.Slice.Scan.{IsFirstPlace};
ghost use Rattle.pm_logic.specs.Problem.{IsValid};
ghost use Rattle.pm_calculus.specs.Skeleton.{literals_at, instances_built};
ghost use Rattle.pm_calculus.specs.Alternatives.{alternatives, heads, MayTake};
ghost use Rattle.pm_machine.specs.Node.{node_of};
ghost use Rattle.pm_machine.specs.Value.{Answers, IsNotDeeper, skeleton};
ghost use Rattle.pm_tab.specs.Hopeful.{AreOpposite, IsFirstHopeful};
ghost use Rattle.pm_tab.specs.Searched.{level_of};
ghost use Rattle.pm_tab.specs.StepLaws.{StartFits};
ghost use Rattle.pm_tab.specs.Inside.Counting.{has_room_for, IsNumberAt, IsWidthAt, IsChosen};
ghost use Rattle.pm_tab.specs.Inside.Passing.{opposite_of, matches_at, IsFirstOpposite, top_in, HasSmallTops};
ghost use Rattle.pm_tab.specs.Inside.Steps.{step_named, instances_given, StartsFirst, StartsAmong, StepFits};

use crate::maker::TabMaker;
use pm_contra::Head;
use pm_lanes::next_compatible;
use pm_logic::BoundKind;
use pm_machine::{LeafView, Machine, MachineNode};
use pm_store::{Addr, Cell, Store};
use std::alloc::AllocError;

/// A step of the calculus.
#[derive(Clone, Copy, Debug)]
pub(crate) enum Step {
    Start { clause: u32 },
    Extend { clause: u32, literal: u16 },
    Reduce { ancestor: u32 },
}

impl Step {
    // How many clause instances the step gives.
    pub(crate) fn instances(self) -> u64
        ensures { result ≡ instances_given (step_named self) }
    {
        match self {
            Step::Start { .. } | Step::Extend { .. } => 1,
            Step::Reduce { .. } => 0,
        }
    }
}

impl<'p> TabMaker<'p> {
    // The literals by which the leaf may be extended.
    fn heads(&self, leaf: LeafView) -> &[Head]
        ensures heads { result.now ≡ heads
            (record { positive = not leaf.positive; predicate = leaf.predicate })
            self.now.problem.clauses }
        ensures few { length result.now ≤ 2 ^ 24 }
    {
        self.contras.heads(leaf.predicate, !leaf.positive)
    }

    // Whether there is room for an extension of the leaf: its depth, or the number of instances, is
    // below the level.
    fn has_room(&self, level: u32, instances: u64, leaf: LeafView) -> bool
        ensures { result ≡ has_room_for self.now.kind instances leaf.depth level }
    {
        match self.bound {
            BoundKind::Depth => leaf.depth < level,
            BoundKind::Inferences => instances < u64::from(level),
        }
    }

    // The number of alternatives at the machine's state, which has so many instances.
    pub(crate) fn width(&self, level: u32, instances: u64, machine: &Machine<'_>) -> u32
        requires level { level ≤ 250 }
        requires problem { machine.now.problem ≡ self.now.problem }
        requires instances { instances ≡ instances_built (skeleton machine.now) }
        ensures { result
            ≡ length (alternatives (level_of self.now level) (skeleton machine.now)) }
    {
        if instances == 0 {
            return self.starts.len() as u32;
        }
        let Some(leaf) = machine.leaf() else {
            return 0;
        };
        if self.has_room(level, instances, leaf) {
            leaf.depth - 1 + self.heads(leaf).len() as u32
        } else {
            leaf.depth - 1
        }
    }

    // The step of this number.
    pub(crate) fn step(&self, machine: &Machine<'_>, k: u32) -> Step
        requires problem { machine.now.problem ≡ self.now.problem }
        requires within { IsNumberAt self.now machine.now k }
        ensures { (level : ℕ)
            → k < length (alternatives (level_of self.now level) (skeleton machine.now))
            → slice_get (alternatives (level_of self.now level) (skeleton machine.now)) k
            ≡ Some (step_named result) }
    {
        match machine.leaf() {
            None => Step::Start {
                clause: self.start_clause(k),
            },
            Some(leaf) => {
                if k < leaf.depth - 1 {
                    return Step::Reduce { ancestor: k + 1 };
                }
                let head = self.heads(leaf)[(k - (leaf.depth - 1)) as usize];
                Step::Extend {
                    clause: head.clause,
                    literal: head.literal,
                }
            }
        }
    }

    // Whether the step, if it is a start, builds what is within the level.
    pub(crate) fn fits(&self, level: u32, step: Step) -> bool
        requires { StartsAmong (length self.now.problem.clauses) step }
        ensures { IsTrue result ↔ StepFits self.now level step }
    {
        match step {
            Step::Start { clause } => self.starts_within(level, clause),
            Step::Extend { .. } | Step::Reduce { .. } => true,
        }
    }

    // Whether a tableau of the start clause alone is within the level.
    fn starts_within(&self, level: u32, clause: u32) -> bool
        requires { clause < length self.now.problem.clauses }
        ensures { IsTrue result
            ↔ StartFits self.now.kind level (literals_at self.now.problem.clauses clause) }
    {
        match self.bound {
            BoundKind::Depth => level > 0 || self.problem.clause(clause).literals.is_empty(),
            BoundKind::Inferences => level > 0,
        }
    }
}

impl<'p> TabMaker<'p> {
    // The first alternative from `from` on that isn't hopeless at sight.
    pub(crate) fn hopeful(&self, machine: &Machine<'_>, width: u32, from: u32) -> u32
        requires problem { machine.now.problem ≡ self.now.problem }
        requires width { IsWidthAt self.now machine.now width }
        requires from { from ≤ width }
        requires chosen { IsChosen self.now machine.now }
        ensures valid { IsValid self.now.problem }
        ensures first { (level : ℕ)
            → width ≡ length (alternatives (level_of self.now level) (skeleton machine.now))
            → IsFirstHopeful (level_of self.now level) machine.now.state from result }
    {
        let _ = &self.problem;
        let Some(view) = machine.leaf() else {
            return from;
        };
        let reductions = view.depth - 1;
        let nodes = machine.nodes();
        let leaf = node_at(nodes, machine.place());
        let first = hopeful_reduction(nodes, machine.ancestors(), leaf, from);
        if first < reductions {
            return first;
        }
        if width == reductions {
            return first;
        }
        let goal = tops(machine.store(), &leaf.args);
        let place = self.compatible_head(view, goal, (first - reductions) as usize);
        reductions + place as u32
    }

    // The first of the literals by which the leaf may be extended, from `from` on, whose first four
    // arguments may match the goal's by what they begin with.
    fn compatible_head(&self, leaf: LeafView, goal: [u32; 4], from: usize) -> usize
        requires { from ≤ length (heads (opposite_of leaf) self.now.problem.clauses) }
        ensures { IsFirstPlace (matches_at self.now.problem.clauses (opposite_of leaf) goal) from
            (length (heads (opposite_of leaf) self.now.problem.clauses)) result }
    {
        let contras = &self.contras;
        next_compatible(
            goal,
            contras.column(leaf.predicate, !leaf.positive, 0),
            contras.column(leaf.predicate, !leaf.positive, 1),
            contras.column(leaf.predicate, !leaf.positive, 2),
            contras.column(leaf.predicate, !leaf.positive, 3),
            from,
        )
    }
}

// The node in a place.
fn node_at(nodes: &[MachineNode], place: usize) -> &MachineNode
    requires { place < length nodes.now }
    ensures { result.now ≡ get_or nodes.now place result.now }
{
    &nodes[place]
}

// The first of a leaf's ancestors from number `from` on, counted from 0, that has the opposite sign
// and the same predicate; else their number, or `from`, where that is more.
fn hopeful_reduction(
    nodes: &[MachineNode],
    ancestors: &[usize],
    leaf: &MachineNode,
    from: u32,
) -> u32
    requires within { All (λ place. place < length nodes.now) ancestors.now }
    requires few { length ancestors.now < 2 ^ 32 }
    ensures { IsFirstOpposite (map node_of nodes.now) ancestors.now (node_of leaf.now) from
        result }
{
    let mut k = from;
    'ancestors: while (k as usize) < ancestors.len() {
        if are_opposite(&nodes[ancestors[k as usize]], leaf) {
            return k;
        }
        k += 1;
    }
    k
}

// Whether the nodes' literals have opposite signs and the same predicate.
fn are_opposite(node: &MachineNode, other: &MachineNode) -> bool
    ensures { IsTrue result ↔ AreOpposite (node_of node.now).literal (node_of other.now).literal }
{
    node.positive != other.positive && node.predicate == other.predicate
}

// What the first four arguments begin with.
fn tops(store: &Store, args: &[Addr]) -> [u32; 4]
    requires within { All (λ arg. arg < length store.now.cells) args.now }
    requires symbols { HasSmallTops store.now args.now }
    ensures { result ≡ map (top_in store.now args.now) (0 ∷ 1 ∷ 2 ∷ 3 ∷ []) }
{
    [
        top(store, args, 0),
        top(store, args, 1),
        top(store, args, 2),
        top(store, args, 3),
    ]
}

// The number of the symbol that an argument begins with plus one; 0 for a variable, and for an
// argument that isn't there.
fn top(store: &Store, args: &[Addr], q: usize) -> u32
    requires within { All (λ arg. arg < length store.now.cells) args.now }
    requires symbols { HasSmallTops store.now args.now }
    ensures { result ≡ top_in store.now args.now q }
{
    match args.get(q) {
        Some(&cell) => match store.look(cell) {
            Cell::Free(_) => 0,
            Cell::App { symbol, .. } => symbol + 1,
        },
        None => 0,
    }
}

// Takes a step of the machine.
pub(crate) fn take(machine: &mut Machine<'_>, step: Step) -> Result<bool, AllocError>
    requires may { MayTake machine.old.problem.clauses (skeleton machine.old) (step_named step) }
    requires depth { IsNotDeeper 250 machine.old }
    requires first { StartsFirst step machine.old }
    ensures answer { IfOk result (Answers (step_named step) machine.old machine.new) }
    ensures err { OnErr result (machine.new ≡ machine.old) }
{
    match step {
        Step::Start { clause } => machine.start(clause),
        Step::Extend { clause, literal } => machine.extend(clause, literal),
        Step::Reduce { ancestor } => machine.reduce(ancestor),
    }
}
