//! Literals on the branches of a tableau that must not become equal.
ghost use Rattle.std.specs.Prelude.{◌≡◌, ◌≢◌, ◌<◌, ◌≤◌, ◌+◌, ◌-◌, ◌^◌, [], ◌∷◌, ◌++◌, All, IfOk, OnOk, OnErr, get_or, length, map, take, drop};
ghost use Rattle.std.specs.Bool.{OnTrue, OnFalse};
ghost use Rattle.std.specs.Vec.{vec_len, vec_capacity};
ghost use Rattle.pm_logic.specs.Problem.{IsValid};
ghost use Rattle.pm_store.specs.Sound.{IsSound};
ghost use Rattle.pm_store.specs.Marks.{HasMark, bound_since};
ghost use Rattle.pm_run.specs.InStore.{HasArgsBelow};
ghost use Rattle.pm_diseq.specs.Standing.{StandsAt, StoodBefore};
ghost use Rattle.pm_machine.specs.Node.{node_of};
ghost use Rattle.pm_calculus.specs.Alternatives.{MayTake};
ghost use Rattle.pm_machine.specs.Value.{IsBack, IsNotDeeper, skeleton};
ghost use Rattle.pm_tab.specs.Repeats.{has_same_face, pairs_with, family_pairs, literals_in, literals_after, last_of, NotesBranch};
ghost use Rattle.pm_tab.specs.Inside.Adding.{literal_on, AreNodesOf, IsChildOf, AreChildrenOf, AddsPairs, HasIdentical, HasFamilyAfter, WatchesMore, RepeatsSome};
ghost use Rattle.pm_tab.specs.Inside.Numbering.{AreNumbersFor, AreNumbered};
ghost use Rattle.pm_tab.specs.Inside.Steps.{step_named, GrewTo, StartsFirst, TakesRegularly};
ghost use Rattle.pm_tab.specs.Inside.Watched.{no_watch, Watches, unwatched, HasWatermark};

use crate::alternatives::{Step, take};
use pm_diseq::Pool;
use pm_lanes::find_id;
use pm_machine::{Machine, MachineNode};
use pm_store::{Mark, Store};
use std::alloc::{AllocError, Global};
use std::marker::Model;

// How far what is watched had come before a step: how many notes there were, and where how many
// numbers came in.
#[derive(Clone, Copy, Debug)]
pub(crate) struct Watermark {
    notes: usize,
    place: usize,
    count: usize,
}

// Before steps that watch nothing.
pub(crate) const NOTHING: Watermark = Watermark {
    notes: 0,
    place: 0,
    count: 0,
};

/// The pairs of literals on a branch that have the same sign and predicate: their arguments must
/// stay apart. A pair of literals without variables is told apart by their numbers, once for all.
#[derive(Drop)]
pub(crate) struct Repeats {
    pool: Pool,
    // For each of the machine's nodes the number of its literal, 0 where it has variables.
    numbers: Vec<u32>,
    // The places of the ancestors of the leaf that a step extends, and its own.
    branch: Vec<usize>,
    // The numbers of the literals in these places.
    ids: Vec<u32>,
}

impl Model for Repeats {
    ghost use Rattle.pm_tab.specs.Inside.Watched.{Watch};

    ghost Value = { Watch };

    ghost view = { λ a. record { notes = a.pool; numbers = a.numbers.items } };
}

impl Repeats {
    // Nothing is watched.
    pub(crate) fn new(alloc: Global) -> Repeats
        ensures { result ≡ no_watch }
    {
        Repeats {
            pool: Pool::new(alloc),
            numbers: Vec::new(alloc),
            branch: Vec::new(alloc),
            ids: Vec::new(alloc),
        }
    }

    // What was watched before the step with this mark.
    pub(crate) fn undo(&mut self, mark: Watermark)
        requires { HasWatermark mark self.old }
        ensures { self.new ≡ unwatched mark self.old }
    {
        self.pool.undo(mark.notes);
        self.numbers.drain(mark.place..mark.place + mark.count);
    }

    // Takes a step that gives literals of these numbers, unless after it a branch has a literal
    // twice, and answers the mark before it. Then, where the machine refuses it, and after want of
    // memory all is as before.
    pub(crate) fn take(
        &mut self,
        machine: &mut Machine<'_>,
        step: Step,
        numbers: &[u32],
    ) -> Result<Option<Watermark>, AllocError>
        requires valid { IsValid machine.old.problem }
        requires may { MayTake machine.old.problem.clauses (skeleton machine.old) (step_named step) }
        requires depth { IsNotDeeper 250 machine.old }
        requires first { StartsFirst step machine.old }
        requires watches { Watches machine.old.problem.clauses machine.old.state self.old }
        requires numbers { AreNumbersFor machine.old.problem.clauses (step_named step) numbers.now }
        ensures answer { IfOk result
            (TakesRegularly step machine.old machine.new self.old self.new) }
        ensures err { OnErr result ((machine.new ≡ machine.old) × (self.new ≡ self.old)) }
    {
        note_branch(machine, &mut self.branch)?;
        note_ids(&self.numbers, &self.branch, &mut self.ids)?;
        self.numbers.reserve(numbers.len())?;
        let nodes = machine.nodes().len();
        let bindings = machine.store().mark();
        let mark = Watermark {
            notes: self.pool.mark(),
            place: place_after(&self.branch),
            count: numbers.len(),
        };
        if !take(machine, step)? {
            return Ok(None);
        }
        match settle(
            &mut self.pool,
            machine,
            &bindings,
            &self.branch,
            &self.ids,
            numbers,
            nodes,
        ) {
            Ok(true) => {
                insert_reserved(&mut self.numbers, mark.place, numbers);
                Ok(Some(mark))
            }
            Ok(false) => {
                self.go_back(machine, mark.notes);
                Ok(None)
            }
            Err(error) => {
                self.go_back(machine, mark.notes);
                Err(error)
            }
        }
    }

    // Undoes the machine's last step, and the notes that came after so many.
    fn go_back(&mut self, machine: &mut Machine<'_>, notes: usize)
        requires step { machine.old.before ≢ [] }
        requires notes { notes ≤ length self.old.notes }
        ensures machine { IsBack machine.old machine.new }
        ensures notes { self.new.notes ≡ take notes self.old.notes }
        ensures numbers { self.new.numbers ≡ self.old.numbers }
    {
        self.pool.undo(notes);
        machine.back();
    }
}

// The place after the branch's end; the first one, where it is empty.
fn place_after(branch: &[usize]) -> usize
    requires { All (λ place. place + 1 < 2 ^ 64) branch.now }
    ensures some { branch.now ≢ [] → result ≡ last_of branch.now + 1 }
    ensures none { branch.now ≡ [] → result ≡ 0 }
{
    match branch.last() {
        Some(&leaf) => leaf + 1,
        None => 0,
    }
}

// Puts numbers, for which there is room, into a place.
fn insert_reserved(into: &mut Vec<u32>, place: usize, numbers: &[u32])
    requires place { place ≤ length into.old.items }
    requires room { vec_len into.old + length numbers.now ≤ vec_capacity into.old }
    ensures { into.new.items
        ≡ take place into.old.items ++ (numbers.now ++ drop place into.old.items) }
{
    // They are put at the end, and then brought to their place at once.
    'numbers: for &number in numbers {
        into.push_reserved(number);
    }
    into[place..].rotate_right(numbers.len());
}

// Notes the numbers of the literals in these places.
fn note_ids(numbers: &[u32], branch: &[usize], ids: &mut Vec<u32>) -> Result<(), AllocError>
    requires { All (λ place. place < length numbers.now) branch.now }
    ensures { OnOk result
        (ids.new.items ≡ map (λ place. get_or numbers.now place 0) branch.now) }
{
    ids.clear();
    'places: for &place in branch {
        ids.push(numbers[place])?;
    }
    Ok(())
}

// Notes the places of the branch to the selected leaf; none, where no leaf is selected.
fn note_branch(machine: &Machine<'_>, branch: &mut Vec<usize>) -> Result<(), AllocError>
    ensures { OnOk result (NotesBranch machine.now.state.nodes branch.new.items) }
{
    branch.clear();
    if machine.leaf().is_some() {
        branch.extend_from_slice(machine.ancestors())?;
        branch.push(machine.place())?;
    }
    Ok(())
}

// Looks at what is watched after these bindings, and watches the nodes after the first `nodes` at
// the branch's end, whose literals have these numbers; answers whether all is apart.
fn settle(
    pool: &mut Pool,
    machine: &Machine<'_>,
    bindings: &Mark,
    branch: &[usize],
    ids: &[u32],
    numbers: &[u32],
    nodes: usize,
) -> Result<bool, AllocError>
    requires has { HasMark machine.now.state.equations bindings.now }
    requires stood { StoodBefore machine.now.state.equations pool.old
        (bound_since machine.now.state.equations bindings.now) }
    requires room { HasFamilyAfter machine.now.state.nodes branch.now nodes }
    requires numbers { branch.now ≢ [] → AreNumbered machine.now.state.equations
        (literals_in machine.now.state.nodes branch.now) ids.now
        (literals_after machine.now.state.nodes (last_of branch.now)
        (length machine.now.state.nodes - nodes)) numbers.now }
    ensures apart { IfOk result (λ apart. OnTrue apart (WatchesMore machine.now.state pool.old
        pool.new branch.now (length machine.now.state.nodes - nodes))) }
    ensures repeats { IfOk result (λ apart. OnFalse apart (RepeatsSome machine.now.state pool.old
        branch.now (length machine.now.state.nodes - nodes))) }
    ensures more { GrewTo pool.old pool.new }
{
    let store = machine.store();
    if !pool.settle_after(store, store.bound_since(bindings))? {
        return Ok(false);
    }
    let Some(&leaf) = branch.last() else {
        return Ok(true);
    };
    let all = machine.nodes();
    let children = nodes_after(all, leaf, all.len() - nodes);
    watch(pool, store, all, branch, ids, children, numbers)
}

// So many nodes after the one in a place.
fn nodes_after(nodes: &[MachineNode], place: usize, count: usize) -> &[MachineNode]
    requires { place + 1 + count ≤ length nodes.now }
    ensures { result.now ≡ take count (drop (place + 1) nodes.now) }
{
    &nodes[place + 1..][..count]
}

// Watches the children below the branch; answers whether all are new.
fn watch(
    pool: &mut Pool,
    store: &Store,
    nodes: &[MachineNode],
    branch: &[usize],
    ids: &[u32],
    children: &[MachineNode],
    numbers: &[u32],
) -> Result<bool, AllocError>
    requires sound { IsSound store.now }
    requires stands { StandsAt store.now pool.old }
    requires branch { AreNodesOf store.now (map node_of nodes.now) branch.now }
    requires children { AreChildrenOf store.now (map node_of nodes.now)
        (map node_of children.now) }
    requires numbers { AreNumbered store.now (literals_in (map node_of nodes.now) branch.now)
        ids.now (map literal_on children.now) numbers.now }
    ensures apart { IfOk result (λ apart. OnTrue apart (AddsPairs store.now pool.old pool.new
        (family_pairs (literals_in (map node_of nodes.now) branch.now)
        (map literal_on children.now)))) }
    ensures repeats { IfOk result (λ apart. OnFalse apart (HasIdentical store.now
        (family_pairs (literals_in (map node_of nodes.now) branch.now)
        (map literal_on children.now)))) }
    ensures more { GrewTo pool.old pool.new }
{
    'children: for (i, child) in children.iter().enumerate() {
        if !watch_child(pool, store, nodes, branch, ids, child, numbers[i])? {
            return Ok(false);
        }
    }
    Ok(true)
}

// Watches a child, whose literal has this number, below the branch; answers whether it is new.
fn watch_child(
    pool: &mut Pool,
    store: &Store,
    nodes: &[MachineNode],
    branch: &[usize],
    ids: &[u32],
    child: &MachineNode,
    number: u32,
) -> Result<bool, AllocError>
    requires sound { IsSound store.now }
    requires stands { StandsAt store.now pool.old }
    requires branch { AreNodesOf store.now (map node_of nodes.now) branch.now }
    requires child { IsChildOf store.now (map node_of nodes.now) (node_of child.now) }
    requires numbers { AreNumbered store.now (literals_in (map node_of nodes.now) branch.now)
        ids.now (literal_on child.now ∷ []) (number ∷ []) }
    ensures apart { IfOk result (λ apart. OnTrue apart (AddsPairs store.now pool.old pool.new
        (pairs_with (literals_in (map node_of nodes.now) branch.now) (literal_on child.now)))) }
    ensures repeats { IfOk result (λ apart. OnFalse apart (HasIdentical store.now
        (pairs_with (literals_in (map node_of nodes.now) branch.now) (literal_on child.now)))) }
    ensures more { GrewTo pool.old pool.new }
{
    if number > 0 && find_id(ids, number).is_some() {
        return Ok(false);
    }
    'branch: for (i, &place) in branch.iter().enumerate() {
        // Two literals that have numbers are apart for good.
        if number > 0 && ids[i] > 0 {
            continue;
        }
        if !watch_pair(pool, store, &nodes[place], child)? {
            return Ok(false);
        }
    }
    Ok(true)
}

// Watches the child of a node somewhere above it; answers whether their literals are apart.
fn watch_pair(
    pool: &mut Pool,
    store: &Store,
    above: &MachineNode,
    child: &MachineNode,
) -> Result<bool, AllocError>
    requires stands { StandsAt store.now pool.old }
    requires above { HasArgsBelow (length store.now.cells) (literal_on above.now) }
    requires child { IsChildOf store.now (node_of above.now ∷ []) (node_of child.now) }
    ensures apart { IfOk result (λ apart. OnTrue apart (AddsPairs store.now pool.old pool.new
        (pairs_with (literal_on above.now ∷ []) (literal_on child.now)))) }
    ensures repeats { IfOk result (λ apart. OnFalse apart (HasIdentical store.now
        (pairs_with (literal_on above.now ∷ []) (literal_on child.now)))) }
    ensures more { GrewTo pool.old pool.new }
{
    if !has_same_face(child, above) {
        return Ok(true);
    }
    pool.add(store, &above.args, &child.args)
}

// Whether the nodes' literals have the same sign and predicate.
fn has_same_face(node: &MachineNode, other: &MachineNode) -> bool
    ensures { result ≡ has_same_face (literal_on node.now) (literal_on other.now) }
{
    node.positive == other.positive && node.predicate == other.predicate
}
