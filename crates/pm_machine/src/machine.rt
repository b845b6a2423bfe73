//! The machine: a tableau that grows by steps, and a store whose solutions are its labellings.
ghost use Rattle.std.specs.Prelude.{◌≡◌, ◌≢◌, ◌<◌, [], None, IfOk, OnOk, OnErr, IsTrue, length, map};
ghost use Rattle.std.specs.Bool.{OnTrue, OnFalse};
ghost use Rattle.pm_compile.specs.Code.{IsCodeOf};
ghost use Rattle.pm_calculus.specs.Skeleton.{start, extend, reduce, selected};
ghost use Rattle.pm_calculus.specs.Alternatives.{MayTake};
ghost use Rattle.pm_machine.specs.Labels.{IsBuilt};
ghost use Rattle.pm_machine.specs.State.{IsPlaceOfLeaf, AreAncestors};
ghost use Rattle.pm_machine.specs.Node.{node_of, Views};
ghost use Rattle.pm_machine.specs.Value.{IsNew, Answers, IsNotDeeper, IsBack, skeleton};
ghost use Rattle.pm_machine.specs.Inside.History.{IsStanding};
ghost use Rattle.pm_machine.specs.Inside.Running.{RunsStart, RunsExtension, FailsExtension, RunsReduction, FailsReduction, MayTakeAt, IsShallow};

use crate::node::{LeafView, MachineNode};
use crate::tree::Tree;
use pm_compile::Code;
use pm_logic::Problem;
use pm_run::{NewChild, Runner, unite};
use pm_store::Store;
use std::alloc::{AllocError, Global};
use std::marker::Model;

/// A tableau over a problem that grows by steps, its literals' arguments being cells of a store:
/// seen as what the steps have built, and as the states before each step. The solutions of the
/// store give the nodes exactly the labellings of the skeleton of the steps.
#[derive(Drop)]
pub struct Machine<'p> {
    alloc: Global,
    runner: Runner<'p>,
    store: Store,
    tree: Tree,
    // The children of the step that is being taken.
    children: Vec<NewChild>,
}

impl<'p> Model for Machine<'p> {
    ghost use Rattle.std.specs.Prelude.{◌≡◌, []};
    ghost use Rattle.pm_machine.specs.Value.{MachineValue};
    ghost use Rattle.std.specs.Coded.{codes};
    ghost use Rattle.pm_logic.specs.TermCode.{term_code};
    ghost use Rattle.pm_machine.specs.Inside.History.{state_of, states_before, IsHistory};

    ghost Value = { MachineValue };

    ghost coded = { Prim.hlevel (codes, term_code) };

    ghost view = { λ a. record {
      problem = a.runner.problem;
      state = state_of a.store a.tree;
      before = states_before a.tree.taken a.store a.tree;
    } };

    ghost invariant = { λ a. (a.children.items ≡ [])
        × IsHistory a.runner.problem a.runner.cells a.tree.taken a.store a.tree };
}

impl<'p> Machine<'p> {
    /// A machine over a problem and its code, before the first step. The cells of the problem's
    /// ground terms are made.
    pub fn new(
        alloc: Global,
        problem: &'p Problem,
        code: &'p Code,
    ) -> Result<Machine<'p>, AllocError>
        requires { IsCodeOf problem.now code.now }
        ensures { IfOk result (λ machine. IsNew problem.now machine) }
    {
        let mut store = Store::new(alloc);
        let runner = Runner::new(alloc, problem, code, &mut store)?;
        let tree = Tree::new(alloc)?;
        Ok(Machine {
            alloc,
            runner,
            store,
            tree,
            children: Vec::new(alloc),
        })
    }

    /// The selected leaf, if a leaf is open: its depth, sign and predicate. This takes no memory.
    pub fn leaf(&self) -> Option<LeafView>
        ensures shown { Views (selected (skeleton self.now)) result }
        ensures built { IsBuilt self.now.problem self.now.state }
    {
        let node = self.tree.selected()?;
        Some(LeafView {
            depth: node.depth,
            positive: node.positive,
            predicate: node.predicate,
        })
    }

    /// The nodes that the steps have built, in pre-order. This takes no memory.
    pub fn nodes(&self) -> &[MachineNode]
        ensures nodes { map node_of result.now ≡ self.now.state.nodes }
        ensures built { IsBuilt self.now.problem self.now.state }
    {
        &self.tree.nodes
    }

    /// The place of the selected leaf among the nodes; the number of nodes, where no leaf is open.
    /// This takes no memory.
    pub fn place(&self) -> usize
        ensures { IsPlaceOfLeaf self.now.state.nodes result }
    {
        self.tree.place()
    }

    /// The places of the selected leaf's ancestors among the nodes, the one at depth 1 first. A
    /// leaf is selected. This takes no memory.
    pub fn ancestors(&self) -> &[usize]
        requires { selected (skeleton self.now) ≢ None }
        ensures { AreAncestors self.now.state.nodes result.now }
    {
        let depth = self.tree.leaf().depth as usize;
        self.tree.above(depth - 1)
    }

    /// The store of the nodes' cells. This takes no memory.
    pub fn store(&self) -> &Store
        ensures { result.now ≡ self.now.state.equations }
    {
        &self.store
    }

    /// Starts with the clause of this index, and answers true: its literals are the nodes. No step
    /// was taken before. After want of memory the machine is as before.
    pub fn start(&mut self, clause: u32) -> Result<bool, AllocError>
        requires first { self.old.state.steps ≡ [] }
        requires clause { clause < length self.old.problem.clauses }
        ensures answer { IfOk result (Answers (start clause) self.old self.new) }
        ensures taken { IfOk result (λ taken. IsTrue taken) }
        ensures err { OnErr result (self.new ≡ self.old) }
    {
        start_tree(
            &mut self.runner,
            &mut self.store,
            &mut self.tree,
            &mut self.children,
            clause,
        )
    }

    /// Extends the selected leaf, which isn't deeper than 250, by a literal with its predicate and
    /// the opposite sign: of the clause of this index the one of that index. False where no
    /// labelling of the longer skeleton exists; then and after want of memory the machine is as
    /// before.
    pub fn extend(&mut self, clause: u32, literal: u16) -> Result<bool, AllocError>
        requires may { MayTake self.old.problem.clauses (skeleton self.old)
            (extend clause literal) }
        requires depth { IsNotDeeper 250 self.old }
        ensures answer { IfOk result (Answers (extend clause literal) self.old self.new) }
        ensures err { OnErr result (self.new ≡ self.old) }
    {
        extend_tree(
            &mut self.runner,
            &mut self.store,
            &mut self.tree,
            &mut self.children,
            clause,
            literal,
        )
    }

    /// Closes the selected leaf by its ancestor at depth `k`, from 1 on and below its own. False
    /// where no labelling of the longer skeleton exists; then and after want of memory the machine
    /// is as before.
    pub fn reduce(&mut self, k: u32) -> Result<bool, AllocError>
        requires { MayTake self.old.problem.clauses (skeleton self.old) (reduce k) }
        ensures answer { IfOk result (Answers (reduce k) self.old self.new) }
        ensures err { OnErr result (self.new ≡ self.old) }
    {
        reduce_tree(self.alloc, &self.runner, &mut self.store, &mut self.tree, k)
    }

    /// Undoes the last step. This takes no memory.
    pub fn back(&mut self)
        requires { self.old.before ≢ [] }
        ensures { IsBack self.old self.new }
    {
        if let Some(mark) = self.tree.undo() {
            self.store.undo(mark);
        }
    }
}

// Runs the code of the start with a clause, has its children as the nodes, and answers true. After
// want of memory store and tree are as before.
fn start_tree(
    runner: &mut Runner<'_>,
    store: &mut Store,
    tree: &mut Tree,
    children: &mut Vec<NewChild>,
    clause: u32,
) -> Result<bool, AllocError>
    requires standing { IsStanding runner.old.problem runner.old.cells store.old tree.old }
    requires nodes { tree.old.nodes ≡ [] }
    requires clause { clause < length runner.old.problem.clauses }
    requires children { children.old.items ≡ [] }
    ensures done { OnOk result (RunsStart runner.old.problem.clauses clause store.old store.new
        tree.old tree.new) }
    ensures taken { IfOk result (λ taken. IsTrue taken) }
    ensures runner { runner.new ≡ runner.old }
    ensures children { children.new.items ≡ [] }
    ensures err { OnErr result ((store.new ≡ store.old) × (tree.new ≡ tree.old)) }
{
    let mark = store.mark();
    runner.start(store, clause, children)?;
    if let Err(error) = tree.start(clause, mark, children) {
        store.undo(mark);
        children.clear();
        return Err(error);
    }
    Ok(true)
}

// Runs the code of an extension at the selected leaf, which then has the children. On false and
// after want of memory store and tree are as before.
fn extend_tree(
    runner: &mut Runner<'_>,
    store: &mut Store,
    tree: &mut Tree,
    children: &mut Vec<NewChild>,
    clause: u32,
    literal: u16,
) -> Result<bool, AllocError>
    requires standing { IsStanding runner.old.problem runner.old.cells store.old tree.old }
    requires may { MayTakeAt runner.old.problem tree.old (extend clause literal) }
    requires depth { IsShallow tree.old }
    requires children { children.old.items ≡ [] }
    ensures done { IfOk result (λ done. OnTrue done (RunsExtension runner.old.problem.clauses clause
        literal store.old store.new tree.old tree.new)) }
    ensures fails { IfOk result (λ done. OnFalse done (FailsExtension runner.old.problem.clauses
        clause literal store.old tree.old)) }
    ensures before { IfOk result (λ done. OnFalse done ((store.new ≡ store.old)
        × (tree.new ≡ tree.old))) }
    ensures runner { runner.new ≡ runner.old }
    ensures children { children.new.items ≡ [] }
    ensures err { OnErr result ((store.new ≡ store.old) × (tree.new ≡ tree.old)) }
{
    let mark = store.mark();
    let leaf = tree.leaf();
    if !runner.extend(store, clause, literal, &leaf.args, children)? {
        return Ok(false);
    }
    if let Err(error) = tree.extend(clause, literal, mark, children) {
        store.undo(mark);
        children.clear();
        return Err(error);
    }
    Ok(true)
}

// Unifies the selected leaf with its ancestor at a depth, if it has the opposite sign and the same
// predicate, and closes it. On false and after want of memory store and tree are as before.
fn reduce_tree(
    alloc: Global,
    runner: &Runner<'_>,
    store: &mut Store,
    tree: &mut Tree,
    k: u32,
) -> Result<bool, AllocError>
    requires standing { IsStanding runner.now.problem runner.now.cells store.old tree.old }
    requires may { MayTakeAt runner.now.problem tree.old (reduce k) }
    ensures done { IfOk result (λ done. OnTrue done (RunsReduction k store.old store.new tree.old
        tree.new)) }
    ensures fails { IfOk result (λ done. OnFalse done (FailsReduction k store.old tree.old)) }
    ensures before { IfOk result (λ done. OnFalse done ((store.new ≡ store.old)
        × (tree.new ≡ tree.old))) }
    ensures err { OnErr result ((store.new ≡ store.old) × (tree.new ≡ tree.old)) }
{
    let mark = store.mark();
    let leaf = tree.leaf();
    let ancestor = tree.ancestor(k);
    if leaf.positive == ancestor.positive || leaf.predicate != ancestor.predicate {
        return Ok(false);
    }
    if !unite(alloc, store, &leaf.args, &ancestor.args)? {
        return Ok(false);
    }
    if let Err(error) = tree.reduce(k, mark) {
        store.undo(mark);
        return Err(error);
    }
    Ok(true)
}
