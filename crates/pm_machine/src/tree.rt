//! The nodes that the steps have built, in pre-order, and what undoes each step.
ghost use Rattle.std.specs.Prelude.{◌≡◌, ◌<◌, ◌≤◌, [], ◌∷◌, ◌++◌, Some, None, All, IfOk, OnOk, OnErr, length, map, slice_get, take, drop, set, replicate};
ghost use Rattle.pm_run.specs.Runner.{child_of};
ghost use Rattle.pm_machine.specs.State.{child_at, IsOpen};
ghost use Rattle.pm_machine.specs.Node.{node_of};
ghost use Rattle.std.specs.Prelude.{◌↔◌, ◌-◌, ◌+◌, ℕ, IsTrue, List, IfSome, option_map};
ghost use Rattle.std.specs.Vec.{vec_len, vec_capacity};
ghost use Rattle.pm_machine.specs.Inside.Frames.{TreeValue, deepest, no_tree, children_at, IsNext, IsStarted, IsExtended, IsReduced, CanStep, CanExtend, CanUndo, CanReopen, reopened_nodes, depth_at, Undoes};
ghost use Rattle.pm_machine.specs.declared.tree.Taken.{Taken};
ghost use Rattle.pm_machine.specs.Inside.History.{HasPlace};
ghost use Rattle.pm_machine.specs.Inside.Running.{HasAncestor};

use crate::node::MachineNode;
use pm_run::NewChild;
use pm_store::Mark;
use std::alloc::{AllocError, Global};
use std::marker::Model;

// How deep a node lies at most: an extended leaf isn't deeper than 250.
pub(crate) const DEEPEST: usize = 251;

// A step, as it was asked for.
#[derive(Clone, Copy, Debug)]
pub(crate) enum Step {
    Start { clause: u32 },
    Extend { clause: u32, literal: u16 },
    Reduce { ancestor: u32 },
}

// A step that was taken, and what its undoing needs.
#[derive(Clone, Copy, Debug)]
pub(crate) struct Taken {
    pub(crate) step: Step,
    // How far the store had come.
    pub(crate) mark: Mark,
    // The place of the selected leaf, and how many nodes there were.
    leaf: usize,
    nodes: usize,
    // What the branch had in the leaf's place.
    replaced: usize,
}

// The nodes, seen with the steps taken, the last first.
#[derive(Drop)]
pub(crate) struct Tree {
    pub(crate) nodes: Vec<MachineNode>,
    // The places of the selected leaf's ancestors, the one at depth 1 first; what comes after them
    // is what a step before has left.
    branch: Vec<usize>,
    // The place of the selected leaf: the number of nodes, where no leaf is open.
    leaf: usize,
    taken: Vec<Taken>,
}

impl Model for Tree {
    ghost use Rattle.std.specs.Prelude.{map, reverse};
    ghost use Rattle.pm_machine.specs.Node.{node_of};
    ghost use Rattle.pm_machine.specs.Inside.Frames.{TreeValue};

    ghost Value = { TreeValue };

    ghost view = { λ a. record {
      nodes = map node_of a.nodes.items;
      branch = a.branch.items;
      leaf = a.leaf;
      taken = reverse a.taken.items;
    } };
}

impl Tree {
    // A tree without nodes.
    pub(crate) fn new(alloc: Global) -> Result<Tree, AllocError>
        ensures { IfOk result (λ tree. tree ≡ no_tree) }
    {
        Ok(Tree {
            nodes: Vec::new(alloc),
            branch: Vec::from_elem(alloc, 0, DEEPEST)?,
            leaf: 0,
            taken: Vec::new(alloc),
        })
    }

    // The selected leaf, if a leaf is open.
    pub(crate) fn selected(&self) -> Option<&MachineNode>
        ensures { option_map (λ node. node_of node.now) result
            ≡ slice_get self.now.nodes self.now.leaf }
    {
        self.nodes.get(self.leaf)
    }

    // The place of the selected leaf: the number of nodes, where no leaf is open.
    pub(crate) fn place(&self) -> usize
        ensures { result ≡ self.now.leaf }
    {
        self.leaf
    }

    // The places of the first so many nodes on the branch.
    pub(crate) fn above(&self, count: usize) -> &[usize]
        requires { count ≤ length self.now.branch }
        ensures { result.now ≡ take count self.now.branch }
    {
        &self.branch[..count]
    }

    // The selected leaf, where one is.
    pub(crate) fn leaf(&self) -> &MachineNode
        requires { self.now.leaf < length self.now.nodes }
        ensures { slice_get self.now.nodes self.now.leaf ≡ Some (node_of result.now) }
    {
        &self.nodes[self.leaf]
    }

    // The ancestor of the selected leaf at this depth.
    pub(crate) fn ancestor(&self, depth: u32) -> &MachineNode
        requires { (level : ℕ) × (depth ≡ level + 1) × HasPlace self.now level }
        ensures { HasAncestor self.now depth (node_of result.now) }
    {
        let place = self.branch[depth as usize - 1];
        &self.nodes[place]
    }

    // The children are the nodes.
    pub(crate) fn start(
        &mut self,
        clause: u32,
        mark: Mark,
        children: &mut Vec<NewChild>,
    ) -> Result<(), AllocError>
        requires { self.old.nodes ≡ [] }
        ensures ok { OnOk result (IsStarted clause mark (map child_of children.old.items) self.old
            self.new) }
        ensures children { OnOk result (children.new.items ≡ []) }
        ensures err { OnErr result (self.new ≡ self.old) }
    {
        self.taken.reserve(1)?;
        insert_children(&mut self.nodes, 0, 0, children)?;
        self.taken.push_reserved(Taken {
            step: Step::Start { clause },
            mark,
            leaf: 0,
            nodes: 0,
            replaced: 0,
        });
        self.select(0);
        Ok(())
    }

    // The selected leaf gets the clause, and the children.
    pub(crate) fn extend(
        &mut self,
        clause: u32,
        literal: u16,
        mark: Mark,
        children: &mut Vec<NewChild>,
    ) -> Result<(), AllocError>
        requires { CanExtend self.old }
        ensures ok { OnOk result (IsExtended clause literal mark (map child_of children.old.items)
            self.old self.new) }
        ensures children { OnOk result (children.new.items ≡ []) }
        ensures err { OnErr result (self.new ≡ self.old) }
    {
        self.taken.reserve(1)?;
        let count = self.nodes.len();
        let leaf = self.leaf;
        let depth = self.nodes[leaf].depth;
        insert_children(&mut self.nodes, leaf + 1, depth, children)?;
        self.nodes[leaf].clause = Some(clause);
        let level = depth as usize - 1;
        let replaced = self.branch[level];
        self.branch[level] = leaf;
        self.taken.push_reserved(Taken {
            step: Step::Extend { clause, literal },
            mark,
            leaf,
            nodes: count,
            replaced,
        });
        self.select(leaf + 1);
        Ok(())
    }

    // The selected leaf is closed by its ancestor at this depth.
    pub(crate) fn reduce(&mut self, ancestor: u32, mark: Mark) -> Result<(), AllocError>
        requires { CanStep self.old }
        ensures ok { OnOk result (IsReduced ancestor mark self.old self.new) }
        ensures err { OnErr result (self.new ≡ self.old) }
    {
        self.taken.reserve(1)?;
        let count = self.nodes.len();
        let leaf = self.leaf;
        let node = &mut self.nodes[leaf];
        node.closed_by = Some(ancestor);
        let replaced = self.branch[node.depth as usize - 1];
        self.taken.push_reserved(Taken {
            step: Step::Reduce { ancestor },
            mark,
            leaf,
            nodes: count,
            replaced,
        });
        self.select(leaf + 1);
        Ok(())
    }

    // Selects the first open leaf from this place on.
    fn select(&mut self, from: usize)
        requires { from ≤ length self.old.nodes }
        ensures leaf { IsNext from self.new.nodes self.new.leaf }
        ensures same { self.new ≡ record self.old { leaf = self.new.leaf } }
    {
        let mut leaf = from;
        'nodes: while leaf < self.nodes.len() && !is_open(&self.nodes[leaf]) {
            leaf += 1;
        }
        self.leaf = leaf;
    }

    // Undoes the last step, and gives the mark that the store had before it.
    pub(crate) fn undo(&mut self) -> Option<Mark>
        requires { (t : Taken) (earlier : List Taken) → self.old.taken ≡ t ∷ earlier
            → CanUndo t self.old }
        ensures undone { IfSome result (λ mark. Undoes self.old.taken self.old self.new mark) }
        ensures none { result ≡ None → self.old.taken ≡ [] }
    {
        let Taken {
            step,
            mark,
            leaf,
            nodes,
            replaced,
        } = self.taken.pop()?;
        match step {
            Step::Start { .. } => self.nodes.clear(),
            Step::Extend { .. } | Step::Reduce { .. } => self.reopen(leaf, nodes, replaced),
        }
        self.leaf = leaf;
        Some(mark)
    }

    // The leaf in this place is open again: of the nodes after it those go that are too many.
    fn reopen(&mut self, leaf: usize, count: usize, replaced: usize)
        requires { CanReopen leaf count self.old }
        ensures nodes { self.new.nodes ≡ reopened_nodes leaf count self.old.nodes }
        ensures branch { self.new.branch
            ≡ set self.old.branch (depth_at self.old.nodes leaf - 1) replaced }
        ensures same { (self.new.leaf ≡ self.old.leaf) × (self.new.taken ≡ self.old.taken) }
    {
        let added = self.nodes.len() - count;
        let from = leaf + 1;
        self.nodes.drain(from..from + added);
        let node = &mut self.nodes[leaf];
        node.clause = None;
        node.closed_by = None;
        self.branch[node.depth as usize - 1] = replaced;
    }
}

// Whether the node is a leaf that isn't closed.
fn is_open(node: &MachineNode) -> bool
    ensures { IsTrue result ↔ IsOpen (node_of node.now) }
{
    node.clause.is_none() && node.closed_by.is_none()
}

// The children of a node at this depth come in at a place, in order.
fn insert_children(
    nodes: &mut Vec<MachineNode>,
    at: usize,
    depth: u32,
    children: &mut Vec<NewChild>,
) -> Result<(), AllocError>
    requires place { at ≤ length nodes.old.items }
    requires depth { depth < deepest }
    ensures ok { OnOk result (map node_of nodes.new.items ≡ take at (map node_of nodes.old.items)
        ++ (children_at depth (map child_of children.old.items)
        ++ drop at (map node_of nodes.old.items))) }
    ensures children { OnOk result (children.new.items ≡ []) }
    ensures err { OnErr result (nodes.new.items ≡ nodes.old.items) }
{
    let count = children.len();
    nodes.reserve(count)?;
    // They are put at the end, and then brought to their place at once.
    children.reverse();
    'children: while let Some(child) = children.pop() {
        nodes.push_reserved(new_node(depth, child));
    }
    nodes[at..].rotate_right(count);
    Ok(())
}

// The child of a node at this depth.
fn new_node(depth: u32, child: NewChild) -> MachineNode
    requires { depth < deepest }
    ensures { node_of result ≡ child_at depth (child_of child) }
{
    MachineNode {
        depth: depth + 1,
        positive: child.positive,
        predicate: child.predicate,
        args: child.args,
        clause: None,
        closed_by: if child.closed { Some(depth) } else { None },
    }
}
