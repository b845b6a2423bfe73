//! Tableaux as nodes in pre-order, and their sizes.
ghost use Rattle.std.specs.Prelude.{◌≡◌, ◌≤◌, ◌++◌, ◌∷◌, [], All, OnOk, OnErr, length, map};
ghost use Rattle.pm_logic.specs.Tableau.{PreorderDetermines, no_nodes, preorder, deepest_next, depth, instances};
ghost use Rattle.pm_logic.specs.View.{HasRows, entry_of};

use crate::problem::Literal;
use crate::terms::TermTable;
use std::alloc::{AllocError, Global};
use std::marker::Model;

/// What bounds the tableaux of a level: their depth, or their number of clause instances.
#[derive(Clone, Copy, Debug, PartialEq, Eq, Hash)]
pub enum BoundKind {
    Depth,
    Inferences,
}

/// A leaf, or a node with the children that the clause of this index gave it.
#[derive(Clone, Copy, Debug, PartialEq, Eq, Hash)]
pub enum NodeKind {
    Leaf,
    Inner { clause: u32 },
}

/// A node of a tableau. The root's children have the depth 1.
#[derive(Debug, Drop)]
pub struct Node {
    pub depth: u32,
    pub literal: Literal,
    pub kind: NodeKind,
}

/// A tableau with the terms that its literals' rows are of: seen as a tree.
#[derive(Drop)]
pub struct Tableau {
    terms: TermTable,
    root: u32,
    // in pre-order
    nodes: Vec<Node>,
}

impl Model for Tableau {
    ghost use Rattle.pm_logic.specs.Tableau as spec;
    ghost use Rattle.pm_logic.specs.Inside.Codes.{tableau_code};

    ghost Value = { spec.TableauWithTerms };

    ghost coded = { tableau_code };

    ghost use Rattle.pm_logic.specs.View.{tableau_of, IsPreorder};

    ghost view = { λ a. record {
      terms = a.terms;
      tableau = tableau_of a.terms a.root a.nodes.items;
    } };

    ghost invariant = { λ a. IsPreorder a.terms a.nodes.items };
}

impl Tableau {
    /// The tableau whose root has the clause of this index, and no nodes yet.
    pub fn new(alloc: Global, terms: TermTable, root: u32) -> Tableau
        ensures { result ≡ record {
          terms = terms;
          tableau = record { root = root; children = no_nodes };
        } }
    {
        Tableau {
            terms,
            root,
            nodes: Vec::new(alloc),
        }
    }

    /// Adds the next node in pre-order. It lies as deep as a leaf before it at most, one deeper
    /// than an inner node before it at most, and the first node has the depth 1.
    pub fn add(&mut self, node: Node) -> Result<(), AllocError>
        requires below_root { 1 ≤ node.depth }
        requires shallow { node.depth ≤ deepest_next (preorder self.old.tableau) }
        requires rows { HasRows (length self.old.terms) node.literal }
        ensures nodes { OnOk result (preorder self.new.tableau ≡ preorder self.old.tableau
            ++ entry_of self.old.terms node ∷ []) }
        ensures root { self.new.tableau.root ≡ self.old.tableau.root }
        ensures terms { self.new.terms ≡ self.old.terms }
        ensures err { OnErr result (self.new ≡ self.old) }
    {
        self.nodes.push(node)?;
        Ok(())
    }

    /// The nodes in pre-order.
    pub fn nodes(&self) -> &[Node]
        ensures nodes { map (entry_of self.now.terms) result.now ≡ preorder self.now.tableau }
        ensures rows { All (λ node. HasRows (length self.now.terms) node.literal) result.now }
    {
        self.nodes.as_slice()
    }

    /// The index of the root's clause.
    pub fn root(&self) -> u32
        ensures { result ≡ self.now.tableau.root }
    {
        self.root
    }

    /// The terms that the literals' rows are of.
    pub fn terms(&self) -> &TermTable
        ensures { result.now ≡ self.now.terms }
    {
        &self.terms
    }
}

/// The number of literals on the longest branch of the tableau; 0 where its root's clause is empty.
pub fn tableau_depth(tableau: &Tableau) -> u32
    ensures { result ≡ depth tableau.now.tableau }
{
    let mut deepest: u32 = 0;
    for node in tableau.nodes() {
        deepest = deepest.max(node.depth);
    }
    deepest
}

/// The number of clause instances of the tableau: of its nodes that carry a clause, the root among
/// them.
pub fn tableau_instances(tableau: &Tableau) -> u64
    ensures { result ≡ instances tableau.now.tableau }
{
    let mut inner: u64 = 0;
    for node in tableau.nodes() {
        match node.kind {
            NodeKind::Leaf => {}
            NodeKind::Inner { .. } => inner += 1,
        }
    }
    inner + 1
}

/// A tableau is determined by its root's clause and its nodes in pre-order.
pub fn preorder_determines()
    ensures { PreorderDetermines }
{}

#[cfg(test)]
mod tests {
    use super::*;
    use std::test::Fail;

    // A node of the symbol 0 with no arguments.
    fn node(alloc: Global, depth: u32, positive: bool, kind: NodeKind) -> Node
        ensures depth { result.depth ≡ depth }
        ensures kind { result.kind ≡ kind }
        ensures args { result.literal.args.items ≡ [] }
    {
        Node {
            depth,
            literal: Literal {
                positive,
                predicate: 0,
                args: Vec::new(alloc),
            },
            kind,
        }
    }

    #[test]
    fn no_nodes_have_depth_zero(rt: HostRuntime) {
        let tableau = Tableau::new(rt.alloc(), TermTable::new(rt.alloc()), 3);
        assert_eq!(rt; tableau_depth(&tableau), 0);
        assert_eq!(rt; tableau_instances(&tableau), 1);
        assert_eq!(rt; tableau.root(), 3);
        assert_eq!(rt; tableau.nodes().len(), 0);
        assert_eq!(rt; tableau.terms().len(), 0);
    }

    #[test]
    fn one_branch(rt: HostRuntime) -> Result<(), Fail> {
        let mut tableau = Tableau::new(rt.alloc(), TermTable::new(rt.alloc()), 1);
        tableau.add(node(rt.alloc(), 1, false, NodeKind::Inner { clause: 0 }))?;
        tableau.add(node(rt.alloc(), 2, true, NodeKind::Leaf))?;
        assert_eq!(rt; tableau_depth(&tableau), 2);
        assert_eq!(rt; tableau_instances(&tableau), 2);
        assert_eq!(rt; tableau.nodes().len(), 2);
        Ok(())
    }

    #[test]
    fn two_branches(rt: HostRuntime) -> Result<(), Fail> {
        let mut tableau = Tableau::new(rt.alloc(), TermTable::new(rt.alloc()), 0);
        tableau.add(node(rt.alloc(), 1, true, NodeKind::Inner { clause: 1 }))?;
        tableau.add(node(rt.alloc(), 2, false, NodeKind::Leaf))?;
        tableau.add(node(rt.alloc(), 2, true, NodeKind::Leaf))?;
        tableau.add(node(rt.alloc(), 1, false, NodeKind::Leaf))?;
        assert_eq!(rt; tableau_depth(&tableau), 2);
        Ok(())
    }
}
