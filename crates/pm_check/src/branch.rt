//! What is asked of a node and the branch above it.
ghost use Rattle.std.specs.Prelude.{◌≡◌, ◌↔◌, ◌+◌, ◌<◌, ◌≤◌, All, Contains, IsTrue, IsSomeAnd, MatchOption, drop, length, map, slice_get};
ghost use Rattle.pm_logic.specs.declared.tableau.NodeKind.TheVariants.{Leaf};
ghost use Rattle.pm_logic.specs.View.{HasRows, entry_of, literal_of};
ghost use Rattle.pm_calculus.specs.Substitution.{AreComplementary};
ghost use Rattle.pm_check.specs.Offences.{IsClosedAt};
ghost use Rattle.pm_check.specs.PlacedNodes.{PlacedNode};
ghost use Rattle.pm_check.specs.Inside.Images.{none_of};
ghost use Rattle.pm_check.specs.Inside.Passing.{IsFirstAt, IsFit, IsOwnOffence, Passes, PassesByItself};
ghost use Rattle.pm_check.specs.Inside.Siblings.{AreSteps, siblings};
ghost use Rattle.pm_check.specs.Inside.Sights.{HasClosingLeaf, IsSeenAt, literals_of};

use crate::family::is_family;
use crate::images::Images;
use crate::literals::{are_complementary, is_same_literal};
use crate::nodes::Nodes;
use crate::refusal::RefusalKind;
use pm_logic::{Class, Literal, Node, NodeKind, Problem, TermTable};

/// The first kind for which something is wrong at the node at this place, below this branch, where
/// the certificate names this ancestor beside it.
pub fn offence(
    images: &mut Images,
    problem: &Problem,
    class: Class,
    nodes: &Nodes<'_>,
    branch: &[&Literal],
    place: usize,
    ancestor: u32,
) -> Option<RefusalKind>
    requires images { images.old ≡ none_of (length problem.now.terms) }
    requires steps { AreSteps 1 (map (λ node. node.depth) nodes.now.list.now) }
    requires branch { All (λ literal. HasRows (length nodes.now.terms.now) literal.now) branch.now }
    requires node { IsSomeAnd (slice_get nodes.now.list.now place)
        (IsFit (length problem.now.clauses) (length branch.now) ancestor) }
    ensures answer { (placed : PlacedNode)
        → IsSeenAt nodes.now.terms.now nodes.now.list.now branch.now place placed
        → MatchOption result
        (Passes problem.now.clauses class placed ancestor)
        (IsFirstAt problem.now.clauses class placed ancestor) }
    ensures images { images.new ≡ images.old }
{
    let found = own_offence(images, problem, nodes, branch, place, ancestor);
    if found.is_some() {
        return found;
    }
    match class {
        Class::Plain => None,
        Class::Regular => {
            if repeats(nodes.terms, branch, &nodes.list[place].literal) {
                return Some(RefusalKind::NotRegular);
            }
            None
        }
    }
}

// The same, but for regularity.
fn own_offence(
    images: &mut Images,
    problem: &Problem,
    nodes: &Nodes<'_>,
    branch: &[&Literal],
    place: usize,
    ancestor: u32,
) -> Option<RefusalKind>
    requires images { images.old ≡ none_of (length problem.now.terms) }
    requires steps { AreSteps 1 (map (λ node. node.depth) nodes.now.list.now) }
    requires branch { All (λ literal. HasRows (length nodes.now.terms.now) literal.now) branch.now }
    requires node { IsSomeAnd (slice_get nodes.now.list.now place)
        (IsFit (length problem.now.clauses) (length branch.now) ancestor) }
    ensures answer { (placed : PlacedNode)
        → IsSeenAt nodes.now.terms.now nodes.now.list.now branch.now place placed
        → MatchOption result
        (PassesByItself problem.now.clauses placed ancestor)
        (IsOwnOffence problem.now.clauses placed ancestor) }
    ensures images { images.new ≡ images.old }
{
    let node = &nodes.list[place];
    match node.kind {
        NodeKind::Leaf => {
            if is_closed_at(nodes.terms, branch, &node.literal, ancestor) {
                return None;
            }
            Some(RefusalKind::NotComplementary)
        }
        NodeKind::Inner { clause } => {
            if !is_family(images, problem, nodes, clause, place + 1, node.depth + 1) {
                return Some(RefusalKind::NotInstance);
            }
            if is_connected(nodes, place) {
                return None;
            }
            Some(RefusalKind::NotConnected)
        }
    }
}

// Whether the literal at this depth of the branch is complementary to a leaf's.
fn is_closed_at(terms: &TermTable, branch: &[&Literal], literal: &Literal, ancestor: u32) -> bool
    requires above { 1 ≤ ancestor }
    requires within { ancestor ≤ length branch.now }
    requires own { HasRows (length terms.now) literal.now }
    requires branch { All (λ other. HasRows (length terms.now) other.now) branch.now }
    ensures { IsTrue result ↔ IsClosedAt
        (literals_of terms.now branch.now) (literal_of terms.now literal.now) ancestor }
{
    are_complementary(terms, literal, branch[ancestor as usize - 1])
}

// Whether a node of the branch has the literal.
fn repeats(terms: &TermTable, branch: &[&Literal], literal: &Literal) -> bool
    requires own { HasRows (length terms.now) literal.now }
    requires branch { All (λ other. HasRows (length terms.now) other.now) branch.now }
    ensures { IsTrue result
        ↔ Contains (literals_of terms.now branch.now) (literal_of terms.now literal.now) }
{
    'ancestors: for ancestor in branch {
        if is_same_literal(terms, ancestor, literal) {
            return true;
        }
    }
    false
}

// Whether the node at this place has a child that is a leaf and complementary to it.
fn is_connected(nodes: &Nodes<'_>, place: usize) -> bool
    requires steps { AreSteps 1 (map (λ node. node.depth) nodes.now.list.now) }
    requires node { IsSomeAnd (slice_get nodes.now.list.now place) (λ node. node.depth ≤ 250) }
    ensures { IsSomeAnd (slice_get nodes.now.list.now place) (λ node. IsTrue result
        ↔ HasClosingLeaf (literal_of nodes.now.terms.now node.literal)
        (siblings (node.depth + 1)
        (drop (place + 1) (map (entry_of nodes.now.terms.now) nodes.now.list.now)))) }
{
    let parent = &nodes.list[place];
    let depth = parent.depth + 1;
    let mut child = place + 1;
    'children: while nodes.has(child, depth) {
        if is_closing(nodes.terms, &nodes.list[child], &parent.literal) {
            return true;
        }
        child = nodes.next[child];
    }
    false
}

// Whether the child is a leaf that is complementary to its parent.
fn is_closing(terms: &TermTable, child: &Node, parent: &Literal) -> bool
    requires own { HasRows (length terms.now) child.now.literal }
    requires parent { HasRows (length terms.now) parent.now }
    ensures { IsTrue result ↔ (child.now.kind ≡ Leaf) × AreComplementary
        (literal_of terms.now child.now.literal) (literal_of terms.now parent.now) }
{
    match child.kind {
        NodeKind::Leaf => are_complementary(terms, &child.literal, parent),
        NodeKind::Inner { .. } => false,
    }
}
