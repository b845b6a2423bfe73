//! Whether the children of a node are an instance of its clause.
ghost use Rattle.std.specs.Prelude.{◌≡◌, ◌↔◌, ◌+◌, ◌<◌, ◌≤◌, IsTrue, IsSomeAnd, drop, length, map, slice_get, slice_index};
ghost use Rattle.pm_logic.specs.View.{entry_of};
ghost use Rattle.pm_calculus.specs.Substitution.{IsInstance};
ghost use Rattle.pm_check.specs.Inside.Images.{none_of};
ghost use Rattle.pm_check.specs.Inside.Siblings.{siblings};

use crate::images::Images;
use crate::matching::{meet_literal, take_all_apart};
use crate::nodes::Nodes;
use pm_logic::Problem;

/// Whether the nodes at this depth from a place on, up to the first node above them, are an
/// instance of the clause of this index. No node at that place lies deeper. Each row of the
/// clause's terms is matched once, so all families of a tableau take linear time.
pub fn is_family(
    images: &mut Images,
    problem: &Problem,
    nodes: &Nodes<'_>,
    clause: u32,
    first: usize,
    depth: u32,
) -> bool
    requires clause { clause < length problem.now.clauses }
    requires images { images.old ≡ none_of (length problem.now.terms) }
    requires within { first ≤ length nodes.now.list.now }
    requires shallow { first < length nodes.now.list.now
        → slice_index (map (λ node. node.depth) nodes.now.list.now) first ≤ depth }
    ensures answer { IsTrue result ↔ IsSomeAnd (slice_get problem.now.clauses clause)
        (λ c. IsInstance c (map (λ e. e.literal)
        (siblings depth (drop first (map (entry_of nodes.now.terms.now) nodes.now.list.now))))) }
    ensures images { images.new ≡ images.old }
{
    let is_instance = matches(images, problem, nodes, clause, first, depth);
    images.clear();
    is_instance
}

// The same, with the images that it finds.
fn matches(
    images: &mut Images,
    problem: &Problem,
    nodes: &Nodes<'_>,
    clause: u32,
    first: usize,
    depth: u32,
) -> bool
    requires clause { clause < length problem.now.clauses }
    requires images { images.old ≡ none_of (length problem.now.terms) }
    requires within { first ≤ length nodes.now.list.now }
    requires shallow { first < length nodes.now.list.now
        → slice_index (map (λ node. node.depth) nodes.now.list.now) first ≤ depth }
    ensures answer { IsTrue result ↔ IsSomeAnd (slice_get problem.now.clauses clause)
        (λ c. IsInstance c (map (λ e. e.literal)
        (siblings depth (drop first (map (entry_of nodes.now.terms.now) nodes.now.list.now))))) }
    ensures count { images.new.count ≡ images.old.count }
{
    // A clause's variables are below its count of them, as the count of clauses tells, and rows are
    // of different terms, as the count of terms tells.
    let _clauses = problem.clauses();
    let _terms = problem.terms().len();
    let given = problem.clause(clause);
    let mut place = first;
    'literals: for literal in &given.literals {
        if !nodes.has(place, depth) {
            return false;
        }
        if !meet_literal(images, nodes.terms, literal, &nodes.list[place].literal) {
            return false;
        }
        place = nodes.next[place];
    }
    if nodes.has(place, depth) {
        return false;
    }
    take_all_apart(images, problem.terms(), nodes.terms)
}
