//! Nodes in pre-order, and how to go from a node to the next one that doesn't lie below it.
ghost use Rattle.std.specs.Prelude.{◌≡◌, ◌↔◌, ℕ, ◌+◌, ◌<◌, ◌≤◌, All, List, Some, IfOk, IsTrue, length, map, slice_get, slice_index};
ghost use Rattle.pm_logic.specs.Term.{Term};
ghost use Rattle.pm_logic.specs.View.{HasRows};
ghost use Rattle.pm_check.specs.Inside.Siblings.{AreNextPlaces, IsNextPlace};

use pm_logic::{Node, TermTable};
use std::alloc::{AllocError, Global};

/// The nodes of a tableau in pre-order with the terms that their rows are of, and for each node the
/// next place with a node that doesn't lie below it.
#[derive(Clone, Copy)]
pub struct Nodes<'a> {
    pub terms: &'a TermTable,
    pub list: &'a [Node],
    pub next: &'a [usize],
    ghost rows: { All (λ node. HasRows (length terms.now) node.literal) list.now },
    ghost places: { AreNextPlaces (map (λ node. node.depth) list.now) next.now },
}

impl<'a> Nodes<'a> {
    /// Whether there is a node at this place, and it has this depth.
    pub fn has(&self, place: usize, depth: u32) -> bool
        ensures { IsTrue result ↔ (place < length self.now.list.now)
            × (slice_index (map (λ node. node.depth) self.now.list.now) place ≡ depth) }
    {
        place < self.list.len() && self.list[place].depth == depth
    }
}

/// For each node the next place with a node that doesn't lie below it: in time linear in the number
/// of nodes, from the last one on.
pub fn next_places(alloc: Global, nodes: &[Node]) -> Result<Vec<usize>, AllocError>
    ensures { IfOk result (λ next. AreNextPlaces (map (λ node. node.depth) nodes.now) next.items) }
{
    let mut next = vec![in alloc; 0; nodes.len()]?;
    let mut place = nodes.len();
    'places: while 0 < place {
        place -= 1;
        let end = next_place(nodes, next.as_slice(), place);
        next[place] = end;
    }
    Ok(next)
}

// The next place, where those of the nodes after this one are known.
fn next_place(nodes: &[Node], next: &[usize], place: usize) -> usize
    requires within { place < length nodes.now }
    requires count { length next.now ≡ length nodes.now }
    requires later { (k : ℕ) → place < k → k < length nodes.now
        → IsNextPlace (map (λ node. node.depth) nodes.now) k (slice_index next.now k) }
    ensures { IsNextPlace (map (λ node. node.depth) nodes.now) place result }
{
    let mut end = place + 1;
    'below: while end < nodes.len() && nodes[place].depth < nodes[end].depth {
        end = next[end];
    }
    end
}
