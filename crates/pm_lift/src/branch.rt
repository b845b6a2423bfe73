//! The branch above a node, and what the node adds to the list.
ghost use Rattle.std.specs.Prelude.{◌≡◌, ℕ, ◌<◌, ◌≤◌, ◌++◌, All, List, OnOk, length, map};
ghost use Rattle.pm_logic.specs.Term.{Term};
ghost use Rattle.pm_logic.specs.Tableau.{leaf};
ghost use Rattle.pm_logic.specs.View.{HasRows, literal_of, entry_of};
ghost use Rattle.pm_lift.specs.Inside.Tree.{is_closing, reduction_choice};
ghost use Rattle.pm_lift.specs.Inside.Walk.{literals_of, waiting, answered, closing_at, leaf_choices, after_leaf};
ghost use Rattle.pm_lift.specs.Inside.View.{branch_of, HaveRows};

use crate::complements::are_complementary;
use pm_logic::{Literal, Node, NodeKind, TermTable};
use std::alloc::AllocError;

/// An inner node of a branch, and whether the leaf that its extension closes is still to come.
#[derive(Clone, Copy)]
pub struct Ancestor<'a> {
    pub literal: &'a Literal,
    pub waits: bool,
}

/// What a leaf adds below this branch: nothing where its parent's extension closes it, and else the
/// reduction with the first ancestor that is complementary to it. The parent no longer waits for a
/// leaf that it closes.
pub fn add_leaf<'a>(
    list: &mut Vec<u32>,
    terms: &TermTable,
    branch: &mut Vec<Ancestor<'a>>,
    literal: &Literal,
) -> Result<(), AllocError>
    requires own { HasRows (length terms.now) literal.now }
    requires rows { HaveRows (length terms.now) branch.old.items }
    requires shallow { length branch.old.items < 250 }
    ensures list { OnOk result (list.new.items ≡ list.old.items
        ++ leaf_choices (branch_of terms.now branch.old.items) (literal_of terms.now literal.now)) }
    ensures branch { OnOk result (branch_of terms.now branch.new.items
        ≡ after_leaf (branch_of terms.now branch.old.items) (literal_of terms.now literal.now)) }
    ensures rows { OnOk result (HaveRows (length terms.now) branch.new.items) }
{
    if closes_parent(terms, branch.as_slice(), literal) {
        answer(branch);
        return Ok(());
    }
    list.push(reduction(terms, branch.as_slice(), literal) as u32)?;
    Ok(())
}

// Whether the leaf of this literal is the one that the last node of the branch waits for.
fn closes_parent(terms: &TermTable, branch: &[Ancestor<'_>], literal: &Literal) -> bool
    requires own { HasRows (length terms.now) literal.now }
    requires rows { HaveRows (length terms.now) branch.now }
    ensures { result ≡ is_closing
        (waiting (branch_of terms.now branch.now)) (leaf (literal_of terms.now literal.now)) }
{
    match branch.last() {
        Some(parent) => parent.waits && are_complementary(terms, literal, parent.literal),
        None => false,
    }
}

// Marks that the last node of the branch no longer waits.
fn answer(branch: &mut Vec<Ancestor<'_>>)
    requires { 0 < length branch.old.items }
    ensures branch { (terms : List Term)
        → branch_of terms branch.new.items ≡ answered (branch_of terms branch.old.items) }
    ensures rows { (count : ℕ) → HaveRows count branch.old.items → HaveRows count branch.new.items }
{
    let last = branch.len() - 1;
    branch[last].waits = false;
}

// The place of the first node of the branch that is complementary to a leaf of this literal, or the
// branch's length.
fn reduction(terms: &TermTable, branch: &[Ancestor<'_>], literal: &Literal) -> usize
    requires own { HasRows (length terms.now) literal.now }
    requires rows { HaveRows (length terms.now) branch.now }
    ensures place { result ≡ reduction_choice
        (literals_of (branch_of terms.now branch.now)) (literal_of terms.now literal.now) }
    ensures within { result ≤ length branch.now }
{
    let mut place = 0;
    'ancestors: for ancestor in branch {
        if are_complementary(terms, literal, ancestor.literal) {
            return place;
        }
        place += 1;
    }
    place
}

/// How many of these nodes at this depth come before the first leaf there that is complementary to
/// the parent.
pub fn closing_place(terms: &TermTable, parent: &Literal, depth: u32, later: &[Node]) -> usize
    requires own { HasRows (length terms.now) parent.now }
    requires rows { All (λ node. HasRows (length terms.now) node.literal) later.now }
    ensures { result ≡ closing_at
        (literal_of terms.now parent.now) depth (map (entry_of terms.now) later.now) }
{
    let mut child = 0;
    'later: for node in later {
        if node.depth != depth {
            continue;
        }
        if matches!(node.kind, NodeKind::Leaf) && are_complementary(terms, &node.literal, parent) {
            return child;
        }
        child += 1;
    }
    child
}
