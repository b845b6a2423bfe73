//! The lines of a tableau's nodes.
ghost use Rattle.std.specs.Prelude.{◌≡◌, ◌↔◌, ◌<◌, ◌++◌, ℕ, List, All, Any, Contains, IsTrue, OnOk, Some, length, map, slice_get};
ghost use Rattle.std.specs.List.{AllZip};
ghost use Rattle.pm_logic.specs.Problem.{Symbol};
ghost use Rattle.pm_logic.specs.Term.{tree_at};
ghost use Rattle.pm_logic.specs.View.{HasRows, literal_of};
ghost use Rattle.pm_calculus.specs.Substitution.{AreComplementary};
ghost use Rattle.pm_certread.specs.Lines.{Ending, NodeLine, node_line, text_of};
ghost use Rattle.pm_cert.specs.Ancestors.{IsCloser, placed_nodes};
ghost use Rattle.pm_cert.specs.Text.{IsEndingOf, IsLineOf};
ghost use Rattle.pm_cert.specs.Inside.Listing.{AreRows};
ghost use Rattle.pm_cert.specs.Inside.Nodes.{IsClosedAt, IsWritableNode, ending_text, front_text, literals_on};

use crate::lines::{push_number, push_places};
use indexmap::IndexSet;
use pm_logic::{Literal, Node, NodeKind, Symbols, Tableau, TermId, TermTable, write_symbol};
use std::alloc::{AllocError, Global};

// Whether the rows are the same in turn.
fn are_same(rows: &[TermId], others: &[TermId]) -> bool
    ensures { IsTrue result ↔ (rows.now ≡ others.now) }
{
    rows == others
}

// Whether the literals are complementary.
fn are_complementary(terms: &TermTable, literal: &Literal, other: &Literal) -> bool
    requires rows { HasRows (length terms.now) literal.now }
    requires others { HasRows (length terms.now) other.now }
    ensures { IsTrue result ↔ AreComplementary (literal_of terms.now literal.now)
        (literal_of terms.now other.now) }
{
    // Different rows are different terms.
    let _count = terms.len();
    literal.positive != other.positive
        && literal.predicate == other.predicate
        && are_same(&literal.args, &other.args)
}

// The depth of the first literal on the branch that is complementary.
fn closer(terms: &TermTable, branch: &[&Literal], literal: &Literal) -> usize
    requires rows { HasRows (length terms.now) literal.now }
    requires branch { All (λ l. HasRows (length terms.now) l.now) branch.now }
    requires closed { Any (AreComplementary (literal_of terms.now literal.now))
        (literals_on terms.now branch.now) }
    ensures { IsCloser (literals_on terms.now branch.now) (literal_of terms.now literal.now)
        result }
{
    for (i, ancestor) in branch.iter().enumerate() {
        if are_complementary(terms, literal, *ancestor) {
            return i + 1;
        }
    }
    unreachable!()
}

// Appends the front of a node's line: its depth, and its literal's sign, predicate and arguments.
fn push_front(
    text: &mut Vec<u8>,
    symbols: &Symbols,
    list: &IndexSet<TermId>,
    depth: u64,
    literal: &Literal,
) -> Result<(), AllocError>
    requires predicate { literal.now.predicate < length symbols.now }
    requires args { All (Contains list.now.keys) literal.now.args.items }
    ensures { OnOk result ((symbol : Symbol) × (numbers : List ℕ)
        × (slice_get symbols.now literal.now.predicate ≡ Some symbol)
        × (map (slice_get list.now.keys) numbers ≡ map Some literal.now.args.items)
        × (text.new.items
        ≡ text.old.items ++ front_text depth literal.now.positive symbol numbers)) }
{
    push_number(text, depth)?;
    text.extend_from_slice(if literal.positive { b" + " } else { b" - " })?;
    write_symbol(text, symbols, literal.predicate)?;
    push_places(text, list, &literal.args)
}

// Appends the end of a node's line: how it is closed or extended.
fn push_ending(
    text: &mut Vec<u8>,
    terms: &TermTable,
    branch: &[&Literal],
    node: &Node,
) -> Result<(), AllocError>
    requires rows { HasRows (length terms.now) node.now.literal }
    requires branch { All (λ l. HasRows (length terms.now) l.now) branch.now }
    requires closed { IsClosedAt node.now.kind (literals_on terms.now branch.now)
        (literal_of terms.now node.now.literal) }
    ensures { OnOk result ((ending : Ending)
        × IsEndingOf node.now.kind (literals_on terms.now branch.now)
        (literal_of terms.now node.now.literal) ending
        × (text.new.items ≡ text.old.items ++ ending_text ending)) }
{
    match node.kind {
        NodeKind::Leaf => {
            text.extend_from_slice(b" close ")?;
            push_number(text, closer(terms, branch, &node.literal) as u64)?;
        }
        NodeKind::Inner { clause } => {
            text.extend_from_slice(b" extend ")?;
            push_number(text, u64::from(clause))?;
        }
    }
    text.push(b'\n')?;
    Ok(())
}

// Appends the lines of the nodes in pre-order.
pub(crate) fn push_nodes(
    alloc: Global,
    text: &mut Vec<u8>,
    symbols: &Symbols,
    tableau: &Tableau,
    list: &IndexSet<TermId>,
) -> Result<(), AllocError>
    requires rows { AreRows tableau.now.terms list.now.keys }
    requires writable { All (IsWritableNode symbols.now
        (map (tree_at tableau.now.terms) list.now.keys)) (placed_nodes tableau.now.tableau) }
    ensures { OnOk result ((nodes : List NodeLine)
        × AllZip (IsLineOf symbols.now (map (tree_at tableau.now.terms) list.now.keys))
        (placed_nodes tableau.now.tableau) nodes
        × (text.new.items ≡ text.old.items ++ text_of (map node_line nodes))) }
{
    let mut branch = Vec::new(alloc);
    for node in tableau.nodes() {
        // What is left of the branch are the literals above the node.
        branch.truncate((node.depth as usize).saturating_sub(1));
        push_front(text, symbols, list, branch.len() as u64 + 1, &node.literal)?;
        push_ending(text, tableau.terms(), &branch, node)?;
        branch.push(&node.literal)?;
    }
    Ok(())
}
