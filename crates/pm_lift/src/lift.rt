//! The least list of choices of a tableau.
ghost use Rattle.std.specs.Prelude.{◌≡◌, ◌≤◌, ◌==◌, Contains, IfOk, List, length};
ghost use Rattle.std.specs.List.{position_or_len};
ghost use Rattle.pm_logic.specs.Problem.{Clause, start_clauses};
ghost use Rattle.pm_logic.specs.Tableau.{depth};
ghost use Rattle.pm_calculus.specs.Alternatives.{heads};
ghost use Rattle.pm_calculus.specs.Choices.{Follows};
ghost use Rattle.pm_contra.specs.Index.{IsIndexOf, heads_in};
ghost use Rattle.pm_lift.specs.Lift.{IsProof, IsLeastAtEach, IsCompleteAtEach};
ghost use Rattle.pm_lift.specs.Inside.Tree.{place_of_head, start_choice};

use crate::branch::{Ancestor, add_leaf, closing_place};
use pm_contra::Contras;
use pm_logic::{NodeKind, Problem, Start, Tableau};
use std::alloc::{AllocError, Global};

/// The least list of choices that a tableau follows: at each place the least alternative that
/// agrees with its tree. The tableau is closed, connected, over the problem's clauses, at most 250
/// deep, and has a start clause at its root; `contras` is the index of the problem's clauses. The
/// list is the same at each level with room for the tableau, whatever the class and the kind of
/// bound. It is refused only for want of memory.
pub fn list_of(
    alloc: Global,
    problem: &Problem,
    contras: &Contras,
    start: Start,
    tableau: &Tableau,
) -> Result<Vec<u32>, AllocError>
    requires index { IsIndexOf problem.now.clauses contras.now }
    requires proof { IsProof problem.now start tableau.now.tableau }
    requires shallow { depth tableau.now.tableau ≤ 250 }
    ensures least { IfOk result
        (λ list. IsLeastAtEach problem.now start tableau.now.tableau list.items) }
    ensures complete { IfOk result
        (λ list. IsCompleteAtEach problem.now start tableau.now.tableau list.items) }
    ensures follows { IfOk result
        (λ list. Follows problem.now start list.items tableau.now.tableau) }
{
    // The clauses and their literals are few, as the count of clauses tells.
    let _count = problem.clauses();
    let terms = tableau.terms();
    let nodes = tableau.nodes();
    let mut list = Vec::new(alloc);
    list.push(start_choice(alloc, problem, start, tableau.root())?)?;
    let mut branch = Vec::new(alloc);
    'nodes: for (place, node) in nodes.iter().enumerate() {
        branch.truncate(node.depth as usize - 1);
        match node.kind {
            NodeKind::Leaf => add_leaf(&mut list, terms, &mut branch, &node.literal)?,
            NodeKind::Inner { clause } => {
                let literal = &node.literal;
                let closing = closing_place(terms, literal, node.depth + 1, &nodes[place + 1..]);
                let head = place_of_head(
                    contras,
                    literal.predicate,
                    !literal.positive,
                    clause,
                    closing,
                );
                list.push((branch.len() + head) as u32)?;
                branch.push(Ancestor {
                    literal,
                    waits: true,
                })?;
            }
        }
    }
    Ok(list)
}

// The root's place among the start clauses.
fn start_choice(
    alloc: Global,
    problem: &Problem,
    start: Start,
    root: u32,
) -> Result<u32, AllocError>
    requires { Contains (start_clauses start problem.now.clauses) root }
    ensures { IfOk result (λ place. place ≡ start_choice problem.now.clauses start root) }
{
    // The clauses are few, as their count tells.
    let _count = problem.clauses();
    let starts = problem.starts(alloc, start)?;
    Ok(place_among(starts.as_slice(), root) as u32)
}

// The first place of the clause of this index.
fn place_among(clauses: &[u32], index: u32) -> usize
    ensures place { result ≡ position_or_len (λ clause. clause == index) clauses.now }
    ensures within { result ≤ length clauses.now }
{
    clauses
        .iter()
        .take_while(|clause| **clause != index)
        .count()
}

// How many of the literals with this predicate and sign come before a literal of a clause.
fn place_of_head(
    contras: &Contras,
    predicate: u32,
    positive: bool,
    clause: u32,
    literal: usize,
) -> usize
    ensures place { (clauses : List Clause) → IsIndexOf clauses contras.now
        → result ≡ place_of_head
        (record { clause = clause; literal = literal })
        (heads (record { positive = positive; predicate = predicate }) clauses) }
    ensures within { result ≤ length
        (heads_in contras.now (record { positive = positive; predicate = predicate })) }
{
    contras.heads(predicate, positive).partition_point(|head| {
        head.clause < clause || (head.clause == clause && (head.literal as usize) < literal)
    })
}

#[cfg(test)]
mod tests;
