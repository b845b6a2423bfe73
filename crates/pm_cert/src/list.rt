//! The terms of a tableau, each after its arguments.
ghost use Rattle.std.specs.Prelude.{◌≡◌, ◌<◌, ◌+◌, ◌*◌, ◌++◌, ◌∷◌, [], List, All, IfOk, OnOk, length, map};
ghost use Rattle.pm_logic.specs.Term.{Term, as_terms, tree_at};
ghost use Rattle.pm_cert.specs.Terms.{subterms, subterms_among};
ghost use Rattle.pm_cert.specs.Inside.Listing.{AreFinished, HasArgsIn, IsTermList, IsWithin, StepsOn, left_of_all, weight};

use indexmap::IndexSet;
use pm_logic::{Row, Tableau, TermId, TermTable};
use std::alloc::{AllocError, Global};

// The rows of the terms in the tableau's literals, in the order of their lines.
pub(crate) fn list_terms(alloc: Global, tableau: &Tableau) -> Result<IndexSet<TermId>, AllocError>
    ensures { IfOk result (λ list.
        IsTermList tableau.now.terms tableau.now.tableau list.keys) }
{
    let mut list = IndexSet::new(alloc);
    let terms = tableau.terms();
    // No term stands twice in the table, as its length tells.
    let _count = terms.len();
    for node in tableau.nodes() {
        finish_all(alloc, terms, &node.literal.args, &mut list)?;
    }
    Ok(list)
}

// Adds the terms of rows to the list, each after its arguments.
fn finish_all(
    alloc: Global,
    terms: &TermTable,
    rows: &[TermId],
    list: &mut IndexSet<TermId>,
) -> Result<(), AllocError>
    requires { All (λ row. row < length terms.now) rows.now }
    ensures { (finished : List Term) → AreFinished terms.now finished list.old.keys
        → OnOk result (AreFinished terms.now
        (finished ++ subterms_among (as_terms (map (tree_at terms.now) rows.now))) list.new.keys) }
{
    for row in rows {
        finish(alloc, terms, *row, list)?;
    }
    Ok(())
}

// A term whose arguments aren't all listed yet, by its row, with those that are left.
#[derive(Clone, Copy)]
struct OpenTerm<'a> {
    row: usize,
    args: &'a [TermId],
}

// Adds the term of a row to the list, after its arguments. A term that is listed is passed over
// with all its parts, so that each row is gone into once.
fn finish(
    alloc: Global,
    terms: &TermTable,
    row: TermId,
    list: &mut IndexSet<TermId>,
) -> Result<(), AllocError>
    requires { row < length terms.now }
    ensures { (finished : List Term) → AreFinished terms.now finished list.old.keys
        → OnOk result (AreFinished terms.now (finished ++ subterms (tree_at terms.now row))
        list.new.keys) }
{
    let mut opened = Vec::new(alloc);
    enter(terms, row, list, &mut opened)?;
    'terms: while let Some(term) = opened.pop() {
        let Some((first, others)) = term.args.split_first() else {
            add(terms.id(term.row), list)?;
            continue;
        };
        opened.push(OpenTerm {
            row: term.row,
            args: others,
        })?;
        enter(terms, *first, list, &mut opened)?;
    }
    Ok(())
}

// Begins with the term of a row: a variable is listed, and an application is opened. A term that is
// listed is passed over.
fn enter<'a>(
    terms: &'a TermTable,
    row: TermId,
    list: &mut IndexSet<TermId>,
    opened: &mut Vec<OpenTerm<'a>>,
) -> Result<(), AllocError>
    requires { row < length terms.now }
    ensures steps { (finished : List Term) → AreFinished terms.now finished list.old.keys
        → OnOk result (StepsOn terms.now finished list.new.keys
        (subterms (tree_at terms.now row) ++ left_of_all terms.now opened.old.items)
        (left_of_all terms.now opened.new.items)) }
    ensures within { All (IsWithin (length terms.now)) opened.old.items
        → OnOk result (All (IsWithin (length terms.now)) opened.new.items) }
    ensures size { OnOk result (weight terms.now opened.new.items
        < weight terms.now opened.old.items + 2 * length (subterms (tree_at terms.now row))) }
{
    if list.contains(&row) {
        return Ok(());
    }
    match terms.look(row) {
        Row::Var(_) => add(row, list)?,
        Row::App { args, .. } => opened.push(OpenTerm {
            row: row.row(),
            args,
        })?,
    }
    Ok(())
}

// Adds a row to the list, if it isn't there.
fn add(row: TermId, list: &mut IndexSet<TermId>) -> Result<(), AllocError>
    ensures { (terms finished : List Term) → row < length terms
        → AreFinished terms finished list.old.keys → HasArgsIn finished (tree_at terms row)
        → OnOk result (AreFinished terms (finished ++ tree_at terms row ∷ []) list.new.keys) }
{
    list.insert(row)?;
    Ok(())
}
