//! How many different terms occur in a tableau.
ghost use Rattle.std.specs.Prelude.{◌≡◌, ◌⊎◌, ◌||◌, ◌<◌, ◌+◌, ℕ, List, All, Contains, IfOk, false, length, slice_index_or, true};
ghost use Rattle.std.specs.List.{count_by};
ghost use Rattle.pm_logic.specs.Lists.{AreDistinct};
ghost use Rattle.pm_logic.specs.Tableau.{Entry, preorder};
ghost use Rattle.pm_logic.specs.Term.{Term, tree_at};
ghost use Rattle.pm_report.specs.Summary.{AreTermsIn, IsPart, Occurs};
ghost use Rattle.pm_report.specs.Inside.Marks.{AreArgsMarked, has_mark, is_row_among, IsArgOf};

use pm_logic::{Row, Tableau, TermId, TermTable};
use std::alloc::{AllocError, Global};

/// How many different terms occur in the literals of a tableau.
pub fn count_terms(alloc: Global, tableau: &Tableau) -> Result<usize, AllocError>
    ensures { IfOk result (λ count. (terms : List Term)
        × AreTermsIn tableau.now.tableau terms × (count ≡ length terms)) }
{
    let mut marks = mark_arguments(alloc, tableau)?;
    mark_parts(tableau.terms(), &mut marks);
    Ok(count_marks(&marks))
}

// How many rows are marked.
fn count_marks(marks: &[bool]) -> usize
    ensures { result ≡ count_by (λ mark. mark) marks.now }
{
    marks.iter().filter(|mark| **mark).count()
}

// Marks for the rows of the literals' arguments.
fn mark_arguments(alloc: Global, tableau: &Tableau) -> Result<Vec<bool>, AllocError>
    ensures count { IfOk result (λ marks. length marks.items ≡ length tableau.now.terms) }
    ensures occur { IfOk result (λ marks. (row : ℕ) → has_mark marks.items row ≡ true
        → Occurs (tree_at tableau.now.terms row) tableau.now.tableau) }
    ensures each { IfOk result (λ marks. (e : Entry) → Contains (preorder tableau.now.tableau) e
        → (t : Term) → Contains e.literal.args t
        → (row : ℕ) × (tree_at tableau.now.terms row ≡ t) × (has_mark marks.items row ≡ true)) }
{
    let mut marks = Vec::new(alloc);
    marks.resize(tableau.terms().len(), false)?;
    for node in tableau.nodes() {
        mark_all(&mut marks, &node.literal.args);
    }
    Ok(marks)
}

// Adds marks for rows.
fn mark_all(marks: &mut Vec<bool>, rows: &[TermId])
    requires { All (λ row. row < length marks.old.items) rows.now }
    ensures count { length marks.new.items ≡ length marks.old.items }
    ensures marked { (row : ℕ) → has_mark marks.new.items row
        ≡ (is_row_among row rows.now || has_mark marks.old.items row) }
{
    for row in rows {
        marks[row.row()] = true;
    }
}

// Adds marks for the parts of the terms that are marked. Rows are gone through from the last one
// on, since a term's arguments come before it.
fn mark_parts(terms: &TermTable, marks: &mut Vec<bool>)
    requires { length marks.old.items ≡ length terms.now }
    ensures distinct { AreDistinct terms.now }
    ensures count { length marks.new.items ≡ length marks.old.items }
    ensures grows { (row : ℕ) → has_mark marks.old.items row ≡ true
        → has_mark marks.new.items row ≡ true }
    ensures parts { (row : ℕ) → has_mark marks.new.items row ≡ true
        → (whole : ℕ) × (has_mark marks.old.items whole ≡ true)
        × IsPart (tree_at terms.now row) (tree_at terms.now whole) }
    ensures closed { (row : ℕ) → has_mark marks.new.items row ≡ true
        → AreArgsMarked terms.now marks.new.items row }
{
    let count = terms.len();
    for step in 0..count {
        let row = count - 1 - step;
        if marks[row] {
            mark_arguments_of(terms, marks, row);
        }
    }
}

// Adds marks for the arguments of the term of a row.
fn mark_arguments_of(terms: &TermTable, marks: &mut Vec<bool>, row: usize)
    requires count { length marks.old.items ≡ length terms.now }
    requires within { row < length terms.now }
    ensures count { length marks.new.items ≡ length marks.old.items }
    ensures grows { (other : ℕ) → has_mark marks.old.items other ≡ true
        → has_mark marks.new.items other ≡ true }
    ensures new { (other : ℕ) → has_mark marks.new.items other ≡ true
        → (has_mark marks.old.items other ≡ true) ⊎ IsArgOf terms.now other row }
    ensures marked { AreArgsMarked terms.now marks.new.items row }
{
    match terms.look(terms.id(row)) {
        Row::Var(_) => {}
        Row::App { args, .. } => mark_all(marks, args),
    }
}
