//! An index of a problem's literals by predicate and sign.
ghost use Rattle.std.specs.Prelude.{◌≡◌, ◌<◌, ◌^◌, IfOk, Some, length, map, slice_index};
ghost use Rattle.pm_logic.specs.Term.{tree_at};
ghost use Rattle.pm_contra.specs.Index.{IsIndexOf, heads_in, column_in, top, top_at};
ghost use Rattle.pm_contra.specs.Inside.Ranges.{start_at};

use crate::heads::{Head, entries, face_number, sort_by_face};
use pm_logic::{Problem, Row, TermId, TermTable};
use std::alloc::{AllocError, Global};
use std::marker::Model;

/// The literals of a problem's clauses by predicate and sign, with what their first four arguments
/// begin with. It is used with the problem that it was made of.
#[derive(Drop)]
pub struct Contras {
    // One face's heads after another's.
    heads: Vec<Head>,
    // For each of the first four arguments what it begins with at each head.
    columns: [Vec<u32>; 4],
    // Where the heads of each face end. They begin where those of the face before it end.
    ends: Vec<u32>,
}

impl Model for Contras {
    ghost use Rattle.std.specs.Prelude.{map};
    ghost use Rattle.pm_contra.specs.Index.{Index};

    ghost Value = { Index };

    ghost use Rattle.pm_contra.specs.Inside.Ranges.{ranges, AreLaid};

    ghost view = { λ a. record {
      heads = ranges 0 a.ends.items a.heads.items;
      columns = map (λ column. ranges 0 a.ends.items column.items) a.columns;
    } };

    ghost invariant = { λ a.
        AreLaid a.ends.items a.heads.items (map (λ column. column.items) a.columns) };
}

impl Contras {
    /// The index of a problem's clauses.
    pub fn new(alloc: Global, problem: &Problem) -> Result<Contras, AllocError>
        ensures { IfOk result (IsIndexOf problem.now.clauses) }
    {
        let faces = 2 * problem.symbols().len() as usize;
        let sorted = sort_by_face(alloc, &entries(alloc, problem)?, faces)?;
        let columns = [
            column(alloc, problem, &sorted.heads, 0)?,
            column(alloc, problem, &sorted.heads, 1)?,
            column(alloc, problem, &sorted.heads, 2)?,
            column(alloc, problem, &sorted.heads, 3)?,
        ];
        Ok(Contras {
            heads: sorted.heads,
            columns,
            ends: sorted.ends,
        })
    }

    /// The literals with this predicate and sign, by clause and then by literal. There are none of
    /// a number that is no symbol's.
    pub fn heads(&self, predicate: u32, positive: bool) -> &[Head]
        ensures { result.now ≡ heads_in self.now
            (record { positive = positive; predicate = predicate }) }
    {
        let (start, end) = range(&self.ends, face_number(predicate, positive));
        &self.heads[start..end]
    }

    /// For each of these literals what its argument `q` begins with, for a `q` below 4: the number
    /// of its symbol plus one, or 0 where it is a variable or isn't there.
    pub fn column(&self, predicate: u32, positive: bool, q: u8) -> &[u32]
        requires { q < 4 }
        ensures { result.now ≡ column_in self.now q
            (record { positive = positive; predicate = predicate }) }
    {
        let (start, end) = range(&self.ends, face_number(predicate, positive));
        let column = &self.columns[q as usize];
        &column[start..end]
    }
}

// Where the range of this number begins and ends. Beyond the last there is an empty one.
fn range(ends: &Vec<u32>, number: usize) -> (usize, usize)
    ensures start { result.0 ≡ start_at ends.now.items number }
    ensures end { result.1 ≡ slice_index ends.now.items number }
{
    match ends.get(number) {
        Some(&end) => {
            let start = if number == 0 { 0 } else { ends[number - 1] };
            (start as usize, end as usize)
        }
        None => (0, 0),
    }
}

// What argument `q` of each head's literal begins with.
fn column(
    alloc: Global,
    problem: &Problem,
    heads: &[Head],
    q: usize,
) -> Result<Vec<u32>, AllocError>
    requires { length problem.now.symbols < 2 ^ 32 }
    ensures { IfOk result (λ tops. tops.items ≡ map (top_at problem.now.clauses q) heads.now) }
{
    heads
        .iter()
        .map(|head| top_at(problem, *head, q))
        .collect(alloc)
}

// What argument `q` of the head's literal begins with.
fn top_at(problem: &Problem, head: Head, q: usize) -> u32
    requires { length problem.now.symbols < 2 ^ 32 }
    ensures { result ≡ top_at problem.now.clauses q head }
{
    if head.clause >= problem.clauses() {
        return 0;
    }
    let Some(literal) = problem
        .clause(head.clause)
        .literals
        .get(head.literal as usize)
    else {
        return 0;
    };
    match literal.args.get(q) {
        Some(&term) => top(problem.terms(), term),
        None => 0,
    }
}

// What a term begins with.
fn top(terms: &TermTable, term: TermId) -> u32
    requires within { term < length terms.now }
    requires small { top (Some (tree_at terms.now term)) < 2 ^ 32 }
    ensures { result ≡ top (Some (tree_at terms.now term)) }
{
    match terms.look(term) {
        Row::Var(_) => 0,
        Row::App { symbol, .. } => symbol + 1,
    }
}

#[cfg(test)]
mod tests;
