//! A problem that is being compiled, with its ground terms.
ghost use Rattle.std.specs.Prelude.{◌≡◌, ◌<◌, IfOk, length};
ghost use Rattle.std.specs.List.{list_all};
ghost use Rattle.pm_logic.specs.Term.{tree_at};
ghost use Rattle.pm_compile.specs.Scheme.{is_among, is_ground};
ghost use Rattle.pm_compile.specs.Inside.Ground.{AreGround, AreGroundBelow};

use pm_logic::{Problem, Row, TermId, TermTable};
use std::alloc::{AllocError, Global};
use std::collections::HashSet;

// A problem, and which of its terms are ground.
#[derive(Drop)]
pub(crate) struct Source<'p> {
    pub(crate) alloc: Global,
    pub(crate) problem: &'p Problem,
    // The rows of the terms in which no variable stands.
    ground: HashSet<TermId>,
    ghost grounded: { AreGround problem.now.terms ground.keys },
}

impl<'p> Source<'p> {
    pub(crate) fn new(alloc: Global, problem: &'p Problem) -> Result<Source<'p>, AllocError>
        ensures { IfOk result (λ source. source.problem.now ≡ problem.now) }
    {
        Ok(Source {
            alloc,
            problem,
            ground: ground_rows(alloc, problem.terms())?,
        })
    }

    // Whether the term of a row is ground.
    pub(crate) fn is_ground(&self, row: TermId) -> bool
        requires { row < length self.now.problem.now.terms }
        ensures { result ≡ is_ground (tree_at self.now.problem.now.terms row) }
    {
        has_row(&self.ground, row)
    }
}

// The rows of the ground terms.
fn ground_rows(alloc: Global, terms: &TermTable) -> Result<HashSet<TermId>, AllocError>
    ensures { IfOk result (λ ground. AreGround terms.now ground.keys) }
{
    let mut ground = HashSet::new(alloc);
    'rows: for row in 0..terms.len() {
        let id = terms.id(row);
        if is_ground_over(terms, &ground, id) {
            ground.insert(id)?;
        }
    }
    Ok(ground)
}

// Whether the term of a row is ground, where the set has the ground terms of the rows before.
fn is_ground_over(terms: &TermTable, ground: &HashSet<TermId>, id: TermId) -> bool
    requires within { id < length terms.now }
    requires ground { AreGroundBelow terms.now ground.now.keys id }
    ensures { result ≡ is_ground (tree_at terms.now id) }
{
    match terms.look(id) {
        Row::Var(_) => false,
        Row::App { args, .. } => has_rows(ground, args),
    }
}

// Whether the set has each of the rows.
fn has_rows(set: &HashSet<TermId>, rows: &[TermId]) -> bool
    ensures { result ≡ list_all (λ row. is_among row set.now.keys) rows.now }
{
    rows.iter().all(|row| has_row(set, *row))
}

// Whether the set has the row.
fn has_row(set: &HashSet<TermId>, row: TermId) -> bool
    ensures { result ≡ is_among row set.now.keys }
{
    set.contains(&row)
}
