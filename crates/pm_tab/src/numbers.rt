//! Numbers for the literals without variables.
ghost use Rattle.std.specs.Prelude.{◌≡◌, ◌+◌, ◌-◌, ◌^◌, ◌<◌, false, All, IfOk, List, OnOk, Some, length, map, slice_get, slice_index_or, take};
ghost use Rattle.std.specs.List.{list_all};
ghost use Rattle.pm_logic.specs.Term.{Term, tree_at};
ghost use Rattle.pm_logic.specs.Problem as spec;
ghost use Rattle.pm_logic.specs.View.{HasRows, literal_of};
ghost use Rattle.pm_compile.specs.Scheme.{is_ground};
ghost use Rattle.pm_tab.specs.Inside.Numbering.{AreNumbers, AreNumbersOf, IsNumberOf};
ghost use Rattle.pm_tab.specs.Inside.Known.{Keeps, Knows, StandAfter, TellsGround};

use indexmap::IndexMap;
use pm_logic::{Clause, Literal, Problem, Row, TermId, TermTable};
use std::alloc::{AllocError, Global};

// A literal, by the rows of its arguments.
#[derive(PartialEq, Eq, Hash, Drop)]
struct GroundLiteral {
    positive: bool,
    predicate: u32,
    args: Vec<TermId>,
}

/// For each clause the numbers of its literals: one without variables has the number of the place,
/// among the literals of all clauses and counted from 1, where it stands first; another has 0.
pub(crate) fn number(alloc: Global, problem: &Problem) -> Result<Vec<Vec<u32>>, AllocError>
    ensures { IfOk result
        (λ numbers. AreNumbers problem.now.clauses (map (λ own. own.items) numbers.items)) }
{
    let ground = ground_rows(alloc, problem.terms())?;
    let mut seen = IndexMap::new(alloc);
    let mut count = 0;
    let mut numbers = Vec::new(alloc);
    'clauses: for i in 0..problem.clauses() {
        let own = number_clause(alloc, problem.clause(i), &ground, &mut seen, &mut count)?;
        numbers.push(own)?;
    }
    Ok(numbers)
}

// The numbers of a clause's literals, before which so many stand.
fn number_clause(
    alloc: Global,
    clause: &Clause,
    ground: &[bool],
    seen: &mut IndexMap<GroundLiteral, u32>,
    count: &mut u32,
) -> Result<Vec<u32>, AllocError>
    requires rows { All (HasRows (length ground.now)) clause.now.literals.items }
    requires few { count.old + length clause.now.literals.items < 2 ^ 32 }
    ensures count { OnOk result (count.new ≡ count.old + length clause.now.literals.items) }
    ensures numbers { (terms : List Term) (all : List spec.Literal)
        → TellsGround terms ground.now → Knows terms all count.old seen.old.entries
        → StandAfter all count.old (map (literal_of terms) clause.now.literals.items)
        → IfOk result (λ numbers.
        AreNumbersOf all (map (literal_of terms) clause.now.literals.items) numbers.items
        × Knows terms all count.new seen.new.entries) }
{
    let mut numbers = Vec::new(alloc);
    'literals: for literal in &clause.literals {
        *count += 1;
        let own = number_literal(alloc, literal, ground, seen, *count)?;
        numbers.push(own)?;
    }
    Ok(numbers)
}

// The number of the literal in this place.
fn number_literal(
    alloc: Global,
    literal: &Literal,
    ground: &[bool],
    seen: &mut IndexMap<GroundLiteral, u32>,
    place: u32,
) -> Result<u32, AllocError>
    requires rows { HasRows (length ground.now) literal.now }
    requires place { 0 < place }
    ensures { (terms : List Term) (all : List spec.Literal)
        → TellsGround terms ground.now → Knows terms all (place - 1) seen.old.entries
        → slice_get all (place - 1) ≡ Some (literal_of terms literal.now)
        → IfOk result (λ number. IsNumberOf all (literal_of terms literal.now) number
        × Knows terms all place seen.new.entries) }
{
    if !are_ground(ground, &literal.args) {
        return Ok(0);
    }
    let key = GroundLiteral {
        positive: literal.positive,
        predicate: literal.predicate,
        args: Vec::from_slice(alloc, &literal.args)?,
    };
    number_key(seen, key, place)
}

// The number that is kept for the literal; where there is none, that of this place, which is kept.
fn number_key(
    seen: &mut IndexMap<GroundLiteral, u32>,
    key: GroundLiteral,
    place: u32,
) -> Result<u32, AllocError>
    ensures { IfOk result (Keeps seen.old.entries seen.new.entries key place) }
{
    if let Some(&number) = seen.get(&key) {
        return Ok(number);
    }
    seen.insert(key, place)?;
    Ok(place)
}

// Whether each row's term is without variables.
fn ground_rows(alloc: Global, terms: &TermTable) -> Result<Vec<bool>, AllocError>
    ensures { IfOk result (λ ground. TellsGround terms.now ground.items) }
{
    let mut ground = Vec::new(alloc);
    'rows: for row in 0..terms.len() {
        let is_ground = is_ground(terms, &ground, terms.id(row));
        ground.push(is_ground)?;
    }
    Ok(ground)
}

// Whether the term of the row is without variables, as is told of those before it.
fn is_ground(terms: &TermTable, ground: &[bool], id: TermId) -> bool
    requires within { id < length terms.now }
    requires ground { ground.now ≡ map is_ground (take id terms.now) }
    ensures { result ≡ is_ground (tree_at terms.now id) }
{
    match terms.look(id) {
        Row::Var(_) => false,
        Row::App { args, .. } => are_ground(ground, args),
    }
}

// Whether the terms of all of these rows are without variables.
fn are_ground(ground: &[bool], rows: &[TermId]) -> bool
    requires { All (λ row. row < length ground.now) rows.now }
    ensures { result ≡ list_all (λ row. slice_index_or ground.now row false) rows.now }
{
    'rows: for row in rows {
        if !ground[row.row()] {
            return false;
        }
    }
    true
}
