//! The sample problem.
ghost use Rattle.std.specs.Prelude.{◌≡◌, ◌≢◌, ◌+◌, ◌<◌, ◌≤◌, ◌∷◌, ◌++◌, [], ℕ, All, IfOk, OnOk, OnErr, codes, decimal, length, map, string_bytes};
ghost use Rattle.pm_logic.specs.Problem.{word};
ghost use Rattle.pm_logic.specs.Term.{tree_at, var};
ghost use Rattle.pm_logic.specs.View.{HasRows, clause_of, label_of};
ghost use Rattle.pm_report.specs.Sample.{constant, constant_symbols, constant_terms, edge_clause, edge_clauses, goal_clause, path_number, same_clause, sample_clauses, sample_problem, sample_symbols, sample_terms, step_clause, turned};

use itoa::Buffer;
use pm_logic::{Clause, Kind, Literal, Name, Problem, Symbols, TermId, TermTable};
use std::alloc::{AllocError, Global};

// How many edges the chain has for each number of a sample.
const EDGES: u32 = 1000;

/// The sample problem of this number: a chain of 1000 `n` edges between constants, the rules of
/// reachability over it, and a goal that the first twenty edges prove.
pub fn sample(alloc: Global, n: u32) -> Result<Problem, AllocError>
    requires least { 1 ≤ n }
    requires most { n ≤ 50 }
    ensures { IfOk result (λ problem. problem ≡ sample_problem n) }
{
    let edges = EDGES * n;
    let symbols = sample_symbols(alloc, edges)?;
    let terms = sample_terms(alloc, edges)?;
    let clauses = sample_clauses(alloc, &terms, edges)?;
    Ok(Problem::new(symbols, terms, clauses))
}

// `c` and the number.
fn constant_name(alloc: Global, k: u32) -> Result<String, AllocError>
    ensures { IfOk result (λ name. string_bytes name ≡ codes "c" ++ decimal k) }
{
    let mut name = String::from_str(alloc, "c")?;
    let mut buffer = Buffer::new();
    name.push_str(buffer.format(k))?;
    Ok(name)
}

// The symbols of the problem over so many edges.
fn sample_symbols(alloc: Global, edges: u32) -> Result<Symbols, AllocError>
    requires { edges ≤ 50000 }
    ensures { IfOk result (λ symbols. symbols ≡ sample_symbols edges) }
{
    let mut symbols = Symbols::new(alloc);
    symbols.number("e", 2, Kind::Predicate)?;
    for k in 0..edges + 1 {
        let name = constant_name(alloc, k)?;
        symbols.number(name.as_str(), 0, Kind::Function)?;
    }
    symbols.number("r", 2, Kind::Predicate)?;
    Ok(symbols)
}

// The place of a constant among the terms, and the constant at a place: the first two are turned,
// since a reader adds the arguments of the first edge from right to left.
fn turned(k: u32) -> u32
    ensures { result ≡ turned k }
{
    match k {
        0 => 1,
        1 => 0,
        _ => k,
    }
}

// The terms of the problem over so many edges.
fn sample_terms(alloc: Global, edges: u32) -> Result<TermTable, AllocError>
    requires { edges ≤ 50000 }
    ensures { IfOk result (λ terms. terms ≡ sample_terms edges) }
{
    let mut terms = TermTable::new(alloc);
    for k in 0..edges + 1 {
        terms.add_app(turned(k) + 1, &[])?;
    }
    terms.add_var()?;
    terms.add_var()?;
    terms.add_var()?;
    Ok(terms)
}

// The row of a constant.
fn constant(terms: &TermTable, k: u32) -> TermId
    requires { k + 1 < length terms.now }
    ensures row { result < length terms.now }
    ensures tree { (edges : ℕ) → terms.now ≡ sample_terms edges → 0 < edges → k ≤ edges
        → tree_at terms.now result ≡ constant k }
{
    terms.id(turned(k) as usize)
}

// The row of a variable, which is one of the last three.
fn variable(terms: &TermTable, number: usize) -> TermId
    requires number { number < 3 }
    requires terms { 3 ≤ length terms.now }
    ensures row { result < length terms.now }
    ensures tree { (edges : ℕ) → terms.now ≡ sample_terms edges
        → tree_at terms.now result ≡ var number }
{
    terms.id(terms.len() - 3 + number)
}

fn literal(
    alloc: Global,
    positive: bool,
    predicate: u32,
    args: [TermId; 2],
) -> Result<Literal, AllocError>
    ensures positive { IfOk result (λ literal. literal.positive ≡ positive) }
    ensures predicate { IfOk result (λ literal. literal.predicate ≡ predicate) }
    ensures args { IfOk result (λ literal. literal.args.items ≡ args) }
{
    Ok(Literal {
        positive,
        predicate,
        args: Vec::from_slice(alloc, &args)?,
    })
}

// The clause of an edge, named by its number.
fn edge_clause(alloc: Global, terms: &TermTable, i: u32) -> Result<Clause, AllocError>
    requires few { i < 50000 }
    requires rows { i + 2 < length terms.now }
    ensures clause { (edges : ℕ) → terms.now ≡ sample_terms edges → i + 1 ≤ edges
        → IfOk result (λ clause. clause_of terms.now clause ≡ edge_clause i) }
    ensures rows { IfOk result (λ clause. All (HasRows (length terms.now)) clause.literals.items) }
{
    let mut buffer = Buffer::new();
    let name = Name::Integer(String::from_str(alloc, buffer.format(i))?);
    let role = String::from_str(alloc, "axiom")?;
    let args = [constant(terms, i), constant(terms, i + 1)];
    let mut literals = Vec::new(alloc);
    literals.push(literal(alloc, true, 0, args)?)?;
    Ok(Clause {
        name,
        role,
        vars: 0,
        literals,
    })
}

// The clauses of so many edges.
fn edge_clauses(alloc: Global, terms: &TermTable, edges: u32) -> Result<Vec<Clause>, AllocError>
    requires terms { terms.now ≡ sample_terms edges }
    requires few { edges ≤ 50000 }
    ensures clauses { IfOk result
        (λ clauses. map (clause_of terms.now) clauses.items ≡ edge_clauses edges) }
    ensures rows { IfOk result (λ clauses. All
        (λ clause. All (HasRows (length terms.now)) clause.literals.items) clauses.items) }
{
    let mut clauses = Vec::new(alloc);
    for i in 0..edges {
        clauses.push(edge_clause(alloc, terms, i)?)?;
    }
    Ok(clauses)
}

// A clause named by a word, with these literals.
fn named_clause(
    alloc: Global,
    name: &str,
    role: &str,
    vars: u32,
    literals: Vec<Literal>,
) -> Result<Clause, AllocError>
    ensures name { IfOk result (λ clause. label_of clause.name ≡ word name.now) }
    ensures role { IfOk result (λ clause. string_bytes clause.role ≡ role.now) }
    ensures vars { IfOk result (λ clause. clause.vars ≡ vars) }
    ensures literals { IfOk result (λ clause. clause.literals.items ≡ literals.items) }
{
    let name = Name::Word(String::from_str(alloc, name)?);
    let role = String::from_str(alloc, role)?;
    Ok(Clause {
        name,
        role,
        vars,
        literals,
    })
}

// The clause that each constant reaches itself.
fn same_clause(alloc: Global, terms: &TermTable, path: u32) -> Result<Clause, AllocError>
    requires { 3 ≤ length terms.now }
    ensures clause { (edges : ℕ) → terms.now ≡ sample_terms edges → path ≡ path_number edges
        → IfOk result (λ clause. clause_of terms.now clause ≡ same_clause edges) }
    ensures rows { IfOk result (λ clause. All (HasRows (length terms.now)) clause.literals.items) }
{
    let x = variable(terms, 0);
    let mut literals = Vec::new(alloc);
    literals.push(literal(alloc, true, path, [x, x])?)?;
    named_clause(alloc, "same", "axiom", 1, literals)
}

// The clause that what the end of an edge reaches, its start reaches too.
fn step_clause(alloc: Global, terms: &TermTable, path: u32) -> Result<Clause, AllocError>
    requires { 3 ≤ length terms.now }
    ensures clause { (edges : ℕ) → terms.now ≡ sample_terms edges → path ≡ path_number edges
        → IfOk result (λ clause. clause_of terms.now clause ≡ step_clause edges) }
    ensures rows { IfOk result (λ clause. All (HasRows (length terms.now)) clause.literals.items) }
{
    let x = variable(terms, 0);
    let z = variable(terms, 1);
    let y = variable(terms, 2);
    let mut literals = Vec::new(alloc);
    literals.push(literal(alloc, true, path, [x, z])?)?;
    literals.push(literal(alloc, false, 0, [x, y])?)?;
    literals.push(literal(alloc, false, path, [y, z])?)?;
    named_clause(alloc, "step", "axiom", 3, literals)
}

// The clause that the first constant doesn't reach the one twenty edges on.
fn goal_clause(alloc: Global, terms: &TermTable, path: u32) -> Result<Clause, AllocError>
    requires { 21 < length terms.now }
    ensures clause { (edges : ℕ) → terms.now ≡ sample_terms edges → path ≡ path_number edges
        → 20 ≤ edges → IfOk result (λ clause. clause_of terms.now clause ≡ goal_clause edges) }
    ensures rows { IfOk result (λ clause. All (HasRows (length terms.now)) clause.literals.items) }
{
    let args = [constant(terms, 0), constant(terms, 20)];
    let mut literals = Vec::new(alloc);
    literals.push(literal(alloc, false, path, args)?)?;
    named_clause(alloc, "goal", "negated_conjecture", 0, literals)
}

// The clauses of the problem over so many edges.
fn sample_clauses(alloc: Global, terms: &TermTable, edges: u32) -> Result<Vec<Clause>, AllocError>
    requires terms { terms.now ≡ sample_terms edges }
    requires least { 20 ≤ edges }
    requires few { edges ≤ 50000 }
    ensures clauses { IfOk result
        (λ clauses. map (clause_of terms.now) clauses.items ≡ sample_clauses edges) }
    ensures rows { IfOk result (λ clauses. All
        (λ clause. All (HasRows (length terms.now)) clause.literals.items) clauses.items) }
{
    let path = edges + 2;
    let mut clauses = edge_clauses(alloc, terms, edges)?;
    clauses.push(same_clause(alloc, terms, path)?)?;
    clauses.push(step_clause(alloc, terms, path)?)?;
    clauses.push(goal_clause(alloc, terms, path)?)?;
    Ok(clauses)
}
