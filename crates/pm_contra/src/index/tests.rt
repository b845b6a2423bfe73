//! Worked values, and as many clauses as there may be.
ghost use Rattle.std.specs.Prelude.{◌≡◌, ◌<◌, ◌≤◌, All, IfOk, OnOk, length};
ghost use Rattle.pm_logic.specs.declared.symbols.Kind.TheVariants.{Function};
ghost use Rattle.pm_logic.specs.Problem.{HasShape, IsTermOver};
ghost use Rattle.pm_contra.specs.Inside.Example.{IsExampleClause, example_symbols};

use super::*;
use pm_logic::{Clause, Kind, Literal, Name, Symbols};
use std::process::Abort;
use std::test::Fail;

// The predicate p, the constant a and the function f.
fn example_symbols(alloc: Global) -> Result<Symbols, AllocError>
    ensures { IfOk result (λ symbols. symbols ≡ example_symbols) }
{
    let mut symbols = Symbols::new(alloc);
    symbols.number("p", 1, Kind::Predicate)?;
    symbols.number("a", 0, Kind::Function)?;
    symbols.number("f", 1, Kind::Function)?;
    Ok(symbols)
}

// Adds the application of a function.
fn add(terms: &mut TermTable, symbol: u32, args: &[TermId]) -> Result<TermId, AllocError>
    requires shape { HasShape example_symbols symbol Function (length args.now) }
    requires args { All (λ arg. arg < length terms.old) args.now }
    requires over { All (IsTermOver example_symbols 1) terms.old }
    ensures over { OnOk result (All (IsTermOver example_symbols 1) terms.new) }
    ensures row { IfOk result (λ row. row < length terms.new) }
    ensures more { OnOk result (length terms.old ≤ length terms.new) }
{
    terms.add_app(symbol, args)
}

// The terms X, a, f(X), f(a) and f(f(a)), in rows 0 to 4.
fn example_terms(alloc: Global) -> Result<TermTable, AllocError>
    ensures { IfOk result (All (IsTermOver example_symbols 1)) }
{
    let mut terms = TermTable::new(alloc);
    let x = terms.add_var()?;
    let a = add(&mut terms, 1, &[])?;
    add(&mut terms, 2, &[x])?;
    let fa = add(&mut terms, 2, &[a])?;
    add(&mut terms, 2, &[fa])?;
    Ok(terms)
}

// The clause of literals of p, each given by its sign and the row of its argument.
fn clause(
    rt: &impl Abort,
    alloc: Global,
    terms: &TermTable,
    literals: &[(bool, usize)],
) -> Result<Clause, AllocError>
    ensures { IfOk result (IsExampleClause (length terms.now)) }
{
    assert!(rt; literals.len() <= 255);
    let mut all = Vec::new(alloc);
    'literals: for &(positive, row) in literals {
        assert!(rt; row < terms.len());
        all.push(Literal {
            positive,
            predicate: 0,
            args: vec![in alloc; terms.id(row)]?,
        })?;
    }
    Ok(Clause {
        name: Name::Word(String::from_str(alloc, "c")?),
        role: String::from_str(alloc, "axiom")?,
        vars: 1,
        literals: all,
    })
}

// The clauses of these literals.
fn clauses(
    rt: &impl Abort,
    alloc: Global,
    terms: &TermTable,
    lists: &[&[(bool, usize)]],
) -> Result<Vec<Clause>, AllocError>
    ensures count { IfOk result (λ all. length all.items ≡ length lists.now) }
    ensures each { IfOk result (λ all. All (IsExampleClause (length terms.now)) all.items) }
{
    let mut all = Vec::new(alloc);
    'lists: for literals in lists {
        all.push(clause(rt, alloc, terms, literals)?)?;
    }
    Ok(all)
}

// The problem of these clauses.
fn problem(
    rt: &impl Abort,
    alloc: Global,
    lists: &[&[(bool, usize)]],
) -> Result<Problem, AllocError> {
    assert!(rt; lists.len() <= 65_536);
    let symbols = example_symbols(alloc)?;
    let terms = example_terms(alloc)?;
    let clauses = clauses(rt, alloc, &terms, lists)?;
    Ok(Problem::new(symbols, terms, clauses))
}

// The problem of p(a), ~p(X) | p(f(X)) and ~p(f(f(a))).
fn small(rt: &impl Abort, alloc: Global) -> Result<Problem, AllocError> {
    problem(
        rt,
        alloc,
        &[&[(true, 1)], &[(false, 0), (true, 2)], &[(false, 4)]],
    )
}

// A head by its numbers.
fn head(clause: u32, literal: u16) -> Head {
    Head { clause, literal }
}

#[test]
fn heads_by_face(rt: HostRuntime) -> Result<(), Fail> {
    let index = Contras::new(rt.alloc(), &small(&rt, rt.alloc())?)?;
    assert_eq!(rt; index.heads(0, true), [head(0, 0), head(1, 1)].as_slice());
    assert_eq!(rt; index.heads(0, false), [head(1, 0), head(2, 0)].as_slice());
    for predicate in [1, 7, u32::MAX] {
        assert_eq!(rt; index.heads(predicate, true).len(), 0);
        assert_eq!(rt; index.heads(predicate, false).len(), 0);
    }
    Ok(())
}

#[test]
fn columns_by_face(rt: HostRuntime) -> Result<(), Fail> {
    let index = Contras::new(rt.alloc(), &small(&rt, rt.alloc())?)?;
    assert_eq!(rt; index.column(0, true, 0), [2, 3].as_slice());
    assert_eq!(rt; index.column(0, false, 0), [0, 3].as_slice());
    for q in 1..4 {
        assert_eq!(rt; index.column(0, true, q), [0, 0].as_slice());
        assert_eq!(rt; index.column(0, false, q), [0, 0].as_slice());
    }
    assert_eq!(rt; index.column(7, true, 0).len(), 0);
    Ok(())
}

#[test]
fn as_many_clauses_as_may_be(rt: HostRuntime) -> Result<(), Fail> {
    let literals = [(true, 1), (false, 0), (true, 2)];
    let clauses = vec![in rt.alloc(); literals.as_slice(); 65_536]?;
    let index = Contras::new(rt.alloc(), &problem(&rt, rt.alloc(), &clauses)?)?;
    assert_eq!(rt; index.heads(0, true).len(), 131_072);
    assert_eq!(rt; index.heads(0, false).len(), 65_536);
    assert_eq!(rt; index.heads(0, true).last(), Some(&head(65_535, 2)));
    assert_eq!(rt; index.column(0, true, 0).last(), Some(&3));
    Ok(())
}
