//! The code of a small problem as it is listed.

use crate::{compile, listing};
use pm_logic::{Clause, Kind, Literal, Name, Problem, Symbols, TermTable};
use std::alloc::{AllocError, Global};
use std::test::Fail;

// Whether the code of the problem is listed as this text.
fn has_listing(alloc: Global, problem: &Problem, want: &str) -> Result<bool, AllocError> {
    let code = compile(alloc, problem)?;
    let text = listing(alloc, problem, &code)?;
    Ok(text.as_slice() == want.as_bytes())
}

// The problem of one clause: each thing equals itself.
fn reflexivity(alloc: Global) -> Result<Problem, AllocError> {
    let mut symbols = Symbols::new(alloc);
    let equality = symbols.number("=", 2, Kind::Equality)?;
    let mut terms = TermTable::new(alloc);
    let x = terms.add_var()?;
    let mut literals = Vec::new(alloc);
    literals.push(Literal {
        positive: true,
        predicate: equality,
        args: Vec::from_slice(alloc, &[x, x])?,
    })?;
    let mut clauses = Vec::new(alloc);
    clauses.push(Clause {
        name: Name::Word(String::from_str(alloc, "e")?),
        role: String::from_str(alloc, "axiom")?,
        vars: 1,
        literals,
    })?;
    Ok(Problem::new(symbols, terms, clauses))
}

const REFLEXIVITY: &str = "body 0
PUSH 0
PUSH 0
GOAL + = 2
RETURN
start 0
NEW
BODY 0
DONE
extend 0 0
FIRST 0
AGAIN 0
NEW
BODY 0
CLOSE 0
DONE
";

#[test]
fn equality(rt: HostRuntime) -> Result<(), Fail> {
    let problem = reflexivity(rt.alloc())?;
    assert!(rt; has_listing(rt.alloc(), &problem, REFLEXIVITY)?);
    Ok(())
}
