//! Certificates that are accepted, and one for each kind of refusal.
ghost use Rattle.std.specs.Prelude.{◌≡◌, ◌+◌, ◌<◌, ◌≤◌, All, IfOk, OnOk, length};
ghost use Rattle.pm_check.specs.Inside.Example.{IsExampleClause, IsExampleLiteral, example_symbols, example_terms};

use super::*;
use pm_certread::read_cert;
use pm_logic::{Clause, Kind, Name, Symbols, TermId, TermTable};
use std::test::Fail;

// The predicate p and the constant a.
fn symbols(alloc: Global) -> Result<Symbols, AllocError>
    ensures { IfOk result (λ symbols. symbols ≡ example_symbols) }
{
    let mut symbols = Symbols::new(alloc);
    symbols.number("p", 1, Kind::Predicate)?;
    symbols.number("a", 0, Kind::Function)?;
    Ok(symbols)
}

// The terms X and a, in rows 0 and 1.
fn terms(alloc: Global) -> Result<TermTable, AllocError>
    ensures { IfOk result (λ terms. terms ≡ example_terms) }
{
    let mut terms = TermTable::new(alloc);
    terms.add_var()?;
    terms.add_app(1, &[])?;
    Ok(terms)
}

// The literal of p with the term of this row.
fn literal(alloc: Global, positive: bool, row: TermId) -> Result<Literal, AllocError>
    requires { row < 2 }
    ensures { IfOk result IsExampleLiteral }
{
    let mut args = Vec::new(alloc);
    args.push(row)?;
    Ok(Literal {
        positive,
        predicate: 0,
        args,
    })
}

// Adds the clause of these literals.
fn add_clause(
    alloc: Global,
    clauses: &mut Vec<Clause>,
    literals: Vec<Literal>,
) -> Result<(), AllocError>
    requires few { length literals.items ≤ 255 }
    requires literals { All IsExampleLiteral literals.items }
    requires clauses { All IsExampleClause clauses.old.items }
    ensures clauses { OnOk result (All IsExampleClause clauses.new.items) }
    ensures count { OnOk result (length clauses.new.items ≡ length clauses.old.items + 1) }
{
    clauses.push(Clause {
        name: Name::Word(String::from_str(alloc, "c")?),
        role: String::from_str(alloc, "axiom")?,
        vars: 1,
        literals,
    })?;
    Ok(())
}

// Adds the clause of one literal.
fn add_unit(
    alloc: Global,
    clauses: &mut Vec<Clause>,
    positive: bool,
    row: TermId,
) -> Result<(), AllocError>
    requires row { row < 2 }
    requires clauses { All IsExampleClause clauses.old.items }
    ensures clauses { OnOk result (All IsExampleClause clauses.new.items) }
    ensures count { OnOk result (length clauses.new.items ≡ length clauses.old.items + 1) }
{
    let mut literals = Vec::new(alloc);
    literals.push(literal(alloc, positive, row)?)?;
    add_clause(alloc, clauses, literals)
}

// Adds the clause p(X) | ~p(X).
fn add_tautology(alloc: Global, clauses: &mut Vec<Clause>, row: TermId) -> Result<(), AllocError>
    requires row { row < 2 }
    requires clauses { All IsExampleClause clauses.old.items }
    ensures clauses { OnOk result (All IsExampleClause clauses.new.items) }
    ensures count { OnOk result (length clauses.new.items ≡ length clauses.old.items + 1) }
{
    let mut literals = Vec::new(alloc);
    literals.push(literal(alloc, true, row)?)?;
    literals.push(literal(alloc, false, row)?)?;
    add_clause(alloc, clauses, literals)
}

// The clauses p(X) | ~p(X), p(a) and ~p(a).
fn problem(alloc: Global) -> Result<Problem, AllocError> {
    let terms = terms(alloc)?;
    let mut clauses = Vec::new(alloc);
    add_tautology(alloc, &mut clauses, terms.id(0))?;
    add_unit(alloc, &mut clauses, true, terms.id(1))?;
    add_unit(alloc, &mut clauses, false, terms.id(1))?;
    Ok(Problem::new(symbols(alloc)?, terms, clauses))
}

// What the checker says of the certificate of this text.
fn verdict(alloc: Global, text: &str) -> Result<Result<u64, Refusal>, Fail>
    requires { length text.now ≤ 1000 }
{
    let problem = problem(alloc)?;
    let cert = read_cert(alloc, text.as_bytes(), &problem)?;
    let mut checker = Checker::with_room(alloc, &problem, &cert)?;
    Ok(checker.check())
}

#[test]
fn accepted(rt: HostRuntime) -> Result<(), Fail> {
    let text = "% SZS status Unsatisfiable
level 0 proof attempts 1
parmel 1 class plain start negative depth 3 terms 1 nodes 4
a
root 2
1 - p 0 extend 0
2 + p 0 close 1
2 - p 0 extend 1
3 + p 0 close 2
end
";
    assert!(rt; verdict(rt.alloc(), text)? == Ok(3));
    let text = "% SZS status Unsatisfiable
level 0 proof attempts 1
parmel 2 class regular start all bound inferences size 2 terms 1 nodes 2
a
root 2
1 - p 0 extend 1
2 + p 0 close 1
end
";
    assert!(rt; verdict(rt.alloc(), text)? == Ok(2));
    Ok(())
}

// No clause has the role of a goal.
const NOT_START: &str = "% SZS status Unsatisfiable
level 0 proof attempts 1
parmel 1 class plain start goal depth 2 terms 1 nodes 2
a
root 2
1 - p 0 extend 1
2 + p 0 close 1
end
";

// X is a in one child and a variable in the other.
const TWO_TERMS: &str = "% SZS status Unsatisfiable
level 0 proof attempts 1
parmel 1 class plain start negative depth 3 terms 2 nodes 4
a
?
root 2
1 - p 0 extend 0
2 + p 0 close 1
2 - p 1 extend 1
3 + p 0 close 2
end
";

// The second literal of the clause 0 has no child.
const ONE_CHILD: &str = "% SZS status Unsatisfiable
level 0 proof attempts 1
parmel 1 class plain start negative depth 2 terms 1 nodes 2
a
root 2
1 - p 0 extend 0
2 + p 0 close 1
end
";

const SAME_SIGN: &str = "% SZS status Unsatisfiable
level 0 proof attempts 1
parmel 1 class plain start negative depth 2 terms 1 nodes 3
a
root 2
1 - p 0 extend 0
2 + p 0 close 1
2 - p 0 close 1
end
";

const UNCONNECTED: &str = "% SZS status Unsatisfiable
level 0 proof attempts 1
parmel 1 class plain start negative depth 3 terms 1 nodes 3
a
root 2
1 - p 0 extend 2
2 - p 0 extend 1
3 + p 0 close 2
end
";

const REPEATED: &str = "% SZS status Unsatisfiable
level 0 proof attempts 1
parmel 1 class regular start negative depth 3 terms 1 nodes 4
a
root 2
1 - p 0 extend 0
2 + p 0 close 1
2 - p 0 extend 1
3 + p 0 close 2
end
";

const TOO_DEEP: &str = "% SZS status Unsatisfiable
level 0 proof attempts 1
parmel 1 class plain start negative depth 4 terms 1 nodes 4
a
root 2
1 - p 0 extend 0
2 + p 0 close 1
2 - p 0 extend 1
3 + p 0 close 2
end
";

const TOO_LARGE: &str = "% SZS status Unsatisfiable
level 0 proof attempts 1
parmel 2 class plain start negative bound inferences size 4 terms 1 nodes 4
a
root 2
1 - p 0 extend 0
2 + p 0 close 1
2 - p 0 extend 1
3 + p 0 close 2
end
";

#[test]
fn refused(rt: HostRuntime) -> Result<(), Fail> {
    for (text, line, kind) in [
        (NOT_START, 5, RefusalKind::NotStart),
        (TWO_TERMS, 7, RefusalKind::NotInstance),
        (ONE_CHILD, 6, RefusalKind::NotInstance),
        (SAME_SIGN, 8, RefusalKind::NotComplementary),
        (UNCONNECTED, 6, RefusalKind::NotConnected),
        (REPEATED, 8, RefusalKind::NotRegular),
        (TOO_DEEP, 3, RefusalKind::DepthDiffers),
        (TOO_LARGE, 3, RefusalKind::SizeDiffers),
    ] {
        assert!(rt; text.len() <= 1_000);
        let verdict = verdict(rt.alloc(), text)?;
        assert!(rt; verdict == Err(Refusal { line, kind }), "{kind}");
    }
    Ok(())
}

#[test]
fn refusals_in_words(rt: HostRuntime) -> Result<(), Fail> {
    let refusal = Refusal {
        line: 8,
        kind: RefusalKind::NotRegular,
    };
    let text = format!(in rt.alloc(); "{refusal}")?;
    assert_eq!(rt; text.as_str(), "line 8 NotRegular");
    Ok(())
}
