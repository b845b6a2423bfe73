//! Each text once, and the sample's first, middle and last clauses.
ghost use Rattle.std.specs.Prelude.{◌≡◌, ◌∷◌, [], IfOk};

use crate::{
    accepted, accepted_inferences, bad_words, gave_up, input_error, level_lines, refused,
    resource_out, sample, summary, too_long,
};
use pm_choice::Choices;
use pm_deepen::{DeepEnd, Outcome};
use pm_logic::{Literal, Name, Node, NodeKind, Problem, Row, Tableau, TermId, TermTable};
use pm_scan::{CnfKind, Place};
use std::alloc::{AllocError, Global};
use std::test::Fail;

fn is(text: &[u8], want: &str) -> bool {
    text == want.as_bytes()
}

#[test]
fn texts_of_runs(rt: HostRuntime) -> Result<(), Fail> {
    let alloc = rt.alloc();
    let lines = level_lines(alloc, &[1, 4])?;
    assert!(rt;
        is(
            &lines,
            "level 0 exhausted attempts 1\nlevel 1 exhausted attempts 4\n"
        )
    );
    let reached = gave_up(alloc, &[0])?;
    assert!(rt;
        is(
            &reached,
            "% SZS status GaveUp\nlevel 0 exhausted attempts 0\n"
        )
    );
    let budget = resource_out(alloc, &[1])?;
    assert!(rt;
        is(
            &budget,
            "% SZS status ResourceOut\nlevel 0 exhausted attempts 1\nlevel 1 budget\n"
        )
    );
    Ok(())
}

#[test]
fn texts_of_refusals(rt: HostRuntime) -> Result<(), Fail> {
    let alloc = rt.alloc();
    let place = Place {
        line: 1,
        column: 13,
    };
    let offence = input_error(alloc, place, CnfKind::UnclosedQuote)?;
    assert!(rt;
        is(
            &offence,
            "% SZS status InputError\nline 1 column 13 UnclosedQuote\n"
        )
    );
    let long = too_long(alloc, 1)?;
    assert!(rt; is(&long, "% SZS status InputError\nfile 1 TooLong\n"));
    let refusal = refused(alloc, 13, "NotInstance")?;
    assert!(rt; is(&refusal, "certificate refused line 13 NotInstance\n"));
    let words = bad_words(alloc)?;
    assert!(rt; is(&words, "parmel: bad words\n"));
    Ok(())
}

#[test]
fn texts_of_accepted_certificates(rt: HostRuntime) -> Result<(), Fail> {
    let alloc = rt.alloc();
    let deep = accepted(alloc, 4, &[0, 1, 2, 2])?;
    assert!(rt; is(&deep, "certificate accepted depth 4\nchoices 0 1 2 2\n"));
    let large = accepted_inferences(alloc, 3, &[0, 0, 0])?;
    assert!(rt; is(&large, "certificate accepted inferences 3\nchoices 0 0 0\n"));
    Ok(())
}

// A literal of the symbol 0 with one argument.
fn literal(alloc: Global, positive: bool, arg: TermId) -> Result<Literal, AllocError>
    ensures { IfOk result (λ literal. literal.args.items ≡ arg ∷ []) }
{
    Ok(Literal {
        positive,
        predicate: 0,
        args: Vec::from_slice(alloc, &[arg])?,
    })
}

// The tableau of `~p(f(a))` and `p(f(a))` below it, in whose table a third term doesn't occur.
fn small_tableau(alloc: Global) -> Result<Tableau, AllocError> {
    let mut terms = TermTable::new(alloc);
    terms.add_var()?;
    let a = terms.add_app(1, &[])?;
    let fa = terms.add_app(2, &[a])?;
    let mut tableau = Tableau::new(alloc, terms, 0);
    tableau.add(Node {
        depth: 1,
        literal: literal(alloc, false, fa)?,
        kind: NodeKind::Inner { clause: 1 },
    })?;
    tableau.add(Node {
        depth: 2,
        literal: literal(alloc, true, fa)?,
        kind: NodeKind::Leaf,
    })?;
    Ok(tableau)
}

#[test]
fn texts_of_samples(rt: HostRuntime) -> Result<(), Fail> {
    let alloc = rt.alloc();
    let tableau = small_tableau(alloc)?;
    let path = Choices::from_slice(alloc, &[0, 0])?;
    let proof = Outcome {
        works: Vec::from_slice(alloc, &[1, 1])?,
        end: DeepEnd::Proof {
            depth: 2,
            path,
            work: 2,
        },
    };
    let text = summary(alloc, 7, 7003, &proof, Some(&tableau))?;
    assert!(rt;
        is(
            &text,
            "sample 7 clauses 7003\nproof depth 2 nodes 2 terms 2 attempts 4\n"
        )
    );
    let budget = Outcome {
        works: Vec::from_slice(alloc, &[1, 1])?,
        end: DeepEnd::BudgetOut { depth: 2 },
    };
    let text = summary(alloc, 1, 1003, &budget, None)?;
    assert!(rt; is(&text, "sample 1 clauses 1003\nbudget at level 2\n"));
    Ok(())
}

// The literal with its symbols' texts, and its arguments after blanks.
fn literal_text(alloc: Global, problem: &Problem, literal: &Literal) -> Result<String, Fail> {
    let symbols = problem.symbols();
    let mut text = String::from_str(alloc, if literal.positive { "" } else { "~" })?;
    if literal.predicate >= symbols.len() {
        return Err("the predicate has no symbol")?;
    }
    text.push_str(symbols.text(literal.predicate))?;
    for arg in &literal.args {
        if arg.row() >= problem.terms().len() {
            return Err("the argument has no term")?;
        }
        match problem.terms().look(*arg) {
            Row::App { symbol, .. } if symbol < symbols.len() => {
                text.push_str(" ")?;
                text.push_str(symbols.text(symbol))?;
            }
            Row::App { .. } => return Err("the constant has no symbol")?,
            Row::Var(0) => text.push_str(" X0")?,
            Row::Var(1) => text.push_str(" X1")?,
            Row::Var(_) => text.push_str(" X2")?,
        }
    }
    Ok(text)
}

// The clause's name and its literals, each after a bar.
fn clause_text(alloc: Global, problem: &Problem, clause: u32) -> Result<String, Fail> {
    if clause >= problem.clauses() {
        return Err("the problem has the clause")?;
    }
    let clause = problem.clause(clause);
    let mut text = match &clause.name {
        Name::Word(name) | Name::Integer(name) => String::from_str(alloc, name.as_str())?,
    };
    for literal in &clause.literals {
        text.push_str("|")?;
        text.push_str(literal_text(alloc, problem, literal)?.as_str())?;
    }
    Ok(text)
}

#[test]
fn clauses_of_the_first_sample(rt: HostRuntime) -> Result<(), Fail> {
    let alloc = rt.alloc();
    let problem = sample(alloc, 1)?;
    assert_eq!(rt; problem.clauses(), 1003);
    for (clause, want) in [
        (0, "0|e c0 c1"),
        (500, "500|e c500 c501"),
        (999, "999|e c999 c1000"),
        (1000, "same|r X0 X0"),
        (1001, "step|r X0 X1|~e X0 X2|~r X2 X1"),
        (1002, "goal|~r c0 c20"),
    ] {
        assert_eq!(rt; clause_text(alloc, &problem, clause)?.as_str(), want);
    }
    Ok(())
}
