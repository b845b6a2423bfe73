//! Writing clauses as the text of a clause file.
ghost use Rattle.std.specs.Prelude.{◌≡◌, ◌++◌, All, IfOk, OnOk, map};
ghost use Rattle.pm_logic.specs.View.{clause_of, label_of, literal_of};
ghost use Rattle.pm_write.specs.Text.{clause_text, literal_text, literals_text, name_text, problem_text};
ghost use Rattle.pm_write.specs.Inside.Pending.{IsOver};

use crate::terms::write_arguments;
use pm_logic::{Clause, Literal, Name, Problem, write_symbol, write_word};
use std::alloc::{AllocError, Global};

/// The clauses of the problem as the text of a clause file: one line for each clause, in their
/// order. The error is want of memory.
pub fn write(alloc: Global, problem: &Problem) -> Result<Vec<u8>, AllocError>
    ensures { IfOk result (λ text. text.items ≡ problem_text problem.now) }
{
    let mut text = Vec::new(alloc);
    for i in 0..problem.clauses() {
        write_clause(alloc, &mut text, problem, problem.clause(i))?;
    }
    Ok(text)
}

// Appends the line of a clause.
fn write_clause(
    alloc: Global,
    into: &mut Vec<u8>,
    problem: &Problem,
    clause: &Clause,
) -> Result<(), AllocError>
    requires { All (IsOver problem.now.symbols problem.now.terms) clause.now.literals.items }
    ensures { OnOk result (into.new.items ≡ into.old.items
        ++ clause_text problem.now.symbols (clause_of problem.now.terms clause.now)) }
{
    into.extend_from_slice(b"cnf(")?;
    write_name(into, &clause.name)?;
    into.push(b',')?;
    into.extend_from_slice(clause.role.as_bytes())?;
    into.extend_from_slice(b",(")?;
    write_literals(alloc, into, problem, &clause.literals)?;
    into.extend_from_slice(b")).\n")
}

// Appends the name of a clause.
fn write_name(into: &mut Vec<u8>, name: &Name) -> Result<(), AllocError>
    ensures { OnOk result (into.new.items ≡ into.old.items ++ name_text (label_of name.now)) }
{
    match name {
        Name::Word(text) => write_word(into, text),
        Name::Integer(digits) => into.extend_from_slice(digits.as_bytes()),
    }
}

// Appends the literals, joined by ` | `, or `$false` where there are none.
fn write_literals(
    alloc: Global,
    into: &mut Vec<u8>,
    problem: &Problem,
    literals: &[Literal],
) -> Result<(), AllocError>
    requires { All (IsOver problem.now.symbols problem.now.terms) literals.now }
    ensures { OnOk result (into.new.items ≡ into.old.items
        ++ literals_text problem.now.symbols (map (literal_of problem.now.terms) literals.now)) }
{
    let Some((first, others)) = literals.split_first() else {
        return into.extend_from_slice(b"$false");
    };
    write_literal(alloc, into, problem, first)?;
    for literal in others {
        into.extend_from_slice(b" | ")?;
        write_literal(alloc, into, problem, literal)?;
    }
    Ok(())
}

// Appends the literal: `~` where it is negative, its predicate and its arguments.
fn write_literal(
    alloc: Global,
    into: &mut Vec<u8>,
    problem: &Problem,
    literal: &Literal,
) -> Result<(), AllocError>
    requires { IsOver problem.now.symbols problem.now.terms literal.now }
    ensures { OnOk result (into.new.items ≡ into.old.items
        ++ literal_text problem.now.symbols (literal_of problem.now.terms literal.now)) }
{
    if !literal.positive {
        into.push(b'~')?;
    }
    write_symbol(into, problem.symbols(), literal.predicate)?;
    write_arguments(alloc, into, problem, &literal.args)
}

#[cfg(test)]
mod tests {
    use super::*;
    use pm_logic::{Symbols, TermTable};
    use std::test::Fail;

    // The problem of the empty clause of this name.
    fn empty_clause(alloc: Global, name: Name) -> Result<Problem, AllocError> {
        let mut clauses = Vec::new(alloc);
        clauses.push(Clause {
            name,
            role: String::from_str(alloc, "axiom")?,
            vars: 0,
            literals: Vec::new(alloc),
        })?;
        Ok(Problem::new(Symbols::new(alloc), TermTable::new(alloc), clauses))
    }

    fn word(alloc: Global, text: &str) -> Result<Name, AllocError> {
        Ok(Name::Word(String::from_str(alloc, text)?))
    }

    // Whether this is what is written of the empty clause of this name.
    fn is_written(alloc: Global, name: Name, line: &str) -> Result<bool, AllocError> {
        let text = write(alloc, &empty_clause(alloc, name)?)?;
        Ok(text.as_slice() == line.as_bytes())
    }

    #[test]
    fn names_and_the_empty_clause(rt: HostRuntime) -> Result<(), Fail> {
        let alloc = rt.alloc();
        let integer = Name::Integer(String::from_str(alloc, "007")?);
        assert!(rt; is_written(alloc, word(alloc, "e")?, "cnf(e,axiom,($false)).\n")?);
        assert!(rt; is_written(alloc, word(alloc, "7")?, "cnf('7',axiom,($false)).\n")?);
        assert!(rt; is_written(alloc, integer, "cnf(007,axiom,($false)).\n")?);
        let quoted = word(alloc, r"it's \")?;
        assert!(rt; is_written(alloc, quoted, "cnf('it\\'s \\\\',axiom,($false)).\n")?);
        Ok(())
    }
}
