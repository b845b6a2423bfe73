//! Writing terms as they stand in a clause file.
ghost use Rattle.std.specs.Prelude.{◌≡◌, ◌≤◌, ◌++◌, List, All, IfOk, OnErr, OnOk, length, map};
ghost use Rattle.pm_logic.specs.Term.{Term, as_terms, tree_at};
ghost use Rattle.pm_logic.specs.Problem.{Symbol};
ghost use Rattle.pm_write.specs.Rows.{IsTerm};
ghost use Rattle.pm_write.specs.Text.{arguments_text, term_text, variable_text};
ghost use Rattle.pm_write.specs.Inside.Pending.{AreTerms, pending_text};

use itoa::Buffer;
use pm_logic::{Problem, Row, TermId, write_symbol};
use std::alloc::{AllocError, Global};

/// Appends the term of a row of the problem's table as it is written in a clause file: a variable
/// as `X` and its number, and an application as its symbol with the arguments between `(` and `)`,
/// joined by `,`. The error is want of memory; then `into` is as before.
pub fn write_term(
    alloc: Global,
    into: &mut Vec<u8>,
    problem: &Problem,
    term: TermId,
) -> Result<(), AllocError>
    requires { IsTerm problem.now.symbols problem.now.terms term }
    ensures ok { OnOk result (into.new.items ≡ into.old.items
        ++ term_text problem.now.symbols (tree_at problem.now.terms term)) }
    ensures err { OnErr result (into.new.items ≡ into.old.items) }
{
    let mut text = Vec::new(alloc);
    let args = write_head(&mut text, problem, term)?;
    write_arguments(alloc, &mut text, problem, args)?;
    into.extend_from_slice(&text)
}

// What is to be written of a list of arguments that is open.
#[derive(Clone, Copy)]
struct Pending<'a> {
    // The byte before the next argument.
    mark: u8,
    args: &'a [TermId],
}

// Appends the arguments between `(` and `)`, joined by `,`; nothing where there are none. Of the
// open lists the innermost is the last.
pub(crate) fn write_arguments(
    alloc: Global,
    into: &mut Vec<u8>,
    problem: &Problem,
    args: &[TermId],
) -> Result<(), AllocError>
    requires { All (IsTerm problem.now.symbols problem.now.terms) args.now }
    ensures { OnOk result (into.new.items ≡ into.old.items
        ++ arguments_text problem.now.symbols
        (as_terms (map (tree_at problem.now.terms) args.now))) }
{
    let mut pending = Vec::new(alloc);
    begin(&mut pending, args)?;
    while let Some(list) = pending.pop() {
        let Some((first, others)) = list.args.split_first() else {
            into.push(b')')?;
            continue;
        };
        into.push(list.mark)?;
        pending.push(Pending {
            mark: b',',
            args: others,
        })?;
        let inner = write_head(into, problem, *first)?;
        begin(&mut pending, inner)?;
    }
    Ok(())
}

// Opens the list of these arguments, if there are any.
fn begin<'a>(pending: &mut Vec<Pending<'a>>, args: &'a [TermId]) -> Result<(), AllocError>
    ensures text { (symbols : List Symbol) (terms : List Term)
        → OnOk result (pending_text symbols terms pending.new.items
        ≡ arguments_text symbols (as_terms (map (tree_at terms) args.now))
        ++ pending_text symbols terms pending.old.items) }
    ensures terms { (symbols : List Symbol) (terms : List Term)
        → All (IsTerm symbols terms) args.now → AreTerms symbols terms pending.old.items
        → OnOk result (AreTerms symbols terms pending.new.items) }
{
    if !args.is_empty() {
        pending.push(Pending { mark: b'(', args })?;
    }
    Ok(())
}

// Appends the variable, or the symbol of an application, whose arguments it gives.
fn write_head<'a>(
    into: &mut Vec<u8>,
    problem: &'a Problem,
    term: TermId,
) -> Result<&'a [TermId], AllocError>
    requires { IsTerm problem.now.symbols problem.now.terms term }
    ensures text { IfOk result (λ args. into.new.items
        ++ arguments_text problem.now.symbols (as_terms (map (tree_at problem.now.terms) args.now))
        ≡ into.old.items ++ term_text problem.now.symbols (tree_at problem.now.terms term)) }
    ensures terms { IfOk result
        (λ args. All (IsTerm problem.now.symbols problem.now.terms) args.now) }
    ensures longer { OnOk result (length into.old.items ≤ length into.new.items) }
{
    match problem.terms().look(term) {
        Row::Var(number) => {
            write_variable(into, number)?;
            Ok(&[])
        }
        Row::App { symbol, args } => {
            write_symbol(into, problem.symbols(), symbol)?;
            Ok(args)
        }
    }
}

// Appends `X` and the variable's number.
fn write_variable(into: &mut Vec<u8>, number: usize) -> Result<(), AllocError>
    ensures { OnOk result (into.new.items ≡ into.old.items ++ variable_text number) }
{
    into.push(b'X')?;
    let mut buffer = Buffer::new();
    into.extend_from_slice(buffer.format(number).as_bytes())
}

#[cfg(test)]
mod tests {
    use super::*;
    use pm_logic::{Kind, Symbols, TermTable};
    use std::test::Fail;

    #[test]
    fn a_constant(rt: HostRuntime) -> Result<(), Fail> {
        let mut symbols = Symbols::new(rt.alloc());
        let symbol = symbols.number("a b", 0, Kind::Function)?;
        let mut terms = TermTable::new(rt.alloc());
        let term = terms.add_app(symbol, &[])?;
        let problem = Problem::new(symbols, terms, Vec::new(rt.alloc()));
        let mut text = Vec::new(rt.alloc());
        write_term(rt.alloc(), &mut text, &problem, term)?;
        assert_eq!(rt; text.as_slice(), b"'a b'".as_slice());
        Ok(())
    }
}
