//! Compiling the clauses of a problem.
ghost use Rattle.std.specs.Prelude.{◌≡◌, ◌<◌, ◌≤◌, ◌+◌, ◌∷◌, [], All, IfOk, List, OnOk, length, map};
ghost use Rattle.pm_logic.specs.Term.{Term};
ghost use Rattle.pm_logic.specs.View.{literal_of};
ghost use Rattle.pm_logic.specs.Problem.{IsValid};
ghost use Rattle.pm_compile.specs.Instructions.{NEW, BODY, CLOSE, DONE};
ghost use Rattle.pm_compile.specs.Scheme.{body_code, extension_code, goal_code, start_code};
ghost use Rattle.pm_compile.specs.Code.{IsCodeOf};
ghost use Rattle.pm_compile.specs.Inside.Appended.{Appends};
ghost use Rattle.pm_compile.specs.Inside.Clauses.{AddsClause, AddsExtensions, IsOver};
ghost use Rattle.pm_compile.specs.Inside.Heads.{IsReadyFor};

use crate::building::append_building;
use crate::code::{ClauseSpans, Code, Span};
use crate::heads::{Seen, append_head};
use crate::instr::Instr;
use crate::source::Source;
use pm_logic::{Literal, Problem};
use std::alloc::{AllocError, Global};

/// The code of the problem's clauses. The error is want of memory.
pub fn compile(alloc: Global, problem: &Problem) -> Result<Code, AllocError>
    ensures { IfOk result (IsCodeOf problem.now) }
{
    let source = Source::new(alloc, problem)?;
    let mut seen = Seen::new(alloc, problem.terms().len())?;
    let mut instrs = Vec::new(alloc);
    let mut extensions = Vec::new(alloc);
    let mut clauses = Vec::new(alloc);
    'clauses: for c in 0..problem.clauses() {
        let spans = append_clause(&source, c, &mut seen, &mut instrs, &mut extensions)?;
        clauses.push(spans)?;
    }
    Ok(Code::new(instrs, extensions, clauses))
}

// Appends the code of the clause of this index, and gives where it is.
fn append_clause(
    source: &Source,
    c: u32,
    seen: &mut Seen,
    instrs: &mut Vec<Instr>,
    extensions: &mut Vec<Span>,
) -> Result<ClauseSpans, AllocError>
    requires valid { IsValid source.now.problem.now }
    requires clause { c < length source.now.problem.now.clauses }
    requires seen { IsReadyFor source.now.problem.now.terms (length instrs.old.items + 1)
        seen.old }
    ensures clause { IfOk result (AddsClause source.now.problem.now c instrs.old.items
        extensions.old.items instrs.new.items extensions.new.items) }
    ensures seen { OnOk result
        (IsReadyFor source.now.problem.now.terms (length instrs.new.items + 1) seen.new) }
{
    let clause = source.problem.clause(c);
    // For the proof: the numbers of the clause's variables have 32 bits.
    let _vars = clause.vars;
    let literals = &clause.literals;
    let from = instrs.len();
    append_body(source, literals, instrs)?;
    let middle = instrs.len();
    append_start(c, instrs)?;
    let to = instrs.len();
    let extended = append_extensions(source, c, literals, seen, instrs, extensions)?;
    Ok(ClauseSpans {
        body: Span { from, to: middle },
        start: Span { from: middle, to },
        extensions: extended,
    })
}

// Appends the body of a clause with these literals.
fn append_body(
    source: &Source,
    literals: &[Literal],
    instrs: &mut Vec<Instr>,
) -> Result<(), AllocError>
    requires { All (IsOver source.now.problem.now.symbols source.now.problem.now.terms)
        literals.now }
    ensures { OnOk result (Appends source.now.problem.now.terms instrs.old.items instrs.new.items
        (body_code (map (literal_of source.now.problem.now.terms) literals.now))) }
{
    'literals: for literal in literals {
        append_goal(source, literal, instrs)?;
    }
    instrs.push(Instr::EndBody)?;
    Ok(())
}

// Appends the instructions that append a child with the literal.
fn append_goal(
    source: &Source,
    literal: &Literal,
    instrs: &mut Vec<Instr>,
) -> Result<(), AllocError>
    requires { IsOver source.now.problem.now.symbols source.now.problem.now.terms literal.now }
    ensures { OnOk result (Appends source.now.problem.now.terms instrs.old.items instrs.new.items
        (goal_code (literal_of source.now.problem.now.terms literal.now))) }
{
    append_building(source, &literal.args, instrs)?;
    instrs.push(Instr::Goal {
        positive: literal.positive,
        p: literal.predicate,
        n: source.problem.symbols().arity(literal.predicate),
    })?;
    Ok(())
}

// Appends the start with the clause of this index.
fn append_start(c: u32, instrs: &mut Vec<Instr>) -> Result<(), AllocError>
    ensures { (terms : List Term) → OnOk result (Appends terms instrs.old.items instrs.new.items
        (start_code c)) }
{
    instrs.push(Instr::Fresh)?;
    instrs.push(Instr::Body { c })?;
    instrs.push(Instr::Done)?;
    Ok(())
}

// Appends the extensions by each of these literals of the clause of this index, and gives where
// their spans are.
fn append_extensions(
    source: &Source,
    c: u32,
    literals: &[Literal],
    seen: &mut Seen,
    instrs: &mut Vec<Instr>,
    extensions: &mut Vec<Span>,
) -> Result<Span, AllocError>
    requires few { length literals.now ≤ 255 }
    requires literals { All (IsOver source.now.problem.now.symbols source.now.problem.now.terms)
        literals.now }
    requires seen { IsReadyFor source.now.problem.now.terms (length instrs.old.items) seen.old }
    ensures added { OnOk result (AddsExtensions source.now.problem.now.terms c
        (map (literal_of source.now.problem.now.terms) literals.now) instrs.old.items
        extensions.old.items instrs.new.items extensions.new.items) }
    ensures place { IfOk result (λ span. span ≡ record {
      from = length extensions.old.items;
      to = length extensions.new.items;
    }) }
    ensures seen { OnOk result
        (IsReadyFor source.now.problem.now.terms (length instrs.new.items) seen.new) }
{
    let first = extensions.len();
    'literals: for (j, literal) in literals.iter().enumerate() {
        let from = instrs.len();
        append_extension(source, c, j as u16, literal, seen, instrs)?;
        extensions.push(Span {
            from,
            to: instrs.len(),
        })?;
    }
    Ok(Span {
        from: first,
        to: extensions.len(),
    })
}

// Appends the extension by this literal of the clause.
fn append_extension(
    source: &Source,
    c: u32,
    j: u16,
    literal: &Literal,
    seen: &mut Seen,
    instrs: &mut Vec<Instr>,
) -> Result<(), AllocError>
    requires literal { IsOver source.now.problem.now.symbols source.now.problem.now.terms
        literal.now }
    requires seen { IsReadyFor source.now.problem.now.terms (length instrs.old.items) seen.old }
    ensures code { OnOk result (Appends source.now.problem.now.terms instrs.old.items
        instrs.new.items
        (extension_code c j (literal_of source.now.problem.now.terms literal.now))) }
    ensures seen { OnOk result
        (IsReadyFor source.now.problem.now.terms (length instrs.new.items) seen.new) }
{
    seen.begin(instrs.len());
    append_head(source, &literal.args, seen, instrs)?;
    append_closing(c, j, instrs)?;
    Ok(())
}

// Appends what follows the head in an extension by the literal of this index.
fn append_closing(c: u32, j: u16, instrs: &mut Vec<Instr>) -> Result<(), AllocError>
    ensures { (terms : List Term) → OnOk result (Appends terms instrs.old.items instrs.new.items
        (NEW ∷ BODY c ∷ CLOSE j ∷ DONE ∷ [])) }
{
    instrs.push(Instr::Fresh)?;
    instrs.push(Instr::Body { c })?;
    instrs.push(Instr::Close { j })?;
    instrs.push(Instr::Done)?;
    Ok(())
}
