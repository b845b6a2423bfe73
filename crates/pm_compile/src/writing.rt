//! Listing code as text.
ghost use Rattle.std.specs.Prelude.{◌≡◌, ◌<◌, ◌++◌, ◌∷◌, All, IfOk, OnOk, Some, codes, decimal, length, slice_get};
ghost use Rattle.pm_logic.specs.Term.{tree_at};
ghost use Rattle.pm_logic.specs.Problem.{Clause, IsValid, Literal};
ghost use Rattle.pm_write.specs.Text.{term_text};
ghost use Rattle.pm_write.specs.Rows.{IsTerm};
ghost use Rattle.pm_compile.specs.Instructions.{GOAL, instruction_of};
ghost use Rattle.pm_compile.specs.Scheme.{body_code, start_code};
ghost use Rattle.pm_compile.specs.Code.{IsCodeOf, instructions};
ghost use Rattle.pm_compile.specs.Listing.{clause_listing, counted_text, extension_listing, extensions_listing, instruction_text, line, lines, listing_text, section};
ghost use Rattle.pm_compile.specs.Inside.Lines.{IsWritable};

use crate::code::Code;
use crate::instr::Instr;
use itoa::Buffer;
use pm_logic::{Problem, TermId, write_symbol};
use pm_write::write_term;
use std::alloc::{AllocError, Global};

/// The code of the problem as text, an instruction on each line: for each clause its body under
/// `body c`, its start under `start c`, and its extensions under `extend c j`. The error is want of
/// memory.
pub fn listing(alloc: Global, problem: &Problem, code: &Code) -> Result<Vec<u8>, AllocError>
    requires { IsCodeOf problem.now code.now }
    ensures { IfOk result (λ text. text.items
        ≡ listing_text problem.now.symbols problem.now.clauses) }
{
    let mut text = Vec::new(alloc);
    'clauses: for c in 0..problem.clauses() {
        write_body(alloc, &mut text, problem, code, c)?;
        write_start(alloc, &mut text, problem, code, c)?;
        write_extensions(alloc, &mut text, problem, code, c)?;
    }
    Ok(text)
}

// Appends the lines of the body of a clause.
fn write_body(
    alloc: Global,
    into: &mut Vec<u8>,
    problem: &Problem,
    code: &Code,
    c: u32,
) -> Result<(), AllocError>
    requires code { IsCodeOf problem.now code.now }
    requires valid { IsValid problem.now }
    requires clause { c < length problem.now.clauses }
    ensures { (clause : Clause) → slice_get problem.now.clauses c ≡ Some clause
        → OnOk result (into.new.items ≡ into.old.items
        ++ section problem.now.symbols (codes "body " ++ decimal c) (body_code clause.literals)) }
{
    write_title(into, "body ", c)?;
    write_lines(alloc, into, problem, code.body(c))?;
    Ok(())
}

// Appends the lines of the start of a clause.
fn write_start(
    alloc: Global,
    into: &mut Vec<u8>,
    problem: &Problem,
    code: &Code,
    c: u32,
) -> Result<(), AllocError>
    requires code { IsCodeOf problem.now code.now }
    requires valid { IsValid problem.now }
    requires clause { c < length problem.now.clauses }
    ensures { OnOk result (into.new.items ≡ into.old.items
        ++ section problem.now.symbols (codes "start " ++ decimal c) (start_code c)) }
{
    write_title(into, "start ", c)?;
    write_lines(alloc, into, problem, code.start(c))?;
    Ok(())
}

// Appends the lines of the extensions by each literal of a clause.
fn write_extensions(
    alloc: Global,
    into: &mut Vec<u8>,
    problem: &Problem,
    code: &Code,
    c: u32,
) -> Result<(), AllocError>
    requires code { IsCodeOf problem.now code.now }
    requires valid { IsValid problem.now }
    requires clause { c < length problem.now.clauses }
    ensures { (clause : Clause) → slice_get problem.now.clauses c ≡ Some clause
        → OnOk result (into.new.items ≡ into.old.items
        ++ extensions_listing problem.now.symbols c 0 clause.literals) }
{
    let literals = &problem.clause(c).literals;
    'literals: for j in 0..literals.len() {
        write_extension(alloc, into, problem, code, c, j as u16)?;
    }
    Ok(())
}

// Appends the lines of the extension by a literal of a clause.
fn write_extension(
    alloc: Global,
    into: &mut Vec<u8>,
    problem: &Problem,
    code: &Code,
    c: u32,
    j: u16,
) -> Result<(), AllocError>
    requires code { IsCodeOf problem.now code.now }
    requires valid { IsValid problem.now }
    requires clause { c < length problem.now.clauses }
    requires literal { (clause : Clause) → slice_get problem.now.clauses c ≡ Some clause
        → j < length clause.literals }
    ensures { (clause : Clause) (literal : Literal) → slice_get problem.now.clauses c ≡ Some clause
        → slice_get clause.literals j ≡ Some literal
        → OnOk result (into.new.items ≡ into.old.items
        ++ extension_listing problem.now.symbols c j literal) }
{
    write_extension_title(into, c, j)?;
    write_lines(alloc, into, problem, code.extend(c, j))?;
    Ok(())
}

// Appends a line of a word and a number.
fn write_title(into: &mut Vec<u8>, word: &str, number: u32) -> Result<(), AllocError>
    ensures { OnOk result (into.new.items ≡ into.old.items ++ line (word.now ++ decimal number)) }
{
    write_number(into, word, number)?;
    into.push(b'\n')?;
    Ok(())
}

// Appends the line above the extension by a literal of a clause.
fn write_extension_title(into: &mut Vec<u8>, c: u32, j: u16) -> Result<(), AllocError>
    ensures { OnOk result (into.new.items ≡ into.old.items
        ++ line (codes "extend " ++ (decimal c ++ (codes " " ++ decimal j)))) }
{
    write_number(into, "extend ", c)?;
    write_title(into, " ", u32::from(j))?;
    Ok(())
}

// Appends a line for each instruction.
fn write_lines(
    alloc: Global,
    into: &mut Vec<u8>,
    problem: &Problem,
    instrs: &[Instr],
) -> Result<(), AllocError>
    requires { All (IsWritable problem.now.symbols problem.now.terms) instrs.now }
    ensures { OnOk result (into.new.items ≡ into.old.items
        ++ lines problem.now.symbols (instructions problem.now.terms instrs.now)) }
{
    'instrs: for instr in instrs {
        write_instr(alloc, into, problem, *instr)?;
        into.push(b'\n')?;
    }
    Ok(())
}

// Appends an instruction.
fn write_instr(
    alloc: Global,
    into: &mut Vec<u8>,
    problem: &Problem,
    instr: Instr,
) -> Result<(), AllocError>
    requires { IsWritable problem.now.symbols problem.now.terms instr }
    ensures { OnOk result (into.new.items ≡ into.old.items
        ++ instruction_text problem.now.symbols (instruction_of problem.now.terms instr)) }
{
    match instr {
        Instr::First { x } => write_number(into, "FIRST ", x),
        Instr::Again { x } => write_number(into, "AGAIN ", x),
        Instr::Meet { f, n } => write_counted(into, problem, "MEET ", f, n),
        Instr::Ground { t } => write_ground(alloc, into, problem, "GROUND ", t),
        Instr::Fresh => into.extend_from_slice(b"NEW"),
        Instr::Push { x } => write_number(into, "PUSH ", x),
        Instr::Make { f, n } => write_counted(into, problem, "MAKE ", f, n),
        Instr::Constant { t } => write_ground(alloc, into, problem, "CONST ", t),
        Instr::Goal { positive, p, n } => write_goal(into, problem, positive, p, n),
        Instr::Body { c } => write_number(into, "BODY ", c),
        Instr::EndBody => into.extend_from_slice(b"RETURN"),
        Instr::Close { j } => write_number(into, "CLOSE ", u32::from(j)),
        Instr::Reduce { k } => write_number(into, "REDUCE ", k),
        Instr::Done => into.extend_from_slice(b"DONE"),
    }
}

// Appends the instruction of a goal.
fn write_goal(
    into: &mut Vec<u8>,
    problem: &Problem,
    positive: bool,
    p: u32,
    n: u8,
) -> Result<(), AllocError>
    requires { p < length problem.now.symbols }
    ensures { OnOk result (into.new.items ≡ into.old.items
        ++ instruction_text problem.now.symbols (GOAL positive p n)) }
{
    if positive {
        write_counted(into, problem, "GOAL + ", p, n)
    } else {
        write_counted(into, problem, "GOAL - ", p, n)
    }
}

// Appends a word and a number.
fn write_number(into: &mut Vec<u8>, word: &str, number: u32) -> Result<(), AllocError>
    ensures { OnOk result (into.new.items ≡ into.old.items ++ (word.now ++ decimal number)) }
{
    into.extend_from_slice(word.as_bytes())?;
    let mut buffer = Buffer::new();
    into.extend_from_slice(buffer.format(number).as_bytes())
}

// Appends a word, and a symbol with how many arguments it has.
fn write_counted(
    into: &mut Vec<u8>,
    problem: &Problem,
    word: &str,
    symbol: u32,
    count: u8,
) -> Result<(), AllocError>
    requires { symbol < length problem.now.symbols }
    ensures { OnOk result (into.new.items ≡ into.old.items
        ++ (word.now ++ counted_text problem.now.symbols symbol count)) }
{
    into.extend_from_slice(word.as_bytes())?;
    write_symbol(into, problem.symbols(), symbol)?;
    write_number(into, " ", u32::from(count))
}

// Appends a word and the term of a row.
fn write_ground(
    alloc: Global,
    into: &mut Vec<u8>,
    problem: &Problem,
    word: &str,
    row: TermId,
) -> Result<(), AllocError>
    requires { IsTerm problem.now.symbols problem.now.terms row }
    ensures { OnOk result (into.new.items ≡ into.old.items
        ++ (word.now ++ term_text problem.now.symbols (tree_at problem.now.terms row))) }
{
    into.extend_from_slice(word.as_bytes())?;
    write_term(alloc, into, problem, row)
}
