//! The term lines.
ghost use Rattle.std.specs.Prelude.{◌≡◌, ◌+◌, ◌<◌, ◌↔◌, ℕ, All, IfOk, IfErr, IsTrue, OnOk, length};
ghost use Rattle.pm_certread.specs.Lines.{Header};
ghost use Rattle.pm_certread.specs.Reading.{AddsApplication, AddsVariable, AreThere, GivesTerm, Head, TermOffends, no_terms, terms};
ghost use Rattle.pm_certread.specs.Inside.Head.{header_of};
ghost use Rattle.pm_certread.specs.Inside.Progress.{Continues, RefusesFrom};
ghost use Rattle.pm_certread.specs.Inside.Terms.{AreRows, IsFault, lines_of, rows_of};

use crate::application::{application_line, find_symbol};
use crate::error::{CertError, CertKind};
use crate::fault::Fault;
use crate::header::Header;
use crate::lines::Lines;
use crate::words::is;
use pm_logic::{Kind, Problem, Symbols, TermId, TermTable};
use std::alloc::{AllocError, Global};

/// The terms of the term lines so far: a row of the table for each, and each term once.
#[derive(Drop)]
pub struct TermRows {
    pub table: TermTable,
    pub rows: Vec<TermId>,
}

impl TermRows {
    // No terms.
    fn new(alloc: Global) -> TermRows
        ensures rows { AreRows result }
        ensures none { lines_of result ≡ no_terms }
    {
        TermRows {
            table: TermTable::new(alloc),
            rows: Vec::new(alloc),
        }
    }

    // Adds the next variable.
    fn add_variable(&mut self) -> Result<(), AllocError>
        requires { AreRows self.old }
        ensures added { OnOk result (AddsVariable (lines_of self.old) (lines_of self.new)) }
        ensures rows { OnOk result (AreRows self.new) }
        ensures count { OnOk result
            (length self.new.rows.items ≡ length self.old.rows.items + 1) }
    {
        let last = self.table.add_var()?;
        self.rows.push(last)?;
        Ok(())
    }

    // Adds the application of the symbol to the terms of these lines.
    fn add_application(
        &mut self,
        alloc: Global,
        symbol: u32,
        numbers: &[u64],
    ) -> Result<(), AllocError>
        requires rows { AreRows self.old }
        requires there { All (λ number. number < length self.old.rows.items) numbers.now }
        ensures added { OnOk result
            (AddsApplication (lines_of self.old) (lines_of self.new) symbol numbers.now) }
        ensures rows { OnOk result (AreRows self.new) }
        ensures count { OnOk result
            (length self.new.rows.items ≡ length self.old.rows.items + 1) }
    {
        let args = rows_at(alloc, &self.rows, numbers)?;
        let row = self.table.add_app(symbol, &args)?;
        self.rows.push(row)?;
        Ok(())
    }
}

/// The rows of these numbers.
pub fn rows_at(alloc: Global, rows: &[TermId], numbers: &[u64]) -> Result<Vec<TermId>, AllocError>
    requires { All (λ number. number < length rows.now) numbers.now }
    ensures { IfOk result (λ found. found.items ≡ rows_of rows.now numbers.now) }
{
    let mut found = Vec::with_capacity(alloc, numbers.len())?;
    for number in numbers {
        found.push(rows[*number as usize])?;
    }
    Ok(found)
}

/// Whether all numbers are below the bound.
pub fn are_below(numbers: &[u64], bound: usize) -> bool
    ensures { IsTrue result ↔ All (λ number. number < bound) numbers.now }
{
    for number in numbers {
        if bound as u64 <= *number {
            return false;
        }
    }
    true
}

// Takes one term line.
fn read_term(
    alloc: Global,
    symbols: &Symbols,
    raw: &[u8],
    given: &mut TermRows,
) -> Result<(), Fault>
    requires { AreRows given.old }
    ensures ok { OnOk result
        (GivesTerm symbols.now (lines_of given.old) raw.now (lines_of given.new)) }
    ensures rows { OnOk result (AreRows given.new) }
    ensures count { OnOk result
        (length given.new.rows.items ≡ length given.old.rows.items + 1) }
    ensures err { IfErr result (IsFault (TermOffends symbols.now (lines_of given.old) raw.now)) }
{
    if is(raw, "?\n") {
        given.add_variable()?;
        return Ok(());
    }
    let Some(line) = application_line(alloc, raw)? else {
        return Err(Fault::Kind(CertKind::Syntax));
    };
    if !are_below(&line.numbers, given.rows.len()) {
        return Err(Fault::Kind(CertKind::TermRange));
    }
    let Some(symbol) = find_symbol(
        symbols,
        line.text.as_str(),
        line.numbers.len(),
        Kind::Function,
    ) else {
        return Err(Fault::Kind(CertKind::UnknownSymbol));
    };
    given.add_application(alloc, symbol, &line.numbers)?;
    Ok(())
}

/// Takes the term lines.
pub fn read_terms(
    alloc: Global,
    problem: &Problem,
    header: &Header,
    lines: &mut Lines,
) -> Result<TermRows, CertError>
    ensures ok { IfOk result (λ given. (line : ℕ)
        → let head : Head = record { header = header_of header.now; line = line } in
        Continues problem.now (terms head no_terms) lines.old
        (terms head (lines_of given)) lines.new) }
    ensures rows { IfOk result AreRows }
    ensures all { IfOk result (λ given. header.now.terms ≡ length given.rows.items) }
    ensures taken { OnOk result (lines.new.taken ≡ lines.old.taken + header.now.terms) }
    ensures err { IfErr result (λ error. (line : ℕ)
        → let head : Head = record { header = header_of header.now; line = line } in
        RefusesFrom problem.now (terms head no_terms) lines.old error) }
{
    let mut given = TermRows::new(alloc);
    'terms: while (given.rows.len() as u64) < header.terms {
        let raw = lines.take()?;
        match read_term(alloc, problem.symbols(), raw, &mut given) {
            Ok(()) => {}
            Err(fault) => return Err(lines.error(fault)),
        }
    }
    Ok(given)
}
