//! The lines of terms, and numbers in lines.
ghost use Rattle.std.specs.Prelude.{◌≡◌, ◌<◌, ◌++◌, ℕ, List, All, Contains, OnOk, Some, decimal, length, map, slice_get};
ghost use Rattle.std.specs.List.{AllZip};
ghost use Rattle.pm_logic.specs.Term.{tree_at};
ghost use Rattle.pm_certread.specs.Lines.{Line, ended, text_of};
ghost use Rattle.pm_cert.specs.Text.{IsTermLine};
ghost use Rattle.pm_cert.specs.Inside.Lines.{IsWritableTerm, numbers_text};
ghost use Rattle.pm_cert.specs.Inside.Listing.{AreRows};

use indexmap::IndexSet;
use itoa::Buffer;
use pm_logic::{Row, Symbols, TermId, TermTable, write_symbol};
use std::alloc::AllocError;

// Appends a number in decimal digits.
pub(crate) fn push_number(text: &mut Vec<u8>, number: u64) -> Result<(), AllocError>
    ensures { OnOk result (text.new.items ≡ text.old.items ++ decimal number) }
{
    let mut buffer = Buffer::new();
    text.extend_from_slice(buffer.format(number).as_bytes())
}

// The place of a row in the list.
fn place_of(list: &IndexSet<TermId>, row: TermId) -> usize
    requires { Contains list.now.keys row }
    ensures { slice_get list.now.keys result ≡ Some row }
{
    match list.get_index_of(&row) {
        Some(place) => place,
        None => unreachable!(),
    }
}

// Appends a blank and the number of its line for each of the rows.
pub(crate) fn push_places(
    text: &mut Vec<u8>,
    list: &IndexSet<TermId>,
    rows: &[TermId],
) -> Result<(), AllocError>
    requires { All (Contains list.now.keys) rows.now }
    ensures { OnOk result ((numbers : List ℕ)
        × (map (slice_get list.now.keys) numbers ≡ map Some rows.now)
        × (text.new.items ≡ text.old.items ++ numbers_text numbers)) }
{
    for row in rows {
        text.push(b' ')?;
        push_number(text, place_of(list, *row) as u64)?;
    }
    Ok(())
}

// Appends the line of the term of a row.
fn push_term(
    text: &mut Vec<u8>,
    symbols: &Symbols,
    terms: &TermTable,
    list: &IndexSet<TermId>,
    row: TermId,
) -> Result<(), AllocError>
    requires rows { AreRows terms.now list.now.keys }
    requires within { row < length terms.now }
    requires writable { IsWritableTerm symbols.now (map (tree_at terms.now) list.now.keys)
        (tree_at terms.now row) }
    ensures { let trees = map (tree_at terms.now) list.now.keys in
        OnOk result ((line : Line) × IsTermLine symbols.now trees (tree_at terms.now row) line
        × (text.new.items ≡ text.old.items ++ ended line)) }
{
    match terms.look(row) {
        Row::Var(_) => text.push(b'?')?,
        Row::App { symbol, args } => {
            write_symbol(text, symbols, symbol)?;
            push_places(text, list, args)?;
        }
    }
    text.push(b'\n')?;
    Ok(())
}

// Appends a line for each term of the list.
pub(crate) fn push_terms(
    text: &mut Vec<u8>,
    symbols: &Symbols,
    terms: &TermTable,
    list: &IndexSet<TermId>,
) -> Result<(), AllocError>
    requires rows { AreRows terms.now list.now.keys }
    requires writable { let trees = map (tree_at terms.now) list.now.keys in
        All (IsWritableTerm symbols.now trees) trees }
    ensures { let trees = map (tree_at terms.now) list.now.keys in
        OnOk result ((lines : List Line) × AllZip (IsTermLine symbols.now trees) trees lines
        × (text.new.items ≡ text.old.items ++ text_of lines)) }
{
    for row in list.as_slice() {
        push_term(text, symbols, terms, list, *row)?;
    }
    Ok(())
}
