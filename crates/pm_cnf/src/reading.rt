//! Reading clause files.
ghost use Rattle.std.specs.Prelude.{◌≡◌, ◌<◌, ◌≤◌, ◌+◌, ◌-◌, ◌^◌, IfOk, IfErr, length, map};
ghost use Rattle.pm_cnf.specs.Inside.Parsed.{item_of};
ghost use Rattle.pm_cnf.specs.Inside.Readable.{IsRead};
ghost use Rattle.pm_cnf.specs.Refusals.{Refuses};
ghost use Rattle.pm_scan.specs.View.{lexeme_of};
ghost use Rattle.pm_cnf.specs.Inside.Progress.{AcceptsLexeme, RefusesAt};
ghost use Rattle.pm_cnf.specs.Meaning.{IsProblemIn};
ghost use Rattle.pm_cnf.specs.Limits.{AreUsual};

use crate::error::CnfError;
use crate::item::Item;
use crate::limits::Limits;
use crate::number::number_items;
use crate::parser::{Parser, Refusal};
use pm_logic::Problem;
use pm_scan::{CnfKind, Lexeme, lexeme_at, place_at};
use std::alloc::Global;

/// Reads the problem of a clause file.
///
/// `bytes` are the whole file, fewer than 2^32 - 1 of them, and `limits` are within those of
/// [`Limits::standard`]. The answer is the problem that the file has by its grammar
/// (docs/FORMAT.md), or, exactly where the file has an offence, `CnfError::At` with the first one's
/// kind and place. `CnfError::Memory` is answered for want of memory.
pub fn read(alloc: Global, bytes: &[u8], limits: &Limits) -> Result<Problem, CnfError>
    requires short { length bytes.now < 2 ^ 32 - 1 }
    requires usual { AreUsual limits.now }
    ensures problem { IfOk result (IsProblemIn limits.now bytes.now) }
    ensures refused { IfErr result (Refuses limits.now bytes.now) }
{
    let items = read_items(alloc, bytes, limits)?;
    Ok(number_items(alloc, &items)?)
}

// Reads the items of a file.
fn read_items<'a>(
    alloc: Global,
    bytes: &'a [u8],
    limits: &Limits,
) -> Result<Vec<Item<'a>>, CnfError>
    requires short { length bytes.now < 2 ^ 32 - 1 }
    requires usual { AreUsual limits.now }
    ensures read { IfOk result (λ items. IsRead limits.now bytes.now (map item_of items.items)) }
    ensures refused { IfErr result (Refuses limits.now bytes.now) }
{
    let mut parser = Parser::new(alloc, *limits);
    let mut place = 0;
    'lexemes: while let Some((lexeme, len)) = lexeme_at(&bytes[place..]) {
        if let Err(refusal) = read_lexeme(&mut parser, lexeme) {
            return Err(refused(refusal, bytes, place));
        }
        place += len;
    }
    if !parser.is_whole() {
        return Err(refused(Refusal::Kind(CnfKind::EndInItem), bytes, place));
    }
    Ok(parser.into_items())
}

// Reads one more lexeme.
fn read_lexeme<'a>(parser: &mut Parser<'a>, lexeme: Lexeme<'a>) -> Result<(), Refusal>
    requires usual { AreUsual parser.old.limits }
    requires room { parser.old.around + 1 < 2 ^ 64 }
    ensures reads { AcceptsLexeme parser.old (lexeme_of lexeme.entry) parser.new result }
    ensures room { parser.new.around ≤ parser.old.around + 1 }
{
    match lexeme {
        Lexeme::Gap => Ok(()),
        Lexeme::Token(token) => parser.accept(token),
        Lexeme::Fault(kind) => Err(Refusal::Kind(kind)),
    }
}

// The refusal of what stands at a place.
fn refused(refusal: Refusal, bytes: &[u8], place: usize) -> CnfError
    requires within { place ≤ length bytes.now }
    requires short { length bytes.now < 2 ^ 32 - 1 }
    ensures { RefusesAt bytes.now place refusal result }
{
    match refusal {
        Refusal::Kind(kind) => CnfError::At {
            place: place_at(bytes, place),
            kind,
        },
        Refusal::Memory => CnfError::Memory,
    }
}
