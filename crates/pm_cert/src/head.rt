//! The lines of a certificate before its terms.
ghost use Rattle.std.specs.Prelude.{◌≡◌, ◌++◌, ◌∷◌, [], All, OnOk, length};
ghost use Rattle.pm_certread.specs.Forms.{IsNumber};
ghost use Rattle.pm_certread.specs.Lines.{class_word, ended, level_line, level_lines, proof_line, start_word, status_line, text_of};
ghost use Rattle.pm_cert.specs.Inside.Lines.{described, search_text};
ghost use Rattle.pm_cert.specs.Text.{header_line};

use crate::lines::push_number;
use pm_logic::{BoundKind, Class, Start};
use std::alloc::AllocError;

// What the header of a certificate says.
#[derive(Clone, Copy)]
pub(crate) struct Header {
    pub class: Class,
    pub start: Start,
    pub bound: BoundKind,
    pub size: u64,
    pub terms: u64,
    pub nodes: u64,
}

// Appends the line of an exhausted level with its number of attempts.
fn push_level(text: &mut Vec<u8>, level: u64, work: u64) -> Result<(), AllocError>
    ensures { OnOk result
        (text.new.items ≡ text.old.items ++ text_of (level_line level work ∷ [])) }
{
    text.extend_from_slice(b"level ")?;
    push_number(text, level)?;
    text.extend_from_slice(b" exhausted attempts ")?;
    push_number(text, work)?;
    text.push(b'\n')?;
    Ok(())
}

// Appends a line for each exhausted level from level 0 on.
fn push_exhausted(text: &mut Vec<u8>, works: &[u64]) -> Result<(), AllocError>
    ensures { OnOk result (text.new.items ≡ text.old.items ++ text_of (level_lines works.now)) }
{
    for (level, work) in works.iter().enumerate() {
        push_level(text, level as u64, *work)?;
    }
    Ok(())
}

// Appends the status, a line for each exhausted level, and one for the level with the proof.
pub(crate) fn push_levels(text: &mut Vec<u8>, works: &[u64], last: u64) -> Result<(), AllocError>
    ensures text { OnOk result (text.new.items ≡ text.old.items
        ++ text_of (status_line ∷ level_lines works.now
        ++ proof_line (length works.now) last ∷ [])) }
    ensures levels { OnOk result (IsNumber (length works.now)) }
    ensures works { OnOk result (All IsNumber works.now) }
    ensures last { OnOk result (IsNumber last) }
{
    text.extend_from_slice(b"% SZS status Unsatisfiable\n")?;
    push_exhausted(text, works)?;
    text.extend_from_slice(b"level ")?;
    push_number(text, works.len() as u64)?;
    text.extend_from_slice(b" proof attempts ")?;
    push_number(text, last)?;
    text.push(b'\n')?;
    Ok(())
}

fn class_word(class: Class) -> &'static str
    ensures { result.now ≡ class_word class }
{
    match class {
        Class::Plain => "plain",
        Class::Regular => "regular",
    }
}

fn start_word(start: Start) -> &'static str
    ensures { result.now ≡ start_word start }
{
    match start {
        Start::Negative => "negative",
        Start::All => "all",
        Start::Goal => "goal",
    }
}

// Appends the words up to the size: under the bound on depth those of version 1, and under the
// bound on inferences those of version 2.
fn push_search(text: &mut Vec<u8>, header: &Header) -> Result<(), AllocError>
    ensures { OnOk result (text.new.items ≡ text.old.items
        ++ search_text header.now.class header.now.start header.now.bound) }
{
    text.extend_from_slice(match header.bound {
        BoundKind::Depth => b"parmel 1 class ",
        BoundKind::Inferences => b"parmel 2 class ",
    })?;
    text.extend_from_slice(class_word(header.class).as_bytes())?;
    text.extend_from_slice(b" start ")?;
    text.extend_from_slice(start_word(header.start).as_bytes())?;
    text.extend_from_slice(match header.bound {
        BoundKind::Depth => b" depth ".as_slice(),
        BoundKind::Inferences => b" bound inferences size ".as_slice(),
    })
}

// Appends the header.
pub(crate) fn push_header(text: &mut Vec<u8>, header: &Header) -> Result<(), AllocError>
    ensures text { OnOk result (text.new.items ≡ text.old.items
        ++ ended (header_line header.now.bound (described header.now))) }
    ensures size { OnOk result (IsNumber header.now.size) }
    ensures terms { OnOk result (IsNumber header.now.terms) }
    ensures nodes { OnOk result (IsNumber header.now.nodes) }
{
    push_search(text, header)?;
    push_number(text, header.size)?;
    text.extend_from_slice(b" terms ")?;
    push_number(text, header.terms)?;
    text.extend_from_slice(b" nodes ")?;
    push_number(text, header.nodes)?;
    text.push(b'\n')?;
    Ok(())
}
