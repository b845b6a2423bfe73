//! The texts of a run's ends.
ghost use Rattle.std.specs.Prelude.{◌≡◌, ◌++◌, ◌∷◌, [], IfOk, OnOk, codes, decimal};
ghost use Rattle.std.specs.List.{flat_map};
ghost use Rattle.pm_report.specs.Text.{text_of, level_line, level_lines, gave_up_lines, resource_out_lines, budget_line, input_error_lines, too_long_lines, choices_line, accepted_lines, accepted_inferences_lines, refused_lines, bad_words_lines};

use itoa::Buffer;
use pm_scan::{CnfKind, Place};
use std::alloc::{AllocError, Global};

// Appends a number in decimal digits.
pub(crate) fn push_number(text: &mut Vec<u8>, number: u64) -> Result<(), AllocError>
    ensures { OnOk result (text.new.items ≡ text.old.items ++ decimal number) }
{
    let mut buffer = Buffer::new();
    text.extend_from_slice(buffer.format(number).as_bytes())
}

// Appends the line of an exhausted level with its number of attempts.
fn push_level(text: &mut Vec<u8>, level: u64, work: u64) -> Result<(), AllocError>
    ensures { OnOk result
        (text.new.items ≡ text.old.items ++ text_of (level_line level work ∷ [])) }
{
    text.extend_from_slice(b"level ")?;
    push_number(text, level)?;
    text.extend_from_slice(b" exhausted attempts ")?;
    push_number(text, work)?;
    text.push(b'\n')?;
    Ok(())
}

// Appends a line for each exhausted level from level 0 on.
fn push_levels(text: &mut Vec<u8>, works: &[u64]) -> Result<(), AllocError>
    ensures { OnOk result (text.new.items ≡ text.old.items ++ text_of (level_lines works.now)) }
{
    for (level, work) in works.iter().enumerate() {
        push_level(text, level as u64, *work)?;
    }
    Ok(())
}

/// A line for each exhausted level from level 0 on, with its number of attempts.
pub fn level_lines(alloc: Global, works: &[u64]) -> Result<Vec<u8>, AllocError>
    ensures { IfOk result (λ text. text.items ≡ text_of (level_lines works.now)) }
{
    let mut text = Vec::new(alloc);
    push_levels(&mut text, works)?;
    Ok(text)
}

/// The text of a run in which each level up to the depth option is exhausted; `works` are the
/// levels' numbers of attempts from level 0 on.
pub fn gave_up(alloc: Global, works: &[u64]) -> Result<Vec<u8>, AllocError>
    ensures { IfOk result (λ text. text.items ≡ text_of (gave_up_lines works.now)) }
{
    let mut text = Vec::from_slice(alloc, b"% SZS status GaveUp\n")?;
    push_levels(&mut text, works)?;
    Ok(text)
}

// Appends the line of a level that needs more attempts than the budget.
fn push_budget(text: &mut Vec<u8>, level: u64) -> Result<(), AllocError>
    ensures { OnOk result
        (text.new.items ≡ text.old.items ++ text_of (budget_line level ∷ [])) }
{
    text.extend_from_slice(b"level ")?;
    push_number(text, level)?;
    text.extend_from_slice(b" budget\n")?;
    Ok(())
}

/// The text of a run in which the level after the exhausted ones needs more attempts than the
/// budget; `works` are the exhausted levels' numbers of attempts from level 0 on.
pub fn resource_out(alloc: Global, works: &[u64]) -> Result<Vec<u8>, AllocError>
    ensures { IfOk result (λ text. text.items ≡ text_of (resource_out_lines works.now)) }
{
    let mut text = Vec::from_slice(alloc, b"% SZS status ResourceOut\n")?;
    push_levels(&mut text, works)?;
    push_budget(&mut text, works.len() as u64)?;
    Ok(text)
}

/// The text for a clause file whose first offence is of this kind, at this place.
pub fn input_error(alloc: Global, place: Place, kind: CnfKind) -> Result<Vec<u8>, AllocError>
    ensures { IfOk result
        (λ text. text.items ≡ text_of (input_error_lines place.line place.column kind)) }
{
    let mut text = Vec::from_slice(alloc, b"% SZS status InputError\nline ")?;
    push_number(&mut text, u64::from(place.line))?;
    text.extend_from_slice(b" column ")?;
    push_number(&mut text, u64::from(place.column))?;
    text.push(b' ')?;
    text.extend_from_slice(kind.word().as_bytes())?;
    text.push(b'\n')?;
    Ok(text)
}

/// The text for a file over its limit; `file` is its place among the files of the words, from 1 on.
pub fn too_long(alloc: Global, file: u8) -> Result<Vec<u8>, AllocError>
    ensures { IfOk result (λ text. text.items ≡ text_of (too_long_lines file)) }
{
    let mut text = Vec::from_slice(alloc, b"% SZS status InputError\nfile ")?;
    push_number(&mut text, u64::from(file))?;
    text.extend_from_slice(b" TooLong\n")?;
    Ok(text)
}

// Appends a choice after a blank.
fn push_choice(text: &mut Vec<u8>, choice: u32) -> Result<(), AllocError>
    ensures { OnOk result (text.new.items ≡ text.old.items ++ (codes " " ++ decimal choice)) }
{
    text.push(b' ')?;
    push_number(text, u64::from(choice))
}

// Appends each choice after a blank.
fn push_choices(text: &mut Vec<u8>, choices: &[u32]) -> Result<(), AllocError>
    ensures { OnOk result (text.new.items ≡ text.old.items
        ++ flat_map (λ choice. codes " " ++ decimal choice) choices.now) }
{
    for choice in choices {
        push_choice(text, *choice)?;
    }
    Ok(())
}

// Appends the line of choices.
fn push_choices_line(text: &mut Vec<u8>, choices: &[u32]) -> Result<(), AllocError>
    ensures { OnOk result
        (text.new.items ≡ text.old.items ++ text_of (choices_line choices.now ∷ [])) }
{
    text.extend_from_slice(b"choices")?;
    push_choices(text, choices)?;
    text.push(b'\n')?;
    Ok(())
}

/// The text for an accepted certificate of a tableau of this depth that follows these choices.
pub fn accepted(alloc: Global, depth: u32, choices: &[u32]) -> Result<Vec<u8>, AllocError>
    ensures { IfOk result (λ text. text.items ≡ text_of (accepted_lines depth choices.now)) }
{
    let mut text = Vec::from_slice(alloc, b"certificate accepted depth ")?;
    push_number(&mut text, u64::from(depth))?;
    text.push(b'\n')?;
    push_choices_line(&mut text, choices)?;
    Ok(text)
}

/// The text for an accepted certificate, under the bound on inferences, of a tableau of so many
/// clause instances that follows these choices.
pub fn accepted_inferences(alloc: Global, size: u64, choices: &[u32]) -> Result<Vec<u8>, AllocError>
    ensures { IfOk result
        (λ text. text.items ≡ text_of (accepted_inferences_lines size choices.now)) }
{
    let mut text = Vec::from_slice(alloc, b"certificate accepted inferences ")?;
    push_number(&mut text, size)?;
    text.push(b'\n')?;
    push_choices_line(&mut text, choices)?;
    Ok(text)
}

/// The text for a certificate that is refused at this line, by the name of the cause.
pub fn refused(alloc: Global, line: u64, kind: &str) -> Result<Vec<u8>, AllocError>
    ensures { IfOk result (λ text. text.items ≡ text_of (refused_lines line kind.now)) }
{
    let mut text = Vec::from_slice(alloc, b"certificate refused line ")?;
    push_number(&mut text, line)?;
    text.push(b' ')?;
    text.extend_from_slice(kind.as_bytes())?;
    text.push(b'\n')?;
    Ok(text)
}

/// The text for words that are no job.
pub fn bad_words(alloc: Global) -> Result<Vec<u8>, AllocError>
    ensures { IfOk result (λ text. text.items ≡ text_of bad_words_lines) }
{
    Vec::from_slice(alloc, b"parmel: bad words\n")
}
