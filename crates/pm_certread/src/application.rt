//! Symbols with arguments, as term lines give them.
ghost use Rattle.std.specs.Prelude.{◌≡◌, Some, Contains, IfOk, IfSome, IfNone, slice_get};
ghost use Rattle.pm_certread.specs.Inside.Cuts.{bytes_of};
ghost use Rattle.pm_certread.specs.Inside.Terms.{IsApplicationLine, ReadsApplication};

use crate::words::{line_words, numbers, word_text};
use pm_logic::{Kind, Symbols};
use std::alloc::{AllocError, Global};

/// What a term line of an application says: the symbol's text, and the numbers of its arguments'
/// lines.
#[derive(Debug, Drop)]
pub struct Application {
    pub text: String,
    pub numbers: Vec<u64>,
}

// What the words of a term line say.
fn application_words(alloc: Global, words: &[&[u8]]) -> Result<Option<Application>, AllocError>
    ensures { IfOk result (ReadsApplication (bytes_of words.now)) }
{
    let [word, args @ ..] = words else {
        return Ok(None);
    };
    let Some(text) = word_text(alloc, word)? else {
        return Ok(None);
    };
    let Some(numbers) = numbers(alloc, args)? else {
        return Ok(None);
    };
    Ok(Some(Application { text, numbers }))
}

/// What the line says, if it is the line of an application.
pub fn application_line(alloc: Global, raw: &[u8]) -> Result<Option<Application>, AllocError>
    ensures { IfOk result (IsApplicationLine raw.now) }
{
    let Some(words) = line_words(alloc, raw)? else {
        return Ok(None);
    };
    application_words(alloc, &words)
}

/// The number of the symbol of this text and kind with so many arguments, if it is there.
pub fn find_symbol(symbols: &Symbols, text: &str, args: usize, kind: Kind) -> Option<u32>
    ensures found { IfSome result (λ number. slice_get symbols.now number
        ≡ Some (record { text = text.now; arity = args; kind = kind })) }
    ensures none { IfNone result
        (¬ Contains symbols.now (record { text = text.now; arity = args; kind = kind })) }
{
    if args <= 255 {
        return symbols.find(text, args as u8, kind);
    }
    // No symbol has more than 255 arguments; the symbols tell it one by one.
    for number in 0..symbols.len() {
        let _few = symbols.arity(number);
    }
    None
}
