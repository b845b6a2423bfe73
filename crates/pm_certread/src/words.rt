//! The words of a line, and what they stand for.
ghost use Rattle.std.specs.Prelude.{◌≡◌, ◌≢◌, ◌^◌, ◌<◌, ◌≤◌, ◌↔◌, ◌++◌, ℕ, List, IfOk, IfSome, IfNone, IsTrue, codes, decimal, false, length, map, string_bytes};
ghost use Rattle.std.specs.Option.{option_map};
ghost use Rattle.pm_logic.specs.Problem.{IsPrintable};
ghost use Rattle.pm_certread.specs.Forms.{IsNumber};
ghost use Rattle.pm_certread.specs.Inside.Words.{first_length, next_place, parts, unescaped, words_of};
ghost use Rattle.pm_certread.specs.Inside.Cuts.{IsCut, ReadsNumber, ReadsNumbers, ReadsText, bytes_of};
ghost use Rattle.pm_certread.specs.declared.words.Place.TheVariants.{Outside};

use itoa::Buffer;
use pm_logic::write_word;
use std::alloc::{AllocError, Global};
use std::str;

// Where a byte of a line stands: outside quotes, between them, or behind a `\` between them.
#[derive(Clone, Copy, Debug, PartialEq, Eq)]
enum Place {
    Outside,
    Quoted,
    Escaped,
}

// Where the byte after this one stands.
fn next_place(place: Place, byte: u8) -> Place
    ensures { result ≡ next_place place byte }
{
    match place {
        Place::Outside => {
            if byte == b'\'' {
                Place::Quoted
            } else {
                Place::Outside
            }
        }
        Place::Quoted => match byte {
            b'\'' => Place::Outside,
            b'\\' => Place::Escaped,
            _ => Place::Quoted,
        },
        Place::Escaped => Place::Quoted,
    }
}

// Whether the byte parts two words.
fn parts(place: Place, byte: u8) -> bool
    ensures { result ≡ parts place byte }
{
    match place {
        Place::Outside => byte == b' ',
        Place::Quoted | Place::Escaped => false,
    }
}

// How many bytes the first word of a line has.
fn first_length(line: &[u8]) -> usize
    ensures is { result ≡ first_length Outside line.now }
    ensures within { result ≤ length line.now }
{
    let mut place = Place::Outside;
    for (i, byte) in line.iter().enumerate() {
        if parts(place, *byte) {
            return i;
        }
        place = next_place(place, *byte);
    }
    line.len()
}

// How many words most lines have at most, which is the room that a line's words get at first.
const WORDS: usize = 8;

// The words of a line.
fn words_of<'a>(alloc: Global, line: &'a [u8]) -> Result<Vec<&'a [u8]>, AllocError>
    ensures { IfOk result (λ words. bytes_of words.items ≡ words_of line.now) }
{
    let mut words = Vec::with_capacity(alloc, WORDS)?;
    let mut rest = line;
    let mut end = first_length(rest);
    'words: while end < rest.len() {
        let (word, after) = rest.split_at(end);
        words.push(word)?;
        rest = &after[1..];
        end = first_length(rest);
    }
    words.push(rest)?;
    Ok(words)
}

/// The words of a line with its LF, if it has one.
pub fn line_words<'a>(alloc: Global, raw: &'a [u8]) -> Result<Option<Vec<&'a [u8]>>, AllocError>
    ensures { IfOk result (λ words. IsCut raw.now (option_map (λ ws. ws.items) words)) }
{
    let Some((last, line)) = raw.split_last() else {
        return Ok(None);
    };
    if *last != b'\n' {
        return Ok(None);
    }
    Ok(Some(words_of(alloc, line)?))
}

/// Whether the word is this text.
pub fn is(word: &[u8], text: &str) -> bool
    ensures { IsTrue result ↔ (word.now ≡ text.now) }
{
    word == text.as_bytes()
}

// Whether the bytes are the same.
fn are_same(left: &[u8], right: &[u8]) -> bool
    ensures { IsTrue result ↔ (left.now ≡ right.now) }
{
    left == right
}

// The number that the word stands for; leading zeros and a sign are let through.
fn parsed(word: &[u8]) -> Option<u64>
    ensures { (n : ℕ) → IsNumber n → word.now ≡ decimal n → result ≡ Some n }
{
    match str::from_utf8(word) {
        Ok(text) => match text.parse::<u64>() {
            Ok(number) => Some(number),
            Err(_) => None,
        },
        Err(_) => None,
    }
}

/// The number below 2^64 that the word is, in decimal digits without leading zeros.
pub fn number(word: &[u8]) -> Option<u64>
    ensures { ReadsNumber word.now result }
{
    let number = parsed(word)?;
    let mut buffer = Buffer::new();
    if !are_same(buffer.format(number).as_bytes(), word) {
        return None;
    }
    Some(number)
}

/// The numbers that the words are, if all of them are numbers.
pub fn numbers(alloc: Global, words: &[&[u8]]) -> Result<Option<Vec<u64>>, AllocError>
    ensures { IfOk result
        (λ found. ReadsNumbers (bytes_of words.now) (option_map (λ ns. ns.items) found)) }
{
    let mut numbers = Vec::with_capacity(alloc, words.len())?;
    for word in words {
        let Some(number) = number(word) else {
            return Ok(None);
        };
        numbers.push(number)?;
    }
    Ok(Some(numbers))
}

// The word without its quotes, and with the byte behind each `\` in its place.
fn unescaped(alloc: Global, word: &[u8]) -> Result<Vec<u8>, AllocError>
    ensures { IfOk result (λ text. text.items ≡ unescaped false word.now) }
{
    let mut text = Vec::with_capacity(alloc, word.len())?;
    let mut behind = false;
    for byte in word {
        if behind || (*byte != b'\'' && *byte != b'\\') {
            text.push(*byte)?;
            behind = false;
        } else {
            behind = *byte == b'\\';
        }
    }
    Ok(text)
}

// Whether the bytes may be a symbol's text.
fn is_printable(bytes: &[u8]) -> bool
    ensures { IsTrue result ↔ IsPrintable bytes.now }
{
    if bytes.is_empty() {
        return false;
    }
    for byte in bytes {
        if *byte < b' ' || b'~' < *byte {
            return false;
        }
    }
    true
}

/// The text that is written as the word, if there is one.
pub fn word_text(alloc: Global, word: &[u8]) -> Result<Option<String>, AllocError>
    ensures { IfOk result (λ text. ReadsText word.now (option_map string_bytes text)) }
{
    let text = unescaped(alloc, word)?;
    if !is_printable(&text) {
        return Ok(None);
    }
    let Ok(text) = String::from_utf8(text) else {
        return Ok(None);
    };
    let mut written = Vec::with_capacity(alloc, word.len())?;
    write_word(&mut written, text.as_str())?;
    if !are_same(&written, word) {
        return Ok(None);
    }
    Ok(Some(text))
}
