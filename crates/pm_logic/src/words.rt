//! Words and symbols in output.
ghost use Rattle.std.specs.Prelude.{◌≡◌, ◌<◌, ◌++◌, List, ℕ, IsSomeAnd, OnErr, OnOk, length, slice_get, take};
ghost use Rattle.std.specs.List.{list_all};
ghost use Rattle.pm_logic.specs.Word.{escaped, is_lower_word, is_word_byte, quoted, written_symbol, written_word};

use crate::symbols::{Kind, Symbols};
use std::alloc::AllocError;

/// Appends the text as a word: bare where it is a lower word (a letter from `a` to `z`, then ASCII
/// letters, digits and `_`), else between `'` and `'` with `\` before each `'` and each `\`. Where
/// memory is wanting `into` stays as it was.
pub fn write_word(into: &mut Vec<u8>, text: &str) -> Result<(), AllocError>
    ensures ok { OnOk result (into.new.items ≡ into.old.items ++ written_word text.now) }
    ensures err { OnErr result (into.new.items ≡ into.old.items) }
{
    if is_lower(text.as_bytes()) {
        return into.extend_from_slice(text.as_bytes());
    }
    let before = into.len();
    let written = quote(into, text.as_bytes());
    if written.is_err() {
        into.truncate(before);
    }
    written
}

/// Appends the symbol of this number: `=` for equality, and any other symbol's text as a word.
/// Where memory is wanting `into` stays as it was.
pub fn write_symbol(into: &mut Vec<u8>, symbols: &Symbols, id: u32) -> Result<(), AllocError>
    requires { id < length symbols.now }
    ensures ok { OnOk result (IsSomeAnd (slice_get symbols.now id)
        (λ symbol. into.new.items ≡ into.old.items ++ written_symbol symbol)) }
    ensures err { OnErr result (into.new.items ≡ into.old.items) }
{
    match symbols.kind(id) {
        Kind::Equality => into.extend_from_slice(b"="),
        Kind::Predicate | Kind::Function => write_word(into, symbols.text(id)),
    }
}

// Whether the text is a lower word.
fn is_lower(text: &[u8]) -> bool
    ensures { result ≡ is_lower_word text.now }
{
    let Some((first, rest)) = text.split_first() else {
        return false;
    };
    first.is_ascii_lowercase() && are_word_bytes(rest)
}

// Whether the bytes may stand in a lower word after its first.
fn are_word_bytes(bytes: &[u8]) -> bool
    ensures { result ≡ list_all is_word_byte bytes.now }
{
    bytes.iter().all(|byte| is_word_byte(*byte))
}

// Whether the byte is a letter, a digit or `_`.
fn is_word_byte(byte: u8) -> bool
    ensures { result ≡ is_word_byte byte }
{
    byte.is_ascii_alphanumeric() || byte == b'_'
}

// Appends the text between quotes, or the beginning of that where memory is wanting.
fn quote(into: &mut Vec<u8>, text: &[u8]) -> Result<(), AllocError>
    ensures ok { OnOk result (into.new.items ≡ into.old.items ++ quoted text.now) }
    ensures err { take (length into.old.items) into.new.items ≡ into.old.items }
{
    into.push(b'\'')?;
    for &byte in text {
        escape(into, byte)?;
    }
    into.push(b'\'')?;
    Ok(())
}

// Appends the byte, after `\` where it is `'` or `\`. Where memory is wanting the `\` may stand
// alone.
fn escape(into: &mut Vec<u8>, byte: u8) -> Result<(), AllocError>
    ensures ok { OnOk result (into.new.items ≡ into.old.items ++ escaped byte) }
    ensures err { take (length into.old.items) into.new.items ≡ into.old.items }
{
    if byte == b'\'' || byte == b'\\' {
        into.push(b'\\')?;
    }
    into.push(byte)?;
    Ok(())
}

#[cfg(test)]
mod tests {
    use super::*;
    use std::alloc::Global;
    use std::test::Fail;

    // Whether the text is written as this word, after the byte that stood there before.
    fn is_written_as(alloc: Global, text: &str, word: &str) -> Result<bool, AllocError> {
        let mut into = Vec::new(alloc);
        into.push(b'-')?;
        write_word(&mut into, text)?;
        Ok(into[0] == b'-' && &into[1..] == word.as_bytes())
    }

    #[test]
    fn words_bare_and_quoted(rt: HostRuntime) -> Result<(), Fail> {
        for (text, word) in [
            ("a", "a"),
            ("aB_9", "aB_9"),
            ("z0", "z0"),
            ("", "''"),
            ("A", "'A'"),
            ("_a", "'_a'"),
            ("9", "'9'"),
            ("a b", "'a b'"),
            ("a-", "'a-'"),
            ("it's", r"'it\'s'"),
            (r"a\b", r"'a\\b'"),
            (r"\'", r"'\\\''"),
            ("$true", "'$true'"),
        ] {
            assert!(rt; is_written_as(rt.alloc(), text, word)?);
        }
        Ok(())
    }

    #[test]
    fn symbols_by_kind(rt: HostRuntime) -> Result<(), Fail> {
        let mut symbols = Symbols::new(rt.alloc());
        let equality = symbols.number("=", 2, Kind::Equality)?;
        let word = symbols.number("=", 2, Kind::Predicate)?;
        assert_ne!(rt; equality, word);
        assert_eq!(rt; symbols.len(), 2);
        let mut into = Vec::new(rt.alloc());
        write_symbol(&mut into, &symbols, 0)?;
        assert_eq!(rt; into.as_slice(), b"=".as_slice());
        write_symbol(&mut into, &symbols, 1)?;
        assert_eq!(rt; into.as_slice(), b"='='".as_slice());
        Ok(())
    }
}
