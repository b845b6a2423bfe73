//! Cutting bytes into lexemes.
ghost use Rattle.std.specs.Prelude.{◌≡◌, ◌≤◌, ◌<◌, ◌-◌, ◌^◌, ◌==◌, ◌||◌, ◌∷◌, not, length, take, filter, reverse, IfSome, IfOk};
ghost use Rattle.std.specs.List.{prefix_len};
ghost use Rattle.std.specs.Option.{option_map};
ghost use Rattle.std.specs.Str.{IsAscii};
ghost use Rattle.std.specs.String.{string_bytes};
ghost use Rattle.std.specs.Char.{is_ascii_digit, is_ascii_lowercase};
ghost use Rattle.pm_logic.specs.Word.{is_word_byte};
ghost use Rattle.pm_logic.specs.Problem.{IsPrintable};
ghost use Rattle.pm_scan.specs.Lexemes.{is_blank, is_plain_byte, is_line_end, begins, front, comment_len, comment_of, digits_len, sign_len, begins_number, integer_len, fraction_len, exponent_len, number_len, ending, text_of, quoted_at, distinct_at, dollars_len, dollar_at, mark_of, mark_lexeme, lexeme_from, lexeme_at, line_of, column_of};
ghost use Rattle.pm_scan.specs.Forms.{LexemeHasForm};
ghost use Rattle.pm_scan.specs.Inside.Scan.{closed_len};
ghost use Rattle.pm_scan.specs.View.{lexeme_of};

use crate::offence::{CnfKind, Place};
use crate::token::{Lexeme, Mark, Token};
use std::alloc::{AllocError, Global};
use std::str;

// Whether a byte is a blank: tab to carriage return, or space.
fn is_blank(byte: u8) -> bool
    ensures { result ≡ is_blank byte }
{
    matches!(byte, 9..=13 | b' ')
}

// Whether a byte may stand in a word behind its first letter.
fn is_word_byte(byte: u8) -> bool
    ensures { result ≡ is_word_byte byte }
{
    byte.is_ascii_alphanumeric() || byte == b'_'
}

// Whether a byte is a character of a quoted word or a distinct object by itself, where it isn't
// the closing mark.
fn is_plain_byte(byte: u8) -> bool
    ensures { result ≡ is_plain_byte byte }
{
    matches!(byte, b' '..=b'~') && byte != b'\\'
}

// How many word bytes the bytes begin with.
fn word_len(bytes: &[u8]) -> usize
    ensures len { result ≡ prefix_len is_word_byte bytes.now }
    ensures within { result ≤ length bytes.now }
{
    bytes.iter().take_while(|byte| is_word_byte(**byte)).count()
}

// How many digits the bytes begin with.
fn digits_len(bytes: &[u8]) -> usize
    ensures len { result ≡ digits_len bytes.now }
    ensures within { result ≤ length bytes.now }
{
    bytes
        .iter()
        .take_while(|byte| byte.is_ascii_digit())
        .count()
}

// How many bytes come before the end of the line.
fn line_len(bytes: &[u8]) -> usize
    ensures len { result ≡ prefix_len (λ b. not (is_line_end b)) bytes.now }
    ensures within { result ≤ length bytes.now }
{
    bytes.iter().take_while(|byte| **byte != b'\n').count()
}

fn sign_len(bytes: &[u8]) -> usize
    ensures len { result ≡ sign_len bytes.now }
    ensures within { result ≤ length bytes.now }
{
    match bytes.first() {
        Some(b'+' | b'-') => 1,
        _ => 0,
    }
}

// Whether the first byte is there and is a digit.
fn begins_digit(bytes: &[u8]) -> bool
    ensures { result ≡ begins is_ascii_digit bytes.now }
{
    bytes.first().is_some_and(|byte| byte.is_ascii_digit())
}

// Whether the first byte is there and is a letter from `a` to `z`.
fn begins_lowercase(bytes: &[u8]) -> bool
    ensures { result ≡ begins is_ascii_lowercase bytes.now }
{
    bytes.first().is_some_and(|byte| byte.is_ascii_lowercase())
}

// Whether the first byte is there and is the wanted one.
fn begins_with(bytes: &[u8], wanted: u8) -> bool
    ensures { result ≡ begins (λ byte. byte == wanted) bytes.now }
{
    bytes.first().is_some_and(|byte| *byte == wanted)
}

// Whether the bytes begin with a digit, or with a sign and a digit.
fn begins_number(bytes: &[u8]) -> bool
    ensures { result ≡ begins_number bytes.now }
{
    begins_digit(&bytes[sign_len(bytes)..])
}

// The length of a sign, where there is one, and of the digits after it.
fn integer_len(bytes: &[u8]) -> usize
    ensures len { result ≡ integer_len bytes.now }
    ensures within { result ≤ length bytes.now }
{
    let sign = sign_len(bytes);
    sign + digits_len(&bytes[sign..])
}

// The length of a fraction at the front, or 0 where none is whole.
fn fraction_len(bytes: &[u8]) -> usize
    ensures len { result ≡ fraction_len bytes.now }
    ensures within { result ≤ length bytes.now }
{
    match bytes.split_first() {
        Some((b'.' | b'/', rest)) if begins_digit(rest) => 1 + digits_len(rest),
        _ => 0,
    }
}

// The length of an exponent at the front, or 0 where none is whole.
fn exponent_len(bytes: &[u8]) -> usize
    ensures len { result ≡ exponent_len bytes.now }
    ensures within { result ≤ length bytes.now }
{
    match bytes.split_first() {
        Some((b'e' | b'E', rest)) if begins_number(rest) => 1 + integer_len(rest),
        _ => 0,
    }
}

// The length of a number with each part that is whole.
fn number_len(bytes: &[u8]) -> usize
    ensures len { result ≡ number_len bytes.now }
    ensures within { result ≤ length bytes.now }
{
    let integer = integer_len(bytes);
    let decimal = integer + fraction_len(&bytes[integer..]);
    decimal + exponent_len(&bytes[decimal..])
}

// How many bytes a block comment has after its opening mark, its closing mark included.
fn comment_len(bytes: &[u8]) -> Option<usize>
    ensures len { result ≡ comment_len bytes.now }
    ensures within { IfSome result (λ n. n ≤ length bytes.now) }
{
    let mut rest = bytes;
    let mut len = 0;
    'search: while let Some((byte, after)) = rest.split_first() {
        if *byte == b'*' && begins_with(after, b'/') {
            return Some(len + 2);
        }
        rest = after;
        len += 1;
    }
    None
}

// How many bytes the characters up to the closing mark have, or the offence where there is no such
// mark behind characters.
fn characters_len(closing: u8, bytes: &[u8]) -> Result<usize, CnfKind>
    ensures len { result ≡ closed_len (ending closing bytes.now) }
    ensures within { IfOk result (λ n. n < length bytes.now) }
{
    let mut len = 0;
    'characters: while let Some(&byte) = bytes.get(len) {
        if byte == closing {
            return Ok(len);
        }
        if is_plain_byte(byte) {
            len += 1;
        } else if byte == b'\\' && is_escaped(closing, &bytes[len + 1..]) {
            len += 2;
        } else {
            return Err(CnfKind::BadToken);
        }
    }
    Err(CnfKind::UnclosedQuote)
}

// Whether the first byte may stand behind `\`.
fn is_escaped(closing: u8, bytes: &[u8]) -> bool
    ensures { result ≡ begins (λ next. (next == closing) || (next == 92)) bytes.now }
{
    bytes
        .first()
        .is_some_and(|next| *next == closing || *next == b'\\')
}

// ASCII bytes as text.
fn as_str(bytes: &[u8]) -> &str
    requires { IsAscii bytes.now }
    ensures { result.now ≡ bytes.now }
{
    str::from_utf8(bytes).unwrap()
}

// A block comment whose opening mark stands before the bytes.
fn block_comment(bytes: &[u8]) -> (Lexeme<'_>, usize)
    ensures { (lexeme_of result.0, result.1) ≡ comment_of (comment_len bytes.now) }
{
    match comment_len(bytes) {
        Some(len) => (Lexeme::Gap, 2 + len),
        None => (Lexeme::Fault(CnfKind::UnclosedComment), 1),
    }
}

// A quoted word whose opening mark stands before the bytes.
fn quoted_word(bytes: &[u8]) -> (Lexeme<'_>, usize)
    ensures { (lexeme_of result.0, result.1) ≡ quoted_at bytes.now }
{
    match characters_len(b'\'', bytes) {
        Ok(0) => (Lexeme::Fault(CnfKind::BadToken), 2),
        Ok(len) => (Lexeme::Token(Token::Quoted(as_str(&bytes[..len]))), len + 2),
        Err(kind) => (Lexeme::Fault(kind), 1),
    }
}

// A distinct object whose opening mark stands before the bytes.
fn distinct_object(bytes: &[u8]) -> (Lexeme<'_>, usize)
    ensures { (lexeme_of result.0, result.1) ≡ distinct_at bytes.now }
{
    match characters_len(b'"', bytes) {
        Ok(len) => (Lexeme::Token(Token::Distinct), len + 2),
        Err(kind) => (Lexeme::Fault(kind), 1),
    }
}

// How many dollar signs the bytes begin with, of the first two.
fn dollars_len(bytes: &[u8]) -> usize
    ensures len { result ≡ dollars_len bytes.now }
    ensures within { result ≤ length bytes.now }
{
    bytes
        .iter()
        .take(2)
        .take_while(|byte| **byte == b'$')
        .count()
}

// A dollar word, from its first dollar sign on.
fn dollar_word(bytes: &[u8]) -> (Lexeme<'_>, usize)
    ensures { (lexeme_of result.0, result.1) ≡ dollar_at bytes.now }
{
    let dollars = dollars_len(bytes);
    let word = &bytes[dollars..];
    if !begins_lowercase(word) {
        return (Lexeme::Fault(CnfKind::BadToken), 1);
    }
    let len = dollars + word_len(word);
    (Lexeme::Token(Token::Dollar(as_str(&bytes[..len]))), len)
}

// The number that the bytes begin with, with each part that is whole.
fn number(bytes: &[u8]) -> &str
    ensures text { result.now ≡ take (number_len bytes.now) bytes.now }
    ensures len { length result.now ≡ number_len bytes.now }
{
    as_str(&bytes[..number_len(bytes)])
}

// The word bytes that the bytes begin with.
fn word(bytes: &[u8]) -> &str
    ensures text { result.now ≡ front is_word_byte bytes.now }
    ensures len { length result.now ≡ prefix_len is_word_byte bytes.now }
{
    as_str(&bytes[..word_len(bytes)])
}

fn mark_of(byte: u8) -> Option<Mark>
    ensures { result ≡ mark_of byte }
{
    match byte {
        b'(' => Some(Mark::OpenParenthesis),
        b')' => Some(Mark::CloseParenthesis),
        b'[' => Some(Mark::OpenBracket),
        b']' => Some(Mark::CloseBracket),
        b'{' => Some(Mark::OpenBrace),
        b'}' => Some(Mark::CloseBrace),
        b',' => Some(Mark::Comma),
        b'.' => Some(Mark::FullStop),
        b'|' => Some(Mark::Bar),
        b'~' => Some(Mark::Tilde),
        b'=' => Some(Mark::Equals),
        b':' | b'!' | b'?' | b'&' | b'@' | b'^' | b'<' | b'>' | b'*' | b'+' | b'-' | b'/' => {
            Some(Mark::Other)
        }
        _ => None,
    }
}

// A mark, or the offence of a byte that begins nothing.
fn mark(byte: u8) -> Lexeme<'static>
    ensures { lexeme_of result ≡ mark_lexeme (mark_of byte) }
{
    match mark_of(byte) {
        Some(mark) => Lexeme::Token(Token::Mark(mark)),
        None => Lexeme::Fault(CnfKind::BadByte),
    }
}

// What stands at the front of the bytes, which are the first and the rest.
fn lexeme_from<'a>(bytes: &'a [u8], first: u8, rest: &'a [u8]) -> (Lexeme<'a>, usize)
    requires { bytes.now ≡ first ∷ rest.now }
    ensures { (lexeme_of result.0, result.1) ≡ lexeme_from first rest.now }
{
    match first {
        b'\t'..=b'\r' | b' ' => (Lexeme::Gap, 1),
        b'%' => (Lexeme::Gap, 1 + line_len(rest)),
        b'/' if begins_with(rest, b'*') => block_comment(&rest[1..]),
        b'a'..=b'z' => {
            let word = word(bytes);
            (Lexeme::Token(Token::Lower(word)), word.len())
        }
        b'A'..=b'Z' => {
            let word = word(bytes);
            (Lexeme::Token(Token::Upper(word)), word.len())
        }
        _ if begins_number(bytes) => {
            let number = number(bytes);
            (Lexeme::Token(Token::Number(number)), number.len())
        }
        b'\'' => quoted_word(rest),
        b'"' => distinct_object(rest),
        b'$' => dollar_word(bytes),
        b'!' if begins_with(rest, b'=') => (Lexeme::Token(Token::Unequal), 2),
        _ => (mark(first), 1),
    }
}

/// What stands at the front of the bytes, and how many of them it has; nothing at the end of the
/// file. A token is as long as its form allows. A fault is given the length of its first byte, or
/// of both marks of a quoted word without characters.
pub fn lexeme_at(bytes: &[u8]) -> Option<(Lexeme<'_>, usize)>
    ensures lexeme { option_map (λ found. (lexeme_of found.0, found.1)) result
        ≡ lexeme_at bytes.now }
    ensures within { IfSome result (λ found. (0 < found.1) × (found.1 ≤ length bytes.now)) }
    ensures form { IfSome result (λ found. LexemeHasForm (lexeme_of found.0)) }
{
    let (first, rest) = bytes.split_first()?;
    Some(lexeme_from(bytes, *first, rest))
}

/// The place of the byte at this offset, or the place after the last byte.
pub fn place_at(bytes: &[u8], offset: usize) -> Place
    requires within { offset ≤ length bytes.now }
    requires small { length bytes.now < 2 ^ 32 - 1 }
    ensures line { result.line ≡ line_of (take offset bytes.now) }
    ensures column { result.column ≡ column_of (take offset bytes.now) }
{
    let before = &bytes[..offset];
    Place {
        line: 1 + line_ends(before) as u32,
        column: 1 + last_line_len(before) as u32,
    }
}

fn line_ends(bytes: &[u8]) -> usize
    ensures count { result ≡ length (filter is_line_end bytes.now) }
    ensures within { result ≤ length bytes.now }
{
    bytes.iter().filter(|byte| **byte == b'\n').count()
}

// How many bytes come after the last end of a line.
fn last_line_len(bytes: &[u8]) -> usize
    ensures len { result ≡ prefix_len (λ b. not (is_line_end b)) (reverse bytes.now) }
    ensures within { result ≤ length bytes.now }
{
    bytes
        .iter()
        .rev()
        .take_while(|byte| **byte != b'\n')
        .count()
}

// The bytes of characters, each `\` with the byte after it read as that byte.
fn unescape(alloc: Global, characters: &[u8]) -> Result<Vec<u8>, AllocError>
    ensures { IfOk result (λ text. text.items ≡ text_of characters.now) }
{
    let mut text = Vec::new(alloc);
    let mut rest = characters;
    'characters: while let Some((&byte, after)) = rest.split_first() {
        match after.split_first() {
            Some((&next, after)) if byte == b'\\' => {
                text.push(next)?;
                rest = after;
            }
            _ => {
                text.push(byte)?;
                rest = after;
            }
        }
    }
    Ok(text)
}

/// The text of the characters of a quoted word: `\'` and `\\` are read as `'` and `\`.
pub fn quoted_text(alloc: Global, characters: &str) -> Result<String, AllocError>
    requires { IsPrintable (text_of characters.now) }
    ensures { IfOk result (λ text. string_bytes text ≡ text_of characters.now) }
{
    let text = unescape(alloc, characters.as_bytes())?;
    Ok(String::from_utf8(text).unwrap())
}

#[cfg(test)]
mod tests {
    use super::*;
    use std::test::Fail;

    // The only lexeme of the text is this token.
    fn is_token(text: &str, token: Token<'_>) -> bool {
        lexeme_at(text.as_bytes()) == Some((Lexeme::Token(token), text.len()))
    }

    fn begins_with(text: &str, lexeme: Lexeme<'_>, len: usize) -> bool {
        lexeme_at(text.as_bytes()) == Some((lexeme, len))
    }

    fn fails(text: &str, kind: CnfKind) -> bool {
        match lexeme_at(text.as_bytes()) {
            Some((Lexeme::Fault(found), _)) => found == kind,
            _ => false,
        }
    }

    #[test]
    fn words(rt: HostRuntime) -> Result<(), Fail> {
        for word in ["a", "z", "aB_9", "cnf"] {
            assert!(rt; is_token(word, Token::Lower(word)));
        }
        for word in ["A", "Z", "X_y1"] {
            assert!(rt; is_token(word, Token::Upper(word)));
        }
        assert!(rt; begins_with("ab-c", Lexeme::Token(Token::Lower("ab")), 2));
        assert!(rt; begins_with("a$", Lexeme::Token(Token::Lower("a")), 1));
        assert!(rt; fails("_a", CnfKind::BadByte));
        Ok(())
    }

    #[test]
    fn numbers(rt: HostRuntime) -> Result<(), Fail> {
        for number in [
            "0", "007", "-1", "+12", "1.5e+3", "1/2", "-3/4E-05", "1e9", "1.25",
        ] {
            assert!(rt; is_token(number, Token::Number(number)));
        }
        for (text, number) in [
            ("1.", "1"),
            ("1e", "1"),
            ("1e+", "1"),
            ("1.e3", "1"),
            ("1.5.6", "1.5"),
            ("1/2/3", "1/2"),
            ("1/*", "1"),
            ("1.5e3e4", "1.5e3"),
            ("1-2", "1"),
            ("1a", "1"),
        ] {
            let lexeme = Lexeme::Token(Token::Number(number));
            assert!(rt; begins_with(text, lexeme, number.len()));
        }
        Ok(())
    }

    #[test]
    fn quotes(rt: HostRuntime) -> Result<(), Fail> {
        for (text, characters) in [
            ("'a'", "a"),
            (r"'it\'s'", r"it\'s"),
            (r"'\\'", r"\\"),
            (r#"' "~'"#, r#" "~"#),
        ] {
            assert!(rt; is_token(text, Token::Quoted(characters)));
        }
        for text in [r#""""#, r#""x\"y""#, r#""it's \\""#] {
            assert!(rt; is_token(text, Token::Distinct));
        }
        for text in [
            "''",
            r"'a\",
            r"'a\b'",
            "'a\n",
            "'a\tb'",
            r#"'\"'"#,
            r#""\'""#,
            "\"\u{7f}\"",
            "'é'",
            r#""a\"#,
        ] {
            assert!(rt; fails(text, CnfKind::BadToken));
        }
        for text in ["'", "'a", r"'a\'", "\"", r#""it's"#, r#""a\""#] {
            assert!(rt; fails(text, CnfKind::UnclosedQuote));
        }
        Ok(())
    }

    #[test]
    fn texts(rt: HostRuntime) -> Result<(), Fail> {
        for (characters, text) in [
            ("a", "a"),
            (r"it\'s", "it's"),
            (r"\\", r"\"),
            (r"\\\'", r"\'"),
            (r"a\\'b", r"a\'b"),
        ] {
            let found = quoted_text(rt.alloc(), characters)?;
            assert_eq!(rt; found.as_str(), text);
        }
        Ok(())
    }

    #[test]
    fn dollar_words_and_marks(rt: HostRuntime) -> Result<(), Fail> {
        for word in ["$true", "$$true", "$false", "$a_B1"] {
            assert!(rt; is_token(word, Token::Dollar(word)));
        }
        for text in ["$", "$ ", "$$", "$$$a", "$A", "$1"] {
            assert!(rt; fails(text, CnfKind::BadToken));
        }
        for (text, mark) in [
            ("(", Mark::OpenParenthesis),
            (")", Mark::CloseParenthesis),
            ("[", Mark::OpenBracket),
            ("]", Mark::CloseBracket),
            ("{", Mark::OpenBrace),
            ("}", Mark::CloseBrace),
            (",", Mark::Comma),
            (".", Mark::FullStop),
            ("|", Mark::Bar),
            ("~", Mark::Tilde),
            ("=", Mark::Equals),
            ("+", Mark::Other),
            ("-", Mark::Other),
            ("/", Mark::Other),
            ("!", Mark::Other),
        ] {
            assert!(rt; is_token(text, Token::Mark(mark)));
        }
        for other in [
            ":a", "!a", "?a", "&a", "@a", "^a", "<a", ">a", "*a", "+a", "-a", "/a", "! =",
        ] {
            assert!(rt; begins_with(other, Lexeme::Token(Token::Mark(Mark::Other)), 1));
        }
        assert!(rt; is_token("!=", Token::Unequal));
        Ok(())
    }

    #[test]
    fn gaps_and_faults(rt: HostRuntime) -> Result<(), Fail> {
        for (text, len) in [
            ("\t", 1),
            ("\n", 1),
            ("\u{b}", 1),
            ("\u{c}", 1),
            ("\r", 1),
            ("  ", 1),
            ("% to the line's end\na", 19),
            ("%", 1),
            ("% é \r%", 7),
            ("/**/a", 4),
            ("/***/a", 5),
            ("/*/*/ */", 5),
            ("/* \0 * / */", 11),
        ] {
            assert!(rt; begins_with(text, Lexeme::Gap, len));
        }
        for text in ["/*", "/*/", "/* *", "/* * /"] {
            assert!(rt; fails(text, CnfKind::UnclosedComment));
        }
        for text in ["\0", "\u{8}", "#", ";", "\\", "_", "`", "\u{7f}", "é"] {
            assert!(rt; fails(text, CnfKind::BadByte));
        }
        let found = lexeme_at(&[0x80]);
        assert!(rt; found == Some((Lexeme::Fault(CnfKind::BadByte), 1)));
        assert!(rt; lexeme_at(b"").is_none());
        Ok(())
    }

    // The place behind the text is this one.
    fn ends_at(text: &str, line: u32, column: u32) -> bool {
        text.len() < 100 && place_at(text.as_bytes(), text.len()) == Place { line, column }
    }

    #[test]
    fn places(rt: HostRuntime) -> Result<(), Fail> {
        for (text, line, column) in [
            ("", 1, 1),
            ("a", 1, 2),
            ("ab", 1, 3),
            ("ab\n", 2, 1),
            ("ab\n\t", 2, 2),
            ("ab\n\tc", 2, 3),
            ("ab\n\tc\r", 2, 4),
            ("ab\n\tc\r\n", 3, 1),
            ("ab\n\tc\r\n\n", 4, 1),
            ("ab\n\tc\r\n\né", 4, 3),
        ] {
            assert!(rt; ends_at(text, line, column));
        }
        let place = place_at(b"a\nbc", 3);
        assert_eq!(rt; place, Place { line: 2, column: 2 });
        Ok(())
    }
}
