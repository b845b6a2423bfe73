//! Tokens of clause files, and what stands between them.

use crate::offence::CnfKind;

/// A mark. All but the first eleven stand in annotations only.
#[derive(Clone, Copy, Debug, PartialEq, Eq)]
pub enum Mark {
    OpenParenthesis,
    CloseParenthesis,
    OpenBracket,
    CloseBracket,
    OpenBrace,
    CloseBrace,
    Comma,
    FullStop,
    Bar,
    Tilde,
    Equals,
    Other,
}

/// A token, with its bytes where they matter.
#[derive(Clone, Copy, Debug, PartialEq, Eq)]
pub enum Token<'a> {
    /// A letter from a to z with the letters, digits and underscores after it.
    Lower(&'a str),
    /// A letter from A to Z with the letters, digits and underscores after it.
    Upper(&'a str),
    /// A number of any form.
    Number(&'a str),
    /// A quoted word: what stands between its marks, as it is written.
    Quoted(&'a str),
    /// A distinct object.
    Distinct,
    /// One or two dollar signs with a lower word after them.
    Dollar(&'a str),
    /// The token `!=`.
    Unequal,
    Mark(Mark),
}

/// What stands at the front of bytes.
#[derive(Clone, Copy, Debug, PartialEq, Eq)]
pub enum Lexeme<'a> {
    /// A blank or a comment.
    Gap,
    Token(Token<'a>),
    /// Neither: the offence of bytes that no token begins with.
    Fault(CnfKind),
}
