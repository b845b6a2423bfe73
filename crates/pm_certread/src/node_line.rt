//! Node lines.
ghost use Rattle.std.specs.Prelude.{◌≡◌, IfOk};
ghost use Rattle.pm_certread.specs.Inside.Cuts.{bytes_of};
ghost use Rattle.pm_certread.specs.Inside.Nodes.{IsNodeLine, ReadsEnding, ReadsFront, ReadsNode, ReadsPredicate, ReadsSign};

use crate::words::{is, line_words, number, numbers, word_text};
use pm_logic::Kind;
use std::alloc::{AllocError, Global};

/// How a node's line ends: with the depth of the ancestor that closes the leaf, or with the clause
/// of an inner node.
#[derive(Clone, Copy, Debug)]
pub enum Ending {
    ClosedBy(u64),
    ExtendedBy(u64),
}

/// What the line of a node says: its literal's arguments by the numbers of their term lines.
#[derive(Debug, Drop)]
pub struct NodeLine {
    pub depth: u64,
    pub positive: bool,
    pub kind: Kind,
    pub text: String,
    pub numbers: Vec<u64>,
    pub ending: Ending,
}

// The symbol of a literal, by its kind and text.
#[derive(Debug, Drop)]
struct PredicateWord {
    kind: Kind,
    text: String,
}

// What a node's line begins with.
#[derive(Debug, Drop)]
struct Front {
    depth: u64,
    positive: bool,
    kind: Kind,
    text: String,
}

// Whether the literal of this sign is positive.
fn sign_of(word: &[u8]) -> Option<bool>
    ensures { ReadsSign word.now result }
{
    if is(word, "+") {
        return Some(true);
    }
    if is(word, "-") {
        return Some(false);
    }
    None
}

// The symbol that the word stands for before a literal's arguments.
fn predicate_of(alloc: Global, word: &[u8]) -> Result<Option<PredicateWord>, AllocError>
    ensures { IfOk result (ReadsPredicate word.now) }
{
    if is(word, "=") {
        return Ok(Some(PredicateWord {
            kind: Kind::Equality,
            text: String::from_str(alloc, "=")?,
        }));
    }
    let Some(text) = word_text(alloc, word)? else {
        return Ok(None);
    };
    Ok(Some(PredicateWord {
        kind: Kind::Predicate,
        text,
    }))
}

// What the depth, the sign and the predicate say.
fn front_of(alloc: Global, words: &[&[u8]]) -> Result<Option<Front>, AllocError>
    ensures { IfOk result (ReadsFront (bytes_of words.now)) }
{
    let [depth, sign, predicate] = words else {
        return Ok(None);
    };
    let Some(depth) = number(depth) else {
        return Ok(None);
    };
    let Some(positive) = sign_of(sign) else {
        return Ok(None);
    };
    let Some(predicate) = predicate_of(alloc, predicate)? else {
        return Ok(None);
    };
    Ok(Some(Front {
        depth,
        positive,
        kind: predicate.kind,
        text: predicate.text,
    }))
}

// How the line ends, by its last two words.
fn ending_of(words: &[&[u8]]) -> Option<Ending>
    ensures { ReadsEnding (bytes_of words.now) result }
{
    let [mark, last] = words else {
        return None;
    };
    let Some(last) = number(last) else {
        return None;
    };
    if is(mark, "close") {
        return Some(Ending::ClosedBy(last));
    }
    if is(mark, "extend") {
        return Some(Ending::ExtendedBy(last));
    }
    None
}

// What the words of a node's line say.
fn node_words(alloc: Global, words: &[&[u8]]) -> Result<Option<NodeLine>, AllocError>
    ensures { IfOk result (ReadsNode (bytes_of words.now)) }
{
    if words.len() < 5 {
        return Ok(None);
    }
    let (front, rest) = words.split_at(3);
    let (args, ending) = rest.split_at(rest.len() - 2);
    let Some(ending) = ending_of(ending) else {
        return Ok(None);
    };
    let Some(front) = front_of(alloc, front)? else {
        return Ok(None);
    };
    let Some(numbers) = numbers(alloc, args)? else {
        return Ok(None);
    };
    Ok(Some(NodeLine {
        depth: front.depth,
        positive: front.positive,
        kind: front.kind,
        text: front.text,
        numbers,
        ending,
    }))
}

/// What the line says, if it is a node's.
pub fn node_line(alloc: Global, raw: &[u8]) -> Result<Option<NodeLine>, AllocError>
    ensures { IfOk result (IsNodeLine raw.now) }
{
    let Some(words) = line_words(alloc, raw)? else {
        return Ok(None);
    };
    node_words(alloc, &words)
}
