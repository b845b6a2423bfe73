//! The header.
ghost use Rattle.std.specs.Prelude.{◌≡◌, ◌+◌, ◌↔◌, IfOk, IfErr, IsTrue, length};
ghost use Rattle.pm_logic.specs.Problem.{Problem};
ghost use Rattle.pm_certread.specs.Lines.{cut_lines};
ghost use Rattle.pm_certread.specs.Reading.{heading, terms, no_terms};
ghost use Rattle.pm_certread.specs.Inside.Progress.{Continues, RefusesFrom};
ghost use Rattle.pm_certread.specs.Inside.Cuts.{bytes_of};
ghost use Rattle.pm_certread.specs.Inside.Head.{IsHeaderLine, header_of, ReadsBound, ReadsBounded, ReadsClass, ReadsCounts, ReadsDepth, ReadsFront, ReadsHeader, ReadsSize, ReadsStart, ReadsVersion};

use crate::error::{CertError, CertKind};
use crate::lines::Lines;
use crate::words::{is, line_words, number};
use pm_logic::{BoundKind, Class, Start};
use std::alloc::{AllocError, Global};

/// What the header says: the search, the size under its bound, and how many term lines and node
/// lines follow.
#[derive(Clone, Copy, Debug)]
pub struct Header {
    pub class: Class,
    pub start: Start,
    pub bound: BoundKind,
    pub size: u64,
    pub terms: u64,
    pub nodes: u64,
}

// The version of a certificate.
#[derive(Clone, Copy, Debug)]
enum Version {
    First,
    Second,
}

// What a header begins with.
#[derive(Clone, Copy, Debug)]
struct Front {
    version: Version,
    class: Class,
    start: Start,
}

// The size and what it is of.
#[derive(Clone, Copy, Debug)]
struct Size {
    bound: BoundKind,
    size: u64,
}

// How many term lines and node lines follow.
#[derive(Clone, Copy, Debug)]
struct Counts {
    terms: u64,
    nodes: u64,
}

// The class of this word.
fn class_of(word: &[u8]) -> Option<Class>
    ensures { ReadsClass word.now result }
{
    if is(word, "plain") {
        return Some(Class::Plain);
    }
    if is(word, "regular") {
        return Some(Class::Regular);
    }
    None
}

// The start rule of this word.
fn start_of(word: &[u8]) -> Option<Start>
    ensures { ReadsStart word.now result }
{
    if is(word, "negative") {
        return Some(Start::Negative);
    }
    if is(word, "all") {
        return Some(Start::All);
    }
    if is(word, "goal") {
        return Some(Start::Goal);
    }
    None
}

// The bound of this word.
fn bound_of(word: &[u8]) -> Option<BoundKind>
    ensures { ReadsBound word.now result }
{
    if is(word, "depth") {
        return Some(BoundKind::Depth);
    }
    if is(word, "inferences") {
        return Some(BoundKind::Inferences);
    }
    None
}

// The version of this word.
fn version_of(word: &[u8]) -> Option<Version>
    ensures { ReadsVersion word.now result }
{
    if is(word, "1") {
        return Some(Version::First);
    }
    if is(word, "2") {
        return Some(Version::Second);
    }
    None
}

// What the words `parmel V class C start S` say.
fn front_of(words: &[&[u8]]) -> Option<Front>
    ensures { ReadsFront (bytes_of words.now) result }
{
    let [mark, version, class_mark, class, start_mark, start] = words else {
        return None;
    };
    if !is(mark, "parmel") {
        return None;
    }
    if !is(class_mark, "class") {
        return None;
    }
    if !is(start_mark, "start") {
        return None;
    }
    match (version_of(version), class_of(class), start_of(start)) {
        (Some(version), Some(class), Some(start)) => Some(Front {
            version,
            class,
            start,
        }),
        _ => None,
    }
}

// The counts of the words `terms T nodes M`.
fn counts_of(words: &[&[u8]]) -> Option<Counts>
    ensures { ReadsCounts (bytes_of words.now) result }
{
    let [mark, terms, other, nodes] = words else {
        return None;
    };
    if !is(mark, "terms") {
        return None;
    }
    if !is(other, "nodes") {
        return None;
    }
    match (number(terms), number(nodes)) {
        (Some(terms), Some(nodes)) => Some(Counts { terms, nodes }),
        _ => None,
    }
}

// The size of the words `depth D`.
fn depth_of(words: &[&[u8]]) -> Option<u64>
    ensures { ReadsDepth (bytes_of words.now) result }
{
    let [mark, size] = words else {
        return None;
    };
    if !is(mark, "depth") {
        return None;
    }
    number(size)
}

// The size of the words `bound B size N`.
fn bounded_of(words: &[&[u8]]) -> Option<Size>
    ensures { ReadsBounded (bytes_of words.now) result }
{
    let [mark, bound, other, size] = words else {
        return None;
    };
    if !is(mark, "bound") {
        return None;
    }
    if !is(other, "size") {
        return None;
    }
    match (bound_of(bound), number(size)) {
        (Some(bound), Some(size)) => Some(Size { bound, size }),
        _ => None,
    }
}

// The size of the words between the front and the counts.
fn size_of(version: Version, words: &[&[u8]]) -> Option<Size>
    ensures { ReadsSize version (bytes_of words.now) result }
{
    match version {
        Version::First => match depth_of(words) {
            Some(size) => Some(Size {
                bound: BoundKind::Depth,
                size,
            }),
            None => None,
        },
        Version::Second => bounded_of(words),
    }
}

// What the words of a header say.
fn header_of(words: &[&[u8]]) -> Option<Header>
    ensures { ReadsHeader (bytes_of words.now) result }
{
    if words.len() < 10 {
        return None;
    }
    let (front, rest) = words.split_at(6);
    let (size, counts) = rest.split_at(rest.len() - 4);
    let Some(front) = front_of(front) else {
        return None;
    };
    let Some(size) = size_of(front.version, size) else {
        return None;
    };
    let Some(counts) = counts_of(counts) else {
        return None;
    };
    Some(Header {
        class: front.class,
        start: front.start,
        bound: size.bound,
        size: size.size,
        terms: counts.terms,
        nodes: counts.nodes,
    })
}

// What the line says, if it is a header.
fn header_line(alloc: Global, raw: &[u8]) -> Result<Option<Header>, AllocError>
    ensures { IfOk result (IsHeaderLine raw.now) }
{
    let Some(words) = line_words(alloc, raw)? else {
        return Ok(None);
    };
    Ok(header_of(&words))
}

// Whether the lines after the header are as many as it says: the term lines, the root's, the node
// lines and the last.
fn agrees(header: &Header, after: u64) -> bool
    ensures { IsTrue result ↔ (after ≡ header.now.terms + header.now.nodes + 2) }
{
    header.terms <= after
        && header.nodes <= after - header.terms
        && after - header.terms - header.nodes == 2
}

/// Takes the header.
pub fn read_header(alloc: Global, lines: &mut Lines) -> Result<Header, CertError>
    ensures ok { IfOk result (λ header. (over : Problem) → Continues over heading lines.old
        (terms (record { header = header_of header; line = lines.new.taken }) no_terms) lines.new) }
    ensures err { IfErr result
        (λ error. (over : Problem) → RefusesFrom over heading lines.old error) }
{
    let raw = lines.take()?;
    let Some(header) = header_line(alloc, raw)? else {
        return Err(lines.refusal(CertKind::Syntax));
    };
    if !agrees(&header, lines.count()) {
        return Err(lines.refusal(CertKind::Counts));
    }
    Ok(header)
}
