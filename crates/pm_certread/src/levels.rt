//! The status and the levels, which stand before the header.
ghost use Rattle.std.specs.Prelude.{◌≡◌, ◌≢◌, IfOk, IfErr, IfSome, IfNone, OnOk};
ghost use Rattle.pm_logic.specs.Problem.{Problem};
ghost use Rattle.pm_certread.specs.Reading.{opening, heading};
ghost use Rattle.pm_certread.specs.Inside.Progress.{Continues, RefusesFrom};
ghost use Rattle.pm_certread.specs.Inside.Cuts.{bytes_of};
ghost use Rattle.pm_certread.specs.Inside.Head.{IsLevelLine, ReadsLevel, kind_word};

use crate::error::{CertError, CertKind};
use crate::lines::Lines;
use crate::words::{is, line_words, number};
use std::alloc::{AllocError, Global};

// How the search of a level ended.
#[derive(Clone, Copy, Debug, PartialEq, Eq)]
enum Level {
    Exhausted,
    Proved,
}

// What a level's line says.
#[derive(Clone, Copy, Debug)]
struct LevelLine {
    kind: Level,
    level: u64,
    work: u64,
}

// How a level ended, by its word.
fn level_kind(word: &[u8]) -> Option<Level>
    ensures some { IfSome result (λ kind. word.now ≡ kind_word kind) }
    ensures none { IfNone result ((kind : Level) → word.now ≢ kind_word kind) }
{
    if is(word, "exhausted") {
        return Some(Level::Exhausted);
    }
    if is(word, "proof") {
        return Some(Level::Proved);
    }
    None
}

// What the words of a level's line say.
fn level_line(words: &[&[u8]]) -> Option<LevelLine>
    ensures { ReadsLevel (bytes_of words.now) result }
{
    let [mark, level, kind, attempts, work] = words else {
        return None;
    };
    if !is(mark, "level") {
        return None;
    }
    if !is(attempts, "attempts") {
        return None;
    }
    let Some(kind) = level_kind(kind) else {
        return None;
    };
    match (number(level), number(work)) {
        (Some(level), Some(work)) => Some(LevelLine { kind, level, work }),
        _ => None,
    }
}

// How this level ended, if the line is its line.
fn read_level(alloc: Global, raw: &[u8], level: u64) -> Result<Option<Level>, AllocError>
    ensures { IfOk result (IsLevelLine raw.now level) }
{
    let Some(words) = line_words(alloc, raw)? else {
        return Ok(None);
    };
    let Some(line) = level_line(&words) else {
        return Ok(None);
    };
    if line.level != level {
        return Ok(None);
    }
    Ok(Some(line.kind))
}

/// Takes the lines before the header: the status and the levels.
pub fn read_levels(alloc: Global, lines: &mut Lines) -> Result<(), CertError>
    ensures ok { OnOk result
        ((over : Problem) → Continues over opening lines.old heading lines.new) }
    ensures err { IfErr result
        (λ error. (over : Problem) → RefusesFrom over opening lines.old error) }
{
    let status = lines.take()?;
    if !is(status, "% SZS status Unsatisfiable\n") {
        return Err(lines.refusal(CertKind::Syntax));
    }
    let mut level = 0;
    'levels: loop {
        let raw = lines.take()?;
        match read_level(alloc, raw, level)? {
            Some(Level::Exhausted) => level += 1,
            Some(Level::Proved) => return Ok(()),
            None => return Err(lines.refusal(CertKind::Syntax)),
        }
    }
}
