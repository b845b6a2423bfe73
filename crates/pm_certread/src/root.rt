//! The root's line.
ghost use Rattle.std.specs.Prelude.{◌≡◌, ◌+◌, ◌<◌, ◌≤◌, IfOk, IfErr, OnOk, length};
ghost use Rattle.pm_certread.specs.Reading.{Head, TermLines, no_nodes, nodes, terms};
ghost use Rattle.pm_certread.specs.Inside.Cuts.{bytes_of};
ghost use Rattle.pm_certread.specs.Inside.Progress.{Continues, RefusesFrom};
ghost use Rattle.pm_certread.specs.Inside.Terms.{IsRootLine, ReadsRoot};

use crate::error::{CertError, CertKind};
use crate::lines::Lines;
use crate::words::{is, line_words, number};
use pm_logic::Problem;
use std::alloc::{AllocError, Global};

// The clause that the words of the root's line name.
fn root_words(words: &[&[u8]]) -> Option<u64>
    ensures { ReadsRoot (bytes_of words.now) result }
{
    let [mark, clause] = words else {
        return None;
    };
    if !is(mark, "root") {
        return None;
    }
    number(clause)
}

// The clause that the line names, if it is the root's.
fn root_line(alloc: Global, raw: &[u8]) -> Result<Option<u64>, AllocError>
    ensures { IfOk result (IsRootLine raw.now) }
{
    let Some(words) = line_words(alloc, raw)? else {
        return Ok(None);
    };
    Ok(root_words(&words))
}

/// Takes the root's line, and gives the index of its clause.
pub fn read_root(alloc: Global, problem: &Problem, lines: &mut Lines) -> Result<u32, CertError>
    ensures ok { IfOk result (λ clause. (head : Head) (given : TermLines)
        → head.header.terms ≤ length given.each
        → Continues problem.now (terms head given) lines.old
        (nodes head given (no_nodes clause)) lines.new) }
    ensures taken { OnOk result (lines.new.taken ≡ lines.old.taken + 1) }
    ensures err { IfErr result (λ error. (head : Head) (given : TermLines)
        → head.header.terms ≤ length given.each
        → RefusesFrom problem.now (terms head given) lines.old error) }
{
    let raw = lines.take()?;
    let Some(clause) = root_line(alloc, raw)? else {
        return Err(lines.refusal(CertKind::Syntax));
    };
    if u64::from(problem.clauses()) <= clause {
        return Err(lines.refusal(CertKind::ClauseRange));
    }
    Ok(clause as u32)
}
