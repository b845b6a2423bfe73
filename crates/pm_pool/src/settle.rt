//! How the caller settles the task book of a level.
#![tactic(auto)]

ghost use Rattle.std.specs.Prelude.{◌≡◌, ◌↔◌, ◌+◌, ◌≤◌, ◌^◌, min, IsTrue, All, IfOk, IfSome};
ghost use Rattle.pm_book.specs.Always.{AlwaysHolds};
ghost use Rattle.pm_book.specs.Honest.{front_of, front_work, EndsFound, IsSettled};
ghost use Rattle.pm_book.specs.Steps.{IsReplay};
ghost use Rattle.pm_work.specs.Pieces.{IsHonestPiece, IsOneOf};
ghost use Rattle.pm_work.specs.Readings.{HasMisfit};
ghost use Rattle.pm_pool.specs.Level.{EndsLevel, IsEndOf};

use super::level::{Aside, LevelEnd, LevelRun};
use pm_book::Book;
use pm_choice::Choices;
use pm_space::Maker;
use pm_work::{Piece, Reading, read_front, search_row, sort_pieces};
use std::alloc::{AllocError, Global};

// The end of a level, read from a settled book: its front has so much work, up to one more than the
// budget, and its last row was found or not.
fn end_of(
    alloc: Global,
    book: &Book,
    work: u64,
    found: bool,
    budget: u64,
) -> Result<LevelEnd, AllocError>
    requires always { AlwaysHolds book.now }
    requires work { work ≡ min (budget + 1) (front_work book.now) }
    requires found { IsTrue found ↔ EndsFound (front_of book.now.rows) }
    ensures { IfOk result (IsEndOf budget book.now) }
{
    if work > budget {
        return Ok(LevelEnd::Over);
    }
    if !found {
        return Ok(LevelEnd::Exhausted { work });
    }
    match book.best() {
        Some(path) => {
            let path = Choices::from_slice(alloc, path)?;
            Ok(LevelEnd::Found { path, work })
        }
        None => unreachable!(),
    }
}

/// Settles the book of a level as worker number `workers`, beside pieces that are honest for the
/// level. A row that is left over is searched; where a row fits no piece, the book is put aside and
/// another begun.
pub fn settle<M: Maker>(
    alloc: Global,
    maker: &M,
    level: u32,
    workers: u16,
    budget: u64,
    book: Book,
    pieces: Vec<Piece>,
) -> Result<LevelRun, AllocError>
    requires level { level ≤ 250 }
    requires budget { budget ≤ 10 ^ 12 }
    requires honest { All (IsHonestPiece (M.key_at maker.now level)) pieces.items }
    ensures ends { IfOk result (λ run. EndsLevel (M.key_at maker.now level) budget run.end) }
    ensures honest { IfOk result
        (λ run. All (IsHonestPiece (M.key_at maker.now level)) run.pieces.items) }
    ensures book { IfOk result (λ run. IsReplay run.book × AlwaysHolds run.book) }
    ensures settled { IfOk result (λ run. IsSettled budget run.book) }
    ensures front { IfOk result
        (λ run. All (IsOneOf run.pieces.items run.book.best) (front_of run.book.rows)) }
    ensures read { IfOk result (λ run. IsEndOf budget run.book run.end) }
    ensures aside { IfOk result (λ run. IfSome run.aside
        (λ aside. HasMisfit aside.pieces.items aside.book)) }
{
    let mut book = book;
    let mut pieces = pieces;
    let mut aside = None;
    'rows: for _ in 0..u64::MAX {
        sort_pieces(&mut pieces);
        match read_front(&book, &pieces, budget) {
            Reading::Settled { work, found } => {
                let end = end_of(alloc, &book, work, found, budget)?;
                let _events = book.events();
                return Ok(LevelRun {
                    end,
                    book,
                    pieces,
                    aside,
                });
            }
            Reading::Queued { row, work } => {
                // One attempt more than the budget allows shows that it is exceeded.
                let fuel = budget - work + 1;
                search_row(
                    alloc,
                    maker,
                    level,
                    workers,
                    row,
                    fuel,
                    &mut book,
                    &mut pieces,
                )?;
            }
            Reading::Stuck => {
                aside = Some(Aside { book, pieces });
                book = Book::new(alloc, budget)?;
                pieces = Vec::new(alloc);
            }
        }
    }
    // So many rows are never searched.
    Err(AllocError)
}
