//! The loop of a worker over its rows, and the search of one row by the caller.
#![tactic(auto)]

ghost use Rattle.std.specs.Prelude.{◌≡◌, ◌+◌, ◌<◌, ◌≤◌, ◌^◌, false, All, IfOk, OnErr, vec_len, vec_capacity};
ghost use Rattle.pm_space.specs.Key.{Agree};
ghost use Rattle.pm_book.specs.Answers.{IsQueuedAt};
ghost use Rattle.pm_work.specs.Pieces.{IsHonestPiece};
ghost use Rattle.pm_work.specs.Inside.Tasks.{IsHeld, IsSearching, IsWithinBudget};

use super::desk::{Desk, Look, Owner};
use super::piece::Piece;
use super::task::{Task, leave, search_on, task_of};
use pm_book::{Book, Claimed, Ticket};
use pm_choice::{Bound, Choices};
use pm_space::{Maker, Space};
use std::alloc::{AllocError, Global};

// The attempts that a worker makes between two looks at the book.
const SLICE: u64 = 4_096;

// The attempts after which a worker gives its row back and takes another, where they are also a
// thousandth of the budget: so what the book has as spent doesn't stay far behind what was worked.
const LONG: u64 = 262_144;

const PARTS: u64 = 1_000;

// What a worker does after a slice.
enum Next {
    // It searches its row on.
    GoOn,
    // It leaves its row and takes another.
    TakeAnother,
    // It leaves its row and ends.
    End,
}

// Whether the work that is spent, and as much more, exceed the budget.
fn exceeds(look: &Look, done: u64, budget: u64) -> bool
    ensures { (result ≡ false) → done ≤ budget }
{
    let budget = u128::from(budget);
    look.spent > budget || u128::from(done) > budget - look.spent
}

// Whether so many attempts in one row are enough for now.
fn is_long(done: u64, budget: u64) -> bool {
    done >= LONG && done >= budget / PARTS
}

// Splits a task's row where the rest of its interval may be cut off.
fn share<S: Space, D: Desk>(desk: &mut D, task: &mut Task<S>) -> Result<(), AllocError>
    requires held { IsHeld (S.key task.old.search.space)
        task.old.ticket task.old.from task.old.to task.old.at task.old.done }
    requires searching { IsSearching task.old.ticket task.old.search }
    requires next { task.old.at ≡ task.old.search.next }
    ensures held { IsHeld (S.key task.new.search.space)
        task.new.ticket task.new.from task.new.to task.new.at task.new.done }
    ensures searching { IsSearching task.new.ticket task.new.search }
    ensures worked { task.new.search.worked ≡ task.old.search.worked }
    ensures space { task.new.search.space ≡ task.old.search.space }
{
    let Some(mid) = task.search.cut()? else {
        return Ok(());
    };
    let end = mid.copy()?;
    if desk.split(&mut task.ticket, mid.as_slice())? {
        task.search.shorten(mid);
        task.to = Bound::At(end);
    }
    Ok(())
}

// Looks at the book after a slice, and splits the task's row where rows are wanted.
fn after_slice<S: Space, D: Desk>(desk: &mut D, task: &mut Task<S>, budget: u64) -> Next
    requires held { IsHeld (S.key task.old.search.space)
        task.old.ticket task.old.from task.old.to task.old.at task.old.done }
    requires searching { IsSearching task.old.ticket task.old.search }
    requires next { task.old.at ≡ task.old.search.next }
    requires done { task.old.done ≡ task.old.search.worked }
    ensures held { IsHeld (S.key task.new.search.space)
        task.new.ticket task.new.from task.new.to task.new.at task.new.done }
    ensures searching { IsSearching task.new.ticket task.new.search }
    ensures budget { IsWithinBudget budget task.new.search.worked result }
    ensures worked { task.new.search.worked ≡ task.old.search.worked }
    ensures space { task.new.search.space ≡ task.old.search.space }
{
    let look = desk.look(&task.ticket);
    if !look.wanted {
        return Next::TakeAnother;
    }
    if exceeds(&look, task.done, budget) {
        return Next::End;
    }
    if is_long(task.done, budget) {
        return Next::TakeAnother;
    }
    if look.hungry && share(desk, task).is_err() {
        return Next::End;
    }
    Next::GoOn
}

// Searches a task's row to its end, in slices. False where the worker is to end.
fn work_row<S: Space, D: Desk>(
    desk: &mut D,
    task: Task<S>,
    pieces: &mut Vec<Piece>,
    budget: u64,
) -> bool
    requires held { IsHeld (S.key task.search.space)
        task.ticket task.from task.to task.at task.done }
    requires searching { IsSearching task.ticket task.search }
    requires fresh { task.search.worked ≡ 0 }
    requires budget { budget ≤ 10 ^ 12 }
    requires room { vec_len pieces.old < vec_capacity pieces.old }
    requires honest { All (IsHonestPiece (S.key task.search.space)) pieces.old.items }
    ensures { All (IsHonestPiece (S.key task.search.space)) pieces.new.items }
{
    let mut task = task;
    'slices: loop {
        match search_on(desk, task, SLICE, pieces) {
            Err(_) => return false,
            Ok(None) => return true,
            Ok(Some(rest)) => task = rest,
        }
        match after_slice(desk, &mut task, budget) {
            Next::GoOn => {}
            Next::TakeAnother => {
                leave(desk, task, pieces);
                return true;
            }
            Next::End => {
                leave(desk, task, pieces);
                return false;
            }
        }
    }
}

// Searches a ticket's row. False where the worker is to end.
fn work_ticket<M: Maker, D: Desk>(
    desk: &mut D,
    alloc: Global,
    maker: &M,
    level: u32,
    ticket: Ticket,
    pieces: &mut Vec<Piece>,
    budget: u64,
) -> bool
    requires level { level ≤ 250 }
    requires budget { budget ≤ 10 ^ 12 }
    requires room { vec_len pieces.old < vec_capacity pieces.old }
    requires honest { All (IsHonestPiece (M.key_at maker.now level)) pieces.old.items }
    ensures { All (IsHonestPiece (M.key_at maker.now level)) pieces.new.items }
{
    match task_of(alloc, maker, level, ticket) {
        Ok(task) => work_row(desk, task, pieces, budget),
        Err(ticket) => {
            let _from = ticket.from();
            desk.give_back(ticket, None, 0);
            false
        }
    }
}

/// What a worker does: it searches the rows that its desk gives it until the desk has none, the
/// budget is exceeded or memory is short, and answers its pieces.
pub fn work<M: Maker, D: Desk>(
    desk: &mut D,
    alloc: Global,
    maker: &M,
    level: u32,
    budget: u64,
) -> Vec<Piece>
    requires level { level ≤ 250 }
    requires budget { budget ≤ 10 ^ 12 }
    ensures { All (IsHonestPiece (M.key_at maker.now level)) result.items }
{
    let mut pieces = Vec::new(alloc);
    'rows: for _ in 0..u64::MAX {
        // The room for a row's piece is taken before the row is.
        if pieces.reserve(1).is_err() {
            break;
        }
        match desk.next() {
            Ok(Some(ticket)) => {
                if !work_ticket(desk, alloc, maker, level, ticket, &mut pieces, budget) {
                    break;
                }
            }
            Ok(None) => break,
            Err(_) => break,
        }
    }
    pieces
}

/// Searches the Queued row of this number as worker `worker`, with at most `fuel` attempts, ends it
/// in the book, and adds its piece. After want of memory the book may hold the row Running.
pub fn search_row<M: Maker>(
    alloc: Global,
    maker: &M,
    level: u32,
    worker: u16,
    row: u64,
    fuel: u64,
    book: &mut Book,
    pieces: &mut Vec<Piece>,
) -> Result<(), AllocError>
    requires level { level ≤ 250 }
    requires row { IsQueuedAt book.old row }
    requires fuel { (0 < fuel) × (fuel ≤ 2 ^ 63) }
    requires honest { All (IsHonestPiece (M.key_at maker.now level)) pieces.old.items }
    ensures { All (IsHonestPiece (M.key_at maker.now level)) pieces.new.items }
{
    pieces.reserve(1)?;
    let ticket = match book.claim(row, worker)? {
        Claimed::Task(ticket) => ticket,
        Claimed::Gone => unreachable!(),
    };
    match task_of(alloc, maker, level, ticket) {
        Ok(task) => {
            let mut owner = Owner {
                book,
                worker,
                workers: 0,
            };
            search_task(&mut owner, task, fuel, pieces)
        }
        Err(ticket) => {
            ticket.discard();
            Err(AllocError)
        }
    }
}

// Searches a task's row once, and gives it back where the search pauses.
fn search_task<S: Space, D: Desk>(
    desk: &mut D,
    task: Task<S>,
    fuel: u64,
    pieces: &mut Vec<Piece>,
) -> Result<(), AllocError>
    requires held { IsHeld (S.key task.search.space)
        task.ticket task.from task.to task.at task.done }
    requires searching { IsSearching task.ticket task.search }
    requires fresh { task.search.worked ≡ 0 }
    requires fuel { (0 < fuel) × (fuel ≤ 2 ^ 63) }
    requires room { vec_len pieces.old < vec_capacity pieces.old }
    requires honest { All (IsHonestPiece (S.key task.search.space)) pieces.old.items }
    ensures { All (IsHonestPiece (S.key task.search.space)) pieces.new.items }
{
    match search_on(desk, task, fuel, pieces) {
        Err(error) => Err(error),
        Ok(None) => Ok(()),
        Ok(Some(rest)) => {
            if leave(desk, rest, pieces) {
                Ok(())
            } else {
                Err(AllocError)
            }
        }
    }
}
