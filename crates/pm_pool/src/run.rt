//! The search of a level by workers.
#![tactic(auto)]

ghost use Rattle.std.specs.Prelude.{◌≤◌, ◌^◌, All, IfOk, IfSome};
ghost use Rattle.std.specs.Thread.{IsSync};
ghost use Rattle.pm_book.specs.Always.{AlwaysHolds};
ghost use Rattle.pm_book.specs.Honest.{front_of, IsSettled};
ghost use Rattle.pm_book.specs.Steps.{IsReplay};
ghost use Rattle.pm_work.specs.Pieces.{IsHonestPiece, IsOneOf};
ghost use Rattle.pm_work.specs.Readings.{HasMisfit};
ghost use Rattle.pm_pool.specs.Level.{EndsLevel, IsEndOf};

use super::level::LevelRun;
use super::seat::{Post, Room, Seat, make_posts};
use super::settle::settle;
use pm_book::Book;
use pm_outside::Gate;
use pm_space::Maker;
use pm_work::{Piece, work};
use std::alloc::{AllocError, Global};
use std::sync::{Condvar, Mutex, Wait};
use std::thread::{Threads, join};

// What one worker does, and its pieces.
fn work_one<M: Maker, G: Gate, R: Wait>(
    rt: &R,
    alloc: Global,
    maker: &M,
    level: u32,
    gate: &G,
    budget: u64,
    room: &Room,
    post: Post,
) -> Vec<Piece>
    requires level { level ≤ 250 }
    requires budget { budget ≤ 10 ^ 12 }
    ensures { All (IsHonestPiece (M.key_at maker.now level)) result.items }
{
    let mut seat = Seat {
        rt,
        room,
        gate,
        post,
    };
    work(&mut seat, alloc, maker, level, budget)
}

// Starts a worker for each post, waits until all have ended, and answers their pieces.
#[cycle(workers)]
fn work_all<M: Maker + Sync, G: Gate + Sync, R: Threads + Wait + Sync>(
    rt: &R,
    alloc: Global,
    maker: &M,
    level: u32,
    gate: &G,
    budget: u64,
    room: &Room,
    posts: Vec<Post>,
) -> Result<Vec<Piece>, AllocError>
    requires level { level ≤ 250 }
    requires budget { budget ≤ 10 ^ 12 }
    ensures { IfOk result
        (λ pieces. All (IsHonestPiece (M.key_at maker.now level)) pieces.items) }
{
    let mut posts = posts;
    let Some(post) = posts.pop() else {
        return Ok(Vec::new(alloc));
    };
    let (mut mine, others) = join(
        rt,
        || -> Vec<Piece>
            requires { IsSync R.row × IsSync M.row × IsSync G.row × (level ≤ 250)
                × (budget ≤ 10 ^ 12) }
            ensures { All (IsHonestPiece (M.key_at maker.entry.now level)) result.items }
        { work_one(rt, alloc, maker, level, gate, budget, room, post) },
        || -> Result<Vec<Piece>, AllocError>
            requires { IsSync R.row × IsSync M.row × IsSync G.row × (level ≤ 250)
                × (budget ≤ 10 ^ 12) }
            ensures { IfOk result
                (λ v. All (IsHonestPiece (M.key_at maker.entry.now level)) v.items) }
        { work_all(rt, alloc, maker, level, gate, budget, room, posts) },
    );
    let mut all = others?;
    all.append(&mut mine)?;
    Ok(all)
}

/// Searches a level from 0 to 250 of a maker by 1 to 64 workers, with a budget of at most 10^12
/// attempts. The end is that of `run_level_alone`, whatever the schedule and the gate.
///
/// The workers share a task book and hand back the pieces that they searched. When they have ended,
/// the caller settles the book: it searches the rows that are left over, and reads the end from the
/// rows. A book with a row that is no piece is put aside, and the caller begins another.
pub fn run_level<M: Maker + Sync, G: Gate + Sync, R: Threads + Wait + Sync>(
    rt: &R,
    alloc: Global,
    maker: &M,
    level: u32,
    gate: &G,
    workers: u16,
    budget: u64,
) -> Result<LevelRun, AllocError>
    requires level { level ≤ 250 }
    requires budget { budget ≤ 10 ^ 12 }
    requires workers { (1 ≤ workers) × (workers ≤ 64) }
    ensures ends { IfOk result (λ run. EndsLevel (M.key_at maker.now level) budget run.end) }
    ensures honest { IfOk result
        (λ run. All (IsHonestPiece (M.key_at maker.now level)) run.pieces.items) }
    ensures book { IfOk result (λ run. IsReplay run.book × AlwaysHolds run.book) }
    ensures settled { IfOk result (λ run. IsSettled budget run.book) }
    ensures front { IfOk result
        (λ run. All (IsOneOf run.pieces.items run.book.best) (front_of run.book.rows)) }
    ensures read { IfOk result (λ run. IsEndOf budget run.book run.end) }
    ensures aside { IfOk result (λ run. IfSome run.aside
        (λ aside. HasMisfit aside.pieces.items aside.book)) }
{
    let posts = make_posts(alloc, workers)?;
    let room = Room {
        book: Mutex::new(Book::new(alloc, budget)?),
        changed: Condvar::new(),
    };
    let pieces = work_all(rt, alloc, maker, level, gate, budget, &room, posts)?;
    let Room { book, .. } = room;
    settle(
        alloc,
        maker,
        level,
        workers,
        budget,
        book.into_inner(),
        pieces,
    )
}
