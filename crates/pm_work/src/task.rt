//! A row that is being searched, and its ends.
#![tactic(auto)]

ghost use Rattle.std.specs.Prelude.{◌≡◌, ◌↔◌, ◌+◌, ◌<◌, ◌≤◌, ◌^◌, IsTrue, true, false, None, Some, [], ◌∷◌, ◌++◌, All, IfOk, IfSome, OnErr, MatchBool, vec_len, vec_capacity};
ghost use Rattle.pm_space.specs.Key.{Agree};
ghost use Rattle.pm_choice.specs.Order.{PrecedesBound, IsWithin};
ghost use Rattle.pm_choice.specs.Entries.{Closes, Finds};
ghost use Rattle.pm_search.specs.Attempts.{attempts_of};
ghost use Rattle.pm_work.specs.Pieces.{IsHonestPiece};
ghost use Rattle.pm_work.specs.Inside.Tasks.{IsHeld, IsSearching, IsPaused};

use super::desk::Desk;
use super::piece::Piece;
use pm_book::Ticket;
use pm_choice::{Bound, Choices};
use pm_search::{Search, Turn};
use pm_space::{Maker, Space};
use std::alloc::{AllocError, Global};

/// A row that is being searched.
pub struct Task<S: Space> {
    pub ticket: Ticket,
    pub search: Search<S>,
    /// The ends of the ticket, for the piece that the row will be.
    pub from: Choices,
    pub to: Bound,
    /// Where the search paused last.
    pub at: Option<Choices>,
    /// The number of attempts up to there.
    pub done: u64,
}

// A search of a ticket's interval, and the ends of the interval.
fn begin<M: Maker>(
    alloc: Global,
    maker: &M,
    level: u32,
    ticket: &Ticket,
) -> Result<(Search<M::Made>, Choices, Bound), AllocError>
    requires { level ≤ 250 }
    ensures held { IfOk result (λ begun.
        IsHeld (M.Made.key begun.0.space) ticket.now begun.1 begun.2 None 0) }
    ensures searching { IfOk result (λ begun. IsSearching ticket.now begun.0) }
    ensures fresh { IfOk result (λ begun. begun.0.worked ≡ 0) }
    ensures key { IfOk result
        (λ begun. Agree (M.Made.key begun.0.space) (M.key_at maker.now level)) }
{
    let space = maker.make(alloc, level)?;
    let from = Choices::from_slice(alloc, ticket.from())?;
    let to = ticket.to().copy()?;
    let bound = ticket.to().copy()?;
    let search = Search::seek(alloc, space, ticket.from(), bound)?;
    Ok((search, from, to))
}

/// A task of a ticket's row. After want of memory the ticket comes back.
pub fn task_of<M: Maker>(
    alloc: Global,
    maker: &M,
    level: u32,
    ticket: Ticket,
) -> Result<Task<M::Made>, Ticket>
    requires { level ≤ 250 }
    ensures held { IfOk result (λ task. IsHeld (M.Made.key task.search.space)
        task.ticket task.from task.to task.at task.done) }
    ensures searching { IfOk result (λ task. IsSearching task.ticket task.search) }
    ensures fresh { IfOk result (λ task. task.search.worked ≡ 0) }
    ensures key { IfOk result
        (λ task. Agree (M.Made.key task.search.space) (M.key_at maker.now level)) }
{
    match begin(alloc, maker, level, &ticket) {
        Ok((search, from, to)) => Ok(Task {
            ticket,
            search,
            from,
            to,
            at: None,
            done: 0,
        }),
        Err(_) => Err(ticket),
    }
}

/// Gives a task's row back where its search paused last, and adds the piece below that place. At
/// the row's lower end where the search hasn't paused yet, or memory is short; there it adds no
/// piece, and answers false.
pub fn leave<S: Space, D: Desk>(desk: &mut D, task: Task<S>, pieces: &mut Vec<Piece>) -> bool
    requires held { IsHeld (S.key task.search.space)
        task.ticket task.from task.to task.at task.done }
    requires room { vec_len pieces.old < vec_capacity pieces.old }
    requires honest { All (IsHonestPiece (S.key task.search.space)) pieces.old.items }
    ensures honest { All (IsHonestPiece (S.key task.search.space)) pieces.new.items }
{
    let Task {
        ticket,
        search: _search,
        from,
        to: _to,
        at,
        done,
    } = task;
    let Some(at) = at else {
        desk.give_back(ticket, None, 0);
        return false;
    };
    let Ok(end) = at.copy() else {
        desk.give_back(ticket, None, 0);
        return false;
    };
    pieces.push_reserved(Piece {
        from,
        to: Bound::At(end),
        work: done,
        path: None,
    });
    desk.give_back(ticket, Some(at), done);
    true
}

// Closes a task's row, and adds its piece.
fn close<S: Space, D: Desk>(desk: &mut D, task: Task<S>, work: u64, pieces: &mut Vec<Piece>)
    requires closes { Closes (attempts_of (S.key task.search.space)) task.from task.to work }
    requires room { vec_len pieces.old < vec_capacity pieces.old }
    requires honest { All (IsHonestPiece (S.key task.search.space)) pieces.old.items }
    ensures honest { All (IsHonestPiece (S.key task.search.space)) pieces.new.items }
{
    let Task {
        ticket,
        search: _search,
        from,
        to,
        at: _at,
        done: _done,
    } = task;
    pieces.push_reserved(Piece {
        from,
        to,
        work,
        path: None,
    });
    desk.close(ticket, work);
}

// Ends a task's row, in which a path was found, and adds its piece. After want of memory the row
// was given back.
fn find<S: Space, D: Desk>(
    desk: &mut D,
    task: Task<S>,
    path: Choices,
    work: u64,
    pieces: &mut Vec<Piece>,
) -> Result<(), AllocError>
    requires held { IsHeld (S.key task.search.space)
        task.ticket task.from task.to task.at task.done }
    requires finds { Finds (attempts_of (S.key task.search.space)) task.from task.to path work }
    requires room { vec_len pieces.old < vec_capacity pieces.old }
    requires honest { All (IsHonestPiece (S.key task.search.space)) pieces.old.items }
    ensures honest { All (IsHonestPiece (S.key task.search.space)) pieces.new.items }
{
    let Ok(found) = path.copy() else {
        leave(desk, task, pieces);
        return Err(AllocError);
    };
    let Task {
        ticket,
        search: _search,
        from,
        to,
        at: _at,
        done: _done,
    } = task;
    pieces.push_reserved(Piece {
        from,
        to,
        work,
        path: Some(path),
    });
    desk.found(ticket, found, work);
    Ok(())
}

/// Searches a task's row on, with at most `fuel` attempts. Where the search ends, the row does, and
/// its piece is added; else the rest of the task is answered. After want of memory the row was
/// given back.
pub fn search_on<S: Space, D: Desk>(
    desk: &mut D,
    task: Task<S>,
    fuel: u64,
    pieces: &mut Vec<Piece>,
) -> Result<Option<Task<S>>, AllocError>
    requires held { IsHeld (S.key task.search.space)
        task.ticket task.from task.to task.at task.done }
    requires searching { IsSearching task.ticket task.search }
    requires fuel { 0 < fuel }
    requires most { task.search.worked + fuel ≤ 2 ^ 63 }
    requires room { vec_len pieces.old < vec_capacity pieces.old }
    requires honest { All (IsHonestPiece (S.key task.search.space)) pieces.old.items }
    ensures honest { All (IsHonestPiece (S.key task.search.space)) pieces.new.items }
    ensures room { IfOk result (λ rest. IfSome rest
        (λ _. vec_len pieces.new < vec_capacity pieces.new)) }
    ensures held { IfOk result (λ rest. IfSome rest (λ more. IsHeld (S.key more.search.space)
        more.ticket more.from more.to more.at more.done)) }
    ensures searching { IfOk result (λ rest. IfSome rest (λ more.
        IsSearching more.ticket more.search)) }
    ensures paused { IfOk result (λ rest. IfSome rest (λ more.
        IsPaused (task.search.worked + fuel) more.search more.at more.done)) }
    ensures key { IfOk result (λ rest. IfSome rest (λ more.
        Agree (S.key more.search.space) (S.key task.search.space))) }
{
    let mut task = task;
    match task.search.run(fuel) {
        Err(error) => {
            leave(desk, task, pieces);
            Err(error)
        }
        Ok(Turn::Closed { work }) => {
            close(desk, task, work, pieces);
            Ok(None)
        }
        Ok(Turn::Found { path, work }) => {
            find(desk, task, path, work, pieces)?;
            Ok(None)
        }
        Ok(Turn::Paused { at, work }) => {
            task.at = Some(at);
            task.done = work;
            Ok(Some(task))
        }
    }
}
