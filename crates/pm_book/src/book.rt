//! The task book of a level.
#![tactic(auto)]

ghost use Rattle.std.specs.Prelude.{◌≡◌, ◌↔◌, ◌<◌, ◌⊎◌, ◌&&◌, Some, None, false, IsTrue, IsFalse, map, length, All, MatchOption, IfOk, OnErr};
ghost use Rattle.std.specs.List.{count_by};
ghost use Rattle.std.specs.Option.{unwrap_or};
ghost use Rattle.pm_choice.specs.Order.{PrecedesBound, IsWithin};
ghost use Rattle.pm_book.specs.declared.event.Event.TheVariants.{Returned, Closed, Found};
ghost use Rattle.pm_book.specs.Rows.{span_of, is_before, is_below, is_queued, is_running, is_above, spent};
ghost use Rattle.pm_book.specs.Steps.{new_book, IsReplay};
ghost use Rattle.pm_book.specs.Always.{AlwaysHolds};
ghost use Rattle.pm_book.specs.Shown.{row_seen, IsCutPlace, HasPlaces, lower, upper};
ghost use Rattle.pm_book.specs.Inside.Seen.{seen, AreKept, IsSpotOf};
ghost use Rattle.pm_book.specs.Answers.{IsBookOver, NoneQueued, HasTaken, IsQueuedAt, HasClaimed, Knows, IsInside, HasSplit, HasEnded, NoneFound};

use super::counts::{is_queued, is_running};
use super::event::Event;
use super::order::{is_before, is_below, is_same};
use super::row::BookRow;
use super::tables::{Spot, Tables};
use super::ticket::{Claimed, Ended, SplitReply, Taken, Ticket};
use pm_choice::{Bound, Choices};
use std::alloc::{AllocError, Global};
use std::marker::Model;

/// The task book of a level: seen as its rows in order, the best path, the budget, the lists that
/// events named, and the events.
///
/// A row is above best where best is there and precedes its lower end.
#[derive(Drop)]
pub struct Book {
    pub(super) tables: Tables,
}

impl Model for Book {
    ghost use Rattle.pm_book.specs.Rows.{BookState};

    ghost Value = { BookState };

    ghost use Rattle.pm_book.specs.Inside.Seen.{seen, AreSoundTables};

    ghost view = { λ a. seen a.tables };

    ghost invariant = { λ a. AreSoundTables a.tables };
}

// Whether a row is Running and has the interval of a ticket.
fn has_interval(tables: &Tables, row: BookRow, ticket: &Ticket) -> bool
    requires { HasPlaces (length tables.now.cuts.items) row }
    ensures { let seen = row_seen tables.now.cuts.items row in
        IsTrue result
        ↔ (IsTrue (is_running row.state)
        × (seen.from ≡ ticket.now.from) × (seen.to ≡ ticket.now.to)) }
{
    is_running(row.state)
        && is_same(tables.lower(row.from), ticket.from())
        && tables.ends_at(row.to, ticket.to())
}

// The spot of a ticket's row, where a Running row has its number and interval.
fn locate(tables: &Tables, ticket: &Ticket) -> Option<Spot>
    requires kept { AreKept tables.now }
    requires always { AlwaysHolds (seen tables.now) }
    ensures { MatchOption result (¬ Knows (seen tables.now) ticket.now)
        (IsSpotOf tables.now ticket.now) }
{
    let Some(spot) = tables.find_number(ticket.number()) else {
        return None;
    };
    if !has_interval(tables, spot.row, ticket) {
        return None;
    }
    Some(spot)
}

// A ticket of a row.
fn ticket_of(tables: &Tables, row: BookRow) -> Result<Ticket, AllocError>
    requires places { HasPlaces (length tables.now.cuts.items) row }
    requires interval { PrecedesBound (lower tables.now.cuts.items row.from)
        (upper tables.now.cuts.items row.to) }
    ensures { IfOk result (λ ticket. ticket ≡ span_of (row_seen tables.now.cuts.items row)) }
{
    let from = Choices::from_slice(*tables.rows.allocator(), tables.lower(row.from))?;
    let to = upper_of(tables, row.to)?;
    Ok(Ticket {
        number: row.number,
        from,
        to,
    })
}

// The upper end of a row.
fn upper_of(tables: &Tables, to: Option<u64>) -> Result<Bound, AllocError>
    requires { IsCutPlace (length tables.now.cuts.items) to }
    ensures { IfOk result (λ bound. bound ≡ upper tables.now.cuts.items to) }
{
    match to {
        None => Ok(Bound::End),
        Some(place) => Ok(Bound::At(tables.cuts[place as usize].copy()?)),
    }
}

// Whether a list is strictly between the ends of a ticket.
fn is_inside(ticket: &Ticket, list: &[u32]) -> bool
    ensures { result ≡ (is_before ticket.now.from list.now && is_below list.now ticket.now.to) }
{
    is_before(ticket.from(), list) && is_below(list, ticket.to())
}

// The list at which a row is returned: its lower end, where none is given.
fn returned_at(at: Option<Choices>, from: Choices) -> Choices
    ensures { result ≡ unwrap_or at from }
{
    match at {
        Some(list) => list,
        None => from,
    }
}

// Whether a book is over.
fn is_over(tables: &Tables) -> bool
    requires { AreKept tables.now }
    ensures { IsTrue result ↔ IsBookOver (seen tables.now) }
{
    tables.counts.spent > u128::from(tables.budget) || tables.counts.remaining == 0
}

impl Book {
    /// A new book: row 0 is the whole interval, Queued.
    pub fn new(alloc: Global, budget: u64) -> Result<Book, AllocError>
        ensures { IfOk result (λ book. book ≡ new_book budget) }
    {
        Ok(Book {
            tables: Tables::new(alloc, budget)?,
        })
    }

    /// Makes the first Queued row Running. Over where the budget is exceeded, or no row that isn't
    /// above best is Queued or Running. Idle where it isn't over and no row is Queued. Costs a
    /// pass over the rows from where it found the last one, or from the first that was Queued since;
    /// Over and Idle are one step.
    pub fn take(&mut self, worker: u16) -> Result<Taken, AllocError>
        ensures ok { IfOk result (HasTaken self.old worker self.new) }
        ensures err { OnErr result
            ((¬ IsBookOver self.old) × (¬ NoneQueued self.old) × (self.new ≡ self.old)) }
    {
        if is_over(&self.tables) {
            return Ok(Taken::Over);
        }
        let Some(spot) = self.tables.first_queued() else {
            return Ok(Taken::Idle);
        };
        self.tables.make_room()?;
        let ticket = ticket_of(&self.tables, spot.row)?;
        self.tables.take(spot, worker);
        Ok(Taken::Task(ticket))
    }

    /// Makes the row of this number Running; Gone where it isn't Queued. Costs a binary search.
    pub fn claim(&mut self, row: u64, worker: u16) -> Result<Claimed, AllocError>
        ensures ok { IfOk result (HasClaimed self.old row worker self.new) }
        ensures err { OnErr result (IsQueuedAt self.old row × (self.new ≡ self.old)) }
    {
        let Some(spot) = self.tables.find_number(row) else {
            return Ok(Claimed::Gone);
        };
        if !is_queued(spot.row.state) {
            return Ok(Claimed::Gone);
        }
        self.tables.make_room()?;
        let ticket = ticket_of(&self.tables, spot.row)?;
        self.tables.claim(spot, worker);
        Ok(Claimed::Task(ticket))
    }

    /// Splits the ticket's row at `mid`: the row and the ticket end there, and a new row goes on
    /// from there, Queued, or Dropped where it is above best. Costs a binary search and a move of the
    /// rows after the ticket's.
    pub fn split(&mut self, ticket: &mut Ticket, mid: &[u32]) -> Result<SplitReply, AllocError>
        ensures ok { IfOk result (HasSplit self.old ticket.old mid.now self.new ticket.new) }
        ensures err { OnErr result
            (Knows self.old ticket.old × IsInside ticket.old mid.now
            × (self.new ≡ self.old) × (ticket.new ≡ ticket.old)) }
    {
        let Some(spot) = locate(&self.tables, ticket) else {
            return Ok(SplitReply::Unknown);
        };
        if !is_inside(ticket, mid) {
            return Ok(SplitReply::OutOfRange);
        }
        self.tables.make_room()?;
        let alloc = *self.tables.rows.allocator();
        let cut = Choices::from_slice(alloc, mid)?;
        let to = Choices::from_slice(alloc, mid)?;
        let row = self.tables.rows.len() as u64;
        self.tables.split(spot, cut);
        ticket.to = Bound::At(to);
        Ok(SplitReply::Split { row })
    }

    /// Gives a ticket's row back at a list, or at its lower end where `at` is none. What is below
    /// the list is Done with `work`, and the rest is Queued. Costs a binary search, and a move of the
    /// rows after the ticket's where there is a rest. Takes no memory.
    pub fn give_back(&mut self, ticket: Ticket, at: Option<Choices>, work: u64) -> Ended
        requires within { IsWithin ticket.from ticket.to (unwrap_or at ticket.from) }
        requires work { unwrap_or at ticket.from ≡ ticket.from → work ≡ 0 }
        ensures { let event = Returned ticket.number (length self.old.cuts) work in
            HasEnded self.old ticket event (Some (unwrap_or at ticket.from)) self.new result }
    {
        let Some(spot) = locate(&self.tables, &ticket) else {
            return Ended::Unknown(ticket);
        };
        let Ticket {
            number: _number,
            from,
            to: _to,
        } = ticket;
        let cut = returned_at(at, from);
        if self.tables.give_back(spot, cut, work) {
            return Ended::Dropped;
        }
        Ended::Kept
    }

    /// Closes a ticket's row: it is Done with `work`. Costs a binary search, and takes no memory.
    pub fn close(&mut self, ticket: Ticket, work: u64) -> Ended
        ensures { HasEnded self.old ticket (Closed ticket.number work) None self.new result }
    {
        let Some(spot) = locate(&self.tables, &ticket) else {
            return Ended::Unknown(ticket);
        };
        ticket.discard();
        if self.tables.close(spot, work) {
            return Ended::Dropped;
        }
        Ended::Kept
    }

    /// A path was found in a ticket's row: the row is Done with `work`, best is the path, and each
    /// Queued row above it is Dropped. Costs a binary search and two passes over the rows after the
    /// ticket's, and takes no memory.
    pub fn found(&mut self, ticket: Ticket, path: Choices, work: u64) -> Ended
        requires { IsWithin ticket.from ticket.to path }
        ensures { let event = Found ticket.number (length self.old.cuts) work in
            HasEnded self.old ticket event (Some path) self.new result }
    {
        let Some(spot) = locate(&self.tables, &ticket) else {
            return Ended::Unknown(ticket);
        };
        ticket.discard();
        if self.tables.find(spot, path, work) {
            return Ended::Dropped;
        }
        Ended::Kept
    }

    /// Whether a ticket's row is Running with its interval, and isn't above best. Costs a binary
    /// search.
    pub fn wanted(&self, ticket: &Ticket) -> bool
        ensures { IsTrue result
            ↔ (Knows self.now ticket.now × (is_above self.now.best ticket.now.from ≡ false)) }
    {
        match locate(&self.tables, ticket) {
            Some(_) => !self.tables.is_above(ticket.from()),
            None => false,
        }
    }

    /// The number of Queued rows. Costs one step.
    pub fn queued(&self) -> u64
        ensures { result ≡ count_by (λ row. is_queued row.state) self.now.rows }
    {
        self.tables.counts.queued as u64
    }

    /// The sum of the works of the Done rows that aren't above best. Costs one step.
    pub fn spent(&self) -> u128
        ensures { result ≡ spent self.now }
    {
        self.tables.counts.spent
    }

    /// The best path; none where no path was found.
    pub fn best(&self) -> Option<&[u32]>
        ensures best { MatchOption result (self.now.best ≡ None)
            (λ list. self.now.best ≡ Some list.now) }
        ensures none { (self.now.best ≡ None) ↔ NoneFound self.now }
    {
        match self.tables.best {
            None => None,
            Some(place) => Some(self.tables.cuts[place as usize].as_slice()),
        }
    }

    /// The rows, in the order of their intervals; the places in them are places in the cuts.
    pub fn rows(&self) -> &[BookRow]
        ensures rows { map (row_seen self.now.cuts) result.now ≡ self.now.rows }
        ensures places { All (HasPlaces (length self.now.cuts)) result.now }
        ensures always { AlwaysHolds self.now }
    {
        self.tables.rows.as_slice()
    }

    /// The events.
    pub fn events(&self) -> &[Event]
        ensures events { result.now ≡ self.now.events }
        ensures replay { IsReplay self.now }
    {
        self.tables.events.as_slice()
    }

    /// The lists that the events named, in order.
    pub fn cuts(&self) -> &[Choices]
        ensures { result.now ≡ self.now.cuts }
    {
        self.tables.cuts.as_slice()
    }
}
