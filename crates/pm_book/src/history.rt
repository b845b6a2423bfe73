//! Replays of histories.
#![tactic(auto)]

ghost use Rattle.std.specs.Prelude.{◌≡◌, ◌⊎◌, ◌==◌, ◌&&◌, nat_le, ℕ, List, false, Some, None, length, slice_get, IfOk, IfErr, OnErr, IfSome, IfNone, IsSome, IsTrue, IsFalse};
ghost use Rattle.pm_book.specs.declared.event.Event.TheVariants.{Took, Claimed, Split, Returned, Closed, Found};
ghost use Rattle.pm_book.specs.Rows.{is_within};
ghost use Rattle.pm_book.specs.Steps.{may_split, may_return, may_find, cut_of, step, next, new_book, MakesBook};
ghost use Rattle.pm_book.specs.Always.{AlwaysHolds};
ghost use Rattle.pm_book.specs.Shown.{row_seen, HasPlaces};
ghost use Rattle.pm_book.specs.Inside.Seen.{seen, AreKept};
ghost use Rattle.pm_book.specs.Answers.{FailsBy};
ghost use Rattle.pm_book.specs.Inside.Applied.{HasApplied};

use super::book::Book;
use super::counts::{is_queued, is_running};
use super::event::Event;
use super::order::is_before;
use super::row::BookRow;
use super::tables::Tables;
use pm_choice::Choices;
use std::alloc::{AllocError, Global};
use thiserror::Error;

/// Why a replay fails.
#[derive(Clone, Copy, Debug, PartialEq, Eq, Error)]
pub enum ReplayFault {
    /// The event at this place is the first that is no step from the book of those before it.
    #[error("event {at} is no step")]
    Illegal { at: u64 },
    /// There was no memory for the book.
    #[error("out of memory")]
    Memory,
}

/// The book that a history makes: the events in their order, from a new book with this budget. An
/// event names its list by its place in `cuts`, and each names the next one.
///
/// An event that is no step is Illegal before any memory is taken for it: where memory is short,
/// the event that it was wanted for is a step, and so are those before it.
///
/// Costs as much for each event as the call that makes it, and a copy of each list that an event
/// names.
pub fn replay(
    alloc: Global,
    budget: u64,
    cuts: &[Choices],
    events: &[Event],
) -> Result<Book, ReplayFault>
    ensures made { IfOk result (MakesBook budget cuts.now events.now) }
    ensures fault { IfErr result (FailsBy budget cuts.now events.now) }
{
    let Ok(mut tables) = Tables::new(alloc, budget) else {
        return Err(fault_of_none(events));
    };
    for (at, event) in events.iter().enumerate() {
        match apply(&mut tables, *event, cuts) {
            Ok(true) => {}
            Ok(false) => return Err(ReplayFault::Illegal { at: at as u64 }),
            Err(_) => return Err(ReplayFault::Memory),
        }
    }
    Ok(Book { tables })
}

// Why a replay fails where there is no memory for a new book.
fn fault_of_none(events: &[Event]) -> ReplayFault
    ensures { (budget : ℕ) (cuts : List (List ℕ)) → FailsBy budget cuts events.now result }
{
    let Some(first) = events.first() else {
        return ReplayFault::Memory;
    };
    if is_first_step(*first) {
        ReplayFault::Memory
    } else {
        ReplayFault::Illegal { at: 0 }
    }
}

// Whether an event is a step from a new book.
fn is_first_step(event: Event) -> bool
    ensures step { IsTrue result
        → (budget : ℕ) (cuts : List (List ℕ)) → IsSome (next cuts (Some (new_book budget)) event) }
    ensures none { IsFalse result
        → (budget : ℕ) (cuts : List (List ℕ)) → next cuts (Some (new_book budget)) event ≡ None }
{
    match event {
        Event::Took { row, .. } | Event::Claimed { row, .. } => row == 0,
        _ => false,
    }
}

// Makes one event, and answers whether it was a step. After want of memory it was one.
fn apply(tables: &mut Tables, event: Event, cuts: &[Choices]) -> Result<bool, AllocError>
    requires kept { AreKept tables.old }
    requires always { AlwaysHolds (seen tables.old) }
    ensures applied { IfOk result
        (HasApplied (seen tables.old) event (cut_of cuts.now event) (seen tables.new)) }
    ensures memory { OnErr result (IsSome (step (seen tables.old) event (cut_of cuts.now event))) }
    ensures kept { AreKept tables.new }
{
    match event {
        Event::Took { worker, row } => apply_took(tables, worker, row),
        Event::Claimed { worker, row } => apply_claimed(tables, worker, row),
        Event::Closed { row, work } => Ok(apply_closed(tables, row, work)),
        Event::Split { row, cut } => match named(tables, cut, cuts) {
            Some(list) => apply_split(tables, row, list),
            None => Ok(false),
        },
        Event::Returned { row, cut, work } => match named(tables, cut, cuts) {
            Some(list) => apply_returned(tables, row, list, work),
            None => Ok(false),
        },
        Event::Found { row, cut, work } => match named(tables, cut, cuts) {
            Some(list) => apply_found(tables, row, list, work),
            None => Ok(false),
        },
    }
}

// The list at a place of the cuts, where it is the next one of the book.
fn named<'c>(tables: &Tables, cut: u64, cuts: &'c [Choices]) -> Option<&'c Choices>
    ensures none { IfNone result
        ((slice_get cuts.now cut ≡ None) ⊎ ((cut == length tables.now.cuts.items) ≡ false)) }
    ensures some { IfSome result (λ list. slice_get cuts.now cut ≡ Some list.now) }
    ensures next { IsSome result → cut ≡ length tables.now.cuts.items }
{
    let next = tables.cuts.len();
    if cut != next as u64 || next >= cuts.len() {
        return None;
    }
    Some(&cuts[next])
}

// Whether a Queued row may be taken by this number.
fn may_take(row: BookRow, number: u64, spent: u128, budget: u64) -> bool
    ensures { result ≡ (row.number == number && nat_le spent budget) }
{
    row.number == number && spent <= u128::from(budget)
}

// Whether a row may be split at a list.
fn may_split(tables: &Tables, row: BookRow, cut: &[u32]) -> bool
    requires { HasPlaces (length tables.now.cuts.items) row }
    ensures { result ≡ may_split cut.now (row_seen tables.now.cuts.items row) }
{
    is_running(row.state)
        && (is_before(tables.lower(row.from), cut) && tables.is_below_end(cut, row.to))
}

// Whether a list is in the interval of a row.
fn is_in(tables: &Tables, row: BookRow, list: &[u32]) -> bool
    requires { HasPlaces (length tables.now.cuts.items) row }
    ensures { let seen = row_seen tables.now.cuts.items row in
        result ≡ is_within seen.from seen.to list.now }
{
    !is_before(list, tables.lower(row.from)) && tables.is_below_end(list, row.to)
}

// Whether a row may be returned at a list.
fn may_return(tables: &Tables, row: BookRow, cut: &[u32], work: u64) -> bool
    requires { HasPlaces (length tables.now.cuts.items) row }
    ensures { result ≡ may_return cut.now work (row_seen tables.now.cuts.items row) }
{
    is_running(row.state)
        && (is_in(tables, row, cut) && (is_before(tables.lower(row.from), cut) || work == 0))
}

// Whether a path may be found in a row.
fn may_find(tables: &Tables, row: BookRow, path: &[u32]) -> bool
    requires { HasPlaces (length tables.now.cuts.items) row }
    ensures { result ≡ may_find path.now (row_seen tables.now.cuts.items row) }
{
    is_running(row.state) && is_in(tables, row, path)
}

// Takes the first Queued row, where it has this number and the budget isn't exceeded.
fn apply_took(tables: &mut Tables, worker: u16, row: u64) -> Result<bool, AllocError>
    requires { AreKept tables.old }
    ensures applied { IfOk result
        (HasApplied (seen tables.old) (Took worker row) None (seen tables.new)) }
    ensures memory { OnErr result (IsSome (step (seen tables.old) (Took worker row) None)) }
    ensures kept { AreKept tables.new }
{
    let Some(spot) = tables.first_queued() else {
        return Ok(false);
    };
    if !may_take(spot.row, row, tables.counts.spent, tables.budget) {
        return Ok(false);
    }
    tables.make_room()?;
    tables.take(spot, worker);
    Ok(true)
}

// Claims the row of this number, where it is Queued.
fn apply_claimed(tables: &mut Tables, worker: u16, row: u64) -> Result<bool, AllocError>
    requires kept { AreKept tables.old }
    requires always { AlwaysHolds (seen tables.old) }
    ensures applied { IfOk result
        (HasApplied (seen tables.old) (Claimed worker row) None (seen tables.new)) }
    ensures memory { OnErr result (IsSome (step (seen tables.old) (Claimed worker row) None)) }
    ensures kept { AreKept tables.new }
{
    let Some(spot) = tables.find_number(row) else {
        return Ok(false);
    };
    if !is_queued(spot.row.state) {
        return Ok(false);
    }
    tables.make_room()?;
    tables.claim(spot, worker);
    Ok(true)
}

// Closes the row of this number, where it is Running.
fn apply_closed(tables: &mut Tables, row: u64, work: u64) -> bool
    requires kept { AreKept tables.old }
    requires always { AlwaysHolds (seen tables.old) }
    ensures applied { HasApplied (seen tables.old) (Closed row work) None (seen tables.new) result }
    ensures kept { AreKept tables.new }
{
    let Some(spot) = tables.find_number(row) else {
        return false;
    };
    if !is_running(spot.row.state) {
        return false;
    }
    let _above = tables.close(spot, work);
    true
}

// Splits the row of this number at a list, where it may be.
fn apply_split(tables: &mut Tables, row: u64, cut: &Choices) -> Result<bool, AllocError>
    requires kept { AreKept tables.old }
    requires always { AlwaysHolds (seen tables.old) }
    ensures applied { let event = (Split row (length tables.old.cuts.items)) in
        IfOk result (HasApplied (seen tables.old) event (Some cut.now) (seen tables.new)) }
    ensures memory { let event = (Split row (length tables.old.cuts.items)) in
        OnErr result (IsSome (step (seen tables.old) event (Some cut.now))) }
    ensures kept { AreKept tables.new }
{
    let Some(spot) = tables.find_number(row) else {
        return Ok(false);
    };
    if !may_split(tables, spot.row, cut.as_slice()) {
        return Ok(false);
    }
    tables.make_room()?;
    tables.split(spot, cut.copy()?);
    Ok(true)
}

// Returns the row of this number at a list, where it may be.
fn apply_returned(
    tables: &mut Tables,
    row: u64,
    cut: &Choices,
    work: u64,
) -> Result<bool, AllocError>
    requires kept { AreKept tables.old }
    requires always { AlwaysHolds (seen tables.old) }
    ensures applied { let event = (Returned row (length tables.old.cuts.items) work) in
        IfOk result (HasApplied (seen tables.old) event (Some cut.now) (seen tables.new)) }
    ensures memory { let event = (Returned row (length tables.old.cuts.items) work) in
        OnErr result (IsSome (step (seen tables.old) event (Some cut.now))) }
    ensures kept { AreKept tables.new }
{
    let Some(spot) = tables.find_number(row) else {
        return Ok(false);
    };
    if !may_return(tables, spot.row, cut.as_slice(), work) {
        return Ok(false);
    }
    let _above = tables.give_back(spot, cut.copy()?, work);
    Ok(true)
}

// A path is found in the row of this number, where it may be.
fn apply_found(tables: &mut Tables, row: u64, path: &Choices, work: u64) -> Result<bool, AllocError>
    requires kept { AreKept tables.old }
    requires always { AlwaysHolds (seen tables.old) }
    ensures applied { let event = (Found row (length tables.old.cuts.items) work) in
        IfOk result (HasApplied (seen tables.old) event (Some path.now) (seen tables.new)) }
    ensures memory { let event = (Found row (length tables.old.cuts.items) work) in
        OnErr result (IsSome (step (seen tables.old) event (Some path.now))) }
    ensures kept { AreKept tables.new }
{
    let Some(spot) = tables.find_number(row) else {
        return Ok(false);
    };
    if !may_find(tables, spot.row, path.as_slice()) {
        return Ok(false);
    }
    let _above = tables.find(spot, path.copy()?, work);
    Ok(true)
}
