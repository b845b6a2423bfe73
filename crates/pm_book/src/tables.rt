//! The tables of a book, and the changes of one row.
#![tactic(auto)]

ghost use Rattle.std.specs.Prelude.{◌≡◌, ℕ, ◌+◌, ◌-◌, ◌<◌, ◌≤◌, ◌⊎◌, ◌↔◌, ◌==◌, ◌||◌, not, IsTrue, Some, None, true, false, [], ◌∷◌, ◌++◌, map, length, take, drop, slice_get, All, MatchOption, MatchBool, IfOk, IfSome, OnOk, OnErr, vec_len, vec_capacity, option_to_list, slice_index_or};
ghost use Rattle.std.specs.List.Sorted.{IsPartitionPoint};
ghost use Rattle.pm_book.specs.declared.event.Event.TheVariants.{Took, Claimed, Split, Returned, Closed, Found};
ghost use Rattle.pm_book.specs.Rows.{is_running, is_queued, is_found, is_below, is_above, is_before, is_within, spent, work_of};
ghost use Rattle.pm_book.specs.Steps.{step, new_book, may_return};
ghost use Rattle.pm_book.specs.Always.{AlwaysHolds};
ghost use Rattle.pm_book.specs.Shown.{lower, upper, row_seen, IsCutPlace, HasPlaces};
ghost use Rattle.pm_book.specs.Inside.Counted.{AreCounted, AreOfOne};
ghost use Rattle.pm_book.specs.Inside.Seen.{seen, best_seen, running_of, HasRoom, AreKept, IsNewRow, IsFirstSpot, IsRunningSpot, HasPut, dropped, queued_unless, done_unless};

use super::counts::{Counts, is_queued};
use super::event::Event;
use super::order::{is_before, is_same};
use super::row::{BookRow, RowState};
use pm_choice::{Bound, Choices};
use std::alloc::{AllocError, Global};

/// The rows of a book, in the order of their intervals, and its history.
#[derive(Drop)]
pub struct Tables {
    pub rows: Vec<BookRow>,
    // The place of the best path in `cuts`.
    pub best: Option<u64>,
    pub budget: u64,
    pub cuts: Vec<Choices>,
    pub events: Vec<Event>,
    // The place of each number's lower end in `cuts`, which never changes.
    pub lowers: Vec<Option<u64>>,
    pub counts: Counts,
    // No row before this place is Queued.
    pub hint: usize,
}

/// A row and its place among the rows.
#[derive(Clone, Copy)]
pub struct Spot {
    pub place: usize,
    pub row: BookRow,
}

// The state of a new row.
fn queued_unless(above: bool) -> RowState
    ensures { result ≡ queued_unless above }
{
    if above {
        RowState::Dropped
    } else {
        RowState::Queued
    }
}

// The state of a row that ends.
fn done_unless(above: bool, work: u64, found: bool) -> RowState
    ensures { result ≡ done_unless above work found }
{
    if above {
        RowState::Dropped
    } else {
        RowState::Done { work, found }
    }
}

// Whether a row that is returned stays whole: it is above best, or is returned at its lower end.
fn stays_whole(above: bool, beyond: bool) -> bool
    ensures { result ≡ (above || not beyond) }
{
    above || !beyond
}

// Inserts a row where there is one; there must be room for it.
fn insert_row(rows: &mut Vec<BookRow>, place: usize, row: Option<BookRow>)
    requires place { place ≤ vec_len rows.old }
    requires room { vec_len rows.old < vec_capacity rows.old }
    ensures items { rows.new.items
        ≡ take place rows.old.items ++ (option_to_list row ++ drop place rows.old.items) }
    ensures length { vec_len rows.new ≡ vec_len rows.old + length (option_to_list row) }
    ensures capacity { vec_capacity rows.old ≤ vec_capacity rows.new }
{
    if let Some(row) = row {
        if rows.insert(place, row).is_err() {
            unreachable!();
        }
    }
}

// Adds a list where there is one; there must be room for it.
fn push_cut(cuts: &mut Vec<Choices>, cut: Option<Choices>)
    requires room { vec_len cuts.old < vec_capacity cuts.old }
    ensures items { cuts.new.items ≡ cuts.old.items ++ option_to_list cut }
    ensures length { vec_len cuts.new ≡ vec_len cuts.old + length (option_to_list cut) }
    ensures capacity { vec_capacity cuts.new ≡ vec_capacity cuts.old }
{
    if let Some(cut) = cut {
        cuts.push_reserved(cut);
    }
}

// A Queued row is Dropped.
fn dropped(row: BookRow) -> BookRow
    ensures { result ≡ dropped row }
{
    if is_queued(row.state) {
        return BookRow {
            state: RowState::Dropped,
            ..row
        };
    }
    row
}

// Drops the Queued rows among the rows from `first` on.
fn drop_rows(rows: &mut Vec<BookRow>, first: usize)
    requires { first ≤ vec_len rows.old }
    ensures items { rows.new.items
        ≡ take first rows.old.items ++ map dropped (drop first rows.old.items) }
    ensures length { vec_len rows.new ≡ vec_len rows.old }
    ensures capacity { vec_capacity rows.new ≡ vec_capacity rows.old }
{
    let count = rows.len() - first;
    for k in 0..count {
        let place = first + k;
        rows[place] = dropped(rows[place]);
    }
}

// Adds the lower end of a row where there is one; there must be room for it.
fn push_lower(lowers: &mut Vec<Option<u64>>, row: Option<BookRow>)
    requires room { vec_len lowers.old < vec_capacity lowers.old }
    ensures items { lowers.new.items
        ≡ lowers.old.items ++ map (λ row. row.from) (option_to_list row) }
    ensures length { vec_len lowers.new ≡ vec_len lowers.old + length (option_to_list row) }
    ensures capacity { vec_capacity lowers.new ≡ vec_capacity lowers.old }
{
    if let Some(row) = row {
        lowers.push_reserved(row.from);
    }
}

// A place before which no row is Queued, where a row was put at a place, and maybe one after it.
fn lowest(hint: usize, place: usize, row: BookRow, rest: Option<BookRow>) -> usize
    ensures { let kept = ((is_queued row.state ≡ false) × (rest ≡ None) × (result ≡ hint)) in
        ((result ≤ hint) × (result ≤ place)) ⊎ kept }
{
    if is_queued(row.state) || rest.is_some() {
        return hint.min(place);
    }
    hint
}

impl Tables {
    /// The tables of a new book.
    pub fn new(alloc: Global, budget: u64) -> Result<Tables, AllocError>
        ensures seen { IfOk result (λ tables. seen tables ≡ new_book budget) }
        ensures kept { IfOk result AreKept }
    {
        let mut rows = Vec::new(alloc);
        rows.push(BookRow {
            number: 0,
            from: None,
            to: None,
            state: RowState::Queued,
        })?;
        let mut lowers = Vec::new(alloc);
        lowers.push(None)?;
        Ok(Tables {
            rows,
            best: None,
            budget,
            cuts: Vec::new(alloc),
            events: Vec::new(alloc),
            lowers,
            counts: Counts::of(false, RowState::Queued),
            hint: 0,
        })
    }

    /// The list at a row's lower end.
    pub fn lower(&self, from: Option<u64>) -> &[u32]
        ensures { result.now ≡ lower self.now.cuts.items from }
    {
        let Some(place) = from else {
            return &[];
        };
        match self.cuts.get(place as usize) {
            Some(cut) => cut.as_slice(),
            None => &[],
        }
    }

    /// Whether a list is below a row's upper end.
    pub fn is_below_end(&self, list: &[u32], to: Option<u64>) -> bool
        requires { IsCutPlace (length self.now.cuts.items) to }
        ensures { result ≡ is_below list.now (upper self.now.cuts.items to) }
    {
        match to {
            None => true,
            Some(place) => is_before(list, self.cuts[place as usize].as_slice()),
        }
    }

    /// Whether a row's upper end is this bound.
    pub fn ends_at(&self, to: Option<u64>, bound: &Bound) -> bool
        requires { IsCutPlace (length self.now.cuts.items) to }
        ensures { IsTrue result ↔ (upper self.now.cuts.items to ≡ bound.now) }
    {
        match (to, bound) {
            (None, Bound::End) => true,
            (Some(place), Bound::At(list)) => is_same(
                self.cuts[place as usize].as_slice(),
                list.as_slice(),
            ),
            _ => false,
        }
    }

    /// Whether a list is above best.
    pub fn is_above(&self, list: &[u32]) -> bool
        requires { IsCutPlace (length self.now.cuts.items) self.now.best }
        ensures { result ≡ is_above (seen self.now).best list.now }
    {
        match self.best {
            None => false,
            Some(place) => is_before(self.cuts[place as usize].as_slice(), list),
        }
    }

    // The number of rows whose lower ends precede a list.
    fn rows_below(&self, list: &[u32]) -> usize
        requires { AlwaysHolds (seen self.now) }
        ensures bound { result ≤ length self.now.rows.items }
        ensures parted { let lower_of = (λ (row : BookRow). lower self.now.cuts.items row.from) in
            IsPartitionPoint (λ row. is_before (lower_of row) list.now ≡ true)
            (λ row. is_before (lower_of row) list.now ≡ false) self.now.rows.items result }
    {
        self.rows
            .partition_point(|row| is_before(self.lower(row.from), list))
    }

    /// The row of this number.
    pub fn find_number(&self, number: u64) -> Option<Spot>
        requires kept { AreKept self.now }
        requires always { AlwaysHolds (seen self.now) }
        ensures { MatchOption result
            (All (λ row. (row.number == number) ≡ false) self.now.rows.items)
            (IsFirstSpot (λ row. row.number == number) self.now.rows.items) }
    {
        if number >= self.lowers.len() as u64 {
            return None;
        }
        let place = self.rows_below(self.lower(self.lowers[number as usize]));
        if place == self.rows.len() {
            return None;
        }
        let row = self.rows[place];
        if row.number != number {
            return None;
        }
        Some(Spot { place, row })
    }

    /// The first Queued row.
    pub fn first_queued(&self) -> Option<Spot>
        requires { AreKept self.now }
        ensures { MatchOption result
            (All (λ row. is_queued row.state ≡ false) self.now.rows.items)
            (IsFirstSpot (λ row. is_queued row.state) self.now.rows.items) }
    {
        if self.counts.queued == 0 {
            return None;
        }
        for place in self.hint..self.rows.len() {
            if is_queued(self.rows[place].state) {
                return Some(Spot {
                    place,
                    row: self.rows[place],
                });
            }
        }
        None
    }

    // The counts of one row.
    fn count_row(&self, row: BookRow) -> Counts
        requires { IsCutPlace (length self.now.cuts.items) self.now.best }
        ensures counted { AreCounted result (seen self.now).best
            (row_seen self.now.cuts.items row ∷ []) }
        ensures few { AreOfOne result }
    {
        Counts::of(self.is_above(self.lower(row.from)), row.state)
    }

    // The counts of a row, where there is one.
    fn count_rest(&self, rest: Option<BookRow>) -> Counts
        requires { IsCutPlace (length self.now.cuts.items) self.now.best }
        ensures counted { AreCounted result (seen self.now).best
            (map (row_seen self.now.cuts.items) (option_to_list rest)) }
        ensures few { AreOfOne result }
    {
        match rest {
            Some(row) => self.count_row(row),
            None => Counts::none(),
        }
    }

    // The counts of the rows from a place on.
    fn count_from(&self, first: usize) -> Counts
        requires best { IsCutPlace (length self.now.cuts.items) self.now.best }
        requires first { first ≤ vec_len self.now.rows }
        ensures { AreCounted result (seen self.now).best
            (map (row_seen self.now.cuts.items) (drop first self.now.rows.items)) }
    {
        let mut counts = Counts::none();
        let count = self.rows.len() - first;
        for k in 0..count {
            counts = counts.with(self.count_row(self.rows[first + k]));
        }
        counts
    }

    /// Makes room for two more rows, lists and events beside those for the ends of the Running
    /// rows.
    pub fn make_room(&mut self) -> Result<(), AllocError>
        requires { AreKept self.old }
        ensures kept { AreKept self.new }
        ensures rows { self.new.rows.items ≡ self.old.rows.items }
        ensures seen { seen self.new ≡ seen self.old }
        ensures counts { self.new.counts ≡ self.old.counts }
        ensures room { OnOk result (HasRoom self.new (self.new.counts.running + 2)) }
    {
        let more = self.counts.running + 2;
        self.rows.reserve(more)?;
        self.cuts.reserve(more)?;
        self.events.reserve(more)?;
        self.lowers.reserve(more)?;
        Ok(())
    }

    // Puts `row`, and `rest` after it where there is one, in the place of a row, and records an
    // event with the list that it names.
    fn put(
        &mut self,
        spot: Spot,
        row: BookRow,
        rest: Option<BookRow>,
        cut: Option<Choices>,
        event: Event,
    )
        requires kept { AreKept self.old }
        requires there { slice_get self.old.rows.items spot.place ≡ Some spot.row }
        requires same { (row.number ≡ spot.row.number) × (row.from ≡ spot.row.from) }
        requires room { HasRoom self.old
            (self.old.counts.running + running_of row.state - running_of spot.row.state + 1) }
        requires places { All (HasPlaces (length self.old.cuts.items + length (option_to_list cut)))
            (row ∷ option_to_list rest) }
        requires rest { All (IsNewRow (length self.old.rows.items)) (option_to_list rest) }
        ensures put { HasPut self.old self.new spot.place (row ∷ option_to_list rest) cut event }
        ensures kept { AreKept self.new }
    {
        let others = self.counts.without(self.count_row(spot.row));
        self.rows[spot.place] = row;
        insert_row(&mut self.rows, spot.place + 1, rest);
        push_cut(&mut self.cuts, cut);
        push_lower(&mut self.lowers, rest);
        self.events.push_reserved(event);
        self.counts = others.with(self.count_row(row)).with(self.count_rest(rest));
        self.hint = lowest(self.hint, spot.place, row, rest);
    }

    /// Takes the first Queued row.
    pub fn take(&mut self, spot: Spot, worker: u16)
        requires kept { AreKept self.old }
        requires spot { IsFirstSpot (λ row. is_queued row.state) self.old.rows.items spot }
        requires room { HasRoom self.old (self.old.counts.running + 2) }
        requires budget { spent (seen self.old) ≤ self.old.budget }
        ensures step { step (seen self.old) (Took worker spot.row.number) None
            ≡ Some (seen self.new) }
        ensures kept { AreKept self.new }
    {
        let row = BookRow {
            state: RowState::Running { worker },
            ..spot.row
        };
        let event = Event::Took {
            worker,
            row: row.number,
        };
        self.put(spot, row, None, None, event);
        // It was the first Queued one.
        self.hint = spot.place + 1;
    }

    /// Claims a Queued row.
    pub fn claim(&mut self, spot: Spot, worker: u16)
        requires kept { AreKept self.old }
        requires spot { IsFirstSpot
            (λ row. row.number == spot.row.number) self.old.rows.items spot }
        requires queued { is_queued spot.row.state ≡ true }
        requires room { HasRoom self.old (self.old.counts.running + 2) }
        ensures step { step (seen self.old) (Claimed worker spot.row.number) None
            ≡ Some (seen self.new) }
        ensures kept { AreKept self.new }
    {
        let row = BookRow {
            state: RowState::Running { worker },
            ..spot.row
        };
        let event = Event::Claimed {
            worker,
            row: row.number,
        };
        self.put(spot, row, None, None, event);
    }

    /// Splits a Running row at a list strictly between its ends.
    pub fn split(&mut self, spot: Spot, cut: Choices)
        requires kept { AreKept self.old }
        requires spot { IsRunningSpot self.old spot }
        requires room { HasRoom self.old (self.old.counts.running + 2) }
        requires from { is_before (lower self.old.cuts.items spot.row.from) cut ≡ true }
        requires to { is_below cut (upper self.old.cuts.items spot.row.to) ≡ true }
        ensures step { let event = Split spot.row.number (length self.old.cuts.items) in
            step (seen self.old) event (Some cut) ≡ Some (seen self.new) }
        ensures kept { AreKept self.new }
    {
        let mid = self.cuts.len() as u64;
        let above = self.is_above(cut.as_slice());
        let row = BookRow {
            to: Some(mid),
            ..spot.row
        };
        let rest = BookRow {
            number: self.rows.len() as u64,
            from: Some(mid),
            to: spot.row.to,
            state: queued_unless(above),
        };
        let event = Event::Split {
            row: spot.row.number,
            cut: mid,
        };
        self.put(spot, row, Some(rest), Some(cut), event);
    }

    /// Returns a Running row at a list of its interval. Answers whether it was above best, and so
    /// dropped.
    pub fn give_back(&mut self, spot: Spot, cut: Choices, work: u64) -> bool
        requires kept { AreKept self.old }
        requires spot { IsRunningSpot self.old spot }
        requires may { may_return cut work (row_seen self.old.cuts.items spot.row) ≡ true }
        ensures above { result
            ≡ is_above (seen self.old).best (lower self.old.cuts.items spot.row.from) }
        ensures step { let event = Returned spot.row.number (length self.old.cuts.items) work in
            step (seen self.old) event (Some cut) ≡ Some (seen self.new) }
        ensures kept { AreKept self.new }
    {
        let place = self.cuts.len() as u64;
        let event = Event::Returned {
            row: spot.row.number,
            cut: place,
            work,
        };
        let from = self.lower(spot.row.from);
        let above = self.is_above(from);
        let beyond = is_before(from, cut.as_slice());
        if stays_whole(above, beyond) {
            let row = BookRow {
                state: queued_unless(above),
                ..spot.row
            };
            self.put(spot, row, None, Some(cut), event);
            return above;
        }
        let row = BookRow {
            to: Some(place),
            state: RowState::Done { work, found: false },
            ..spot.row
        };
        let rest = BookRow {
            number: self.rows.len() as u64,
            from: Some(place),
            to: spot.row.to,
            state: RowState::Queued,
        };
        self.put(spot, row, Some(rest), Some(cut), event);
        false
    }

    /// Closes a Running row. Answers whether it was above best, and so dropped.
    pub fn close(&mut self, spot: Spot, work: u64) -> bool
        requires kept { AreKept self.old }
        requires spot { IsRunningSpot self.old spot }
        ensures above { result
            ≡ is_above (seen self.old).best (lower self.old.cuts.items spot.row.from) }
        ensures step { step (seen self.old) (Closed spot.row.number work) None
            ≡ Some (seen self.new) }
        ensures kept { AreKept self.new }
    {
        let above = self.is_above(self.lower(spot.row.from));
        let row = BookRow {
            state: done_unless(above, work, false),
            ..spot.row
        };
        let event = Event::Closed {
            row: row.number,
            work,
        };
        self.put(spot, row, None, None, event);
        above
    }

    /// A path was found in a Running row. Answers whether it was above best, and so dropped.
    pub fn find(&mut self, spot: Spot, path: Choices, work: u64) -> bool
        requires kept { AreKept self.old }
        requires always { AlwaysHolds (seen self.old) }
        requires spot { IsRunningSpot self.old spot }
        requires within { let row = row_seen self.old.cuts.items spot.row in
            is_within row.from row.to path ≡ true }
        ensures above { result
            ≡ is_above (seen self.old).best (lower self.old.cuts.items spot.row.from) }
        ensures step { let event = Found spot.row.number (length self.old.cuts.items) work in
            step (seen self.old) event (Some path) ≡ Some (seen self.new) }
        ensures kept { AreKept self.new }
    {
        let place = self.cuts.len() as u64;
        let above = self.is_above(self.lower(spot.row.from));
        let row = BookRow {
            state: done_unless(above, work, true),
            ..spot.row
        };
        let event = Event::Found {
            row: row.number,
            cut: place,
            work,
        };
        self.put(spot, row, None, Some(path), event);
        if !above {
            // The rows after it are above the path, and those before it aren't.
            let first = spot.place + 1;
            let after = self.count_from(first);
            self.counts = self.counts.forget(after);
            self.best = Some(place);
            drop_rows(&mut self.rows, first);
        }
        above
    }
}
