//! Pools: pairs of lists of cells that must not become identical.
ghost use Rattle.std.specs.Prelude.{◌≡◌, ◌↔◌, ◌<◌, ◌≤◌, ◌-◌, ◌++◌, ◌∷◌, [], ℕ, IsTrue, All, Contains, IfOk, OnOk, OnErr, length, map, take};
ghost use Rattle.std.specs.Bool.{OnTrue, OnFalse};
ghost use Rattle.pm_store.specs.Equations.{Equations};
ghost use Rattle.pm_diseq.specs.Notes.{Pair, Note, Kept, Waits, as_pair, pairs_of, GrowsTo};
ghost use Rattle.pm_diseq.specs.Standing.{AreIdentical, IsWithin, ArePairsOf, StandsAt, StoodBefore};
ghost use Rattle.pm_diseq.specs.Inside.Comparing.{Tells};
ghost use Rattle.pm_diseq.specs.Inside.Entries.{IsNewest};
ghost use Rattle.pm_diseq.specs.Inside.Waiting.{pair_at, watched, IsPlaceOf, IsGrown, Watches, AddsWaits, Rewaits, AreLookedAt, AreAllLookedAt, HasIdentical};

use crate::comparison::{Difference, compare};
use crate::entries::{Entry, Span, make_room};
use pm_store::{Addr, Store, stores_are_sound};
use std::alloc::{AllocError, Global};
use std::marker::Model;

/// Pairs of lists of cells of a store that must not become identical. Seen as what was written
/// down: each kept pair, and the variables at which it waits.
#[derive(Drop)]
pub struct Pool {
    alloc: Global,
    // The cells of the kept pairs, one pair's after the other's.
    cells: Vec<Addr>,
    log: Vec<Entry>,
    // For the number of a variable the place of the newest entry that waits at it.
    newest: Vec<Option<usize>>,
}

impl Model for Pool {
    ghost use Rattle.std.specs.Prelude.{List};
    ghost use Rattle.pm_diseq.specs.Notes.{Note};

    ghost Value = { List Note };

    ghost use Rattle.pm_diseq.specs.Inside.Entries.{notes_of, AreHeld};

    ghost view = { λ a. notes_of a.cells.items a.log.items };

    ghost invariant = { λ a. AreHeld a.cells.items a.log.items a.newest.items };
}

impl Pool {
    /// A pool without pairs.
    pub fn new(alloc: Global) -> Pool
        ensures { result ≡ [] }
    {
        Pool {
            alloc,
            cells: Vec::new(alloc),
            log: Vec::new(alloc),
            newest: Vec::new(alloc),
        }
    }

    /// Keeps a pair of lists of cells of the store, as long as each other, unless they are
    /// identical terms; answers whether it is kept. The pool stands at the store
    /// (`pools_stand_later` says that new cells are no harm). On false and after want of memory the
    /// pool is as before.
    pub fn add(&mut self, store: &Store, left: &[Addr], right: &[Addr]) -> Result<bool, AllocError>
        requires within { IsWithin store.now (as_pair left.now right.now) }
        requires stands { StandsAt store.now self.old }
        ensures answer { IfOk result (λ apart. IsTrue apart
            ↔ (¬ AreIdentical store.now (as_pair left.now right.now))) }
        ensures kept { IfOk result (λ apart. OnTrue apart
            (GrowsTo self.old self.new (pairs_of self.old ++ as_pair left.now right.now ∷ []))) }
        ensures stands { OnOk result (StandsAt store.now self.new) }
        ensures refused { IfOk result (λ apart. OnFalse apart (self.new ≡ self.old)) }
        ensures err { OnErr result (self.new ≡ self.old) }
    {
        stores_are_sound(store);
        let mark = self.mark();
        match self.keep(store, left, right) {
            Ok(true) => Ok(true),
            Ok(false) => {
                self.undo(mark);
                Ok(false)
            }
            Err(error) => {
                self.undo(mark);
                Err(error)
            }
        }
    }

    /// Looks at the kept pairs after exactly these variables were bound, and perhaps cells made, in
    /// the store at which the pool stood; answers whether no kept pair is identical now. Only the
    /// pairs that wait at one of the variables are looked at. On false and after want of memory the
    /// pool is as before.
    pub fn settle_after(&mut self, store: &Store, bound: &[Addr]) -> Result<bool, AllocError>
        requires { StoodBefore store.now self.old bound.now }
        ensures answer { IfOk result (λ apart. IsTrue apart
            ↔ All (λ pair. ¬ AreIdentical store.now pair) (pairs_of self.old)) }
        ensures kept { OnOk result (GrowsTo self.old self.new (pairs_of self.old)) }
        ensures stands { IfOk result (λ apart. OnTrue apart (StandsAt store.now self.new)) }
        ensures refused { IfOk result (λ apart. OnFalse apart (self.new ≡ self.old)) }
        ensures err { OnErr result (self.new ≡ self.old) }
    {
        stores_are_sound(store);
        let mark = self.mark();
        match self.look_again(store, bound) {
            Ok(true) => Ok(true),
            Ok(false) => {
                self.undo(mark);
                Ok(false)
            }
            Err(error) => {
                self.undo(mark);
                Err(error)
            }
        }
    }

    /// How much is written down, for `undo`. This takes no memory.
    pub fn mark(&self) -> usize
        ensures { result ≡ length self.now }
    {
        self.log.len()
    }

    /// The pool has again what it had when it gave the mark, which it didn't undo past. The caller
    /// undoes the store to its own mark of that moment before the next call. This takes no memory.
    pub fn undo(&mut self, mark: usize)
        requires { mark ≤ length self.old }
        ensures { self.new ≡ take mark self.old }
    {
        'entries: while self.mark() > mark {
            self.pop();
        }
    }

    // Takes away the newest entry.
    fn pop(&mut self)
        requires { 0 < length self.old }
        ensures { self.new ≡ take (length self.old - 1) self.old }
    {
        if let Some(entry) = self.log.pop() {
            match entry {
                Entry::Keep(span) => self.cells.truncate(span.start),
                Entry::Wait { at, previous, .. } => self.newest[at.number()] = previous,
            }
        }
    }

    // Keeps a pair, and lets it wait; answers whether it is apart.
    fn keep(&mut self, store: &Store, left: &[Addr], right: &[Addr]) -> Result<bool, AllocError>
        requires { IsWithin store.now (as_pair left.now right.now) }
        ensures ok { IfOk result (Watches store.now (as_pair left.now right.now) self.new) }
        ensures begun { OnOk result (AddsWaits (as_pair left.now right.now)
            (self.old ++ Kept (as_pair left.now right.now) ∷ []) self.new) }
        ensures more { IsGrown self.old self.new }
    {
        let place = self.mark();
        self.begin(left, right)?;
        self.watch(store, place)
    }

    // Writes down a pair. After want of memory nothing has changed.
    fn begin(&mut self, left: &[Addr], right: &[Addr]) -> Result<(), AllocError>
        requires { length left.now ≡ length right.now }
        ensures ok { OnOk result (self.new ≡ self.old ++ Kept (as_pair left.now right.now) ∷ []) }
        ensures err { OnErr result (self.new ≡ self.old) }
    {
        let start = self.cells.len();
        self.log.reserve(1)?;
        self.cells.extend_from_slice(left)?;
        if let Err(error) = self.cells.extend_from_slice(right) {
            self.cells.truncate(start);
            return Err(error);
        }
        self.log.push_reserved(Entry::Keep(Span {
            start,
            count: left.len(),
        }));
        Ok(())
    }

    // Looks at the pairs that wait at one of these variables; answers whether all are apart.
    fn look_again(&mut self, store: &Store, bound: &[Addr]) -> Result<bool, AllocError>
        requires { ArePairsOf store.now self.old }
        ensures ok { IfOk result (AreAllLookedAt store.now self.old bound.now self.new) }
        ensures more { Rewaits self.old self.new }
    {
        'variables: for &v in bound.iter() {
            if !self.look_at(store, v)? {
                return Ok(false);
            }
        }
        Ok(true)
    }

    // Looks at the pairs that wait at this variable; answers whether all are apart.
    fn look_at(&mut self, store: &Store, v: Addr) -> Result<bool, AllocError>
        requires { ArePairsOf store.now self.old }
        ensures ok { IfOk result (AreLookedAt store.now self.old v self.new) }
        ensures more { Rewaits self.old self.new }
    {
        let mut next = self.newest_at(v);
        'entries: while let Some(place) = next {
            if !self.watch(store, place)? {
                return Ok(false);
            }
            next = self.previous_at(place);
        }
        Ok(true)
    }

    // Compares the lists of the pair at this place, and lets it wait at the variables that keep it
    // apart; answers whether it is apart.
    fn watch(&mut self, store: &Store, place: usize) -> Result<bool, AllocError>
        requires place { place < length self.old }
        requires within { IsWithin store.now (pair_at self.old place) }
        ensures ok { IfOk result (Watches store.now (pair_at self.old place) self.new) }
        ensures more { AddsWaits (pair_at self.old place) self.old self.new }
    {
        let room = store.len();
        match self.difference_at(store, place)? {
            Difference::Nothing => Ok(false),
            Difference::Clash => Ok(true),
            Difference::OneVariable(v) => {
                self.wait(place, v, room)?;
                Ok(true)
            }
            Difference::TwoVariables(v, w) => {
                self.wait(place, v, room)?;
                self.wait(place, w, room)?;
                Ok(true)
            }
        }
    }

    // What keeps the lists of the pair at this place apart.
    fn difference_at(&self, store: &Store, place: usize) -> Result<Difference, AllocError>
        requires place { place < length self.now }
        requires within { IsWithin store.now (pair_at self.now place) }
        ensures { IfOk result (Tells store.now (pair_at self.now place)) }
    {
        let span = self.log[place].span();
        let middle = span.start + span.count;
        let left = &self.cells[span.start..middle];
        let right = &self.cells[middle..middle + span.count];
        compare(self.alloc, store, left, right)
    }

    // Lets the pair at this place wait at a variable with a number below `room`. After want of
    // memory nothing has changed.
    fn wait(&mut self, place: usize, v: Addr, room: usize) -> Result<(), AllocError>
        requires place { place < length self.old }
        requires room { v < room }
        ensures ok { OnOk result (self.new ≡ self.old ++ Waits (pair_at self.old place) v ∷ []) }
        ensures err { OnErr result (self.new ≡ self.old) }
    {
        let number = v.number();
        make_room(&mut self.newest, number, room)?;
        let entry = Entry::Wait {
            span: self.log[place].span(),
            at: v,
            previous: self.newest[number],
        };
        let next = self.log.len();
        self.log.push(entry)?;
        self.newest[number] = Some(next);
        Ok(())
    }

    // The place of the newest entry that waits at the variable.
    fn newest_at(&self, v: Addr) -> Option<usize>
        ensures { IsNewest (map watched self.now) (length self.now) v result }
    {
        match self.newest.get(v.number()) {
            Some(place) => *place,
            None => None,
        }
    }

    // The place of the entry before this one that waits at the same variable.
    fn previous_at(&self, place: usize) -> Option<usize>
        requires { place < length self.now }
        ensures { (v : ℕ) → IsPlaceOf self.now place v
            → IsNewest (map watched self.now) place v result }
    {
        match self.log[place] {
            Entry::Wait { previous, .. } => previous,
            Entry::Keep(_) => None,
        }
    }
}
