//! A depth-first search of an interval of choice lists, over any space, counted in attempts.
#![tactic(auto)]

ghost use Rattle.std.specs.Prelude.{◌≡◌, ◌+◌, ◌^◌, ◌<◌, ◌≤◌, true, false, [], ◌∷◌, ◌++◌, IsSome, IfOk, IfSome, OnErr, MatchOption, IsSomeAnd, ◌↔◌, IsTrue, IsFalse};
ghost use Rattle.pm_space.specs.Key.{Agree};
ghost use Rattle.pm_choice.specs.declared.Bound.TheVariants.{At};
ghost use Rattle.pm_choice.specs.Order.{Precedes, PrecedesBound};
ghost use Rattle.pm_search.specs.Turns.{IsTurn};
ghost use Rattle.pm_search.specs.Standing.{IsAhead, StandsAfter, Searches};
ghost use Rattle.pm_search.specs.Cuts.{IsCut};
ghost use Rattle.pm_search.specs.Inside.Moves.{EndsTurn, HasAttempted};

use pm_choice::{Bound, Choices, precedes};
use pm_space::Space;
use std::alloc::{AllocError, Global};
use std::marker::Model;

mod laws;
mod place;

pub use laws::{
    attempts_are_unique, attempts_join, complete_is_attempt, first_is_unique, more_attempts_exceed,
    work_is_unique,
};
use place::{descend, pass_hopeless, settle, try_place};

/// What a turn of a search answers. `work` counts the attempts since `seek`.
#[derive(Debug, Drop)]
pub enum Turn {
    /// The interval has no more attempts, and no complete list.
    Closed { work: u64 },
    /// The first complete list of the interval.
    Found { path: Choices, work: u64 },
    /// The fuel is spent. `at` is the next attempt.
    Paused { at: Choices, work: u64 },
}

// Whether a search is at an attempt, has none left, or has answered Closed or Found.
#[derive(Clone, Copy)]
enum Stage {
    Attempting,
    Ended,
    Answered,
}

/// A search of an interval of a space, which makes the attempts of the interval in their order.
#[derive(Drop)]
pub struct Search<S: Space> {
    space: S,
    from: Choices,
    to: Bound,
    // The next attempt: the path of the space and a choice.
    place: Vec<u32>,
    // The number of alternatives after each prefix of the path.
    widths: Vec<u32>,
    worked: u64,
    stage: Stage,
}

impl<S: Space> Model for Search<S> {
    ghost use Rattle.pm_search.specs.Standing.{Standing};

    ghost Value = { Standing S };

    ghost use Rattle.pm_search.specs.Inside.Places.{next_of, has_answered, Holds};

    ghost view = { λ a. record {
      space = a.space;
      from = a.from;
      to = a.to;
      next = next_of a.stage a.place.items;
      worked = a.worked;
      answered = has_answered a.stage;
    } };

    ghost invariant = { λ a. Holds (S.key a.space) (S.path a.space) a.place.items a.widths.items
        a.from a.to a.worked a.stage };
}

impl<S: Space> Search<S> {
    /// A search of the interval from `from` to `to`, which stands at the least attempt not below
    /// `from`. After want of memory the space has been dropped.
    pub fn seek(alloc: Global, space: S, from: &[u32], to: Bound) -> Result<Search<S>, AllocError>
        requires path { S.path space ≡ [] }
        requires interval { PrecedesBound from.now to }
        ensures interval { IfOk result (Searches from.now to) }
        ensures work { IfOk result (λ search. search.worked ≡ 0) }
        ensures open { IfOk result (λ search. search.answered ≡ false) }
        ensures ahead { IfOk result (λ search. IsAhead (S.key space) search) }
        ensures key { IfOk result (λ search. Agree (S.key search.space) (S.key space)) }
    {
        let mut space = space;
        let mut place = Vec::new(alloc);
        let mut widths = Vec::new(alloc);
        descend(&mut space, from, &mut place, &mut widths)?;
        let from = Choices::from_slice(alloc, from)?;
        let stage = settle(&mut space, &mut place, &mut widths, &to);
        Ok(Search {
            space,
            from,
            to,
            place,
            widths,
            worked: 0,
            stage,
        })
    }

    /// Makes attempts in their order: at most `fuel`, and none after the first complete list.
    ///
    /// After want of memory the search stands at its next attempt and may be run again.
    pub fn run(&mut self, fuel: u64) -> Result<Turn, AllocError>
        requires open { self.old.answered ≡ false }
        requires fuel { 0 < fuel }
        requires most { self.old.worked + fuel ≤ 2 ^ 63 }
        ensures turn { IfOk result
            (IsTurn (S.key self.old.space) self.old.from self.old.to (self.old.worked + fuel)) }
        ensures after { IfOk result (λ turn. StandsAfter turn self.new (S.path self.new.space)) }
        ensures err { OnErr result (self.new.answered ≡ false) }
        ensures work { (self.old.worked ≤ self.new.worked)
            × (self.new.worked ≤ self.old.worked + fuel) }
        ensures interval { Searches self.old.from self.old.to self.new }
        ensures key { Agree (S.key self.new.space) (S.key self.old.space) }
    {
        let most = self.worked + fuel;
        'attempts: while self.worked < most && self.is_attempting() {
            if self.pass(most) {
                continue;
            }
            if let Some(path) = self.attempt()? {
                let work = self.worked;
                return Ok(Turn::Found { path, work });
            }
        }
        self.pause()
    }

    // Whether a next attempt is left.
    fn is_attempting(&self) -> bool
        ensures { IsTrue result ↔ IsSome self.now.next }
    {
        matches!(self.stage, Stage::Attempting)
    }

    // Pauses at the next attempt, or closes where none is left.
    fn pause(&mut self) -> Result<Turn, AllocError>
        requires { self.old.answered ≡ false }
        ensures ended { IfOk result (EndsTurn (S.key self.old.space) self.old) }
        ensures after { IfOk result (λ turn. StandsAfter turn self.new (S.path self.new.space)) }
        ensures err { OnErr result (self.new.answered ≡ false) }
        ensures work { self.new.worked ≡ self.old.worked }
        ensures interval { Searches self.old.from self.old.to self.new }
        ensures key { Agree (S.key self.new.space) (S.key self.old.space) }
    {
        let work = self.worked;
        if let Stage::Attempting = self.stage {
            let at = Choices::from_slice(*self.place.allocator(), &self.place)?;
            return Ok(Turn::Paused { at, work });
        }
        self.stage = Stage::Answered;
        Ok(Turn::Closed { work })
    }

    // Passes attempts that the space knows to be hopeless, until `most` are made in all. False
    // where the next attempt isn't one.
    fn pass(&mut self, most: u64) -> bool
        requires next { IsSome self.old.next }
        requires most { self.old.worked < most }
        ensures passed { IsTrue result → self.old.worked < self.new.worked }
        ensures most { self.new.worked ≤ most }
        ensures none { IsFalse result
            → (self.new.next ≡ self.old.next) × (self.new.worked ≡ self.old.worked) }
        ensures open { self.new.answered ≡ false }
        ensures interval { Searches self.old.from self.old.to self.new }
        ensures key { Agree (S.key self.new.space) (S.key self.old.space) }
    {
        let left = most - self.worked;
        let passed = pass_hopeless(&self.space, &mut self.place, &self.to, left);
        if passed == 0 {
            return false;
        }
        self.worked += u64::from(passed);
        self.stage = settle(&mut self.space, &mut self.place, &mut self.widths, &self.to);
        true
    }

    // Makes the next attempt, and answers its list where it is complete.
    fn attempt(&mut self) -> Result<Option<Choices>, AllocError>
        requires next { IsSome self.old.next }
        requires room { self.old.worked < 2 ^ 63 }
        ensures ok { IfOk result
            (HasAttempted (S.key self.old.space) self.old self.new (S.path self.new.space)) }
        ensures err { OnErr result
            ((self.new.worked ≡ self.old.worked) × (self.new.answered ≡ false)) }
        ensures interval { Searches self.old.from self.old.to self.new }
        ensures key { Agree (S.key self.new.space) (S.key self.old.space) }
    {
        let found = try_place(&mut self.space, &mut self.place, &mut self.widths)?;
        self.worked += 1;
        if let Some(path) = found {
            self.stage = Stage::Answered;
            return Ok(Some(path));
        }
        self.stage = settle(&mut self.space, &mut self.place, &mut self.widths, &self.to);
        Ok(None)
    }

    /// Where the rest of the interval may be cut off: let the next attempt be given. A list fits
    /// where it is followed by a choice in the next attempt, and is followed by the alternative
    /// after this choice in a list below the upper bound. Answers that list for the shortest that
    /// fits. None where none fits or no attempt is left.
    pub fn cut(&self) -> Result<Option<Choices>, AllocError>
        requires { self.now.answered ≡ false }
        ensures cut { IfOk result (IsCut (S.key self.now.space) self.now.to self.now.next) }
        ensures above { IfOk result
            (λ cut. IfSome cut (λ list. IsSomeAnd self.now.next (λ next. Precedes next list))) }
        ensures below { IfOk result (λ cut. IfSome cut (λ list. PrecedesBound list self.now.to)) }
    {
        let mut cut = Choices::from_slice(*self.place.allocator(), &[])?;
        if !self.is_attempting() {
            return Ok(None);
        }
        'places: for (n, choice) in self.place.iter().enumerate() {
            let choice = *choice;
            if choice + 1 < self.widths[n] {
                cut.push(choice + 1)?;
                if precedes(cut.as_slice(), &self.to) {
                    return Ok(Some(cut));
                }
                let _choice = cut.pop();
            }
            cut.push(choice)?;
        }
        Ok(None)
    }

    /// Makes `to` the upper bound.
    pub fn shorten(&mut self, to: Choices)
        requires next { IsSomeAnd self.old.next (λ next. Precedes next to) }
        requires bound { PrecedesBound to self.old.to }
        ensures { self.new ≡ record self.old { to = At to } }
    {
        self.to = Bound::At(to);
    }

    /// The number of attempts since `seek`.
    pub fn worked(&self) -> u64
        ensures worked { result ≡ self.now.worked }
        ensures ahead { self.now.answered ≡ false → IsAhead (S.key self.now.space) self.now }
    {
        self.worked
    }

    /// The space.
    pub fn space(&self) -> &S
        ensures { result.now ≡ self.now.space }
    {
        &self.space
    }

    /// The space.
    pub fn into_space(self) -> S
        ensures { result ≡ self.space }
    {
        let Search { space, .. } = self;
        space
    }
}

#[cfg(test)]
mod tests;
