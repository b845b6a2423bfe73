//! The steps of the threads on one deque, and the rule that they keep.

use crossbeam_deque::protocol::{Outcome, Protocol, Split};
use std::collections::LinkedList;

/// What a thread does to a deque.
#[derive(Drop)]
pub enum Step {
    /// Appends this number.
    Push(u64),
    /// Takes this number, the newest.
    Pop(u64),
    /// Takes this number, the oldest.
    Steal(u64),
}

/// The steps of one thread, in their order. Contracts alone speak of them, so no value of it is
/// made.
pub type Steps = LinkedList<Step>;

/// The rule: each number that was pushed is taken once or stands in the deque.
pub struct Kept;

impl Protocol<u64, Steps> for Kept {
    ghost use Rattle.std.specs.Prelude.{[]};
    ghost use Rattle.pm_steal.specs.History.{IsKept};

    ghost holds = { IsKept };

    ghost first = { [] };

    ghost guest = { [] };
}

/// A new thread comes, with no step taken.
pub struct Joining;

impl Split<Steps> for Joining {
    ghost use Rattle.std.specs.Prelude.{[]};

    ghost left = { λ steps. steps };

    ghost right = { λ steps. [] };
}

/// A push that found room.
pub struct Pushing;

impl Outcome<u64, Steps> for Pushing {
    ghost use Rattle.std.specs.Prelude.{◌≡◌, ◌++◌, map};
    ghost use Rattle.pm_steal.specs.declared.steps.Step.TheVariants.{Push};

    ghost then = { λ old rows new. new ≡ old ++ map Push rows };
}

/// A pop, and what it tells where it finds nothing.
pub struct Popping;

impl Outcome<u64, Steps> for Popping {
    ghost use Rattle.std.specs.Prelude.{◌≡◌, ◌++◌, map};
    ghost use Rattle.pm_steal.specs.History.{HeldAtMost};
    ghost use Rattle.pm_steal.specs.declared.steps.Step.TheVariants.{Pop};

    ghost then = { λ old rows new. new ≡ old ++ map Pop rows };

    ghost empty = { HeldAtMost 0 };
}

/// A steal, and what it tells where it finds nothing.
pub struct Stealing;

impl Outcome<u64, Steps> for Stealing {
    ghost use Rattle.std.specs.Prelude.{◌≡◌, ◌++◌, map};
    ghost use Rattle.pm_steal.specs.History.{HeldAtMost};
    ghost use Rattle.pm_steal.specs.declared.steps.Step.TheVariants.{Steal};

    ghost then = { λ old rows new. new ≡ old ++ map Steal rows };

    ghost empty = { HeldAtMost 1 };
}
