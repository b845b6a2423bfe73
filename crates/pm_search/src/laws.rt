//! The laws of attempts, first complete lists and counts, for every space.
ghost use Rattle.pm_choice.specs.EntryLaws.{FirstIsUnique, EntriesAreUnique, EntriesJoin};
ghost use Rattle.pm_search.specs.Attempts.{attempts_of};
ghost use Rattle.pm_search.specs.Laws.{CompleteIsAttempt};
ghost use Rattle.pm_search.specs.Work.{WorkIsUnique, MoreExceeds};

use pm_space::Space;

/// An interval has one first complete list at most.
pub fn first_is_unique<S: Space>()
    ensures { (space : S) → FirstIsUnique (attempts_of (S.key space)) }
{}

/// The attempts of an interval are one list, and so are those up to and with a list; each has one
/// count.
pub fn attempts_are_unique<S: Space>()
    ensures { (space : S) → EntriesAreUnique (attempts_of (S.key space)) }
{}

/// The attempts of two neighbouring intervals, one list after the other, are those of both.
pub fn attempts_join<S: Space>()
    ensures { (space : S) → EntriesJoin (attempts_of (S.key space)) }
{}

/// Each complete list is an attempt.
pub fn complete_is_attempt<S: Space>()
    ensures { (space : S) → CompleteIsAttempt (S.key space) }
{}

/// A level has one work at most.
pub fn work_is_unique<S: Space>()
    ensures { (space : S) → WorkIsUnique (S.key space) }
{}

/// Where more attempts than the budget have no complete list before them, the work of the level
/// exceeds the budget.
pub fn more_attempts_exceed<S: Space>()
    ensures { (space : S) → MoreExceeds (S.key space) }
{}
