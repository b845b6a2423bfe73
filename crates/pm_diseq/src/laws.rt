//! The laws of pools and of their marks: each is what a function without a body ensures.
ghost use Rattle.pm_diseq.specs.Laws.{EmptyPoolsStand, PoolsStandLater, PoolsStoodAtMarks, StandingPairsAreApart, PoolMarksLast, PoolMarksNest};

/// A pool in which nothing is written stands at every store.
pub fn empty_pools_stand()
    ensures { EmptyPoolsStand }
{}

/// A pool that stands at a store stands at it still when new cells were made.
pub fn pools_stand_later()
    ensures { PoolsStandLater }
{}

/// A pool that stood at a store when this gave a mark may settle after the variables that the store
/// has bound since.
pub fn pools_stood_at_marks()
    ensures { PoolsStoodAtMarks }
{}

/// In a sound store at which a pool stands no kept pair is identical.
pub fn standing_pairs_are_apart()
    ensures { StandingPairsAreApart }
{}

/// A pool that has grown has the marks that it had, and has at each what it had there before.
pub fn pool_marks_last()
    ensures { PoolMarksLast }
{}

/// A pool at a mark has the earlier marks still, and has at each what it had there before.
pub fn pool_marks_nest()
    ensures { PoolMarksNest }
{}
