//! The laws of the order of choice lists, and of counting along it.
ghost use Rattle.std.specs.Prelude.{List, ℕ};
ghost use Rattle.pm_choice.specs.declared.Bound.{Bound};
ghost use Rattle.pm_choice.specs.declared.Bound.TheVariants.{At};
ghost use Rattle.pm_choice.specs.Order.{Precedes, PrecedesBound, IsStrictTotalOrder, PrefixesPrecede, IntervalsJoin};
ghost use Rattle.pm_choice.specs.EntryLaws.{ClosedListIsCounted};

/// The order of choice lists is a strict total order.
pub fn order_is_total()
    ensures { IsStrictTotalOrder Precedes }
{}

/// A prefix comes before what it begins.
pub fn prefixes_precede()
    ensures { PrefixesPrecede }
{}

/// The intervals from a to b and from b to c make the one from a to c, and share nothing.
pub fn intervals_join()
    ensures { (a b : List ℕ) (c : Bound) → (¬ Precedes b a) → PrecedesBound b c
        → IntervalsJoin a b c }
{}

/// Let the lists of a rising list be counted, some of them marked. Where the whole closes, none of
/// them is marked, and all of them are counted.
pub fn closed_list_is_counted()
    ensures { ClosedListIsCounted }
{}
