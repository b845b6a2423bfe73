//! Tests on the order of choice lists.
#![tactic(auto)]

ghost use Rattle.std.specs.Prelude.{◌≡◌, ◌↔◌, IsTrue};
ghost use Rattle.pm_book.specs.Rows.{is_before, is_below};

use pm_choice::{Bound, compare};

/// Whether a list precedes another.
pub fn is_before(list: &[u32], other: &[u32]) -> bool
    ensures { result ≡ is_before list.now other.now }
{
    compare(list, other).is_lt()
}

/// Whether a list precedes a bound.
pub fn is_below(list: &[u32], bound: &Bound) -> bool
    ensures { result ≡ is_below list.now bound.now }
{
    match bound {
        Bound::At(end) => is_before(list, end.as_slice()),
        Bound::End => true,
    }
}

/// Whether two lists are the same.
pub fn is_same(list: &[u32], other: &[u32]) -> bool
    ensures { IsTrue result ↔ (list.now ≡ other.now) }
{
    compare(list, other).is_eq()
}
