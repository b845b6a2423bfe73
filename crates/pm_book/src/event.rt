//! Events of a book.
#![tactic(auto)]

/// One change of a book. `row` is the number of a row, and `cut` the place of a list in the book's
/// cuts.
#[derive(Clone, Copy, Debug, PartialEq, Eq)]
pub enum Event {
    Took { worker: u16, row: u64 },
    Claimed { worker: u16, row: u64 },
    Split { row: u64, cut: u64 },
    Returned { row: u64, cut: u64, work: u64 },
    Closed { row: u64, work: u64 },
    Found { row: u64, cut: u64, work: u64 },
}
