//! Rows of a book.
#![tactic(auto)]

/// How a row stands.
#[derive(Clone, Copy, Debug, PartialEq, Eq)]
pub enum RowState {
    /// It may be taken.
    Queued,
    /// This worker searches it.
    Running { worker: u16 },
    /// It was searched, with this number of attempts; `found` where a complete list was found.
    Done { work: u64, found: bool },
    /// It is above the best path, so nothing in it counts.
    Dropped,
}

/// A row of a book: a part of the search.
///
/// `from` and `to` are places in the book's cuts. The lower end of the row is the list at `from`,
/// or the empty list where there is none; the upper end is the list at `to`, or the end of all
/// lists.
#[derive(Clone, Copy, Debug, PartialEq, Eq)]
pub struct BookRow {
    pub number: u64,
    pub from: Option<u64>,
    pub to: Option<u64>,
    pub state: RowState,
}
