//! The task book of a level: which parts of the search are to be done, are being done, or are done.
//!
//! A book's rows are intervals of choice lists, in their order, and they tile from the empty list
//! to the end. Each call of a book is one event or none, and the book is the replay of its own
//! events.
//!
//! What the calls cost: `queued`, `spent`, `best`, `rows`, `events` and `cuts` are one step. `claim`,
//! `split`, `give_back`, `close`, `found` and `wanted` find their row by a binary search on the
//! lower ends of the rows. `take` looks for the first Queued row from where it found the last one,
//! or from the first row that was Queued since. A split, and a return above the lower end, move the
//! rows after the new one by a place. A `found` that counts makes two passes over the rows after
//! its own. `take` and `claim` copy the two lists of the row's interval, `split` copies its list
//! for the book and for the ticket, and the other calls copy no list and take no memory. No call
//! reads the history. `replay` costs as much for each event as the call that makes it.
#![tactic(auto)]

mod book;
mod counts;
mod event;
mod history;
mod laws;
mod order;
mod row;
mod tables;
mod ticket;

pub use book::Book;
pub use event::Event;
pub use history::{ReplayFault, replay};
pub use laws::{
    each_event_covers_its_row, each_list_is_in_one_row, each_replay_holds, fronts_stop,
    fronts_tell, settled_books_tell,
};
pub use row::{BookRow, RowState};
pub use ticket::{Claimed, Ended, SplitReply, Taken, Ticket};

#[cfg(test)]
mod tests;
