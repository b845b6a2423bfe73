//! Tickets of a book's rows, and what the calls of a book answer.
#![tactic(auto)]

ghost use Rattle.std.specs.Prelude.{◌≡◌};
ghost use Rattle.pm_choice.specs.Order.{PrecedesBound};

use pm_choice::{Bound, Choices};
use std::marker::Model;

/// A ticket of a Running row: the number of the row, and its interval. It must be spent.
///
/// Its lower end precedes its upper end.
pub struct Ticket {
    pub(super) number: u64,
    pub(super) from: Choices,
    pub(super) to: Bound,
}

impl Model for Ticket {
    ghost use Rattle.pm_choice.specs.Order.{PrecedesBound};
    ghost use Rattle.pm_book.specs.Rows.{Span};

    ghost Value = { Span };

    ghost view = { λ a. record { number = a.number; from = a.from; to = a.to } };

    ghost invariant = { λ a. PrecedesBound a.from a.to };
}

impl Ticket {
    /// The number of the row.
    pub fn number(&self) -> u64
        ensures { result ≡ self.now.number }
    {
        self.number
    }

    /// The lower end of the interval.
    pub fn from(&self) -> &[u32]
        ensures from { result.now ≡ self.now.from }
        ensures interval { PrecedesBound self.now.from self.now.to }
    {
        self.from.as_slice()
    }

    /// The upper end of the interval.
    pub fn to(&self) -> &Bound
        ensures { result.now ≡ self.now.to }
    {
        &self.to
    }

    /// Spends the ticket. Its row stays as it is.
    pub fn discard(self) {
        let Ticket {
            number: _number,
            from: _from,
            to: _to,
        } = self;
    }
}

/// What `take` answers.
pub enum Taken {
    /// The first Queued row is Running.
    Task(Ticket),
    /// No row is Queued, but the book isn't over.
    Idle,
    /// The budget is exceeded, or no row that isn't above best is Queued or Running.
    Over,
}

/// What `claim` answers.
pub enum Claimed {
    /// The row is Running.
    Task(Ticket),
    /// The row isn't Queued.
    Gone,
}

/// What `split` answers.
#[derive(Clone, Copy, Debug, PartialEq, Eq)]
pub enum SplitReply {
    /// The row and the ticket end where they were split, and this is the row of the rest.
    Split { row: u64 },
    /// No Running row has the ticket's number and interval.
    Unknown,
    /// The list isn't strictly between the ticket's ends.
    OutOfRange,
}

/// What the end of a row answers.
pub enum Ended {
    /// The row counts.
    Kept,
    /// The row was above best and is Dropped.
    Dropped,
    /// No Running row has the ticket's number and interval, and the ticket comes back.
    Unknown(Ticket),
}
