//! How a worker gets its rows, and what it tells of them.
#![tactic(auto)]

ghost use Rattle.std.specs.Prelude.{◌≡◌, ◌↔◌, ◌<◌, false, IfOk, IsTrue, OnErr, MatchBool};
ghost use Rattle.std.specs.List.{count_by};
ghost use Rattle.std.specs.Option.{unwrap_or};
ghost use Rattle.pm_choice.specs.declared.Bound.TheVariants.{At};
ghost use Rattle.pm_choice.specs.Order.{IsWithin};
ghost use Rattle.pm_book.specs.Rows.{is_above, is_queued, spent};
ghost use Rattle.pm_book.specs.Answers.{Knows};

use pm_book::{Book, Ended, SplitReply, Taken, Ticket};
use pm_choice::Choices;
use std::alloc::AllocError;

/// What a worker looks at after each slice of its search.
#[derive(Clone, Copy, Debug)]
pub struct Look {
    /// Its row is Running with its interval, and isn't above best.
    pub wanted: bool,
    /// The sum of the works of the Done rows that aren't above best.
    pub spent: u128,
    /// Fewer rows are Queued than there are workers.
    pub hungry: bool,
}

/// The place of a worker at a book: where it takes rows, and where it tells what became of them.
/// The end of a row that the book doesn't know has no effect.
pub trait Desk {
    /// The next row to search. None where the worker is to end.
    fn next(&mut self) -> Result<Option<Ticket>, AllocError>;

    /// A look at the book and at the ticket's row.
    fn look(&mut self, ticket: &Ticket) -> Look;

    /// Splits the ticket's row at a list, and answers whether it did; then the ticket ends there.
    fn split(&mut self, ticket: &mut Ticket, mid: &[u32]) -> Result<bool, AllocError>
        ensures split { IfOk result (λ split. MatchBool split
            (ticket.new ≡ record ticket.old { to = At mid.now }) (ticket.new ≡ ticket.old)) }
        ensures err { OnErr result (ticket.new ≡ ticket.old) };

    /// Gives a row back at a list, or at its lower end where `at` is none.
    fn give_back(&mut self, ticket: Ticket, at: Option<Choices>, work: u64)
        requires within { IsWithin ticket.from ticket.to (unwrap_or at ticket.from) }
        requires work { unwrap_or at ticket.from ≡ ticket.from → work ≡ 0 };

    /// Closes a row.
    fn close(&mut self, ticket: Ticket, work: u64);

    /// A path was found in a row.
    fn found(&mut self, ticket: Ticket, path: Choices, work: u64)
        requires { IsWithin ticket.from ticket.to path };
}

/// The desk of one worker over a book that is its own.
#[derive(Drop)]
pub struct Owner<'a> {
    pub book: &'a mut Book,
    pub worker: u16,
    pub workers: u16,
}

// Lets go of what the end of a row answers.
fn let_go(ended: Ended) {
    match ended {
        Ended::Kept => {}
        Ended::Dropped => {}
        Ended::Unknown(ticket) => ticket.discard(),
    }
}

impl Desk for Owner<'_> {
    fn next(&mut self) -> Result<Option<Ticket>, AllocError> {
        match self.book.take(self.worker)? {
            Taken::Task(ticket) => Ok(Some(ticket)),
            Taken::Idle => Ok(None),
            Taken::Over => Ok(None),
        }
    }

    fn look(&mut self, ticket: &Ticket) -> Look {
        look_at(self.book, ticket, self.workers)
    }

    fn split(&mut self, ticket: &mut Ticket, mid: &[u32]) -> Result<bool, AllocError> {
        let reply = self.book.split(ticket, mid)?;
        Ok(matches!(reply, SplitReply::Split { .. }))
    }

    fn give_back(&mut self, ticket: Ticket, at: Option<Choices>, work: u64) {
        let_go(self.book.give_back(ticket, at, work));
    }

    fn close(&mut self, ticket: Ticket, work: u64) {
        let_go(self.book.close(ticket, work));
    }

    fn found(&mut self, ticket: Ticket, path: Choices, work: u64) {
        let_go(self.book.found(ticket, path, work));
    }
}

/// What a worker sees of a book, with so many workers.
pub fn look_at(book: &Book, ticket: &Ticket, workers: u16) -> Look
    ensures wanted { IsTrue result.wanted
        ↔ (Knows book.now ticket.now × (is_above book.now.best ticket.now.from ≡ false)) }
    ensures spent { result.spent ≡ spent book.now }
    ensures hungry { IsTrue result.hungry
        ↔ (count_by (λ row. is_queued row.state) book.now.rows < workers) }
{
    Look {
        wanted: book.wanted(ticket),
        spent: book.spent(),
        hungry: book.queued() < u64::from(workers),
    }
}
