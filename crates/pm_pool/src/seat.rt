//! The place of a worker at the book that all workers of a level share.
#![tactic(auto)]

ghost use Rattle.std.specs.Prelude.{◌≡◌, ◌≤◌};
ghost use Rattle.pm_steal.specs.Shown.{reach_len};

use pm_book::{Book, Claimed, Ended, SplitReply, Taken, Ticket};
use pm_choice::Choices;
use pm_outside::Gate;
use pm_steal::{Hand, Reach, Stolen, make};
use pm_work::{Desk, Look, look_at};
use std::alloc::{AllocError, Global};
use std::sync::{Condvar, Mutex, Wait};

// What a worker did to the book, as a gate is told.
const TOOK: u8 = 1;

const CLAIMED: u8 = 2;

const SPLIT: u8 = 3;

const RETURNED: u8 = 4;

const CLOSED: u8 = 5;

const FOUND: u8 = 6;

/// The book of a level under its lock, and the signal that it has changed.
#[derive(Drop)]
pub struct Room {
    pub book: Mutex<Book>,
    pub changed: Condvar,
}

/// What a worker has of its own: its number, its deque and its reach into the deques of all
/// workers.
#[derive(Drop)]
pub struct Post {
    pub worker: u16,
    pub workers: u16,
    pub hand: Hand,
    pub reach: Reach,
    ghost reaches_all: { reach_len reach ≡ workers },
}

/// The posts of 1 to 64 workers.
pub fn make_posts(alloc: Global, workers: u16) -> Result<Vec<Post>, AllocError>
    requires { (1 ≤ workers) × (workers ≤ 64) }
{
    let (hands, reaches) = make(alloc, workers)?;
    let mut hands = hands;
    let mut reaches = reaches;
    let mut posts = Vec::new(alloc);
    'hands: while let Some(hand) = hands.pop() {
        let Some(reach) = reaches.pop() else {
            break;
        };
        posts.push(Post {
            worker: hands.len() as u16,
            workers,
            hand,
            reach,
        })?;
    }
    Ok(posts)
}

impl Post {
    // Puts a row's number on the worker's deque. A row whose number finds no room there is taken
    // from the book.
    fn keep(&mut self, row: u64) {
        let _pushed = self.hand.push(row);
    }

    // The oldest number of another worker's deque.
    fn steal(&mut self) -> Option<u64> {
        'victims: for victim in 0..self.workers {
            if victim == self.worker {
                continue;
            }
            if let Stolen::Row(row) = self.reach.steal(victim) {
                return Some(row);
            }
        }
        None
    }

    // The newest number of the worker's own deque, else the oldest of another's.
    fn number(&mut self) -> Option<u64> {
        match self.hand.pop() {
            Some(row) => Some(row),
            None => self.steal(),
        }
    }
}

/// The place of a worker: it takes a row by a number of its own deque, else by one of another
/// worker's, else from the book.
#[derive(Drop)]
pub struct Seat<'a, R: Wait, G: Gate> {
    pub rt: &'a R,
    pub room: &'a Room,
    pub gate: &'a G,
    pub post: Post,
}

impl<R: Wait, G: Gate> Seat<'_, R, G> {
    // Claims the row of a number; none where it is taken already.
    fn claim(&mut self, row: u64) -> Result<Option<Ticket>, AllocError> {
        let claimed = self.room.book.lock(self.rt).claim(row, self.post.worker)?;
        match claimed {
            Claimed::Task(ticket) => {
                self.gate.pass(self.post.worker, CLAIMED);
                Ok(Some(ticket))
            }
            Claimed::Gone => Ok(None),
        }
    }

    // Takes the first Queued row, and waits for one while there may be one. None where the book is
    // over.
    fn take(&mut self) -> Result<Option<Ticket>, AllocError> {
        let mut book = self.room.book.lock(self.rt);
        for _ in self.rt.forever() {
            match book.take(self.post.worker) {
                Ok(Taken::Task(ticket)) => {
                    drop(book);
                    self.gate.pass(self.post.worker, TOOK);
                    return Ok(Some(ticket));
                }
                Ok(Taken::Idle) => book = self.room.changed.wait(self.rt, book),
                Ok(Taken::Over) => return Ok(None),
                Err(error) => return Err(error),
            }
        }
        unreachable!()
    }

    // Wakes the workers that wait, and passes the gate.
    fn tell(&self, event: u8) {
        self.room.changed.notify_all();
        self.gate.pass(self.post.worker, event);
    }

    // What follows the end of a row.
    fn ended(&self, ended: Ended, event: u8) {
        match ended {
            Ended::Kept => self.tell(event),
            Ended::Dropped => self.tell(event),
            Ended::Unknown(ticket) => ticket.discard(),
        }
    }
}

impl<R: Wait, G: Gate> Desk for Seat<'_, R, G> {
    fn next(&mut self) -> Result<Option<Ticket>, AllocError> {
        for _ in 0..u64::MAX {
            let Some(row) = self.post.number() else {
                break;
            };
            match self.claim(row)? {
                Some(ticket) => return Ok(Some(ticket)),
                None => {}
            }
        }
        self.take()
    }

    fn look(&mut self, ticket: &Ticket) -> Look {
        let book = self.room.book.lock(self.rt);
        look_at(&book, ticket, self.post.workers)
    }

    fn split(&mut self, ticket: &mut Ticket, mid: &[u32]) -> Result<bool, AllocError> {
        let reply = self.room.book.lock(self.rt).split(ticket, mid)?;
        match reply {
            SplitReply::Split { row } => {
                self.post.keep(row);
                self.tell(SPLIT);
                Ok(true)
            }
            _ => Ok(false),
        }
    }

    fn give_back(&mut self, ticket: Ticket, at: Option<Choices>, work: u64) {
        let ended = self.room.book.lock(self.rt).give_back(ticket, at, work);
        self.ended(ended, RETURNED);
    }

    fn close(&mut self, ticket: Ticket, work: u64) {
        let ended = self.room.book.lock(self.rt).close(ticket, work);
        self.ended(ended, CLOSED);
    }

    fn found(&mut self, ticket: Ticket, path: Choices, work: u64) {
        let ended = self.room.book.lock(self.rt).found(ticket, path, work);
        self.ended(ended, FOUND);
    }
}
