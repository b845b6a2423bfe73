//! Tests of the book: each answer, and ten thousand random events beside a plain book.
ghost use Rattle.std.specs.Prelude.{◌≡◌};
ghost use Rattle.pm_book.specs.Rows.{is_within};

use super::order::{is_before, is_below};
use super::*;
use pm_choice::{Bound, Choices};
use std::alloc::{AllocError, Global};
use std::process::Abort;
use std::test::Fail;
use std::thread::join;

fn list(rt: &impl Abort, alloc: Global, numbers: &[u32]) -> Choices {
    Choices::from_slice(alloc, numbers).expect(rt, "memory")
}

fn taken(rt: &impl Abort, book: &mut Book, worker: u16) -> Ticket {
    match book.take(worker) {
        Ok(Taken::Task(ticket)) => ticket,
        Ok(Taken::Idle) => panic!(rt; "idle"),
        Ok(Taken::Over) => panic!(rt; "over"),
        Err(_) => panic!(rt; "memory"),
    }
}

// What `take` answers where it gives no ticket.
fn no_task(rt: &impl Abort, book: &mut Book, worker: u16) -> &'static str {
    match book.take(worker) {
        Ok(Taken::Task(ticket)) => {
            ticket.discard();
            "task"
        }
        Ok(Taken::Idle) => "idle",
        Ok(Taken::Over) => "over",
        Err(_) => panic!(rt; "memory"),
    }
}

fn claimed(rt: &impl Abort, book: &mut Book, row: u64, worker: u16) -> Option<Ticket> {
    match book.claim(row, worker) {
        Ok(Claimed::Task(ticket)) => Some(ticket),
        Ok(Claimed::Gone) => None,
        Err(_) => panic!(rt; "memory"),
    }
}

fn split(rt: &impl Abort, book: &mut Book, ticket: &mut Ticket, mid: &[u32]) -> SplitReply {
    book.split(ticket, mid).expect(rt, "memory")
}

fn outcome(ended: Ended) -> &'static str {
    match ended {
        Ended::Kept => "kept",
        Ended::Dropped => "dropped",
        Ended::Unknown(ticket) => {
            ticket.discard();
            "unknown"
        }
    }
}

// Whether a list is in the interval of a ticket.
fn holds(ticket: &Ticket, list: &[u32]) -> bool
    ensures { result ≡ is_within ticket.now.from ticket.now.to list.now }
{
    !is_before(list, ticket.from()) && is_below(list, ticket.to())
}

fn found(book: &mut Book, ticket: Ticket, path: Choices, work: u64) -> &'static str {
    if !holds(&ticket, path.as_slice()) {
        ticket.discard();
        return "outside";
    }
    outcome(book.found(ticket, path, work))
}

fn given_back(book: &mut Book, ticket: Ticket, at: Choices, work: u64) -> &'static str {
    if !holds(&ticket, at.as_slice()) || !is_before(ticket.from(), at.as_slice()) {
        ticket.discard();
        return "outside";
    }
    outcome(book.give_back(ticket, Some(at), work))
}

// The first eleven steps of the long example: a book of budget 100, and the ticket of row 0.
fn eleven_steps(rt: &impl Abort, alloc: Global) -> (Book, Ticket) {
    let mut book = Book::new(alloc, 100).expect(rt, "memory");
    let mut whole = taken(rt, &mut book, 0);
    assert_eq!(rt; whole.number(), 0);
    assert_eq!(rt;
        split(rt, &mut book, &mut whole, &[]),
        SplitReply::OutOfRange
    );
    assert_eq!(rt;
        split(rt, &mut book, &mut whole, &[0, 1]),
        SplitReply::Split { row: 1 }
    );
    assert_eq!(rt;
        split(rt, &mut book, &mut whole, &[0, 1]),
        SplitReply::OutOfRange
    );
    let mut second = taken(rt, &mut book, 1);
    assert_eq!(rt; second.number(), 1);
    assert_eq!(rt; second.from(), [0, 1].as_slice());
    assert_eq!(rt;
        split(rt, &mut book, &mut second, &[0, 3]),
        SplitReply::Split { row: 2 }
    );
    let third = taken(rt, &mut book, 2);
    assert_eq!(rt; third.number(), 2);
    assert!(rt; matches!(third.to(), Bound::End));
    assert_eq!(rt; no_task(rt, &mut book, 3), "idle");
    assert_eq!(rt;
        given_back(&mut book, second, list(rt, alloc, &[0, 2]), 5),
        "kept"
    );
    assert_eq!(rt; book.queued(), 1);
    assert!(rt; book.best().is_none());
    assert!(rt; is_gone(claimed(rt, &mut book, 1, 3)));
    let fourth = claimed(rt, &mut book, 3, 3).expect(rt, "row 3");
    assert!(rt; book.wanted(&fourth));
    assert_eq!(rt;
        found(&mut book, fourth, list(rt, alloc, &[0, 2, 4]), 7),
        "kept"
    );
    assert_eq!(rt; book.spent(), 12);
    assert!(rt; !book.wanted(&third));
    assert_eq!(rt; outcome(book.close(third, 9)), "dropped");
    assert_eq!(rt; book.spent(), 12);
    assert_eq!(rt; no_task(rt, &mut book, 1), "idle");
    (book, whole)
}

fn is_gone(ticket: Option<Ticket>) -> bool {
    match ticket {
        None => true,
        Some(ticket) => {
            ticket.discard();
            false
        }
    }
}

// Whether a book is the replay of its own history, row by row.
fn replays(rt: &impl Abort, alloc: Global, budget: u64, book: &Book) -> bool {
    let again = replay(alloc, budget, book.cuts(), book.events()).expect(rt, "a book");
    again.rows() == book.rows()
        && again.events() == book.events()
        && again.spent() == book.spent()
        && again.best() == book.best()
}

#[test]
fn long_example(rt: HostRuntime) {
    let (mut book, whole) = eleven_steps(&rt, rt.alloc());
    assert_eq!(rt; outcome(book.close(whole, 4)), "kept");
    assert_eq!(rt; book.spent(), 16);
    assert_eq!(rt; no_task(&rt, &mut book, 0), "over");
    let best: &[u32] = &[0, 2, 4];
    assert_eq!(rt; book.best(), Some(best));
    assert_eq!(rt;
        book.rows(),
        [
            BookRow {
                number: 0,
                from: None,
                to: Some(0),
                state: RowState::Done {
                    work: 4,
                    found: false
                }
            },
            BookRow {
                number: 1,
                from: Some(0),
                to: Some(2),
                state: RowState::Done {
                    work: 5,
                    found: false
                }
            },
            BookRow {
                number: 3,
                from: Some(2),
                to: Some(1),
                state: RowState::Done {
                    work: 7,
                    found: true
                }
            },
            BookRow {
                number: 2,
                from: Some(1),
                to: None,
                state: RowState::Dropped
            },
        ]
        .as_slice()
    );
    assert_eq!(rt;
        book.events(),
        [
            Event::Took { worker: 0, row: 0 },
            Event::Split { row: 0, cut: 0 },
            Event::Took { worker: 1, row: 1 },
            Event::Split { row: 1, cut: 1 },
            Event::Took { worker: 2, row: 2 },
            Event::Returned {
                row: 1,
                cut: 2,
                work: 5
            },
            Event::Claimed { worker: 3, row: 3 },
            Event::Found {
                row: 3,
                cut: 3,
                work: 7
            },
            Event::Closed { row: 2, work: 9 },
            Event::Closed { row: 0, work: 4 },
        ]
        .as_slice()
    );
    assert_eq!(rt; book.cuts().len(), 4);
    assert!(rt; replays(&rt, rt.alloc(), 100, &book));
}

#[test]
fn long_example_with_a_path_in_row_0(rt: HostRuntime) {
    let (mut book, whole) = eleven_steps(&rt, rt.alloc());
    let path = list(&rt, rt.alloc(), &[0, 0]);
    assert_eq!(rt; found(&mut book, whole, path, 4), "kept");
    let best: &[u32] = &[0, 0];
    assert_eq!(rt; book.best(), Some(best));
    assert_eq!(rt; book.spent(), 4);
    assert!(rt; replays(&rt, rt.alloc(), 100, &book));
}

#[test]
fn illegal_event(rt: HostRuntime) {
    let fault = match replay(rt.alloc(), 100, &[], &[Event::Closed { row: 0, work: 0 }]) {
        Ok(_) => None,
        Err(fault) => Some(fault),
    };
    assert_eq!(rt; fault, Some(ReplayFault::Illegal { at: 0 }));
}

#[test]
fn rows_that_go_back_whole(rt: HostRuntime) {
    let mut book = Book::new(rt.alloc(), 0).expect(&rt, "memory");
    let ticket = taken(&rt, &mut book, 7);
    assert_eq!(rt; ticket.from(), [].as_slice());
    assert_eq!(rt; outcome(book.give_back(ticket, None, 0)), "kept");
    assert_eq!(rt; book.queued(), 1);
    assert_eq!(rt; book.rows().len(), 1);
    let again = claimed(&rt, &mut book, 0, 7).expect(&rt, "row 0");
    assert_eq!(rt; outcome(book.close(again, 1)), "kept");
    // A budget that is exceeded ends the book.
    assert_eq!(rt; no_task(&rt, &mut book, 7), "over");
}

#[test]
fn tickets_of_another_book(rt: HostRuntime) {
    let mut book = Book::new(rt.alloc(), 100).expect(&rt, "memory");
    let mut other = Book::new(rt.alloc(), 100).expect(&rt, "memory");
    let mut ticket = taken(&rt, &mut other, 0);
    assert!(rt; !book.wanted(&ticket));
    assert_eq!(rt;
        split(&rt, &mut book, &mut ticket, &[1]),
        SplitReply::Unknown
    );
    match book.close(ticket, 3) {
        Ended::Unknown(back) => assert_eq!(rt; outcome(other.close(back, 3)), "kept"),
        Ended::Kept => panic!(rt; "kept"),
        Ended::Dropped => panic!(rt; "dropped"),
    }
    assert_eq!(rt; book.events().len(), 0);
}

// A new book, and the ticket of its row.
fn opened(alloc: Global) -> Option<(Book, Ticket)> {
    let Ok(mut book) = Book::new(alloc, 100) else {
        return None;
    };
    match book.take(1) {
        Ok(Taken::Task(ticket)) => Some((book, ticket)),
        Ok(Taken::Idle) => None,
        Ok(Taken::Over) => None,
        Err(_) => None,
    }
}

// They come back from the thread that made them.
#[test]
fn books_and_tickets_cross_threads(rt: HostRuntime) {
    let alloc = rt.alloc();
    let (made, ()) = join(&rt, || opened(alloc), || ());
    let (mut book, ticket) = made.expect(&rt, "a book");
    assert_eq!(rt; outcome(book.close(ticket, 5)), "kept");
    assert_eq!(rt; book.spent(), 5);
}

// A row of the plain model. Lists of one number `k` stand at the place `k + 1` of a line, the
// empty list at 0, and the end of all lists at `END`.
#[derive(Clone, Copy)]
struct PlainRow {
    number: u64,
    from: u64,
    to: u64,
    state: RowState,
}

const END: u64 = 1 << 31;

// A book over lists of one number, written plainly.
#[derive(Drop)]
struct PlainBook {
    rows: Vec<PlainRow>,
    best: Option<u64>,
    cuts: Vec<u64>,
    events: Vec<Event>,
}

fn is_above(best: Option<u64>, from: u64) -> bool {
    match best {
        None => false,
        Some(best) => best < from,
    }
}

// What a row becomes that ends.
fn plain_end(best: Option<u64>, row: PlainRow, work: u64, found: bool) -> PlainRow {
    let state = if is_above(best, row.from) {
        RowState::Dropped
    } else {
        RowState::Done { work, found }
    };
    PlainRow { state, ..row }
}

// A place from `low` on and below `high`.
fn between(low: u64, high: u64, dice: u64) -> u64 {
    if low < high {
        low + dice % (high - low)
    } else {
        low
    }
}

impl PlainBook {
    fn start(&mut self, place: usize, row: PlainRow, worker: u16) {
        if place < self.rows.len() {
            self.rows[place] = PlainRow {
                state: RowState::Running { worker },
                ..row
            };
        }
    }

    // Takes the first Queued row, if there is one.
    fn take(&mut self, worker: u16) -> Option<Event> {
        let mut first = None;
        for (place, row) in self.rows.iter().enumerate() {
            if first.is_none() && row.state == RowState::Queued {
                first = Some((place, *row));
            }
        }
        let (place, row) = first?;
        self.start(place, row, worker);
        Some(Event::Took {
            worker,
            row: row.number,
        })
    }

    fn split(
        &mut self,
        place: usize,
        row: PlainRow,
        dice: u64,
    ) -> Result<Option<Event>, AllocError> {
        let mid = between(row.from.saturating_add(1), row.to, dice);
        if mid <= row.from || row.to <= mid || place >= self.rows.len() {
            return Ok(None);
        }
        let number = self.rows.len() as u64;
        let state = if is_above(self.best, mid) {
            RowState::Dropped
        } else {
            RowState::Queued
        };
        self.rows[place] = PlainRow { to: mid, ..row };
        self.rows.insert(
            place + 1,
            PlainRow {
                number,
                from: mid,
                to: row.to,
                state,
            },
        )?;
        let cut = self.cuts.len() as u64;
        self.cuts.push(mid)?;
        Ok(Some(Event::Split {
            row: row.number,
            cut,
        }))
    }

    fn give_back(
        &mut self,
        place: usize,
        row: PlainRow,
        dice: u64,
    ) -> Result<Option<Event>, AllocError> {
        let full = self.rows.len() > 500;
        let at = if full || dice % 4 == 0 {
            row.from
        } else {
            between(row.from, row.to, dice)
        };
        if row.to <= at || place >= self.rows.len() {
            return Ok(None);
        }
        let work = if at == row.from { 0 } else { dice % 1000 };
        let number = self.rows.len() as u64;
        if is_above(self.best, row.from) {
            self.rows[place] = PlainRow {
                state: RowState::Dropped,
                ..row
            };
        } else if at == row.from {
            self.rows[place] = PlainRow {
                state: RowState::Queued,
                ..row
            };
        } else {
            self.rows[place] = PlainRow {
                to: at,
                state: RowState::Done { work, found: false },
                ..row
            };
            self.rows.insert(
                place + 1,
                PlainRow {
                    number,
                    from: at,
                    to: row.to,
                    state: RowState::Queued,
                },
            )?;
        }
        let cut = self.cuts.len() as u64;
        self.cuts.push(at)?;
        Ok(Some(Event::Returned {
            row: row.number,
            cut,
            work,
        }))
    }

    fn close(&mut self, place: usize, row: PlainRow, dice: u64) -> Option<Event> {
        let work = dice % 1000;
        if place < self.rows.len() {
            self.rows[place] = plain_end(self.best, row, work, false);
        }
        Some(Event::Closed {
            row: row.number,
            work,
        })
    }

    fn find(
        &mut self,
        place: usize,
        row: PlainRow,
        dice: u64,
    ) -> Result<Option<Event>, AllocError> {
        let path = between(row.from, row.to, dice);
        if row.to <= path || place >= self.rows.len() {
            return Ok(None);
        }
        let work = dice % 1000;
        let above = is_above(self.best, row.from);
        self.rows[place] = plain_end(self.best, row, work, true);
        if !above {
            self.best = Some(path);
            for row in self.rows.iter_mut() {
                if row.state == RowState::Queued && is_above(Some(path), row.from) {
                    row.state = RowState::Dropped;
                }
            }
        }
        let cut = self.cuts.len() as u64;
        self.cuts.push(path)?;
        Ok(Some(Event::Found {
            row: row.number,
            cut,
            work,
        }))
    }

    // One event at random, where the one that the dice show may happen.
    fn event(&mut self, dice: u64) -> Result<Option<Event>, AllocError> {
        let kind = dice % 64;
        // A book of few rows isn't ended.
        let many = self.rows.len() > 16;
        let full = self.rows.len() > 500;
        let worker = (dice % 7) as u16;
        if kind < 16 {
            return Ok(self.take(worker));
        }
        if self.rows.is_empty() {
            return Ok(None);
        }
        let place = (dice / 64) as usize % self.rows.len();
        let row = self.rows[place];
        match row.state {
            RowState::Queued if kind < 24 => {
                self.start(place, row, worker);
                Ok(Some(Event::Claimed {
                    worker,
                    row: row.number,
                }))
            }
            RowState::Running { .. } if !full && kind < 40 => self.split(place, row, dice / 4096),
            RowState::Running { .. } if many && kind < 62 => self.give_back(
                place,
                row,
                dice / 4096,
            ),
            RowState::Running { .. } if many && kind < 63 => Ok(self.close(
                place,
                row,
                dice / 4096,
            )),
            // Finds come high, so that the run goes on below them.
            RowState::Running { .. } if many && row.from > END / 2 => self.find(
                place,
                row,
                dice / 4096,
            ),
            _ => Ok(None),
        }
    }

    fn queued(&self) -> u64 {
        let mut queued = 0u64;
        for row in self.rows.iter() {
            if row.state == RowState::Queued {
                queued = queued.saturating_add(1);
            }
        }
        queued
    }

    fn spent(&self) -> u128 {
        let mut spent = 0u128;
        for row in self.rows.iter() {
            if let RowState::Done { work, .. } = row.state {
                if !is_above(self.best, row.from) {
                    spent = spent.saturating_add(u128::from(work));
                }
            }
        }
        spent
    }
}

// The list at a place of the line.
fn list_at(alloc: Global, place: u64) -> Result<Choices, AllocError> {
    if place == 0 {
        return Choices::from_slice(alloc, &[]);
    }
    let number = u32::try_from(place - 1).unwrap_or(0);
    Choices::from_slice(alloc, &[number])
}

// The place of the list that a row's end names.
fn place_of(cut: Option<u64>, cuts: &[u64], none: u64) -> u64 {
    match cut {
        None => none,
        Some(cut) => match usize::try_from(cut) {
            Ok(cut) => cuts.get(cut).copied().unwrap_or(none),
            Err(_) => none,
        },
    }
}

// Ten thousand events that the plain book chose at random.
#[test]
fn random_run(rt: HostRuntime) -> Result<(), Fail> {
    let alloc = rt.alloc();
    let mut plain = PlainBook {
        rows: Vec::new(alloc),
        best: None,
        cuts: Vec::new(alloc),
        events: Vec::new(alloc),
    };
    plain.rows.push(PlainRow {
        number: 0,
        from: 0,
        to: END,
        state: RowState::Queued,
    })?;
    let mut dice = 20_261_201u64;
    for _ in 0..200_000u32 {
        if plain.events.len() < 10_000 {
            dice = dice
                .wrapping_mul(6_364_136_223_846_793_005)
                .wrapping_add(1_442_695_040_888_963_407);
            if let Some(event) = plain.event(dice >> 16)? {
                plain.events.push(event)?;
            }
        }
    }
    assert_eq!(rt; plain.events.len(), 10_000);
    let mut cuts = Vec::new(alloc);
    for place in plain.cuts.iter() {
        cuts.push(list_at(alloc, *place)?)?;
    }
    let book = replay(alloc, u64::MAX, &cuts, &plain.events)?;
    assert_eq!(rt; book.rows().len(), plain.rows.len());
    for (row, same) in book.rows().iter().zip(plain.rows.iter()) {
        assert_eq!(rt; row.number, same.number);
        assert_eq!(rt; row.state, same.state);
        assert_eq!(rt; place_of(row.from, &plain.cuts, 0), same.from);
        assert_eq!(rt; place_of(row.to, &plain.cuts, END), same.to);
    }
    assert_eq!(rt; book.spent(), plain.spent());
    assert_eq!(rt; book.queued(), plain.queued());
    let best = list_at(alloc, plain.best.unwrap_or(0))?;
    assert_eq!(rt; book.best(), Some(best.as_slice()));
    // Row 0 has ended or is there no more than once, and no row has the number of rows.
    let row = plain.rows.len() as u64;
    plain.events.push(Event::Closed { row, work: 0 })?;
    let fault = match replay(alloc, u64::MAX, &cuts, &plain.events) {
        Ok(_) => None,
        Err(fault) => Some(fault),
    };
    assert_eq!(rt; fault, Some(ReplayFault::Illegal { at: 10_000 }));
    Ok(())
}
