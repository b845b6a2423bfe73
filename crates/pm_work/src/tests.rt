//! Tests of a worker over a book of its own.
ghost use Rattle.std.specs.Prelude.{◌≤◌, ◌^◌};

use super::*;
use pm_book::Book;
use pm_space::ToyMaker;
use std::alloc::{AllocError, Global};
use std::test::Fail;

// What a worker over a new book leaves: the number of its pieces, and what the book says.
fn leaves(
    alloc: Global,
    maker: &ToyMaker,
    workers: u16,
    budget: u64,
) -> Result<(usize, Reading), AllocError>
    requires { budget ≤ 10 ^ 12 }
{
    let mut book = Book::new(alloc, budget)?;
    let mut owner = Owner {
        book: &mut book,
        worker: 0,
        workers,
    };
    let pieces = work(&mut owner, alloc, maker, 0, budget);
    Ok((pieces.len(), read_front(&book, &pieces, budget)))
}

// Whether a reading is of a settled book with this work, found or not.
fn is_settled(reading: Reading, count: u64, path: bool) -> bool {
    match reading {
        Reading::Settled { work, found } => work == count && found == path,
        _ => false,
    }
}

#[test]
fn a_row_that_is_small_is_one_piece(rt: HostRuntime) -> Result<(), Fail> {
    let (pieces, reading) = leaves(rt.alloc(), &ToyMaker::new(2, 5, 31), 4, 1_000)?;
    assert!(rt; pieces == 1 && is_settled(reading, 62, true));
    let (pieces, reading) = leaves(rt.alloc(), &ToyMaker::new(2, 5, 32), 4, 1_000)?;
    assert!(rt; pieces == 1 && is_settled(reading, 62, false));
    Ok(())
}

#[test]
fn rows_are_split_where_rows_are_wanted(rt: HostRuntime) -> Result<(), Fail> {
    // 300,000 is no number of seven digits in base 6, and there are 335,922 lists.
    let maker = ToyMaker::new(6, 7, 300_000);
    let (pieces, reading) = leaves(rt.alloc(), &maker, 4, 1_000_000)?;
    assert!(rt; pieces > 1 && is_settled(reading, 335_922, false));
    let (pieces, reading) = leaves(rt.alloc(), &maker, 0, 1_000_000_000)?;
    assert!(rt; pieces == 1 && is_settled(reading, 335_922, false));
    Ok(())
}

#[test]
fn a_long_row_is_given_back(rt: HostRuntime) -> Result<(), Fail> {
    let maker = ToyMaker::new(6, 7, 300_000);
    let (pieces, reading) = leaves(rt.alloc(), &maker, 0, 1_000_000)?;
    assert!(rt; pieces == 2 && is_settled(reading, 335_922, false));
    Ok(())
}

#[test]
fn the_budget_ends_a_worker(rt: HostRuntime) -> Result<(), Fail> {
    let maker = ToyMaker::new(6, 7, 300_000);
    let (_, reading) = leaves(rt.alloc(), &maker, 0, 10_000)?;
    assert!(rt; is_settled(reading, 10_001, false));
    Ok(())
}

#[test]
fn the_caller_searches_a_row(rt: HostRuntime) -> Result<(), Fail> {
    let alloc = rt.alloc();
    let mut book = Book::new(alloc, 61)?;
    let mut pieces = Vec::new(alloc);
    let Reading::Queued { row, work } = read_front(&book, &pieces, 61) else {
        panic!(rt; "not queued");
    };
    assert!(rt; row == 0 && work == 0);
    let maker = ToyMaker::new(2, 5, 31);
    search_row(alloc, &maker, 0, 1, row, 62, &mut book, &mut pieces)?;
    assert!(rt; is_settled(read_front(&book, &pieces, 61), 62, true));
    assert!(rt; is_settled(read_front(&book, &pieces, 60), 61, true));
    Ok(())
}
