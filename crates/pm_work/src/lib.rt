//! What a worker of a level does, and how the caller settles the level's task book: plain functions
//! over a book that they are lent. No thread is started here.
//!
//! A worker searches rows of a book and keeps, for each that it ended, a piece: an interval with
//! what its search told. A piece is honest by itself, whatever the book made of the row. The caller
//! reads the rows of the book against all pieces.
#![tactic(auto)]

mod desk;
mod front;
mod piece;
mod task;
mod worker;

pub use desk::{Desk, Look, Owner, look_at};
pub use front::{Reading, read_front, sort_pieces};
pub use piece::Piece;
pub use worker::{search_row, work};

#[cfg(test)]
mod tests;
