//! Row numbers that the workers of a level pass to one another: each worker has a deque of its own,
//! onto which it pushes the rows that it splits off, and it steals the oldest row of another
//! worker's deque when its own is empty. What a deque gives decides nothing, since a worker claims
//! each row in the book.
//!
//! Each call is one step on a list of numbers: a push appends, a pop takes the newest, a steal
//! takes the oldest. The rule that every step keeps (`IsKept` in `specs/History.antt`) says that
//! each number is pushed as often as it is taken or stands in its deque.
//!
//! A caller knows its own steps, and of the others only what the rule says. So a hand that always
//! answers `None` can meet these clauses, and so can a reach that always answers `Empty` or always
//! `Again`: a test refuses them.
#![tactic(auto)]

mod deques;
mod handles;
mod steps;

pub use deques::{Stolen, make};
pub use handles::{CAPACITY, Hand, Reach};
pub use steps::Step;
