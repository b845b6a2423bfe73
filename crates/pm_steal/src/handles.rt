//! The two ends of the workers' deques.
ghost use Rattle.std.specs.Prelude.{◌≡◌, ◌≤◌, count_by};
ghost use Rattle.crossbeam_deque.specs.Handles.{IsPassOf, stealer_deque, stealer_flavor, worker_flavor, worker_capacity, worker_index, worker_view};
ghost use Rattle.pm_steal.specs.History.{is_push};
ghost use Rattle.pm_steal.specs.declared.handles.TheConstants.{CAPACITY};

use crate::steps::{Kept, Steps};
use crossbeam_deque::{Pass, Stealer, Worker};
use std::alloc::Global;

/// How many numbers a deque has room for as it is made. It grows while there is memory.
pub const CAPACITY: usize = 1024;

/// A worker's own end of its deque.
#[derive(Drop)]
pub struct Hand {
    pub(crate) worker: Worker<u64, Global, Steps, Kept>,
    ghost lifo: { worker_flavor worker ≡ 1 },
    ghost roomy: { CAPACITY ≤ worker_capacity worker },
    ghost counted: { worker_index worker ≤ count_by is_push (worker_view worker) },
}

/// The other end of one deque, for one thief.
#[derive(Drop)]
pub(crate) struct Grip {
    pub(crate) thief: Stealer<u64, Global, Steps, Kept>,
    pub(crate) pass: Pass<u64, Steps>,
    ghost same_deque: { IsPassOf (stealer_deque thief) pass },
    ghost lifo: { stealer_flavor thief ≡ 1 },
}

/// One worker's way to the deques of all workers, its own among them.
#[derive(Drop)]
pub struct Reach {
    pub(crate) grips: Vec<Grip>,
}
