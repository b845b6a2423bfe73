//! Pairs of lists of cells that must not become identical.
#![tactic(auto)]

mod comparison;
mod entries;
mod laws;
mod pool;
#[cfg(test)]
mod trials;

pub use laws::{
    empty_pools_stand, pool_marks_last, pool_marks_nest, pools_stand_later, pools_stood_at_marks,
    standing_pairs_are_apart,
};
pub use pool::Pool;
