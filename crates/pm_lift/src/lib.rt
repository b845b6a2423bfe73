//! From a closed tableau to the least list of choices that builds it.
#![tactic(auto)]

mod branch;
mod complements;
mod lift;

pub use lift::list_of;
