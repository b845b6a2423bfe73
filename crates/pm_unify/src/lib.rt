//! Most general unification of cells of a store.
#![tactic(auto)]

mod occurrence;
mod pairs;
mod unification;

pub use unification::unify;
