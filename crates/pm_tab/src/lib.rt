//! The search of tableaux by the steps of a machine: what all spaces of a search share, the space of
//! choice lists of a level, and the laws that it rests on.
#![tactic(auto)]

mod alternatives;
mod drawing;
mod laws;
mod maker;
mod numbers;
mod repeats;
mod space;

pub use laws::{
    alternatives_stay_within, general_tableaux_label, labelled_steps_are_hopeful, new_pairs_tell,
    numbered_tableaux_are_general, regularity_is_general, steps_grow_stores,
};
pub use maker::TabMaker;
pub use space::TabSpace;
