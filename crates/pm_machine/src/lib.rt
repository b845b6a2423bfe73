//! The machine: the steps of a tableau on a store with a trail.
#![tactic(auto)]

mod laws;
mod machine;
mod node;
mod tree;

pub use laws::{
    failed_steps_label_nothing, leaves_may_step, machines_begin, no_leaf_is_selected,
    selected_leaves_agree, selected_leaves_have_branches, steps_build,
};
pub use machine::Machine;
pub use node::{LeafView, MachineNode};
