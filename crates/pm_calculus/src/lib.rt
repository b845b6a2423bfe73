//! The connection calculus: definitions, which stand in `specs/`, and what holds of them. The crate
//! has no code but functions without a body, whose contracts are laws and worked examples.
#![tactic(auto)]

mod examples;
mod laws;

pub use examples::{
    ancestor_example, closed_branch_example, depth_example, extension_order_example,
    finite_terms_example, free_variable_example, instances_example, leaf_example,
    reduction_order_example, start_example, variable_order_example,
};
pub use laws::{
    choices_are_below_widths, clause_instances_compose, closed_tableaux_are_refuted,
    complementary_literals_differ, complete_lists_end, complete_lists_give_tableaux,
    followed_lists_are_complete, general_tableaux_are_in_class, general_tableaux_are_over_symbols,
    general_tableaux_are_unique, instances_compose, instances_label, labellings_follow,
    labellings_show_nodes, least_lists_are_followed, least_lists_are_unique,
    lists_and_tableaux_agree, prefixes_are_reached, regularity_reflects, states_agree,
    states_are_built, steps_may_be_taken, tableaux_follow_complete_lists,
};
