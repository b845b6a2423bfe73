//! Runs of compiled code: what each instruction means, which stands in `specs/`, the laws of runs,
//! and what runs the code over a store.
#![tactic(auto)]

mod children;
mod examples;
mod ground_terms;
mod instructions;
mod laws;
mod program;
mod runner;
mod running;
#[cfg(test)]
mod tests;
mod uniting;

pub use children::NewChild;
pub use examples::{extension_example, failed_reductions, failure_example, reduction_example};
pub use laws::{
    bodies_append, building_pushes, extensions_are_steps, extensions_fail,
    extensions_pop_and_append, failures_exclude, goals_append, ground_cells_last, heads_pop,
    reductions_are_steps, reductions_fail, runs_compose, runs_show_wants, runs_stay_in_stores,
    starts_append, starts_are_steps, starts_never_fail, steps_begin_in_stores, wants_are_reached,
};
pub use runner::Runner;
pub use uniting::unite;
