//! A store of cells: variables and applications, with bindings of variables that can be undone.
#![tactic(auto)]

mod laws;
mod resolver;
mod slots;
mod store;

pub use laws::{
    bindings_narrow, bound_since_tells, bound_variables_stay, cycles_have_no_solution,
    free_variables_stand, growth_is_later, later_is_transitive, later_solutions_solve,
    later_trees_are_filled, marks_keep, marks_last, marks_nest, marks_restore,
    numbered_by_first_occurrence, other_cells_are_open, resolved_terms_are_general,
    resolved_terms_solve, trees_are_general, trees_are_of_free_variables, trees_solve,
};
pub use resolver::Resolver;
pub use store::{Addr, Cell, Mark, Store, stores_are_sound};
