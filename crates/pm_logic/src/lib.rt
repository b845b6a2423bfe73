//! Symbols, terms, clauses, problems and tableaux.
#![tactic(auto)]

mod problem;
mod symbols;
mod tableau;
mod terms;
mod words;

pub use problem::{Class, Clause, Literal, Name, Problem, Start};
pub use symbols::{Kind, Symbols};
pub use tableau::{
    BoundKind, Node, NodeKind, Tableau, preorder_determines, tableau_depth, tableau_instances,
};
pub use terms::{Row, TermId, TermTable};
pub use words::{write_symbol, write_word};
