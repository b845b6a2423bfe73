//! Code, and what it refers to.
ghost use Rattle.std.specs.Prelude.{◌≡◌, ℕ, Some, slice_get};

use crate::instructions::cell_in;
use pm_compile::Code;
use pm_logic::{Problem, TermId};
use pm_store::Addr;
use std::alloc::Global;

// The code of a problem, with the cells of its ground terms.
#[derive(Drop)]
pub(crate) struct Program<'p> {
    pub(crate) alloc: Global,
    pub(crate) problem: &'p Problem,
    pub(crate) code: &'p Code,
    // The cell of each row's term, if it is ground.
    pub(crate) cells: Vec<Option<Addr>>,
}

impl<'p> Program<'p> {
    // The cell of the ground term of a row.
    pub(crate) fn cell(&self, t: TermId) -> Addr
        requires { (c : ℕ) × (slice_get self.now.cells.items t ≡ Some (Some c)) }
        ensures { slice_get self.now.cells.items t ≡ Some (Some result) }
    {
        cell_in(&self.cells, t.row())
    }
}
