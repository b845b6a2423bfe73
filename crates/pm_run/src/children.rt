//! What a step makes.

use pm_store::Addr;
use smallvec::SmallVec;

/// A child of the selected leaf that a step makes: its literal, whose arguments are cells of the
/// store, and whether its parent closes it.
#[derive(Drop)]
pub struct NewChild {
    pub positive: bool,
    pub predicate: u32,
    pub args: SmallVec<Addr, 4>,
    pub closed: bool,
}
