//! What a machine shows of its tableau.
use pm_store::Addr;
use smallvec::SmallVec;

/// A node of the tableau that the steps have built, its arguments being cells of the machine's
/// store. A node that was extended has its clause's index; a closed leaf has the depth of the
/// ancestor that closes it.
#[derive(Drop)]
pub struct MachineNode {
    pub depth: u32,
    pub positive: bool,
    pub predicate: u32,
    pub args: SmallVec<Addr, 4>,
    pub clause: Option<u32>,
    pub closed_by: Option<u32>,
}

/// The selected leaf: how deep it lies, and its literal without the arguments.
#[derive(Clone, Copy, Debug, PartialEq, Eq)]
pub struct LeafView {
    pub depth: u32,
    pub positive: bool,
    pub predicate: u32,
}
