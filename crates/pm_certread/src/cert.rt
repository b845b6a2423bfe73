//! Certificates that were read.

use pm_logic::{BoundKind, Class, Start, Tableau};

/// A certificate: a tableau with what its header says of it.
#[derive(Drop)]
pub struct Cert {
    pub class: Class,
    pub start: Start,
    /// What the size is of. A certificate of version 1 has the bound `Depth`.
    pub bound: BoundKind,
    /// The size that the header says.
    pub size: u64,
    /// The header's line, counted from 1.
    pub header: u64,
    /// The root's line, which comes after the term lines.
    pub root_line: u64,
    pub tableau: Tableau,
    /// For each node in pre-order the depth of the ancestor that closes it, 0 for an inner node.
    pub closers: Vec<u32>,
}
