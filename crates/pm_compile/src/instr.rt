//! Instructions.
use pm_logic::TermId;

/// What the machine is told to do. It has a local for each variable of the clause, a store of
/// cells, a stack of their addresses, and the nodes of the tableau. A symbol goes by its number,
/// with the number of its arguments, and a ground term by its row.
#[derive(Clone, Copy, Debug, PartialEq, Eq)]
pub enum Instr {
    /// Pop an address and put it in the local.
    First { x: u32 },
    /// Pop an address and unify it with the local.
    Again { x: u32 },
    /// Pop an address and follow its bindings: an application of the symbol pushes its arguments,
    /// the last first; a free variable is bound to a new application over fresh variables.
    Meet { f: u32, n: u8 },
    /// Pop an address and unify it with the cell of the ground term.
    Ground { t: TermId },
    /// `NEW`: each local that isn't set becomes a fresh variable.
    Fresh,
    /// Push the local.
    Push { x: u32 },
    /// Pop as many addresses as the symbol has arguments, make the application and push it.
    Make { f: u32, n: u8 },
    /// `CONST`: push the cell of the ground term.
    Constant { t: TermId },
    /// Pop as many addresses as the predicate has arguments and append a child with its literal.
    Goal { positive: bool, p: u32, n: u8 },
    /// Perform the body of the clause up to its `RETURN`.
    Body { c: u32 },
    /// `RETURN`: the end of a body.
    EndBody,
    /// Mark the child of this number as closed by its parent.
    Close { j: u16 },
    /// Close the leaf by its ancestor at this depth.
    Reduce { k: u32 },
    /// The end of a step.
    Done,
}
