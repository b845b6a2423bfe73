//! How a pool's notes are kept.
ghost use Rattle.std.specs.Prelude.{◌≡◌, ◌<◌, ℕ, None, OnOk, vec_len, slice_index_or};
ghost use Rattle.pm_diseq.specs.Inside.Entries.{span_in};

use pm_store::Addr;
use std::alloc::AllocError;

/// Where the lists of a pair lie among the cells: the left one from the start on, and then the
/// right one, each of so many cells.
#[derive(Clone, Copy, Debug)]
pub struct Span {
    pub start: usize,
    pub count: usize,
}

/// A note: a pair is kept, or waits at a variable, with the place of the note before it that waits
/// there.
#[derive(Clone, Copy, Debug)]
pub enum Entry {
    Keep(Span),
    Wait {
        span: Span,
        at: Addr,
        previous: Option<usize>,
    },
}

impl Entry {
    /// Where the lists of its pair lie.
    pub fn span(&self) -> Span
        ensures { result ≡ span_in self.now }
    {
        match self {
            Entry::Keep(span) => *span,
            Entry::Wait { span, .. } => *span,
        }
    }
}

/// Makes room for the newest places of the variables with numbers below `room`, unless there is
/// room for this one. No place changes, also after want of memory.
pub fn make_room(
    newest: &mut Vec<Option<usize>>,
    number: usize,
    room: usize,
) -> Result<(), AllocError>
    requires { number < room }
    ensures ok { OnOk result (number < vec_len newest.new) }
    ensures same { (v : ℕ) → slice_index_or newest.new.items v None
        ≡ slice_index_or newest.old.items v None }
{
    if newest.len() <= number {
        newest.resize(room, None)?;
    }
    Ok(())
}
