//! What a run reads: files by their names.
ghost use Rattle.std.specs.Prelude.{ℕ, Option};
ghost use Rattle.pm_outside.specs.Outside.{Files, IsFetch, library_view};

use std::alloc::Global;
use thiserror::Error;

/// Why a fetch gave no bytes.
#[derive(Clone, Copy, Debug, PartialEq, Eq, Error)]
pub enum FetchFault {
    /// The library has no file of that name.
    #[error("missing file")]
    Missing,
    /// The file has more bytes than the caller's limit.
    #[error("file over its limit")]
    TooLong,
    /// The library failed.
    #[error("read fault")]
    Failed,
    /// There was no memory for the bytes.
    #[error("out of memory")]
    Memory,
}

/// Where files come from.
///
/// A library counts its faults, the names that it missed and the files that were too long. The
/// counts are `u64`s that never fall: at its last value a count stays. A library that tells its
/// files (`told`) gives exactly these, and no call changes them.
pub trait Library {
    ghost faults: { Self → ℕ };

    ghost misses: { Self → ℕ };

    ghost longs: { Self → ℕ };

    ghost told: { Self → Option Files };

    /// The bytes of the file of this name, at most `limit` of them. Each fault has its cause, and a
    /// count changes only with its own fault.
    fn fetch(&mut self, alloc: Global, name: &str, limit: u64) -> Result<Vec<u8>, FetchFault>
        ensures fetched { let view = library_view faults misses longs told in
            IsFetch (view self.old) (view self.new) name.now limit result };
}
