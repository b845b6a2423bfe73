//! Why a clause file isn't read.

use pm_scan::{CnfKind, Place};
use std::alloc::{AllocError, AllocFailed};
use thiserror::Error;

/// Why a file isn't read.
#[derive(Clone, Copy, Debug, PartialEq, Eq, Error)]
pub enum CnfError {
    /// The first offence of the file, and its place.
    #[error("{place} {kind}")]
    At { place: Place, kind: CnfKind },
    #[error("out of memory")]
    Memory,
}

impl From<AllocError> for CnfError {
    ghost use Rattle.std.specs.Prelude.{◌≡◌};
    ghost use Rattle.pm_cnf.specs.declared.error.CnfError.TheVariants.{Memory};

    ghost from_gives = { λ _ e. e ≡ Memory };

    fn from(_error: AllocError) -> CnfError {
        CnfError::Memory
    }
}

impl<T: Drop> From<AllocFailed<T>> for CnfError {
    ghost use Rattle.std.specs.Prelude.{◌≡◌};
    ghost use Rattle.pm_cnf.specs.declared.error.CnfError.TheVariants.{Memory};

    ghost from_gives = { λ _ e. e ≡ Memory };

    fn from(_error: AllocFailed<T>) -> CnfError {
        CnfError::Memory
    }
}
