//! How the parts of a run end.
ghost use Rattle.std.specs.Prelude.{◌≡◌};

use crate::status::Status;
use std::alloc::AllocError;

/// The status and the text of a run, before anything is written.
#[derive(Debug, Drop)]
pub(crate) struct Answer {
    pub(crate) status: Status,
    pub(crate) text: Vec<u8>,
}

/// Why a job stops before its end.
#[derive(Debug, Drop)]
pub(crate) enum Stop {
    /// Its files give the answer.
    Answered(Answer),
    /// The library failed.
    ReadFault,
    /// There is no memory.
    NoMemory,
}

impl From<AllocError> for Stop {
    ghost use Rattle.pm_top.specs.declared.answer.Stop.TheVariants.{NoMemory};

    ghost from_gives = { λ _ stop. stop ≡ NoMemory };

    fn from(_error: AllocError) -> Stop {
        Stop::NoMemory
    }
}
