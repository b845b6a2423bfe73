//! Where a run writes.
ghost use Rattle.std.specs.Prelude.{◌≡◌, ℕ, ◌≤◌, List, Option, OnOk, OnErr};
ghost use Rattle.pm_outside.specs.Outside.{Appends, AppendsPrefix, Rose};

use thiserror::Error;

/// Why a put failed.
#[derive(Clone, Copy, Debug, PartialEq, Eq, Error)]
pub enum PutFault {
    /// The sink failed.
    #[error("write fault")]
    Failed,
}

/// Where text goes.
///
/// A sink counts its faults in a `u64` that never falls: at its last value it stays. A sink may
/// tell the bytes that it has got (`written`).
pub trait Sink {
    ghost faults: { Self → ℕ };

    ghost written: { Self → Option (List ℕ) };

    /// Takes all of the bytes, or fails and takes a prefix of them. It takes no memory.
    fn put(&mut self, bytes: &[u8]) -> Result<(), PutFault>
        ensures all { OnOk result (Appends (written self.old) (written self.new) bytes.now) }
        ensures prefix { OnErr result
            (AppendsPrefix (written self.old) (written self.new) bytes.now) }
        ensures failed { OnErr result (Rose (faults self.old) (faults self.new)) }
        ensures unfailed { OnOk result (faults self.new ≡ faults self.old) }
        ensures faults { faults self.old ≤ faults self.new };
}
