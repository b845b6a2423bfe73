//! The counts of a library: its faults, its missing files, and those over a limit.
ghost use Rattle.std.specs.Prelude.{◌≡◌, IsErrOf};
ghost use Rattle.pm_outside.specs.Counts.{counts_after, no_counts};
ghost use Rattle.pm_outside.specs.Outside.{CountsOnly};

use crate::library::FetchFault;

/// The counts of a library, each of which stays at its last value.
#[derive(Clone, Copy, Debug)]
pub struct Counts {
    pub faults: u64,
    pub misses: u64,
    pub longs: u64,
}

impl Counts {
    /// Each count is 0.
    pub fn new() -> Counts
        ensures { result ≡ no_counts }
    {
        Counts {
            faults: 0,
            misses: 0,
            longs: 0,
        }
    }

    /// Counts the cause of this answer. An answer that is no fault and want of memory are not
    /// counted.
    pub fn count<A>(&mut self, answer: &Result<A, FetchFault>)
        ensures counted { self.new ≡ counts_after self.old answer.now }
        ensures faults { CountsOnly (IsErrOf answer.now FetchFault.Failed)
            self.old.faults self.new.faults }
        ensures misses { CountsOnly (IsErrOf answer.now FetchFault.Missing)
            self.old.misses self.new.misses }
        ensures longs { CountsOnly (IsErrOf answer.now FetchFault.TooLong)
            self.old.longs self.new.longs }
    {
        match answer {
            Err(FetchFault::Missing) => self.misses = self.misses.saturating_add(1),
            Err(FetchFault::TooLong) => self.longs = self.longs.saturating_add(1),
            Err(FetchFault::Failed) => self.faults = self.faults.saturating_add(1),
            Ok(_) | Err(FetchFault::Memory) => {}
        }
    }
}
