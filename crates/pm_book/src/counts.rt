//! What tables count of their rows.
#![tactic(auto)]

ghost use Rattle.std.specs.Prelude.{◌≡◌, ◌+◌, ◌-◌, ◌≤◌};
ghost use Rattle.pm_book.specs.Rows.{is_running, is_queued};
ghost use Rattle.pm_book.specs.Inside.Counted.{work_unless, open_unless, counts_of, both, AreOfOne, AreSmall, ArePart, forgets};

use super::row::RowState;

/// What is counted of rows.
#[derive(Clone, Copy)]
pub struct Counts {
    /// The Running rows.
    pub running: usize,
    /// The Queued rows.
    pub queued: usize,
    /// The rows that are still to be done: Queued or Running, and not above best.
    pub remaining: usize,
    /// The works of the Done rows that aren't above best.
    pub spent: u128,
}

/// Whether a row is Queued.
pub fn is_queued(state: RowState) -> bool
    ensures { result ≡ is_queued state }
{
    matches!(state, RowState::Queued)
}

/// Whether a row is Running.
pub fn is_running(state: RowState) -> bool
    ensures { result ≡ is_running state }
{
    matches!(state, RowState::Running { .. })
}

// The work that counts of a row.
fn work_unless(above: bool, state: RowState) -> u64
    ensures { result ≡ work_unless above state }
{
    match state {
        RowState::Done { work, .. } if !above => work,
        _ => 0,
    }
}

// Whether a row is still to be done.
fn open_unless(above: bool, state: RowState) -> bool
    ensures { result ≡ open_unless above state }
{
    (is_queued(state) || is_running(state)) && !above
}

impl Counts {
    /// The counts of no row.
    pub fn none() -> Counts
        ensures { result ≡ record { running = 0; queued = 0; remaining = 0; spent = 0 } }
    {
        Counts {
            running: 0,
            queued: 0,
            remaining: 0,
            spent: 0,
        }
    }

    /// The counts of one row, given whether it is above best.
    pub fn of(above: bool, state: RowState) -> Counts
        ensures counts { result ≡ counts_of above state }
        ensures few { AreOfOne result }
    {
        Counts {
            running: usize::from(is_running(state)),
            queued: usize::from(is_queued(state)),
            remaining: usize::from(open_unless(above, state)),
            spent: u128::from(work_unless(above, state)),
        }
    }

    /// With the counts of one row more.
    pub fn with(self, row: Counts) -> Counts
        requires small { AreSmall self }
        requires few { AreOfOne row }
        ensures { result ≡ both self row }
    {
        Counts {
            running: self.running + row.running,
            queued: self.queued + row.queued,
            remaining: self.remaining + row.remaining,
            spent: self.spent + row.spent,
        }
    }

    /// Without the counts of some of the rows.
    pub fn without(self, rows: Counts) -> Counts
        requires { ArePart rows self }
        ensures { both result rows ≡ self }
    {
        Counts {
            running: self.running - rows.running,
            queued: self.queued - rows.queued,
            remaining: self.remaining - rows.remaining,
            spent: self.spent - rows.spent,
        }
    }

    /// Where the rows after a find come to be above best, and those that were Queued are dropped. A
    /// Running one runs on.
    pub fn forget(self, after: Counts) -> Counts
        requires { ArePart after self }
        ensures { result ≡ forgets self after }
    {
        Counts {
            running: self.running,
            queued: self.queued - after.queued,
            remaining: self.remaining - after.remaining,
            spent: self.spent - after.spent,
        }
    }
}
