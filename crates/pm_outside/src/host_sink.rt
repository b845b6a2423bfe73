//! The sink of the host: standard output.
ghost use Rattle.std.specs.Prelude.{◌≡◌, ℕ, ◌≤◌, take, None, MatchResult, OnOk, OnErr};
ghost use Rattle.std.specs.Io.KnownBytes as known;
ghost use Rattle.pm_outside.specs.Counts.{next_count};
ghost use Rattle.pm_outside.specs.Outside.{Appends, AppendsPrefix, Rose};

use crate::sink::{PutFault, Sink};
use std::io::{self, Write};
use std::marker::Model;

/// The standard output. It doesn't tell its bytes.
#[derive(Drop)]
pub struct HostSink<'r, R> {
    rt: &'r R,
    faults: u64,
}

impl<'r, R> Model for HostSink<'r, R> {
    ghost use Rattle.std.specs.Prelude.{ℕ};

    ghost Value = { ℕ };

    ghost view = { λ a. a.faults };
}

impl<'r, R: Print> HostSink<'r, R> {
    /// The standard output of this system, with a count of 0.
    pub fn new(rt: &'r R) -> HostSink<'r, R>
        ensures { result ≡ 0 }
    {
        HostSink { rt, faults: 0 }
    }
}

impl<'r, R: Print> Sink for HostSink<'r, R> {
    ghost faults = { λ faults. faults };

    ghost written = { λ _. None };

    /// Writes all of the bytes, or fails where the system does.
    fn put(&mut self, bytes: &[u8]) -> Result<(), PutFault>
        ensures count { MatchResult result
            (λ _. self.new ≡ self.old)
            (λ _. self.new ≡ next_count self.old) }

        // What every sink ensures.
        ensures all { OnOk result (Appends None None bytes.now) }
        ensures prefix { OnErr result (AppendsPrefix None None bytes.now) }
        ensures failed { OnErr result (Rose self.old self.new) }
        ensures unfailed { OnOk result (self.new ≡ self.old) }
        ensures faults { self.old ≤ self.new }
    {
        let answer = write_whole(&mut io::writer(self.rt), bytes);
        if answer.is_err() {
            self.faults = self.faults.saturating_add(1);
        }
        answer
    }
}

// Each turn writes at least one byte.
fn write_whole<W: Write>(writer: &mut W, bytes: &[u8]) -> Result<(), PutFault>
    ensures all { OnOk result
        (known.Appends (W.contents writer.old) (W.contents writer.new) bytes.now) }
    ensures prefix { OnErr result ((n : ℕ)
        × known.Appends (W.contents writer.old) (W.contents writer.new) (take n bytes.now)) }
{
    let mut rest = bytes;
    while !rest.is_empty() {
        match writer.write(rest) {
            Ok(0) => return Err(PutFault::Failed),
            Ok(count) => rest = &rest[count..],
            Err(_) => return Err(PutFault::Failed),
        }
    }
    Ok(())
}
