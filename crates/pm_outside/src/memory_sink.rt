//! A sink in memory, with room for so many bytes.
ghost use Rattle.std.specs.Prelude.{◌≡◌, ℕ, ◌≤◌, ◌↔◌, Some, List, IfOk, OnOk, OnErr, IsErr, IsTrue, length};
ghost use Rattle.std.specs.FinMap as map;
ghost use Rattle.pm_outside.specs.MemorySink.{empty_sink, taken_of, fails, after_put};
ghost use Rattle.pm_outside.specs.Outside.{Appends, AppendsPrefix, Rose};

use crate::sink::{PutFault, Sink};
use std::alloc::{AllocError, Global};
use std::collections::BTreeMap;
use std::marker::Model;

/// A sink with room for so many bytes. It tells the bytes that it has got, and it fails in the
/// calls that it is told to.
#[derive(Drop)]
pub struct MemorySink {
    written: Vec<u8>,
    room: usize,
    failing: BTreeMap<u64, usize>,
    calls: u64,
    faults: u64,
}

impl Model for MemorySink {
    ghost use Rattle.std.specs.Prelude.{◌+◌, ◌≤◌, vec_len, vec_capacity};
    ghost use Rattle.std.specs.FinMap as map;
    ghost use Rattle.pm_outside.specs.MemorySink.{SinkState};
    ghost use Rattle.pm_outside.specs.Inside.MemorySink.{sink_code};

    ghost Value = { SinkState };

    ghost coded = { sink_code };

    ghost view = { λ a. record {
      written = a.written.items;
      room = a.room;
      failing = map.from_entries a.failing.entries;
      calls = a.calls;
      faults = a.faults;
    } };

    ghost invariant = { λ a. vec_len a.written + a.room ≤ vec_capacity a.written };
}

impl MemorySink {
    /// A sink with this room, no bytes, no failing calls, and a count of 0. It is the one call that
    /// takes memory for bytes.
    pub fn with_room(alloc: Global, room: usize) -> Result<MemorySink, AllocError>
        ensures { IfOk result (λ sink. sink ≡ empty_sink room) }
    {
        Ok(MemorySink {
            written: Vec::with_capacity(alloc, room)?,
            room,
            failing: BTreeMap::new(alloc),
            calls: 0,
            faults: 0,
        })
    }

    /// From now on the put with this number fails, and takes at most so many bytes. Puts are
    /// counted from 0. Where a number is given again, the later `taken` counts. Where there is no
    /// memory, the sink stays as it was.
    pub fn fail_at(&mut self, call: u64, taken: usize) -> Result<(), AllocError>
        ensures ok { OnOk result
            (self.new ≡ record self.old { failing = map.insert self.old.failing call taken }) }
        ensures err { OnErr result (self.new ≡ self.old) }
    {
        self.failing.insert(call, taken)?;
        Ok(())
    }

    /// The bytes that it has got, in order.
    pub fn bytes(&self) -> &[u8]
        ensures { result.now ≡ self.now.written }
    {
        &self.written
    }

    // How much the next put takes at most, where it is one of those that fail.
    fn limit(&self) -> Option<usize>
        ensures { result ≡ map.get self.now.failing self.now.calls }
    {
        self.failing.get(&self.calls).copied()
    }

    // How many bytes of this piece the next put takes.
    fn taken(&self, piece: &[u8]) -> usize
        ensures count { result ≡ taken_of self.now piece.now }
        ensures within { result ≤ length piece.now }
        ensures fits { result ≤ self.now.room }
    {
        let fitting = piece.len().min(self.room);
        match self.limit() {
            Some(limit) => limit.min(fitting),
            None => fitting,
        }
    }

    // Whether the next put fails at this piece.
    fn fails(&self, piece: &[u8]) -> bool
        ensures { result ≡ fails self.now piece.now }
    {
        self.limit().is_some() || self.room < piece.len()
    }
}

impl Sink for MemorySink {
    ghost faults = { λ sink. sink.faults };

    ghost written = { λ sink. Some sink.written };

    /// Takes what fits in the room, and in a call that `fail_at` named no more than it said. The
    /// put fails in these calls, and where the bytes are more than the room.
    fn put(&mut self, bytes: &[u8]) -> Result<(), PutFault>
        ensures answer { IsErr result ↔ IsTrue (fails self.old bytes.now) }
        ensures state { self.new ≡ after_put self.old bytes.now }

        // What every sink ensures.
        ensures all { OnOk result
            (Appends (Some self.old.written) (Some self.new.written) bytes.now) }
        ensures prefix { OnErr result
            (AppendsPrefix (Some self.old.written) (Some self.new.written) bytes.now) }
        ensures failed { OnErr result (Rose self.old.faults self.new.faults) }
        ensures unfailed { OnOk result (self.new.faults ≡ self.old.faults) }
        ensures faults { self.old.faults ≤ self.new.faults }
    {
        let taken = self.taken(bytes);
        let fails = self.fails(bytes);
        self.calls = self.calls.saturating_add(1);
        self.written.extend_from_slice(&bytes[..taken]).unwrap();
        self.room -= taken;
        if !fails {
            return Ok(());
        }
        self.faults = self.faults.saturating_add(1);
        Err(PutFault::Failed)
    }
}
