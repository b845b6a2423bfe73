//! A library in memory.
ghost use Rattle.std.specs.Prelude.{◌≡◌, ◌≤◌, None, Some, Err, IfOk, OnOk, OnErr};
ghost use Rattle.std.specs.Option.{option_copied};
ghost use Rattle.std.specs.FinMap as map;
ghost use Rattle.std.specs.FinSet as set;
ghost use Rattle.pm_outside.specs.MemoryLibrary.{empty_library, next_answer, after_fetch, memory_view, Answers};
ghost use Rattle.pm_outside.specs.Outside.{IsFetch};

use crate::counts::Counts;
use crate::library::{FetchFault, Library};
use std::alloc::{AllocError, Global};
use std::collections::BTreeMap;
use std::marker::Model;

/// A library whose files a program adds. It tells them, and it fails in the calls that it is told
/// to.
#[derive(Drop)]
pub struct MemoryLibrary {
    alloc: Global,
    files: BTreeMap<String, Vec<u8>>,
    failing: Vec<u64>,
    calls: u64,
    counts: Counts,
}

impl Model for MemoryLibrary {
    ghost use Rattle.std.specs.FinSet as set;
    ghost use Rattle.pm_outside.specs.MemoryLibrary.{LibraryState};
    ghost use Rattle.pm_outside.specs.Inside.MemoryLibrary.{library_code, files_of};

    ghost Value = { LibraryState };

    ghost coded = { library_code };

    ghost view = { λ a. record {
      files = files_of a.files.entries;
      failing = set.from_list a.failing.items;
      calls = a.calls;
      counts = a.counts;
    } };
}

impl MemoryLibrary {
    /// A library with no files, no failing calls, and counts of 0.
    pub fn new(alloc: Global) -> Result<MemoryLibrary, AllocError>
        ensures { IfOk result (λ library. library ≡ empty_library) }
    {
        Ok(MemoryLibrary {
            alloc,
            files: BTreeMap::new(alloc),
            failing: Vec::new(alloc),
            calls: 0,
            counts: Counts::new(),
        })
    }

    /// Adds a file of this name, or gives it these bytes in place of those that it had. Where there
    /// is no memory, the library stays as it was.
    pub fn add(&mut self, name: &str, bytes: &[u8]) -> Result<(), AllocError>
        ensures ok { OnOk result
            (self.new ≡ record self.old { files = map.insert self.old.files name.now bytes.now }) }
        ensures err { OnErr result (self.new ≡ self.old) }
    {
        let key = String::from_str(self.alloc, name)?;
        let copy = Vec::from_slice(self.alloc, bytes)?;
        self.files.insert(key, copy)?;
        Ok(())
    }

    /// From now on the fetch with this number fails, whatever its name. Fetches are counted from 0.
    /// Where there is no memory, the library stays as it was.
    pub fn fail_at(&mut self, call: u64) -> Result<(), AllocError>
        ensures ok { OnOk result
            (self.new ≡ record self.old { failing = set.insert self.old.failing call }) }
        ensures err { OnErr result (self.new ≡ self.old) }
    {
        self.failing.push(call)?;
        Ok(())
    }

    // Whether the next fetch is one of those that fail.
    fn fails(&self) -> bool
        ensures { result ≡ set.contains self.now.failing self.now.calls }
    {
        self.failing.contains(&self.calls)
    }

    // The bytes of the file of this name.
    fn file(&self, name: &str) -> Option<&[u8]>
        ensures { option_copied result ≡ map.get self.now.files name.now }
    {
        match self.files.get(name) {
            Some(bytes) => Some(bytes.as_slice()),
            None => None,
        }
    }

    // What the next fetch answers.
    fn answer(&self, alloc: Global, name: &str, limit: u64) -> Result<Vec<u8>, FetchFault>
        ensures { Answers result (next_answer self.now name.now limit) }
    {
        if self.fails() {
            return Err(FetchFault::Failed);
        }
        let Some(bytes) = self.file(name) else {
            return Err(FetchFault::Missing);
        };
        if bytes.len() as u64 > limit {
            return Err(FetchFault::TooLong);
        }
        match Vec::from_slice(alloc, bytes) {
            Ok(copy) => Ok(copy),
            Err(_) => Err(FetchFault::Memory),
        }
    }
}

impl Library for MemoryLibrary {
    ghost faults = { λ library. library.counts.faults };

    ghost misses = { λ library. library.counts.misses };

    ghost longs = { λ library. library.counts.longs };

    ghost told = { λ library. Some library.files };

    /// A copy of the bytes of the file. The answer is `Failed` in a call that `fail_at` named, else
    /// `Missing` where no file has this name, else `TooLong` where the file has more bytes than the
    /// limit, and `Memory` where there is no memory for the copy. After `Memory` the library is as
    /// before.
    fn fetch(&mut self, alloc: Global, name: &str, limit: u64) -> Result<Vec<u8>, FetchFault>
        ensures answer { Answers result (next_answer self.old name.now limit) }
        ensures state { self.new ≡ after_fetch self.old result }
        ensures fetched { IsFetch (memory_view self.old) (memory_view self.new)
            name.now limit result }
    {
        let answer = self.answer(alloc, name, limit);
        if !matches!(answer, Err(FetchFault::Memory)) {
            self.calls = self.calls.saturating_add(1);
            self.counts.count(&answer);
        }
        answer
    }
}
