//! The library of the host: its files.
ghost use Rattle.std.specs.Prelude.{◌≡◌, ◌≢◌, ◌⊎◌, [], ◌+◌, ◌^◌, ◌≤◌, ◌<◌, None, Err, vec_len, IfErr, length, IfOk, OnOk, IfSome, IsOkAnd, IsErrAnd, IsErrOf};
ghost use Rattle.std.specs.Io.KnownBytes.{Consumes, Keeps};
ghost use Rattle.std.specs.IoError.{error_kind};
ghost use Rattle.pm_outside.specs.Counts.{counts_after, no_counts};
ghost use Rattle.pm_outside.specs.HostLibrary.{host_view};
ghost use Rattle.pm_outside.specs.Inside.Reading.{HasBegunRead, IsReadFault, Reads};
ghost use Rattle.pm_outside.specs.Outside.{CountsOnly, IsFetch};

use crate::counts::Counts;
use crate::library::{FetchFault, Library};
use std::alloc::Global;
use std::fs;
use std::io::{self, Error, ErrorKind, Read};
use std::marker::Model;
use std::rt::Files;

// The most bytes that one read asks for.
const PIECE: usize = 8192;

/// The files of the system, by their paths. It tells none of them.
#[derive(Drop)]
pub struct HostLibrary<'r, R> {
    rt: &'r R,
    counts: Counts,
}

impl<'r, R> Model for HostLibrary<'r, R> {
    ghost use Rattle.pm_outside.specs.declared.counts.Counts.{Counts};

    ghost Value = { Counts };

    ghost view = { λ a. a.counts };
}

impl<'r, R: Files> HostLibrary<'r, R> {
    /// The library of this system, with counts of 0.
    pub fn new(rt: &'r R) -> HostLibrary<'r, R>
        ensures { result ≡ no_counts }
    {
        HostLibrary {
            rt,
            counts: Counts::new(),
        }
    }
}

impl<'r, R: Files> Library for HostLibrary<'r, R> {
    ghost faults = { λ counts. counts.faults };

    ghost misses = { λ counts. counts.misses };

    ghost longs = { λ counts. counts.longs };

    ghost told = { λ _. None };

    /// The bytes of the file at this path. The answer is `Missing` where no file is found there,
    /// `TooLong` where it has more bytes than the limit, `Memory` where there is no memory for
    /// them, and `Failed` at every other fault of the system, as at a folder.
    fn fetch(&mut self, alloc: Global, name: &str, limit: u64) -> Result<Vec<u8>, FetchFault>
        ensures counts { self.new ≡ counts_after self.old result }
        ensures fetched { IsFetch (host_view self.old) (host_view self.new) name.now limit result }
    {
        let mut opened = fs::open(self.rt, name);
        let mut bytes = Vec::new(alloc);
        read_file(&mut opened, &mut bytes, limit, &mut self.counts)?;
        Ok(bytes)
    }
}

// The bytes of what opening a file gave, with the cause of a fault counted. File and buffer stay
// with the caller, so that the clauses can tell how far it came: after want of memory the buffer
// has exactly what was read, and a read that failed has left more in it.
fn read_file<F: Read>(
    opened: &mut io::Result<F>,
    bytes: &mut Vec<u8>,
    limit: u64,
    counts: &mut Counts,
) -> Result<(), FetchFault>
    requires { bytes.old.items ≡ [] }
    ensures counts { counts.new ≡ counts_after counts.old result }
    ensures faults { CountsOnly (IsErrOf result FetchFault.Failed)
        counts.old.faults counts.new.faults }
    ensures misses { CountsOnly (IsErrOf result FetchFault.Missing)
        counts.old.misses counts.new.misses }
    ensures longs { CountsOnly (IsErrOf result FetchFault.TooLong)
        counts.old.longs counts.new.longs }
    ensures within { OnOk result (length bytes.new.items ≤ limit) }
    ensures whole { OnOk result (IsOkAnd opened.old (λ file.
        IfSome (F.remaining file) (λ content. bytes.new.items ≡ content))) }
    ensures too_long { IsErrOf result FetchFault.TooLong → IsOkAnd opened.old (λ file.
        IfSome (F.remaining file) (λ content. limit < length content)) }
    ensures missing { IsErrOf result FetchFault.Missing
        → IsErrAnd opened.old (λ error. error_kind error ≡ ErrorKind.NotFound) }
    ensures memory { IsErrOf result FetchFault.Memory → IsOkAnd opened.old (λ file.
        IsOkAnd opened.new (λ left. Consumes (F.remaining file) (F.remaining left)
        bytes.new.items)) }
    ensures failed { IsErrOf result FetchFault.Failed
        → IsErrAnd opened.old (λ error. error_kind error ≢ ErrorKind.NotFound)
        ⊎ IsOkAnd opened.old (λ file. IsOkAnd opened.new (λ left.
        HasBegunRead (F.remaining file) (F.remaining left) bytes.new.items)) }
{
    let answer = match opened {
        Ok(file) => read_at_most(file, bytes, limit),
        Err(error) => Err(cause_of(error)),
    };
    counts.count(&answer);
    answer
}

// Why a file wasn't opened.
fn cause_of(error: &Error) -> FetchFault
    ensures missing { error_kind error.now ≡ ErrorKind.NotFound → result ≡ FetchFault.Missing }
    ensures failed { error_kind error.now ≢ ErrorKind.NotFound → result ≡ FetchFault.Failed }
{
    if error.kind() == ErrorKind::NotFound {
        FetchFault::Missing
    } else {
        FetchFault::Failed
    }
}

// Reads to the end, or one byte past the limit. Each turn takes at least one byte.
fn read_at_most<F: Read>(file: &mut F, bytes: &mut Vec<u8>, limit: u64) -> Result<(), FetchFault>
    requires { bytes.old.items ≡ [] }
    ensures within { OnOk result (length bytes.new.items ≤ limit) }
    ensures whole { OnOk result
        (IfSome (F.remaining file.old) (λ content. bytes.new.items ≡ content)) }
    ensures too_long { IsErrOf result FetchFault.TooLong
        → IfSome (F.remaining file.old) (λ content. limit < length content) }
    ensures stops { IsErrOf result FetchFault.TooLong → length bytes.new.items ≤ limit + 1 }
    ensures read { result ≢ Err FetchFault.Failed
        → Consumes (F.remaining file.old) (F.remaining file.new) bytes.new.items }
    ensures failed { IsErrOf result FetchFault.Failed
        → HasBegunRead (F.remaining file.old) (F.remaining file.new) bytes.new.items }
    ensures found { result ≢ Err FetchFault.Missing }
{
    while bytes.len() as u64 <= limit {
        let left = limit - bytes.len() as u64;
        let most = if left < PIECE as u64 {
            left as usize + 1
        } else {
            PIECE
        };
        if read_piece(file, bytes, most)? == 0 {
            return Ok(());
        }
    }
    Err(FetchFault::TooLong)
}

// Reads at most so many bytes onto the end of these, and says how many. Where the read fails, the
// bytes are left longer, and want of memory leaves them and the reader as before.
fn read_piece<F: Read>(file: &mut F, bytes: &mut Vec<u8>, most: usize) -> Result<usize, FetchFault>
    requires some { 0 < most }
    requires fits { vec_len bytes.old + most < 2 ^ 64 }
    ensures within { IfOk result (λ count. count ≤ most) }
    ensures reads { IfOk result
        (Reads (F.remaining file.old) (F.remaining file.new) bytes.old.items bytes.new.items) }
    ensures faults { IfErr result IsReadFault }
    ensures memory { IsErrOf result FetchFault.Memory
        → (file.new ≡ file.old) × (bytes.new.items ≡ bytes.old.items) }
    ensures failed { IsErrOf result FetchFault.Failed
        → Keeps (F.remaining file.old) (F.remaining file.new)
        × (length bytes.old.items < length bytes.new.items) }
{
    let start = bytes.len();
    if bytes.resize(start + most, 0).is_err() {
        return Err(FetchFault::Memory);
    }
    match file.read(&mut bytes[start..]) {
        Ok(count) => {
            bytes.truncate(start + count);
            Ok(count)
        }
        Err(_) => Err(FetchFault::Failed),
    }
}

#[cfg(test)]
mod tests {
    use super::*;
    use std::test::*;

    // A reader whose every read fails.
    #[derive(Drop)]
    struct Broken;

    impl Read for Broken {
        fn read(&mut self, _buf: &mut [u8]) -> io::Result<usize> {
            Err(Error::from(ErrorKind::Other))
        }
    }

    #[test]
    fn a_read_that_fails_in_mid_file_is_a_fault(rt: HostRuntime) {
        let mut opened = Ok(b"p(a)".as_slice().chain(Broken));
        let mut bytes = Vec::new(rt.alloc());
        let mut counts = Counts::new();
        let answer = read_file(&mut opened, &mut bytes, 99, &mut counts);
        assert_eq!(rt; answer.err(), Some(FetchFault::Failed));
        assert_eq!(rt; counts.faults, 1);
    }
}
