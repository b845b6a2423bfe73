//! Libraries and sinks that fail, and what a run asks of them.
ghost use Rattle.std.specs.Prelude.{None};

use super::{UNIT, words};
use crate::put::put_text;
use crate::{Status, run_alone};
use pm_outside::{FetchFault, Library, MemoryLibrary, MemorySink};
use std::alloc::{AllocError, Global};
use std::process::Abort;
use std::test::Fail;

// The proof of `UNIT`.
const UNIT_PROOF: &str = "% SZS status Unsatisfiable
level 0 exhausted attempts 1
level 1 exhausted attempts 1
level 2 proof attempts 2
parmel 1 class plain start negative depth 2 terms 0 nodes 2
root 1
1 - p extend 0
2 + p close 1
end
";

// The files `e.p`, which is `UNIT`, `none.p` without clauses, `bad.p`, which is refused, and
// `e.cert`, the proof of `UNIT`.
fn files(alloc: Global) -> Result<MemoryLibrary, AllocError> {
    let mut files = MemoryLibrary::new(alloc)?;
    files.add("e.p", UNIT.as_bytes())?;
    files.add("none.p", b"")?;
    files.add("bad.p", b"cnf(a,axiom,p")?;
    files.add("e.cert", UNIT_PROOF.as_bytes())?;
    Ok(files)
}

// A library that fails in its fetch of this number ends the run, and nothing is written.
#[test]
fn read_faults(rt: HostRuntime) -> Result<(), Fail> {
    let alloc = rt.alloc();
    for (job, call) in [
        ("prove e.p", 0),
        ("check e.p e.cert", 0),
        ("check e.p e.cert", 1),
        ("check missing.p e.cert", 0),
        ("code e.p", 0),
        ("clauses e.p", 0),
    ] {
        let mut library = files(alloc)?;
        library.fail_at(call)?;
        let mut sink = MemorySink::with_room(alloc, 4_096)?;
        let words = words(alloc, job)?;
        let status = run_alone(alloc, &words, &mut library, &mut sink);
        assert_eq!(rt; status, Status::ReadFault, "at fetch {call} of {job:?}");
        assert!(rt; sink.bytes().is_empty(), "at fetch {call} of {job:?}");
    }
    Ok(())
}

// A sink that fails in its put of this number takes so many bytes of it. A text goes out in pieces
// of 4,096 bytes, and an empty text in none.
#[test]
fn write_faults(rt: HostRuntime) -> Result<(), Fail> {
    let alloc = rt.alloc();
    for (job, call, taken, status, written) in [
        ("prove e.p", 0, 0, Status::WriteFault, 0),
        ("prove e.p", 0, 1, Status::WriteFault, 1),
        ("prove e.p", 0, 100, Status::WriteFault, 100),
        ("prove none.p --depth 250", 0, 100, Status::WriteFault, 100),
        ("prove none.p --depth 250", 1, 0, Status::WriteFault, 4_096),
        ("prove none.p --depth 250", 1, 1, Status::WriteFault, 4_097),
        (
            "prove none.p --depth 250",
            1,
            100,
            Status::WriteFault,
            4_196,
        ),
        (
            "prove none.p --depth 250",
            2,
            0,
            Status::DepthReached,
            7_691,
        ),
        ("check e.p e.cert", 0, 0, Status::WriteFault, 0),
        ("check e.p e.cert", 0, 1, Status::WriteFault, 1),
        ("check e.p e.cert", 0, 100, Status::WriteFault, 41),
        ("clauses e.p", 0, 0, Status::WriteFault, 0),
        ("clauses e.p", 0, 1, Status::WriteFault, 1),
        ("clauses e.p", 0, 100, Status::WriteFault, 50),
        ("clauses bad.p", 0, 1, Status::WriteFault, 1),
        ("prove", 0, 6, Status::WriteFault, 6),
        ("clauses none.p", 0, 0, Status::Done, 0),
        ("code none.p", 0, 0, Status::Done, 0),
        ("prove missing.p", 0, 0, Status::Missing, 0),
    ] {
        let mut whole = MemorySink::with_room(alloc, 16_384)?;
        let words = words(alloc, job)?;
        let mut library = files(alloc)?;
        let _ = run_alone(alloc, &words, &mut library, &mut whole);
        let mut sink = MemorySink::with_room(alloc, 16_384)?;
        sink.fail_at(call, taken)?;
        let found = run_alone(alloc, &words, &mut library, &mut sink);
        assert_eq!(rt; found, status, "at put {call} of {job:?}");
        assert_eq!(rt; sink.bytes().len(), written, "at put {call} of {job:?}");
        assert!(rt;
            whole.bytes().starts_with(sink.bytes()),
            "at put {call} of {job:?}"
        );
    }
    Ok(())
}

// A text that fits into the pieces exactly has no piece more.
#[test]
fn pieces(rt: HostRuntime) -> Result<(), Fail> {
    for (length, is_put, written) in [
        (0, true, 0),
        (4_096, true, 4_096),
        (4_097, false, 4_096),
        (8_192, false, 4_096),
    ] {
        let mut text = Vec::new(rt.alloc());
        text.resize(length, b'a')?;
        let mut sink = MemorySink::with_room(rt.alloc(), 16_384)?;
        sink.fail_at(1, 0)?;
        assert_eq!(rt;
            put_text(&mut sink, &text).is_ok(),
            is_put,
            "at {length} bytes"
        );
        assert_eq!(rt; sink.bytes().len(), written, "at {length} bytes");
    }
    Ok(())
}

// A library that notes the names that it is asked for, each with its limit, and refuses files of
// more than `most` bytes. It has no memory for files where it is told so.
#[derive(Drop)]
struct NotingLibrary {
    files: MemoryLibrary,
    most: u64,
    has_memory: bool,
    asked: String,
}

impl Library for NotingLibrary {
    ghost faults = { λ library. library.files.counts.faults };

    ghost misses = { λ library. library.files.counts.misses };

    ghost longs = { λ library. library.files.counts.longs };

    ghost told = { λ _. None };

    fn fetch(&mut self, alloc: Global, name: &str, limit: u64) -> Result<Vec<u8>, FetchFault> {
        let noted = match format!(in alloc; "{name} {limit} ") {
            Ok(note) => self.asked.push_str(note.as_str()).is_ok(),
            Err(_) => false,
        };
        if !noted || !self.has_memory {
            return Err(FetchFault::Memory);
        }
        self.files.fetch(alloc, name, limit.min(self.most))
    }
}

// What a run over the files of these tests ends with: its status and text, and the names and limits
// that it asks for.
#[derive(Clone, Copy)]
struct Ending<'a> {
    status: Status,
    text: &'a str,
    asked: &'a str,
}

fn assert_ends(
    rt: &impl Abort,
    alloc: Global,
    job: &str,
    most: u64,
    has_memory: bool,
    want: Ending<'_>,
) -> Result<(), Fail> {
    let mut library = NotingLibrary {
        files: files(alloc)?,
        most,
        has_memory,
        asked: String::new(alloc),
    };
    let mut sink = MemorySink::with_room(alloc, 4_096)?;
    let words = words(alloc, job)?;
    let status = run_alone(alloc, &words, &mut library, &mut sink);
    assert_eq!(rt; status, want.status, "at {job:?}");
    assert_eq!(rt; sink.bytes(), want.text.as_bytes(), "at {job:?}");
    assert_eq!(rt; library.asked.as_str(), want.asked, "at {job:?}");
    Ok(())
}

// The library is asked for the files of the words in their order, and for none after one that isn't
// good: each is read before the next is fetched. The limits are those of clauses and certificates.
#[test]
fn fetches(rt: HostRuntime) -> Result<(), Fail> {
    let offence = "% SZS status InputError\nline 1 column 14 EndInItem\n";
    let accepted = "certificate accepted depth 2\nchoices 0 0\n";
    let refused = "certificate refused line 6 ClauseRange\n";
    let sample = "sample 1 clauses 1003\ndepth reached attempts 1\n";
    let words = "parmel: bad words\n";
    for (job, asked, status, text) in [
        ("prove e.p", "e.p 16777216 ", Status::Done, UNIT_PROOF),
        (
            "prove missing.p",
            "missing.p 16777216 ",
            Status::Missing,
            "",
        ),
        ("code missing.p", "missing.p 16777216 ", Status::Missing, ""),
        (
            "clauses missing.p",
            "missing.p 16777216 ",
            Status::Missing,
            "",
        ),
        ("sample 1 --depth 0", "", Status::DepthReached, sample),
        ("check e.p", "", Status::BadWords, words),
        (
            "check e.p e.cert",
            "e.p 16777216 e.cert 268435456 ",
            Status::Done,
            accepted,
        ),
        (
            "check missing.p e.cert",
            "missing.p 16777216 ",
            Status::Missing,
            "",
        ),
        (
            "check e.p missing.cert",
            "e.p 16777216 missing.cert 268435456 ",
            Status::Missing,
            "",
        ),
        (
            "check bad.p e.cert",
            "bad.p 16777216 ",
            Status::BadInput,
            offence,
        ),
        (
            "check bad.p missing.cert",
            "bad.p 16777216 ",
            Status::BadInput,
            offence,
        ),
        (
            "check none.p e.cert",
            "none.p 16777216 e.cert 268435456 ",
            Status::CertRefused,
            refused,
        ),
    ] {
        let want = Ending {
            status,
            text,
            asked,
        };
        assert_ends(&rt, rt.alloc(), job, u64::MAX, true, want)?;
    }
    Ok(())
}

// A file that is over the library's limit is named by its place in the words. A library without
// memory for a file ends the run.
#[test]
fn long_files_and_want_of_memory(rt: HostRuntime) -> Result<(), Fail> {
    let first = "% SZS status InputError\nfile 1 TooLong\n";
    let second = "% SZS status InputError\nfile 2 TooLong\n";
    for (job, most, has_memory, asked, status, text) in [
        (
            "prove e.p",
            44,
            true,
            "e.p 16777216 ",
            Status::BadInput,
            first,
        ),
        (
            "check e.p e.cert",
            44,
            true,
            "e.p 16777216 ",
            Status::BadInput,
            first,
        ),
        (
            "check e.p e.cert",
            45,
            true,
            "e.p 16777216 e.cert 268435456 ",
            Status::BadInput,
            second,
        ),
        (
            "clauses e.p",
            45,
            false,
            "e.p 16777216 ",
            Status::NoMemory,
            "",
        ),
        (
            "check e.p e.cert",
            45,
            false,
            "e.p 16777216 ",
            Status::NoMemory,
            "",
        ),
    ] {
        let want = Ending {
            status,
            text,
            asked,
        };
        assert_ends(&rt, rt.alloc(), job, most, has_memory, want)?;
    }
    Ok(())
}

// Each job writes its whole text, or nothing where memory is short: it is so too where
// `rt try --test --fail-alloc N` has an allocation of this test fail.
#[test]
fn whole_texts_or_want_of_memory(rt: HostRuntime) -> Result<(), Fail> {
    let alloc = rt.alloc();
    for (job, want, text) in [
        ("prove e.p", Status::Done, UNIT_PROOF),
        (
            "check e.p e.cert",
            Status::Done,
            "certificate accepted depth 2\nchoices 0 0\n",
        ),
        (
            "clauses e.p",
            Status::Done,
            "cnf(a,axiom,(p)).\ncnf(b,negated_conjecture,(~p)).\n",
        ),
        (
            "code e.p",
            Status::Done,
            "body 0
GOAL + p 0
RETURN
start 0
NEW
BODY 0
DONE
extend 0 0
NEW
BODY 0
CLOSE 0
DONE
body 1
GOAL - p 0
RETURN
start 1
NEW
BODY 1
DONE
extend 1 0
NEW
BODY 1
CLOSE 0
DONE
",
        ),
        (
            "sample 1 --depth 1",
            Status::DepthReached,
            "sample 1 clauses 1003\ndepth reached attempts 2\n",
        ),
    ] {
        let mut library = files(alloc)?;
        let mut sink = MemorySink::with_room(alloc, 4_096)?;
        let words = words(alloc, job)?;
        let status = run_alone(alloc, &words, &mut library, &mut sink);
        if status == Status::NoMemory {
            assert_eq!(rt; sink.bytes(), b"".as_slice(), "at {job:?}");
        } else {
            assert_eq!(rt; status, want, "at {job:?}");
            assert_eq!(rt; sink.bytes(), text.as_bytes(), "at {job:?}");
        }
    }
    Ok(())
}
