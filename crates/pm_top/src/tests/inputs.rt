//! Files of clauses: their offences and limits, and the texts of `clauses` and `code`.
use super::{CHAIN, FAMILY, run, words};
use crate::{Status, run_alone};
use pm_outside::{MemoryLibrary, MemorySink};
use std::alloc::{AllocError, Global};
use std::test::Fail;

// Each job on a file of clauses names the first offence of the file.
#[test]
fn offences(rt: HostRuntime) -> Result<(), Fail> {
    for (clauses, offence) in [
        ("cnf(a,axiom,'p", "line 1 column 13 UnclosedQuote"),
        ("cnf(a,axiom,p", "line 1 column 14 EndInItem"),
        ("cnf(a,axiom,X = Y).", "line 1 column 15 Equality"),
        ("include('x').", "line 1 column 1 Include"),
        ("cnf(a,axiom,p).\n,", "line 2 column 1 Unexpected"),
    ] {
        let want = format!(in rt.alloc(); "% SZS status InputError\n{offence}\n")?;
        for job in ["prove e.p", "check e.p e.cert", "code e.p", "clauses e.p"] {
            let (status, text) = run(rt.alloc(), job, clauses, "")?;
            assert_eq!(rt; text.as_str(), want.as_str(), "at {job:?} of {clauses:?}");
            assert_eq!(rt; status, Status::BadInput, "at {job:?} of {clauses:?}");
        }
    }
    Ok(())
}

// Clauses and their code are written, or nothing where there are none.
#[test]
fn listings(rt: HostRuntime) -> Result<(), Fail> {
    for (job, clauses, want) in [
        (
            "clauses e.p",
            "cnf(7, axiom, (p(Y,'x',Z) | $false | ~ 'Q r'(Z))). cnf(t,axiom,p | $true).",
            "cnf(7,axiom,(p(X0,x,X1) | ~'Q r'(X1))).\n",
        ),
        (
            "clauses e.p",
            "cnf(e,axiom,$false).",
            "cnf(e,axiom,($false)).\n",
        ),
        ("clauses e.p", "cnf(t,axiom,~ $false).", ""),
        (
            "code e.p",
            CHAIN,
            "body 0
CONST a
GOAL + p 1
RETURN
start 0
NEW
BODY 0
DONE
extend 0 0
GROUND a
NEW
BODY 0
CLOSE 0
DONE
body 1
PUSH 0
GOAL - p 1
PUSH 0
MAKE f 1
GOAL + p 1
RETURN
start 1
NEW
BODY 1
DONE
extend 1 0
FIRST 0
NEW
BODY 1
CLOSE 0
DONE
extend 1 1
MEET f 1
FIRST 0
NEW
BODY 1
CLOSE 1
DONE
body 2
CONST f(f(a))
GOAL - p 1
RETURN
start 2
NEW
BODY 2
DONE
extend 2 0
GROUND f(f(a))
NEW
BODY 2
CLOSE 0
DONE
",
        ),
        ("code e.p", "cnf(t,axiom,p | $true).", ""),
    ] {
        let (status, text) = run(rt.alloc(), job, clauses, "")?;
        assert_eq!(rt; text.as_str(), want, "at {job:?} of {clauses:?}");
        assert_eq!(rt; status, Status::Done, "at {job:?} of {clauses:?}");
    }
    Ok(())
}

// `before`, then the part so many times.
fn repeated(alloc: Global, before: &str, part: &str, times: usize) -> Result<String, AllocError> {
    let mut text = String::from_str(alloc, before)?;
    for _ in 0..times {
        text.push_str(part)?;
    }
    Ok(text)
}

// An item whose one literal has so many functions around its constant, one in the other, between
// these texts.
fn nested(
    alloc: Global,
    before: &str,
    functions: usize,
    after: &str,
) -> Result<String, AllocError> {
    let mut text = repeated(alloc, before, "f(", functions)?;
    text.push_str(repeated(alloc, "a", ")", functions)?.as_str())?;
    text.push_str(after)?;
    Ok(text)
}

// An item may have 255 literals, and a term may stand at nesting 1,000.
#[test]
fn limits_of_items(rt: HostRuntime) -> Result<(), Fail> {
    let alloc = rt.alloc();
    let mut longest = repeated(alloc, "cnf(a,axiom,p", "|p", 254)?;
    longest.push_str(").")?;
    let mut written = repeated(alloc, "cnf(a,axiom,(p", " | p", 254)?;
    written.push_str(")).\n")?;
    let mut longer = repeated(alloc, "cnf(a,axiom,p", "|p", 255)?;
    longer.push_str(").")?;
    let deepest = nested(alloc, "cnf(a,axiom,p(", 999, ")).")?;
    let deepest_written = nested(alloc, "cnf(a,axiom,(p(", 999, "))).\n")?;
    let deeper = nested(alloc, "cnf(a,axiom,p(", 1_000, ")).")?;
    for (clauses, status, want) in [
        (longest.as_str(), Status::Done, written.as_str()),
        (
            longer.as_str(),
            Status::BadInput,
            "% SZS status InputError\nline 1 column 523 TooManyLiterals\n",
        ),
        (deepest.as_str(), Status::Done, deepest_written.as_str()),
        (
            deeper.as_str(),
            Status::BadInput,
            "% SZS status InputError\nline 1 column 2015 TooDeep\n",
        ),
    ] {
        let (found, text) = run(alloc, "clauses e.p", clauses, "")?;
        assert_eq!(rt; text.as_str(), want);
        assert_eq!(rt; found, status);
    }
    Ok(())
}

// A file of clauses has at most 16,777,216 bytes.
#[test]
fn a_file_over_its_limit(rt: HostRuntime) -> Result<(), Fail> {
    let mut blanks = Vec::new(rt.alloc());
    blanks.resize(16_777_217, b' ')?;
    let mut library = MemoryLibrary::new(rt.alloc())?;
    library.add("e.p", &blanks)?;
    for job in ["prove e.p", "check e.p e.cert", "code e.p", "clauses e.p"] {
        let mut sink = MemorySink::with_room(rt.alloc(), 100)?;
        let words = words(rt.alloc(), job)?;
        let status = run_alone(rt.alloc(), &words, &mut library, &mut sink);
        let want = b"% SZS status InputError\nfile 1 TooLong\n";
        assert_eq!(rt; sink.bytes(), want.as_slice(), "at {job:?}");
        assert_eq!(rt; status, Status::BadInput, "at {job:?}");
    }
    Ok(())
}

// The place after the last byte of a text.
fn end_of(text: &[u8]) -> (u64, u64) {
    let mut line = 1_u64;
    let mut column = 1_u64;
    for byte in text {
        if *byte == b'\n' {
            line = line.saturating_add(1);
            column = 1;
        } else {
            column = column.saturating_add(1);
        }
    }
    (line, column)
}

// The place that the text of a refusal names.
fn place_of(text: &str) -> Result<(u64, u64), Fail> {
    let front = "% SZS status InputError\nline ";
    let place = text.strip_prefix(front).ok_or("the text is a refusal")?;
    let (line, rest) = place.split_once(" column ").ok_or("a line is named")?;
    let (column, _) = rest.split_once(" ").ok_or("a column is named")?;
    Ok((line.parse()?, column.parse()?))
}

// A file that is cut after any of its bytes is read, or refused with a place that isn't after the
// end.
#[test]
fn files_cut_short(rt: HostRuntime) -> Result<(), Fail> {
    let alloc = rt.alloc();
    let words = words(alloc, "clauses e.p")?;
    let mut read = 0_u32;
    for cut in 0..=FAMILY.len() {
        let bytes = FAMILY.as_bytes().get(..cut).ok_or("the file is longer")?;
        let mut library = MemoryLibrary::new(alloc)?;
        library.add("e.p", bytes)?;
        let mut sink = MemorySink::with_room(alloc, 4_096)?;
        let status = run_alone(alloc, &words, &mut library, &mut sink);
        if status == Status::Done {
            read = read.saturating_add(1);
        } else {
            let text = String::from_utf8(Vec::from_slice(alloc, sink.bytes())?);
            let text = text.ok().ok_or("the text is ASCII")?;
            assert_eq!(rt; status, Status::BadInput, "after {cut} bytes");
            assert!(rt;
                place_of(text.as_str())? <= end_of(bytes),
                "after {cut} bytes"
            );
        }
    }
    // The cuts in the first two comments, and those after the third comment and after each item.
    assert_eq!(rt; read, 123);
    Ok(())
}
