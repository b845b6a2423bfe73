//! Runs on libraries and sinks in memory: the texts and statuses of each end.
use crate::{Status, run_alone};
use pm_outside::{MemoryLibrary, MemorySink};
use std::alloc::{AllocError, Global};
use std::test::Fail;

mod certificates;
mod inputs;
mod outside;
mod searches;
mod workers;

// Two clauses without terms.
const UNIT: &str = "cnf(a,axiom,p). cnf(b,negated_conjecture,~p).";

// Each step takes one function away.
const CHAIN: &str = "cnf(a,axiom,p(a)). cnf(b,axiom,~p(X) | p(f(X))).
cnf(c,negated_conjecture,~p(f(f(a)))).";

// The choices 0 0 2 0 put `a` for X, which repeats `~p(a)` on a branch that is closed already.
const LATE_REPEAT: &str = "cnf(0,axiom,p(Y) | ~p(Z)). cnf(1,axiom,p(a)).
cnf(2,axiom,~p(X) | ~t(X)). cnf(3,axiom,t(a) | ~u). cnf(4,axiom,u).";

// The certificate of its proof in the class `regular`.
const LATE_REPEAT_PROOF: &str = "parmel 1 class regular start negative depth 3 terms 1 nodes 6
a
root 2
1 - p 0 extend 1
2 + p 0 close 1
1 - t 0 extend 3
2 + t 0 close 1
2 - u extend 4
3 + u close 2
end
";

// A file with comments, annotations, quoted names and names that are numbers.
const FAMILY: &str = "%------------------------------------------------------------------------
% File     : family.p
/* twelve clauses */
cnf(1,axiom,( parent(ann,bob) ),file('family.ax',1)).
cnf('parent 2',axiom,( parent(bob,carl) )).
cnf(parent_3,axiom,( parent(carl,'dora') )).
cnf(female_1,axiom,female(ann)).
cnf(female_2,axiom,female(dora)).
cnf(male_1,axiom,male(bob)).
cnf(male_2,axiom,male(carl)).
cnf(grandparent,axiom,
    ( ~ parent(X,Y)
    | ~ parent(Y,Z)
    | grandparent(X,Z) )).
cnf(grandmother,axiom,
    ( ~ grandparent(X,Y) | ~ female(X) | grandmother(X,Y) ),
    inference(copy,[status(thm)],[c_0_1])).
cnf(grandfather,axiom,
    ( ~ grandparent(X,Y) | ~ male(X) | grandfather(X,Y) )).
cnf(apart,axiom,( ~ male(X) | ~ female(X) )).
cnf(goal,negated_conjecture,( ~ grandmother(ann,carl) )).
";

// The certificate of its proof.
const FAMILY_PROOF: &str = "parmel 1 class plain start negative depth 4 terms 3 nodes 10
ann
carl
bob
root 11
1 - grandmother 0 1 extend 8
2 - grandparent 0 1 extend 7
3 - parent 0 2 extend 0
4 + parent 0 2 close 3
3 - parent 2 1 extend 1
4 + parent 2 1 close 3
3 + grandparent 0 1 close 2
2 - female 0 extend 3
3 + female 0 close 2
2 + grandmother 0 1 close 1
end
";

// The words of a run, which stand in this text with blanks between them.
fn words(alloc: Global, text: &str) -> Result<Vec<String>, AllocError> {
    let mut words = Vec::new(alloc);
    for word in text.split_whitespace() {
        words.push(String::from_str(alloc, word)?)?;
    }
    Ok(words)
}

// Does the job of these words, where `e.p` has these clauses and `e.cert` this certificate, and
// gives the status and the text.
fn run(alloc: Global, job: &str, clauses: &str, cert: &str) -> Result<(Status, String), Fail> {
    let mut library = MemoryLibrary::new(alloc)?;
    library.add("e.p", clauses.as_bytes())?;
    library.add("e.cert", cert.as_bytes())?;
    let mut sink = MemorySink::with_room(alloc, 1_048_576)?;
    let words = words(alloc, job)?;
    let status = run_alone(alloc, &words, &mut library, &mut sink);
    let text = String::from_utf8(Vec::from_slice(alloc, sink.bytes())?);
    Ok((status, text.ok().ok_or("the text is ASCII")?))
}

// The status line of a search, and the lines of its exhausted levels.
fn level_lines(alloc: Global, status: &str, exhausted: &[u64]) -> Result<String, AllocError> {
    let mut text = format!(in alloc; "% SZS status {status}\n")?;
    for (level, attempts) in exhausted.iter().enumerate() {
        let line = format!(in alloc; "level {level} exhausted attempts {attempts}\n")?;
        text.push_str(line.as_str())?;
    }
    Ok(text)
}

// Each status has its code, and its line if it is a fault of the outside or want of memory.
#[test]
fn statuses(rt: HostRuntime) {
    for (status, code, line) in [
        (Status::Done, 0, ""),
        (Status::DepthReached, 10, ""),
        (Status::Budget, 11, ""),
        (Status::BadInput, 20, ""),
        (Status::CertRefused, 21, ""),
        (Status::BadWords, 22, ""),
        (Status::Missing, 30, "parmel: missing file"),
        (Status::ReadFault, 31, "parmel: read fault"),
        (Status::WriteFault, 32, "parmel: write fault"),
        (Status::NoMemory, 33, "parmel: out of memory"),
    ] {
        assert_eq!(rt; status.code(), code);
        assert_eq!(rt; status.line(), line);
    }
}

// Words that are no job are refused, whatever the files are.
#[test]
fn bad_words(rt: HostRuntime) -> Result<(), Fail> {
    for job in [
        "",
        "prove",
        "prove a b",
        "prove --depth 251 a.p",
        "prove --depth 3 --depth 3 a.p",
        "check a c --workers 2",
        "prove -- a.p",
        "prove -",
        "sample 0",
        "--help",
        "proof e.p",
        "clauses -p",
        "check e.p",
        "sample 1 --start negative",
    ] {
        let (status, text) = run(rt.alloc(), job, "", "")?;
        assert_eq!(rt; status, Status::BadWords, "at {job:?}");
        assert_eq!(rt; text.as_str(), "parmel: bad words\n", "at {job:?}");
    }
    Ok(())
}
