//! Searches that several workers share: the status and the text are those of one worker.
use super::{FAMILY, FAMILY_PROOF, LATE_REPEAT, LATE_REPEAT_PROOF, UNIT, level_lines, words};
use crate::{Status, run};
use pm_outside::{MemoryLibrary, MemorySink, OpenGate};
use std::alloc::{AllocError, Global};
use std::process::Abort;
use std::sync::Wait;
use std::test::Fail;
use std::thread::Threads;

// Two clauses that each prove the third at level 2: the first does.
const TWO: &str = "cnf(a,axiom,p). cnf(b,axiom,p). cnf(c,axiom,~p).";

const TWO_PROOF: &str = "parmel 1 class plain start negative depth 2 terms 0 nodes 2
root 2
1 - p extend 0
2 + p close 1
end
";

const UNIT_PROOF: &str = "parmel 1 class plain start negative depth 2 terms 0 nodes 2
root 1
1 - p extend 0
2 + p close 1
end
";

// The text of a proof: the attempts of the exhausted levels, those of the last level, and the
// certificate.
fn proof(
    alloc: Global,
    exhausted: &[u64],
    attempts: u64,
    document: &str,
) -> Result<String, AllocError> {
    let mut text = level_lines(alloc, "Unsatisfiable", exhausted)?;
    let level = exhausted.len();
    let line = format!(in alloc; "level {level} proof attempts {attempts}\n")?;
    text.push_str(line.as_str())?;
    text.push_str(document)?;
    Ok(text)
}

// Does a job with so many workers, which is to end with this status and this text.
fn assert_runs<R: Threads + Wait + Sync + Abort>(
    rt: &R,
    alloc: Global,
    job: &str,
    workers: u32,
    status: Status,
    want: &str,
) -> Result<(), Fail> {
    let mut library = MemoryLibrary::new(alloc)?;
    library.add("late.p", LATE_REPEAT.as_bytes())?;
    library.add("two.p", TWO.as_bytes())?;
    library.add("unit.p", UNIT.as_bytes())?;
    library.add("family.p", FAMILY.as_bytes())?;
    let mut sink = MemorySink::with_room(alloc, 16_384)?;
    let job = format!(in alloc; "{job} --workers {workers}")?;
    let words = words(alloc, job.as_str())?;
    let found = run(rt, alloc, &words, &mut library, &mut sink, &OpenGate);
    assert_eq!(rt; sink.bytes(), want.as_bytes(), "at {job:?}");
    assert_eq!(rt; found, status, "at {job:?}");
    Ok(())
}

// Each end of a search, with several numbers of workers.
#[test]
fn workers(rt: HostRuntime) -> Result<(), Fail> {
    let alloc = rt.alloc();
    let late = proof(alloc, &[1, 1, 6], 12, LATE_REPEAT_PROOF)?;
    let two = proof(alloc, &[1, 1], 2, TWO_PROOF)?;
    let unit = proof(alloc, &[1, 1], 2, UNIT_PROOF)?;
    let family = proof(alloc, &[2, 2, 10, 13], 20, FAMILY_PROOF)?;
    let gave_up = level_lines(alloc, "GaveUp", &[2, 2, 10, 13])?;
    let mut over = level_lines(alloc, "ResourceOut", &[2, 2])?;
    over.push_str("level 2 budget\n")?;
    for (job, status, want) in [
        ("prove late.p --class regular", Status::Done, late.as_str()),
        ("prove two.p", Status::Done, two.as_str()),
        ("prove unit.p", Status::Done, unit.as_str()),
        ("prove family.p", Status::Done, family.as_str()),
        (
            "prove --depth 3 family.p",
            Status::DepthReached,
            gave_up.as_str(),
        ),
        ("prove family.p --budget 9", Status::Budget, over.as_str()),
        ("prove none.p", Status::Missing, ""),
        ("prove two.p two.p", Status::BadWords, "parmel: bad words\n"),
        (
            "sample 1 --depth 1",
            Status::DepthReached,
            "sample 1 clauses 1003\ndepth reached attempts 2\n",
        ),
    ] {
        for workers in [1, 2, 3, 64] {
            assert_runs(&rt, alloc, job, workers, status, want)?;
        }
    }
    Ok(())
}

// Searches of several levels of many attempts.
#[test]
fn samples_by_workers(rt: HostRuntime) -> Result<(), Fail> {
    for (job, want) in [
        (
            "sample 1",
            "sample 1 clauses 1003\nproof depth 22 nodes 82 terms 21 attempts 193984\n",
        ),
        (
            "sample 7",
            "sample 7 clauses 7003\nproof depth 22 nodes 82 terms 21 attempts 1333984\n",
        ),
    ] {
        for workers in [1, 2, 64] {
            assert_runs(&rt, rt.alloc(), job, workers, Status::Done, want)?;
        }
    }
    Ok(())
}

// Many schedules of more workers than there are processors.
#[test]
fn many_runs_by_many_workers(rt: HostRuntime) -> Result<(), Fail> {
    let want = proof(rt.alloc(), &[2, 2, 10, 13], 20, FAMILY_PROOF)?;
    for _ in 0..200 {
        assert_runs(
            &rt,
            rt.alloc(),
            "prove family.p",
            64,
            Status::Done,
            want.as_str(),
        )?;
    }
    Ok(())
}
