//! The top call.
ghost use Rattle.std.specs.Prelude.{◌≡◌, IfOk, IfErr, IfSome, IsNone, IsErrOf, map, string_bytes};
ghost use Rattle.pm_args.specs.Jobs.{job_of};
ghost use Rattle.pm_outside.specs.Outside.{library_view};
ghost use Rattle.pm_report.specs.Text.{text_of, bad_words_lines};
ghost use Rattle.pm_top.specs.Accepted.{ProofsAreAccepted};
ghost use Rattle.pm_top.specs.Output.{OutputIsDetermined};
ghost use Rattle.pm_top.specs.Run.{IsRun, sink_view};
ghost use Rattle.pm_top.specs.Inside.Ends.{EndsAs};
ghost use Rattle.pm_top.specs.Inside.Stops.{IsAnswered, CountsStops, answered};

use crate::answer::{Answer, Stop};
use crate::jobs::{do_job, share_job};
use crate::put::put_text;
use crate::status::Status;
use pm_args::{ArgsFault, read_job};
use pm_outside::{Gate, Library, Sink};
use pm_report::bad_words;
use std::alloc::Global;
use std::sync::Wait;
use std::thread::Threads;

// The answer for words that are no job.
fn refuse_words(alloc: Global) -> Result<Answer, Stop>
    ensures answer { IfOk result (λ answer. (answer.status ≡ Status.BadWords)
        × (answer.text.items ≡ text_of bad_words_lines)) }
    ensures stop { IfErr result (λ stop. stop ≡ Stop.NoMemory) }
{
    Ok(Answer {
        status: Status::BadWords,
        text: bad_words(alloc)?,
    })
}

// What a run answers, unless there is a fault.
fn answer_words<L: Library>(
    alloc: Global,
    words: &[String],
    library: &mut L,
) -> Result<Answer, Stop>
    ensures answer { IfSome (answered result) (IsAnswered (job_of (map string_bytes words.now))
        (L.told library.old) (L.longs library.old, L.longs library.new)) }
    ensures counts { let view = library_view L.faults L.misses L.longs L.told in
        CountsStops (view library.old) (view library.new) (answered result)
        (IsErrOf result Stop.ReadFault) }
    ensures unasked { IsNone (job_of (map string_bytes words.now)) → library.new ≡ library.old }
{
    match read_job(alloc, words) {
        Ok(job) => do_job(alloc, &job, library),
        Err(ArgsFault::BadWords) => refuse_words(alloc),
        Err(ArgsFault::Memory) => Err(Stop::NoMemory),
    }
}

// What a run with several workers answers, unless there is a fault.
fn answer_shared<L: Library, G: Gate + Sync, R: Threads + Wait + Sync>(
    rt: &R,
    alloc: Global,
    words: &[String],
    library: &mut L,
    gate: &G,
) -> Result<Answer, Stop>
    ensures answer { IfSome (answered result) (IsAnswered (job_of (map string_bytes words.now))
        (L.told library.old) (L.longs library.old, L.longs library.new)) }
    ensures counts { let view = library_view L.faults L.misses L.longs L.told in
        CountsStops (view library.old) (view library.new) (answered result)
        (IsErrOf result Stop.ReadFault) }
    ensures unasked { IsNone (job_of (map string_bytes words.now)) → library.new ≡ library.old }
{
    match read_job(alloc, words) {
        Ok(job) => share_job(rt, alloc, &job, library, gate),
        Err(ArgsFault::BadWords) => refuse_words(alloc),
        Err(ArgsFault::Memory) => Err(Stop::NoMemory),
    }
}

// Ends a run: puts the text of its answer, if it has one.
fn finish<S: Sink>(sink: &mut S, outcome: Result<Answer, Stop>) -> Status
    ensures { EndsAs outcome (sink_view S.faults S.written sink.old)
        (sink_view S.faults S.written sink.new) result }
{
    let answer = match outcome {
        Ok(answer) => answer,
        Err(Stop::Answered(answer)) => answer,
        Err(Stop::ReadFault) => return Status::ReadFault,
        Err(Stop::NoMemory) => return Status::NoMemory,
    };
    match put_text(sink, &answer.text) {
        Ok(()) => answer.status,
        Err(_) => Status::WriteFault,
    }
}

/// Does the job that the words ask for. Where it searches for a proof, as many workers as the option
/// `workers` says share the search, and each passes the gate after each event of its own. It
/// promises all that `run_alone` promises, so the number of workers changes neither the status nor
/// the text. It may wait for its workers: nothing is claimed of its return.
///
/// Words, library, sink and status are as for `run_alone`.
pub fn run<L: Library, S: Sink, G: Gate + Sync, R: Threads + Wait + Sync>(
    rt: &R,
    alloc: Global,
    words: &[String],
    library: &mut L,
    sink: &mut S,
    gate: &G,
) -> Status
    // As `run_alone`.
    ensures unasked { IsNone (job_of (map string_bytes words.now)) → library.new ≡ library.old }
    ensures run { IsRun (map string_bytes words.now)
        (library_view L.faults L.misses L.longs L.told library.old)
        (library_view L.faults L.misses L.longs L.told library.new)
        (sink_view S.faults S.written sink.old) (sink_view S.faults S.written sink.new) result }
{
    let outcome = answer_shared(rt, alloc, words, library, gate);
    finish(sink, outcome)
}

/// Does the job that the words ask for, with one worker, whatever the option `workers` says. It
/// waits for nobody and always returns.
///
/// `words` are those after the program's name; the jobs and their options are in the README. The
/// library gives the files, and the sink gets the text. Each file is read before the next one is
/// fetched. Nothing is written on `Missing`, `ReadFault` and `NoMemory`, and a prefix of the
/// output's text on `WriteFault`; on every other status the whole text. Want of memory alone has no
/// cause that a clause names.
pub fn run_alone<L: Library, S: Sink>(
    alloc: Global,
    words: &[String],
    library: &mut L,
    sink: &mut S,
) -> Status
    // Words that are no job fetch nothing.
    ensures unasked { IsNone (job_of (map string_bytes words.now)) → library.new ≡ library.old }

    // Each status has its cause; the text of the output is written, which words and files
    // determine. A level is printed as exhausted only with its number of attempts, and only if no
    // closed connection tableau of the class has at most its size. A proof is printed only as the
    // certificate of such a tableau of the least size.
    ensures run { IsRun (map string_bytes words.now)
        (library_view L.faults L.misses L.longs L.told library.old)
        (library_view L.faults L.misses L.longs L.told library.new)
        (sink_view S.faults S.written sink.old) (sink_view S.faults S.written sink.new) result }
{
    let outcome = answer_words(alloc, words, library);
    finish(sink, outcome)
}

/// The words and the files determine the status and the text of a run's output.
pub fn output_is_determined()
    ensures { OutputIsDetermined }
{}

/// What `prove` prints as a proof is accepted: `check` over the same clause file, with that text as
/// the certificate, tells the level of the proof as the size of its tableau, and the list that the
/// search found as its choices.
pub fn proofs_are_accepted()
    ensures { ProofsAreAccepted }
{}
