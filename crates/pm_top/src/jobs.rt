//! The jobs.
ghost use Rattle.std.specs.Prelude.{◌≡◌, ◌≤◌, IfOk, IfSome, IsErrOf, Some};
ghost use Rattle.pm_args.specs.JobViews.{job_view};
ghost use Rattle.pm_compile.specs.Listing.{listing_text};
ghost use Rattle.pm_outside.specs.Outside.{library_view};
ghost use Rattle.pm_write.specs.Text.{problem_text};
ghost use Rattle.pm_top.specs.Output.{EndsSample};
ghost use Rattle.pm_top.specs.Inside.Says.{IsSearchAnswer};
ghost use Rattle.pm_top.specs.Inside.Stops.{IsAnswered, AreWithinLimits, IsWithinLimits, CountsStops, answered};

use crate::answer::{Answer, Stop};
use crate::check::check;
use crate::files::read_clauses;
use crate::search::{answer_sample, answer_search, search_alone, search_shared};
use crate::status::Status;
use pm_args::{Job, Options};
use pm_cnf::write;
use pm_compile::{compile, listing};
use pm_logic::Problem;
use pm_outside::{Gate, Library};
use pm_report::sample;
use std::alloc::{AllocError, Global};
use std::sync::Wait;
use std::thread::Threads;

// Proves the clauses of a problem.
fn prove(alloc: Global, problem: &Problem, options: &Options) -> Result<Answer, AllocError>
    requires { AreWithinLimits options.now }
    ensures { IfOk result (IsSearchAnswer problem.now options.now) }
{
    let found = search_alone(alloc, problem, options)?;
    // A problem that was made is valid, as the number of its clauses tells.
    let _count = problem.clauses();
    answer_search(alloc, problem, options, &found)
}

// Lists the code of a problem's clauses.
fn list_code(alloc: Global, problem: &Problem) -> Result<Answer, AllocError>
    ensures { IfOk result (λ answer. (answer.status ≡ Status.Done)
        × (answer.text.items ≡ listing_text problem.now.symbols problem.now.clauses)) }
{
    let code = compile(alloc, problem)?;
    Ok(Answer {
        status: Status::Done,
        text: listing(alloc, problem, &code)?,
    })
}

// Writes a problem's clauses.
fn write_clauses(alloc: Global, problem: &Problem) -> Result<Answer, AllocError>
    ensures { IfOk result (λ answer. (answer.status ≡ Status.Done)
        × (answer.text.items ≡ problem_text problem.now)) }
{
    Ok(Answer {
        status: Status::Done,
        text: write(alloc, problem)?,
    })
}

// Proves the sample problem of this number, and sums up.
fn prove_sample(alloc: Global, n: u32, options: &Options) -> Result<Answer, AllocError>
    requires least { 1 ≤ n }
    requires most { n ≤ 50 }
    requires limits { AreWithinLimits options.now }
    ensures { IfOk result (λ answer. EndsSample n options.now answer.status answer.text.items) }
{
    let problem = sample(alloc, n)?;
    let found = search_alone(alloc, &problem, options)?;
    answer_sample(alloc, n, &problem, options, &found)
}

/// Does a job with one worker.
pub(crate) fn do_job<L: Library>(alloc: Global, job: &Job, library: &mut L) -> Result<Answer, Stop>
    requires { IsWithinLimits (job_view job.now) }
    ensures answer { IfSome (answered result) (IsAnswered (Some (job_view job.now)) (L.told library.old)
        (L.longs library.old, L.longs library.new)) }
    ensures counts { let view = library_view L.faults L.misses L.longs L.told in
        CountsStops (view library.old) (view library.new) (answered result)
        (IsErrOf result Stop.ReadFault) }
{
    match job {
        Job::Prove { file, options } => {
            let problem = read_clauses(alloc, library, file.as_str())?;
            Ok(prove(alloc, &problem, options)?)
        }
        Job::Check { file, cert } => {
            let problem = read_clauses(alloc, library, file.as_str())?;
            check(alloc, library, &problem, cert.as_str())
        }
        Job::Code { file } => {
            let problem = read_clauses(alloc, library, file.as_str())?;
            Ok(list_code(alloc, &problem)?)
        }
        Job::Clauses { file } => {
            let problem = read_clauses(alloc, library, file.as_str())?;
            Ok(write_clauses(alloc, &problem)?)
        }
        Job::Sample { n, options } => Ok(prove_sample(alloc, *n, options)?),
    }
}

// Proves the clauses of a problem with several workers.
fn prove_shared<G: Gate + Sync, R: Threads + Wait + Sync>(
    rt: &R,
    alloc: Global,
    problem: &Problem,
    options: &Options,
    gate: &G,
) -> Result<Answer, AllocError>
    requires { AreWithinLimits options.now }
    ensures { IfOk result (IsSearchAnswer problem.now options.now) }
{
    let found = search_shared(rt, alloc, problem, options, gate)?;
    let _count = problem.clauses();
    answer_search(alloc, problem, options, &found)
}

// Proves the sample problem of this number with several workers, and sums up.
fn prove_sample_shared<G: Gate + Sync, R: Threads + Wait + Sync>(
    rt: &R,
    alloc: Global,
    n: u32,
    options: &Options,
    gate: &G,
) -> Result<Answer, AllocError>
    requires least { 1 ≤ n }
    requires most { n ≤ 50 }
    requires limits { AreWithinLimits options.now }
    ensures { IfOk result (λ answer. EndsSample n options.now answer.status answer.text.items) }
{
    let problem = sample(alloc, n)?;
    let found = search_shared(rt, alloc, &problem, options, gate)?;
    answer_sample(alloc, n, &problem, options, &found)
}

/// Does a job; where it searches, its workers share the search.
pub(crate) fn share_job<L: Library, G: Gate + Sync, R: Threads + Wait + Sync>(
    rt: &R,
    alloc: Global,
    job: &Job,
    library: &mut L,
    gate: &G,
) -> Result<Answer, Stop>
    requires limits { IsWithinLimits (job_view job.now) }
    ensures answer { IfSome (answered result) (IsAnswered (Some (job_view job.now)) (L.told library.old)
        (L.longs library.old, L.longs library.new)) }
    ensures counts { let view = library_view L.faults L.misses L.longs L.told in
        CountsStops (view library.old) (view library.new) (answered result)
        (IsErrOf result Stop.ReadFault) }
{
    match job {
        Job::Prove { file, options } => {
            let problem = read_clauses(alloc, library, file.as_str())?;
            Ok(prove_shared(rt, alloc, &problem, options, gate)?)
        }
        Job::Sample { n, options } => Ok(prove_sample_shared(rt, alloc, *n, options, gate)?),
        _ => do_job(alloc, job, library),
    }
}
