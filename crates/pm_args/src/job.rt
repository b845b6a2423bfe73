//! Jobs, and the words that ask for them.
ghost use Rattle.std.specs.Prelude.{◌≡◌, None, Some, Option, MatchResult, map, string_bytes};
ghost use Rattle.pm_args.specs.Jobs.{job_of, job_among, job_of_one, job_of_two, sample_job};
ghost use Rattle.pm_args.specs.JobViews.{job_view};
ghost use Rattle.pm_args.specs.Words.{Reading};
ghost use Rattle.pm_args.specs.Inside.Found.{HasRead};
ghost use Rattle.pm_args.specs.declared.job.ArgsFault.TheVariants.{Memory};

use crate::command::{PLAIN_WORDS, parse};
use crate::values::{gives_any, number_within, options_of};
use clap::ArgMatches;
use pm_logic::{BoundKind, Class, Start};
use std::alloc::{AllocError, Global};
use thiserror::Error;

// The names of all options.
const OPTION_NAMES: [&str; 6] = ["depth", "budget", "workers", "class", "start", "bound"];

/// The options of a search.
#[derive(Clone, Copy, Debug, PartialEq, Eq)]
pub struct Options {
    /// The last level: from 0 to 250, and 30 where no word says it.
    pub depth: u32,
    /// The most attempts of a level: from 1 to 1,000,000,000,000, and 1,000,000 by default.
    pub budget: u64,
    /// How many workers share a level: from 1 to 64, and 4 by default.
    pub workers: u16,
    /// Which tableaux are looked at: `plain` by default.
    pub class: Class,
    /// Which clauses a tableau may start with: `negative` by default.
    pub start: Start,
    /// What bounds the tableaux of a level: `depth` by default.
    pub bound: BoundKind,
}

/// What the words ask for.
#[derive(Debug, Drop)]
pub enum Job {
    /// To search a proof of the clauses of a file.
    Prove { file: String, options: Options },
    /// To check a certificate for the clauses of a file.
    Check { file: String, cert: String },
    /// To list the code of the clauses of a file.
    Code { file: String },
    /// To write the clauses of a file.
    Clauses { file: String },
    /// To search a proof of the sample problem of this number, which is from 1 to 50.
    Sample { n: u32, options: Options },
}

/// Why no job was read.
#[derive(Clone, Copy, Debug, PartialEq, Eq, Error)]
pub enum ArgsFault {
    /// The words are no job.
    #[error("bad words")]
    BadWords,
    /// There was no memory to read them.
    #[error("out of memory")]
    Memory,
}

impl From<AllocError> for ArgsFault {
    ghost from_gives = { λ _ fault. fault ≡ Memory };

    fn from(_error: AllocError) -> ArgsFault {
        ArgsFault::Memory
    }
}

/// The job that the words ask for; they are those after the program's name. Options may stand
/// anywhere among them, as `--depth 3` or `--depth=3`. `BadWords` comes exactly where they are no
/// job, unless memory runs out first.
pub fn read_job(alloc: Global, words: &[String]) -> Result<Job, ArgsFault>
    ensures { MatchResult result
        (λ job. job_of (map string_bytes words.now) ≡ Some (job_view job))
        (λ fault. fault ≡ ArgsFault.BadWords → job_of (map string_bytes words.now) ≡ None) }
{
    let matches = parse(alloc, words)?;
    job_among(alloc, &matches)
}

// The job of the plain words and the options.
fn job_among(alloc: Global, matches: &ArgMatches<'_>) -> Result<Job, ArgsFault>
    ensures { (r : Reading) → HasRead matches.now r
        → MatchResult result (λ job. job_among r r.plain ≡ Some (job_view job))
        (λ fault. fault ≡ ArgsFault.BadWords → job_among r r.plain ≡ None) }
{
    match matches.get_strs(PLAIN_WORDS) {
        Some([job, argument]) => job_of_one(alloc, matches, *job, *argument),
        Some([job, file, cert]) => job_of_two(alloc, matches, *job, *file, *cert),
        _ => Err(ArgsFault::BadWords),
    }
}

// The job of a word with one file or number.
fn job_of_one(
    alloc: Global,
    matches: &ArgMatches<'_>,
    job: &str,
    argument: &str,
) -> Result<Job, ArgsFault>
    ensures { (r : Reading) → HasRead matches.now r
        → MatchResult result (λ made. job_of_one r job.now argument.now ≡ Some (job_view made))
        (λ fault. fault ≡ ArgsFault.BadWords → job_of_one r job.now argument.now ≡ None) }
{
    match job {
        "prove" => {
            let options = options_of(matches).ok_or(ArgsFault::BadWords)?;
            let file = String::from_str(alloc, argument)?;
            Ok(Job::Prove { file, options })
        }
        "code" if !gives_any(matches, &OPTION_NAMES) => {
            let file = String::from_str(alloc, argument)?;
            Ok(Job::Code { file })
        }
        "clauses" if !gives_any(matches, &OPTION_NAMES) => {
            let file = String::from_str(alloc, argument)?;
            Ok(Job::Clauses { file })
        }
        "sample" if !gives_any(matches, &["start", "bound"]) => sample_job(matches, argument),
        _ => Err(ArgsFault::BadWords),
    }
}

// The sample problem of this number.
fn sample_job(matches: &ArgMatches<'_>, argument: &str) -> Result<Job, ArgsFault>
    ensures { (r : Reading) → HasRead matches.now r
        → MatchResult result (λ job. sample_job r argument.now ≡ Some (job_view job))
        (λ _. sample_job r argument.now ≡ None) }
{
    let n = number_within(argument, 1, 50).ok_or(ArgsFault::BadWords)?;
    let options = options_of(matches).ok_or(ArgsFault::BadWords)?;
    Ok(Job::Sample {
        n: n as u32,
        options,
    })
}

// The job of a word with two files.
fn job_of_two(
    alloc: Global,
    matches: &ArgMatches<'_>,
    job: &str,
    file: &str,
    cert: &str,
) -> Result<Job, ArgsFault>
    ensures { (r : Reading) → HasRead matches.now r
        → MatchResult result
        (λ made. job_of_two r job.now file.now cert.now ≡ Some (job_view made))
        (λ fault. fault ≡ ArgsFault.BadWords → job_of_two r job.now file.now cert.now ≡ None) }
{
    if job != "check" || gives_any(matches, &OPTION_NAMES) {
        return Err(ArgsFault::BadWords);
    }
    let file = String::from_str(alloc, file)?;
    let cert = String::from_str(alloc, cert)?;
    Ok(Job::Check { file, cert })
}
