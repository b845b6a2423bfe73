//! The files that a run reads.
ghost use Rattle.std.specs.Prelude.{◌≡◌, ◌≤◌, ◌⊎◌, List, IfOk, IfSome, IsErrOf, length};
ghost use Rattle.pm_outside.specs.Outside.{Rose, library_view};
ghost use Rattle.pm_top.specs.Files.{Held, these_bytes};
ghost use Rattle.pm_top.specs.Output.{IsProblemOf, IsUnread};
ghost use Rattle.pm_top.specs.Inside.Stops.{HoldsSo, CountsStops, EndsWith, IsClausesStop, stopped};

use crate::answer::{Answer, Stop};
use crate::status::Status;
use pm_cnf::{CnfError, Limits, read};
use pm_logic::Problem;
use pm_outside::{FetchFault, Library};
use pm_report::{input_error, too_long};
use std::alloc::Global;

/// How many bytes a clause file has at most.
pub const MAX_FILE_BYTES: u64 = 16_777_216;

/// How many bytes a certificate has at most.
pub const MAX_CERT_BYTES: u64 = 268_435_456;

/// The bytes of the file of this name, which is in this place among the files of the words.
pub(crate) fn fetch<L: Library>(
    alloc: Global,
    library: &mut L,
    name: &str,
    limit: u64,
    place: u8,
) -> Result<Vec<u8>, Stop>
    ensures bytes { IfOk result (λ bytes. (length bytes.items ≤ limit)
        × HoldsSo (L.told library.old) limit name.now (these_bytes bytes.items)) }
    ensures stopped { IfSome (stopped result) (λ answer. (held : Held)
        × HoldsSo (L.told library.old) limit name.now held
        × IsUnread place held answer.status answer.text.items) }
    ensures too_long { EndsWith (stopped result) Status.BadInput
        → Rose (L.longs library.old) (L.longs library.new) }
    ensures counts { let view = library_view L.faults L.misses L.longs L.told in
        CountsStops (view library.old) (view library.new) (stopped result)
        (IsErrOf result Stop.ReadFault) }
{
    // Made before the fetch: where there is no memory for it, no count has risen.
    let over_limit = too_long(alloc, place)?;
    match library.fetch(alloc, name, limit) {
        Ok(bytes) => Ok(bytes),
        Err(FetchFault::TooLong) => Err(Stop::Answered(Answer {
            status: Status::BadInput,
            text: over_limit,
        })),
        Err(FetchFault::Missing) => Err(Stop::Answered(Answer {
            status: Status::Missing,
            text: Vec::new(alloc),
        })),
        Err(FetchFault::Failed) => Err(Stop::ReadFault),
        Err(FetchFault::Memory) => Err(Stop::NoMemory),
    }
}

/// The problem of the clause file of this name.
pub(crate) fn read_clauses<L: Library>(
    alloc: Global,
    library: &mut L,
    file: &str,
) -> Result<Problem, Stop>
    ensures problem { IfOk result (λ problem. (held : Held)
        × HoldsSo (L.told library.old) MAX_FILE_BYTES file.now held × IsProblemOf held problem) }
    ensures stopped { IfSome (stopped result) (λ answer. (held : Held)
        × HoldsSo (L.told library.old) MAX_FILE_BYTES file.now held
        × IsClausesStop held (L.longs library.old, L.longs library.new) answer) }
    ensures counts { let view = library_view L.faults L.misses L.longs L.told in
        CountsStops (view library.old) (view library.new) (stopped result)
        (IsErrOf result Stop.ReadFault) }
{
    let bytes = fetch(alloc, library, file, MAX_FILE_BYTES, 1)?;
    match read(alloc, &bytes, &Limits::standard()) {
        Ok(problem) => Ok(problem),
        Err(CnfError::At { place, kind }) => Err(Stop::Answered(Answer {
            status: Status::BadInput,
            text: input_error(alloc, place, kind)?,
        })),
        Err(CnfError::Memory) => Err(Stop::NoMemory),
    }
}
