//! The check of a certificate.
ghost use Rattle.std.specs.Prelude.{◌≡◌, IfOk, IfSome, IsErrOf};
ghost use Rattle.pm_logic.specs.Problem.{IsValid};
ghost use Rattle.pm_certread.specs.Certificate.{certificate_of};
ghost use Rattle.pm_check.specs.Verdicts.{IsAccepted, WasRead};
ghost use Rattle.pm_outside.specs.Outside.{Rose, library_view};
ghost use Rattle.pm_top.specs.Files.{Held};
ghost use Rattle.pm_top.specs.Output.{EndsCheck, EndsVerdict, IsRefusedAt, IsAcceptedWith, verdict_lines};
ghost use Rattle.pm_top.specs.Inside.Stops.{HoldsSo, CountsStops, EndsWith, answered};

use crate::answer::{Answer, Stop};
use crate::files::{MAX_CERT_BYTES, fetch};
use crate::status::Status;
use pm_certread::{Cert, CertError, read_cert};
use pm_check::{Checker, Refusal};
use pm_contra::Contras;
use pm_lift::list_of;
use pm_logic::{BoundKind, Problem};
use pm_outside::Library;
use pm_report::{accepted, accepted_inferences, refused};
use std::alloc::{AllocError, Global};

// The answer for a certificate that is refused at this line, by the name of the cause.
fn refuse(alloc: Global, line: u64, kind: &str) -> Result<Answer, AllocError>
    ensures { IfOk result
        (λ answer. IsRefusedAt line kind.now answer.status answer.text.items) }
{
    Ok(Answer {
        status: Status::CertRefused,
        text: refused(alloc, line, kind)?,
    })
}

// The answer for a certificate that is accepted, its tableau having this size.
fn accept(alloc: Global, problem: &Problem, cert: &Cert, size: u64) -> Result<Answer, AllocError>
    requires read { WasRead problem.now (certificate_of cert.now) }
    requires accepted { IsAccepted problem.now (certificate_of cert.now) size }
    ensures { IfOk result (λ answer. EndsVerdict problem.now (certificate_of cert.now)
        answer.status answer.text.items) }
{
    let contras = Contras::new(alloc, problem)?;
    let choices = list_of(alloc, problem, &contras, cert.start, &cert.tableau)?;
    let text = match cert.bound {
        BoundKind::Depth => accepted(alloc, size as u32, &choices)?,
        BoundKind::Inferences => accepted_inferences(alloc, size, &choices)?,
    };
    Ok(Answer {
        status: Status::Done,
        text,
    })
}

// The answer for a certificate that was read.
fn judge(alloc: Global, problem: &Problem, cert: &Cert) -> Result<Answer, AllocError>
    requires { WasRead problem.now (certificate_of cert.now) }
    ensures { IfOk result (λ answer. EndsVerdict problem.now (certificate_of cert.now)
        answer.status answer.text.items) }
{
    let mut checker = Checker::with_room(alloc, problem, cert)?;
    match checker.check() {
        Ok(size) => accept(alloc, problem, cert, size),
        Err(Refusal { line, kind }) => refuse(alloc, line, kind.word()),
    }
}

/// Checks the certificate of this name, whose tableau is over the problem.
pub(crate) fn check<L: Library>(
    alloc: Global,
    library: &mut L,
    problem: &Problem,
    file: &str,
) -> Result<Answer, Stop>
    ensures answer { IfSome (answered result) (λ answer. (held : Held)
        × HoldsSo (L.told library.old) MAX_CERT_BYTES file.now held
        × EndsCheck held problem.now answer.status answer.text.items) }
    ensures too_long { EndsWith (answered result) Status.BadInput
        → Rose (L.longs library.old) (L.longs library.new) }
    ensures counts { let view = library_view L.faults L.misses L.longs L.told in
        CountsStops (view library.old) (view library.new) (answered result)
        (IsErrOf result Stop.ReadFault) }
{
    let bytes = fetch(alloc, library, file, MAX_CERT_BYTES, 2)?;
    match read_cert(alloc, &bytes, problem) {
        Ok(cert) => Ok(judge(alloc, problem, &cert)?),
        Err(CertError::At { line, kind }) => Ok(refuse(alloc, line, kind.word())?),
        Err(CertError::Memory) => Err(Stop::NoMemory),
    }
}
