//! Reading certificates.
ghost use Rattle.std.specs.Prelude.{◌≡◌, ◌<◌, ◌≤◌, ◌^◌, IfOk, IfErr, OnOk, length};
ghost use Rattle.pm_logic.specs.Problem.{Problem as Over};
ghost use Rattle.pm_certread.specs.Certificate.{Certificate, certificate_of};
ghost use Rattle.pm_certread.specs.Reading.{Head, IsCertificateOf, NodeLines, Reads, TermLines, accepted, nodes};
ghost use Rattle.pm_certread.specs.Refusals.{Refuses};
ghost use Rattle.pm_certread.specs.Inside.Progress.{Comes, RefusesFrom};

use crate::cert::Cert;
use crate::error::{CertError, CertKind};
use crate::header::read_header;
use crate::levels::read_levels;
use crate::lines::Lines;
use crate::nodes::read_nodes;
use crate::root::read_root;
use crate::terms::read_terms;
use crate::words::is;
use pm_logic::Problem;
use std::alloc::Global;

/// Reads a certificate of the problem.
///
/// `bytes` are the whole document, fewer than 2^32 of them. The answer is the certificate that they
/// have by the form of certificates (docs/FORMAT.md), or, exactly where a line is refused,
/// `CertError::At` with the first such line, counted from 1, and the first kind that it is refused
/// for. `CertError::Memory` is answered for want of memory.
pub fn read_cert(alloc: Global, bytes: &[u8], problem: &Problem) -> Result<Cert, CertError>
    requires size { length bytes.now < 2 ^ 32 }
    ensures ok { IfOk result
        (λ cert. Reads problem.now bytes.now (accepted (certificate_of cert))) }
    ensures err { IfErr result (Refuses problem.now bytes.now) }
{
    let mut lines = Lines::new(bytes);
    read_levels(alloc, &mut lines)?;
    let header = read_header(alloc, &mut lines)?;
    let header_line = lines.taken;
    let given = read_terms(alloc, problem, &header, &mut lines)?;
    let root = read_root(alloc, problem, &mut lines)?;
    let root_line = lines.taken;
    let all = read_nodes(alloc, problem, &header, given, root, &mut lines)?;
    read_end(&mut lines)?;
    Ok(Cert {
        class: header.class,
        start: header.start,
        bound: header.bound,
        size: header.size,
        header: header_line,
        root_line,
        tableau: all.tableau,
        closers: all.closers,
    })
}

// Takes the last line.
fn read_end(lines: &mut Lines) -> Result<(), CertError>
    ensures ok { OnOk result ((over : Over) (head : Head) (given : TermLines) (all : NodeLines)
        (certificate : Certificate) → head.header.nodes ≤ length all.entries
        → IsCertificateOf head given all certificate
        → Comes over (nodes head given all) lines.old (accepted certificate)) }
    ensures err { IfErr result (λ error. (over : Over) (head : Head) (given : TermLines)
        (all : NodeLines) → head.header.nodes ≤ length all.entries
        → RefusesFrom over (nodes head given all) lines.old error) }
{
    let raw = lines.take()?;
    if !is(raw, "end\n") {
        return Err(lines.refusal(CertKind::Syntax));
    }
    Ok(())
}
