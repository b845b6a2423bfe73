//! The checker of certificates.
ghost use Rattle.std.specs.Prelude.{◌≡◌, ◌↔◌, ◌≤◌, Contains, IfOk, IfErr, IsTrue, OnOk, length, vec_capacity};
ghost use Rattle.pm_logic.specs.Problem.{start_clauses};
ghost use Rattle.pm_logic.specs.Tableau.{preorder, size};
ghost use Rattle.pm_certread.specs.Certificate.{certificate_of};
ghost use Rattle.pm_check.specs.PlacedNodes.{placed_nodes};
ghost use Rattle.pm_check.specs.Verdicts.{IsAccepted, IsRefused, WasRead};
ghost use Rattle.pm_check.specs.Inside.Images.{none_of};
ghost use Rattle.pm_check.specs.Inside.Passing.{AllPass, DiffersInSize, IsFirstAtRoot, IsFirstNode, RootPasses};
ghost use Rattle.pm_check.specs.Inside.Ready.{IsCheckable};
ghost use Rattle.pm_check.specs.Inside.Siblings.{AreNextPlaces, depths};

use crate::branch::offence;
use crate::family::is_family;
use crate::images::Images;
use crate::nodes::{Nodes, next_places};
use crate::refusal::{Refusal, RefusalKind};
use pm_certread::Cert;
use pm_logic::{BoundKind, Literal, Problem, tableau_depth, tableau_instances};
use std::alloc::{AllocError, Global};
use std::marker::Model;

/// A certificate that was read for a problem, with all memory that its check needs: seen as the
/// problem and the certificate.
#[derive(Drop)]
pub struct Checker<'p> {
    problem: &'p Problem,
    cert: &'p Cert,
    // Whether the root's clause is a start clause.
    starts: bool,
    // For each node the next place with a node that doesn't lie below it.
    next: Vec<usize>,
    images: Images,
    // The literals above a node, the one at depth 1 first.
    branch: Vec<&'p Literal>,
}

impl<'p> Model for Checker<'p> {
    ghost use Rattle.std.specs.Prelude.{vec_capacity};
    ghost use Rattle.std.specs.Coded.{codes};
    ghost use Rattle.pm_logic.specs.TermCode.{term_code};
    ghost use Rattle.pm_logic.specs.contracts.tableau.Tableau as tableaux;
    ghost use Rattle.pm_certread.specs.Certificate.{certificate_of};
    ghost use Rattle.pm_check.specs.Verdicts.{Checked};
    ghost use Rattle.pm_check.specs.Inside.Ready.{IsReady};

    ghost Value = { Checked };

    ghost coded = { Prim.hlevel (codes, term_code, tableaux.the_row.coded) };

    ghost view = { λ a. record {
      problem = a.problem.now;
      certificate = certificate_of a.cert.now;
    } };

    ghost invariant = { λ a. IsReady a.problem.now (certificate_of a.cert.now)
        a.starts a.next.items a.images (vec_capacity a.branch) };
}

impl<'p> Checker<'p> {
    /// A checker of a certificate that was read for the problem.
    pub fn with_room(
        alloc: Global,
        problem: &'p Problem,
        cert: &'p Cert,
    ) -> Result<Checker<'p>, AllocError>
        requires { WasRead problem.now (certificate_of cert.now) }
        ensures { IfOk result (λ checker. checker ≡ record {
          problem = problem.now;
          certificate = certificate_of cert.now;
        }) }
    {
        let starts = problem.starts(alloc, cert.start)?;
        Ok(Checker {
            problem,
            cert,
            starts: starts.contains(&cert.tableau.root()),
            next: next_places(alloc, cert.tableau.nodes())?,
            images: Images::with_room(alloc, problem.terms().len())?,
            branch: Vec::with_capacity(alloc, 250)?,
        })
    }

    /// Checks the certificate. This takes no memory, and time about linear in the certificate and,
    /// for each node that has a clause, in the size of the clause.
    ///
    /// At Ok the tableau has the size given, which is the header's number, and is in the class of
    /// that size that the header names, and each leaf is complementary to the ancestor that it
    /// names. That lower levels hold no proof is not checked. The error is the first line that is
    /// wrong, the root's first and then those of the nodes, with the first kind for which it is
    /// wrong; where only the header's number is wrong, it is the header's line. After either answer
    /// the certificate may be checked again.
    pub fn check(&mut self) -> Result<u64, Refusal>
        ensures ok { IfOk result (IsAccepted self.old.problem self.old.certificate) }
        ensures err { IfErr result (λ refusal. IsRefused self.old.problem self.old.certificate
            refusal.line refusal.kind) }
        ensures same { self.new ≡ self.old }
    {
        check_root(
            self.problem,
            self.cert,
            self.starts,
            self.next.as_slice(),
            &mut self.images,
        )?;
        check_nodes(
            self.problem,
            self.cert,
            self.next.as_slice(),
            &mut self.images,
            &mut self.branch,
        )?;
        check_size(self.cert)
    }
}

// Checks that the root's clause is a start clause, as was found before, and that the root's
// children are an instance of it.
fn check_root(
    problem: &Problem,
    cert: &Cert,
    starts: bool,
    next: &[usize],
    images: &mut Images,
) -> Result<(), Refusal>
    requires checkable { IsCheckable problem.now (certificate_of cert.now) }
    requires root { IsTrue starts ↔ Contains
        (start_clauses cert.now.start problem.now.clauses) cert.now.tableau.tableau.root }
    requires places { AreNextPlaces (depths (preorder cert.now.tableau.tableau)) next.now }
    requires images { images.old ≡ none_of (length problem.now.terms) }
    ensures ok { OnOk result (RootPasses problem.now (certificate_of cert.now)) }
    ensures err { IfErr result (IsFirstAtRoot problem.now (certificate_of cert.now)) }
    ensures images { images.new ≡ images.old }
{
    if !starts {
        return Err(Refusal {
            line: cert.root_line,
            kind: RefusalKind::NotStart,
        });
    }
    let nodes = Nodes {
        terms: cert.tableau.terms(),
        list: cert.tableau.nodes(),
        next,
    };
    if !is_family(images, problem, &nodes, cert.tableau.root(), 0, 1) {
        return Err(Refusal {
            line: cert.root_line,
            kind: RefusalKind::NotInstance,
        });
    }
    Ok(())
}

// Checks the nodes in pre-order.
fn check_nodes<'p>(
    problem: &Problem,
    cert: &'p Cert,
    next: &[usize],
    images: &mut Images,
    branch: &mut Vec<&'p Literal>,
) -> Result<(), Refusal>
    requires checkable { IsCheckable problem.now (certificate_of cert.now) }
    requires places { AreNextPlaces (depths (preorder cert.now.tableau.tableau)) next.now }
    requires images { images.old ≡ none_of (length problem.now.terms) }
    requires branch { 250 ≤ vec_capacity branch.old }
    ensures ok { OnOk result (AllPass problem.now (certificate_of cert.now)
        (length (placed_nodes cert.now.tableau.tableau))) }
    ensures err { IfErr result (IsFirstNode problem.now (certificate_of cert.now)) }
    ensures images { images.new ≡ images.old }
    ensures branch { vec_capacity branch.new ≡ vec_capacity branch.old }
{
    let list = cert.tableau.nodes();
    let nodes = Nodes {
        terms: cert.tableau.terms(),
        list,
        next,
    };
    branch.clear();
    'nodes: for (place, node) in list.iter().enumerate() {
        branch.truncate(node.depth as usize - 1);
        let found = offence(
            images,
            problem,
            cert.class,
            &nodes,
            branch.as_slice(),
            place,
            cert.closers[place],
        );
        if let Some(kind) = found {
            return Err(Refusal {
                line: cert.root_line + 1 + place as u64,
                kind,
            });
        }
        branch.push_reserved(&node.literal);
    }
    Ok(())
}

// Checks the header's number, and gives it.
fn check_size(cert: &Cert) -> Result<u64, Refusal>
    ensures ok { IfOk result (λ n. n ≡ size cert.now.bound cert.now.tableau.tableau) }
    ensures header { IfOk result (λ n. n ≡ cert.now.size) }
    ensures err { IfErr result (DiffersInSize (certificate_of cert.now)) }
{
    let (size, kind) = match cert.bound {
        BoundKind::Depth => (
            u64::from(tableau_depth(&cert.tableau)),
            RefusalKind::DepthDiffers,
        ),
        BoundKind::Inferences => (tableau_instances(&cert.tableau), RefusalKind::SizeDiffers),
    };
    if size != cert.size {
        return Err(Refusal {
            line: cert.header,
            kind,
        });
    }
    Ok(size)
}

#[cfg(test)]
mod tests;
