//! The certificate of a tableau.
ghost use Rattle.std.specs.Prelude.{◌≡◌, ◌++◌, IfOk, OnOk};
ghost use Rattle.pm_logic.specs.Tableau.{size};
ghost use Rattle.pm_certread.specs.Lines.{ended, root_line};
ghost use Rattle.pm_calculus.specs.Connection.{IsClosed, IsOverSymbols};
ghost use Rattle.pm_cert.specs.Laws.{HasSmallNumbers};
ghost use Rattle.pm_cert.specs.Text.{IsDocument, report_of};

use crate::head::{Header, push_header, push_levels};
use crate::lines::{push_number, push_terms};
use crate::list::list_terms;
use crate::nodes::push_nodes;
use pm_logic::{BoundKind, Class, Problem, Start, Tableau, tableau_depth, tableau_instances};
use std::alloc::{AllocError, Global};

/// The certificate of a tableau that is closed and over the problem's symbols (docs/FORMAT.md).
///
/// `class`, `start` and `bound` are those of the search. `works` has the attempts of each exhausted
/// level from level 0 on, and `last` those of the level after them, which has the proof. Under the
/// bound on depth the header is of version 1, and under that on inferences of version 2; its number
/// is the tableau's size under the bound. A leaf's line names the least depth of a complementary
/// ancestor. The error is want of memory.
pub fn write_cert(
    alloc: Global,
    problem: &Problem,
    tableau: &Tableau,
    class: Class,
    start: Start,
    bound: BoundKind,
    works: &[u64],
    last: u64,
) -> Result<Vec<u8>, AllocError>
    requires closed { IsClosed tableau.now.tableau }
    requires symbols { IsOverSymbols problem.now.symbols tableau.now.tableau }
    ensures document { IfOk result (λ text. IsDocument problem.now.symbols
        (report_of class start bound works.now last) tableau.now.tableau text.items) }
    ensures numbers { OnOk result (HasSmallNumbers (report_of class start bound works.now last)
        tableau.now.tableau) }
{
    let symbols = problem.symbols();
    let list = list_terms(alloc, tableau)?;
    let mut text = Vec::new(alloc);
    push_levels(&mut text, works, last)?;
    let header = Header {
        class,
        start,
        bound,
        size: size(tableau, bound),
        terms: list.len() as u64,
        nodes: tableau.nodes().len() as u64,
    };
    push_header(&mut text, &header)?;
    push_terms(&mut text, symbols, tableau.terms(), &list)?;
    push_root(&mut text, tableau.root())?;
    push_nodes(alloc, &mut text, symbols, tableau, &list)?;
    text.extend_from_slice(b"end\n")?;
    Ok(text)
}

// The size of the tableau under the bound.
fn size(tableau: &Tableau, bound: BoundKind) -> u64
    ensures { result ≡ size bound tableau.now.tableau }
{
    match bound {
        BoundKind::Depth => u64::from(tableau_depth(tableau)),
        BoundKind::Inferences => tableau_instances(tableau),
    }
}

// Appends the line of the root's clause.
fn push_root(text: &mut Vec<u8>, clause: u32) -> Result<(), AllocError>
    ensures { OnOk result (text.new.items ≡ text.old.items ++ ended (root_line clause)) }
{
    text.extend_from_slice(b"root ")?;
    push_number(text, u64::from(clause))?;
    text.push(b'\n')?;
    Ok(())
}
