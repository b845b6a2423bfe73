//! The node lines.
ghost use Rattle.std.specs.Prelude.{◌≡◌, ◌<◌, ◌≤◌, ◌↔◌, ◌^◌, ℕ, All, IfOk, IfErr, IsTrue, OnOk, length, map};
ghost use Rattle.pm_logic.specs.Term.{tree_at};
ghost use Rattle.pm_logic.specs.Tableau as tableaux;
ghost use Rattle.pm_certread.specs.Lines.{NodeLine as Line};
ghost use Rattle.pm_certread.specs.Forms.{IsNode};
ghost use Rattle.pm_certread.specs.Reading.{ClosesAbove, GivesNode, HasClause, Head, IsInOrder, NodeLineOffends, closer_of, entry_of, kind_of, no_nodes, nodes, with_node};
ghost use Rattle.pm_certread.specs.Inside.Head.{header_of};
ghost use Rattle.pm_certread.specs.Inside.Progress.{Continues, RefusesFrom};
ghost use Rattle.pm_certread.specs.Inside.Terms.{AreRows, IsFault, lines_of};
ghost use Rattle.pm_certread.specs.Inside.Nodes.{HasSmallClause, IsDeepest, ending_of, line_of, nodes_of};

use crate::application::find_symbol;
use crate::error::{CertError, CertKind};
use crate::fault::Fault;
use crate::header::Header;
use crate::lines::Lines;
use crate::node_line::{Ending, NodeLine, node_line};
use crate::terms::{TermRows, are_below, rows_at};
use pm_logic::{Literal, Node, NodeKind, Problem, Tableau, TermId, TermTable};
use std::alloc::{AllocError, Global};

/// The nodes of the node lines so far, for each the depth of the ancestor that closes it, and how
/// deep the next one may lie.
#[derive(Drop)]
pub struct NodeRows {
    pub tableau: Tableau,
    pub closers: Vec<u32>,
    pub deepest: u32,
}

impl NodeRows {
    // No nodes under the root of this clause.
    fn new(alloc: Global, table: TermTable, root: u32) -> NodeRows
        ensures terms { result.tableau.terms ≡ table }
        ensures none { nodes_of result ≡ no_nodes root }
        ensures deepest { IsDeepest result }
    {
        NodeRows {
            tableau: Tableau::new(alloc, table, root),
            closers: Vec::new(alloc),
            deepest: 1,
        }
    }

    // Adds the node of the line, its predicate by number; the rows are those of the term lines.
    fn add(
        &mut self,
        alloc: Global,
        rows: &[TermId],
        line: &NodeLine,
        predicate: u32,
    ) -> Result<(), AllocError>
        requires rows { All (λ row. row < length self.old.tableau.terms) rows.now }
        requires there { All (λ number. number < length rows.now) line.now.numbers.items }
        requires clause { HasSmallClause line.now.ending }
        requires order { IsInOrder (nodes_of self.old).entries (line_of line.now) }
        ensures added { OnOk result (nodes_of self.new ≡ with_node (nodes_of self.old)
            (entry_of (map (tree_at self.old.tableau.terms) rows.now) (line_of line.now) predicate)
            (closer_of (ending_of line.now.ending))) }
        ensures terms { OnOk result (self.new.tableau.terms ≡ self.old.tableau.terms) }
        ensures deepest { OnOk result (IsDeepest self.new) }
    {
        let args = rows_at(alloc, rows, &line.numbers)?;
        let depth = line.depth as u32;
        let kind = kind_of(line.ending);
        self.closers.push(closer_of(line.depth, line.ending))?;
        self.deepest = deepest_after(kind, depth);
        self.tableau.add(Node {
            depth,
            literal: Literal {
                positive: line.positive,
                predicate,
                args,
            },
            kind,
        })?;
        Ok(())
    }
}

// The kind of the node whose line ends so.
fn kind_of(ending: Ending) -> NodeKind
    requires { HasSmallClause ending }
    ensures { result ≡ kind_of (ending_of ending) }
{
    match ending {
        Ending::ClosedBy(_) => NodeKind::Leaf,
        Ending::ExtendedBy(clause) => NodeKind::Inner {
            clause: clause as u32,
        },
    }
}

// The depth of the ancestor that closes the node at this depth whose line ends so, 0 where none
// does.
fn closer_of(depth: u64, ending: Ending) -> u32
    requires shallow { depth ≤ 250 }
    requires above { ClosesAbove depth (ending_of ending) }
    ensures { result ≡ closer_of (ending_of ending) }
{
    match ending {
        Ending::ClosedBy(above) => above as u32,
        Ending::ExtendedBy(_) => 0,
    }
}

// How deep a node may lie at most that comes after one of this kind at this depth.
fn deepest_after(kind: NodeKind, depth: u32) -> u32
    requires { depth ≤ 250 }
    ensures { result ≡ tableaux.deepest_after kind depth }
{
    match kind {
        NodeKind::Leaf => depth,
        NodeKind::Inner { .. } => depth + 1,
    }
}

// Whether the clause that an inner node's line names is one of so many.
fn has_clause(ending: Ending, clauses: u32) -> bool
    ensures { IsTrue result ↔ HasClause clauses (ending_of ending) }
{
    match ending {
        Ending::ClosedBy(_) => true,
        Ending::ExtendedBy(clause) => clause < u64::from(clauses),
    }
}

// Whether a leaf's line names an ancestor, which lies above it.
fn closes_above(depth: u64, ending: Ending) -> bool
    ensures { IsTrue result ↔ ClosesAbove depth (ending_of ending) }
{
    match ending {
        Ending::ClosedBy(above) => 1 <= above && above < depth,
        Ending::ExtendedBy(_) => true,
    }
}

// Whether the line's node may come next, where nodes may lie so deep.
fn is_in_order(line: &NodeLine, given: &NodeRows) -> bool
    requires { IsDeepest given.now }
    ensures { IsTrue result ↔ IsInOrder (nodes_of given.now).entries (line_of line.now) }
{
    if line.depth < 1 {
        return false;
    }
    if 250 < line.depth {
        return false;
    }
    if u64::from(given.deepest) < line.depth {
        return false;
    }
    closes_above(line.depth, line.ending)
}

// Takes one node line.
fn read_node(
    alloc: Global,
    problem: &Problem,
    rows: &[TermId],
    raw: &[u8],
    given: &mut NodeRows,
) -> Result<(), Fault>
    requires rows { All (λ row. row < length given.old.tableau.terms) rows.now }
    requires deepest { IsDeepest given.old }
    ensures ok { OnOk result ((node : Line) × (predicate : ℕ) × IsNode raw.now node
        × GivesNode problem.now (map (tree_at given.old.tableau.terms) rows.now)
        (nodes_of given.old) (nodes_of given.new) node predicate) }
    ensures terms { OnOk result (given.new.tableau.terms ≡ given.old.tableau.terms) }
    ensures deepest { OnOk result (IsDeepest given.new) }
    ensures err { IfErr result (IsFault (NodeLineOffends problem.now
        (map (tree_at given.old.tableau.terms) rows.now) (nodes_of given.old) raw.now)) }
{
    let Some(line) = node_line(alloc, raw)? else {
        return Err(Fault::Kind(CertKind::Syntax));
    };
    if !are_below(&line.numbers, rows.len()) {
        return Err(Fault::Kind(CertKind::TermRange));
    }
    let symbols = problem.symbols();
    let Some(predicate) = find_symbol(symbols, line.text.as_str(), line.numbers.len(), line.kind)
    else {
        return Err(Fault::Kind(CertKind::UnknownSymbol));
    };
    if !has_clause(line.ending, problem.clauses()) {
        return Err(Fault::Kind(CertKind::ClauseRange));
    }
    if !is_in_order(&line, given) {
        return Err(Fault::Kind(CertKind::DepthOrder));
    }
    given.add(alloc, rows, &line, predicate)?;
    Ok(())
}

/// Takes the node lines, after the term lines and the root's line.
pub fn read_nodes(
    alloc: Global,
    problem: &Problem,
    header: &Header,
    given: TermRows,
    root: u32,
    lines: &mut Lines,
) -> Result<NodeRows, CertError>
    requires { AreRows given }
    ensures ok { IfOk result (λ all. (line : ℕ)
        → let head : Head = record { header = header_of header.now; line = line } in
        Continues problem.now (nodes head (lines_of given) (no_nodes root)) lines.old
        (nodes head (lines_of given) (nodes_of all)) lines.new) }
    ensures terms { IfOk result (λ all. all.tableau.terms ≡ given.table) }
    ensures all { IfOk result (λ all. header.now.nodes ≤ length (nodes_of all).entries) }
    ensures err { IfErr result (λ error. (line : ℕ)
        → let head : Head = record { header = header_of header.now; line = line } in
        RefusesFrom problem.now (nodes head (lines_of given) (no_nodes root)) lines.old error) }
{
    let TermRows { table, rows } = given;
    let mut all = NodeRows::new(alloc, table, root);
    'nodes: while (all.tableau.nodes().len() as u64) < header.nodes {
        let raw = lines.take()?;
        match read_node(alloc, problem, &rows, raw, &mut all) {
            Ok(()) => {}
            Err(fault) => return Err(lines.error(fault)),
        }
    }
    Ok(all)
}
