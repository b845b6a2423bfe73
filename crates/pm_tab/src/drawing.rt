//! The tableau of a machine's nodes.
ghost use Rattle.std.specs.Prelude.{◌≡◌, ◌<◌, ◌++◌, ℕ, [], All, IfOk, OnOk, Some, fold, length, map};
ghost use Rattle.std.specs.List.{AllZip};
ghost use Rattle.pm_logic.specs.Tableau.{preorder};
ghost use Rattle.pm_logic.specs.View.{HasRows, entry_of};
ghost use Rattle.pm_store.specs.Trees.{tree};
ghost use Rattle.pm_store.specs.Sound.{IsSound};
ghost use Rattle.pm_store.specs.Resolved.{IsResolved, row_of, with_variables};
ghost use Rattle.pm_run.specs.InStore.{AreBelow, HasArgsBelow};
ghost use Rattle.pm_machine.specs.Node.{node_of};
ghost use Rattle.pm_tab.specs.Numbered.{args_over, numbered_tableau};
ghost use Rattle.pm_tab.specs.Inside.Drawing.{AreNested, AreDrawn, IsDrawn, Keeps};

use pm_logic::{Literal, Node, NodeKind, Tableau, TermId, TermTable};
use pm_machine::{Machine, MachineNode};
use pm_store::{Addr, Resolver, Store};
use std::alloc::{AllocError, Global};

// The tableau of the machine's nodes below a root with this clause, its variables numbered by first
// occurrence.
pub(crate) fn draw(alloc: Global, machine: &Machine<'_>, root: u32) -> Result<Tableau, AllocError>
    ensures { IfOk result (λ drawn. drawn.tableau ≡ numbered_tableau root machine.now.state) }
{
    let mut terms = TermTable::new(alloc);
    let nodes = draw_nodes(alloc, machine.store(), machine.nodes(), &mut terms)?;
    let mut tableau = Tableau::new(alloc, terms, root);
    add_all(&mut tableau, nodes)?;
    Ok(tableau)
}

// The nodes with the terms of their literals' arguments, which are put into an empty table.
fn draw_nodes(
    alloc: Global,
    store: &Store,
    nodes: &[MachineNode],
    terms: &mut TermTable,
) -> Result<Vec<Node>, AllocError>
    requires empty { terms.old ≡ [] }
    requires within { All (λ node. HasArgsBelow (length store.now.cells) (node_of node).literal)
        nodes.now }
    ensures { IfOk result (λ drawn. AreDrawn store.now terms.new (map node_of nodes.now)
        drawn.items) }
{
    let mut resolver = Resolver::new(alloc);
    let mut drawn = Vec::new(alloc);
    'nodes: for node in nodes {
        drawn.push(draw_node(alloc, store, node, &mut resolver, terms)?)?;
    }
    Ok(drawn)
}

// A node with the terms of its literal's arguments.
fn draw_node(
    alloc: Global,
    store: &Store,
    node: &MachineNode,
    resolver: &mut Resolver,
    terms: &mut TermTable,
) -> Result<Node, AllocError>
    requires within { HasArgsBelow (length store.now.cells) (node_of node.now).literal }
    requires resolved { IsResolved store.now resolver.old terms.old }
    ensures drawn { IfOk result (IsDrawn resolver.new (node_of node.now)) }
    ensures order { OnOk result (resolver.new.free ≡ fold with_variables resolver.old.free
        (map (tree store.now) (node_of node.now).literal.args)) }
    ensures resolved { OnOk result (IsResolved store.now resolver.new terms.new) }
    ensures kept { Keeps resolver.old resolver.new }
{
    let args = draw_args(alloc, store, &node.args, resolver, terms)?;
    Ok(Node {
        depth: node.depth,
        literal: Literal {
            positive: node.positive,
            predicate: node.predicate,
            args,
        },
        kind: match node.clause {
            None => NodeKind::Leaf,
            Some(clause) => NodeKind::Inner { clause },
        },
    })
}

// The rows of the terms of cells.
fn draw_args(
    alloc: Global,
    store: &Store,
    cells: &[Addr],
    resolver: &mut Resolver,
    terms: &mut TermTable,
) -> Result<Vec<TermId>, AllocError>
    requires within { AreBelow (length store.now.cells) cells.now }
    requires resolved { IsResolved store.now resolver.old terms.old }
    ensures rows { IfOk result
        (λ rows. map (row_of resolver.new) cells.now ≡ map Some rows.items) }
    ensures order { OnOk result (resolver.new.free
        ≡ fold with_variables resolver.old.free (map (tree store.now) cells.now)) }
    ensures resolved { OnOk result (IsResolved store.now resolver.new terms.new) }
    ensures kept { Keeps resolver.old resolver.new }
{
    let mut rows = Vec::new(alloc);
    'cells: for &cell in cells {
        rows.push(resolver.resolve(store, cell, terms)?)?;
    }
    Ok(rows)
}

// Adds the nodes to a tableau without any.
fn add_all(tableau: &mut Tableau, mut nodes: Vec<Node>) -> Result<(), AllocError>
    requires none { preorder tableau.old.tableau ≡ [] }
    requires nested { AreNested 1 (map (entry_of tableau.old.terms) nodes.items) }
    requires rows { All (λ node. HasRows (length tableau.old.terms) node.literal) nodes.items }
    ensures nodes { OnOk result (preorder tableau.new.tableau
        ≡ map (entry_of tableau.old.terms) nodes.items) }
    ensures root { tableau.new.tableau.root ≡ tableau.old.tableau.root }
    ensures terms { tableau.new.terms ≡ tableau.old.terms }
{
    nodes.reverse();
    'nodes: while let Some(node) = nodes.pop() {
        tableau.add(node)?;
    }
    Ok(())
}
