//! Tests of written certificates.
ghost use Rattle.std.specs.Prelude.{◌≡◌, ◌<◌, ◌≤◌, ◌++◌, ◌∷◌, [], IfOk, OnOk, OnErr, length};
ghost use Rattle.pm_logic.specs.Tableau.{deepest_next, preorder};
ghost use Rattle.pm_logic.specs.Term.{tree_at};
ghost use Rattle.pm_cert.specs.Inside.Example.{chain_node, chain_nodes, chain_symbols, chain_terms};

use crate::write_cert;
use pm_logic::{
    BoundKind, Class, Kind, Literal, Node, NodeKind, Problem, Start, Symbols, Tableau, TermId,
    TermTable,
};
use std::alloc::{AllocError, Global};
use std::test::Fail;

// The predicate `p`, the constant `a` and the function `f`.
fn symbols(alloc: Global) -> Result<Symbols, AllocError>
    ensures { IfOk result (λ symbols. symbols ≡ chain_symbols) }
{
    let mut symbols = Symbols::new(alloc);
    symbols.number("p", 1, Kind::Predicate)?;
    symbols.number("a", 0, Kind::Function)?;
    symbols.number("f", 1, Kind::Function)?;
    Ok(symbols)
}

// The terms a, f(a) and f(f(a)), in rows 0 to 2.
fn terms(alloc: Global) -> Result<TermTable, AllocError>
    ensures { IfOk result (λ terms. terms ≡ chain_terms) }
{
    let mut terms = TermTable::new(alloc);
    let a = terms.add_app(1, &[])?;
    let fa = terms.add_app(2, &[a])?;
    terms.add_app(2, &[fa])?;
    Ok(terms)
}

// A problem over these symbols, without clauses.
fn problem(alloc: Global) -> Result<Problem, AllocError>
    ensures { IfOk result (λ problem. problem.symbols ≡ chain_symbols) }
{
    Ok(Problem::new(symbols(alloc)?, TermTable::new(alloc), Vec::new(alloc)))
}

// Adds a node with the literal of `p` and the term of a row.
fn add_node(
    alloc: Global,
    tableau: &mut Tableau,
    depth: u32,
    positive: bool,
    row: usize,
    kind: NodeKind,
) -> Result<(), AllocError>
    requires below_root { 1 ≤ depth }
    requires shallow { depth ≤ deepest_next (preorder tableau.old.tableau) }
    requires row { row < length tableau.old.terms }
    ensures nodes { OnOk result (preorder tableau.new.tableau ≡ preorder tableau.old.tableau
        ++ chain_node depth positive (tree_at tableau.old.terms row) kind ∷ []) }
    ensures root { tableau.new.tableau.root ≡ tableau.old.tableau.root }
    ensures terms { tableau.new.terms ≡ tableau.old.terms }
{
    let mut args = Vec::new(alloc);
    args.push(tableau.terms().id(row))?;
    tableau.add(Node {
        depth,
        literal: Literal {
            positive,
            predicate: 0,
            args,
        },
        kind,
    })
}

// The closed tableau of the clauses `p(a)`, `~p(X) | p(f(X))` and `~p(f(f(a)))`.
fn tableau(alloc: Global) -> Result<Tableau, AllocError>
    ensures { IfOk result (λ tableau. preorder tableau.tableau ≡ chain_nodes) }
{
    let mut tableau = Tableau::new(alloc, terms(alloc)?, 2);
    add_node(
        alloc,
        &mut tableau,
        1,
        false,
        2,
        NodeKind::Inner { clause: 1 },
    )?;
    add_node(
        alloc,
        &mut tableau,
        2,
        false,
        1,
        NodeKind::Inner { clause: 1 },
    )?;
    add_node(
        alloc,
        &mut tableau,
        3,
        false,
        0,
        NodeKind::Inner { clause: 0 },
    )?;
    add_node(alloc, &mut tableau, 4, true, 0, NodeKind::Leaf)?;
    add_node(alloc, &mut tableau, 3, true, 1, NodeKind::Leaf)?;
    add_node(alloc, &mut tableau, 2, true, 2, NodeKind::Leaf)?;
    Ok(tableau)
}

#[test]
fn writes_terms_once(rt: HostRuntime) -> Result<(), Fail> {
    let problem = problem(rt.alloc())?;
    let tableau = tableau(rt.alloc())?;
    let text = write_cert(
        rt.alloc(),
        &problem,
        &tableau,
        Class::Plain,
        Start::Negative,
        BoundKind::Depth,
        &[1, 1, 4, 8],
        9,
    )?;
    assert_eq!(rt;
        text.as_slice(),
        b"% SZS status Unsatisfiable
level 0 exhausted attempts 1
level 1 exhausted attempts 1
level 2 exhausted attempts 4
level 3 exhausted attempts 8
level 4 proof attempts 9
parmel 1 class plain start negative depth 4 terms 3 nodes 6
a
f 0
f 1
root 2
1 - p 2 extend 1
2 - p 1 extend 1
3 - p 0 extend 0
4 + p 0 close 3
3 + p 1 close 2
2 + p 2 close 1
end
"
            .as_slice()
    );
    Ok(())
}

#[test]
fn second_version_under_inferences(rt: HostRuntime) -> Result<(), Fail> {
    let problem = problem(rt.alloc())?;
    let tableau = Tableau::new(rt.alloc(), TermTable::new(rt.alloc()), 0);
    let text = write_cert(
        rt.alloc(),
        &problem,
        &tableau,
        Class::Regular,
        Start::Goal,
        BoundKind::Inferences,
        &[1],
        1,
    )?;
    assert_eq!(rt;
        text.as_slice(),
        b"% SZS status Unsatisfiable
level 0 exhausted attempts 1
level 1 proof attempts 1
parmel 2 class regular start goal bound inferences size 1 terms 0 nodes 0
root 0
end
"
            .as_slice()
    );
    Ok(())
}
