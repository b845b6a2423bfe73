//! Lists of worked tableaux, and of one as deep as may be.
ghost use Rattle.std.specs.Prelude.{◌≡◌, ◌<◌, ◌≤◌, All, IfOk, length, map};
ghost use Rattle.pm_logic.specs.View.{HasRows, clause_of, literal_of};
ghost use Rattle.pm_logic.specs.Tableau.{depth, preorder};
ghost use Rattle.pm_logic.specs.declared.problem.Start.TheVariants.{Negative};
ghost use Rattle.pm_lift.specs.Lift.{IsProof};
ghost use Rattle.pm_lift.specs.Inside.Example.{example_terms, example_symbols, described, described_clause, described_entry, AreFew, chain};

use super::*;
use pm_logic::{Clause, Kind, Literal, Name, Node, Symbols, TermTable};
use std::process::Abort;
use std::test::Fail;

// A literal by its sign, its predicate and, of the predicate 0, the row of its argument.
type Atom = (bool, u32, usize);

// The predicates p, q and r, the constant a and the function f.
fn symbols(alloc: Global) -> Result<Symbols, AllocError>
    ensures { IfOk result (λ symbols. symbols ≡ example_symbols) }
{
    let mut symbols = Symbols::new(alloc);
    symbols.number("p", 1, Kind::Predicate)?;
    symbols.number("q", 0, Kind::Predicate)?;
    symbols.number("r", 0, Kind::Predicate)?;
    symbols.number("a", 0, Kind::Function)?;
    symbols.number("f", 1, Kind::Function)?;
    Ok(symbols)
}

// The terms X, a, f(X), f(a), f(f(a)) and Y, in rows 0 to 5.
fn terms(alloc: Global) -> Result<TermTable, AllocError>
    ensures { IfOk result (λ terms. terms ≡ example_terms) }
{
    let mut terms = TermTable::new(alloc);
    let x = terms.add_var()?;
    let a = terms.add_app(3, &[])?;
    terms.add_app(4, &[x])?;
    let fa = terms.add_app(4, &[a])?;
    terms.add_app(4, &[fa])?;
    terms.add_var()?;
    Ok(terms)
}

// The literal of this description.
fn literal(
    rt: &impl Abort,
    alloc: Global,
    terms: &TermTable,
    atom: Atom,
) -> Result<Literal, AllocError>
    ensures literal { IfOk result
        (λ literal. literal_of terms.now literal ≡ described terms.now atom) }
    ensures rows { IfOk result (λ literal. HasRows (length terms.now) literal) }
    ensures predicate { IfOk result (λ literal. atom.1 ≤ 2) }
{
    let (positive, predicate, row) = atom;
    assert!(rt; predicate <= 2);
    let mut args = Vec::new(alloc);
    if predicate == 0 {
        assert!(rt; row < terms.len());
        args.push(terms.id(row))?;
    }
    Ok(Literal {
        positive,
        predicate,
        args,
    })
}

// The clause of the literals of these descriptions.
fn clause(
    rt: &impl Abort,
    alloc: Global,
    terms: &TermTable,
    atoms: &[Atom],
) -> Result<Clause, AllocError>
    ensures clause { IfOk result
        (λ clause. clause_of terms.now clause ≡ described_clause terms.now atoms.now) }
    ensures rows { IfOk result
        (λ clause. All (HasRows (length terms.now)) clause.literals.items) }
    ensures few { IfOk result (λ clause. AreFew atoms.now) }
{
    assert!(rt; atoms.len() <= 255);
    let mut literals = Vec::new(alloc);
    'atoms: for &atom in atoms {
        literals.push(literal(rt, alloc, terms, atom)?)?;
    }
    Ok(Clause {
        name: Name::Word(String::from_str(alloc, "c")?),
        role: String::from_str(alloc, "axiom")?,
        vars: 2,
        literals,
    })
}

// The clauses of these descriptions.
fn clauses(
    rt: &impl Abort,
    alloc: Global,
    terms: &TermTable,
    lists: &[&[Atom]],
) -> Result<Vec<Clause>, AllocError>
    ensures clauses { IfOk result (λ clauses. map (clause_of terms.now) clauses.items
        ≡ map (λ atoms. described_clause terms.now atoms.now) lists.now) }
    ensures rows { IfOk result (λ clauses.
        All (λ clause. All (HasRows (length terms.now)) clause.literals.items) clauses.items) }
    ensures small { IfOk result (λ clauses. All (λ atoms. AreFew atoms.now) lists.now) }
    ensures few { IfOk result (λ clauses. length lists.now ≤ 65536) }
{
    assert!(rt; lists.len() <= 65_536);
    let mut clauses = Vec::new(alloc);
    'lists: for atoms in lists {
        clauses.push(clause(rt, alloc, terms, atoms)?)?;
    }
    Ok(clauses)
}

// The problem of these clauses.
fn problem(rt: &impl Abort, alloc: Global, lists: &[&[Atom]]) -> Result<Problem, AllocError>
    ensures { IfOk result (λ problem. problem.clauses
        ≡ map (λ atoms. described_clause example_terms atoms.now) lists.now) }
{
    let terms = terms(alloc)?;
    let clauses = clauses(rt, alloc, &terms, lists)?;
    Ok(Problem::new(symbols(alloc)?, terms, clauses))
}

// The tableau of this root and these nodes, each with its depth, its literal and its kind.
fn tableau(
    rt: &impl Abort,
    alloc: Global,
    root: u32,
    nodes: &[(u32, Atom, NodeKind)],
) -> Result<Tableau, AllocError>
    ensures root { IfOk result (λ tableau. tableau.tableau.root ≡ root) }
    ensures nodes { IfOk result (λ tableau. preorder tableau.tableau
        ≡ map (described_entry example_terms) nodes.now) }
{
    let mut tableau = Tableau::new(alloc, terms(alloc)?, root);
    let mut deepest = 1;
    'nodes: for &(depth, atom, kind) in nodes {
        assert!(rt; 1 <= depth && depth <= deepest && depth < 1_000);
        let literal = literal(rt, alloc, tableau.terms(), atom)?;
        tableau.add(Node {
            depth,
            literal,
            kind,
        })?;
        deepest = match kind {
            NodeKind::Leaf => depth,
            NodeKind::Inner { .. } => depth + 1,
        };
    }
    Ok(tableau)
}

// The list of a tableau.
fn list(alloc: Global, problem: &Problem, tableau: &Tableau) -> Result<Vec<u32>, AllocError>
    requires proof { IsProof problem.now Negative tableau.now.tableau }
    requires shallow { depth tableau.now.tableau ≤ 250 }
{
    let contras = Contras::new(alloc, problem)?;
    list_of(alloc, problem, &contras, Start::Negative, tableau)
}

#[test]
fn one_branch(rt: HostRuntime) -> Result<(), Fail> {
    let problem = problem(
        &rt,
        rt.alloc(),
        &[
            &[(true, 0, 1)],
            &[(false, 0, 0), (true, 0, 2)],
            &[(false, 0, 4)],
        ],
    )?;
    let tableau = tableau(
        &rt,
        rt.alloc(),
        2,
        &[
            (1, (false, 0, 4), NodeKind::Inner { clause: 1 }),
            (2, (false, 0, 3), NodeKind::Inner { clause: 1 }),
            (3, (false, 0, 1), NodeKind::Inner { clause: 0 }),
            (4, (true, 0, 1), NodeKind::Leaf),
            (3, (true, 0, 3), NodeKind::Leaf),
            (2, (true, 0, 4), NodeKind::Leaf),
        ],
    )?;
    let list = list(rt.alloc(), &problem, &tableau)?;
    assert_eq!(rt; list.as_slice(), [0, 1, 2, 2].as_slice());
    Ok(())
}

#[test]
fn reductions(rt: HostRuntime) -> Result<(), Fail> {
    let problem = problem(
        &rt,
        rt.alloc(),
        &[
            &[(true, 1, 0), (true, 2, 0)],
            &[(true, 1, 0), (false, 2, 0)],
            &[(false, 1, 0), (true, 2, 0)],
            &[(false, 1, 0), (false, 2, 0)],
        ],
    )?;
    let tableau = tableau(
        &rt,
        rt.alloc(),
        3,
        &[
            (1, (false, 1, 0), NodeKind::Inner { clause: 0 }),
            (2, (true, 1, 0), NodeKind::Leaf),
            (2, (true, 2, 0), NodeKind::Inner { clause: 1 }),
            (3, (true, 1, 0), NodeKind::Leaf),
            (3, (false, 2, 0), NodeKind::Leaf),
            (1, (false, 2, 0), NodeKind::Inner { clause: 0 }),
            (2, (true, 1, 0), NodeKind::Inner { clause: 2 }),
            (3, (false, 1, 0), NodeKind::Leaf),
            (3, (true, 2, 0), NodeKind::Leaf),
            (2, (true, 2, 0), NodeKind::Leaf),
        ],
    )?;
    let list = list(rt.alloc(), &problem, &tableau)?;
    assert_eq!(rt; list.as_slice(), [0, 0, 1, 0, 0, 1, 0].as_slice());
    Ok(())
}

#[test]
fn a_free_variable(rt: HostRuntime) -> Result<(), Fail> {
    let problem = problem(
        &rt,
        rt.alloc(),
        &[
            &[(true, 0, 0), (false, 0, 5)],
            &[(true, 0, 1)],
            &[(false, 0, 0), (false, 1, 0)],
            &[(true, 1, 0), (false, 2, 0)],
            &[(true, 2, 0)],
        ],
    )?;
    let tableau = tableau(
        &rt,
        rt.alloc(),
        2,
        &[
            (1, (false, 0, 0), NodeKind::Inner { clause: 0 }),
            (2, (true, 0, 0), NodeKind::Leaf),
            (2, (false, 0, 1), NodeKind::Inner { clause: 1 }),
            (3, (true, 0, 1), NodeKind::Leaf),
            (1, (false, 1, 0), NodeKind::Inner { clause: 3 }),
            (2, (true, 1, 0), NodeKind::Leaf),
            (2, (false, 2, 0), NodeKind::Inner { clause: 4 }),
            (3, (true, 2, 0), NodeKind::Leaf),
        ],
    )?;
    let list = list(rt.alloc(), &problem, &tableau)?;
    assert_eq!(rt; list.as_slice(), [0, 0, 2, 0, 1].as_slice());
    Ok(())
}

// The nodes of a branch: so many that are extended by the clause 1, and one by the clause 2.
fn chain(alloc: Global, count: u32) -> Result<Vec<(u32, Atom, NodeKind)>, AllocError>
    requires { count ≤ 248 }
    ensures { IfOk result (λ nodes. nodes.items ≡ chain count 1) }
{
    let mut nodes = Vec::new(alloc);
    let last = count + 1;
    'depths: for depth in 1..last {
        nodes.push((depth, (false, 1, 0), NodeKind::Inner { clause: 1 }))?;
        nodes.push((depth + 1, (true, 1, 0), NodeKind::Leaf))?;
    }
    nodes.push((last, (false, 1, 0), NodeKind::Inner { clause: 2 }))?;
    nodes.push((last + 1, (true, 1, 0), NodeKind::Leaf))?;
    Ok(nodes)
}

// The list of the tableau of such a branch.
fn list_of_chain(rt: &impl Abort, alloc: Global, count: u32) -> Result<Vec<u32>, AllocError>
    requires { count ≤ 248 }
{
    let problem = problem(
        rt,
        alloc,
        &[
            &[(false, 1, 0)],
            &[(true, 1, 0), (false, 1, 0)],
            &[(true, 1, 0)],
        ],
    )?;
    let nodes = chain(alloc, count)?;
    let tableau = tableau(rt, alloc, 0, nodes.as_slice())?;
    list(alloc, &problem, &tableau)
}

#[test]
fn as_deep_as_may_be(rt: HostRuntime) -> Result<(), Fail> {
    let list = list_of_chain(&rt, rt.alloc(), 248)?;
    let mut expected = vec![in rt.alloc(); 0]?;
    for choice in 0..248 {
        expected.push(choice)?;
    }
    expected.push(249)?;
    assert_eq!(rt; list.as_slice(), expected.as_slice());
    Ok(())
}
