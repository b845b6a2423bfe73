//! Steps with the clause p(f(X)) | ~p(Y) | ~p(a), and the unification of lists.
ghost use Rattle.std.specs.Prelude.{◌≡◌, ◌∷◌, ◌<◌, [], IfOk, length};
ghost use Rattle.pm_run.specs.Inside.Example.{HasThreeLiterals};

use crate::{NewChild, Runner, unite};
use pm_compile::compile;
use pm_logic::{Clause, Kind, Literal, Name, Problem, Symbols, TermId, TermTable};
use pm_store::{Addr, Cell, Store};
use std::alloc::{AllocError, Global};
use std::test::Fail;

// The symbols p, a and f are numbered in this order.
const A: u32 = 1;

const F: u32 = 2;

// A literal of one argument.
fn literal(
    alloc: Global,
    positive: bool,
    predicate: u32,
    arg: TermId,
) -> Result<Literal, AllocError>
    ensures predicate { IfOk result (λ literal. literal.predicate ≡ predicate) }
    ensures args { IfOk result (λ literal. literal.args.items ≡ arg ∷ []) }
{
    Ok(Literal {
        positive,
        predicate,
        args: Vec::from_slice(alloc, &[arg])?,
    })
}

// The problem of the clause p(f(X)) | ~p(Y) | ~p(a).
fn example(alloc: Global) -> Result<Problem, AllocError>
    ensures { IfOk result (λ problem. HasThreeLiterals problem.clauses) }
{
    let mut symbols = Symbols::new(alloc);
    let p = symbols.number("p", 1, Kind::Predicate)?;
    let a = symbols.number("a", 0, Kind::Function)?;
    let f = symbols.number("f", 1, Kind::Function)?;
    let mut terms = TermTable::new(alloc);
    let x = terms.add_var()?;
    let y = terms.add_var()?;
    let f_x = terms.add_app(f, &[x])?;
    let constant = terms.add_app(a, &[])?;
    let mut literals = Vec::new(alloc);
    literals.push(literal(alloc, true, p, f_x)?)?;
    literals.push(literal(alloc, false, p, y)?)?;
    literals.push(literal(alloc, false, p, constant)?)?;
    let mut clauses = Vec::new(alloc);
    clauses.push(Clause {
        name: Name::Word(String::from_str(alloc, "c")?),
        role: String::from_str(alloc, "axiom")?,
        vars: 2,
        literals,
    })?;
    Ok(Problem::new(symbols, terms, clauses))
}

// Extends a leaf of the argument by the literal of this index of the clause. In the store the
// constant gets its cell first.
fn extend_leaf(
    alloc: Global,
    store: &mut Store,
    leaf: Addr,
    literal: u16,
    children: &mut Vec<NewChild>,
) -> Result<bool, AllocError>
    requires leaf { leaf < length store.old.cells }
    requires literal { literal < 3 }
    requires none { children.old.items ≡ [] }
{
    let problem = example(alloc)?;
    let code = compile(alloc, &problem)?;
    let mut runner = Runner::new(alloc, &problem, &code, store)?;
    runner.extend(store, 0, literal, &[leaf], children)
}

// Starts with the clause.
fn start(alloc: Global, store: &mut Store, children: &mut Vec<NewChild>) -> Result<(), AllocError>
    requires { children.old.items ≡ [] }
{
    let problem = example(alloc)?;
    let code = compile(alloc, &problem)?;
    let mut runner = Runner::new(alloc, &problem, &code, store)?;
    runner.start(store, 0, children)
}

// The sign of each child, the number of its argument's cell, and whether it is closed.
fn shown(alloc: Global, children: &[NewChild]) -> Result<Vec<(bool, usize, bool)>, AllocError> {
    let mut all = Vec::new(alloc);
    'children: for child in children {
        'args: for arg in child.args.iter() {
            all.push((child.positive, arg.number(), child.closed))?;
        }
    }
    Ok(all)
}

fn is_application(store: &Store, a: Addr, symbol: u32) -> bool
    requires { a < length store.now.cells }
{
    match store.look(a) {
        Cell::Free(_) => false,
        Cell::App { symbol: f, .. } => f == symbol,
    }
}

// The leaf ~p(A) is extended by p(f(X)): A is bound to f(B). The cells are A, the constant a, B,
// f(B), Y, and f(B) again for the child.
#[test]
fn an_extension_binds_the_leaf(rt: HostRuntime) -> Result<(), Fail> {
    let mut store = Store::new(rt.alloc());
    let a = store.fresh()?;
    let mut children = Vec::new(rt.alloc());
    assert!(rt; extend_leaf(rt.alloc(), &mut store, a, 0, &mut children)?);
    assert!(rt; store.len() == 6);
    assert!(rt; is_application(&store, a, F));
    let want = [(true, 5, true), (false, 4, false), (false, 1, false)];
    assert!(rt; shown(rt.alloc(), &children)?.as_slice() == want.as_slice());
    Ok(())
}

// The leaf p(A) is extended by ~p(a): A is bound to a.
#[test]
fn a_leaf_meets_a_constant(rt: HostRuntime) -> Result<(), Fail> {
    let mut store = Store::new(rt.alloc());
    let a = store.fresh()?;
    let mut children = Vec::new(rt.alloc());
    assert!(rt; extend_leaf(rt.alloc(), &mut store, a, 2, &mut children)?);
    assert!(rt; store.len() == 5);
    assert!(rt; is_application(&store, a, A));
    let want = [(true, 4, false), (false, 3, false), (false, 1, true)];
    assert!(rt; shown(rt.alloc(), &children)?.as_slice() == want.as_slice());
    Ok(())
}

// The leaf ~p(a) can't be extended by p(f(X)): there are its cell and that of the clause's a.
#[test]
fn a_failed_extension_leaves_nothing(rt: HostRuntime) -> Result<(), Fail> {
    let mut store = Store::new(rt.alloc());
    let a = store.make(A, &[])?;
    let mut children = Vec::new(rt.alloc());
    assert!(rt; !extend_leaf(rt.alloc(), &mut store, a, 0, &mut children)?);
    assert_eq!(rt; store.len(), 2);
    assert_eq!(rt; children.len(), 0);
    Ok(())
}

// The cells are a, X, Y and f(X).
#[test]
fn a_start_has_the_clause_for_children(rt: HostRuntime) -> Result<(), Fail> {
    let mut store = Store::new(rt.alloc());
    let mut children = Vec::new(rt.alloc());
    start(rt.alloc(), &mut store, &mut children)?;
    assert_eq!(rt; store.len(), 4);
    let want = [(true, 3, false), (false, 2, false), (false, 0, false)];
    assert!(rt; shown(rt.alloc(), &children)?.as_slice() == want.as_slice());
    Ok(())
}

// The lists X, X and a, Y.
#[test]
fn lists_are_united_in_turn(rt: HostRuntime) -> Result<(), Fail> {
    let mut store = Store::new(rt.alloc());
    let x = store.fresh()?;
    let y = store.fresh()?;
    let a = store.make(A, &[])?;
    assert!(rt; unite(rt.alloc(), &mut store, &[x, x], &[a, y])?);
    assert_eq!(rt; store.end(x), a);
    assert_eq!(rt; store.end(y), a);
    Ok(())
}

// The lists X, X and a, f(a): the first pair's binding is undone.
#[test]
fn lists_that_differ_leave_no_binding(rt: HostRuntime) -> Result<(), Fail> {
    let mut store = Store::new(rt.alloc());
    let x = store.fresh()?;
    let a = store.make(A, &[])?;
    let f_a = store.make(F, &[a])?;
    assert!(rt; !unite(rt.alloc(), &mut store, &[x, x], &[a, f_a])?);
    assert_eq!(rt; store.end(x), x);
    Ok(())
}
