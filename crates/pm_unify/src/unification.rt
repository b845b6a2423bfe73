//! The unification of two cells.
ghost use Rattle.std.specs.Prelude.{◌≡◌, ◌<◌, ◌≤◌, length, IfOk, OnErr};
ghost use Rattle.pm_store.specs.Marks.{IsLater};
ghost use Rattle.pm_store.specs.Sound.{IsSound};
ghost use Rattle.pm_unify.specs.Unified.{Answers};
ghost use Rattle.pm_unify.specs.Inside.Steps.{Solved};

use crate::occurrence::occurs;
use crate::pairs::{Pairs, Step};
use pm_store::{Addr, Store};
use std::alloc::{AllocError, Global};

/// Makes two cells of the store equal by bindings of variables: on true the solutions of the store
/// are exactly the old ones in which both cells have the same tree. On false there are none of
/// these, and the store is as before. After want of memory the store is as before.
pub fn unify(alloc: Global, store: &mut Store, a: Addr, b: Addr) -> Result<bool, AllocError>
    requires left { a < length store.old.cells }
    requires right { b < length store.old.cells }
    ensures ok { IfOk result (Answers store.old store.new a b) }
    ensures err { OnErr result (store.new ≡ store.old) }
{
    let mark = store.mark();
    let solved = solve(alloc, store, a, b);
    if !matches!(solved, Ok(true)) {
        store.undo(mark);
    }
    solved
}

// Binds variables until both cells are equal in every solution, or until there is none in which
// they are. The bindings stay in each case.
fn solve(alloc: Global, store: &mut Store, a: Addr, b: Addr) -> Result<bool, AllocError>
    requires sound { IsSound store.old }
    requires left { a < length store.old.cells }
    requires right { b < length store.old.cells }
    ensures later { IsLater store.old store.new }
    ensures ok { IfOk result (Solved store.old store.new a b) }
{
    let mut pairs = Pairs::new(alloc, a, b)?;
    loop {
        match pairs.next_step(store)? {
            Step::Done => return Ok(true),
            Step::Clash => return Ok(false),
            Step::Bind(v, t) => {
                if occurs(alloc, store, v, t)? {
                    return Ok(false);
                }
                store.bind(v, t)?;
            }
        }
    }
}

#[cfg(test)]
mod tests {
    use super::*;
    use pm_logic::TermTable;
    use pm_store::{Cell, Resolver};
    use std::test::Fail;

    // The symbols a, f, g and b.
    const A: u32 = 0;

    const F: u32 = 1;

    const G: u32 = 2;

    const B: u32 = 3;

    fn is_free(store: &Store, a: Addr, v: Addr) -> bool
        requires { a < length store.now.cells }
    {
        match store.look(a) {
            Cell::Free(w) => w == v,
            Cell::App { .. } => false,
        }
    }

    fn is_application(store: &Store, a: Addr, symbol: u32, args: &[Addr]) -> bool
        requires { a < length store.now.cells }
    {
        match store.look(a) {
            Cell::Free(_) => false,
            Cell::App {
                symbol: f,
                args: shown,
            } => f == symbol && shown == args,
        }
    }

    #[test]
    fn a_variable_and_a_term_around_it_do_not_unify(rt: HostRuntime) -> Result<(), Fail> {
        let mut store = Store::new(rt.alloc());
        let x = store.fresh()?;
        let f_x = store.make(F, &[x])?;
        assert!(rt; !unify(rt.alloc(), &mut store, x, f_x)?);
        assert!(rt; is_free(&store, x, x));
        assert_eq!(rt; store.len(), 2);
        Ok(())
    }

    #[test]
    fn a_variable_is_bound_to_the_argument_and_freed(rt: HostRuntime) -> Result<(), Fail> {
        let mut store = Store::new(rt.alloc());
        let x = store.fresh()?;
        let f_x = store.make(F, &[x])?;
        let a = store.make(A, &[])?;
        let f_a = store.make(F, &[a])?;
        let mark = store.mark();
        assert!(rt; unify(rt.alloc(), &mut store, f_x, f_a)?);
        assert!(rt; is_application(&store, x, A, &[]));
        store.undo(mark);
        assert!(rt; is_free(&store, x, x));
        assert_eq!(rt; store.len(), 4);
        Ok(())
    }

    // f(X, X) and f(Y, g(Y)).
    #[test]
    fn a_failed_attempt_leaves_no_binding(rt: HostRuntime) -> Result<(), Fail> {
        let mut store = Store::new(rt.alloc());
        let x = store.fresh()?;
        let y = store.fresh()?;
        let g_y = store.make(G, &[y])?;
        let left = store.make(F, &[x, x])?;
        let right = store.make(F, &[y, g_y])?;
        assert!(rt; !unify(rt.alloc(), &mut store, left, right)?);
        assert!(rt; is_free(&store, x, x));
        assert!(rt; is_free(&store, y, y));
        assert_eq!(rt; store.len(), 5);
        Ok(())
    }

    // So many applications of g above the cell, each to the one below it `width` times.
    fn tower(
        store: &mut Store,
        bottom: Addr,
        width: usize,
        times: usize,
    ) -> Result<Addr, AllocError>
        requires bottom { bottom < length store.old.cells }
        requires width { width ≤ 2 }
        ensures grows { length store.old.cells ≤ length store.new.cells }
        ensures within { IfOk result (λ top. top < length store.new.cells) }
    {
        let mut top = bottom;
        'floors: for _ in 0..times {
            let args = [top, top];
            top = store.make(G, &args[..width])?;
        }
        Ok(top)
    }

    // Both trees have 2^28 leaves, and 29 rows of a table.
    #[test]
    fn shared_terms_unify_at_once(rt: HostRuntime) -> Result<(), Fail> {
        let mut store = Store::new(rt.alloc());
        let x = store.fresh()?;
        let y = store.fresh()?;
        let z = store.fresh()?;
        let left = tower(&mut store, x, 2, 28)?;
        let right = tower(&mut store, y, 2, 28)?;
        assert!(rt; unify(rt.alloc(), &mut store, left, right)?);
        assert!(rt; is_free(&store, x, y));
        assert!(rt; !unify(rt.alloc(), &mut store, x, left)?);
        assert!(rt; unify(rt.alloc(), &mut store, z, left)?);
        assert!(rt; unify(rt.alloc(), &mut store, right, z)?);
        let mut table = TermTable::new(rt.alloc());
        let mut resolver = Resolver::new(rt.alloc());
        let left = resolver.resolve(&store, left, &mut table)?;
        let z = resolver.resolve(&store, z, &mut table)?;
        assert_eq!(rt; left, z);
        assert_eq!(rt; table.len(), 29);
        Ok(())
    }

    // f(X1, .., Xn) and f(g(X0, X0), .., g(Xm, Xm)), where m is n - 1.
    fn doublings(alloc: Global, store: &mut Store, times: usize) -> Result<(Addr, Addr), AllocError>
        ensures { IfOk result (λ both. (both.0 < length store.new.cells)
            × (both.1 < length store.new.cells)) }
    {
        let mut variables = Vec::new(alloc);
        let mut doubles = Vec::new(alloc);
        let mut last = store.fresh()?;
        'doublings: for _ in 0..times {
            let double = store.make(G, &[last, last])?;
            doubles.push(double)?;
            last = store.fresh()?;
            variables.push(last)?;
        }
        let left = store.make(F, &variables)?;
        let right = store.make(F, &doubles)?;
        Ok((left, right))
    }

    // X28 then has a tree with 2^28 leaves.
    #[test]
    fn lists_of_doublings_unify(rt: HostRuntime) -> Result<(), Fail> {
        let mut store = Store::new(rt.alloc());
        let (left, right) = doublings(rt.alloc(), &mut store, 28)?;
        assert!(rt; unify(rt.alloc(), &mut store, left, right)?);
        let mut table = TermTable::new(rt.alloc());
        let mut resolver = Resolver::new(rt.alloc());
        let left = resolver.resolve(&store, left, &mut table)?;
        let right = resolver.resolve(&store, right, &mut table)?;
        assert_eq!(rt; left, right);
        assert_eq!(rt; table.len(), 30);
        Ok(())
    }

    // f(X, g(X), a) and f(b, Y, Z).
    fn two_terms(store: &mut Store) -> Result<(Addr, Addr), AllocError>
        ensures { IfOk result (λ both. (both.0 < length store.new.cells)
            × (both.1 < length store.new.cells)) }
    {
        let x = store.fresh()?;
        let g_x = store.make(G, &[x])?;
        let a = store.make(A, &[])?;
        let left = store.make(F, &[x, g_x, a])?;
        let b = store.make(B, &[])?;
        let y = store.fresh()?;
        let z = store.fresh()?;
        let right = store.make(F, &[b, y, z])?;
        Ok((left, right))
    }

    // Unifies two cells and takes back what came of it.
    fn round(alloc: Global, store: &mut Store, a: Addr, b: Addr) -> Result<bool, AllocError>
        requires left { a < length store.old.cells }
        requires right { b < length store.old.cells }
        ensures { store.new ≡ store.old }
    {
        let mark = store.mark();
        let unified = unify(alloc, store, a, b);
        store.undo(mark);
        unified
    }

    // How often the two measured things are done: more of them, timed, measure the store and
    // unification.
    const ROUNDS: usize = 100_000;

    const TURNS: usize = 10_000;

    // The same pair in round after round: so a search spends its time.
    #[test]
    fn rounds_leave_the_store_as_it_was(rt: HostRuntime) -> Result<(), Fail> {
        let mut store = Store::new(rt.alloc());
        let (left, right) = two_terms(&mut store)?;
        'rounds: for _ in 0..ROUNDS {
            let unified = round(rt.alloc(), &mut store, left, right)?;
            assert!(rt; unified);
        }
        assert_eq!(rt; store.len(), 8);
        Ok(())
    }

    // New cells in each turn, which stay.
    #[test]
    fn turns_fill_a_store(rt: HostRuntime) -> Result<(), Fail> {
        let mut store = Store::new(rt.alloc());
        'turns: for _ in 0..TURNS {
            let (left, right) = two_terms(&mut store)?;
            let unified = unify(rt.alloc(), &mut store, left, right)?;
            assert!(rt; unified);
        }
        assert_eq!(rt; store.len(), 8 * TURNS);
        Ok(())
    }

    #[test]
    fn long_chains_unify(rt: HostRuntime) -> Result<(), Fail> {
        let mut store = Store::new(rt.alloc());
        let x = store.fresh()?;
        let a = store.make(A, &[])?;
        let left = tower(&mut store, x, 1, 100_000)?;
        let right = tower(&mut store, a, 1, 100_000)?;
        assert!(rt; unify(rt.alloc(), &mut store, left, right)?);
        assert!(rt; is_application(&store, x, A, &[]));
        assert_eq!(rt; store.len(), 200_002);
        let mut table = TermTable::new(rt.alloc());
        let mut resolver = Resolver::new(rt.alloc());
        resolver.resolve(&store, left, &mut table)?;
        assert_eq!(rt; table.len(), 100_001);
        Ok(())
    }
}
