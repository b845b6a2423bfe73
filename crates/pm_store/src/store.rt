//! The store: cells, bindings of variables, and marks to go back to.
ghost use Rattle.std.specs.Prelude.{◌≡◌, ◌↔◌, ◌+◌, ◌<◌, ◌≤◌, ℕ, None, All, Contains, IfOk, OnOk, OnErr, length, map};
ghost use Rattle.pm_logic.specs.Term.{Term, app, as_terms};
ghost use Rattle.pm_store.specs.Entries.{Variable, Application};
ghost use Rattle.pm_store.specs.Equations.{Equations, no_equations, with_cell, with_new_variables, with_binding, target_of, end_of, IsFree, free_count};
ghost use Rattle.pm_store.specs.Solutions.{Solves, Narrows, with_tree, with_trees};
ghost use Rattle.pm_store.specs.Trees.{tree};
ghost use Rattle.pm_store.specs.Growth.{GainsVariable, GainsVariables, GainsApplication};
ghost use Rattle.pm_store.specs.Sound.{CanBind, IsSound};
ghost use Rattle.pm_store.specs.Marks.{Counts, counts_of, IsLater, HasMark, at_mark, bound_since};
ghost use Rattle.pm_store.specs.View.{Shows, shown_tree};

use crate::slots::{Slot, add_application, add_variable, add_variables, start_before, start_of};
use std::alloc::{AllocError, Global};
use std::marker::Model;

/// A cell of a store.
#[derive(Clone, Copy, Debug, Default, PartialEq, Eq, Hash)]
pub struct Addr(usize);

impl Model for Addr {
    ghost use Rattle.std.specs.Prelude.{ℕ};

    ghost Value = { ℕ };

    ghost view = { λ a. a.0 };

    ghost inverse = { λ n. record { 0 = n } };
}

impl Addr {
    /// The number of the cell: how many cells of its store were made before it.
    pub fn number(&self) -> usize
        ensures { result ≡ self.now }
    {
        self.0
    }
}

/// What is at the end of the bindings from a cell: a free variable, or a symbol with arguments.
#[derive(Clone, Copy, Debug)]
pub enum Cell<'a> {
    Free(Addr),
    App { symbol: u32, args: &'a [Addr] },
}

/// How far a store had come: seen as how many cells and bindings it had.
#[derive(Clone, Copy, Debug)]
pub struct Mark {
    cells: usize,
    bindings: usize,
}

impl Model for Mark {
    ghost use Rattle.pm_store.specs.Marks.{Counts};

    ghost Value = { Counts };

    ghost view = { λ a. record { cells = a.cells; bindings = a.bindings } };

    ghost inverse = { λ c. record { cells = c.cells; bindings = c.bindings } };
}

/// Equations between cells: seen as the list of cells, each a variable or an application, and the
/// list of bindings of variables, newest first.
#[derive(Drop)]
pub struct Store {
    slots: Vec<Slot>,
    // The arguments of all applications, one cell's after the other's.
    args: Vec<Addr>,
    // The bound variables, in the order of their binding.
    trail: Vec<Addr>,
}

impl Model for Store {
    ghost use Rattle.pm_store.specs.Equations.{Equations};

    ghost Value = { Equations };

    ghost use Rattle.pm_store.specs.Inside.Slots.{flat_equations, IsFlat};

    ghost view = { λ a. flat_equations a.slots.items a.args.items a.trail.items };

    ghost invariant = { λ a. IsFlat a.slots.items a.args.items a.trail.items };
}

impl Store {
    /// A store with no cells.
    pub fn new(alloc: Global) -> Store
        ensures { result ≡ no_equations }
    {
        Store {
            slots: Vec::new(alloc),
            args: Vec::new(alloc),
            trail: Vec::new(alloc),
        }
    }

    /// How many cells there are.
    pub fn len(&self) -> usize
        ensures count { result ≡ length self.now.cells }
        ensures sound { IsSound self.now }
    {
        self.slots.len()
    }

    /// Adds a free variable, which may have any tree, and gives its address. After want of memory
    /// the store is as before.
    pub fn fresh(&mut self) -> Result<Addr, AllocError>
        ensures place { IfOk result (λ v. v ≡ length self.old.cells) }
        ensures ok { OnOk result (self.new ≡ with_cell self.old Variable) }
        ensures solutions { OnOk result ((trees : ℕ → Term) → Solves self.new trees
            ↔ Solves self.old trees) }
        ensures any_tree { IfOk result (λ v. (trees : ℕ → Term) (t : Term)
            → Solves self.old trees → Solves self.new (with_tree trees v t)) }
        ensures gains { IfOk result (GainsVariable self.old self.new) }
        ensures err { OnErr result (self.new ≡ self.old) }
    {
        let cell = add_variable(&mut self.slots, &self.args)?;
        Ok(Addr(cell))
    }

    /// Adds so many free variables, which may have any trees, and gives the first one's address.
    /// After want of memory the store is as before.
    pub fn fresh_many(&mut self, count: usize) -> Result<Addr, AllocError>
        ensures place { IfOk result (λ first. first ≡ length self.old.cells) }
        ensures ok { OnOk result (self.new ≡ with_new_variables self.old count) }
        ensures solutions { OnOk result ((trees : ℕ → Term) → Solves self.new trees
            ↔ Solves self.old trees) }
        ensures any_trees { IfOk result (λ first. (trees others : ℕ → Term) → Solves self.old trees
            → Solves self.new (with_trees trees first others)) }
        ensures gains { IfOk result (λ first. GainsVariables self.old self.new first count) }
        ensures err { OnErr result (self.new ≡ self.old) }
    {
        let first = add_variables(&mut self.slots, &self.args, count)?;
        Ok(Addr(first))
    }

    /// The cell so many places after another: so the variables that were made at once are found.
    pub fn cell_after(&self, first: Addr, count: usize) -> Addr
        requires { first + count < length self.now.cells }
        ensures { result ≡ first + count }
    {
        let _cells = self.slots.len();
        Addr(first.0 + count)
    }

    /// Adds an application of a symbol to cells of the store, and gives its address: the solutions
    /// are then the old ones in which the new cell's tree is the symbol over the arguments' trees.
    /// After want of memory the store is as before.
    pub fn make(&mut self, symbol: u32, args: &[Addr]) -> Result<Addr, AllocError>
        requires { All (λ arg. arg < length self.old.cells) args.now }
        ensures place { IfOk result (λ cell. cell ≡ length self.old.cells) }
        ensures ok { OnOk result (self.new ≡ with_cell self.old (Application symbol args.now)) }
        ensures solutions { IfOk result (λ cell. Narrows self.old self.new (λ trees. trees cell
            ≡ app symbol (as_terms (map trees args.now)))) }
        ensures gains { IfOk result (GainsApplication self.old self.new symbol args.now) }
        ensures err { OnErr result (self.new ≡ self.old) }
    {
        let cell = add_application(&mut self.slots, &mut self.args, symbol, args)?;
        Ok(Addr(cell))
    }

    /// What is at the end of the bindings from a cell: in every solution it has the cell's tree.
    /// This takes no memory.
    pub fn look(&self, a: Addr) -> Cell<'_>
        requires { a < length self.now.cells }
        ensures shown { Shows self.now (end_of self.now.bindings a) result }
        ensures tree { tree self.now a ≡ shown_tree (tree self.now) result }
        ensures solutions { (trees : ℕ → Term) → Solves self.now trees
            → trees a ≡ shown_tree trees result }
        ensures sound { IsSound self.now }
    {
        let end = self.end(a);
        match self.slots[end.0] {
            Slot::Made {
                start,
                symbol,
                count,
            } => {
                let from = start as usize;
                let to = from + count as usize;
                Cell::App {
                    symbol,
                    args: &self.args[from..to],
                }
            }
            // The end isn't bound.
            _ => Cell::Free(end),
        }
    }

    /// The cell at the end of the bindings from a cell, which isn't bound: in every solution both
    /// have the same tree. This takes no memory.
    pub fn end(&self, a: Addr) -> Addr
        requires { a < length self.now.cells }
        ensures end { result ≡ end_of self.now.bindings a }
        ensures within { result < length self.now.cells }
        ensures unbound { target_of self.now.bindings result ≡ None }
        ensures solutions { (trees : ℕ → Term) → Solves self.now trees → trees a ≡ trees result }
        ensures sound { IsSound self.now }
    {
        let mut at = a;
        while let Slot::Bound { target, .. } = self.slots[at.0] {
            at = target;
        }
        at
    }

    /// Binds a free variable to a cell in whose tree it doesn't occur. The solutions are then the
    /// old ones in which both are equal. After want of memory the store is as before.
    pub fn bind(&mut self, v: Addr, t: Addr) -> Result<(), AllocError>
        requires { CanBind self.old v t }
        ensures ok { OnOk result (self.new ≡ with_binding self.old v t) }
        ensures solutions { OnOk result (Narrows self.old self.new (λ trees. trees v ≡ trees t)) }
        ensures free { OnOk result (free_count self.new + 1 ≡ free_count self.old) }
        ensures sound { OnOk result (IsSound self.new) }
        ensures err { OnErr result (self.new ≡ self.old) }
    {
        self.trail.push(v)?;
        let slot = &mut self.slots[v.0];
        let start = start_of(*slot);
        *slot = Slot::Bound { start, target: t };
        Ok(())
    }

    /// How far the store has come, for `undo`. This takes no memory.
    pub fn mark(&self) -> Mark
        ensures counts { result ≡ counts_of self.now }
        ensures can { HasMark self.now result }
        ensures sound { IsSound self.now }
    {
        Mark {
            cells: self.slots.len(),
            bindings: self.trail.len(),
        }
    }

    /// The variables that were bound since the mark, which this store gave and didn't undo past, in
    /// the order of their binding: those that were free then and aren't now. This takes no memory.
    pub fn bound_since(&self, mark: &Mark) -> &[Addr]
        requires { HasMark self.now mark.now }
        ensures variables { result.now ≡ bound_since self.now mark.now }
        ensures free { (v : ℕ) → IsFree (at_mark self.now mark.now) v → IsFree self.now v
            ↔ (¬ Contains result.now v) }
    {
        &self.trail[mark.bindings..]
    }

    /// Takes away the cells and bindings since the mark, which this store gave and didn't undo
    /// past: the store is as it was. This takes no memory.
    pub fn undo(&mut self, mark: Mark)
        requires { HasMark self.old mark }
        ensures before { (before : Equations) → IsLater before self.old
            → mark ≡ counts_of before → self.new ≡ before }
        ensures at_mark { self.new ≡ at_mark self.old mark }
        ensures sound { IsSound self.new }
    {
        while self.trail.len() > mark.bindings {
            if let Some(v) = self.trail.pop() {
                let slot = &mut self.slots[v.0];
                let start = start_of(*slot);
                *slot = Slot::Unbound { start };
            }
        }
        let kept = start_before(&self.slots, self.args.len(), mark.cells);
        self.slots.truncate(mark.cells);
        self.args.truncate(kept);
    }
}

/// The law that each store is sound, for a proof that holds no call which says so.
pub fn stores_are_sound(store: &Store)
    ensures { IsSound store.now }
{
    let _ = &store.slots;
}

#[cfg(test)]
mod tests {
    use super::*;
    use std::test::Fail;

    // The symbols a and f.
    const A: u32 = 1;

    const F: u32 = 2;

    fn is_free(store: &Store, a: Addr, v: Addr) -> bool
        requires { a < length store.now.cells }
    {
        match store.look(a) {
            Cell::Free(w) => w == v,
            Cell::App { .. } => false,
        }
    }

    fn is_application(store: &Store, a: Addr, symbol: u32, args: &[Addr]) -> bool
        requires { a < length store.now.cells }
    {
        match store.look(a) {
            Cell::Free(_) => false,
            Cell::App {
                symbol: f,
                args: shown,
            } => f == symbol && shown == args,
        }
    }

    #[test]
    fn a_bound_variable_is_freed(rt: HostRuntime) -> Result<(), Fail> {
        let mut store = Store::new(rt.alloc());
        let x = store.fresh()?;
        let y = store.fresh()?;
        let a = store.make(A, &[])?;
        assert!(rt; is_free(&store, x, x));
        let mark = store.mark();
        store.bind(x, a)?;
        assert!(rt; is_application(&store, x, A, &[]));
        assert!(rt; is_free(&store, y, y));
        store.undo(mark);
        assert!(rt; is_free(&store, x, x));
        assert_eq!(rt; store.len(), 3);
        Ok(())
    }

    #[test]
    fn bindings_are_followed_to_their_end(rt: HostRuntime) -> Result<(), Fail> {
        let mut store = Store::new(rt.alloc());
        let x = store.fresh()?;
        let y = store.fresh()?;
        store.bind(x, y)?;
        assert!(rt; is_free(&store, x, y));
        let mark = store.mark();
        let a = store.make(A, &[])?;
        let t = store.make(F, &[x, a])?;
        store.bind(y, a)?;
        assert!(rt; is_application(&store, x, A, &[]));
        assert!(rt; is_application(&store, t, F, &[x, a]));
        store.undo(mark);
        assert!(rt; is_free(&store, x, y));
        assert_eq!(rt; store.len(), 2);
        Ok(())
    }

    #[test]
    fn variables_bound_since_a_mark_are_listed(rt: HostRuntime) -> Result<(), Fail> {
        let mut store = Store::new(rt.alloc());
        let x = store.fresh_many(3)?;
        let z = store.cell_after(x, 2);
        let a = store.make(A, &[])?;
        store.bind(x, a)?;
        let mark = store.mark();
        store.bind(z, a)?;
        assert!(rt; store.bound_since(&mark) == [z].as_slice());
        assert_eq!(rt; store.end(z), a);
        assert_eq!(rt; z.number(), 2);
        assert_eq!(rt; store.len(), 4);
        Ok(())
    }

    // Binds the variable to a new one, that one to another, and so on; the last of them.
    fn lengthen(store: &mut Store, v: Addr, times: usize) -> Result<Addr, AllocError>
        requires { IsFree store.old v }
        ensures { length store.old.cells ≤ length store.new.cells }
    {
        let mut last = v;
        'links: for _ in 0..times {
            let next = store.fresh()?;
            store.bind(last, next)?;
            last = next;
        }
        Ok(last)
    }

    #[test]
    fn a_long_chain_is_followed(rt: HostRuntime) -> Result<(), Fail> {
        let mut store = Store::new(rt.alloc());
        let x = store.fresh()?;
        let last = lengthen(&mut store, x, 100_000)?;
        assert!(rt; is_free(&store, x, last));
        assert_eq!(rt; store.len(), 100_001);
        Ok(())
    }
}
