//! The terms of cells, as rows of a table.
ghost use Rattle.std.specs.Prelude.{◌≡◌, ◌≢◌, ◌<◌, ◌≤◌, ◌++◌, ◌∷◌, [], ℕ, Some, None, All, IfOk, OnOk, OnErr, length, map, reverse, slice_get, slice_index_or};
ghost use Rattle.pm_logic.specs.Term.{Term, tree_at};
ghost use Rattle.pm_logic.specs.Table.{variable_count};
ghost use Rattle.pm_logic.specs.Filling.{fill, put};
ghost use Rattle.pm_store.specs.Equations.{Equations, IsFree};
ghost use Rattle.pm_store.specs.Solutions.{Solves};
ghost use Rattle.pm_store.specs.Trees.{tree};
ghost use Rattle.pm_store.specs.Sound.{IsSound};
ghost use Rattle.pm_store.specs.declared.resolver.Place.TheVariants.{Visit, Build};
ghost use Rattle.pm_store.specs.Resolved.{Resolved, nothing_resolved, row_of, with_variables, numbered, IsResolved, IsMore, AddsPartsOf};
ghost use Rattle.pm_store.specs.Inside.Pending.{visits, cell_of, IsReadyAt, Proceeds, AddsRowsOf, AddsPlacesOf};

use crate::store::{Addr, Cell, Store, stores_are_sound};
use indexmap::IndexMap;
use pm_logic::{TermId, TermTable};
use std::alloc::{AllocError, Global};
use std::marker::Model;

/// Gives the terms of cells of a store in which nothing changes, as rows of one table. It comes to
/// each cell once in all its calls. Seen as the row of each resolved cell, and the free variables
/// in the order of their numbers.
#[derive(Drop)]
pub struct Resolver {
    alloc: Global,
    // The row of each cell that was resolved.
    rows: IndexMap<Addr, TermId>,
    // The free variables, each at its number.
    free: Vec<Addr>,
}

impl Model for Resolver {
    ghost use Rattle.pm_store.specs.Resolved.{Resolved};

    ghost Value = { Resolved };

    ghost view = { λ a. record { rows = a.rows.entries; free = a.free.items } };
}

// What is to be done next about a cell.
#[derive(Clone, Copy, Debug)]
enum Place {
    // Find its row, unless it has one.
    Visit(Addr),
    // Its arguments have their rows: give it its own.
    Build(Addr),
}

impl Resolver {
    /// A resolver that has resolved no cell. It may be used with any store, and any table without
    /// variables.
    pub fn new(alloc: Global) -> Resolver
        ensures value { result ≡ nothing_resolved }
        ensures any { (s : Equations) (table : _) → variable_count table ≡ 0
            → IsResolved s result table }
    {
        Resolver {
            alloc,
            rows: IndexMap::new(alloc),
            free: Vec::new(alloc),
        }
    }

    /// Gives the row of the term of a cell, in which each free variable has its number: they are
    /// numbered by first occurrence, on from the calls before. These were with the same store, in
    /// which nothing has changed, and the same table, whose variables they have added. After want
    /// of memory the table may hold further rows, and all else is as before.
    pub fn resolve(
        &mut self,
        store: &Store,
        a: Addr,
        into: &mut TermTable,
    ) -> Result<TermId, AllocError>
        requires within { a < length store.now.cells }
        requires resolved { IsResolved store.now self.old into.old }
        ensures row { IfOk result (λ row. slice_get into.new row
            ≡ Some (fill (numbered self.new.free) (tree store.now a))) }
        ensures order { OnOk result (self.new.free
            ≡ with_variables self.old.free (tree store.now a)) }
        ensures resolved { OnOk result (IsResolved store.now self.new into.new) }
        ensures general { IfOk result (λ row. (trees : ℕ → Term) → Solves store.now trees → trees a
            ≡ put (map trees self.new.free) (tree_at into.new row)) }
        ensures noted { IfOk result (λ row. row_of self.new a ≡ Some row) }
        ensures kept { (cell row : ℕ) → row_of self.old cell ≡ Some row
            → row_of self.new cell ≡ Some row }
        ensures later { IsMore self.old into.old self.new into.new }
        ensures added { OnOk result (AddsPartsOf (fill (numbered self.new.free) (tree store.now a))
            into.old into.new) }
        ensures err { OnErr result (self.new ≡ self.old) }
    {
        stores_are_sound(store);
        let resolved = self.rows.len();
        let numbered = self.free.len();
        let row = self.visit_all(store, a, into);
        if row.is_err() {
            self.rows.truncate(resolved);
            self.free.truncate(numbered);
        }
        row
    }

    // The row of the cell's term.
    fn visit_all(
        &mut self,
        store: &Store,
        a: Addr,
        into: &mut TermTable,
    ) -> Result<TermId, AllocError>
        requires within { a < length store.now.cells }
        requires resolved { IsResolved store.now self.old into.old }
        ensures row { IfOk result (λ row. row_of self.new a ≡ Some row) }
        ensures order { OnOk result (self.new.free
            ≡ with_variables self.old.free (tree store.now a)) }
        ensures resolved { OnOk result (IsResolved store.now self.new into.new) }
        ensures more { IsMore self.old into.old self.new into.new }
        ensures added { OnOk result (AddsPartsOf (fill (numbered self.new.free) (tree store.now a))
            into.old into.new) }
    {
        let mut pending = Vec::new(self.alloc);
        pending.push(Place::Visit(a))?;
        'places: while let Some(place) = pending.pop() {
            self.proceed(store, place, into, &mut pending)?;
        }
        Ok(self.row(a))
    }

    // Does what is to be done at a place, which may give way to others.
    fn proceed(
        &mut self,
        store: &Store,
        place: Place,
        into: &mut TermTable,
        pending: &mut Vec<Place>,
    ) -> Result<(), AllocError>
        requires resolved { IsResolved store.now self.old into.old }
        requires ready { IsReadyAt store.now self.old place [] }
        ensures ok { OnOk result (Proceeds store.now place self.old into.old pending.old.items
            self.new into.new pending.new.items) }
        ensures more { IsMore self.old into.old self.new into.new }
        ensures rows { OnOk result (AddsRowsOf store.now (cell_of place) into.old
            self.new into.new) }
        ensures places { OnOk result (AddsPlacesOf store.now (cell_of place) pending.old.items
            pending.new.items) }
    {
        match place {
            Place::Visit(cell) => self.visit(store, cell, into, pending),
            Place::Build(cell) => self.build(store, cell, into),
        }
    }

    // Gives a cell a row.
    fn note(&mut self, cell: Addr, row: TermId) -> Result<(), AllocError>
        requires { row_of self.old cell ≡ None }
        ensures ok { OnOk result (self.new ≡ record {
          rows = self.old.rows
              ++ (cell, row) ∷ [];
          free = self.old.free;
        }) }
        ensures err { OnErr result (self.new ≡ self.old) }
    {
        self.rows.insert(cell, row)?;
        Ok(())
    }

    // The row of a cell, if it was resolved.
    fn find(&self, cell: Addr) -> Option<TermId>
        ensures { result ≡ row_of self.now cell }
    {
        self.rows.get(&cell).copied()
    }

    // The row of a cell that was resolved.
    fn row(&self, cell: Addr) -> TermId
        requires { row_of self.now cell ≢ None }
        ensures { row_of self.now cell ≡ Some result }
    {
        match self.find(cell) {
            Some(row) => row,
            None => unreachable!(),
        }
    }

    // Finds the row of a cell, unless it has one: that of the free variable that it stands for, or,
    // for an application, once its arguments have theirs.
    fn visit(
        &mut self,
        store: &Store,
        cell: Addr,
        into: &mut TermTable,
        pending: &mut Vec<Place>,
    ) -> Result<(), AllocError>
        requires within { cell < length store.now.cells }
        requires resolved { IsResolved store.now self.old into.old }
        ensures ok { OnOk result (Proceeds store.now (Visit cell)
            self.old into.old pending.old.items self.new into.new pending.new.items) }
        ensures more { IsMore self.old into.old self.new into.new }
        ensures rows { OnOk result (AddsRowsOf store.now cell into.old self.new into.new) }
        ensures places { OnOk result (AddsPlacesOf store.now cell pending.old.items
            pending.new.items) }
    {
        if self.find(cell).is_some() {
            return Ok(());
        }
        match store.look(cell) {
            Cell::Free(v) => {
                let row = self.variable(store, v, into)?;
                if cell != v {
                    self.note(cell, row)?;
                }
                Ok(())
            }
            Cell::App { args, .. } => {
                pending.push(Place::Build(cell))?;
                push_visits(pending, args)
            }
        }
    }

    // The row of a free variable, which gets the next number if it has none.
    fn variable(
        &mut self,
        store: &Store,
        v: Addr,
        into: &mut TermTable,
    ) -> Result<TermId, AllocError>
        requires sound { IsSound store.now }
        requires free { IsFree store.now v }
        requires resolved { IsResolved store.now self.old into.old }
        ensures row { IfOk result (λ row. row_of self.new v ≡ Some row) }
        ensures others { OnOk result ((cell : ℕ) → cell ≢ v
            → row_of self.new cell ≡ row_of self.old cell) }
        ensures order { OnOk result (self.new.free
            ≡ with_variables self.old.free (tree store.now v)) }
        ensures resolved { OnOk result (IsResolved store.now self.new into.new) }
        ensures more { IsMore self.old into.old self.new into.new }
        ensures rows { OnOk result (AddsRowsOf store.now v into.old self.new into.new) }
    {
        if let Some(row) = self.find(v) {
            return Ok(row);
        }
        let row = into.add_var()?;
        self.free.push(v)?;
        self.note(v, row)?;
        Ok(row)
    }

    // Gives an application its row, over those of its arguments, unless it has one.
    fn build(&mut self, store: &Store, cell: Addr, into: &mut TermTable) -> Result<(), AllocError>
        requires resolved { IsResolved store.now self.old into.old }
        requires ready { IsReadyAt store.now self.old (Build cell) [] }
        ensures ok { OnOk result ((pending : _)
            → Proceeds store.now (Build cell) self.old into.old pending self.new into.new pending) }
        ensures more { IsMore self.old into.old self.new into.new }
        ensures rows { OnOk result (AddsRowsOf store.now cell into.old self.new into.new) }
    {
        if self.find(cell).is_some() {
            return Ok(());
        }
        if let Cell::App { symbol, args } = store.look(cell) {
            let rows = self.rows_of(args)?;
            let row = into.add_app(symbol, &rows)?;
            self.note(cell, row)?;
        }
        Ok(())
    }

    // The rows of cells that were resolved.
    fn rows_of(&self, cells: &[Addr]) -> Result<Vec<TermId>, AllocError>
        requires { All (λ cell. row_of self.now cell ≢ None) cells.now }
        ensures { IfOk result (λ rows. map Some rows.items ≡ map (row_of self.now) cells.now) }
    {
        let mut rows = Vec::new(self.alloc);
        'cells: for &cell in cells.iter() {
            rows.push(self.row(cell))?;
        }
        Ok(rows)
    }
}

// Adds the cells to what is pending, the first of them to be visited next.
fn push_visits(pending: &mut Vec<Place>, cells: &[Addr]) -> Result<(), AllocError>
    ensures { OnOk result (pending.new.items ≡ pending.old.items ++ visits cells.now) }
{
    'cells: for &cell in cells.iter().rev() {
        pending.push(Place::Visit(cell))?;
    }
    Ok(())
}

#[cfg(test)]
mod tests {
    use super::*;
    use pm_logic::Row;
    use std::test::Fail;

    // The symbols a, f and g.
    const A: u32 = 0;

    const F: u32 = 1;

    const G: u32 = 2;

    fn is_variable(table: &TermTable, id: TermId, number: usize) -> bool
        requires { id < length table.now }
    {
        match table.look(id) {
            Row::Var(n) => n == number,
            Row::App { .. } => false,
        }
    }

    fn is_application(table: &TermTable, id: TermId, symbol: u32, args: &[TermId]) -> bool
        requires { id < length table.now }
    {
        match table.look(id) {
            Row::Var(_) => false,
            Row::App {
                symbol: f,
                args: shown,
            } => f == symbol && shown == args,
        }
    }

    // f(Z, g(X), Z) with X bound to Y: the numbers go by occurrence, and not by address.
    #[test]
    fn variables_are_numbered_by_first_occurrence(rt: HostRuntime) -> Result<(), Fail> {
        let mut store = Store::new(rt.alloc());
        let x = store.fresh()?;
        let y = store.fresh()?;
        let z = store.fresh()?;
        store.bind(x, y)?;
        let g_x = store.make(G, &[x])?;
        let t = store.make(F, &[z, g_x, z])?;
        let mut table = TermTable::new(rt.alloc());
        let mut resolver = Resolver::new(rt.alloc());
        let t = resolver.resolve(&store, t, &mut table)?;
        let z = resolver.resolve(&store, z, &mut table)?;
        let y = resolver.resolve(&store, y, &mut table)?;
        let g_y = resolver.resolve(&store, g_x, &mut table)?;
        assert!(rt; is_variable(&table, z, 0));
        assert!(rt; is_variable(&table, y, 1));
        assert!(rt; is_application(&table, g_y, G, &[y]));
        assert!(rt; is_application(&table, t, F, &[z, g_y, z]));
        assert_eq!(rt; table.len(), 4);
        Ok(())
    }

    #[test]
    fn a_variable_has_one_number_in_two_calls(rt: HostRuntime) -> Result<(), Fail> {
        let mut store = Store::new(rt.alloc());
        let a = store.make(A, &[])?;
        let x = store.fresh()?;
        let y = store.fresh()?;
        let f_y_a = store.make(F, &[y, a])?;
        let f_x_y = store.make(F, &[x, y])?;
        let mut table = TermTable::new(rt.alloc());
        let mut resolver = Resolver::new(rt.alloc());
        let first = resolver.resolve(&store, f_y_a, &mut table)?;
        let second = resolver.resolve(&store, f_x_y, &mut table)?;
        let x = resolver.resolve(&store, x, &mut table)?;
        let y = resolver.resolve(&store, y, &mut table)?;
        let a = resolver.resolve(&store, a, &mut table)?;
        assert!(rt; is_variable(&table, y, 0));
        assert!(rt; is_variable(&table, x, 1));
        assert!(rt; is_application(&table, first, F, &[y, a]));
        assert!(rt; is_application(&table, second, F, &[x, y]));
        assert_eq!(rt; table.len(), 5);
        Ok(())
    }

    // A term with 2^28 leaves has 29 rows.
    #[test]
    fn shared_terms_stay_shared(rt: HostRuntime) -> Result<(), Fail> {
        let mut store = Store::new(rt.alloc());
        let mut top = store.fresh()?;
        'doublings: for _ in 0..28 {
            top = store.make(G, &[top, top])?;
        }
        let mut table = TermTable::new(rt.alloc());
        let mut resolver = Resolver::new(rt.alloc());
        resolver.resolve(&store, top, &mut table)?;
        assert_eq!(rt; table.len(), 29);
        Ok(())
    }
}
