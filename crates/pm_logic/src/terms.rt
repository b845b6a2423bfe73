//! Terms in a table, each tree once.
ghost use Rattle.std.specs.Prelude.{◌≡◌, ◌↔◌, ◌<◌, ◌≤◌, ◌+◌, ◌^◌, ◌++◌, ◌∷◌, [], All, IfOk, IsTrue, OnErr, OnOk, length, map};
ghost use Rattle.pm_logic.specs.Lists.{AreDistinct};
ghost use Rattle.pm_logic.specs.Term.{var, app, as_terms, tree_at};
ghost use Rattle.pm_logic.specs.Table.{Adds, variable_count};
ghost use Rattle.pm_logic.specs.Inside.Interned.{Interns};
ghost use Rattle.pm_logic.specs.Row.{Shows};

use indexmap::IndexSet;
use std::alloc::{AllocError, Global};
use std::marker::Model;

/// A row of a table of terms.
#[derive(Clone, Copy, Debug, PartialEq, Eq, Hash)]
pub struct TermId(usize);

impl Model for TermId {
    ghost use Rattle.std.specs.Prelude.{ℕ};

    ghost Value = { ℕ };

    ghost view = { λ a. a.0 };

    ghost inverse = { λ n. record { 0 = n } };
}

impl TermId {
    /// The number of the row: how many terms of its table were added before it.
    pub fn row(&self) -> usize
        ensures { result ≡ self.now }
    {
        self.0
    }
}

// A term whose arguments are rows of the table.
#[derive(Debug, PartialEq, Eq, Hash, Drop)]
enum Entry {
    Var(usize),
    App(u32, Vec<TermId>),
}

/// A term as its table shows it: the number of a variable, or a symbol with the rows of its
/// arguments.
#[derive(Clone, Copy, Debug)]
pub enum Row<'a> {
    Var(usize),
    App { symbol: u32, args: &'a [TermId] },
}

/// Terms by rows, each tree once: seen as the list of its trees, pairwise different. Its variables
/// are numbered from 0 on.
#[derive(Drop)]
pub struct TermTable {
    alloc: Global,
    // The arguments of an entry are rows before its own.
    rows: IndexSet<Entry>,
    // How many of the rows are variables.
    vars: usize,
}

impl Model for TermTable {
    ghost use Rattle.std.specs.Prelude.{List};
    ghost use Rattle.std.specs.Coded.{coded_list};
    ghost use Rattle.pm_logic.specs.Term.{Term};
    ghost use Rattle.pm_logic.specs.TermCode.{term_code};

    ghost Value = { List Term };

    ghost coded = { coded_list term_code };

    ghost use Rattle.pm_logic.specs.Table.{trees, IsTable};

    ghost view = { λ a. trees a.rows.keys };

    ghost invariant = { λ a. IsTable a.rows.keys a.vars };
}

impl TermTable {
    /// A table with no terms.
    pub fn new(alloc: Global) -> TermTable
        ensures { result ≡ [] }
    {
        TermTable {
            alloc,
            rows: IndexSet::new(alloc),
            vars: 0,
        }
    }

    /// How many terms there are.
    pub fn len(&self) -> usize
        ensures count { result ≡ length self.now }
        ensures distinct { AreDistinct self.now }
    {
        self.rows.len()
    }

    /// The term of this number: rows are numbered from 0 on.
    pub fn id(&self, row: usize) -> TermId
        requires { row < length self.now }
        ensures { result ≡ row }
    {
        TermId(row)
    }

    /// Adds the next variable, numbered by how many variables there are, and gives its row: the
    /// last one. Where memory is wanting the table stays as it was.
    pub fn add_var(&mut self) -> Result<TermId, AllocError>
        ensures row { IfOk result (λ id. id ≡ length self.old) }
        ensures added { OnOk result (self.new ≡ self.old ++ var (variable_count self.old) ∷ []) }
        ensures count { OnOk result (length self.new ≡ length self.old + 1) }
        ensures err { OnErr result (self.new ≡ self.old) }
    {
        let last = intern(&mut self.rows, Entry::Var(self.vars))?;
        self.vars += 1;
        Ok(TermId(last))
    }

    /// The row of the symbol with these arguments, each a row of the table. A term that isn't there
    /// yet gets a new row, the last one. Where memory is wanting the table stays as it was.
    pub fn add_app(&mut self, symbol: u32, args: &[TermId]) -> Result<TermId, AllocError>
        requires { All (λ arg. arg < length self.old) args.now }
        ensures added { IfOk result (Adds self.old self.new
            (app symbol (as_terms (map (tree_at self.old) args.now)))) }
        ensures within { IfOk result (λ id. id < length self.new) }
        ensures count { OnOk result (length self.old ≤ length self.new) }
        ensures err { OnErr result (self.new ≡ self.old) }
    {
        let args = Vec::from_slice(self.alloc, args)?;
        let row = intern(&mut self.rows, Entry::App(symbol, args))?;
        Ok(TermId(row))
    }

    /// The term of this row. The rows of its arguments come before its own.
    pub fn look(&self, id: TermId) -> Row<'_>
        requires { id < length self.now }
        ensures { Shows self.now id result }
    {
        match &self.rows[id.0] {
            Entry::Var(number) => Row::Var(*number),
            Entry::App(symbol, args) => Row::App {
                symbol: *symbol,
                args,
            },
        }
    }

    /// Whether the terms of these rows are the same tree.
    pub fn equal(&self, a: TermId, b: TermId) -> bool
        requires left { a < length self.now }
        requires right { b < length self.now }
        ensures { IsTrue result ↔ (tree_at self.now a ≡ tree_at self.now b) }
    {
        // Equal rows are equal trees, by the invariant, which this opens for the proof.
        let _ = &self.rows;
        a == b
    }
}

// The row of the entry that is the same as this one, which becomes the last where there is none.
fn intern(rows: &mut IndexSet<Entry>, entry: Entry) -> Result<usize, AllocError>
    ensures ok { IfOk result (Interns rows.old.keys rows.new.keys entry) }
    ensures few { OnOk result (length rows.new.keys < 2 ^ 63) }
    ensures err { OnErr result (rows.new.keys ≡ rows.old.keys) }
{
    let (row, _) = rows.insert_full(entry)?;
    // The count is below 2^63, as the set's length tells.
    let _count = rows.len();
    Ok(row)
}

#[cfg(test)]
mod tests {
    use super::*;
    use std::test::Fail;

    #[test]
    fn a_new_table_is_empty(rt: HostRuntime) {
        assert_eq!(rt; TermTable::new(rt.alloc()).len(), 0);
    }

    #[test]
    fn equal_terms_have_equal_rows(rt: HostRuntime) -> Result<(), Fail> {
        let mut terms = TermTable::new(rt.alloc());
        let x = terms.add_var()?;
        let first = terms.add_app(3, &[x])?;
        let again = terms.add_app(3, &[x])?;
        assert_eq!(rt; first, again);
        assert!(rt; terms.equal(first, again));
        assert!(rt; !terms.equal(first, x));
        assert_eq!(rt; terms.len(), 2);
        Ok(())
    }

    #[test]
    fn other_terms_have_other_rows(rt: HostRuntime) -> Result<(), Fail> {
        let mut terms = TermTable::new(rt.alloc());
        let x = terms.add_var()?;
        let y = terms.add_var()?;
        let fx = terms.add_app(3, &[x])?;
        let gx = terms.add_app(4, &[x])?;
        let fxy = terms.add_app(3, &[x, y])?;
        assert!(rt; !terms.equal(x, y));
        assert!(rt; !terms.equal(fx, gx));
        assert!(rt; !terms.equal(fx, fxy));
        assert_eq!(rt; terms.len(), 5);
        Ok(())
    }

    #[test]
    fn shows_each_term(rt: HostRuntime) -> Result<(), Fail> {
        let mut terms = TermTable::new(rt.alloc());
        let x = terms.add_var()?;
        let a = terms.add_app(1, &[])?;
        let y = terms.add_var()?;
        let f = terms.add_app(2, &[y, a, y])?;
        assert!(rt; matches!(terms.look(x), Row::Var(0)));
        assert!(rt; matches!(terms.look(y), Row::Var(1)));
        assert!(rt;
            matches!(
                terms.look(a),
                Row::App {
                    symbol: 1,
                    args: []
                }
            )
        );
        match terms.look(f) {
            Row::Var(_) => assert!(rt; false),
            Row::App { symbol, args } => {
                assert_eq!(rt; symbol, 2);
                assert_eq!(rt; &[y, a, y][..], args);
            }
        }
        Ok(())
    }
}
