//! The instructions that meet the arguments of a literal in a head.
ghost use Rattle.std.specs.Prelude.{◌≡◌, ◌≤◌, ◌<◌, ◌^◌, ◌∷◌, ◌++◌, [], All, IfOk, List, OnOk, ℕ, length, map, reverse};
ghost use Rattle.pm_logic.specs.Term.{Term, as_terms, tree_at};
ghost use Rattle.pm_compile.specs.Instructions.{HasRowBelow, instruction_of};
ghost use Rattle.pm_compile.specs.Scheme.{head_code_among, occurrence};
ghost use Rattle.pm_compile.specs.Inside.Appended.{Appends};
ghost use Rattle.pm_compile.specs.Inside.Ground.{IsRowOver};
ghost use Rattle.pm_compile.specs.Inside.Heads.{HasSeen, HeadStep, IsReadyFor, KeepsRows};

use crate::instr::Instr;
use crate::source::Source;
use pm_logic::{Row, TermId};
use std::alloc::{AllocError, Global};

// Which variables have occurred in the head that is being compiled.
#[derive(Drop)]
pub(crate) struct Seen {
    // For each variable the head in which it occurred last. A head goes by the place of its first
    // instruction, and 0 is none.
    heads: Vec<usize>,
    // The head that is being compiled.
    head: usize,
}

impl Seen {
    // No head yet, for a table of so many terms.
    pub(crate) fn new(alloc: Global, terms: usize) -> Result<Seen, AllocError>
        ensures { (table : List Term) → length table ≡ terms → IfOk result (IsReadyFor table 1) }
    {
        let heads = vec![in alloc; 0; terms]?;
        Ok(Seen { heads, head: 0 })
    }

    // Begins the head of this place, which is later than those before.
    pub(crate) fn begin(&mut self, head: usize)
        requires some { 0 < head }
        requires before { All (λ h. h < head) self.old.heads.items }
        ensures seen { HasSeen self.new [] }
        ensures head { self.new.head ≡ head }
        ensures heads { self.new.heads.items ≡ self.old.heads.items }
    {
        self.head = head;
    }

    // The instruction of the next occurrence of a variable.
    fn occur(&mut self, x: usize) -> Instr
        requires within { x < length self.old.heads.items }
        requires short { x < 2 ^ 32 }
        ensures head { self.new.head ≡ self.old.head }
        ensures count { length self.new.heads.items ≡ length self.old.heads.items }
        ensures row { (count : ℕ) → HasRowBelow count result }
        ensures instr { (terms : List Term) (before : List ℕ) → HasSeen self.old before
            → instruction_of terms result ≡ occurrence before x }
        ensures seen { (before : List ℕ) → HasSeen self.old before
            → HasSeen self.new (before ++ x ∷ []) }
    {
        if self.heads[x] == self.head {
            return Instr::Again { x: x as u32 };
        }
        self.heads[x] = self.head;
        Instr::First { x: x as u32 }
    }
}

// Appends the head code of the terms of these rows. Each walk over the terms begins with the
// first row, and goes on with the arguments of a term before the next row.
pub(crate) fn append_head(
    source: &Source,
    args: &[TermId],
    seen: &mut Seen,
    instrs: &mut Vec<Instr>,
) -> Result<(), AllocError>
    requires args { All (IsRowOver source.now.problem.now.symbols source.now.problem.now.terms)
        args.now }
    requires count { length source.now.problem.now.terms ≤ length seen.old.heads.items }
    requires seen { HasSeen seen.old [] }
    ensures code { OnOk result (Appends source.now.problem.now.terms instrs.old.items
        instrs.new.items
        (head_code_among [] (as_terms (map (tree_at source.now.problem.now.terms) args.now)))) }
    ensures past { OnOk result (All (λ h. h ≤ seen.old.head) seen.new.heads.items) }
    ensures count { OnOk result (length seen.new.heads.items ≡ length seen.old.heads.items) }
{
    let mut pending = Vec::new(source.alloc);
    push_rows(&mut pending, args)?;
    'rows: while let Some(row) = pending.pop() {
        meet(source, row, seen, &mut pending, instrs)?;
    }
    Ok(())
}

// Appends the instruction that meets the term of a row, whose arguments become pending where it
// goes on with them.
fn meet(
    source: &Source,
    row: TermId,
    seen: &mut Seen,
    pending: &mut Vec<TermId>,
    instrs: &mut Vec<Instr>,
) -> Result<(), AllocError>
    requires row { IsRowOver source.now.problem.now.symbols source.now.problem.now.terms row }
    requires count { length source.now.problem.now.terms ≤ length seen.old.heads.items }
    ensures step { OnOk result (HeadStep source.now.problem.now.terms seen.old row pending.old.items
        instrs.old.items seen.new pending.new.items instrs.new.items) }
    ensures rows { OnOk result (KeepsRows source.now.problem.now.symbols
        source.now.problem.now.terms pending.old.items pending.new.items) }
{
    if source.is_ground(row) {
        instrs.push(Instr::Ground { t: row })?;
        return Ok(());
    }
    match source.problem.terms().look(row) {
        Row::Var(x) => {
            instrs.push(seen.occur(x))?;
            Ok(())
        }
        Row::App { symbol, args } => {
            let n = source.problem.symbols().arity(symbol);
            instrs.push(Instr::Meet { f: symbol, n })?;
            push_rows(pending, args)?;
            Ok(())
        }
    }
}

// Rows that become pending, the first of them next.
fn push_rows(pending: &mut Vec<TermId>, rows: &[TermId]) -> Result<(), AllocError>
    ensures { OnOk result (pending.new.items ≡ pending.old.items ++ reverse rows.now) }
{
    'reversed: for &row in rows.iter().rev() {
        pending.push(row)?;
    }
    Ok(())
}
