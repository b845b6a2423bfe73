//! The instructions that build the arguments of a literal.
ghost use Rattle.std.specs.Prelude.{◌≡◌, ◌++◌, All, OnOk, map};
ghost use Rattle.pm_logic.specs.Term.{as_terms, tree_at};
ghost use Rattle.pm_compile.specs.Scheme.{building_code_among};
ghost use Rattle.pm_compile.specs.Inside.Appended.{Appends};
ghost use Rattle.pm_compile.specs.Inside.Ground.{IsRowOver};
ghost use Rattle.pm_compile.specs.declared.building.Place.TheVariants.{Build};
ghost use Rattle.pm_compile.specs.Inside.Building.{BuildStep, IsPlaceOver, builds};

use crate::instr::Instr;
use crate::source::Source;
use pm_logic::{Row, TermId};
use std::alloc::AllocError;

// What is to be done next.
#[derive(Clone, Copy, Debug)]
enum Place {
    // Build the term of the row.
    Build(TermId),
    // The arguments of the symbol, so many, are built: make the application.
    Made(u32, u8),
}

// Appends the building code of the terms of these rows.
pub(crate) fn append_building(
    source: &Source,
    args: &[TermId],
    instrs: &mut Vec<Instr>,
) -> Result<(), AllocError>
    requires args { All (IsRowOver source.now.problem.now.symbols source.now.problem.now.terms)
        args.now }
    ensures { OnOk result (Appends source.now.problem.now.terms instrs.old.items instrs.new.items
        (building_code_among (as_terms (map (tree_at source.now.problem.now.terms) args.now)))) }
{
    let mut pending = Vec::new(source.alloc);
    push_builds(&mut pending, args)?;
    'places: while let Some(place) = pending.pop() {
        build(source, place, &mut pending, instrs)?;
    }
    Ok(())
}

// Does what is to be done at a place, which may give way to others.
fn build(
    source: &Source,
    place: Place,
    pending: &mut Vec<Place>,
    instrs: &mut Vec<Instr>,
) -> Result<(), AllocError>
    requires place { IsPlaceOver source.now.problem.now.symbols source.now.problem.now.terms place }
    ensures { OnOk result (BuildStep source.now.problem.now.symbols
        source.now.problem.now.terms place pending.old.items
        instrs.old.items pending.new.items instrs.new.items) }
{
    match place {
        Place::Build(row) => build_row(source, row, pending, instrs),
        Place::Made(f, n) => {
            instrs.push(Instr::Make { f, n })?;
            Ok(())
        }
    }
}

// Appends the instruction that pushes a ground term or a variable. Of any other term the arguments
// become pending, and after them the making.
fn build_row(
    source: &Source,
    row: TermId,
    pending: &mut Vec<Place>,
    instrs: &mut Vec<Instr>,
) -> Result<(), AllocError>
    requires row { IsRowOver source.now.problem.now.symbols source.now.problem.now.terms row }
    ensures { OnOk result (BuildStep source.now.problem.now.symbols
        source.now.problem.now.terms (Build row) pending.old.items
        instrs.old.items pending.new.items instrs.new.items) }
{
    if source.is_ground(row) {
        instrs.push(Instr::Constant { t: row })?;
        return Ok(());
    }
    match source.problem.terms().look(row) {
        Row::Var(x) => {
            instrs.push(Instr::Push { x: x as u32 })?;
            Ok(())
        }
        Row::App { symbol, args } => {
            let n = source.problem.symbols().arity(symbol);
            pending.push(Place::Made(symbol, n))?;
            push_builds(pending, args)?;
            Ok(())
        }
    }
}

// Rows that are to be built become pending, the first of them next.
fn push_builds(pending: &mut Vec<Place>, rows: &[TermId]) -> Result<(), AllocError>
    ensures { OnOk result (pending.new.items ≡ pending.old.items ++ builds rows.now) }
{
    'reversed: for &row in rows.iter().rev() {
        pending.push(Place::Build(row))?;
    }
    Ok(())
}
