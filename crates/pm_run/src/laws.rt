//! The laws of runs: each is what a function without a body ensures.
ghost use Rattle.pm_run.specs.Laws.{HeadsPop, BuildingPushes, GoalsAppend, BodiesAppend, StartsAppend, ExtensionsPopAndAppend, RunsCompose, RunsShowWants, RunsStayInStores, WantsAreReached, FailuresExclude, StepsBeginInStores, StartsAreSteps, StartsNeverFail, ExtensionsAreSteps, ExtensionsFail, ReductionsAreSteps, ReductionsFail, GroundCellsLast};

/// Over trees, the head code of a term wants the term on top of the stack, with the trees of its
/// variables in their place, and pops it.
pub fn heads_pop()
    ensures { HeadsPop }
{}

/// Over trees, the building code of a term pushes the term with the trees of its variables in their
/// place.
pub fn building_pushes()
    ensures { BuildingPushes }
{}

/// Over trees, the code of a goal appends a child that has the literal with the trees of its
/// variables in their place.
pub fn goals_append()
    ensures { GoalsAppend }
{}

/// Over trees, the code of a body appends such a child for each literal of the clause.
pub fn bodies_append()
    ensures { BodiesAppend }
{}

/// Over trees, the code of a start appends such a child for each literal of the clause.
pub fn starts_append()
    ensures { StartsAppend }
{}

/// Over trees, the code of an extension wants the literal's arguments on the stack, with the trees
/// of its variables in their place, appends a child for each literal of the clause, and closes the
/// one at the literal's place.
pub fn extensions_pop_and_append()
    ensures { ExtensionsPopAndAppend }
{}

/// A run of two parts of code is a run of the one and then a run of the other.
pub fn runs_compose()
    ensures { RunsCompose }
{}

/// A solution of the store after a run solves the store before it, and over its trees the code
/// leads from the state before to the state after.
pub fn runs_show_wants()
    ensures { RunsShowWants }
{}

/// A run keeps the store sound, and each address one of its cells; the store after the run is later
/// than the store before it, and the branch is the same.
pub fn runs_stay_in_stores()
    ensures { RunsStayInStores }
{}

/// A solution of the store before a run that meets what the code wants goes on to a solution of the
/// store after it, with the same trees for the cells that were there.
pub fn wants_are_reached()
    ensures { WantsAreReached }
{}

/// Where a run of the code comes to an instruction that can't be done, no solution of the store
/// before it meets what the code wants.
pub fn failures_exclude()
    ensures { FailuresExclude }
{}

/// Before a step over a sound store all is in the store, if the cells of the stack and of the
/// branch are.
pub fn steps_begin_in_stores()
    ensures { StepsBeginInStores }
{}

/// The run of a start's code: each solution of the store after it is one before it, each one before
/// goes on to one after, and the children are the literals of the clause with trees for its
/// variables.
pub fn starts_are_steps()
    ensures { StartsAreSteps }
{}

/// No run of a start's code fails.
pub fn starts_never_fail()
    ensures { StartsNeverFail }
{}

/// The run of an extension's code: each solution of the store after it is one before it in which
/// the leaf's arguments are the literal's with trees for the variables, each such one before goes
/// on to one after, and the children are the literals of the clause with these trees, of which the
/// literal's own is closed.
pub fn extensions_are_steps()
    ensures { ExtensionsAreSteps }
{}

/// Where a run of an extension's code fails, the leaf's arguments are the literal's in no solution
/// of the store, with no trees for the variables.
pub fn extensions_fail()
    ensures { ExtensionsFail }
{}

/// The run of a reduction's code: the solutions of the store after it are those before it in which
/// the leaf and the ancestor have opposite signs, the same predicate and the same arguments.
pub fn reductions_are_steps()
    ensures { ReductionsAreSteps }
{}

/// Where a run of a reduction's code fails, the leaf and the ancestor are opposite in no solution
/// of the store.
pub fn reductions_fail()
    ensures { ReductionsFail }
{}

/// The cells of ground terms stay such while the store grows.
pub fn ground_cells_last()
    ensures { GroundCellsLast }
{}
