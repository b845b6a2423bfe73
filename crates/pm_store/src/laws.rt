//! The laws of solutions and of marks: each is what a function without a body ensures.
ghost use Rattle.pm_store.specs.Laws.{TreesSolve, TreesAreGeneral, OtherCellsAreOpen, LaterSolutions, FreeVariablesStand, TreesAreOfFreeVariables, LaterTrees, BindingsNarrow, BoundVariablesStay, CyclesHaveNoSolution, ResolvedTermsSolve, ResolvedTermsAreGeneral, NumberedByFirstOccurrence, GrowthIsLater, LaterIsTransitive, MarksLast, MarksRestore, MarksKeep, MarksNest, BoundSinceTells};

/// A store has a solution: the trees of its cells, in which each free variable stands for itself.
pub fn trees_solve()
    ensures { TreesSolve }
{}

/// Every solution of a store is an instance of the trees of its cells.
pub fn trees_are_general()
    ensures { TreesAreGeneral }
{}

/// A solution of a store stays one with any tree for a cell that the store hasn't.
pub fn other_cells_are_open()
    ensures { OtherCellsAreOpen }
{}

/// What solves a store that has grown solves it as it was.
pub fn later_solutions_solve()
    ensures { LaterSolutions }
{}

/// A free variable has itself for its tree.
pub fn free_variables_stand()
    ensures { FreeVariablesStand }
{}

/// The variables in the tree of a cell are free.
pub fn trees_are_of_free_variables()
    ensures { TreesAreOfFreeVariables }
{}

/// In a store that has grown, each cell has the tree that it had, with the new trees in the place
/// of its variables.
pub fn later_trees_are_filled()
    ensures { LaterTrees }
{}

/// The solutions of a store with one more binding are those without it that make both cells equal.
pub fn bindings_narrow()
    ensures { BindingsNarrow }
{}

/// A variable that was bound isn't free, nor is it when the store has grown.
pub fn bound_variables_stay()
    ensures { BoundVariablesStay }
{}

/// No solution gives a variable the tree of another term in which it occurs.
pub fn cycles_have_no_solution()
    ensures { CyclesHaveNoSolution }
{}

/// The terms that one resolver has given for cells of a store are those of these cells in one
/// solution, in which each free variable has the variable of its number.
pub fn resolved_terms_solve()
    ensures { ResolvedTermsSolve }
{}

/// In every solution of a store the trees of these cells are instances of them, by the trees that
/// the solution has for the free variables.
pub fn resolved_terms_are_general()
    ensures { ResolvedTermsAreGeneral }
{}

/// A resolver that resolves terms one after the other numbers their new variables by first
/// occurrence.
pub fn numbered_by_first_occurrence()
    ensures { NumberedByFirstOccurrence }
{}

/// A store with one more cell or binding is later than it was.
pub fn growth_is_later()
    ensures { GrowthIsLater }
{}

/// A store that is later than one that is later than a third is later than that.
pub fn later_is_transitive()
    ensures { LaterIsTransitive }
{}

/// A store that has grown has the marks that it had.
pub fn marks_last()
    ensures { MarksLast }
{}

/// A store that has grown is at its mark as it was then.
pub fn marks_restore()
    ensures { MarksRestore }
{}

/// A store that has grown is at each mark as it was there before.
pub fn marks_keep()
    ensures { MarksKeep }
{}

/// A store at a mark has the earlier marks still, and is at each as it was.
pub fn marks_nest()
    ensures { MarksNest }
{}

/// Of the variables that were free at a mark, those that were bound since are no longer free.
pub fn bound_since_tells()
    ensures { BoundSinceTells }
{}
