//! The laws of general tableaux: each is what a function without a body ensures.
ghost use Rattle.pm_tab.specs.Laws.{GeneralTableauxLabel, RegularityIsGeneral};
ghost use Rattle.pm_tab.specs.StepLaws.{LabelledStepsAreHopeful, NumberedTableauxAreGeneral, StepsGrowStores, NewPairsTell, AlternativesStayWithin};

/// The tableau of a machine's nodes, in which each free variable stands for itself, is a labelling
/// of what the steps built, of which each labelling is an instance.
pub fn general_tableaux_label()
    ensures { GeneralTableauxLabel }
{}

/// Some labelling has no literal twice on a branch exactly where the general one has none.
pub fn regularity_is_general()
    ensures { RegularityIsGeneral }
{}

/// A step whose result has a labelling is hopeful at sight: a reduction is with an ancestor of the
/// opposite sign and the same predicate, and an extension by a literal whose first four arguments
/// may match the leaf's by what they begin with.
pub fn labelled_steps_are_hopeful()
    ensures { LabelledStepsAreHopeful }
{}

/// Where a list of choices builds what a machine has built, the general tableau of the list is that
/// of the machine's nodes, its variables numbered by first occurrence.
pub fn numbered_tableaux_are_general()
    ensures { NumberedTableauxAreGeneral }
{}

/// A step only adds to the store.
pub fn steps_grow_stores()
    ensures { StepsGrowStores }
{}

/// The pairs that tell of the nodes before a step whether a branch has a literal twice, and those of
/// the new nodes with the branch above them, tell it of the nodes after the step.
pub fn new_pairs_tell()
    ensures { NewPairsTell }
{}

/// What an alternative after reached choices builds is within the level's bound, where a start is.
pub fn alternatives_stay_within()
    ensures { AlternativesStayWithin }
{}
