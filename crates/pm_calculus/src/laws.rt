//! What the definitions of the calculus mean: each law is what a function without a body ensures.
ghost use Rattle.pm_calculus.specs.Laws.{PrefixesAreReached, ChoicesAreBelowWidths, CompleteListsEnd, CompleteListsGiveTableaux, TableauxFollowCompleteLists, ListsAndTableauxAgree, InstancesCompose, ClauseInstancesCompose, FilledInstances, InstancesLabel, RegularityReflects, ClosedTableauxAreRefuted, GeneralTableauxAreInClass, GeneralTableauxAreUnique, FollowedListsAreComplete, StatesAreBuilt, StepsMayBeTaken, StatesAgree, LabellingsFollow, LabellingsShowNodes, LeastListsAreFollowed, LeastListsAreUnique, GeneralTableauxAreOverSymbols, ComplementaryLiteralsDiffer};

/// Each prefix of a reached list of choices is reached.
pub fn prefixes_are_reached()
    ensures { PrefixesAreReached }
{}

/// Each number of a reached list is below the width of the list before it.
pub fn choices_are_below_widths()
    ensures { ChoicesAreBelowWidths }
{}

/// A complete list is reached, is not empty, and has no alternatives.
pub fn complete_lists_end()
    ensures { CompleteListsEnd }
{}

/// A labelling of what a complete list builds is in the class of the level, where it is as regular
/// as the class asks.
pub fn complete_lists_give_tableaux()
    ensures { CompleteListsGiveTableaux }
{}

/// The general tableau of a complete list is in the class of the level.
pub fn general_tableaux_are_in_class()
    ensures { GeneralTableauxAreInClass }
{}

/// A list of choices has one general tableau at most.
pub fn general_tableaux_are_unique()
    ensures { GeneralTableauxAreUnique }
{}

/// Each tableau of the class follows a list of choices that is complete at the level.
pub fn tableaux_follow_complete_lists()
    ensures { TableauxFollowCompleteLists }
{}

/// A list that a tableau of the class follows is complete at the level.
pub fn followed_lists_are_complete()
    ensures { FollowedListsAreComplete }
{}

/// A level has a complete list exactly where its class has a member: a level without one has an
/// empty class.
pub fn lists_and_tableaux_agree()
    ensures { ListsAndTableauxAgree }
{}

/// An instance of an instance of a tableau is an instance of it.
pub fn instances_compose()
    ensures { InstancesCompose }
{}

/// A term with a list's terms put for its variables, filled, is the term with the list's filled
/// terms put for its variables: where trees stand for variables of a store, it is an instance by a
/// list of trees.
pub fn filled_instances()
    ensures { FilledInstances }
{}

/// An instance of an instance of a clause is an instance of it, where the clause's variables are
/// its own.
pub fn clause_instances_compose()
    ensures { ClauseInstancesCompose }
{}

/// An instance of a labelling is a labelling, over a valid problem.
pub fn instances_label()
    ensures { InstancesLabel }
{}

/// Where an instance of a tableau has no literal twice on a branch, neither has the tableau.
pub fn regularity_reflects()
    ensures { RegularityReflects }
{}

/// Under every truth assignment, a closed tableau has a false clause instance among its families.
pub fn closed_tableaux_are_refuted()
    ensures { ClosedTableauxAreRefuted }
{}

/// What a list of choices builds is what its steps build.
pub fn states_are_built()
    ensures { StatesAreBuilt }
{}

/// Each step of a list of choices may be taken at what those before it build.
pub fn steps_may_be_taken()
    ensures { StepsMayBeTaken }
{}

/// What a list of choices builds has, node by node, the depths, faces and clauses of each of its
/// labellings.
pub fn labellings_show_nodes()
    ensures { LabellingsShowNodes }
{}

/// A list of choices builds the same at each level of a problem at which it builds anything.
pub fn states_agree()
    ensures { StatesAgree }
{}

/// Each labelling of what a complete list builds follows the list.
pub fn labellings_follow()
    ensures { LabellingsFollow }
{}

/// A tableau follows its least list of choices.
pub fn least_lists_are_followed()
    ensures { LeastListsAreFollowed }
{}

/// A tableau has one least list of choices at most.
pub fn least_lists_are_unique()
    ensures { LeastListsAreUnique }
{}

/// The general tableau of a list over a valid problem is over the problem's symbols.
pub fn general_tableaux_are_over_symbols()
    ensures { GeneralTableauxAreOverSymbols }
{}

/// Under every truth assignment exactly one of two complementary literals is true.
pub fn complementary_literals_differ()
    ensures { ComplementaryLiteralsDiffer }
{}
