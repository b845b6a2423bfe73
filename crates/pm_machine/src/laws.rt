//! The laws of the machine's steps: each is what a function without a body ensures.
ghost use Rattle.pm_machine.specs.Laws.{MachinesBegin, StepsBuild, FailedStepsLabelNothing, SelectedLeavesAgree, NoLeafIsSelected, SelectedLeavesHaveBranches, LeavesMayStep};

/// Before the first step there are no nodes.
pub fn machines_begin()
    ensures { MachinesBegin }
{}

/// After a step the solutions of the store are exactly the labellings of what the steps built.
pub fn steps_build()
    ensures { StepsBuild }
{}

/// Where a step fails, what it would build has no labelling.
pub fn failed_steps_label_nothing()
    ensures { FailedStepsLabelNothing }
{}

/// The first open leaf among the nodes is the selected leaf of the calculus.
pub fn selected_leaves_agree()
    ensures { SelectedLeavesAgree }
{}

/// Where no leaf is open, the calculus selects none.
pub fn no_leaf_is_selected()
    ensures { NoLeafIsSelected }
{}

/// A selected leaf has an ancestor at each depth above its own.
pub fn selected_leaves_have_branches()
    ensures { SelectedLeavesHaveBranches }
{}

/// What may be done at the selected leaf may be done at the skeleton.
pub fn leaves_may_step()
    ensures { LeavesMayStep }
{}
