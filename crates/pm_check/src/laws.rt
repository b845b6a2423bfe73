//! What is true of all verdicts.
ghost use Rattle.pm_check.specs.Laws.{MembersAreAccepted, VerdictsAreDetermined};

/// No certificate is both accepted and refused, and a certificate is refused at one line for one
/// kind: so `Checker::check` accepts exactly where its contract says, and refuses exactly where it
/// says.
pub fn verdicts_are_determined()
    ensures { VerdictsAreDetermined }
{}

/// Exactly that certificate is accepted whose tableau is in the class that the header names, has
/// the size that the header says, and has leaves that are closed by the ancestors that they name.
pub fn members_are_accepted()
    ensures { MembersAreAccepted }
{}
