//! What the lines of the texts tell.
ghost use Rattle.pm_report.specs.Lines.{LevelLinesDiffer, TextsSayWorks};

/// Two lines of exhausted levels are equal only where their levels and their numbers of attempts
/// are.
pub fn level_lines_differ()
    ensures { LevelLinesDiffer }
{}

/// The texts of runs without a proof have a line of an exhausted level exactly for each number of
/// attempts that they are made of.
pub fn texts_say_works()
    ensures { TextsSayWorks }
{}
