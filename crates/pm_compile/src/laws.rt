//! The law of code: what a function without a body ensures.
ghost use Rattle.pm_compile.specs.Laws.{CodeFollowsScheme};

/// The code of a problem has for each clause the instructions of the scheme: its body, its start,
/// and the extension by each literal.
pub fn code_follows_scheme()
    ensures { CodeFollowsScheme }
{}
