//! What is true of all clause files.
ghost use Rattle.pm_cnf.specs.Laws.{ProblemIsDetermined, OffenceIsDetermined, ReadProblemsAreValid, WrittenClausesReadBack};

/// Bytes are read as one problem at most.
pub fn problem_is_determined()
    ensures { ProblemIsDetermined }
{}

/// Bytes have one first offence at most.
pub fn offence_is_determined()
    ensures { OffenceIsDetermined }
{}

/// A problem that was read within the limits of [`Limits::standard`](crate::Limits::standard) is
/// valid: not too many clauses and literals, of symbols with printable texts.
pub fn read_problems_are_valid()
    ensures { ReadProblemsAreValid }
{}

/// The text that `write` gives for a problem that was read is read as the same problem, with the
/// same limits.
pub fn written_clauses_read_back()
    ensures { WrittenClausesReadBack }
{}
