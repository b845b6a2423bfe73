//! What is true of all readings.
ghost use Rattle.pm_certread.specs.Laws.{CertificatesAreOverProblems, ReadingsAreDetermined};

/// An accepted certificate is over the problem. The root's clause and those of the inner nodes are
/// among the problem's clauses; each predicate, and each symbol of a term, is one of its symbols
/// with the right number of arguments; depths are from 1 to 250; there is a closer for each node in
/// pre-order, for a leaf a depth above its own and 0 for an inner node.
pub fn certificates_are_over_problems()
    ensures { CertificatesAreOverProblems }
{}

/// Bytes have one reading over a problem: one certificate, or one line that is refused for one
/// kind.
pub fn readings_are_determined()
    ensures { ReadingsAreDetermined }
{}
