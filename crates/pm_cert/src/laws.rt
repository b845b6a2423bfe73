//! What is true of written certificates.
ghost use Rattle.pm_cert.specs.Laws.{CertificatesReadBack, DocumentsAreDetermined, ProofsAreCertifiable};

/// A tableau has one certificate over symbols beside a report of its search.
pub fn documents_are_determined()
    ensures { DocumentsAreDetermined }
{}

/// What is written of a tableau reads as that tableau: one that is over a valid problem's symbols
/// and clauses, of depth at most 250, with its variables numbered by first occurrence in pre-order,
/// where all numbers are below 2^64. The certificate has the report's class, start rule and bound,
/// the tableau's size, its terms in the order of their lines, and the closers of its leaves.
pub fn certificates_read_back()
    ensures { CertificatesReadBack }
{}

/// A tableau in the class of a level can be certified: one that is over the symbols of the level's
/// valid problem, with its variables numbered by first occurrence in pre-order, where the level is
/// at most 250.
pub fn proofs_are_certifiable()
    ensures { ProofsAreCertifiable }
{}
