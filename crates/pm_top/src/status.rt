//! How a run ends.
ghost use Rattle.std.specs.Prelude.{◌≡◌};
ghost use Rattle.pm_top.specs.Status.{code_of, line_of};

/// How a run of the program ends.
#[derive(Clone, Copy, Debug, PartialEq, Eq)]
pub enum Status {
    /// A proof was printed, a certificate accepted, or a listing printed.
    Done,
    /// No level up to the depth option has a proof.
    DepthReached,
    /// A level needs more attempts than the budget.
    Budget,
    /// The clause file was refused, or a file is over its limit.
    BadInput,
    /// The certificate was refused.
    CertRefused,
    /// The words are no job.
    BadWords,
    /// A file is missing.
    Missing,
    /// The library failed.
    ReadFault,
    /// The sink failed.
    WriteFault,
    /// Memory ran out.
    NoMemory,
}

impl Status {
    /// The exit status of the program.
    pub fn code(&self) -> u8
        ensures { result ≡ code_of self.now }
    {
        match self {
            Status::Done => 0,
            Status::DepthReached => 10,
            Status::Budget => 11,
            Status::BadInput => 20,
            Status::CertRefused => 21,
            Status::BadWords => 22,
            Status::Missing => 30,
            Status::ReadFault => 31,
            Status::WriteFault => 32,
            Status::NoMemory => 33,
        }
    }

    /// The line on standard error for a fault of the outside or want of memory; empty for every
    /// other status.
    pub fn line(&self) -> &str
        ensures { result.now ≡ line_of self.now }
    {
        match self {
            Status::Missing => "parmel: missing file",
            Status::ReadFault => "parmel: read fault",
            Status::WriteFault => "parmel: write fault",
            Status::NoMemory => "parmel: out of memory",
            _ => "",
        }
    }
}
