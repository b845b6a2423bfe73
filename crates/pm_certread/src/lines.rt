//! The lines of a document, one after the other.
ghost use Rattle.std.specs.Prelude.{◌≡◌, ◌+◌, ◌<◌, ◌≤◌, ◌∷◌, ◌^◌, [], IfOk, IfErr, OnOk, length};
ghost use Rattle.pm_certread.specs.Lines.{cut_lines};
ghost use Rattle.pm_certread.specs.declared.error.CertError.TheVariants.{At};
ghost use Rattle.pm_certread.specs.declared.error.CertKind.TheVariants.{Syntax};
ghost use Rattle.pm_certread.specs.Inside.Cuts.{line_length};
ghost use Rattle.pm_certread.specs.Inside.Terms.{error_at};

use crate::error::{CertError, CertKind};
use crate::fault::Fault;

/// What is left of a document, and how many lines were taken from it.
#[derive(Drop)]
pub struct Lines<'a> {
    pub rest: &'a [u8],
    pub taken: u64,
    ghost small: { taken + length rest.now ≤ 2 ^ 32 },
}

impl<'a> Lines<'a> {
    /// The document, of which nothing was taken.
    pub fn new(rest: &'a [u8]) -> Lines<'a>
        requires { length rest.now ≤ 2 ^ 32 }
        ensures rest { result.rest.now ≡ rest.now }
        ensures taken { result.taken ≡ 0 }
    {
        Lines { rest, taken: 0 }
    }

    /// The next line, with its LF where it has one. A line that is missing is of wrong form.
    pub fn take(&mut self) -> Result<&'a [u8], CertError>
        ensures ok { IfOk result
            (λ raw. cut_lines self.old.rest.now ≡ raw.now ∷ cut_lines self.new.rest.now) }
        ensures taken { OnOk result (self.new.taken ≡ self.old.taken + 1) }
        ensures shorter { OnOk result (length self.new.rest.now < length self.old.rest.now) }
        ensures none { IfErr result (λ _. cut_lines self.old.rest.now ≡ []) }
        ensures err { IfErr result (λ error. error ≡ At (self.old.taken + 1) Syntax) }
    {
        if self.rest.is_empty() {
            return Err(CertError::At {
                line: self.taken + 1,
                kind: CertKind::Syntax,
            });
        }
        let (line, rest) = self.rest.split_at(line_length(self.rest));
        *self = Lines {
            rest,
            taken: self.taken + 1,
        };
        Ok(line)
    }

    /// The refusal of the line that was taken last.
    pub fn refusal(&self, kind: CertKind) -> CertError
        ensures { result ≡ At self.now.taken kind }
    {
        CertError::At {
            line: self.taken,
            kind,
        }
    }

    /// The error of a fault of the line that was taken last.
    pub fn error(&self, fault: Fault) -> CertError
        ensures { result ≡ error_at self.now.taken fault }
    {
        match fault {
            Fault::Kind(kind) => self.refusal(kind),
            Fault::Memory => CertError::Memory,
        }
    }

    /// How many lines are left.
    pub fn count(&self) -> u64
        ensures { result ≡ length (cut_lines self.now.rest.now) }
    {
        let mut rest = self.rest;
        let mut count = 0;
        'lines: while !rest.is_empty() {
            let (_, after) = rest.split_at(line_length(rest));
            rest = after;
            count += 1;
        }
        count
    }
}

// How many bytes the first line of a text has, with its LF.
fn line_length(text: &[u8]) -> usize
    ensures is { result ≡ line_length text.now }
    ensures within { result ≤ length text.now }
    ensures some { 0 < length text.now → 0 < result }
{
    for (i, byte) in text.iter().enumerate() {
        if *byte == b'\n' {
            return i + 1;
        }
    }
    text.len()
}
