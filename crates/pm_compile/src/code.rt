//! The code of a problem.
ghost use Rattle.std.specs.Prelude.{◌≡◌, ◌<◌, length};
ghost use Rattle.pm_compile.specs.Code.{body_at, extension_at, extensions_at, start_at};

use crate::instr::Instr;
use std::marker::Model;

// From where to where a part of a list goes: its first index, and the one after its last.
#[derive(Clone, Copy, Debug)]
pub(crate) struct Span {
    pub(crate) from: usize,
    pub(crate) to: usize,
}

// Where the code of a clause is: its body and its start among the instructions, and its
// extensions among the spans of extensions.
#[derive(Clone, Copy, Debug)]
pub(crate) struct ClauseSpans {
    pub(crate) body: Span,
    pub(crate) start: Span,
    pub(crate) extensions: Span,
}

/// The code of a problem's clauses, each by its index: seen as their bodies, starts and extensions.
#[derive(Drop)]
pub struct Code {
    // All instructions, one after another.
    instrs: Vec<Instr>,
    // For each literal of each clause the extension by it.
    extensions: Vec<Span>,
    clauses: Vec<ClauseSpans>,
}

impl Model for Code {
    ghost use Rattle.std.specs.Prelude.{List};
    ghost use Rattle.pm_compile.specs.Code.{ClauseCode};

    ghost Value = { List ClauseCode };

    ghost use Rattle.pm_compile.specs.Inside.Spans.{code_of, IsLaidOut};

    ghost view = { λ a. code_of a.instrs.items a.extensions.items a.clauses.items };

    ghost invariant = { λ a. IsLaidOut a.instrs.items a.extensions.items a.clauses.items };
}

impl Code {
    ghost use Rattle.pm_compile.specs.Inside.Spans.{code_of, IsLaidOut};

    // The code of these instructions, of which the spans are parts.
    pub(crate) fn new(instrs: Vec<Instr>, extensions: Vec<Span>, clauses: Vec<ClauseSpans>) -> Code
        requires { IsLaidOut instrs.items extensions.items clauses.items }
        ensures { result ≡ code_of instrs.items extensions.items clauses.items }
    {
        Code {
            instrs,
            extensions,
            clauses,
        }
    }

    /// The body of the clause of this index.
    pub fn body(&self, clause: u32) -> &[Instr]
        requires { clause < length self.now }
        ensures { result.now ≡ body_at self.now clause }
    {
        let spans = &self.clauses[clause as usize];
        &self.instrs[spans.body.from..spans.body.to]
    }

    /// The start with the clause of this index.
    pub fn start(&self, clause: u32) -> &[Instr]
        requires { clause < length self.now }
        ensures { result.now ≡ start_at self.now clause }
    {
        let spans = &self.clauses[clause as usize];
        &self.instrs[spans.start.from..spans.start.to]
    }

    /// The extension by the literal of this index of the clause of this index.
    pub fn extend(&self, clause: u32, literal: u16) -> &[Instr]
        requires clause { clause < length self.now }
        requires literal { literal < length (extensions_at self.now clause) }
        ensures { result.now ≡ extension_at self.now clause literal }
    {
        let spans = &self.clauses[clause as usize];
        let span = &self.extensions[spans.extensions.from + literal as usize];
        &self.instrs[span.from..span.to]
    }
}
