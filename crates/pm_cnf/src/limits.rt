//! Limits of clause files.
ghost use Rattle.std.specs.Prelude.{◌≡◌};

/// How much a file may hold.
#[derive(Clone, Copy, Debug, PartialEq, Eq)]
pub struct Limits {
    /// How many items a file may have.
    pub clauses: u32,
    /// How many literals an item may have as it is written.
    pub literals: u32,
    /// How many different variables an item may have, its annotations included.
    pub variables: u32,
    /// How many arguments a predicate or a function may take.
    pub arity: u32,
    /// How deeply terms may be nested: the arguments of a predicate have nesting 1.
    pub nesting: u32,
}

impl Limits {
    /// The limits of the program's clause files, which no other limits exceed.
    pub fn standard() -> Limits
        ensures { result ≡ record {
          clauses = 65536;
          literals = 255;
          variables = 1000;
          arity = 255;
          nesting = 1000;
        } }
    {
        Limits {
            clauses: 65_536,
            literals: 255,
            variables: 1_000,
            arity: 255,
            nesting: 1_000,
        }
    }
}
