//! Items as they are written.
ghost use Rattle.std.specs.Prelude.{◌≡◌};
ghost use Rattle.pm_cnf.specs.Inside.Parsed.{node_of};
ghost use Rattle.pm_cnf.specs.Inside.Draft.{with_arity};

/// A word of an atom or a term.
#[derive(Clone, Copy, Debug, PartialEq, Eq)]
pub enum Word<'a> {
    Bare(&'a str),
    /// What stands between the marks of a quoted word, as it is written.
    Quoted(&'a str),
}

#[derive(Clone, Copy, Debug, PartialEq, Eq)]
pub enum Name<'a> {
    Word(Word<'a>),
    Integer(&'a str),
}

/// A part of an item's literals. The parts of an atom or a term are its symbol and then the parts
/// of its arguments, from left to right.
#[derive(Clone, Copy, Debug, PartialEq, Eq)]
pub enum Node<'a> {
    /// A literal's sign and predicate, and how many arguments it has.
    Predicate {
        positive: bool,
        word: Word<'a>,
        arity: u8,
    },
    /// A literal `$true` or `$false`, by its sign and which of them it is.
    Constant {
        positive: bool,
        value: bool,
    },
    /// A function, and how many arguments it has.
    Function {
        word: Word<'a>,
        arity: u8,
    },
    Variable(&'a str),
}

/// An item: its name, its role, and the parts of its literals in their order.
#[derive(Debug, Drop)]
pub struct Item<'a> {
    pub name: Name<'a>,
    pub role: &'a str,
    pub nodes: Vec<Node<'a>>,
}

impl Node<'_> {
    /// Says how many arguments the symbol of the node has.
    pub fn set_arity(&mut self, arguments: u8)
        ensures { node_of self.new ≡ with_arity arguments (node_of self.old) }
    {
        match self {
            Node::Predicate { arity, .. } => *arity = arguments,
            Node::Function { arity, .. } => *arity = arguments,
            Node::Constant { .. } | Node::Variable(_) => {}
        }
    }
}
