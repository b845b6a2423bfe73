//! The problem of items: variables, symbols and terms by their numbers.
ghost use Rattle.std.specs.Prelude.{◌≡◌, ◌<◌, ◌≤◌, ◌-◌, ◌^◌, ◌+◌, ◌∷◌, [], not, List, length, All, Some, slice_get, IfOk, OnOk, map};
ghost use Rattle.std.specs.List.{prefix_len, list_all, flat_map};
ghost use Rattle.pm_logic.specs.Problem.{Numbers, IsPrintable};
ghost use Rattle.pm_logic.specs.Term.{var, tree_at, as_terms};
ghost use Rattle.pm_logic.specs.Table.{variable_count};
ghost use Rattle.pm_logic.specs.View as view;
ghost use Rattle.pm_logic.specs.Lists.{Gathers};
ghost use Rattle.pm_cnf.specs.Inside.Readable.{AreReadable, HasPrintableName};
ghost use Rattle.pm_cnf.specs.Inside.Parsed.{item_of, word_of, name_of, node_of};
ghost use Rattle.pm_cnf.specs.Grammar as grammar;
ghost use Rattle.pm_cnf.specs.Inside.Draft.{written, literal_nodes, arguments_nodes};
ghost use Rattle.pm_cnf.specs.Offences.{with_text};
ghost use Rattle.pm_cnf.specs.Meaning.{IsProblemOf, Pairwise, AreTreesOf, kept_among, label_of};
ghost use Rattle.pm_cnf.specs.Inside.Parts.{is_argument, IsArgument, AreWellFormed, applications_of, trees_of, IsPartOf, part_leaf, terms_among, Grows, AreNumbered, IsNumbered, ArePrintable, node_holds, texts_of, tables};

use crate::item::{Item, Name, Node, Word};
use indexmap::IndexSet;
use pm_logic::{Clause, Kind, Literal, Name as ClauseName, Problem, Symbols, TermId, TermTable};
use pm_scan::quoted_text;
use std::alloc::{AllocError, Global};
use std::marker::Model;

/// The problem of items: a clause for each item without a literal that always holds. Symbols are
/// numbered by first occurrence in the literals that are kept, and variables so in each clause.
pub fn number_items(alloc: Global, items: &[Item<'_>]) -> Result<Problem, AllocError>
    requires { AreReadable (map item_of items.now) }
    ensures { IfOk result
        (λ problem. (file : _) → map item_of items.now ≡ map written file
        → IsProblemOf file problem) }
{
    let mut numbering = Numbering::new(alloc);
    let mut clauses = Vec::new(alloc);
    for item in items {
        if is_kept(&item.nodes) {
            clauses.push(numbering.clause(item)?)?;
        }
    }
    Ok(Problem::new(numbering.symbols, numbering.terms.into_table(), clauses))
}

// Whether no literal holds always.
fn is_kept(nodes: &[Node<'_>]) -> bool
    ensures { result ≡ list_all (λ node. not (node_holds (node_of node))) nodes.now }
{
    nodes.iter().all(|node| !holds_always(node))
}

// Whether the node is `$true` or `~ $false`.
fn holds_always(node: &Node<'_>) -> bool
    ensures { result ≡ node_holds (node_of node.now) }
{
    match *node {
        Node::Constant { positive, value } => positive == value,
        Node::Predicate { .. } | Node::Function { .. } | Node::Variable(_) => false,
    }
}

// A part of a literal's arguments, in the order of its nodes: a variable of the clause, or a symbol
// with its number of arguments.
#[derive(Clone, Copy, Debug)]
enum Part {
    Variable(usize),
    Function { symbol: u32, arity: u8 },
}

// The terms so far, and the rows of the variables among them by number: seen as the list of the
// terms.
#[derive(Drop)]
struct Terms {
    alloc: Global,
    table: TermTable,
    variables: Vec<TermId>,
}

impl Model for Terms {
    ghost use Rattle.std.specs.Prelude.{List};
    ghost use Rattle.std.specs.Coded.{coded_list};
    ghost use Rattle.pm_logic.specs.Term.{Term};
    ghost use Rattle.pm_logic.specs.TermCode.{term_code};
    ghost use Rattle.pm_cnf.specs.Inside.Parts.{AreVariables};

    ghost Value = { List Term };

    ghost coded = { coded_list term_code };

    ghost view = { λ a. a.table };

    ghost invariant = { λ a. AreVariables a.table a.variables.items };
}

impl Terms {
    fn new(alloc: Global) -> Terms
        ensures { result ≡ [] }
    {
        Terms {
            alloc,
            table: TermTable::new(alloc),
            variables: Vec::new(alloc),
        }
    }

    // The table alone.
    fn into_table(self) -> TermTable
        ensures { result ≡ self }
    {
        self.table
    }

    // Adds the variable of this number, if it isn't there.
    fn add_variable(&mut self, number: usize) -> Result<(), AllocError>
        requires { number ≤ variable_count self.old }
        ensures gathers { OnOk result (Gathers self.old (var number ∷ []) self.new) }
        ensures there { OnOk result (number < variable_count self.new) }
    {
        if number < self.variables.len() {
            return Ok(());
        }
        self.variables.reserve(1)?;
        let row = self.table.add_var()?;
        self.variables.push_reserved(row);
        Ok(())
    }

    // The rows of the terms of these parts: each application gets its row, from right to left.
    fn build(&mut self, parts: &[Part]) -> Result<Vec<TermId>, AllocError>
        requires { AreWellFormed (variable_count self.old) parts.now }
        ensures gathers { OnOk result (Gathers self.old (applications_of parts.now) self.new) }
        ensures trees { IfOk result
            (λ rows. map (tree_at self.new) rows.items ≡ trees_of parts.now) }
        ensures rows { IfOk result (λ rows. All (λ row. row < length self.new) rows.items) }
    {
        // The rows of the terms that were built, the first of them last.
        let mut rows = Vec::new(self.alloc);
        'parts: for part in parts.iter().rev() {
            match *part {
                Part::Variable(number) => rows.push(self.variables[number])?,
                Part::Function { symbol, arity } => {
                    let mut args = rows.split_off(rows.len() - arity as usize)?;
                    args.reverse();
                    rows.push(self.table.add_app(symbol, &args)?)?;
                }
            }
        }
        rows.reverse();
        Ok(rows)
    }
}

// What has a number so far.
#[derive(Drop)]
struct Numbering {
    alloc: Global,
    symbols: Symbols,
    terms: Terms,
}

impl Numbering {
    fn new(alloc: Global) -> Numbering
        ensures symbols { result.symbols ≡ [] }
        ensures terms { result.terms ≡ [] }
    {
        Numbering {
            alloc,
            symbols: Symbols::new(alloc),
            terms: Terms::new(alloc),
        }
    }

    // The clause of an item whose literals don't hold always.
    fn clause(&mut self, item: &Item<'_>) -> Result<Clause, AllocError>
        requires item { (i : grammar.Item) × (item_of item.now ≡ written i) }
        requires name { HasPrintableName (name_of item.now.name) }
        requires few { length self.old.symbols + length item.now.nodes.items ≤ 2 ^ 32 - 1 }
        requires printable { ArePrintable (map node_of item.now.nodes.items) }
        ensures numbered { IfOk result
            (λ clause. (i : _) → item_of item.now ≡ written i
            → IsNumbered self.old.symbols self.new.symbols self.old.terms self.new.terms i
            (view.clause_of self.new.terms clause)) }
        ensures rows { IfOk result
            (λ clause. All (view.HasRows (length self.new.terms)) clause.literals.items) }
        ensures few { OnOk result
            (length self.new.symbols ≤ length self.old.symbols + length item.now.nodes.items) }
    {
        // The clause's variables, each at its number.
        let mut texts = IndexSet::new(self.alloc);
        let literals = self.literals(&item.nodes, &mut texts)?;
        Ok(Clause {
            name: clause_name(self.alloc, item.name)?,
            role: String::from_str(self.alloc, item.role)?,
            vars: texts.len() as u32,
            literals,
        })
    }

    // The literals that have these nodes, without those that are `$true` or `$false`.
    fn literals<'a>(
        &mut self,
        nodes: &[Node<'a>],
        texts: &mut IndexSet<&'a str>,
    ) -> Result<Vec<Literal>, AllocError>
        requires literals { (literals : List grammar.Literal)
            × (map node_of nodes.now ≡ flat_map literal_nodes literals) }
        requires few { length self.old.symbols + length nodes.now ≤ 2 ^ 32 - 1 }
        requires printable { ArePrintable (map node_of nodes.now) }
        requires known { length texts.old.keys ≤ variable_count self.old.terms }
        ensures numbered { IfOk result
            (λ literals. (given : _) → map node_of nodes.now ≡ flat_map literal_nodes given
            → AreNumbered (tables self.old.symbols self.old.terms texts.old.keys)
            (map node_of nodes.now) (tables self.new.symbols self.new.terms texts.new.keys)
            (kept_among given) (map (view.literal_of self.new.terms) literals.items)) }
        ensures rows { IfOk result
            (λ literals. All (view.HasRows (length self.new.terms)) literals.items) }
    {
        let mut literals = Vec::new(self.alloc);
        let mut next = 0;
        'literals: while let Some(head) = nodes.get(next) {
            let rest = &nodes[next + 1..];
            let len = arguments_len(rest);
            next += 1 + len;
            match *head {
                Node::Constant { .. } | Node::Function { .. } | Node::Variable(_) => {}
                Node::Predicate {
                    positive,
                    word,
                    arity,
                } => {
                    let predicate = number_word(
                        self.alloc,
                        &mut self.symbols,
                        word,
                        arity,
                        Kind::Predicate,
                    )?;
                    let args = self.arguments(&rest[..len], texts)?;
                    literals.push(Literal {
                        positive,
                        predicate,
                        args,
                    })?;
                }
            }
        }
        Ok(literals)
    }

    // The rows of the terms that have these nodes.
    fn arguments<'a>(
        &mut self,
        nodes: &[Node<'a>],
        texts: &mut IndexSet<&'a str>,
    ) -> Result<Vec<TermId>, AllocError>
        requires args { (args : grammar.Arguments)
            × (map node_of nodes.now ≡ arguments_nodes args) }
        requires few { length self.old.symbols + length nodes.now ≤ 2 ^ 32 - 1 }
        requires printable { ArePrintable (map node_of nodes.now) }
        requires known { length texts.old.keys ≤ variable_count self.old.terms }
        ensures grows { IfOk result
            (λ rows. Grows (tables self.old.symbols self.old.terms texts.old.keys)
            (map node_of nodes.now) (terms_among (map (tree_at self.new.terms) rows.items))
            (tables self.new.symbols self.new.terms texts.new.keys)) }
        ensures terms { IfOk result
            (λ rows. (args : _) → map node_of nodes.now ≡ arguments_nodes args
            → AreTreesOf self.new.symbols (texts_of texts.new.keys) args
            (as_terms (map (tree_at self.new.terms) rows.items))) }
        ensures rows { IfOk result (λ rows. All (λ row. row < length self.new.terms) rows.items) }
    {
        let parts = self.parts(nodes, texts)?;
        let rows = self.terms.build(&parts)?;
        Ok(rows)
    }

    // The parts that nodes of arguments are: each variable and symbol gets its number, from left to
    // right.
    fn parts<'a>(
        &mut self,
        nodes: &[Node<'a>],
        texts: &mut IndexSet<&'a str>,
    ) -> Result<Vec<Part>, AllocError>
        requires args { All IsArgument (map node_of nodes.now) }
        requires few { length self.old.symbols + length nodes.now ≤ 2 ^ 32 - 1 }
        requires printable { ArePrintable (map node_of nodes.now) }
        requires known { length texts.old.keys ≤ variable_count self.old.terms }
        ensures grows { IfOk result
            (λ parts. Grows (tables self.old.symbols self.old.terms texts.old.keys)
            (map node_of nodes.now) (flat_map part_leaf parts.items)
            (tables self.new.symbols self.new.terms texts.new.keys)) }
        ensures parts { IfOk result
            (λ parts. Pairwise (IsPartOf self.new.symbols (texts_of texts.new.keys))
            (map node_of nodes.now) parts.items) }
    {
        let mut parts = Vec::new(self.alloc);
        'nodes: for node in nodes {
            match *node {
                Node::Variable(text) => {
                    let number = number_text(texts, text)?;
                    self.terms.add_variable(number)?;
                    parts.push(Part::Variable(number))?;
                }
                Node::Function { word, arity } => {
                    let symbol = number_word(
                        self.alloc,
                        &mut self.symbols,
                        word,
                        arity,
                        Kind::Function,
                    )?;
                    parts.push(Part::Function { symbol, arity })?;
                }
                Node::Predicate { .. } | Node::Constant { .. } => {}
            }
        }
        Ok(parts)
    }
}

// The number of a variable of the clause: the next one if it is new.
fn number_text<'a>(texts: &mut IndexSet<&'a str>, text: &'a str) -> Result<usize, AllocError>
    ensures texts { OnOk result
        (texts_of texts.new.keys ≡ with_text (texts_of texts.old.keys) text.now) }
    ensures number { IfOk result
        (λ number. slice_get (texts_of texts.new.keys) number ≡ Some text.now) }
    ensures within { IfOk result (λ number. number ≤ length texts.old.keys) }
{
    let (number, _) = texts.insert_full(text)?;
    Ok(number)
}

// The number of the symbol of this word.
fn number_word(
    alloc: Global,
    symbols: &mut Symbols,
    word: Word<'_>,
    arity: u8,
    kind: Kind,
) -> Result<u32, AllocError>
    requires few { length symbols.old < 2 ^ 32 - 1 }
    requires printable { IsPrintable (grammar.word_text (word_of word)) }
    ensures { IfOk result
        (Numbers symbols.old symbols.new
        (record { text = grammar.word_text (word_of word.entry); arity = arity; kind = kind })) }
{
    match word {
        Word::Bare(text) => symbols.number(text, arity, kind),
        Word::Quoted(characters) => {
            let text = quoted_text(alloc, characters)?;
            symbols.number(text.as_str(), arity, kind)
        }
    }
}

// How many nodes come before the next literal's.
fn arguments_len(nodes: &[Node<'_>]) -> usize
    ensures len { result ≡ prefix_len (λ node. is_argument (node_of node)) nodes.now }
    ensures within { result ≤ length nodes.now }
{
    nodes.iter().take_while(|node| is_argument(node)).count()
}

// Whether the node is of a term.
fn is_argument(node: &Node<'_>) -> bool
    ensures { result ≡ is_argument (node_of node.now) }
{
    match *node {
        Node::Function { .. } | Node::Variable(_) => true,
        Node::Predicate { .. } | Node::Constant { .. } => false,
    }
}

fn clause_name(alloc: Global, name: Name<'_>) -> Result<ClauseName, AllocError>
    requires { HasPrintableName (name_of name) }
    ensures { IfOk result (λ given. view.label_of given ≡ label_of (name_of name.entry)) }
{
    Ok(match name {
        Name::Word(Word::Bare(text)) => ClauseName::Word(String::from_str(alloc, text)?),
        Name::Word(Word::Quoted(characters)) => ClauseName::Word(quoted_text(alloc, characters)?),
        Name::Integer(digits) => ClauseName::Integer(String::from_str(alloc, digits)?),
    })
}
