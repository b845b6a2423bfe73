//! Reading items from tokens.
ghost use Rattle.std.specs.Prelude.{is_some, map, IsTrue, ◌↔◌, ◌≡◌, ◌<◌, ◌+◌, ◌^◌, ◌≤◌, []};
ghost use Rattle.pm_scan.specs.View.{token_of};
ghost use Rattle.std.specs.List.{list_all};
ghost use Rattle.std.specs.Char.{is_ascii_digit};
ghost use Rattle.pm_scan.specs.Lexemes as tokens;
ghost use Rattle.pm_cnf.specs.Inside.Parsed.{state_of, draft_of, known_of, node_of, word_of, bracket_of, Accepts, AcceptsAt, TakesMark, AddsNode, OpensList, AddsArgument, CountsArgument, OpensBracket, ClosesBracket, AddsVariable, AllowsVariable, NotesVariable};
ghost use Rattle.pm_cnf.specs.Inside.Machine.{start, innermost, term_refusal, atom_end_refusal, literal_step};
ghost use Rattle.pm_cnf.specs.Inside.Draft.{nothing_drafted};
ghost use Rattle.pm_cnf.specs.Inside.Draft as drafts;
ghost use Rattle.pm_scan.specs.declared.token.Mark.TheVariants.{CloseParenthesis};
ghost use Rattle.pm_cnf.specs.declared.parser.Expected.TheVariants as expect;
ghost use Rattle.pm_cnf.specs.declared.parser.Refusal.TheVariants.{Kind};
ghost use Rattle.pm_scan.specs.declared.offence.CnfKind.TheVariants as kinds;
ghost use Rattle.pm_cnf.specs.Limits.{AreUsual};

use crate::item::{Item, Name, Node, Word};
use crate::limits::Limits;
use indexmap::IndexSet;
use pm_scan::{CnfKind, Mark, Token};
use std::alloc::{AllocError, AllocFailed, Global};

/// What a file goes on with.
#[derive(Clone, Copy, Debug, PartialEq, Eq)]
pub enum Expected {
    /// An item, or the end of the file.
    Item,
    /// The parenthesis after `cnf`.
    Opening,
    Name,
    /// The comma after the name.
    NameEnd,
    Role,
    /// The comma after the role.
    RoleEnd,
    /// A parenthesis, or the first literal.
    Formula,
    /// A literal after a bar.
    Literal,
    /// The atom after a tilde.
    Atom,
    /// Arguments of a predicate, or what comes after a literal.
    PredicateEnd,
    /// What comes after a literal.
    LiteralEnd,
    /// What comes after an upper word in the place of an atom: nothing may.
    VariableEnd,
    /// A term among arguments.
    Term,
    /// Arguments of a function, or what comes after a term.
    FunctionEnd,
    /// What comes after a term.
    TermEnd,
    /// What comes after a formula in parentheses.
    FormulaEnd,
    /// The first token of annotations.
    Annotations,
    /// Another token of annotations, or the parenthesis that closes the item.
    AnnotationsEnd,
    /// The full stop after an item.
    FullStop,
}

/// A kind of marks that open and close.
#[derive(Clone, Copy, Debug, PartialEq, Eq)]
pub enum Bracket {
    Parentheses,
    Brackets,
    Braces,
}

// A list of arguments that isn't closed yet.
#[derive(Clone, Copy, Debug, PartialEq, Eq)]
struct OpenList {
    // Where the node of its symbol stands.
    symbol: usize,
    // How many arguments were begun.
    arguments: u8,
}

/// Why a token isn't accepted.
#[derive(Clone, Copy, Debug, PartialEq, Eq)]
pub enum Refusal {
    Kind(CnfKind),
    Memory,
}

impl From<AllocError> for Refusal {
    ghost use Rattle.std.specs.Prelude.{◌≡◌};
    ghost use Rattle.pm_cnf.specs.declared.parser.Refusal.TheVariants.{Memory};

    ghost from_gives = { λ _ e. e ≡ Memory };

    fn from(_error: AllocError) -> Refusal {
        Refusal::Memory
    }
}

impl<T: Drop> From<AllocFailed<T>> for Refusal {
    ghost use Rattle.std.specs.Prelude.{◌≡◌};
    ghost use Rattle.pm_cnf.specs.declared.parser.Refusal.TheVariants.{Memory};

    ghost from_gives = { λ _ e. e ≡ Memory };

    fn from(_error: AllocFailed<T>) -> Refusal {
        Refusal::Memory
    }
}

/// The items that were read so far, and what was read of the next one.
#[derive(Drop)]
pub struct Parser<'a> {
    alloc: Global,
    limits: Limits,
    expected: Expected,
    items: Vec<Item<'a>>,
    name: Name<'a>,
    role: &'a str,
    // How many parentheses are open around the formula.
    around: usize,
    // How many literals of the item were begun.
    literals: u32,
    // The sign of the last of them.
    positive: bool,
    nodes: Vec<Node<'a>>,
    // The innermost is the last.
    lists: Vec<OpenList>,
    brackets: Vec<Bracket>,
    // The different upper words of the item.
    variables: IndexSet<&'a str>,
}

impl<'a> Parser<'a> {
    /// A parser that has read nothing.
    pub fn new(alloc: Global, limits: Limits) -> Parser<'a>
        ensures state { state_of result ≡ start }
        ensures draft { draft_of result ≡ nothing_drafted }
        ensures known { known_of result ≡ [] }
        ensures limits { result.limits ≡ limits }
        ensures around { result.around ≡ 0 }
    {
        Parser {
            alloc,
            limits,
            expected: Expected::Item,
            items: Vec::new(alloc),
            name: Name::Word(Word::Bare("")),
            role: "",
            around: 0,
            literals: 0,
            positive: true,
            nodes: Vec::new(alloc),
            lists: Vec::new(alloc),
            brackets: Vec::new(alloc),
            variables: IndexSet::new(alloc),
        }
    }

    /// Reads one more token, or says why it is refused: for want of memory only where nothing else
    /// refuses it. A parser that refused a token isn't used again.
    pub fn accept(&mut self, token: Token<'a>) -> Result<(), Refusal>
        requires usual { AreUsual self.old.limits }
        requires room { self.old.around + 1 < 2 ^ 64 }
        ensures accepts { Accepts self.old (token_of token.entry) self.new result }
        ensures room { self.new.around ≤ self.old.around + 1 }
    {
        match self.expected {
            Expected::Item => self.item(token),
            Expected::Opening => self.mark(token, Mark::OpenParenthesis, Expected::Name),
            Expected::Name => self.name(token),
            Expected::NameEnd => self.mark(token, Mark::Comma, Expected::Role),
            Expected::Role => self.role(token),
            Expected::RoleEnd => self.mark(token, Mark::Comma, Expected::Formula),
            Expected::Formula => self.formula(token),
            Expected::Literal => self.literal(token),
            Expected::Atom => self.atom(token),
            Expected::PredicateEnd => self.predicate_end(token),
            Expected::LiteralEnd => self.literal_end(token),
            Expected::VariableEnd => Err(after_atom(token)),
            Expected::Term => self.term(token),
            Expected::FunctionEnd => self.function_end(token),
            Expected::TermEnd => self.term_end(token),
            Expected::FormulaEnd => self.formula_end(token),
            Expected::Annotations => self.annotation(token),
            Expected::AnnotationsEnd => self.annotations_end(token),
            Expected::FullStop => self.full_stop(token),
        }
    }

    /// Whether the tokens are those of whole items.
    pub fn is_whole(&self) -> bool
        ensures { IsTrue result ↔ (self.now.expected ≡ expect.Item) }
    {
        self.expected == Expected::Item
    }

    /// The items that were read.
    pub fn into_items(self) -> Vec<Item<'a>>
        ensures { result ≡ self.entry.items }
    {
        self.items
    }

    // The mark, and nothing else.
    fn mark(&mut self, token: Token<'a>, mark: Mark, next: Expected) -> Result<(), Refusal>
        ensures mark { TakesMark self.old (token_of token.entry) mark next self.new result }
        ensures room { self.new.around ≤ self.old.around + 1 }
    {
        match token {
            Token::Mark(found) if found == mark => {
                self.expected = next;
                Ok(())
            }
            _ => Err(unexpected()),
        }
    }

    fn item(&mut self, token: Token<'a>) -> Result<(), Refusal>
        ensures accepts { AcceptsAt expect.Item self.old (token_of token.entry) self.new result }
        ensures room { self.new.around ≤ self.old.around + 1 }
    {
        let Token::Lower(text) = token else {
            return Err(unexpected());
        };
        if text == "include" {
            return Err(Refusal::Kind(CnfKind::Include));
        }
        if text != "cnf" {
            return Err(Refusal::Kind(CnfKind::NotCnf));
        }
        if self.items.len() >= self.limits.clauses as usize {
            return Err(Refusal::Kind(CnfKind::TooManyClauses));
        }
        self.expected = Expected::Opening;
        Ok(())
    }

    fn name(&mut self, token: Token<'a>) -> Result<(), Refusal>
        ensures accepts { AcceptsAt expect.Name self.old (token_of token.entry) self.new result }
        ensures room { self.new.around ≤ self.old.around + 1 }
    {
        self.name = match token {
            Token::Lower(text) => Name::Word(Word::Bare(text)),
            Token::Quoted(characters) => Name::Word(Word::Quoted(characters)),
            Token::Number(text) if is_digits(text) => Name::Integer(text),
            _ => return Err(unexpected()),
        };
        self.expected = Expected::NameEnd;
        Ok(())
    }

    fn role(&mut self, token: Token<'a>) -> Result<(), Refusal>
        ensures accepts { AcceptsAt expect.Role self.old (token_of token.entry) self.new result }
        ensures room { self.new.around ≤ self.old.around + 1 }
    {
        let Token::Lower(text) = token else {
            return Err(unexpected());
        };
        self.role = text;
        self.expected = Expected::RoleEnd;
        Ok(())
    }

    fn formula(&mut self, token: Token<'a>) -> Result<(), Refusal>
        requires room { self.old.around + 1 < 2 ^ 64 }
        ensures accepts { AcceptsAt expect.Formula self.old (token_of token.entry) self.new result }
        ensures room { self.new.around ≤ self.old.around + 1 }
    {
        match token {
            Token::Mark(Mark::OpenParenthesis) => {
                self.around += 1;
                self.expected = Expected::Formula;
                Ok(())
            }
            _ => self.literal(token),
        }
    }

    fn literal(&mut self, token: Token<'a>) -> Result<(), Refusal>
        ensures accepts { AcceptsAt expect.Literal self.old (token_of token.entry) self.new result }
        ensures room { self.new.around ≤ self.old.around + 1 }
    {
        if !begins_literal(token) {
            return Err(in_place_of_term(token));
        }
        if self.literals >= self.limits.literals {
            return Err(Refusal::Kind(CnfKind::TooManyLiterals));
        }
        self.literals += 1;
        if let Token::Mark(_) = token {
            self.positive = false;
            self.expected = Expected::Atom;
            return Ok(());
        }
        self.positive = true;
        self.atom(token)
    }

    // The first token of an atom.
    fn atom(&mut self, token: Token<'a>) -> Result<(), Refusal>
        ensures accepts { AcceptsAt expect.Atom self.old (token_of token.entry) self.new result }
        ensures room { self.new.around ≤ self.old.around + 1 }
    {
        match token {
            Token::Lower(text) => self.predicate(Word::Bare(text)),
            Token::Quoted(characters) => self.predicate(Word::Quoted(characters)),
            Token::Dollar("$true") => self.constant(true),
            Token::Dollar("$false") => self.constant(false),
            Token::Upper(text) => {
                self.expected = Expected::VariableEnd;
                self.variable(text)
            }
            _ => Err(in_place_of_term(token)),
        }
    }

    fn predicate(&mut self, word: Word<'a>) -> Result<(), Refusal>
        ensures adds { AddsNode self.old
            (drafts.predicate_node self.old.positive (word_of word.entry) 0) expect.PredicateEnd
            self.new result }
        ensures around { self.new.around ≡ self.old.around }
    {
        self.nodes.push(Node::Predicate {
            positive: self.positive,
            word,
            arity: 0,
        })?;
        self.expected = Expected::PredicateEnd;
        Ok(())
    }

    fn constant(&mut self, value: bool) -> Result<(), Refusal>
        ensures adds { AddsNode self.old (drafts.constant_node self.old.positive value)
            expect.LiteralEnd self.new result }
        ensures around { self.new.around ≡ self.old.around }
    {
        self.nodes.push(Node::Constant {
            positive: self.positive,
            value,
        })?;
        self.expected = Expected::LiteralEnd;
        Ok(())
    }

    fn predicate_end(&mut self, token: Token<'a>) -> Result<(), Refusal>
        ensures accepts { AcceptsAt expect.PredicateEnd self.old (token_of token.entry) self.new
            result }
        ensures room { self.new.around ≤ self.old.around + 1 }
    {
        match token {
            Token::Mark(Mark::OpenParenthesis) => self.open_list(),
            _ => self.literal_end(token),
        }
    }

    // The arguments of the last symbol begin.
    fn open_list(&mut self) -> Result<(), Refusal>
        ensures opens { OpensList self.old self.new result }
        ensures around { self.new.around ≡ self.old.around }
    {
        self.lists.push(OpenList {
            symbol: self.nodes.len().saturating_sub(1),
            arguments: 0,
        })?;
        self.expected = Expected::Term;
        Ok(())
    }

    fn literal_end(&mut self, token: Token<'a>) -> Result<(), Refusal>
        ensures accepts { AcceptsAt expect.LiteralEnd self.old (token_of token.entry) self.new
            result }
        ensures room { self.new.around ≤ self.old.around + 1 }
    {
        match token {
            Token::Mark(Mark::Bar) => {
                self.expected = Expected::Literal;
                Ok(())
            }
            Token::Mark(Mark::CloseParenthesis | Mark::Comma) => self.formula_end(token),
            _ => Err(after_atom(token)),
        }
    }

    fn formula_end(&mut self, token: Token<'a>) -> Result<(), Refusal>
        ensures accepts { AcceptsAt expect.FormulaEnd self.old (token_of token.entry) self.new
            result }
        ensures room { self.new.around ≤ self.old.around + 1 }
    {
        match token {
            Token::Mark(Mark::CloseParenthesis) if self.around == 0 => {
                self.expected = Expected::FullStop;
                Ok(())
            }
            Token::Mark(Mark::CloseParenthesis) => {
                self.around -= 1;
                self.expected = Expected::FormulaEnd;
                Ok(())
            }
            Token::Mark(Mark::Comma) if self.around == 0 => {
                self.expected = Expected::Annotations;
                Ok(())
            }
            _ => Err(unexpected()),
        }
    }

    fn term(&mut self, token: Token<'a>) -> Result<(), Refusal>
        requires usual { AreUsual self.old.limits }
        ensures accepts { AcceptsAt expect.Term self.old (token_of token.entry) self.new result }
        ensures room { self.new.around ≤ self.old.around + 1 }
    {
        match token {
            Token::Lower(text) => self.function(Word::Bare(text)),
            Token::Quoted(characters) => self.function(Word::Quoted(characters)),
            Token::Upper(text) => {
                self.allow_variable(text)?;
                self.argument(Node::Variable(text), Expected::TermEnd)?;
                self.note_variable(text)
            }
            _ => Err(in_place_of_term(token)),
        }
    }

    fn function(&mut self, word: Word<'a>) -> Result<(), Refusal>
        requires usual { AreUsual self.old.limits }
        ensures adds { AddsArgument self.old (drafts.function_node (word_of word.entry) 0)
            expect.FunctionEnd self.new result }
        ensures around { self.new.around ≡ self.old.around }
    {
        self.argument(Node::Function { word, arity: 0 }, Expected::FunctionEnd)
    }

    // The first node of one more argument of the innermost list.
    fn argument(&mut self, node: Node<'a>, next: Expected) -> Result<(), Refusal>
        requires usual { AreUsual self.old.limits }
        ensures adds { AddsArgument self.old (node_of node.entry) next self.new result }
        ensures around { self.new.around ≡ self.old.around }
    {
        self.count_argument()?;
        self.nodes.push(node)?;
        self.expected = next;
        Ok(())
    }

    // How many arguments of the innermost list were begun.
    fn arguments_begun(&self) -> u8
        ensures { result ≡ innermost (state_of self.now).arguments }
    {
        match self.lists.last() {
            Some(list) => list.arguments,
            None => 0,
        }
    }

    // The innermost list has one more argument.
    fn count_argument(&mut self) -> Result<(), Refusal>
        requires usual { AreUsual self.old.limits }
        ensures counts { CountsArgument self.old self.new result }
        ensures around { self.new.around ≡ self.old.around }
    {
        let begun = self.arguments_begun();
        if u32::from(begun) >= self.limits.arity {
            return Err(Refusal::Kind(CnfKind::ArityTooLarge));
        }
        if self.lists.len() > self.limits.nesting as usize {
            return Err(Refusal::Kind(CnfKind::TooDeep));
        }
        let Some(list) = self.lists.last_mut() else {
            return Ok(());
        };
        list.arguments = begun + 1;
        Ok(())
    }

    fn function_end(&mut self, token: Token<'a>) -> Result<(), Refusal>
        ensures accepts { AcceptsAt expect.FunctionEnd self.old (token_of token.entry) self.new
            result }
        ensures room { self.new.around ≤ self.old.around + 1 }
    {
        match token {
            Token::Mark(Mark::OpenParenthesis) => self.open_list(),
            _ => self.term_end(token),
        }
    }

    fn term_end(&mut self, token: Token<'a>) -> Result<(), Refusal>
        ensures accepts { AcceptsAt expect.TermEnd self.old (token_of token.entry) self.new result }
        ensures room { self.new.around ≤ self.old.around + 1 }
    {
        match token {
            Token::Mark(Mark::Comma) => {
                self.expected = Expected::Term;
                Ok(())
            }
            Token::Mark(Mark::CloseParenthesis) => self.close_list(),
            _ => Err(unexpected()),
        }
    }

    // The innermost list of arguments ends.
    fn close_list(&mut self) -> Result<(), Refusal>
        ensures accepts { AcceptsAt expect.TermEnd self.old (tokens.mark CloseParenthesis) self.new
            result }
        ensures around { self.new.around ≡ self.old.around }
    {
        let Some(list) = self.lists.pop() else {
            return Err(unexpected());
        };
        set_arity(&mut self.nodes, list.symbol, list.arguments);
        if self.lists.is_empty() {
            self.expected = Expected::LiteralEnd;
        } else {
            self.expected = Expected::TermEnd;
        }
        Ok(())
    }

    fn annotations_end(&mut self, token: Token<'a>) -> Result<(), Refusal>
        ensures accepts { AcceptsAt expect.AnnotationsEnd self.old (token_of token.entry) self.new
            result }
        ensures room { self.new.around ≤ self.old.around + 1 }
    {
        match token {
            Token::Mark(Mark::CloseParenthesis) if self.brackets.is_empty() => {
                self.expected = Expected::FullStop;
                Ok(())
            }
            _ => self.annotation(token),
        }
    }

    fn annotation(&mut self, token: Token<'a>) -> Result<(), Refusal>
        ensures accepts { AcceptsAt expect.Annotations self.old (token_of token.entry) self.new
            result }
        ensures room { self.new.around ≤ self.old.around + 1 }
    {
        self.expected = Expected::AnnotationsEnd;
        match token {
            Token::Mark(mark) => self.annotation_mark(mark),
            Token::Upper(text) => self.variable(text),
            _ => Ok(()),
        }
    }

    // A mark among annotations.
    fn annotation_mark(&mut self, mark: Mark) -> Result<(), Refusal>
        requires here { self.old.expected ≡ expect.AnnotationsEnd }
        ensures accepts { AcceptsAt expect.Annotations self.old (tokens.mark mark) self.new result }
        ensures around { self.new.around ≡ self.old.around }
    {
        match mark {
            Mark::OpenParenthesis => self.open_bracket(Bracket::Parentheses),
            Mark::OpenBracket => self.open_bracket(Bracket::Brackets),
            Mark::OpenBrace => self.open_bracket(Bracket::Braces),
            Mark::CloseParenthesis => self.close_bracket(Bracket::Parentheses),
            Mark::CloseBracket => self.close_bracket(Bracket::Brackets),
            Mark::CloseBrace => self.close_bracket(Bracket::Braces),
            Mark::FullStop => Err(unexpected()),
            _ => Ok(()),
        }
    }

    // The bracket is the innermost that is open.
    fn open_bracket(&mut self, bracket: Bracket) -> Result<(), Refusal>
        ensures opens { OpensBracket self.old (bracket_of bracket) self.new result }
        ensures around { self.new.around ≡ self.old.around }
    {
        self.brackets.push(bracket)?;
        Ok(())
    }

    // The innermost bracket ends, if it is of this kind.
    fn close_bracket(&mut self, bracket: Bracket) -> Result<(), Refusal>
        requires here { self.old.expected ≡ expect.AnnotationsEnd }
        ensures closes { ClosesBracket self.old (bracket_of bracket) self.new result }
        ensures around { self.new.around ≡ self.old.around }
    {
        match self.brackets.pop() {
            Some(open) if open == bracket => Ok(()),
            _ => Err(unexpected()),
        }
    }

    fn full_stop(&mut self, token: Token<'a>) -> Result<(), Refusal>
        ensures accepts { AcceptsAt expect.FullStop self.old (token_of token.entry) self.new
            result }
        ensures room { self.new.around ≤ self.old.around + 1 }
    {
        if token != Token::Mark(Mark::FullStop) {
            return Err(unexpected());
        }
        let nodes = std::mem::replace(&mut self.nodes, Vec::new(self.alloc));
        self.items.push(Item {
            name: self.name,
            role: self.role,
            nodes,
        })?;
        self.around = 0;
        self.literals = 0;
        self.lists.clear();
        self.brackets.clear();
        self.variables.clear();
        self.expected = Expected::Item;
        Ok(())
    }

    // An upper word of the item.
    fn variable(&mut self, text: &'a str) -> Result<(), Refusal>
        ensures adds { AddsVariable self.old text.now self.new result }
        ensures around { self.new.around ≡ self.old.around }
    {
        self.allow_variable(text)?;
        self.note_variable(text)
    }

    // Refuses an upper word that would be one too many of the item.
    fn allow_variable(&self, text: &'a str) -> Result<(), Refusal>
        ensures { AllowsVariable self.now text.now result }
    {
        if self.variables.len() >= self.limits.variables as usize
            && !self.variables.contains(text)
        {
            return Err(Refusal::Kind(CnfKind::TooManyVariables));
        }
        Ok(())
    }

    // Notes an upper word of the item, if it isn't there.
    fn note_variable(&mut self, text: &'a str) -> Result<(), Refusal>
        ensures notes { NotesVariable self.old text.now self.new result }
        ensures around { self.new.around ≡ self.old.around }
    {
        self.variables.insert(text)?;
        Ok(())
    }
}

// The node at the place is of a symbol with so many arguments.
fn set_arity(nodes: &mut Vec<Node<'_>>, place: usize, arguments: u8)
    ensures { map node_of nodes.new.items
        ≡ drafts.set_arity place arguments (map node_of nodes.old.items) }
{
    if let Some(node) = nodes.get_mut(place) {
        node.set_arity(arguments);
    }
}

fn is_digits(text: &str) -> bool
    ensures { result ≡ list_all is_ascii_digit text.now }
{
    text.bytes().all(|byte| byte.is_ascii_digit())
}

fn unexpected() -> Refusal
    ensures { result ≡ Kind kinds.Unexpected }
{
    Refusal::Kind(CnfKind::Unexpected)
}

fn begins_literal(token: Token<'_>) -> bool
    ensures { result ≡ is_some (literal_step start (token_of token.entry)) }
{
    matches!(
        token,
        Token::Lower(_)
            | Token::Upper(_)
            | Token::Quoted(_)
            | Token::Dollar("$true" | "$false")
            | Token::Mark(Mark::Tilde)
    )
}

// Why the token can't be the first of a literal, an atom or a term.
fn in_place_of_term(token: Token<'_>) -> Refusal
    ensures { result ≡ Kind (term_refusal (token_of token.entry)) }
{
    match token {
        Token::Number(_) => Refusal::Kind(CnfKind::Number),
        Token::Distinct => Refusal::Kind(CnfKind::DistinctObject),
        _ => unexpected(),
    }
}

// Why the token can't come after an atom.
fn after_atom(token: Token<'_>) -> Refusal
    ensures { result ≡ Kind (atom_end_refusal (token_of token.entry)) }
{
    match token {
        Token::Unequal | Token::Mark(Mark::Equals) => Refusal::Kind(CnfKind::Equality),
        _ => unexpected(),
    }
}

#[cfg(test)]
mod tests {
    use super::*;
    use std::test::Fail;

    // The parser after the tokens.
    fn parsed<'a>(alloc: Global, tokens: &[Token<'a>]) -> Result<Parser<'a>, Refusal> {
        let limits = Limits {
            clauses: 65_536,
            literals: 255,
            variables: 1000,
            arity: 255,
            nesting: 1000,
        };
        let mut parser = Parser::new(alloc, limits);
        for token in tokens {
            parser.accept(*token)?;
        }
        Ok(parser)
    }

    #[test]
    fn reads_an_item(rt: HostRuntime) -> Result<(), Fail> {
        let tokens = [
            Token::Lower("cnf"),
            Token::Mark(Mark::OpenParenthesis),
            Token::Number("7"),
            Token::Mark(Mark::Comma),
            Token::Lower("axiom"),
            Token::Mark(Mark::Comma),
            Token::Mark(Mark::OpenParenthesis),
            Token::Lower("p"),
            Token::Mark(Mark::OpenParenthesis),
            Token::Quoted("F"),
            Token::Mark(Mark::OpenParenthesis),
            Token::Upper("X"),
            Token::Mark(Mark::CloseParenthesis),
            Token::Mark(Mark::Comma),
            Token::Lower("a"),
            Token::Mark(Mark::CloseParenthesis),
            Token::Mark(Mark::Bar),
            Token::Mark(Mark::Tilde),
            Token::Dollar("$true"),
            Token::Mark(Mark::CloseParenthesis),
            Token::Mark(Mark::Comma),
            Token::Mark(Mark::OpenBracket),
            Token::Upper("Y"),
            Token::Mark(Mark::CloseBracket),
            Token::Mark(Mark::CloseParenthesis),
            Token::Mark(Mark::FullStop),
        ];
        let parser = parsed(rt.alloc(), &tokens)?;
        assert_eq!(rt; parser.items.len(), 1);
        let item = &parser.items[0];
        assert_eq!(rt; item.name, Name::Integer("7"));
        assert_eq!(rt; item.role, "axiom");
        let nodes = [
            Node::Predicate {
                positive: true,
                word: Word::Bare("p"),
                arity: 2,
            },
            Node::Function {
                word: Word::Quoted("F"),
                arity: 1,
            },
            Node::Variable("X"),
            Node::Function {
                word: Word::Bare("a"),
                arity: 0,
            },
            Node::Constant {
                positive: false,
                value: true,
            },
        ];
        assert_eq!(rt; item.nodes.as_slice(), nodes.as_slice());
        Ok(())
    }
}
