//! Symbols and their numbers.
ghost use Rattle.std.specs.Prelude.{◌≡◌, ℕ, ◌-◌, ◌^◌, ◌<◌, [], length, Some, Contains, IfOk, IfSome, IfNone, IsSomeAnd, OnOk, OnErr, slice_get, string_bytes, if◌then◌else◌, ◌++◌, ◌∷◌, List};
ghost use Rattle.std.specs.Str.{bytes_eq};
ghost use Rattle.pm_logic.specs.Lists.{AreDistinct};
ghost use Rattle.pm_logic.specs.Problem.{Numbers};
ghost use Rattle.pm_logic.specs.Inside.Index.{numbers_of};

use indexmap::IndexMap;
use std::alloc::{AllocError, Global};
use std::marker::Model;

/// What a symbol is used as. Only the text `=` with two arguments is of the kind `Equality`; the
/// word `'='` is a predicate or a function beside it.
#[derive(Clone, Copy, Debug, PartialEq, Eq, Hash)]
pub enum Kind {
    Predicate,
    Function,
    Equality,
}

// A symbol as it is kept.
#[derive(Debug, Drop)]
struct Symbol {
    text: String,
    arity: u8,
    kind: Kind,
}

/// The symbols of a problem, each with a number: seen as the list of them in the order of their
/// numbers, in which no symbol stands twice. A symbol is its text, its arity and its kind.
#[derive(Drop)]
pub struct Symbols {
    alloc: Global,
    rows: Vec<Symbol>,
    // The numbers of the symbols of each text, in rising order.
    by_text: IndexMap<String, Vec<u32>>,
}

impl Model for Symbols {
    ghost use Rattle.std.specs.Prelude.{List, map};
    ghost use Rattle.pm_logic.specs.Problem.{Symbol};

    ghost Value = { List Symbol };

    ghost use Rattle.pm_logic.specs.Inside.Index.{symbol_of, IsIndexed};

    ghost view = { λ a. map symbol_of a.rows.items };

    ghost invariant = { λ a. IsIndexed (map symbol_of a.rows.items) a.by_text };
}

impl Symbols {
    /// No symbols.
    pub fn new(alloc: Global) -> Symbols
        ensures { result ≡ [] }
    {
        Symbols {
            alloc,
            rows: Vec::new(alloc),
            by_text: IndexMap::new(alloc),
        }
    }

    /// The symbol's number. A symbol that isn't there yet gets the next one.
    pub fn number(&mut self, text: &str, arity: u8, kind: Kind) -> Result<u32, AllocError>
        requires { length self.old < 2 ^ 32 - 1 }
        ensures numbered { IfOk result (Numbers self.old self.new
            (record { text = text.now; arity = arity; kind = kind })) }
        ensures err { OnErr result (self.new ≡ self.old) }
    {
        if let Some(number) = self.find(text, arity, kind) {
            return Ok(number);
        }
        let number = self.len();
        let symbol = Symbol {
            text: String::from_str(self.alloc, text)?,
            arity,
            kind,
        };
        self.rows.reserve(1)?;
        add_number(self.alloc, &mut self.by_text, text, number)?;
        self.rows.push_reserved(symbol);
        Ok(number)
    }

    /// The number of the symbol of this text, arity and kind, if it is there.
    pub fn find(&self, text: &str, arity: u8, kind: Kind) -> Option<u32>
        ensures found { IfSome result (λ number. slice_get self.now number
            ≡ Some (record { text = text.now; arity = arity; kind = kind })) }
        ensures none { IfNone result
            (¬ Contains self.now (record { text = text.now; arity = arity; kind = kind })) }
    {
        let numbers = self.by_text.get(text)?;
        for &number in numbers {
            let row = &self.rows[number as usize];
            if row.arity == arity && row.kind == kind {
                return Some(number);
            }
        }
        None
    }

    /// The text of the symbol of this number.
    pub fn text(&self, id: u32) -> &str
        requires { id < length self.now }
        ensures { IsSomeAnd (slice_get self.now id) (λ symbol. symbol.text ≡ result.now) }
    {
        self.rows[id as usize].text.as_str()
    }

    /// The number of arguments that the symbol of this number takes.
    pub fn arity(&self, id: u32) -> u8
        requires { id < length self.now }
        ensures { IsSomeAnd (slice_get self.now id) (λ symbol. symbol.arity ≡ result) }
    {
        self.rows[id as usize].arity
    }

    /// What the symbol of this number is used as.
    pub fn kind(&self, id: u32) -> Kind
        requires { id < length self.now }
        ensures { IsSomeAnd (slice_get self.now id) (λ symbol. symbol.kind ≡ result) }
    {
        self.rows[id as usize].kind
    }

    /// How many symbols there are.
    pub fn len(&self) -> u32
        ensures count { result ≡ length self.now }
        ensures distinct { AreDistinct self.now }
    {
        self.rows.len() as u32
    }
}

// Adds the number of a symbol of this text, after the others of that text.
fn add_number(
    alloc: Global,
    by_text: &mut IndexMap<String, Vec<u32>>,
    text: &str,
    number: u32,
) -> Result<(), AllocError>
    ensures ok { let before = numbers_of by_text.old in
        OnOk result ((bytes : List ℕ)
        → numbers_of by_text.new bytes
        ≡ (if bytes_eq text.now bytes then before bytes ++ number ∷ [] else before bytes)) }
    ensures err { OnErr result ((bytes : List ℕ)
        → numbers_of by_text.new bytes ≡ numbers_of by_text.old bytes) }
{
    if let Some(numbers) = by_text.get_mut(text) {
        numbers.push(number)?;
        return Ok(());
    }
    let mut numbers = Vec::new(alloc);
    numbers.push(number)?;
    by_text.insert(String::from_str(alloc, text)?, numbers)?;
    Ok(())
}

#[cfg(test)]
mod tests {
    use super::*;
    use std::test::Fail;

    #[test]
    fn numbers_and_finds(rt: HostRuntime) -> Result<(), Fail> {
        let mut symbols = Symbols::new(rt.alloc());
        assert_eq!(rt; symbols.number("p", 0, Kind::Predicate)?, 0);
        assert_eq!(rt; symbols.len(), 1);
        assert_eq!(rt; symbols.number("f", 1, Kind::Function)?, 1);
        assert_eq!(rt; symbols.len(), 2);
        assert_eq!(rt; symbols.number("p", 0, Kind::Predicate)?, 0);
        assert_eq!(rt; symbols.len(), 2);
        for (text, arity, kind, want) in [
            ("p", 0, Kind::Predicate, Some(0)),
            ("f", 1, Kind::Function, Some(1)),
            ("q", 0, Kind::Predicate, None),
            ("p", 1, Kind::Predicate, None),
            ("p", 0, Kind::Function, None),
        ] {
            assert_eq!(rt; symbols.find(text, arity, kind), want);
        }
        assert_eq!(rt; symbols.text(1), "f");
        assert_eq!(rt; symbols.arity(1), 1);
        assert_eq!(rt; symbols.kind(1), Kind::Function);
        Ok(())
    }
}
