//! Choice lists, their order, and counting along it.
#![tactic(auto)]

ghost use Rattle.std.specs.Prelude.{◌≡◌, ◌↔◌, [], ◌∷◌, ◌++◌, IsTrue, IfOk, IfSome, IfNone, OnOk, OnErr};
ghost use Rattle.pm_choice.specs.Order.{IsOrderOf, PrecedesBound};

use std::alloc::{AllocError, Global};
use std::cmp::Ordering;
use std::marker::Model;

mod laws;

pub use laws::{closed_list_is_counted, intervals_join, order_is_total, prefixes_precede};

/// A list of the numbers of alternatives: seen as the list.
#[derive(Debug, Drop)]
pub struct Choices {
    numbers: Vec<u32>,
}

impl Model for Choices {
    ghost use Rattle.std.specs.Prelude.{List, ℕ};

    ghost Value = { List ℕ };

    ghost view = { λ a. a.numbers.items };
}

/// The upper end of an interval of choice lists: a list, which is outside, or the end of all lists.
#[derive(Debug, Drop)]
pub enum Bound {
    At(Choices),
    End,
}

impl Bound {
    /// The same bound.
    pub fn copy(&self) -> Result<Bound, AllocError>
        ensures { IfOk result (λ bound. bound ≡ self.now) }
    {
        match self {
            Bound::At(list) => Ok(Bound::At(list.copy()?)),
            Bound::End => Ok(Bound::End),
        }
    }

    /// Whether two bounds are the same.
    pub fn is_same(&self, other: &Bound) -> bool
        ensures { IsTrue result ↔ (self.now ≡ other.now) }
    {
        match self {
            Bound::At(list) => match other {
                Bound::At(end) => compare(list.as_slice(), end.as_slice()).is_eq(),
                Bound::End => false,
            },
            Bound::End => matches!(other, Bound::End),
        }
    }
}

impl Choices {
    /// The list with these numbers.
    pub fn from_slice(alloc: Global, list: &[u32]) -> Result<Choices, AllocError>
        ensures { IfOk result (λ choices. choices ≡ list.now) }
    {
        Ok(Choices {
            numbers: Vec::from_slice(alloc, list)?,
        })
    }

    /// Adds a number at the end. After want of memory the list is as before.
    pub fn push(&mut self, k: u32) -> Result<(), AllocError>
        ensures ok { OnOk result (self.new ≡ self.old ++ k ∷ []) }
        ensures err { OnErr result (self.new ≡ self.old) }
    {
        self.numbers.push(k)?;
        Ok(())
    }

    /// Takes the last number; none where the list is empty.
    pub fn pop(&mut self) -> Option<u32>
        ensures some { IfSome result (λ k. self.old ≡ self.new ++ k ∷ []) }
        ensures none { IfNone result ((self.old ≡ []) × (self.new ≡ [])) }
    {
        self.numbers.pop()
    }

    /// A list with the same numbers.
    pub fn copy(&self) -> Result<Choices, AllocError>
        ensures { IfOk result (λ choices. choices ≡ self.now) }
    {
        Ok(Choices {
            numbers: self.numbers.clone()?,
        })
    }

    /// The numbers.
    pub fn as_slice(&self) -> &[u32]
        ensures { result.now ≡ self.now }
    {
        self.numbers.as_slice()
    }
}

/// The order of two lists: number by number, a prefix before what it begins.
pub fn compare(a: &[u32], b: &[u32]) -> Ordering
    ensures { IsOrderOf result a.now b.now }
{
    a.cmp(b)
}

/// Whether a list comes before a bound.
pub fn precedes(list: &[u32], bound: &Bound) -> bool
    ensures { IsTrue result ↔ PrecedesBound list.now bound.now }
{
    match bound {
        Bound::At(end) => compare(list, end.as_slice()).is_lt(),
        Bound::End => true,
    }
}

#[cfg(test)]
mod tests {
    use super::*;
    use std::test::Fail;

    #[test]
    fn lists(rt: HostRuntime) -> Result<(), Fail> {
        let mut list = Choices::from_slice(rt.alloc(), &[0, 3])?;
        list.push(2)?;
        let mut copy = list.copy()?;
        assert_eq!(rt; list.pop(), Some(2));
        assert_eq!(rt; list.as_slice(), [0, 3].as_slice());
        assert_eq!(rt; copy.as_slice(), [0, 3, 2].as_slice());
        assert_eq!(rt; copy.pop(), Some(2));
        assert_eq!(rt; copy.pop(), Some(3));
        assert_eq!(rt; copy.pop(), Some(0));
        assert_eq!(rt; copy.pop(), None);
        Ok(())
    }

    #[test]
    fn bounds(rt: HostRuntime) -> Result<(), Fail> {
        let bound = Bound::At(Choices::from_slice(rt.alloc(), &[0, 3])?);
        let other = Bound::At(Choices::from_slice(rt.alloc(), &[0])?);
        assert!(rt; bound.copy()?.is_same(&bound));
        assert!(rt; !bound.is_same(&other));
        assert!(rt; !bound.is_same(&Bound::End));
        assert!(rt; !Bound::End.is_same(&bound));
        assert!(rt; Bound::End.copy()?.is_same(&Bound::End));
        Ok(())
    }

    #[test]
    fn order(rt: HostRuntime) -> Result<(), Fail> {
        // Each list comes before the next one.
        let lists: [&[u32]; 6] = [&[], &[0], &[0, 0], &[0, 1, 2], &[0, 1, 3], &[1]];
        for (i, a) in lists.iter().enumerate() {
            for (j, b) in lists.iter().enumerate() {
                assert_eq!(rt; compare(*a, *b), i.cmp(&j));
                let bound = Bound::At(Choices::from_slice(rt.alloc(), *b)?);
                assert_eq!(rt; precedes(*a, &bound), i < j);
            }
            assert!(rt; precedes(*a, &Bound::End));
        }
        Ok(())
    }
}
