//! Literals, clauses and problems.
ghost use Rattle.std.specs.Prelude.{◌≡◌, ◌<◌, [], All, Some, IfOk, List, length, map, not, slice_get};
ghost use Rattle.std.specs.List.{list_all};
ghost use Rattle.pm_logic.specs.Term.{Term};
ghost use Rattle.pm_logic.specs.Problem.{IsValid, is_start, start_clauses};
ghost use Rattle.pm_logic.specs.View.{HasRows, clause_of};

use crate::symbols::Symbols;
use crate::terms::{TermId, TermTable};
use std::alloc::{AllocError, Global};
use std::marker::Model;

/// Which tableaux a search looks at: all of them, or only those in which no literal of a branch
/// equals one above it.
#[derive(Clone, Copy, Debug, PartialEq, Eq, Hash)]
pub enum Class {
    Plain,
    Regular,
}

/// Which clauses a tableau may start with: those without a positive literal, all of them, or those
/// of the role `negated_conjecture`.
#[derive(Clone, Copy, Debug, PartialEq, Eq, Hash)]
pub enum Start {
    Negative,
    All,
    Goal,
}

/// The name of a clause: a word, or an integer as it was read.
#[derive(Debug, Drop)]
pub enum Name {
    Word(String),
    Integer(String),
}

/// A sign, a predicate's number, and the rows of its arguments.
#[derive(Debug, Drop)]
pub struct Literal {
    pub positive: bool,
    pub predicate: u32,
    pub args: Vec<TermId>,
}

/// A clause over the variables 0 to `vars` - 1.
#[derive(Debug, Drop)]
pub struct Clause {
    pub name: Name,
    pub role: String,
    pub vars: u32,
    pub literals: Vec<Literal>,
}

/// Clauses with their symbols and terms.
#[derive(Drop)]
pub struct Problem {
    symbols: Symbols,
    terms: TermTable,
    clauses: Vec<Clause>,
}

impl Model for Problem {
    ghost use Rattle.std.specs.Prelude.{map};
    ghost use Rattle.pm_logic.specs.Problem as spec;
    ghost use Rattle.pm_logic.specs.Inside.Codes.{problem_code};

    ghost Value = { spec.Problem };

    ghost coded = { problem_code };

    ghost use Rattle.pm_logic.specs.View.{clause_of, IsWellFormed};

    ghost view = { λ a. record {
      symbols = a.symbols;
      terms = a.terms;
      clauses = map (clause_of a.terms) a.clauses.items;
    } };

    ghost invariant = { λ a. IsWellFormed a.symbols a.terms a.clauses.items };
}

impl Problem {
    /// The problem of these clauses, whose numbers and rows are those of the symbols and terms.
    pub fn new(symbols: Symbols, terms: TermTable, clauses: Vec<Clause>) -> Problem
        requires rows { All (λ clause.
            All (HasRows (length terms)) clause.literals.items) clauses.items }
        requires valid { IsValid (record {
          symbols = symbols;
          terms = terms;
          clauses = map (clause_of terms) clauses.items;
        }) }
        ensures { result ≡ record {
          symbols = symbols;
          terms = terms;
          clauses = map (clause_of terms) clauses.items;
        } }
    {
        Problem {
            symbols,
            terms,
            clauses,
        }
    }

    /// The clause of this index.
    pub fn clause(&self, i: u32) -> &Clause
        requires { i < length self.now.clauses }
        ensures clause { slice_get self.now.clauses i ≡ Some (clause_of self.now.terms result.now) }
        ensures rows { All (HasRows (length self.now.terms)) result.now.literals.items }
    {
        &self.clauses[i as usize]
    }

    /// How many clauses there are.
    pub fn clauses(&self) -> u32
        ensures count { result ≡ length self.now.clauses }
        ensures valid { IsValid self.now }
    {
        self.clauses.len() as u32
    }

    /// The symbols that the clauses' numbers are of.
    pub fn symbols(&self) -> &Symbols
        ensures { result.now ≡ self.now.symbols }
    {
        &self.symbols
    }

    /// The terms that the literals' rows are of.
    pub fn terms(&self) -> &TermTable
        ensures { result.now ≡ self.now.terms }
    {
        &self.terms
    }

    /// The start clauses by index, in rising order.
    pub fn starts(&self, alloc: Global, start: Start) -> Result<Vec<u32>, AllocError>
        ensures { IfOk result (λ indices. indices.items ≡ start_clauses start self.now.clauses) }
    {
        let mut indices = Vec::new(alloc);
        for (i, clause) in self.clauses.iter().enumerate() {
            if clause.is_start(start) {
                indices.push(i as u32)?;
            }
        }
        Ok(indices)
    }
}

impl Clause {
    // Whether a tableau may start with the clause.
    fn is_start(&self, start: Start) -> bool
        ensures { (terms : List Term) → result ≡ is_start start (clause_of terms self.now) }
    {
        match start {
            Start::Negative => self.is_negative(),
            Start::All => true,
            Start::Goal => self.role.as_str() == "negated_conjecture",
        }
    }
    // Whether no literal is positive.
    fn is_negative(&self) -> bool
        ensures { result ≡ list_all (λ literal. not literal.positive) self.now.literals.items }
    {
        self.literals.iter().all(|literal| !literal.positive)
    }
}

#[cfg(test)]
mod tests {
    use super::*;
    use crate::symbols::Kind;
    use std::test::Fail;

    // The clause of one literal, the symbol 0 with no arguments.
    fn unit_clause(alloc: Global, positive: bool, role: &str) -> Result<Clause, AllocError>
        ensures one { IfOk result (λ clause. length clause.literals.items ≡ 1) }
        ensures symbol { IfOk result
            (λ clause. All (λ literal. literal.predicate ≡ 0) clause.literals.items) }
        ensures args { IfOk result
            (λ clause. All (λ literal. literal.args.items ≡ []) clause.literals.items) }
    {
        let mut literals = Vec::new(alloc);
        literals.push(Literal {
            positive,
            predicate: 0,
            args: Vec::new(alloc),
        })?;
        Ok(Clause {
            name: Name::Word(String::from_str(alloc, "c")?),
            role: String::from_str(alloc, role)?,
            vars: 0,
            literals,
        })
    }

    // The problem of `p` and `~p`, whose second clause is the negated conjecture.
    fn contradiction(alloc: Global) -> Result<Problem, AllocError>
        ensures { IfOk result (λ problem. length problem.clauses ≡ 2) }
    {
        let mut symbols = Symbols::new(alloc);
        symbols.number("p", 0, Kind::Predicate)?;
        let mut clauses = Vec::new(alloc);
        clauses.push(unit_clause(alloc, true, "axiom")?)?;
        clauses.push(unit_clause(alloc, false, "negated_conjecture")?)?;
        Ok(Problem::new(symbols, TermTable::new(alloc), clauses))
    }

    #[test]
    fn start_clauses_by_rule(rt: HostRuntime) -> Result<(), Fail> {
        let problem = contradiction(rt.alloc())?;
        let negative = problem.starts(rt.alloc(), Start::Negative)?;
        let all = problem.starts(rt.alloc(), Start::All)?;
        let goal = problem.starts(rt.alloc(), Start::Goal)?;
        assert_eq!(rt; negative.as_slice(), [1].as_slice());
        assert_eq!(rt; all.as_slice(), [0, 1].as_slice());
        assert_eq!(rt; goal.as_slice(), [1].as_slice());
        Ok(())
    }

    #[test]
    fn parts_of_a_problem(rt: HostRuntime) -> Result<(), Fail> {
        let problem = contradiction(rt.alloc())?;
        assert_eq!(rt; problem.clauses(), 2);
        assert_eq!(rt; problem.clause(1).role.as_str(), "negated_conjecture");
        assert_eq!(rt; problem.symbols().len(), 1);
        assert_eq!(rt; problem.terms().len(), 0);
        Ok(())
    }
}
