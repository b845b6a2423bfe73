//! Literals, compared by the rows of their terms.
ghost use Rattle.std.specs.Prelude.{◌≡◌, ◌↔◌, ◌<◌, All, IsTrue, length, map};
ghost use Rattle.pm_logic.specs.Term.{tree_at};
ghost use Rattle.pm_logic.specs.View.{HasRows, literal_of};
ghost use Rattle.pm_calculus.specs.Substitution.{AreComplementary};

use pm_logic::{Literal, TermId, TermTable};

/// Whether the literals have opposite signs, the same predicate and the same terms.
pub fn are_complementary(terms: &TermTable, a: &Literal, b: &Literal) -> bool
    requires left { HasRows (length terms.now) a.now }
    requires right { HasRows (length terms.now) b.now }
    ensures { IsTrue result
        ↔ AreComplementary (literal_of terms.now a.now) (literal_of terms.now b.now) }
{
    a.positive != b.positive && is_same_atom(terms, a, b)
}

/// Whether the literals are the same.
pub fn is_same_literal(terms: &TermTable, a: &Literal, b: &Literal) -> bool
    requires left { HasRows (length terms.now) a.now }
    requires right { HasRows (length terms.now) b.now }
    ensures { IsTrue result ↔ (literal_of terms.now a.now ≡ literal_of terms.now b.now) }
{
    a.positive == b.positive && is_same_atom(terms, a, b)
}

// Whether the literals have the same predicate and the same terms.
fn is_same_atom(terms: &TermTable, a: &Literal, b: &Literal) -> bool
    requires left { HasRows (length terms.now) a.now }
    requires right { HasRows (length terms.now) b.now }
    ensures { IsTrue result ↔ (a.now.predicate ≡ b.now.predicate)
        × (map (tree_at terms.now) a.now.args.items ≡ map (tree_at terms.now) b.now.args.items) }
{
    a.predicate == b.predicate && are_same_terms(terms, a.args.as_slice(), b.args.as_slice())
}

// Whether the rows are of the same terms.
fn are_same_terms(terms: &TermTable, a: &[TermId], b: &[TermId]) -> bool
    requires left { All (λ row. row < length terms.now) a.now }
    requires right { All (λ row. row < length terms.now) b.now }
    ensures { IsTrue result ↔ (map (tree_at terms.now) a.now ≡ map (tree_at terms.now) b.now) }
{
    if a.len() != b.len() {
        return false;
    }
    'rows: for i in 0..a.len() {
        if !terms.equal(a[i], b[i]) {
            return false;
        }
    }
    true
}
