//! Complementary literals, compared by the rows of their terms.
ghost use Rattle.std.specs.Prelude.{◌≡◌, ◌<◌, All, length, map};
ghost use Rattle.pm_logic.specs.Term.{as_terms, tree_at};
ghost use Rattle.pm_logic.specs.View.{HasRows, literal_of};
ghost use Rattle.pm_lift.specs.Inside.Complements.{are_same, complements};

use pm_logic::{Literal, TermId, TermTable};

/// Whether the literals have opposite signs, the same predicate and the same arguments.
pub fn are_complementary(terms: &TermTable, a: &Literal, b: &Literal) -> bool
    requires left { HasRows (length terms.now) a.now }
    requires right { HasRows (length terms.now) b.now }
    ensures { result ≡ complements (literal_of terms.now a.now) (literal_of terms.now b.now) }
{
    a.positive != b.positive
        && a.predicate == b.predicate
        && are_equal(terms, a.args.as_slice(), b.args.as_slice())
}

// Whether the rows are of the same terms.
fn are_equal(terms: &TermTable, a: &[TermId], b: &[TermId]) -> bool
    requires left { All (λ row. row < length terms.now) a.now }
    requires right { All (λ row. row < length terms.now) b.now }
    ensures { result ≡ are_same
        (as_terms (map (tree_at terms.now) a.now))
        (as_terms (map (tree_at terms.now) b.now)) }
{
    if a.len() != b.len() {
        return false;
    }
    'rows: for i in 0..a.len() {
        if !terms.equal(a[i], b[i]) {
            return false;
        }
    }
    true
}
