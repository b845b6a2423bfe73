//! Matching: which terms, put for the variables of one table's terms, give those of another.
ghost use Rattle.std.specs.Prelude.{◌≡◌, ◌<◌, All, Contains, List, MatchBool, length};
ghost use Rattle.pm_logic.specs.Term.{Term};
ghost use Rattle.pm_logic.specs.View.{HasRows};
ghost use Rattle.pm_check.specs.Inside.Matching.{AreThere, Clashes, Give, MeetAll, MeetLiteral, Meets, NoneGive, NoneGiveLiteral, TakesAllApart, TakesApart};

use crate::images::{Images, Match};
use pm_logic::{Literal, Row, TermId, TermTable};

// Gives the row this image, if it has none yet. Else it answers whether the two are the same term.
fn meet(images: &mut Images, target: &TermTable, row: TermId, image: TermId) -> bool
    requires row { row < images.old.count }
    requires image { image < length target.now }
    requires images { All (λ m. m.image < length target.now) images.old.matches }
    ensures answer { MatchBool result
        (Meets target.now images.old.matches images.new.matches row image)
        (Clashes target.now images.old.matches row image) }
    ensures count { images.new.count ≡ images.old.count }
{
    match images.image(row) {
        Some(other) => target.equal(other, image),
        None => {
            images.add(row, image);
            true
        }
    }
}

// Gives each of the rows the image at its place.
fn meet_all(images: &mut Images, target: &TermTable, rows: &[TermId], others: &[TermId]) -> bool
    requires rows { All (λ row. row < images.old.count) rows.now }
    requires others { All (λ other. other < length target.now) others.now }
    requires images { All (λ m. m.image < length target.now) images.old.matches }
    ensures answer { MatchBool result
        (MeetAll target.now images.old.matches images.new.matches rows.now others.now)
        (NoneGive target.now images.old.matches rows.now others.now) }
    ensures count { images.new.count ≡ images.old.count }
{
    if rows.len() != others.len() {
        return false;
    }
    'rows: for i in 0..rows.len() {
        if !meet(images, target, rows[i], others[i]) {
            return false;
        }
    }
    true
}

/// Matches the second literal with the first.
pub fn meet_literal(
    images: &mut Images,
    target: &TermTable,
    literal: &Literal,
    other: &Literal,
) -> bool
    requires rows { HasRows images.old.count literal.now }
    requires others { HasRows (length target.now) other.now }
    requires images { All (λ m. m.image < length target.now) images.old.matches }
    ensures answer { MatchBool result
        (MeetLiteral target.now images.old.matches images.new.matches literal.now other.now)
        (NoneGiveLiteral target.now images.old.matches literal.now other.now) }
    ensures count { images.new.count ≡ images.old.count }
{
    if literal.positive != other.positive {
        return false;
    }
    if literal.predicate != other.predicate {
        return false;
    }
    meet_all(
        images,
        target,
        literal.args.as_slice(),
        other.args.as_slice(),
    )
}

// Matches the arguments of a row with those of its image.
fn take_apart(images: &mut Images, source: &TermTable, target: &TermTable, found: Match) -> bool
    requires count { images.old.count ≡ length source.now }
    requires there { AreThere (length source.now) (length target.now) images.old.matches }
    requires found { Contains images.old.matches found }
    ensures answer { MatchBool result
        (TakesApart source.now target.now images.old.matches images.new.matches found)
        ((terms : List Term) → ¬ Give source.now target.now terms images.old.matches) }
    ensures count { images.new.count ≡ images.old.count }
{
    match source.look(found.row) {
        Row::Var(_) => true,
        Row::App { symbol, args } => match target.look(found.image) {
            Row::Var(_) => false,
            Row::App {
                symbol: other,
                args: others,
            } => {
                if symbol != other {
                    return false;
                }
                meet_all(images, target, args, others)
            }
        },
    }
}

/// Matches the arguments of all rows that have an image with those of the image, and theirs in
/// turn, each row once.
pub fn take_all_apart(images: &mut Images, source: &TermTable, target: &TermTable) -> bool
    requires count { images.old.count ≡ length source.now }
    requires there { AreThere (length source.now) (length target.now) images.old.matches }
    ensures answer { MatchBool result
        (TakesAllApart source.now target.now images.old.matches images.new.matches)
        ((terms : List Term) → ¬ Give source.now target.now terms images.old.matches) }
    ensures count { images.new.count ≡ images.old.count }
{
    let mut next = 0;
    'matches: while next < images.len() {
        let found = images.at(next);
        if !take_apart(images, source, target, found) {
            return false;
        }
        next += 1;
    }
    true
}
