//! The images that rows of one table of terms have among the rows of another.
ghost use Rattle.std.specs.Prelude.{◌≡◌, ◌<◌, ◌≤◌, ◌++◌, ◌∷◌, [], ℕ, Some, Contains, IfOk, MatchOption, length, slice_get};
ghost use Rattle.pm_check.specs.Inside.Images.{AreSingle, none_of, sent};

use pm_logic::TermId;
use std::alloc::{AllocError, Global};
use std::marker::Model;

/// A row of the first table, and the row of the second that is its image.
#[derive(Clone, Copy, Debug)]
pub struct Match {
    pub row: TermId,
    pub image: TermId,
}

/// Which rows of the first table have an image: seen as the matches in the order in which they were
/// found.
#[derive(Drop)]
pub struct Images {
    // For each row its image, if it has one.
    rows: Vec<Option<TermId>>,
    matches: Vec<Match>,
}

impl Model for Images {
    ghost use Rattle.std.specs.Prelude.{length, vec_capacity};
    ghost use Rattle.pm_check.specs.Inside.Images.{Found, AreKept};

    ghost Value = { Found };

    ghost view = { λ a. record { count = length a.rows.items; matches = a.matches.items } };

    ghost invariant = { λ a. AreKept a.rows.items a.matches.items (vec_capacity a.matches) };
}

impl Images {
    /// No images, with room for those of so many rows.
    pub fn with_room(alloc: Global, count: usize) -> Result<Images, AllocError>
        ensures { IfOk result (λ images. images ≡ none_of count) }
    {
        Ok(Images {
            rows: vec![in alloc; None; count]?,
            matches: Vec::with_capacity(alloc, count)?,
        })
    }

    /// The image of the row, if it has one.
    pub fn image(&self, row: TermId) -> Option<TermId>
        requires { row < self.now.count }
        ensures { MatchOption result
            ((image : ℕ) → ¬ Contains self.now.matches (sent row image))
            (λ image. Contains self.now.matches (sent row image)) }
    {
        self.rows[row.row()]
    }

    /// Gives a row its image, which it hasn't yet.
    pub fn add(&mut self, row: TermId, image: TermId)
        requires row { row < self.old.count }
        requires free { (other : ℕ) → ¬ Contains self.old.matches (sent row other) }
        ensures { self.new ≡ record {
          count = self.old.count;
          matches = self.old.matches ++ sent row image ∷ [];
        } }
    {
        self.rows[row.row()] = Some(image);
        self.matches.push_reserved(Match { row, image });
    }

    /// How many rows have an image.
    pub fn len(&self) -> usize
        ensures count { result ≡ length self.now.matches }
        ensures few { length self.now.matches ≤ self.now.count }
        ensures single { AreSingle self.now.matches }
    {
        self.matches.len()
    }

    /// The match of this number.
    pub fn at(&self, k: usize) -> Match
        requires { k < length self.now.matches }
        ensures { slice_get self.now.matches k ≡ Some result }
    {
        self.matches[k]
    }

    /// Takes all images back.
    pub fn clear(&mut self)
        ensures { self.new ≡ none_of self.old.count }
    {
        'matches: while let Some(found) = self.matches.pop() {
            self.rows[found.row.row()] = None;
        }
    }
}
