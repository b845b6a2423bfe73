//! Spaces of choice lists: what a search needs of them, whatever the choices are about.
#![tactic(auto)]

ghost use Rattle.std.specs.Prelude.{◌≡◌, ℕ, ◌<◌, ◌≤◌, ◌↔◌, List, [], ◌∷◌, ◌++◌, length, IsTrue, MatchBool, IfOk, OnErr};
ghost use Rattle.pm_space.specs.Key.{Agree, IsKey, Key};

use std::alloc::{AllocError, Global};

mod toy;

pub use toy::{ToyMaker, ToySpace};

/// A place in a space of choice lists.
///
/// Its meanings are the path (`path`), a reached choice list, and the key (`key`): how many
/// alternatives come after each list, which lists are reached and which are complete. No call
/// changes the key.
pub trait Space: Drop {
    ghost path: { Self → List ℕ };

    ghost key: { Self → Key };

    /// The number of alternatives after the path.
    fn width(&self) -> u32
        ensures width { result ≡ (key self.now).width (path self.now) }
        ensures reached { (key self.now).reached (path self.now) };

    /// Whether the path is complete.
    fn is_complete(&self) -> bool
        ensures { IsTrue result ↔ (key self.now).complete (path self.now) };

    /// The number of choices in the path.
    fn length(&self) -> usize
        ensures { result ≡ length (path self.now) };

    /// Adds alternative `k` to the path where the longer list is reached, and else answers false
    /// and leaves the path. After want of memory the path is as before.
    fn step(&mut self, k: u32) -> Result<bool, AllocError>
        requires { k < (key self.old).width (path self.old) }
        ensures reached { IfOk result
            (λ longer. IsTrue longer ↔ (key self.old).reached (path self.old ++ k ∷ [])) }
        ensures path { IfOk result (λ longer. MatchBool longer
            (path self.new ≡ path self.old ++ k ∷ []) (path self.new ≡ path self.old)) }
        ensures err { OnErr result (path self.new ≡ path self.old) }
        ensures key { Agree (key self.new) (key self.old) };

    /// Drops the last choice of the path.
    fn back(&mut self)
        requires { 0 < length (path self.old) }
        ensures path { (k : ℕ) × (path self.old ≡ path self.new ++ k ∷ []) }
        ensures key { Agree (key self.new) (key self.old) };

    /// A number from `from` to the width below which no alternative, from `from` on, gives a
    /// reached list.
    fn hopeful(&self, from: u32) -> u32
        requires { from ≤ (key self.now).width (path self.now) }
        ensures from { from ≤ result }
        ensures width { result ≤ (key self.now).width (path self.now) }
        ensures hopeless { (k : ℕ) → from ≤ k → k < result
            → (key self.now).reached (path self.now ++ k ∷ []) → ⊥ };

    ghost is_key: { (space : Self) → IsKey (key space) };
}

/// What makes the spaces of the levels. Its meaning is the key of each level (`key_at`).
pub trait Maker {
    // A space may be searched by another thread than the one that made it.
    type Made: Space + Send;

    ghost key_at: { Self → ℕ → Key };

    /// The space of a level, at the empty path.
    fn make(&self, alloc: Global, level: u32) -> Result<Self::Made, AllocError>
        requires { level ≤ 250 }
        ensures path { IfOk result (λ space. Self.Made.path space ≡ []) }
        ensures key { IfOk result (λ space. Agree (Self.Made.key space) (key_at self.now level)) };
}

#[cfg(test)]
mod tests;
