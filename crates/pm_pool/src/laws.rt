//! What a task book of a level says of it, for every space.
ghost use Rattle.std.specs.Prelude.{ℕ};
ghost use Rattle.pm_book.specs.Fronts.{FrontsTell};
ghost use Rattle.pm_book.specs.Honest.{SettledBooksTell};
ghost use Rattle.pm_search.specs.Attempts.{attempts_of};

use pm_space::{Maker, Space};

/// Let the attempts of a level be counted, its complete lists be marked, and let a book's events be
/// honest for them and the book be settled for a number. Where the work of its front is greater
/// than the number, more than so many attempts have no complete list before them, so the work of
/// the level exceeds it. Else, where the front's last row was found, best is the level's first
/// complete list, and the work of the front is its work. Else the level has no complete list, and
/// the work of the front is the number of its attempts.
pub fn settled_books_tell_of_level<S: Space>()
    ensures { (space : S) → SettledBooksTell (attempts_of (S.key space)) }
{}

/// Let each row of a book's front tell the truth of a level's attempts and complete lists, whoever
/// made the book's events, and let the book be settled for a number. Then it tells of the level what
/// `settled_books_tell_of_level` says.
pub fn fronts_tell_of_level<M: Maker>()
    ensures { (maker : M) (level : ℕ) → FrontsTell (attempts_of (M.key_at maker level)) }
{}
