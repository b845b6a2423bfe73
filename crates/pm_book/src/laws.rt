//! The laws of books: what holds of every history, whoever made its events.
ghost use Rattle.std.specs.Prelude.{ℕ, Bool, List};
ghost use Rattle.pm_choice.specs.Entries.{entries_of};
ghost use Rattle.pm_book.specs.Always.{EachReplayHolds, EachListIsInOneRow, EachEventCoversItsRow};
ghost use Rattle.pm_book.specs.Honest.{SettledBooksTell};
ghost use Rattle.pm_book.specs.Fronts.{FrontsTell, FrontsStop};

/// After every list of events the rows tile from the empty list to the end, their numbers are those
/// below the number of rows, no Queued row is above best and each Dropped row is, and best lies in
/// a row that was found.
pub fn each_replay_holds()
    ensures { EachReplayHolds }
{}

/// After every list of events each choice list is in the interval of one row, and of no other.
pub fn each_list_is_in_one_row()
    ensures { EachListIsInOneRow }
{}

/// What an event puts in the place of its row covers exactly that row's lists, each once.
pub fn each_event_covers_its_row()
    ensures { EachEventCoversItsRow }
{}

/// Let some choice lists be counted, some of them marked, and let a book's events be honest for
/// them and the book be settled for a number. Where the work of its front is greater than the
/// number, more than so many of the lists have no marked one before them. Else, where the front's
/// last row was found, best is the first marked list, and the work is the number of lists up to it.
/// Else no list is marked, and the work is the number of all.
pub fn settled_books_tell()
    ensures { (all : List (List ℕ)) (marked : List ℕ → Bool)
        → SettledBooksTell (entries_of all marked) }
{}

/// Let some choice lists be counted, some of them marked, let each row of a book's front tell the
/// truth of them, whoever made its events, and let the book be settled for a number. Then it tells
/// what `settled_books_tell` says of a book whose events are honest.
pub fn fronts_tell()
    ensures { (all : List (List ℕ)) (marked : List ℕ → Bool) → FrontsTell (entries_of all marked) }
{}

/// A row isn't above best where none of the rows before it was found. So neither a row of the front
/// nor the row after it is Dropped, unless it comes after the front's found row.
pub fn fronts_stop()
    ensures { FrontsStop }
{}
