//! Steps from place to place in a space.
//!
//! A place is the path of the space followed by a choice, which needn't be an alternative. Beside
//! it stand the widths of the prefixes of the path.
ghost use Rattle.std.specs.Prelude.{◌≡◌, ◌<◌, ◌≤◌, List, ℕ, [], ◌∷◌, ◌++◌, IfOk, OnOk, OnErr, IsTrue, IsFalse, MatchBool};
ghost use Rattle.pm_space.specs.Key.{Agree};
ghost use Rattle.pm_choice.specs.Order.{Precedes, PrecedesBound};
ghost use Rattle.pm_choice.specs.declared.Bound.TheVariants.{End};
ghost use Rattle.pm_search.specs.Attempts.{IsAttempt};
ghost use Rattle.pm_search.specs.Inside.Places.{IsSearchPlace, SameBelow, NoneLeft, IsStageAt, HasTried, HasEntered, AreHopeless};

use super::Stage;
use pm_choice::{Bound, Choices, precedes};
use pm_space::Space;
use std::alloc::AllocError;

/// Goes down to a list as far as it is reached, to a place with the same attempts below it.
pub fn descend<S: Space>(
    space: &mut S,
    list: &[u32],
    place: &mut Vec<u32>,
    widths: &mut Vec<u32>,
) -> Result<(), AllocError>
    requires path { S.path space.old ≡ [] }
    requires place { place.old.items ≡ [] }
    requires widths { widths.old.items ≡ [] }
    ensures place { OnOk result
        (IsSearchPlace (S.key space.old) (S.path space.new) place.new.items widths.new.items) }
    ensures same { OnOk result (SameBelow (S.key space.old) list.now place.new.items) }
    ensures key { Agree (S.key space.new) (S.key space.old) }
{
    let Some((last, before)) = list.split_last() else {
        widths.push(space.width())?;
        place.push(0)?;
        return Ok(());
    };
    'down: for choice in before {
        let width = space.width();
        widths.push(width)?;
        if width <= *choice {
            place.push(*choice)?;
            return Ok(());
        }
        if !space.step(*choice)? {
            place.push(*choice + 1)?;
            return Ok(());
        }
        place.push(*choice)?;
    }
    widths.push(space.width())?;
    place.push(*last)?;
    Ok(())
}

/// Tries the list at a place. Where it is complete, answers it. Else goes on: to the first choice
/// after it where it is reached, and to the next choice beside it where it isn't. After want of
/// memory all is as before.
pub fn try_place<S: Space>(
    space: &mut S,
    place: &mut Vec<u32>,
    widths: &mut Vec<u32>,
) -> Result<Option<Choices>, AllocError>
    requires place { IsSearchPlace (S.key space.old)
        (S.path space.old) place.old.items widths.old.items }
    requires attempt { IsAttempt (S.key space.old) place.old.items }
    ensures ok { IfOk result (HasTried (S.key space.old) (S.path space.new)
        place.old.items place.new.items widths.new.items) }
    ensures path { OnErr result (S.path space.new ≡ S.path space.old) }
    ensures place { OnErr result (place.new.items ≡ place.old.items) }
    ensures widths { OnErr result (widths.new.items ≡ widths.old.items) }
    ensures key { Agree (S.key space.new) (S.key space.old) }
{
    let last = place.len() - 1;
    let choice = place[last];
    if !space.step(choice)? {
        place[last] = choice + 1;
        return Ok(None);
    }
    match enter(space, place, widths) {
        Ok(found) => Ok(found),
        Err(error) => {
            space.back();
            Err(error)
        }
    }
}

// Answers the path where it is complete, and else puts the place at the first choice after it.
// After want of memory all is as before.
fn enter<S: Space>(
    space: &S,
    place: &mut Vec<u32>,
    widths: &mut Vec<u32>,
) -> Result<Option<Choices>, AllocError>
    requires path { place.old.items ≡ S.path space.now }
    requires widths { (path : List ℕ)
        × IsSearchPlace (S.key space.now) path place.old.items widths.old.items }
    ensures ok { IfOk result
        (HasEntered (S.key space.now) place.old.items place.new.items widths.new.items) }
    ensures place { OnErr result (place.new.items ≡ place.old.items) }
    ensures widths { OnErr result (widths.new.items ≡ widths.old.items) }
{
    if space.is_complete() {
        return Ok(Some(Choices::from_slice(*place.allocator(), place)?));
    }
    place.push(0)?;
    if widths.push(space.width()).is_err() {
        let _choice = place.pop();
        return Err(AllocError);
    }
    Ok(None)
}

/// Passes the lists beside one another, from the one at a place on, that the space knows to be
/// unreached: at most `most`, and only such as are below the bound. Tells how many; none only where
/// the list at the place may be reached.
pub fn pass_hopeless<S: Space>(space: &S, place: &mut Vec<u32>, to: &Bound, most: u64) -> u32
    requires most { 0 < most }
    requires attempt { IsAttempt (S.key space.now) place.old.items }
    requires path { (choice : ℕ) × (place.old.items ≡ S.path space.now ++ choice ∷ []) }
    requires below { PrecedesBound place.old.items to.now }
    ensures most { result ≤ most }
    ensures same { result ≡ 0 → place.new.items ≡ place.old.items }
    ensures passed { AreHopeless (S.key space.now)
        (S.path space.now) place.old.items place.new.items to.now result }
{
    let last = place.len() - 1;
    let choice = place[last];
    let hopeless = space.hopeful(choice) - choice;
    if hopeless == 0 {
        return 0;
    }
    let count = u64::from(hopeless).min(most) as u32;
    place[last] = choice + (count - 1);
    if precedes(place, to) {
        place[last] = choice + count;
        return count;
    }
    place[last] = choice + 1;
    1
}

/// Goes up from a place, or stays, to the least attempt that isn't below it; tells whether there is
/// one below the bound.
pub fn settle<S: Space>(
    space: &mut S,
    place: &mut Vec<u32>,
    widths: &mut Vec<u32>,
    to: &Bound,
) -> Stage
    requires { IsSearchPlace (S.key space.old) (S.path space.old) place.old.items widths.old.items }
    ensures place { IsSearchPlace (S.key space.old)
        (S.path space.new) place.new.items widths.new.items }
    ensures same { SameBelow (S.key space.old) place.old.items place.new.items }
    ensures settled { IsStageAt (S.key space.old) place.new.items to.now result }
    ensures key { Agree (S.key space.new) (S.key space.old) }
{
    if climb(space, place, widths) && precedes(place, to) {
        Stage::Attempting
    } else {
        Stage::Ended
    }
}

// Goes up from a place, or stays, to the next one that has its choice as an alternative. False
// where there is none.
fn climb<S: Space>(space: &mut S, place: &mut Vec<u32>, widths: &mut Vec<u32>) -> bool
    requires { IsSearchPlace (S.key space.old) (S.path space.old) place.old.items widths.old.items }
    ensures place { IsSearchPlace (S.key space.old)
        (S.path space.new) place.new.items widths.new.items }
    ensures same { SameBelow (S.key space.old) place.old.items place.new.items }
    ensures attempt { IsTrue result → IsAttempt (S.key space.old) place.new.items }
    ensures none { IsFalse result → NoneLeft (S.key space.old) place.new.items End }
    ensures key { Agree (S.key space.new) (S.key space.old) }
{
    let mut last = place.len() - 1;
    'up: while widths[last] <= place[last] {
        if last == 0 {
            return false;
        }
        let _choice = place.pop();
        let _width = widths.pop();
        space.back();
        last -= 1;
        let choice = place[last];
        place[last] = choice + 1;
    }
    true
}
