//! The two inner loops of the search, on vectors of four places.
//!
//! Most columns are short, so nothing is done before the first compare: no run up to an aligned
//! place and no look at the goal. The places at a column's end that fill no vector are read one by
//! one.
#![tactic(auto)]

ghost use Rattle.std.specs.Prelude.{◌≡◌, ◌+◌, ◌<◌, ◌≤◌, ◌==◌, position, length, slice_index};
ghost use Rattle.std.specs.Slice.Scan.{IsFirstPlace, Marks};
ghost use Rattle.pm_lanes.specs.Lanes.{agrees, is_compatible};
ghost use Rattle.pm_lanes.specs.Inside.Vectors.{IsZeroWhere};

use std::simd::prelude::*;

// The places of one vector: 16 bytes, a register of every processor that the compiler builds for.
const LANES: usize = 4;

/// The first place from `from` on at which the goal's four numbers agree with those of the columns,
/// or the columns' length where there is none. Two numbers agree where both are the same or one is
/// 0, which stands for no symbol.
pub fn next_compatible(
    goal: [u32; 4],
    c0: &[u32],
    c1: &[u32],
    c2: &[u32],
    c3: &[u32],
    from: usize,
) -> usize
    requires c1_as_long { length c1.now ≡ length c0.now }
    requires c2_as_long { length c2.now ≡ length c0.now }
    requires c3_as_long { length c3.now ≡ length c0.now }
    requires from_within { from ≤ length c0.now }
    ensures { IsFirstPlace
        (is_compatible goal c0.now c1.now c2.now c3.now) from (length c0.now) result }
{
    let mut at = from;
    'vectors: while c0.len() - at >= LANES {
        let found = compatible_lanes(goal, c0, c1, c2, c3, at);
        if found != 0 {
            return at + found.trailing_zeros() as usize;
        }
        at += LANES;
    }
    for place in at..c0.len() {
        if is_compatible(goal, c0, c1, c2, c3, place) {
            return place;
        }
    }
    c0.len()
}

/// The first place of `id` in `ids`.
pub fn find_id(ids: &[u32], id: u32) -> Option<usize>
    ensures { result ≡ position (λ x. x == id) ids.now }
{
    let mut at = 0;
    'vectors: while ids.len() - at >= LANES {
        let found = equal_lanes(ids, id, at);
        if found != 0 {
            return Some(at + found.trailing_zeros() as usize);
        }
        at += LANES;
    }
    for place in at..ids.len() {
        if ids[place] == id {
            return Some(place);
        }
    }
    None
}

fn is_compatible(
    goal: [u32; 4],
    c0: &[u32],
    c1: &[u32],
    c2: &[u32],
    c3: &[u32],
    place: usize,
) -> bool
    requires in_c0 { place < length c0.now }
    requires in_c1 { place < length c1.now }
    requires in_c2 { place < length c2.now }
    requires in_c3 { place < length c3.now }
    ensures { result ≡ is_compatible goal c0.now c1.now c2.now c3.now place }
{
    agrees(goal[0], c0[place])
        && agrees(goal[1], c1[place])
        && agrees(goal[2], c2[place])
        && agrees(goal[3], c3[place])
}

fn agrees(wanted: u32, entry: u32) -> bool
    ensures { result ≡ agrees wanted entry }
{
    entry == wanted || entry == 0 || wanted == 0
}

// A bit for each place of one vector, the first the lowest: it is set where the place is
// compatible.
#[inline(always)]
fn compatible_lanes(
    goal: [u32; 4],
    c0: &[u32],
    c1: &[u32],
    c2: &[u32],
    c3: &[u32],
    at: usize,
) -> u64
    requires in_c0 { at + LANES ≤ length c0.now }
    requires in_c1 { at + LANES ≤ length c1.now }
    requires in_c2 { at + LANES ≤ length c2.now }
    requires in_c3 { at + LANES ≤ length c3.now }
    ensures { Marks (is_compatible goal c0.now c1.now c2.now c3.now) at LANES result }
{
    let clashes = clashes_in(c0, goal[0], at)
        | clashes_in(c1, goal[1], at)
        | clashes_in(c2, goal[2], at)
        | clashes_in(c3, goal[3], at);
    clashes.simd_eq(u32x4::splat(0)).to_bitmask()
}

// The lane of each place: the least of its number, `wanted` and the bits in which both differ.
#[inline(always)]
fn clashes_in(column: &[u32], wanted: u32, at: usize) -> u32x4
    requires { at + LANES ≤ length column.now }
    ensures { IsZeroWhere (λ place. agrees wanted (slice_index column.now place)) at result }
{
    let entries = u32x4::from_slice(&column[at..]);
    let wanted = u32x4::splat(wanted);
    entries.simd_min(wanted).simd_min(entries ^ wanted)
}

// The same of the places that hold `id`.
#[inline(always)]
fn equal_lanes(ids: &[u32], id: u32, at: usize) -> u64
    requires { at + LANES ≤ length ids.now }
    ensures { Marks (λ place. slice_index ids.now place == id) at LANES result }
{
    u32x4::from_slice(&ids[at..])
        .simd_eq(u32x4::splat(id))
        .to_bitmask()
}

#[cfg(test)]
mod tests {
    use super::*;

    #[test]
    fn worked_values(rt: HostRuntime) {
        let symbols = [3, 5, 0, 7, 5];
        let none = [0; 5];
        for (from, want) in [(0, 1), (2, 2), (3, 4), (5, 5)] {
            let place = next_compatible([5, 0, 0, 0], &symbols, &none, &none, &none, from);
            assert_eq!(rt; place, want, "from {from}");
        }
        let ids = [0, 4, 9, 4, 6];
        for (id, want) in [(4, Some(1)), (6, Some(4)), (7, None)] {
            assert_eq!(rt; find_id(&ids, id), want, "the id {id}");
        }
    }

    // One hit at each place, in each column, and none at all.
    #[test]
    fn every_length_and_place(rt: HostRuntime) {
        let goal = [1, 2, 3, 4];
        let other = [9u32; 70];
        for length in 0..=70 {
            let clashing = &other[..length];
            for hit in 0..=length {
                let mut column = [8u32; 70];
                let mut wanted = [9u32; 70];
                if hit < length {
                    column[hit] = 7;
                    wanted[hit] = 0;
                }
                let place = find_id(&column[..length], 7);
                let want = if hit < length { Some(hit) } else { None };
                assert_eq!(rt; place, want, "of {length}");
                let column = &wanted[..length];
                let place = next_compatible([1, 0, 0, 0], column, clashing, clashing, clashing, 0);
                assert_eq!(rt; place, hit, "of {length}");
                let place = next_compatible([0, 2, 0, 0], clashing, column, clashing, clashing, 0);
                assert_eq!(rt; place, hit, "of {length}");
                let place = next_compatible([0, 0, 3, 0], clashing, clashing, column, clashing, 0);
                assert_eq!(rt; place, hit, "of {length}");
                let place = next_compatible([0, 0, 0, 4], clashing, clashing, clashing, column, 0);
                assert_eq!(rt; place, hit, "of {length}");
                let place = next_compatible(goal, column, column, column, column, 0);
                assert_eq!(rt; place, hit, "of {length}");
            }
        }
    }
}
