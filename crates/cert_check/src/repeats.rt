//! Repeated entries of a list.

ghost use Rattle.std.specs.Prelude.{◌≡◌, ◌<◌, ◌^◌, ◌↔◌, IfOk, IsSorted, IsTrue, MatchOption, length, min, slice_get};
ghost use Rattle.std.specs.Prelude.{option_copied};
ghost use Rattle.match_limits.specs.First.{IsLeast};
ghost use Rattle.match_puzzle.specs.Arrangement.{AreDistinct};
ghost use Rattle.cert_check.specs.Answer.{RepeatsEarlier};
ghost use Rattle.cert_check.specs.Walk.{TellsOfRepeats};
ghost use Rattle.cert_check.specs.Repeats.{AreEqualAt, AreItsPlaces, key_of, keyed_cmp, with_number};

use match_puzzle::{Arrangement, Placement};
use std::alloc::{AllocError, Global};
use std::cmp::Ordering;

// An odd number whose products have digits without a visible order: 2^64 divided by the golden ratio.
const SPREAD: u64 = 0x9E37_79B9_7F4A_7C15;

// The place of an entry, and a number made of the entry.
#[derive(Clone, Copy)]
pub(crate) struct KeyedPlace {
    key: u64,
    place: u32,
}

/// Returns the first listed entry that equals an earlier one; `None` where all are different.
///
/// A list that rises needs no memory; any other needs 16 bytes for each entry. Whole entries are compared O(n log n)
/// times at most, and hardly ever unless the list was made so that different entries get the same hash.
pub fn first_repeated(alloc: Global, listed: &[Arrangement]) -> Result<Option<u32>, AllocError>
    requires { length listed.now < 2 ^ 32 }
    ensures { IfOk result (TellsOfRepeats listed.now) }
{
    if rises(listed) {
        return Ok(None);
    }
    let mut places = keyed_places(alloc, listed)?;
    sort(listed, &mut places);
    Ok(least_repeated(listed, &places))
}

// Whether each entry is less than the next one.
fn rises(listed: &[Arrangement]) -> bool
    ensures { IsTrue result → AreDistinct listed.now }
{
    listed.is_sorted_by(|earlier, later| earlier.placements() < later.placements())
}

// The places of the list, in order.
fn keyed_places(alloc: Global, listed: &[Arrangement]) -> Result<Vec<KeyedPlace>, AllocError>
    requires { length listed.now < 2 ^ 32 }
    ensures { IfOk result (λ places. AreItsPlaces listed.now places.items) }
{
    let mut places = Vec::with_capacity(alloc, listed.len())?;
    for (place, arrangement) in listed.iter().enumerate() {
        places.push(KeyedPlace {
            key: key(arrangement),
            place: place as u32,
        })?;
    }
    Ok(places)
}

// Adds one more number to the key.
fn spread(key: u64, number: u64) -> u64
    ensures { result ≡ with_number key number }
{
    key.wrapping_mul(SPREAD).wrapping_add(number)
}

// A number made of the entry, so that most entries are told apart without a look at them.
fn key(arrangement: &Arrangement) -> u64
    ensures { result ≡ key_of arrangement.now }
{
    let mut key: u64 = 0;
    for placement in arrangement.placements() {
        key = spread(key, u64::from(placement.tile));
        key = spread(key, u64::from(placement.turn));
    }
    key
}

// Sorts the places so that those of equal entries are next to each other, rising.
fn sort(listed: &[Arrangement], places: &mut Vec<KeyedPlace>)
    requires { AreItsPlaces listed.now places.old.items }
    ensures places { AreItsPlaces listed.now places.new.items }
    ensures sorted { IsSorted (keyed_cmp listed.now) places.new.items }
{
    places.sort_unstable_by(|x, y| compare(listed, *x, *y));
}

// Compares by key, then by entry, then by place.
fn compare(listed: &[Arrangement], x: KeyedPlace, y: KeyedPlace) -> Ordering
    ensures { result ≡ keyed_cmp listed.now x y }
{
    x.key
        .cmp(&y.key)
        .then_with(|| placements_at(listed, x).cmp(&placements_at(listed, y)))
        .then(x.place.cmp(&y.place))
}

fn placements_at<'a>(listed: &'a [Arrangement], at: KeyedPlace) -> Option<&'a [Placement]>
    ensures { option_copied result ≡ slice_get listed.now at.place }
{
    match listed.get(at.place as usize) {
        None => None,
        Some(arrangement) => Some(arrangement.placements()),
    }
}

// The first place whose entry equals an earlier one: the least place that follows an equal neighbour.
fn least_repeated(listed: &[Arrangement], places: &[KeyedPlace]) -> Option<u32>
    requires places { AreItsPlaces listed.now places.now }
    requires sorted { IsSorted (keyed_cmp listed.now) places.now }
    ensures { MatchOption result (AreDistinct listed.now) (IsLeast (RepeatsEarlier listed.now)) }
{
    let mut least = None;
    for next in 1..places.len() {
        if are_equal(listed, places[next - 1], places[next]) {
            let place = places[next].place;
            least = Some(lesser(least, place));
        }
    }
    least
}

// The less of two places, of which the first may be missing.
fn lesser(least: Option<u32>, place: u32) -> u32
    ensures { MatchOption least (result ≡ place) (λ other. result ≡ min other place) }
{
    match least {
        None => place,
        Some(other) => other.min(place),
    }
}

// Whether the entries at the two places are equal.
fn are_equal(listed: &[Arrangement], x: KeyedPlace, y: KeyedPlace) -> bool
    requires first { x.place < length listed.now }
    requires second { y.place < length listed.now }
    requires alike { AreEqualAt listed.now x y → x.key ≡ y.key }
    ensures { IsTrue result ↔ AreEqualAt listed.now x y }
{
    x.key == y.key && listed[x.place as usize] == listed[y.place as usize]
}
