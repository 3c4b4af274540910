//! Places in slices: leads, room for a reach, zeros at the end, and places that are made of others.
ghost use Rattle.std.specs.Prelude.{◌≡◌, ◌≢◌, ℕ, ◌+◌, ◌-◌, ◌^◌, ◌<◌, ◌≤◌, ◌⊎◌, ◌↔◌, [], ◌∷◌, ◌++◌, length, take, drop, slice_index, IsTrue};
ghost use Rattle.tumbler.specs.Places.{most_places, place, IsUpTo, sum, fits, Fits, difference, width_at, trimmed};
ghost use Rattle.tumbler.specs.Reach.{lead, greater, HasRoom};

use crate::places::Places;
use std::alloc::Global;

/// The place at `k`; a missing place is 0.
fn place_at(places: &[u32], k: usize) -> u32
    ensures { result ≡ place places.now k }
{
    places.get(k).copied().unwrap_or(0)
}

/// The length of the lead: the number of places up to and with the first one that is not 0.
#[tactic(auto, using(crate::proofs::ReachSteps::reaches))]
pub(crate) fn lead_len(places: &[u32]) -> usize
    ensures within { result ≤ length places.now }
    ensures front { take result places.now ≡ lead places.now }
{
    for (k, place) in places.iter().enumerate() {
        if *place != 0 {
            return k + 1;
        }
    }
    places.len()
}

/// Whether a base leaves room for a reach: at each index the sum of both places stays below 2^32.
#[tactic(auto, using(crate::proofs::ReachSteps::reaches))]
pub(crate) fn room_for(a: &[u32], reach: &[u32]) -> bool
    ensures { IsTrue result ↔ HasRoom a.now reach.now }
{
    for (k, x) in reach.iter().enumerate() {
        if place_at(a, k).checked_add(*x).is_none() {
            return false;
        }
    }
    true
}

/// The number of places without the zeros at the end.
#[tactic(auto, using(crate::proofs::JustBefore::trims))]
pub(crate) fn trimmed_len(places: &[u32]) -> usize
    ensures within { result ≤ length places.now }
    ensures front { take result places.now ≡ trimmed places.now }
{
    let mut n = 0;
    for (k, place) in places.iter().enumerate() {
        if *place != 0 {
            n = k + 1;
        }
    }
    n
}

/// The width of `n` places in a row that differ at the last of `long` places: zeros, and `n` there.
pub(crate) fn last_at(alloc: Global, long: usize, n: u32) -> Places
    requires few { long ≤ most_places }
    ensures { result ≡ width_at long n }
{
    let mut held = Places::none(alloc);
    if long == 0 {
        return held;
    }
    if n == 0 {
        return held;
    }
    for _ in 0..long - 1 {
        held.push(0);
    }
    held.push(n);
    held
}

/// The places and then `last`.
pub(crate) fn with_last(alloc: Global, places: &[u32], last: u32) -> Places
    requires { length places.now < most_places }
    ensures { result ≡ places.now ++ last ∷ [] }
{
    let mut held = Places::from_slice(alloc, places);
    held.push(last);
    held
}
