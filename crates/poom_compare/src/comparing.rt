//! Diagonals from where they begin and where they end.
ghost use Rattle.std.specs.Prelude.{◌≡◌, ◌≤◌, All, IfOk, OnOk};
ghost use Rattle.std.specs.List.Sorted.{IsPermutation, IsNonDecreasingBy};
ghost use Rattle.poom_compare.specs.Segments.{IsSegment, IsSmall, by_difference, by_left, diagonal_to, paired, ComparesSegments};

use crate::compared::Compared;
use crate::ends::ends;
use crate::segment::Segment;
use crate::starts::starts;
use febe_data::Diagonal;
use std::alloc::Global;
use tumbler::{List, Memory};
use world_rules::Pair;

/// Sorts pairs by the difference of their positions, which is that of all pairs of a diagonal, and then by the
/// left one.
fn sort_by_difference(pairs: &mut Vec<Pair>) -> Result<(), Memory>
    ensures moved { OnOk result (IsPermutation pairs.old.items pairs.new.items) }
    ensures sorted { OnOk result (IsNonDecreasingBy by_difference pairs.new.items) }
{
    pairs.sort_by_key(|pair| {
        let left = u128::from(pair.left);
        (u128::from(pair.right) + 4_294_967_296 - left) * 4_294_967_296 + left
    })?;
    Ok(())
}

/// The diagonal from a start up to an end.
fn diagonal_to(start: Pair, end: Pair) -> Diagonal
    requires { IsSmall end }
    ensures { result ≡ diagonal_to start end }
{
    Diagonal {
        left: start.left,
        right: start.right,
        length: (end.left + 1).saturating_sub(start.left),
    }
}

/// Each start with the end at its place.
fn paired(alloc: Global, starts: &[Pair], ends: &[Pair]) -> Result<Vec<Diagonal>, Memory>
    requires { All IsSmall ends.now }
    ensures { IfOk result (λ made. made.items ≡ paired starts.now ends.now) }
{
    let mut made = Vec::new(alloc);
    for k in 0..starts.len().min(ends.len()) {
        made.push(diagonal_to(starts[k], ends[k]))?;
    }
    Ok(made)
}

/// The diagonals by left and then by right.
fn listed(alloc: Global, mut diagonals: Vec<Diagonal>) -> Result<List<Diagonal>, Memory>
    ensures moved { IfOk result (λ made. IsPermutation diagonals.items made.items) }
    ensures sorted { IfOk result (λ made. IsNonDecreasingBy by_left made.items) }
{
    diagonals.sort_by_key(|diagonal| {
        u64::from(diagonal.left) * 4_294_967_296 + u64::from(diagonal.right)
    })?;
    let mut made = List::new(alloc);
    for diagonal in diagonals.as_slice() {
        made.push(*diagonal)?;
    }
    Ok(made)
}

/// All diagonals of two texts, or that there are too many.
pub(crate) fn compared(
    alloc: Global,
    lefts: &[Segment],
    rights: &[Segment],
) -> Result<Compared, Memory>
    requires left { All IsSegment lefts.now }
    requires right { All IsSegment rights.now }
    ensures { IfOk result (ComparesSegments lefts.now rights.now) }
{
    let Some(mut starts) = starts(alloc, lefts, rights)? else {
        return Ok(Compared::TooMany);
    };
    let Some(mut ends) = ends(alloc, lefts, rights)? else {
        return Ok(Compared::TooMany);
    };
    sort_by_difference(&mut starts)?;
    sort_by_difference(&mut ends)?;
    let diagonals = paired(alloc, starts.as_slice(), ends.as_slice())?;
    let made = listed(alloc, diagonals)?;
    Ok(Compared::Diagonals(made))
}
