//! Where diagonals begin.
ghost use Rattle.std.specs.Prelude.{◌≡◌, ◌+◌, ◌*◌, ◌<◌, ◌≤◌, ◌++◌, [], length, not, All, IfOk, OnOk};
ghost use Rattle.std.specs.Bool.{MatchBool};
ghost use Rattle.std.specs.List.Sorted.{IsPermutation, IsNonDecreasingBy};
ghost use Rattle.poom_compare.specs.Segments.{IsSegment, AreFound, IsSplit, IsWhole, begin_key, is_same_byte, number_before, least_of, pair_of, starts_in, starts_of, all_starts};

use crate::segment::{Segment, Side};
use std::alloc::Global;
use tumbler::Memory;
use world_rules::Pair;

/// The most diagonals that are listed.
pub(crate) const MOST: usize = 65_536;

/// The key of a segment's beginning: the number of its first byte, and among equal ones that of the byte in front of
/// it.
fn begin_key(segment: &Segment) -> u128
    ensures { result ≡ begin_key segment.now }
{
    u128::from(segment.first) * 18_446_744_073_709_551_616 + u128::from(segment.before)
}

/// The segments sorted by how they begin, so that those that begin within another stand together and are found by
/// halving.
fn by_begin(alloc: Global, segments: &[Segment]) -> Result<Vec<Segment>, Memory>
    requires { All IsSegment segments.now }
    ensures right { IfOk result (λ made. All IsSegment made.items) }
    ensures moved { IfOk result (λ made. IsPermutation segments.now made.items) }
    ensures sorted { IfOk result (λ made. IsNonDecreasingBy begin_key made.items) }
{
    let mut made = Vec::from_slice(alloc, segments)?;
    made.sort_by_key(|segment| begin_key(segment))?;
    Ok(made)
}

/// The number just before this one among those of the segment and the one before it.
fn number_before(segment: &Segment, number: u64) -> u64
    ensures { result ≡ number_before segment.now number }
{
    if segment.first < number {
        number - 1
    } else {
        segment.before
    }
}

/// Whether what stands before the inner segment is something else than what stands before its first byte in the
/// outer one.
fn begins(outer: &Segment, inner: &Segment) -> bool
    ensures { result ≡ not (is_same_byte (number_before outer.now inner.now.first) inner.now.before) }
{
    let number = number_before(outer, inner.first);
    number == 0 || number != inner.before
}

/// The pair of the inner segment's first byte.
fn pair_of(side: Side, outer: &Segment, inner: &Segment) -> Pair
    requires outer { IsSegment outer.now }
    requires from { outer.now.first ≤ inner.now.first }
    requires to { inner.now.first < outer.now.first + outer.now.length }
    ensures { result ≡ pair_of side outer.now inner.now }
{
    let position = outer.at + (inner.first - outer.first) as u32;
    match side {
        Side::Left => Pair {
            left: position,
            right: inner.at,
        },
        Side::Right => Pair {
            left: inner.at,
            right: position,
        },
    }
}

/// The least number at which an inner segment may begin. Where both begin alike, the left one counts as the outer.
fn least_of(side: Side, outer: &Segment) -> u64
    requires { IsSegment outer.now }
    ensures { result ≡ least_of side outer.now }
{
    match side {
        Side::Left => outer.first,
        Side::Right => outer.first + 1,
    }
}

/// The first of the segments that begins at the number or behind it.
fn first_from(inners: &[Segment], number: u64) -> usize
    requires { IsNonDecreasingBy begin_key inners.now }
    ensures { IsSplit (number * 18446744073709551616) inners.now result }
{
    let key = u128::from(number) * 18_446_744_073_709_551_616;
    inners.partition_point(|inner| begin_key(inner) < key)
}

/// The first of the segments that comes behind this one in their order, and does not begin like it.
fn first_behind(inners: &[Segment], inner: &Segment) -> usize
    requires { IsNonDecreasingBy begin_key inners.now }
    ensures { IsSplit (begin_key inner.now + 1) inners.now result }
{
    let key = begin_key(inner);
    inners.partition_point(|other| begin_key(other) <= key)
}

/// Adds the pairs of all inner segments at which diagonals begin.
///
/// Those that begin alike are passed over together where no diagonal begins at them.
fn push_starts(
    found: &mut Vec<Pair>,
    side: Side,
    outer: &Segment,
    inners: &[Segment],
) -> Result<(), Memory>
    requires outer { IsSegment outer.now }
    requires inners { All IsSegment inners.now }
    requires sorted { IsNonDecreasingBy begin_key inners.now }
    ensures { OnOk result (found.new.items ≡ found.old.items ++ starts_in side inners.now outer.now) }
{
    let end = outer.first + u64::from(outer.length);
    let from = first_from(inners, least_of(side, outer));
    let mut k = from;
    while k < inners.len() {
        let inner = &inners[k];
        if end <= inner.first {
            return Ok(());
        }
        if begins(outer, inner) {
            found.push(pair_of(side, outer, inner))?;
            k += 1;
        } else {
            k = first_behind(inners, inner);
        }
    }
    Ok(())
}

/// Adds, for each outer segment, the pairs of inner segments at which diagonals begin, or stops where there are more
/// than may be listed.
#[tactic(auto, using(crate::proofs::Found::pushed))]
fn push_all(
    found: &mut Vec<Pair>,
    side: Side,
    outers: &[Segment],
    inners: &[Segment],
) -> Result<bool, Memory>
    requires outers { All IsSegment outers.now }
    requires inners { All IsSegment inners.now }
    requires sorted { IsNonDecreasingBy begin_key inners.now }
    ensures { IfOk result (λ whole. MatchBool whole (found.new.items ≡ found.old.items ++ starts_of side outers.now inners.now) (65536 < length (found.old.items ++ starts_of side outers.now inners.now))) }
{
    for outer in outers {
        if MOST < found.len() {
            return Ok(false);
        }
        push_starts(found, side, outer, inners)?;
    }
    Ok(true)
}

/// All pairs of segments that are in order at which diagonals begin.
fn search(alloc: Global, lefts: &[Segment], rights: &[Segment]) -> Result<Option<Vec<Pair>>, Memory>
    requires left { All IsSegment lefts.now }
    requires left_sorted { IsNonDecreasingBy begin_key lefts.now }
    requires right { All IsSegment rights.now }
    requires right_sorted { IsNonDecreasingBy begin_key rights.now }
    ensures { IfOk result (IsWhole (all_starts lefts.now rights.now)) }
{
    let mut found = Vec::new(alloc);
    if !push_all(&mut found, Side::Left, lefts, rights)? {
        return Ok(None);
    }
    if !push_all(&mut found, Side::Right, rights, lefts)? {
        return Ok(None);
    }
    if MOST < found.len() {
        return Ok(None);
    }
    Ok(Some(found))
}

/// Where all diagonals begin, or none where there are more than may be listed.
///
/// Each is found once. What is looked at are the segments, each of them with those that begin in it and begin a
/// diagonal there, so the time goes by the number of segments and of what is found.
pub(crate) fn starts(
    alloc: Global,
    lefts: &[Segment],
    rights: &[Segment],
) -> Result<Option<Vec<Pair>>, Memory>
    requires left { All IsSegment lefts.now }
    requires right { All IsSegment rights.now }
    ensures { IfOk result (AreFound lefts.now rights.now) }
{
    let lefts = by_begin(alloc, lefts)?;
    let rights = by_begin(alloc, rights)?;
    let found = search(alloc, lefts.as_slice(), rights.as_slice())?;
    Ok(found)
}
