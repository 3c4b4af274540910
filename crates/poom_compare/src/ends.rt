//! Where diagonals end: as they begin, from behind.
ghost use Rattle.std.specs.Prelude.{◌≡◌, ◌≤◌, map, All, IfOk};
ghost use Rattle.poom_compare.specs.Segments.{IsSegment, IsSmall, AreFoundEnds, flipped_segment, flipped_pair};

use crate::segment::{POSITIONS, Segment};
use crate::starts::starts;
use std::alloc::Global;
use tumbler::Memory;
use world_rules::Pair;

/// The segments from behind.
fn flipped(alloc: Global, segments: &[Segment]) -> Result<Vec<Segment>, Memory>
    requires { All IsSegment segments.now }
    ensures value { IfOk result (λ made. made.items ≡ map flipped_segment segments.now) }
    ensures right { IfOk result (λ made. All IsSegment made.items) }
{
    let mut made = Vec::new(alloc);
    for segment in segments {
        made.push(segment.flipped())?;
    }
    Ok(made)
}

/// The pairs from behind.
fn flipped_pairs(alloc: Global, pairs: &[Pair]) -> Result<Vec<Pair>, Memory>
    requires { All IsSmall pairs.now }
    ensures value { IfOk result (λ made. made.items ≡ map flipped_pair pairs.now) }
    ensures small { IfOk result (λ made. All IsSmall made.items) }
{
    let mut made = Vec::new(alloc);
    for pair in pairs {
        made.push(Pair {
            left: POSITIONS - pair.left,
            right: POSITIONS - pair.right,
        })?;
    }
    Ok(made)
}

/// Where all diagonals end, or none where there are more than may be listed.
pub(crate) fn ends(
    alloc: Global,
    lefts: &[Segment],
    rights: &[Segment],
) -> Result<Option<Vec<Pair>>, Memory>
    requires left { All IsSegment lefts.now }
    requires right { All IsSegment rights.now }
    ensures { IfOk result (AreFoundEnds lefts.now rights.now) }
{
    let lefts = flipped(alloc, lefts)?;
    let rights = flipped(alloc, rights)?;
    let Some(found) = starts(alloc, lefts.as_slice(), rights.as_slice())? else {
        return Ok(None);
    };
    let found = flipped_pairs(alloc, found.as_slice())?;
    Ok(Some(found))
}
