//! Stretches of a text, and what stands beside each.
ghost use Rattle.std.specs.Prelude.{◌≡◌, ◌+◌, ◌-◌, ◌<◌, length, take, All, IfOk, slice_index_or};
ghost use Rattle.poom_compare.specs.Placed.{AreStretches, text_of};
ghost use Rattle.poom_compare.specs.Segments.{AreSegmentsOf, IsSegmentOf, IsSegment};

use crate::segment::Segment;
use std::alloc::Global;
use tumbler::Memory;

/// Text positions that follow each other and show bytes of content that follow each other, as numbers.
#[derive(Clone, Copy, Debug)]
pub struct Stretch {
    /// The first position, from 1.
    pub at: u32,
    /// The number of the byte that it shows, from 1.
    pub first: u64,
    /// How many positions there are, and never none.
    pub length: u32,
}

/// The number of the byte just before a stretch, or 0.
fn before(stretches: &[Stretch], k: usize) -> u64
    requires stretches { AreStretches stretches.now }
    requires inside { k < length stretches.now }
    ensures { (d : Stretch) → result ≡ text_of stretches.now ((slice_index_or stretches.now k d).at - 1) }
{
    if k == 0 {
        return 0;
    }
    let last = stretches[k - 1];
    if last.at + last.length != stretches[k].at {
        return 0;
    }
    last.first + u64::from(last.length) - 1
}

/// The number of the byte just behind a stretch, or 0.
fn after(stretches: &[Stretch], k: usize) -> u64
    requires stretches { AreStretches stretches.now }
    requires inside { k < length stretches.now }
    ensures { (d : Stretch) → result ≡ text_of stretches.now ((slice_index_or stretches.now k d).at + (slice_index_or stretches.now k d).length) }
{
    if k + 1 == stretches.len() {
        return 0;
    }
    let next = stretches[k + 1];
    let this = stretches[k];
    if this.at + this.length != next.at {
        return 0;
    }
    next.first
}

/// The segments of the text.
pub(crate) fn segments(alloc: Global, stretches: &[Stretch]) -> Result<Vec<Segment>, Memory>
    requires { AreStretches stretches.now }
    ensures { IfOk result (λ made. AreSegmentsOf (text_of stretches.now) made.items) }
{
    let mut made = Vec::new(alloc);
    for k in 0..stretches.len() {
        let stretch = stretches[k];
        made.push(Segment {
            at: stretch.at,
            first: stretch.first,
            length: stretch.length,
            before: before(stretches, k),
            after: after(stretches, k),
        })?;
    }
    Ok(made)
}
