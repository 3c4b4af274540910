//! Bytes that stand one after another, side by side with others.
ghost use Rattle.std.specs.Prelude.{◌≡◌, ◌+◌, ◌≤◌, ◌↔◌, length, take, drop, IsTrue, All};
ghost use Rattle.tree_compare.specs.Stretches.{laid_stretch, laid_stretches, IsStretch};

use crate::address::meet;
use crate::place::Place;
use tumbler::Tumbler;

/// Bytes that stand one after another, lent as they lie in a tree, and the address of the first one.
#[derive(Clone, Copy)]
pub(crate) struct Stretch<'a> {
    pub(crate) start: Tumbler,
    pub(crate) bytes: &'a [u8],
}

/// Whether so many bytes of one, behind the first few, are those of another behind its first few, at the same addresses.
fn same_part(
    one: &Stretch<'_>,
    behind: usize,
    other: &Stretch<'_>,
    further: usize,
    count: usize,
) -> bool
    requires one { IsStretch one.now }
    requires other { IsStretch other.now }
    requires some { 1 ≤ count }
    requires here { behind + count ≤ length one.now.bytes.now }
    requires there { further + count ≤ length other.now.bytes.now }
    ensures { IsTrue result ↔ take count (drop behind (laid_stretch one.now)) ≡ take count (drop further (laid_stretch other.now)) }
{
    if !meet(&one.start, behind, &other.start, further) {
        return false;
    }
    one.bytes[behind..behind + count] == other.bytes[further..further + count]
}

/// Whether the bytes of stretches are those of others, at the same addresses and in the same order.
///
/// They are gone through side by side, the lesser count of bytes at a time.
pub(crate) fn same_stretches(one: &[Stretch<'_>], other: &[Stretch<'_>]) -> bool
    requires one { All IsStretch one.now }
    requires other { All IsStretch other.now }
    ensures { IsTrue result ↔ laid_stretches one.now ≡ laid_stretches other.now }
{
    let mut left = Place::first();
    let mut right = Place::first();
    while left.item < one.len() {
        if right.item == other.len() {
            return false;
        }
        let here = &one[left.item];
        let there = &other[right.item];
        let count = (here.bytes.len() - left.within).min(there.bytes.len() - right.within);
        if !same_part(here, left.within, there, right.within, count) {
            return false;
        }
        left = left.behind(count, here.bytes.len());
        right = right.behind(count, there.bytes.len());
    }
    right.item == other.len()
}
