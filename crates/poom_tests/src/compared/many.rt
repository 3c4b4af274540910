//! As many diagonals as are listed, and one more.
ghost use Rattle.poom.specs.Laid.{IsRoot};

use super::{Picked, Two, ask_position, compare, empty, put_in_one, runs_in, span};
use enfilade_core::Node;
use poom::Poom;
use poom_compare::Compared;
use std::process::Abort;
use std::test::Fail;

/// The first document with its text once more behind it. It comes to be the other one.
#[tactic(auto, using(poom::proofs::Trials::staying))]
fn doubled(rt: &impl Abort, poom: &mut Poom, two: Two) -> Two
    requires one { IsRoot poom.old two.one.0 }
    requires other { IsRoot poom.old two.other.0 }
    ensures one { IsRoot poom.new result.one.0 }
    ensures other { IsRoot poom.new result.other.0 }
{
    let Two { one, other } = two;
    let count = poom.length(one);
    let span = span(rt, poom.allocator(), 1, count);
    let runs = runs_in(rt, poom, one, &span);
    let n = count.saturating_add(1);
    ask_position(rt, poom, one, n);
    let made = poom.copy_in(one, n, &runs).expect(rt, "memory");
    Two {
        one: other,
        other: made,
    }
}

/// Bytes 1 and 2, one behind the other, 256 times; and byte 1 alone, 256 times.
fn repeated(rt: &impl Abort, poom: &mut Poom) -> Two
    ensures one { IsRoot poom.new result.one.0 }
    ensures other { IsRoot poom.new result.other.0 }
{
    let root = empty(rt, poom);
    let same = Two {
        one: root,
        other: root,
    };
    let alone = put_in_one(rt, poom, same, 1, 1, 1);
    let turned = Two {
        one: alone.other,
        other: alone.one,
    };
    let mut two = put_in_one(rt, poom, turned, 1, 1, 2);
    for _ in 0..16u32 {
        two = doubled(rt, poom, two);
    }
    two
}

/// Compares all that two documents show.
fn compare_all(rt: &impl Abort, poom: &Poom, left: Node, right: Node) -> Compared
    requires left { IsRoot poom.now left.0 }
    requires right { IsRoot poom.now right.0 }
{
    let left = Picked {
        root: left,
        spans: &[(1, 1_000)],
    };
    let right = Picked {
        root: right,
        spans: &[(1, 1_000)],
    };
    compare(rt, poom, left, right)
}

/// Whether these are diagonals of one pair each: all pairs of a left position up to 256 and an odd right one up to 511.
fn are_all_pairs(found: &Compared) -> bool {
    let Compared::Diagonals(found) = found else {
        return false;
    };
    let found = found.as_slice();
    for (k, one) in found.iter().enumerate() {
        let left = (k / 256).saturating_add(1);
        let right = (k % 256).saturating_mul(2).saturating_add(1);
        if one.left as usize != left || one.right as usize != right || one.length != 1 {
            return false;
        }
    }
    found.len() == 65_536
}

/// The left text is byte 1, 256 times. The right one shows it at the odd positions up to 511; in front of it and behind
/// it stands byte 2 or nothing there, and the left text has no byte 2. So none of the 256 times 256 = 65,536 pairs goes
/// on in another one: each is a diagonal of its own.
///
/// Byte 9 then comes in at both ends, behind byte 1 on the left and behind byte 2 on the right. So it is one diagonal
/// more.
#[test]
fn more_than_65536_are_too_many(rt: HostRuntime) -> Result<(), Fail> {
    let mut poom = Poom::new(rt.alloc());
    let two = repeated(&rt, &mut poom);
    let found = compare_all(&rt, &poom, two.other, two.one);
    assert!(rt; are_all_pairs(&found));
    let right = put_in_one(&rt, &mut poom, two, 513, 9, 1);
    let turned = Two {
        one: right.other,
        other: right.one,
    };
    let left = put_in_one(&rt, &mut poom, turned, 257, 9, 1);
    let found = compare_all(&rt, &poom, left.one, left.other);
    let is_too_many = matches!(&found, Compared::TooMany);
    assert!(rt; is_too_many);
    Ok(())
}
