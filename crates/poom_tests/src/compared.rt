//! Documents are compared: what they share, position by position.
ghost use Rattle.std.specs.Prelude.{◌+◌, ◌≤◌, length, All};
ghost use Rattle.tumbler.specs.Address.{IsDocument};
ghost use Rattle.tumbler.specs.Span.{SpanFits};
ghost use Rattle.enfilade_core.specs.Rows.{rows_of};
ghost use Rattle.enfilade_core.specs.Edits.{KeepsRows};
ghost use Rattle.enfilade_core.specs.Exchange.{Grows};
ghost use Rattle.poom.specs.Laid.{IsRoot, texts};
ghost use Rattle.poom.specs.Edited.{IsContentRun, run_addresses};
ghost use Rattle.poom_compare.specs.Placed.{IsInterval};

use enfilade_core::Node;
use febe_data::Run;
use poom::Poom;
use poom_compare::{Compared, Interval, Placed, diagonals, joined, runs_picked};
use std::alloc::Global;
use std::process::Abort;
use std::test::Fail;
use tumbler::{List, Span, Tumbler};

mod many;
mod random;

fn document(rt: &impl Abort, alloc: Global) -> Tumbler
    ensures { IsDocument result }
{
    let document = Tumbler::from_places(alloc, &[1, 1, 0, 1, 0, 1]).expect(rt, "a tumbler");
    assert!(rt; document.is_document());
    document
}

/// A document that shows nothing.
fn empty(rt: &impl Abort, poom: &mut Poom) -> Node
    ensures { IsRoot poom.new result.0 }
{
    poom.empty().expect(rt, "memory")
}

/// The document with so many bytes put in at a position. They are those of one content from a first one on.
fn put(rt: &impl Abort, poom: &mut Poom, root: Node, at: u32, first: u32, count: u32) -> Node
    requires { IsRoot poom.old root.0 }
    ensures kept { KeepsRows poom.old poom.new }
    ensures grows { Grows poom.old poom.new }
    ensures root { IsRoot poom.new result.0 }
{
    let home = document(rt, poom.allocator());
    let long = poom.length(root);
    assert!(rt; long < 10_000);
    assert!(rt; 1 <= at);
    assert!(rt; at <= long + 1);
    assert!(rt; 1 <= first);
    assert!(rt; first < 10_000);
    assert!(rt; count < 10_000);
    poom.insert(root, at, &home, first, count)
        .expect(rt, "memory")
}

/// Spans of text: each from a position on, so many positions.
fn spans(rt: &impl Abort, alloc: Global, plain: &[(u32, u32)]) -> List<Span>
    ensures { All SpanFits result.items }
{
    let mut made = List::new(alloc);
    for one in plain {
        let span = Span {
            start: Tumbler::from_places(alloc, &[1, one.0]).expect(rt, "a tumbler"),
            width: Tumbler::width(alloc, 2, one.1),
        };
        assert!(rt; span.fits());
        made.push(span).expect(rt, "memory");
    }
    made
}

/// What spans pick from a document.
#[derive(Clone, Copy)]
struct Picked<'a> {
    root: Node,
    spans: &'a [(u32, u32)],
}

fn compare(rt: &impl Abort, poom: &Poom, left: Picked<'_>, right: Picked<'_>) -> Compared
    requires left { IsRoot poom.now left.root.0 }
    requires right { IsRoot poom.now right.root.0 }
{
    let alloc = poom.allocator();
    let left_spans = spans(rt, alloc, left.spans);
    let right_spans = spans(rt, alloc, right.spans);
    diagonals(poom, left.root, &left_spans, right.root, &right_spans).expect(rt, "memory")
}

/// Whether these are the diagonals, each by left, right and length.
fn are(found: &Compared, expected: &[(u32, u32, u32)]) -> bool {
    let Compared::Diagonals(found) = found else {
        return false;
    };
    if found.len() != expected.len() {
        return false;
    }
    for (one, other) in found.as_slice().iter().zip(expected) {
        if one.left != other.0 || one.right != other.1 || one.length != other.2 {
            return false;
        }
    }
    true
}

/// `abc`, with itself put in behind its first byte and that byte at the end: `aabcbca`.
fn with_repeats(rt: &impl Abort, poom: &mut Poom) -> Node
    ensures { IsRoot poom.new result.0 }
{
    let root = empty(rt, poom);
    let root = put(rt, poom, root, 1, 1, 3);
    let root = put(rt, poom, root, 2, 1, 3);
    put(rt, poom, root, 7, 1, 1)
}

#[test]
fn repeats_are_compared_each_in_its_place(rt: HostRuntime) -> Result<(), Fail> {
    let mut poom = Poom::new(rt.alloc());
    let root = with_repeats(&rt, &mut poom);
    let all = Picked {
        root,
        spans: &[(1, 7)],
    };
    let expected = [
        (1, 1, 7),
        (1, 2, 1),
        (1, 7, 1),
        (2, 1, 1),
        (2, 7, 1),
        (3, 5, 2),
        (5, 3, 2),
        (7, 1, 1),
        (7, 2, 1),
    ];
    let found = compare(&rt, &poom, all, all);
    assert!(rt; are(&found, &expected));
    Ok(())
}

#[test]
fn what_spans_pick_is_compared_once(rt: HostRuntime) -> Result<(), Fail> {
    let mut poom = Poom::new(rt.alloc());
    let root = empty(&rt, &mut poom);
    let root = put(&rt, &mut poom, root, 1, 1, 6);
    let left = Picked {
        root,
        spans: &[(3, 3), (2, 3), (2, 3)],
    };
    let right = Picked {
        root,
        spans: &[(1, 3), (9, 2)],
    };
    let found = compare(&rt, &poom, left, right);
    assert!(rt; are(&found, &[(2, 2, 2)]));
    let right = Picked {
        root,
        spans: &[(5, 1), (2, 1)],
    };
    let found = compare(&rt, &poom, left, right);
    assert!(rt; are(&found, &[(2, 2, 1), (5, 5, 1)]));
    let right = Picked {
        root,
        spans: &[(3, 0)],
    };
    let found = compare(&rt, &poom, left, right);
    assert!(rt; are(&found, &[]));
    let right = Picked { root, spans: &[] };
    let found = compare(&rt, &poom, left, right);
    assert!(rt; are(&found, &[]));
    Ok(())
}

/// Whether these are the runs, each by its position, its first byte and its length.
fn are_runs(runs: &[Placed], expected: &[(u32, u32, u32)]) -> bool {
    if runs.len() != expected.len() {
        return false;
    }
    for (run, other) in runs.iter().zip(expected) {
        if run.at != other.0 || run.first != other.1 || run.length != other.2 {
            return false;
        }
    }
    true
}

#[test]
fn spans_pick_runs(rt: HostRuntime) -> Result<(), Fail> {
    let alloc = rt.alloc();
    let mut poom = Poom::new(alloc);
    let root = with_repeats(&rt, &mut poom);
    let spans = spans(&rt, alloc, &[(4, 9), (1, 2)]);
    let runs = runs_picked(&poom, root, spans.as_slice()).expect(&rt, "memory");
    let expected = [(1, 1, 1), (2, 1, 1), (4, 3, 1), (5, 2, 2), (7, 1, 1)];
    assert!(rt; are_runs(runs.as_slice(), &expected));
    Ok(())
}

/// Intervals of a text of nine positions.
fn intervals(rt: &impl Abort, alloc: Global, plain: &[(u32, u32)]) -> Vec<Interval>
    ensures { All (IsInterval 9) result.items }
{
    let mut made = Vec::new(alloc);
    for one in plain {
        let (from, to) = *one;
        assert!(rt; 1 <= from);
        assert!(rt; from < to);
        assert!(rt; to <= 10);
        made.push(Interval { from, to }).expect(rt, "memory");
    }
    made
}

#[test]
fn intervals_that_touch_are_joined(rt: HostRuntime) -> Result<(), Fail> {
    let alloc = rt.alloc();
    let all = intervals(&rt, alloc, &[(8, 9), (4, 6), (1, 3), (2, 4), (2, 3)]);
    let made = joined(alloc, all, 9).expect(&rt, "memory");
    let [first, second] = made.as_slice() else {
        panic!(rt; "not two");
    };
    assert_eq!(rt; (first.from, first.to), (1, 6));
    assert_eq!(rt; (second.from, second.to), (8, 9));
    Ok(())
}

// ---- two documents

/// The span of so many positions of a text from one on.
fn span(rt: &impl Abort, alloc: Global, from: u32, count: u32) -> Span
    ensures { SpanFits result }
{
    let span = Span {
        start: Tumbler::from_places(alloc, &[1, from]).expect(rt, "a tumbler"),
        width: Tumbler::from_places(alloc, &[0, count]).expect(rt, "a tumbler"),
    };
    let fits = span.fits();
    assert!(rt; fits);
    span
}

/// Asserts that a position is one of a document's, or the one behind them.
fn ask_position(rt: &impl Abort, poom: &Poom, root: Node, n: u32)
    requires root { IsRoot poom.now root.0 }
    ensures from_one { 1 ≤ n }
    ensures to_end { n ≤ 1 + length (texts (rows_of poom.now root.0)) }
    ensures room { length (texts (rows_of poom.now root.0)) ≤ 100000000 }
{
    let long = poom.length(root);
    assert!(rt; long <= 100_000_000);
    assert!(rt; 1 <= n);
    assert!(rt; n <= long + 1);
}

/// What a span picks from a document.
fn runs_in(rt: &impl Abort, poom: &Poom, root: Node, span: &Span) -> List<Run>
    requires root { IsRoot poom.now root.0 }
    requires fits { SpanFits span.now }
    ensures content { All IsContentRun result.items }
    ensures few { length (run_addresses result.items) ≤ 100000000 }
{
    let long = poom.length(root);
    assert!(rt; long <= 100_000_000);
    let home = document(rt, poom.allocator());
    let Ok(runs) = poom.picked(root, &home, span) else {
        panic!(rt; "no memory");
    };
    runs
}

/// Two documents. The first is the one that is edited, and the other stays.
#[derive(Clone, Copy)]
struct Two {
    one: Node,
    other: Node,
}

/// The first document with so many bytes put in at a position.
#[tactic(auto, using(poom::proofs::Trials::staying))]
fn put_in_one(rt: &impl Abort, poom: &mut Poom, two: Two, at: u32, first: u32, count: u32) -> Two
    requires one { IsRoot poom.old two.one.0 }
    requires other { IsRoot poom.old two.other.0 }
    ensures one { IsRoot poom.new result.one.0 }
    ensures other { IsRoot poom.new result.other.0 }
{
    let Two { one, other } = two;
    let made = put(rt, poom, one, at, first, count);
    Two { one: made, other }
}

/// The first document without so many positions from one on.
#[tactic(auto, using(poom::proofs::Trials::staying))]
fn cut_from_one(rt: &impl Abort, poom: &mut Poom, two: Two, from: u32, count: u32) -> Two
    requires one { IsRoot poom.old two.one.0 }
    requires other { IsRoot poom.old two.other.0 }
    ensures one { IsRoot poom.new result.one.0 }
    ensures other { IsRoot poom.new result.other.0 }
{
    let Two { one, other } = two;
    let span = span(rt, poom.allocator(), from, count);
    let made = poom.delete(one, &span).expect(rt, "memory");
    Two { one: made, other }
}

/// Of bytes 1 to 12, a version keeps all. The original gets bytes 20 and 21 before byte 5, and then loses bytes 7 to 9:
/// it shows bytes 1 to 4, 20 and 21, 5 and 6, and 10 to 12.
#[test]
fn versions_share_what_stayed_together(rt: HostRuntime) -> Result<(), Fail> {
    let mut poom = Poom::new(rt.alloc());
    let root = empty(&rt, &mut poom);
    let root = put(&rt, &mut poom, root, 1, 1, 12);
    let version = poom.version(root);
    let two = Two {
        one: root,
        other: version,
    };
    let two = put_in_one(&rt, &mut poom, two, 5, 20, 2);
    let two = cut_from_one(&rt, &mut poom, two, 9, 3);
    let original = Picked {
        root: two.one,
        spans: &[(1, 11)],
    };
    let version = Picked {
        root: two.other,
        spans: &[(1, 12)],
    };
    let found = compare(&rt, &poom, version, original);
    assert!(rt; are(&found, &[(1, 1, 4), (5, 7, 2), (10, 9, 3)]));
    let found = compare(&rt, &poom, original, version);
    assert!(rt; are(&found, &[(1, 1, 4), (7, 5, 2), (9, 10, 3)]));
    Ok(())
}
