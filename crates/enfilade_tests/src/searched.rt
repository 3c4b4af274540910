//! Searches in trees of two levels, on each plane.
ghost use Rattle.std.specs.Prelude.{◌<◌, length};
ghost use Rattle.tumbler.specs.Span.{SpanFits};

use enfilade_core::{Arena, Branch, Children, ContentPlane, KeyPlane, Node, Plane, Row, TextPlane};
use enfilade_search::{in_range, meeting, overlapping, overlapping_up_to};
use std::alloc::Global;
use std::process::Abort;
use std::test::Fail;
use tumbler::{List, Span, Text, Tumbler};

fn at(rt: &impl Abort, alloc: Global, places: &[u32]) -> Tumbler {
    Tumbler::from_places(alloc, places).expect(rt, "a tumbler")
}

fn span(rt: &impl Abort, alloc: Global, start: &[u32], width: &[u32]) -> Span
    ensures { SpanFits result }
{
    let span = Span {
        start: at(rt, alloc, start),
        width: at(rt, alloc, width),
    };
    let fits = span.fits();
    assert!(rt; fits);
    span
}

fn text(rt: &impl Abort, alloc: Global, bytes: &[u8]) -> Text {
    List::from_slice(alloc, bytes).expect(rt, "memory")
}

fn row<L: Drop>(rt: &impl Abort, alloc: Global, first: &[u32], second: &[u32], leaf: L) -> Row<L> {
    Row {
        first: at(rt, alloc, first),
        second: at(rt, alloc, second),
        leaf,
    }
}

/// A branch by its displacements, and by its extents.
fn branch(
    rt: &impl Abort,
    alloc: Global,
    node: Node,
    first: &[u32],
    second: &[u32],
    first_extent: &[u32],
    second_extent: &[u32],
) -> Branch {
    Branch {
        node,
        first: at(rt, alloc, first),
        second: at(rt, alloc, second),
        first_extent: at(rt, alloc, first_extent),
        second_extent: at(rt, alloc, second_extent),
    }
}

fn add<P: Plane>(rt: &impl Abort, arena: &mut Arena<P>, children: Children<P::Leaf>) -> Node
    ensures { result.0 < length arena.new }
{
    let is_well_formed = arena.is_well_formed(&children);
    assert!(rt; is_well_formed);
    arena.add_node(children).expect(rt, "memory")
}

fn bottom<P: Plane>(
    rt: &impl Abort,
    alloc: Global,
    arena: &mut Arena<P>,
    one: Row<P::Leaf>,
    other: Row<P::Leaf>,
) -> Node {
    let mut rows = List::new(alloc);
    rows.push(one).expect(rt, "memory");
    rows.push(other).expect(rt, "memory");
    add(rt, arena, Children::Bottom(rows))
}

fn root<P: Plane>(
    rt: &impl Abort,
    alloc: Global,
    arena: &mut Arena<P>,
    one: Branch,
    other: Branch,
) -> Node
    ensures { result.0 < length arena.new }
{
    let mut branches = List::new(alloc);
    branches.push(one).expect(rt, "memory");
    branches.push(other).expect(rt, "memory");
    add(rt, arena, Children::Inner(branches))
}

/// Whether these are two rows, at these places on the first axis.
fn stand_at<L>(rows: &List<Row<L>>, one: &[u32], other: &[u32]) -> bool {
    match rows.as_slice() {
        [first, second] => first.first.places() == one && second.first.places() == other,
        _ => false,
    }
}

/// Runs that begin at 1.1, 1.4, 1.6 and 1.10, and show what is at 7.1, 7.7, 7.4 and 7.6 from there on.
fn runs(rt: &impl Abort, alloc: Global, arena: &mut Arena<TextPlane>) -> Node
    ensures { result.0 < length arena.new }
{
    let one = row(rt, alloc, &[0, 1], &[0, 1], 3);
    let other = row(rt, alloc, &[0, 4], &[0, 7], 2);
    let front = bottom(rt, alloc, arena, one, other);
    let one = row(rt, alloc, &[0, 1], &[0, 2], 4);
    let other = row(rt, alloc, &[0, 5], &[0, 4], 1);
    let back = bottom(rt, alloc, arena, one, other);
    let front = branch(rt, alloc, front, &[1], &[7], &[0, 6], &[0, 9]);
    let back = branch(rt, alloc, back, &[1, 5], &[7, 2], &[0, 6], &[0, 6]);
    root(rt, alloc, arena, front, back)
}

#[test]
fn finds_runs(rt: HostRuntime) -> Result<(), Fail> {
    let alloc = rt.alloc();
    let mut arena = Arena::new(alloc);
    let root = runs(&rt, alloc, &mut arena);
    let found = in_range(
        &arena,
        root,
        &at(&rt, alloc, &[1, 4]),
        &at(&rt, alloc, &[1, 7]),
    )?;
    let placed = stand_at(&found, &[1, 4], &[1, 6]);
    assert!(rt; placed);
    let found = meeting(&arena, root, &span(&rt, alloc, &[7, 3], &[0, 2]))?;
    let met = stand_at(&found, &[1, 1], &[1, 6]);
    assert!(rt; met);
    let found = overlapping(&arena, root, &span(&rt, alloc, &[1, 5], &[0, 2]))?;
    let overlapped = stand_at(&found, &[1, 4], &[1, 6]);
    assert!(rt; overlapped);
    Ok(())
}

/// Bytes at 5.1 and 5.2, at 5.3, at 5.4, and at 5.5 and 5.6.
fn bytes(rt: &impl Abort, alloc: Global, arena: &mut Arena<ContentPlane>) -> Node
    ensures { result.0 < length arena.new }
{
    let one = row(rt, alloc, &[0, 1], &[], text(rt, alloc, b"ab"));
    let other = row(rt, alloc, &[0, 3], &[], text(rt, alloc, b"c"));
    let front = bottom(rt, alloc, arena, one, other);
    let one = row(rt, alloc, &[0, 1], &[], text(rt, alloc, b"d"));
    let other = row(rt, alloc, &[0, 2], &[], text(rt, alloc, b"ef"));
    let back = bottom(rt, alloc, arena, one, other);
    let front = branch(rt, alloc, front, &[5], &[], &[0, 4], &[]);
    let back = branch(rt, alloc, back, &[5, 3], &[], &[0, 4], &[]);
    root(rt, alloc, arena, front, back)
}

#[test]
fn finds_bytes(rt: HostRuntime) -> Result<(), Fail> {
    let alloc = rt.alloc();
    let mut arena = Arena::new(alloc);
    let root = bytes(&rt, alloc, &mut arena);
    let found = in_range(
        &arena,
        root,
        &at(&rt, alloc, &[5, 3]),
        &at(&rt, alloc, &[5, 5]),
    )?;
    let placed = stand_at(&found, &[5, 3], &[5, 4]);
    assert!(rt; placed);
    let found = overlapping(&arena, root, &span(&rt, alloc, &[5, 2], &[0, 2]))?;
    let overlapped = stand_at(&found, &[5, 1], &[5, 3]);
    assert!(rt; overlapped);
    let found = meeting(&arena, root, &span(&rt, alloc, &[], &[1]))?;
    assert!(rt; found.len() == 4);
    Ok(())
}

/// Spans at 5.1, 5.2, 5.3 and 5.6, of which the second has no width, with the keys 3, 1, 3 and 1.1.
fn keys(rt: &impl Abort, alloc: Global, arena: &mut Arena<KeyPlane>) -> Node
    ensures { result.0 < length arena.new }
{
    let one = row(rt, alloc, &[0, 1], &[3], at(rt, alloc, &[0, 2]));
    let other = row(rt, alloc, &[0, 2], &[1], at(rt, alloc, &[]));
    let front = bottom(rt, alloc, arena, one, other);
    let one = row(rt, alloc, &[0, 1], &[2], at(rt, alloc, &[0, 5]));
    let other = row(rt, alloc, &[0, 4], &[0, 1], at(rt, alloc, &[0, 1]));
    let back = bottom(rt, alloc, arena, one, other);
    let front = branch(rt, alloc, front, &[5], &[], &[0, 3], &[3]);
    let back = branch(rt, alloc, back, &[5, 2], &[1], &[0, 6], &[2]);
    root(rt, alloc, arena, front, back)
}

#[test]
fn finds_keys(rt: HostRuntime) -> Result<(), Fail> {
    let alloc = rt.alloc();
    let mut arena = Arena::new(alloc);
    let root = keys(&rt, alloc, &mut arena);
    let found = in_range(
        &arena,
        root,
        &at(&rt, alloc, &[5, 2]),
        &at(&rt, alloc, &[5, 6]),
    )?;
    let placed = stand_at(&found, &[5, 2], &[5, 3]);
    assert!(rt; placed);
    let found = meeting(&arena, root, &span(&rt, alloc, &[1], &[0, 5]))?;
    let met = stand_at(&found, &[5, 2], &[5, 6]);
    assert!(rt; met);
    let found = overlapping(&arena, root, &span(&rt, alloc, &[5, 2], &[0, 1]))?;
    let overlapped = stand_at(&found, &[5, 1], &[5, 2]);
    assert!(rt; overlapped);
    let place = span(&rt, alloc, &[5, 2], &[0, 1]);
    let found = overlapping_up_to(&arena, root, &place, 2)?;
    let overlapped = match &found {
        Some(rows) => stand_at(rows, &[5, 1], &[5, 2]),
        None => false,
    };
    assert!(rt; overlapped);
    let found = overlapping_up_to(&arena, root, &place, 1)?;
    assert!(rt; found.is_none());
    Ok(())
}
