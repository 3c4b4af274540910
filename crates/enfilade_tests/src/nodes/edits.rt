//! Each edit once on each plane, on a tree of two levels with rows at 1.1, 1.7 and 2.1.

use super::left::{copied, cut, exchange, held, shift, splice};
use enfilade_core::{
    Arena, Branch, Children, ContentPlane, Gap, KeyPlane, Node, Plane, Row, TextPlane,
};
use std::alloc::Global;
use std::process::Abort;
use std::test::Fail;
use tumbler::{List, Text, Tumbler};

fn at(rt: &impl Abort, alloc: Global, places: &[u32]) -> Tumbler {
    Tumbler::from_places(alloc, places).expect(rt, "a tumbler")
}

fn row<L: Drop>(rt: &impl Abort, alloc: Global, first: &[u32], second: &[u32], leaf: L) -> Row<L> {
    Row {
        first: at(rt, alloc, first),
        second: at(rt, alloc, second),
        leaf,
    }
}

fn text(rt: &impl Abort, alloc: Global, bytes: &[u8]) -> Text {
    List::from_slice(alloc, bytes).expect(rt, "memory")
}

/// A list of this row alone.
fn alone<P: Plane>(rt: &impl Abort, alloc: Global, row: &Row<P::Leaf>) -> List<Row<P::Leaf>> {
    let mut rows = List::new(alloc);
    rows.push(copied::<P>(rt, alloc, row)).expect(rt, "memory");
    rows
}

fn add<P: Plane>(rt: &impl Abort, arena: &mut Arena<P>, children: Children<P::Leaf>) -> Node {
    let is_well_formed = arena.is_well_formed(&children);
    assert!(rt; is_well_formed);
    arena.add_node(children).expect(rt, "memory")
}

fn bottom<P: Plane>(rt: &impl Abort, arena: &mut Arena<P>, rows: List<Row<P::Leaf>>) -> Node {
    add(rt, arena, Children::Bottom(rows))
}

fn branch(
    rt: &impl Abort,
    alloc: Global,
    node: Node,
    first: u32,
    first_extent: u32,
    second_extent: &[u32],
) -> Branch {
    Branch {
        node,
        first: at(rt, alloc, &[first]),
        second: Tumbler::zero(alloc),
        first_extent: at(rt, alloc, &[0, first_extent]),
        second_extent: at(rt, alloc, second_extent),
    }
}

/// A root above two bottom nodes: rows at 0.1, three long, and 0.7, two long, from 1 on; and one at 0.1 that is
/// one long, from 2 on.
fn tree<P: Plane>(
    rt: &impl Abort,
    arena: &mut Arena<P>,
    front: List<Row<P::Leaf>>,
    back: List<Row<P::Leaf>>,
    front_extent: &[u32],
    back_extent: &[u32],
) -> Node {
    let alloc = arena.allocator();
    let front = bottom(rt, arena, front);
    let back = bottom(rt, arena, back);
    let mut branches = List::new(alloc);
    branches
        .push(branch(rt, alloc, front, 1, 9, front_extent))
        .expect(rt, "memory");
    branches
        .push(branch(rt, alloc, back, 2, 2, back_extent))
        .expect(rt, "memory");
    add(rt, arena, Children::Inner(branches))
}

/// Asserts that these rows, and no others, stand at these places on the first axis.
fn are_at<L>(rt: &impl Abort, rows: &List<Row<L>>, places: &[&[u32]]) {
    assert!(rt; rows.len() == places.len());
    for (row, places) in rows.as_slice().iter().zip(places) {
        assert!(rt; row.first.places() == *places);
    }
}

/// Asserts that a tree has rows at these places.
fn stand_at<P: Plane>(rt: &impl Abort, arena: &Arena<P>, root: Node, places: &[&[u32]]) {
    let root = held(rt, arena, root);
    let rows = arena.rows(root).expect(rt, "memory");
    are_at(rt, &rows, places);
}

/// Of a tree as it was made.
fn is_as_made<P: Plane>(rt: &impl Abort, arena: &Arena<P>, root: Node) {
    stand_at(rt, arena, root, &[&[1, 1], &[1, 7], &[2, 1]]);
}

fn is_told<P: Plane>(rt: &impl Abort, arena: &Arena<P>, root: Node) {
    let root = held(rt, arena, root);
    assert!(rt; arena.depth(root) == 2);
    assert!(rt; arena.leaves(root) == 3);
    let is_inner = matches!(arena.node(root), Children::Inner(_));
    assert!(rt; is_inner);
    let end = at(rt, arena.allocator(), &[2, 1]);
    let before = at(rt, arena.allocator(), &[1, 7]);
    let Some(found) = arena.row_before(root, &end) else {
        panic!(rt; "a row");
    };
    assert!(rt; found.first == before);
}

fn moves<P: Plane>(rt: &impl Abort, arena: &mut Arena<P>, root: Node) {
    let alloc = arena.allocator();
    let from = at(rt, alloc, &[1, 7]);
    let to = at(rt, alloc, &[1, 4]);
    let moved = shift(rt, arena, root, &from, &to);
    stand_at(rt, arena, moved, &[&[1, 1], &[1, 4], &[2, 1]]);
    is_as_made(rt, arena, root);
}

fn takes_out<P: Plane>(rt: &impl Abort, arena: &mut Arena<P>, root: Node) {
    let alloc = arena.allocator();
    let from = at(rt, alloc, &[1, 7]);
    let to = at(rt, alloc, &[2, 1]);
    let made = cut(rt, arena, root, &from, &to);
    stand_at(rt, arena, made.root, &[&[1, 1], &[2, 1]]);
    are_at(rt, &made.out, &[&[1, 7]]);
    is_as_made(rt, arena, root);
}

/// A row at 1.8 comes in.
fn puts_in<P: Plane>(rt: &impl Abort, arena: &mut Arena<P>, root: Node, one: &List<Row<P::Leaf>>) {
    let at = at(rt, arena.allocator(), &[1, 8]);
    let made = splice(rt, arena, root, &at, one);
    stand_at(rt, arena, made, &[&[1, 1], &[1, 7], &[1, 8], &[2, 1]]);
    is_as_made(rt, arena, root);
}

/// A row at 1.8 comes in for the one at 1.7, and what is from 2 on comes to be from 1.9 on.
fn exchanges<P: Plane>(
    rt: &impl Abort,
    arena: &mut Arena<P>,
    root: Node,
    one: &List<Row<P::Leaf>>,
) {
    let alloc = arena.allocator();
    let gap = Gap {
        from: at(rt, alloc, &[1, 7]),
        to: at(rt, alloc, &[2]),
        onto: at(rt, alloc, &[1, 9]),
    };
    let made = exchange(rt, arena, root, &gap, one);
    stand_at(rt, arena, made.root, &[&[1, 1], &[1, 8], &[1, 10]]);
    are_at(rt, &made.out, &[&[1, 7]]);
}

/// A tree comes in, and is gone behind the mark. The ones in front of the mark stay.
fn goes_back<P: Plane>(
    rt: &impl Abort,
    arena: &mut Arena<P>,
    root: Node,
    one: &List<Row<P::Leaf>>,
) {
    let mark = arena.mark();
    let empty = arena.empty().expect(rt, "memory");
    let at = Tumbler::zero(arena.allocator());
    let made = splice(rt, arena, empty, &at, one);
    stand_at(rt, arena, made, &[&[1, 8]]);
    let is_held = mark <= arena.count();
    assert!(rt; is_held);
    arena.truncate(mark);
    assert!(rt; arena.count() == mark);
    is_as_made(rt, arena, root);
}

/// All of it with a row at 1.8.
fn is_edited<P: Plane>(rt: &impl Abort, arena: &mut Arena<P>, root: Node, one: &Row<P::Leaf>) {
    let one = alone::<P>(rt, arena.allocator(), one);
    is_told(rt, arena, root);
    moves(rt, arena, root);
    takes_out(rt, arena, root);
    puts_in(rt, arena, root, &one);
    exchanges(rt, arena, root, &one);
    goes_back(rt, arena, root, &one);
}

fn runs(rt: &impl Abort, alloc: Global, arena: &mut Arena<TextPlane>) -> Node {
    let mut front = List::new(alloc);
    front
        .push(row(rt, alloc, &[0, 1], &[7, 1], 3))
        .expect(rt, "memory");
    front
        .push(row(rt, alloc, &[0, 7], &[7, 1], 2))
        .expect(rt, "memory");
    let back = alone::<TextPlane>(rt, alloc, &row(rt, alloc, &[0, 1], &[7, 1], 1));
    tree(rt, arena, front, back, &[7, 4], &[7, 2])
}

#[test]
fn runs_are_edited(rt: HostRuntime) -> Result<(), Fail> {
    let alloc = rt.alloc();
    let mut arena = Arena::new(alloc);
    let root = runs(&rt, alloc, &mut arena);
    is_edited(&rt, &mut arena, root, &row(&rt, alloc, &[1, 8], &[7, 1], 1));
    Ok(())
}

fn bytes(rt: &impl Abort, alloc: Global, arena: &mut Arena<ContentPlane>) -> Node {
    let mut front = List::new(alloc);
    front
        .push(row(rt, alloc, &[0, 1], &[], text(rt, alloc, b"abc")))
        .expect(rt, "memory");
    front
        .push(row(rt, alloc, &[0, 7], &[], text(rt, alloc, b"de")))
        .expect(rt, "memory");
    let back = alone::<ContentPlane>(
        rt,
        alloc,
        &row(rt, alloc, &[0, 1], &[], text(rt, alloc, b"f")),
    );
    tree(rt, arena, front, back, &[], &[])
}

#[test]
fn bytes_are_edited(rt: HostRuntime) -> Result<(), Fail> {
    let alloc = rt.alloc();
    let mut arena = Arena::new(alloc);
    let root = bytes(&rt, alloc, &mut arena);
    let one = row(&rt, alloc, &[1, 8], &[], text(&rt, alloc, b"g"));
    is_edited(&rt, &mut arena, root, &one);
    Ok(())
}

fn keys(rt: &impl Abort, alloc: Global, arena: &mut Arena<KeyPlane>) -> Node {
    let mut front = List::new(alloc);
    front
        .push(row(rt, alloc, &[0, 1], &[3], at(rt, alloc, &[0, 3])))
        .expect(rt, "memory");
    front
        .push(row(rt, alloc, &[0, 7], &[1], at(rt, alloc, &[0, 2])))
        .expect(rt, "memory");
    let back = alone::<KeyPlane>(
        rt,
        alloc,
        &row(rt, alloc, &[0, 1], &[2], at(rt, alloc, &[0, 1])),
    );
    tree(rt, arena, front, back, &[3], &[2])
}

#[test]
fn keys_are_edited(rt: HostRuntime) -> Result<(), Fail> {
    let alloc = rt.alloc();
    let mut arena = Arena::new(alloc);
    let root = keys(&rt, alloc, &mut arena);
    let one = row(&rt, alloc, &[1, 8], &[2], Tumbler::zero(alloc));
    is_edited(&rt, &mut arena, root, &one);
    Ok(())
}
