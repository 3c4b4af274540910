//! Edits at random places of trees of random shapes, beside the same edits of a plain list.
//!
//! All rows stand at 1.n, are one long, and show what is from 7.s on.
ghost use Rattle.std.specs.Prelude.{◌≤◌, length};

use super::left::{cut, exchange, held, shift, splice};
use enfilade_core::{Arena, Branch, Children, Exchanged, Gap, Node, Row, TextPlane};
use std::alloc::Global;
use std::process::Abort;
use std::test::Fail;
use tumbler::{List, Tumbler};

/// A row at 1.`place` that shows what is from 7.`shown` on.
#[derive(Clone, Copy)]
struct Plain {
    place: u32,
    shown: u32,
}

/// Numbers that look random.
#[derive(Drop)]
struct Random {
    state: u32,
}

impl Random {
    /// A number from 1 up to a most one, which is not 0.
    fn up_to(&mut self, most: u32) -> u32 {
        self.state = self
            .state
            .wrapping_mul(1_664_525)
            .wrapping_add(1_013_904_223);
        if most == 0 {
            return 1;
        }
        (self.state / 256) % most + 1
    }
}

/// A place 1.`place` from an origin 1.`origin` on, or from zero on where that is 0. Neither is 0 else.
fn from_origin(rt: &impl Abort, alloc: Global, origin: u32, place: u32) -> Tumbler {
    if origin != 0 {
        return Tumbler::width(alloc, 2, place.saturating_sub(origin));
    }
    if place == 0 {
        return Tumbler::zero(alloc);
    }
    Tumbler::from_places(alloc, &[1, place]).expect(rt, "a tumbler")
}

fn at(rt: &impl Abort, alloc: Global, place: u32) -> Tumbler {
    from_origin(rt, alloc, 0, place)
}

fn shown(rt: &impl Abort, alloc: Global, number: u32) -> Tumbler {
    Tumbler::from_places(alloc, &[7, number]).expect(rt, "a tumbler")
}

fn row(rt: &impl Abort, alloc: Global, origin: u32, plain: &Plain) -> Row<u32> {
    Row {
        first: from_origin(rt, alloc, origin, plain.place),
        second: shown(rt, alloc, plain.shown),
        leaf: 1,
    }
}

fn rows(rt: &impl Abort, alloc: Global, origin: u32, plain: &[Plain]) -> List<Row<u32>> {
    let mut made = List::new(alloc);
    for one in plain {
        made.push(row(rt, alloc, origin, one)).expect(rt, "memory");
    }
    made
}

// ---- trees

/// A node whose origin is at 1.`origin`, or at zero where that is 0, the last place of its rows, and the greatest
/// number of what they show.
#[derive(Clone, Copy)]
struct Grown {
    node: Node,
    origin: u32,
    last: u32,
    shown: u32,
}

fn add(rt: &impl Abort, arena: &mut Arena<TextPlane>, children: Children<u32>) -> Node {
    let is_well_formed = arena.is_well_formed(&children);
    assert!(rt; is_well_formed);
    arena.add_node(children).expect(rt, "memory")
}

/// An origin from which what is from a place on can be seen: that place, one before it, or zero.
fn origin_for(random: &mut Random, place: u32) -> u32 {
    match random.up_to(3) {
        1 => place,
        2 => place.saturating_sub(1),
        _ => 0,
    }
}

/// So many rows behind a place.
fn grown_rows(
    rt: &impl Abort,
    alloc: Global,
    random: &mut Random,
    count: u32,
    behind: u32,
) -> List<Plain> {
    let mut made = List::new(alloc);
    let mut place = behind;
    for _ in 0..count {
        place = place.saturating_add(random.up_to(3));
        let shown = random.up_to(50);
        made.push(Plain { place, shown }).expect(rt, "memory");
    }
    made
}

fn greatest_shown(rows: &[Plain]) -> u32 {
    let mut greatest = 0;
    for row in rows {
        greatest = row.shown.max(greatest);
    }
    greatest
}

/// A bottom node of 1 to 20 rows behind those of a list, which get behind it.
fn grow_bottom(
    rt: &impl Abort,
    arena: &mut Arena<TextPlane>,
    random: &mut Random,
    is_root: bool,
    plain: &mut List<Plain>,
) -> Grown {
    let alloc = arena.allocator();
    let count = random.up_to(20);
    let own = grown_rows(rt, alloc, random, count, last_place(plain.as_slice()));
    plain.extend_from_slice(own.as_slice()).expect(rt, "memory");
    let first = own.get(0).expect(rt, "a row").place;
    let origin = if is_root {
        0
    } else {
        origin_for(random, first)
    };
    let node = add(
        rt,
        arena,
        Children::Bottom(rows(rt, alloc, origin, own.as_slice())),
    );
    Grown {
        node,
        origin,
        last: last_place(own.as_slice()),
        shown: greatest_shown(own.as_slice()),
    }
}

fn last_place(rows: &[Plain]) -> u32 {
    match rows.last() {
        Some(row) => row.place,
        None => 0,
    }
}

fn branch(rt: &impl Abort, alloc: Global, origin: u32, child: &Grown) -> Branch {
    Branch {
        node: child.node,
        first: from_origin(rt, alloc, origin, child.origin),
        second: Tumbler::zero(alloc),
        first_extent: from_origin(rt, alloc, child.origin, child.last.saturating_add(1)),
        second_extent: shown(rt, alloc, child.shown.saturating_add(1)),
    }
}

/// The least origin of nodes: zero, or that of the first one.
fn least_origin(children: &[Grown]) -> u32 {
    let mut least = u32::MAX;
    for child in children {
        least = child.origin.min(least);
    }
    least
}

fn grow_inner(
    rt: &impl Abort,
    arena: &mut Arena<TextPlane>,
    origin: u32,
    children: &[Grown],
) -> Grown {
    let alloc = arena.allocator();
    let mut branches = List::new(alloc);
    let mut last = 0;
    let mut shown = 0;
    for child in children {
        branches
            .push(branch(rt, alloc, origin, child))
            .expect(rt, "memory");
        last = child.last;
        shown = child.shown.max(shown);
    }
    let node = add(rt, arena, Children::Inner(branches));
    Grown {
        node,
        origin,
        last,
        shown,
    }
}

/// Nodes above others, each with 1 to 20 of them.
fn grow_level(
    rt: &impl Abort,
    arena: &mut Arena<TextPlane>,
    random: &mut Random,
    below: &[Grown],
) -> List<Grown> {
    let mut level = List::new(arena.allocator());
    let mut rest = below;
    for _ in 0..below.len() {
        if rest.is_empty() {
            return level;
        }
        let count = (random.up_to(20) as usize).min(rest.len());
        let (children, behind) = rest.split_at(count);
        let origin = origin_for(random, least_origin(children));
        level
            .push(grow_inner(rt, arena, origin, children))
            .expect(rt, "memory");
        rest = behind;
    }
    level
}

fn grow_bottoms(
    rt: &impl Abort,
    arena: &mut Arena<TextPlane>,
    random: &mut Random,
    count: u32,
    plain: &mut List<Plain>,
) -> List<Grown> {
    let mut level = List::new(arena.allocator());
    for _ in 0..count {
        level
            .push(grow_bottom(rt, arena, random, false, plain))
            .expect(rt, "memory");
    }
    level
}

/// A tree, and its rows.
#[derive(Drop)]
struct Tree {
    root: Node,
    rows: List<Plain>,
}

/// A tree of so many levels, 1 to 4.
fn grow(rt: &impl Abort, arena: &mut Arena<TextPlane>, random: &mut Random, depth: u32) -> Tree {
    let mut plain = List::new(arena.allocator());
    if depth <= 1 {
        let bottom = grow_bottom(rt, arena, random, true, &mut plain);
        return Tree {
            root: bottom.node,
            rows: plain,
        };
    }
    let count = random.up_to(depth.saturating_sub(1).saturating_mul(8));
    let mut level = grow_bottoms(rt, arena, random, count, &mut plain);
    for _ in 2..depth {
        level = grow_level(rt, arena, random, level.as_slice());
    }
    let root = grow_inner(rt, arena, 0, level.as_slice()).node;
    assert!(rt; arena.depth(held(rt, arena, root)) == depth);
    Tree { root, rows: plain }
}

// ---- edits of plain rows

/// A gap from 1.`from` to 1.`to`, and where 1.`to` comes to stand.
#[derive(Clone, Copy)]
struct PlainGap {
    from: u32,
    to: u32,
    onto: u32,
}

fn count_before(rows: &[Plain], place: u32) -> usize
    ensures { result ≤ length rows.now }
{
    for k in 0..rows.len() {
        if rows[k].place >= place {
            return k;
        }
    }
    rows.len()
}

fn push_moved(rt: &impl Abort, rows: &[Plain], gap: PlainGap, into: &mut List<Plain>) {
    for row in rows {
        into.push(Plain {
            place: row.place.saturating_sub(gap.to).saturating_add(gap.onto),
            shown: row.shown,
        })
        .expect(rt, "memory");
    }
}

/// The rows with what is in a gap exchanged for new ones, and what was taken out.
fn plain_exchanged(
    rt: &impl Abort,
    alloc: Global,
    rows: &[Plain],
    gap: PlainGap,
    new: &[Plain],
) -> (List<Plain>, List<Plain>) {
    let (front, rest) = rows.split_at(count_before(rows, gap.from));
    let (out, back) = rest.split_at(count_before(rest, gap.to));
    let mut made = List::from_slice(alloc, front).expect(rt, "memory");
    made.extend_from_slice(new).expect(rt, "memory");
    push_moved(rt, back, gap, &mut made);
    (made, List::from_slice(alloc, out).expect(rt, "memory"))
}

// ---- the same in both

/// Asserts that these are the rows.
fn are(rt: &impl Abort, alloc: Global, found: &List<Row<u32>>, plain: &[Plain]) {
    assert!(rt; found.len() == plain.len());
    for (one, other) in found.as_slice().iter().zip(plain) {
        let expected = row(rt, alloc, 0, other);
        assert!(rt; one.first == expected.first);
        assert!(rt; one.second == expected.second);
        assert!(rt; one.leaf == expected.leaf);
    }
}

/// Asserts that these are the rows of a tree.
fn has(rt: &impl Abort, arena: &Arena<TextPlane>, root: Node, plain: &[Plain]) {
    let root = held(rt, arena, root);
    let found = arena.rows(root).expect(rt, "memory");
    are(rt, arena.allocator(), &found, plain);
    assert!(rt; arena.leaves(root) == plain.len() as u64);
}

/// Asserts that a tree with rows is as deep as another.
fn is_level(rt: &impl Abort, arena: &Arena<TextPlane>, old: Node, new: Node, rows: &[Plain]) {
    let depth = arena.depth(held(rt, arena, old));
    let made = arena.depth(held(rt, arena, new));
    let is_level = made == depth || rows.is_empty();
    assert!(rt; is_level);
}

fn tumbler_gap(rt: &impl Abort, alloc: Global, gap: PlainGap) -> Gap {
    Gap {
        from: at(rt, alloc, gap.from),
        to: at(rt, alloc, gap.to),
        onto: at(rt, alloc, gap.onto),
    }
}

/// A gap at random, whose ends do not come before a row in front of it.
fn any_gap(random: &mut Random, rows: &[Plain]) -> PlainGap {
    let from = random.up_to(last_place(rows).saturating_add(3));
    let to = from.saturating_add(random.up_to(9).saturating_sub(1));
    let front = last_place(rows.split_at(count_before(rows, from)).0);
    let onto = front.saturating_add(random.up_to(12));
    PlainGap { from, to, onto }
}

/// New rows at a place.
fn new_rows(rt: &impl Abort, alloc: Global, random: &mut Random, place: u32) -> List<Plain> {
    let mut made = List::new(alloc);
    for _ in 0..random.up_to(4) {
        let shown = random.up_to(50);
        made.push(Plain { place, shown }).expect(rt, "memory");
    }
    made
}

#[derive(Clone, Copy, PartialEq, Eq)]
enum Kind {
    Splice,
    Cut,
    Shift,
    Exchange,
}

fn any_kind(random: &mut Random) -> Kind {
    match random.up_to(4) {
        1 => Kind::Splice,
        2 => Kind::Cut,
        3 => Kind::Shift,
        _ => Kind::Exchange,
    }
}

/// The gap that an edit has: a splice has none, a cut moves nothing, and a shift takes nothing out.
fn gap_of(kind: Kind, gap: PlainGap) -> PlainGap {
    let PlainGap { from, to, onto } = gap;
    match kind {
        Kind::Splice => PlainGap {
            from,
            to: from,
            onto: from,
        },
        Kind::Cut => PlainGap { from, to, onto: to },
        Kind::Shift => PlainGap {
            from,
            to: from,
            onto,
        },
        Kind::Exchange => gap,
    }
}

/// What comes in: rows where those behind the gap come to stand, or none.
fn new_of(
    rt: &impl Abort,
    alloc: Global,
    random: &mut Random,
    kind: Kind,
    gap: PlainGap,
) -> List<Plain> {
    match kind {
        Kind::Splice | Kind::Exchange => new_rows(rt, alloc, random, gap.onto),
        Kind::Cut | Kind::Shift => List::new(alloc),
    }
}

fn edited(
    rt: &impl Abort,
    arena: &mut Arena<TextPlane>,
    root: Node,
    kind: Kind,
    gap: &Gap,
    rows: &List<Row<u32>>,
) -> Exchanged<u32> {
    let none = List::new(arena.allocator());
    match kind {
        Kind::Splice => Exchanged {
            root: splice(rt, arena, root, &gap.from, rows),
            out: none,
        },
        Kind::Cut => cut(rt, arena, root, &gap.from, &gap.to),
        Kind::Shift => Exchanged {
            root: shift(rt, arena, root, &gap.from, &gap.onto),
            out: none,
        },
        Kind::Exchange => exchange(rt, arena, root, gap, rows),
    }
}

/// One edit at random. The old tree stays.
fn step(rt: &impl Abort, arena: &mut Arena<TextPlane>, random: &mut Random, tree: &Tree) -> Tree {
    let alloc = arena.allocator();
    let kind = any_kind(random);
    let gap = gap_of(kind, any_gap(random, tree.rows.as_slice()));
    let new = new_of(rt, alloc, random, kind, gap);
    let (left, out) = plain_exchanged(rt, alloc, tree.rows.as_slice(), gap, new.as_slice());
    let new = rows(rt, alloc, 0, new.as_slice());
    let made = edited(
        rt,
        arena,
        tree.root,
        kind,
        &tumbler_gap(rt, alloc, gap),
        &new,
    );
    has(rt, arena, made.root, left.as_slice());
    are(rt, alloc, &made.out, out.as_slice());
    has(rt, arena, tree.root, tree.rows.as_slice());
    is_level(rt, arena, tree.root, made.root, left.as_slice());
    Tree {
        root: made.root,
        rows: left,
    }
}

/// What came in behind a mark goes.
fn go_back(rt: &impl Abort, arena: &mut Arena<TextPlane>, mark: u64) {
    let is_held = mark <= arena.count();
    assert!(rt; is_held);
    arena.truncate(mark);
}

/// Twenty-five edits of a tree, one after another. Some are taken back.
fn edits_of(rt: &impl Abort, arena: &mut Arena<TextPlane>, random: &mut Random, depth: u32) {
    let mut tree = grow(rt, arena, random, depth);
    has(rt, arena, tree.root, tree.rows.as_slice());
    for _ in 0..25u32 {
        let mark = arena.mark();
        let next = step(rt, arena, random, &tree);
        if random.up_to(5) == 1 {
            go_back(rt, arena, mark);
            has(rt, arena, tree.root, tree.rows.as_slice());
            continue;
        }
        tree = next;
    }
}

#[test]
fn five_hundred_edits(rt: HostRuntime) -> Result<(), Fail> {
    let mut arena = Arena::new(rt.alloc());
    let mut random = Random { state: 14 };
    for k in 0..20u32 {
        edits_of(&rt, &mut arena, &mut random, k % 4 + 1);
    }
    Ok(())
}
