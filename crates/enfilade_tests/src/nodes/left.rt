//! Edits that are asked after first: the rows that one would leave have to be well formed.
ghost use Rattle.std.specs.Prelude.{◌≡◌, ◌<◌, ◌++◌, ◌∷◌, [], map, length, false};
ghost use Rattle.tumbler.specs.Places.{IsUpTo, comes_before};
ghost use Rattle.enfilade_core.specs.Rows.{rows_of};
ghost use Rattle.enfilade_core.specs.Axes.{IsWellFormedRows};
ghost use Rattle.enfilade_core.specs.Plain.{plain_row};
ghost use Rattle.enfilade_core.specs.Edits.{shift_row, shifted};
ghost use Rattle.enfilade_core.specs.Exchange.{exchanged, rows_before, rows_past};

use enfilade_core::{Arena, Children, Exchanged, Gap, Node, Plane, Row};
use std::alloc::Global;
use std::process::Abort;
use tumbler::{List, Tumbler};

/// A node that is there.
pub(crate) fn held<P: Plane>(rt: &impl Abort, arena: &Arena<P>, node: Node) -> Node
    ensures { result.0 < length arena.now }
{
    arena
        .at_number(Arena::<P>::number(node))
        .expect(rt, "a node that is there")
}

pub(crate) fn copied<P: Plane>(rt: &impl Abort, alloc: Global, row: &Row<P::Leaf>) -> Row<P::Leaf>
    ensures { plain_row P.plain result ≡ plain_row P.plain row.now }
{
    Row {
        first: row.first.copy(),
        second: row.second.copy(),
        leaf: P::copy_leaf(alloc, &row.leaf).expect(rt, "memory"),
    }
}

/// A row behind a gap, where it comes to stand.
fn moved<P: Plane>(rt: &impl Abort, alloc: Global, row: &Row<P::Leaf>, gap: &Gap) -> Row<P::Leaf>
    requires { comes_before row.now.first gap.now.to ≡ false }
    ensures { plain_row P.plain result ≡ shift_row gap.now.to gap.now.onto (plain_row P.plain row.now) }
{
    let distance = row.first.minus(&gap.to);
    let fits = gap.onto.fits(&distance);
    assert!(rt; fits);
    Row {
        first: gap.onto.add(&distance),
        second: row.second.copy(),
        leaf: P::copy_leaf(alloc, &row.leaf).expect(rt, "memory"),
    }
}

fn push_before<P: Plane>(
    rt: &impl Abort,
    alloc: Global,
    row: &Row<P::Leaf>,
    at: &Tumbler,
    into: &mut List<Row<P::Leaf>>,
)
    ensures { map (plain_row P.plain) into.new.items ≡ map (plain_row P.plain) into.old.items ++ rows_before at.now (plain_row P.plain row.now ∷ []) }
{
    if row.first.is_before(at) {
        into.push(copied::<P>(rt, alloc, row)).expect(rt, "memory");
    }
}

fn push_behind<P: Plane>(
    rt: &impl Abort,
    alloc: Global,
    row: &Row<P::Leaf>,
    gap: &Gap,
    into: &mut List<Row<P::Leaf>>,
)
    ensures { map (plain_row P.plain) into.new.items ≡ map (plain_row P.plain) into.old.items ++ shifted gap.now.to gap.now.onto (rows_past gap.now.to (plain_row P.plain row.now ∷ [])) }
{
    if !row.first.is_before(&gap.to) {
        into.push(moved::<P>(rt, alloc, row, gap))
            .expect(rt, "memory");
    }
}

fn append_before<P: Plane>(
    rt: &impl Abort,
    alloc: Global,
    rows: &[Row<P::Leaf>],
    at: &Tumbler,
    into: &mut List<Row<P::Leaf>>,
)
    ensures { map (plain_row P.plain) into.new.items ≡ map (plain_row P.plain) into.old.items ++ rows_before at.now (map (plain_row P.plain) rows.now) }
{
    for row in rows {
        push_before::<P>(rt, alloc, row, at, into);
    }
}

fn append_copies<P: Plane>(
    rt: &impl Abort,
    alloc: Global,
    rows: &[Row<P::Leaf>],
    into: &mut List<Row<P::Leaf>>,
)
    ensures { map (plain_row P.plain) into.new.items ≡ map (plain_row P.plain) into.old.items ++ map (plain_row P.plain) rows.now }
{
    for row in rows {
        into.push(copied::<P>(rt, alloc, row)).expect(rt, "memory");
    }
}

fn append_behind<P: Plane>(
    rt: &impl Abort,
    alloc: Global,
    rows: &[Row<P::Leaf>],
    gap: &Gap,
    into: &mut List<Row<P::Leaf>>,
)
    ensures { map (plain_row P.plain) into.new.items ≡ map (plain_row P.plain) into.old.items ++ shifted gap.now.to gap.now.onto (rows_past gap.now.to (map (plain_row P.plain) rows.now)) }
{
    for row in rows {
        push_behind::<P>(rt, alloc, row, gap, into);
    }
}

/// The rows that an exchange would leave.
fn left<P: Plane>(
    rt: &impl Abort,
    alloc: Global,
    old: &[Row<P::Leaf>],
    gap: &Gap,
    new: &[Row<P::Leaf>],
) -> List<Row<P::Leaf>>
    ensures { map (plain_row P.plain) result.items ≡ exchanged gap.now (map (plain_row P.plain) new.now) (map (plain_row P.plain) old.now) }
{
    let mut made = List::new(alloc);
    append_before::<P>(rt, alloc, old, &gap.from, &mut made);
    append_copies::<P>(rt, alloc, new, &mut made);
    append_behind::<P>(rt, alloc, old, gap, &mut made);
    made
}

#[tactic(auto, using(tumbler::proofs::Before::before_tests))]
fn ask_up_to(rt: &impl Abort, from: &Tumbler, to: &Tumbler)
    ensures { IsUpTo from.now to.now }
{
    let is_up_to = !to.is_before(from);
    assert!(rt; is_up_to);
}

#[tactic(auto, using(enfilade_core::proofs::AskedEdits::asked))]
fn ask_well_formed<P: Plane>(rt: &impl Abort, arena: &Arena<P>, rows: List<Row<P::Leaf>>)
    ensures { IsWellFormedRows P.widths (map (plain_row P.plain) rows.items) }
{
    let children = Children::Bottom(rows);
    let is_well_formed = arena.is_well_formed(&children);
    assert!(rt; is_well_formed);
}

/// Asks whether the gap is one, and whether what an exchange would leave is well formed.
fn ask<P: Plane>(
    rt: &impl Abort,
    arena: &Arena<P>,
    root: Node,
    gap: &Gap,
    rows: &List<Row<P::Leaf>>,
)
    requires { root.0 < length arena.now }
    ensures up_to { IsUpTo gap.now.from gap.now.to }
    ensures well_formed { IsWellFormedRows P.widths (exchanged gap.now (map (plain_row P.plain) rows.now.items) (rows_of arena.now root.0)) }
{
    ask_up_to(rt, &gap.from, &gap.to);
    let alloc = arena.allocator();
    let old = arena.rows(root).expect(rt, "memory");
    let left = left::<P>(rt, alloc, old.as_slice(), gap, rows.as_slice());
    ask_well_formed(rt, arena, left);
}

pub(crate) fn exchange<P: Plane>(
    rt: &impl Abort,
    arena: &mut Arena<P>,
    root: Node,
    gap: &Gap,
    rows: &List<Row<P::Leaf>>,
) -> Exchanged<P::Leaf> {
    let root = held(rt, arena, root);
    ask(rt, arena, root, gap, rows);
    arena.exchange(root, gap, rows).expect(rt, "memory")
}

pub(crate) fn splice<P: Plane>(
    rt: &impl Abort,
    arena: &mut Arena<P>,
    root: Node,
    at: &Tumbler,
    rows: &List<Row<P::Leaf>>,
) -> Node {
    let root = held(rt, arena, root);
    let _right = arena.allocator();
    let gap = Gap {
        from: at.copy(),
        to: at.copy(),
        onto: at.copy(),
    };
    ask(rt, arena, root, &gap, rows);
    arena.splice(root, at, rows).expect(rt, "memory")
}

pub(crate) fn cut<P: Plane>(
    rt: &impl Abort,
    arena: &mut Arena<P>,
    root: Node,
    from: &Tumbler,
    to: &Tumbler,
) -> Exchanged<P::Leaf> {
    let root = held(rt, arena, root);
    let (root, out) = arena.cut(root, from, to).expect(rt, "memory");
    Exchanged { root, out }
}

pub(crate) fn shift<P: Plane>(
    rt: &impl Abort,
    arena: &mut Arena<P>,
    root: Node,
    from: &Tumbler,
    to: &Tumbler,
) -> Node {
    let root = held(rt, arena, root);
    let gap = Gap {
        from: from.copy(),
        to: from.copy(),
        onto: to.copy(),
    };
    let none = List::new(arena.allocator());
    ask(rt, arena, root, &gap, &none);
    arena.shift(root, from, to).expect(rt, "memory")
}
