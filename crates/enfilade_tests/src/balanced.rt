//! Trees of the shapes whose debt was worked out by hand, and one step on each plane.
ghost use Rattle.std.specs.Prelude.{◌<◌, length};

use enfilade_balance::{Balance, allows, balance_step, debt};
use enfilade_core::{Arena, Branch, Children, ContentPlane, KeyPlane, Node, Plane, Row, TextPlane};
use std::alloc::Global;
use std::process::Abort;
use std::test::Fail;
use tumbler::{BadTumbler, List, Tumbler};

// ---- trees of runs

/// So many runs of one position each from 1.1 on, which show content from 7.5 on.
fn runs(alloc: Global, count: u32) -> Result<List<Row<u32>>, Fail> {
    let mut rows = List::new(alloc);
    for k in 0..count {
        rows.push(Row {
            first: Tumbler::from_places(alloc, &[1, k.saturating_add(1)])?,
            second: Tumbler::from_places(alloc, &[7, k.saturating_add(5)])?,
            leaf: 1,
        })?;
    }
    Ok(rows)
}

/// A branch to so many runs, which puts them behind `at`.
fn branch(alloc: Global, node: Node, at: u32, count: u32) -> Result<Branch, BadTumbler> {
    Ok(Branch {
        node,
        first: Tumbler::from_places(alloc, &[at])?,
        second: Tumbler::zero(alloc),
        first_extent: Tumbler::from_places(alloc, &[1, count.saturating_add(1)])?,
        second_extent: Tumbler::from_places(alloc, &[7, count.saturating_add(5)])?,
    })
}

fn added<P: Plane>(rt: &impl Abort, arena: &mut Arena<P>, children: Children<P::Leaf>) -> Node {
    let is_well_formed = arena.is_well_formed(&children);
    assert!(rt; is_well_formed);
    arena.add_node(children).expect(rt, "memory")
}

/// A root over bottom nodes of so many runs each.
fn root_over(rt: &impl Abort, arena: &mut Arena<TextPlane>, counts: &[u32]) -> Result<Node, Fail> {
    let alloc = arena.allocator();
    let mut branches = List::new(alloc);
    let mut at: u32 = 1;
    for count in counts {
        let node = added(rt, arena, Children::Bottom(runs(alloc, *count)?));
        branches.push(branch(alloc, node, at, *count)?)?;
        at = at.saturating_add(1);
    }
    Ok(added(rt, arena, Children::Inner(branches)))
}

// ---- what is asked of a tree

/// A node that is there.
fn held<P: Plane>(rt: &impl Abort, arena: &Arena<P>, node: Node) -> Node
    ensures { result.0 < length arena.now }
{
    arena
        .at_number(Arena::<P>::number(node))
        .expect(rt, "a node that is there")
}

fn debt_of<P: Plane>(rt: &impl Abort, arena: &Arena<P>, root: Node) -> u64 {
    debt(arena, held(rt, arena, root))
}

fn is_allowed<P: Plane>(rt: &impl Abort, arena: &Arena<P>, root: Node) -> bool {
    allows(arena, held(rt, arena, root))
}

fn step<P: Plane>(rt: &impl Abort, arena: &mut Arena<P>, root: Node) -> Balance {
    let root = held(rt, arena, root);
    balance_step(arena, root).expect(rt, "memory")
}

/// Asserts that two trees of runs have the same rows.
fn are_alike(rt: &impl Abort, arena: &Arena<TextPlane>, root: Node, other: Node) {
    let rows = arena.rows(held(rt, arena, root)).expect(rt, "memory");
    let others = arena.rows(held(rt, arena, other)).expect(rt, "memory");
    assert!(rt; rows.len() == others.len());
    for (row, other) in rows.as_slice().iter().zip(others.as_slice()) {
        assert!(rt; row.first == other.first);
        assert!(rt; row.second == other.second);
        assert!(rt; row.leaf == other.leaf);
    }
}

/// How many children the child of this number has under an inner root.
fn below(rt: &impl Abort, arena: &Arena<TextPlane>, root: Node, k: usize) -> u64 {
    let Children::Inner(branches) = arena.node(held(rt, arena, root)) else {
        panic!(rt; "not an inner root");
    };
    let branch = branches.get(k).expect(rt, "a child");
    arena.balance_state(held(rt, arena, branch.node)).children
}

// ---- the steps

#[test]
fn seventeen_runs_are_split(rt: HostRuntime) -> Result<(), Fail> {
    let mut arena: Arena<TextPlane> = Arena::new(rt.alloc());
    let rows = runs(rt.alloc(), 17)?;
    let root = added(&rt, &mut arena, Children::Bottom(rows));
    assert!(rt; debt_of(&rt, &arena, root) == 5);
    assert!(rt; is_allowed(&rt, &arena, root));
    let Balance::Split(made) = step(&rt, &mut arena, root) else {
        panic!(rt; "not a split");
    };
    assert!(rt; debt_of(&rt, &arena, made) == 0);
    assert!(rt; !is_allowed(&rt, &arena, made));
    assert!(rt; arena.depth(held(&rt, &arena, made)) == 2);
    assert!(rt; below(&rt, &arena, made, 0) == 8);
    assert!(rt; below(&rt, &arena, made, 1) == 9);
    are_alike(&rt, &arena, root, made);
    assert!(rt; debt_of(&rt, &arena, root) == 5);
    assert!(rt; step(&rt, &mut arena, made) == Balance::Idle);
    assert!(rt; arena.count() == 4);
    Ok(())
}

#[test]
fn three_and_three_are_merged(rt: HostRuntime) -> Result<(), Fail> {
    let mut arena: Arena<TextPlane> = Arena::new(rt.alloc());
    let root = root_over(&rt, &mut arena, &[3, 3, 10])?;
    assert!(rt; debt_of(&rt, &arena, root) == 8);
    let Balance::Merged(made) = step(&rt, &mut arena, root) else {
        panic!(rt; "not a merge");
    };
    assert!(rt; debt_of(&rt, &arena, made) == 0);
    assert!(rt; below(&rt, &arena, made, 0) == 6);
    assert!(rt; below(&rt, &arena, made, 1) == 10);
    are_alike(&rt, &arena, root, made);
    assert!(rt; step(&rt, &mut arena, made) == Balance::Idle);
    Ok(())
}

#[test]
fn two_and_three_are_merged_and_dropped(rt: HostRuntime) -> Result<(), Fail> {
    let mut arena: Arena<TextPlane> = Arena::new(rt.alloc());
    let root = root_over(&rt, &mut arena, &[2, 3])?;
    assert!(rt; debt_of(&rt, &arena, root) == 10);
    let Balance::Merged(one) = step(&rt, &mut arena, root) else {
        panic!(rt; "not a merge");
    };
    assert!(rt; debt_of(&rt, &arena, one) == 7);
    let Balance::Dropped(low) = step(&rt, &mut arena, one) else {
        panic!(rt; "not a drop");
    };
    assert!(rt; debt_of(&rt, &arena, low) == 0);
    assert!(rt; arena.depth(held(&rt, &arena, low)) == 1);
    are_alike(&rt, &arena, root, low);
    assert!(rt; step(&rt, &mut arena, low) == Balance::Idle);
    Ok(())
}

/// Steps until none is allowed, each of which lowers the debt and keeps the rows.
fn settles(rt: &impl Abort, arena: &mut Arena<TextPlane>, root: Node) -> Node {
    let mut last = root;
    for _ in 0..1_000u32 {
        let owed = debt_of(rt, arena, last);
        let made = match step(rt, arena, last) {
            Balance::Split(made) | Balance::Merged(made) | Balance::Dropped(made) => made,
            Balance::Idle => return last,
        };
        assert!(rt; debt_of(rt, arena, made) < owed);
        are_alike(rt, arena, root, made);
        last = made;
    }
    panic!(rt; "it does not settle")
}

#[test]
fn a_tree_of_many_shapes_settles(rt: HostRuntime) -> Result<(), Fail> {
    let mut arena: Arena<TextPlane> = Arena::new(rt.alloc());
    let counts = [
        40, 1, 1, 1, 17, 2, 60, 5, 5, 1, 90, 3, 3, 4, 2, 33, 1, 6, 1, 20, 7, 7, 1, 1,
    ];
    let root = root_over(&rt, &mut arena, &counts)?;
    let made = settles(&rt, &mut arena, root);
    assert!(rt; !is_allowed(&rt, &arena, made));
    let levels = arena.depth(held(&rt, &arena, made));
    assert!(rt; levels >= 2);
    Ok(())
}

// ---- the other planes

#[test]
fn contents_are_split(rt: HostRuntime) -> Result<(), Fail> {
    let alloc = rt.alloc();
    let mut arena: Arena<ContentPlane> = Arena::new(alloc);
    let mut rows = List::new(alloc);
    for k in 0..17u32 {
        rows.push(Row {
            first: Tumbler::from_places(alloc, &[1, k.saturating_add(1)])?,
            second: Tumbler::zero(alloc),
            leaf: List::from_slice(alloc, &[65])?,
        })?;
    }
    let root = added(&rt, &mut arena, Children::Bottom(rows));
    let Balance::Split(made) = step(&rt, &mut arena, root) else {
        panic!(rt; "not a split");
    };
    assert!(rt; debt_of(&rt, &arena, made) == 0);
    assert!(rt; !is_allowed(&rt, &arena, made));
    Ok(())
}

#[test]
fn spans_are_split(rt: HostRuntime) -> Result<(), Fail> {
    let alloc = rt.alloc();
    let mut arena: Arena<KeyPlane> = Arena::new(alloc);
    let mut rows = List::new(alloc);
    for k in 0..17u32 {
        rows.push(Row {
            first: Tumbler::from_places(alloc, &[1, k.saturating_add(1)])?,
            second: Tumbler::from_places(alloc, &[3])?,
            leaf: Tumbler::from_places(alloc, &[0, 1])?,
        })?;
    }
    let root = added(&rt, &mut arena, Children::Bottom(rows));
    let Balance::Split(made) = step(&rt, &mut arena, root) else {
        panic!(rt; "not a split");
    };
    assert!(rt; debt_of(&rt, &arena, made) == 0);
    assert!(rt; !is_allowed(&rt, &arena, made));
    Ok(())
}
