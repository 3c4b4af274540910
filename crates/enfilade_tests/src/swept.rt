//! A sweep of a tree of three nodes, among nodes that no root reaches.
ghost use Rattle.std.specs.Prelude.{◌<◌, length, All, IfOk, IfSome};

use enfilade_core::{Arena, Branch, Children, Node, Row, TextPlane};
use enfilade_sweep::{finish_sweep, plan_sweep, sweep};
use std::alloc::Global;
use std::process::Abort;
use std::test::Fail;
use tumbler::{BadTumbler, List, Memory, Tumbler};

/// So many runs of one position each from 1.1 on, which show content from 7.5 on.
fn runs(alloc: Global, count: u32) -> Result<List<Row<u32>>, Fail> {
    let mut rows = List::new(alloc);
    for k in 0..count {
        rows.push(Row {
            first: Tumbler::from_places(alloc, &[1, k.saturating_add(1)])?,
            second: Tumbler::from_places(alloc, &[7, k.saturating_add(5)])?,
            leaf: 1,
        })?;
    }
    Ok(rows)
}

/// A branch to so many runs, which puts them behind `at`.
fn branch(alloc: Global, node: Node, at: u32, count: u32) -> Result<Branch, BadTumbler> {
    Ok(Branch {
        node,
        first: Tumbler::from_places(alloc, &[at])?,
        second: Tumbler::zero(alloc),
        first_extent: Tumbler::from_places(alloc, &[1, count.saturating_add(1)])?,
        second_extent: Tumbler::from_places(alloc, &[7, count.saturating_add(5)])?,
    })
}

/// Adds a node, which is there then.
fn added(rt: &impl Abort, arena: &mut Arena<TextPlane>, children: Children<u32>) -> Node
    ensures { result.0 < length arena.new }
{
    let is_well_formed = arena.is_well_formed(&children);
    assert!(rt; is_well_formed);
    arena.add_node(children).expect(rt, "memory")
}

/// A tree of 17 runs in two nodes, with a node of all of them between that no root reaches.
fn tree(rt: &impl Abort, arena: &mut Arena<TextPlane>) -> Result<Node, Fail>
    ensures { IfOk result (λ root. root.0 < length arena.new) }
{
    let alloc = arena.allocator();
    let low = added(rt, arena, Children::Bottom(runs(alloc, 8)?));
    added(rt, arena, Children::Bottom(runs(alloc, 17)?));
    let high = added(rt, arena, Children::Bottom(runs(alloc, 9)?));
    let mut branches = List::new(alloc);
    branches.push(branch(alloc, low, 1, 8)?)?;
    branches.push(branch(alloc, high, 2, 9)?)?;
    Ok(added(rt, arena, Children::Inner(branches)))
}

/// The root, so many times.
fn times(arena: &Arena<TextPlane>, root: Node, count: u32) -> Result<List<Node>, Memory>
    requires { root.0 < length arena.now }
    ensures { IfOk result (λ made. All (λ node. node.0 < length arena.now) made.items) }
{
    let mut roots = List::new(arena.allocator());
    for _ in 0..count {
        roots.push(root)?;
    }
    Ok(roots)
}

/// Asserts that two lists have the same rows.
fn are_alike(rt: &impl Abort, rows: &List<Row<u32>>, others: &List<Row<u32>>) {
    assert!(rt; rows.len() == others.len());
    for (row, other) in rows.as_slice().iter().zip(others.as_slice()) {
        assert!(rt; row.first == other.first);
        assert!(rt; row.second == other.second);
        assert!(rt; row.leaf == other.leaf);
    }
}

#[test]
fn keeps_what_is_reached_once(rt: HostRuntime) -> Result<(), Fail> {
    let mut arena: Arena<TextPlane> = Arena::new(rt.alloc());
    arena.empty()?;
    let root = tree(&rt, &mut arena)?;
    let roots = times(&arena, root, 1_000)?;
    let (swept, swept_roots) = sweep(&arena, &roots)?;
    assert!(rt; swept.count() == 3);
    assert!(rt; swept_roots.len() == 1_000);
    let is_same = swept_roots
        .as_slice()
        .iter()
        .all(|root| Arena::<TextPlane>::number(*root) == 2);
    assert!(rt; is_same);
    let there = swept.at_number(2).expect(&rt, "the root");
    are_alike(&rt, &arena.rows(root)?, &swept.rows(there)?);
    Ok(())
}

#[test]
fn stays_in_its_arena(rt: HostRuntime) -> Result<(), Fail> {
    let mut arena: Arena<TextPlane> = Arena::new(rt.alloc());
    arena.empty()?;
    let root = tree(&rt, &mut arena)?;
    let rows = arena.rows(root)?;
    let roots = times(&arena, root, 1_000)?;
    let plan = plan_sweep(&arena, roots)?;
    let roots = finish_sweep(&mut arena, plan);
    assert!(rt; arena.count() == 3);
    let is_same = roots
        .as_slice()
        .iter()
        .all(|root| Arena::<TextPlane>::number(*root) == 2);
    assert!(rt; is_same);
    let there = arena.at_number(2).expect(&rt, "the root");
    are_alike(&rt, &rows, &arena.rows(there)?);
    Ok(())
}
