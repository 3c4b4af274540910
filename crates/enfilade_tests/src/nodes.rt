//! Nodes that are added, and what is told of them.
ghost use Rattle.std.specs.Prelude.{◌<◌, length, IfOk, IfSome};

mod edits;
mod left;
mod random;

use enfilade_core::{Arena, Branch, Children, Node, Row, TextPlane};
use std::alloc::Global;
use std::test::Fail;
use tumbler::{BadTumbler, List, Tumbler};

/// So many text positions from the first on, which show content from 7.5 on.
fn run(alloc: Global, length: u32) -> Result<Row<u32>, BadTumbler> {
    Ok(Row {
        first: Tumbler::from_places(alloc, &[1, 1])?,
        second: Tumbler::from_places(alloc, &[7, 5])?,
        leaf: length,
    })
}

#[test]
fn finds_an_empty_node(rt: HostRuntime) -> Result<(), Fail> {
    let alloc = rt.alloc();
    let mut arena: Arena<TextPlane> = Arena::new(alloc);
    let empty = arena.empty()?;
    assert!(rt; arena.count() == 1);
    assert!(rt; arena.depth(empty) == 1);
    assert!(rt; arena.leaves(empty) == 0);
    assert!(rt; arena.at_number(0) == Some(empty));
    Ok(())
}

#[test]
fn adds_a_run_that_has_a_width(rt: HostRuntime) -> Result<(), Fail> {
    let alloc = rt.alloc();
    let mut arena: Arena<TextPlane> = Arena::new(alloc);
    let mut rows = List::new(alloc);
    rows.push(run(alloc, 3)?)?;
    let children = Children::Bottom(rows);
    let is_well_formed = arena.is_well_formed(&children);
    assert!(rt; is_well_formed);
    let root = arena.add_node(children)?;
    assert!(rt; arena.leaves(root) == 1);
    Ok(())
}

/// A bottom node with a run of three positions.
fn bottom(alloc: Global, arena: &mut Arena<TextPlane>) -> Result<Option<Node>, Fail> {
    let mut rows = List::new(alloc);
    rows.push(run(alloc, 3)?)?;
    let children = Children::Bottom(rows);
    if !arena.is_well_formed(&children) {
        return Ok(None);
    }
    Ok(Some(arena.add_node(children)?))
}

/// A root above the node, which puts the run to 3.1 and 8.5.
fn root_above(alloc: Global, arena: &mut Arena<TextPlane>, node: Node) -> Result<Option<Node>, Fail>
    ensures { IfOk result (λ found. IfSome found (λ root. root.0 < length arena.new)) }
{
    let mut branches = List::new(alloc);
    branches.push(Branch {
        node,
        first: Tumbler::from_places(alloc, &[2])?,
        second: Tumbler::from_places(alloc, &[1])?,
        first_extent: Tumbler::from_places(alloc, &[1, 4])?,
        second_extent: Tumbler::from_places(alloc, &[7, 8])?,
    })?;
    let children = Children::Inner(branches);
    if !arena.is_well_formed(&children) {
        return Ok(None);
    }
    Ok(Some(arena.add_node(children)?))
}

#[test]
fn lists_a_row_where_it_stands(rt: HostRuntime) -> Result<(), Fail> {
    let alloc = rt.alloc();
    let mut arena: Arena<TextPlane> = Arena::new(alloc);
    let node = bottom(alloc, &mut arena)?.expect(&rt, "a bottom node");
    let root = root_above(alloc, &mut arena, node)?.expect(&rt, "a root");
    let rows = arena.rows(root)?;
    assert!(rt; rows.len() == 1);
    let first = Tumbler::from_places(alloc, &[3, 1])?;
    assert!(rt; rows.as_slice()[0].first == first);
    Ok(())
}

#[test]
fn finds_the_row_before_a_place(rt: HostRuntime) -> Result<(), Fail> {
    let alloc = rt.alloc();
    let mut arena: Arena<TextPlane> = Arena::new(alloc);
    let node = bottom(alloc, &mut arena)?.expect(&rt, "a bottom node");
    let root = root_above(alloc, &mut arena, node)?.expect(&rt, "a root");
    let place = Tumbler::from_places(alloc, &[3, 1])?;
    assert!(rt; arena.row_before(root, &place).is_none());
    let behind = Tumbler::from_places(alloc, &[3, 2])?;
    let Some(found) = arena.row_before(root, &behind) else {
        panic!(rt; "a row");
    };
    assert!(rt; *found.leaf == 3);
    assert!(rt; found.first == place);
    Ok(())
}
