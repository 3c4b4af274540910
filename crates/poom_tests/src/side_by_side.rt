//! Trees that are cut in different ways, side by side.
ghost use Rattle.std.specs.Prelude.{◌<◌, IfOk};
ghost use Rattle.tumbler.specs.Address.{IsDocument};

use enfilade_core::{Arena, Children, Row};
use granfilade::Granfilade;
use poom::Poom;
use std::alloc::Global;
use std::process::Abort;
use std::test::Fail;
use tree_compare::{same_bytes, same_text};
use tumbler::{List, Memory, Tumbler};

fn at(alloc: Global, places: &[u32]) -> Result<Tumbler, Memory> {
    match Tumbler::from_places(alloc, places) {
        Ok(tumbler) => Ok(tumbler),
        Err(_fault) => Err(Memory),
    }
}

/// A document of this number.
fn document(alloc: Global, number: u32) -> Result<Tumbler, Memory>
    ensures { IfOk result IsDocument }
{
    let document = at(alloc, &[1, 1, 0, 1, 0, number])?;
    if !document.is_document() {
        return Err(Memory);
    }
    Ok(document)
}

/// A tree of rows in the document 1.1.0.1.0.1: each by its first byte's number and its bytes.
fn tree(rt: &impl Abort, alloc: Global, rows: &[(u32, &[u8])]) -> Result<Granfilade, Memory> {
    let mut held = List::new(alloc);
    for (number, bytes) in rows {
        held.push(Row {
            first: at(alloc, &[1, 1, 0, 1, 0, 1, 0, 1, *number])?,
            second: Tumbler::zero(alloc),
            leaf: List::from_slice(alloc, *bytes)?,
        })?;
    }
    let mut arena = Arena::new(alloc);
    let children = Children::Bottom(held);
    let right = arena.is_well_formed(&children);
    assert!(rt; right);
    let root = arena.add_node(children)?;
    Ok(Granfilade::from_parts(arena, root))
}

#[test]
fn bytes_are_the_same_however_they_are_cut(rt: HostRuntime) -> Result<(), Fail> {
    let alloc = rt.alloc();
    let one = tree(&rt, alloc, &[(1, b"abcd"), (5, b"ef"), (9, b"g")])?;
    let other = tree(&rt, alloc, &[(1, b"a"), (2, b"bcde"), (6, b"f"), (9, b"g")])?;
    assert!(rt; same_bytes(&one, &other)?);
    assert!(rt; same_bytes(&other, &one)?);
    Ok(())
}

#[test]
fn other_bytes_are_not(rt: HostRuntime) -> Result<(), Fail> {
    let alloc = rt.alloc();
    let one = tree(&rt, alloc, &[(1, b"abcd"), (5, b"ef")])?;
    let byte = tree(&rt, alloc, &[(1, b"abc"), (4, b"xef")])?;
    assert!(rt; !same_bytes(&one, &byte)?);
    let address = tree(&rt, alloc, &[(1, b"abcd"), (6, b"ef")])?;
    assert!(rt; !same_bytes(&one, &address)?);
    let short = tree(&rt, alloc, &[(1, b"abcd"), (5, b"e")])?;
    assert!(rt; !same_bytes(&one, &short)?);
    assert!(rt; !same_bytes(&short, &one)?);
    Ok(())
}

#[test]
fn texts_are_the_same_however_they_are_cut(rt: HostRuntime) -> Result<(), Fail> {
    let alloc = rt.alloc();
    let home = document(alloc, 1)?;
    let mut first = Poom::new(alloc);
    let empty = first.empty()?;
    assert!(rt; first.length(empty) == 0);
    let one = first.insert(empty, 1, &home, 1, 6)?;
    let mut second = Poom::new(alloc);
    let empty = second.empty()?;
    assert!(rt; second.length(empty) == 0);
    let two = second.insert(empty, 1, &home, 1, 2)?;
    assert!(rt; !same_text(first.arena(), one, second.arena(), two)?);
    assert!(rt; !same_text(second.arena(), two, first.arena(), one)?);
    assert!(rt; second.length(two) == 2);
    let more = second.insert(two, 3, &home, 5, 2)?;
    assert!(rt; second.length(more) == 4);
    let other = second.insert(more, 3, &home, 3, 2)?;
    assert!(rt; same_text(first.arena(), one, second.arena(), other)?);
    Ok(())
}
