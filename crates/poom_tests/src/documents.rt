//! Documents, call by call.
ghost use Rattle.std.specs.Prelude.{◌≡◌, ◌+◌, ◌^◌, ◌<◌, ◌≤◌, length, All, IfOk};
ghost use Rattle.tumbler.specs.Address.{IsDocument};
ghost use Rattle.tumbler.specs.Span.{SpanFits};
ghost use Rattle.poom.specs.Edited.{IsContentRun, IsLinkId, run_addresses};

use enfilade_balance::{Balance, debt};
use enfilade_core::{Arena, Node, TextPlane};
use febe_data::Run;
use poom::Poom;
use std::alloc::Global;
use std::process::Abort;
use std::test::Fail;
use tumbler::{List, Memory, Span, Tumbler};

mod random;

fn at(alloc: Global, places: &[u32]) -> Result<Tumbler, Memory> {
    match Tumbler::from_places(alloc, places) {
        Ok(tumbler) => Ok(tumbler),
        Err(_fault) => Err(Memory),
    }
}

fn document(alloc: Global) -> Result<Tumbler, Memory>
    ensures { IfOk result IsDocument }
{
    let document = at(alloc, &[1, 1, 0, 1, 0, 1])?;
    if !document.is_document() {
        return Err(Memory);
    }
    Ok(document)
}

fn span(alloc: Global, start: &[u32], width: &[u32]) -> Result<Span, Memory>
    ensures { IfOk result SpanFits }
{
    let span = Span {
        start: at(alloc, start)?,
        width: at(alloc, width)?,
    };
    if !span.fits() {
        return Err(Memory);
    }
    Ok(span)
}

/// One run of the document's content.
#[tactic(auto, using(poom::proofs::Trials::trials))]
fn one_run(alloc: Global, document: &Tumbler, first: u32, count: u32) -> Result<List<Run>, Memory>
    requires document { IsDocument document.now }
    requires from_one { 1 ≤ first }
    requires filled { 1 ≤ count }
    requires fits { first + count < 2 ^ 32 }
    ensures runs { IfOk result (λ runs. All IsContentRun runs.items) }
    ensures long { IfOk result (λ runs. length (run_addresses runs.items) ≡ count) }
{
    let mut runs = List::new(alloc);
    runs.push(Run {
        origin: document.copy(),
        content: document.copy(),
        first,
        length: count,
    })?;
    Ok(runs)
}

/// Whether the runs are these, each by its first byte and its length.
fn are(runs: &List<Run>, expected: &[(u32, u32)]) -> bool {
    if runs.len() != expected.len() {
        return false;
    }
    for (k, (first, length)) in expected.iter().enumerate() {
        let Some(run) = runs.get(k) else {
            return false;
        };
        if run.first != *first || run.length != *length {
            return false;
        }
    }
    true
}

#[test]
fn shows_what_came_in(rt: HostRuntime) -> Result<(), Fail> {
    let alloc = rt.alloc();
    let home = document(alloc)?;
    let mut poom = Poom::new(alloc);
    let empty = poom.empty()?;
    assert!(rt; poom.length(empty) == 0);
    let root = poom.insert(empty, 1, &home, 1, 5)?;
    assert!(rt; poom.length(root) == 5);
    assert!(rt; poom.length(empty) == 0);
    let found = poom.i_of(root, 3).expect(&rt, "a byte");
    assert!(rt; found.number == 3);
    assert!(rt; poom.i_of(root, 6).is_none());
    Ok(())
}

#[test]
fn swaps_blocks(rt: HostRuntime) -> Result<(), Fail> {
    let alloc = rt.alloc();
    let mut poom = Poom::new(alloc);
    let empty = poom.empty()?;
    assert!(rt; poom.length(empty) == 0);
    let home = document(alloc)?;
    let root = poom.insert(empty, 1, &home, 1, 6)?;
    assert!(rt; poom.length(root) == 6);
    let swapped = poom.rearrange(root, &List::from_slice(alloc, &[2, 4, 6])?)?;
    let whole = span(alloc, &[1, 1], &[0, 6])?;
    let all = are(
        &poom.picked(swapped, &home, &whole)?,
        &[(1, 1), (4, 2), (2, 2), (6, 1)],
    );
    assert!(rt; all);
    Ok(())
}

#[test]
fn shows_repeats_each_in_its_place(rt: HostRuntime) -> Result<(), Fail> {
    let alloc = rt.alloc();
    let mut poom = Poom::new(alloc);
    let empty = poom.empty()?;
    assert!(rt; poom.length(empty) == 0);
    let home = document(alloc)?;
    let root = poom.insert(empty, 1, &home, 1, 3)?;
    assert!(rt; poom.length(root) == 3);
    let root = poom.copy_in(root, 2, &one_run(alloc, &home, 1, 3)?)?;
    let first = span(
        alloc,
        &[1, 1, 0, 1, 0, 1, 0, 1, 1],
        &[0, 0, 0, 0, 0, 0, 0, 0, 1],
    )?;
    let found = poom.v_of(root, &first)?;
    assert!(rt; found.len() == 1);
    Ok(())
}

/// A root that is there.
fn held(rt: &impl Abort, poom: &Poom, root: Node) -> Node
    ensures { result.0 < length poom.now }
{
    poom.arena()
        .at_number(Arena::<TextPlane>::number(root))
        .expect(rt, "a root that is there")
}

fn owed(rt: &impl Abort, poom: &Poom, root: Node) -> u64 {
    debt(poom.arena(), held(rt, poom, root))
}

fn step(rt: &impl Abort, poom: &mut Poom, root: Node) -> Balance {
    let root = held(rt, poom, root);
    poom.balance(root).expect(rt, "memory")
}

/// Asserts that two documents have the same rows.
fn are_alike(rt: &impl Abort, poom: &Poom, root: Node, other: Node) {
    let rows = poom.arena().rows(held(rt, poom, root)).expect(rt, "memory");
    let others = poom
        .arena()
        .rows(held(rt, poom, other))
        .expect(rt, "memory");
    assert!(rt; rows.len() == others.len());
    for (row, other) in rows.as_slice().iter().zip(others.as_slice()) {
        assert!(rt; row.first == other.first);
        assert!(rt; row.second == other.second);
        assert!(rt; row.leaf == other.leaf);
    }
}

#[test]
fn a_run_for_each_byte_put_in_front_is_split(rt: HostRuntime) -> Result<(), Fail> {
    let alloc = rt.alloc();
    let home = document(alloc)?;
    let mut poom = Poom::new(alloc);
    let mut root = poom.empty()?;
    for first in 1..18 {
        let long = poom.length(root);
        assert!(rt; long < 18);
        root = poom.insert(root, 1, &home, first, 1)?;
    }
    let depth = poom.arena().depth(root);
    assert!(rt; depth == 1);
    let leaves = poom.arena().leaves(root);
    assert!(rt; leaves == 17);
    let Some(last) = poom.i_of(root, 17) else {
        panic!(rt; "the last byte is not there");
    };
    assert!(rt; last.number == 1);
    assert!(rt; last.visits == 1);
    let version = poom.version(root);
    assert!(rt; owed(&rt, &poom, root) == 5);
    let Balance::Split(made) = step(&rt, &mut poom, root) else {
        panic!(rt; "not a split");
    };
    assert!(rt; owed(&rt, &poom, made) == 0);
    assert!(rt; step(&rt, &mut poom, made) == Balance::Idle);
    are_alike(&rt, &poom, version, made);
    assert!(rt; owed(&rt, &poom, version) == 5);
    Ok(())
}

#[test]
fn deletes_text_and_links(rt: HostRuntime) -> Result<(), Fail> {
    let alloc = rt.alloc();
    let mut poom = Poom::new(alloc);
    let empty = poom.empty()?;
    assert!(rt; poom.length(empty) == 0);
    let home = document(alloc)?;
    let root = poom.insert(empty, 1, &home, 1, 5)?;
    let version = poom.version(root);
    let mark = poom.mark();
    let none = poom.delete(root, &span(alloc, &[1, 1], &[1, 5])?)?;
    assert!(rt; poom.length(none) == 0);
    poom.back(mark);
    assert!(rt; poom.length(version) == 5);
    Ok(())
}

/// The id of a link that was made in the document.
fn link(alloc: Global, document: &Tumbler, number: u32) -> Result<Tumbler, Memory>
    requires document { IsDocument document.now }
    requires from_one { 1 ≤ number }
    requires fits { number < 4294967295 }
    ensures { IfOk result IsLinkId }
{
    match document.extended(&[0, 2, number]) {
        Ok(link) => Ok(link),
        Err(_fault) => Err(Memory),
    }
}

/// Whether the links are those of these numbers.
fn are_links(links: &List<Tumbler>, numbers: &[u32]) -> bool {
    if links.len() != numbers.len() {
        return false;
    }
    for (link, number) in links.as_slice().iter().zip(numbers) {
        if link.places().last() != Some(number) {
            return false;
        }
    }
    true
}

/// Bytes 1 to 5 and links 1 to 3, of which a span takes bytes 4 and 5 and link 1.
#[test]
fn links_stand_in_order_and_go_with_text(rt: HostRuntime) -> Result<(), Fail> {
    let alloc = rt.alloc();
    let home = document(alloc)?;
    let mut poom = Poom::new(alloc);
    let empty = poom.empty()?;
    assert!(rt; poom.length(empty) == 0);
    let root = poom.insert(empty, 1, &home, 1, 5)?;
    assert!(rt; poom.links(root) == 0);
    let root = poom.add_link(root, &link(alloc, &home, 1)?)?;
    assert!(rt; poom.links(root) == 1);
    let root = poom.add_link(root, &link(alloc, &home, 2)?)?;
    assert!(rt; poom.links(root) == 2);
    let root = poom.add_link(root, &link(alloc, &home, 3)?)?;
    let behind = span(alloc, &[2, 2], &[0, 9])?;
    let stand = are_links(&poom.picked_links(root, &behind)?, &[2, 3]);
    assert!(rt; stand);
    let left = poom.delete(root, &span(alloc, &[1, 4], &[1, 2])?)?;
    assert!(rt; poom.length(left) == 3);
    let all = span(alloc, &[2], &[1])?;
    let stand = are_links(&poom.picked_links(left, &all)?, &[2, 3]);
    assert!(rt; stand);
    Ok(())
}

#[test]
fn outer_blocks_change_places(rt: HostRuntime) -> Result<(), Fail> {
    let alloc = rt.alloc();
    let home = document(alloc)?;
    let mut poom = Poom::new(alloc);
    let empty = poom.empty()?;
    assert!(rt; poom.length(empty) == 0);
    let root = poom.insert(empty, 1, &home, 1, 7)?;
    assert!(rt; poom.length(root) == 7);
    let root = poom.rearrange(root, &List::from_slice(alloc, &[2, 4, 5, 8])?)?;
    let whole = span(alloc, &[1], &[1])?;
    let swapped = are(
        &poom.picked(root, &home, &whole)?,
        &[(1, 1), (5, 3), (4, 1), (2, 2)],
    );
    assert!(rt; swapped);
    Ok(())
}
