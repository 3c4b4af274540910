//! The table of documents, call by call.

use doc_table::DocTable;
use std::alloc::Global;
use std::process::Abort;
use std::test::Fail;
use tumbler::{BadTumbler, Tumbler};

fn document(alloc: Global, number: u32) -> Result<Tumbler, BadTumbler> {
    Tumbler::from_places(alloc, &[1, 1, 0, 1, 0, number])
}

#[test]
fn next_addresses_follow_what_is_there(rt: HostRuntime) -> Result<(), Fail> {
    let alloc = rt.alloc();
    let account = Tumbler::from_places(alloc, &[1, 1, 0, 1])?;
    let first = document(alloc, 1)?;
    let mut table = DocTable::new(alloc);
    assert!(rt; account.is_account());
    assert!(rt; table.next_document(&account) == first);
    assert!(rt; !table.has(&first));
    table.add(alloc, &first, 7)?;
    assert!(rt; table.next_document(&account) == document(alloc, 2)?);
    Ok(())
}

#[test]
fn versions_stand_under_their_source_or_in_the_makers_account(rt: HostRuntime) -> Result<(), Fail> {
    let alloc = rt.alloc();
    let account = Tumbler::from_places(alloc, &[1, 1, 0, 1])?;
    let other = Tumbler::from_places(alloc, &[1, 1, 0, 2])?;
    let source = document(alloc, 1)?;
    let version = Tumbler::from_places(alloc, &[1, 1, 0, 1, 0, 1, 1])?;
    let elsewhere = Tumbler::from_places(alloc, &[1, 1, 0, 2, 0, 1])?;
    let mut table = DocTable::new(alloc);
    assert!(rt; !table.has(&source));
    table.add(alloc, &source, 7)?;
    assert!(rt; source.is_document());
    assert!(rt; account.is_account());
    assert!(rt; other.is_account());
    assert!(rt; table.version_address(&source, &account) == version);
    assert!(rt; table.version_address(&source, &other) == elsewhere);
    Ok(())
}

#[test]
fn a_row_is_found(rt: HostRuntime) -> Result<(), Fail> {
    let alloc = rt.alloc();
    let first = document(alloc, 1)?;
    let mut table = DocTable::new(alloc);
    assert!(rt; !table.has(&first));
    table.add(alloc, &first, 10)?;
    assert!(rt; table.nth(0) == Some(&first));
    assert!(rt; table.nth(1).is_none());
    assert_eq!(rt; table.root(&first), Some(10));
    assert_eq!(rt; table.content(&first), 0);
    Ok(())
}

#[test]
fn a_row_changes_and_goes(rt: HostRuntime) -> Result<(), Fail> {
    let alloc = rt.alloc();
    let first = document(alloc, 1)?;
    let mut table = DocTable::new(alloc);
    assert!(rt; !table.has(&first));
    table.add(alloc, &first, 10)?;
    assert!(rt; table.has(&first));
    table.set_root(&first, 11);
    assert_eq!(rt; table.root(&first), Some(11));
    assert!(rt; table.has(&first));
    table.set_content(&first, 5);
    assert_eq!(rt; table.content(&first), 5);
    assert!(rt; table.has(&first));
    table.remove(&first);
    assert_eq!(rt; table.root(&first), None);
    Ok(())
}

/// Puts a document in that is not there.
fn add(rt: &impl Abort, alloc: Global, table: &mut DocTable<u32>, document: &Tumbler, root: u32) {
    assert!(rt; !table.has(document));
    assert!(rt; table.len() < 4_294_967_294);
    table.add(alloc, document, root).expect(rt, "memory");
}

#[test]
fn all_roots_change_at_once(rt: HostRuntime) -> Result<(), Fail> {
    let alloc = rt.alloc();
    let mut table = DocTable::new(alloc);
    for number in [3u32, 1, 2] {
        add(&rt, alloc, &mut table, &document(alloc, number)?, number);
    }
    table.in_order();
    assert_eq!(rt; table.len(), 3);
    assert_eq!(rt; table.root_at(0), Some(1));
    assert_eq!(rt; table.root_at(2), Some(3));
    assert_eq!(rt; table.root_at(3), None);
    table.set_roots(&[5, 6, 7]);
    assert_eq!(rt; table.root(&document(alloc, 1)?), Some(5));
    assert_eq!(rt; table.root_at(2), Some(7));
    Ok(())
}

fn at(rt: &impl Abort, alloc: Global, places: &[u32]) -> Tumbler {
    Tumbler::from_places(alloc, places).expect(rt, "a tumbler")
}

/// Puts a document in by its places.
fn add_at(rt: &impl Abort, alloc: Global, table: &mut DocTable<u32>, places: &[u32]) {
    add(rt, alloc, table, &at(rt, alloc, places), 7);
}

/// Takes a document out that is there.
fn remove_at(rt: &impl Abort, alloc: Global, table: &mut DocTable<u32>, places: &[u32]) {
    let document = at(rt, alloc, places);
    assert!(rt; table.has(&document));
    table.remove(&document);
}

/// Asserts which document is an account's next one.
fn next_is(
    rt: &impl Abort,
    alloc: Global,
    table: &DocTable<u32>,
    account: &[u32],
    expected: &[u32],
) {
    let account = at(rt, alloc, account);
    assert!(rt; account.is_account());
    let next = table.next_document(&account);
    assert!(rt; next.places() == expected);
}

/// Asserts which address a version gets that an account makes of a source.
fn version_is(
    rt: &impl Abort,
    alloc: Global,
    table: &DocTable<u32>,
    source: &[u32],
    account: &[u32],
    expected: &[u32],
) {
    let source = at(rt, alloc, source);
    let account = at(rt, alloc, account);
    assert!(rt; source.is_document());
    assert!(rt; account.is_account());
    let version = table.version_address(&source, &account);
    assert!(rt; version.places() == expected);
}

/// Documents 1 and 2 of one account and 1 of another; of the very first, versions 1 and 2, and two of its version 1.
fn families(rt: &impl Abort, alloc: Global) -> DocTable<u32> {
    let mut table = DocTable::new(alloc);
    add_at(rt, alloc, &mut table, &[1, 1, 0, 1, 0, 1]);
    add_at(rt, alloc, &mut table, &[1, 1, 0, 1, 0, 2]);
    add_at(rt, alloc, &mut table, &[1, 1, 0, 2, 0, 1]);
    add_at(rt, alloc, &mut table, &[1, 1, 0, 1, 0, 1, 1]);
    add_at(rt, alloc, &mut table, &[1, 1, 0, 1, 0, 1, 2]);
    add_at(rt, alloc, &mut table, &[1, 1, 0, 1, 0, 1, 1, 1]);
    add_at(rt, alloc, &mut table, &[1, 1, 0, 1, 0, 1, 1, 2]);
    table
}

#[test]
fn only_direct_descendants_are_counted(rt: HostRuntime) -> Result<(), Fail> {
    let alloc = rt.alloc();
    let table = families(&rt, alloc);
    let (one, other) = ([1, 1, 0, 1], [1, 1, 0, 2]);
    next_is(&rt, alloc, &table, &one, &[1, 1, 0, 1, 0, 3]);
    next_is(&rt, alloc, &table, &other, &[1, 1, 0, 2, 0, 2]);
    let first = [1, 1, 0, 1, 0, 1];
    version_is(&rt, alloc, &table, &first, &one, &[1, 1, 0, 1, 0, 1, 3]);
    version_is(&rt, alloc, &table, &first, &other, &[1, 1, 0, 2, 0, 2]);
    let version = [1, 1, 0, 1, 0, 1, 1];
    version_is(
        &rt,
        alloc,
        &table,
        &version,
        &one,
        &[1, 1, 0, 1, 0, 1, 1, 3],
    );
    let second = [1, 1, 0, 1, 0, 2];
    version_is(&rt, alloc, &table, &second, &one, &[1, 1, 0, 1, 0, 2, 1]);
    Ok(())
}

#[test]
fn what_goes_is_not_counted(rt: HostRuntime) -> Result<(), Fail> {
    let alloc = rt.alloc();
    let mut table = families(&rt, alloc);
    let (one, first) = ([1, 1, 0, 1], [1, 1, 0, 1, 0, 1]);
    remove_at(&rt, alloc, &mut table, &[1, 1, 0, 1, 0, 2]);
    next_is(&rt, alloc, &table, &one, &[1, 1, 0, 1, 0, 2]);
    version_is(&rt, alloc, &table, &first, &one, &[1, 1, 0, 1, 0, 1, 3]);
    remove_at(&rt, alloc, &mut table, &[1, 1, 0, 1, 0, 1, 2]);
    version_is(&rt, alloc, &table, &first, &one, &[1, 1, 0, 1, 0, 1, 2]);
    remove_at(&rt, alloc, &mut table, &[1, 1, 0, 2, 0, 1]);
    next_is(&rt, alloc, &table, &[1, 1, 0, 2], &[1, 1, 0, 2, 0, 1]);
    assert_eq!(rt; table.len(), 4);
    Ok(())
}

/// The source has 20 places, and no room for one more.
#[test]
fn a_version_of_a_long_address_is_the_next_document(rt: HostRuntime) -> Result<(), Fail> {
    let alloc = rt.alloc();
    let table = families(&rt, alloc);
    let short = [1, 1, 0, 1, 0, 1, 1, 1, 1, 1, 1, 1, 1, 1, 1, 1, 1, 1, 1];
    let full = [1, 1, 0, 1, 0, 1, 1, 1, 1, 1, 1, 1, 1, 1, 1, 1, 1, 1, 1, 1];
    version_is(&rt, alloc, &table, &short, &[1, 1, 0, 1], &full);
    version_is(
        &rt,
        alloc,
        &table,
        &full,
        &[1, 1, 0, 1],
        &[1, 1, 0, 1, 0, 3],
    );
    Ok(())
}

#[test]
fn one_of_several_changes(rt: HostRuntime) -> Result<(), Fail> {
    let alloc = rt.alloc();
    let mut table = families(&rt, alloc);
    let version = at(&rt, alloc, &[1, 1, 0, 1, 0, 1, 1]);
    assert!(rt; table.has(&version));
    table.set_content(&version, 5);
    assert!(rt; table.has(&version));
    table.set_root(&version, 8);
    let first = at(&rt, alloc, &[1, 1, 0, 1, 0, 1]);
    let next = at(&rt, alloc, &[1, 1, 0, 1, 0, 1, 1, 1]);
    assert_eq!(rt; table.content(&first), 0);
    assert_eq!(rt; table.content(&version), 5);
    assert_eq!(rt; table.content(&next), 0);
    assert_eq!(rt; table.root(&first), Some(7));
    assert_eq!(rt; table.root(&version), Some(8));
    assert_eq!(rt; table.root(&next), Some(7));
    assert!(rt; table.nth(0) == Some(&first));
    assert!(rt; table.nth(1) == Some(&version));
    assert!(rt; table.nth(2) == Some(&next));
    Ok(())
}

#[test]
fn a_published_document_is_marked(rt: HostRuntime) -> Result<(), Fail> {
    let alloc = rt.alloc();
    let mut table = families(&rt, alloc);
    let first = at(&rt, alloc, &[1, 1, 0, 1, 0, 1]);
    let version = at(&rt, alloc, &[1, 1, 0, 1, 0, 1, 1]);
    assert!(rt; !table.published(&first));
    assert!(rt; table.has(&first));
    table.publish(&first);
    assert!(rt; table.published(&first));
    assert!(rt; !table.published(&version));
    assert!(rt; table.has(&first));
    table.publish(&first);
    assert!(rt; table.published(&first));
    assert_eq!(rt; table.root(&first), Some(7));
    Ok(())
}

#[test]
fn a_mark_goes_back_to_what_it_was(rt: HostRuntime) -> Result<(), Fail> {
    let alloc = rt.alloc();
    let mut table = families(&rt, alloc);
    let first = at(&rt, alloc, &[1, 1, 0, 1, 0, 1]);
    assert!(rt; table.has(&first));
    table.set_published(&first, true);
    assert!(rt; table.published(&first));
    assert!(rt; table.has(&first));
    table.set_published(&first, false);
    assert!(rt; !table.published(&first));
    Ok(())
}

/// A table with one document, which is published.
fn marked(rt: &impl Abort, alloc: Global, document: &Tumbler) -> DocTable<u32> {
    let mut table = DocTable::new(alloc);
    add(rt, alloc, &mut table, document, 7);
    assert!(rt; table.has(document));
    table.publish(document);
    table
}

#[test]
fn a_mark_stays_with_its_document(rt: HostRuntime) -> Result<(), Fail> {
    let alloc = rt.alloc();
    let document = document(alloc, 1)?;
    let mut table = marked(&rt, alloc, &document);
    assert!(rt; table.has(&document));
    table.set_root(&document, 8);
    assert!(rt; table.published(&document));
    assert_eq!(rt; table.len(), 1);
    table.set_roots(&[9]);
    assert!(rt; table.published(&document));
    Ok(())
}

#[test]
fn a_document_that_comes_anew_has_no_mark(rt: HostRuntime) -> Result<(), Fail> {
    let alloc = rt.alloc();
    let document = document(alloc, 1)?;
    let mut table = marked(&rt, alloc, &document);
    assert!(rt; table.has(&document));
    table.remove(&document);
    assert!(rt; !table.published(&document));
    add(&rt, alloc, &mut table, &document, 7);
    assert!(rt; !table.published(&document));
    Ok(())
}
