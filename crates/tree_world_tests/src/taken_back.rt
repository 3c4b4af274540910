//! What is told of a world in which nothing was made, and an entry that is not taken back.

use febe_data::{Change, Entry, Tumbler};
use std::test::Fail;
use tree_world::{TreeWorld, Undo};
use world_rules::LookUp;

#[test]
fn has_nothing_at_first(rt: HostRuntime) -> Result<(), Fail> {
    let alloc = rt.alloc();
    let world = TreeWorld::new(alloc)?;
    let account = Tumbler::from_places(alloc, &[1, 1, 0, 1])?;
    let first = Tumbler::from_places(alloc, &[1, 1, 0, 1, 0, 1])?;
    assert!(rt; !world.has_document(&first));
    assert!(rt; world.text_length(&first) == 0);
    assert!(rt; world.next_document(&account) == Ok(first));
    assert!(rt; world.counted() == 0);
    Ok(())
}

#[test]
fn numbers_begin_with_one(rt: HostRuntime) -> Result<(), Fail> {
    let alloc = rt.alloc();
    let world = TreeWorld::new(alloc)?;
    let document = Tumbler::from_places(alloc, &[1, 1, 0, 1, 0, 1])?;
    let version = Tumbler::from_places(alloc, &[1, 1, 0, 1, 0, 1, 1])?;
    assert!(rt; world.next_version(&document) == Ok(version));
    assert!(rt; world.next_content(&document) == Ok(1));
    assert!(rt; world.next_link(&document) == Ok(1));
    assert!(rt; world.holder_of(&document).is_none());
    Ok(())
}

fn entry(session: u64, serial: u64, change: Change) -> Entry {
    Entry {
        session,
        serial,
        change,
    }
}

#[test]
fn takes_no_opening_back(rt: HostRuntime) -> Result<(), Fail> {
    let alloc = rt.alloc();
    let mut world = TreeWorld::new(alloc)?;
    let begun = entry(7, 1, Change::Begin);
    assert!(rt; world.apply_with_undo(alloc, &begun).is_err());
    assert!(rt; world.entries_of(7) == 0);
    Ok(())
}
