//! What sessions may read of an account's document before it is published and after, and publishes that are taken back.
ghost use Rattle.std.specs.Prelude.{IfOk, OnOk};
ghost use Rattle.tree_world.specs.Standing.{Stands};
ghost use Rattle.tree_world_tests.specs.Stood.{StandsForSome};

use febe_data::{Change, Entry, Limits, List, Memory, Reply, Request, Tumbler, Want};
use std::alloc::Global;
use std::test::Fail;
use tree_world::{TreeWorld, Undo};
use world_rules::{Apply, LookUp, answer};

/// The account of session 1.
const ACCOUNT: [u32; 4] = [1, 1, 0, 1];

/// Its document.
const DOCUMENT: [u32; 6] = [1, 1, 0, 1, 0, 1];

/// How many links are made in it.
const LINKS: u32 = 5_000;

fn address(alloc: Global, places: &[u32]) -> Result<Tumbler, Memory> {
    match Tumbler::from_places(alloc, places) {
        Ok(tumbler) => Ok(tumbler),
        Err(_bad) => Err(Memory),
    }
}

/// A world without entries.
fn begun(alloc: Global) -> Result<TreeWorld, Memory>
    ensures { IfOk result (λ world. StandsForSome (Stands world)) }
{
    TreeWorld::new(alloc)
}

/// One entry more.
fn enter(alloc: Global, world: &mut TreeWorld, session: u64, change: Change) -> Result<(), Memory>
    requires { StandsForSome (Stands world.old) }
    ensures { OnOk result (StandsForSome (Stands world.new)) }
{
    let entry = Entry {
        session,
        serial: 1,
        change,
    };
    world.apply(alloc, &entry)
}

/// One entry more, which is taken back.
fn enter_and_undo<W: Undo>(
    alloc: Global,
    world: &mut W,
    session: u64,
    change: Change,
) -> Result<(), Memory>
    requires { StandsForSome (W.stands world.old) }
    ensures { OnOk result (StandsForSome (W.stands world.new)) }
{
    let entry = Entry {
        session,
        serial: 1,
        change,
    };
    let undo = world.apply_with_undo(alloc, &entry)?;
    world.undo(undo);
    Ok(())
}

/// The document is made.
fn create(alloc: Global) -> Result<Change, Memory> {
    Ok(Change::Create {
        document: address(alloc, &DOCUMENT)?,
    })
}

/// It is published.
fn publish(alloc: Global) -> Result<Change, Memory> {
    Ok(Change::Publish {
        document: address(alloc, &DOCUMENT)?,
    })
}

#[test]
fn takes_publishes_back(rt: HostRuntime) -> Result<(), Fail> {
    let alloc = rt.alloc();
    let mut world = begun(alloc)?;
    let document = address(alloc, &DOCUMENT)?;
    enter(alloc, &mut world, 1, create(alloc)?)?;
    enter_and_undo(alloc, &mut world, 1, publish(alloc)?)?;
    assert!(rt; !world.is_published(&document));
    enter(alloc, &mut world, 1, publish(alloc)?)?;
    enter_and_undo(alloc, &mut world, 1, publish(alloc)?)?;
    assert!(rt; world.is_published(&document));
    Ok(())
}

#[test]
fn publishes_no_document_that_is_not_there(rt: HostRuntime) -> Result<(), Fail> {
    let alloc = rt.alloc();
    let mut world = begun(alloc)?;
    assert!(rt; enter(alloc, &mut world, 1, publish(alloc)?).is_err());
    Ok(())
}

/// A link of nothing, made in the document.
fn link(alloc: Global, number: u32) -> Result<Change, Memory> {
    Ok(Change::Link {
        home: address(alloc, &DOCUMENT)?,
        number,
        place: number,
        from: List::new(alloc),
        to: List::new(alloc),
        three: List::new(alloc),
    })
}

/// Session 1 makes the document, and so many links in it.
fn make_links(alloc: Global, world: &mut TreeWorld) -> Result<(), Memory>
    requires { StandsForSome (Stands world.old) }
    ensures { OnOk result (StandsForSome (Stands world.new)) }
{
    let account = address(alloc, &ACCOUNT)?;
    enter(alloc, world, 1, Change::Account { account })?;
    enter(alloc, world, 1, create(alloc)?)?;
    for number in 0..LINKS {
        enter(alloc, world, 1, link(alloc, number + 1)?)?;
    }
    Ok(())
}

/// How many of all links the session counts.
fn counted(alloc: Global, world: &TreeWorld, session: u64) -> Result<Option<u32>, Fail> {
    let limits = Limits::new(10_000, 1_000, 10)?;
    let want = Want {
        homes: List::new(alloc),
        from: List::new(alloc),
        to: List::new(alloc),
        three: List::new(alloc),
    };
    let reply = answer(
        world,
        alloc,
        session,
        &Request::CountLinks { want },
        &limits,
    )?;
    let Reply::LinkCount(count) = &reply else {
        return Ok(None);
    };
    Ok(Some(*count))
}

#[test]
fn counts_no_links_of_others(rt: HostRuntime) -> Result<(), Fail> {
    let alloc = rt.alloc();
    let mut world = begun(alloc)?;
    make_links(alloc, &mut world)?;
    assert!(rt; counted(alloc, &world, 1)? == Some(LINKS));
    assert!(rt; counted(alloc, &world, 2)? == Some(0));
    enter(alloc, &mut world, 1, publish(alloc)?)?;
    assert!(rt; counted(alloc, &world, 2)? == Some(LINKS));
    Ok(())
}
