//! A flat world by its own calls, each once where it succeeds. Tables of requests and replies stand in a crate of their own.

use febe_data::{Change, Entry, Limits, List, Memory, Refusal, Reply, Request, Tumbler};
use flat_world::FlatWorld;
use std::alloc::Global;
use std::process::Abort;
use std::test::Fail;
use world_rules::Served;

const ACCOUNT: [u32; 4] = [1, 1, 0, 1];

const DOCUMENT: [u32; 6] = [1, 1, 0, 1, 0, 1];

/// The world of a back end that has just begun.
fn fresh(alloc: Global) -> Result<FlatWorld, Memory> {
    let mut history = List::new(alloc);
    history.push(Entry {
        session: 0,
        serial: 0,
        change: Change::Restart,
    })?;
    FlatWorld::fold(alloc, &history)
}

/// Makes the request of the first session, and gives the serial of its entry; none where it is a query.
fn make(alloc: Global, world: &mut FlatWorld, request: &Request) -> Result<Option<u64>, Memory> {
    let Some(entry) = world.entry(alloc, 1, request)? else {
        return Ok(None);
    };
    world.apply(alloc, &entry)?;
    Ok(Some(entry.serial))
}

fn is_changed(served: &Served) -> bool {
    matches!(served, Served::Changed(_))
}

fn is_refused(reply: &Reply, wanted: Refusal) -> bool {
    match reply {
        Reply::Refused(refusal) => *refusal == wanted,
        _ => false,
    }
}

/// Whether the first session may make a document.
fn may_create(alloc: Global, world: &FlatWorld, limits: &Limits) -> Result<bool, Memory> {
    Ok(is_changed(&world.serve(alloc, 1, &Request::Create, limits)?))
}

/// Whether a second session, which has set no account, may not.
fn wants_account(alloc: Global, world: &FlatWorld, limits: &Limits) -> Result<bool, Memory> {
    let reply = world.answer(alloc, 2, &Request::Create, limits)?;
    Ok(is_refused(&reply, Refusal::NoAccount))
}

/// The first session sets its account, and then only it may make a document.
fn sets_an_account(rt: &impl Abort, alloc: Global, world: &mut FlatWorld) -> Result<(), Fail> {
    let limits = Limits::new(100, 1_000, 10)?;
    let account = Tumbler::from_places(alloc, &ACCOUNT)?;
    let serial = make(alloc, world, &Request::Account { account })?;
    assert_eq!(rt; serial, Some(1));
    assert!(rt; may_create(alloc, world, &limits)?);
    assert!(rt; wants_account(alloc, world, &limits)?);
    Ok(())
}

/// It makes the document, which it has open for writing then.
fn makes_a_document(rt: &impl Abort, alloc: Global, world: &mut FlatWorld) -> Result<(), Fail> {
    let document = Tumbler::from_places(alloc, &DOCUMENT)?;
    assert_eq!(rt; make(alloc, world, &Request::Create)?, Some(2));
    assert_eq!(rt; world.entries_of(1), 2);
    assert_eq!(rt; world.holder_of(&document), Some(1));
    Ok(())
}

#[test]
fn a_session_makes_a_document(rt: HostRuntime) -> Result<(), Fail> {
    let alloc = rt.alloc();
    let mut world = fresh(alloc)?;
    sets_an_account(&rt, alloc, &mut world)?;
    makes_a_document(&rt, alloc, &mut world)
}

#[test]
fn a_world_begins_with_nothing(rt: HostRuntime) {
    assert_eq!(rt; FlatWorld::new(rt.alloc()).entries_of(1), 0);
}
