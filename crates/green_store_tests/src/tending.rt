//! Background steps of a store over a disk in memory.

use crate::sessions::{DOCUMENT, Opened};
use febe_data::{Item, Limits, List, Reply, Request, Spec, Tumbler};
use green_fakes::MemoryDisk;
use green_store::{Step, StepAnswer, Store};
use std::alloc::Global;
use std::process::Abort;
use std::test::Fail;
use tumbler::Span;

/// Limits under which no pages are written here.
fn limits() -> Result<Limits, Fail> {
    Ok(Limits::new(4_194_304, 1_073_741_824, 4_194_304)?)
}

/// A store with session 1 and a document that it has made: four entries.
fn with_document(rt: &impl Abort, alloc: Global) -> Result<Opened, Fail> {
    under(rt, alloc, limits()?)
}

/// The same, under these limits.
fn under(rt: &impl Abort, alloc: Global, limits: Limits) -> Result<Opened, Fail> {
    let mut disk = MemoryDisk::new(alloc, List::new(alloc));
    let store = Store::open(alloc, &mut disk, limits)?;
    let mut opened = Opened { disk, store };
    assert_eq!(rt; opened.begins(rt, alloc), 1);
    opened.chooses(rt, alloc, 1, 3)?;
    let reply = opened.asks(rt, alloc, 1, Request::Create, 4);
    assert!(rt; matches!(&reply, Reply::Created(_)));
    Ok(opened)
}

/// Session 1 inserts `x` in front of the document's text. There are so many entries then.
fn inserts(rt: &impl Abort, alloc: Global, opened: &mut Opened, entries: u64) -> Result<(), Fail> {
    let request = Request::Insert {
        document: Tumbler::from_places(alloc, &DOCUMENT)?,
        at: Tumbler::from_places(alloc, &[1, 1])?,
        text: List::from_slice(alloc, b"x")?,
    };
    let reply = opened.asks(rt, alloc, 1, request, entries);
    assert!(rt; matches!(&reply, Reply::Inserted));
    Ok(())
}

/// The text of a document is so often `x`, with so many entries.
fn check_text(
    rt: &impl Abort,
    alloc: Global,
    opened: &mut Opened,
    document: &[u32],
    count: u32,
    entries: u64,
) -> Result<(), Fail> {
    let mut spans = List::new(alloc);
    spans.push(Span {
        start: Tumbler::from_places(alloc, &[1, 1])?,
        width: Tumbler::from_places(alloc, &[0, count])?,
    })?;
    let document = Tumbler::from_places(alloc, document)?;
    let mut specs = List::new(alloc);
    specs.push(Spec { document, spans })?;
    let reply = opened.asks(rt, alloc, 1, Request::Retrieve { specs }, entries);
    let Reply::Retrieved(items) = &reply else {
        panic!(rt; "nothing was retrieved");
    };
    let [Item::Bytes(text)] = items.as_slice() else {
        panic!(rt; "more than one text was retrieved");
    };
    assert_eq!(rt; text.len(), count as usize);
    assert!(rt; text.as_slice().iter().all(|byte| *byte == b'x'));
    Ok(())
}

/// Makes a background step. Where it answers Swept there are fewer nodes than before it, and so many as the base then.
fn tends(rt: &impl Abort, alloc: Global, opened: &mut Opened) -> StepAnswer {
    let nodes = opened.store.nodes();
    let answer = opened
        .store
        .step(alloc, &mut opened.disk, 7, Step::Background);
    if let StepAnswer::Swept = &answer {
        assert!(rt; opened.store.nodes() < nodes);
        assert_eq!(rt; opened.store.base(), opened.store.nodes());
    }
    answer
}

/// Makes background steps until nothing is to be put right, and counts them.
fn settle(rt: &impl Abort, alloc: Global, opened: &mut Opened) -> u64 {
    let mut steps: u64 = 0;
    for _ in 0..10_000 {
        if let StepAnswer::Idle = tends(rt, alloc, opened) {
            break;
        }
        steps = steps.saturating_add(1);
    }
    steps
}

#[test]
fn a_root_with_too_many_leaves_is_split(rt: HostRuntime) -> Result<(), Fail> {
    let alloc = rt.alloc();
    let mut opened = with_document(&rt, alloc)?;
    assert_eq!(rt; settle(&rt, alloc, &mut opened), 0);
    for entries in 5..22u64 {
        assert!(rt; !opened.store.can_balance());
        inserts(&rt, alloc, &mut opened, entries)?;
    }
    assert!(rt; opened.store.can_balance());
    let debt = opened.store.debt();
    let answer = tends(&rt, alloc, &mut opened);
    assert!(rt; matches!(&answer, StepAnswer::Balanced));
    assert!(rt; opened.store.debt() < debt);
    assert!(rt; settle(&rt, alloc, &mut opened) < 8);
    assert!(rt; !opened.store.can_balance());
    assert_eq!(rt; opened.store.depth(), 2);
    check_text(&rt, alloc, &mut opened, &DOCUMENT, 17, 21)
}

/// The version of the document that is made of its first text.
const VERSION: [u32; 7] = [1, 1, 0, 1, 0, 1, 1];

/// A store with a document that has the text `x`, and a version of it: six entries.
fn with_version(rt: &impl Abort, alloc: Global) -> Result<Opened, Fail> {
    let mut opened = with_document(rt, alloc)?;
    inserts(rt, alloc, &mut opened, 5)?;
    let request = Request::Version {
        document: Tumbler::from_places(alloc, &DOCUMENT)?,
    };
    let reply = opened.asks(rt, alloc, 1, request, 6);
    let version = Tumbler::from_places(alloc, &VERSION)?;
    assert!(rt; matches!(&reply, Reply::Versioned(made) if *made == version));
    Ok(opened)
}

/// The document has so many bytes, and the version the one that it was made with.
fn check_both(rt: &impl Abort, alloc: Global, opened: &mut Opened, made: u32) -> Result<(), Fail> {
    let entries = u64::from(made) + 6;
    check_text(
        rt,
        alloc,
        opened,
        &DOCUMENT,
        made.saturating_add(1),
        entries,
    )?;
    check_text(rt, alloc, opened, &VERSION, 1, entries)
}

/// Session 1 makes 5,000 inserts in front of the document's text, each with a background step behind it. After each sweep
/// both texts are as before. The sweeps are counted.
fn count_sweeps(rt: &impl Abort, alloc: Global, opened: &mut Opened) -> Result<u64, Fail> {
    let mut sweeps: u64 = 0;
    for made in 1..5_001u32 {
        inserts(rt, alloc, opened, u64::from(made) + 6)?;
        if let StepAnswer::Swept = tends(rt, alloc, opened) {
            sweeps = sweeps.saturating_add(1);
            check_both(rt, alloc, opened, made)?;
        }
    }
    Ok(sweeps)
}

#[test]
fn a_text_stays_through_sweeps(rt: HostRuntime) -> Result<(), Fail> {
    let alloc = rt.alloc();
    let mut opened = with_document(&rt, alloc)?;
    let mut sweeps: u64 = 0;
    for made in 1..5_001u32 {
        let entries = u64::from(made) + 4;
        inserts(&rt, alloc, &mut opened, entries)?;
        if let StepAnswer::Swept = tends(&rt, alloc, &mut opened) {
            sweeps = sweeps.saturating_add(1);
            check_text(&rt, alloc, &mut opened, &DOCUMENT, made, entries)?;
        }
    }
    assert!(rt; sweeps > 0);
    check_text(&rt, alloc, &mut opened, &DOCUMENT, 5_000, 5_004)
}

#[test]
fn what_no_tree_reaches_is_swept(rt: HostRuntime) -> Result<(), Fail> {
    let alloc = rt.alloc();
    let mut opened = with_version(&rt, alloc)?;
    assert!(rt; count_sweeps(&rt, alloc, &mut opened)? > 0);
    settle(&rt, alloc, &mut opened);
    assert!(rt; !opened.store.can_balance());
    check_both(&rt, alloc, &mut opened, 5_000)?;
    let store = Store::open(alloc, &mut opened.disk, limits()?)?;
    assert_eq!(rt; store.base(), store.nodes());
    assert!(rt; store.depth() < 8);
    assert_eq!(rt; store.flushed(), 0);
    Ok(())
}

/// Makes background steps until nothing is to be put right, and counts how often all was written to pages.
fn count_flushes(rt: &impl Abort, alloc: Global, opened: &mut Opened) -> u64 {
    let mut flushes: u64 = 0;
    for _ in 0..100 {
        match tends(rt, alloc, opened) {
            StepAnswer::Flushed => flushes = flushes.saturating_add(1),
            StepAnswer::Idle => break,
            _ => {}
        }
    }
    flushes
}

#[test]
fn a_kept_entry_is_written_to_pages(rt: HostRuntime) -> Result<(), Fail> {
    let alloc = rt.alloc();
    let mut opened = under(&rt, alloc, Limits::new(100, 1_000, 1)?)?;
    assert_eq!(rt; opened.store.flushed(), 0);
    assert_eq!(rt; count_flushes(&rt, alloc, &mut opened), 1);
    assert_eq!(rt; opened.store.flushed(), 1);
    Ok(())
}
