//! Disks that fail while pages are written, at each call in turn, and crashes amid that.
//!
//! Equal steps make equal calls of the disk, so those of a save are the ones that a store makes behind the steps before it.

use crate::disk_rows::{FAR, calls_made, disk_failing};
use crate::store_rows::{Asked, House, asks_all, begin, flushes, house_over, reopened, stops};
use green_fakes::MemoryDisk;
use std::alloc::Global;
use std::process::Abort;
use std::test::Fail;

/// Session 1 makes a document with a text: two edits.
const WRITES: &[Asked] = &[
    ("34~0.1.1.0.1~", "34~"),
    ("11~", "11~A~"),
    ("0~A~0.1.1~t5:hello", "0~"),
];

/// Then it adds to it, links from it and makes a version: three more.
const ADDS: &[Asked] = &[
    ("0~A~0.1.6~t1:!", "0~"),
    ("27~A~1~A~1~0.1.1~1.2~0~0~", "27~0.1.1.0.1.0.1.0.2.1~"),
    ("13~A~", "13~0.1.1.0.1.0.1.1~"),
];

/// A later session finds the text of the two edits.
const FINDS_TWO: &[Asked] = &[
    ("34~0.1.1.0.1~", "34~"),
    ("35~A~1~1~", "35~A~"),
    ("5~1~A~1~0.1.1~0.2~", "5~1~t5:hello"),
];

/// And that of the five.
const FINDS_FIVE: &[Asked] = &[
    ("34~0.1.1.0.1~", "34~"),
    ("35~A~1~1~", "35~A~"),
    ("35~0.1.1.0.1.0.1.1~1~1~", "35~0.1.1.0.1.0.1.1~"),
    ("5~1~A~1~0.1.1~0.2~", "5~2~t6:hello!0.1.1.0.1.0.1.0.2.1~"),
    (
        "5~1~0.1.1.0.1.0.1.1~1~0.1.1~0.2~",
        "5~2~t6:hello!0.1.1.0.1.0.1.0.2.1~",
    ),
    ("18~0.1.1.0.1.0.1.0.2.1~1~", "18~1~A~1~0.1.1~1.2~"),
];

/// What a store has come to: how many of its edits pages stand for, and how many there are.
#[derive(Clone, Copy)]
struct Stage {
    saved: u64,
    kept: u64,
    finds: &'static [Asked],
}

/// Two edits, and no pages yet.
const FIRST: Stage = Stage {
    saved: 0,
    kept: 2,
    finds: FINDS_TWO,
};

/// Five edits, and pages for two of them.
const SECOND: Stage = Stage {
    saved: 2,
    kept: 5,
    finds: FINDS_FIVE,
};

/// A store at this stage over this disk, which writes pages behind each kept entry.
fn at_stage(
    rt: &impl Abort,
    alloc: Global,
    stage: &Stage,
    disk: MemoryDisk,
) -> Result<House, Fail> {
    let mut house = house_over(alloc, disk, 1)?;
    assert!(rt; begin(alloc, &mut house) == Some(1));
    asks_all(rt, alloc, &mut house, 1, WRITES)?;
    if stage.saved > 0 {
        assert!(rt; flushes(alloc, &mut house));
        asks_all(rt, alloc, &mut house, 1, ADDS)?;
    }
    assert!(rt; house.store.flushed() == stage.saved);
    Ok(house)
}

/// How many calls come before the stage's save.
fn calls_before(rt: &impl Abort, alloc: Global, stage: &Stage) -> Result<u64, Fail> {
    let mut house = at_stage(rt, alloc, stage, disk_failing(alloc, &[FAR])?)?;
    Ok(calls_made(&mut house.disk))
}

/// How many calls are made with that save.
fn calls_behind(rt: &impl Abort, alloc: Global, stage: &Stage) -> Result<u64, Fail> {
    let mut house = at_stage(rt, alloc, stage, disk_failing(alloc, &[FAR])?)?;
    assert!(rt; flushes(alloc, &mut house));
    Ok(calls_made(&mut house.disk))
}

/// A store over an image has the pages of before the save, or those of after it, and answers as its log says.
fn check_amid(
    rt: &impl Abort,
    alloc: Global,
    stage: &Stage,
    image: MemoryDisk,
) -> Result<(), Fail> {
    let mut house = house_over(alloc, image, 1)?;
    let flushed = house.store.flushed();
    assert!(rt; flushed == stage.saved || flushed == stage.kept);
    let session = begin(alloc, &mut house).ok_or("no session")?;
    asks_all(rt, alloc, &mut house, session, stage.finds)
}

/// So it is with the images of these picks, once so many calls have returned.
fn check_images(
    rt: &impl Abort,
    alloc: Global,
    stage: &Stage,
    disk: &MemoryDisk,
    moment: u64,
    picks: u64,
) -> Result<(), Fail> {
    for pick in 0..picks {
        check_amid(rt, alloc, stage, disk.crash(moment, pick)?)?;
    }
    Ok(())
}

/// Each image of a saved store has pages for so many edits, and answers by them.
fn check_saved(
    rt: &impl Abort,
    alloc: Global,
    house: &House,
    kept: u64,
    finds: &[Asked],
) -> Result<(), Fail> {
    for pick in 0..4u64 {
        let mut again = reopened(alloc, house, pick)?;
        assert!(rt; again.store.flushed() == kept);
        let session = begin(alloc, &mut again).ok_or("no session")?;
        asks_all(rt, alloc, &mut again, session, finds)?;
    }
    Ok(())
}

/// This call of the save fails. The pages stand for as much as before, and the next save is whole.
fn check_stopped(rt: &impl Abort, alloc: Global, stage: &Stage, call: u64) -> Result<(), Fail> {
    let mut house = at_stage(rt, alloc, stage, disk_failing(alloc, &[call])?)?;
    assert!(rt; stops(alloc, &mut house), "at {call}");
    assert!(rt; house.store.flushed() == stage.saved, "at {call}");
    check_images(rt, alloc, stage, &house.disk, u64::MAX, 4)?;
    assert!(rt; flushes(alloc, &mut house), "at {call}");
    assert!(rt; house.store.flushed() == stage.kept, "at {call}");
    check_saved(rt, alloc, &house, stage.kept, stage.finds)
}

/// Each call of the save fails in turn.
fn check_each_stopped(rt: &impl Abort, alloc: Global, stage: &Stage) -> Result<(), Fail> {
    let before = calls_before(rt, alloc, stage)?;
    let behind = calls_behind(rt, alloc, stage)?;
    assert!(rt; before < behind && behind < FAR);
    for call in before..behind {
        check_stopped(rt, alloc, stage, call.saturating_add(1))?;
    }
    Ok(())
}

#[test]
fn a_first_save_fails_at_each_call(rt: HostRuntime) -> Result<(), Fail> {
    check_each_stopped(&rt, rt.alloc(), &FIRST)
}

#[test]
fn a_save_that_goes_on_fails_at_each_call(rt: HostRuntime) -> Result<(), Fail> {
    check_each_stopped(&rt, rt.alloc(), &SECOND)
}

/// A crash comes at each moment of the save.
fn check_each_moment(rt: &impl Abort, alloc: Global, stage: &Stage) -> Result<(), Fail> {
    let before = calls_before(rt, alloc, stage)?;
    let behind = calls_behind(rt, alloc, stage)?;
    let mut house = at_stage(rt, alloc, stage, disk_failing(alloc, &[])?)?;
    assert!(rt; flushes(alloc, &mut house));
    for moment in before..behind {
        check_images(rt, alloc, stage, &house.disk, moment, 16)?;
    }
    check_saved(rt, alloc, &house, stage.kept, stage.finds)
}

#[test]
fn a_crash_comes_amid_a_first_save(rt: HostRuntime) -> Result<(), Fail> {
    check_each_moment(&rt, rt.alloc(), &FIRST)
}

#[test]
fn a_crash_comes_amid_a_save_that_goes_on(rt: HostRuntime) -> Result<(), Fail> {
    check_each_moment(&rt, rt.alloc(), &SECOND)
}

/// Edits that come between a save that failed and the next one.
const BETWEEN: &[Asked] = &[("12~A~0.1.1~1.4~", "12~"), ("0~A~0.1.1~t2:yz", "0~")];

const FINDS_BETWEEN: &[Asked] = &[
    ("34~0.1.1.0.1~", "34~"),
    ("35~A~1~1~", "35~A~"),
    ("5~1~A~1~0.1.1~0.2~", "5~1~t3:yzo"),
];

/// This call of the first save fails, and two edits come before the next one.
fn check_between(rt: &impl Abort, alloc: Global, call: u64) -> Result<(), Fail> {
    let mut house = at_stage(rt, alloc, &FIRST, disk_failing(alloc, &[call])?)?;
    assert!(rt; stops(alloc, &mut house), "at {call}");
    asks_all(rt, alloc, &mut house, 1, BETWEEN)?;
    assert!(rt; flushes(alloc, &mut house), "at {call}");
    check_saved(rt, alloc, &house, 4, FINDS_BETWEEN)
}

#[test]
fn edits_come_behind_a_save_that_failed(rt: HostRuntime) -> Result<(), Fail> {
    let alloc = rt.alloc();
    let before = calls_before(&rt, alloc, &FIRST)?;
    let behind = calls_behind(&rt, alloc, &FIRST)?;
    for call in before..behind {
        check_between(&rt, alloc, call.saturating_add(1))?;
    }
    Ok(())
}

/// An insert that comes at the end of the text, and whose last call of the disk fails.
const REFUSED: &[Asked] = &[("0~A~0.1.6~t1:!", "?13~")];

/// Each image has pages for the two edits, and a log with them, or with the refused one too.
fn check_beside(rt: &impl Abort, alloc: Global, house: &House) -> Result<(), Fail> {
    for pick in 0..16u64 {
        let again = reopened(alloc, house, pick)?;
        let length = again.store.length();
        assert!(rt; again.store.flushed() == 2);
        assert!(rt; length == 3 || length == 4);
    }
    Ok(())
}

#[test]
fn pages_are_written_beside_a_refused_edit(rt: HostRuntime) -> Result<(), Fail> {
    let alloc = rt.alloc();
    let before = calls_before(&rt, alloc, &FIRST)?;
    let disk = disk_failing(alloc, &[before.saturating_add(4)])?;
    let mut house = at_stage(&rt, alloc, &FIRST, disk)?;
    asks_all(&rt, alloc, &mut house, 1, REFUSED)?;
    assert!(rt; flushes(alloc, &mut house));
    assert!(rt; house.store.flushed() == 2);
    check_beside(&rt, alloc, &house)
}
