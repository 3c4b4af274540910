//! Logs of before that move into the second area: stopped at each call of the disk, once and twice, and with each call failing.

use crate::logs::{count_entries, disk_with};
use edit_log::LogFault;
use febe_data::List;
use green_fakes::MemoryDisk;
use green_io::{Area, Disk};
use std::alloc::Global;
use std::process::Abort;
use std::test::Fail;

/// A document, a text in it, and that it is published, as they were logged before edits had moments.
const BEFORE: [u8; 162] = [
    1, 0, 0, 0, 43, 1, 0, 0, 0, 0, 0, 0, 0, 1, 0, 0, 0, 0, 0, 0, 0, 3, 1, 6, 0, 0, 0, 1, 0, 0, 0,
    1, 0, 0, 0, 0, 0, 0, 0, 1, 0, 0, 0, 0, 0, 0, 0, 1, 1, 0, 0, 0, 60, 1, 0, 0, 0, 0, 0, 0, 0, 1,
    0, 0, 0, 0, 0, 0, 0, 4, 4, 6, 0, 0, 0, 1, 0, 0, 0, 1, 0, 0, 0, 0, 0, 0, 0, 1, 0, 0, 0, 0, 0, 0,
    0, 1, 0, 0, 0, 1, 0, 0, 0, 1, 0, 0, 0, 5, 104, 101, 108, 108, 111, 1, 0, 0, 0, 43, 1, 0, 0, 0,
    0, 0, 0, 0, 1, 0, 0, 0, 0, 0, 0, 0, 5, 9, 6, 0, 0, 0, 1, 0, 0, 0, 1, 0, 0, 0, 0, 0, 0, 0, 1, 0,
    0, 0, 0, 0, 0, 0, 1, 0,
];

/// The same three in the second area, each with the moment 0.
const AFTER: [u8; 203] = [
    1, 1, 0, 0, 0, 0, 0, 0, 0, 51, 2, 0, 0, 0, 0, 0, 0, 0, 0, 0, 0, 0, 0, 0, 0, 0, 1, 0, 0, 0, 0,
    0, 0, 0, 3, 1, 6, 0, 0, 0, 1, 0, 0, 0, 1, 0, 0, 0, 0, 0, 0, 0, 1, 0, 0, 0, 0, 0, 0, 0, 1, 1, 0,
    0, 0, 0, 0, 0, 0, 72, 2, 0, 0, 0, 0, 0, 0, 0, 0, 0, 0, 0, 0, 0, 0, 0, 1, 0, 0, 0, 0, 0, 0, 0,
    4, 4, 6, 0, 0, 0, 1, 0, 0, 0, 1, 0, 0, 0, 0, 0, 0, 0, 1, 0, 0, 0, 0, 0, 0, 0, 1, 0, 0, 0, 1, 0,
    0, 0, 1, 0, 0, 0, 0, 0, 0, 0, 5, 104, 101, 108, 108, 111, 1, 0, 0, 0, 0, 0, 0, 0, 51, 2, 0, 0,
    0, 0, 0, 0, 0, 0, 0, 0, 0, 0, 0, 0, 0, 1, 0, 0, 0, 0, 0, 0, 0, 5, 9, 6, 0, 0, 0, 1, 0, 0, 0, 1,
    0, 0, 0, 0, 0, 0, 0, 1, 0, 0, 0, 0, 0, 0, 0, 1, 0,
];

/// More calls than are made by a move of three entries.
const CALLS: u64 = 40;

/// The disk is opened with the three entries, which are in the second area then, and nowhere else.
fn check_moved(
    rt: &impl Abort,
    alloc: Global,
    disk: &mut MemoryDisk,
    at: (u64, u64),
) -> Result<(), Fail> {
    assert_eq!(rt; count_entries(alloc, disk), Ok(3), "at {at:?}");
    assert!(rt; disk.area(Area::Second) == AFTER.as_slice(), "at {at:?}");
    assert!(rt; disk.area(Area::Log).is_empty(), "at {at:?}");
    Ok(())
}

/// Each image of these picks once so many calls have returned is opened so.
fn check_stopped(
    rt: &impl Abort,
    alloc: Global,
    disk: &MemoryDisk,
    moment: u64,
    picks: u64,
) -> Result<(), Fail> {
    for pick in 0..picks {
        let mut image = disk.crash(moment, pick)?;
        check_moved(rt, alloc, &mut image, (moment, pick))?;
    }
    Ok(())
}

/// So it is at each moment of an opening that was made of the image, which is opened to its end here, for one pick.
fn check_stopped_again(
    rt: &impl Abort,
    alloc: Global,
    image: &mut MemoryDisk,
    at: (u64, u64),
) -> Result<(), Fail> {
    check_moved(rt, alloc, image, at)?;
    let (first, pick) = at;
    for moment in 0..CALLS {
        let other = first.wrapping_add(pick).wrapping_add(moment) % 16;
        let mut again = image.crash(moment, other)?;
        check_moved(rt, alloc, &mut again, (moment, other))?;
    }
    Ok(())
}

#[test]
fn a_move_is_stopped_at_each_call(rt: HostRuntime) -> Result<(), Fail> {
    let alloc = rt.alloc();
    let mut disk = disk_with(alloc, Area::Log, BEFORE.as_slice())?;
    check_moved(&rt, alloc, &mut disk, (0, 0))?;
    // The first call writes the log of before, the second one makes it stable.
    for moment in 2..CALLS {
        check_stopped(&rt, alloc, &disk, moment, 16)?;
    }
    Ok(())
}

/// Stops twice, first at each third moment from this one on.
fn check_twice(rt: &impl Abort, alloc: Global, from: u64) -> Result<(), Fail> {
    let mut disk = disk_with(alloc, Area::Log, BEFORE.as_slice())?;
    check_moved(rt, alloc, &mut disk, (0, 0))?;
    for moment in 2..CALLS {
        for pick in 0..16u64 {
            if moment % 3 == from {
                let mut image = disk.crash(moment, pick)?;
                check_stopped_again(rt, alloc, &mut image, (moment, pick))?;
            }
        }
    }
    Ok(())
}

#[test]
fn a_move_is_stopped_twice_first(rt: HostRuntime) -> Result<(), Fail> {
    check_twice(&rt, rt.alloc(), 0)
}

#[test]
fn a_move_is_stopped_twice_second(rt: HostRuntime) -> Result<(), Fail> {
    check_twice(&rt, rt.alloc(), 1)
}

#[test]
fn a_move_is_stopped_twice_third(rt: HostRuntime) -> Result<(), Fail> {
    check_twice(&rt, rt.alloc(), 2)
}

/// A disk with the log of before, of which one call fails.
fn disk_failing(alloc: Global, call: u64) -> Result<MemoryDisk, Fail> {
    let mut disk = MemoryDisk::new(alloc, List::from_slice(alloc, &[call])?);
    let written = disk.write(Area::Log, 0, BEFORE.as_slice());
    written.ok().ok_or("the first call fails")?;
    Ok(disk)
}

/// Where a call fails the log is not opened, and is opened then. Tells whether the call was made.
fn check_failing(rt: &impl Abort, alloc: Global, call: u64) -> Result<bool, Fail> {
    let mut disk = disk_failing(alloc, call)?;
    let told = count_entries(alloc, &mut disk);
    if disk.faults() == 0 {
        assert!(rt; told == Ok(3));
        return Ok(false);
    }
    assert!(rt; told == Err(LogFault::Disk), "at {call}");
    check_moved(rt, alloc, &mut disk, (call, 0))?;
    Ok(true)
}

#[test]
fn each_call_of_a_move_fails(rt: HostRuntime) -> Result<(), Fail> {
    let mut calls: u64 = 0;
    for call in 2..CALLS {
        if !check_failing(&rt, rt.alloc(), call)? {
            break;
        }
        calls = calls.saturating_add(1);
    }
    // Two syncs, a cut, a byte and three entries, and each of these made stable, at least.
    assert!(rt; calls > 12 && calls < CALLS - 2);
    Ok(())
}
