//! A disk that fails at each call of a run whose log was kept before edits had moments, and moves when it is opened.

use crate::disk_calls::{FAR, count_left};
use crate::log_bytes::BEFORE;
use crate::runs::{LATER, WORDS, check_later, disk_failing, run_row};
use febe_data::Memory;
use green_fakes::MemoryDisk;
use green_io::{Area, Disk};
use std::alloc::Global;
use std::process::Abort;
use std::test::Fail;

/// A disk with a log of before, which the first call writes, and of which this one fails.
fn disk_before(alloc: Global, call: u64) -> Result<MemoryDisk, Memory> {
    let mut disk = disk_failing(alloc, &[call])?;
    let Ok(()) = disk.write(Area::Log, 0, BEFORE.as_slice()) else {
        return Err(Memory);
    };
    Ok(disk)
}

/// This call fails, if it is made: nothing is opened, and no edit is lost, whether the disk stops then or not. Tells whether it
/// was made.
fn check_call(rt: &impl Abort, alloc: Global, call: u64) -> Result<bool, Fail> {
    let ran = run_row(alloc, WORDS, LATER, disk_before(alloc, call)?)?;
    if ran.disk.faults() == 0 {
        assert!(rt; ran.status == 0);
        return Ok(false);
    }
    assert!(rt; ran.status == 7 && ran.written().is_empty(), "at {call}");
    for pick in 0..4u64 {
        let left = count_left(alloc, &ran.disk, pick)?;
        // The call behind the write makes the log stable.
        assert!(rt; left == 2 || call == 2, "at {call} {pick}");
    }
    check_later(rt, alloc, WORDS, ran.into_disk(), 2, call)?;
    Ok(true)
}

#[test]
fn a_disk_fails_at_each_call_of_a_move(rt: HostRuntime) -> Result<(), Fail> {
    let mut calls: u64 = 0;
    for before in 2..FAR {
        if !check_call(&rt, rt.alloc(), before)? {
            break;
        }
        calls = calls.saturating_add(1);
    }
    // Behind the move come calls that open the pages.
    assert!(rt; calls > 16 && calls < FAR - 2);
    Ok(())
}
