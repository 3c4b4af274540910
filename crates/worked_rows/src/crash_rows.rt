//! What a crash leaves at each moment of a run.
//!
//! Each edit has four calls of the disk, behind those that open it. So an edit may be there from its first call on, and is
//! there once its fourth has returned.

use crate::disk_rows::{calls_to_open, disk_failing, run_on};
use crate::runs::{HELLO, Ran};
use crate::sessions::bytes_of;
use febe_data::{Limits, Memory};
use green_fakes::MemoryDisk;
use green_store::{OpenFault, Store};
use std::alloc::Global;
use std::process::Abort;
use std::test::Fail;

/// How many entries an image of the disk is opened with, the restart among them.
fn count_left(
    alloc: Global,
    disk: &MemoryDisk,
    moment: u64,
    pick: u64,
    limits: Limits,
) -> Result<usize, OpenFault> {
    let Ok(mut image) = disk.crash(moment, pick) else {
        return Err(OpenFault::Memory);
    };
    let store = Store::open(alloc, &mut image, limits)?;
    Ok(store.history().len())
}

/// Checks how many edits the images after so many calls are opened with.
fn check_moment(
    rt: &impl Abort,
    alloc: Global,
    disk: &MemoryDisk,
    moment: u64,
    least: usize,
    most: usize,
) -> Result<(), Fail> {
    for pick in 0..16u64 {
        let limits = Limits::new(1000, 1_000_000, 1)?;
        let holds = match count_left(alloc, disk, moment, pick, limits) {
            Ok(count) => least < count && count <= most.saturating_add(1),
            Err(_) => false,
        };
        assert!(rt; holds, "at {moment} {pick}");
    }
    Ok(())
}

/// So many calls behind the opening: how many edits are there at least and at most.
type Moment = (u64, usize, usize);

fn check_moments(
    rt: &impl Abort,
    alloc: Global,
    disk: &MemoryDisk,
    opening: u64,
    moments: &[Moment],
) -> Result<(), Fail> {
    for (behind, least, most) in moments {
        let moment = opening.saturating_add(*behind);
        check_moment(rt, alloc, disk, moment, *least, *most)?;
    }
    Ok(())
}

#[test]
fn each_image_of_a_run_has_each_acknowledged_edit(rt: HostRuntime) -> Result<(), Fail> {
    let alloc = rt.alloc();
    let opening = calls_to_open(alloc)?;
    let ran = run_on(alloc, disk_failing(alloc, &[])?, HELLO)?;
    let moments = [
        (0, 0, 0),
        (1, 0, 1),
        (2, 0, 1),
        (3, 0, 1),
        (4, 1, 1),
        (5, 1, 2),
        (6, 1, 2),
        (7, 1, 2),
        (8, 2, 2),
        (u64::MAX, 2, 2),
    ];
    check_moments(&rt, alloc, &ran.disk, opening, &moments)
}

#[test]
fn no_image_of_an_opening_has_an_edit(rt: HostRuntime) -> Result<(), Fail> {
    let alloc = rt.alloc();
    let opening = calls_to_open(alloc)?;
    let ran = run_on(alloc, disk_failing(alloc, &[])?, HELLO)?;
    for moment in 0..opening {
        check_moment(&rt, alloc, &ran.disk, moment, 0, 0)?;
    }
    Ok(())
}

/// An insert whose second sync fails is refused; the next one mends the log first, by a write and a sync.
const MENDED: &str =
    "P0~ 34~0.1.1.0.1~ 11~ 0~A~0.1.1~t5:hello 0~A~0.1.1~t5:world 5~1~A~1~0.1.1~1.9~ 16~";

const MENDED_ANSWERED: &str = "P0~ 34~ 11~A~ ?13~ 0~ 5~1~t5:world 16~";

#[test]
fn a_refused_edit_may_stand_until_it_is_mended(rt: HostRuntime) -> Result<(), Fail> {
    let alloc = rt.alloc();
    let opening = calls_to_open(alloc)?;
    let disk = disk_failing(alloc, &[opening.saturating_add(8)])?;
    let ran = run_on(alloc, disk, MENDED)?;
    assert!(rt; ran.status == 0);
    assert!(rt; ran.written() == bytes_of(alloc, MENDED_ANSWERED)?.as_slice());
    let moments = [
        (8, 1, 2),
        (9, 1, 2),
        (10, 1, 1),
        (11, 1, 2),
        (14, 2, 2),
        (u64::MAX, 2, 2),
    ];
    check_moments(&rt, alloc, &ran.disk, opening, &moments)
}
