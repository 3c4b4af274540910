//! The moments of edits: what a clock gives, what a later run finds, and logs that were kept before edits had moments.

use crate::disk_rows::{HELLO_LOG, HELLO_SECOND, disk_failing, disk_with, run_on};
use crate::paged_runs::{LATER, LATER_ANSWERED};
use crate::runs::{HELLO, Kind, Mark, Ran, WORDS, run_at, sink_of, source_of};
use crate::sessions::bytes_of;
use crate::store_rows::house_over;
use febe_data::Entry;
use green_fakes::{MemoryClock, MemoryDisk};
use green_io::{Area, Disk};
use std::alloc::Global;
use std::process::Abort;
use std::test::Fail;

/// Runs a session over a disk, by this clock.
fn run_by(alloc: Global, clock: MemoryClock, disk: MemoryDisk, input: &str) -> Result<Ran, Fail> {
    let source = source_of(alloc, bytes_of(alloc, input)?, None, &[])?;
    let sink = sink_of(alloc, &[])?;
    Ok(run_at(alloc, WORDS, clock, source, sink, disk)?)
}

/// A session that adds a byte to the document of `HELLO`.
const ADDS: &str = "P0~ 34~0.1.1.0.1~ 35~A~2~1~ 0~A~0.1.6~t1:! 16~";

/// The clock of a later run, and the moment of its edit: a Begin, an account and an opening come before it, and behind each of
/// these two something may be put right.
type Later = (u64, u64, u64);

const LATERS: &[Later] = &[
    (5000, 10, 5050),
    // A clock that stands still, behind the moments of the first run.
    (1, 0, 1),
    (u64::MAX, 1, u64::MAX),
];

fn check_later(rt: &impl Abort, alloc: Global, row: &Later) -> Result<(), Fail> {
    let (start, step, moment) = *row;
    let first = run_by(
        alloc,
        MemoryClock::new(1000, 1),
        disk_failing(alloc, &[])?,
        HELLO,
    )?;
    assert!(rt; first.report.moments.as_slice() == [1003, 1005].as_slice());
    let disk = first.disk.crash(u64::MAX, 0)?;
    let later = run_by(alloc, MemoryClock::new(start, step), disk, ADDS)?;
    assert!(rt; later.status == 0, "at {start}");
    let wanted = [1003, 1005, moment];
    assert!(rt;
        later.report.moments.as_slice() == wanted.as_slice(),
        "at {start}"
    );
    Ok(())
}

#[test]
fn moments_of_two_runs_are_never_mixed(rt: HostRuntime) -> Result<(), Fail> {
    for row in LATERS {
        check_later(&rt, rt.alloc(), row)?;
    }
    Ok(())
}

/// An edit that the disk refused has no moment, and neither has a request that is no edit.
#[test]
fn refused_edits_have_no_moment(rt: HostRuntime) -> Result<(), Fail> {
    let alloc = rt.alloc();
    let ran = run_on(
        alloc,
        disk_failing(alloc, &[])?,
        "P0~ 34~0.1.1.0.1~ 12~A~0.1.1~1.2~ 16~",
    )?;
    assert!(rt; ran.report.moments.is_empty());
    Ok(())
}

/// The entries that a log of before is opened with.
const OPENED: [Mark; 2] = [(Kind::Create, 1, 3), (Kind::Insert, 1, 4)];

#[test]
fn a_log_of_before_moves(rt: HostRuntime) -> Result<(), Fail> {
    let alloc = rt.alloc();
    let ran = run_on(alloc, disk_with(alloc, HELLO_LOG.as_slice())?, LATER)?;
    assert!(rt; ran.status == 0);
    assert!(rt; ran.written() == bytes_of(alloc, LATER_ANSWERED[2])?.as_slice());
    assert!(rt; ran.marks(alloc)?.as_slice().starts_with(OPENED.as_slice()));
    assert!(rt; ran.report.moments.as_slice() == [0, 0].as_slice());
    assert!(rt; ran.disk.area(Area::Log).is_empty());
    assert!(rt; ran.disk.area(Area::Second).len() == HELLO_SECOND.len());
    Ok(())
}

/// What an image is opened with: the two edits, and the restart.
fn is_whole(entries: &[Entry], moments: &[u64]) -> bool {
    entries.len() == 3 && moments == [0, 0].as_slice()
}

/// Checks the images of all picks once so many calls have returned.
fn check_moment(
    rt: &impl Abort,
    alloc: Global,
    disk: &MemoryDisk,
    moment: u64,
) -> Result<(), Fail> {
    for pick in 0..16u64 {
        let house = house_over(alloc, disk.crash(moment, pick)?, 256)?;
        let entries = house.store.history().as_slice();
        let moments = house.store.moments().as_slice();
        assert!(rt; is_whole(entries, moments), "at {moment} {pick}");
    }
    Ok(())
}

/// The first call writes the log of before, and the second one makes it stable.
#[test]
fn each_image_of_a_move_has_all_edits(rt: HostRuntime) -> Result<(), Fail> {
    let alloc = rt.alloc();
    let house = house_over(alloc, disk_with(alloc, HELLO_LOG.as_slice())?, 256)?;
    for moment in 2..40u64 {
        check_moment(&rt, alloc, &house.disk, moment)?;
    }
    Ok(())
}

/// A second area, and the status and place of a run over it.
type Second = (&'static [u8], u8, u64);

const SECONDS: &[Second] = &[
    (&[1, 1, 0, 0], 8, 1),
    (&[1, 1], 0, 0),
    (&[1], 0, 0),
    (&[0, 1, 0, 0], 0, 0),
    (&HELLO_SECOND, 0, 0),
];

fn check_second(rt: &impl Abort, alloc: Global, row: &Second) -> Result<(), Fail> {
    let (bytes, status, place) = *row;
    let mut disk = disk_failing(alloc, &[])?;
    let written = disk.write(Area::Second, 0, bytes);
    written.ok().ok_or("not written")?;
    let ran = run_on(alloc, disk, "P0~")?;
    assert!(rt;
        ran.status == status && ran.report.place == place,
        "at {bytes:?}"
    );
    Ok(())
}

#[test]
fn a_second_area_decides_how_a_run_begins(rt: HostRuntime) -> Result<(), Fail> {
    for row in SECONDS {
        check_second(&rt, rt.alloc(), row)?;
    }
    Ok(())
}
