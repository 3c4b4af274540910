//! Openings over gates and records that were put into a Journal byte by byte.
//!
//! Home has the old page 0. The record, from 4,096 on, has the pages 0 and 1.

use crate::pages::{OLD_BYTE, PAGE, Seen, new_byte, see_all, see_image};
use febe_data::{List, Memory, Text};
use green_fakes::MemoryDisk;
use green_io::{Area, Disk, DiskFailed};
use page_journal::{PageFault, PageJournal};
use std::alloc::Global;
use std::process::Abort;
use std::test::Fail;

/// What the pages are where the record is laid over Home.
const LAID: [Seen; 4] = [Seen::New, Seen::New, Seen::Gone, Seen::Gone];

/// What the pages are where nothing is laid over Home.
const LEFT: [Seen; 4] = [Seen::Old, Seen::Gone, Seen::Gone, Seen::Gone];

/// The bytes of a record of two pages, with this count, and this number of the second page.
fn record_with(alloc: Global, count: u32, second: u64) -> Result<Text, Memory> {
    let mut record = List::from_slice(alloc, &count.to_be_bytes())?;
    record.extend_from_slice(&0u64.to_be_bytes())?;
    record.extend_from_slice(&[new_byte(0); PAGE])?;
    record.extend_from_slice(&second.to_be_bytes())?;
    record.extend_from_slice(&[new_byte(1); PAGE])?;
    Ok(record)
}

/// Puts the old page 0 into Home, and this gate and record into the Journal, by five calls.
fn fill(disk: &mut MemoryDisk, gate: u8, record: &[u8]) -> Result<(), DiskFailed> {
    disk.write(Area::Home, 0, &[OLD_BYTE; PAGE])?;
    disk.write(Area::Journal, 0, &[gate])?;
    disk.write(Area::Journal, 4096, record)?;
    disk.sync(Area::Home)?;
    disk.sync(Area::Journal)
}

/// Fills a disk and opens it, and gives the pages that are there then.
fn fill_and_open(
    alloc: Global,
    disk: &mut MemoryDisk,
    gate: u8,
    record: &[u8],
) -> Result<[Seen; 4], PageFault> {
    fill(disk, gate, record)?;
    let journal = PageJournal::open(alloc, disk)?;
    see_all(alloc, &journal, disk)
}

/// Opens, and checks the pages that are there then and the gate that is left.
fn check_opening(
    rt: &impl Abort,
    alloc: Global,
    gate: u8,
    record: &[u8],
    wanted: [Seen; 4],
) -> Result<(), Fail> {
    let mut disk = MemoryDisk::new(alloc, List::new(alloc));
    let seen = fill_and_open(alloc, &mut disk, gate, record);
    assert!(rt; seen == Ok(wanted), "at {gate}");
    assert!(rt; disk.area(Area::Journal).first() == Some(&0), "at {gate}");
    Ok(())
}

#[test]
fn each_gate_byte(rt: HostRuntime) -> Result<(), Fail> {
    let alloc = rt.alloc();
    let record = record_with(alloc, 2, 1)?;
    for gate in 0..256u32 {
        let wanted = if gate == 1 { LAID } else { LEFT };
        check_opening(&rt, alloc, gate as u8, record.as_slice(), wanted)?;
    }
    Ok(())
}

/// What an open gate gives before records that are whole, or not: a count of 0 or of 1,025, a page number that is not
/// in use, a record that is short by one byte.
#[test]
fn records_behind_an_open_gate(rt: HostRuntime) -> Result<(), Fail> {
    let alloc = rt.alloc();
    for (count, second, length, wanted) in [
        (2u32, 1u64, 8212usize, LAID),
        (0, 1, 8212, LEFT),
        (3, 1, 8212, LEFT),
        (1025, 1, 8212, LEFT),
        (2, 1_099_511_627_776, 8212, LEFT),
        (2, 1, 8211, LEFT),
        (2, 1, 0, LEFT),
    ] {
        let mut record = record_with(alloc, count, second)?;
        record.truncate(length);
        check_opening(&rt, alloc, 1, record.as_slice(), wanted)?;
    }
    Ok(())
}

/// Checks the images of each pick.
fn check_moment(
    rt: &impl Abort,
    alloc: Global,
    disk: &MemoryDisk,
    moment: u64,
    left: bool,
    laid: bool,
) -> Result<(), Fail> {
    for pick in 0..16u64 {
        let holds = match see_image(alloc, disk, moment, pick) {
            Ok(seen) => (left && seen == LEFT) || (laid && seen == LAID),
            Err(_) => false,
        };
        assert!(rt; holds, "at {moment} {pick}");
    }
    Ok(())
}

/// Checks each moment of an opening, which has at most sixteen calls.
fn check_moments(
    rt: &impl Abort,
    alloc: Global,
    gate: u8,
    left: bool,
    laid: bool,
) -> Result<(), Fail> {
    let record = record_with(alloc, 2, 1)?;
    let mut disk = MemoryDisk::new(alloc, List::new(alloc));
    let seen = fill_and_open(alloc, &mut disk, gate, record.as_slice());
    assert!(rt; seen.is_ok());
    for moment in 5..22u64 {
        check_moment(rt, alloc, &disk, moment, left, laid)?;
    }
    check_moment(rt, alloc, &disk, u64::MAX, gate != 1, gate == 1)
}

/// While a gate that is neither 0 nor 1 is closed, the staged pages may come, since a torn write may leave a 1.
#[test]
fn images_of_openings(rt: HostRuntime) -> Result<(), Fail> {
    for (gate, left, laid) in [(0u8, true, false), (1, false, true), (2, true, true)] {
        check_moments(&rt, rt.alloc(), gate, left, laid)?;
    }
    Ok(())
}
