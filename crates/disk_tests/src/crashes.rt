//! What a crash leaves of a log at each moment of an opening, three appends, one that fails, and its mend.

use crate::logs::{CREATE, OLD_CREATE, calls_to_open, count_left, disk_with, open};
use edit_log::Appended;
use febe_data::List;
use green_fakes::MemoryDisk;
use green_io::Area;
use std::alloc::Global;
use std::process::Abort;
use std::test::Fail;

/// Checks how many entries the images after so many calls are opened with.
fn check_moment(
    rt: &impl Abort,
    alloc: Global,
    disk: &MemoryDisk,
    moment: u64,
    least: usize,
    most: usize,
) -> Result<(), Fail> {
    for pick in 0..16 {
        let count = count_left(alloc, disk, moment, pick);
        let holds = match count {
            Ok(count) => least <= count && count <= most,
            Err(_) => false,
        };
        assert!(rt; holds);
    }
    Ok(())
}

/// Checks each moment. The opening has so many calls, and each append the next four.
fn check_moments(
    rt: &impl Abort,
    alloc: Global,
    disk: &MemoryDisk,
    opening: u64,
) -> Result<(), Fail> {
    for moment in 0..opening.saturating_add(20) {
        let behind = moment.saturating_sub(opening);
        let done = (behind / 4).min(3) as usize;
        let begun = (behind.saturating_add(3) / 4).min(4) as usize;
        check_moment(rt, alloc, disk, moment, done, begun)?;
    }
    Ok(())
}

/// Appends three entries and one more, of whose four calls this one fails, and takes that one back.
fn check_failing(rt: &impl Abort, alloc: Global, opening: u64, call: u64) -> Result<(), Fail> {
    let failing = opening.saturating_add(12).saturating_add(call);
    let mut disk = MemoryDisk::new(alloc, List::from_slice(alloc, &[failing])?);
    let bytes = List::from_slice(alloc, &CREATE)?;
    let mut log = open(alloc, &mut disk)?;
    for wanted in [Appended::Ok, Appended::Ok, Appended::Ok, Appended::Disk] {
        assert_eq!(rt; log.append(&mut disk, &bytes), wanted);
    }
    assert!(rt; log.pending());
    check_moments(rt, alloc, &disk, opening)?;
    assert_eq!(rt; log.mend(&mut disk), Appended::Ok);
    check_moments(rt, alloc, &disk, opening)?;
    check_moment(rt, alloc, &disk, u64::MAX, 3, 3)
}

#[test]
fn images_of_appends(rt: HostRuntime) -> Result<(), Fail> {
    let opening = calls_to_open(rt.alloc())?;
    for call in 1..5u64 {
        check_failing(&rt, rt.alloc(), opening, call)?;
    }
    Ok(())
}

/// Opens a log of before with one entry and a last gate that is not 0. It is stable after two calls.
#[test]
fn images_of_an_opening(rt: HostRuntime) -> Result<(), Fail> {
    let alloc = rt.alloc();
    let mut bytes = List::from_slice(alloc, &[1])?;
    bytes.extend_from_slice(&OLD_CREATE)?;
    bytes.push(7)?;
    let mut disk = disk_with(alloc, Area::Log, bytes.as_slice())?;
    let _ = open(alloc, &mut disk)?;
    for moment in 2..40u64 {
        check_moment(&rt, alloc, &disk, moment, 1, 1)?;
    }
    check_moment(&rt, alloc, &disk, 0, 0, 0)
}
