//! Runs that write pages behind each kept entry, and disks that are made of what runs leave.

use crate::disk_rows::disk_failing;
use crate::runs::{Ran, run_over, sink_of, source_of};
use crate::sessions::bytes_of;
use febe_data::{Memory, Text};
use green_fakes::MemoryDisk;
use green_io::{Area, Disk};
use std::alloc::Global;
use std::test::Fail;

/// The words of a run that writes pages behind each kept entry.
pub(crate) const EAGER: &[&str] = &["green_batch", ".", "--limits", "1000", "1000000", "1"];

/// What a header of pages begins with.
pub(crate) const MARK: &[u8] = b"GREENPG1";

/// A session that finds what the session `HELLO` has left.
pub(crate) const LATER: &str = "P0~34~0.1.1.0.1~35~A~1~1~5~1~A~1~0.1.1~1.5~";

/// What it is answered where so many of the two edits are there.
pub(crate) const LATER_ANSWERED: [&str; 3] = [
    "P0~ 34~ ?2~ ?2~",
    "P0~ 34~ 35~A~ 5~0~",
    "P0~ 34~ 35~A~ 5~1~t5:hello",
];

/// Runs a session over a disk, with these words.
pub(crate) fn run_on_bytes(
    alloc: Global,
    words: &[&str],
    disk: MemoryDisk,
    input: Text,
) -> Result<Ran, Fail> {
    let source = source_of(alloc, input, None, &[])?;
    let sink = sink_of(alloc, &[])?;
    Ok(run_over(alloc, words, source, sink, disk)?)
}

/// Runs a session over a disk, with pages behind each kept entry.
pub(crate) fn run_eager(alloc: Global, disk: MemoryDisk, input: &str) -> Result<Ran, Fail> {
    run_on_bytes(alloc, EAGER, disk, bytes_of(alloc, input)?)
}

/// Runs a session over an empty disk, with pages behind each kept entry.
pub(crate) fn run_first(alloc: Global, input: &str) -> Result<Ran, Fail> {
    run_eager(alloc, disk_failing(alloc, &[])?, input)
}

/// Adds these bytes to an area that is empty.
fn put(disk: &mut MemoryDisk, area: Area, bytes: &[u8]) -> Result<(), Memory> {
    let Ok(()) = disk.write(area, 0, bytes) else {
        return Err(Memory);
    };
    Ok(())
}

/// A disk with these bytes in its areas. The log is that of the second one.
pub(crate) fn disk_of(
    alloc: Global,
    log: &[u8],
    home: &[u8],
    journal: &[u8],
) -> Result<MemoryDisk, Memory> {
    let mut disk = disk_failing(alloc, &[])?;
    put(&mut disk, Area::Second, log)?;
    put(&mut disk, Area::Home, home)?;
    put(&mut disk, Area::Journal, journal)?;
    Ok(disk)
}

/// A disk with the pages of one disk and this log, of the second area.
pub(crate) fn beside_log(
    alloc: Global,
    pages: &MemoryDisk,
    log: &[u8],
) -> Result<MemoryDisk, Memory> {
    disk_of(
        alloc,
        log,
        pages.area(Area::Home),
        pages.area(Area::Journal),
    )
}

/// A disk with the log of another, and no pages.
pub(crate) fn log_alone(alloc: Global, disk: &MemoryDisk) -> Result<MemoryDisk, Memory> {
    disk_of(alloc, disk.area(Area::Second), &[], &[])
}

/// How many entries a header says that its trees stand for: the number behind the mark. Nothing where there is no header.
pub(crate) fn position_in(home: &[u8]) -> Option<u64> {
    if home.len() < 4096 || !home.starts_with(MARK) {
        return None;
    }
    let mut position: u64 = 0;
    for byte in &home[8..16] {
        position = position.wrapping_mul(256).wrapping_add(u64::from(*byte));
    }
    Some(position)
}
