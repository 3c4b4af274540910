//! Logs that are opened on a disk.

use edit_log::{EditLog, LogFault};
use febe_data::{List, Memory};
use green_fakes::MemoryDisk;
use green_io::{Area, Disk};
use std::alloc::Global;

/// The body of the entry that creates document 1.1.0.1.0.1, by session 1 with the serial 3 at the moment 1003, and a byte 0.
pub(crate) const CREATE: [u8; 60] = [
    0, 0, 0, 0, 0, 0, 0, 51, 2, 0, 0, 0, 0, 0, 0, 3, 235, 0, 0, 0, 0, 0, 0, 0, 1, 0, 0, 0, 0, 0, 0,
    0, 3, 1, 6, 0, 0, 0, 1, 0, 0, 0, 1, 0, 0, 0, 0, 0, 0, 0, 1, 0, 0, 0, 0, 0, 0, 0, 1, 0,
];

/// The same in the format of before, without the byte.
pub(crate) const OLD_CREATE: [u8; 47] = [
    0, 0, 0, 43, 1, 0, 0, 0, 0, 0, 0, 0, 1, 0, 0, 0, 0, 0, 0, 0, 3, 1, 6, 0, 0, 0, 1, 0, 0, 0, 1,
    0, 0, 0, 0, 0, 0, 0, 1, 0, 0, 0, 0, 0, 0, 0, 1,
];

/// A call that no log here comes to.
const FAR: u64 = 1_000;

/// How many calls of a disk an opening makes of an empty one: as many fewer as it can still make before the call [`FAR`],
/// which fails.
pub(crate) fn calls_to_open(alloc: Global) -> Result<u64, Memory> {
    let mut disk = MemoryDisk::new(alloc, List::from_slice(alloc, &[FAR])?);
    let _ = open(alloc, &mut disk)?;
    for left in 0..FAR {
        let Ok(_) = disk.length(Area::Home) else {
            return Ok(FAR - 1 - left);
        };
    }
    Ok(0)
}

/// A disk with these bytes in an area, none of whose calls fail.
pub(crate) fn disk_with(alloc: Global, area: Area, bytes: &[u8]) -> Result<MemoryDisk, Memory> {
    let mut disk = MemoryDisk::new(alloc, List::new(alloc));
    let Ok(()) = disk.write(area, 0, bytes) else {
        return Err(Memory);
    };
    Ok(disk)
}

/// Opens a log that is not damaged.
pub(crate) fn open(alloc: Global, disk: &mut MemoryDisk) -> Result<EditLog, Memory> {
    match EditLog::open(alloc, disk) {
        Ok((log, _entries)) => Ok(log),
        Err(_fault) => Err(Memory),
    }
}

/// How many entries a log is opened with.
pub(crate) fn count_entries<D: Disk>(alloc: Global, disk: &mut D) -> Result<usize, LogFault> {
    let (_, entries) = EditLog::open(alloc, disk)?;
    Ok(entries.len())
}

/// How many entries the log of an image is opened with.
pub(crate) fn count_left(
    alloc: Global,
    disk: &MemoryDisk,
    moment: u64,
    pick: u64,
) -> Result<usize, LogFault> {
    let Ok(mut image) = disk.crash(moment, pick) else {
        return Err(LogFault::Memory);
    };
    count_entries(alloc, &mut image)
}
