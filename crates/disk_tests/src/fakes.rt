//! Pieces, failing calls and images, as they were asked for.

use febe_data::{List, Memory};
use green_fakes::{MemoryDisk, MemorySink, MemorySource};
use green_io::{Area, Disk, DiskFailed, ReadAnswer, Sink, Source, WriteAnswer};
use std::alloc::Global;
use std::process::Abort;
use std::test::Fail;

#[test]
fn pieces_and_failing_reads(rt: HostRuntime) -> Result<(), Fail> {
    let bytes = List::from_slice(rt.alloc(), b"abcdef")?;
    let pieces = List::from_slice(rt.alloc(), &[2, 0])?;
    let failing = List::from_slice(rt.alloc(), &[2, 5])?;
    let mut source = MemorySource::new(bytes, pieces, failing);
    let mut into = [0u8; 8];
    for wanted in [
        ReadAnswer::Got(2),
        ReadAnswer::Failed,
        ReadAnswer::Got(1),
        ReadAnswer::Got(3),
        ReadAnswer::Failed,
        ReadAnswer::End,
    ] {
        assert_eq!(rt; source.read(&mut into), wanted);
    }
    assert_eq!(rt; source.faults(), 2);
    Ok(())
}

#[test]
fn failing_writes(rt: HostRuntime) -> Result<(), Fail> {
    let failing = List::from_slice(rt.alloc(), &[1, 3])?;
    let mut sink = MemorySink::new(rt.alloc(), failing);
    for (bytes, wanted) in [
        (b"ab".as_slice(), WriteAnswer::Failed),
        (b"cde".as_slice(), WriteAnswer::Took(3)),
        (b"f".as_slice(), WriteAnswer::Failed),
        (b"g".as_slice(), WriteAnswer::Took(1)),
    ] {
        assert_eq!(rt; sink.write(bytes), wanted);
    }
    assert_eq!(rt; sink.bytes(), b"cdeg".as_slice());
    assert_eq!(rt; sink.faults(), 2);
    Ok(())
}

/// A disk after a write, a sync, a write that fails, a cut, and a call that looks.
fn used_disk(rt: &impl Abort, alloc: Global) -> Result<MemoryDisk, Memory> {
    let mut disk = MemoryDisk::new(alloc, List::from_slice(alloc, &[3])?);
    assert_eq!(rt; disk.write(Area::Log, 1, b"ab"), Ok(()));
    assert_eq!(rt; disk.sync(Area::Log), Ok(()));
    assert_eq!(rt; disk.write(Area::Log, 0, b"xyz"), Err(DiskFailed));
    assert_eq!(rt; disk.cut(Area::Log, 1), Ok(()));
    assert_eq!(rt; disk.length(Area::Log), Ok(1));
    assert_eq!(rt; disk.shortages(), 0);
    Ok(disk)
}

/// What the log of an image is.
fn check_image(
    rt: &impl Abort,
    disk: &MemoryDisk,
    moment: u64,
    pick: u64,
    wanted: &[u8],
) -> Result<(), Fail> {
    let image = disk.crash(moment, pick)?;
    assert_eq!(rt; image.area(Area::Log), wanted);
    Ok(())
}

// The bytes that are drawn were computed from the generator's rule.
#[test]
fn images(rt: HostRuntime) -> Result<(), Fail> {
    let disk = used_disk(&rt, rt.alloc())?;
    for (moment, pick, wanted) in [
        (0, 0, b"".as_slice()),
        (1, 0, b"\0ab".as_slice()),
        (1, 1, b"".as_slice()),
        (2, 3, b"\0ab".as_slice()),
        (3, 0, b"\0ab".as_slice()),
        (3, 2, b"\xb0\x8f\x96".as_slice()),
        (5, 1, b"\0ab".as_slice()),
        (9, 0, b"\0".as_slice()),
        (9, 2, b"\xb0\x8f".as_slice()),
    ] {
        check_image(&rt, &disk, moment, pick, wanted)?;
    }
    Ok(())
}
