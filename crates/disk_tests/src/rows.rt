//! Short logs, beside what they are opened with.

use crate::logs::{count_entries, disk_with};
use edit_log::LogFault;
use green_io::Area;
use std::alloc::Global;
use std::process::Abort;
use std::test::Fail;

/// Opens a log with these bytes in this area, and looks at what it leaves there.
fn check_row(
    rt: &impl Abort,
    alloc: Global,
    area: Area,
    log: &[u8],
    wanted: Result<usize, LogFault>,
    left: &[u8],
) -> Result<(), Fail> {
    let mut disk = disk_with(alloc, area, log)?;
    assert_eq!(rt; count_entries(alloc, &mut disk), wanted);
    assert_eq!(rt; disk.area(area), left);
    Ok(())
}

/// A log of before moves, unless it is damaged.
#[test]
fn short_logs_of_before(rt: HostRuntime) -> Result<(), Fail> {
    for (log, wanted, left) in [
        (b"".as_slice(), Ok(0), b"".as_slice()),
        (b"\x01".as_slice(), Ok(0), b"".as_slice()),
        (b"\x02\x05".as_slice(), Ok(0), b"".as_slice()),
        (
            b"\x01\x00\x00\x00\x00\x00".as_slice(),
            Err(LogFault::Damaged { at: 0 }),
            b"\x01\x00\x00\x00\x00\x00".as_slice(),
        ),
    ] {
        check_row(&rt, rt.alloc(), Area::Log, log, wanted, left)?;
    }
    Ok(())
}

/// One that has no gate 1 and a byte behind it is closed, and a log of no entries moves into it.
#[test]
fn short_logs(rt: HostRuntime) -> Result<(), Fail> {
    for (log, wanted, left) in [
        (b"".as_slice(), Ok(0), b"\x01\x00".as_slice()),
        (b"\x01".as_slice(), Ok(0), b"\x01\x00".as_slice()),
        (b"\x00\x09\x09".as_slice(), Ok(0), b"\x01\x00".as_slice()),
        (b"\x02\x01".as_slice(), Ok(0), b"\x01\x00".as_slice()),
        (b"\x01\x01".as_slice(), Ok(0), b"\x01\x00".as_slice()),
        (
            b"\x01\x02\x05".as_slice(),
            Ok(0),
            b"\x01\x00\x05".as_slice(),
        ),
        (
            b"\x01\x01\x00\x00".as_slice(),
            Err(LogFault::Damaged { at: 1 }),
            b"\x01\x01\x00\x00".as_slice(),
        ),
    ] {
        check_row(&rt, rt.alloc(), Area::Second, log, wanted, left)?;
    }
    Ok(())
}
