//! Logs with moments that stores are opened with. Their bytes and the places in them are counted by hand.

use febe_data::{Limits, List};
use green_fakes::MemoryDisk;
use green_io::{Area, Disk};
use green_store::{OpenFault, Store};
use std::alloc::Global;
use std::test::Fail;

/// The gate in front of all.
const OPEN: [u8; 1] = [1];

/// An open gate, and behind it the creation of document 1.1.0.1.0.1 at the moment 1003, by session 1 with the serial 3.
const CREATED: [u8; 60] = [
    1, 0, 0, 0, 0, 0, 0, 0, 51, 2, 0, 0, 0, 0, 0, 0, 3, 235, 0, 0, 0, 0, 0, 0, 0, 1, 0, 0, 0, 0, 0,
    0, 0, 3, 1, 6, 0, 0, 0, 1, 0, 0, 0, 1, 0, 0, 0, 0, 0, 0, 0, 1, 0, 0, 0, 0, 0, 0, 0, 1,
];

/// An open gate, and behind it the insert of "hello" at the place 1 of that document at the moment 1005, with the serial 4.
const INSERTED: [u8; 81] = [
    1, 0, 0, 0, 0, 0, 0, 0, 72, 2, 0, 0, 0, 0, 0, 0, 3, 237, 0, 0, 0, 0, 0, 0, 0, 1, 0, 0, 0, 0, 0,
    0, 0, 4, 4, 6, 0, 0, 0, 1, 0, 0, 0, 1, 0, 0, 0, 0, 0, 0, 0, 1, 0, 0, 0, 0, 0, 0, 0, 1, 0, 0, 0,
    1, 0, 0, 0, 1, 0, 0, 0, 0, 0, 0, 0, 5, 104, 101, 108, 108, 111,
];

/// The gate at the end of a log.
const SHUT: [u8; 1] = [0];

/// An open gate, and behind it the length of a body that is too short for one.
const MISSPELLED: [u8; 10] = [1, 0, 0, 0, 0, 0, 0, 0, 1, 2];

/// The sum of the moments of a store that is opened with these parts of a second area, and how many there are.
fn moments_of(alloc: Global, parts: &[&[u8]]) -> Result<(usize, u64), OpenFault> {
    let mut disk = MemoryDisk::new(alloc, List::new(alloc));
    for part in parts {
        let at = disk.area(Area::Second).len() as u64;
        let Ok(()) = disk.write(Area::Second, at, part) else {
            return Err(OpenFault::Disk);
        };
    }
    let Ok(limits) = Limits::new(0, 0, 1) else {
        return Err(OpenFault::Memory);
    };
    let store = Store::open(alloc, &mut disk, limits)?;
    let mut sum: u64 = 0;
    for moment in store.moments().as_slice() {
        sum = sum.saturating_add(*moment);
    }
    Ok((store.moments().len(), sum))
}

#[test]
fn logs_with_moments_are_opened_or_damaged(rt: HostRuntime) -> Result<(), Fail> {
    for (parts, wanted) in [
        ([].as_slice(), Ok((0, 0))),
        ([OPEN.as_slice(), &SHUT].as_slice(), Ok((0, 0))),
        (
            [OPEN.as_slice(), &CREATED, &INSERTED, &SHUT].as_slice(),
            Ok((2, 2008)),
        ),
        // What stands behind a gate that is not open is no log.
        ([SHUT.as_slice(), &CREATED, &SHUT].as_slice(), Ok((0, 0))),
        // The document is not there yet.
        (
            [OPEN.as_slice(), &INSERTED, &CREATED, &SHUT].as_slice(),
            Err(OpenFault::Damaged { at: 1 }),
        ),
        // The serial is its session's last.
        (
            [OPEN.as_slice(), &CREATED, &CREATED, &SHUT].as_slice(),
            Err(OpenFault::Damaged { at: 61 }),
        ),
        // A misspelled body comes before an entry that does not fit, also where it stands behind it.
        (
            [OPEN.as_slice(), &CREATED, &CREATED, &MISSPELLED].as_slice(),
            Err(OpenFault::Damaged { at: 121 }),
        ),
    ] {
        assert_eq!(rt; moments_of(rt.alloc(), parts), wanted);
    }
    Ok(())
}
