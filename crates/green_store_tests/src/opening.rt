//! Logs of before that stores are opened with. Their bytes and the places in them are counted by hand.

use febe_data::{Limits, List};
use green_fakes::MemoryDisk;
use green_io::{Area, Disk};
use green_store::{OpenFault, Store};
use std::alloc::Global;
use std::test::Fail;

/// An open gate, and behind it the creation of document 1.1.0.1.0.1, by session 1 with the serial 3.
const CREATED: [u8; 48] = [
    1, 0, 0, 0, 43, 1, 0, 0, 0, 0, 0, 0, 0, 1, 0, 0, 0, 0, 0, 0, 0, 3, 1, 6, 0, 0, 0, 1, 0, 0, 0,
    1, 0, 0, 0, 0, 0, 0, 0, 1, 0, 0, 0, 0, 0, 0, 0, 1,
];

/// An open gate, and behind it the insert of "hello" at the place 1 of that document, with the serial 4.
const INSERTED: [u8; 65] = [
    1, 0, 0, 0, 60, 1, 0, 0, 0, 0, 0, 0, 0, 1, 0, 0, 0, 0, 0, 0, 0, 4, 4, 6, 0, 0, 0, 1, 0, 0, 0,
    1, 0, 0, 0, 0, 0, 0, 0, 1, 0, 0, 0, 0, 0, 0, 0, 1, 0, 0, 0, 1, 0, 0, 0, 1, 0, 0, 0, 5, 104,
    101, 108, 108, 111,
];

/// An open gate, and behind it that this document is published, with the serial 4.
const PUBLISHED: [u8; 48] = [
    1, 0, 0, 0, 43, 1, 0, 0, 0, 0, 0, 0, 0, 1, 0, 0, 0, 0, 0, 0, 0, 4, 9, 6, 0, 0, 0, 1, 0, 0, 0,
    1, 0, 0, 0, 0, 0, 0, 0, 1, 0, 0, 0, 0, 0, 0, 0, 1,
];

/// The same with the serial 5.
const PUBLISHED_AGAIN: [u8; 48] = [
    1, 0, 0, 0, 43, 1, 0, 0, 0, 0, 0, 0, 0, 1, 0, 0, 0, 0, 0, 0, 0, 5, 9, 6, 0, 0, 0, 1, 0, 0, 0,
    1, 0, 0, 0, 0, 0, 0, 0, 1, 0, 0, 0, 0, 0, 0, 0, 1,
];

/// The gate at the end of a log.
const SHUT: [u8; 1] = [0];

/// An open gate, and behind it the length of a body that is too short for one.
const MISSPELLED: [u8; 6] = [1, 0, 0, 0, 1, 1];

/// How many entries a store has that is opened with these parts of a log. It has no room for an edit.
fn count_opened(alloc: Global, parts: &[&[u8]]) -> Result<usize, OpenFault> {
    let mut disk = MemoryDisk::new(alloc, List::new(alloc));
    for part in parts {
        let at = disk.area(Area::Log).len() as u64;
        let Ok(()) = disk.write(Area::Log, at, part) else {
            return Err(OpenFault::Disk);
        };
    }
    let Ok(limits) = Limits::new(0, 0, 1) else {
        return Err(OpenFault::Memory);
    };
    let store = Store::open(alloc, &mut disk, limits)?;
    Ok(store.into_history().len())
}

#[test]
fn logs_are_opened_or_damaged(rt: HostRuntime) -> Result<(), Fail> {
    for (parts, wanted) in [
        ([].as_slice(), Ok(1)),
        ([CREATED.as_slice(), &INSERTED, &SHUT].as_slice(), Ok(3)),
        (
            [CREATED.as_slice(), &PUBLISHED, &PUBLISHED_AGAIN, &SHUT].as_slice(),
            Ok(4),
        ),
        // The document is not there yet.
        (
            [PUBLISHED.as_slice(), &CREATED, &SHUT].as_slice(),
            Err(OpenFault::Damaged { at: 0 }),
        ),
        (
            &[&INSERTED, &CREATED, &SHUT],
            Err(OpenFault::Damaged { at: 0 }),
        ),
        // The serial is its session's last.
        (
            &[&CREATED, &CREATED, &SHUT],
            Err(OpenFault::Damaged { at: 48 }),
        ),
        // A misspelled body comes before an entry that does not fit, also where it stands behind it.
        (
            &[&CREATED, &CREATED, &MISSPELLED],
            Err(OpenFault::Damaged { at: 96 }),
        ),
    ] {
        assert_eq!(rt; count_opened(rt.alloc(), parts), wanted);
    }
    Ok(())
}

#[test]
fn faults_are_shown(rt: HostRuntime) -> Result<(), Fail> {
    for (fault, text) in [
        (OpenFault::Damaged { at: 48 }, "damaged log at 48"),
        (OpenFault::Disk, "disk fault"),
        (OpenFault::Memory, "out of memory"),
    ] {
        let shown = format!(in rt.alloc(); "{fault}")?;
        assert_eq!(rt; shown.as_str(), text);
    }
    Ok(())
}
