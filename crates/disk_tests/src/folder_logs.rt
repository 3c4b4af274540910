//! Logs in the files of a folder.

use crate::logs::{CREATE, count_entries};
use edit_log::{Appended, EditLog, LogFault};
use febe_data::List;
use green_io::{Disk, FolderDisk};
use std::alloc::Global;
use std::fs;
use std::test::Fail;

const FOLDER: &str = "edit_log_test";

const LOG: &str = "edit_log_test/log2";

// Opens a log, and appends that entry.
fn append_entry<D: Disk>(alloc: Global, disk: &mut D) -> Result<Appended, LogFault> {
    let Ok(bytes) = List::from_slice(alloc, &CREATE) else {
        return Err(LogFault::Memory);
    };
    let (mut log, _) = EditLog::open(alloc, disk)?;
    Ok(log.append(disk, &bytes))
}

#[test]
fn an_entry_is_appended_and_read_again(rt: HostRuntime) -> Result<(), Fail> {
    let _ = fs::remove_dir_all(&rt, FOLDER);
    fs::create_dir(&rt, FOLDER)?;
    let mut disk = FolderDisk::new(rt, FOLDER)?;
    assert_eq!(rt; append_entry(rt.alloc(), &mut disk), Ok(Appended::Ok));
    assert_eq!(rt; append_entry(rt.alloc(), &mut disk), Ok(Appended::Ok));
    assert_eq!(rt; count_entries(rt.alloc(), &mut disk), Ok(2));
    drop(disk);
    // What stands behind a gate 1 that is no body is damage, and one gate at the end is none.
    for (log, wanted) in [
        (b"\x01\x01\x00".as_slice(), Err(LogFault::Damaged { at: 1 })),
        (b"\x01\x01".as_slice(), Ok(0)),
        (b"\x01\x07\x00\x00".as_slice(), Ok(0)),
    ] {
        fs::write(&rt, LOG, log)?;
        let mut disk = FolderDisk::new(rt, FOLDER)?;
        assert_eq!(rt; count_entries(rt.alloc(), &mut disk), wanted);
    }
    assert_eq!(rt;
        fs::read(&rt, LOG)?.as_slice(),
        b"\x01\x00\x00\x00".as_slice()
    );
    fs::remove_dir_all(&rt, FOLDER)?;
    Ok(())
}
