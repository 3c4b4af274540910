//! Runs over one real folder.

use crate::runs::{HELLO, HELLO_ANSWERED, WORDS, sink_of, source_of, strings_of};
use crate::sessions::bytes_of;
use green_fakes::MemoryClock;
use green_io::{Area, Disk, FolderDisk};
use green_top::{Report, run_batch};
use std::fs;
use std::process::Abort;
use std::test::Fail;
use tumbler::Text;

/// Runs a session over the folder, and gives the status and what was written.
fn run_in(rt: HostRuntime, folder: &str, input: &str) -> Result<(u8, Text), Fail> {
    let alloc = rt.alloc();
    let mut source = source_of(alloc, bytes_of(alloc, input)?, None, &[])?;
    let mut sink = sink_of(alloc, &[])?;
    let mut disk = FolderDisk::new(rt, folder)?;
    let mut report = Report::new(alloc);
    let words = strings_of(alloc, WORDS)?;
    let status = run_batch(
        alloc,
        words.as_slice(),
        &mut MemoryClock::new(1000, 1),
        &mut source,
        &mut sink,
        &mut disk,
        &mut report,
    );
    Ok((status, Text::from_slice(alloc, sink.bytes())?))
}

/// Makes the folder anew.
fn make_folder(rt: HostRuntime, folder: &str) -> Result<(), Fail> {
    let _ = fs::remove_dir_all(&rt, folder);
    fs::create_dir(&rt, folder)?;
    Ok(())
}

#[test]
fn a_folder_is_found_again(rt: HostRuntime) -> Result<(), Fail> {
    let alloc = rt.alloc();
    let folder = "folder_rows_test";
    make_folder(rt, folder)?;
    let (_, first) = run_in(rt, folder, HELLO)?;
    assert_eq!(rt;
        first.as_slice(),
        bytes_of(alloc, HELLO_ANSWERED)?.as_slice()
    );
    let (_, second) = run_in(rt, folder, "P0~34~0.1.1.0.1~35~A~1~1~5~1~A~1~0.1.1~1.5~")?;
    let wanted = bytes_of(alloc, "P0~ 34~ 35~A~ 5~1~t5:hello")?;
    assert_eq!(rt; second.as_slice(), wanted.as_slice());
    fs::remove_dir_all(&rt, folder)?;
    Ok(())
}

#[test]
fn a_folder_is_one_runs_at_a_time(rt: HostRuntime) -> Result<(), Fail> {
    let folder = "folder_rows_held_test";
    make_folder(rt, folder)?;
    let mut holder = FolderDisk::new(rt, folder)?;
    assert!(rt; holder.length(Area::Log) == Ok(0));
    let (status, written) = run_in(rt, folder, HELLO)?;
    assert!(rt; status == 7 && written.is_empty());
    assert!(rt; holder.length(Area::Log) == Ok(0));
    drop(holder);
    let (status, _) = run_in(rt, folder, HELLO)?;
    assert!(rt; status == 0);
    fs::remove_dir_all(&rt, folder)?;
    Ok(())
}
