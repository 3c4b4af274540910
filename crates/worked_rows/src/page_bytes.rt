//! Pages of which one byte was changed: a later run answers by its log, and writes pages anew.

use crate::disk_rows::disk_failing;
use crate::paged_runs::{beside_log, disk_of, position_in, run_eager, run_first};
use crate::sessions::bytes_of;
use crate::store_rows::house_over;
use febe_data::Text;
use green_fakes::MemoryDisk;
use green_io::Area;
use std::alloc::Global;
use std::process::Abort;
use std::test::Fail;

/// A session that leaves a text, a version, a link, and pieces in another order: five edits.
const MAKES: &str = "P0~ 34~0.1.1.0.1~ 11~ 0~A~0.1.1~t6:abcdef 13~A~ \
    27~A~1~A~1~0.1.2~1.2~0~0~ 3~A~3~0.1.1~0.1.3~0.1.5~ 16~";

/// How many edits it leaves.
const EDITS: u64 = 5;

/// A session that looks at each of these.
const LOOKS: &str = "P0~ 34~0.1.1.0.1~ 35~A~1~1~ 35~0.1.1.0.1.0.1.1~1~1~ \
    5~1~A~1~0.1.1~0.2~ 5~1~0.1.1.0.1.0.1.1~1~0.1.1~0.2~ 18~0.1.1.0.1.0.1.0.2.1~1~ \
    22~1~A~1~0.1.1~1.6~ 30~0~1~A~1~0.1.1~1.6~0~0~";

const LOOKS_ANSWERED: &str = "P0~ 34~ 35~A~ 35~0.1.1.0.1.0.1.1~ \
    5~2~t6:cdabef0.1.1.0.1.0.1.0.2.1~ 5~1~t6:abcdef 18~1~A~2~0.1.1~1.1~0.1.4~1.1~ \
    22~2~A~0.1.1.0.1.0.1.1~ 30~1~0.1.1.0.1.0.1.0.2.1~";

/// What a run over this disk is answered, and that it leaves pages for all edits.
fn check_looks(rt: &impl Abort, alloc: Global, disk: MemoryDisk) -> Result<(), Fail> {
    let ran = run_eager(alloc, disk, LOOKS)?;
    assert!(rt; ran.status == 0);
    assert!(rt; ran.written() == bytes_of(alloc, LOOKS_ANSWERED)?.as_slice());
    assert!(rt; position_in(ran.disk.area(Area::Home)) == Some(EDITS));
    let again = house_over(alloc, ran.disk.crash(u64::MAX, 0)?, 1)?;
    assert!(rt; again.store.flushed() == EDITS);
    Ok(())
}

/// These bytes with another one at a place.
fn changed(alloc: Global, bytes: &[u8], at: usize, byte: u8) -> Result<Text, Fail> {
    let mut made = Text::new(alloc);
    for (before, old) in bytes.iter().enumerate() {
        let new = if before == at { byte } else { *old };
        made.push(new)?;
    }
    Ok(made)
}

/// A byte of the pages is this one.
fn check_changed(
    rt: &impl Abort,
    alloc: Global,
    disk: &MemoryDisk,
    at: usize,
    byte: u8,
) -> Result<(), Fail> {
    let home = changed(alloc, disk.area(Area::Home), at, byte)?;
    let log = disk.area(Area::Second);
    let other = disk_of(alloc, log, home.as_slice(), disk.area(Area::Journal))?;
    check_looks(rt, alloc, other)
}

/// Each of the 64 bytes from here on is 0, and is 255.
fn check_front(rt: &impl Abort, alloc: Global, disk: &MemoryDisk, from: usize) -> Result<(), Fail> {
    for behind in 0..64usize {
        let at = from.saturating_add(behind);
        check_changed(rt, alloc, disk, at, 0)?;
        check_changed(rt, alloc, disk, at, 255)?;
    }
    Ok(())
}

#[test]
fn a_run_over_whole_pages_and_one_over_none(rt: HostRuntime) -> Result<(), Fail> {
    let alloc = rt.alloc();
    let ran = run_first(alloc, MAKES)?;
    let log = ran.disk.area(Area::Second);
    check_looks(&rt, alloc, beside_log(alloc, &ran.disk, log)?)?;
    check_looks(
        &rt,
        alloc,
        beside_log(alloc, &disk_failing(alloc, &[])?, log)?,
    )
}

#[test]
fn each_byte_of_a_header_is_changed(rt: HostRuntime) -> Result<(), Fail> {
    let alloc = rt.alloc();
    let ran = run_first(alloc, MAKES)?;
    check_front(&rt, alloc, &ran.disk, 0)
}

/// Where the first page of the header's stream of this number begins, counted from 0; nothing where it has none.
fn first_page(home: &[u8], stream: usize) -> Option<usize> {
    let at = stream.checked_mul(16)?.checked_add(31)?;
    let number = home.get(at)?;
    if *number == 0 {
        return None;
    }
    usize::from(*number).checked_mul(4096)
}

/// Changes the front of a stream's first page.
fn check_stream(rt: &impl Abort, alloc: Global, stream: usize) -> Result<(), Fail> {
    let ran = run_first(alloc, MAKES)?;
    let from = first_page(ran.disk.area(Area::Home), stream).ok_or("no page")?;
    check_front(rt, alloc, &ran.disk, from)
}

#[test]
fn each_byte_of_a_page_of_contents_is_changed(rt: HostRuntime) -> Result<(), Fail> {
    check_stream(&rt, rt.alloc(), 0)
}

#[test]
fn each_byte_of_a_page_of_documents_is_changed(rt: HostRuntime) -> Result<(), Fail> {
    check_stream(&rt, rt.alloc(), 1)
}

#[test]
fn each_byte_of_a_page_of_the_index_is_changed(rt: HostRuntime) -> Result<(), Fail> {
    check_stream(&rt, rt.alloc(), 2)
}

#[test]
fn each_byte_of_a_page_of_tables_is_changed(rt: HostRuntime) -> Result<(), Fail> {
    check_stream(&rt, rt.alloc(), 6)
}
