//! Two pages that are written to an empty disk, and one more that is written after a fault.
//!
//! Five calls open a journal on an empty disk, and the nine of the commit of two pages come next.
ghost use Rattle.std.specs.Prelude.{◌<◌, IfOk};
ghost use Rattle.page_journal.specs.JournalBytes.{AreWrites, IsWrite, write_of, writes_of};

use crate::disk_rows::disk_failing;
use febe_data::{List, Memory, Text};
use green_fakes::MemoryDisk;
use green_io::Area;
use page_journal::{PageFault, PageJournal, PageWrite};
use std::alloc::Global;
use std::process::Abort;
use std::test::Fail;

/// A page of 4,096 equal bytes.
fn page_of(alloc: Global, number: u64, byte: u8) -> Result<PageWrite, Memory>
    requires { number < 1099511627776 }
    ensures { IfOk result (λ page. IsWrite (write_of page)) }
{
    let bytes = List::from_slice(alloc, &[byte; 4096])?;
    Ok(PageWrite { number, bytes })
}

/// Page 0 of bytes 65, and page 1 of bytes 66.
fn two_pages(alloc: Global) -> Result<List<PageWrite>, Memory>
    ensures { IfOk result (λ pages. AreWrites (writes_of pages.items)) }
{
    let mut pages = List::new(alloc);
    pages.reserve(2)?;
    pages.push_reserved(page_of(alloc, 0, 65)?);
    pages.push_reserved(page_of(alloc, 1, 66)?);
    Ok(pages)
}

/// Page 2 of bytes 67.
fn one_page(alloc: Global) -> Result<List<PageWrite>, Memory>
    ensures { IfOk result (λ pages. AreWrites (writes_of pages.items)) }
{
    let mut pages = List::new(alloc);
    pages.reserve(1)?;
    pages.push_reserved(page_of(alloc, 2, 67)?);
    Ok(pages)
}

fn opened(alloc: Global, disk: &mut MemoryDisk) -> Result<PageJournal, Fail> {
    let journal = PageJournal::open(alloc, disk).ok().ok_or("not opened")?;
    Ok(journal)
}

/// Commits the two pages.
fn commit_two(
    alloc: Global,
    journal: &mut PageJournal,
    disk: &mut MemoryDisk,
) -> Result<(), PageFault> {
    let pages = two_pages(alloc)?;
    journal.commit(alloc, disk, &pages)
}

/// Whether the page is there, and each byte of it is this one.
fn is_page(
    alloc: Global,
    journal: &PageJournal,
    disk: &mut MemoryDisk,
    number: u64,
    byte: u8,
) -> Result<bool, PageFault> {
    let mut page = Text::new(alloc);
    let there = journal.read(disk, number, &mut page)?;
    Ok(there && page.as_slice() == [byte; 4096].as_slice())
}

#[test]
fn two_pages_on_an_empty_disk(rt: HostRuntime) -> Result<(), Fail> {
    let alloc = rt.alloc();
    let mut disk = disk_failing(alloc, &[])?;
    let mut journal = opened(alloc, &mut disk)?;
    let answer = commit_two(alloc, &mut journal, &mut disk);
    assert!(rt; answer == Ok(()));
    assert_eq!(rt; disk.area(Area::Home).len(), 8192);
    assert_eq!(rt; disk.area(Area::Journal).len(), 12308);
    assert!(rt; disk.area(Area::Journal).first() == Some(&0));
    let mut page = Text::new(alloc);
    let there = journal.read(&mut disk, 5, &mut page);
    assert!(rt; there == Ok(false));
    Ok(())
}

/// The call that fails, and each byte of the pages 0 and 1 once page 2 was committed: they are new, or zeros.
const FAULTS: &[(u64, u8, u8)] = &[
    (6, 0, 0),
    (7, 0, 0),
    (8, 65, 66),
    (9, 65, 66),
    (10, 65, 66),
    (11, 65, 66),
    (12, 65, 66),
    (13, 65, 66),
    (14, 65, 66),
];

/// Commits page 2, and says whether the three pages are then made of these bytes and 67.
fn goes_on(
    alloc: Global,
    journal: &mut PageJournal,
    disk: &mut MemoryDisk,
    zero: u8,
    one: u8,
) -> Result<bool, PageFault> {
    let pages = one_page(alloc)?;
    journal.commit(alloc, disk, &pages)?;
    let first = is_page(alloc, journal, disk, 0, zero)?;
    let second = is_page(alloc, journal, disk, 1, one)?;
    let third = is_page(alloc, journal, disk, 2, 67)?;
    Ok(first && second && third)
}

fn check_fault(rt: &impl Abort, alloc: Global, row: &(u64, u8, u8)) -> Result<(), Fail> {
    let (call, zero, one) = *row;
    let mut disk = disk_failing(alloc, &[call])?;
    let mut journal = opened(alloc, &mut disk)?;
    let stopped = commit_two(alloc, &mut journal, &mut disk);
    assert!(rt; stopped == Err(PageFault::Disk), "at {call}");
    let seen = goes_on(alloc, &mut journal, &mut disk, zero, one);
    assert!(rt; seen == Ok(true), "at {call}");
    Ok(())
}

#[test]
fn a_page_after_a_fault_at_each_call(rt: HostRuntime) -> Result<(), Fail> {
    for row in FAULTS {
        check_fault(&rt, rt.alloc(), row)?;
    }
    Ok(())
}
