//! Pages that are written, and what is read of them.
ghost use Rattle.std.specs.Prelude.{◌<◌, IfOk};
ghost use Rattle.page_journal.specs.JournalBytes.{AreWrites, IsWrite, write_of, writes_of};

use febe_data::{List, Memory};
use green_fakes::MemoryDisk;
use page_journal::{PageFault, PageJournal, PageWrite};
use std::alloc::Global;

/// How many bytes a page has.
pub(crate) const PAGE: usize = 4096;

/// What a page reads as.
#[derive(Clone, Copy, Debug, PartialEq, Eq)]
pub(crate) enum Seen {
    /// It is not there.
    Gone,
    /// It is zeros.
    Zeros,
    /// It has the bytes that were there before any commit.
    Old,
    /// It has the bytes that a commit was given for it.
    New,
    /// It has other bytes.
    Other,
}

/// Each byte of a page that was there before any commit.
pub(crate) const OLD_BYTE: u8 = 9;

/// Each byte that a commit is given for one of the first four pages.
pub(crate) fn new_byte(number: u64) -> u8 {
    match number {
        0 => 65,
        1 => 66,
        2 => 67,
        _ => 68,
    }
}

/// A page that is to be written.
fn page_write(alloc: Global, number: u64) -> Result<PageWrite, Memory>
    requires { number < 1099511627776 }
    ensures { IfOk result (λ page. IsWrite (write_of page)) }
{
    let bytes = List::from_slice(alloc, &[new_byte(number); PAGE])?;
    Ok(PageWrite { number, bytes })
}

/// The pages 0 and 1.
pub(crate) fn first_pages(alloc: Global) -> Result<List<PageWrite>, Memory>
    ensures { IfOk result (λ pages. AreWrites (writes_of pages.items)) }
{
    let mut pages = List::new(alloc);
    pages.reserve(2)?;
    pages.push_reserved(page_write(alloc, 0)?);
    pages.push_reserved(page_write(alloc, 1)?);
    Ok(pages)
}

/// The pages 1 and 2.
pub(crate) fn next_pages(alloc: Global) -> Result<List<PageWrite>, Memory>
    ensures { IfOk result (λ pages. AreWrites (writes_of pages.items)) }
{
    let mut pages = List::new(alloc);
    pages.reserve(2)?;
    pages.push_reserved(page_write(alloc, 1)?);
    pages.push_reserved(page_write(alloc, 2)?);
    Ok(pages)
}

/// One page.
pub(crate) fn one_page(alloc: Global, number: u64) -> Result<List<PageWrite>, Memory>
    requires { number < 1099511627776 }
    ensures { IfOk result (λ pages. AreWrites (writes_of pages.items)) }
{
    let mut pages = List::new(alloc);
    pages.reserve(1)?;
    pages.push_reserved(page_write(alloc, number)?);
    Ok(pages)
}

/// What these bytes of a page are.
fn seen_in(page: &[u8], number: u64) -> Seen {
    if page == [new_byte(number); PAGE].as_slice() {
        return Seen::New;
    }
    if page == [OLD_BYTE; PAGE].as_slice() {
        return Seen::Old;
    }
    if page == [0; PAGE].as_slice() {
        return Seen::Zeros;
    }
    Seen::Other
}

/// What a page reads as.
fn see(
    alloc: Global,
    journal: &PageJournal,
    disk: &mut MemoryDisk,
    number: u64,
) -> Result<Seen, PageFault> {
    let mut page = List::new(alloc);
    if !journal.read(disk, number, &mut page)? {
        return Ok(Seen::Gone);
    }
    Ok(seen_in(page.as_slice(), number))
}

/// What the first four pages read as.
pub(crate) fn see_all(
    alloc: Global,
    journal: &PageJournal,
    disk: &mut MemoryDisk,
) -> Result<[Seen; 4], PageFault> {
    Ok([
        see(alloc, journal, disk, 0)?,
        see(alloc, journal, disk, 1)?,
        see(alloc, journal, disk, 2)?,
        see(alloc, journal, disk, 3)?,
    ])
}

/// What the first four pages of an image read as, once a journal was opened on it.
pub(crate) fn see_image(
    alloc: Global,
    disk: &MemoryDisk,
    moment: u64,
    pick: u64,
) -> Result<[Seen; 4], PageFault> {
    let Ok(mut image) = disk.crash(moment, pick) else {
        return Err(PageFault::Memory);
    };
    let journal = PageJournal::open(alloc, &mut image)?;
    see_all(alloc, &journal, &mut image)
}
