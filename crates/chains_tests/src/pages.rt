//! Pages that are put on a disk byte by byte, and the header that is read of them.

use febe_data::{List, Memory, Text};
use green_fakes::MemoryDisk;
use green_io::{Area, Disk};
use page_chains::{CHAINS, Header, Start, read_header};
use page_journal::{PageFault, PageJournal};
use std::alloc::Global;

/// How many bytes a page has.
pub(crate) const PAGE: u64 = 4096;

/// How many bytes of a stream a page has.
pub(crate) const BODY: usize = 4088;

/// A page of a chain. Each of its bytes of the stream is the last byte of its number.
#[derive(Clone, Copy)]
pub(crate) struct Link {
    /// Its number.
    pub(crate) number: u64,
    /// The number of the page that it names.
    pub(crate) next: u64,
}

/// Where the chain of an empty stream begins.
pub(crate) const EMPTY: Start = Start { first: 0, count: 0 };

/// The starts of two chains, and of five empty ones.
pub(crate) fn starts_of(first: Start, second: Start) -> [Start; CHAINS] {
    [first, second, EMPTY, EMPTY, EMPTY, EMPTY, EMPTY]
}

/// The bytes of a page of a chain.
fn link_bytes(alloc: Global, link: Link) -> Result<Text, Memory> {
    let mut page = List::from_slice(alloc, &link.next.to_be_bytes())?;
    page.extend_from_slice(&[(link.number % 256) as u8; BODY])?;
    Ok(page)
}

/// Puts a header and pages of chains into Home.
fn fill(
    alloc: Global,
    disk: &mut MemoryDisk,
    header: &[u8],
    links: &[Link],
) -> Result<(), PageFault> {
    disk.write(Area::Home, 0, header)?;
    for link in links {
        let page = link_bytes(alloc, *link)?;
        disk.write(
            Area::Home,
            link.number.saturating_mul(PAGE),
            page.as_slice(),
        )?;
    }
    Ok(())
}

/// Opens a journal over the pages of a disk, and reads their header.
pub(crate) fn open_and_read(
    alloc: Global,
    disk: &mut MemoryDisk,
) -> Result<Option<Header>, PageFault> {
    let journal = PageJournal::open(alloc, disk)?;
    read_header(&journal, alloc, disk)
}

/// What is read of a header and of pages of chains, where the calls of these numbers fail.
pub(crate) fn see(
    alloc: Global,
    failing: List<u64>,
    header: &[u8],
    links: &[Link],
) -> Result<Option<Header>, PageFault> {
    let mut disk = MemoryDisk::new(alloc, failing);
    fill(alloc, &mut disk, header, links)?;
    open_and_read(alloc, &mut disk)
}
