//! Headers and chains as bytes, and streams that are read as they were spelled.

use crate::pages::{EMPTY, PAGE, open_and_read, starts_of};
use febe_data::{List, Memory, Text};
use green_fakes::MemoryDisk;
use green_io::{Area, Disk};
use page_chains::{Header, Start, spell_chain, spell_header};
use page_journal::{PageFault, PageWrite};
use std::alloc::Global;
use std::process::Abort;
use std::test::Fail;

/// A header at position 300 with three pages in use, whose first chain has 5,000 bytes from page 7 on, and whose
/// second has one byte from page 258 on.
const HEADER: [u8; 56] = [
    71, 82, 69, 69, 78, 80, 71, 49, 0, 0, 0, 0, 0, 0, 1, 44, 0, 0, 0, 0, 0, 0, 0, 3, 0, 0, 0, 0, 0,
    0, 0, 7, 0, 0, 0, 0, 0, 0, 19, 136, 0, 0, 0, 0, 0, 0, 1, 2, 0, 0, 0, 0, 0, 0, 0, 1,
];

/// The header is spelled as the format says, and has zeros to its end.
#[test]
fn a_header_as_bytes(rt: HostRuntime) -> Result<(), Fail> {
    let first = Start {
        first: 7,
        count: 5000,
    };
    let second = Start {
        first: 258,
        count: 1,
    };
    let page = spell_header(rt.alloc(), 300, 3, &starts_of(first, second))?;
    let (front, zeros) = page.as_slice().split_at(56);
    assert!(&rt; front == HEADER.as_slice());
    assert!(&rt; zeros == [0; 4040].as_slice());
    Ok(())
}

/// The pages of a chain are spelled as the format says, and have zeros to their end.
#[test]
fn a_chain_as_bytes(rt: HostRuntime) -> Result<(), Fail> {
    let alloc = rt.alloc();
    let mut pages = List::new(alloc);
    spell_chain(alloc, &[258, 7], &[5; 4090], &mut pages)?;
    assert!(&rt; pages.len() == 2);
    let mut wanted = List::from_slice(alloc, &[0, 0, 0, 0, 0, 0, 0, 7])?;
    wanted.extend_from_slice(&[5; 4088])?;
    assert!(&rt; has_page(&pages, 0, 258, wanted.as_slice()));
    let mut last = List::from_slice(alloc, &[0, 0, 0, 0, 0, 0, 0, 0, 5, 5])?;
    last.extend_from_slice(&[0; 4086])?;
    assert!(&rt; has_page(&pages, 1, 7, last.as_slice()));
    Ok(())
}

/// Whether a page that is to be written has this number and these bytes.
fn has_page(pages: &List<PageWrite>, k: usize, number: u64, bytes: &[u8]) -> bool {
    match pages.get(k) {
        Some(page) => page.number == number && page.bytes.as_slice() == bytes,
        None => false,
    }
}

/// So many bytes, each one more than the one before it.
fn stream_of(alloc: Global, count: usize) -> Result<Text, Memory> {
    let mut stream = List::new(alloc);
    stream.reserve(count)?;
    for k in 0..count {
        stream.push((k % 251) as u8)?;
    }
    Ok(stream)
}

/// Puts pages into Home.
fn put(disk: &mut MemoryDisk, pages: &List<PageWrite>) -> Result<(), PageFault> {
    for page in pages.as_slice() {
        let at = page.number.saturating_mul(PAGE);
        disk.write(Area::Home, at, page.bytes.as_slice())?;
    }
    Ok(())
}

/// Puts a header and a chain on three pages on a disk, and reads them.
fn spell_and_read(
    alloc: Global,
    failing: List<u64>,
    stream: &[u8],
) -> Result<Option<Header>, PageFault> {
    let mut disk = MemoryDisk::new(alloc, failing);
    let start = Start {
        first: 5,
        count: stream.len() as u64,
    };
    let header = spell_header(alloc, 300, 4, &starts_of(start, EMPTY))?;
    disk.write(Area::Home, 0, header.as_slice())?;
    let mut pages = List::new(alloc);
    spell_chain(alloc, &[5, 2, 4], stream, &mut pages)?;
    put(&mut disk, &pages)?;
    open_and_read(alloc, &mut disk)
}

/// Whether a header at position 300 was read, whose first chain spells this stream on the pages 5, 2 and 4.
fn has_stream(found: Option<Header>, stream: &[u8]) -> bool {
    let Some(header) = found else {
        return false;
    };
    if header.position != 300 || header.chains.len() != 7 {
        return false;
    }
    match header.chains.get(0) {
        Some(chain) => chain.numbers.as_slice() == [5, 2, 4].as_slice()
            && chain.bytes.as_slice() == stream,
        None => false,
    }
}

/// A stream on three pages is read as it was spelled.
#[test]
fn a_stream_is_read_as_spelled(rt: HostRuntime) -> Result<(), Fail> {
    let alloc = rt.alloc();
    let stream = stream_of(alloc, 10_000)?;
    let seen = spell_and_read(alloc, List::new(alloc), stream.as_slice());
    let Ok(found) = seen else {
        assert!(&rt; false, "a fault");
        return Ok(());
    };
    assert!(&rt; has_stream(found, stream.as_slice()));
    Ok(())
}

/// Whether a call that fails is told, or comes after the last one.
fn is_told(alloc: Global, stream: &[u8], failing: u64) -> Result<bool, Memory> {
    let calls = List::from_slice(alloc, &[failing])?;
    Ok(match spell_and_read(alloc, calls, stream) {
        Ok(found) => has_stream(found, stream),
        Err(fault) => fault == PageFault::Disk,
    })
}

/// A disk that fails at any of its calls is never told as a header that is not there.
#[test]
fn faults_are_told(rt: HostRuntime) -> Result<(), Fail> {
    let alloc = rt.alloc();
    let stream = stream_of(alloc, 10_000)?;
    for failing in 1..24u64 {
        assert!(&rt; is_told(alloc, stream.as_slice(), failing)?, "at {failing}");
    }
    Ok(())
}
