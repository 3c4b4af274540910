//! Headers that are there, and pages that are none.

use crate::pages::{EMPTY, Link, see, starts_of};
use febe_data::List;
use page_chains::{CHAINS, Header, Start, spell_header};
use page_journal::PageFault;
use std::alloc::Global;
use std::process::Abort;
use std::test::Fail;

/// The position of each header.
const POSITION: u64 = 300;

/// Two chains, the pages that are there, and how many pages each of the two chains is found to have.
#[derive(Clone, Copy)]
struct Row<'a> {
    first: Start,
    second: Start,
    links: &'a [Link],
    found: Option<(usize, usize)>,
}

/// A page of a chain.
const fn link(number: u64, next: u64) -> Link {
    Link { number, next }
}

/// Where a chain begins.
const fn start(first: u64, count: u64) -> Start {
    Start { first, count }
}

/// How many pages a chain of the header has.
fn pages_of(header: &Header, chain: usize) -> usize {
    match header.chains.get(chain) {
        Some(chain) => chain.numbers.len(),
        None => usize::MAX,
    }
}

/// Checks what is read of the pages of a row.
fn check_row(rt: &impl Abort, alloc: Global, row: Row<'_>) -> Result<(), Fail> {
    let starts = starts_of(row.first, row.second);
    let header = spell_header(alloc, POSITION, 3, &starts)?;
    let seen = see(alloc, List::new(alloc), header.as_slice(), row.links);
    let Ok(found) = seen else {
        assert!(rt; false, "a fault");
        return Ok(());
    };
    let counts = match &found {
        Some(header) => Some((pages_of(header, 0), pages_of(header, 1))),
        None => None,
    };
    assert!(rt; counts == row.found);
    Ok(())
}

/// Checks rows of two chains.
fn check_rows(rt: &impl Abort, alloc: Global, rows: &[Row<'_>]) -> Result<(), Fail> {
    for row in rows {
        check_row(rt, alloc, *row)?;
    }
    Ok(())
}

/// Seven empty streams, whatever pages they name first; a stream on two pages; two chains; and a last page that names
/// another one, since the stream of a save that did not end may go on there.
#[test]
fn headers_that_are_there(rt: HostRuntime) -> Result<(), Fail> {
    let two = [link(3, 1), link(1, 0), link(2, 0)];
    let more = [link(3, 1), link(1, 9)];
    check_rows(
        &rt,
        rt.alloc(),
        &[
            Row {
                first: EMPTY,
                second: EMPTY,
                links: &[],
                found: Some((0, 0)),
            },
            Row {
                first: start(3, 0),
                second: start(u64::MAX, 0),
                links: &[],
                found: Some((0, 0)),
            },
            Row {
                first: start(3, 5000),
                second: EMPTY,
                links: &two,
                found: Some((2, 0)),
            },
            Row {
                first: start(3, 8176),
                second: start(2, 1),
                links: &two,
                found: Some((2, 1)),
            },
            Row {
                first: start(3, 5000),
                second: EMPTY,
                links: &more,
                found: Some((2, 0)),
            },
        ],
    )
}

/// A page too few; a page that is not there; page 0, and a number that is not in use; circles; and a page in two chains.
#[test]
fn chains_that_are_none(rt: HostRuntime) -> Result<(), Fail> {
    let two = [link(3, 1), link(1, 0)];
    let circle = [link(3, 1), link(1, 3)];
    let gone = [link(3, 200)];
    check_rows(
        &rt,
        rt.alloc(),
        &[
            Row {
                first: start(3, 8177),
                second: EMPTY,
                links: &two,
                found: None,
            },
            Row {
                first: start(3, 5000),
                second: EMPTY,
                links: &gone,
                found: None,
            },
            Row {
                first: start(0, 1),
                second: EMPTY,
                links: &two,
                found: None,
            },
            Row {
                first: start(1 << 40, 1),
                second: EMPTY,
                links: &two,
                found: None,
            },
            Row {
                first: start(3, 9000),
                second: EMPTY,
                links: &circle,
                found: None,
            },
            Row {
                first: start(3, u64::MAX),
                second: EMPTY,
                links: &circle,
                found: None,
            },
            Row {
                first: start(3, 5000),
                second: start(1, 5),
                links: &two,
                found: None,
            },
        ],
    )
}

/// Whether a page is read as a header, of so many pages in use, with this first byte, and cut to so many bytes.
fn is_header(alloc: Global, used: u64, first: u8, count: usize) -> Result<bool, PageFault> {
    let mut page = spell_header(alloc, POSITION, used, &[EMPTY; CHAINS])?;
    page.as_mut_slice()[0] = first;
    page.truncate(count);
    let found = see(alloc, List::new(alloc), page.as_slice(), &[])?;
    Ok(found.is_some())
}

/// The mark, the number of pages in use and the length of page 0 make it a header, or none.
#[test]
fn pages_that_are_no_header(rt: HostRuntime) -> Result<(), Fail> {
    let rows = [
        (1u64 << 40, 71u8, 4096usize, true),
        ((1 << 40) + 1, 71, 4096, false),
        (3, 70, 4096, false),
        (3, 71, 4095, false),
        (3, 71, 0, false),
    ];
    for (used, first, count, wanted) in rows {
        let seen = is_header(rt.alloc(), used, first, count);
        assert!(&rt; seen == Ok(wanted), "at {used} {first} {count}");
    }
    Ok(())
}
