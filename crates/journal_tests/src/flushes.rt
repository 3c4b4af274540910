//! Saves of seven streams, and what is read of them.
//!
//! Five calls open a journal on an empty disk. The first save makes a blank start with the next eight, writes three pages
//! with ten more, and the header with eight.
ghost use Rattle.std.specs.Prelude.{IfOk};
ghost use Rattle.std.specs.List.{AllByRecursion};
ghost use Rattle.page_flush.specs.Saving.{IsWhole};

use febe_data::{List, Memory, Text};
use green_fakes::MemoryDisk;
use page_chains::{CHAINS, Header, read_header};
use page_flush::{PageFlush, StreamBytes};
use page_journal::{PageFault, PageJournal};
use std::alloc::Global;
use std::process::Abort;
use std::test::Fail;

/// The pages of a stream, and how many bytes it has.
#[derive(Clone, Copy)]
struct Wanted<'a> {
    numbers: &'a [u64],
    count: usize,
}

/// A stream on these pages.
const fn on_pages(numbers: &[u64], count: usize) -> Wanted<'_> {
    Wanted { numbers, count }
}

/// The bytes of a stream from one place to another.
fn part(alloc: Global, from: usize, to: usize) -> Result<Text, Memory> {
    let mut bytes = Text::new(alloc);
    for at in from..to {
        bytes.push((at % 251) as u8)?;
    }
    Ok(bytes)
}

/// Two streams of so many bytes, and five empty ones, each given whole.
fn whole(alloc: Global, first: usize, second: usize) -> Result<[StreamBytes; CHAINS], Memory>
    ensures { IfOk result (λ given. AllByRecursion IsWhole given) }
{
    let first = part(alloc, 0, first)?;
    let second = part(alloc, 0, second)?;
    Ok([
        StreamBytes::Anew(first),
        StreamBytes::Anew(second),
        StreamBytes::Anew(Text::new(alloc)),
        StreamBytes::Anew(Text::new(alloc)),
        StreamBytes::Anew(Text::new(alloc)),
        StreamBytes::Anew(Text::new(alloc)),
        StreamBytes::Anew(Text::new(alloc)),
    ])
}

/// What comes behind streams of 5,000, 10 and 0 bytes, so that they have 9,088, 10 and 5.
fn behind(alloc: Global) -> Result<[StreamBytes; CHAINS], Memory> {
    let first = part(alloc, 5000, 9088)?;
    let third = part(alloc, 0, 5)?;
    Ok([
        StreamBytes::More(first),
        StreamBytes::More(Text::new(alloc)),
        StreamBytes::More(third),
        StreamBytes::More(Text::new(alloc)),
        StreamBytes::More(Text::new(alloc)),
        StreamBytes::More(Text::new(alloc)),
        StreamBytes::More(Text::new(alloc)),
    ])
}

/// Whether a stream of the header is on these pages, and has these bytes.
fn is_there(
    alloc: Global,
    header: &Header,
    place: usize,
    stream: Wanted<'_>,
) -> Result<bool, Memory> {
    let Some(chain) = header.chains.get(place) else {
        return Ok(false);
    };
    let bytes = part(alloc, 0, stream.count)?;
    Ok(chain.numbers.as_slice() == stream.numbers && chain.bytes.as_slice() == bytes.as_slice())
}

/// Whether the disk has the first three streams at this position.
fn holds(
    alloc: Global,
    disk: &mut MemoryDisk,
    position: u64,
    streams: [Wanted<'_>; 3],
) -> Result<bool, PageFault> {
    let journal = PageJournal::open(alloc, disk)?;
    let Some(header) = read_header(&journal, alloc, disk)? else {
        return Ok(false);
    };
    let first = is_there(alloc, &header, 0, streams[0])?;
    let second = is_there(alloc, &header, 1, streams[1])?;
    let third = is_there(alloc, &header, 2, streams[2])?;
    Ok(header.position == position && first && second && third)
}

/// Saves streams, and then what comes behind them.
fn save_and_go_on(alloc: Global, disk: &mut MemoryDisk) -> Result<bool, PageFault> {
    let journal = PageJournal::open(alloc, disk)?;
    let mut flush = PageFlush::aside(alloc, journal);
    flush.save(alloc, disk, &whole(alloc, 5000, 10)?, 3)?;
    let streams = [
        on_pages(&[1, 2], 5000),
        on_pages(&[3], 10),
        on_pages(&[], 0),
    ];
    let first = holds(alloc, disk, 3, streams)?;
    if !flush.goes_on() {
        return Ok(false);
    }
    flush.save(alloc, disk, &behind(alloc)?, 8)?;
    let streams = [
        on_pages(&[1, 2, 4], 9088),
        on_pages(&[3], 10),
        on_pages(&[5], 5),
    ];
    let second = holds(alloc, disk, 8, streams)?;
    Ok(first && second)
}

/// A stream of two pages grows to three, one stays, and one is there that was empty.
#[test]
fn streams_that_go_on(rt: HostRuntime) -> Result<(), Fail> {
    let alloc = rt.alloc();
    let mut disk = MemoryDisk::new(alloc, List::new(alloc));
    let seen = save_and_go_on(alloc, &mut disk);
    assert!(&rt; seen == Ok(true));
    Ok(())
}

/// Saves streams, and then others, each anew, twice.
fn save_and_renew(alloc: Global, disk: &mut MemoryDisk) -> Result<bool, PageFault> {
    let journal = PageJournal::open(alloc, disk)?;
    let mut flush = PageFlush::aside(alloc, journal);
    flush.save(alloc, disk, &whole(alloc, 5000, 10)?, 3)?;
    flush.renew();
    let went_on = flush.goes_on();
    flush.save(alloc, disk, &whole(alloc, 4088, 4089)?, 4)?;
    let streams = [
        on_pages(&[4], 4088),
        on_pages(&[5, 6], 4089),
        on_pages(&[], 0),
    ];
    let second = holds(alloc, disk, 4, streams)?;
    flush.renew();
    flush.save(alloc, disk, &whole(alloc, 1, 16352)?, 5)?;
    let streams = [
        on_pages(&[1], 1),
        on_pages(&[2, 3, 7, 8], 16352),
        on_pages(&[], 0),
    ];
    let third = holds(alloc, disk, 5, streams)?;
    Ok(!went_on && second && third)
}

/// Streams that are written anew spare the pages of the last save, and take the lowest ones beside them.
#[test]
fn streams_that_are_renewed(rt: HostRuntime) -> Result<(), Fail> {
    let alloc = rt.alloc();
    let mut disk = MemoryDisk::new(alloc, List::new(alloc));
    let seen = save_and_renew(alloc, &mut disk);
    assert!(&rt; seen == Ok(true));
    Ok(())
}

/// Saves streams, which fails, and then others. Their pages are beside those of the save that failed.
fn fail_and_save(alloc: Global, disk: &mut MemoryDisk) -> Result<bool, PageFault> {
    let journal = PageJournal::open(alloc, disk)?;
    let mut flush = PageFlush::aside(alloc, journal);
    let failed = flush.save(alloc, disk, &whole(alloc, 5000, 10)?, 3);
    if failed != Err(PageFault::Disk) {
        return Ok(false);
    }
    if flush.goes_on() {
        return Ok(false);
    }
    flush.save(alloc, disk, &whole(alloc, 4089, 1)?, 4)?;
    let streams = [on_pages(&[4, 5], 4089), on_pages(&[6], 1), on_pages(&[], 0)];
    holds(alloc, disk, 4, streams)
}

/// A save behind one that failed, at each call of the disk in turn.
#[test]
fn a_save_behind_one_that_failed(rt: HostRuntime) -> Result<(), Fail> {
    let alloc = rt.alloc();
    for failing in 6..32 {
        let mut disk = MemoryDisk::new(alloc, List::from_slice(alloc, &[failing])?);
        let seen = fail_and_save(alloc, &mut disk);
        assert!(&rt; seen == Ok(true), "at {failing}");
    }
    Ok(())
}
