//! The header of a save.
ghost use Rattle.std.specs.Prelude.{◌≡◌, ◌+◌, ◌-◌, ◌^◌, min, length, map, IfOk};
ghost use Rattle.page_journal.specs.JournalBytes.{writes_of};
ghost use Rattle.page_flush.specs.FlushView.{plain_stream, plain_streams, kept_pages, start_of};
ghost use Rattle.page_flush.specs.inside.Spells.{IsHeaderSpelled};

use crate::choosing::NUMBERS;
use crate::kept_stream::KeptStream;
use febe_data::{List, Memory};
use page_chains::{CHAINS, Start, spell_header};
use page_journal::PageWrite;
use std::alloc::Global;

/// What names a stream in a header.
fn start_of(stream: &KeptStream) -> Start
    ensures { result ≡ start_of (plain_stream stream.now) }
{
    let first = match stream.numbers.as_slice().first() {
        Some(number) => *number,
        None => 0,
    };
    Start {
        first,
        count: stream.count,
    }
}

/// What names these streams in a header.
fn starts_of(streams: &[KeptStream]) -> [Start; CHAINS]
    requires { length streams.now ≡ 7 }
    ensures { result ≡ map start_of (plain_streams streams.now) }
{
    let mut starts = [Start { first: 0, count: 0 }; CHAINS];
    for place in 0..CHAINS {
        starts[place] = start_of(&streams[place]);
    }
    starts
}

/// How many pages these streams have, and the header.
fn pages_in_use(streams: &[KeptStream]) -> u64
    ensures { result ≡ min (length (kept_pages (plain_streams streams.now)) + 1) (2 ^ 64 - 1) }
{
    let mut used: u64 = 1;
    for stream in streams {
        used = used.saturating_add(stream.numbers.len() as u64);
    }
    used
}

/// Page 0 alone, with the header of these streams at this position.
pub(crate) fn spell_page_zero(
    alloc: Global,
    position: u64,
    streams: &[KeptStream],
) -> Result<List<PageWrite>, Memory>
    requires { length streams.now ≡ 7 }
    ensures { IfOk result (λ pages. IsHeaderSpelled position (plain_streams streams.now) (writes_of pages.items)) }
{
    let used = pages_in_use(streams);
    if used > NUMBERS {
        return Err(Memory);
    }
    let bytes = spell_header(alloc, position, used, &starts_of(streams))?;
    let mut pages = List::new(alloc);
    pages.push(PageWrite { number: 0, bytes })?;
    Ok(pages)
}
