//! The pages that spell the streams of a save.
ghost use Rattle.std.specs.Prelude.{◌≡◌, [], length, IfOk, IsTrue};
ghost use Rattle.std.specs.List.{slice_get};
ghost use Rattle.page_journal.specs.JournalBytes.{writes_of};
ghost use Rattle.page_chains.specs.Spelled.{AreInUse};
ghost use Rattle.page_flush.specs.FlushView.{plain_stream, plain_streams};
ghost use Rattle.page_flush.specs.inside.Spells.{IsSpelled, GoesOnSpelled, IsOneSpelled, AreSpelled};

use crate::choosing::{NUMBERS, choose};
use crate::kept_stream::{BODY_BYTES, KeptStream, last_page};
use crate::spared::Spared;
use crate::stream_bytes::StreamBytes;
use febe_data::{List, Memory, Text};
use page_chains::spell_chain;
use page_journal::PageWrite;
use std::alloc::Global;

/// The pages that a save writes, so far.
#[derive(Drop)]
pub(crate) struct Draft {
    /// The pages, in the order in which they are written.
    pub(crate) pages: List<PageWrite>,
    /// Fresh pages are chosen from this number on.
    pub(crate) next: u64,
}

/// Whether each is a number that a page of a chain may have.
fn are_in_use(numbers: &[u64]) -> bool
    ensures { IsTrue result → AreInUse numbers.now }
{
    for number in numbers {
        if *number == 0 {
            return false;
        }
        if *number >= NUMBERS {
            return false;
        }
    }
    true
}

/// Adds the pages of a stream of so many bytes, and says what is to be kept of it.
///
/// It keeps the pages that it had. The bytes are those of the last of these, and those behind. There is no memory where
/// all pages are in use.
fn spell_stream(
    alloc: Global,
    spared: &Spared,
    draft: &mut Draft,
    had: &[u64],
    bytes: &[u8],
    count: u64,
) -> Result<KeptStream, Memory>
    ensures { IfOk result (λ stream. IsSpelled spared.now draft.old.next draft.new.next had.now bytes.now count (plain_stream stream) (writes_of draft.old.pages.items) (writes_of draft.new.pages.items)) }
{
    let front = had.len().saturating_sub(1);
    let mut numbers = List::from_slice(alloc, had)?;
    let wanted = bytes.len().div_ceil(BODY_BYTES);
    let fresh = wanted.saturating_sub(had.len().saturating_sub(front));
    choose(spared, &mut draft.next, fresh, &mut numbers)?;
    let written = numbers.as_slice().split_at(front.min(numbers.len())).1;
    if !are_in_use(written) {
        return Err(Memory);
    }
    spell_chain(alloc, written, bytes, &mut draft.pages)?;
    let last = last_page(alloc, written.len(), bytes)?;
    Ok(KeptStream {
        numbers,
        count,
        last,
    })
}

/// Adds the pages of a stream that goes on: its last page with what it has in front, and fresh ones behind it.
fn spell_more(
    alloc: Global,
    spared: &Spared,
    draft: &mut Draft,
    stream: &KeptStream,
    more: &[u8],
) -> Result<KeptStream, Memory>
    ensures { IfOk result (λ longer. GoesOnSpelled spared.now draft.old.next draft.new.next (plain_stream stream.now) more.now (plain_stream longer) (writes_of draft.old.pages.items) (writes_of draft.new.pages.items)) }
{
    let mut bytes = Text::from_slice(alloc, stream.last.as_slice())?;
    bytes.extend_from_slice(more)?;
    let Some(count) = stream.count.checked_add(more.len() as u64) else {
        return Err(Memory);
    };
    spell_stream(
        alloc,
        spared,
        draft,
        stream.numbers.as_slice(),
        bytes.as_slice(),
        count,
    )
}

/// Adds the pages of one stream. It goes on from the kept one of its place, if there is one.
fn spell_given(
    alloc: Global,
    spared: &Spared,
    draft: &mut Draft,
    kept: &[KeptStream],
    place: usize,
    given: &StreamBytes,
) -> Result<KeptStream, Memory>
    ensures { IfOk result (λ stream. IsOneSpelled spared.now draft.old.next draft.new.next (slice_get (plain_streams kept.now) place) given.now (plain_stream stream) (writes_of draft.old.pages.items) (writes_of draft.new.pages.items)) }
{
    match given {
        StreamBytes::Anew(bytes) => {
            let bytes = bytes.as_slice();
            spell_stream(alloc, spared, draft, &[], bytes, bytes.len() as u64)
        }
        StreamBytes::More(bytes) => {
            let bytes = bytes.as_slice();
            match kept.get(place) {
                Some(stream) => spell_more(alloc, spared, draft, stream, bytes),
                None => spell_stream(alloc, spared, draft, &[], bytes, bytes.len() as u64),
            }
        }
    }
}

/// Adds the pages of these streams, and says what is to be kept of them.
pub(crate) fn spell_streams(
    alloc: Global,
    spared: &Spared,
    draft: &mut Draft,
    kept: &[KeptStream],
    given: &[StreamBytes],
) -> Result<List<KeptStream>, Memory>
    ensures { IfOk result (λ streams. AreSpelled spared.now draft.old.next draft.new.next (plain_streams kept.now) given.now (plain_streams streams.items) (writes_of draft.old.pages.items) (writes_of draft.new.pages.items)) }
{
    let mut streams = List::new(alloc);
    streams.reserve(given.len())?;
    for place in 0..given.len() {
        let stream = spell_given(alloc, spared, draft, kept, place, &given[place])?;
        streams.push_reserved(stream);
    }
    Ok(streams)
}
