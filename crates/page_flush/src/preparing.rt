//! What a save is to write and to keep, before anything is written.
ghost use Rattle.std.specs.Prelude.{◌≡◌, length, IfOk};
ghost use Rattle.std.specs.List.{AllByRecursion};
ghost use Rattle.page_journal.specs.JournalBytes.{IsWrite, AreWrites, writes_of};
ghost use Rattle.page_flush.specs.FlushView.{plain_streams, plain_kept, kept_streams};
ghost use Rattle.page_flush.specs.inside.Spells.{IsPrepared};

use crate::header::spell_page_zero;
use crate::kept_stream::KeptStream;
use crate::spared::Spared;
use crate::spelling::{Draft, spell_streams};
use crate::stream_bytes::StreamBytes;
use febe_data::{List, Memory};
use page_chains::CHAINS;
use page_journal::PageWrite;
use std::alloc::Global;

/// What a save is to write, and what is to be kept once it is written.
#[derive(Drop)]
pub(crate) struct Prepared {
    /// The pages of its streams.
    pub(crate) pages: List<PageWrite>,
    /// The header, page 0 alone.
    pub(crate) header: List<PageWrite>,
    /// Its streams.
    pub(crate) streams: List<KeptStream>,
    /// Their pages.
    pub(crate) spared: Spared,
}

/// The streams that are kept, none where each is to be written anew.
fn kept_slice(kept: &Option<List<KeptStream>>) -> &[KeptStream]
    ensures { plain_streams result.now ≡ kept_streams (plain_kept kept.now) }
{
    match kept {
        Some(streams) => streams.as_slice(),
        None => &[],
    }
}

/// Takes all memory that a save needs beside that of its commits.
pub(crate) fn prepare(
    alloc: Global,
    spared: &Spared,
    kept: &Option<List<KeptStream>>,
    given: &[StreamBytes; CHAINS],
    position: u64,
) -> Result<Prepared, Memory>
    ensures spelled { IfOk result (λ prepared. IsPrepared spared.now (kept_streams (plain_kept kept.now)) given.now position (plain_streams prepared.streams.items) prepared.spared (writes_of prepared.pages.items) (writes_of prepared.header.items)) }
    ensures pages { IfOk result (λ prepared. AllByRecursion IsWrite (writes_of prepared.pages.items)) }
    ensures header { IfOk result (λ prepared. AreWrites (writes_of prepared.header.items)) }
{
    let mut draft = Draft {
        pages: List::new(alloc),
        next: 1,
    };
    let streams = spell_streams(alloc, spared, &mut draft, kept_slice(kept), given)?;
    let header = spell_page_zero(alloc, position, streams.as_slice())?;
    let mut reached = Spared::new(alloc);
    reached.spare_streams(streams.as_slice())?;
    Ok(Prepared {
        pages: draft.pages,
        header,
        streams,
        spared: reached,
    })
}
