//! What the pages hold, and saves.
ghost use Rattle.std.specs.Prelude.{◌≡◌, ◌≤◌, true, false, [], None, length, ℕ, IfOk, OnOk, OnErr, is_some};
ghost use Rattle.green_io.specs.Disk.{LeavesOnly, LeavesBut};
ghost use Rattle.green_io.specs.Outside.{HasRisen};
ghost use Rattle.page_journal.specs.Answers.{OnDiskFault};
ghost use Rattle.page_journal.specs.Images.{is_paged};
ghost use Rattle.page_chains.specs.Reading.{plain_chains};
ghost use Rattle.page_saves.specs.Courses.{Saved, Kept};
ghost use Rattle.page_saves.specs.Resting.{RestsOn};
ghost use Rattle.page_flush.specs.FlushView.{AreKept, Knows, plain_streams};
ghost use Rattle.page_flush.specs.Saving.{MayBeGiven, save_of, GivesAny, IsSaved, IsStopped};

use crate::blank::begin;
use crate::kept_stream::KeptStream;
use crate::preparing::prepare;
use crate::spared::Spared;
use crate::stream_bytes::StreamBytes;
use febe_data::{List, Memory};
use green_io::Disk;
use page_chains::{CHAINS, Chain};
use page_journal::{PageFault, PageJournal};
use page_saves::write_all;
use std::alloc::Global;
use std::marker::Model;

/// An open journal, and what is known of the streams that its pages hold.
#[derive(Drop)]
pub struct PageFlush {
    journal: PageJournal,
    /// Page 0 has to be made blank before any other page is written.
    needs_blank: bool,
    /// The pages that a header which may be on the disk reaches.
    spared: Spared,
    /// The seven streams as the header on the disk has them, where the next save may go on from them.
    kept: Option<List<KeptStream>>,
}

impl Model for PageFlush {
    ghost use Rattle.page_flush.specs.FlushView.{FlushView, plain_kept};

    ghost Value = { FlushView };

    ghost view = { λ flush. record { journal = flush.journal; needs_blank = flush.needs_blank; spared = flush.spared; kept = plain_kept flush.kept } };
}

/// What is kept of the streams of these chains.
fn keep_chains(alloc: Global, chains: &[Chain]) -> Result<List<KeptStream>, Memory>
    ensures { IfOk result (λ streams. AreKept (plain_streams streams.items) (plain_chains chains.now)) }
{
    let mut streams = List::new(alloc);
    streams.reserve(chains.len())?;
    for chain in chains {
        streams.push_reserved(KeptStream::of_chain(alloc, chain)?);
    }
    Ok(streams)
}

impl PageFlush {
    /// Over pages without a header, or whose streams were put aside. The first save makes a blank start.
    pub fn aside(alloc: Global, journal: PageJournal) -> PageFlush
        ensures journal { result.journal ≡ journal }
        ensures needs_blank { result.needs_blank ≡ true }
        ensures spared { result.spared ≡ [] }
        ensures kept { result.kept ≡ None }
    {
        PageFlush {
            journal,
            needs_blank: true,
            spared: Spared::new(alloc),
            kept: None,
        }
    }

    /// Over pages whose header was read, with these chains. The first save may go on from them.
    pub fn going_on(
        alloc: Global,
        journal: PageJournal,
        chains: &[Chain],
    ) -> Result<PageFlush, Memory>
        ensures journal { IfOk result (λ flush. flush.journal ≡ journal) }
        ensures knows { IfOk result (λ flush. (position : ℕ) → Knows flush (Kept (plain_chains chains.now) position)) }
        ensures goes_on { IfOk result (λ flush. is_some flush.kept ≡ true) }
    {
        let streams = keep_chains(alloc, chains)?;
        let mut spared = Spared::new(alloc);
        spared.spare_streams(streams.as_slice())?;
        Ok(PageFlush {
            journal,
            needs_blank: false,
            spared,
            kept: Some(streams),
        })
    }

    /// Whether a save may be given what comes behind a stream alone.
    pub fn goes_on(&self) -> bool
        ensures { result ≡ is_some self.now.kept }
    {
        self.kept.is_some()
    }

    /// Lets the next save write each stream anew, on pages beside those that are there.
    pub fn renew(&mut self)
        ensures kept { self.new.kept ≡ None }
        ensures journal { self.new.journal ≡ self.old.journal }
        ensures needs_blank { self.new.needs_blank ≡ self.old.needs_blank }
        ensures spared { self.new.spared ≡ self.old.spared }
    {
        self.kept = None;
    }

    /// Saves the streams: their pages, and then the header that makes them count. Whatever a crash leaves, opening gives
    /// what was saved before, or what is saved now.
    ///
    /// Where page 0 is no header that was saved, it is made blank first. A stream that goes on is written from its last
    /// page on, and one that is given whole on fresh pages. After an error the next save may have to be given each
    /// stream whole, as `goes_on` tells. All memory but that of the commits is taken before anything is written. Page
    /// numbers end at 2^40: past that, and for a stream of 2^64 bytes, there is no memory.
    pub fn save<D: Disk>(
        &mut self,
        alloc: Global,
        disk: &mut D,
        given: &[StreamBytes; CHAINS],
        position: u64,
    ) -> Result<(), PageFault>
        requires { MayBeGiven self.old.kept given.now }
        ensures any_moment { (was saved : Saved) → RestsOn (D.state disk.old) self.old.journal was saved → Knows self.old saved → LeavesOnly (D.state disk.old) (D.state disk.new) (GivesAny (save_of was saved self.old given.now position)) }
        ensures done { (was saved : Saved) → RestsOn (D.state disk.old) self.old.journal was saved → Knows self.old saved → OnOk result (IsSaved (D.state disk.new) self.new (save_of was saved self.old given.now position)) }
        ensures fails { (was saved : Saved) → RestsOn (D.state disk.old) self.old.journal was saved → Knows self.old saved → OnErr result (IsStopped (D.state disk.new) self.new (save_of was saved self.old given.now position)) }
        ensures others { LeavesBut is_paged (D.state disk.old) (D.state disk.new) }
        ensures never_falls { D.fault_count disk.old ≤ D.fault_count disk.new }
        ensures failed { OnDiskFault result (HasRisen (D.fault_count disk.old) (D.fault_count disk.new)) }
    {
        let prepared = prepare(alloc, &self.spared, &self.kept, given, position)?;
        self.spared.spare_streams(prepared.streams.as_slice())?;
        self.kept = None;
        begin(&mut self.journal, &mut self.needs_blank, alloc, disk)?;
        write_all(
            &mut self.journal,
            alloc,
            disk,
            prepared.pages.as_slice(),
            &prepared.header,
        )?;
        self.spared = prepared.spared;
        self.kept = Some(prepared.streams);
        Ok(())
    }
}
