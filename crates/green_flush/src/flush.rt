//! Saves of trees.
ghost use Rattle.std.specs.Prelude.{◌≡◌, ◌⊎◌, ℕ, ◌≤◌, true, None, Option as OptionOf, IfOk, OnOk, OnErr, is_some, length};
ghost use Rattle.green_io.specs.Disk.{LeavesOnly, LeavesBut};
ghost use Rattle.green_io.specs.Outside.{HasRisen};
ghost use Rattle.page_journal.specs.Answers.{OnDiskFault};
ghost use Rattle.page_journal.specs.Images.{is_paged};
ghost use Rattle.page_chains.specs.Reading.{plain_chains};
ghost use Rattle.page_flush.specs.FlushView.{Knows};
ghost use Rattle.page_flush.specs.Saving.{MayBeGiven, GivesAny, save_of};
ghost use Rattle.page_flush.specs.Saving as streams;
ghost use Rattle.page_saves.specs.Courses.{Saved, Kept};
ghost use Rattle.page_saves.specs.Resting.{RestsOn};
ghost use Rattle.page_trees.specs.Trees.{PlainTrees};
ghost use Rattle.green_flush.specs.inside.Finding.{put_aside};
ghost use Rattle.green_flush.specs.inside.Owning.{plain_owned};
ghost use Rattle.green_flush.specs.Loads.{TreesAt};
ghost use Rattle.green_flush.specs.Standing.{AreCounts, StandsOn, MayBeSaved, trees_at, LoadsOne, IsSaved, IsStopped, IsRenewed};
ghost use Rattle.green_flush.specs.inside.Streaming.{Continues, AreStreamsOf};

use crate::owned::Owned;
use enfilade_core::Arena;
use febe_data::{Memory, Text};
use granfilade::Granfilade;
use green_io::Disk;
use node_pages::{PagedPlane, append_nodes};
use page_chains::{CHAINS, Chain};
use page_flush::{PageFlush, StreamBytes};
use page_journal::{PageFault, PageJournal};
use poom::Poom;
use spanfilade::Spanfilade;
use std::alloc::Global;
use std::marker::Model;

/// How many nodes each arena has.
#[derive(Clone, Copy, Debug, PartialEq, Eq)]
pub struct NodeCounts {
    pub granfilade: u64,
    pub poom: u64,
    pub spanfilade: u64,
    pub from: u64,
    pub to: u64,
    pub three: u64,
}

impl NodeCounts {
    /// Those of these trees.
    fn of(
        granfilade: &Granfilade,
        poom: &Poom,
        spanfilade: &Spanfilade,
        from: &Spanfilade,
        to: &Spanfilade,
        three: &Spanfilade,
    ) -> NodeCounts
        ensures granfilade { result.granfilade ≡ length granfilade.now.nodes }
        ensures poom { result.poom ≡ length poom.now }
        ensures spanfilade { result.spanfilade ≡ length spanfilade.now.nodes }
        ensures from { result.from ≡ length from.now.nodes }
        ensures to { result.to ≡ length to.now.nodes }
        ensures three { result.three ≡ length three.now.nodes }
    {
        NodeCounts {
            granfilade: granfilade.parts().0.count(),
            poom: poom.arena().count(),
            spanfilade: spanfilade.parts().0.count(),
            from: from.parts().0.count(),
            to: to.parts().0.count(),
            three: three.parts().0.count(),
        }
    }
}

/// What is known of the trees that the pages hold, so that the next save may go on from them.
#[derive(Drop)]
pub struct Flush {
    pub(crate) pages: PageFlush,
    /// How many nodes the pages hold, where the next save goes on from them.
    pub(crate) counts: NodeCounts,
}

impl Model for Flush {
    ghost use Rattle.green_flush.specs.Standing.{FlushView};

    ghost Value = { FlushView };

    ghost view = { λ flush. record { pages = flush.pages; counts = flush.counts } };
}

/// The stream of an arena: its nodes from a number on where the stream goes on, or else all of them.
fn stream_of<P: PagedPlane>(
    alloc: Global,
    arena: &Arena<P>,
    goes_on: bool,
    saved: u64,
) -> Result<StreamBytes, Memory>
    ensures { IfOk result (λ given. Continues P.widths P.is_row P.row_bytes arena.now goes_on saved given) }
{
    // So each node has well formed children.
    let _alloc = arena.allocator();
    let mut bytes = Text::new(alloc);
    if goes_on {
        append_nodes(arena, saved, &mut bytes)?;
        return Ok(StreamBytes::More(bytes));
    }
    append_nodes(arena, 0, &mut bytes)?;
    Ok(StreamBytes::Anew(bytes))
}

impl Flush {
    /// Over pages that hold no trees.
    pub(crate) fn aside(alloc: Global, journal: PageJournal) -> Flush
        ensures { result.pages ≡ put_aside journal }
    {
        Flush {
            pages: PageFlush::aside(alloc, journal),
            counts: NodeCounts {
                granfilade: 0,
                poom: 0,
                spanfilade: 0,
                from: 0,
                to: 0,
                three: 0,
            },
        }
    }

    /// Over pages that hold these chains, which spell these trees.
    pub(crate) fn going_on(
        alloc: Global,
        journal: PageJournal,
        chains: &[Chain],
        trees: &Owned,
    ) -> Result<Flush, Memory>
        ensures journal { IfOk result (λ flush. flush.pages.journal ≡ journal) }
        ensures knows { IfOk result (λ flush. (position : ℕ) → Knows flush.pages (Kept (plain_chains chains.now) position)) }
        ensures goes_on { IfOk result (λ flush. is_some flush.pages.kept ≡ true) }
        ensures counts { IfOk result (λ flush. AreCounts flush.counts (plain_owned trees.now)) }
    {
        let pages = PageFlush::going_on(alloc, journal, chains)?;
        let counts = NodeCounts::of(
            &trees.granfilade,
            &trees.poom,
            &trees.spanfilade,
            &trees.from,
            &trees.to,
            &trees.three,
        );
        Ok(Flush { pages, counts })
    }

    /// What the next save gives for each stream.
    fn streams_of(
        &self,
        alloc: Global,
        granfilade: &Granfilade,
        poom: &Poom,
        spanfilade: &Spanfilade,
        from: &Spanfilade,
        to: &Spanfilade,
        three: &Spanfilade,
        tables: &Text,
    ) -> Result<[StreamBytes; CHAINS], Memory>
        ensures { IfOk result (λ given. AreStreamsOf (record { granfilade = granfilade.now.nodes; poom = poom.now; spanfilade = spanfilade.now.nodes; from = from.now.nodes; to = to.now.nodes; three = three.now.nodes }) tables.now.items (is_some self.now.pages.kept) self.now.counts given) }
    {
        let goes_on = self.pages.goes_on();
        let counts = self.counts;
        Ok([
            stream_of(alloc, granfilade.parts().0, goes_on, counts.granfilade)?,
            stream_of(alloc, poom.arena(), goes_on, counts.poom)?,
            stream_of(alloc, spanfilade.parts().0, goes_on, counts.spanfilade)?,
            stream_of(alloc, from.parts().0, goes_on, counts.from)?,
            stream_of(alloc, to.parts().0, goes_on, counts.to)?,
            stream_of(alloc, three.parts().0, goes_on, counts.three)?,
            StreamBytes::Anew(Text::from_slice(alloc, tables.as_slice())?),
        ])
    }

    /// Saves the streams. Where that fails, the next save has to write each anew.
    fn save_streams<D: Disk>(
        &mut self,
        alloc: Global,
        disk: &mut D,
        given: &[StreamBytes; CHAINS],
        position: u64,
    ) -> Result<(), PageFault>
        requires { MayBeGiven self.old.pages.kept given.now }
        ensures any_moment { (was saved : Saved) → RestsOn (D.state disk.old) self.old.pages.journal was saved → Knows self.old.pages saved → LeavesOnly (D.state disk.old) (D.state disk.new) (GivesAny (save_of was saved self.old.pages given.now position)) }
        ensures done { (was saved : Saved) → RestsOn (D.state disk.old) self.old.pages.journal was saved → Knows self.old.pages saved → OnOk result (streams.IsSaved (D.state disk.new) self.new.pages (save_of was saved self.old.pages given.now position)) }
        ensures fails { (was saved : Saved) → RestsOn (D.state disk.old) self.old.pages.journal was saved → Knows self.old.pages saved → OnErr result (streams.IsStopped (D.state disk.new) self.new.pages (save_of was saved self.old.pages given.now position)) }
        ensures anew { OnErr result (self.new.pages.kept ≡ None) }
        ensures others { LeavesBut is_paged (D.state disk.old) (D.state disk.new) }
        ensures never_falls { D.fault_count disk.old ≤ D.fault_count disk.new }
        ensures failed { OnDiskFault result (HasRisen (D.fault_count disk.old) (D.fault_count disk.new)) }
    {
        if let Err(fault) = self.pages.save(alloc, disk, given, position) {
            self.pages.renew();
            return Err(fault);
        }
        Ok(())
    }

    /// Writes all trees to pages, for so many entries of the log.
    ///
    /// Of each arena the nodes that came in since the last save are written behind those that the pages hold, or all of them
    /// after [`Flush::renew`] and after a save that failed; the tables are written whole. While it runs opening and loading any
    /// image gives what was held before, what an earlier save that stopped had found, or the trees that are given. Where it
    /// fails, nothing was done, or the next save writes every stream anew.
    pub fn save<D: Disk>(
        &mut self,
        alloc: Global,
        disk: &mut D,
        granfilade: &Granfilade,
        poom: &Poom,
        spanfilade: &Spanfilade,
        from: &Spanfilade,
        to: &Spanfilade,
        three: &Spanfilade,
        tables: &Text,
        position: u64,
    ) -> Result<(), PageFault>
        ensures any_moment { (was now : OptionOf TreesAt) (plain : PlainTrees) → StandsOn (D.state disk.old) self.old was now → MayBeSaved self.old now (record { granfilade = granfilade.now; poom = poom.now; spanfilade = spanfilade.now; from = from.now; to = to.now; three = three.now; tables = tables.now }) plain → LeavesOnly (D.state disk.old) (D.state disk.new) (LoadsOne was now (trees_at plain position)) }
        ensures done { (was now : OptionOf TreesAt) (plain : PlainTrees) → StandsOn (D.state disk.old) self.old was now → MayBeSaved self.old now (record { granfilade = granfilade.now; poom = poom.now; spanfilade = spanfilade.now; from = from.now; to = to.now; three = three.now; tables = tables.now }) plain → OnOk result (IsSaved (D.state disk.new) self.new (trees_at plain position)) }
        ensures fails { (was now : OptionOf TreesAt) (plain : PlainTrees) → StandsOn (D.state disk.old) self.old was now → MayBeSaved self.old now (record { granfilade = granfilade.now; poom = poom.now; spanfilade = spanfilade.now; from = from.now; to = to.now; three = three.now; tables = tables.now }) plain → OnErr result (IsStopped (D.state disk.new) self.new was now (trees_at plain position)) }
        ensures anew { OnErr result (((self.new ≡ self.old) × (disk.new ≡ disk.old)) ⊎ (self.new.pages.kept ≡ None)) }
        ensures others { LeavesBut is_paged (D.state disk.old) (D.state disk.new) }
        ensures never_falls { D.fault_count disk.old ≤ D.fault_count disk.new }
        ensures failed { OnDiskFault result (HasRisen (D.fault_count disk.old) (D.fault_count disk.new)) }
    {
        let given = self.streams_of(alloc, granfilade, poom, spanfilade, from, to, three, tables)?;
        self.save_streams(alloc, disk, &given, position)?;
        self.counts = NodeCounts::of(granfilade, poom, spanfilade, from, to, three);
        Ok(())
    }

    /// Lets the next save write every stream anew, as it must where nodes went or were renumbered. It takes no memory.
    pub fn renew(&mut self)
        ensures { IsRenewed self.old self.new }
    {
        self.pages.renew();
    }
}
