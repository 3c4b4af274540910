//! What a store asks of a world that it keeps on pages.
ghost use Rattle.std.specs.Prelude.{◌≡◌, ◌⊎◌, ◌↔◌, ◌≤◌, IsTrue, false, None, Option as OptionOf, IfOk, OnOk, OnErr};
ghost use Rattle.green_io.specs.Disk.{LeavesOnly, LeavesBut};
ghost use Rattle.green_io.specs.Outside.{HasRisen};
ghost use Rattle.page_journal.specs.Answers.{OnDiskFault};
ghost use Rattle.page_journal.specs.Images.{is_paged};
ghost use Rattle.page_trees.specs.Trees.{PlainTrees};
ghost use Rattle.green_flush.specs.Loads.{TreesAt, AreLoaded};
ghost use Rattle.green_flush.specs.Standing.{StandsOn, trees_at, LoadsOne, IsSaved, IsStopped};
ghost use Rattle.world_rules.specs.FlatView.{FlatView};
ghost use Rattle.paged_world.specs.Standing.{StandFor, AreIn, IsOfPlaced, HaveNodes, MayGoOn};

use febe_data::Memory;
use green_flush::{Flush, Trees};
use green_io::Disk;
use page_journal::PageFault;
use std::alloc::Global;
use tree_world::{TreeWorld, Undo};

/// A world that is written to pages, and that goes on with trees which were read from them.
pub trait OnPages: Undo {
    /// Its trees and tables, as pages have them.
    ghost pages: { Self → PlainTrees };

    /// Writes all trees and tables to pages, for so many entries of the log. While it runs, opening and loading any image
    /// gives what was there before, or what an earlier save that stopped had found, or these trees. Where it fails, either
    /// nothing was done, or the next save writes every stream anew.
    fn save<D: Disk>(
        &self,
        alloc: Global,
        flush: &mut Flush,
        disk: &mut D,
        position: u64,
    ) -> Result<(), PageFault>
        requires { (view : FlatView) × Self.stands self.now view × IsOfPlaced view }
        ensures any_moment { (was now : OptionOf TreesAt) → StandsOn (D.state disk.old) flush.old was now → MayGoOn flush.old now (Self.world_nodes self.now) → LeavesOnly (D.state disk.old) (D.state disk.new) (LoadsOne was now (trees_at (pages self.now) position)) }
        ensures done { (was now : OptionOf TreesAt) → StandsOn (D.state disk.old) flush.old was now → MayGoOn flush.old now (Self.world_nodes self.now) → OnOk result (IsSaved (D.state disk.new) flush.new (trees_at (pages self.now) position)) }
        ensures fails { (was now : OptionOf TreesAt) → StandsOn (D.state disk.old) flush.old was now → MayGoOn flush.old now (Self.world_nodes self.now) → OnErr result (IsStopped (D.state disk.new) flush.new was now (trees_at (pages self.now) position)) }
        ensures anew { OnErr result (((flush.new ≡ flush.old) × (disk.new ≡ disk.old)) ⊎ (flush.new.pages.kept ≡ None)) }
        ensures nodes { HaveNodes (pages self.now) (Self.world_nodes self.now) }
        ensures stand { (view : FlatView) → Self.stands self.now view → StandFor (pages self.now) view.world }
        ensures others { LeavesBut is_paged (D.state disk.old) (D.state disk.new) }
        ensures never_falls { D.fault_count disk.old ≤ D.fault_count disk.new }
        ensures failed { OnDiskFault result (HasRisen (D.fault_count disk.old) (D.fault_count disk.new)) };

    /// Goes on with trees that were read, if they stand for the documents, rows, bytes and links that the world stands for,
    /// and tells whether they do. What is published, who has what open, the accounts and all counts stay: pages have none of
    /// these. Where they do not stand for these, or memory is refused, the world stays as it is. The time goes by the rows and
    /// the bytes of both.
    fn adopt(&mut self, alloc: Global, loaded: Trees) -> Result<bool, Memory>
        requires { (plain : PlainTrees) × AreLoaded loaded plain }
        ensures told { (plain : PlainTrees) (view : FlatView) → AreLoaded loaded plain → Self.stands self.old view → IfOk result (λ adopted. IsTrue adopted ↔ StandFor plain view.world) }
        ensures stands { (view : FlatView) → Self.stands self.old view → Self.stands self.new view }
        ensures nodes { (plain : PlainTrees) → AreLoaded loaded plain → IfOk result (λ adopted. IsTrue adopted → HaveNodes plain (Self.world_nodes self.new)) }
        ensures condition { (plain : PlainTrees) → AreLoaded loaded plain → IfOk result (λ adopted. IsTrue adopted → AreIn plain (Self.condition self.new)) }
        ensures as_it_was { IfOk result (λ adopted. adopted ≡ false → self.new ≡ self.old) }
        ensures err { OnErr result (self.new ≡ self.old) };
}

impl OnPages for TreeWorld {
    ghost use Rattle.world_pages.specs.Pages.{pages_of_world};

    ghost pages = { pages_of_world };

    fn save<D: Disk>(
        &self,
        alloc: Global,
        flush: &mut Flush,
        disk: &mut D,
        position: u64,
    ) -> Result<(), PageFault> {
        crate::saving::save(self, alloc, flush, disk, position)
    }

    fn adopt(&mut self, alloc: Global, loaded: Trees) -> Result<bool, Memory> {
        crate::adopting::adopt(self, alloc, loaded)
    }
}
