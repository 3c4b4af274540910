//! A world's trees and tables are written to pages.
ghost use Rattle.std.specs.Prelude.{◌≡◌, ◌⊎◌, ◌≤◌, None, Option as OptionOf, OnOk, OnErr};
ghost use Rattle.green_io.specs.Disk.{LeavesOnly, LeavesBut};
ghost use Rattle.green_io.specs.Outside.{HasRisen};
ghost use Rattle.page_journal.specs.Answers.{OnDiskFault};
ghost use Rattle.page_journal.specs.Images.{is_paged};
ghost use Rattle.page_trees.specs.Trees.{HaveRoots};
ghost use Rattle.green_flush.specs.Sound.{AreSound};
ghost use Rattle.green_flush.specs.Loads.{TreesAt};
ghost use Rattle.green_flush.specs.Standing.{StandsOn, trees_at, LoadsOne, IsSaved, IsStopped};
ghost use Rattle.world_rules.specs.FlatView.{FlatView};
ghost use Rattle.tree_world.specs.Nodes.{nodes_in};
ghost use Rattle.tree_world.specs.Standing.{Stands};
ghost use Rattle.world_pages.specs.Pages.{pages_of_world};
ghost use Rattle.paged_world.specs.Standing.{StandFor, IsOfPlaced, HaveNodes, MayGoOn};

use crate::tables::tables_of;
use green_flush::Flush;
use green_io::Disk;
use page_journal::PageFault;
use page_tables::write_tables;
use std::alloc::Global;
use tree_world::TreeWorld;
use world_pages::laws::{roots_are_there, stored_are_sound};

/// The trees have their roots and pass the tests of loading. It takes no memory.
fn are_right(world: &TreeWorld)
    requires { (view : FlatView) × Stands world.now view × IsOfPlaced view }
    ensures roots { HaveRoots (pages_of_world world.now) }
    ensures sound { AreSound (pages_of_world world.now) }
    ensures stand { (view : FlatView) → Stands world.now view → StandFor (pages_of_world world.now) view.world }
{
    world.trees_are_sound();
    world.documents().in_order();
    world.links().in_order();
    let _contents = world.contents().mark();
    let _index = world.index().mark();
    let _ends = world.links().mark();
    roots_are_there();
    stored_are_sound();
}

/// Writes all trees and tables to pages, for so many entries of the log.
pub(crate) fn save<D: Disk>(
    world: &TreeWorld,
    alloc: Global,
    flush: &mut Flush,
    disk: &mut D,
    position: u64,
) -> Result<(), PageFault>
    requires { (view : FlatView) × Stands world.now view × IsOfPlaced view }
    ensures any_moment { (was now : OptionOf TreesAt) → StandsOn (D.state disk.old) flush.old was now → MayGoOn flush.old now (nodes_in world.now) → LeavesOnly (D.state disk.old) (D.state disk.new) (LoadsOne was now (trees_at (pages_of_world world.now) position)) }
    ensures done { (was now : OptionOf TreesAt) → StandsOn (D.state disk.old) flush.old was now → MayGoOn flush.old now (nodes_in world.now) → OnOk result (IsSaved (D.state disk.new) flush.new (trees_at (pages_of_world world.now) position)) }
    ensures fails { (was now : OptionOf TreesAt) → StandsOn (D.state disk.old) flush.old was now → MayGoOn flush.old now (nodes_in world.now) → OnErr result (IsStopped (D.state disk.new) flush.new was now (trees_at (pages_of_world world.now) position)) }
    ensures anew { OnErr result (((flush.new ≡ flush.old) × (disk.new ≡ disk.old)) ⊎ (flush.new.pages.kept ≡ None)) }
    ensures nodes { HaveNodes (pages_of_world world.now) (nodes_in world.now) }
    ensures stand { (view : FlatView) → Stands world.now view → StandFor (pages_of_world world.now) view.world }
    ensures others { LeavesBut is_paged (D.state disk.old) (D.state disk.new) }
    ensures never_falls { D.fault_count disk.old ≤ D.fault_count disk.new }
    ensures failed { OnDiskFault result (HasRisen (D.fault_count disk.old) (D.fault_count disk.new)) }
{
    are_right(world);
    let tables = tables_of(world, alloc)?;
    let bytes = write_tables(alloc, &tables)?;
    let links = world.links();
    flush.save(
        alloc,
        disk,
        world.contents(),
        world.pooms(),
        world.index(),
        links.index(1),
        links.index(2),
        links.index(3),
        &bytes,
        position,
    )
}
