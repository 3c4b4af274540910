//! What a crash leaves of a disk in memory.
ghost use Rattle.std.specs.Prelude.{◌≡◌, ◌≤◌, [], None, length, min, take, reverse, IfOk};
ghost use Rattle.green_io.specs.Areas.{area_of};
ghost use Rattle.green_fakes.specs.DiskView.{bytes_after, areas_after};
ghost use Rattle.green_fakes.specs.DiskImages.{IsLeft, IsImage, synced_after, synced_areas, changes_until, state_of};

use crate::area_set::AreaSet;
use crate::change::Change;
use crate::disk::MemoryDisk;
use crate::replay::Replay;
use febe_data::{Generator, Memory};
use green_io::Area;
use std::alloc::Global;

impl MemoryDisk {
    /// What a crash leaves, after the first calls of this number, or all where there were fewer: a disk on which all is
    /// stable, and whose calls do not fail.
    ///
    /// With the pick 0 it leaves what the areas read then, with 1 what they held when they were last synced. Every
    /// other pick begins a [`Generator`] that fills each range that was not yet stable and chooses each area's end.
    #[tactic(auto, using(crate::proofs::Replays::image_until))]
    pub fn crash(&self, moment: u64, pick: u64) -> Result<MemoryDisk, Memory>
        ensures image { IfOk result (λ image. IsImage self.now.first (changes_until (min moment self.now.calls) self.now.changes) image.first) }
        ensures possible { IfOk result (λ image. (state_of self.now).images (min moment self.now.calls) image.first) }
        ensures as_read { pick ≡ 0 → IfOk result (λ image. image.first ≡ areas_after self.now.first (changes_until (min moment self.now.calls) self.now.changes)) }
        ensures as_synced { pick ≡ 1 → IfOk result (λ image. image.first ≡ synced_areas self.now.first (changes_until (min moment self.now.calls) self.now.changes)) }
        ensures stable { IfOk result (λ image. (image.changes ≡ []) × (image.calls ≡ 0) × (image.failing ≡ []) × (image.faults ≡ 0) × (image.shortages ≡ 0)) }
    {
        let changes = self.changes.as_slice();
        let (changes, _) = changes.split_at(count_until(changes, moment.min(self.calls)));
        let areas = crash_areas(self.alloc, &self.first, changes, pick)?;
        let disk = MemoryDisk::holding(self.alloc, areas)?;
        Ok(disk)
    }
}

// How many changes were made by the first calls of this number.
fn count_until(changes: &[Change], moment: u64) -> usize
    ensures within { result ≤ length changes.now }
    ensures until { reverse (take result changes.now) ≡ changes_until moment (reverse changes.now) }
{
    let mut count = changes.len();
    while count > 0 && changes[count - 1].before >= moment {
        count -= 1;
    }
    count
}

// What a crash leaves of all areas.
fn crash_areas(
    alloc: Global,
    first: &AreaSet,
    changes: &[Change],
    pick: u64,
) -> Result<AreaSet, Memory>
    ensures image { IfOk result (λ areas. IsImage first.now (reverse changes.now) areas) }
    ensures as_read { pick ≡ 0 → IfOk result (λ areas. areas ≡ areas_after first.now (reverse changes.now)) }
    ensures as_synced { pick ≡ 1 → IfOk result (λ areas. areas ≡ synced_areas first.now (reverse changes.now)) }
{
    if pick == 0 {
        return areas_as_read(alloc, first, changes);
    }
    if pick == 1 {
        return areas_left(alloc, first, changes, None);
    }
    areas_left(alloc, first, changes, Some(Generator::new(pick)))
}

// The changes of one area.
fn replay(
    alloc: Global,
    first: &AreaSet,
    changes: &[Change],
    area: Area,
    generator: &mut Option<Generator>,
) -> Result<Replay, Memory>
    ensures reads { IfOk result (λ replay. replay.reads ≡ bytes_after area (area_of area first.now) (reverse changes.now)) }
    ensures left { IfOk result (λ replay. IsLeft area (area_of area first.now) (reverse changes.now) replay.left) }
    ensures synced { generator.old ≡ None → IfOk result (λ replay. replay.left ≡ synced_after area (area_of area first.now) (reverse changes.now)) }
    ensures none { generator.old ≡ None → generator.new ≡ None }
{
    Replay::of(alloc, first.of(area), changes, area, generator)
}

fn areas_as_read(alloc: Global, first: &AreaSet, changes: &[Change]) -> Result<AreaSet, Memory>
    ensures image { IfOk result (λ areas. IsImage first.now (reverse changes.now) areas) }
    ensures reads { IfOk result (λ areas. areas ≡ areas_after first.now (reverse changes.now)) }
{
    let mut none = None;
    let log = replay(alloc, first, changes, Area::Log, &mut none)?;
    let home = replay(alloc, first, changes, Area::Home, &mut none)?;
    let journal = replay(alloc, first, changes, Area::Journal, &mut none)?;
    let second = replay(alloc, first, changes, Area::Second, &mut none)?;
    Ok(AreaSet {
        log: log.reads,
        home: home.reads,
        journal: journal.reads,
        second: second.reads,
    })
}

fn areas_left(
    alloc: Global,
    first: &AreaSet,
    changes: &[Change],
    generator: Option<Generator>,
) -> Result<AreaSet, Memory>
    ensures image { IfOk result (λ areas. IsImage first.now (reverse changes.now) areas) }
    ensures synced { generator ≡ None → IfOk result (λ areas. areas ≡ synced_areas first.now (reverse changes.now)) }
{
    let mut generator = generator;
    let log = replay(alloc, first, changes, Area::Log, &mut generator)?;
    let home = replay(alloc, first, changes, Area::Home, &mut generator)?;
    let journal = replay(alloc, first, changes, Area::Journal, &mut generator)?;
    let second = replay(alloc, first, changes, Area::Second, &mut generator)?;
    Ok(AreaSet {
        log: log.left,
        home: home.left,
        journal: journal.left,
        second: second.left,
    })
}
