//! A disk in memory.
ghost use Rattle.std.specs.Prelude.{◌≡◌, ◌≤◌, ◌⊎◌, ℕ, [], ◌++◌, length, take, drop, IfOk, OnOk, OnErr};
ghost use Rattle.green_io.specs.Areas.{area_of};
ghost use Rattle.tumbler.specs.ListView.{ListView};
ghost use Rattle.green_fakes.specs.declared.change.Step;
ghost use Rattle.green_fakes.specs.MemoryView.{answer_of_count};
ghost use Rattle.green_fakes.specs.DiskView.{areas_of, next_turn, counted, with_fault, with_shortage, with_change, after_look, Looks, IsLength, IsRead, IsUnread, given, Writes, Cuts, Syncs};
ghost use Rattle.green_fakes.specs.DiskImages.{state_of};
ghost use Rattle.green_fakes.specs.DiskLaws.{images_are_a_disks};

use crate::area_set::AreaSet;
use crate::change::{Change, Step};
use crate::turn::{Turn, next_turn};
use febe_data::{List, Memory};
use green_io::{Area, Disk, DiskFailed, ReadAnswer};
use std::alloc::Global;
use std::marker::Model;

/// A disk that keeps its areas in memory, and notes what its calls do, so that it can be asked what a crash leaves.
///
/// Each call is a moment, also one that failed or has only read. Contracts see what the areas held at first, what the
/// calls have done to them, the calls that fail, and how many failed for want of memory.
#[derive(Drop)]
pub struct MemoryDisk {
    pub(crate) alloc: Global,
    pub(crate) first: AreaSet,
    areas: AreaSet,
    pub(crate) changes: List<Change>,
    failing: List<u64>,
    pub(crate) calls: u64,
    faults: u64,
    shortages: u64,
}

impl Model for MemoryDisk {
    ghost use Rattle.std.specs.Prelude.{◌≡◌, reverse};
    ghost use Rattle.green_fakes.specs.DiskView.{DiskView, areas_after};

    ghost Value = { DiskView };

    ghost view = { λ disk. record { first = disk.first; changes = reverse disk.changes.items; calls = disk.calls; failing = disk.failing.items; faults = disk.faults; shortages = disk.shortages } };

    ghost invariant = { λ disk. disk.areas ≡ areas_after disk.first (reverse disk.changes.items) };
}

impl MemoryDisk {
    /// A disk with empty areas, whose calls fail by `failing`, a list of numbers of calls. The first call has the
    /// number 1.
    pub fn new(alloc: Global, failing: List<u64>) -> MemoryDisk
        ensures { result ≡ record { first = record { log = []; home = []; journal = []; second = [] }; changes = []; calls = 0; failing = failing.items; faults = 0; shortages = 0 } }
    {
        MemoryDisk {
            alloc,
            first: AreaSet::new(alloc),
            areas: AreaSet::new(alloc),
            changes: List::new(alloc),
            failing,
            calls: 0,
            faults: 0,
            shortages: 0,
        }
    }

    /// A disk with these areas, of which everything is stable, and whose calls do not fail.
    pub(crate) fn holding(alloc: Global, areas: AreaSet) -> Result<MemoryDisk, Memory>
        ensures { IfOk result (λ disk. disk ≡ record { first = areas; changes = []; calls = 0; failing = []; faults = 0; shortages = 0 }) }
    {
        let first = areas.copy(alloc)?;
        Ok(MemoryDisk {
            alloc,
            first,
            areas,
            changes: List::new(alloc),
            failing: List::new(alloc),
            calls: 0,
            faults: 0,
            shortages: 0,
        })
    }

    /// What the area reads. It is no call of the disk.
    pub fn area(&self, area: Area) -> &[u8]
        ensures { result.now ≡ area_of area (areas_of self.now) }
    {
        self.areas.of(area)
    }

    /// How many calls failed for want of memory. Each is among the faults too, and the count stops at the greatest
    /// number.
    pub fn shortages(&self) -> u64
        ensures { result ≡ self.now.shortages }
    {
        self.shortages
    }

    // Counts a call.
    fn turn(&mut self) -> Turn
        ensures turn { result ≡ next_turn self.old }
        ensures counted { self.new ≡ counted self.old }
        ensures later { self.old.calls ≤ self.new.calls }
    {
        next_turn(&mut self.calls, self.failing.as_slice())
    }

    // Counts a fault.
    fn fault(&mut self) -> DiskFailed
        ensures counted { self.new ≡ with_fault self.old }
        ensures never_falls { self.old.faults ≤ self.new.faults }
    {
        self.faults = self.faults.saturating_add(1);
        DiskFailed
    }

    // Counts a fault for want of memory.
    fn shortage(&mut self) -> DiskFailed
        ensures counted { self.new ≡ with_shortage self.old }
        ensures never_falls { self.old.faults ≤ self.new.faults }
    {
        self.shortages = self.shortages.saturating_add(1);
        self.fault()
    }

    // Notes a step that leaves what the areas read.
    fn note(&mut self, before: u64, area: Area, step: Step) -> Result<(), Memory>
        requires { IsUnread step }
        ensures noted { OnOk result (self.new ≡ with_change self.old before area step) }
        ensures stays { OnErr result (self.new ≡ self.old) }
    {
        self.changes.push(Change { before, area, step })?;
        Ok(())
    }

    // Writes, and notes it.
    fn note_write(&mut self, before: u64, area: Area, at: u64, bytes: &[u8]) -> Result<(), Memory>
        ensures written { OnOk result ((text : ListView ℕ) × (text.items ≡ bytes.now) × (self.new ≡ with_change self.old before area (Step.Write at text))) }
        ensures stays { OnErr result (self.new ≡ self.old) }
    {
        let text = List::from_slice(self.alloc, bytes)?;
        self.changes.reserve(1)?;
        self.areas.write(area, at, bytes)?;
        let step = Step::Write { at, bytes: text };
        self.changes.push_reserved(Change { before, area, step });
        Ok(())
    }

    // Cuts, and notes it.
    fn note_cut(&mut self, before: u64, area: Area, length: u64) -> Result<(), Memory>
        ensures done { OnOk result (self.new ≡ with_change self.old before area (Step.Cut length)) }
        ensures stays { OnErr result (self.new ≡ self.old) }
    {
        self.changes.reserve(1)?;
        self.areas.cut(area, length);
        let step = Step::Cut { length };
        self.changes.push_reserved(Change { before, area, step });
        Ok(())
    }

    // Fails a call that was to fail, and notes what it was to do.
    fn fail(&mut self, before: u64, area: Area, step: Step) -> DiskFailed
        requires { IsUnread step }
        ensures { (self.new ≡ with_fault (with_change self.old before area step)) ⊎ (self.new ≡ with_shortage self.old) }
    {
        let Ok(()) = self.note(before, area, step) else {
            return self.shortage();
        };
        self.fault()
    }

    // Counts a call that only looks, and its fault where it fails.
    fn look(&mut self) -> Result<(), DiskFailed>
        ensures answer { Looks (next_turn self.old) result }
        ensures disk { self.new ≡ after_look self.old }
        ensures later { self.old.calls ≤ self.new.calls }
        ensures never_falls { self.old.faults ≤ self.new.faults }
    {
        match self.turn() {
            Turn::Succeeds => Ok(()),
            Turn::Fails => Err(self.fault()),
            Turn::Over => Err(self.fault()),
        }
    }

    /// What [`Disk::length`] does here.
    pub fn count_bytes(&mut self, area: Area) -> Result<u64, DiskFailed>
        ensures answer { IsLength (next_turn self.old) (length (area_of area (areas_of self.old))) result }
        ensures disk { self.new ≡ after_look self.old }
        ensures later { self.old.calls ≤ self.new.calls }
        ensures never_falls { self.old.faults ≤ self.new.faults }
    {
        self.look()?;
        Ok(self.areas.of(area).len() as u64)
    }

    /// What [`Disk::read`] does here: it gives all bytes that are there, where there is room for them.
    pub fn read_bytes(&mut self, area: Area, at: u64, into: &mut [u8]) -> ReadAnswer
        ensures answer { IsRead (next_turn self.old) at (area_of area (areas_of self.old)) into.old into.new result }
        ensures disk { self.new ≡ after_look self.old }
        ensures later { self.old.calls ≤ self.new.calls }
        ensures never_falls { self.old.faults ≤ self.new.faults }
    {
        let Ok(()) = self.look() else {
            return ReadAnswer::Failed;
        };
        copy_from(self.areas.of(area), at, into)
    }

    /// What [`Disk::write`] does here: it writes in place. It fails where its number is listed, and a crash may then
    /// leave any part of it; or for want of memory, and nothing is done.
    pub fn write_bytes(&mut self, area: Area, at: u64, bytes: &[u8]) -> Result<(), DiskFailed>
        ensures answer { Writes self.old self.new area at bytes.now result }
        ensures later { self.old.calls ≤ self.new.calls }
        ensures never_falls { self.old.faults ≤ self.new.faults }
    {
        let before = self.calls;
        match self.turn() {
            Turn::Succeeds => {
                let Ok(()) = self.note_write(before, area, at, bytes) else {
                    return Err(self.shortage());
                };
                Ok(())
            }
            Turn::Fails => {
                let count = bytes.len();
                Err(self.fail(before, area, Step::FailedWrite { at, count }))
            }
            Turn::Over => Err(self.fault()),
        }
    }

    /// What [`Disk::cut`] does here. It fails where its number is listed, and a crash may then leave any part of it;
    /// or for want of memory to note it, and nothing is done.
    pub fn cut_bytes(&mut self, area: Area, length: u64) -> Result<(), DiskFailed>
        ensures answer { Cuts self.old self.new area length result }
        ensures later { self.old.calls ≤ self.new.calls }
        ensures never_falls { self.old.faults ≤ self.new.faults }
    {
        let before = self.calls;
        match self.turn() {
            Turn::Succeeds => {
                let Ok(()) = self.note_cut(before, area, length) else {
                    return Err(self.shortage());
                };
                Ok(())
            }
            Turn::Fails => Err(self.fail(before, area, Step::FailedCut { length })),
            Turn::Over => Err(self.fault()),
        }
    }

    /// What [`Disk::sync`] does here. It fails where its number is listed, or for want of memory to note it, and
    /// nothing is done.
    pub fn make_stable(&mut self, area: Area) -> Result<(), DiskFailed>
        ensures answer { Syncs self.old self.new area result }
        ensures later { self.old.calls ≤ self.new.calls }
        ensures never_falls { self.old.faults ≤ self.new.faults }
    {
        let before = self.calls;
        match self.turn() {
            Turn::Succeeds => {
                let Ok(()) = self.note(before, area, Step::Sync) else {
                    return Err(self.shortage());
                };
                Ok(())
            }
            Turn::Fails => Err(self.fault()),
            Turn::Over => Err(self.fault()),
        }
    }
}

/// Copies as many bytes from `at` on as there are and find room.
fn copy_from(bytes: &[u8], at: u64, into: &mut [u8]) -> ReadAnswer
    ensures answer { result ≡ answer_of_count (given at bytes.now into.old) }
    ensures bytes { let count = given at bytes.now into.old in into.new ≡ take count (drop at bytes.now) ++ drop count into.old }
{
    let at = bytes.len().min(at as usize);
    let (_, rest) = bytes.split_at(at);
    let count = into.len().min(rest.len());
    if count == 0 {
        return ReadAnswer::End;
    }
    into[..count].copy_from_slice(rest.split_at(count).0);
    ReadAnswer::Got(count)
}

impl Disk for MemoryDisk {
    ghost state = { state_of };

    ghost fault_count = { λ disk. disk.faults };

    ghost is_disk = { images_are_a_disks };

    fn faults(&self) -> u64 {
        self.faults
    }

    fn length(&mut self, area: Area) -> Result<u64, DiskFailed> {
        self.count_bytes(area)
    }

    fn read(&mut self, area: Area, at: u64, into: &mut [u8]) -> ReadAnswer {
        self.read_bytes(area, at, into)
    }

    fn write(&mut self, area: Area, at: u64, bytes: &[u8]) -> Result<(), DiskFailed> {
        self.write_bytes(area, at, bytes)
    }

    fn cut(&mut self, area: Area, length: u64) -> Result<(), DiskFailed> {
        self.cut_bytes(area, length)
    }

    fn sync(&mut self, area: Area) -> Result<(), DiskFailed> {
        self.make_stable(area)
    }
}
