//! Opening a journal.
ghost use Rattle.std.specs.Prelude.{◌≡◌, ◌≤◌, [], IfOk, OnOk, OnErr};
ghost use Rattle.green_io.specs.Areas.{Areas, is_same};
ghost use Rattle.green_io.specs.Disk.{LeavesOnly, LeavesBut, WhereTold, Nothing};
ghost use Rattle.green_io.specs.Outside.{HasRisen};
ghost use Rattle.page_journal.specs.Answers.{OnDiskFault};
ghost use Rattle.page_journal.specs.Images.{GivesSettled, AllHave, is_paged};
ghost use Rattle.page_journal.specs.JournalBytes.{replayed};
ghost use Rattle.page_journal.specs.JournalView.{IsClean, IsSettled};
ghost use Rattle.page_journal.specs.Pages.{home_after};
ghost use Rattle.page_journal.specs.inside.Opening.{AreAreas, IsGate, IsFound, IsRecordFound};

use crate::courses::lay;
use crate::journal::PageJournal;
use crate::page_fault::PageFault;
use crate::phases::RECORD_AT;
use crate::reading::read_range;
use crate::records::is_record;
use crate::stage::Stage;
use febe_data::{List, Text};
use green_io::{Area, Disk, DiskFailed, write_and_sync};
use std::alloc::Global;

/// What a gate is.
#[derive(Clone, Copy)]
enum Gate {
    /// It is 0.
    Shut,
    /// It is 1.
    Open,
    /// It is another byte, or none.
    Torn,
}

/// What a Journal was found to have at its front.
#[derive(Drop)]
enum Found {
    /// A gate that is 0.
    Shut,
    /// No gate, a gate that is neither 0 nor 1, or an open one without a whole record.
    Torn,
    /// An open gate and a whole record, and more bytes behind it where there are any.
    Open(Text),
}

/// Syncs the areas of the pages.
fn settle<D: Disk>(disk: &mut D) -> Result<(), DiskFailed>
    ensures settled { OnOk result (WhereTold (D.state disk.old).reads (λ areas. AllHave (D.state disk.new) (AreAreas areas))) }
    ensures reads { (D.state disk.new).reads ≡ (D.state disk.old).reads }
    ensures crash { LeavesOnly (D.state disk.old) (D.state disk.new) Nothing }
    ensures never_falls { D.fault_count disk.old ≤ D.fault_count disk.new }
    ensures failed { OnErr result (HasRisen (D.fault_count disk.old) (D.fault_count disk.new)) }
{
    disk.sync(Area::Home)?;
    disk.sync(Area::Journal)?;
    Ok(())
}

/// What a gate is that was read.
fn gate_of(front: &[u8]) -> Gate
    ensures { IsGate result front.now }
{
    match front.first() {
        Some(0) => Gate::Shut,
        Some(1) => Gate::Open,
        _ => Gate::Torn,
    }
}

/// Reads the gate of the Journal, and where it is open what stands from the record on.
fn find<D: Disk>(alloc: Global, disk: &mut D) -> Result<Found, PageFault>
    ensures found { IfOk result (λ found. WhereTold (D.state disk.old).reads (λ areas. IsFound found areas.journal)) }
    ensures reads { (D.state disk.new).reads ≡ (D.state disk.old).reads }
    ensures crash { LeavesOnly (D.state disk.old) (D.state disk.new) Nothing }
    ensures never_falls { D.fault_count disk.old ≤ D.fault_count disk.new }
    ensures failed { OnDiskFault result (HasRisen (D.fault_count disk.old) (D.fault_count disk.new)) }
{
    let mut gate = List::new(alloc);
    read_range(disk, Area::Journal, 0, 1, &mut gate)?;
    match gate_of(gate.as_slice()) {
        Gate::Shut => Ok(Found::Shut),
        Gate::Torn => Ok(Found::Torn),
        Gate::Open => find_record(alloc, disk),
    }
}

/// Reads what stands in the Journal from the record on, behind an open gate.
fn find_record<D: Disk>(alloc: Global, disk: &mut D) -> Result<Found, PageFault>
    ensures found { IfOk result (λ found. WhereTold (D.state disk.old).reads (λ areas. IsRecordFound found areas.journal)) }
    ensures reads { (D.state disk.new).reads ≡ (D.state disk.old).reads }
    ensures crash { LeavesOnly (D.state disk.old) (D.state disk.new) Nothing }
    ensures never_falls { D.fault_count disk.old ≤ D.fault_count disk.new }
    ensures failed { OnDiskFault result (HasRisen (D.fault_count disk.old) (D.fault_count disk.new)) }
{
    let mut kept = List::new(alloc);
    let total = disk.length(Area::Journal)?;
    let count = total.saturating_sub(RECORD_AT);
    read_range(disk, Area::Journal, RECORD_AT, count, &mut kept)?;
    if is_record(kept.as_slice()) {
        return Ok(Found::Open(kept));
    }
    Ok(Found::Torn)
}

/// Writes 0 to a gate at which nothing is laid over Home, and syncs the Journal.
fn close_torn<D: Disk>(disk: &mut D) -> Result<(), DiskFailed>
    ensures any_moment { (areas : Areas) → AllHave (D.state disk.old) (AreAreas areas) → replayed areas.journal ≡ [] → LeavesOnly (D.state disk.old) (D.state disk.new) (GivesSettled areas) }
    ensures closed { (areas : Areas) → AllHave (D.state disk.old) (AreAreas areas) → OnOk result (IsSettled (D.state disk.new) areas.home) }
    ensures others { LeavesBut (is_same Area.Journal) (D.state disk.old) (D.state disk.new) }
    ensures never_falls { D.fault_count disk.old ≤ D.fault_count disk.new }
    ensures failed { OnErr result (HasRisen (D.fault_count disk.old) (D.fault_count disk.new)) }
{
    write_and_sync(disk, Area::Journal, 0, &[0])
}

/// Closes the gate that was found, and lays staged pages over Home before.
fn close_found<D: Disk>(disk: &mut D, found: Found) -> Result<(), DiskFailed>
    ensures any_moment { (areas : Areas) → AllHave (D.state disk.old) (AreAreas areas) → IsFound found areas.journal → LeavesOnly (D.state disk.old) (D.state disk.new) (GivesSettled areas) }
    ensures settled { (areas : Areas) → AllHave (D.state disk.old) (AreAreas areas) → IsFound found areas.journal → OnOk result (IsSettled (D.state disk.new) (home_after (replayed areas.journal) areas.home)) }
    ensures others { LeavesBut is_paged (D.state disk.old) (D.state disk.new) }
    ensures never_falls { D.fault_count disk.old ≤ D.fault_count disk.new }
    ensures failed { OnErr result (HasRisen (D.fault_count disk.old) (D.fault_count disk.new)) }
{
    let mut stage = Stage::Writing;
    match found {
        Found::Shut => Ok(()),
        Found::Torn => close_torn(disk),
        Found::Open(kept) => lay(disk, &mut stage, kept.as_slice()),
    }
}

impl PageJournal {
    /// Makes the areas of the pages stable, and finishes a commit whose gate is open on the disk.
    ///
    /// Where the gate is 1 and a whole record stands behind it, its pages are laid over Home, and the gate is closed.
    /// An open gate with no whole record is treated as closed. A gate that is not a 0 that is there is written anew.
    pub fn open<D: Disk>(alloc: Global, disk: &mut D) -> Result<PageJournal, PageFault>
        ensures any_moment { WhereTold (D.state disk.old).reads (λ areas. LeavesOnly (D.state disk.old) (D.state disk.new) (GivesSettled areas)) }
        ensures stands { IfOk result (λ journal. WhereTold (D.state disk.old).reads (λ areas. IsClean (D.state disk.new) journal (home_after (replayed areas.journal) areas.home))) }
        ensures idle { IfOk result (λ journal. journal.stage ≡ Stage.Clean) }
        ensures log { LeavesBut is_paged (D.state disk.old) (D.state disk.new) }
        ensures never_falls { D.fault_count disk.old ≤ D.fault_count disk.new }
        ensures failed { OnDiskFault result (HasRisen (D.fault_count disk.old) (D.fault_count disk.new)) }
    {
        settle(disk)?;
        let found = find(alloc, disk)?;
        let Ok(()) = close_found(disk, found) else {
            return Err(PageFault::Disk);
        };
        let journal = PageJournal {
            stage: Stage::Clean,
            kept: List::new(alloc),
        };
        Ok(journal)
    }
}
