//! An open journal, by which pages are written and read.
ghost use Rattle.std.specs.Prelude.{◌≡◌, ◌⊎◌, ◌≤◌, ◌<◌, length, IfOk, IsTrue, OnOk};
ghost use Rattle.green_io.specs.Disk.{LeavesOnly, LeavesBut, Nothing, WhereTold};
ghost use Rattle.green_io.specs.Outside.{HasRisen};
ghost use Rattle.page_journal.specs.Answers.{OnDiskFault, OnMemory, IsPage};
ghost use Rattle.page_journal.specs.Images.{GivesEither, GivesAny, is_paged};
ghost use Rattle.page_journal.specs.JournalBytes.{AreWrites, writes_of};
ghost use Rattle.page_journal.specs.JournalView.{IsClean, IsUnfinished, IsLeft, AfterFinished};
ghost use Rattle.page_journal.specs.Pages.{Bytes, Writes, pages_of, home_after};

use crate::courses::{carry_out, finish};
use crate::page_fault::PageFault;
use crate::page_write::PageWrite;
use crate::phases::PAGE_STEP;
use crate::reading::read_range;
use crate::spelling::spell;
use crate::stage::Stage;
use febe_data::{List, Text};
use green_io::{Area, Disk};
use std::alloc::Global;
use std::marker::Model;

/// A journal that was opened over the pages of a disk.
///
/// It keeps the record of a commit that a fault of the disk has stopped, and in which stage. Contracts see both.
#[derive(Drop)]
pub struct PageJournal {
    pub(crate) stage: Stage,
    pub(crate) kept: Text,
}

impl Model for PageJournal {
    ghost use Rattle.page_journal.specs.JournalView.{JournalView};

    ghost Value = { JournalView };

    ghost view = { λ journal. record { stage = journal.stage; kept = journal.kept.items } };
}

impl PageJournal {
    /// Writes these pages, all or none, whatever a crash leaves. Where a page is given twice, the later bytes stay.
    ///
    /// A commit that a fault has stopped once its gate was written is first finished, from the stage in which it
    /// stopped; where that fails, nothing of these pages was written. A fault before that drops the commit. Memory is
    /// taken for the record alone, of 4,104 bytes a page, before anything is written; the disk is given one write of
    /// it, one for each page and two for the gate, and is synced four times.
    pub fn commit<D: Disk>(
        &mut self,
        alloc: Global,
        disk: &mut D,
        pages: &List<PageWrite>,
    ) -> Result<(), PageFault>
        requires { AreWrites (writes_of pages.now.items) }
        ensures any_moment { (home : Bytes) → IsClean (D.state disk.old) self.old home → LeavesOnly (D.state disk.old) (D.state disk.new) (GivesEither (pages_of home) (writes_of pages.now.items)) }
        ensures done { (home : Bytes) → IsClean (D.state disk.old) self.old home → OnOk result (IsClean (D.state disk.new) self.new (home_after (writes_of pages.now.items) home)) }
        ensures fails { (home : Bytes) → IsClean (D.state disk.old) self.old home → OnDiskFault result (IsLeft (D.state disk.new) self.new home (writes_of pages.now.items)) }
        ensures any_moment_resumed { (before : Bytes) (first : Writes) → IsUnfinished (D.state disk.old) self.old before first → LeavesOnly (D.state disk.old) (D.state disk.new) (GivesAny (pages_of before) first (writes_of pages.now.items)) }
        ensures done_resumed { (before : Bytes) (first : Writes) → IsUnfinished (D.state disk.old) self.old before first → OnOk result (AfterFinished before first (λ home. IsClean (D.state disk.new) self.new (home_after (writes_of pages.now.items) home))) }
        ensures fails_resumed { (before : Bytes) (first : Writes) → IsUnfinished (D.state disk.old) self.old before first → OnDiskFault result (IsUnfinished (D.state disk.new) self.new before first ⊎ AfterFinished before first (λ home. IsLeft (D.state disk.new) self.new home (writes_of pages.now.items))) }
        ensures refused { OnMemory result ((disk.new ≡ disk.old) × (self.new ≡ self.old)) }
        ensures log { LeavesBut is_paged (D.state disk.old) (D.state disk.new) }
        ensures never_falls { D.fault_count disk.old ≤ D.fault_count disk.new }
        ensures failed { OnDiskFault result (HasRisen (D.fault_count disk.old) (D.fault_count disk.new)) }
    {
        let pages = pages.as_slice();
        let Ok(record) = spell(alloc, pages) else {
            return Err(PageFault::Memory);
        };
        let kept = self.kept.as_slice();
        let Ok(()) = finish(disk, &mut self.stage, kept) else {
            return Err(PageFault::Disk);
        };
        self.kept = record;
        let record = self.kept.as_slice();
        let Ok(()) = carry_out(disk, &mut self.stage, record) else {
            return Err(PageFault::Disk);
        };
        // So that the next commit does not hold two records.
        self.kept = Text::new(alloc);
        Ok(())
    }

    /// Reads a page as it stands on the disk, and says whether it is there.
    ///
    /// Where it is, its bytes take the place of those that are given; else what was given is left. While a commit is
    /// unfinished it may read pages of which some bytes were written.
    pub fn read<D: Disk>(
        &self,
        disk: &mut D,
        number: u64,
        page: &mut Text,
    ) -> Result<bool, PageFault>
        ensures page { IfOk result (λ there. WhereTold (D.state disk.old).reads (λ areas. IsPage there page.new.items (pages_of areas.home number))) }
        ensures whole { IfOk result (λ there. WhereTold (D.state disk.old).reads (λ areas. IsTrue there → length page.new.items ≡ 4096)) }
        ensures reads { (D.state disk.new).reads ≡ (D.state disk.old).reads }
        ensures crash { LeavesOnly (D.state disk.old) (D.state disk.new) Nothing }
        ensures never_falls { D.fault_count disk.old ≤ D.fault_count disk.new }
        ensures failed { OnDiskFault result (HasRisen (D.fault_count disk.old) (D.fault_count disk.new)) }
    {
        let total = disk.length(Area::Home)?;
        let at = number.saturating_mul(PAGE_STEP);
        let left = total.saturating_sub(at);
        if left < PAGE_STEP {
            return Ok(false);
        }
        read_range(disk, Area::Home, at, PAGE_STEP, page)?;
        Ok(page.len() as u64 == PAGE_STEP)
    }
}
