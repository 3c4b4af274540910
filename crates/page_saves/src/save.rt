//! A save's writes: its pages first, and then the page that makes them count.
ghost use Rattle.std.specs.Prelude.{◌≡◌, ◌⊎◌, ◌≤◌, map, OnOk, OnErr};
ghost use Rattle.std.specs.List.{AllByRecursion};
ghost use Rattle.green_io.specs.Disk.{LeavesOnly, LeavesBut};
ghost use Rattle.green_io.specs.Outside.{HasRisen};
ghost use Rattle.page_journal.specs.Answers.{OnDiskFault};
ghost use Rattle.page_journal.specs.Images.{is_paged};
ghost use Rattle.page_journal.specs.JournalBytes.{AreWrites, IsWrite, write_of, writes_of};
ghost use Rattle.page_saves.specs.Courses.{Saved, Leads, GivesOneOf, begun};
ghost use Rattle.page_saves.specs.Resting.{RestsOn, IsSettledOn};

use crate::commits::{commit_on, write_pages};
use febe_data::List;
use green_io::Disk;
use page_journal::{PageFault, PageJournal, PageWrite};
use std::alloc::Global;

/// Writes the pages of a save in commits of at most 1,024, and then the last page, the header, in a commit of its own.
///
/// Where the writes lead from what the pages hold to what they are to hold next, opening any image gives pages that hold
/// one of these, or what an earlier save left that was stopped. After an error the next save begins at what the pages then
/// hold. Memory is taken for one commit at a time.
pub fn write_all<D: Disk>(
    journal: &mut PageJournal,
    alloc: Global,
    disk: &mut D,
    pages: &[PageWrite],
    last: &List<PageWrite>,
) -> Result<(), PageFault>
    requires pages { AllByRecursion IsWrite (map write_of pages.now) }
    requires last { AreWrites (writes_of last.now.items) }
    ensures any_moment { (was saved next : Saved) → Leads saved (writes_of pages.now) (writes_of last.now.items) next → RestsOn (D.state disk.old) journal.old was saved → LeavesOnly (D.state disk.old) (D.state disk.new) (GivesOneOf was saved next) }
    ensures done { (was saved next : Saved) → Leads saved (writes_of pages.now) (writes_of last.now.items) next → RestsOn (D.state disk.old) journal.old was saved → OnOk result (IsSettledOn (D.state disk.new) journal.new (begun next)) }
    ensures fails { (was saved next : Saved) → Leads saved (writes_of pages.now) (writes_of last.now.items) next → RestsOn (D.state disk.old) journal.old was saved → OnErr result (RestsOn (D.state disk.new) journal.new was saved ⊎ RestsOn (D.state disk.new) journal.new saved next) }
    ensures others { LeavesBut is_paged (D.state disk.old) (D.state disk.new) }
    ensures never_falls { D.fault_count disk.old ≤ D.fault_count disk.new }
    ensures failed { OnDiskFault result (HasRisen (D.fault_count disk.old) (D.fault_count disk.new)) }
{
    write_pages(journal, alloc, disk, pages)?;
    commit_on(journal, alloc, disk, last)?;
    Ok(())
}
