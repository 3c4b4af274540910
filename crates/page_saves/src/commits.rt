//! The commits of a save.
ghost use Rattle.std.specs.Prelude.{◌≡◌, ◌⊎◌, ◌≤◌, map, [], IfOk, OnOk, OnErr};
ghost use Rattle.std.specs.List.{AllByRecursion};
ghost use Rattle.green_io.specs.Disk.{LeavesOnly, LeavesBut};
ghost use Rattle.green_io.specs.Outside.{HasRisen};
ghost use Rattle.page_journal.specs.Answers.{OnDiskFault};
ghost use Rattle.page_journal.specs.Images.{is_paged};
ghost use Rattle.page_journal.specs.JournalBytes.{AreWrites, IsWrite, write_of, writes_of};
ghost use Rattle.page_saves.specs.Courses.{Saved, Course, Lead, LeadsEach, GivesOne};
ghost use Rattle.page_saves.specs.Resting.{Rests, RestsOn, RestsAfter, IsSettledOn};
ghost use Rattle.page_saves.specs.inside.OneCommit.{GivesCourse};

use febe_data::{List, Memory, Text};
use green_io::Disk;
use page_journal::{PageFault, PageJournal, PageWrite};
use std::alloc::Global;

/// The most pages that one commit writes.
const MOST_PAGES: usize = 1024;

/// A page with the same number and bytes.
fn copy_page(alloc: Global, page: &PageWrite) -> Result<PageWrite, Memory>
    ensures { IfOk result (λ copy. write_of copy ≡ write_of page.now) }
{
    let bytes = Text::from_slice(alloc, page.bytes.as_slice())?;
    Ok(PageWrite {
        number: page.number,
        bytes,
    })
}

/// A list of the same pages, as a commit wants it.
fn copy_pages(alloc: Global, pages: &[PageWrite]) -> Result<List<PageWrite>, Memory>
    ensures { IfOk result (λ copies. writes_of copies.items ≡ writes_of pages.now) }
{
    let mut copies = List::new(alloc);
    copies.reserve(pages.len())?;
    for page in pages {
        copies.push_reserved(copy_page(alloc, page)?);
    }
    Ok(copies)
}

/// One commit of a save.
pub(crate) fn commit_on<D: Disk>(
    journal: &mut PageJournal,
    alloc: Global,
    disk: &mut D,
    pages: &List<PageWrite>,
) -> Result<(), PageFault>
    requires { AreWrites (writes_of pages.now.items) }
    ensures any_moment { (was from to : Course) → Lead from (writes_of pages.now.items) to → Rests (D.state disk.old) journal.old was from → LeavesOnly (D.state disk.old) (D.state disk.new) (GivesCourse was from to) }
    ensures done { (was from to : Course) → Lead from (writes_of pages.now.items) to → Rests (D.state disk.old) journal.old was from → OnOk result (IsSettledOn (D.state disk.new) journal.new to) }
    ensures fails { (was from to : Course) → Lead from (writes_of pages.now.items) to → Rests (D.state disk.old) journal.old was from → OnErr result (Rests (D.state disk.new) journal.new was from ⊎ Rests (D.state disk.new) journal.new from to) }
    ensures others { LeavesBut is_paged (D.state disk.old) (D.state disk.new) }
    ensures never_falls { D.fault_count disk.old ≤ D.fault_count disk.new }
    ensures failed { OnDiskFault result (HasRisen (D.fault_count disk.old) (D.fault_count disk.new)) }
{
    journal.commit(alloc, disk, pages)
}

/// Writes pages in commits of at most 1,024, which leave what was held, wherever they stop.
pub(crate) fn write_pages<D: Disk>(
    journal: &mut PageJournal,
    alloc: Global,
    disk: &mut D,
    pages: &[PageWrite],
) -> Result<(), PageFault>
    requires { AllByRecursion IsWrite (map write_of pages.now) }
    ensures any_moment { (was saved : Saved) → LeadsEach saved [] (writes_of pages.now) → RestsOn (D.state disk.old) journal.old was saved → LeavesOnly (D.state disk.old) (D.state disk.new) (GivesOne was saved) }
    ensures done { (was saved : Saved) → LeadsEach saved [] (writes_of pages.now) → RestsOn (D.state disk.old) journal.old was saved → OnOk result (RestsAfter (D.state disk.new) journal.new was saved (writes_of pages.now)) }
    ensures fails { (was saved : Saved) → LeadsEach saved [] (writes_of pages.now) → RestsOn (D.state disk.old) journal.old was saved → OnErr result (RestsOn (D.state disk.new) journal.new was saved) }
    ensures others { LeavesBut is_paged (D.state disk.old) (D.state disk.new) }
    ensures never_falls { D.fault_count disk.old ≤ D.fault_count disk.new }
    ensures failed { OnDiskFault result (HasRisen (D.fault_count disk.old) (D.fault_count disk.new)) }
{
    let mut rest = pages;
    while !rest.is_empty() {
        let (group, behind) = rest.split_at(MOST_PAGES.min(rest.len()));
        let copies = copy_pages(alloc, group)?;
        commit_on(journal, alloc, disk, &copies)?;
        rest = behind;
    }
    Ok(())
}
