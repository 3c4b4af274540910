//! The blank start, which is made where no header may be on the disk.
ghost use Rattle.std.specs.Prelude.{◌≡◌, ◌≤◌, [], ◌∷◌, ◌++◌, length, replicate, false, IfOk, OnOk, OnErr, IsOk};
ghost use Rattle.green_io.specs.Disk.{LeavesOnly, LeavesBut};
ghost use Rattle.green_io.specs.Outside.{HasRisen};
ghost use Rattle.page_journal.specs.Answers.{OnDiskFault};
ghost use Rattle.page_journal.specs.Images.{is_paged};
ghost use Rattle.page_journal.specs.JournalBytes.{writes_of};
ghost use Rattle.page_journal.specs.Pages.{page_bytes};
ghost use Rattle.page_saves.specs.Courses.{Saved};
ghost use Rattle.page_saves.specs.Resting.{RestsOn};
ghost use Rattle.page_flush.specs.Saving.{blank_page};
ghost use Rattle.page_flush.specs.inside.Blanks.{GivesBegun, IsBegun, IsNotBegun};

use febe_data::{List, Memory, Text};
use green_io::Disk;
use page_journal::{PageFault, PageJournal, PageWrite};
use page_saves::write_all;
use std::alloc::Global;

/// How many bytes a page has.
const PAGE_BYTES: usize = 4096;

/// Page 0 alone, of zeros.
fn blank_start(alloc: Global) -> Result<List<PageWrite>, Memory>
    ensures { IfOk result (λ pages. writes_of pages.items ≡ page_bytes 0 blank_page ∷ []) }
{
    let bytes = Text::from_slice(alloc, &[0; PAGE_BYTES])?;
    let mut pages = List::new(alloc);
    pages.push(PageWrite { number: 0, bytes })?;
    Ok(pages)
}

/// Makes a blank start where one is needed. Once it was made, it is not needed any more.
pub(crate) fn begin<D: Disk>(
    journal: &mut PageJournal,
    needs_blank: &mut bool,
    alloc: Global,
    disk: &mut D,
) -> Result<(), PageFault>
    ensures any_moment { (was saved : Saved) → RestsOn (D.state disk.old) journal.old was saved → LeavesOnly (D.state disk.old) (D.state disk.new) (GivesBegun was saved needs_blank.old) }
    ensures done { (was saved : Saved) → RestsOn (D.state disk.old) journal.old was saved → OnOk result (IsBegun (D.state disk.new) journal.new was saved needs_blank.old) }
    ensures fails { (was saved : Saved) → RestsOn (D.state disk.old) journal.old was saved → OnErr result (IsNotBegun (D.state disk.new) journal.new was saved needs_blank.old) }
    ensures made { OnOk result (needs_blank.new ≡ false) }
    ensures needed { OnErr result (needs_blank.new ≡ needs_blank.old) }
    ensures others { LeavesBut is_paged (D.state disk.old) (D.state disk.new) }
    ensures never_falls { D.fault_count disk.old ≤ D.fault_count disk.new }
    ensures failed { OnDiskFault result (HasRisen (D.fault_count disk.old) (D.fault_count disk.new)) }
{
    if !*needs_blank {
        return Ok(());
    }
    let page = blank_start(alloc)?;
    write_all(journal, alloc, disk, &[], &page)?;
    *needs_blank = false;
    Ok(())
}
