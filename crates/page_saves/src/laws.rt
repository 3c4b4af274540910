//! Laws of what saves write, and of how a disk rests between them. Each is a function that does nothing, whose contract says the law.
ghost use Rattle.green_io.specs.Areas.{Areas, is_logged};
ghost use Rattle.green_io.specs.Disk.{LeavesBut, images_now};
ghost use Rattle.page_saves.specs.Courses.{Saved, GivesOne, begun};
ghost use Rattle.page_saves.specs.Plans.{BesideLeads, BlankLeads, HeaderLeads, StartLeads};
ghost use Rattle.page_saves.specs.Resting.{RestsOn, IsSettledOn};

use green_io::Disk;
use page_journal::PageJournal;

/// While a disk rests so, opening gives pages that hold the one or the other, whatever a crash leaves.
pub fn resting_gives<D: Disk>(disk: &D, journal: &PageJournal)
    ensures { (was saved : Saved) → RestsOn (D.state disk.now) journal.now was saved → (image : Areas) → images_now (D.state disk.now) image → GivesOne was saved image }
{}

/// Calls on the log alone leave a disk resting as it does.
pub fn log_calls_stay<D: Disk>(old: &D, new: &D, journal: &PageJournal)
    ensures { (was saved : Saved) → LeavesBut is_logged (D.state old.now) (D.state new.now) → RestsOn (D.state old.now) journal.now was saved → RestsOn (D.state new.now) journal.now was saved }
{}

/// Pages that hold what a save has left are where the next one begins.
pub fn settled_rests<D: Disk>(disk: &D, journal: &PageJournal)
    ensures { (was saved : Saved) → IsSettledOn (D.state disk.now) journal.now (begun saved) → RestsOn (D.state disk.now) journal.now was saved }
{}

/// Pages beside what a header names leave the header.
pub fn beside_leads()
    ensures { BesideLeads }
{}

/// Behind a blank start any pages but page 0 may be written.
pub fn blank_leads()
    ensures { BlankLeads }
{}

/// A blank start may be made over any pages.
pub fn start_leads()
    ensures { StartLeads }
{}

/// The header makes a save count, once its streams are written.
pub fn header_leads()
    ensures { HeaderLeads }
{}
