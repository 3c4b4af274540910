//! Laws of how a disk rests under what is known of its pages. Each is a function that does nothing, whose contract says
//! the law.
ghost use Rattle.green_io.specs.Areas.{Areas, is_logged};
ghost use Rattle.green_io.specs.Disk.{LeavesBut, images_now};
ghost use Rattle.page_saves.specs.Courses.{Saved, GivesOne, begun};
ghost use Rattle.page_saves.specs.Resting.{RestsOn, IsSettledOn};

use crate::flush::PageFlush;
use green_io::Disk;

/// While a disk rests so, opening gives pages that hold the one or the other, whatever a crash leaves.
pub fn resting_gives<D: Disk>(disk: &D, flush: &PageFlush)
    ensures { (was saved : Saved) → RestsOn (D.state disk.now) flush.now.journal was saved → (image : Areas) → images_now (D.state disk.now) image → GivesOne was saved image }
{}

/// Calls on the log alone leave a disk resting as it does.
pub fn log_calls_stay<D: Disk>(old: &D, new: &D, flush: &PageFlush)
    ensures { (was saved : Saved) → LeavesBut is_logged (D.state old.now) (D.state new.now) → RestsOn (D.state old.now) flush.now.journal was saved → RestsOn (D.state new.now) flush.now.journal was saved }
{}

/// Pages that hold what a save has left are where the next one begins.
pub fn settled_rests<D: Disk>(disk: &D, flush: &PageFlush)
    ensures { (was saved : Saved) → IsSettledOn (D.state disk.now) flush.now.journal (begun saved) → RestsOn (D.state disk.now) flush.now.journal was saved }
{}
