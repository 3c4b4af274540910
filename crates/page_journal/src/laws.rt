//! Laws of open journals and of pages. Each is a function that does nothing, whose contract says the law.
ghost use Rattle.std.specs.Prelude.{◌≡◌, ℕ, Some, false};
ghost use Rattle.green_io.specs.Areas.{Areas, is_logged};
ghost use Rattle.green_io.specs.Disk.{LeavesBut, WhereTold, images_now};
ghost use Rattle.page_journal.specs.Images.{GivesEither};
ghost use Rattle.page_journal.specs.JournalBytes.{AreWrites, opened};
ghost use Rattle.page_journal.specs.JournalView.{IsClean, IsUnfinished};
ghost use Rattle.page_journal.specs.Pages.{Bytes, Pages, Writes, pages_of, laid, is_written, home_after, AreSame, Extends};

use crate::journal::PageJournal;
use green_io::Disk;

/// Where no commit is unfinished, opening gives the pages that Home has, whatever a crash leaves.
pub fn clean_gives<D: Disk>(disk: &D, journal: &PageJournal)
    ensures images { (home : Bytes) → IsClean (D.state disk.now) journal.now home → (image : Areas) → images_now (D.state disk.now) image → AreSame (pages_of home) (opened image) }
    ensures reads { (home : Bytes) → IsClean (D.state disk.now) journal.now home → WhereTold (D.state disk.now).reads (λ areas. areas.home ≡ home) }
{}

/// Where a commit is unfinished, opening gives the pages before it or after it.
pub fn unfinished_gives<D: Disk>(disk: &D, journal: &PageJournal)
    ensures { (before : Bytes) (writes : Writes) → IsUnfinished (D.state disk.now) journal.now before writes → (image : Areas) → images_now (D.state disk.now) image → GivesEither (pages_of before) writes image }
{}

/// Calls on the log alone leave a journal as it stands.
pub fn log_calls_stay<D: Disk>(old: &D, new: &D, journal: &PageJournal)
    ensures clean { (home : Bytes) → LeavesBut is_logged (D.state old.now) (D.state new.now) → IsClean (D.state old.now) journal.now home → IsClean (D.state new.now) journal.now home }
    ensures unfinished { (before : Bytes) (writes : Writes) → LeavesBut is_logged (D.state old.now) (D.state new.now) → IsUnfinished (D.state old.now) journal.now before writes → IsUnfinished (D.state new.now) journal.now before writes }
{}

/// Home has the pages of a commit once they are laid over it, and every page that it had before.
pub fn changed_home_extends()
    ensures { (home : Bytes) (writes : Writes) → AreWrites writes → Extends (laid writes (pages_of home)) (pages_of (home_after writes home)) }
{}

/// Pages that none of the writes is to are still there once the writes are laid over them.
pub fn part_stays()
    ensures { (part pages : Pages) (writes : Writes) → Extends part pages → ((k : ℕ) (page : Bytes) → part k ≡ Some page → is_written writes k ≡ false) → Extends part (laid writes pages) }
{}

/// What is laid over more pages gives more pages.
pub fn laid_over_more()
    ensures { (less more : Pages) (writes : Writes) → Extends less more → Extends (laid writes less) (laid writes more) }
{}
