//! Laws of how a flush stands to the disk. Each is a function that does nothing, whose contract says the law.
ghost use Rattle.std.specs.Prelude.{◌⊎◌, Option as OptionOf};
ghost use Rattle.green_io.specs.Areas.{Areas, is_logged};
ghost use Rattle.green_io.specs.Disk.{LeavesBut, images_now};
ghost use Rattle.page_journal.specs.JournalBytes.{opened};
ghost use Rattle.green_flush.specs.Loads.{TreesAt, Loads};
ghost use Rattle.green_flush.specs.Standing.{StandsOn, IsRenewed};

use crate::flush::Flush;
use green_io::Disk;

/// Whatever a crash leaves loads as the one or the other.
pub fn each_image_loads<D: Disk>(disk: &D, flush: &Flush)
    ensures { (was now : OptionOf TreesAt) → StandsOn (D.state disk.now) flush.now was now → (image : Areas) → images_now (D.state disk.now) image → Loads (opened image) was ⊎ Loads (opened image) now }
{}

/// Calls on the log alone leave a flush standing as it does.
pub fn log_calls_stay<D: Disk>(old: &D, new: &D, flush: &Flush)
    ensures { (was now : OptionOf TreesAt) → LeavesBut is_logged (D.state old.now) (D.state new.now) → StandsOn (D.state old.now) flush.now was now → StandsOn (D.state new.now) flush.now was now }
{}

/// So does renewing it.
pub fn renewed_stands<D: Disk>(disk: &D, old: &Flush, new: &Flush)
    ensures { (was now : OptionOf TreesAt) → IsRenewed old.now new.now → StandsOn (D.state disk.now) old.now was now → StandsOn (D.state disk.now) new.now was now }
{}
