//! Laws of logs. Each is a function that does nothing, whose contract says the law.
ghost use Rattle.std.specs.Prelude.{List};
ghost use Rattle.entry_codec.specs.Logged.{PlainLogged};
ghost use Rattle.green_io.specs.Areas.{Areas};
ghost use Rattle.green_io.specs.Disk.{images_now};
ghost use Rattle.edit_log.specs.Images.{IsOpen, IsPending, AreEntries, IsMendable, HoldsEither};
ghost use Rattle.edit_log.specs.Laws.{EachHasOneReading};
ghost use Rattle.edit_log.specs.Second.{HoldsWhole};

use crate::log::EditLog;
use entry_codec::laws::{body_says_length, one_body};
use green_io::Disk;

/// Areas whose log is read as some entries with their moments, in one format, are read as no others, and their log is not
/// damaged; and a damaged one is damaged at one place. So where it is opened, the bytes of the two areas alone decide
/// between the entries and the place.
pub fn one_reading()
    ensures { EachHasOneReading }
{
    one_body();
    body_says_length();
}

/// Where a log is open, a crash leaves nothing but a whole log with its entries and their moments.
pub fn open_is_whole<D: Disk>(disk: &D, log: &EditLog)
    ensures { (rows : List PlainLogged) → AreEntries rows → IsOpen (D.state disk.now) log.now rows → (image : Areas) → images_now (D.state disk.now) image → HoldsWhole rows image }
{}

/// Where an edit is pending, a crash leaves nothing but a whole log with the entries before it, or with it too.
pub fn pending_is_whole<D: Disk>(disk: &D, log: &EditLog)
    ensures { (rows : List PlainLogged) (row : PlainLogged) → IsMendable rows row → IsPending (D.state disk.now) log.now rows row → (image : Areas) → images_now (D.state disk.now) image → HoldsEither rows row image }
{}
