//! Laws of disks. Each is a function that does nothing, whose contract says the law.
ghost use Rattle.std.specs.Prelude.{◌≡◌, Bool, true};
ghost use Rattle.green_io.specs.Areas.{Areas};
ghost use Rattle.green_io.specs.Disk.{IsAsBut, LeavesBut, images_now};

use crate::disk::{Area, Disk};

/// What each of two runs of calls leaves alone, both in a row leave alone.
pub fn left_alone_in_a_row<D: Disk>(first: &D, between: &D, last: &D)
    ensures { (touched : Area → Bool) → LeavesBut touched (D.state first.now) (D.state between.now) → LeavesBut touched (D.state between.now) (D.state last.now) → LeavesBut touched (D.state first.now) (D.state last.now) }
{}

/// What is left alone is so where more areas may be touched.
pub fn left_alone_beside_more<D: Disk>(old: &D, new: &D)
    ensures { (touched more : Area → Bool) → ((area : Area) → touched area ≡ true → more area ≡ true) → LeavesBut touched (D.state old.now) (D.state new.now) → LeavesBut more (D.state old.now) (D.state new.now) }
{}

/// Each image that a crash may leave afterwards has in the areas that are left alone what one had there before.
pub fn images_left_alone<D: Disk>(old: &D, new: &D)
    ensures { (touched : Area → Bool) → LeavesBut touched (D.state old.now) (D.state new.now) → (image : Areas) → images_now (D.state new.now) image → IsAsBut touched (images_now (D.state old.now)) image }
{}
