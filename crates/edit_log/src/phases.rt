//! The writes of a log in the second area, each of which is synced before the next begins.
ghost use Rattle.std.specs.Prelude.{◌≡◌, ◌<◌, ◌≤◌, ◌^◌, ℕ, List, [], ◌∷◌, ◌++◌, length, OnOk, OnErr};
ghost use Rattle.green_io.specs.Areas.{is_same};
ghost use Rattle.green_io.specs.Disk.{Changes, LeavesOnly, LeavesBut};
ghost use Rattle.green_io.specs.Outside.{HasRisen};
ghost use Rattle.edit_log.specs.Images.{IsShut, IsAjar, SecondImages, InSecond};
ghost use Rattle.edit_log.specs.inside.Ends.{IsThat, HasTornGate, ClosesEnd, begins_shut};

use green_io::{Area, Disk, DiskFailed, write_and_sync};

/// Puts a body, and the byte 0 behind it, behind the end gate, which stays a stable 0.
pub(crate) fn stage<D: Disk>(disk: &mut D, end: u64, bytes: &[u8]) -> Result<(), DiskFailed>
    ensures any_moment { (front body : List ℕ) → bytes.now ≡ body ++ (0 ∷ []) → length front < 2 ^ 63 → SecondImages (D.state disk.old) end front (IsShut front) → LeavesOnly (D.state disk.old) (D.state disk.new) (InSecond (IsShut front)) }
    ensures staged { (front body : List ℕ) → bytes.now ≡ body ++ (0 ∷ []) → length front < 2 ^ 63 → SecondImages (D.state disk.old) end front (IsShut front) → OnOk result (SecondImages (D.state disk.new) end front (IsAjar front body)) }
    ensures shut { (front body : List ℕ) → bytes.now ≡ body ++ (0 ∷ []) → length front < 2 ^ 63 → SecondImages (D.state disk.old) end front (IsShut front) → OnErr result (SecondImages (D.state disk.new) end front (IsShut front)) }
    ensures others { LeavesBut (is_same Area.Second) (D.state disk.old) (D.state disk.new) }
    ensures never_falls { D.fault_count disk.old ≤ D.fault_count disk.new }
    ensures failed { OnErr result (HasRisen (D.fault_count disk.old) (D.fault_count disk.new)) }
{
    write_and_sync(disk, Area::Second, end.saturating_add(1), bytes)
}

/// Writes 1 to the end gate, behind which one more body and a byte 0 are stable.
pub(crate) fn open_gate<D: Disk>(disk: &mut D, end: u64) -> Result<(), DiskFailed>
    ensures any_moment { (front body : List ℕ) → SecondImages (D.state disk.old) end front (IsAjar front body) → LeavesOnly (D.state disk.old) (D.state disk.new) (InSecond (IsAjar front body)) }
    ensures opened { (front body : List ℕ) → SecondImages (D.state disk.old) end front (IsAjar front body) → OnOk result (SecondImages (D.state disk.new) (length (front ++ (1 ∷ body))) (front ++ (1 ∷ body)) (IsShut (front ++ (1 ∷ body)))) }
    ensures ajar { (front body : List ℕ) → SecondImages (D.state disk.old) end front (IsAjar front body) → OnErr result (SecondImages (D.state disk.new) end front (IsAjar front body)) }
    ensures others { LeavesBut (is_same Area.Second) (D.state disk.old) (D.state disk.new) }
    ensures never_falls { D.fault_count disk.old ≤ D.fault_count disk.new }
    ensures failed { OnErr result (HasRisen (D.fault_count disk.old) (D.fault_count disk.new)) }
{
    write_and_sync(disk, Area::Second, end, &[1])
}

/// Writes 0 to the end gate, behind which one more body and a byte 0 are stable.
pub(crate) fn close_gate<D: Disk>(disk: &mut D, end: u64) -> Result<(), DiskFailed>
    ensures any_moment { (front body : List ℕ) → SecondImages (D.state disk.old) end front (IsAjar front body) → LeavesOnly (D.state disk.old) (D.state disk.new) (InSecond (IsAjar front body)) }
    ensures closed { (front body : List ℕ) → SecondImages (D.state disk.old) end front (IsAjar front body) → OnOk result (SecondImages (D.state disk.new) end front (IsShut front)) }
    ensures ajar { (front body : List ℕ) → SecondImages (D.state disk.old) end front (IsAjar front body) → OnErr result (SecondImages (D.state disk.new) end front (IsAjar front body)) }
    ensures others { LeavesBut (is_same Area.Second) (D.state disk.old) (D.state disk.new) }
    ensures never_falls { D.fault_count disk.old ≤ D.fault_count disk.new }
    ensures failed { OnErr result (HasRisen (D.fault_count disk.old) (D.fault_count disk.new)) }
{
    write_and_sync(disk, Area::Second, end, &[0])
}

/// Whether a gate stands there, and is 0.
fn is_closed(end: &[u8]) -> bool
    ensures { result ≡ begins_shut end.now }
{
    match end.first() {
        Some(gate) => *gate == 0,
        None => false,
    }
}

/// Writes 0 to the gate at the end of a log that was read, where it is not a byte 0 that is there. `end` is what
/// stands there.
pub(crate) fn close_end<D: Disk>(disk: &mut D, at: u64, end: &[u8]) -> Result<(), DiskFailed>
    ensures any_moment { (front : List ℕ) → SecondImages (D.state disk.old) at front (IsThat (front ++ end.now)) → LeavesOnly (D.state disk.old) (D.state disk.new) (InSecond (HasTornGate front end.now)) }
    ensures closed { (front : List ℕ) → SecondImages (D.state disk.old) at front (IsThat (front ++ end.now)) → OnOk result (SecondImages (D.state disk.new) at front (IsShut front)) }
    ensures reads { (front : List ℕ) → at ≡ length front → OnOk result (Changes Area.Second (ClosesEnd front end.now) (D.state disk.old).reads (D.state disk.new).reads) }
    ensures others { LeavesBut (is_same Area.Second) (D.state disk.old) (D.state disk.new) }
    ensures never_falls { D.fault_count disk.old ≤ D.fault_count disk.new }
    ensures failed { OnErr result (HasRisen (D.fault_count disk.old) (D.fault_count disk.new)) }
{
    if is_closed(end) {
        return Ok(());
    }
    write_and_sync(disk, Area::Second, at, &[0])
}
