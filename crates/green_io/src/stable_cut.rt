//! A cut that is stable once it has succeeded.
ghost use Rattle.std.specs.Prelude.{◌≡◌, ◌≤◌, IsSome, OnOk, OnErr};
ghost use Rattle.green_io.specs.Areas.{is_same};
ghost use Rattle.green_io.specs.Disk.{CutTo, PartlyCut, Changes, LeftBy, LeavesOnly, LeavesBut, IsStable, images_now};
ghost use Rattle.green_io.specs.Outside.{HasRisen};

use crate::disk::{Area, Disk, DiskFailed};

/// Cuts the area to this length, and syncs it. Where the area is not longer it stays, and is synced all the same.
///
/// Where it fails the area may be cut, whole or in part, and a crash may leave any end from this length to the old one.
#[tactic(auto, using(crate::proofs::Crash::crash_steps))]
pub fn cut_and_sync<D: Disk>(disk: &mut D, area: Area, length: u64) -> Result<(), DiskFailed>
    ensures told { IsSome (D.state disk.old).reads → IsSome (D.state disk.new).reads }
    ensures cut { OnOk result (Changes area (CutTo length) (D.state disk.old).reads (D.state disk.new).reads) }
    ensures part { OnErr result (Changes area (PartlyCut length) (D.state disk.old).reads (D.state disk.new).reads) }
    ensures durable { OnOk result (IsStable area (D.state disk.new).reads (images_now (D.state disk.new))) }
    ensures crash { LeavesOnly (D.state disk.old) (D.state disk.new) (LeftBy area (PartlyCut length) (images_now (D.state disk.old))) }
    ensures others { LeavesBut (is_same area) (D.state disk.old) (D.state disk.new) }
    ensures never_falls { D.fault_count disk.old ≤ D.fault_count disk.new }
    ensures failed { OnErr result (HasRisen (D.fault_count disk.old) (D.fault_count disk.new)) }
{
    disk.cut(area, length)?;
    disk.sync(area)?;
    Ok(())
}
