//! A write that is stable once it has succeeded.
ghost use Rattle.std.specs.Prelude.{◌≡◌, ◌≤◌, length, IsSome, OnOk, OnErr};
ghost use Rattle.green_io.specs.Areas.{is_same};
ghost use Rattle.green_io.specs.Disk.{Written, Torn, Changes, LeftBy, LeavesOnly, LeavesBut, IsStable, images_now};
ghost use Rattle.green_io.specs.Outside.{HasRisen};

use crate::disk::{Area, Disk, DiskFailed};

/// Writes these bytes at `at`, and syncs the area.
///
/// Where it fails the bytes may stand there, whole or in part, and a crash may leave any part of them.
#[tactic(auto, using(crate::proofs::Crash::crash_steps))]
pub fn write_and_sync<D: Disk>(
    disk: &mut D,
    area: Area,
    at: u64,
    bytes: &[u8],
) -> Result<(), DiskFailed>
    ensures told { IsSome (D.state disk.old).reads → IsSome (D.state disk.new).reads }
    ensures written { OnOk result (Changes area (Written at bytes.now) (D.state disk.old).reads (D.state disk.new).reads) }
    ensures part { OnErr result (Changes area (Torn at (length bytes.now)) (D.state disk.old).reads (D.state disk.new).reads) }
    ensures durable { OnOk result (IsStable area (D.state disk.new).reads (images_now (D.state disk.new))) }
    ensures crash { LeavesOnly (D.state disk.old) (D.state disk.new) (LeftBy area (Torn at (length bytes.now)) (images_now (D.state disk.old))) }
    ensures others { LeavesBut (is_same area) (D.state disk.old) (D.state disk.new) }
    ensures never_falls { D.fault_count disk.old ≤ D.fault_count disk.new }
    ensures failed { OnErr result (HasRisen (D.fault_count disk.old) (D.fault_count disk.new)) }
{
    disk.write(area, at, bytes)?;
    disk.sync(area)?;
    Ok(())
}
