//! Where bytes stay: areas that are read, written, cut and synced.
ghost use Rattle.std.specs.Prelude.{◌≡◌, ◌≤◌, ◌<◌, ℕ, length, IfOk, OnOk, OnErr};
ghost use Rattle.green_io.specs.Areas.{area_of};
ghost use Rattle.green_io.specs.Disk.{DiskState, IsDisk, WhereTold, Written, CutTo, Torn, PartlyCut, Changes, LeftBy, Nothing, LeavesOnly, IsStable, IsWithin, ReadsAt, images_now};
ghost use Rattle.green_io.specs.Outside.{OnFailedRead, HasRisen};

use crate::source::ReadAnswer;

/// A part of a disk with bytes and a length of its own.
#[derive(Clone, Copy, Debug, PartialEq, Eq)]
pub enum Area {
    /// The log of edits as it was kept before each had its moment.
    Log,
    /// The pages.
    Home,
    /// Pages on their way to [`Area::Home`].
    Journal,
    /// The log of edits, each with its moment.
    Second,
}

/// A call of a disk failed. The disk has counted a fault.
#[derive(Clone, Copy, Debug, PartialEq, Eq)]
pub struct DiskFailed;

/// Bytes in areas, some of which a crash may lose or change until they are synced.
///
/// A write or a cut that failed may have been done in part, so a crash may leave any part of it. No call takes
/// memory from its caller, or waits for another part of the program.
pub trait Disk {
    // What the areas read, where the disk tells that, its clock, and what a crash may leave.
    ghost state: { Self → DiskState };

    // How many faults there were, up to the greatest number.
    ghost fault_count: { Self → ℕ };

    /// How many faults there were. Each call that failed is one, and the count stops at the greatest number.
    fn faults(&self) -> u64
        ensures { result ≡ fault_count self.now };

    /// How many bytes the area has.
    fn length(&mut self, area: Area) -> Result<u64, DiskFailed>
        ensures answer { IfOk result (λ n. WhereTold (state self.old).reads (λ areas. n ≡ length (area_of area areas))) }
        ensures reads { (state self.new).reads ≡ (state self.old).reads }
        ensures crash { LeavesOnly (state self.old) (state self.new) Nothing }
        ensures never_falls { fault_count self.old ≤ fault_count self.new }
        ensures failed { OnErr result (HasRisen (fault_count self.old) (fault_count self.new)) };

    /// Reads some bytes of the area from `at` on into the front of `into`, as many as the disk likes to give at once.
    /// It answers the end where nothing of the area is left from `at` on, and nowhere else.
    fn read(&mut self, area: Area, at: u64, into: &mut [u8]) -> ReadAnswer
        requires { 0 < length into.old }
        ensures within { IsWithin result into.new }
        ensures answer { WhereTold (state self.old).reads (λ areas. ReadsAt result at (area_of area areas) into.new) }
        ensures reads { (state self.new).reads ≡ (state self.old).reads }
        ensures crash { LeavesOnly (state self.old) (state self.new) Nothing }
        ensures never_falls { fault_count self.old ≤ fault_count self.new }
        ensures failed { OnFailedRead result (HasRisen (fault_count self.old) (fault_count self.new)) };

    /// Writes all these bytes at `at`, over what stands there. Where `at` is past the end, the bytes between are 0.
    fn write(&mut self, area: Area, at: u64, bytes: &[u8]) -> Result<(), DiskFailed>
        ensures written { OnOk result (Changes area (Written at bytes.now) (state self.old).reads (state self.new).reads) }
        ensures part { OnErr result (Changes area (Torn at (length bytes.now)) (state self.old).reads (state self.new).reads) }
        ensures crash { LeavesOnly (state self.old) (state self.new) (LeftBy area (Torn at (length bytes.now)) (images_now (state self.old))) }
        ensures never_falls { fault_count self.old ≤ fault_count self.new }
        ensures failed { OnErr result (HasRisen (fault_count self.old) (fault_count self.new)) };

    /// Cuts the area to this length. Where the area is not longer it stays.
    fn cut(&mut self, area: Area, length: u64) -> Result<(), DiskFailed>
        ensures cut { OnOk result (Changes area (CutTo length) (state self.old).reads (state self.new).reads) }
        ensures part { OnErr result (Changes area (PartlyCut length) (state self.old).reads (state self.new).reads) }
        ensures crash { LeavesOnly (state self.old) (state self.new) (LeftBy area (PartlyCut length) (images_now (state self.old))) }
        ensures never_falls { fault_count self.old ≤ fault_count self.new }
        ensures failed { OnErr result (HasRisen (fault_count self.old) (fault_count self.new)) };

    /// Makes the area stable: after it a crash leaves what the area reads, until it is written or cut again. Where
    /// it fails nothing is known to be stable.
    fn sync(&mut self, area: Area) -> Result<(), DiskFailed>
        ensures durable { OnOk result (IsStable area (state self.old).reads (images_now (state self.new))) }
        ensures reads { (state self.new).reads ≡ (state self.old).reads }
        ensures crash { LeavesOnly (state self.old) (state self.new) Nothing }
        ensures never_falls { fault_count self.old ≤ fault_count self.new }
        ensures failed { OnErr result (HasRisen (fault_count self.old) (fault_count self.new)) };

    // Time goes one way, and the disk as it reads is one of its images.
    ghost is_disk: { (disk : Self) → IsDisk (state disk) };
}
