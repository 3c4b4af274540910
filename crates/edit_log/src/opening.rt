//! Opening a log.
ghost use Rattle.std.specs.Prelude.{◌≡◌, ◌≤◌, length, true, false, IsSome, IfOk, OnOk, OnErr};
ghost use Rattle.std.specs.List.{AllByRecursion};
ghost use Rattle.entry_codec.specs.Bodies.{HasBody};
ghost use Rattle.entry_codec.specs.Logged.{plain_log};
ghost use Rattle.green_io.specs.Areas.{is_same, is_logged};
ghost use Rattle.green_io.specs.Disk.{Changes, LeavesOnly, LeavesBut, WhereTold, IsStable, images_now};
ghost use Rattle.green_io.specs.Outside.{HasRisen};
ghost use Rattle.edit_log.specs.Answers.{OnDamaged, OnDiskFault, OnNoMemory};
ghost use Rattle.edit_log.specs.Images.{IsOpen, AsRead, HoldsAsRead};
ghost use Rattle.edit_log.specs.Log.{most_entries};
ghost use Rattle.edit_log.specs.Second.{HoldsWhole, ReadsIn, IsDamaged, IsMoved, BothTold, IsAsFound};
ghost use Rattle.edit_log.specs.inside.Migration.{IsEmptied, IsMovedBeside};
ghost use Rattle.edit_log.specs.inside.Pieces.{TellsOpen};

use crate::log::EditLog;
use crate::migrating::migrate;
use crate::pending::Pending;
use crate::phases::close_end;
use crate::reading::{is_open, read_area};
use crate::scanning::{Scanned, scan};
use entry_codec::laws::{body_says_length, old_has_new, one_body};
use entry_codec::{LogFormat, Logged};
use febe_data::List;
use green_io::{Area, Disk, DiskFailed, cut_and_sync};
use std::alloc::Global;

/// Why a log was not opened.
#[derive(Clone, Copy, Debug, PartialEq, Eq)]
pub enum LogFault {
    /// The gate at this place is open, more bytes come behind it, and they begin with no body, or it would be one
    /// too many.
    Damaged {
        /// The gate's offset in the area that was read: the second where that is open, and else that of the log of before.
        at: u64,
    },
    /// The disk failed.
    Disk,
    /// There was no memory for the bytes or the entries.
    Memory,
}

/// Reads the log in the second area, which is open and stable, and closes the gate at its end where that is not a
/// byte 0.
fn open_new<D: Disk>(alloc: Global, disk: &mut D) -> Result<(EditLog, List<Logged>), LogFault>
    requires stable { IsStable Area.Second (D.state disk.old).reads (images_now (D.state disk.old)) }
    requires opened { WhereTold (D.state disk.old).reads (λ areas. TellsOpen true areas.second) }
    ensures any_moment { (rows : _) → AsRead (D.state disk.old).reads (HoldsWhole rows) → LeavesOnly (D.state disk.old) (D.state disk.new) (HoldsAsRead rows (D.state disk.old).reads) }
    ensures entries { IfOk result (λ opened. WhereTold (D.state disk.old).reads (ReadsIn opened.0.read (plain_log opened.1.items))) }
    ensures spelled { IfOk result (λ opened. AllByRecursion (HasBody opened.0.read) (plain_log opened.1.items)) }
    ensures few { IfOk result (λ opened. length (plain_log opened.1.items) ≤ most_entries) }
    ensures stands { IfOk result (λ opened. IsSome (D.state disk.old).reads → IsOpen (D.state disk.new) opened.0 (plain_log opened.1.items)) }
    ensures idle { IfOk result (λ opened. opened.0.pending ≡ Pending.Nothing) }
    ensures moved { IfOk result (λ opened. BothTold (D.state disk.old).reads (D.state disk.new).reads (IsMovedBeside opened.0.read (plain_log opened.1.items))) }
    ensures damaged { OnDamaged result (λ at. WhereTold (D.state disk.old).reads (IsDamaged at)) }
    ensures untouched { OnDamaged result (λ at. (D.state disk.new).reads ≡ (D.state disk.old).reads) }
    ensures found { OnNoMemory result (BothTold (D.state disk.old).reads (D.state disk.new).reads IsAsFound) }
    ensures others { LeavesBut is_logged (D.state disk.old) (D.state disk.new) }
    ensures never_falls { D.fault_count disk.old ≤ D.fault_count disk.new }
    ensures failed { OnDiskFault result (HasRisen (D.fault_count disk.old) (D.fault_count disk.new)) }
{
    // So each entry is read where it stands, and no other can be read there.
    one_body();
    body_says_length();
    let bytes = read_area(alloc, disk, Area::Second)?;
    let bytes = bytes.as_slice();
    // The gate of the area stands in front of the log.
    let (_, log) = bytes.split_at(bytes.len().min(1));
    let Ok(scanned) = scan(alloc, LogFormat::New, log) else {
        return Err(LogFault::Memory);
    };
    let (at, rows) = match scanned {
        Scanned::Damaged { at } => return Err(LogFault::Damaged { at: at as u64 + 1 }),
        Scanned::Ends { at, rows } => (at, rows),
    };
    let behind = log.split_at(at).1;
    let end = at as u64 + 1;
    close_end(disk, end, behind)?;
    let log = EditLog {
        end,
        pending: Pending::Nothing,
        read: LogFormat::New,
    };
    Ok((log, rows))
}

/// Reads the log of before, and moves it into the second area, which is closed. Both are stable. The log of before
/// stays as it is.
fn open_old<D: Disk>(alloc: Global, disk: &mut D) -> Result<(EditLog, List<Logged>), LogFault>
    requires log { IsStable Area.Log (D.state disk.old).reads (images_now (D.state disk.old)) }
    requires second { IsStable Area.Second (D.state disk.old).reads (images_now (D.state disk.old)) }
    requires closed { WhereTold (D.state disk.old).reads (λ areas. TellsOpen false areas.second) }
    ensures any_moment { (rows : _) → AsRead (D.state disk.old).reads (HoldsWhole rows) → LeavesOnly (D.state disk.old) (D.state disk.new) (HoldsAsRead rows (D.state disk.old).reads) }
    ensures entries { IfOk result (λ opened. WhereTold (D.state disk.old).reads (ReadsIn opened.0.read (plain_log opened.1.items))) }
    ensures spelled { IfOk result (λ opened. AllByRecursion (HasBody opened.0.read) (plain_log opened.1.items)) }
    ensures few { IfOk result (λ opened. length (plain_log opened.1.items) ≤ most_entries) }
    ensures stands { IfOk result (λ opened. IsSome (D.state disk.old).reads → IsOpen (D.state disk.new) opened.0 (plain_log opened.1.items)) }
    ensures idle { IfOk result (λ opened. opened.0.pending ≡ Pending.Nothing) }
    ensures moved { IfOk result (λ opened. BothTold (D.state disk.old).reads (D.state disk.new).reads (IsMovedBeside opened.0.read (plain_log opened.1.items))) }
    ensures damaged { OnDamaged result (λ at. WhereTold (D.state disk.old).reads (IsDamaged at)) }
    ensures untouched { OnDamaged result (λ at. (D.state disk.new).reads ≡ (D.state disk.old).reads) }
    ensures found { OnNoMemory result (BothTold (D.state disk.old).reads (D.state disk.new).reads IsAsFound) }
    ensures others { LeavesBut is_logged (D.state disk.old) (D.state disk.new) }
    ensures never_falls { D.fault_count disk.old ≤ D.fault_count disk.new }
    ensures failed { OnDiskFault result (HasRisen (D.fault_count disk.old) (D.fault_count disk.new)) }
{
    // So each entry is read where it stands, and has a body in the new format too.
    one_body();
    body_says_length();
    old_has_new();
    let bytes = read_area(alloc, disk, Area::Log)?;
    let bytes = bytes.as_slice();
    let Ok(scanned) = scan(alloc, LogFormat::Old, bytes) else {
        return Err(LogFault::Memory);
    };
    let rows = match scanned {
        Scanned::Damaged { at } => return Err(LogFault::Damaged { at: at as u64 }),
        Scanned::Ends { at: _, rows } => rows,
    };
    let moving = rows.as_slice();
    let end = migrate(alloc, disk, moving)?;
    let log = EditLog {
        end,
        pending: Pending::Nothing,
        read: LogFormat::Old,
    };
    Ok((log, rows))
}

/// Opens the log in the second area, into which that of before, which is stable, moves first where it is closed.
fn open_second<D: Disk>(alloc: Global, disk: &mut D) -> Result<(EditLog, List<Logged>), LogFault>
    requires { IsStable Area.Log (D.state disk.old).reads (images_now (D.state disk.old)) }
    ensures any_moment { (rows : _) → AsRead (D.state disk.old).reads (HoldsWhole rows) → LeavesOnly (D.state disk.old) (D.state disk.new) (HoldsAsRead rows (D.state disk.old).reads) }
    ensures entries { IfOk result (λ opened. WhereTold (D.state disk.old).reads (ReadsIn opened.0.read (plain_log opened.1.items))) }
    ensures spelled { IfOk result (λ opened. AllByRecursion (HasBody opened.0.read) (plain_log opened.1.items)) }
    ensures few { IfOk result (λ opened. length (plain_log opened.1.items) ≤ most_entries) }
    ensures stands { IfOk result (λ opened. IsSome (D.state disk.old).reads → IsOpen (D.state disk.new) opened.0 (plain_log opened.1.items)) }
    ensures idle { IfOk result (λ opened. opened.0.pending ≡ Pending.Nothing) }
    ensures moved { IfOk result (λ opened. BothTold (D.state disk.old).reads (D.state disk.new).reads (IsMovedBeside opened.0.read (plain_log opened.1.items))) }
    ensures damaged { OnDamaged result (λ at. WhereTold (D.state disk.old).reads (IsDamaged at)) }
    ensures untouched { OnDamaged result (λ at. (D.state disk.new).reads ≡ (D.state disk.old).reads) }
    ensures found { OnNoMemory result (BothTold (D.state disk.old).reads (D.state disk.new).reads IsAsFound) }
    ensures others { LeavesBut is_logged (D.state disk.old) (D.state disk.new) }
    ensures never_falls { D.fault_count disk.old ≤ D.fault_count disk.new }
    ensures failed { OnDiskFault result (HasRisen (D.fault_count disk.old) (D.fault_count disk.new)) }
{
    let opened = is_open(disk)?;
    if opened {
        return open_new(alloc, disk);
    }
    open_old(alloc, disk)
}

/// Empties the area of the log of before where it is not empty.
fn empty_old<D: Disk>(disk: &mut D) -> Result<(), DiskFailed>
    ensures emptied { OnOk result (Changes Area.Log IsEmptied (D.state disk.old).reads (D.state disk.new).reads) }
    ensures others { LeavesBut (is_same Area.Log) (D.state disk.old) (D.state disk.new) }
    ensures never_falls { D.fault_count disk.old ≤ D.fault_count disk.new }
    ensures failed { OnErr result (HasRisen (D.fault_count disk.old) (D.fault_count disk.new)) }
{
    let count = disk.length(Area::Log)?;
    if count == 0 {
        return Ok(());
    }
    cut_and_sync(disk, Area::Log, 0)
}

impl EditLog {
    /// Reads a log, and leaves it in the second area, with a gate 0 at its end.
    ///
    /// Where the second area is open, the log in it is read, and the gate at its end is closed where that is not a byte 0.
    /// Else the log of before is read, and moves into the second area, each entry with the moment 0. Then the area of the
    /// log of before is emptied.
    ///
    /// A crash at any moment leaves a whole log with the entries that were read, in the one area or in the other; or with one
    /// more, where a torn gate at the end of an open second area hid it. A log that is damaged is left as it was. Where memory
    /// runs out the log stays where it was read, and some of it may stand in the second area, which is closed then.
    ///
    /// It reads the bytes of one log, once, in time linear in their number, and of a second area that is closed no more than
    /// its first byte. Whether the entries fit one after another it does not ask.
    pub fn open<D: Disk>(alloc: Global, disk: &mut D) -> Result<(EditLog, List<Logged>), LogFault>
        ensures any_moment { (rows : _) → AsRead (D.state disk.old).reads (HoldsWhole rows) → LeavesOnly (D.state disk.old) (D.state disk.new) (HoldsAsRead rows (D.state disk.old).reads) }
        ensures entries { IfOk result (λ opened. WhereTold (D.state disk.old).reads (ReadsIn opened.0.read (plain_log opened.1.items))) }
        ensures spelled { IfOk result (λ opened. AllByRecursion (HasBody opened.0.read) (plain_log opened.1.items)) }
        ensures few { IfOk result (λ opened. length (plain_log opened.1.items) ≤ most_entries) }
        ensures stands { IfOk result (λ opened. IsSome (D.state disk.old).reads → IsOpen (D.state disk.new) opened.0 (plain_log opened.1.items)) }
        ensures idle { IfOk result (λ opened. opened.0.pending ≡ Pending.Nothing) }
        ensures moved { IfOk result (λ opened. BothTold (D.state disk.old).reads (D.state disk.new).reads (IsMoved opened.0.read (plain_log opened.1.items))) }
        ensures damaged { OnDamaged result (λ at. WhereTold (D.state disk.old).reads (IsDamaged at)) }
        ensures untouched { OnDamaged result (λ at. (D.state disk.new).reads ≡ (D.state disk.old).reads) }
        ensures found { OnNoMemory result (BothTold (D.state disk.old).reads (D.state disk.new).reads IsAsFound) }
        ensures others { LeavesBut is_logged (D.state disk.old) (D.state disk.new) }
        ensures never_falls { D.fault_count disk.old ≤ D.fault_count disk.new }
        ensures failed { OnDiskFault result (HasRisen (D.fault_count disk.old) (D.fault_count disk.new)) }
    {
        // So the log in the second area is the one that was read.
        one_body();
        body_says_length();
        old_has_new();
        disk.sync(Area::Log)?;
        let opened = open_second(alloc, disk)?;
        empty_old(disk)?;
        Ok(opened)
    }
}
