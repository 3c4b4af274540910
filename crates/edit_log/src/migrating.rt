//! Moving a log of before into the second area, which stays closed until all its entries stand there.
//!
//! A move that a crash or a failure cuts short leaves nothing to be mended. Either the second area is closed, whatever stands
//! behind its gate, and the next opening moves the log anew; or it is open, and has all entries.
ghost use Rattle.std.specs.Prelude.{◌≡◌, ◌≤◌, ◌+◌, [], ◌∷◌, ◌++◌, length, IfOk, OnOk, OnErr};
ghost use Rattle.std.specs.List.{AllByRecursion};
ghost use Rattle.entry_codec.specs.Bodies.{HasBody};
ghost use Rattle.entry_codec.specs.Format.{body_of};
ghost use Rattle.entry_codec.specs.Logged.{plain_logged, plain_log};
ghost use Rattle.entry_codec.specs.declared.format.LogFormat.TheVariants.{New};
ghost use Rattle.green_io.specs.Areas.{is_same};
ghost use Rattle.green_io.specs.Disk.{LeavesOnly, LeavesBut, Nothing, WhereTold};
ghost use Rattle.green_io.specs.Outside.{HasRisen};
ghost use Rattle.edit_log.specs.Answers.{OnDamaged, OnDiskFault, OnNoMemory};
ghost use Rattle.edit_log.specs.Log.{gated, most_entries, IsEnd};
ghost use Rattle.edit_log.specs.Second.{front_of};
ghost use Rattle.edit_log.specs.inside.Ends.{IsThat, begins_shut};
ghost use Rattle.edit_log.specs.inside.Migration.{BeginsShut, IsClosedOr, Beside, ImagesHave, IsWriting};

use crate::opening::LogFault;
use entry_codec::laws::body_says_length;
use entry_codec::{Logged, encode};
use febe_data::{List, Memory, Text};
use green_io::{Area, Disk, DiskFailed, ReadAnswer, cut_and_sync, write_and_sync};
use std::alloc::Global;

/// Whether a gate stands at the front of the second area, and is 0.
fn is_shut<D: Disk>(disk: &mut D) -> Result<bool, DiskFailed>
    ensures reads { (D.state disk.new).reads ≡ (D.state disk.old).reads }
    ensures crash { LeavesOnly (D.state disk.old) (D.state disk.new) Nothing }
    ensures never_falls { D.fault_count disk.old ≤ D.fault_count disk.new }
    ensures failed { OnErr result (HasRisen (D.fault_count disk.old) (D.fault_count disk.new)) }
    ensures shut { IfOk result (λ shut. WhereTold (D.state disk.old).reads (λ areas. shut ≡ begins_shut areas.second)) }
{
    let mut gate = [0; 1];
    match disk.read(Area::Second, 0, &mut gate) {
        ReadAnswer::Got(_) => Ok(gate[0] == 0),
        ReadAnswer::End => Ok(false),
        ReadAnswer::Failed => Err(DiskFailed),
    }
}

/// Empties the second area, which is closed, and writes a gate 0 there. With nothing behind it the area stays closed
/// whatever byte a crash leaves of that gate.
fn shut_anew<D: Disk>(disk: &mut D) -> Result<(), DiskFailed>
    ensures any_moment { (log : _) → ImagesHave (D.state disk.old) (Beside log IsEnd) → LeavesOnly (D.state disk.old) (D.state disk.new) (Beside log IsEnd) }
    ensures shut { (log : _) → ImagesHave (D.state disk.old) (Beside log IsEnd) → OnOk result (ImagesHave (D.state disk.new) (Beside log BeginsShut)) }
    ensures others { LeavesBut (is_same Area.Second) (D.state disk.old) (D.state disk.new) }
    ensures never_falls { D.fault_count disk.old ≤ D.fault_count disk.new }
    ensures failed { OnErr result (HasRisen (D.fault_count disk.old) (D.fault_count disk.new)) }
{
    cut_and_sync(disk, Area::Second, 0)?;
    write_and_sync(disk, Area::Second, 0, &[0])?;
    Ok(())
}

/// The first step: a gate 0 stands at the front of the second area, which is closed and stable.
fn shut_front<D: Disk>(disk: &mut D) -> Result<(), DiskFailed>
    ensures any_moment { (log second : _) → IsEnd second → ImagesHave (D.state disk.old) (Beside log (IsThat second)) → LeavesOnly (D.state disk.old) (D.state disk.new) (Beside log IsEnd) }
    ensures shut { (log second : _) → IsEnd second → ImagesHave (D.state disk.old) (Beside log (IsThat second)) → OnOk result (ImagesHave (D.state disk.new) (Beside log BeginsShut)) }
    ensures others { LeavesBut (is_same Area.Second) (D.state disk.old) (D.state disk.new) }
    ensures never_falls { D.fault_count disk.old ≤ D.fault_count disk.new }
    ensures failed { OnErr result (HasRisen (D.fault_count disk.old) (D.fault_count disk.new)) }
{
    let shut = is_shut(disk)?;
    if shut {
        return Ok(());
    }
    shut_anew(disk)
}

/// The second step: nothing stands behind that gate, also where entries were left there by a crash.
fn cut_rest<D: Disk>(disk: &mut D) -> Result<(), DiskFailed>
    ensures any_moment { (log : _) → ImagesHave (D.state disk.old) (Beside log BeginsShut) → LeavesOnly (D.state disk.old) (D.state disk.new) (Beside log BeginsShut) }
    ensures cut { (log : _) → ImagesHave (D.state disk.old) (Beside log BeginsShut) → OnOk result (ImagesHave (D.state disk.new) (Beside log (IsThat (0 ∷ [])))) }
    ensures others { LeavesBut (is_same Area.Second) (D.state disk.old) (D.state disk.new) }
    ensures never_falls { D.fault_count disk.old ≤ D.fault_count disk.new }
    ensures failed { OnErr result (HasRisen (D.fault_count disk.old) (D.fault_count disk.new)) }
{
    cut_and_sync(disk, Area::Second, 1)
}

/// An open gate, and behind it the body of this entry with its moment.
fn gated_body(alloc: Global, row: &Logged) -> Result<Text, Memory>
    requires { HasBody New (plain_logged row.now) }
    ensures { IfOk result (λ bytes. bytes.items ≡ 1 ∷ body_of New (plain_logged row.now)) }
{
    let body = encode(alloc, &row.entry, row.moment)?;
    let mut bytes = List::new(alloc);
    bytes.reserve(body.len().saturating_add(1))?;
    bytes.push(1)?;
    bytes.extend_from_slice(body.as_slice())?;
    Ok(bytes)
}

/// Writes one entry with its gate at `at`, where the entries before it end, and answers how many bytes these are. They
/// are not synced.
fn write_row<D: Disk>(alloc: Global, disk: &mut D, at: u64, row: &Logged) -> Result<u64, LogFault>
    requires { HasBody New (plain_logged row.now) }
    ensures count { IfOk result (λ count. count ≡ length (body_of New (plain_logged row.now)) + 1) }
    ensures any_moment { (log : _) → 1 ≤ at → ImagesHave (D.state disk.old) (Beside log BeginsShut) → LeavesOnly (D.state disk.old) (D.state disk.new) (Beside log BeginsShut) }
    ensures written { (log written : _) → at ≡ length (0 ∷ written) → IsWriting (D.state disk.old) log written → OnOk result (IsWriting (D.state disk.new) log (written ++ (1 ∷ body_of New (plain_logged row.now)))) }
    ensures no_damage { OnDamaged result (λ at. ⊥) }
    ensures others { LeavesBut (is_same Area.Second) (D.state disk.old) (D.state disk.new) }
    ensures never_falls { D.fault_count disk.old ≤ D.fault_count disk.new }
    ensures failed { OnDiskFault result (HasRisen (D.fault_count disk.old) (D.fault_count disk.new)) }
{
    let Ok(bytes) = gated_body(alloc, row) else {
        return Err(LogFault::Memory);
    };
    disk.write(Area::Second, at, bytes.as_slice())?;
    Ok(bytes.len() as u64)
}

/// Writes all these entries behind the gate of the second area, and answers where they end.
fn write_rows<D: Disk>(alloc: Global, disk: &mut D, rows: &[Logged]) -> Result<u64, LogFault>
    requires spelled { AllByRecursion (HasBody New) (plain_log rows.now) }
    requires few { length rows.now ≤ most_entries }
    ensures ends { IfOk result (λ at. at ≡ length (front_of (plain_log rows.now))) }
    ensures any_moment { (log : _) → ImagesHave (D.state disk.old) (Beside log BeginsShut) → LeavesOnly (D.state disk.old) (D.state disk.new) (Beside log BeginsShut) }
    ensures written { (log : _) → IsWriting (D.state disk.old) log [] → OnOk result (IsWriting (D.state disk.new) log (gated New (plain_log rows.now))) }
    ensures no_damage { OnDamaged result (λ at. ⊥) }
    ensures others { LeavesBut (is_same Area.Second) (D.state disk.old) (D.state disk.new) }
    ensures never_falls { D.fault_count disk.old ≤ D.fault_count disk.new }
    ensures failed { OnDiskFault result (HasRisen (D.fault_count disk.old) (D.fault_count disk.new)) }
{
    // So the end stays far below the greatest number.
    body_says_length();
    let mut at: u64 = 1;
    for row in rows {
        let count = write_row(alloc, disk, at, row)?;
        at += count;
    }
    Ok(at)
}

/// The third step: all these entries stand behind the gate, and a last gate 0 behind them, at the place that it answers.
/// One sync makes them stable, since the area is closed until then.
fn write_log<D: Disk>(alloc: Global, disk: &mut D, rows: &[Logged]) -> Result<u64, LogFault>
    requires spelled { AllByRecursion (HasBody New) (plain_log rows.now) }
    requires few { length rows.now ≤ most_entries }
    ensures ends { IfOk result (λ at. at ≡ length (front_of (plain_log rows.now))) }
    ensures any_moment { (log : _) → ImagesHave (D.state disk.old) (Beside log (IsThat (0 ∷ []))) → LeavesOnly (D.state disk.old) (D.state disk.new) (Beside log BeginsShut) }
    ensures written { (log : _) → ImagesHave (D.state disk.old) (Beside log (IsThat (0 ∷ []))) → OnOk result (ImagesHave (D.state disk.new) (Beside log (IsThat (0 ∷ (gated New (plain_log rows.now) ++ (0 ∷ [])))))) }
    ensures no_damage { OnDamaged result (λ at. ⊥) }
    ensures others { LeavesBut (is_same Area.Second) (D.state disk.old) (D.state disk.new) }
    ensures never_falls { D.fault_count disk.old ≤ D.fault_count disk.new }
    ensures failed { OnDiskFault result (HasRisen (D.fault_count disk.old) (D.fault_count disk.new)) }
{
    let end = write_rows(alloc, disk, rows)?;
    disk.write(Area::Second, end, &[0])?;
    disk.sync(Area::Second)?;
    Ok(end)
}

/// The fourth step: the second area is opened.
fn open_front<D: Disk>(disk: &mut D) -> Result<(), DiskFailed>
    ensures any_moment { (log rest : _) → ImagesHave (D.state disk.old) (Beside log (IsThat (0 ∷ rest))) → LeavesOnly (D.state disk.old) (D.state disk.new) (Beside log (IsClosedOr (1 ∷ rest))) }
    ensures opened { (log rest : _) → ImagesHave (D.state disk.old) (Beside log (IsThat (0 ∷ rest))) → OnOk result (ImagesHave (D.state disk.new) (Beside log (IsThat (1 ∷ rest)))) }
    ensures others { LeavesBut (is_same Area.Second) (D.state disk.old) (D.state disk.new) }
    ensures never_falls { D.fault_count disk.old ≤ D.fault_count disk.new }
    ensures failed { OnErr result (HasRisen (D.fault_count disk.old) (D.fault_count disk.new)) }
{
    write_and_sync(disk, Area::Second, 0, &[1])
}

/// Moves these entries, which were read from the log of before, into the second area, which is closed. Both are stable. It
/// answers where the end gate stands.
///
/// The second area stays closed until all of them stand in it and are stable, so a crash leaves the log of before to be read,
/// or all of the new one. The log of before is not touched. Where memory runs out the second area is closed.
pub(crate) fn migrate<D: Disk>(
    alloc: Global,
    disk: &mut D,
    rows: &[Logged],
) -> Result<u64, LogFault>
    requires spelled { AllByRecursion (HasBody New) (plain_log rows.now) }
    requires few { length rows.now ≤ most_entries }
    ensures ends { IfOk result (λ at. at ≡ length (front_of (plain_log rows.now))) }
    ensures any_moment { (log second : _) → IsEnd second → ImagesHave (D.state disk.old) (Beside log (IsThat second)) → LeavesOnly (D.state disk.old) (D.state disk.new) (Beside log (IsClosedOr (front_of (plain_log rows.now) ++ (0 ∷ [])))) }
    ensures moved { (log second : _) → IsEnd second → ImagesHave (D.state disk.old) (Beside log (IsThat second)) → OnOk result (ImagesHave (D.state disk.new) (Beside log (IsThat (front_of (plain_log rows.now) ++ (0 ∷ []))))) }
    ensures closed { (log second : _) → IsEnd second → ImagesHave (D.state disk.old) (Beside log (IsThat second)) → OnNoMemory result (ImagesHave (D.state disk.new) (Beside log IsEnd)) }
    ensures no_damage { OnDamaged result (λ at. ⊥) }
    ensures others { LeavesBut (is_same Area.Second) (D.state disk.old) (D.state disk.new) }
    ensures never_falls { D.fault_count disk.old ≤ D.fault_count disk.new }
    ensures failed { OnDiskFault result (HasRisen (D.fault_count disk.old) (D.fault_count disk.new)) }
{
    shut_front(disk)?;
    cut_rest(disk)?;
    let end = write_log(alloc, disk, rows)?;
    open_front(disk)?;
    Ok(end)
}
