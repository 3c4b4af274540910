//! The phases of a commit: a few writes each, and a sync.
ghost use Rattle.std.specs.Prelude.{◌≡◌, ◌*◌, ◌≤◌, IsSome, OnOk, OnErr};
ghost use Rattle.green_io.specs.Areas.{is_same};
ghost use Rattle.green_io.specs.Disk.{LeavesOnly, LeavesBut, WhereTold};
ghost use Rattle.green_io.specs.Outside.{HasRisen};
ghost use Rattle.page_journal.specs.Pages.{Bytes, Writes, home_after};
ghost use Rattle.page_journal.specs.Images.{IsShut, IsAjar, IsGated, HomeIs, IsMidway, AllHave};
ghost use Rattle.page_journal.specs.JournalView.{IsRecordOf};
ghost use Rattle.page_journal.specs.inside.Phases.{IsRun, IsStaged, LaidHome};

use crate::records::{split_count, split_entry};
use green_io::{Area, Disk, DiskFailed, write_and_sync};

/// Where the record stands in the Journal.
pub(crate) const RECORD_AT: u64 = 4096;

/// How far the pages of Home stand apart.
pub(crate) const PAGE_STEP: u64 = 4096;

/// Puts a record into the Journal, behind the gate, which stays a stable 0.
pub(crate) fn stage_record<D: Disk>(disk: &mut D, kept: &[u8]) -> Result<(), DiskFailed>
    ensures any_moment { (home : Bytes) → AllHave (D.state disk.old) (HomeIs home IsShut) → LeavesOnly (D.state disk.old) (D.state disk.new) (HomeIs home IsShut) }
    ensures staged { (home : Bytes) (writes : Writes) → IsRecordOf kept.now writes → AllHave (D.state disk.old) (HomeIs home IsShut) → OnOk result (AllHave (D.state disk.new) (HomeIs home (IsAjar writes))) }
    ensures shut { (home : Bytes) → AllHave (D.state disk.old) (HomeIs home IsShut) → OnErr result (AllHave (D.state disk.new) (HomeIs home IsShut)) }
    ensures others { LeavesBut (is_same Area.Journal) (D.state disk.old) (D.state disk.new) }
    ensures never_falls { D.fault_count disk.old ≤ D.fault_count disk.new }
    ensures failed { OnErr result (HasRisen (D.fault_count disk.old) (D.fault_count disk.new)) }
{
    write_and_sync(disk, Area::Journal, RECORD_AT, kept)
}

/// Writes 1 to the gate, behind which pages are staged.
pub(crate) fn open_gate<D: Disk>(disk: &mut D) -> Result<(), DiskFailed>
    ensures any_moment { (home : Bytes) (writes : Writes) → AllHave (D.state disk.old) (HomeIs home (IsAjar writes)) → LeavesOnly (D.state disk.old) (D.state disk.new) (HomeIs home (IsAjar writes)) }
    ensures opened { (home : Bytes) (writes : Writes) → AllHave (D.state disk.old) (HomeIs home (IsAjar writes)) → OnOk result (AllHave (D.state disk.new) (HomeIs home (IsGated writes))) }
    ensures ajar { (home : Bytes) (writes : Writes) → AllHave (D.state disk.old) (HomeIs home (IsAjar writes)) → OnErr result (AllHave (D.state disk.new) (HomeIs home (IsAjar writes))) }
    ensures others { LeavesBut (is_same Area.Journal) (D.state disk.old) (D.state disk.new) }
    ensures never_falls { D.fault_count disk.old ≤ D.fault_count disk.new }
    ensures failed { OnErr result (HasRisen (D.fault_count disk.old) (D.fault_count disk.new)) }
{
    write_and_sync(disk, Area::Journal, 0, &[1])
}

/// Writes 0 to the gate, behind which pages are staged.
pub(crate) fn close_gate<D: Disk>(disk: &mut D) -> Result<(), DiskFailed>
    ensures any_moment { (home : Bytes) (writes : Writes) → AllHave (D.state disk.old) (HomeIs home (IsAjar writes)) → LeavesOnly (D.state disk.old) (D.state disk.new) (HomeIs home (IsAjar writes)) }
    ensures closed { (home : Bytes) (writes : Writes) → AllHave (D.state disk.old) (HomeIs home (IsAjar writes)) → OnOk result (AllHave (D.state disk.new) (HomeIs home IsShut)) }
    ensures ajar { (home : Bytes) (writes : Writes) → AllHave (D.state disk.old) (HomeIs home (IsAjar writes)) → OnErr result (AllHave (D.state disk.new) (HomeIs home (IsAjar writes))) }
    ensures others { LeavesBut (is_same Area.Journal) (D.state disk.old) (D.state disk.new) }
    ensures never_falls { D.fault_count disk.old ≤ D.fault_count disk.new }
    ensures failed { OnErr result (HasRisen (D.fault_count disk.old) (D.fault_count disk.new)) }
{
    write_and_sync(disk, Area::Journal, 0, &[0])
}

/// Writes so many pages of a record to Home, one after another.
fn write_pages<D: Disk>(disk: &mut D, count: u32, pages: &[u8]) -> Result<(), DiskFailed>
    ensures any_moment { (before : Bytes) (writes : Writes) → IsRun count pages.now writes → AllHave (D.state disk.old) (IsMidway writes before) → LeavesOnly (D.state disk.old) (D.state disk.new) (IsMidway writes before) }
    ensures told { IsSome (D.state disk.old).reads → IsSome (D.state disk.new).reads }
    ensures written { (writes : Writes) → IsRun count pages.now writes → OnOk result (LaidHome writes (D.state disk.old).reads (D.state disk.new).reads) }
    ensures others { LeavesBut (is_same Area.Home) (D.state disk.old) (D.state disk.new) }
    ensures never_falls { D.fault_count disk.old ≤ D.fault_count disk.new }
    ensures failed { OnErr result (HasRisen (D.fault_count disk.old) (D.fault_count disk.new)) }
{
    let mut rest = pages;
    for _ in 0..count {
        let Some(entry) = split_entry(rest) else {
            return Ok(());
        };
        disk.write(
            Area::Home,
            entry.number.saturating_mul(PAGE_STEP),
            entry.page,
        )?;
        rest = entry.behind;
    }
    Ok(())
}

/// Lays the pages of a record over Home, while its gate is a stable 1.
pub(crate) fn lay_pages<D: Disk>(disk: &mut D, kept: &[u8]) -> Result<(), DiskFailed>
    ensures any_moment { (before : Bytes) (writes : Writes) → IsStaged kept.now writes → AllHave (D.state disk.old) (IsMidway writes before) → LeavesOnly (D.state disk.old) (D.state disk.new) (IsMidway writes before) }
    ensures laid { (before : Bytes) (writes : Writes) → IsStaged kept.now writes → AllHave (D.state disk.old) (IsMidway writes before) → OnOk result (WhereTold (D.state disk.old).reads (λ areas. AllHave (D.state disk.new) (HomeIs (home_after writes areas.home) (IsGated writes)))) }
    ensures midway { (before : Bytes) (writes : Writes) → IsStaged kept.now writes → AllHave (D.state disk.old) (IsMidway writes before) → OnErr result (AllHave (D.state disk.new) (IsMidway writes before)) }
    ensures others { LeavesBut (is_same Area.Home) (D.state disk.old) (D.state disk.new) }
    ensures never_falls { D.fault_count disk.old ≤ D.fault_count disk.new }
    ensures failed { OnErr result (HasRisen (D.fault_count disk.old) (D.fault_count disk.new)) }
{
    let Some((count, pages)) = split_count(kept) else {
        return Ok(());
    };
    write_pages(disk, count, pages)?;
    disk.sync(Area::Home)?;
    Ok(())
}
