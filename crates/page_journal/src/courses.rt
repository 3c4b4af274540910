//! Phases in their order: how a commit is carried out, and how one that is unfinished is finished.
ghost use Rattle.std.specs.Prelude.{◌≡◌, ◌⊎◌, ◌≤◌, OnOk, OnErr};
ghost use Rattle.green_io.specs.Disk.{LeavesOnly, LeavesBut, WhereTold};
ghost use Rattle.green_io.specs.Outside.{HasRisen};
ghost use Rattle.page_journal.specs.Pages.{Bytes, Writes, pages_of, home_after};
ghost use Rattle.page_journal.specs.Images.{IsAjar, HomeIs, IsMidway, AllHave, GivesEither, is_paged};
ghost use Rattle.page_journal.specs.JournalView.{IsSettled, IsAt, IsRecordOf, IsFinished};
ghost use Rattle.page_journal.specs.inside.Phases.{IsStaged};
ghost use Rattle.page_journal.specs.inside.Courses.{GivesLaid, IsLeftAt, IsFinishedOver};

use crate::phases::{close_gate, lay_pages, open_gate, stage_record};
use crate::stage::Stage;
use green_io::{Disk, DiskFailed};

/// Lays the staged pages over Home behind a gate that is a stable 1, and closes the gate.
pub(crate) fn lay<D: Disk>(disk: &mut D, stage: &mut Stage, kept: &[u8]) -> Result<(), DiskFailed>
    ensures any_moment { (before : Bytes) (writes : Writes) → IsStaged kept.now writes → AllHave (D.state disk.old) (IsMidway writes before) → LeavesOnly (D.state disk.old) (D.state disk.new) (GivesLaid (pages_of before) writes) }
    ensures done { (before : Bytes) (writes : Writes) → IsStaged kept.now writes → AllHave (D.state disk.old) (IsMidway writes before) → OnOk result (WhereTold (D.state disk.old).reads (λ areas. IsSettled (D.state disk.new) (home_after writes areas.home))) }
    ensures fails { (before : Bytes) (writes : Writes) → IsStaged kept.now writes → AllHave (D.state disk.old) (IsMidway writes before) → OnErr result (IsAt (D.state disk.new) stage.new before writes) }
    ensures ends { OnOk result (stage.new ≡ Stage.Clean) }
    ensures others { LeavesBut is_paged (D.state disk.old) (D.state disk.new) }
    ensures never_falls { D.fault_count disk.old ≤ D.fault_count disk.new }
    ensures failed { OnErr result (HasRisen (D.fault_count disk.old) (D.fault_count disk.new)) }
{
    *stage = Stage::Writing;
    lay_pages(disk, kept)?;
    *stage = Stage::Closing;
    close_gate(disk)?;
    *stage = Stage::Clean;
    Ok(())
}

/// Opens the gate in front of a record that is stable, and lays its pages over Home.
pub(crate) fn set_off<D: Disk>(
    disk: &mut D,
    stage: &mut Stage,
    kept: &[u8],
) -> Result<(), DiskFailed>
    ensures any_moment { (home : Bytes) (writes : Writes) → IsStaged kept.now writes → AllHave (D.state disk.old) (HomeIs home (IsAjar writes)) → LeavesOnly (D.state disk.old) (D.state disk.new) (GivesEither (pages_of home) writes) }
    ensures done { (home : Bytes) (writes : Writes) → IsStaged kept.now writes → AllHave (D.state disk.old) (HomeIs home (IsAjar writes)) → OnOk result (IsSettled (D.state disk.new) (home_after writes home)) }
    ensures fails { (home : Bytes) (writes : Writes) → IsStaged kept.now writes → AllHave (D.state disk.old) (HomeIs home (IsAjar writes)) → OnErr result (IsAt (D.state disk.new) stage.new home writes) }
    ensures ends { OnOk result (stage.new ≡ Stage.Clean) }
    ensures others { LeavesBut is_paged (D.state disk.old) (D.state disk.new) }
    ensures never_falls { D.fault_count disk.old ≤ D.fault_count disk.new }
    ensures failed { OnErr result (HasRisen (D.fault_count disk.old) (D.fault_count disk.new)) }
{
    *stage = Stage::Gating;
    open_gate(disk)?;
    lay(disk, stage, kept)?;
    Ok(())
}

/// Finishes a commit from the stage in which it stopped. What the stage writes is written anew before it is synced.
pub(crate) fn finish<D: Disk>(
    disk: &mut D,
    stage: &mut Stage,
    kept: &[u8],
) -> Result<(), DiskFailed>
    ensures idle { stage.old ≡ Stage.Clean → disk.new ≡ disk.old }
    ensures any_moment { (before : Bytes) (writes : Writes) → IsStaged kept.now writes → IsAt (D.state disk.old) stage.old before writes → LeavesOnly (D.state disk.old) (D.state disk.new) (GivesEither (pages_of before) writes) }
    ensures done { (before : Bytes) (writes : Writes) → IsStaged kept.now writes → IsAt (D.state disk.old) stage.old before writes → OnOk result (IsFinishedOver (D.state disk.new) before writes) }
    ensures fails { (before : Bytes) (writes : Writes) → IsStaged kept.now writes → IsAt (D.state disk.old) stage.old before writes → OnErr result (IsAt (D.state disk.new) stage.new before writes) }
    ensures ends { OnOk result (stage.new ≡ Stage.Clean) }
    ensures stays { stage.old ≡ Stage.Clean → OnErr result ⊥ }
    ensures others { LeavesBut is_paged (D.state disk.old) (D.state disk.new) }
    ensures never_falls { D.fault_count disk.old ≤ D.fault_count disk.new }
    ensures failed { OnErr result (HasRisen (D.fault_count disk.old) (D.fault_count disk.new)) }
{
    match *stage {
        Stage::Clean => Ok(()),
        Stage::Gating => set_off(disk, stage, kept),
        Stage::Writing => lay(disk, stage, kept),
        Stage::Closing => shut(disk, stage),
    }
}

/// Closes the gate behind pages that are stable in Home.
fn shut<D: Disk>(disk: &mut D, stage: &mut Stage) -> Result<(), DiskFailed>
    ensures any_moment { (home : Bytes) (writes : Writes) → AllHave (D.state disk.old) (HomeIs home (IsAjar writes)) → LeavesOnly (D.state disk.old) (D.state disk.new) (HomeIs home (IsAjar writes)) }
    ensures done { (home : Bytes) (writes : Writes) → AllHave (D.state disk.old) (HomeIs home (IsAjar writes)) → OnOk result (IsSettled (D.state disk.new) home) }
    ensures fails { (home : Bytes) (writes : Writes) → AllHave (D.state disk.old) (HomeIs home (IsAjar writes)) → OnErr result (AllHave (D.state disk.new) (HomeIs home (IsAjar writes))) }
    ensures ends { OnOk result (stage.new ≡ Stage.Clean) }
    ensures stays { OnErr result (stage.new ≡ stage.old) }
    ensures others { LeavesBut is_paged (D.state disk.old) (D.state disk.new) }
    ensures never_falls { D.fault_count disk.old ≤ D.fault_count disk.new }
    ensures failed { OnErr result (HasRisen (D.fault_count disk.old) (D.fault_count disk.new)) }
{
    close_gate(disk)?;
    *stage = Stage::Clean;
    Ok(())
}

/// Carries out a commit of this record, where no other is unfinished.
pub(crate) fn carry_out<D: Disk>(
    disk: &mut D,
    stage: &mut Stage,
    kept: &[u8],
) -> Result<(), DiskFailed>
    ensures any_moment { (home : Bytes) (writes : Writes) → IsRecordOf kept.now writes → IsSettled (D.state disk.old) home → LeavesOnly (D.state disk.old) (D.state disk.new) (GivesEither (pages_of home) writes) }
    ensures done { (home : Bytes) (writes : Writes) → IsRecordOf kept.now writes → IsSettled (D.state disk.old) home → OnOk result (IsSettled (D.state disk.new) (home_after writes home)) }
    ensures fails { (home : Bytes) (writes : Writes) → IsRecordOf kept.now writes → IsSettled (D.state disk.old) home → stage.old ≡ Stage.Clean → OnErr result (IsLeftAt (D.state disk.new) stage.new home writes) }
    ensures ends { OnOk result (stage.new ≡ Stage.Clean) }
    ensures others { LeavesBut is_paged (D.state disk.old) (D.state disk.new) }
    ensures never_falls { D.fault_count disk.old ≤ D.fault_count disk.new }
    ensures failed { OnErr result (HasRisen (D.fault_count disk.old) (D.fault_count disk.new)) }
{
    stage_record(disk, kept)?;
    set_off(disk, stage, kept)?;
    Ok(())
}
