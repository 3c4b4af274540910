//! Reading all bytes of an area with a log, and whether the second one is open.
ghost use Rattle.std.specs.Prelude.{◌≡◌, ◌≤◌, ◌<◌, length, IfOk, IsTrue, OnOk, OnErr};
ghost use Rattle.green_io.specs.Areas.{area_of};
ghost use Rattle.green_io.specs.Disk.{LeavesOnly, WhereTold, IsStable, Nothing, images_now};
ghost use Rattle.green_io.specs.Outside.{HasRisen};
ghost use Rattle.edit_log.specs.Answers.{OnDamaged, OnDiskFault};
ghost use Rattle.edit_log.specs.inside.Pieces.{ReadsOn, TellsOpen};

use crate::opening::LogFault;
use febe_data::{List, Text};
use green_io::{Area, Disk, DiskFailed, ReadAnswer};
use std::alloc::Global;

/// How many bytes are read at once.
const PIECE: usize = 4096;

impl From<DiskFailed> for LogFault {
    ghost use Rattle.edit_log.specs.declared.opening.LogFault.TheVariants.{Disk};

    ghost from_gives = { λ _ fault. fault ≡ Disk };

    fn from(_failed: DiskFailed) -> LogFault {
        LogFault::Disk
    }
}

/// Reads one piece of the area behind the bytes that were read. It says whether more may come.
fn read_piece<D: Disk>(disk: &mut D, area: Area, bytes: &mut Text) -> Result<bool, LogFault>
    ensures reads { (D.state disk.new).reads ≡ (D.state disk.old).reads }
    ensures crash { LeavesOnly (D.state disk.old) (D.state disk.new) Nothing }
    ensures never_falls { D.fault_count disk.old ≤ D.fault_count disk.new }
    ensures failed { OnDiskFault result (HasRisen (D.fault_count disk.old) (D.fault_count disk.new)) }
    ensures no_damage { OnDamaged result (λ at. ⊥) }
    ensures piece { IfOk result (λ more. WhereTold (D.state disk.old).reads (λ areas. ReadsOn more bytes.old.items bytes.new.items (area_of area areas))) }
    ensures grows { IfOk result (λ more. IsTrue more → length bytes.old.items < length bytes.new.items) }
{
    let mut piece = [0; PIECE];
    match disk.read(area, bytes.len() as u64, &mut piece) {
        ReadAnswer::Got(n) => {
            if bytes.extend_from_slice(&piece[..n]).is_err() {
                return Err(LogFault::Memory);
            }
            Ok(true)
        }
        ReadAnswer::End => Ok(false),
        ReadAnswer::Failed => Err(LogFault::Disk),
    }
}

/// Reads the area, which has so many bytes.
fn read_all<D: Disk>(alloc: Global, disk: &mut D, area: Area, count: u64) -> Result<Text, LogFault>
    ensures reads { (D.state disk.new).reads ≡ (D.state disk.old).reads }
    ensures crash { LeavesOnly (D.state disk.old) (D.state disk.new) Nothing }
    ensures never_falls { D.fault_count disk.old ≤ D.fault_count disk.new }
    ensures failed { OnDiskFault result (HasRisen (D.fault_count disk.old) (D.fault_count disk.new)) }
    ensures no_damage { OnDamaged result (λ at. ⊥) }
    ensures bytes { IfOk result (λ bytes. WhereTold (D.state disk.old).reads (λ areas. count ≡ length (area_of area areas) → bytes.items ≡ area_of area areas)) }
{
    let mut bytes = List::new(alloc);
    while (bytes.len() as u64) < count {
        if !read_piece(disk, area, &mut bytes)? {
            return Ok(bytes);
        }
    }
    Ok(bytes)
}

/// Reads all bytes of the area.
#[tactic(auto, using(green_io::proofs::Crash::crash_steps))]
pub(crate) fn read_area<D: Disk>(alloc: Global, disk: &mut D, area: Area) -> Result<Text, LogFault>
    ensures reads { (D.state disk.new).reads ≡ (D.state disk.old).reads }
    ensures crash { LeavesOnly (D.state disk.old) (D.state disk.new) Nothing }
    ensures never_falls { D.fault_count disk.old ≤ D.fault_count disk.new }
    ensures failed { OnDiskFault result (HasRisen (D.fault_count disk.old) (D.fault_count disk.new)) }
    ensures no_damage { OnDamaged result (λ at. ⊥) }
    ensures bytes { IfOk result (λ bytes. WhereTold (D.state disk.old).reads (λ areas. bytes.items ≡ area_of area areas)) }
{
    let count = disk.length(area)?;
    let bytes = read_all(alloc, disk, area, count)?;
    Ok(bytes)
}

/// Whether the first byte of the second area, which has more than one, is 1.
fn has_open_gate<D: Disk>(disk: &mut D) -> Result<bool, DiskFailed>
    ensures reads { (D.state disk.new).reads ≡ (D.state disk.old).reads }
    ensures crash { LeavesOnly (D.state disk.old) (D.state disk.new) Nothing }
    ensures never_falls { D.fault_count disk.old ≤ D.fault_count disk.new }
    ensures failed { OnErr result (HasRisen (D.fault_count disk.old) (D.fault_count disk.new)) }
    ensures open { IfOk result (λ opened. WhereTold (D.state disk.old).reads (λ areas. 1 < length areas.second → TellsOpen opened areas.second)) }
{
    let mut gate = [0; 1];
    match disk.read(Area::Second, 0, &mut gate) {
        ReadAnswer::Got(_) => Ok(gate[0] == 1),
        ReadAnswer::End => Ok(false),
        ReadAnswer::Failed => Err(DiskFailed),
    }
}

/// Makes the second area stable, and says whether it is open: it has more than one byte, and the first is 1. No other
/// byte of it is read.
#[tactic(auto, using(green_io::proofs::Crash::crash_steps))]
pub(crate) fn is_open<D: Disk>(disk: &mut D) -> Result<bool, DiskFailed>
    ensures reads { (D.state disk.new).reads ≡ (D.state disk.old).reads }
    ensures crash { LeavesOnly (D.state disk.old) (D.state disk.new) Nothing }
    ensures never_falls { D.fault_count disk.old ≤ D.fault_count disk.new }
    ensures failed { OnErr result (HasRisen (D.fault_count disk.old) (D.fault_count disk.new)) }
    ensures open { IfOk result (λ opened. WhereTold (D.state disk.old).reads (λ areas. TellsOpen opened areas.second)) }
    ensures durable { OnOk result (IsStable Area.Second (D.state disk.new).reads (images_now (D.state disk.new))) }
{
    disk.sync(Area::Second)?;
    let count = disk.length(Area::Second)?;
    if count <= 1 {
        return Ok(false);
    }
    let opened = has_open_gate(disk)?;
    Ok(opened)
}
