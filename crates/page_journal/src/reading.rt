//! Reading bytes of an area.
ghost use Rattle.std.specs.Prelude.{◌≡◌, ◌+◌, ◌^◌, ◌<◌, ◌≤◌, length, take, drop, IfOk, IsTrue};
ghost use Rattle.green_io.specs.Areas.{area_of};
ghost use Rattle.green_io.specs.Disk.{LeavesOnly, WhereTold, Nothing};
ghost use Rattle.green_io.specs.Outside.{HasRisen};
ghost use Rattle.page_journal.specs.Answers.{OnDiskFault};
ghost use Rattle.page_journal.specs.inside.Reading.{ReadsOn};

use crate::page_fault::PageFault;
use febe_data::Text;
use green_io::{Area, Disk, ReadAnswer};

/// How many bytes are read at once.
const PIECE: usize = 4096;

/// Reads one piece behind the bytes that were read from this place on, of which fewer are there than are wanted. It
/// says whether more may come.
fn read_piece<D: Disk>(
    disk: &mut D,
    area: Area,
    at: u64,
    count: u64,
    bytes: &mut Text,
) -> Result<bool, PageFault>
    requires room { at + count < 2 ^ 64 }
    requires wanted { length bytes.old.items < count }
    ensures reads { (D.state disk.new).reads ≡ (D.state disk.old).reads }
    ensures crash { LeavesOnly (D.state disk.old) (D.state disk.new) Nothing }
    ensures never_falls { D.fault_count disk.old ≤ D.fault_count disk.new }
    ensures failed { OnDiskFault result (HasRisen (D.fault_count disk.old) (D.fault_count disk.new)) }
    ensures piece { IfOk result (λ more. WhereTold (D.state disk.old).reads (λ areas. ReadsOn more at bytes.old.items bytes.new.items (area_of area areas))) }
    ensures grows { IfOk result (λ more. IsTrue more → length bytes.old.items < length bytes.new.items) }
{
    let mut piece = [0; PIECE];
    let had = bytes.len() as u64;
    match disk.read(area, at + had, &mut piece) {
        ReadAnswer::Got(n) => {
            if bytes.extend_from_slice(&piece[..n]).is_err() {
                return Err(PageFault::Memory);
            }
            Ok(true)
        }
        ReadAnswer::End => Ok(false),
        ReadAnswer::Failed => Err(PageFault::Disk),
    }
}

/// Reads so many bytes of the area from this place on, or fewer where it ends before. They take the place of the
/// bytes that are given.
#[tactic(auto, using(crate::proofs::PageReads::range_steps))]
pub(crate) fn read_range<D: Disk>(
    disk: &mut D,
    area: Area,
    at: u64,
    count: u64,
    bytes: &mut Text,
) -> Result<(), PageFault>
    requires { at + count < 2 ^ 64 }
    ensures reads { (D.state disk.new).reads ≡ (D.state disk.old).reads }
    ensures crash { LeavesOnly (D.state disk.old) (D.state disk.new) Nothing }
    ensures never_falls { D.fault_count disk.old ≤ D.fault_count disk.new }
    ensures failed { OnDiskFault result (HasRisen (D.fault_count disk.old) (D.fault_count disk.new)) }
    ensures range { IfOk result (λ done. WhereTold (D.state disk.old).reads (λ areas. bytes.new.items ≡ take count (drop at (area_of area areas)))) }
{
    bytes.truncate(0);
    while (bytes.len() as u64) < count {
        if !read_piece(disk, area, at, count, bytes)? {
            return Ok(());
        }
    }
    bytes.truncate(count as usize);
    Ok(())
}
