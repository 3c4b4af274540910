//! How many items a list has.
ghost use Rattle.std.specs.Prelude.{◌≡◌, ◌++◌, OnOk};
ghost use Rattle.disk_fields.specs.Format.{IsU32, u32_bytes};

use disk_fields::append_u32;
use tumbler::{Memory, Text};

/// A count in four bytes. One that these have no room for is refused, as if memory ran out.
pub(crate) fn append_count(out: &mut Text, count: usize) -> Result<(), Memory>
    ensures spelled { OnOk result (out.new.items ≡ out.old.items ++ u32_bytes count) }
    ensures counted { OnOk result (IsU32 count) }
{
    if count > u32::MAX as usize {
        return Err(Memory);
    }
    append_u32(out, count as u32)
}
