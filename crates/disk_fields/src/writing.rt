//! How fields are written, at the end of a text.
ghost use Rattle.std.specs.Prelude.{◌≡◌, ◌-◌, ◌<◌, ◌≤◌, ◌++◌, ◌∷◌, [], length, OnOk};
ghost use Rattle.std.specs.List.{flat_map};
ghost use Rattle.disk_fields.specs.Format.{IsU32, u32_bytes, u64_bytes, tumbler_bytes, text_bytes};

use febe_data::{Memory, Text, Tumbler};

pub fn append_u8(out: &mut Text, n: u8) -> Result<(), Memory>
    ensures { OnOk result (out.new.items ≡ out.old.items ++ n ∷ []) }
{
    out.push(n)
}

pub fn append_u32(out: &mut Text, n: u32) -> Result<(), Memory>
    ensures { OnOk result (out.new.items ≡ out.old.items ++ u32_bytes n) }
{
    out.extend_from_slice(&n.to_be_bytes())
}

pub fn append_u64(out: &mut Text, n: u64) -> Result<(), Memory>
    ensures { OnOk result (out.new.items ≡ out.old.items ++ u64_bytes n) }
{
    out.extend_from_slice(&n.to_be_bytes())
}

/// Adds a number where there is room for its four bytes.
fn push_number(out: &mut Text, n: u32)
    requires { 4 ≤ out.old.spare }
    ensures items { out.new.items ≡ out.old.items ++ u32_bytes n }
    ensures spare { out.new.spare ≡ out.old.spare - 4 }
{
    let [first, second, third, last] = n.to_be_bytes();
    out.push_reserved(first);
    out.push_reserved(second);
    out.push_reserved(third);
    out.push_reserved(last);
}

/// Room for all of them is made at once. Numbers whose bytes can't be counted find none.
pub fn append_each_number(out: &mut Text, numbers: &[u32]) -> Result<(), Memory>
    ensures { OnOk result (out.new.items ≡ out.old.items ++ flat_map u32_bytes numbers.now) }
{
    let Some(bytes) = numbers.len().checked_mul(4) else {
        return Err(Memory);
    };
    out.reserve(bytes)?;
    for number in numbers {
        push_number(out, *number);
    }
    Ok(())
}

pub fn append_tumbler(out: &mut Text, tumbler: &Tumbler) -> Result<(), Memory>
    ensures { OnOk result (out.new.items ≡ out.old.items ++ tumbler_bytes tumbler.now) }
{
    let places = tumbler.places();
    append_u8(out, places.len() as u8)?;
    append_each_number(out, places)
}

/// A text of fewer than 2^32 bytes.
pub fn append_text(out: &mut Text, text: &[u8]) -> Result<(), Memory>
    requires { IsU32 (length text.now) }
    ensures { OnOk result (out.new.items ≡ out.old.items ++ text_bytes text.now) }
{
    append_u32(out, text.len() as u32)?;
    out.extend_from_slice(text)
}
