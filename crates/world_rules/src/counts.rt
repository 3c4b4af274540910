//! Numbers that are kept by address.
ghost use Rattle.std.specs.Prelude.{◌≡◌, ℕ, ◌+◌, ◌-◌, ◌<◌, ◌^◌, List, OnOk, OnErr};
ghost use Rattle.world_rules.specs.Counting.{count_in, CountsAs};

use febe_data::{Memory, Tumbler};
use std::collections::BTreeMap;

/// The number at the address, 0 where none is kept.
pub fn count_of(counts: &BTreeMap<Tumbler, u32>, address: &Tumbler) -> u32
    ensures { result ≡ count_in counts.now address.now }
{
    match counts.get(address) {
        Some(count) => *count,
        None => 0,
    }
}

/// One more at the address.
pub fn count_up(counts: &mut BTreeMap<Tumbler, u32>, address: Tumbler) -> Result<(), Memory>
    requires { count_in counts.old address + 1 < 2 ^ 32 }
    ensures counted { OnOk result (CountsAs address (count_in counts.old address + 1) counts.old counts.new) }
    ensures refused { OnErr result ((key : List ℕ) → count_in counts.new key ≡ count_in counts.old key) }
{
    let count = count_of(counts, &address);
    counts.insert(address, count + 1)?;
    Ok(())
}

/// One less at the address. It takes no memory: the number is there.
pub fn count_down(counts: &mut BTreeMap<Tumbler, u32>, address: Tumbler)
    ensures { CountsAs address (count_in counts.old address - 1) counts.old counts.new }
{
    let count = count_of(counts, &address);
    if count <= 1 {
        counts.remove(&address);
        return;
    }
    let Ok(_) = counts.insert(address, count - 1) else {
        unreachable!()
    };
}
