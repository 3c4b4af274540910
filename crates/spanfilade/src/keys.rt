//! Keys in ascending order, each once.
ghost use Rattle.std.specs.Prelude.{◌≡◌, map, IfOk, OnOk};
ghost use Rattle.spanfilade.specs.Keys.{with_keys, keys_of};

use enfilade_core::Row;
use std::alloc::Global;
use std::collections::BTreeSet;
use tumbler::{List, Memory, Tumbler};

/// Adds the keys of rows.
pub(crate) fn take_keys(rows: &[Row<Tumbler>], keys: &mut BTreeSet<Tumbler>) -> Result<(), Memory>
    ensures { OnOk result (keys.new.keys ≡ with_keys keys.old.keys (keys_of rows.now)) }
{
    for row in rows {
        keys.insert(row.second.copy())?;
    }
    Ok(())
}

/// The keys as a list.
pub(crate) fn listed(alloc: Global, keys: &BTreeSet<Tumbler>) -> Result<List<Tumbler>, Memory>
    ensures { IfOk result (λ made. made.items ≡ keys.now.keys) }
{
    let mut made = List::new(alloc);
    for key in keys {
        made.push(key.copy())?;
    }
    Ok(made)
}
