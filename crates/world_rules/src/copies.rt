//! Copies of what requests hold, for the entries that they make.
ghost use Rattle.std.specs.Prelude.{◌≡◌, map, IfOk};
ghost use Rattle.febe_data.specs.Plain.{plain_spec};

use febe_data::{List, Memory, Spec};
use std::alloc::Global;

/// The same specs, in memory of their own.
pub fn clone_specs(alloc: Global, specs: &[Spec]) -> Result<List<Spec>, Memory>
    ensures { IfOk result (λ copy. map plain_spec copy.items ≡ map plain_spec specs.now) }
{
    let mut copy = List::new(alloc);
    copy.reserve(specs.len())?;
    for spec in specs {
        copy.push_reserved(spec.try_clone(alloc)?);
    }
    Ok(copy)
}
