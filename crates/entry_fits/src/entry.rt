//! Whether an entry fits.
ghost use Rattle.std.specs.Prelude.{◌≡◌, ◌↔◌, IsTrue, IfOk, List};
ghost use Rattle.febe_data.specs.Plain.{PlainEntry, plain_entry};
ghost use Rattle.world_rules.specs.FlatView.{view_of};
ghost use Rattle.entry_fits.specs.Fits.{Fits};
ghost use Rattle.entry_fits.specs.Greatest.{greatest_serial};

use crate::changes::change_fits;
use febe_data::{Entry, Memory};
use std::alloc::Global;
use world_rules::Find;

/// Whether the entry can come after the entries that made the world, of which `greatest` is the greatest serial of its
/// session, 0 where the session has none.
///
/// It asks the world's look-ups alone, so a log whose entries are applied one after another is tested in one pass. A log
/// counts its links and bytes within their types; where a world does not, there is no memory for the answer.
pub fn fits<W: Find>(world: &W, alloc: Global, greatest: u64, entry: &Entry) -> Result<bool, Memory>
    ensures { (past : List PlainEntry) → W.stands world.now (view_of past) → greatest ≡ greatest_serial past entry.now.session → IfOk result (λ fits. IsTrue fits ↔ Fits past (plain_entry entry.now)) }
{
    if entry.session == 0 {
        return Ok(false);
    }
    if entry.serial <= greatest {
        return Ok(false);
    }
    let fits = change_fits(world, alloc, &entry.change)?;
    Ok(fits)
}
