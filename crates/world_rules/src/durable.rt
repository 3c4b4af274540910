//! Which changes are durable.
ghost use Rattle.std.specs.Prelude.{◌≡◌};
ghost use Rattle.febe_data.specs.Plain.{plain_change};
ghost use Rattle.world_rules.specs.History.{is_durable};

use febe_data::Change;

/// Whether the limits count the change, and it is kept over a restart: one of documents, content or links, or of what is
/// published.
pub fn is_durable(change: &Change) -> bool
    ensures { result ≡ is_durable (plain_change change.now) }
{
    match change {
        Change::Create { .. }
        | Change::Version { .. }
        | Change::OpenCopy { .. }
        | Change::Insert { .. }
        | Change::Delete { .. }
        | Change::Rearrange { .. }
        | Change::Copy { .. }
        | Change::Link { .. }
        | Change::Publish { .. } => true,
        _ => false,
    }
}
