//! Documents are published.
ghost use Rattle.std.specs.Prelude.{◌≡◌, ℕ, OnOk, OnErr};
ghost use Rattle.febe_data.specs.Plain.{document_published};
ghost use Rattle.world_rules.specs.FlatView.{FlatView};
ghost use Rattle.tree_world.specs.Standing.{Stands};
ghost use Rattle.tree_world.specs.Changed.{after_change};
ghost use Rattle.tree_world.specs.Undone.{EntryCame, DocumentMarked};

use crate::counts::one_more;
use crate::world::TreeWorld;
use febe_data::{Memory, Tumbler};

impl TreeWorld {
    /// The document is published, once more where it was. It is refused where it is not there. No tree changes.
    pub(crate) fn publish(&mut self, document: &Tumbler) -> Result<(), Memory>
        ensures ok { (view : FlatView) (session : ℕ) → Stands self.old view → OnOk result (Stands self.new (after_change view session (document_published document.now))) }
        ensures err { OnErr result (self.new ≡ self.old) }
        ensures came { OnOk result (EntryCame (DocumentMarked document.now) self.old self.new) }
        ensures sessions { self.new.sessions ≡ self.old.sessions }
    {
        let counted = one_more(self.counted)?;
        if !self.documents.has(document) {
            return Err(Memory);
        }
        self.documents.publish(document);
        self.counted = counted;
        Ok(())
    }
}
