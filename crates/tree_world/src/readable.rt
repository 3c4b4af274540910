//! What an account may read: what is published, and what is its own.
ghost use Rattle.std.specs.Prelude.{◌≡◌};
ghost use Rattle.std.specs.Option.{option_map, option_copied};
ghost use Rattle.links.specs.LinkLists.{plain_link, link_in};
ghost use Rattle.tree_world.specs.inside.Reads.{reads_in, link_if};

use crate::world::TreeWorld;
use febe_data::Tumbler;
use links::LinkRow;
use world_rules::reads;

impl TreeWorld {
    /// Whether the document may be read for the account.
    pub(crate) fn may_read(&self, account: &Option<Tumbler>, document: &Tumbler) -> bool
        ensures { result ≡ reads_in self.now account.now document.now }
    {
        reads(&self.documents, account, document)
    }

    /// The link of the id, where there is one and its home may be read for the account.
    pub(crate) fn link_for(&self, account: &Option<Tumbler>, id: &Tumbler) -> Option<&LinkRow>
        ensures { option_map plain_link (option_copied result) ≡ link_if (reads_in self.now account.now) (link_in self.now.links.links id.now) }
    {
        let Some(link) = self.links.get(id) else {
            return None;
        };
        if !self.may_read(account, &link.home) {
            return None;
        }
        Some(link)
    }
}
