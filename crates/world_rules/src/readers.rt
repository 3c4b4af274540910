//! Who tells which documents are published, for those who look for links without a world at hand.
ghost use Rattle.std.specs.Prelude.{◌≡◌, ℕ, Bool, List};
ghost use Rattle.world_rules.specs.Readers.{reads_by};

use crate::readable::is_owned_by;
use febe_data::Tumbler;

/// What knows which documents are published.
pub trait Readers {
    /// Which documents they are.
    ghost publishes: { Self → List ℕ → Bool };

    fn is_published(&self, document: &Tumbler) -> bool
        ensures { result ≡ publishes self.now document.now };
}

/// Whether the document is published, or of the account.
pub fn reads<R: Readers>(readers: &R, account: &Option<Tumbler>, document: &Tumbler) -> bool
    ensures { result ≡ reads_by (R.publishes readers.now) account.now document.now }
{
    readers.is_published(document) || is_owned_by(account, document)
}
