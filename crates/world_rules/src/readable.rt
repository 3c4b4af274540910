//! Which documents a session may read.
ghost use Rattle.std.specs.Prelude.{◌≡◌};
ghost use Rattle.world_rules.specs.Readable.{is_owned_by, owns, is_readable_by, is_readable};
ghost use Rattle.world_rules.specs.FlatView.{FlatView};

use crate::effects::is_of_account;
use crate::lookups::LookUp;
use febe_data::Tumbler;

/// Whether the document is of the account, where there is one.
pub fn is_owned_by(account: &Option<Tumbler>, document: &Tumbler) -> bool
    ensures { result ≡ is_owned_by account.now document.now }
{
    match account {
        Some(account) => is_of_account(account, document),
        None => false,
    }
}

/// Whether the document is of the session's account.
pub(crate) fn owns<W: LookUp>(world: &W, session: u64, document: &Tumbler) -> bool
    ensures { (view : FlatView) → W.stands world.now view → result ≡ owns view.world session document.now }
{
    let account = world.account_of_session(session);
    is_owned_by(&account, document)
}

/// Whether the document is published, or of the account.
pub(crate) fn is_readable_by<W: LookUp>(
    world: &W,
    account: &Option<Tumbler>,
    document: &Tumbler,
) -> bool
    ensures { (view : FlatView) → W.stands world.now view → result ≡ is_readable_by view.world.published account.now document.now }
{
    world.is_published(document) || is_owned_by(account, document)
}

/// Whether the session may read the document. Of one that is published no account is asked.
pub(crate) fn is_readable<W: LookUp>(world: &W, session: u64, document: &Tumbler) -> bool
    ensures { (view : FlatView) → W.stands world.now view → result ≡ is_readable view.world session document.now }
{
    world.is_published(document) || owns(world, session, document)
}
