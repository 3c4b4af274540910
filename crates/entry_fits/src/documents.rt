//! Whether a document can come after what made a world.
ghost use Rattle.std.specs.Prelude.{◌≡◌, ◌↔◌, IsTrue, IfOk};
ghost use Rattle.std.specs.Option.{MatchOption};
ghost use Rattle.world_rules.specs.FlatView.{FlatView};
ghost use Rattle.entry_fits.specs.Fits.{IsNextOf, IsNextOfAccount, IsUnder, IsBeside, IsVersionOf};

use febe_data::Tumbler;
use febe_data::bounds::MOST_DOCUMENT_PLACES;
use world_rules::{LookUp, WorldError, is_of_account};

/// The account whose next document this is, if it is one's.
fn next_of<W: LookUp>(world: &W, document: &Tumbler) -> Result<Option<Tumbler>, WorldError>
    ensures { (view : FlatView) → W.stands world.now view → IfOk result (λ found. MatchOption found (¬ IsNextOfAccount view.world document.now) (λ account. IsNextOf view.world account document.now)) }
{
    if !document.is_document() {
        return Ok(None);
    }
    let account = document.account_of();
    if world.next_document(&account)? != *document {
        return Ok(None);
    }
    Ok(Some(account))
}

/// Whether the document is the next one of an account.
pub(crate) fn is_next<W: LookUp>(world: &W, document: &Tumbler) -> Result<bool, WorldError>
    ensures { (view : FlatView) → W.stands world.now view → IfOk result (λ fits. IsTrue fits ↔ IsNextOfAccount view.world document.now) }
{
    let account = next_of(world, document)?;
    Ok(account.is_some())
}

/// Whether the source has room for one more place, and the document is its next version.
fn is_under<W: LookUp>(world: &W, source: &Tumbler, document: &Tumbler) -> Result<bool, WorldError>
    ensures { (view : FlatView) → W.stands world.now view → IfOk result (λ fits. IsTrue fits ↔ IsUnder view.world source.now document.now) }
{
    if source.places().len() >= MOST_DOCUMENT_PLACES {
        return Ok(false);
    }
    Ok(world.next_version(source)? == *document)
}

/// Whether the document is the next one of an account that is not the source's, or the source has no room.
fn is_beside<W: LookUp>(world: &W, source: &Tumbler, document: &Tumbler) -> Result<bool, WorldError>
    ensures { (view : FlatView) → W.stands world.now view → IfOk result (λ fits. IsTrue fits ↔ IsBeside view.world source.now document.now) }
{
    let Some(account) = next_of(world, document)? else {
        return Ok(false);
    };
    Ok(source.places().len() >= MOST_DOCUMENT_PLACES || !is_of_account(&account, source))
}

/// Whether the source is there, and the document is the one that a version of it gets.
pub(crate) fn is_version<W: LookUp>(
    world: &W,
    source: &Tumbler,
    document: &Tumbler,
) -> Result<bool, WorldError>
    ensures { (view : FlatView) → W.stands world.now view → IfOk result (λ fits. IsTrue fits ↔ IsVersionOf view.world source.now document.now) }
{
    if !world.has_document(source) {
        return Ok(false);
    }
    if is_under(world, source, document)? {
        return Ok(true);
    }
    let beside = is_beside(world, source, document)?;
    Ok(beside)
}
