//! How a session sets its account, and opens and closes documents.
ghost use Rattle.std.specs.Prelude.{◌≡◌, ℕ, ◌&&◌, ◌∷◌, [], not, true, false, is_none, None, Some, IfOk};
ghost use Rattle.tumbler.specs.Address.{account_test};
ghost use Rattle.febe_data.specs.declared.refusal.Refusal.TheVariants.{BadAddress};
ghost use Rattle.febe_data.specs.LimitsView.{LimitsView};
ghost use Rattle.febe_data.specs.Plain.{opens, closes, set_account};
ghost use Rattle.world_rules.specs.FlatView.{FlatView};
ghost use Rattle.world_rules.specs.Refusals.{first_holding, wanted, may_write, opens_version, wants_account, is_strict};
ghost use Rattle.world_rules.specs.Served.{IsServedAs, IsValidServed};

use crate::effects::{account_effect, close_effect, open_effect};
use crate::errors::WorldError;
use crate::lookups::LookUp;
use crate::readable::{is_readable, owns};
use crate::refusals::{history_full, holding_refusal};
use crate::requests::Served;
use febe_data::{Limits, Mode, Refusal, Rule, Tumbler};

fn account_refusal(account: &Tumbler) -> Option<Refusal>
    ensures { result ≡ first_holding ((not (account_test account.now), BadAddress) ∷ []) }
{
    if account.is_account() {
        None
    } else {
        Some(Refusal::BadAddress)
    }
}

/// Whether opening so wants an account.
fn wants_account(mode: Mode, rule: Rule) -> bool
    ensures { result ≡ wants_account mode rule }
{
    match rule {
        Rule::Always => true,
        Rule::Refuse | Rule::Copy => match mode {
            Mode::Write => true,
            Mode::Read => false,
        },
    }
}

/// Whether opening so is refused where the document can't be opened for writing.
fn is_strict(mode: Mode, rule: Rule) -> bool
    ensures { result ≡ is_strict mode rule }
{
    match mode {
        Mode::Read => false,
        Mode::Write => match rule {
            Rule::Refuse => true,
            Rule::Copy | Rule::Always => false,
        },
    }
}

/// Whether the session may open the document for writing.
fn may_write<W: LookUp>(world: &W, session: u64, document: &Tumbler) -> bool
    ensures { (view : FlatView) → W.stands world.now view → result ≡ may_write view.world session document.now }
{
    owns(world, session, document) && !world.is_held_against(session, document)
}

/// Whether opening so makes a version.
pub(crate) fn opens_version<W: LookUp>(
    world: &W,
    session: u64,
    document: &Tumbler,
    mode: Mode,
    rule: Rule,
) -> bool
    ensures { (view : FlatView) → W.stands world.now view → result ≡ opens_version view.world session document.now mode rule }
{
    match rule {
        Rule::Always => true,
        Rule::Refuse => false,
        Rule::Copy => match mode {
            Mode::Read => false,
            Mode::Write => !may_write(world, session, document),
        },
    }
}

/// What opening the document is refused for.
fn open_refusal<W: LookUp>(
    world: &W,
    session: u64,
    document: &Tumbler,
    mode: Mode,
    rule: Rule,
    limits: &Limits,
) -> Option<Refusal>
    ensures { (view : FlatView) → W.stands world.now view → result ≡ wanted limits.now view.counted view.world session (opens document.now mode rule) }
{
    if wants_account(mode, rule) && world.account_of_session(session).is_none() {
        return Some(Refusal::NoAccount);
    }
    if !world.has_document(document) {
        return Some(Refusal::NoSuchDocument);
    }
    if !is_readable(world, session, document) {
        return Some(Refusal::Private);
    }
    let strict = is_strict(mode, rule);
    if strict && !owns(world, session, document) {
        return Some(Refusal::NotOwner);
    }
    if strict && world.is_held_against(session, document) {
        return Some(Refusal::Conflict);
    }
    if opens_version(world, session, document, mode, rule)
        && history_full(limits, world.counted())
    {
        return Some(Refusal::Full);
    }
    None
}

/// Serves the opening of a document.
pub(crate) fn serve_open<W: LookUp>(
    world: &W,
    session: u64,
    document: &Tumbler,
    mode: Mode,
    rule: Rule,
    limits: &Limits,
) -> Result<Served, WorldError>
    ensures served { (view : FlatView) → W.stands world.now view → IfOk result (IsServedAs limits.now view session (opens document.now mode rule)) }
    ensures valid { IfOk result IsValidServed }
{
    if let Some(refusal) = open_refusal(world, session, document, mode, rule, limits) {
        return Ok(Served::Refused(refusal));
    }
    let made = open_effect(world, session, document, mode, rule)?;
    Ok(Served::Changed(made))
}

/// Serves the closing of a document.
pub(crate) fn serve_close<W: LookUp>(world: &W, session: u64, document: &Tumbler) -> Served
    ensures served { (view : FlatView) (limits : LimitsView) → W.stands world.now view → IsServedAs limits view session (closes document.now) result }
    ensures valid { IsValidServed result }
{
    if let Some(refusal) = holding_refusal(world, session, document) {
        return Served::Refused(refusal);
    }
    Served::Changed(close_effect(document))
}

/// Serves the setting of an account.
pub(crate) fn serve_account(account: &Tumbler) -> Served
    ensures served { (view : FlatView) (limits : LimitsView) (session : ℕ) → IsServedAs limits view session (set_account account.now) result }
    ensures valid { IsValidServed result }
{
    if let Some(refusal) = account_refusal(account) {
        return Served::Refused(refusal);
    }
    Served::Changed(account_effect(account))
}
