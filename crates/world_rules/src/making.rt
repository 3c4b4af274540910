//! What makes documents, versions and links.
ghost use Rattle.std.specs.Prelude.{◌≡◌, ◌+◌, ◌-◌, ◌^◌, ◌||◌, ◌++◌, ◌∷◌, [], not, map, min, length, is_none, Option, None, Some, IfOk};
ghost use Rattle.febe_data.specs.Plain.{plain_spec, create, version, create_link};
ghost use Rattle.world_rules.specs.World.{has_document, mode_of};
ghost use Rattle.world_rules.specs.Readable.{is_readable};
ghost use Rattle.world_rules.specs.FlatView.{FlatView};
ghost use Rattle.world_rules.specs.Refusals.{wanted, runs_in_all, lacks_document, hides_document, lacks_opening, has_bad_span};
ghost use Rattle.world_rules.specs.Served.{IsServedAs, IsValidServed};

use crate::effects::{create_effect, link_effect, version_effect};
use crate::errors::WorldError;
use crate::lookups::{Find, LookUp};
use crate::readable::is_readable_by;
use crate::refusals::{
    has_bad_span, hides_document, history_full, lacks_document, lacks_opening, reading_refusal,
};
use crate::requests::Served;
use crate::three_sets::three_runs;
use febe_data::{Limits, Mode, Refusal, Spec, Tumbler};
use std::alloc::Global;

/// Serves a create.
pub(crate) fn serve_create<W: LookUp>(
    world: &W,
    session: u64,
    limits: &Limits,
) -> Result<Served, WorldError>
    ensures served { (view : FlatView) → W.stands world.now view → IfOk result (IsServedAs limits.now view session create) }
    ensures valid { IfOk result IsValidServed }
{
    if world.account_of_session(session).is_none() {
        return Ok(Served::Refused(Refusal::NoAccount));
    }
    if history_full(limits, world.counted()) {
        return Ok(Served::Refused(Refusal::Full));
    }
    Ok(Served::Changed(create_effect(world, session)?))
}

/// What a version is refused for.
fn version_refusal<W: LookUp>(
    world: &W,
    session: u64,
    document: &Tumbler,
    limits: &Limits,
) -> Option<Refusal>
    ensures { (view : FlatView) → W.stands world.now view → result ≡ wanted limits.now view.counted view.world session (version document.now) }
{
    if world.account_of_session(session).is_none() {
        return Some(Refusal::NoAccount);
    }
    if let Some(refusal) = reading_refusal(world, session, document) {
        return Some(refusal);
    }
    if history_full(limits, world.counted()) {
        return Some(Refusal::Full);
    }
    None
}

/// Serves the making of a version.
pub(crate) fn serve_version<W: LookUp>(
    world: &W,
    session: u64,
    source: &Tumbler,
    limits: &Limits,
) -> Result<Served, WorldError>
    ensures served { (view : FlatView) → W.stands world.now view → IfOk result (IsServedAs limits.now view session (version source.now)) }
    ensures valid { IfOk result IsValidServed }
{
    if let Some(refusal) = version_refusal(world, session, source, limits) {
        return Ok(Served::Refused(refusal));
    }
    Ok(Served::Changed(version_effect(world, session, source)?))
}

/// Whether the home, or a document that the specs name, is not there.
#[tactic(auto, using(crate::proofs::Checks::three_sets))]
fn lacks_any_document<W: LookUp>(
    world: &W,
    home: &Tumbler,
    from: &[Spec],
    to: &[Spec],
    three: &[Spec],
) -> bool
    ensures { (view : FlatView) → W.stands world.now view → result ≡ (not (has_document view.world home.now) || lacks_document view.world (map plain_spec from.now ++ map plain_spec to.now ++ map plain_spec three.now)) }
{
    if !world.has_document(home) {
        return true;
    }
    if lacks_document(world, from) {
        return true;
    }
    if lacks_document(world, to) {
        return true;
    }
    lacks_document(world, three)
}

/// Whether the session may not read the home, or a document that the specs name.
#[tactic(auto, using(crate::proofs::Checks::three_sets))]
fn hides_any_document<W: LookUp>(
    world: &W,
    session: u64,
    home: &Tumbler,
    from: &[Spec],
    to: &[Spec],
    three: &[Spec],
) -> bool
    ensures { (view : FlatView) → W.stands world.now view → result ≡ (not (is_readable view.world session home.now) || hides_document view.world session (map plain_spec from.now ++ map plain_spec to.now ++ map plain_spec three.now)) }
{
    let account = world.account_of_session(session);
    if !is_readable_by(world, &account, home) {
        return true;
    }
    if hides_document(world, &account, from) {
        return true;
    }
    if hides_document(world, &account, to) {
        return true;
    }
    hides_document(world, &account, three)
}

/// Whether the session has the home, or a document that the specs name, not open.
#[tactic(auto, using(crate::proofs::Checks::three_sets))]
fn lacks_any_opening<W: LookUp>(
    world: &W,
    session: u64,
    home: &Tumbler,
    from: &[Spec],
    to: &[Spec],
    three: &[Spec],
) -> bool
    ensures { (view : FlatView) → W.stands world.now view → result ≡ (is_none (mode_of view.world session home.now) || lacks_opening view.world session (map plain_spec from.now ++ map plain_spec to.now ++ map plain_spec three.now)) }
{
    if world.mode_of(session, home).is_none() {
        return true;
    }
    if lacks_opening(world, session, from) {
        return true;
    }
    if lacks_opening(world, session, to) {
        return true;
    }
    lacks_opening(world, session, three)
}

/// Whether the end of some span of the three spec sets is no address.
#[tactic(auto, using(crate::proofs::Checks::three_sets))]
fn have_bad_span(from: &[Spec], to: &[Spec], three: &[Spec]) -> bool
    ensures { result ≡ has_bad_span (map plain_spec from.now ++ map plain_spec to.now ++ map plain_spec three.now) }
{
    if has_bad_span(from) {
        return true;
    }
    if has_bad_span(to) {
        return true;
    }
    has_bad_span(three)
}

/// What the making of a link is refused for.
#[tactic(auto, using(crate::proofs::Checks::three_sets))]
fn link_refusal<W: Find>(
    world: &W,
    alloc: Global,
    session: u64,
    home: &Tumbler,
    from: &[Spec],
    to: &[Spec],
    three: &[Spec],
    limits: &Limits,
) -> Result<Option<Refusal>, WorldError>
    ensures { (view : FlatView) → W.stands world.now view → IfOk result (λ refusal. refusal ≡ wanted limits.now view.counted view.world session (create_link home.now (map plain_spec from.now) (map plain_spec to.now) (map plain_spec three.now))) }
{
    if lacks_any_document(world, home, from, to, three) {
        return Ok(Some(Refusal::NoSuchDocument));
    }
    if hides_any_document(world, session, home, from, to, three) {
        return Ok(Some(Refusal::Private));
    }
    if lacks_any_opening(world, session, home, from, to, three) {
        return Ok(Some(Refusal::NotOpen));
    }
    if world.mode_of(session, home) == Some(Mode::Read) {
        return Ok(Some(Refusal::NotOpenForWriting));
    }
    if have_bad_span(from, to, three) {
        return Ok(Some(Refusal::BadAddress));
    }
    let Some(_runs) = three_runs(world, alloc, from, to, three)? else {
        return Ok(Some(Refusal::TooLong));
    };
    if history_full(limits, world.counted()) {
        return Ok(Some(Refusal::Full));
    }
    Ok(None)
}

/// Serves the making of a link.
pub(crate) fn serve_create_link<W: Find>(
    world: &W,
    alloc: Global,
    session: u64,
    home: &Tumbler,
    from: &[Spec],
    to: &[Spec],
    three: &[Spec],
    limits: &Limits,
) -> Result<Served, WorldError>
    ensures served { (view : FlatView) → W.stands world.now view → IfOk result (IsServedAs limits.now view session (create_link home.now (map plain_spec from.now) (map plain_spec to.now) (map plain_spec three.now))) }
    ensures valid { IfOk result IsValidServed }
{
    let refusal = link_refusal(world, alloc, session, home, from, to, three, limits)?;
    if let Some(refusal) = refusal {
        return Ok(Served::Refused(refusal));
    }
    let made = link_effect(world, alloc, home, from, to, three)?;
    Ok(Served::Changed(made))
}
