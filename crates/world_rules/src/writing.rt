//! What changes a document: its text, its rows, and who may read it.
ghost use Rattle.std.specs.Prelude.{◌≡◌, ◌≤◌, ◌+◌, ◌||◌, ◌++◌, ◌∷◌, [], not, map, length, is_none, Option, None, Some, IfOk};
ghost use Rattle.febe_data.specs.Plain.{plain_spec, insert, copy, rearrange, delete, publish};
ghost use Rattle.world_rules.specs.World.{has_document, mode_of};
ghost use Rattle.world_rules.specs.Readable.{is_readable};
ghost use Rattle.world_rules.specs.FlatView.{FlatView};
ghost use Rattle.world_rules.specs.Refusals.{wanted, first_holding, writing_from, lacks_document, hides_document, lacks_opening};
ghost use Rattle.world_rules.specs.Served.{IsServedAs, IsValidServed};

use crate::cuts::cuts_of;
use crate::effects::{
    copy_effect, delete_effect, insert_effect, positions_of, publish_effect, rearrange_effect,
};
use crate::errors::WorldError;
use crate::lookups::{Find, LookUp};
use crate::readable::is_readable_by;
use crate::refusals::{
    has_bad_cut, has_bad_span, hides_document, history_full, is_place, lacks_document,
    lacks_opening, writing_refusal,
};
use crate::requests::Served;
use febe_data::bounds::{MOST_ITEMS, MOST_POSITIONS};
use febe_data::{Limits, Mode, Refusal, Span, Spec, Tumbler};
use std::alloc::Global;

/// What an insert is refused for.
fn insert_refusal<W: LookUp>(
    world: &W,
    session: u64,
    document: &Tumbler,
    at: &Tumbler,
    text: &[u8],
    limits: &Limits,
) -> Option<Refusal>
    ensures { (view : FlatView) → W.stands world.now view → result ≡ wanted limits.now view.counted view.world session (insert document.now at.now text.now) }
{
    if let Some(refusal) = writing_refusal(world, session, document) {
        return Some(refusal);
    }
    let text_rows = world.text_length(document);
    if !is_place(text_rows, at) {
        return Some(Refusal::BadAddress);
    }
    if text_rows.saturating_add(text.len()) > MOST_POSITIONS as usize {
        return Some(Refusal::TooLong);
    }
    if history_full(limits, world.counted()) {
        return Some(Refusal::Full);
    }
    if world.content().saturating_add(text.len()) > limits.text() as usize {
        return Some(Refusal::Full);
    }
    None
}

/// Serves an insert.
pub(crate) fn serve_insert<W: LookUp>(
    world: &W,
    alloc: Global,
    session: u64,
    document: &Tumbler,
    at: &Tumbler,
    text: &[u8],
    limits: &Limits,
) -> Result<Served, WorldError>
    ensures served { (view : FlatView) → W.stands world.now view → IfOk result (IsServedAs limits.now view session (insert document.now at.now text.now)) }
    ensures valid { IfOk result IsValidServed }
{
    if let Some(refusal) = insert_refusal(world, session, document, at, text, limits) {
        return Ok(Served::Refused(refusal));
    }
    let made = insert_effect(world, alloc, document, at, text)?;
    Ok(Served::Changed(made))
}

/// What deleting is refused for.
fn delete_refusal<W: LookUp>(
    world: &W,
    session: u64,
    document: &Tumbler,
    span: &Span,
    limits: &Limits,
) -> Option<Refusal>
    ensures { (view : FlatView) → W.stands world.now view → result ≡ wanted limits.now view.counted view.world session (delete document.now span.now) }
{
    if let Some(refusal) = writing_refusal(world, session, document) {
        return Some(refusal);
    }
    if !span.fits() {
        return Some(Refusal::BadAddress);
    }
    if history_full(limits, world.counted()) {
        return Some(Refusal::Full);
    }
    None
}

/// Serves a delete.
pub(crate) fn serve_delete<W: LookUp>(
    world: &W,
    session: u64,
    document: &Tumbler,
    span: &Span,
    limits: &Limits,
) -> Served
    ensures served { (view : FlatView) → W.stands world.now view → IsServedAs limits.now view session (delete document.now span.now) result }
    ensures valid { IsValidServed result }
{
    if let Some(refusal) = delete_refusal(world, session, document, span, limits) {
        return Served::Refused(refusal);
    }
    Served::Changed(delete_effect(document, span))
}

/// Whether the document, or one that the specs name, is not there.
fn lacks_document_or<W: LookUp>(world: &W, document: &Tumbler, specs: &[Spec]) -> bool
    ensures { (view : FlatView) → W.stands world.now view → result ≡ (not (has_document view.world document.now) || lacks_document view.world (map plain_spec specs.now)) }
{
    if !world.has_document(document) {
        return true;
    }
    lacks_document(world, specs)
}

/// Whether the session may not read the document, or one that the specs name.
fn hides_document_or<W: LookUp>(world: &W, session: u64, document: &Tumbler, specs: &[Spec]) -> bool
    ensures { (view : FlatView) → W.stands world.now view → result ≡ (not (is_readable view.world session document.now) || hides_document view.world session (map plain_spec specs.now)) }
{
    let account = world.account_of_session(session);
    if !is_readable_by(world, &account, document) {
        return true;
    }
    hides_document(world, &account, specs)
}

/// Whether the session has the document, or one that the specs name, not open.
fn lacks_opening_or<W: LookUp>(world: &W, session: u64, document: &Tumbler, specs: &[Spec]) -> bool
    ensures { (view : FlatView) → W.stands world.now view → result ≡ (is_none (mode_of view.world session document.now) || lacks_opening view.world session (map plain_spec specs.now)) }
{
    if world.mode_of(session, document).is_none() {
        return true;
    }
    lacks_opening(world, session, specs)
}

/// What a document that changes, and specs beside it, are refused for.
fn writing_from_refusal<W: LookUp>(
    world: &W,
    session: u64,
    document: &Tumbler,
    specs: &[Spec],
) -> Option<Refusal>
    ensures { (view : FlatView) → W.stands world.now view → result ≡ first_holding (writing_from view.world session document.now (map plain_spec specs.now)) }
{
    if lacks_document_or(world, document, specs) {
        return Some(Refusal::NoSuchDocument);
    }
    if hides_document_or(world, session, document, specs) {
        return Some(Refusal::Private);
    }
    if lacks_opening_or(world, session, document, specs) {
        return Some(Refusal::NotOpen);
    }
    if world.mode_of(session, document) == Some(Mode::Read) {
        return Some(Refusal::NotOpenForWriting);
    }
    None
}

/// What copying is refused for.
fn copy_refusal<W: Find>(
    world: &W,
    alloc: Global,
    session: u64,
    document: &Tumbler,
    at: &Tumbler,
    specs: &[Spec],
    limits: &Limits,
) -> Result<Option<Refusal>, WorldError>
    ensures { (view : FlatView) → W.stands world.now view → IfOk result (λ refusal. refusal ≡ wanted limits.now view.counted view.world session (copy document.now at.now (map plain_spec specs.now))) }
{
    if let Some(refusal) = writing_from_refusal(world, session, document, specs) {
        return Ok(Some(refusal));
    }
    let text_rows = world.text_length(document);
    if !is_place(text_rows, at) {
        return Ok(Some(Refusal::BadAddress));
    }
    if has_bad_span(specs) {
        return Ok(Some(Refusal::BadAddress));
    }
    let picked = world.picked_length(alloc, specs)?;
    if text_rows.saturating_add(picked) > MOST_POSITIONS as usize {
        return Ok(Some(Refusal::TooLong));
    }
    let Some(_runs) = world.runs_up_to(alloc, specs, MOST_ITEMS as usize)? else {
        return Ok(Some(Refusal::TooLong));
    };
    if history_full(limits, world.counted()) {
        return Ok(Some(Refusal::Full));
    }
    Ok(None)
}

/// Serves a copy.
pub(crate) fn serve_copy<W: Find>(
    world: &W,
    alloc: Global,
    session: u64,
    document: &Tumbler,
    at: &Tumbler,
    specs: &[Spec],
    limits: &Limits,
) -> Result<Served, WorldError>
    ensures served { (view : FlatView) → W.stands world.now view → IfOk result (IsServedAs limits.now view session (copy document.now at.now (map plain_spec specs.now))) }
    ensures valid { IfOk result IsValidServed }
{
    let refusal = copy_refusal(world, alloc, session, document, at, specs, limits)?;
    if let Some(refusal) = refusal {
        return Ok(Served::Refused(refusal));
    }
    let made = copy_effect(alloc, document, at, specs)?;
    Ok(Served::Changed(made))
}

/// What rearranging is refused for.
fn rearrange_refusal<W: LookUp>(
    world: &W,
    alloc: Global,
    session: u64,
    document: &Tumbler,
    cuts: &[Tumbler],
    limits: &Limits,
) -> Result<Option<Refusal>, WorldError>
    ensures { (view : FlatView) → W.stands world.now view → IfOk result (λ refusal. refusal ≡ wanted limits.now view.counted view.world session (rearrange document.now cuts.now)) }
{
    if let Some(refusal) = writing_refusal(world, session, document) {
        return Ok(Some(refusal));
    }
    if has_bad_cut(world.text_length(document), cuts) {
        return Ok(Some(Refusal::BadAddress));
    }
    let positions = positions_of(alloc, cuts)?;
    if cuts_of(positions.as_slice()).is_none() {
        return Ok(Some(Refusal::BadCuts));
    }
    if history_full(limits, world.counted()) {
        return Ok(Some(Refusal::Full));
    }
    Ok(None)
}

/// Serves a rearrange.
pub(crate) fn serve_rearrange<W: LookUp>(
    world: &W,
    alloc: Global,
    session: u64,
    document: &Tumbler,
    cuts: &[Tumbler],
    limits: &Limits,
) -> Result<Served, WorldError>
    ensures served { (view : FlatView) → W.stands world.now view → IfOk result (IsServedAs limits.now view session (rearrange document.now cuts.now)) }
    ensures valid { IfOk result IsValidServed }
{
    let refusal = rearrange_refusal(world, alloc, session, document, cuts, limits)?;
    if let Some(refusal) = refusal {
        return Ok(Served::Refused(refusal));
    }
    let made = rearrange_effect(alloc, document, cuts)?;
    Ok(Served::Changed(made))
}

/// What publishing is refused for.
fn publish_refusal<W: LookUp>(
    world: &W,
    session: u64,
    document: &Tumbler,
    limits: &Limits,
) -> Option<Refusal>
    ensures { (view : FlatView) → W.stands world.now view → result ≡ wanted limits.now view.counted view.world session (publish document.now) }
{
    if let Some(refusal) = writing_refusal(world, session, document) {
        return Some(refusal);
    }
    if history_full(limits, world.counted()) {
        return Some(Refusal::Full);
    }
    None
}

/// Serves a publish.
pub(crate) fn serve_publish<W: LookUp>(
    world: &W,
    session: u64,
    document: &Tumbler,
    limits: &Limits,
) -> Served
    ensures served { (view : FlatView) → W.stands world.now view → IsServedAs limits.now view session (publish document.now) result }
    ensures valid { IsValidServed result }
{
    if let Some(refusal) = publish_refusal(world, session, document, limits) {
        return Served::Refused(refusal);
    }
    Served::Changed(publish_effect(document))
}
