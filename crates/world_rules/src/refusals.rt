//! When a request is refused: the tests that requests share, in their order.
ghost use Rattle.std.specs.Prelude.{◌≡◌, ◌+◌, ◌-◌, ◌==◌, ◌&&◌, ◌||◌, ◌<◌, ◌≤◌, ◌^◌, ◌∷◌, [], ◌++◌, not, false, Option, None, length, map, is_none, nat_le, nat_lt, slice_index};
ghost use Rattle.std.specs.List.{list_any};
ghost use Rattle.febe_data.specs.Plain.{plain_spec};
ghost use Rattle.febe_data.specs.Validity.{spans_in_all};
ghost use Rattle.world_rules.specs.FlatView.{FlatView};
ghost use Rattle.world_rules.specs.Refusals.{is_place, is_bad_span, has_bad_span, has_bad_cut, history_full, is_too_long, lacks_document, hides_document_by, lacks_opening, first_holding, holding, reading, writing, picking};

use crate::lookups::LookUp;
use crate::readable::{is_readable, is_readable_by};
use febe_data::bounds::MOST_ITEMS;
use febe_data::{Limits, Mode, Refusal, Span, Spec, Tumbler};

/// Whether the V-address is a place of the text, or the one behind it.
pub(crate) fn is_place(text_rows: usize, at: &Tumbler) -> bool
    ensures { result ≡ is_place text_rows at.now }
{
    let places = at.places();
    if places.len() != 2 {
        return false;
    }
    places[0] == 1 && 1 <= places[1] && places[1] as usize - 1 <= text_rows
}

/// Whether some cut is no place of a text of so many rows.
pub(crate) fn has_bad_cut(text_rows: usize, cuts: &[Tumbler]) -> bool
    ensures { result ≡ has_bad_cut text_rows cuts.now }
{
    for cut in cuts {
        if !is_place(text_rows, cut) {
            return true;
        }
    }
    false
}

/// Whether the history has as many counted entries as it may.
pub(crate) fn history_full(limits: &Limits, counted: u64) -> bool
    ensures { result ≡ history_full limits.now counted }
{
    u64::from(limits.entries()) <= counted
}

/// Whether a list of so many items is longer than a reply may have.
pub(crate) fn is_too_long(items: usize) -> bool
    ensures { result ≡ is_too_long items }
{
    items > MOST_ITEMS as usize
}

/// Whether the specs have more spans together than a reply has room for.
pub(crate) fn has_too_many_spans(specs: &[Spec]) -> bool
    ensures { result ≡ is_too_long (spans_in_all (map plain_spec specs.now)) }
{
    let mut total: usize = 0;
    for spec in specs {
        total = total.saturating_add(spec.spans.len());
    }
    is_too_long(total)
}

/// Whether the span's end is no address.
fn is_bad_span(span: &Span) -> bool
    ensures { result ≡ is_bad_span span.now }
{
    !span.fits()
}

/// Whether the end of one of the spans is no address.
pub(crate) fn has_bad_end(spans: &[Span]) -> bool
    ensures { result ≡ list_any is_bad_span spans.now }
{
    spans.iter().any(|span| is_bad_span(span))
}

/// Whether the end of one of the specs' spans is no address.
pub fn has_bad_span(specs: &[Spec]) -> bool
    ensures { result ≡ has_bad_span (map plain_spec specs.now) }
{
    for spec in specs {
        if has_bad_end(spec.spans.as_slice()) {
            return true;
        }
    }
    false
}

/// Whether a spec names a document that there is not.
pub(crate) fn lacks_document<W: LookUp>(world: &W, specs: &[Spec]) -> bool
    ensures { (view : FlatView) → W.stands world.now view → result ≡ lacks_document view.world (map plain_spec specs.now) }
{
    for spec in specs {
        if !world.has_document(&spec.document) {
            return true;
        }
    }
    false
}

/// Whether a spec names a document that a session of the account may not read.
pub(crate) fn hides_document<W: LookUp>(
    world: &W,
    account: &Option<Tumbler>,
    specs: &[Spec],
) -> bool
    ensures { (view : FlatView) → W.stands world.now view → result ≡ hides_document_by view.world.published account.now (map plain_spec specs.now) }
{
    for spec in specs {
        if !is_readable_by(world, account, &spec.document) {
            return true;
        }
    }
    false
}

/// Whether a spec names a document that the session has not open.
pub(crate) fn lacks_opening<W: LookUp>(world: &W, session: u64, specs: &[Spec]) -> bool
    ensures { (view : FlatView) → W.stands world.now view → result ≡ lacks_opening view.world session (map plain_spec specs.now) }
{
    for spec in specs {
        if world.mode_of(session, &spec.document).is_none() {
            return true;
        }
    }
    false
}

/// What a document that the session would close is refused for.
pub(crate) fn holding_refusal<W: LookUp>(
    world: &W,
    session: u64,
    document: &Tumbler,
) -> Option<Refusal>
    ensures { (view : FlatView) → W.stands world.now view → result ≡ first_holding (holding view.world session document.now) }
{
    if !world.has_document(document) {
        return Some(Refusal::NoSuchDocument);
    }
    if world.mode_of(session, document).is_none() {
        return Some(Refusal::NotOpen);
    }
    None
}

/// What a document that is read is refused for.
pub(crate) fn reading_refusal<W: LookUp>(
    world: &W,
    session: u64,
    document: &Tumbler,
) -> Option<Refusal>
    ensures { (view : FlatView) → W.stands world.now view → result ≡ first_holding (reading view.world session document.now) }
{
    if !world.has_document(document) {
        return Some(Refusal::NoSuchDocument);
    }
    if !is_readable(world, session, document) {
        return Some(Refusal::Private);
    }
    if world.mode_of(session, document).is_none() {
        return Some(Refusal::NotOpen);
    }
    None
}

/// What a document that changes is refused for.
pub(crate) fn writing_refusal<W: LookUp>(
    world: &W,
    session: u64,
    document: &Tumbler,
) -> Option<Refusal>
    ensures { (view : FlatView) → W.stands world.now view → result ≡ first_holding (writing view.world session document.now) }
{
    if !world.has_document(document) {
        return Some(Refusal::NoSuchDocument);
    }
    if !is_readable(world, session, document) {
        return Some(Refusal::Private);
    }
    let Some(mode) = world.mode_of(session, document) else {
        return Some(Refusal::NotOpen);
    };
    if mode == Mode::Read {
        return Some(Refusal::NotOpenForWriting);
    }
    None
}

/// What the specs of a query are refused for.
pub(crate) fn picking_refusal<W: LookUp>(world: &W, session: u64, specs: &[Spec]) -> Option<Refusal>
    ensures refusal { (view : FlatView) → W.stands world.now view → result ≡ first_holding (picking view.world session (map plain_spec specs.now)) }
    ensures fits { result ≡ None → has_bad_span (map plain_spec specs.now) ≡ false }
{
    if lacks_document(world, specs) {
        return Some(Refusal::NoSuchDocument);
    }
    if hides_document(world, &world.account_of_session(session), specs) {
        return Some(Refusal::Private);
    }
    if lacks_opening(world, session, specs) {
        return Some(Refusal::NotOpen);
    }
    if has_bad_span(specs) {
        return Some(Refusal::BadAddress);
    }
    None
}
