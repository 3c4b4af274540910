//! What queries of documents and content are answered.
ghost use Rattle.std.specs.Prelude.{◌≡◌, ◌∷◌, [], ◌≤◌, ◌||◌, not, None, false, map, IfOk};
ghost use Rattle.std.specs.List.{list_any};
ghost use Rattle.febe_data.specs.LimitsView.{LimitsView};
ghost use Rattle.febe_data.specs.Plain.{plain_spec, plain_reply, span_set, whole_span, retrieve, relate, find_documents, follow, end_sets, gave_span_set, gave_whole_span};
ghost use Rattle.febe_data.specs.Validity.{IsReply};
ghost use Rattle.world_rules.specs.FlatView.{FlatView};
ghost use Rattle.world_rules.specs.Readable.{is_readable};
ghost use Rattle.world_rules.specs.Refusals.{first_holding, picking, is_bad_span};
ghost use Rattle.world_rules.specs.Answers.{span_set_of, whole_span_of};
ghost use Rattle.world_rules.specs.Served.{IsServedAs, IsValidServed};

use crate::ends::End;
use crate::errors::WorldError;
use crate::lookups::{Find, LookUp};
use crate::readable::is_readable_by;
use crate::refusals::{
    has_bad_end, has_too_many_spans, is_too_long, picking_refusal, reading_refusal,
};
use crate::requests::Served;
use crate::spans::{push_part, span_over};
use febe_data::bounds::{MOST_ITEMS, MOST_TEXT_BYTES};
use febe_data::{List, Refusal, Reply, Spec, Tumbler};
use std::alloc::Global;

/// The spans of the document's parts.
fn span_set<W: LookUp>(world: &W, alloc: Global, document: &Tumbler) -> Result<Reply, WorldError>
    ensures answer { (view : FlatView) → W.stands world.now view → IfOk result (λ reply. plain_reply reply ≡ gave_span_set (span_set_of view.world document.now)) }
    ensures valid { IfOk result (λ reply. IsReply (plain_reply reply)) }
{
    let mut spans = List::new(alloc);
    push_part(alloc, &mut spans, 1, world.text_length(document))?;
    push_part(alloc, &mut spans, 2, world.link_length(document))?;
    Ok(Reply::SpanSet(spans))
}

/// The one span over all of the document.
fn whole_span<W: LookUp>(world: &W, alloc: Global, document: &Tumbler) -> Result<Reply, WorldError>
    ensures answer { (view : FlatView) → W.stands world.now view → IfOk result (λ reply. plain_reply reply ≡ gave_whole_span (whole_span_of view.world document.now)) }
    ensures valid { IfOk result (λ reply. IsReply (plain_reply reply)) }
{
    let texts = world.text_length(document);
    let links = world.link_length(document);
    Ok(Reply::WholeSpan(span_over(alloc, texts, links)?))
}

/// What comes of a request for the spans of a document.
pub(crate) fn serve_span_set<W: LookUp>(
    world: &W,
    alloc: Global,
    session: u64,
    document: &Tumbler,
) -> Result<Served, WorldError>
    ensures served { (view : FlatView) (limits : LimitsView) → W.stands world.now view → IfOk result (IsServedAs limits view session (span_set document.now)) }
    ensures valid { IfOk result IsValidServed }
{
    if let Some(refusal) = reading_refusal(world, session, document) {
        return Ok(Served::Refused(refusal));
    }
    Ok(Served::Answered(span_set(world, alloc, document)?))
}

/// What comes of a request for the one span over all of a document.
pub(crate) fn serve_whole_span<W: LookUp>(
    world: &W,
    alloc: Global,
    session: u64,
    document: &Tumbler,
) -> Result<Served, WorldError>
    ensures served { (view : FlatView) (limits : LimitsView) → W.stands world.now view → IfOk result (IsServedAs limits view session (whole_span document.now)) }
    ensures valid { IfOk result IsValidServed }
{
    if let Some(refusal) = reading_refusal(world, session, document) {
        return Ok(Served::Refused(refusal));
    }
    Ok(Served::Answered(whole_span(world, alloc, document)?))
}

/// What comes of a retrieve.
#[tactic(auto, using(crate::proofs::Checks::refusals))]
pub(crate) fn serve_retrieve<W: Find>(
    world: &W,
    alloc: Global,
    session: u64,
    specs: &[Spec],
) -> Result<Served, WorldError>
    ensures served { (view : FlatView) (limits : LimitsView) → W.stands world.now view → IfOk result (IsServedAs limits view session (retrieve (map plain_spec specs.now))) }
    ensures valid { (view : FlatView) → W.stands world.now view → IfOk result IsValidServed }
{
    if let Some(refusal) = picking_refusal(world, session, specs) {
        return Ok(Served::Refused(refusal));
    }
    let size = world.retrieved_size(specs);
    if size.bytes > MOST_TEXT_BYTES as usize || size.items > MOST_ITEMS as usize {
        return Ok(Served::Refused(Refusal::TooLong));
    }
    let items = world.retrieved(alloc, specs)?;
    Ok(Served::Answered(Reply::Retrieved(items)))
}

/// Whether the session may not read both documents.
fn hides_one_of<W: LookUp>(world: &W, session: u64, left: &Tumbler, right: &Tumbler) -> bool
    ensures { (view : FlatView) → W.stands world.now view → result ≡ (not (is_readable view.world session left.now) || not (is_readable view.world session right.now)) }
{
    let account = world.account_of_session(session);
    !is_readable_by(world, &account, left) || !is_readable_by(world, &account, right)
}

/// What the two specs are refused for. It takes no memory.
fn relate_refusal<W: LookUp>(world: &W, session: u64, left: &Spec, right: &Spec) -> Option<Refusal>
    ensures refusal { (view : FlatView) → W.stands world.now view → result ≡ first_holding (picking view.world session (plain_spec left.now ∷ plain_spec right.now ∷ [])) }
    ensures left { result ≡ None → list_any is_bad_span (plain_spec left.now).spans ≡ false }
    ensures right { result ≡ None → list_any is_bad_span (plain_spec right.now).spans ≡ false }
{
    if !world.has_document(&left.document) || !world.has_document(&right.document) {
        return Some(Refusal::NoSuchDocument);
    }
    if hides_one_of(world, session, &left.document, &right.document) {
        return Some(Refusal::Private);
    }
    if world.mode_of(session, &left.document).is_none()
        || world.mode_of(session, &right.document).is_none()
    {
        return Some(Refusal::NotOpen);
    }
    if has_bad_end(left.spans.as_slice()) || has_bad_end(right.spans.as_slice()) {
        return Some(Refusal::BadAddress);
    }
    None
}

/// What comes of a request for the relation of two specs.
#[tactic(auto, using(crate::proofs::Checks::relate_steps))]
pub(crate) fn serve_relate<W: Find>(
    world: &W,
    alloc: Global,
    session: u64,
    left: &Spec,
    right: &Spec,
) -> Result<Served, WorldError>
    ensures served { (view : FlatView) (limits : LimitsView) → W.stands world.now view → IfOk result (IsServedAs limits view session (relate (plain_spec left.now) (plain_spec right.now))) }
    ensures valid { IfOk result IsValidServed }
{
    if let Some(refusal) = relate_refusal(world, session, left, right) {
        return Ok(Served::Refused(refusal));
    }
    let Some(diagonals) = world.diagonals(alloc, left, right)? else {
        return Ok(Served::Refused(Refusal::TooLong));
    };
    Ok(Served::Answered(Reply::Related(diagonals)))
}

/// What comes of a request for the documents that have content which the specs pick.
#[tactic(auto, using(crate::proofs::Checks::served))]
pub(crate) fn serve_find_documents<W: Find>(
    world: &W,
    alloc: Global,
    session: u64,
    specs: &[Spec],
) -> Result<Served, WorldError>
    ensures served { (view : FlatView) (limits : LimitsView) → W.stands world.now view → IfOk result (IsServedAs limits view session (find_documents (map plain_spec specs.now))) }
    ensures valid { IfOk result IsValidServed }
{
    if let Some(refusal) = picking_refusal(world, session, specs) {
        return Ok(Served::Refused(refusal));
    }
    let Some(_runs) = world.runs_up_to(alloc, specs, MOST_ITEMS as usize)? else {
        return Ok(Served::Refused(Refusal::TooLong));
    };
    let documents = world.documents_found(alloc, session, specs)?;
    if is_too_long(documents.len()) {
        return Ok(Served::Refused(Refusal::TooLong));
    }
    Ok(Served::Answered(Reply::Documents(documents)))
}

/// What comes of a request for where an end of a link is.
pub(crate) fn serve_follow<W: Find>(
    world: &W,
    alloc: Global,
    session: u64,
    link: &Tumbler,
    end: u32,
) -> Result<Served, WorldError>
    ensures served { (view : FlatView) (limits : LimitsView) → W.stands world.now view → IfOk result (IsServedAs limits view session (follow link.now end)) }
    ensures valid { IfOk result IsValidServed }
{
    if !world.has_link(session, link) {
        return Ok(Served::Refused(Refusal::NoSuchLink));
    }
    let Some(end) = End::numbered(end) else {
        return Ok(Served::Refused(Refusal::NoSuchEnd));
    };
    let specs = world.end_now(alloc, session, link, end)?;
    if has_too_many_spans(specs.as_slice()) {
        return Ok(Served::Refused(Refusal::TooLong));
    }
    if is_too_long(specs.len()) {
        return Err(WorldError::TooGreat);
    }
    Ok(Served::Answered(Reply::Followed(specs)))
}

/// What comes of a request for which of some text is in ends of links.
pub(crate) fn serve_end_sets<W: Find>(
    world: &W,
    alloc: Global,
    session: u64,
    specs: &[Spec],
) -> Result<Served, WorldError>
    ensures served { (view : FlatView) (limits : LimitsView) → W.stands world.now view → IfOk result (IsServedAs limits view session (end_sets (map plain_spec specs.now))) }
    ensures valid { (view : FlatView) → W.stands world.now view → IfOk result IsValidServed }
{
    if let Some(refusal) = picking_refusal(world, session, specs) {
        return Ok(Served::Refused(refusal));
    }
    let from = world.end_set(alloc, session, End::From, specs)?;
    if has_too_many_spans(from.as_slice()) {
        return Ok(Served::Refused(Refusal::TooLong));
    }
    let to = world.end_set(alloc, session, End::To, specs)?;
    if has_too_many_spans(to.as_slice()) {
        return Ok(Served::Refused(Refusal::TooLong));
    }
    let three = world.end_set(alloc, session, End::Three, specs)?;
    if has_too_many_spans(three.as_slice()) {
        return Ok(Served::Refused(Refusal::TooLong));
    }
    if is_too_long(specs.len()) {
        return Err(WorldError::TooGreat);
    }
    Ok(Served::Answered(Reply::EndSets { from, to, three }))
}
