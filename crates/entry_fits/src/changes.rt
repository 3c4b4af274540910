//! Whether a change can come after what made a world.
ghost use Rattle.std.specs.Prelude.{◌≡◌, ◌↔◌, ◌+◌, ◌≤◌, IsTrue, IfOk, All, length, map};
ghost use Rattle.tumbler.specs.Span.{SpanFits};
ghost use Rattle.febe_data.specs.Plain.{plain_spec, plain_change};
ghost use Rattle.world_rules.specs.World.{has_document};
ghost use Rattle.world_rules.specs.FlatView.{FlatView};
ghost use Rattle.world_rules.specs.Placed.{IsCutAt, IsLinkedAt, IsCopiedTo};
ghost use Rattle.world_rules.specs.Refusals.{runs_in_all};
ghost use Rattle.entry_fits.specs.Fits.{SpecFits, TextFits, CopyFits, LinkFits, ChangeFits};

use crate::documents::{is_next, is_version};
use crate::picking::{are_few_in_all, are_few_runs, specs_fit};
use febe_data::bounds::{MOST_CONTENT, MOST_POSITIONS};
use febe_data::{Change, Span, Spec, Tumbler};
use std::alloc::Global;
use world_rules::{Find, LookUp, WorldError, cuts_of};

/// Whether it is a position of a text of this length, or the one behind it.
fn is_place(length: usize, at: u32) -> bool
    ensures { IsTrue result ↔ (1 ≤ at) × (at ≤ length + 1) }
{
    1 <= at && at as usize - 1 <= length
}

/// Whether so many more positions are as many as a document may have.
fn has_positions(length: usize, more: usize) -> bool
    ensures { IsTrue result ↔ length + more ≤ 1073741824 }
{
    length.saturating_add(more) <= MOST_POSITIONS as usize
}

/// Whether a text comes in at a place of the document, with its next bytes, and nothing grows too long.
fn text_fits<W: LookUp>(
    world: &W,
    document: &Tumbler,
    at: u32,
    first: u32,
    text: &[u8],
) -> Result<bool, WorldError>
    ensures { (view : FlatView) → W.stands world.now view → IfOk result (λ fits. IsTrue fits ↔ TextFits view.world document.now at first text.now) }
{
    if !world.has_document(document) {
        return Ok(false);
    }
    let length = world.text_length(document);
    if !is_place(length, at) {
        return Ok(false);
    }
    if !has_positions(length, text.len()) {
        return Ok(false);
    }
    if world.content().saturating_add(text.len()) > MOST_CONTENT as usize {
        return Ok(false);
    }
    Ok(world.next_content(document)? == first)
}

/// Whether the document is there, and the span ends at an address.
fn delete_fits<W: LookUp>(world: &W, document: &Tumbler, span: &Span) -> bool
    ensures { (view : FlatView) → W.stands world.now view → IsTrue result ↔ IsTrue (has_document view.world document.now) × SpanFits span.now }
{
    if !world.has_document(document) {
        return false;
    }
    span.fits()
}

/// Whether the document is there, and the cuts bound two blocks of its text.
fn cuts_fit<W: LookUp>(world: &W, document: &Tumbler, cuts: &[u32]) -> bool
    ensures { (view : FlatView) → W.stands world.now view → IsTrue result ↔ IsTrue (has_document view.world document.now) × IsCutAt view.world document.now cuts.now }
{
    if !world.has_document(document) {
        return false;
    }
    let Some(cuts) = cuts_of(cuts) else {
        return false;
    };
    if cuts.first == 0 {
        return false;
    }
    is_place(world.text_length(document), cuts.fourth)
}

/// Whether what the specs pick, in not too many runs, comes in at a place of the document, which does not grow too long.
fn copy_fits<W: Find>(
    world: &W,
    alloc: Global,
    document: &Tumbler,
    at: u32,
    specs: &[Spec],
) -> Result<bool, WorldError>
    ensures { (view : FlatView) → W.stands world.now view → IfOk result (λ fits. IsTrue fits ↔ CopyFits view.world document.now at (map plain_spec specs.now)) }
{
    if !world.has_document(document) {
        return Ok(false);
    }
    let length = world.text_length(document);
    if !is_place(length, at) {
        return Ok(false);
    }
    if !specs_fit(world, specs) {
        return Ok(false);
    }
    if !are_few_runs(world, alloc, specs)? {
        return Ok(false);
    }
    let picked = world.picked_length(alloc, specs)?;
    Ok(has_positions(length, picked))
}

/// Whether a link comes in at the end of its home's links, with the next number.
fn is_linked<W: LookUp>(
    world: &W,
    home: &Tumbler,
    number: u32,
    place: u32,
) -> Result<bool, WorldError>
    ensures { (view : FlatView) → W.stands world.now view → IfOk result (λ fits. IsTrue fits ↔ IsLinkedAt view.world home.now number place) }
{
    if !world.has_document(home) {
        return Ok(false);
    }
    if place == 0 || place as usize - 1 != world.link_length(home) {
        return Ok(false);
    }
    Ok(world.next_link(home)? == number)
}

/// Whether the three lists of specs pick what there is, in not too many runs.
fn ends_fit<W: Find>(
    world: &W,
    alloc: Global,
    from: &[Spec],
    to: &[Spec],
    three: &[Spec],
) -> Result<bool, WorldError>
    ensures { (view : FlatView) → W.stands world.now view → IfOk result (λ fits. IsTrue fits ↔ All (SpecFits view.world) (map plain_spec from.now) × All (SpecFits view.world) (map plain_spec to.now) × All (SpecFits view.world) (map plain_spec three.now) × (runs_in_all view.world (map plain_spec from.now) (map plain_spec to.now) (map plain_spec three.now) ≤ 65536)) }
{
    if !specs_fit(world, from) {
        return Ok(false);
    }
    if !specs_fit(world, to) {
        return Ok(false);
    }
    if !specs_fit(world, three) {
        return Ok(false);
    }
    let few = are_few_in_all(world, alloc, from, to, three)?;
    Ok(few)
}

/// Whether a link comes in as it should, with such ends.
fn link_fits<W: Find>(
    world: &W,
    alloc: Global,
    home: &Tumbler,
    number: u32,
    place: u32,
    from: &[Spec],
    to: &[Spec],
    three: &[Spec],
) -> Result<bool, WorldError>
    ensures { (view : FlatView) → W.stands world.now view → IfOk result (λ fits. IsTrue fits ↔ LinkFits view.world home.now number place (map plain_spec from.now) (map plain_spec to.now) (map plain_spec three.now)) }
{
    if !is_linked(world, home, number, place)? {
        return Ok(false);
    }
    let fits = ends_fit(world, alloc, from, to, three)?;
    Ok(fits)
}

/// Whether the change can come after what made the world. One that is not kept never can.
pub(crate) fn change_fits<W: Find>(
    world: &W,
    alloc: Global,
    change: &Change,
) -> Result<bool, WorldError>
    ensures { (view : FlatView) → W.stands world.now view → IfOk result (λ fits. IsTrue fits ↔ ChangeFits view.world (plain_change change.now)) }
{
    match change {
        Change::Create { document } => Ok(is_next(world, document)?),
        Change::Version { source, document } => Ok(is_version(world, source, document)?),
        Change::OpenCopy { source, document } => Ok(is_version(world, source, document)?),
        Change::Insert {
            document,
            at,
            first,
            text,
        } => Ok(text_fits(world, document, *at, *first, text.as_slice())?),
        Change::Delete { document, span } => Ok(delete_fits(world, document, span)),
        Change::Rearrange { document, cuts } => Ok(cuts_fit(world, document, cuts.as_slice())),
        Change::Copy {
            document,
            at,
            specs,
        } => Ok(copy_fits(world, alloc, document, *at, specs.as_slice())?),
        Change::Link {
            home,
            number,
            place,
            from,
            to,
            three,
        } => Ok(link_fits(
            world,
            alloc,
            home,
            *number,
            *place,
            from.as_slice(),
            to.as_slice(),
            three.as_slice(),
        )?),
        Change::Publish { document } => Ok(world.has_document(document)),
        _ => Ok(false),
    }
}
