//! What a world is asked of content and links, after the short history.
ghost use Rattle.std.specs.Prelude.{◌≡◌, IfOk, IfSome};
ghost use Rattle.std.specs.List.{list_any};
ghost use Rattle.febe_data.specs.Plain.{plain_spec, plain_want};
ghost use Rattle.world_rules.specs.FlatView.{FlatView};
ghost use Rattle.world_rules.specs.Refusals.{is_bad_span};
ghost use Rattle.world_rules.specs.Wanted.{AreWantedRuns};

use crate::histories::{FIRST, SECOND, address, span, specs};
use febe_data::{Diagonal, Item, List, Memory, Run, Span, Spec, Tumbler, Want};
use std::alloc::Global;
use std::process::Abort;
use std::test::Fail;
use world_rules::{End, Find, WantedRuns, WorldError, has_bad_span, three_runs};

/// The id of the one link.
const LINK: [u32; 9] = [1, 1, 0, 1, 0, 1, 0, 2, 1];

fn is_quotation(alloc: Global, run: &Run) -> Result<bool, Memory> {
    Ok(
        run.origin == address(alloc, &SECOND)?
            && run.content == address(alloc, &FIRST)?
            && (run.first, run.length) == (1, 2),
    )
}

/// Whether the second document shows two bytes of the first one's content, as one run.
fn shows_a_run<W: Find>(alloc: Global, world: &W) -> Result<bool, Memory> {
    let picked = specs(alloc, &SECOND, 1, 9)?;
    let picked = picked.as_slice();
    let Some(runs) = world.runs_up_to(alloc, picked, 1)? else {
        return Ok(false);
    };
    let [run] = runs.as_slice() else {
        return Ok(false);
    };
    Ok(
        world.picked_length(alloc, picked)? == 2
            && is_quotation(alloc, run)?
            && world.runs_up_to(alloc, picked, 0)?.is_none(),
    )
}

/// Whether these are the bytes alone.
fn is_text(items: &[Item], wanted: &[u8]) -> bool {
    let [Item::Bytes(text)] = items else {
        return false;
    };
    text.as_slice() == wanted
}

/// Whether the second document gives `ab`.
fn gives_its_text<W: Find>(alloc: Global, world: &W) -> Result<bool, Memory> {
    let picked = specs(alloc, &SECOND, 1, 9)?;
    let picked = picked.as_slice();
    if has_bad_span(picked) {
        return Ok(false);
    }
    let size = world.retrieved_size(picked);
    let items = world.retrieved(alloc, picked)?;
    Ok((size.bytes, size.items) == (2, 1) && is_text(items.as_slice(), b"ab"))
}

fn is_bad_span(span: &Span) -> bool
    ensures { result ≡ is_bad_span span.now }
{
    !span.fits()
}

/// Whether the end of some span of the spec is no address.
fn has_bad_end(spec: &Spec) -> bool
    ensures { result ≡ list_any is_bad_span (plain_spec spec.now).spans }
{
    let spans = spec.spans.as_slice();
    spans.iter().any(|span| is_bad_span(span))
}

/// Whether the two documents share `ab` at their starts.
fn relates<W: Find>(alloc: Global, world: &W) -> Result<bool, Memory> {
    let (left, right) = (specs(alloc, &FIRST, 1, 9)?, specs(alloc, &SECOND, 1, 9)?);
    let (Some(left), Some(right)) = (left.get(0), right.get(0)) else {
        return Ok(false);
    };
    if has_bad_end(left) || has_bad_end(right) {
        return Ok(false);
    }
    let Some(diagonals) = world.diagonals(alloc, left, right)? else {
        return Ok(false);
    };
    let shared = Diagonal {
        left: 1,
        right: 1,
        length: 2,
    };
    Ok(diagonals.as_slice() == [shared].as_slice())
}

/// Whether both documents show `a`, the first before the second, to their own account.
fn finds_documents<W: Find>(alloc: Global, world: &W) -> Result<bool, Memory> {
    let picked = specs(alloc, &SECOND, 1, 1)?;
    let found = world.documents_found(alloc, 1, picked.as_slice())?;
    let wanted = [address(alloc, &FIRST)?, address(alloc, &SECOND)?];
    Ok(found.as_slice() == wanted.as_slice())
}

/// Whether another session finds the one that is published alone.
fn finds_what_is_published<W: Find>(alloc: Global, world: &W) -> Result<bool, Memory> {
    let picked = specs(alloc, &SECOND, 1, 1)?;
    let found = world.documents_found(alloc, 2, picked.as_slice())?;
    let wanted = [address(alloc, &FIRST)?];
    Ok(found.as_slice() == wanted.as_slice())
}

/// The links whose first end has `a`.
fn wanted(alloc: Global) -> Result<Want, Memory> {
    Ok(Want {
        homes: List::new(alloc),
        from: specs(alloc, &SECOND, 1, 1)?,
        to: List::new(alloc),
        three: List::new(alloc),
    })
}

/// The runs that its specs pick, where they are few enough.
fn wanted_runs<W: Find>(
    alloc: Global,
    world: &W,
    want: &Want,
) -> Result<Option<WantedRuns>, WorldError>
    ensures { (view : FlatView) → W.stands world.now view → IfOk result (λ found. IfSome found (λ runs. AreWantedRuns view.world (plain_want want.now) runs)) }
{
    let (from, to, three) = (
        want.from.as_slice(),
        want.to.as_slice(),
        want.three.as_slice(),
    );
    let found = three_runs(world, alloc, from, to, three)?;
    Ok(found)
}

/// Whether these are the one link's id.
fn is_the_link(alloc: Global, ids: &[Tumbler]) -> Result<bool, Memory> {
    let link = [address(alloc, &LINK)?];
    Ok(ids == link.as_slice())
}

/// Whether the one link is found, and none behind it.
fn finds_links<W: Find>(alloc: Global, world: &W) -> Result<bool, Memory> {
    let want = wanted(alloc)?;
    let Some(runs) = wanted_runs(alloc, world, &want)? else {
        return Ok(false);
    };
    let ids = world.ids_found(alloc, 1, &want, &runs)?;
    let after = world.ids_after(alloc, 1, &want, &runs, &address(alloc, &FIRST)?, 7)?;
    let behind = world.ids_after(alloc, 2, &want, &runs, &address(alloc, &LINK)?, 7)?;
    Ok(
        world.links_found(2, &want, &runs)? == 1
            && is_the_link(alloc, ids.as_slice())?
            && is_the_link(alloc, after.as_slice())?
            && behind.is_empty(),
    )
}

/// Whether it is one spec of one position of the first document.
fn is_place(alloc: Global, specs: &[Spec], position: u32) -> Result<bool, Memory> {
    let [spec] = specs else {
        return Ok(false);
    };
    let wanted = [span(alloc, position, 1)?];
    Ok(spec.document == address(alloc, &FIRST)? && spec.spans.as_slice() == wanted.as_slice())
}

/// Whether the link is there, with its second end at `b`, and its third where `c` is picked.
fn has_its_ends<W: Find>(alloc: Global, world: &W) -> Result<bool, Memory> {
    let id = address(alloc, &LINK)?;
    let end = world.end_now(alloc, 1, &id, End::To)?;
    let picked = specs(alloc, &FIRST, 1, 9)?;
    let set = world.end_set(alloc, 2, End::Three, picked.as_slice())?;
    Ok(
        world.has_link(2, &id)
            && !world.has_link(1, &address(alloc, &FIRST)?)
            && is_place(alloc, end.as_slice(), 2)?
            && is_place(alloc, set.as_slice(), 3)?,
    )
}

/// Asks for content and links, each call once or more.
pub(crate) fn check_finds<W: Find>(rt: &impl Abort, alloc: Global, world: &W) -> Result<(), Fail> {
    assert!(rt; shows_a_run(alloc, world)?);
    assert!(rt; gives_its_text(alloc, world)?);
    assert!(rt; relates(alloc, world)?);
    assert!(rt; finds_documents(alloc, world)?);
    assert!(rt; finds_what_is_published(alloc, world)?);
    assert!(rt; finds_links(alloc, world)?);
    assert!(rt; has_its_ends(alloc, world)?);
    Ok(())
}
