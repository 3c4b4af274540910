//! Which links are found.
ghost use Rattle.std.specs.Prelude.{◌≡◌, ◌+◌, ◌||◌, map, length, IfOk};
ghost use Rattle.std.specs.List.{list_any};
ghost use Rattle.febe_data.specs.LimitsView.{LimitsView};
ghost use Rattle.febe_data.specs.Plain.{plain_want, count_links, find_links, next_links};
ghost use Rattle.world_rules.specs.FlatView.{FlatView};
ghost use Rattle.world_rules.specs.Refusals.{is_bad_span, is_too_long, lacks_document_of, hides_document_of, lacks_opening_of, has_bad_span_in};
ghost use Rattle.world_rules.specs.Served.{IsServedAs, IsValidServed};
ghost use Rattle.world_rules.specs.Wanted.{AreWantedRuns};
ghost use Rattle.world_rules.specs.inside.WantRefusal.{AreRunsOrRefusal};

use crate::errors::WorldError;
use crate::lookups::{Find, LookUp, WantedRuns};
use crate::refusals::{
    has_bad_end, has_bad_span, hides_document, is_too_long, lacks_document, lacks_opening,
};
use crate::requests::Served;
use crate::three_sets::three_runs;
use febe_data::{Refusal, Reply, Tumbler, Want};
use std::alloc::Global;

/// Whether the end of some span of the want is no address.
fn has_bad_span_in(want: &Want) -> bool
    ensures { result ≡ has_bad_span_in (plain_want want.now) }
{
    has_bad_span(want.from.as_slice())
        || has_bad_span(want.to.as_slice())
        || has_bad_span(want.three.as_slice())
        || has_bad_end(want.homes.as_slice())
}

/// Whether a spec of the want names a document that there is not.
fn lacks_document_of<W: LookUp>(world: &W, want: &Want) -> bool
    ensures { (view : FlatView) → W.stands world.now view → result ≡ lacks_document_of view.world (plain_want want.now) }
{
    lacks_document(world, want.from.as_slice())
        || lacks_document(world, want.to.as_slice())
        || lacks_document(world, want.three.as_slice())
}

/// Whether a spec of the want names a document that the session may not read.
fn hides_document_of<W: LookUp>(world: &W, session: u64, want: &Want) -> bool
    ensures { (view : FlatView) → W.stands world.now view → result ≡ hides_document_of view.world session (plain_want want.now) }
{
    let account = world.account_of_session(session);
    hides_document(world, &account, want.from.as_slice())
        || hides_document(world, &account, want.to.as_slice())
        || hides_document(world, &account, want.three.as_slice())
}

/// Whether a spec of the want names a document that the session has not open.
fn lacks_opening_of<W: LookUp>(world: &W, session: u64, want: &Want) -> bool
    ensures { (view : FlatView) → W.stands world.now view → result ≡ lacks_opening_of view.world session (plain_want want.now) }
{
    lacks_opening(world, session, want.from.as_slice())
        || lacks_opening(world, session, want.to.as_slice())
        || lacks_opening(world, session, want.three.as_slice())
}

/// The runs that links are looked for by, or what the want is refused for.
fn runs_or_refusal<W: Find>(
    world: &W,
    alloc: Global,
    session: u64,
    want: &Want,
) -> Result<Result<WantedRuns, Refusal>, WorldError>
    ensures { (view : FlatView) → W.stands world.now view → IfOk result (AreRunsOrRefusal view.world session (plain_want want.now)) }
{
    if lacks_document_of(world, want) {
        return Ok(Err(Refusal::NoSuchDocument));
    }
    if hides_document_of(world, session, want) {
        return Ok(Err(Refusal::Private));
    }
    if lacks_opening_of(world, session, want) {
        return Ok(Err(Refusal::NotOpen));
    }
    if has_bad_span_in(want) {
        return Ok(Err(Refusal::BadAddress));
    }
    let (from, to, three) = (&want.from, &want.to, &want.three);
    let found = three_runs(
        world,
        alloc,
        from.as_slice(),
        to.as_slice(),
        three.as_slice(),
    )?;
    let Some(runs) = found else {
        return Ok(Err(Refusal::TooLong));
    };
    Ok(Ok(runs))
}

/// How many links are wanted.
#[tactic(auto, using(crate::proofs::Checks::served))]
pub(crate) fn serve_count_links<W: Find>(
    world: &W,
    alloc: Global,
    session: u64,
    want: &Want,
) -> Result<Served, WorldError>
    ensures served { (view : FlatView) (limits : LimitsView) → W.stands world.now view → IfOk result (IsServedAs limits view session (count_links (plain_want want.now))) }
    ensures valid { IfOk result IsValidServed }
{
    let runs = match runs_or_refusal(world, alloc, session, want)? {
        Ok(runs) => runs,
        Err(refusal) => return Ok(Served::Refused(refusal)),
    };
    let count = world.links_found(session, want, &runs)?;
    Ok(Served::Answered(Reply::LinkCount(count)))
}

/// The ids of the links that are wanted.
#[tactic(auto, using(crate::proofs::Checks::served))]
pub(crate) fn serve_find_links<W: Find>(
    world: &W,
    alloc: Global,
    session: u64,
    want: &Want,
) -> Result<Served, WorldError>
    ensures served { (view : FlatView) (limits : LimitsView) → W.stands world.now view → IfOk result (IsServedAs limits view session (find_links (plain_want want.now))) }
    ensures valid { IfOk result IsValidServed }
{
    let runs = match runs_or_refusal(world, alloc, session, want)? {
        Ok(runs) => runs,
        Err(refusal) => return Ok(Served::Refused(refusal)),
    };
    let ids = world.ids_found(alloc, session, want, &runs)?;
    if is_too_long(ids.len()) {
        return Ok(Served::Refused(Refusal::TooLong));
    }
    Ok(Served::Answered(Reply::Links(ids)))
}

/// The first so many ids of the links that are wanted, above a tumbler.
#[tactic(auto, using(crate::proofs::Checks::served))]
pub(crate) fn serve_next_links<W: Find>(
    world: &W,
    alloc: Global,
    session: u64,
    want: &Want,
    after: &Tumbler,
    limit: u32,
) -> Result<Served, WorldError>
    ensures served { (view : FlatView) (limits : LimitsView) → W.stands world.now view → IfOk result (IsServedAs limits view session (next_links (plain_want want.now) after.now limit)) }
    ensures valid { IfOk result IsValidServed }
{
    let runs = match runs_or_refusal(world, alloc, session, want)? {
        Ok(runs) => runs,
        Err(refusal) => return Ok(Served::Refused(refusal)),
    };
    let ids = world.ids_after(alloc, session, want, &runs, after, limit)?;
    if is_too_long(ids.len()) {
        return Ok(Served::Refused(Refusal::TooLong));
    }
    Ok(Served::Answered(Reply::NextLinks(ids)))
}
