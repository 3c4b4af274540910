//! Requests that make links and look for them, each read from behind its number: the request and the bytes after
//! it.
ghost use Rattle.febe_data.specs.Plain.{plain_want, plain_request};
ghost use Rattle.febe_fields.specs.Reading.{Reads, ReadsIfOk};
ghost use Rattle.febe_wire.specs.inside.Reading.{create_link_at, follow_at, want_at, with_want_at, next_links_at};

use febe_data::{Request, Want};
use febe_fields::{number_at, spans_at, specs_at, tumbler_at};
use std::alloc::Global;
use tumbler::Memory;

#[tactic(auto, unfolding(crate::specs::inside::Reading::create_link_at))]
pub(crate) fn create_link_at(
    alloc: Global,
    bytes: &[u8],
) -> Result<Option<(Request, &[u8])>, Memory>
    ensures { ReadsIfOk (λ x. (plain_request x.0, x.1.now)) result (create_link_at bytes.now) }
{
    let Some((home, rest)) = tumbler_at(alloc, bytes) else {
        return Ok(None);
    };
    let Some((from, rest)) = specs_at(alloc, rest)? else {
        return Ok(None);
    };
    let Some((to, rest)) = specs_at(alloc, rest)? else {
        return Ok(None);
    };
    let Some((three, rest)) = specs_at(alloc, rest)? else {
        return Ok(None);
    };
    Ok(Some((
        Request::CreateLink {
            home,
            from,
            to,
            three,
        },
        rest,
    )))
}

#[tactic(auto, unfolding(crate::specs::inside::Reading::follow_at))]
pub(crate) fn follow_at(alloc: Global, bytes: &[u8]) -> Option<(Request, &[u8])>
    ensures { Reads (λ x. (plain_request x.0, x.1.now)) result (follow_at bytes.now) }
{
    let Some((link, rest)) = tumbler_at(alloc, bytes) else {
        return None;
    };
    let (end, rest) = number_at(rest)?;
    Some((Request::Follow { link, end }, rest))
}

/// What links are looked for.
#[tactic(auto, unfolding(crate::specs::inside::Reading::want_at))]
fn want_at(alloc: Global, bytes: &[u8]) -> Result<Option<(Want, &[u8])>, Memory>
    ensures { ReadsIfOk (λ x. (plain_want x.0, x.1.now)) result (want_at bytes.now) }
{
    let Some((homes, rest)) = spans_at(alloc, bytes)? else {
        return Ok(None);
    };
    let Some((from, rest)) = specs_at(alloc, rest)? else {
        return Ok(None);
    };
    let Some((to, rest)) = specs_at(alloc, rest)? else {
        return Ok(None);
    };
    let Some((three, rest)) = specs_at(alloc, rest)? else {
        return Ok(None);
    };
    Ok(Some((
        Want {
            homes,
            from,
            to,
            three,
        },
        rest,
    )))
}

/// The request of this number, where it is one that gives alone what links are looked for.
#[tactic(auto, unfolding(crate::specs::inside::Reading::with_want_at))]
pub(crate) fn with_want_at(
    alloc: Global,
    number: u32,
    bytes: &[u8],
) -> Result<Option<(Request, &[u8])>, Memory>
    ensures { ReadsIfOk (λ x. (plain_request x.0, x.1.now)) result (with_want_at number bytes.now) }
{
    let Some((want, rest)) = want_at(alloc, bytes)? else {
        return Ok(None);
    };
    match number {
        29 => Ok(Some((Request::CountLinks { want }, rest))),
        30 => Ok(Some((Request::FindLinks { want }, rest))),
        _ => Ok(None),
    }
}

#[tactic(auto, unfolding(crate::specs::inside::Reading::next_links_at))]
pub(crate) fn next_links_at(alloc: Global, bytes: &[u8]) -> Result<Option<(Request, &[u8])>, Memory>
    ensures { ReadsIfOk (λ x. (plain_request x.0, x.1.now)) result (next_links_at bytes.now) }
{
    let Some((want, rest)) = want_at(alloc, bytes)? else {
        return Ok(None);
    };
    let Some((after, rest)) = tumbler_at(alloc, rest) else {
        return Ok(None);
    };
    let Some((limit, rest)) = number_at(rest) else {
        return Ok(None);
    };
    Ok(Some((Request::NextLinks { want, after, limit }, rest)))
}
