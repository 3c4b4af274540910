//! Requests, each read from the start of the bytes: the request and the bytes after it.
ghost use Rattle.febe_data.specs.Plain.{plain_request};
ghost use Rattle.febe_fields.specs.Reading.{ReadsIfOk};
ghost use Rattle.febe_wire.specs.inside.Reading.{request_of, request_at};

use crate::edits::{copy_at, delete_at, insert_at, rearrange_at};
use crate::links::{create_link_at, follow_at, next_links_at, with_want_at};
use crate::questions::{open_at, relate_at, with_specs_at, with_tumbler_at};
use febe_data::Request;
use febe_fields::number_at;
use std::alloc::Global;
use tumbler::Memory;

/// The request of this number, from what stands behind the number.
#[tactic(auto, unfolding(crate::specs::inside::Reading::request_of))]
fn request_of(alloc: Global, number: u32, bytes: &[u8]) -> Result<Option<(Request, &[u8])>, Memory>
    ensures { ReadsIfOk (λ x. (plain_request x.0, x.1.now)) result (request_of number bytes.now) }
{
    match number {
        0 => insert_at(alloc, bytes),
        2 => copy_at(alloc, bytes),
        3 => rearrange_at(alloc, bytes),
        10 => relate_at(alloc, bytes),
        11 => Ok(Some((Request::Create, bytes))),
        12 => Ok(delete_at(alloc, bytes)),
        16 => Ok(Some((Request::Quit, bytes))),
        18 => Ok(follow_at(alloc, bytes)),
        27 => create_link_at(alloc, bytes),
        31 => next_links_at(alloc, bytes),
        35 => Ok(open_at(alloc, bytes)),
        5 | 22 | 28 => with_specs_at(alloc, number, bytes),
        29 | 30 => with_want_at(alloc, number, bytes),
        _ => Ok(with_tumbler_at(alloc, number, bytes)),
    }
}

/// The request in which the bytes begin, and the bytes behind it.
#[tactic(auto, unfolding(crate::specs::inside::Reading::request_at))]
pub(crate) fn request_at(alloc: Global, bytes: &[u8]) -> Result<Option<(Request, &[u8])>, Memory>
    ensures { ReadsIfOk (λ x. (plain_request x.0, x.1.now)) result (request_at bytes.now) }
{
    match number_at(bytes) {
        Some((number, rest)) => request_of(alloc, number, rest),
        None => Ok(None),
    }
}
