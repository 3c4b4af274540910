//! The fields of entries, each read from the start of the bytes: the value and the bytes after it.
ghost use Rattle.std.specs.Prelude.{◌≡◌, ◌≤◌, length, IfSome};
ghost use Rattle.febe_fields.specs.Reading.{Reads, many_at};
ghost use Rattle.entry_codec.specs.Format.{length_size};
ghost use Rattle.entry_codec.specs.Reading.{u8_at, u32_at, u64_at, places_at, tumbler_at, length_at, text_at};

use crate::format::LogFormat;
use febe_data::Tumbler;
use febe_data::bounds::{MOST_PLACES, MOST_TEXT_BYTES};
use smallvec::SmallVec;
use std::alloc::Global;

#[tactic(auto, unfolding(crate::specs::Reading::u8_at))]
pub(crate) fn u8_at(bytes: &[u8]) -> Option<(u8, &[u8])>
    ensures { Reads (λ x. (x.0, x.1.now)) result (u8_at bytes.now) }
{
    match bytes {
        [first, rest @ ..] => Some((*first, rest)),
        _ => None,
    }
}

#[tactic(auto, unfolding(crate::specs::Reading::u32_at))]
pub(crate) fn u32_at(bytes: &[u8]) -> Option<(u32, &[u8])>
    ensures { Reads (λ x. (x.0, x.1.now)) result (u32_at bytes.now) }
{
    let (first, rest) = bytes.split_first_chunk::<4>()?;
    Some((u32::from_be_bytes(*first), rest))
}

#[tactic(auto, unfolding(crate::specs::Reading::u64_at))]
pub(crate) fn u64_at(bytes: &[u8]) -> Option<(u64, &[u8])>
    ensures { Reads (λ x. (x.0, x.1.now)) result (u64_at bytes.now) }
{
    let (first, rest) = bytes.split_first_chunk::<8>()?;
    Some((u64::from_be_bytes(*first), rest))
}

/// This many places.
fn many_places_at(alloc: Global, count: usize, bytes: &[u8]) -> Option<(SmallVec<u32, 24>, &[u8])>
    requires { count ≤ 24 }
    ensures read { Reads (λ x. (x.0.items, x.1.now)) result (many_at u32_at count bytes.now) }
    ensures few { IfSome result (λ x. length x.0.items ≤ 24) }
{
    let mut places = SmallVec::new(alloc);
    let mut rest = bytes;
    for _ in 0..count {
        let Some((place, behind)) = u32_at(rest) else {
            return None;
        };
        places.push_reserved(place);
        rest = behind;
    }
    Some((places, rest))
}

/// The count of a tumbler's places, and the places.
#[tactic(auto, unfolding(crate::specs::Reading::places_at))]
fn places_at(alloc: Global, bytes: &[u8]) -> Option<(SmallVec<u32, 24>, &[u8])>
    ensures read { Reads (λ x. (x.0.items, x.1.now)) result (places_at bytes.now) }
    ensures few { IfSome result (λ x. length x.0.items ≤ 24) }
{
    let (count, rest) = u8_at(bytes)?;
    let count = usize::from(count);
    if count > MOST_PLACES {
        return None;
    }
    many_places_at(alloc, count, rest)
}

/// A tumbler, whose last place is not 0.
#[tactic(auto, unfolding(crate::specs::Reading::tumbler_at))]
pub(crate) fn tumbler_at(alloc: Global, bytes: &[u8]) -> Option<(Tumbler, &[u8])>
    ensures { Reads (λ x. (x.0, x.1.now)) result (tumbler_at bytes.now) }
{
    let (places, rest) = places_at(alloc, bytes)?;
    match Tumbler::from_places(alloc, places.as_slice()) {
        Ok(tumbler) => Some((tumbler, rest)),
        Err(_) => None,
    }
}

/// How many bytes a length is written in.
pub(crate) fn length_size(format: LogFormat) -> usize
    ensures { result ≡ length_size format }
{
    match format {
        LogFormat::Old => 4,
        LogFormat::New => 8,
    }
}

/// The length of a text or of a body.
#[tactic(auto, unfolding(crate::specs::Reading::length_at))]
pub(crate) fn length_at(format: LogFormat, bytes: &[u8]) -> Option<(u64, &[u8])>
    ensures { Reads (λ x. (x.0, x.1.now)) result (length_at format bytes.now) }
{
    match format {
        LogFormat::Old => {
            let (len, rest) = u32_at(bytes)?;
            Some((u64::from(len), rest))
        }
        LogFormat::New => u64_at(bytes),
    }
}

/// The length of a text and its bytes.
#[tactic(auto, unfolding(crate::specs::Reading::text_at))]
pub(crate) fn text_at(format: LogFormat, bytes: &[u8]) -> Option<(&[u8], &[u8])>
    ensures { Reads (λ x. (x.0.now, x.1.now)) result (text_at format bytes.now) }
{
    let (len, rest) = length_at(format, bytes)?;
    if len > u64::from(MOST_TEXT_BYTES) {
        return None;
    }
    let len = len as usize;
    if rest.len() < len {
        return None;
    }
    Some(rest.split_at(len))
}
