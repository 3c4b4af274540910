//! The parts of requests, each read from the start of the bytes: the value and the bytes after it.
ghost use Rattle.std.specs.Prelude.{◌≡◌, ◌≤◌, ◌-◌, length, replicate, IfSome};
ghost use Rattle.febe_fields.specs.Reading.{Reads, after, digits_after, digits_at, number_at, places_at, all_places_at, tumbler_at, text_at, mode_at, rule_at};

use febe_data::bounds::MOST_TEXT_BYTES;
use febe_data::{Mode, Rule};
use smallvec::SmallVec;
use std::alloc::Global;
use tumbler::{MOST_PLACES, Tumbler};

/// As many places that are 0 as a tumbler has room for.
const ZEROS: [u32; 24] = [0; 24];

/// The bytes behind this one.
fn after(byte: u8, bytes: &[u8]) -> Option<&[u8]>
    ensures { Reads (λ x. x.now) result (after byte bytes.now) }
{
    match bytes {
        [first, rest @ ..] if *first == byte => Some(rest),
        _ => None,
    }
}

/// The digits that come first, which go on from the number so far.
#[tactic(auto, unfolding(crate::specs::Reading::digits_after))]
fn digits_after(first: u32, bytes: &[u8]) -> Option<(u32, &[u8])>
    ensures { Reads (λ x. (x.0, x.1.now)) result (digits_after first bytes.now) }
{
    let mut number = first;
    let mut rest = bytes;
    while let [digit @ b'0'..=b'9', behind @ ..] = rest {
        number = number
            .checked_mul(10)?
            .checked_add(u32::from(*digit - b'0'))?;
        rest = behind;
    }
    Some((number, rest))
}

/// The digits of a number below 2^32. Behind a first 0 no digit is taken.
#[tactic(auto, unfolding(crate::specs::Reading::digits_at))]
fn digits_at(bytes: &[u8]) -> Option<(u32, &[u8])>
    ensures { Reads (λ x. (x.0, x.1.now)) result (digits_at bytes.now) }
{
    match bytes {
        [b'0', rest @ ..] => Some((0, rest)),
        [digit @ b'1'..=b'9', rest @ ..] => digits_after(u32::from(*digit - b'0'), rest),
        _ => None,
    }
}

/// A number and its tilde.
#[tactic(auto, unfolding(crate::specs::Reading::number_at))]
pub fn number_at(bytes: &[u8]) -> Option<(u32, &[u8])>
    ensures { Reads (λ x. (x.0, x.1.now)) result (number_at bytes.now) }
{
    let (number, rest) = digits_at(bytes)?;
    Some((number, after(b'~', rest)?))
}

/// The length of a text and its bytes.
#[tactic(auto, unfolding(crate::specs::Reading::text_at))]
pub fn text_at(bytes: &[u8]) -> Option<(&[u8], &[u8])>
    ensures { Reads (λ x. (x.0.now, x.1.now)) result (text_at bytes.now) }
{
    let (len, rest) = digits_at(after(b't', bytes)?)?;
    let rest = after(b':', rest)?;
    if len > MOST_TEXT_BYTES || rest.len() < len as usize {
        return None;
    }
    Some(rest.split_at(len as usize))
}

/// This many places that are 0.
fn zeros(alloc: Global, count: usize) -> SmallVec<u32, 24>
    requires { count ≤ 24 }
    ensures items { result.items ≡ replicate count 0 }
    ensures capacity { result.capacity ≡ 24 }
{
    let (places, _) = ZEROS.split_at(count);
    SmallVec::from_slice(alloc, places).unwrap()
}

/// Places, each behind a dot: as many as there are, and not more than there is room for.
#[tactic(auto, unfolding(crate::specs::Reading::places_at))]
fn places_at(alloc: Global, room: usize, bytes: &[u8]) -> Option<(SmallVec<u32, 24>, &[u8])>
    requires { room ≤ 24 }
    ensures read { Reads (λ x. (x.0.items, x.1.now)) result (places_at room bytes.now) }
    ensures few { IfSome result (λ x. length x.0.items ≤ room) }
{
    let mut places = SmallVec::new(alloc);
    let mut rest = bytes;
    for _ in 0..room {
        let [b'.', behind @ ..] = rest else {
            return Some((places, rest));
        };
        let (place, behind) = digits_at(behind)?;
        places.push_reserved(place);
        rest = behind;
    }
    Some((places, rest))
}

/// The places of a tumbler: a count of those that are 0 before the first that is not, and the others.
#[tactic(auto, unfolding(crate::specs::Reading::all_places_at))]
fn all_places_at(alloc: Global, bytes: &[u8]) -> Option<(SmallVec<u32, 24>, &[u8])>
    ensures read { Reads (λ x. (x.0.items, x.1.now)) result (all_places_at bytes.now) }
    ensures few { IfSome result (λ x. length x.0.items ≤ 24) }
{
    let (count, rest) = digits_at(bytes)?;
    let count = count as usize;
    if count > MOST_PLACES {
        return None;
    }
    let (written, rest) = places_at(alloc, MOST_PLACES - count, rest)?;
    if let Some(0) = written.as_slice().first() {
        return None;
    }
    let mut places = zeros(alloc, count);
    places.extend_from_slice(written.as_slice()).unwrap();
    Some((places, rest))
}

/// A tumbler and its tilde.
#[tactic(auto, unfolding(crate::specs::Reading::tumbler_at))]
pub fn tumbler_at(alloc: Global, bytes: &[u8]) -> Option<(Tumbler, &[u8])>
    ensures { Reads (λ x. (x.0, x.1.now)) result (tumbler_at bytes.now) }
{
    let (places, rest) = all_places_at(alloc, bytes)?;
    let rest = after(b'~', rest)?;
    match Tumbler::from_places(alloc, places.as_slice()) {
        Ok(tumbler) => Some((tumbler, rest)),
        Err(_) => None,
    }
}

/// The number of a mode and its tilde.
#[tactic(auto, unfolding(crate::specs::Reading::mode_at))]
pub fn mode_at(bytes: &[u8]) -> Option<(Mode, &[u8])>
    ensures { Reads (λ x. (x.0, x.1.now)) result (mode_at bytes.now) }
{
    match number_at(bytes)? {
        (1, rest) => Some((Mode::Read, rest)),
        (2, rest) => Some((Mode::Write, rest)),
        _ => None,
    }
}

/// The number of a rule and its tilde.
#[tactic(auto, unfolding(crate::specs::Reading::rule_at))]
pub fn rule_at(bytes: &[u8]) -> Option<(Rule, &[u8])>
    ensures { Reads (λ x. (x.0, x.1.now)) result (rule_at bytes.now) }
{
    match number_at(bytes)? {
        (1, rest) => Some((Rule::Refuse, rest)),
        (2, rest) => Some((Rule::Copy, rest)),
        (3, rest) => Some((Rule::Always, rest)),
        _ => None,
    }
}
