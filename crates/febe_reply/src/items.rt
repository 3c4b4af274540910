//! Items and diagonals, each read from the start of the bytes: the value and the bytes after it.
ghost use Rattle.std.specs.Prelude.{◌≡◌, map};
ghost use Rattle.febe_data.specs.Plain.{plain_item, plain_reply};
ghost use Rattle.febe_fields.specs.Reading.{Reads, ReadsIfOk, many_at, list_at};
ghost use Rattle.febe_reply.specs.inside.Reading.{text_item_at, link_item_at, item_at, retrieved_at, position_of, text_address_at, diagonal_at, related_at};

use febe_data::bounds::MOST_ITEMS;
use febe_data::{Diagonal, Item, List, Memory, Reply};
use febe_fields::{number_at, text_at, tumbler_at};
use std::alloc::Global;

#[tactic(auto, unfolding(crate::specs::inside::Reading::text_item_at))]
fn text_item_at(alloc: Global, bytes: &[u8]) -> Result<Option<(Item, &[u8])>, Memory>
    ensures { ReadsIfOk (λ x. (plain_item x.0, x.1.now)) result (text_item_at bytes.now) }
{
    let Some((text, rest)) = text_at(bytes) else {
        return Ok(None);
    };
    let text = List::from_slice(alloc, text)?;
    Ok(Some((Item::Bytes(text), rest)))
}

#[tactic(auto, unfolding(crate::specs::inside::Reading::link_item_at))]
fn link_item_at(alloc: Global, bytes: &[u8]) -> Option<(Item, &[u8])>
    ensures { Reads (λ x. (plain_item x.0, x.1.now)) result (link_item_at bytes.now) }
{
    let Some((id, rest)) = tumbler_at(alloc, bytes) else {
        return None;
    };
    Some((Item::Link(id), rest))
}

/// A text where a t begins it, and else the id of a link.
#[tactic(auto, unfolding(crate::specs::inside::Reading::item_at))]
fn item_at(alloc: Global, bytes: &[u8]) -> Result<Option<(Item, &[u8])>, Memory>
    ensures { ReadsIfOk (λ x. (plain_item x.0, x.1.now)) result (item_at bytes.now) }
{
    match bytes {
        [b't', ..] => text_item_at(alloc, bytes),
        [_, ..] => Ok(link_item_at(alloc, bytes)),
        [] => Ok(None),
    }
}

/// This many items.
fn many_items_at(
    alloc: Global,
    count: u32,
    bytes: &[u8],
) -> Result<Option<(List<Item>, &[u8])>, Memory>
    ensures { ReadsIfOk (λ x. (map plain_item x.0.items, x.1.now)) result (many_at item_at count bytes.now) }
{
    let mut items = List::new(alloc);
    items.reserve(count as usize)?;
    let mut rest = bytes;
    for _ in 0..count {
        let Some((item, behind)) = item_at(alloc, rest)? else {
            return Ok(None);
        };
        items.push_reserved(item);
        rest = behind;
    }
    Ok(Some((items, rest)))
}

/// A list of items, at most 65,536. Memory for all of them is asked for before the first is read.
#[tactic(auto, unfolding(crate::specs::inside::Reading::retrieved_at, febe_fields::specs::Reading::list_at))]
pub(crate) fn retrieved_at(alloc: Global, bytes: &[u8]) -> Result<Option<(Reply, &[u8])>, Memory>
    ensures { ReadsIfOk (λ x. (plain_reply x.0, x.1.now)) result (retrieved_at bytes.now) }
{
    let Some((count, rest)) = number_at(bytes) else {
        return Ok(None);
    };
    if count > MOST_ITEMS {
        return Ok(None);
    }
    let Some((items, rest)) = many_items_at(alloc, count, rest)? else {
        return Ok(None);
    };
    Ok(Some((Reply::Retrieved(items), rest)))
}

/// The text position of a V-address.
fn position_of(places: &[u32]) -> Option<u32>
    ensures { result ≡ position_of places.now }
{
    match places {
        [1, position] => Some(*position),
        _ => None,
    }
}

/// A V-address of a text position, which is given.
#[tactic(auto, unfolding(crate::specs::inside::Reading::text_address_at))]
fn text_address_at(alloc: Global, bytes: &[u8]) -> Option<(u32, &[u8])>
    ensures { Reads (λ x. (x.0, x.1.now)) result (text_address_at bytes.now) }
{
    let Some((address, rest)) = tumbler_at(alloc, bytes) else {
        return None;
    };
    let position = position_of(address.places())?;
    Some((position, rest))
}

/// The V-addresses of a diagonal's first pair, and its length.
#[tactic(auto, unfolding(crate::specs::inside::Reading::diagonal_at))]
fn diagonal_at(alloc: Global, bytes: &[u8]) -> Option<(Diagonal, &[u8])>
    ensures { Reads (λ x. (x.0, x.1.now)) result (diagonal_at bytes.now) }
{
    let (left, rest) = text_address_at(alloc, bytes)?;
    let (right, rest) = text_address_at(alloc, rest)?;
    let (length, rest) = number_at(rest)?;
    Some((
        Diagonal {
            left,
            right,
            length,
        },
        rest,
    ))
}

/// This many diagonals.
fn many_diagonals_at(
    alloc: Global,
    count: u32,
    bytes: &[u8],
) -> Result<Option<(List<Diagonal>, &[u8])>, Memory>
    ensures { ReadsIfOk (λ x. (x.0.items, x.1.now)) result (many_at diagonal_at count bytes.now) }
{
    let mut diagonals = List::new(alloc);
    diagonals.reserve(count as usize)?;
    let mut rest = bytes;
    for _ in 0..count {
        let Some((diagonal, behind)) = diagonal_at(alloc, rest) else {
            return Ok(None);
        };
        diagonals.push_reserved(diagonal);
        rest = behind;
    }
    Ok(Some((diagonals, rest)))
}

/// A list of diagonals, at most 65,536. Memory for all of them is asked for before the first is read.
#[tactic(auto, unfolding(crate::specs::inside::Reading::related_at, febe_fields::specs::Reading::list_at))]
pub(crate) fn related_at(alloc: Global, bytes: &[u8]) -> Result<Option<(Reply, &[u8])>, Memory>
    ensures { ReadsIfOk (λ x. (plain_reply x.0, x.1.now)) result (related_at bytes.now) }
{
    let Some((count, rest)) = number_at(bytes) else {
        return Ok(None);
    };
    if count > MOST_ITEMS {
        return Ok(None);
    }
    let Some((diagonals, rest)) = many_diagonals_at(alloc, count, rest)? else {
        return Ok(None);
    };
    Ok(Some((Reply::Related(diagonals), rest)))
}
