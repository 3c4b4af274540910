//! Whether rows are those of one document: its text, and then its links.
ghost use Rattle.std.specs.Prelude.{◌≡◌, ◌↔◌, ◌⊎◌, ℕ, List, [], ◌∷◌, ◌+◌, ◌^◌, ◌<◌, ◌≤◌, IsTrue, IfSome, IfNone};
ghost use Rattle.enfilade_core.specs.declared.tree.Row.{Row as RowAt};
ghost use Rattle.poom.specs.Pieces.{stands_in};
ghost use Rattle.poom.specs.Laid.{IsOneDocument};
ghost use Rattle.content_checks.specs.inside.Steps.{HasPiece, HasPart, IsBehindPart};

use crate::shown::shown_of;
use enfilade_core::Row;
use std::alloc::Global;
use tumbler::Tumbler;

/// The most bytes that a text has.
const MOST_TEXT: u32 = 1_073_741_824;

/// The most links that a document has.
const MOST_LINKS: u32 = 4_294_967_294;

/// Whether a row stands in a part.
fn stands_in(row: &Row<u32>, part: u32) -> bool
    requires { 1 ≤ part }
    ensures { result ≡ stands_in part row.now }
{
    match row.first.places().first() {
        Some(place) => *place == part,
        None => false,
    }
}

/// The V-address of a position.
fn place_at(alloc: Global, part: u32, n: u32) -> Tumbler
    requires { 1 ≤ n }
    ensures { result ≡ part ∷ n ∷ [] }
{
    let Ok(place) = Tumbler::from_places(alloc, &[part, n]) else {
        unreachable!();
    };
    place
}

/// The position at which the next piece of a part begins, if the row has the one at position `n`, and the part is not
/// longer with it than it may be.
fn behind_piece(row: &Row<u32>, part: u32, most: u32, n: u32) -> Option<u32>
    requires part { (part ≡ 1) ⊎ (part ≡ 2) }
    requires from_one { 1 ≤ n }
    requires room { n ≤ most + 1 }
    requires most { most + 1 < 2 ^ 32 }
    ensures some { IfSome result (HasPiece part most n row.now) }
    ensures none { IfNone result ((next : ℕ) → ¬ HasPiece part most n row.now next) }
{
    let place = place_at(row.first.allocator(), part, n);
    if row.first != place {
        return None;
    }
    let Some(shown) = shown_of(row, part) else {
        return None;
    };
    let count = shown.count;
    if count > most + 1 - n {
        return None;
    }
    Some(n + count)
}

/// The rows behind those of a part, if the rows of the part are pieces without gaps, and not too many.
fn behind_part(rows: &[Row<u32>], part: u32, most: u32) -> Option<&[Row<u32>]>
    requires part { (part ≡ 1) ⊎ (part ≡ 2) }
    requires most { most + 1 < 2 ^ 32 }
    ensures some { IfSome result (λ rest. IsBehindPart part most rows.now rest.now) }
    ensures none { IfNone result ((other : List (RowAt ℕ)) → ¬ HasPart part most 1 rows.now other) }
{
    let mut rest = rows;
    let mut n = 1;
    while let Some((row, behind)) = rest.split_first() {
        if !stands_in(row, part) {
            return Some(rest);
        }
        let Some(next) = behind_piece(row, part, most, n) else {
            return None;
        };
        n = next;
        rest = behind;
    }
    Some(rest)
}

/// Whether the rows are those of one document.
pub(crate) fn is_one_document(rows: &[Row<u32>]) -> bool
    ensures { IsTrue result ↔ IsOneDocument rows.now }
{
    let Some(links) = behind_part(rows, 1, MOST_TEXT) else {
        return false;
    };
    let Some(rest) = behind_part(links, 2, MOST_LINKS) else {
        return false;
    };
    rest.is_empty()
}
