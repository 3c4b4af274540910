//! What one row of a document shows.
ghost use Rattle.std.specs.Prelude.{◌≡◌, ◌⊎◌, IfSome, IfNone};
ghost use Rattle.poom.specs.declared.piece.Piece.{Piece};
ghost use Rattle.content_checks.specs.inside.Steps.{piece_of, Shows};

use enfilade_core::Row;
use tumbler::Tumbler;
use tumbler::laws::is_tumbler;

/// Bytes of one document that follow each other, or links.
#[derive(Clone, Copy)]
pub(crate) struct Shown {
    /// The document into which the bytes were put, or in which the links were made.
    pub document: Tumbler,
    /// Which of its bytes or links comes first. They are counted from 1.
    pub first: u32,
    /// How many there are, 1 or more.
    pub count: u32,
}

/// What the row shows, if that is bytes, in part 1, or links, in part 2.
pub(crate) fn shown_of(row: &Row<u32>, part: u32) -> Option<Shown>
    requires { (part ≡ 1) ⊎ (part ≡ 2) }
    ensures some { IfSome result (λ shown. Shows part row.now (piece_of shown)) }
    ensures none { IfNone result ((piece : Piece) → ¬ Shows part row.now piece) }
{
    let Some((first, front)) = row.second.places().split_last() else {
        return None;
    };
    let Some((at, _)) = front.split_last() else {
        return None;
    };
    if *at != part {
        return None;
    }
    let Some(document) = row.second.document_of() else {
        return None;
    };
    is_tumbler(&document);
    let first = *first;
    let count = row.leaf;
    if count == 0 {
        return None;
    }
    if count > u32::MAX - first {
        return None;
    }
    Some(Shown {
        document,
        first,
        count,
    })
}
