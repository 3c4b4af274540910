//! Pieces are put in between two positions.
ghost use Rattle.std.specs.Prelude.{◌≡◌, ℕ, ◌+◌, ◌^◌, ◌<◌, ◌≤◌, ◌++◌, ◌-◌, length, All, Some, None, IfOk, OnOk, OnErr};
ghost use Rattle.std.specs.Option.{option_to_list};
ghost use Rattle.enfilade_core.specs.Rows.{rows_of};
ghost use Rattle.enfilade_core.specs.Edits.{KeepsRows};
ghost use Rattle.enfilade_core.specs.Exchange.{Grows};
ghost use Rattle.poom.specs.Pieces.{IsPiece, laid, pieces_in};
ghost use Rattle.poom.specs.Laid.{IsRoot, part_number, standing_in, other_part, most_in, exchanged_at};
ghost use Rattle.poom.specs.Cuts.{IsHead, IsTail};
ghost use Rattle.enfilade_core.specs.Planes.{text_widths};
ghost use Rattle.enfilade_balance.specs.Depth.{KeepsDepth};

use crate::joined::{continues, push_piece, push_pieces};
use crate::look::PieceAt;
use crate::part::Part;
use crate::piece::Piece;
use crate::poom::Poom;
use enfilade_core::Node;
use std::alloc::Global;
use tumbler::{List, Memory};

/// A border at or next to a position, and the part of a piece that is between the two.
#[derive(Drop)]
struct Cut {
    border: u32,
    kept: Option<Piece>,
}

/// Whether the first of some pieces goes on where a piece ends.
fn is_continued(piece: &Piece, next: &[Piece]) -> bool
    requires { IsPiece piece.now }
{
    match next.first() {
        Some(first) => continues(piece, first),
        None => false,
    }
}

/// A border at a position itself: nothing is kept.
fn whole_at(n: u32) -> Cut
    ensures { result ≡ record { border = n; kept = None } }
{
    Cut {
        border: n,
        kept: None,
    }
}

/// The border where a piece begins, and its first bytes or links, which are kept.
fn front_of(at: &PieceAt, before: u32) -> Cut
    ensures { result ≡ record { border = at.now.start; kept = Some (record { document = at.now.piece.document; first = at.now.piece.first; count = before }) } }
{
    Cut {
        border: at.start,
        kept: Some(Piece {
            document: at.piece.document.copy(),
            first: at.piece.first,
            count: before,
        }),
    }
}

/// The border where a piece ends, and all but its first bytes or links, which are kept.
fn rest_of(at: &PieceAt, before: u32) -> Cut
    requires ends { at.now.start + at.now.piece.count < 2 ^ 32 }
    requires numbers { at.now.piece.first + before < 2 ^ 32 }
    requires within { before ≤ at.now.piece.count }
    ensures { result ≡ record { border = at.now.start + at.now.piece.count; kept = Some (record { document = at.now.piece.document; first = at.now.piece.first + before; count = at.now.piece.count - before }) } }
{
    Cut {
        border: at.start + at.piece.count,
        kept: Some(Piece {
            document: at.piece.document.copy(),
            first: at.piece.first + before,
            count: at.piece.count - before,
        }),
    }
}

/// The border before a position, and what is kept between. A piece that ends at the position is kept whole
/// where what comes in goes on from it, so that it is made longer.
#[tactic(auto, using(crate::proofs::Puts::heads))]
fn head(poom: &Poom, root: Node, part: Part, n: u32, next: &[Piece]) -> Cut
    requires document { IsRoot poom.now root.0 }
    requires from_one { 1 ≤ n }
    requires to_end { n ≤ 1 + length (standing_in part (rows_of poom.now root.0)) }
    ensures { IsHead (part_number part) (pieces_in (part_number part) (rows_of poom.now root.0)) n result.border (option_to_list result.kept) }
{
    let Some(at) = poom.piece_before(root, part, n) else {
        return whole_at(n);
    };
    let before = n - at.start;
    if before == at.piece.count && !is_continued(&at.piece, next) {
        return whole_at(n);
    }
    front_of(&at, before)
}

/// The border behind a position, and what is kept between.
#[tactic(auto, using(crate::proofs::Puts::tails))]
fn tail(poom: &Poom, root: Node, part: Part, n: u32) -> Cut
    requires document { IsRoot poom.now root.0 }
    requires from_one { 1 ≤ n }
    requires to_end { n ≤ 1 + length (standing_in part (rows_of poom.now root.0)) }
    ensures { IsTail (part_number part) (pieces_in (part_number part) (rows_of poom.now root.0)) n result.border (option_to_list result.kept) }
{
    let Some(at) = poom.piece_before(root, part, n) else {
        return whole_at(n);
    };
    let before = n - at.start;
    if before == at.piece.count {
        return whole_at(n);
    }
    rest_of(&at, before)
}

/// Both cuts at one position, where nothing goes, by one search.
#[tactic(auto, using(crate::proofs::Puts::splits))]
fn split(poom: &Poom, root: Node, part: Part, n: u32, next: &[Piece]) -> (Cut, Cut)
    requires document { IsRoot poom.now root.0 }
    requires from_one { 1 ≤ n }
    requires to_end { n ≤ 1 + length (standing_in part (rows_of poom.now root.0)) }
    ensures head { IsHead (part_number part) (pieces_in (part_number part) (rows_of poom.now root.0)) n result.0.border (option_to_list result.0.kept) }
    ensures tail { IsTail (part_number part) (pieces_in (part_number part) (rows_of poom.now root.0)) n result.1.border (option_to_list result.1.kept) }
{
    let Some(at) = poom.piece_before(root, part, n) else {
        return (whole_at(n), whole_at(n));
    };
    let before = n - at.start;
    if before == at.piece.count {
        if is_continued(&at.piece, next) {
            return (front_of(&at, before), whole_at(n));
        }
        return (whole_at(n), whole_at(n));
    }
    (front_of(&at, before), rest_of(&at, before))
}

/// The border before a position and the border behind another, and what is kept between each and its position.
fn cuts(poom: &Poom, root: Node, part: Part, from: u32, to: u32, next: &[Piece]) -> (Cut, Cut)
    requires document { IsRoot poom.now root.0 }
    requires from_one { 1 ≤ from }
    requires order { from ≤ to }
    requires to_end { to ≤ 1 + length (standing_in part (rows_of poom.now root.0)) }
    ensures head { IsHead (part_number part) (pieces_in (part_number part) (rows_of poom.now root.0)) from result.0.border (option_to_list result.0.kept) }
    ensures tail { IsTail (part_number part) (pieces_in (part_number part) (rows_of poom.now root.0)) to result.1.border (option_to_list result.1.kept) }
{
    if from == to {
        return split(poom, root, part, from, next);
    }
    (
        head(poom, root, part, from, next),
        tail(poom, root, part, to),
    )
}

/// Adds what was kept of a piece, if there is some.
#[tactic(auto, using(crate::proofs::Puts::kept))]
fn push_kept(pieces: &mut List<Piece>, kept: Option<Piece>) -> Result<(), Memory>
    requires each { All IsPiece pieces.old.items }
    requires kept { All IsPiece (option_to_list kept) }
    ensures laid { OnOk result ((part : ℕ) → laid part pieces.new.items ≡ laid part pieces.old.items ++ laid part (option_to_list kept)) }
    ensures each { OnOk result (All IsPiece pieces.new.items) }
{
    let Some(piece) = kept else {
        return Ok(());
    };
    push_piece(pieces, piece)?;
    Ok(())
}

/// What is kept in front, then pieces, then what is kept behind.
#[tactic(auto, using(crate::proofs::Puts::kept))]
fn joined(
    alloc: Global,
    head: Option<Piece>,
    pieces: &[Piece],
    tail: Option<Piece>,
) -> Result<List<Piece>, Memory>
    requires head { All IsPiece (option_to_list head) }
    requires pieces { All IsPiece pieces.now }
    requires tail { All IsPiece (option_to_list tail) }
    ensures laid { IfOk result (λ all. (part : ℕ) → laid part all.items ≡ (laid part (option_to_list head) ++ laid part pieces.now) ++ laid part (option_to_list tail)) }
    ensures each { IfOk result (λ all. All IsPiece all.items) }
{
    let mut all = List::new(alloc);
    push_kept(&mut all, head)?;
    push_pieces(&mut all, pieces)?;
    push_kept(&mut all, tail)?;
    Ok(all)
}

/// Exchanges what stands in a part from one position up to another for pieces. Where memory is refused all is as before.
#[tactic(auto, using(crate::proofs::Puts::puts))]
pub(crate) fn put(
    poom: &mut Poom,
    root: Node,
    part: Part,
    from: u32,
    to: u32,
    pieces: &[Piece],
) -> Result<Node, Memory>
    requires document { IsRoot poom.old root.0 }
    requires from_one { 1 ≤ from }
    requires order { from ≤ to }
    requires to_end { to ≤ 1 + length (standing_in part (rows_of poom.old root.0)) }
    requires pieces { All IsPiece pieces.now }
    requires fits { length (exchanged_at from to (laid (part_number part) pieces.now) (standing_in part (rows_of poom.old root.0))) ≤ most_in part }
    ensures kept { KeepsRows poom.old poom.new }
    ensures grows { Grows poom.old poom.new }
    ensures document { IfOk result (λ made. IsRoot poom.new made.0) }
    ensures level { IfOk result (λ made. KeepsDepth text_widths poom.old root.0 poom.new made.0) }
    ensures here { IfOk result (λ made. standing_in part (rows_of poom.new made.0) ≡ exchanged_at from to (laid (part_number part) pieces.now) (standing_in part (rows_of poom.old root.0))) }
    ensures there { IfOk result (λ made. standing_in (other_part part) (rows_of poom.new made.0) ≡ standing_in (other_part part) (rows_of poom.old root.0)) }
    ensures err { OnErr result (poom.new ≡ poom.old) }
{
    let (front, back) = cuts(poom, root, part, from, to, pieces);
    let all = joined(poom.allocator(), front.kept, pieces, back.kept)?;
    let made = poom.exchange(root, part, front.border, back.border, all.as_slice())?;
    Ok(made)
}
