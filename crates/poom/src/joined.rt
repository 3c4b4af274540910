//! Lists of pieces, in which a piece that goes on where the one in front ends makes that one longer.
ghost use Rattle.std.specs.Prelude.{◌≡◌, ℕ, ◌+◌, ◌^◌, ◌<◌, ◌↔◌, ◌++◌, All, IsTrue, IfSome, IfNone, OnOk};
ghost use Rattle.std.specs.Option.{option_to_list};
ghost use Rattle.poom.specs.Pieces.{IsPiece, piece_addresses, laid};
ghost use Rattle.poom.specs.Cuts.{Continues, EndApart, AreApart, Lengthens};

use crate::piece::Piece;
use tumbler::{List, Memory};

/// Whether the second piece goes on where the first one ends.
#[tactic(auto, using(crate::proofs::Joins::joins))]
pub(crate) fn continues(last: &Piece, next: &Piece) -> bool
    requires { last.now.first + last.now.count < 2 ^ 32 }
    ensures { IsTrue result ↔ Continues last.now next.now }
{
    last.first + last.count == next.first && last.document == next.document
}

/// The last of the pieces, made longer by another one that goes on where it ends.
#[tactic(auto, using(crate::proofs::Joins::lengthening))]
fn longer(pieces: &[Piece], piece: &Piece) -> Option<Piece>
    requires each { All IsPiece pieces.now }
    requires piece { IsPiece piece.now }
    ensures some { IfSome result (λ longer. Lengthens pieces.now piece.now longer) }
    ensures none { IfNone result (EndApart pieces.now piece.now) }
{
    let n = pieces.len();
    if n == 0 {
        return None;
    }
    let last = &pieces[n - 1];
    if !continues(last, piece) {
        return None;
    }
    Some(Piece {
        document: last.document.copy(),
        first: last.first,
        count: last.count + piece.count,
    })
}

/// Adds a piece at the end. Where it goes on where the last one ends, that one becomes longer.
#[tactic(auto, using(crate::proofs::Joins::joins))]
pub(crate) fn push_piece(pieces: &mut List<Piece>, piece: Piece) -> Result<(), Memory>
    requires each { All IsPiece pieces.old.items }
    requires piece { IsPiece piece }
    ensures laid { OnOk result ((part : ℕ) → laid part pieces.new.items ≡ laid part pieces.old.items ++ piece_addresses part piece) }
    ensures each { OnOk result (All IsPiece pieces.new.items) }
    ensures apart { OnOk result (AreApart pieces.old.items → AreApart pieces.new.items) }
{
    let Some(longer) = longer(pieces.as_slice(), &piece) else {
        pieces.push(piece)?;
        return Ok(());
    };
    let n = pieces.len();
    pieces.truncate(n - 1);
    pieces.push(longer)?;
    Ok(())
}

/// Adds pieces at the end, each as `push_piece` does.
#[tactic(auto, using(crate::proofs::Joins::joins))]
pub(crate) fn push_pieces(pieces: &mut List<Piece>, more: &[Piece]) -> Result<(), Memory>
    requires each { All IsPiece pieces.old.items }
    requires more { All IsPiece more.now }
    ensures laid { OnOk result ((part : ℕ) → laid part pieces.new.items ≡ laid part pieces.old.items ++ laid part more.now) }
    ensures each { OnOk result (All IsPiece pieces.new.items) }
{
    for piece in more {
        push_piece(pieces, piece.copy())?;
    }
    Ok(())
}
