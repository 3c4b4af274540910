//! Pieces of a document are exchanged for others.
ghost use Rattle.std.specs.Prelude.{◌≡◌, ◌+◌, ◌^◌, ◌<◌, ◌≤◌, [], ◌∷◌, length, All, IfOk, OnErr};
ghost use Rattle.enfilade_core.specs.Rows.{rows_of};
ghost use Rattle.enfilade_core.specs.Edits.{KeepsRows};
ghost use Rattle.enfilade_core.specs.Exchange.{Grows};
ghost use Rattle.poom.specs.Pieces.{IsPiece, laid, total, piece_row, rows_from};
ghost use Rattle.poom.specs.Laid.{IsRoot, HasBorders, part_number, standing_in, other_part, most_in, exchanged_at};
ghost use Rattle.enfilade_core.specs.Planes.{text_widths};
ghost use Rattle.enfilade_balance.specs.Depth.{KeepsDepth};

use crate::part::Part;
use crate::piece::Piece;
use crate::poom::Poom;
use enfilade_core::{Gap, Node, Row};
use std::alloc::Global;
use tumbler::{List, Memory, Tumbler};

/// The rows of pieces, and the position behind them.
#[derive(Drop)]
struct Laid {
    rows: List<Row<u32>>,
    end: u32,
}

/// The V-address of a position.
pub(crate) fn position(alloc: Global, part: Part, n: u32) -> Tumbler
    requires { 1 ≤ n }
    ensures { result ≡ part_number part ∷ n ∷ [] }
{
    let Ok(place) = Tumbler::from_places(alloc, &[part.number(), n]) else {
        unreachable!();
    };
    place
}

/// The address of a piece's first byte or link.
fn first_address(part: Part, piece: &Piece) -> Tumbler
    requires { IsPiece piece.now }
    ensures { result ≡ (piece_row (part_number part) 0 piece.now).second }
{
    let Ok(address) = piece.document.extended(&[0, part.number(), piece.first]) else {
        unreachable!();
    };
    address
}

/// The row of a piece that stands at a position.
fn piece_row(alloc: Global, part: Part, n: u32, piece: &Piece) -> Row<u32>
    requires piece { IsPiece piece.now }
    requires from_one { 1 ≤ n }
    ensures { result ≡ piece_row (part_number part) n piece.now }
{
    Row {
        first: position(alloc, part, n),
        second: first_address(part, piece),
        leaf: piece.count,
    }
}

/// Lays pieces out from a position on.
#[tactic(auto, using(crate::proofs::Lays::lays))]
fn lay(alloc: Global, part: Part, from: u32, pieces: &[Piece]) -> Result<Laid, Memory>
    requires each { All IsPiece pieces.now }
    requires from_one { 1 ≤ from }
    requires fits { from + total pieces.now < 2 ^ 32 }
    ensures rows { IfOk result (λ laid. laid.rows.items ≡ rows_from (part_number part) from pieces.now) }
    ensures end { IfOk result (λ laid. laid.end ≡ from + total pieces.now) }
{
    let mut rows = List::new(alloc);
    rows.reserve(pieces.len())?;
    let mut n = from;
    for piece in pieces {
        rows.push_reserved(piece_row(alloc, part, n, piece));
        n += piece.count;
    }
    Ok(Laid { rows, end: n })
}

impl Poom {
    /// Exchanges the pieces of a part from one border up to another, and gives the document as it is then.
    ///
    /// What stands behind them moves so that no gap is left. The path to them is copied once, and the old
    /// document stays, as all others do. Where memory is refused the nodes that were made go again.
    pub(crate) fn exchange(
        &mut self,
        root: Node,
        part: Part,
        from: u32,
        to: u32,
        pieces: &[Piece],
    ) -> Result<Node, Memory>
        requires document { IsRoot self.old root.0 }
        requires borders { HasBorders part (rows_of self.old root.0) from to }
        requires pieces { All IsPiece pieces.now }
        requires fits { length (exchanged_at from to (laid (part_number part) pieces.now) (standing_in part (rows_of self.old root.0))) ≤ most_in part }
        ensures kept { KeepsRows self.old self.new }
        ensures grows { Grows self.old self.new }
        ensures document { IfOk result (λ made. IsRoot self.new made.0) }
        ensures level { IfOk result (λ made. KeepsDepth text_widths self.old root.0 self.new made.0) }
        ensures here { IfOk result (λ made. standing_in part (rows_of self.new made.0) ≡ exchanged_at from to (laid (part_number part) pieces.now) (standing_in part (rows_of self.old root.0))) }
        ensures there { IfOk result (λ made. standing_in (other_part part) (rows_of self.new made.0) ≡ standing_in (other_part part) (rows_of self.old root.0)) }
        ensures err { OnErr result (self.new ≡ self.old) }
    {
        let laid = lay(self.alloc, part, from, pieces)?;
        let gap = Gap {
            from: position(self.alloc, part, from),
            to: position(self.alloc, part, to),
            onto: position(self.alloc, part, laid.end),
        };
        let mark = self.arena.mark();
        let Ok(made) = self.arena.exchange(root, &gap, &laid.rows) else {
            self.arena.truncate(mark);
            return Err(Memory);
        };
        Ok(made.root)
    }
}
