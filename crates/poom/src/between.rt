//! The pieces between two positions.
ghost use Rattle.std.specs.Prelude.{◌≡◌, ℕ, ◌+◌, ◌-◌, ◌<◌, ◌≤◌, length, take, drop, All, IfOk};
ghost use Rattle.tumbler.specs.Places.{place};
ghost use Rattle.enfilade_core.specs.Rows.{rows_of};
ghost use Rattle.poom.specs.Pieces.{IsPiece, laid, row_piece};
ghost use Rattle.poom.specs.Cuts.{AreApart};
ghost use Rattle.poom.specs.Laid.{IsRoot, part_number, standing_in};
ghost use Rattle.poom.specs.Positions.{StandsBetween, clip, laid_between};

use crate::exchange::position;
use crate::joined::push_piece;
use crate::look::piece_of;
use crate::part::Part;
use crate::piece::Piece;
use crate::poom::Poom;
use enfilade_core::{Node, Row};
use enfilade_search::overlapping;
use std::alloc::Global;
use tumbler::{List, Memory, Span, Tumbler};

/// What of a row's piece stands from one position on and before another.
#[tactic(auto, using(crate::proofs::Betweens::clipping))]
fn clip(part: Part, row: &Row<u32>, from: u32, to: u32) -> Piece
    requires { StandsBetween (part_number part) from to row.now }
    ensures piece { IsPiece result }
    ensures clipped { result ≡ clip from to row.now }
{
    let start = row.first.places()[1];
    let before = from.saturating_sub(start);
    let piece = piece_of(&row.second, row.leaf);
    Piece {
        first: piece.first + before,
        count: piece.count.min(to - start) - before,
        document: piece.document,
    }
}

/// What of the pieces of rows stands from one position on and before another.
#[tactic(auto, using(crate::proofs::Betweens::clips))]
fn clips(
    alloc: Global,
    part: Part,
    rows: &[Row<u32>],
    from: u32,
    to: u32,
) -> Result<List<Piece>, Memory>
    requires { All (StandsBetween (part_number part) from to) rows.now }
    ensures laid { IfOk result (λ made. laid (part_number part) made.items ≡ laid_between (part_number part) from to rows.now) }
    ensures each { IfOk result (λ made. All IsPiece made.items) }
    ensures apart { IfOk result (λ made. AreApart made.items) }
{
    let mut pieces = List::new(alloc);
    for row in rows {
        push_piece(&mut pieces, clip(part, row, from, to))?;
    }
    Ok(pieces)
}

impl Poom {
    /// The pieces that stand in a part from one position up to another, as few as they can be.
    ///
    /// It looks at those nodes alone that reach in between.
    #[tactic(auto, using(crate::proofs::Betweens::betweens))]
    pub(crate) fn pieces_between(
        &self,
        root: Node,
        part: Part,
        from: u32,
        to: u32,
    ) -> Result<List<Piece>, Memory>
        requires document { IsRoot self.now root.0 }
        requires from_one { 1 ≤ from }
        requires order { from ≤ to }
        requires to_end { to ≤ 1 + length (standing_in part (rows_of self.now root.0)) }
        ensures laid { IfOk result (λ made. laid (part_number part) made.items ≡ take (to - from) (drop (from - 1) (standing_in part (rows_of self.now root.0)))) }
        ensures each { IfOk result (λ made. All IsPiece made.items) }
        ensures apart { IfOk result (λ made. AreApart made.items) }
    {
        if to == from {
            return Ok(List::new(self.alloc));
        }
        let span = Span {
            start: position(self.alloc, part, from),
            width: Tumbler::width(self.alloc, 2, to - from),
        };
        let rows = overlapping(&self.arena, root, &span)?;
        let made = clips(self.alloc, part, rows.as_slice(), from, to)?;
        Ok(made)
    }
}
