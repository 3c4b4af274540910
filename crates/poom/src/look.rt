//! What stands where in a document.
ghost use Rattle.std.specs.Prelude.{◌≡◌, ◌⊎◌, ℕ, List as ListOf, [], ◌∷◌, ◌+◌, ◌-◌, ◌<◌, ◌≤◌, length, min, All, IfSome, IfNone, Some, None, slice_get};
ghost use Rattle.tumbler.specs.Address.{IsMadeIn, IsDocument};
ghost use Rattle.enfilade_core.specs.Rows.{rows_of};
ghost use Rattle.enfilade_core.specs.Edits.{last_before};
ghost use Rattle.enfilade_core.specs.Planes.{text_widths};
ghost use Rattle.enfilade_core.specs.Summary.{depth_of};
ghost use Rattle.poom.specs.Pieces.{IsPiece, address_in, row_piece, pieces_in};
ghost use Rattle.poom.specs.Laid.{IsRoot, IsOneDocument, part_number, standing_in, texts, links};
ghost use Rattle.poom.specs.Cuts.{HoldsPiece, HoldsNone};

use crate::exchange::position;
use crate::part::Part;
use crate::piece::Piece;
use crate::poom::Poom;
use enfilade_core::Node;
use tumbler::Tumbler;

/// The most text that a document has.
pub const MOST_TEXT: u32 = 1_073_741_824;

/// A piece, the position at which it begins, and how many nodes were opened to find it.
#[derive(Debug, Drop)]
pub struct PieceAt {
    pub start: u32,
    pub piece: Piece,
    pub visits: u32,
}

/// What a position of a text shows.
#[derive(Debug, Drop)]
pub struct Found {
    /// The document into which the byte was first put.
    pub document: Tumbler,
    /// Which of that document's bytes it is, counted from 1.
    pub number: u32,
    /// How many nodes were opened on the way: one on each level of the tree.
    pub visits: u32,
}

/// The piece of so many bytes or links whose first address this is.
#[tactic(auto, using(crate::proofs::Looks::looks))]
pub(crate) fn piece_of(address: &Tumbler, count: u32) -> Piece
    requires { (document : ListOf ℕ) × IsMadeIn address.now document }
    ensures { result ≡ row_piece (record { first = []; second = address.now; leaf = count }) }
{
    let Some(document) = address.document_of() else {
        unreachable!();
    };
    let places = address.places();
    let n = places.len();
    Piece {
        document,
        first: places[n - 1],
        count,
    }
}

impl Poom {
    /// The piece of a row, if the row stands in this part.
    #[tactic(auto, using(crate::proofs::Looks::looks))]
    fn piece_at(
        &self,
        root: Node,
        part: Part,
        n: u32,
        first: &Tumbler,
        second: &Tumbler,
        count: u32,
        visits: u32,
    ) -> Option<PieceAt>
        requires document { IsRoot self.now root.0 }
        requires last { last_before (part_number part ∷ n ∷ []) (rows_of self.now root.0) ≡ Some (record { first = first.now; second = second.now; leaf = count }) }
        ensures found { IfSome result (λ at. HoldsPiece (pieces_in (part_number part) (rows_of self.now root.0)) n at.start at.piece) }
        ensures none { IfNone result (HoldsNone (pieces_in (part_number part) (rows_of self.now root.0)) n) }
        ensures visits { IfSome result (λ at. at.visits ≡ visits) }
    {
        let places = first.places();
        if places.len() != 2 {
            return None;
        }
        if places[0] != part.number() {
            return None;
        }
        Some(PieceAt {
            start: places[1],
            piece: piece_of(second, count),
            visits,
        })
    }

    /// The last piece that begins before a position. It goes down one path, and takes no memory.
    #[tactic(auto, using(crate::proofs::Looks::looks))]
    pub(crate) fn piece_before(&self, root: Node, part: Part, n: u32) -> Option<PieceAt>
        requires document { IsRoot self.now root.0 }
        requires from_one { 1 ≤ n }
        ensures found { IfSome result (λ at. HoldsPiece (pieces_in (part_number part) (rows_of self.now root.0)) n at.start at.piece) }
        ensures none { IfNone result (HoldsNone (pieces_in (part_number part) (rows_of self.now root.0)) n) }
        ensures visits { IfSome result (λ at. at.visits ≡ min (depth_of text_widths self.now root.0) 4294967295) }
    {
        let at = position(self.alloc, part, n);
        let Some(row) = self.arena.row_before(root, &at) else {
            return None;
        };
        self.piece_at(
            root,
            part,
            n,
            &row.first,
            &row.second,
            *row.leaf,
            row.visits,
        )
    }

    /// How much stands in a part.
    ///
    /// The tree's rows end where the document's last part does, so that one is as long as the end says. The text of
    /// a document that has links is looked for.
    pub(crate) fn length_of(&self, root: Node, part: Part) -> u32
        requires document { IsRoot self.now root.0 }
        ensures { result ≡ length (standing_in part (rows_of self.now root.0)) }
    {
        let end = self.arena.first_extent(root);
        let places = end.places();
        if places.len() < 2 {
            return 0;
        }
        if places[0] != part.number() {
            return self.length_by_pieces(root, part);
        }
        places[1] - 1
    }

    /// How much stands in a part, told by the last piece there.
    #[tactic(auto, using(crate::proofs::Looks::lengths))]
    fn length_by_pieces(&self, root: Node, part: Part) -> u32
        requires document { IsRoot self.now root.0 }
        ensures { result ≡ length (standing_in part (rows_of self.now root.0)) }
    {
        let Some(last) = self.piece_before(root, part, u32::MAX) else {
            return 0;
        };
        last.start - 1 + last.piece.count
    }

    /// How many bytes the text has. It takes no memory.
    pub fn length(&self, root: Node) -> u32
        requires document { IsRoot self.now root.0 }
        ensures { result ≡ length (texts (rows_of self.now root.0)) }
    {
        self.length_of(root, Part::Text)
    }

    /// How many links the document has. It takes no memory.
    pub fn links(&self, root: Node) -> u32
        requires document { IsRoot self.now root.0 }
        ensures { result ≡ length (links (rows_of self.now root.0)) }
    {
        self.length_of(root, Part::Links)
    }

    /// What position n of the text shows: none where n is 0 or past the text's end. It takes no memory.
    #[tactic(auto, using(crate::proofs::Looks::shown))]
    pub fn i_of(&self, root: Node, n: u32) -> Option<Found>
        requires document { IsRoot self.now root.0 }
        ensures from_one { IfSome result (λ found. 1 ≤ n) }
        ensures found { IfSome result (λ found. slice_get (texts (rows_of self.now root.0)) (n - 1) ≡ Some (address_in 1 found.document found.number)) }
        ensures document { IfSome result (λ found. IsDocument found.document) }
        ensures none { IfNone result ((n ≡ 0) ⊎ (length (texts (rows_of self.now root.0)) < n)) }
        ensures visits { IfSome result (λ found. found.visits ≡ min (depth_of text_widths self.now root.0) 4294967295) }
    {
        if n == 0 {
            return None;
        }
        if n > MOST_TEXT {
            return None;
        }
        let at = self.piece_before(root, Part::Text, n + 1)?;
        let offset = n - at.start;
        if offset >= at.piece.count {
            return None;
        }
        Some(Found {
            document: at.piece.document.copy(),
            number: at.piece.first + offset,
            visits: at.visits,
        })
    }
}
