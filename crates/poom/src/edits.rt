//! Edits of documents.
ghost use Rattle.std.specs.Prelude.{◌≡◌, ℕ, [], ◌∷◌, ◌+◌, ◌^◌, ◌<◌, ◌≤◌, ◌++◌, length, All, IsOk, IfOk, OnErr, map};
ghost use Rattle.tumbler.specs.Address.{IsDocument, IsMadeIn};
ghost use Rattle.tumbler.specs.Places.{IsTumbler};
ghost use Rattle.enfilade_core.specs.Rows.{rows_of};
ghost use Rattle.enfilade_core.specs.Edits.{KeepsRows};
ghost use Rattle.enfilade_core.specs.Exchange.{Grows};
ghost use Rattle.poom.specs.Pieces.{IsPiece, addresses_from, laid};
ghost use Rattle.poom.specs.Laid.{IsRoot, texts, links, exchanged_at};
ghost use Rattle.poom.specs.Edited.{IsContentRun, run_addresses, IsLinkId};
ghost use Rattle.enfilade_core.specs.Planes.{text_widths};
ghost use Rattle.enfilade_balance.specs.Depth.{KeepsDepth};

use crate::part::Part;
use crate::piece::Piece;
use crate::poom::Poom;
use crate::put::put;
use enfilade_core::Node;
use febe_data::Run;
use std::alloc::Global;
use tumbler::laws::is_tumbler;
use tumbler::{List, Memory, Tumbler};

/// The piece of a run.
fn run_piece(run: &Run) -> Piece
    requires { IsContentRun run.now }
    ensures piece { result ≡ record { document = run.now.content; first = run.now.first; count = run.now.length } }
    ensures well_formed { IsPiece result }
{
    is_tumbler(&run.content);
    Piece {
        document: run.content.copy(),
        first: run.first,
        count: run.length,
    }
}

/// The pieces of runs.
#[tactic(auto, using(crate::proofs::Inserts::copies))]
fn run_pieces(alloc: Global, runs: &[Run]) -> Result<List<Piece>, Memory>
    requires { All IsContentRun runs.now }
    ensures laid { IfOk result (λ pieces. laid 1 pieces.items ≡ run_addresses runs.now) }
    ensures each { IfOk result (λ pieces. All IsPiece pieces.items) }
{
    let mut pieces = List::new(alloc);
    pieces.reserve(runs.len())?;
    for run in runs {
        pieces.push_reserved(run_piece(run));
    }
    Ok(pieces)
}

/// The piece of one link.
#[tactic(auto, using(crate::proofs::Inserts::linked))]
fn link_piece(link: &Tumbler) -> Piece
    requires { IsLinkId link.now }
    ensures well_formed { IsPiece result }
    ensures laid { laid 2 (result ∷ []) ≡ link.now ∷ [] }
{
    let Some(document) = link.document_of() else {
        unreachable!();
    };
    is_tumbler(&document);
    let places = link.places();
    let n = places.len();
    Piece {
        document,
        first: places[n - 1],
        count: 1,
    }
}

impl Poom {
    /// Puts `k` bytes of a document's content in, from byte `first` on. The first of them comes to stand at
    /// position n, and what stood there and behind it makes room. Where memory is refused all is as before.
    #[tactic(auto, using(crate::proofs::Inserts::inserts, crate::proofs::Roots::grown))]
    pub fn insert(
        &mut self,
        root: Node,
        n: u32,
        document: &Tumbler,
        first: u32,
        k: u32,
    ) -> Result<Node, Memory>
        requires root { IsRoot self.old root.0 }
        requires from_one { 1 ≤ n }
        requires to_end { n ≤ 1 + length (texts (rows_of self.old root.0)) }
        requires document { IsDocument document.now }
        requires first { 1 ≤ first }
        requires numbers { first + k < 2 ^ 32 }
        requires room { length (texts (rows_of self.old root.0)) + k ≤ 1073741824 }
        ensures kept { KeepsRows self.old self.new }
        ensures grows { Grows self.old self.new }
        ensures root { IfOk result (λ made. IsRoot self.new made.0) }
        ensures level { IfOk result (λ made. KeepsDepth text_widths self.old root.0 self.new made.0) }
        ensures text { IfOk result (λ made. texts (rows_of self.new made.0) ≡ exchanged_at n n (addresses_from 1 document.now first k) (texts (rows_of self.old root.0))) }
        ensures links { IfOk result (λ made. links (rows_of self.new made.0) ≡ links (rows_of self.old root.0)) }
        ensures err { OnErr result (self.new ≡ self.old) }
        ensures nothing { (k ≡ 0) → IsOk result × (self.new ≡ self.old) }
        ensures same { IfOk result (λ made. (k ≡ 0) → made ≡ root) }
    {
        if k == 0 {
            return Ok(root);
        }
        is_tumbler(document);
        let piece = Piece {
            document: document.copy(),
            first,
            count: k,
        };
        let made = put(self, root, Part::Text, n, n, &[piece])?;
        Ok(made)
    }

    /// Puts the bytes of runs in, in their order and with repeats. The first of them comes to stand at position n,
    /// and what stood there and behind it makes room. Where memory is refused all is as before.
    #[tactic(auto, using(crate::proofs::Inserts::copies, crate::proofs::Roots::grown))]
    pub fn copy_in(&mut self, root: Node, n: u32, runs: &List<Run>) -> Result<Node, Memory>
        requires root { IsRoot self.old root.0 }
        requires from_one { 1 ≤ n }
        requires to_end { n ≤ 1 + length (texts (rows_of self.old root.0)) }
        requires runs { All IsContentRun runs.now.items }
        requires room { length (texts (rows_of self.old root.0)) + length (run_addresses runs.now.items) ≤ 1073741824 }
        ensures kept { KeepsRows self.old self.new }
        ensures grows { Grows self.old self.new }
        ensures root { IfOk result (λ made. IsRoot self.new made.0) }
        ensures level { IfOk result (λ made. KeepsDepth text_widths self.old root.0 self.new made.0) }
        ensures text { IfOk result (λ made. texts (rows_of self.new made.0) ≡ exchanged_at n n (run_addresses runs.now.items) (texts (rows_of self.old root.0))) }
        ensures links { IfOk result (λ made. links (rows_of self.new made.0) ≡ links (rows_of self.old root.0)) }
        ensures err { OnErr result (self.new ≡ self.old) }
    {
        let pieces = run_pieces(self.allocator(), runs.as_slice())?;
        let made = put(self, root, Part::Text, n, n, pieces.as_slice())?;
        Ok(made)
    }

    /// The document with one link more, which comes behind the others. Where memory is refused all is as before.
    #[tactic(auto, using(crate::proofs::Inserts::linked, crate::proofs::Roots::grown))]
    pub fn add_link(&mut self, root: Node, link: &Tumbler) -> Result<Node, Memory>
        requires root { IsRoot self.old root.0 }
        requires link { IsLinkId link.now }
        requires room { length (links (rows_of self.old root.0)) < 4294967294 }
        ensures kept { KeepsRows self.old self.new }
        ensures grows { Grows self.old self.new }
        ensures root { IfOk result (λ made. IsRoot self.new made.0) }
        ensures level { IfOk result (λ made. KeepsDepth text_widths self.old root.0 self.new made.0) }
        ensures links { IfOk result (λ made. links (rows_of self.new made.0) ≡ links (rows_of self.old root.0) ++ link.now ∷ []) }
        ensures text { IfOk result (λ made. texts (rows_of self.new made.0) ≡ texts (rows_of self.old root.0)) }
        ensures err { OnErr result (self.new ≡ self.old) }
    {
        let end = self.links(root) + 1;
        let piece = link_piece(link);
        let made = put(self, root, Part::Links, end, end, &[piece])?;
        Ok(made)
    }

    /// A version of a document: the same root. It takes no memory.
    pub fn version(&self, root: Node) -> Node
        ensures { result ≡ root }
    {
        root
    }
}
