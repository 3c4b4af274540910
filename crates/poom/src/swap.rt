//! Blocks of a text change places.
ghost use Rattle.std.specs.Prelude.{◌≡◌, ◌+◌, ◌≤◌, length, IfOk, OnErr};
ghost use Rattle.enfilade_core.specs.Rows.{rows_of};
ghost use Rattle.enfilade_core.specs.Edits.{KeepsRows};
ghost use Rattle.enfilade_core.specs.Exchange.{Grows};
ghost use Rattle.poom.specs.Laid.{IsRoot, texts, links, swapped_at, AreCuts, rearranged};
ghost use Rattle.enfilade_core.specs.Planes.{text_widths};
ghost use Rattle.enfilade_balance.specs.Depth.{KeepsDepth};

use crate::joined::push_pieces;
use crate::part::Part;
use crate::poom::Poom;
use crate::put::put;
use enfilade_core::Node;
use tumbler::{List, Memory};

impl Poom {
    /// The text from `first` up to `second` and the text from `third` up to `fourth` change places.
    #[tactic(auto, using(crate::proofs::Swaps::swaps, crate::proofs::Roots::grown))]
    pub(crate) fn swap_blocks(
        &mut self,
        root: Node,
        first: u32,
        second: u32,
        third: u32,
        fourth: u32,
    ) -> Result<Node, Memory>
        requires root { IsRoot self.old root.0 }
        requires from_one { 1 ≤ first }
        requires before { first ≤ second }
        requires between { second ≤ third }
        requires behind { third ≤ fourth }
        requires to_end { fourth ≤ 1 + length (texts (rows_of self.old root.0)) }
        ensures kept { KeepsRows self.old self.new }
        ensures grows { Grows self.old self.new }
        ensures root { IfOk result (λ made. IsRoot self.new made.0) }
        ensures level { IfOk result (λ made. KeepsDepth text_widths self.old root.0 self.new made.0) }
        ensures text { IfOk result (λ made. texts (rows_of self.new made.0) ≡ swapped_at first second third fourth (texts (rows_of self.old root.0))) }
        ensures links { IfOk result (λ made. links (rows_of self.new made.0) ≡ links (rows_of self.old root.0)) }
        ensures err { OnErr result (self.new ≡ self.old) }
    {
        let mut pieces = self.pieces_between(root, Part::Text, third, fourth)?;
        let middle = self.pieces_between(root, Part::Text, second, third)?;
        push_pieces(&mut pieces, middle.as_slice())?;
        let front = self.pieces_between(root, Part::Text, first, second)?;
        push_pieces(&mut pieces, front.as_slice())?;
        let made = put(self, root, Part::Text, first, fourth, pieces.as_slice())?;
        Ok(made)
    }

    /// The text with two blocks in each other's place: between three cuts, each of which stands before the
    /// text at its position, the two blocks between them; between four the first and the last. Where memory is refused
    /// all is as before.
    #[tactic(auto, using(crate::proofs::Rearranges::cuts))]
    pub fn rearrange(&mut self, root: Node, cuts: &List<u32>) -> Result<Node, Memory>
        requires root { IsRoot self.old root.0 }
        requires cuts { AreCuts cuts.now.items (1 + length (texts (rows_of self.old root.0))) }
        ensures kept { KeepsRows self.old self.new }
        ensures grows { Grows self.old self.new }
        ensures root { IfOk result (λ made. IsRoot self.new made.0) }
        ensures level { IfOk result (λ made. KeepsDepth text_widths self.old root.0 self.new made.0) }
        ensures text { IfOk result (λ made. texts (rows_of self.new made.0) ≡ rearranged cuts.now.items (texts (rows_of self.old root.0))) }
        ensures links { IfOk result (λ made. links (rows_of self.new made.0) ≡ links (rows_of self.old root.0)) }
        ensures err { OnErr result (self.new ≡ self.old) }
    {
        let cuts = cuts.as_slice();
        if cuts.len() == 3 {
            let made = self.swap_blocks(root, cuts[0], cuts[1], cuts[1], cuts[2])?;
            return Ok(made);
        }
        let made = self.swap_blocks(root, cuts[0], cuts[1], cuts[2], cuts[3])?;
        Ok(made)
    }
}
