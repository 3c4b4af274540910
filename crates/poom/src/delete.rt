//! What a span picks goes.
ghost use Rattle.std.specs.Prelude.{◌≡◌, ℕ, ◌+◌, ◌<◌, ◌≤◌, length, IfOk, OnErr};
ghost use Rattle.tumbler.specs.Span.{SpanFits};
ghost use Rattle.enfilade_core.specs.Rows.{rows_of};
ghost use Rattle.enfilade_core.specs.Edits.{KeepsRows};
ghost use Rattle.enfilade_core.specs.Exchange.{Grows};
ghost use Rattle.poom.specs.Laid.{IsRoot, part_number, standing_in, other_part, texts, links};
ghost use Rattle.poom.specs.Picked.{left_from};
ghost use Rattle.poom.specs.Bounds.{IsBound};
ghost use Rattle.enfilade_core.specs.Planes.{text_widths};
ghost use Rattle.enfilade_balance.specs.Depth.{KeepsDepth};

use crate::part::Part;
use crate::poom::Poom;
use crate::put::put;
use enfilade_core::Node;
use tumbler::{Memory, Span, Tumbler};

/// The first position of a part that does not come before a place, or one past the end.
#[tactic(auto, using(crate::proofs::Bounded::bounded))]
pub(crate) fn bound(part: Part, place: &Tumbler, length: u32) -> u32
    requires { length ≤ 4294967294 }
    ensures { IsBound (part_number part) place.now length result }
{
    let places = place.places();
    if places.is_empty() {
        return 1;
    }
    if part.number() < places[0] {
        return length + 1;
    }
    if places[0] < part.number() {
        return 1;
    }
    if places.len() == 1 {
        return 1;
    }
    if length < places[1] {
        return length + 1;
    }
    if places.len() == 2 {
        return places[1].max(1);
    }
    places[1] + 1
}

impl Poom {
    /// The document without what the span picks from a part.
    #[tactic(auto, using(crate::proofs::Deletes::deletes, crate::proofs::Roots::grown))]
    fn delete_in(&mut self, root: Node, part: Part, span: &Span) -> Result<Node, Memory>
        requires document { IsRoot self.old root.0 }
        requires fits { SpanFits span.now }
        ensures kept { KeepsRows self.old self.new }
        ensures grows { Grows self.old self.new }
        ensures document { IfOk result (λ made. IsRoot self.new made.0) }
        ensures level { IfOk result (λ made. KeepsDepth text_widths self.old root.0 self.new made.0) }
        ensures here { IfOk result (λ made. standing_in part (rows_of self.new made.0) ≡ left_from (part_number part) span.now 1 (standing_in part (rows_of self.old root.0))) }
        ensures there { IfOk result (λ made. standing_in (other_part part) (rows_of self.new made.0) ≡ standing_in (other_part part) (rows_of self.old root.0)) }
        ensures err { OnErr result (self.new ≡ self.old) }
    {
        let length = self.length_of(root, part);
        let from = bound(part, &span.start, length);
        let to = bound(part, &span.start.add(&span.width), length);
        if to <= from {
            return Ok(root);
        }
        let made = put(self, root, part, from, to, &[])?;
        Ok(made)
    }

    /// The document without what the span picks, text and links. What is behind closes up. Where memory is refused all is
    /// as before.
    #[tactic(auto, using(crate::proofs::Deletes::deleted, crate::proofs::Roots::twice))]
    pub fn delete(&mut self, root: Node, span: &Span) -> Result<Node, Memory>
        requires root { IsRoot self.old root.0 }
        requires fits { SpanFits span.now }
        ensures kept { KeepsRows self.old self.new }
        ensures grows { Grows self.old self.new }
        ensures root { IfOk result (λ made. IsRoot self.new made.0) }
        ensures text { IfOk result (λ made. texts (rows_of self.new made.0) ≡ left_from 1 span.now 1 (texts (rows_of self.old root.0))) }
        ensures level { IfOk result (λ made. KeepsDepth text_widths self.old root.0 self.new made.0) }
        ensures links { IfOk result (λ made. links (rows_of self.new made.0) ≡ left_from 2 span.now 1 (links (rows_of self.old root.0))) }
        ensures err { OnErr result (self.new ≡ self.old) }
    {
        let mark = self.arena.mark();
        let without = self.delete_in(root, Part::Text, span)?;
        let Ok(made) = self.delete_in(without, Part::Links, span) else {
            self.arena.truncate(mark);
            return Err(Memory);
        };
        Ok(made)
    }
}
