//! Edits of trees: rows are put in, taken out and moved.
ghost use Rattle.std.specs.Prelude.{◌≡◌, ◌≢◌, ◌<◌, [], map, length, All, IfOk};
ghost use Rattle.tumbler.specs.Places.{IsUpTo};
ghost use Rattle.enfilade_core.specs.Rows.{rows_in, rows_table, rows_of};
ghost use Rattle.enfilade_core.specs.Axes.{IsWellFormedRow, IsWellFormedRows, InOrder};
ghost use Rattle.enfilade_core.specs.Plain.{shape, plain_row};
ghost use Rattle.enfilade_core.specs.Edits.{put_before, left_by, taken_out, shifted, KeepsRows};
ghost use Rattle.enfilade_core.specs.Summary.{height_of, depth_of};
ghost use Rattle.enfilade_core.specs.Exchange.{exchanged, Grows, MayBeRoot, height_in};

use crate::arena::Arena;
use crate::gap::Gap;
use crate::laws::nodes_are_well_formed;
use crate::plane::Plane;
use crate::tree::{Children, Node, Row};
use tumbler::{List, Memory, Tumbler};

/// A tree after an edit, and the rows that were taken out of it, with the places that they had.
#[derive(Drop)]
pub struct Exchanged<L> {
    pub root: Node,
    pub out: List<Row<L>>,
}

impl<P: Plane> Arena<P> {
    /// A root with these children, which may be none.
    fn rooted(&mut self, children: Children<P::Leaf>) -> Result<Node, Memory>
        requires { MayBeRoot P.widths self.old (shape P.plain children) }
        ensures grows { Grows self.old self.new }
        ensures below { IfOk result (λ root. root.0 < length self.new) }
        ensures rows { IfOk result (λ root. rows_of self.new root.0 ≡ rows_in (rows_table self.old) (shape P.plain children)) }
        ensures level { IfOk result (λ root. rows_in (rows_table self.old) (shape P.plain children) ≢ [] → height_of P.widths self.new root.0 ≡ height_in P.widths self.old (shape P.plain children)) }
    {
        if children.is_empty() {
            return self.empty();
        }
        self.add_node(children)
    }

    /// Takes out what stands in a gap, moves what is behind it, and puts other rows in there, with one copy
    /// of the path.
    ///
    /// Where what is behind the gap does not come before it, the rows of the new tree are those that a cut, a
    /// shift and a splice would give. Every tree that was there keeps its rows, also where memory is refused.
    /// The new tree is as deep as the old one, or an empty bottom node where no row is left.
    pub fn exchange(
        &mut self,
        root: Node,
        gap: &Gap,
        rows: &List<Row<P::Leaf>>,
    ) -> Result<Exchanged<P::Leaf>, Memory>
        requires below { root.0 < length self.old }
        requires up_to { IsUpTo gap.now.from gap.now.to }
        requires well_formed { IsWellFormedRows P.widths (exchanged gap.now (map (plain_row P.plain) rows.now.items) (rows_of self.old root.0)) }
        ensures kept { KeepsRows self.old self.new }
        ensures grows { Grows self.old self.new }
        ensures below { IfOk result (λ made. made.root.0 < length self.new) }
        ensures rows { IfOk result (λ made. rows_of self.new made.root.0 ≡ exchanged gap.now (map (plain_row P.plain) rows.now.items) (rows_of self.old root.0)) }
        ensures out { IfOk result (λ made. map (plain_row P.plain) made.out.items ≡ taken_out gap.now.from gap.now.to (rows_of self.old root.0)) }
        ensures level { IfOk result (λ made. rows_of self.new made.root.0 ≢ [] → depth_of P.widths self.new made.root.0 ≡ depth_of P.widths self.old root.0) }
    {
        let mut out = List::new(self.allocator());
        let children = self.root_exchanged(root, gap, rows.as_slice(), &mut out)?;
        let root = self.rooted(children)?;
        Ok(Exchanged { root, out })
    }

    /// Puts rows in before the first one that stands at or past a coordinate.
    pub fn splice(
        &mut self,
        root: Node,
        at: &Tumbler,
        rows: &List<Row<P::Leaf>>,
    ) -> Result<Node, Memory>
        requires below { root.0 < length self.old }
        requires well_formed { All (IsWellFormedRow P.widths) (map (plain_row P.plain) rows.now.items) }
        requires ordered { InOrder (put_before at.now (map (plain_row P.plain) rows.now.items) (rows_of self.old root.0)) }
        ensures kept { KeepsRows self.old self.new }
        ensures grows { Grows self.old self.new }
        ensures below { IfOk result (λ made. made.0 < length self.new) }
        ensures rows { IfOk result (λ made. rows_of self.new made.0 ≡ put_before at.now (map (plain_row P.plain) rows.now.items) (rows_of self.old root.0)) }
        ensures level { IfOk result (λ made. rows_of self.new made.0 ≢ [] → depth_of P.widths self.new made.0 ≡ depth_of P.widths self.old root.0) }
    {
        nodes_are_well_formed(self);
        let gap = Gap {
            from: at.copy(),
            to: at.copy(),
            onto: at.copy(),
        };
        let made = self.exchange(root, &gap, rows)?;
        Ok(made.root)
    }

    /// Takes out the rows that stand at or past `from` and before `to`, and gives them beside the new tree, with
    /// the places that they had. Where `to` comes before `from` there are none, and the tree is the same.
    pub fn cut(
        &mut self,
        root: Node,
        from: &Tumbler,
        to: &Tumbler,
    ) -> Result<(Node, List<Row<P::Leaf>>), Memory>
        requires below { root.0 < length self.old }
        ensures kept { KeepsRows self.old self.new }
        ensures grows { Grows self.old self.new }
        ensures below { IfOk result (λ made. made.0.0 < length self.new) }
        ensures rows { IfOk result (λ made. rows_of self.new made.0.0 ≡ left_by from.now to.now (rows_of self.old root.0)) }
        ensures out { IfOk result (λ made. map (plain_row P.plain) made.1.items ≡ taken_out from.now to.now (rows_of self.old root.0)) }
        ensures level { IfOk result (λ made. rows_of self.new made.0.0 ≢ [] → depth_of P.widths self.new made.0.0 ≡ depth_of P.widths self.old root.0) }
    {
        let none = List::new(self.allocator());
        if to.is_before(from) {
            return Ok((root, none));
        }
        let gap = Gap {
            from: from.copy(),
            to: to.copy(),
            onto: to.copy(),
        };
        let made = self.exchange(root, &gap, &none)?;
        Ok((made.root, made.out))
    }

    /// Moves each row that stands at or past `from`: it comes to stand as far from `to` as it was from `from`.
    pub fn shift(&mut self, root: Node, from: &Tumbler, to: &Tumbler) -> Result<Node, Memory>
        requires below { root.0 < length self.old }
        requires well_formed { IsWellFormedRows P.widths (shifted from.now to.now (rows_of self.old root.0)) }
        ensures kept { KeepsRows self.old self.new }
        ensures grows { Grows self.old self.new }
        ensures below { IfOk result (λ made. made.0 < length self.new) }
        ensures rows { IfOk result (λ made. rows_of self.new made.0 ≡ shifted from.now to.now (rows_of self.old root.0)) }
        ensures level { IfOk result (λ made. rows_of self.new made.0 ≢ [] → depth_of P.widths self.new made.0 ≡ depth_of P.widths self.old root.0) }
    {
        let none = List::new(self.allocator());
        let gap = Gap {
            from: from.copy(),
            to: from.copy(),
            onto: to.copy(),
        };
        let made = self.exchange(root, &gap, &none)?;
        Ok(made.root)
    }
}
