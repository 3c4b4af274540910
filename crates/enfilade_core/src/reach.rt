//! How far what is below a node reaches. It is asked where a node's children are tested, and by no edit.
ghost use Rattle.std.specs.Prelude.{◌≡◌, ◌<◌, ◌+◌, [], map, take, length, All, IfSome, OnOk, OnErr};
ghost use Rattle.tumbler.specs.Places.{IsTumbler, sum};
ghost use Rattle.tumbler.specs.Reach.{lead, greater, HasRoom};
ghost use Rattle.enfilade_core.specs.Axes.{first_axis, second_axis, IsWellFormedRow};
ghost use Rattle.enfilade_core.specs.Plain.{plain_row};
ghost use Rattle.enfilade_core.specs.Reach.{reach_of, reach_below, AreReaches};

use crate::arena::Arena;
use crate::plane::Plane;
use crate::tree::{Children, Node, Row};
use std::alloc::Global;
use tumbler::{List, Memory, Tumbler};

/// How far a node's origin may move on each axis so that all below it fits: at each index the most that an
/// origin, a coordinate or an end below adds to the coordinate there.
#[derive(Clone, Copy, Debug)]
pub struct Reach {
    pub first: Tumbler,
    pub second: Tumbler,
}

impl Reach {
    /// The reach of a node with nothing below it.
    fn none(alloc: Global) -> Reach
        ensures first { result.first ≡ [] }
        ensures second { result.second ≡ [] }
    {
        let zero = Tumbler::zero(alloc);
        Reach {
            first: zero,
            second: zero,
        }
    }

    /// Raises this by a row at these places, with these widths.
    #[tactic(auto, using(crate::proofs::Rooms::row_reaches))]
    fn join_row(
        &mut self,
        first: &Tumbler,
        first_width: &Tumbler,
        second: &Tumbler,
        second_width: &Tumbler,
    )
        requires first { IsTumbler (sum first.now first_width.now) }
        requires second { IsTumbler (sum second.now second_width.now) }
        ensures first { self.new.first ≡ greater self.old.first (greater (lead first.now) (lead (sum first.now first_width.now))) }
        ensures second { self.new.second ≡ greater self.old.second (greater (lead second.now) (lead (sum second.now second_width.now))) }
    {
        self.first.raise_by_lead(first);
        self.first.raise_by_lead(&first.add(first_width));
        self.second.raise_by_lead(second);
        self.second.raise_by_lead(&second.add(second_width));
    }

    /// Raises this by what is below a node that stands at these places.
    fn join_moved(&mut self, first: &Tumbler, second: &Tumbler, below: &Reach)
        requires first { HasRoom first.now below.now.first }
        requires second { HasRoom second.now below.now.second }
        ensures first { self.new.first ≡ greater self.old.first (sum below.now.first (lead first.now)) }
        ensures second { self.new.second ≡ greater self.old.second (sum below.now.second (lead second.now)) }
    {
        self.first.raise_by_moved(&below.first, first);
        self.second.raise_by_moved(&below.second, second);
    }
}

/// How far rows reach.
fn rows_reach<P: Plane>(alloc: Global, rows: &[Row<P::Leaf>]) -> Reach
    requires { All (IsWellFormedRow P.widths) (map (plain_row P.plain) rows.now) }
    ensures first { result.first ≡ reach_of (first_axis P.widths) [] (map (plain_row P.plain) rows.now) }
    ensures second { result.second ≡ reach_of (second_axis P.widths) [] (map (plain_row P.plain) rows.now) }
{
    let mut reach = Reach::none(alloc);
    for row in rows {
        reach.join_row(
            &row.first,
            &P::first_width(row),
            &row.second,
            &P::second_width(row),
        );
    }
    reach
}

impl<P: Plane> Arena<P> {
    /// How far what is below a node reaches. It goes through all nodes below, and takes no memory.
    pub(crate) fn reach_below(&self, node: Node) -> Reach
        requires { node.0 < length self.now }
        ensures first { result.first ≡ reach_below (first_axis P.widths) self.now node.0 }
        ensures second { result.second ≡ reach_below (second_axis P.widths) self.now node.0 }
    {
        let alloc = self.allocator();
        match self.node(node) {
            Children::Bottom(rows) => rows_reach::<P>(alloc, rows.as_slice()),
            Children::Inner(branches) => {
                let mut reach = Reach::none(alloc);
                for branch in branches.as_slice() {
                    let below = self.reach_below(branch.node);
                    reach.join_moved(&branch.first, &branch.second, &below);
                }
                reach
            }
        }
    }

    /// How far what is below a node reaches, looked up where the reaches of all nodes are at hand.
    pub(crate) fn reach(&self, node: Node, told: Option<&[Reach]>) -> Reach
        requires below { node.0 < length self.now }
        requires told { IfSome told (λ reaches. AreReaches P.widths self.now reaches.now) }
        ensures first { result.first ≡ reach_below (first_axis P.widths) self.now node.0 }
        ensures second { result.second ≡ reach_below (second_axis P.widths) self.now node.0 }
    {
        match told {
            Some(reaches) => reaches[node.0 as usize],
            None => self.reach_below(node),
        }
    }

    /// The reach of the arena's last node, where the reaches of all nodes before it are at hand. It goes through the
    /// node's own children alone, and takes no memory.
    fn last_reach(&self, node: Node, reaches: &[Reach]) -> Reach
        requires last { length self.now ≡ node.0 + 1 }
        requires before { AreReaches P.widths (take node.0 self.now) reaches.now }
        ensures first { result.first ≡ reach_below (first_axis P.widths) self.now node.0 }
        ensures second { result.second ≡ reach_below (second_axis P.widths) self.now node.0 }
    {
        let alloc = self.allocator();
        match self.node(node) {
            Children::Bottom(rows) => rows_reach::<P>(alloc, rows.as_slice()),
            Children::Inner(branches) => {
                let mut reach = Reach::none(alloc);
                for branch in branches.as_slice() {
                    let below = &reaches[branch.node.0 as usize];
                    reach.join_moved(&branch.first, &branch.second, below);
                }
                reach
            }
        }
    }

    /// Adds the reach of the arena's last node to those of all nodes before it, so that the next node's children can be
    /// tested by them.
    pub fn add_reach(&self, node: Node, reaches: &mut List<Reach>) -> Result<(), Memory>
        requires last { length self.now ≡ node.0 + 1 }
        requires before { AreReaches P.widths (take node.0 self.now) reaches.old.items }
        ensures ok { OnOk result (AreReaches P.widths self.now reaches.new.items) }
        ensures err { OnErr result (reaches.new ≡ reaches.old) }
    {
        let reach = self.last_reach(node, reaches.as_slice());
        reaches.push(reach)?;
        Ok(())
    }
}
