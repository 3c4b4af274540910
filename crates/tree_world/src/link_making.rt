//! A link that comes in.
ghost use Rattle.std.specs.Prelude.{◌≡◌, ℕ, ◌+◌, ◌<◌, ◌++◌, ◌∷◌, [], false, length, map, All, IsTrue, IfOk, OnOk, OnErr};
ghost use Rattle.enfilade_core.specs.Rows.{rows_of};
ghost use Rattle.enfilade_core.specs.Edits.{KeepsRows};
ghost use Rattle.enfilade_core.specs.Exchange.{Grows};
ghost use Rattle.poom.specs.Laid.{IsRoot, texts};
ghost use Rattle.poom.specs.Laid.{links as links_laid};
ghost use Rattle.poom.specs.Edited.{IsLinkId};
ghost use Rattle.febe_data.specs.Plain.{plain_spec, plain_specs, link_made};
ghost use Rattle.links.specs.LinkLists.{IsRun, IsLink, AllGrow, plain_link, has_in, added, most_links};
ghost use Rattle.world_rules.specs.World.{link_address};
ghost use Rattle.world_rules.specs.Apply.{link_between};
ghost use Rattle.world_rules.specs.FlatView.{FlatView};
ghost use Rattle.tree_world.specs.Standing.{Stands, EndsStand};
ghost use Rattle.tree_world.specs.Changed.{after_change};
ghost use Rattle.tree_world.specs.Undone.{EntryCame, LinkCame};

use crate::counts::one_more;
use crate::linking::span_of_run;
use crate::marking::set_root;
use crate::world::TreeWorld;
use enfilade_core::Node;
use febe_data::{List, Memory, Run, Spec, Tumbler};
use links::{LinkRow, Links};
use poom::Poom;
use std::alloc::Global;

/// Whether all are runs of documents' contents.
fn are_runs(runs: &[Run]) -> bool
    ensures { IsTrue result → All IsRun runs.now }
{
    for run in runs {
        let Ok(_span) = span_of_run(run) else {
            return false;
        };
    }
    true
}

/// Whether one more link has room.
fn has_room(links: &Links) -> bool
    ensures { IsTrue result → length links.now.links < most_links }
{
    links.nth(4_294_967_293).is_none()
}

/// The links with one more, and the ends of all.
fn linked(alloc: Global, links: &mut Links, link: LinkRow) -> Result<(), Memory>
    requires absent { has_in links.old.links link.id ≡ false }
    requires room { length links.old.links < most_links }
    requires runs { IsLink (plain_link link) }
    ensures added { OnOk result (links.new.links ≡ added links.old.links (plain_link link)) }
    ensures ends { OnOk result (EndsStand links.new) }
    ensures grow { OnOk result (AllGrow links.old links.new) }
    ensures refused { OnErr result (links.new ≡ links.old) }
{
    links.add(alloc, link)?;
    let _from = links.index(1);
    let _to = links.index(2);
    let _three = links.index(3);
    Ok(())
}

/// Makes a link: its row comes in behind the other links of its home, the link into the table, and its ends into their
/// indexes. Where memory is refused in the midst, trees, table and indexes are as before.
fn come_in(
    alloc: Global,
    pooms: &mut Poom,
    links: &mut Links,
    root: Node,
    link: LinkRow,
) -> Result<Node, Memory>
    requires root { IsRoot pooms.old root.0 }
    requires link { IsLinkId link.id }
    requires place { length (links_laid (rows_of pooms.old root.0)) < 4294967294 }
    requires absent { has_in links.old.links link.id ≡ false }
    requires room { length links.old.links < most_links }
    requires runs { IsLink (plain_link link) }
    ensures kept { KeepsRows pooms.old pooms.new }
    ensures grows { Grows pooms.old pooms.new }
    ensures root { IfOk result (λ made. IsRoot pooms.new made.0) }
    ensures text { IfOk result (λ made. texts (rows_of pooms.new made.0) ≡ texts (rows_of pooms.old root.0)) }
    ensures links { IfOk result (λ made. links_laid (rows_of pooms.new made.0) ≡ links_laid (rows_of pooms.old root.0) ++ link.id ∷ []) }
    ensures added { OnOk result (links.new.links ≡ added links.old.links (plain_link link)) }
    ensures ends { OnOk result (EndsStand links.new) }
    ensures grow { OnOk result (AllGrow links.old links.new) }
    ensures refused { OnErr result (pooms.new ≡ pooms.old) }
    ensures as_before { OnErr result (links.new ≡ links.old) }
{
    let mark = pooms.mark();
    let id = link.id.copy();
    let made = pooms.add_link(root, &id)?;
    let Ok(()) = linked(alloc, links, link) else {
        pooms.back(mark);
        return Err(Memory);
    };
    Ok(made)
}

impl TreeWorld {
    /// The link of a home and a number, whose ends are the runs that the specs pick.
    fn link_between(
        &self,
        alloc: Global,
        home: &Tumbler,
        number: u32,
        from: &[Spec],
        to: &[Spec],
        three: &[Spec],
    ) -> Result<LinkRow, Memory>
        ensures value { (view : FlatView) → Stands self.now view → IfOk result (λ link. plain_link link ≡ link_between view.world home.now number (map plain_spec from.now) (map plain_spec to.now) (map plain_spec three.now)) }
        ensures runs { IfOk result (λ link. IsLink (plain_link link)) }
        ensures id { IfOk result (λ link. IsLinkId link.id) }
        ensures address { IfOk result (λ link. link.id ≡ link_address home.now number) }
    {
        if !home.is_document() || number == 0 || number == u32::MAX {
            return Err(Memory);
        }
        let Ok(id) = home.extended(&[0, 2, number]) else {
            return Err(Memory);
        };
        let Ok(from) = self.picked_runs(alloc, from) else {
            return Err(Memory);
        };
        let Ok(to) = self.picked_runs(alloc, to) else {
            return Err(Memory);
        };
        let Ok(three) = self.picked_runs(alloc, three) else {
            return Err(Memory);
        };
        if !are_runs(from.as_slice()) || !are_runs(to.as_slice()) || !are_runs(three.as_slice()) {
            return Err(Memory);
        }
        Ok(LinkRow {
            id,
            home: home.copy(),
            from,
            to,
            three,
        })
    }

    /// A link comes in, and its row in its home.
    pub(crate) fn make_link(
        &mut self,
        alloc: Global,
        home: &Tumbler,
        number: u32,
        place: u32,
        from: &List<Spec>,
        to: &List<Spec>,
        three: &List<Spec>,
    ) -> Result<(), Memory>
        ensures ok { (view : FlatView) (session : ℕ) → Stands self.old view → OnOk result (Stands self.new (after_change view session (link_made home.now number place (plain_specs from.now.items) (plain_specs to.now.items) (plain_specs three.now.items)))) }
        ensures err { OnErr result (self.new ≡ self.old) }
        ensures came { OnOk result (EntryCame (LinkCame home.now (link_address home.now number)) self.old self.new) }
        ensures sessions { self.new.sessions ≡ self.old.sessions }
    {
        let counted = one_more(self.counted)?;
        let Some(root) = self.documents.root(home) else {
            return Err(Memory);
        };
        let link = self.link_between(
            alloc,
            home,
            number,
            from.as_slice(),
            to.as_slice(),
            three.as_slice(),
        )?;
        let count = self.pooms.links(root);
        if count >= 4_294_967_294 || place != count + 1 {
            return Err(Memory);
        }
        if self.links.get(&link.id).is_some() || !has_room(&self.links) {
            return Err(Memory);
        }
        self.due.reserve(1)?;
        let made = come_in(alloc, &mut self.pooms, &mut self.links, root, link)?;
        set_root(
            &mut self.due,
            &self.pooms,
            &mut self.documents,
            home,
            root,
            made,
        );
        self.counted = counted;
        Ok(())
    }
}
