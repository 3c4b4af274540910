//! Changes by entries.
ghost use Rattle.std.specs.Prelude.{◌≡◌, IsOk, OnOk, OnErr};
ghost use Rattle.febe_data.specs.Plain.{plain_change, plain_entry};
ghost use Rattle.world_rules.specs.FlatView.{FlatView, after_entry};
ghost use Rattle.world_rules.specs.InPlace.{DropsOnly, HasRoom};
ghost use Rattle.tree_world.specs.Condition.{condition_of};
ghost use Rattle.tree_world.specs.Nodes.{nodes_in, AllGrown};
ghost use Rattle.tree_world.specs.Standing.{Stands};
ghost use Rattle.tree_world.specs.Changed.{after_change};
ghost use Rattle.tree_world.specs.Undone.{ChangeCame};

use crate::world::TreeWorld;
use febe_data::{Change, Entry, Memory};
use std::alloc::Global;
use world_rules::Apply;

impl TreeWorld {
    /// What a session's change does, before it is counted for the session.
    pub(crate) fn change(
        &mut self,
        alloc: Global,
        session: u64,
        change: &Change,
    ) -> Result<(), Memory>
        ensures ok { (view : FlatView) → Stands self.old view → OnOk result (Stands self.new (after_change view session (plain_change change.now))) }
        ensures err { (view : FlatView) → Stands self.old view → OnErr result (Stands self.new view) }
        ensures sessions { self.new.sessions ≡ self.old.sessions }
        ensures came { OnOk result (ChangeCame session (plain_change change.now) self.old self.new) }
        ensures in_place { DropsOnly change.now → IsOk result }
        ensures stays { OnErr result (condition_of self.new ≡ condition_of self.old) }
        ensures grown { OnOk result (AllGrown (nodes_in self.old) (nodes_in self.new)) }
        ensures same_nodes { OnErr result (nodes_in self.new ≡ nodes_in self.old) }
    {
        match change {
            Change::Create { document } => self.create(alloc, session, document),
            Change::Version { source, document } => self.version(alloc, session, source, document),
            Change::OpenCopy { source, document } => self.version(alloc, session, source, document),
            Change::Insert {
                document,
                at,
                first,
                text,
            } => self.insert(document, *at, *first, text.as_slice()),
            Change::Delete { document, span } => self.delete(document, span),
            Change::Rearrange { document, cuts } => self.rearrange(document, cuts),
            Change::Copy {
                document,
                at,
                specs,
            } => self.copy(alloc, document, *at, specs.as_slice()),
            Change::Link {
                home,
                number,
                place,
                from,
                to,
                three,
            } => self.make_link(alloc, home, *number, *place, from, to, three),
            Change::Publish { document } => self.publish(document),
            _ => self.change_beside(alloc, session, change),
        }
    }

    /// Changes the world as the entry says, and counts it for its session. A restart, a begin and an end take no
    /// memory, where the session has an entry and one more can be counted.
    pub(crate) fn apply_entry(&mut self, alloc: Global, entry: &Entry) -> Result<(), Memory>
        ensures ok { (view : FlatView) → Stands self.old view → OnOk result (Stands self.new (after_entry view (plain_entry entry.now))) }
        ensures err { (view : FlatView) → Stands self.old view → OnErr result (Stands self.new view) }
        ensures in_place { (view : FlatView) → Stands self.old view → DropsOnly entry.now.change → HasRoom view.sessions entry.now.session → IsOk result }
        ensures stays { OnErr result (condition_of self.new ≡ condition_of self.old) }
        ensures grown { OnOk result (AllGrown (nodes_in self.old) (nodes_in self.new)) }
        ensures same_nodes { OnErr result (nodes_in self.new ≡ nodes_in self.old) }
    {
        self.sessions.reserve(entry.session)?;
        self.change(alloc, entry.session, &entry.change)?;
        self.sessions.count(entry.session);
        Ok(())
    }
}

impl Apply for TreeWorld {
    fn apply(&mut self, alloc: Global, entry: &Entry) -> Result<(), Memory> {
        self.apply_entry(alloc, entry)
    }
}
