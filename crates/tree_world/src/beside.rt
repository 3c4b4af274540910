//! Changes by entries that the limits do not count: of sessions, which leave the trees as they are.
ghost use Rattle.std.specs.Prelude.{◌≡◌, IsOk, OnOk, OnErr};
ghost use Rattle.febe_data.specs.Plain.{plain_change, plain_entry};
ghost use Rattle.world_rules.specs.FlatView.{FlatView, after_entry};
ghost use Rattle.world_rules.specs.InPlace.{DropsOnly, HasRoom};
ghost use Rattle.tree_world.specs.Condition.{condition_of};
ghost use Rattle.tree_world.specs.Nodes.{nodes_in};
ghost use Rattle.tree_world.specs.Standing.{Stands};
ghost use Rattle.tree_world.specs.Changed.{after_change};
ghost use Rattle.tree_world.specs.Undone.{ChangeCame};

use crate::world::TreeWorld;
use febe_data::{Change, Entry, Memory};
use std::alloc::Global;

impl TreeWorld {
    /// What a session's change does, before it is counted for the session, where the limits do not count it. Others are
    /// refused.
    pub(crate) fn change_beside(
        &mut self,
        alloc: Global,
        session: u64,
        change: &Change,
    ) -> Result<(), Memory>
        ensures ok { (view : FlatView) → Stands self.old view → OnOk result (Stands self.new (after_change view session (plain_change change.now))) }
        ensures err { (view : FlatView) → Stands self.old view → OnErr result (Stands self.new view) }
        ensures sessions { self.new.sessions ≡ self.old.sessions }
        ensures came { OnOk result (ChangeCame session (plain_change change.now) self.old self.new) }
        ensures in_place { DropsOnly change.now → IsOk result }
        ensures condition { condition_of self.new ≡ condition_of self.old }
        ensures nodes { nodes_in self.new ≡ nodes_in self.old }
    {
        match change {
            Change::Restart => {
                self.restart();
                Ok(())
            }
            Change::Begin => Ok(()),
            Change::End => {
                self.end(session);
                Ok(())
            }
            Change::Account { account } => self.set_account(alloc, session, account),
            Change::Open { document, mode } => self.open(alloc, session, document, mode.copy()),
            Change::Close { document } => {
                self.close(session, document);
                Ok(())
            }
            _ => Err(Memory),
        }
    }

    /// Changes the world as such an entry says, and counts it for its session.
    pub(crate) fn apply_beside_trees(&mut self, alloc: Global, entry: &Entry) -> Result<(), Memory>
        ensures ok { (view : FlatView) → Stands self.old view → OnOk result (Stands self.new (after_entry view (plain_entry entry.now))) }
        ensures err { (view : FlatView) → Stands self.old view → OnErr result (Stands self.new view) }
        ensures in_place { (view : FlatView) → Stands self.old view → DropsOnly entry.now.change → HasRoom view.sessions entry.now.session → IsOk result }
        ensures condition { condition_of self.new ≡ condition_of self.old }
        ensures nodes { nodes_in self.new ≡ nodes_in self.old }
    {
        self.sessions.reserve(entry.session)?;
        self.change_beside(alloc, entry.session, &entry.change)?;
        self.sessions.count(entry.session);
        Ok(())
    }
}
