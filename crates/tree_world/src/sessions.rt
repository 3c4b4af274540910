//! Changes of who has what open, and for which account.
ghost use Rattle.std.specs.Prelude.{◌≡◌, ℕ, IsTrue, OnOk, OnErr};
ghost use Rattle.febe_data.specs.declared.access.Mode.TheVariants.{Write};
ghost use Rattle.febe_data.specs.Plain.{restarted, ended, account_changed, document_opened, document_closed};
ghost use Rattle.world_rules.specs.FlatView.{FlatView};
ghost use Rattle.tree_world.specs.Standing.{Stands};
ghost use Rattle.tree_world.specs.Condition.{condition_of};
ghost use Rattle.tree_world.specs.Nodes.{nodes_in};
ghost use Rattle.tree_world.specs.Changed.{after_change, MayWrite};

use crate::world::TreeWorld;
use access_table::AccessTable;
use febe_data::{Memory, Mode, Tumbler};
use std::alloc::Global;

/// Whether no other session has the document open for writing.
pub(crate) fn may_write(access: &AccessTable, session: u64, document: &Tumbler) -> bool
    ensures { IsTrue result → MayWrite access.now.open_rows document.now session }
{
    match access.writer(document) {
        Some(writer) => writer == session,
        None => true,
    }
}

/// Whether the session may have the document open for this: one session alone writes.
fn may_open(access: &AccessTable, session: u64, document: &Tumbler, mode: Mode) -> bool
    ensures { IsTrue result → mode ≡ Write → MayWrite access.now.open_rows document.now session }
{
    match mode {
        Mode::Read => true,
        Mode::Write => may_write(access, session, document),
    }
}

impl TreeWorld {
    /// All sessions are gone. It takes no memory.
    pub(crate) fn restart(&mut self)
        ensures stands { (view : FlatView) (session : ℕ) → Stands self.old view → Stands self.new (after_change view session restarted) }
        ensures sessions { self.new.sessions ≡ self.old.sessions }
        ensures beside { condition_of self.new ≡ condition_of self.old }
        ensures nodes { nodes_in self.new ≡ nodes_in self.old }
    {
        self.access = AccessTable::new(self.alloc);
    }

    /// What the session had open goes, and its account. It takes no memory.
    pub(crate) fn end(&mut self, session: u64)
        ensures stands { (view : FlatView) → Stands self.old view → Stands self.new (after_change view session ended) }
        ensures sessions { self.new.sessions ≡ self.old.sessions }
        ensures beside { condition_of self.new ≡ condition_of self.old }
        ensures nodes { nodes_in self.new ≡ nodes_in self.old }
    {
        self.access.end(session);
    }

    /// The account becomes the session's one account.
    pub(crate) fn set_account(
        &mut self,
        alloc: Global,
        session: u64,
        account: &Tumbler,
    ) -> Result<(), Memory>
        ensures ok { (view : FlatView) → Stands self.old view → OnOk result (Stands self.new (after_change view session (account_changed account.now))) }
        ensures err { OnErr result (self.new ≡ self.old) }
        ensures sessions { self.new.sessions ≡ self.old.sessions }
        ensures beside { condition_of self.new ≡ condition_of self.old }
        ensures nodes { nodes_in self.new ≡ nodes_in self.old }
    {
        self.access.set_account(alloc, session, account)?;
        Ok(())
    }

    /// The session has the document open. It is refused for writing where another session writes.
    pub(crate) fn open(
        &mut self,
        alloc: Global,
        session: u64,
        document: &Tumbler,
        mode: Mode,
    ) -> Result<(), Memory>
        ensures ok { (view : FlatView) → Stands self.old view → OnOk result (Stands self.new (after_change view session (document_opened document.now mode))) }
        ensures err { OnErr result (self.new ≡ self.old) }
        ensures sessions { self.new.sessions ≡ self.old.sessions }
        ensures beside { condition_of self.new ≡ condition_of self.old }
        ensures nodes { nodes_in self.new ≡ nodes_in self.old }
    {
        if !may_open(&self.access, session, document, mode) {
            return Err(Memory);
        }
        self.access.open(alloc, session, document, mode)?;
        Ok(())
    }

    /// The session has the document open no more. It takes no memory.
    pub(crate) fn close(&mut self, session: u64, document: &Tumbler)
        ensures stands { (view : FlatView) → Stands self.old view → Stands self.new (after_change view session (document_closed document.now)) }
        ensures sessions { self.new.sessions ≡ self.old.sessions }
        ensures beside { condition_of self.new ≡ condition_of self.old }
        ensures nodes { nodes_in self.new ≡ nodes_in self.old }
    {
        self.access.close(session, document);
    }
}
