//! How many entries each session has.
ghost use Rattle.std.specs.Prelude.{◌≡◌, ◌+◌, [], map, IsOk, IfOk, OnOk};
ghost use Rattle.world_rules.specs.declared.rows.SessionRow.{SessionRow};
ghost use Rattle.std.specs.Prelude.{List};
ghost use Rattle.world_rules.specs.FlatView.{entries_in, with_entry};
ghost use Rattle.world_rules.specs.InPlace.{HasRoom};
ghost use Rattle.tree_world.specs.Standing.{CountsStand};

use std::alloc::Global;
use std::collections::BTreeMap;
use std::marker::Model;
use tumbler::Memory;

/// How many entries each session has, by session. One whose first entry was refused may have none.
#[derive(Drop)]
pub(crate) struct Counts {
    held: BTreeMap<u64, u64>,
}

impl Model for Counts {
    ghost use Rattle.std.specs.Prelude.{List};
    ghost use Rattle.std.specs.Ordering.{nat_cmp};
    ghost use Rattle.std.specs.BTreeMap.{IsOrdered};
    ghost use Rattle.world_rules.specs.declared.rows.SessionRow.{SessionRow};
    ghost use Rattle.tree_world.specs.inside.Counted.{session_rows};

    ghost Value = { List SessionRow };

    ghost view = { λ c. session_rows c.held };

    ghost invariant = { λ c. IsOrdered nat_cmp c.held };
}

impl Counts {
    pub(crate) fn new(alloc: Global) -> Counts
        ensures { result ≡ [] }
    {
        Counts {
            held: BTreeMap::new(alloc),
        }
    }

    pub(crate) fn get(&self, session: u64) -> u64
        ensures { result ≡ entries_in self.now session }
    {
        match self.held.get(&session) {
            Some(entries) => *entries,
            None => 0,
        }
    }

    /// Makes sure that one more entry of the session can be counted. Nothing is counted yet.
    pub(crate) fn reserve(&mut self, session: u64) -> Result<(), Memory>
        ensures stands { (rows : List SessionRow) → CountsStand self.old rows → CountsStand self.new rows }
        ensures room { OnOk result (HasRoom self.new session) }
        ensures in_place { (rows : List SessionRow) → CountsStand self.old rows → HasRoom rows session → IsOk result }
    {
        let Some(_) = self.held.get(&session) else {
            self.held.insert(session, 0)?;
            return Ok(());
        };
        if self.get(session) == u64::MAX {
            return Err(Memory);
        }
        Ok(())
    }

    /// Counts one more entry of the session. It takes no memory.
    pub(crate) fn count(&mut self, session: u64)
        requires { HasRoom self.old session }
        ensures { (rows : List SessionRow) → CountsStand self.old rows → CountsStand self.new (with_entry session rows) }
    {
        let entries = self.get(session);
        let Ok(_) = self.held.insert(session, entries + 1) else {
            unreachable!()
        };
    }

    /// Counts one entry of the session less. It takes no memory.
    pub(crate) fn uncount(&mut self, session: u64)
        ensures { (rows : List SessionRow) → CountsStand self.old (with_entry session rows) → CountsStand self.new rows }
    {
        let entries = self.get(session);
        if entries == 0 {
            return;
        }
        let Ok(_) = self.held.insert(session, entries - 1) else {
            unreachable!()
        };
    }
}

/// One more, where the type has it.
pub(crate) fn one_more(counted: u64) -> Result<u64, Memory>
    ensures { IfOk result (λ next. next ≡ counted + 1) }
{
    counted.checked_add(1).ok_or(Memory)
}
