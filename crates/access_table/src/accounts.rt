//! The account of each session.
ghost use Rattle.std.specs.Prelude.{◌≡◌, [], IfOk, OnOk, OnErr};
ghost use Rattle.std.specs.Option.{option_copied};
ghost use Rattle.std.specs.BTreeSet.{insert_key};
ghost use Rattle.world_rules.specs.Apply.{accounts_without};
ghost use Rattle.access_table.specs.AccessRows.{account_in, account_cmp};

use std::alloc::Global;
use std::collections::BTreeMap;
use std::marker::Model;
use tumbler::{Memory, Tumbler};

/// The account that each session has set, by session.
#[derive(Drop)]
pub(crate) struct Accounts {
    held: BTreeMap<u64, Tumbler>,
}

impl Model for Accounts {
    ghost use Rattle.std.specs.Prelude.{List};
    ghost use Rattle.std.specs.Ordering.{nat_cmp};
    ghost use Rattle.std.specs.BTreeMap.{IsOrdered};
    ghost use Rattle.world_rules.specs.declared.rows.AccountRow.{AccountRow};
    ghost use Rattle.access_table.specs.inside.Keys.{account_rows};

    ghost Value = { List AccountRow };

    ghost view = { λ a. account_rows a.held };

    ghost invariant = { λ a. IsOrdered nat_cmp a.held };
}

impl Accounts {
    pub(crate) fn new(alloc: Global) -> Accounts
        ensures { result ≡ [] }
    {
        Accounts {
            held: BTreeMap::new(alloc),
        }
    }

    pub(crate) fn get(&self, session: u64) -> Option<&Tumbler>
        ensures { option_copied result ≡ account_in self.now session }
    {
        self.held.get(&session)
    }

    pub(crate) fn set(&mut self, session: u64, account: &Tumbler) -> Result<(), Memory>
        ensures set { OnOk result (self.new ≡ insert_key account_cmp (accounts_without session self.old) (record { session = session; account = account.now })) }
        ensures refused { OnErr result (self.new ≡ self.old) }
    {
        self.held.insert(session, account.copy())?;
        Ok(())
    }

    pub(crate) fn remove(&mut self, session: u64)
        ensures { self.new ≡ accounts_without session self.old }
    {
        let _ = self.held.remove(&session);
    }
}
