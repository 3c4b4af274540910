//! The table of access.
ghost use Rattle.std.specs.Prelude.{◌≡◌, ℕ, IfSome, IfNone, OnOk, OnErr};
ghost use Rattle.std.specs.Option.{option_copied};
ghost use Rattle.access_table.specs.AccessRows.{no_rows, mode_in, account_in, Writes, IsFirstWriter, opened, closed, account_set, ended};

use crate::accounts::Accounts;
use crate::openings::Openings;
use febe_data::Mode;
use std::alloc::Global;
use std::marker::Model;
use tumbler::{Memory, Tumbler};

/// The documents that sessions have open, and the accounts that they have set.
///
/// Looking something up takes time that grows as the logarithm of the number of rows; so do opening, closing and
/// setting. Only opening and setting an account take memory.
#[derive(Drop)]
pub struct AccessTable {
    openings: Openings,
    accounts: Accounts,
}

impl Model for AccessTable {
    ghost use Rattle.access_table.specs.AccessRows.{AccessRows};

    ghost Value = { AccessRows };

    ghost view = { λ t. record { open_rows = t.openings; accounts = t.accounts } };
}

impl AccessTable {
    /// A table in which no session has anything. It takes no memory.
    pub fn new(alloc: Global) -> AccessTable
        ensures { result ≡ no_rows }
    {
        AccessTable {
            openings: Openings::new(alloc),
            accounts: Accounts::new(alloc),
        }
    }

    /// What the session has the document open for, if it has it open.
    pub fn mode(&self, session: u64, document: &Tumbler) -> Option<Mode>
        ensures { result ≡ mode_in self.now.open_rows session document.now }
    {
        self.openings.mode(session, document)
    }

    /// The session that has the document open for writing. Where more than one has, which a store never makes, it is
    /// that of the least number.
    pub fn writer(&self, document: &Tumbler) -> Option<u64>
        ensures found { IfSome result (IsFirstWriter self.now.open_rows document.now) }
        ensures none { IfNone result ((session : ℕ) → ¬ Writes self.now.open_rows document.now session) }
    {
        self.openings.writer(document)
    }

    /// The account that the session has set, if it has.
    pub fn account(&self, session: u64) -> Option<&Tumbler>
        ensures { option_copied result ≡ account_in self.now.accounts session }
    {
        self.accounts.get(session)
    }

    /// Opens the document for the session. Where the session has it open already, it has it open for the new mode.
    pub fn open(
        &mut self,
        _alloc: Global,
        session: u64,
        document: &Tumbler,
        mode: Mode,
    ) -> Result<(), Memory>
        ensures opened { OnOk result (self.new ≡ opened self.old session document.now mode) }
        ensures refused { OnErr result (self.new ≡ self.old) }
    {
        self.openings.open(session, document, mode)
    }

    /// Closes the document for the session. Nothing happens where the session has it not open.
    pub fn close(&mut self, session: u64, document: &Tumbler)
        ensures { self.new ≡ closed self.old session document.now }
    {
        self.openings.close(session, document)
    }

    /// Sets the session's account, in the place of one that was set before.
    pub fn set_account(
        &mut self,
        _alloc: Global,
        session: u64,
        account: &Tumbler,
    ) -> Result<(), Memory>
        ensures set { OnOk result (self.new ≡ account_set self.old session account.now) }
        ensures refused { OnErr result (self.new ≡ self.old) }
    {
        self.accounts.set(session, account)
    }

    /// Closes all that the session has open, and forgets its account. The time grows with what it has open, and not
    /// with what other sessions have.
    pub fn end(&mut self, session: u64)
        ensures { self.new ≡ ended self.old session }
    {
        self.openings.end(session);
        self.accounts.remove(session);
    }
}
