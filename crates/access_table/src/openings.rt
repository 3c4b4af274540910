//! The documents that each session has open.
ghost use Rattle.std.specs.Prelude.{◌≡◌, ℕ, List, [], IfSome, IfNone, OnOk, OnErr, IsSome, Some};
ghost use Rattle.std.specs.BTreeSet.{insert_key};
ghost use Rattle.world_rules.specs.Apply.{without_session, without_opening};
ghost use Rattle.access_table.specs.AccessRows.{mode_in, row_cmp, Writes, IsFirstWriter};

use febe_data::Mode;
use std::alloc::Global;
use std::collections::{BTreeMap, BTreeSet};
use std::marker::Model;
use tumbler::{Memory, Tumbler};

/// The documents that sessions have open, by session and document, and those that are open for writing by
/// document and session.
#[derive(Drop)]
pub(crate) struct Openings {
    alloc: Global,
    opened: BTreeMap<(u64, Tumbler), Mode>,
    writers: BTreeSet<(Tumbler, u64)>,
}

impl Model for Openings {
    ghost use Rattle.std.specs.Prelude.{List};
    ghost use Rattle.std.specs.BTreeMap.{IsOrdered};
    ghost use Rattle.world_rules.specs.declared.rows.OpenRow.{OpenRow};
    ghost use Rattle.access_table.specs.inside.Keys.{open_rows, opening_cmp, HoldsWriters};

    ghost Value = { List OpenRow };

    ghost view = { λ o. open_rows o.opened };

    ghost invariant = { λ o. IsOrdered opening_cmp o.opened × HoldsWriters o.opened o.writers };
}

impl Openings {
    pub(crate) fn new(alloc: Global) -> Openings
        ensures { result ≡ [] }
    {
        Openings {
            alloc,
            opened: BTreeMap::new(alloc),
            writers: BTreeSet::new(alloc),
        }
    }

    pub(crate) fn mode(&self, session: u64, document: &Tumbler) -> Option<Mode>
        ensures { result ≡ mode_in self.now session document.now }
    {
        self.opened.get(&(session, document.copy())).copied()
    }

    pub(crate) fn writer(&self, document: &Tumbler) -> Option<u64>
        ensures found { IfSome result (IsFirstWriter self.now document.now) }
        ensures none { IfNone result ((session : ℕ) → ¬ Writes self.now document.now session) }
    {
        let least = (document.copy(), 0);
        let Some((held, session)) = self.writers.range(least..).next() else {
            return None;
        };
        if *held == *document {
            Some(*session)
        } else {
            None
        }
    }

    pub(crate) fn open(
        &mut self,
        session: u64,
        document: &Tumbler,
        mode: Mode,
    ) -> Result<(), Memory>
        ensures opened { OnOk result (self.new ≡ insert_key row_cmp (without_opening session document.now self.old) (record { session = session; document = document.now; mode = mode })) }
        ensures refused { OnErr result (self.new ≡ self.old) }
    {
        match mode {
            Mode::Read => self.open_to_read(session, document),
            Mode::Write => self.open_to_write(session, document),
        }
    }

    fn open_to_read(&mut self, session: u64, document: &Tumbler) -> Result<(), Memory>
        ensures opened { OnOk result (self.new ≡ insert_key row_cmp (without_opening session document.now self.old) (record { session = session; document = document.now; mode = Mode.Read })) }
        ensures refused { OnErr result (self.new ≡ self.old) }
    {
        self.opened.insert((session, document.copy()), Mode::Read)?;
        self.writers.remove(&(document.copy(), session));
        Ok(())
    }

    fn open_to_write(&mut self, session: u64, document: &Tumbler) -> Result<(), Memory>
        ensures opened { OnOk result (self.new ≡ insert_key row_cmp (without_opening session document.now self.old) (record { session = session; document = document.now; mode = Mode.Write })) }
        ensures refused { OnErr result (self.new ≡ self.old) }
    {
        self.writers.insert((document.copy(), session))?;
        let Ok(_) = self.opened.insert((session, document.copy()), Mode::Write) else {
            // The document was not open, so it was not open for writing.
            self.writers.remove(&(document.copy(), session));
            return Err(Memory);
        };
        Ok(())
    }

    pub(crate) fn close(&mut self, session: u64, document: &Tumbler)
        ensures { self.new ≡ without_opening session document.now self.old }
    {
        self.opened.remove(&(session, document.copy()));
        self.writers.remove(&(document.copy(), session));
    }

    /// It costs a few look-ups for each document that the session has open.
    pub(crate) fn end(&mut self, session: u64)
        ensures { self.new ≡ without_session session self.old }
    {
        while let Some(document) = self.first_open(session) {
            self.close(session, &document);
        }
    }

    /// The first document that the session has open.
    fn first_open(&self, session: u64) -> Option<Tumbler>
        ensures found { IfSome result (λ document. IsSome (mode_in self.now session document)) }
        ensures none { IfNone result (without_session session self.now ≡ self.now) }
    {
        let least = (session, Tumbler::zero(self.alloc));
        let Some(((holder, document), _)) = self.opened.range(least..).next() else {
            return None;
        };
        if *holder == session {
            Some(document.copy())
        } else {
            None
        }
    }
}
