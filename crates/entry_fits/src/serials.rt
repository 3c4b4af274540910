//! The greatest serial of each session.
ghost use Rattle.std.specs.Prelude.{◌≡◌, List, [], ◌∷◌, ◌++◌, OnOk, OnErr};
ghost use Rattle.febe_data.specs.Plain.{PlainEntry, plain_entry};
ghost use Rattle.entry_fits.specs.Greatest.{greatest_serial, AreSerialsOf};

use febe_data::{Entry, Memory};
use std::alloc::Global;
use std::collections::BTreeMap;
use std::marker::Model;

/// The greatest serial of each session in the entries that were added.
#[derive(Drop)]
pub struct Serials {
    held: BTreeMap<u64, u64>,
}

impl Model for Serials {
    ghost use Rattle.std.specs.Prelude.{ℕ, List};

    ghost Value = { List (ℕ × ℕ) };

    ghost view = { λ serials. serials.held.entries };
}

impl Serials {
    /// Of no entries.
    pub fn new(alloc: Global) -> Serials
        ensures { AreSerialsOf [] result }
    {
        Serials {
            held: BTreeMap::new(alloc),
        }
    }

    /// The greatest serial of the session's entries, 0 where it has none.
    pub fn greatest(&self, session: u64) -> u64
        ensures { (past : List PlainEntry) → AreSerialsOf past self.now → result ≡ greatest_serial past session }
    {
        match self.held.get(&session) {
            Some(serial) => *serial,
            None => 0,
        }
    }

    /// Adds one more entry. Where there is no memory, none is added.
    pub fn add(&mut self, entry: &Entry) -> Result<(), Memory>
        ensures added { (past : List PlainEntry) → AreSerialsOf past self.old → OnOk result (AreSerialsOf (past ++ plain_entry entry.now ∷ []) self.new) }
        ensures stays { (past : List PlainEntry) → AreSerialsOf past self.old → OnErr result (AreSerialsOf past self.new) }
    {
        let greatest = self.greatest(entry.session);
        if entry.serial <= greatest {
            return Ok(());
        }
        self.held.insert(entry.session, entry.serial)?;
        Ok(())
    }
}
