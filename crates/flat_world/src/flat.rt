//! The flat world as a value that one entry after the other changes.
ghost use Rattle.std.specs.Prelude.{◌≡◌, ℕ, length, IsOk, IfOk, OnOk, OnErr};

use febe_data::{Entry, List, Memory, Tumbler};
use flat_rows::{LinkRow, counts};
use std::alloc::Global;
use std::marker::Model;
use std::mem;
use world_rules::{AccountRow, ByteRow, OpenRow, Row, SessionRow, WorldError};

/// The world of a history as plain lists, beside how many entries of the history are counted and how many each session
/// has. Changes go over the lists; queries that look up again and again first make ordered maps or sets of them.
#[derive(Debug, Drop)]
pub struct FlatWorld {
    pub(crate) documents: List<Tumbler>,
    pub(crate) rows: List<Row>,
    pub(crate) bytes: List<ByteRow>,
    pub(crate) links: List<LinkRow>,
    pub(crate) published: List<Tumbler>,
    pub(crate) open_rows: List<OpenRow>,
    pub(crate) accounts: List<AccountRow>,
    pub(crate) counted: u64,
    /// How many entries each session has.
    pub(crate) sessions: Vec<SessionRow>,
}

impl Model for FlatWorld {
    ghost use Rattle.std.specs.Prelude.{map};
    ghost use Rattle.world_rules.specs.FlatView.{FlatView};
    ghost use Rattle.flat_rows.specs.PlainLink.{plain_link};

    ghost Value = { FlatView };

    ghost view = { λ w. record { world = record { documents = w.documents.items; rows = w.rows.items; bytes = w.bytes.items; links = map plain_link w.links.items; published = w.published.items; open_rows = w.open_rows.items; accounts = w.accounts.items }; counted = w.counted; sessions = w.sessions.items } };
}

impl FlatWorld {
    ghost use Rattle.febe_data.specs.Plain.{plain_entry, plain_change, plain_history};
    ghost use Rattle.world_rules.specs.FlatView.{FlatView, nothing_yet, after_entry, view_of, entries_in};
    ghost use Rattle.world_rules.specs.Apply.{world_of};
    ghost use Rattle.world_rules.specs.History.{durable_entries, entries_of};
    ghost use Rattle.world_rules.specs.InPlace.{DropsOnly, HasRoom};
    ghost use Rattle.world_rules.specs.Fitting.{IsFitting, AreFitting};

    /// The world before any entry.
    pub fn new(alloc: Global) -> FlatWorld
        ensures { result ≡ nothing_yet }
    {
        FlatWorld {
            documents: List::new(alloc),
            rows: List::new(alloc),
            bytes: List::new(alloc),
            links: List::new(alloc),
            published: List::new(alloc),
            open_rows: List::new(alloc),
            accounts: List::new(alloc),
            counted: 0,
            sessions: Vec::new(alloc),
        }
    }

    /// The world that a history has made from nothing. There is no memory for it where there is none for one of its entries.
    pub fn fold(alloc: Global, history: &List<Entry>) -> Result<FlatWorld, Memory>
        ensures view { IfOk result (λ made. made ≡ view_of (plain_history history.now.items)) }
        ensures fitting { OnOk result (AreFitting (plain_history history.now.items)) }
        ensures world { IfOk result (λ made. made.world ≡ world_of (plain_history history.now.items)) }
        ensures counted { IfOk result (λ made. made.counted ≡ length (durable_entries (plain_history history.now.items))) }
        ensures serials { IfOk result (λ made. (session : ℕ) → entries_in made.sessions session ≡ length (entries_of session (plain_history history.now.items))) }
    {
        let mut world = FlatWorld::new(alloc);
        for entry in history.as_slice() {
            world.apply(alloc, entry)?;
        }
        Ok(world)
    }

    /// Changes the world as the entry says, and counts it.
    /// Where a number leaves its type, a span's end or an address is no tumbler, or the cuts of a rearrange bound no two
    /// blocks, there is no memory for it. A restart, a begin and an end take none, where the session has an entry and one
    /// more can be counted.
    pub fn apply(&mut self, alloc: Global, entry: &Entry) -> Result<(), Memory>
        ensures ok { OnOk result (self.new ≡ after_entry self.old (plain_entry entry.now)) }
        ensures err { OnErr result (self.new ≡ self.old) }
        ensures fitting { OnOk result (IsFitting (plain_change entry.now.change)) }
        ensures in_place { DropsOnly entry.now.change → HasRoom self.old.sessions entry.now.session → IsOk result }
    {
        Ok(self.apply_entry(alloc, entry)?)
    }

    /// The same, with what stood in the way.
    pub(crate) fn apply_entry(&mut self, alloc: Global, entry: &Entry) -> Result<(), WorldError>
        ensures ok { OnOk result (self.new ≡ after_entry self.old (plain_entry entry.now)) }
        ensures err { OnErr result (self.new ≡ self.old) }
        ensures fitting { OnOk result (IsFitting (plain_change entry.now.change)) }
        ensures in_place { DropsOnly entry.now.change → HasRoom self.old.sessions entry.now.session → IsOk result }
    {
        let counted = counts::counted_after(self.counted, &entry.change)?;
        counts::reserve_count(&mut self.sessions, entry.session)?;
        // The counts lie aside while the world changes, so that their room stays.
        let mut sessions = mem::replace(&mut self.sessions, Vec::new(alloc));
        let changed = self.change(alloc, entry.session, &entry.change);
        if changed.is_err() {
            self.sessions = sessions;
            return changed;
        }
        counts::count(&mut sessions, entry.session);
        self.sessions = sessions;
        self.counted = counted;
        Ok(())
    }
}
