//! What each change does to the world. All memory is taken before anything changes.
ghost use Rattle.std.specs.Prelude.{◌≡◌, ◌++◌, ◌∷◌, [], IfOk, OnOk, OnErr, IsOk, true, false, is_none, map};
ghost use Rattle.febe_data.specs.Plain.{plain_change, plain_spec, restarted, ended, account_changed, document_opened, document_closed, document_created, version_made, text_inserted, span_deleted, blocks_swapped, specs_copied, document_published};
ghost use Rattle.world_rules.specs.FlatView.{FlatView};
ghost use Rattle.world_rules.specs.Apply.{change_world, link_between};
ghost use Rattle.world_rules.specs.History.{is_durable};
ghost use Rattle.world_rules.specs.InPlace.{DropsOnly};
ghost use Rattle.world_rules.specs.Fitting.{IsFitting};
ghost use Rattle.world_rules.specs.Edits.{cuts_of};
ghost use Rattle.world_rules.specs.Refusals.{has_bad_span};
ghost use Rattle.tumbler.specs.Span.{SpanFits};
ghost use Rattle.flat_rows.specs.PlainLink.{plain_link};

use crate::flat::FlatWorld;
use febe_data::{Change, Mode, Span, Spec, Tumbler};
use flat_rows::{LinkRow, deletions, edits, swaps};
use std::alloc::Global;
use world_rules::{
    AccountRow, OpenRow, Part, Row, WorldError, cuts_of, extended, has_bad_span, is_durable,
};

impl FlatWorld {
    /// Changes the world, and counts nothing.
    pub(crate) fn change(
        &mut self,
        alloc: Global,
        session: u64,
        change: &Change,
    ) -> Result<(), WorldError>
        ensures ok { OnOk result (self.new ≡ record self.old { world = change_world self.old.world session (plain_change change.now) }) }
        ensures err { OnErr result (self.new ≡ self.old) }
        ensures fitting { OnOk result (IsFitting (plain_change change.now)) }
        ensures in_place { DropsOnly change.now → IsOk result }
    {
        if is_durable(change) {
            self.change_contents(alloc, session, change)
        } else {
            self.change_session(session, change)
        }
    }

    /// The changes that the limits do not count: those of sessions.
    fn change_session(&mut self, session: u64, change: &Change) -> Result<(), WorldError>
        requires { is_durable (plain_change change.now) ≡ false }
        ensures ok { OnOk result (self.new ≡ record self.old { world = change_world self.old.world session (plain_change change.now) }) }
        ensures err { OnErr result (self.new ≡ self.old) }
        ensures fitting { IsFitting (plain_change change.now) }
        ensures in_place { DropsOnly change.now → IsOk result }
    {
        match change {
            Change::Restart => self.restart(),
            Change::Begin => {}
            Change::End => self.end(session),
            Change::Account { account } => self.set_account(session, account)?,
            Change::Open { document, mode } => self.open(session, document, *mode)?,
            Change::Close { document } => self.close(session, document),
            _ => unreachable!(),
        }
        Ok(())
    }

    /// The changes that the limits count: those of documents, content, links and what is published.
    fn change_contents(
        &mut self,
        alloc: Global,
        session: u64,
        change: &Change,
    ) -> Result<(), WorldError>
        requires { is_durable (plain_change change.now) ≡ true }
        ensures ok { OnOk result (self.new ≡ record self.old { world = change_world self.old.world session (plain_change change.now) }) }
        ensures err { OnErr result (self.new ≡ self.old) }
        ensures fitting { OnOk result (IsFitting (plain_change change.now)) }
    {
        match change {
            Change::Create { document } => self.create(session, document),
            Change::Version { source, document } | Change::OpenCopy { source, document } => {
                self.make_version(alloc, session, source, document)
            }
            Change::Insert {
                document,
                at,
                first,
                text,
            } => self.insert(alloc, document, *at, *first, text.as_slice()),
            Change::Delete { document, span } => self.delete(alloc, document, span),
            Change::Rearrange { document, cuts } => {
                self.rearrange(alloc, document, cuts.as_slice())
            }
            Change::Copy {
                document,
                at,
                specs,
            } => self.quote(alloc, document, *at, specs.as_slice()),
            Change::Link {
                home,
                number,
                place,
                from,
                to,
                three,
            } => {
                let (from, to, three) = (from.as_slice(), to.as_slice(), three.as_slice());
                let link = self.link_between(alloc, home, *number, from, to, three)?;
                self.add_link(link, *place)
            }
            Change::Publish { document } => self.publish(document),
            _ => unreachable!(),
        }
    }

    /// All sessions are gone.
    fn restart(&mut self)
        ensures { self.new ≡ record self.old { world = change_world self.old.world 0 restarted } }
    {
        self.open_rows.truncate(0);
        self.accounts.truncate(0);
    }

    /// What the session had open goes, and its account.
    fn end(&mut self, session: u64)
        ensures { self.new ≡ record self.old { world = change_world self.old.world session ended } }
    {
        edits::close_session(&mut self.open_rows, session);
        edits::drop_account(&mut self.accounts, session);
    }

    /// The account becomes the session's one.
    fn set_account(&mut self, session: u64, account: &Tumbler) -> Result<(), WorldError>
        ensures ok { OnOk result (self.new ≡ record self.old { world = change_world self.old.world session (account_changed account.now) }) }
        ensures err { OnErr result (self.new ≡ self.old) }
    {
        self.accounts.reserve(1)?;
        edits::drop_account(&mut self.accounts, session);
        self.accounts.push_reserved(AccountRow {
            session,
            account: account.copy(),
        });
        Ok(())
    }

    /// The document becomes open to the session for this mode only.
    fn open(&mut self, session: u64, document: &Tumbler, mode: Mode) -> Result<(), WorldError>
        ensures ok { OnOk result (self.new ≡ record self.old { world = change_world self.old.world session (document_opened document.now mode) }) }
        ensures err { OnErr result (self.new ≡ self.old) }
    {
        self.open_rows.reserve(1)?;
        edits::close_opening(&mut self.open_rows, session, document);
        self.open_rows.push_reserved(OpenRow {
            session,
            document: document.copy(),
            mode,
        });
        Ok(())
    }

    /// The session has the document open no more.
    fn close(&mut self, session: u64, document: &Tumbler)
        ensures { self.new ≡ record self.old { world = change_world self.old.world session (document_closed document.now) } }
    {
        edits::close_opening(&mut self.open_rows, session, document);
    }

    /// The document comes in, open for writing.
    fn create(&mut self, session: u64, document: &Tumbler) -> Result<(), WorldError>
        ensures ok { OnOk result (self.new ≡ record self.old { world = change_world self.old.world session (document_created document.now) }) }
        ensures err { OnErr result (self.new ≡ self.old) }
    {
        self.documents.reserve(1)?;
        self.open_rows.reserve(1)?;
        self.documents.push_reserved(document.copy());
        self.open_rows.push_reserved(OpenRow {
            session,
            document: document.copy(),
            mode: Mode::Write,
        });
        Ok(())
    }

    /// A version that is asked for and one that an opening makes are alike.
    fn make_version(
        &mut self,
        alloc: Global,
        session: u64,
        source: &Tumbler,
        document: &Tumbler,
    ) -> Result<(), WorldError>
        ensures ok { OnOk result (self.new ≡ record self.old { world = change_world self.old.world session (version_made source.now document.now) }) }
        ensures err { OnErr result (self.new ≡ self.old) }
    {
        let fresh = edits::rows_as(alloc, self.rows.as_slice(), source, document)?;
        self.rows.reserve(fresh.len())?;
        self.documents.reserve(1)?;
        self.open_rows.reserve(1)?;
        edits::append_rows(&mut self.rows, fresh.as_slice());
        self.documents.push_reserved(document.copy());
        self.open_rows.push_reserved(OpenRow {
            session,
            document: document.copy(),
            mode: Mode::Write,
        });
        Ok(())
    }

    /// The document becomes one of the published ones, once more where it was.
    fn publish(&mut self, document: &Tumbler) -> Result<(), WorldError>
        ensures ok { OnOk result (self.new ≡ record self.old { world = change_world self.old.world 0 (document_published document.now) }) }
        ensures err { OnErr result (self.new ≡ self.old) }
    {
        self.published.reserve(1)?;
        self.published.push_reserved(document.copy());
        Ok(())
    }

    /// The text's bytes come in as content, and show at `at`.
    fn insert(
        &mut self,
        alloc: Global,
        document: &Tumbler,
        at: u32,
        first: u32,
        text: &[u8],
    ) -> Result<(), WorldError>
        ensures ok { OnOk result (self.new ≡ record self.old { world = change_world self.old.world 0 (text_inserted document.now at first text.now) }) }
        ensures err { OnErr result (self.new ≡ self.old) }
    {
        let addresses = edits::content_addresses(alloc, document, first, text.len())?;
        let fresh = edits::new_bytes(alloc, document, first, text)?;
        self.bytes.reserve(fresh.len())?;
        edits::put_rows(alloc, &mut self.rows, document, at, addresses.as_slice())?;
        edits::append_bytes(&mut self.bytes, fresh.as_slice());
        Ok(())
    }

    /// What the span picks shows no more, but stays as content.
    fn delete(&mut self, alloc: Global, document: &Tumbler, span: &Span) -> Result<(), WorldError>
        ensures ok { OnOk result (self.new ≡ record self.old { world = change_world self.old.world 0 (span_deleted document.now span.now) }) }
        ensures err { OnErr result (self.new ≡ self.old) }
        ensures fitting { OnOk result (SpanFits span.now) }
    {
        if !span.fits() {
            return Err(WorldError::NoTumbler);
        }
        self.rows = deletions::rows_without(alloc, self.rows.as_slice(), document, span)?;
        Ok(())
    }

    /// The two blocks that the cuts bound change places.
    fn rearrange(
        &mut self,
        alloc: Global,
        document: &Tumbler,
        cuts: &[u32],
    ) -> Result<(), WorldError>
        ensures ok { OnOk result (self.new ≡ record self.old { world = change_world self.old.world 0 (blocks_swapped document.now cuts.now) }) }
        ensures err { OnErr result (self.new ≡ self.old) }
        ensures fitting { OnOk result (is_none (cuts_of cuts.now) ≡ false) }
    {
        let cuts = cuts_of(cuts).ok_or(WorldError::BadCuts)?;
        self.rows = swaps::rows_swapped(alloc, self.rows.as_slice(), document, &cuts)?;
        Ok(())
    }

    /// What the specs pick shows at `at` too. No content comes in.
    fn quote(
        &mut self,
        alloc: Global,
        document: &Tumbler,
        at: u32,
        specs: &[Spec],
    ) -> Result<(), WorldError>
        ensures ok { OnOk result (self.new ≡ record self.old { world = change_world self.old.world 0 (specs_copied document.now at (map plain_spec specs.now)) }) }
        ensures err { OnErr result (self.new ≡ self.old) }
        ensures fitting { OnOk result (has_bad_span (map plain_spec specs.now) ≡ false) }
    {
        if has_bad_span(specs) {
            return Err(WorldError::NoTumbler);
        }
        let addresses = self.picked_addresses(alloc, specs)?;
        edits::put_rows(alloc, &mut self.rows, document, at, addresses.as_slice())
    }

    /// The link whose ends are the runs of these specs.
    fn link_between(
        &self,
        alloc: Global,
        home: &Tumbler,
        number: u32,
        from: &[Spec],
        to: &[Spec],
        three: &[Spec],
    ) -> Result<LinkRow, WorldError>
        ensures link { IfOk result (λ made. plain_link made ≡ link_between self.now.world home.now number (map plain_spec from.now) (map plain_spec to.now) (map plain_spec three.now)) }
        ensures fitting { OnOk result ((has_bad_span (map plain_spec from.now) ≡ false) × (has_bad_span (map plain_spec to.now) ≡ false) × (has_bad_span (map plain_spec three.now) ≡ false)) }
    {
        if has_bad_span(from) || has_bad_span(to) || has_bad_span(three) {
            return Err(WorldError::NoTumbler);
        }
        Ok(LinkRow {
            id: extended(home, &[0, 2, number])?,
            home: home.copy(),
            from: self.picked_runs(alloc, from)?,
            to: self.picked_runs(alloc, to)?,
            three: self.picked_runs(alloc, three)?,
        })
    }

    /// The link comes in, and shows at `place` in its home.
    fn add_link(&mut self, link: LinkRow, place: u32) -> Result<(), WorldError>
        ensures ok { OnOk result (self.new ≡ record self.old { world = record self.old.world { links = self.old.world.links ++ plain_link link ∷ []; rows = self.old.world.rows ++ record { document = link.home; part = Part.Links; n = place; address = link.id } ∷ [] } }) }
        ensures err { OnErr result (self.new ≡ self.old) }
    {
        self.links.reserve(1)?;
        self.rows.reserve(1)?;
        self.rows.push_reserved(Row {
            document: link.home.copy(),
            part: Part::Links,
            n: place,
            address: link.id.copy(),
        });
        self.links.push_reserved(link);
        Ok(())
    }
}
