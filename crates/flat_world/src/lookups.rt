//! What requests ask of the world, answered by scans of its lists.
ghost use Rattle.std.specs.Prelude.{◌≡◌};

use crate::flat::FlatWorld;
use febe_data::bounds::MOST_ITEMS;
use febe_data::{Diagonal, Entry, Item, List, Memory, Mode, Run, Spec, Tumbler, Want};
use flat_rows::{counts, search};
use std::alloc::Global;
use world_rules::{Apply, End, Find, LookUp, Size, WantedRuns, WorldError};

impl LookUp for FlatWorld {
    ghost stands = { λ it view. it ≡ view };

    fn counted(&self) -> u64 {
        self.counted
    }

    fn entries_of(&self, session: u64) -> u64 {
        counts::entries_of(&self.sessions, session)
    }

    fn content(&self) -> usize {
        self.bytes.len()
    }

    fn has_document(&self, document: &Tumbler) -> bool {
        search::has_document(self.documents.as_slice(), document)
    }

    fn is_published(&self, document: &Tumbler) -> bool {
        search::has_document(self.published.as_slice(), document)
    }

    fn account_of_session(&self, session: u64) -> Option<Tumbler> {
        search::account_of_session(self.accounts.as_slice(), session)
    }

    fn mode_of(&self, session: u64, document: &Tumbler) -> Option<Mode> {
        search::mode_of(self.open_rows.as_slice(), session, document)
    }

    fn is_held_against(&self, session: u64, document: &Tumbler) -> bool {
        search::is_held_against(self.open_rows.as_slice(), session, document)
    }

    fn holder_of(&self, document: &Tumbler) -> Option<u64> {
        search::holder_of(self.open_rows.as_slice(), document)
    }

    fn text_length(&self, document: &Tumbler) -> usize {
        search::text_length(self.rows.as_slice(), document)
    }

    fn link_length(&self, document: &Tumbler) -> usize {
        search::link_length(self.rows.as_slice(), document)
    }

    fn next_document(&self, account: &Tumbler) -> Result<Tumbler, WorldError> {
        search::next_document(self.documents.as_slice(), account)
    }

    fn next_version(&self, document: &Tumbler) -> Result<Tumbler, WorldError> {
        search::next_version(self.documents.as_slice(), document)
    }

    fn next_content(&self, document: &Tumbler) -> Result<u32, WorldError> {
        search::next_content(self.bytes.as_slice(), document)
    }

    fn next_link(&self, home: &Tumbler) -> Result<u32, WorldError> {
        search::next_link(self.links.as_slice(), home)
    }
}

impl Find for FlatWorld {
    fn picked_length(&self, alloc: Global, specs: &[Spec]) -> Result<usize, WorldError> {
        let picked = self.picked_addresses(alloc, specs)?;
        Ok(picked.len())
    }

    fn runs_up_to(
        &self,
        alloc: Global,
        specs: &[Spec],
        most: usize,
    ) -> Result<Option<List<Run>>, WorldError> {
        let runs = self.picked_runs(alloc, specs)?;
        if runs.len() > most {
            return Ok(None);
        }
        Ok(Some(runs))
    }

    fn retrieved_size(&self, specs: &[Spec]) -> Size {
        self.size_of(specs)
    }

    fn retrieved(&self, alloc: Global, specs: &[Spec]) -> Result<List<Item>, WorldError> {
        self.picked_items(alloc, specs)
    }

    fn diagonals(
        &self,
        alloc: Global,
        left: &Spec,
        right: &Spec,
    ) -> Result<Option<List<Diagonal>>, WorldError> {
        let diagonals = self.shared_diagonals(alloc, left, right)?;
        if diagonals.len() > MOST_ITEMS as usize {
            return Ok(None);
        }
        Ok(Some(diagonals))
    }

    fn documents_found(
        &self,
        alloc: Global,
        session: u64,
        specs: &[Spec],
    ) -> Result<List<Tumbler>, WorldError> {
        self.documents_with(alloc, session, specs)
    }

    fn links_found(&self, session: u64, want: &Want, runs: &WantedRuns) -> Result<u32, WorldError> {
        self.count_links(session, want, runs)
    }

    fn ids_found(
        &self,
        alloc: Global,
        session: u64,
        want: &Want,
        runs: &WantedRuns,
    ) -> Result<List<Tumbler>, WorldError> {
        self.link_ids(alloc, session, want, runs)
    }

    fn ids_after(
        &self,
        alloc: Global,
        session: u64,
        want: &Want,
        runs: &WantedRuns,
        after: &Tumbler,
        limit: u32,
    ) -> Result<List<Tumbler>, WorldError> {
        self.link_ids_after(alloc, session, want, runs, after, limit)
    }

    fn has_link(&self, session: u64, id: &Tumbler) -> bool {
        self.link_at(session, id).is_some()
    }

    fn end_now(
        &self,
        alloc: Global,
        session: u64,
        id: &Tumbler,
        end: End,
    ) -> Result<List<Spec>, WorldError> {
        self.end_specs(alloc, session, id, end)
    }

    fn end_set(
        &self,
        alloc: Global,
        session: u64,
        end: End,
        specs: &[Spec],
    ) -> Result<List<Spec>, WorldError> {
        self.specs_in_end(alloc, session, end, specs)
    }
}

impl Apply for FlatWorld {
    fn apply(&mut self, alloc: Global, entry: &Entry) -> Result<(), Memory> {
        Ok(self.apply_entry(alloc, entry)?)
    }
}
