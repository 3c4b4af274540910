//! A world that stands for every view whose documents and links lie in another order. So nothing can rest on it.
ghost use Rattle.world_rows.specs.Turned.{IsTurnedOf};

use febe_data::{Diagonal, Entry, Item, List, Memory, Mode, Run, Spec, Tumbler, Want};
use std::alloc::Global;
use world_rules::{Apply, End, Find, LookUp, Size, WantedRuns, WorldError};

/// A world that answers as another does, and stands for more: where that one stands for a view, it stands for each view
/// that differs by the order of documents and links alone.
#[derive(Drop)]
pub(crate) struct TurnedWorld<W> {
    pub(crate) held: W,
}

impl<W: LookUp> LookUp for TurnedWorld<W> {
    ghost stands = { λ it view. IsTurnedOf (W.stands it.held) view };

    fn counted(&self) -> u64 {
        self.held.counted()
    }

    fn entries_of(&self, session: u64) -> u64 {
        self.held.entries_of(session)
    }

    fn content(&self) -> usize {
        self.held.content()
    }

    fn has_document(&self, document: &Tumbler) -> bool {
        self.held.has_document(document)
    }

    fn is_published(&self, document: &Tumbler) -> bool {
        self.held.is_published(document)
    }

    fn account_of_session(&self, session: u64) -> Option<Tumbler> {
        self.held.account_of_session(session)
    }

    fn mode_of(&self, session: u64, document: &Tumbler) -> Option<Mode> {
        self.held.mode_of(session, document)
    }

    fn is_held_against(&self, session: u64, document: &Tumbler) -> bool {
        self.held.is_held_against(session, document)
    }

    fn holder_of(&self, document: &Tumbler) -> Option<u64> {
        self.held.holder_of(document)
    }

    fn text_length(&self, document: &Tumbler) -> usize {
        self.held.text_length(document)
    }

    fn link_length(&self, document: &Tumbler) -> usize {
        self.held.link_length(document)
    }

    fn next_document(&self, account: &Tumbler) -> Result<Tumbler, WorldError> {
        self.held.next_document(account)
    }

    fn next_version(&self, document: &Tumbler) -> Result<Tumbler, WorldError> {
        self.held.next_version(document)
    }

    fn next_content(&self, document: &Tumbler) -> Result<u32, WorldError> {
        self.held.next_content(document)
    }

    fn next_link(&self, home: &Tumbler) -> Result<u32, WorldError> {
        self.held.next_link(home)
    }
}

impl<W: Find> Find for TurnedWorld<W> {
    fn picked_length(&self, alloc: Global, specs: &[Spec]) -> Result<usize, WorldError> {
        self.held.picked_length(alloc, specs)
    }

    fn runs_up_to(
        &self,
        alloc: Global,
        specs: &[Spec],
        most: usize,
    ) -> Result<Option<List<Run>>, WorldError> {
        self.held.runs_up_to(alloc, specs, most)
    }

    fn retrieved_size(&self, specs: &[Spec]) -> Size {
        self.held.retrieved_size(specs)
    }

    fn retrieved(&self, alloc: Global, specs: &[Spec]) -> Result<List<Item>, WorldError> {
        self.held.retrieved(alloc, specs)
    }

    fn diagonals(
        &self,
        alloc: Global,
        left: &Spec,
        right: &Spec,
    ) -> Result<Option<List<Diagonal>>, WorldError> {
        self.held.diagonals(alloc, left, right)
    }

    fn documents_found(
        &self,
        alloc: Global,
        session: u64,
        specs: &[Spec],
    ) -> Result<List<Tumbler>, WorldError> {
        self.held.documents_found(alloc, session, specs)
    }

    fn links_found(&self, session: u64, want: &Want, runs: &WantedRuns) -> Result<u32, WorldError> {
        self.held.links_found(session, want, runs)
    }

    fn ids_found(
        &self,
        alloc: Global,
        session: u64,
        want: &Want,
        runs: &WantedRuns,
    ) -> Result<List<Tumbler>, WorldError> {
        self.held.ids_found(alloc, session, want, runs)
    }

    fn ids_after(
        &self,
        alloc: Global,
        session: u64,
        want: &Want,
        runs: &WantedRuns,
        after: &Tumbler,
        limit: u32,
    ) -> Result<List<Tumbler>, WorldError> {
        self.held
            .ids_after(alloc, session, want, runs, after, limit)
    }

    fn has_link(&self, session: u64, id: &Tumbler) -> bool {
        self.held.has_link(session, id)
    }

    fn end_now(
        &self,
        alloc: Global,
        session: u64,
        id: &Tumbler,
        end: End,
    ) -> Result<List<Spec>, WorldError> {
        self.held.end_now(alloc, session, id, end)
    }

    fn end_set(
        &self,
        alloc: Global,
        session: u64,
        end: End,
        specs: &[Spec],
    ) -> Result<List<Spec>, WorldError> {
        self.held.end_set(alloc, session, end, specs)
    }
}

impl<W: Apply> Apply for TurnedWorld<W> {
    fn apply(&mut self, alloc: Global, entry: &Entry) -> Result<(), Memory> {
        self.held.apply(alloc, entry)
    }
}
