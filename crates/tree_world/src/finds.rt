//! What requests ask of content and links, answered from trees.
ghost use Rattle.std.specs.Prelude.{◌≡◌};

use crate::world::TreeWorld;
use febe_data::{Diagonal, Item, List, Run, Spec, Tumbler, Want};
use std::alloc::Global;
use world_rules::{End, Find, Size, WantedRuns, WorldError};

impl Find for TreeWorld {
    fn picked_length(&self, _alloc: Global, specs: &[Spec]) -> Result<usize, WorldError> {
        self.picked_addresses(specs)
    }

    fn runs_up_to(
        &self,
        alloc: Global,
        specs: &[Spec],
        most: usize,
    ) -> Result<Option<List<Run>>, WorldError> {
        self.runs_within(alloc, specs, most)
    }

    fn retrieved_size(&self, specs: &[Spec]) -> Size {
        self.size_of(specs)
    }

    fn retrieved(&self, alloc: Global, specs: &[Spec]) -> Result<List<Item>, WorldError> {
        self.picked_items(alloc, specs)
    }

    fn diagonals(
        &self,
        alloc: Global,
        left: &Spec,
        right: &Spec,
    ) -> Result<Option<List<Diagonal>>, WorldError> {
        self.relation(alloc, left, right)
    }

    fn documents_found(
        &self,
        alloc: Global,
        session: u64,
        specs: &[Spec],
    ) -> Result<List<Tumbler>, WorldError> {
        self.documents_with(alloc, session, specs)
    }

    fn links_found(&self, session: u64, want: &Want, runs: &WantedRuns) -> Result<u32, WorldError> {
        self.count_links(session, want, runs)
    }

    fn ids_found(
        &self,
        alloc: Global,
        session: u64,
        want: &Want,
        runs: &WantedRuns,
    ) -> Result<List<Tumbler>, WorldError> {
        self.link_ids(alloc, session, want, runs)
    }

    fn ids_after(
        &self,
        alloc: Global,
        session: u64,
        want: &Want,
        runs: &WantedRuns,
        after: &Tumbler,
        limit: u32,
    ) -> Result<List<Tumbler>, WorldError> {
        self.link_ids_after(alloc, session, want, runs, after, limit)
    }

    fn has_link(&self, session: u64, id: &Tumbler) -> bool {
        self.is_link(session, id)
    }

    fn end_now(
        &self,
        alloc: Global,
        session: u64,
        id: &Tumbler,
        end: End,
    ) -> Result<List<Spec>, WorldError> {
        self.end_specs(alloc, session, id, end)
    }

    fn end_set(
        &self,
        alloc: Global,
        session: u64,
        end: End,
        specs: &[Spec],
    ) -> Result<List<Spec>, WorldError> {
        self.specs_in_end(alloc, session, end, specs)
    }
}
