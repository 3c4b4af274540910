//! Which documents and links a session finds by what specs pick.
ghost use Rattle.std.specs.Prelude.{◌≡◌, ◌+◌, ◌++◌, ◌∷◌, [], length, take, map, filter, All, IfOk, OnOk};
ghost use Rattle.std.specs.List.{list_any};
ghost use Rattle.std.specs.Ordering.{nat_cmp, is_lt};
ghost use Rattle.std.specs.Cmp.Lexicographic.{slice_cmp};
ghost use Rattle.tumbler.specs.Places.{IsTumbler};
ghost use Rattle.febe_data.specs.Plain.{plain_spec, plain_want};
ghost use Rattle.world_rules.specs.World.{ascending};
ghost use Rattle.flat_rows.specs.Sets.{is_in_set, IsSetOf, IsSetShowing};
ghost use Rattle.flat_rows.specs.PlainLink.{plain_link};
ghost use Rattle.world_rules.specs.Meeting.{shares_byte, share_bytes};
ghost use Rattle.flat_rows.specs.Meeting.{is_end_met, is_met};
ghost use Rattle.world_rules.specs.Wanted.{AreWantedRuns};
ghost use Rattle.world_rules.specs.Finding.{documents_found, is_in_span, is_home_wanted, links_found, ids_found, ids_after};

use crate::flat::FlatWorld;
use febe_data::{List, Spec, Tumbler, Want};
use flat_rows::finding::{
    count_met, documents_in, documents_showing, first_above, ids_met, list_of, set_of,
};
use std::alloc::Global;
use world_rules::{WantedRuns, WorldError};

impl FlatWorld {
    /// The documents that the session may read and that have content which the specs pick, ascending.
    pub(crate) fn documents_with(
        &self,
        alloc: Global,
        session: u64,
        specs: &[Spec],
    ) -> Result<List<Tumbler>, WorldError>
        ensures items { IfOk result (λ made. made.items ≡ documents_found self.now.world session (map plain_spec specs.now)) }
        ensures valid { IfOk result (λ made. All IsTumbler made.items) }
    {
        let picked = self.picked_addresses(alloc, specs)?;
        let addresses = set_of(alloc, picked.as_slice())?;
        let shown = documents_showing(alloc, self.rows.as_slice(), &addresses)?;
        let account = self.account_of(session);
        let (documents, published) = (self.documents.as_slice(), self.published.as_slice());
        let found = documents_in(alloc, documents, published, &account, &shown)?;
        list_of(alloc, &found)
    }

    /// How many links are wanted, of those whose home the session may read.
    pub(crate) fn count_links(
        &self,
        session: u64,
        want: &Want,
        runs: &WantedRuns,
    ) -> Result<u32, WorldError>
        requires { AreWantedRuns self.now.world (plain_want want.now) runs.now }
        ensures { IfOk result (λ count. count ≡ length (links_found self.now.world session (plain_want want.now))) }
    {
        let account = self.account_of(session);
        let (published, links) = (self.published.as_slice(), self.links.as_slice());
        count_met(published, &account, want, runs, links)
    }

    /// The ids of these links, ascending.
    pub(crate) fn link_ids(
        &self,
        alloc: Global,
        session: u64,
        want: &Want,
        runs: &WantedRuns,
    ) -> Result<List<Tumbler>, WorldError>
        requires { AreWantedRuns self.now.world (plain_want want.now) runs.now }
        ensures items { IfOk result (λ made. made.items ≡ ids_found self.now.world session (plain_want want.now)) }
        ensures valid { IfOk result (λ made. All IsTumbler made.items) }
    {
        let account = self.account_of(session);
        let (published, links) = (self.published.as_slice(), self.links.as_slice());
        let ids = ids_met(alloc, published, &account, want, runs, links)?;
        list_of(alloc, &ids)
    }

    /// The first so many of these ids, above a tumbler.
    pub(crate) fn link_ids_after(
        &self,
        alloc: Global,
        session: u64,
        want: &Want,
        runs: &WantedRuns,
        after: &Tumbler,
        limit: u32,
    ) -> Result<List<Tumbler>, WorldError>
        requires { AreWantedRuns self.now.world (plain_want want.now) runs.now }
        ensures items { IfOk result (λ made. made.items ≡ ids_after self.now.world session (plain_want want.now) after.now limit) }
        ensures valid { IfOk result (λ made. All IsTumbler made.items) }
    {
        let found = self.link_ids(alloc, session, want, runs)?;
        Ok(first_above(alloc, found.as_slice(), after, limit)?)
    }
}
