//! Requests as they come: what each is refused for, changes, or is answered.
ghost use Rattle.std.specs.Prelude.{◌≡◌, IsOk, IfOk};
ghost use Rattle.std.specs.Option.{option_map};
ghost use Rattle.febe_data.specs.Plain.{plain_request, plain_reply, plain_entry};
ghost use Rattle.febe_data.specs.Validity.{IsReply};
ghost use Rattle.world_rules.specs.FlatView.{entry_for, entries_in};
ghost use Rattle.world_rules.specs.Holding.{holder};
ghost use Rattle.world_rules.specs.Served.{IsServedAs, IsValidServed, reply_for};

use crate::flat::FlatWorld;
use febe_data::{Entry, Limits, Memory, Reply, Request, Tumbler};
use flat_rows::{counts, search};
use std::alloc::Global;
use world_rules::Served;

impl FlatWorld {
    /// What comes of a request of the session. The world stays as it is. A quit takes no memory.
    pub fn serve(
        &self,
        alloc: Global,
        session: u64,
        request: &Request,
        limits: &Limits,
    ) -> Result<Served, Memory>
        ensures served { IfOk result (IsServedAs limits.now self.now session (plain_request request.now)) }
        ensures valid { IfOk result IsValidServed }
        ensures quit { request.now ≡ Request.Quit → IsOk result }
    {
        world_rules::serve(self, alloc, session, request, limits)
    }

    /// What a request is told: its refusal, the reply to its change, or its answer. The world stays as it is.
    pub fn answer(
        &self,
        alloc: Global,
        session: u64,
        request: &Request,
        limits: &Limits,
    ) -> Result<Reply, Memory>
        ensures reply { IfOk result (λ reply. plain_reply reply ≡ reply_for limits.now self.now session (plain_request request.now)) }
        ensures valid { IfOk result (λ reply. IsReply (plain_reply reply)) }
        ensures quit { request.now ≡ Request.Quit → IsOk result }
    {
        world_rules::answer(self, alloc, session, request, limits)
    }

    /// The entry that a request of the session makes where nothing refuses it; none where it is a query. A change that is
    /// refused may have an entry here too, which no history gets, or there is no memory for it.
    pub fn entry(
        &self,
        alloc: Global,
        session: u64,
        request: &Request,
    ) -> Result<Option<Entry>, Memory>
        ensures { IfOk result (λ entry. option_map plain_entry entry ≡ entry_for self.now session (plain_request request.now)) }
    {
        world_rules::entry(self, alloc, session, request)
    }

    /// How many entries the session has.
    pub fn entries_of(&self, session: u64) -> u64
        ensures { result ≡ entries_in self.now.sessions session }
    {
        counts::entries_of(&self.sessions, session)
    }

    /// The session that has the document open for writing, if one has.
    pub fn holder_of(&self, document: &Tumbler) -> Option<u64>
        ensures { result ≡ holder self.now.world document.now }
    {
        search::holder_of(self.open_rows.as_slice(), document)
    }
}
