//! The history of many sessions, and the world that it builds.
ghost use Rattle.std.specs.Prelude.{◌≡◌, ◌≢◌, ◌⊎◌, ◌≤◌, ◌<◌, ◌+◌, ◌^◌, ◌==◌, [], ◌∷◌, not, filter, length, Bool, false, Option, IsTrue, IfOk, OnOk, OnErr};
ghost use Rattle.std.specs.List.{list_any};

use crate::keeping::{keep, look_at, record_of};
use crate::laws::images_are_kept;
use crate::step::{Step, StepAnswer};
use crate::tending::sweep;
use edit_log::{Appended, EditLog};
use febe_data::{Change, Entry, Limits, List, Memory, Refusal, Reply, Request, Tumbler};
use green_flush::Flush;
use green_io::Disk;
use page_journal::PageFault;
use paged_world::OnPages;
use std::alloc::Global;
use std::marker::Model;
use tree_world::TreeWorld;
use world_rules::{Effect, Served, is_durable};

/// A history that begins with the entries of a log and a restart, the world that it has built, to which each entry is applied
/// once, and the log, to which each kept entry is appended before it is in the history. Any world serves that entries change,
/// that takes the last one back, that can be put into better shape, and that answers what requests look up.
#[derive(Drop)]
pub struct StoreOver<W: OnPages> {
    pub(crate) history: List<Entry>,
    /// When each kept entry was made, in milliseconds since the year 1970 began.
    pub(crate) moments: List<u64>,
    pub(crate) world: W,
    /// The live sessions. The history has room for the end of each.
    pub(crate) live: List<u64>,
    /// The greatest session number of the history.
    pub(crate) greatest: u64,
    pub(crate) limits: Limits,
    pub(crate) log: EditLog,
    /// How many nodes the trees had once they were last swept, or when the store opened.
    pub(crate) base: u64,
    /// What is known of the pages.
    pub(crate) flush: Flush,
    /// For how many kept entries the pages stand.
    pub(crate) flushed: u64,
}

/// The store of a back end that keeps its world in trees and tables.
pub type Store = StoreOver<TreeWorld>;

impl<W: OnPages> Model for StoreOver<W> {
    ghost use Rattle.febe_data.specs.Plain.{plain_history};
    ghost use Rattle.green_store.specs.StoreView.{StoreView};
    ghost use Rattle.green_store.specs.IsStore.{IsStore};

    ghost Value = { StoreView };

    ghost view = { λ s. record { history = plain_history s.history.items; moments = s.moments.items; limits = s.limits; log = s.log; trees = W.condition s.world; base = s.base; nodes = W.world_nodes s.world; flush = s.flush; flushed = s.flushed } };

    ghost invariant = { λ s. IsStore (plain_history s.history.items) s.moments.items s.history.spare (W.stands s.world) s.live.items s.greatest s.flushed };
}

impl<W: OnPages + Drop> StoreOver<W> {
    ghost use Rattle.febe_data.specs.Plain.{plain_history};
    ghost use Rattle.entry_codec.specs.Logged.{PlainLogged};
    ghost use Rattle.green_io.specs.Areas.{is_same};
    ghost use Rattle.green_io.specs.declared.disk.Area.TheVariants.{Second};
    ghost use Rattle.green_io.specs.Disk.{LeavesOnly, LeavesBut};
    ghost use Rattle.world_rules.specs.Apply.{world_of};
    ghost use Rattle.world_rules.specs.FlatView.{view_of};
    ghost use Rattle.world_rules.specs.Holding.{holder};
    ghost use Rattle.world_rules.specs.History.{durable_entries};
    ghost use Rattle.green_store.specs.Durable.{has_risen, Keeps, HoldsStep, KeepsStep};
    ghost use Rattle.page_journal.specs.Images.{is_paged};
    ghost use Rattle.green_flush.specs.Loads.{TreesAt};
    ghost use Rattle.green_store.specs.IsStep.{IsStep, UnlessAsked, OnQuery, UnlessSwept, UnlessFlushed, OnFlushed, UnlessTended, OnTended, unsaved};
    ghost use Rattle.green_store.specs.Isolated.{IsolatesStep};
    ghost use Rattle.green_store.specs.TimedStep.{IsTimedStep};
    ghost use Rattle.green_store.specs.Paged.{IsPaged, HasPages, EachLoadsFor, MayLoad};
    ghost use Rattle.std.specs.Prelude.{min};
    ghost use Rattle.enfilade_core.specs.Summary.{most_count};

    /// Does one step at this moment, whole: where there is no memory in its midst, or the disk fails, nothing of it stays but an edit that is
    /// pending in the log, which the next edit takes back first; and but for pages that a save had written when it stopped,
    /// which change no answer.
    ///
    /// A query is answered by what its session may read alone: what is private to other accounts changes no answer.
    ///
    /// An edit builds its reply, its trees and its record first, then mends the log where an edit is pending, appends, and
    /// stands. What was appended is never refused. It is logged with the moment, which comes behind those of the entries kept before
    /// it. A step that keeps nothing leaves the moments alone; and the disk too, unless the disk failed an edit, or pages were due.
    ///
    /// A background step makes one step of the balancer where a tree allows one. Only where none does, it writes all trees to
    /// pages, if so many kept entries stand behind those that the pages stand for as the limits say. Only where neither is to be
    /// done, and the arenas hold over twice as many nodes as after the last sweep or at opening, and 1,024 more, it lets go of
    /// those that no tree reaches. Where nothing is to be put right it takes no memory.
    pub fn step<D: Disk>(
        &mut self,
        alloc: Global,
        disk: &mut D,
        moment: u64,
        step: Step,
    ) -> StepAnswer
        ensures step { IsStep self.old step self.new result (has_risen (D.fault_count disk.old) (D.fault_count disk.new)) }
        ensures isolated { IsolatesStep self.old step result }
        ensures limits { self.new.limits ≡ self.old.limits }
        ensures moments { IsTimedStep self.old moment self.new }
        ensures any_moment { (pending : Option PlainLogged) → Keeps (D.state disk.old) self.old pending → LeavesOnly (D.state disk.old) (D.state disk.new) (HoldsStep self.old pending moment step) }
        ensures keeps { (pending : Option PlainLogged) → Keeps (D.state disk.old) self.old pending → KeepsStep self.old pending moment step self.new result (D.state disk.new) }
        ensures pages { HasPages (D.state disk.old) self.old → HasPages (D.state disk.new) self.new }
        ensures pages_any_moment { (was now : Option TreesAt) → IsPaged (D.state disk.old) self.old was now → LeavesOnly (D.state disk.old) (D.state disk.new) (MayLoad was now (durable_entries self.old.history)) }
        ensures flushed { OnFlushed result (HasPages (D.state disk.old) self.old → EachLoadsFor (durable_entries self.new.history) (D.state disk.new)) }
        ensures others { UnlessTended step (LeavesBut (is_same Second) (D.state disk.old) (D.state disk.new)) }
        ensures log { OnTended step (LeavesBut is_paged (D.state disk.old) (D.state disk.new)) }
        ensures never_falls { D.fault_count disk.old ≤ D.fault_count disk.new }
        ensures base { UnlessSwept result (self.new.base ≡ self.old.base) }
        ensures flushed_stays { UnlessFlushed result (self.new.flushed ≡ self.old.flushed) }
        ensures untouched { UnlessAsked step (UnlessTended step (disk.new ≡ disk.old)) }
        ensures query { OnQuery step (disk.new ≡ disk.old) }
        ensures left_alone { OnTended step (unsaved self.old < self.old.limits.flush → disk.new ≡ disk.old) }
    {
        match step {
            Step::Begin => self.begin(alloc),
            Step::Ask { session, request } => self.ask(alloc, disk, moment, session, &request),
            Step::End { session } => self.end(alloc, session),
            Step::Background => self.tend(alloc, disk),
        }
    }

    /// The entries of all sessions, in their order.
    pub fn history(&self) -> &List<Entry>
        ensures { plain_history result.now.items ≡ self.now.history }
    {
        &self.history
    }

    /// When each kept entry was made, in milliseconds since the year 1970 began: at the moment that its step was given, or as the
    /// log had it when the store opened, where 0 stands for a moment that was not logged. It takes no memory.
    pub fn moments(&self) -> &List<u64>
        ensures { result.now.items ≡ self.now.moments }
    {
        &self.moments
    }

    /// How many entries there are.
    pub fn length(&self) -> u64
        ensures value { result ≡ length self.now.history }
        ensures bound { result < 2 ^ 63 }
    {
        let entries = self.history.as_slice();
        entries.len() as u64
    }

    /// The world that the history has built.
    pub fn world(&self) -> &W
        ensures stands { W.stands result.now (view_of self.now.history) }
        ensures trees { W.condition result.now ≡ self.now.trees }
    {
        &self.world
    }

    /// What all trees owe for their shape together, up to 2^64 - 1. A version that shares a tree with its document counts
    /// it again. It looks at one node of each document's tree, and takes no memory.
    pub fn debt(&self) -> u64
        ensures { result ≡ min self.now.trees.debt most_count }
    {
        self.world.debt()
    }

    /// Whether some tree allows a step of the balancer. It takes no memory.
    pub fn can_balance(&self) -> bool
        ensures { result ≡ self.now.trees.allows }
    {
        self.world.can_balance()
    }

    /// The depth of the deepest tree, up to 2^32 - 1. It looks at one node of each document's tree, and takes no memory.
    pub fn depth(&self) -> u32
        ensures { result ≡ min self.now.trees.depth 4294967295 }
    {
        self.world.depth()
    }

    /// How many nodes the trees have together, with those that no root reaches. It takes no memory.
    pub fn nodes(&self) -> u64
        ensures { result ≡ self.now.trees.nodes }
    {
        self.world.nodes()
    }

    /// How many nodes the trees had once they were last swept, or when the store opened. It takes no memory.
    pub fn base(&self) -> u64
        ensures { result ≡ self.now.base }
    {
        self.base
    }

    /// For how many of the kept entries the pages stand: 0 where there are none, or they were put aside when the store opened.
    /// It takes no memory.
    pub fn flushed(&self) -> u64
        ensures value { result ≡ self.now.flushed }
        ensures within { result ≤ length (durable_entries self.now.history) }
    {
        self.flushed
    }

    /// The session that has the document open for writing, if one has.
    pub fn holder_of(&self, document: &Tumbler) -> Option<u64>
        ensures { result ≡ holder (world_of self.now.history) document.now }
    {
        self.world.holder_of(document)
    }

    /// The entries, when the store is done with.
    pub fn into_history(self) -> List<Entry>
        ensures { plain_history result.items ≡ self.history }
    {
        self.history
    }

    /// The entries, and the moments of those that are kept, when the store is done with.
    pub fn into_log(self) -> (List<Entry>, List<u64>)
        ensures history { plain_history result.0.items ≡ self.history }
        ensures moments { result.1.items ≡ self.moments }
        ensures each { length result.1.items ≡ length (durable_entries self.history) }
    {
        (self.history, self.moments)
    }
}

fn is_in(live: &[u64], session: u64) -> bool
    ensures { result ≡ list_any (λ s. s == session) live.now }
{
    live.iter().any(|other| *other == session)
}

/// Takes the session out. The others stay, in their order.
fn remove(live: &mut List<u64>, session: u64)
    ensures { live.new.items ≡ filter (λ s. not (s == session)) live.old.items }
{
    live.retain(|other| *other != session);
}

#[tactic(auto, using(crate::proofs::Histories::histories))]
impl<W: OnPages + Drop> StoreOver<W> {
    ghost use Rattle.febe_data.specs.Plain.{plain_request, plain_reply, plain_change};
    ghost use Rattle.entry_codec.specs.Logged.{PlainLogged, made_at_moment};
    ghost use Rattle.febe_data.specs.Validity.{IsRequest, IsReply};
    ghost use Rattle.green_io.specs.Areas.{is_same};
    ghost use Rattle.green_io.specs.declared.disk.Area.TheVariants.{Second};
    ghost use Rattle.green_io.specs.Disk.{LeavesOnly, LeavesBut};
    ghost use Rattle.world_rules.specs.Apply.{world_of};
    ghost use Rattle.world_rules.specs.History.{is_live, is_durable, durable_entries};
    ghost use Rattle.world_rules.specs.Legal.{entry_after};
    ghost use Rattle.world_rules.specs.Placed.{IsPlaced};
    ghost use Rattle.world_rules.specs.PlainEffect.{plain_effect};
    ghost use Rattle.world_rules.specs.Queries.{is_query};
    ghost use Rattle.green_store.specs.Durable.{has_risen, kept_rows, Keeps, HoldsWith, IsThat, HoldsRequest, KeepsRequest, HoldsStep, KeepsStep};
    ghost use Rattle.green_store.specs.inside.{MayBeKept, IsKeptOrTakenBack, KeepsEdit, IsBalancing, IsSpared};
    ghost use Rattle.green_store.specs.Sessions.{greatest_session, begin_entry, end_entry};
    ghost use Rattle.green_store.specs.Steps.{Steps};
    ghost use Rattle.green_store.specs.StoreView.{with_one, StandsStill, PagesStandStill, StandsAsBefore};
    ghost use Rattle.green_store.specs.IsStep.{IsStep, IsGiven, MayFlush, unsaved, OnRefused, UnlessKept, UnlessSwept, UnlessFlushed, OnFlushed};
    ghost use Rattle.green_store.specs.LeavesLive.{LeavesLive};
    ghost use Rattle.green_store.specs.TimedStep.{IsTimedStep};
    ghost use Rattle.green_store.specs.Paged.{IsPaged, HasPages, EachLoadsFor, MayLoad};
    ghost use Rattle.green_flush.specs.Loads.{TreesAt};
    ghost use Rattle.page_journal.specs.Images.{is_paged};
    ghost use Rattle.tree_world.specs.Nodes.{AllGrown};
    ghost use Rattle.std.specs.Prelude.{ℕ, nat_le, true};

    fn begin(&mut self, alloc: Global) -> StepAnswer
        ensures step { (rose : Bool) → IsStep self.old Step.Begin self.new result rose }
        ensures limits { self.new.limits ≡ self.old.limits }
        ensures base { self.new.base ≡ self.old.base }
    {
        let Some(session) = self.greatest.checked_add(1) else {
            return StepAnswer::NoNumber;
        };
        match self.add_begin(alloc, session) {
            Ok(()) => StepAnswer::Begun { session },
            Err(Memory) => StepAnswer::Memory,
        }
    }

    fn ask<D: Disk>(
        &mut self,
        alloc: Global,
        disk: &mut D,
        moment: u64,
        session: u64,
        request: &Request,
    ) -> StepAnswer
        ensures step { IsStep self.old (Step.Ask session request.now) self.new result (has_risen (D.fault_count disk.old) (D.fault_count disk.new)) }
        ensures limits { self.new.limits ≡ self.old.limits }
        ensures base { self.new.base ≡ self.old.base }
        ensures moments { IsTimedStep self.old moment self.new }
        ensures any_moment { (pending : Option PlainLogged) → Keeps (D.state disk.old) self.old pending → LeavesOnly (D.state disk.old) (D.state disk.new) (HoldsStep self.old pending moment (Step.Ask session request.now)) }
        ensures keeps { (pending : Option PlainLogged) → Keeps (D.state disk.old) self.old pending → KeepsStep self.old pending moment (Step.Ask session request.now) self.new result (D.state disk.new) }
        ensures others { LeavesBut (is_same Second) (D.state disk.old) (D.state disk.new) }
        ensures query { is_query (plain_request request.now) ≡ true → disk.new ≡ disk.old }
        ensures never_falls { D.fault_count disk.old ≤ D.fault_count disk.new }
    {
        if !self.is_live(session) {
            return StepAnswer::NoSession;
        }
        let reply = self.answer(alloc, disk, moment, session, request);
        StepAnswer::Reply {
            reply,
            point: self.history.len() as u64,
        }
    }

    fn end(&mut self, alloc: Global, session: u64) -> StepAnswer
        ensures step { (rose : Bool) → IsStep self.old (Step.End session) self.new result rose }
        ensures limits { self.new.limits ≡ self.old.limits }
        ensures base { self.new.base ≡ self.old.base }
    {
        if !self.is_live(session) {
            return StepAnswer::NoSession;
        }
        self.add_end(alloc, session);
        StepAnswer::Ended
    }

    fn tend<D: Disk>(&mut self, alloc: Global, disk: &mut D) -> StepAnswer
        ensures step { IsStep self.old Step.Background self.new result (has_risen (D.fault_count disk.old) (D.fault_count disk.new)) }
        ensures limits { self.new.limits ≡ self.old.limits }
        ensures any_moment { (moment : ℕ) (pending : Option PlainLogged) → Keeps (D.state disk.old) self.old pending → LeavesOnly (D.state disk.old) (D.state disk.new) (HoldsStep self.old pending moment Step.Background) }
        ensures keeps { (moment : ℕ) (pending : Option PlainLogged) → Keeps (D.state disk.old) self.old pending → KeepsStep self.old pending moment Step.Background self.new result (D.state disk.new) }
        ensures pages { HasPages (D.state disk.old) self.old → HasPages (D.state disk.new) self.new }
        ensures pages_any_moment { (was now : Option TreesAt) → IsPaged (D.state disk.old) self.old was now → LeavesOnly (D.state disk.old) (D.state disk.new) (MayLoad was now (durable_entries self.old.history)) }
        ensures flushed { OnFlushed result (HasPages (D.state disk.old) self.old → EachLoadsFor (durable_entries self.new.history) (D.state disk.new)) }
        ensures log { LeavesBut is_paged (D.state disk.old) (D.state disk.new) }
        ensures never_falls { D.fault_count disk.old ≤ D.fault_count disk.new }
        ensures left_alone { unsaved self.old < self.old.limits.flush → disk.new ≡ disk.old }
    {
        let Ok(balanced) = self.balance() else {
            return StepAnswer::Memory;
        };
        if balanced {
            return StepAnswer::Balanced;
        }
        if self.may_flush() {
            return self.save(alloc, disk);
        }
        self.sweep(alloc)
    }

    /// Makes one step of the balancer where a tree allows one, and tells whether one did.
    fn balance(&mut self) -> Result<bool, Memory>
        ensures { IsBalancing result self.old self.new }
    {
        self.world.balance()
    }

    /// Whether so many kept entries stand behind those that the pages stand for as the limits say.
    fn may_flush(&self) -> bool
        ensures { result ≡ nat_le self.now.limits.flush (unsaved self.now) }
    {
        // So the world has counted the kept entries.
        let _ = &self.history;
        self.world.counted() - self.flushed >= u64::from(self.limits.flush())
    }

    /// Writes all trees to pages, for all kept entries.
    fn save<D: Disk>(&mut self, alloc: Global, disk: &mut D) -> StepAnswer
        requires { MayFlush self.old }
        ensures step { IsStep self.old Step.Background self.new result (has_risen (D.fault_count disk.old) (D.fault_count disk.new)) }
        ensures any_moment { (moment : ℕ) (pending : Option PlainLogged) → Keeps (D.state disk.old) self.old pending → LeavesOnly (D.state disk.old) (D.state disk.new) (HoldsStep self.old pending moment Step.Background) }
        ensures keeps { (moment : ℕ) (pending : Option PlainLogged) → Keeps (D.state disk.old) self.old pending → KeepsStep self.old pending moment Step.Background self.new result (D.state disk.new) }
        ensures pages { HasPages (D.state disk.old) self.old → HasPages (D.state disk.new) self.new }
        ensures pages_any_moment { (was now : Option TreesAt) → IsPaged (D.state disk.old) self.old was now → LeavesOnly (D.state disk.old) (D.state disk.new) (MayLoad was now (durable_entries self.old.history)) }
        ensures flushed { OnFlushed result (HasPages (D.state disk.old) self.old → EachLoadsFor (durable_entries self.new.history) (D.state disk.new)) }
        ensures log { LeavesBut is_paged (D.state disk.old) (D.state disk.new) }
        ensures never_falls { D.fault_count disk.old ≤ D.fault_count disk.new }
    {
        // So a crash leaves the kept entries in the log.
        images_are_kept(disk, self);
        let kept = self.world.counted();
        match self.world.save(alloc, &mut self.flush, disk, kept) {
            Ok(()) => {
                self.flushed = kept;
                StepAnswer::Flushed
            }
            Err(PageFault::Disk) => StepAnswer::Disk,
            Err(PageFault::Memory) => StepAnswer::Memory,
        }
    }

    /// Lets go of the nodes that no tree reaches, once they are many. The next save then writes every stream anew.
    fn sweep(&mut self, alloc: Global) -> StepAnswer
        requires { IsSpared self.old }
        ensures { (rose : Bool) → IsStep self.old Step.Background self.new result rose }
    {
        let Ok(swept) = sweep(alloc, &mut self.world, &mut self.base) else {
            return StepAnswer::Memory;
        };
        if !swept {
            return StepAnswer::Idle;
        }
        self.flush.renew();
        StepAnswer::Swept
    }

    /// Whether the session has begun and not ended.
    fn is_live(&self, session: u64) -> bool
        ensures { result ≡ is_live self.now.history session }
    {
        is_in(self.live.as_slice(), session)
    }

    /// Begins the session of the next number, and takes room for its end.
    fn add_begin(&mut self, alloc: Global, session: u64) -> Result<(), Memory>
        requires { session ≡ greatest_session self.old.history + 1 }
        ensures ok { OnOk result (self.new ≡ with_one self.old (begin_entry session)) }
        ensures err { OnErr result (self.new ≡ self.old) }
    {
        let room = self.live.len().checked_add(2).ok_or(Memory)?;
        self.history.reserve(room)?;
        self.live.reserve(1)?;
        let begin = Entry {
            session,
            serial: 1,
            change: Change::Begin,
        };
        self.world.apply_beside(alloc, &begin)?;
        self.history.push_reserved(begin);
        self.live.push_reserved(session);
        self.greatest = session;
        Ok(())
    }

    /// Ends the session. It takes no memory.
    fn add_end(&mut self, alloc: Global, session: u64)
        requires { IsTrue (is_live self.old.history session) }
        ensures { self.new ≡ with_one self.old (end_entry self.old.history session) }
    {
        // A list with its spare is shorter than 2^64, so there is a next serial.
        let _ = self.history.spare();
        let end = Entry {
            session,
            serial: self.world.entries_of(session) + 1,
            change: Change::End,
        };
        let _ = self.world.apply_beside(alloc, &end);
        self.history.push_reserved(end);
        remove(&mut self.live, session);
    }

    /// The reply to a request of a live session. Only a quit ends the session.
    fn answer<D: Disk>(
        &mut self,
        alloc: Global,
        disk: &mut D,
        moment: u64,
        session: u64,
        request: &Request,
    ) -> Reply
        requires { IsTrue (is_live self.old.history session) }
        ensures valid { IsReply (plain_reply result) }
        ensures limits { self.new.limits ≡ self.old.limits }
        ensures base { self.new.base ≡ self.old.base }
        ensures given { IsGiven self.old session (plain_request request.now) (plain_reply result) self.new (has_risen (D.fault_count disk.old) (D.fault_count disk.new)) }
        ensures moments { IsTimedStep self.old moment self.new }
        ensures stays { OnRefused (plain_reply result) (StandsAsBefore self.old self.new) }
        ensures trees { UnlessKept self.old self.new (self.new.trees ≡ self.old.trees) }
        ensures grown { AllGrown self.old.nodes self.new.nodes }
        ensures pages { PagesStandStill self.old self.new }
        ensures any_moment { (pending : Option PlainLogged) → Keeps (D.state disk.old) self.old pending → LeavesOnly (D.state disk.old) (D.state disk.new) (HoldsRequest self.old pending moment session (plain_request request.now)) }
        ensures keeps { (pending : Option PlainLogged) → Keeps (D.state disk.old) self.old pending → KeepsRequest self.old pending moment session (plain_request request.now) self.new (plain_reply result) (D.state disk.new) }
        ensures others { LeavesBut (is_same Second) (D.state disk.old) (D.state disk.new) }
        ensures query { is_query (plain_request request.now) ≡ true → disk.new ≡ disk.old }
        ensures never_falls { D.fault_count disk.old ≤ D.fault_count disk.new }
    {
        if let Request::Quit = request {
            self.add_end(alloc, session);
            return Reply::Quit;
        }
        if !request.is_valid() {
            return Reply::Refused(Refusal::Memory);
        }
        match self.serve(alloc, disk, moment, session, request) {
            Ok(reply) => reply,
            Err(Memory) => Reply::Refused(Refusal::Memory),
        }
    }

    /// The reply to a request that is no quit, where there is memory for it. Where there is none the disk is left alone.
    fn serve<D: Disk>(
        &mut self,
        alloc: Global,
        disk: &mut D,
        moment: u64,
        session: u64,
        request: &Request,
    ) -> Result<Reply, Memory>
        requires live { IsTrue (is_live self.old.history session) }
        requires asks { request.now ≢ Request.Quit }
        requires valid { IsRequest (plain_request request.now) }
        ensures valid { IfOk result (λ reply. IsReply (plain_reply reply)) }
        ensures limits { self.new.limits ≡ self.old.limits }
        ensures base { self.new.base ≡ self.old.base }
        ensures steps { IfOk result (λ reply. Steps self.old.limits session self.old.history (plain_request request.now) (plain_reply reply) self.new.history (has_risen (D.fault_count disk.old) (D.fault_count disk.new))) }
        ensures moments { OnOk result (IsTimedStep self.old moment self.new) }
        ensures trees { UnlessKept self.old self.new (self.new.trees ≡ self.old.trees) }
        ensures nodes { UnlessKept self.old self.new (self.new.nodes ≡ self.old.nodes) }
        ensures grown { AllGrown self.old.nodes self.new.nodes }
        ensures pages { PagesStandStill self.old self.new }
        ensures any_moment { (pending : Option PlainLogged) → Keeps (D.state disk.old) self.old pending → LeavesOnly (D.state disk.old) (D.state disk.new) (HoldsRequest self.old pending moment session (plain_request request.now)) }
        ensures keeps { (pending : Option PlainLogged) → Keeps (D.state disk.old) self.old pending → IfOk result (λ reply. KeepsRequest self.old pending moment session (plain_request request.now) self.new (plain_reply reply) (D.state disk.new)) }
        ensures others { LeavesBut (is_same Second) (D.state disk.old) (D.state disk.new) }
        ensures query { is_query (plain_request request.now) ≡ true → disk.new ≡ disk.old }
        ensures never_falls { D.fault_count disk.old ≤ D.fault_count disk.new }
        ensures err { OnErr result (StandsStill self.old self.new) }
        ensures untouched { OnErr result (disk.new ≡ disk.old) }
    {
        match world_rules::serve(&self.world, alloc, session, request, &self.limits)? {
            Served::Refused(refusal) => Ok(Reply::Refused(refusal)),
            Served::Answered(reply) => Ok(reply),
            Served::Changed(made) if is_durable(&made.change) => {
                // What the types of its fields say of them, and the bounds of the limits.
                look_at(&made.change);
                let _ = self.limits.text();
                self.make_kept(alloc, disk, moment, session, made)
            }
            Served::Changed(made) => self.make(alloc, session, made),
        }
    }

    /// Makes a change of a live session that is neither its begin nor its end, and that is not kept over a restart.
    fn make(&mut self, alloc: Global, session: u64, made: Effect) -> Result<Reply, Memory>
        requires live { IsTrue (is_live self.old.history session) }
        requires stays { LeavesLive (plain_change made.change) }
        requires placed { IsPlaced (world_of self.old.history) (plain_change made.change) }
        requires drops { is_durable (plain_change made.change) ≡ false }
        ensures reply { IfOk result (λ reply. reply ≡ made.reply) }
        ensures ok { OnOk result (self.new ≡ with_one self.old (entry_after self.old.history session (plain_effect made))) }
        ensures err { OnErr result (self.new ≡ self.old) }
    {
        let room = self.live.len().checked_add(1).ok_or(Memory)?;
        self.history.reserve(room)?;
        // A list with its spare is shorter than 2^64, so there is a next serial.
        let _ = self.history.spare();
        let entry = Entry {
            session,
            serial: self.world.entries_of(session) + 1,
            change: made.change,
        };
        self.world.apply_beside(alloc, &entry)?;
        self.history.push_reserved(entry);
        Ok(made.reply)
    }

    /// Makes a change of a live session that is kept over a restart: room for it, its trees and its record come first, then the log,
    /// and then it is in the history, and its moment behind those before it. Where the disk fails the trees are taken back, which
    /// takes no memory.
    fn make_kept<D: Disk>(
        &mut self,
        alloc: Global,
        disk: &mut D,
        moment: u64,
        session: u64,
        made: Effect,
    ) -> Result<Reply, Memory>
        requires live { IsTrue (is_live self.old.history session) }
        requires may { MayBeKept self.old.history session (plain_effect made) }
        ensures limits { self.new.limits ≡ self.old.limits }
        ensures base { self.new.base ≡ self.old.base }
        ensures outcome { IfOk result (λ reply. IsKeptOrTakenBack self.old.history session (plain_effect made) (plain_reply reply) self.new.history (has_risen (D.fault_count disk.old) (D.fault_count disk.new))) }
        ensures moments { OnOk result (IsTimedStep self.old moment self.new) }
        ensures trees { UnlessKept self.old self.new (self.new.trees ≡ self.old.trees) }
        ensures nodes { UnlessKept self.old self.new (self.new.nodes ≡ self.old.nodes) }
        ensures grown { AllGrown self.old.nodes self.new.nodes }
        ensures pages { PagesStandStill self.old self.new }
        ensures any_moment { (pending : Option PlainLogged) → Keeps (D.state disk.old) self.old pending → LeavesOnly (D.state disk.old) (D.state disk.new) (HoldsWith (kept_rows self.old) (λ other. IsThat pending other ⊎ (other ≡ made_at_moment (entry_after self.old.history session (plain_effect made)) moment))) }
        ensures keeps { (pending : Option PlainLogged) → Keeps (D.state disk.old) self.old pending → IfOk result (λ reply. KeepsEdit self.old pending (made_at_moment (entry_after self.old.history session (plain_effect made)) moment) self.new (plain_reply reply) (D.state disk.new)) }
        ensures others { LeavesBut (is_same Second) (D.state disk.old) (D.state disk.new) }
        ensures never_falls { D.fault_count disk.old ≤ D.fault_count disk.new }
        ensures err { OnErr result (StandsStill self.old self.new) }
        ensures untouched { OnErr result (disk.new ≡ disk.old) }
    {
        let room = self.live.len().checked_add(1).ok_or(Memory)?;
        self.history.reserve(room)?;
        self.moments.reserve(1)?;
        // A list with its spare is shorter than 2^64, so there is a next serial.
        let _ = self.history.spare();
        let edit = Entry {
            session,
            serial: self.world.entries_of(session) + 1,
            change: made.change,
        };
        let record = record_of(alloc, &edit, moment)?;
        let undo = self.world.apply_with_undo(alloc, &edit)?;
        let Appended::Ok = keep(&mut self.log, disk, &record) else {
            self.world.undo(undo);
            return Ok(Reply::Refused(Refusal::Disk));
        };
        self.history.push_reserved(edit);
        self.moments.push_reserved(moment);
        Ok(made.reply)
    }
}
