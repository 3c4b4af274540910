//! A store and its disk as one value, which sessions share behind a lock.
ghost use Rattle.std.specs.Prelude.{◌≡◌, ◌≤◌, ◌<◌, length, Option};
ghost use Rattle.entry_codec.specs.Logged.{PlainLogged};
ghost use Rattle.green_io.specs.Areas.{is_same};
ghost use Rattle.green_io.specs.declared.disk.Area.TheVariants.{Second};
ghost use Rattle.green_io.specs.Disk.{LeavesOnly, LeavesBut};
ghost use Rattle.history_lock.specs.Histories.{Grows};
ghost use Rattle.green_store.specs.Durable.{has_risen, Keeps, HoldsStep, KeepsStep};
ghost use Rattle.green_store.specs.HousedView.{IsOneDisk};
ghost use Rattle.green_store.specs.HousePlays.{HousePlays, IsStepOf, step_for, number_after};
ghost use Rattle.world_rules.specs.History.{durable_entries};
ghost use Rattle.page_journal.specs.Images.{is_paged};
ghost use Rattle.green_flush.specs.Loads.{TreesAt};
ghost use Rattle.green_store.specs.Paged.{IsPaged, HasPages, EachLoadsFor, MayLoad};
ghost use Rattle.green_store.specs.IsStep.{IsStep, UnlessAsked, OnQuery, UnlessSwept, UnlessFlushed, OnFlushed, UnlessTended, OnTended, unsaved};
ghost use Rattle.green_store.specs.Isolated.{IsolatesStep};
ghost use Rattle.green_store.specs.Marks.{owner_of, numbers_of, marks_of};
ghost use Rattle.green_store.specs.TimedStep.{IsTimedStep};

use crate::laws::no_session_is_zero;
use crate::step::{Step, StepAnswer};
use crate::store::Store;
use febe_data::Request;
use green_io::Disk;
use history_lock::{Kept, Played};
use std::alloc::Global;
use std::marker::Model;

/// What a pass asks of a housed store. The session is the one of the pass's number.
#[derive(Debug, Drop)]
pub enum HouseJob {
    /// A session begins, whose number the pass gets.
    Begin,
    /// The session makes a request.
    Ask(Request),
    /// The session ends without a quit.
    End,
    /// The trees are put right, by one step.
    Background,
}

/// A job, and the moment at which it is given.
#[derive(Debug, Drop)]
pub struct Timed {
    /// In milliseconds since the year 1970 began.
    pub moment: u64,
    pub job: HouseJob,
}

/// What contracts see as an entry of a housed store's history. No value of it is made.
pub struct EntryView;

impl Model for EntryView {
    ghost use Rattle.febe_data.specs.Plain.{PlainEntry, restarted};

    ghost Value = { PlainEntry };

    ghost view = { λ _. record { session = 0; serial = 0; change = restarted } };
}

/// A store, and the disk over which it was opened.
#[derive(Drop)]
pub struct Housed<D: Disk> {
    pub store: Store,
    pub disk: D,
    /// The moment of the last job, and 0 before the first.
    pub last: u64,
}

impl<D: Disk> Model for Housed<D> {
    ghost use Rattle.green_store.specs.HousedView.{HousedView, IsOneDisk};

    ghost Value = { HousedView D };

    ghost view = { λ h. record { store = h.store; disk = h.disk; last = h.last } };

    ghost invariant = { λ h. IsOneDisk (D.state h.disk) h.store };
}

impl<D: Disk> Housed<D> {
    /// Puts a store and its disk together. It takes no memory.
    pub fn new(store: Store, disk: D) -> Housed<D>
        requires { IsOneDisk (D.state disk) store }
        ensures store { result.store ≡ store }
        ensures disk { result.disk ≡ disk }
        ensures last { result.last ≡ 0 }
    {
        Housed {
            store,
            disk,
            last: 0,
        }
    }

    /// Does one step of the store over its disk at this moment, as [`Store::step`](crate::StoreOver::step) tells.
    pub fn step(&mut self, alloc: Global, moment: u64, step: Step) -> StepAnswer
        ensures step { IsStep self.old.store step self.new.store result (has_risen (D.fault_count self.old.disk) (D.fault_count self.new.disk)) }
        ensures isolated { IsolatesStep self.old.store step result }
        ensures limits { self.new.store.limits ≡ self.old.store.limits }
        ensures moments { IsTimedStep self.old.store moment self.new.store }
        ensures last { self.new.last ≡ moment }
        ensures any_moment { (pending : Option PlainLogged) → Keeps (D.state self.old.disk) self.old.store pending → LeavesOnly (D.state self.old.disk) (D.state self.new.disk) (HoldsStep self.old.store pending moment step) }
        ensures keeps { (pending : Option PlainLogged) → Keeps (D.state self.old.disk) self.old.store pending → KeepsStep self.old.store pending moment step self.new.store result (D.state self.new.disk) }
        ensures pages_any_moment { (was now : Option TreesAt) → IsPaged (D.state self.old.disk) self.old.store was now → LeavesOnly (D.state self.old.disk) (D.state self.new.disk) (MayLoad was now (durable_entries self.old.store.history)) }
        ensures flushed { OnFlushed result (HasPages (D.state self.old.disk) self.old.store → EachLoadsFor (durable_entries self.new.store.history) (D.state self.new.disk)) }
        ensures others { UnlessTended step (LeavesBut (is_same Second) (D.state self.old.disk) (D.state self.new.disk)) }
        ensures log { OnTended step (LeavesBut is_paged (D.state self.old.disk) (D.state self.new.disk)) }
        ensures never_falls { D.fault_count self.old.disk ≤ D.fault_count self.new.disk }
        ensures base { UnlessSwept result (self.new.store.base ≡ self.old.store.base) }
        ensures flushed_stays { UnlessFlushed result (self.new.store.flushed ≡ self.old.store.flushed) }
        ensures untouched { UnlessAsked step (UnlessTended step (self.new.disk ≡ self.old.disk)) }
        ensures query { OnQuery step (self.new.disk ≡ self.old.disk) }
        ensures left_alone { OnTended step (unsaved self.old.store < self.old.store.limits.flush → self.new.disk ≡ self.old.disk) }
    {
        self.last = moment;
        self.store.step(alloc, &mut self.disk, moment, step)
    }

    /// The store and the disk, when they are done with as one.
    pub fn into_parts(self) -> (Store, D)
        ensures store { result.0 ≡ self.store }
        ensures disk { result.1 ≡ self.disk }
        ensures one_disk { IsOneDisk (D.state result.1) result.0 }
    {
        let Housed {
            store,
            disk,
            last: _,
        } = self;
        (store, disk)
    }
}

/// The step that is this number's job. There is none where a session would begin for a number that has one.
fn step_of(number: u64, job: HouseJob) -> Option<Step>
    ensures { IsStepOf number job result }
{
    match job {
        HouseJob::Begin if number != 0 => None,
        HouseJob::Begin => Some(Step::Begin),
        HouseJob::Ask(request) => Some(Step::Ask {
            session: number,
            request,
        }),
        HouseJob::End => Some(Step::End { session: number }),
        HouseJob::Background => Some(Step::Background),
    }
}

/// The number after a step: that of the session which has begun, or as it was.
fn number_behind(number: u64, answer: &StepAnswer) -> u64
    ensures { result ≡ number_after number answer.now }
{
    match answer {
        StepAnswer::Begun { session } => *session,
        _ => number,
    }
}

impl<D: Disk> Kept for Housed<D> {
    type Job = Timed;

    type Answer = StepAnswer;

    type Entry = EntryView;

    ghost history = { λ h. h.store.history };

    ghost owner = { owner_of };

    ghost fixed = { λ h. numbers_of h.store.limits };

    ghost marks = { λ h. marks_of (D.fault_count h.disk) h.store h.last };

    ghost plays = { HousePlays };

    fn count(&self) -> u64 {
        self.store.length()
    }

    /// Does the job by one step of the store at its moment, which is the last one then, whatever comes of the job. The crash clauses
    /// are those of that step.
    fn play(&mut self, alloc: Global, number: u64, job: Timed) -> Played<StepAnswer>
        ensures fixed { numbers_of self.new.store.limits ≡ numbers_of self.old.store.limits }
        ensures grows { Grows owner_of number self.old.store.history result.number self.new.store.history }
        ensures plays { HousePlays (numbers_of self.old.store.limits) self.old.store.history number job result.answer result.number self.new.store.history (marks_of (D.fault_count self.old.disk) self.old.store self.old.last) (marks_of (D.fault_count self.new.disk) self.new.store self.new.last) }
        ensures moments { IsTimedStep self.old.store job.moment self.new.store }
        ensures any_moment { (pending : Option PlainLogged) → Keeps (D.state self.old.disk) self.old.store pending → LeavesOnly (D.state self.old.disk) (D.state self.new.disk) (HoldsStep self.old.store pending job.moment (step_for number job.job)) }
        ensures keeps { (pending : Option PlainLogged) → Keeps (D.state self.old.disk) self.old.store pending → KeepsStep self.old.store pending job.moment (step_for number job.job) self.new.store result.answer (D.state self.new.disk) }
        ensures pages_any_moment { (was now : Option TreesAt) → IsPaged (D.state self.old.disk) self.old.store was now → LeavesOnly (D.state self.old.disk) (D.state self.new.disk) (MayLoad was now (durable_entries self.old.store.history)) }
        ensures others { UnlessTended (step_for number job.job) (LeavesBut (is_same Second) (D.state self.old.disk) (D.state self.new.disk)) }
        ensures log { OnTended (step_for number job.job) (LeavesBut is_paged (D.state self.old.disk) (D.state self.new.disk)) }
        ensures never_falls { D.fault_count self.old.disk ≤ D.fault_count self.new.disk }
    {
        no_session_is_zero(&self.store);
        let Timed { moment, job } = job;
        let Some(step) = step_of(number, job) else {
            self.last = moment;
            return Played {
                answer: StepAnswer::NoSession,
                number,
            };
        };
        let answer = self.step(alloc, moment, step);
        let number = number_behind(number, &answer);
        Played { answer, number }
    }
}
