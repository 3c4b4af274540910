//! A session that a pass plays behind a lock.
ghost use Rattle.std.specs.Prelude.{◌≡◌, ℕ};
ghost use Rattle.history_lock.specs.Histories.{StartsWith};
ghost use Rattle.history_lock.specs.Passes.{known, IsPassOf};
ghost use Rattle.green_store.specs.Marks.{limits_in};
ghost use Rattle.green_top.specs.Outcome.{IsRun};
ghost use Rattle.green_top.specs.Served.{HasSatActs};
ghost use Rattle.green_top.specs.inside.Conversation.{io_by};

use crate::jobs::timed;
use crate::plays::{Beginning, PlaySession, Replied};
use crate::session::serve;
use crate::session_end::SessionEnd;
use febe_data::{List, Request};
use green_io::{Clock, Disk, Sink, Source};
use green_store::{HouseJob, Housed, StepAnswer};
use history_lock::{HistoryLock, Pass};
use std::alloc::Global;
use std::sync::Wait;

/// Plays through a lock, behind which others play too. Each job has the moment at which the clock was asked for it, before the
/// lock was waited for.
pub(crate) struct Behind<'a, R, D: Disk> {
    rt: &'a R,
    lock: &'a HistoryLock<Housed<D>>,
}

impl<R: Wait, D: Disk> PlaySession for Behind<'_, R, D> {
    ghost use Rattle.green_top.specs.inside.Behind.{HasBegunBehind, HasAskedBehind, HasEndedBehind};

    type First = Pass<Housed<D>>;

    type Second = ();

    ghost ready = { λ behind pass _. IsPassOf behind.lock.now pass };

    ghost seen = { λ pass _. (known pass).seen };

    ghost faults = { λ _ _. 0 };

    ghost number = { λ pass. (known pass).number };

    ghost limits = { λ pass. limits_in (known pass).fixed };

    ghost begun = { λ pass _ old after _ new. HasBegunBehind (known pass) old (known after) new };

    ghost tells = { λ pass _ old exchange after _ new. HasAskedBehind (known pass) old exchange (known after) new };

    ghost tended = { λ pass _ old after _ new. (after ≡ pass) × (new ≡ old) };

    ghost ended = { λ pass _ old after _ new. HasEndedBehind (known pass) old (known after) new };

    fn begin<C: Clock>(
        &self,
        alloc: Global,
        first: &mut Pass<Housed<D>>,
        _second: &mut (),
        clock: &mut C,
    ) -> Beginning {
        let job = timed(clock, HouseJob::Begin);
        let answer = self.lock.act(self.rt, alloc, first, job).answer;
        match answer {
            StepAnswer::Begun { session: _ } => Beginning::Begun,
            StepAnswer::NoNumber => Beginning::NoNumber,
            StepAnswer::Memory => Beginning::Memory,
            _ => unreachable!(),
        }
    }

    fn ask<C: Clock>(
        &self,
        alloc: Global,
        first: &mut Pass<Housed<D>>,
        _second: &mut (),
        clock: &mut C,
        request: Request,
    ) -> Replied {
        let job = timed(clock, HouseJob::Ask(request));
        let answer = self.lock.act(self.rt, alloc, first, job).answer;
        let StepAnswer::Reply { reply, point } = answer else {
            unreachable!();
        };
        Replied { reply, point }
    }

    fn tend<C: Clock>(
        &self,
        _alloc: Global,
        _first: &mut Pass<Housed<D>>,
        _second: &mut (),
        _clock: &mut C,
    ) {}

    fn end<C: Clock>(
        &self,
        alloc: Global,
        first: &mut Pass<Housed<D>>,
        _second: &mut (),
        clock: &mut C,
    ) {
        let job = timed(clock, HouseJob::End);
        let _ended = self.lock.act(self.rt, alloc, first, job);
    }
}

/// Serves one session, from its greeting to its end, behind a lock through which others are served at the same time. It does
/// for one connection what a run does once it has opened: what the source gives is answered, each reply is written before
/// more is read, and a session that began has its End. It waits for the lock before each of its plays, and makes no background
/// step.
///
/// It asks the clock once for each play, before it waits for the lock, and gives the play that moment.
///
/// The points are one for each reply: the number of entries in the history behind it. Those that are in the list before go.
pub fn serve_session<R: Wait, C: Clock, S: Source, K: Sink, D: Disk>(
    rt: &R,
    alloc: Global,
    lock: &HistoryLock<Housed<D>>,
    pass: &mut Pass<Housed<D>>,
    clock: &mut C,
    source: &mut S,
    sink: &mut K,
    points: &mut List<u64>,
) -> SessionEnd
    requires pass { IsPassOf lock.now pass.old }
    requires unnumbered { (known pass.old).number ≡ 0 }
    ensures same_lock { IsPassOf lock.now pass.new }
    ensures starts_with { StartsWith (known pass.new).seen (known pass.old).seen }
    ensures fixed { (known pass.new).fixed ≡ (known pass.old).fixed }
    ensures served { let io = io_by S.left S.fault_count K.taken K.fault_count in
        (exchanges : _) × (bytes_read : ℕ)
        × IsRun (limits_in (known pass.old).fixed) (known pass.new).number (io source.old sink.old 0) (io source.new sink.new 0) (known pass.new).seen exchanges points.new.items bytes_read result
        × HasSatActs exchanges (known pass.old) (known pass.new) (C.coming clock.old) (C.coming clock.new) }
{
    let behind = Behind { rt, lock };
    let mut nothing = ();
    let served = serve(alloc, &behind, pass, &mut nothing, clock, source, sink);
    let Behind { rt: _, lock: _ } = behind;
    *points = served.points;
    served.end
}
