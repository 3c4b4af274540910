//! What a worker does, and what it brings back.
ghost use Rattle.std.specs.Prelude.{◌≡◌, ◌+◌, MatchOption};
ghost use Rattle.crossbeam_channel.specs.Claims.{view, IsSeatAt};
ghost use Rattle.crossbeam_channel.specs.Ends.{receives_on};
ghost use Rattle.session_pool.specs.inside.Rule.{traffic};
ghost use Rattle.session_pool.specs.inside.Work.{IsPlaced, IsWorkers};

use crate::gate::Gate;
use crate::passes::IssuePasses;
use crate::serve::Serve;
use crate::serving::serve_one;
use crate::traffic::{Balance, Message, Take, Traffic};
use crossbeam_channel::{RuledReceiver, RuledSender};
use std::alloc::Global;
use std::snapshot::Snapshot;
use std::sync::Wait;
use std::thread::Promise;

pub(crate) type Outgoing<J> = RuledSender<Message<J>, Traffic, Balance>;

pub(crate) type Incoming<J> = RuledReceiver<Message<J>, Traffic, Balance>;

pub(crate) type Seat<J> = crossbeam_channel::Pass<Message<J>, Traffic>;

/// A worker's pass, its seat at the channel and its tally.
#[derive(Drop)]
pub(crate) struct Worked<P, S, Y> {
    pub pass: P,
    pub seat: S,
    pub tally: Y,
}

/// What a worker's thread brings back is of this lock and of this channel, and tells of the jobs that were taken.
#[derive(Drop)]
pub(crate) struct OfThese<L, C, W> {
    pub lock: Snapshot<L>,
    pub from: Snapshot<C>,
    pub worker: Snapshot<W>,
}

impl<L: IssuePasses<Pass = P>, J: Drop, W: Serve<L, J, Tally = Y>, P, Y> Promise<
    Worked<P, Seat<J>, Y>,
> for OfThese<L, Incoming<J>, W> {
    ghost use Rattle.crossbeam_channel.specs.Claims.{IsSeatAt};
    ghost use Rattle.crossbeam_channel.specs.Ends.{receives_on};
    ghost use Rattle.session_pool.specs.inside.Work.{IsPlaced, IsWorkers};

    ghost kept_by = { λ p r. IsPlaced (L.is_of p.lock.value) (IsSeatAt (receives_on p.from.value)) r × IsWorkers L.owner L.knows W.count r };
}

// The next job from the channel, for which it waits. `None` where the worker is to stop.
fn next_job<R: Wait, J: Drop>(rt: &R, from: &Incoming<J>, seat: &mut Seat<J>) -> Option<(u64, J)>
    requires channel { IsSeatAt (receives_on from.now) seat.old }
    requires part { (view seat.old).parts ≡ 1 }
    ensures channel { IsSeatAt (receives_on from.now) seat.new }
    ensures taken { MatchOption result (view seat.new ≡ view seat.old) (λ _. view seat.new ≡ traffic 1 (view seat.old).sent ((view seat.old).taken + 1)) }
{
    match from.recv_as::<Take, R>(rt, seat) {
        Ok(Message::Job { number, job }) => Some((number, job)),
        Ok(Message::Stop) | Err(_) => None,
    }
}

// Serves jobs from the channel until it is told to stop.
pub(crate) fn work<
    R: Wait,
    L: IssuePasses<Pass = P>,
    J: Drop,
    W: Serve<L, J, Tally = Y>,
    G: Gate,
    P,
    Y,
>(
    rt: &R,
    alloc: Global,
    lock: &L,
    from: &Incoming<J>,
    worker: &W,
    gate: &G,
    own: Worked<P, Seat<J>, Y>,
) -> Worked<P, Seat<J>, Y>
    requires placed { IsPlaced (L.is_of lock.now) (IsSeatAt (receives_on from.now)) own }
    requires worked { IsWorkers L.owner L.knows W.count own }
    ensures placed { IsPlaced (L.is_of lock.now) (IsSeatAt (receives_on from.now)) result }
    ensures worked { IsWorkers L.owner L.knows W.count result }
{
    let Worked {
        mut pass,
        mut seat,
        mut tally,
    } = own;
    for _ in rt.forever() {
        let Some((number, job)) = next_job(rt, from, &mut seat) else {
            break;
        };
        serve_one(
            rt, alloc, lock, worker, gate, &mut pass, &mut tally, number, job,
        );
    }
    Worked { pass, seat, tally }
}
