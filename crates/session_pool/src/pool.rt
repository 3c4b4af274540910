//! The pool.
ghost use Rattle.std.specs.Prelude.{◌≡◌, ◌+◌, ◌<◌, true};
ghost use Rattle.crossbeam_channel.specs.Claims.{view, IsSeatAt};
ghost use Rattle.crossbeam_channel.specs.Ends.{sends_on, receives_on};
ghost use Rattle.session_pool.specs.inside.Rule.{traffic, all_parts};
ghost use Rattle.session_pool.specs.inside.Work.{IsPlaced};
ghost use Rattle.session_pool.specs.Serving.{HasPooled};

use crate::accept::Accept;
use crate::gate::Gate;
use crate::gather::{drain, next_given};
use crate::passes::IssuePasses;
use crate::serve::Serve;
use crate::serving::serve_one;
use crate::work::{Incoming, Outgoing, Seat, Worked};
use crate::workers::{Lent, NONE_REFUSED, run_workers};
use crossbeam_channel::bounded_with;
use std::alloc::Global;
use std::sync::Wait;
use std::sync::atomic::AtomicU64;
use std::thread::Threads;

// How many messages the channel has room for.
const CAPACITY: usize = 64;

// Says that what was lent is as it was left.
fn take_back<A>(accept: &mut A)
    ensures { accept.new ≡ accept.old }
{
    let _ = accept;
}

// Serves jobs in this thread until there are no more.
fn serve_all<
    R: Wait,
    L: IssuePasses<Pass = P>,
    J,
    W: Serve<L, J, Tally = Y>,
    G: Gate,
    A: Accept<J>,
    P,
    Y,
>(rt: &R, alloc: Global, lock: &L, worker: &W, gate: &G, accept: &mut A, pass: &mut P) -> Y
    requires lock { L.is_of lock.now pass.old }
    requires given { A.given_count accept.old ≡ 0 }
    ensures same_lock { L.is_of lock.now pass.new }
    ensures ended { A.has_ended accept.new ≡ true }
    ensures pooled { HasPooled L.owner (L.knows pass.old) (A.given_count accept.new) (W.count result) (L.knows pass.new) }
{
    let mut tally = worker.tally();
    for _ in rt.forever() {
        let (number, job) = match next_given::<R, J, A>(rt, alloc, accept) {
            Some(given) => given,
            None => return tally,
        };
        serve_one(rt, alloc, lock, worker, gate, pass, &mut tally, number, job);
    }
    unreachable!()
}

// Serves jobs in workers, and what they leave in this thread.
fn pool<
    R: Threads + Wait + Sync,
    L: IssuePasses<Pass = P> + Sync,
    J: Send + Drop,
    W: Serve<L, J, Tally = Y> + Sync,
    G: Gate + Sync,
    A: Accept<J>,
    P: Send + Drop,
    Y: Send + Drop,
>(
    rt: &R,
    alloc: Global,
    lock: &L,
    to: &Outgoing<J>,
    from: &Incoming<J>,
    worker: &W,
    gate: &G,
    workers: u32,
    accept: &mut A,
    own: Worked<P, Seat<J>, Y>,
) -> Worked<P, Seat<J>, Y>
    requires ends { receives_on from.now ≡ sends_on to.now }
    requires placed { IsPlaced (L.is_of lock.now) (IsSeatAt (sends_on to.now)) own }
    requires seat { view own.seat ≡ traffic all_parts 0 0 }
    requires count { W.count own.tally ≡ 0 }
    requires given { A.given_count accept.old ≡ 0 }
    ensures same_lock { L.is_of lock.now result.pass }
    ensures ended { A.has_ended accept.new ≡ true }
    ensures pooled { HasPooled L.owner (L.knows own.pass) (A.given_count accept.new) (W.count result.tally) (L.knows result.pass) }
{
    let refused = AtomicU64::new(NONE_REFUSED);
    let lent = Lent { accept, own };
    let Lent { accept, own } = run_workers(
        rt, alloc, lock, to, from, worker, gate, &refused, workers, lent,
    );
    take_back(accept);
    drain(rt, alloc, lock, from, worker, gate, own)
}

/// Accepts jobs and serves each of them, in as many threads as could be started of those that are asked for. It returns when
/// `accept` has given `None` and every job is served, and answers the workers' tallies added up. Jobs are numbered from 1.
/// Where there is no memory for a channel or no thread can be made, it serves every job in the thread that calls it.
pub fn run_pool<
    R: Threads + Wait + Sync,
    L: IssuePasses<Pass = P> + Sync,
    J: Send + Drop,
    W: Serve<L, J, Tally = Y> + Sync,
    G: Gate + Sync,
    A: Accept<J>,
    P: Send + Drop,
    Y: Send + Drop,
>(
    rt: &R,
    alloc: Global,
    lock: &L,
    pass: &mut P,
    workers: u32,
    accept: &mut A,
    worker: &W,
    gate: &G,
) -> Y
    requires lock { L.is_of lock.now pass.old }
    requires given { A.given_count accept.old ≡ 0 }
    ensures same_lock { L.is_of lock.now pass.new }
    ensures ended { A.has_ended accept.new ≡ true }
    ensures pooled { HasPooled L.owner (L.knows pass.old) (A.given_count accept.new) (W.count result) (L.knows pass.new) }
{
    let Ok((to, from, seat)) = bounded_with(alloc, CAPACITY) else {
        return serve_all(rt, alloc, lock, worker, gate, accept, pass);
    };
    let own = Worked {
        pass: lock.another(pass),
        seat,
        tally: worker.tally(),
    };
    let Worked {
        pass: own_pass,
        seat: _seat,
        tally,
    } = pool(
        rt, alloc, lock, &to, &from, worker, gate, workers, accept, own,
    );
    lock.end(pass, own_pass);
    tally
}
