//! Workers in threads of their own.
ghost use Rattle.std.specs.Prelude.{◌≡◌, ◌+◌, ◌^◌, ◌<◌, ℕ, true, IfOk, IfErr};
ghost use Rattle.std.specs.Thread.{IsSync, IsSend};
ghost use Rattle.crossbeam_channel.specs.Claims.{view, IsSeatAt};
ghost use Rattle.crossbeam_channel.specs.Ends.{sends_on, receives_on};
ghost use Rattle.session_pool.specs.inside.Rule.{traffic, all_parts};
ghost use Rattle.session_pool.specs.inside.Work.{IsPlaced, IsWorkers, GoesOn};

use crate::accept::Accept;
use crate::gate::Gate;
use crate::gather::{feed_and_stop, take_in};
use crate::passes::IssuePasses;
use crate::serve::Serve;
use crate::traffic::Cut;
use crate::work::{Incoming, OfThese, Outgoing, Seat, Worked, work};
use std::alloc::Global;
use std::snapshot::Snapshot;
use std::sync::Wait;
use std::sync::atomic::AtomicU64;
use std::sync::atomic::Ordering::SeqCst;
use std::thread;
use std::thread::{PromisedHandle, Scope, Threads};

// What the caller lends to a scope.
#[derive(Drop)]
pub(crate) struct Lent<'a, A, O> {
    pub accept: &'a mut A,
    pub own: O,
}

// No worker was refused a thread.
pub(crate) const NONE_REFUSED: u64 = u64::MAX;

// Works, unless this is the worker that no thread could be made for.
fn work_unless_refused<
    R: Wait,
    L: IssuePasses<Pass = P>,
    J: Drop,
    W: Serve<L, J, Tally = Y>,
    G: Gate,
    P,
    Y,
>(
    rt: &R,
    alloc: Global,
    lock: &L,
    from: &Incoming<J>,
    worker: &W,
    gate: &G,
    refused: &AtomicU64,
    index: u32,
    own: Worked<P, Seat<J>, Y>,
) -> Worked<P, Seat<J>, Y>
    requires placed { IsPlaced (L.is_of lock.now) (IsSeatAt (receives_on from.now)) own }
    requires worked { IsWorkers L.owner L.knows W.count own }
    ensures placed { IsPlaced (L.is_of lock.now) (IsSeatAt (receives_on from.now)) result }
    ensures worked { IsWorkers L.owner L.knows W.count result }
{
    if refused.load(SeqCst) == u64::from(index) {
        return own;
    }
    work(rt, alloc, lock, from, worker, gate, own)
}

// Starts a worker. Where no thread can be made, what it was given comes back.
fn start_worker<
    's,
    E,
    R: Wait + Sync,
    L: IssuePasses<Pass = P> + Sync,
    J: Send + Drop + 's,
    W: Serve<L, J, Tally = Y> + Sync,
    G: Gate + Sync,
    P: Send + Drop + 's,
    Y: Send + Drop + 's,
>(
    scope: &Scope<'s, E>,
    rt: &'s R,
    alloc: Global,
    lock: &'s L,
    from: &'s Incoming<J>,
    worker: &'s W,
    gate: &'s G,
    refused: &'s AtomicU64,
    index: u32,
    own: Worked<P, Seat<J>, Y>,
) -> Result<
    PromisedHandle<Worked<P, Seat<J>, Y>, OfThese<L, Incoming<J>, W>>,
    Worked<P, Seat<J>, Y>,
>
    requires placed { IsPlaced (L.is_of lock.now) (IsSeatAt (receives_on from.now)) own }
    requires worked { IsWorkers L.owner L.knows W.count own }
    ensures ok { IfOk result (λ h. (h.promise.lock.value ≡ lock.now) × (h.promise.from.value ≡ from.now)) }
    ensures placed { IfErr result (IsPlaced (L.is_of lock.now) (IsSeatAt (receives_on from.now))) }
    ensures worked { IfErr result (IsWorkers L.owner L.knows W.count) }
{
    let promise = OfThese {
        lock: Snapshot::of(lock),
        from: Snapshot::of(from),
        worker: Snapshot::of(worker),
    };
    let started = scope.spawn_with(
        promise,
        move || -> Worked<P, Seat<J>, Y>
            requires placed { IsPlaced (L.is_of lock.now) (IsSeatAt (receives_on from.now)) own }
            requires worked { IsWorkers L.owner L.knows W.count own }
            ensures placed { IsPlaced (L.is_of lock.entry.now) (IsSeatAt (receives_on from.entry.now)) result }
            ensures worked { IsWorkers L.owner L.knows W.count result }
        { work_unless_refused(rt, alloc, lock, from, worker, gate, refused, index, own) },
    );
    match started {
        Ok(handle) => Ok(handle),
        Err(refusal) => {
            refused.store(u64::from(index), SeqCst);
            Err((refusal.value)())
        }
    }
}

// What a new worker begins with.
fn new_worker<L: IssuePasses<Pass = P>, J: Drop, W: Serve<L, J, Tally = Y>, P, Y>(
    lock: &L,
    to: &Outgoing<J>,
    worker: &W,
    own: &mut Worked<P, Seat<J>, Y>,
) -> Worked<P, Seat<J>, Y>
    requires placed { IsPlaced (L.is_of lock.now) (IsSeatAt (sends_on to.now)) own.old }
    requires parts { 1 < (view own.old.seat).parts }
    ensures same { IsPlaced (L.is_of lock.now) (IsSeatAt (sends_on to.now)) own.new }
    ensures placed { IsPlaced (L.is_of lock.now) (IsSeatAt (sends_on to.now)) result }
    ensures worked { IsWorkers L.owner L.knows W.count result }
    ensures parts { (view own.new.seat).parts + 1 ≡ (view own.old.seat).parts }
    ensures all { (given : ℕ) → GoesOn L.owner L.knows W.count own.old given own.new given }
{
    let pass = lock.another(&mut own.pass);
    let seat = to.another::<Cut>(&mut own.seat);
    let tally = worker.tally();
    Worked { pass, seat, tally }
}

// Joins a worker, and takes in what it brought back.
fn join_worker<
    R: Threads,
    L: IssuePasses<Pass = P>,
    J: Drop,
    W: Serve<L, J, Tally = Y>,
    P: Drop,
    Y: Drop,
>(
    rt: &R,
    lock: &L,
    to: &Outgoing<J>,
    from: &Incoming<J>,
    worker: &W,
    own: Worked<P, Seat<J>, Y>,
    handle: PromisedHandle<Worked<P, Seat<J>, Y>, OfThese<L, Incoming<J>, W>>,
) -> Worked<P, Seat<J>, Y>
    requires ends { receives_on from.now ≡ sends_on to.now }
    requires placed { IsPlaced (L.is_of lock.now) (IsSeatAt (sends_on to.now)) own }
    requires part { 0 < (view own.seat).parts }
    requires handle { (handle.promise.lock.value ≡ lock.now) × (handle.promise.from.value ≡ from.now) }
    ensures placed { IsPlaced (L.is_of lock.now) (IsSeatAt (sends_on to.now)) result }
    ensures parts { (view result.seat).parts ≡ (view own.seat).parts + 1 }
    ensures all { (given : ℕ) → GoesOn L.owner L.knows W.count own given result given }
{
    take_in(lock, to, worker, own, handle.join(rt))
}

// Starts workers, feeds those that could be started, tells them to stop and joins them.
fn with_workers<
    's,
    E,
    R: Threads + Wait + Sync,
    L: IssuePasses<Pass = P> + Sync,
    J: Send + Drop + 's,
    W: Serve<L, J, Tally = Y> + Sync,
    G: Gate + Sync,
    A: Accept<J>,
    P: Send + Drop + 's,
    Y: Send + Drop + 's,
>(
    scope: &Scope<'s, E>,
    rt: &'s R,
    alloc: Global,
    lock: &'s L,
    to: &Outgoing<J>,
    from: &'s Incoming<J>,
    worker: &'s W,
    gate: &'s G,
    refused: &'s AtomicU64,
    left: u32,
    started: u32,
    accept: &mut A,
    mut own: Worked<P, Seat<J>, Y>,
) -> Worked<P, Seat<J>, Y>
    requires ends { receives_on from.now ≡ sends_on to.now }
    requires placed { IsPlaced (L.is_of lock.now) (IsSeatAt (sends_on to.now)) own }
    requires parts { left < (view own.seat).parts }
    requires few { left + started < 2 ^ 32 }
    ensures placed { IsPlaced (L.is_of lock.now) (IsSeatAt (sends_on to.now)) result }
    ensures parts { (view result.seat).parts ≡ (view own.seat).parts }
    ensures ended { A.has_ended accept.new ≡ true }
    ensures all { GoesOn L.owner L.knows W.count own (A.given_count accept.old) result (A.given_count accept.new) }
{
    if left == 0 {
        return feed_and_stop(rt, alloc, lock, to, worker, gate, accept, own, started);
    }
    let new = new_worker(lock, to, worker, &mut own);
    match start_worker(
        scope, rt, alloc, lock, from, worker, gate, refused, started, new,
    ) {
        Ok(handle) => {
            let own = with_workers(
                scope,
                rt,
                alloc,
                lock,
                to,
                from,
                worker,
                gate,
                refused,
                left - 1,
                started + 1,
                accept,
                own,
            );
            join_worker(rt, lock, to, from, worker, own, handle)
        }
        Err(back) => {
            let own = take_in(lock, to, worker, own, back);
            feed_and_stop(rt, alloc, lock, to, worker, gate, accept, own, started)
        }
    }
}

// The same in a scope: what was lent is given back once every worker has ended.
pub(crate) fn run_workers<
    'a,
    R: Threads + Wait + Sync,
    L: IssuePasses<Pass = P> + Sync,
    J: Send + Drop + 'a,
    W: Serve<L, J, Tally = Y> + Sync,
    G: Gate + Sync,
    A: Accept<J>,
    P: Send + Drop + 'a,
    Y: Send + Drop + 'a,
>(
    rt: &'a R,
    alloc: Global,
    lock: &'a L,
    to: &'a Outgoing<J>,
    from: &'a Incoming<J>,
    worker: &'a W,
    gate: &'a G,
    refused: &'a AtomicU64,
    workers: u32,
    lent: Lent<'a, A, Worked<P, Seat<J>, Y>>,
) -> Lent<'a, A, Worked<P, Seat<J>, Y>>
    requires ends { receives_on from.now ≡ sends_on to.now }
    requires placed { IsPlaced (L.is_of lock.now) (IsSeatAt (sends_on to.now)) lent.own }
    requires parts { (view lent.own.seat).parts ≡ all_parts }
    ensures placed { IsPlaced (L.is_of lock.now) (IsSeatAt (sends_on to.now)) result.own }
    ensures parts { (view result.own.seat).parts ≡ all_parts }
    ensures ended { A.has_ended result.accept.now ≡ true }
    ensures all { GoesOn L.owner L.knows W.count lent.entry.own (A.given_count lent.entry.accept.now) result.own (A.given_count result.accept.now) }
    ensures lent { result.accept.ghost_name ≡ lent.entry.accept.ghost_name }
{
    thread::scope(
        thread::scope_env(),
        rt,
        move |scope| -> Lent<A, Worked<P, Seat<J>, Y>>
            requires rows { IsSync R.row × IsSync L.row × IsSend J.row × IsSync W.row × IsSync G.row × IsSend P.row × IsSend Y.row }
            requires ends { receives_on from.now ≡ sends_on to.now }
            requires placed { IsPlaced (L.is_of lock.now) (IsSeatAt (sends_on to.now)) lent.own }
            requires parts { (view lent.own.seat).parts ≡ all_parts }
            requires workers { workers < 2 ^ 32 }
            ensures placed { IsPlaced (L.is_of lock.entry.now) (IsSeatAt (sends_on to.entry.now)) result.own }
            ensures parts { (view result.own.seat).parts ≡ all_parts }
            ensures ended { A.has_ended result.accept.now ≡ true }
            ensures all { GoesOn L.owner L.knows W.count lent.entry.own (A.given_count lent.entry.accept.now) result.own (A.given_count result.accept.now) }
            ensures lent { result.accept.ghost_name ≡ lent.entry.accept.ghost_name }
        {
            let Lent { accept, own } = lent;
            let own = with_workers(
                scope, rt, alloc, lock, to, from, worker, gate, refused, workers, 0, accept, own,
            );
            Lent { accept, own }
        },
    )
}
