//! How the caller's state takes in what was sent, served and brought back.
ghost use Rattle.std.specs.Prelude.{◌≡◌, ◌+◌, ◌<◌, ℕ, true, MatchOption, IfNone};
ghost use Rattle.crossbeam_channel.specs.Claims.{view, IsSeatAt};
ghost use Rattle.crossbeam_channel.specs.Ends.{sends_on, receives_on};
ghost use Rattle.session_pool.specs.Counts.{raised};
ghost use Rattle.session_pool.specs.inside.Rule.{traffic, all_parts};
ghost use Rattle.session_pool.specs.inside.Work.{IsPlaced, IsWorkers, GoesOn};

use crate::accept::Accept;
use crate::gate::Gate;
use crate::passes::IssuePasses;
use crate::serve::Serve;
use crate::serving::serve_one;
use crate::traffic::{Message, Put, Take, Unite};
use crate::work::{Incoming, Outgoing, Seat, Worked};
use std::alloc::Global;
use std::sync::Wait;

// The next job and its number: how many jobs were given, with this one.
pub(crate) fn next_given<R: Wait, J, A: Accept<J>>(
    rt: &R,
    alloc: Global,
    accept: &mut A,
) -> Option<(u64, J)>
    ensures given { MatchOption result (A.given_count accept.new ≡ A.given_count accept.old) (λ next. (A.given_count accept.new ≡ raised (A.given_count accept.old)) × (next.0 ≡ A.given_count accept.new)) }
    ensures ended { IfNone result (A.has_ended accept.new ≡ true) }
{
    match accept.accept(rt, alloc) {
        Some(job) => Some((accept.given(), job)),
        None => None,
    }
}

// Sends a job to the workers. It comes back where none runs, and where the channel hands it back.
fn send_job<R: Wait, J: Drop>(
    rt: &R,
    to: &Outgoing<J>,
    seat: &mut Seat<J>,
    running: bool,
    number: u64,
    job: J,
) -> Option<J>
    requires channel { IsSeatAt (sends_on to.now) seat.old }
    requires part { 0 < (view seat.old).parts }
    ensures channel { IsSeatAt (sends_on to.now) seat.new }
    ensures sent { MatchOption result (view seat.new ≡ traffic (view seat.old).parts ((view seat.old).sent + 1) (view seat.old).taken) (λ _. view seat.new ≡ view seat.old) }
{
    if !running {
        return Some(job);
    }
    match to.send_as::<Put, R>(rt, seat, Message::Job { number, job }) {
        Ok(()) => None,
        Err(refused) => {
            let Message::Job { number: _, job } = refused.into_inner() else {
                unreachable!()
            };
            Some(job)
        }
    }
}

// Tells so many workers to stop.
fn stop<R: Wait, J: Drop>(rt: &R, to: &Outgoing<J>, seat: &mut Seat<J>, workers: u32)
    requires channel { IsSeatAt (sends_on to.now) seat.old }
    requires part { 0 < (view seat.old).parts }
    ensures channel { IsSeatAt (sends_on to.now) seat.new }
    ensures same { view seat.new ≡ view seat.old }
{
    for _ in 0..workers {
        let _told = to.send_as::<Put, R>(rt, seat, Message::Stop);
    }
}

// Sends a job to the workers, or serves it here.
fn send_or_serve<
    R: Wait,
    L: IssuePasses<Pass = P>,
    J: Drop,
    W: Serve<L, J, Tally = Y>,
    G: Gate,
    P,
    Y,
>(
    rt: &R,
    alloc: Global,
    lock: &L,
    to: &Outgoing<J>,
    worker: &W,
    gate: &G,
    own: Worked<P, Seat<J>, Y>,
    running: bool,
    number: u64,
    job: J,
) -> Worked<P, Seat<J>, Y>
    requires placed { IsPlaced (L.is_of lock.now) (IsSeatAt (sends_on to.now)) own }
    requires part { 0 < (view own.seat).parts }
    ensures placed { IsPlaced (L.is_of lock.now) (IsSeatAt (sends_on to.now)) result }
    ensures parts { (view result.seat).parts ≡ (view own.seat).parts }
    ensures one { (given more : ℕ) → more ≡ raised given → GoesOn L.owner L.knows W.count own given result more }
{
    let Worked {
        mut pass,
        mut seat,
        mut tally,
    } = own;
    let job = match send_job(rt, to, &mut seat, running, number, job) {
        Some(job) => job,
        None => return Worked { pass, seat, tally },
    };
    serve_one(
        rt, alloc, lock, worker, gate, &mut pass, &mut tally, number, job,
    );
    Worked { pass, seat, tally }
}

// Takes jobs until there are no more, and has each served.
fn feed<
    R: Wait,
    L: IssuePasses<Pass = P>,
    J: Drop,
    W: Serve<L, J, Tally = Y>,
    G: Gate,
    A: Accept<J>,
    P,
    Y,
>(
    rt: &R,
    alloc: Global,
    lock: &L,
    to: &Outgoing<J>,
    worker: &W,
    gate: &G,
    accept: &mut A,
    mut own: Worked<P, Seat<J>, Y>,
    running: bool,
) -> Worked<P, Seat<J>, Y>
    requires placed { IsPlaced (L.is_of lock.now) (IsSeatAt (sends_on to.now)) own }
    requires part { 0 < (view own.seat).parts }
    ensures placed { IsPlaced (L.is_of lock.now) (IsSeatAt (sends_on to.now)) result }
    ensures parts { (view result.seat).parts ≡ (view own.seat).parts }
    ensures ended { A.has_ended accept.new ≡ true }
    ensures all { GoesOn L.owner L.knows W.count own (A.given_count accept.old) result (A.given_count accept.new) }
{
    for _ in rt.forever() {
        let (number, job) = match next_given::<R, J, A>(rt, alloc, accept) {
            Some(given) => given,
            None => return own,
        };
        own = send_or_serve(rt, alloc, lock, to, worker, gate, own, running, number, job);
    }
    unreachable!()
}

// The same, and then tells so many workers to stop.
pub(crate) fn feed_and_stop<
    R: Wait,
    L: IssuePasses<Pass = P>,
    J: Drop,
    W: Serve<L, J, Tally = Y>,
    G: Gate,
    A: Accept<J>,
    P,
    Y,
>(
    rt: &R,
    alloc: Global,
    lock: &L,
    to: &Outgoing<J>,
    worker: &W,
    gate: &G,
    accept: &mut A,
    own: Worked<P, Seat<J>, Y>,
    workers: u32,
) -> Worked<P, Seat<J>, Y>
    requires placed { IsPlaced (L.is_of lock.now) (IsSeatAt (sends_on to.now)) own }
    requires part { 0 < (view own.seat).parts }
    ensures placed { IsPlaced (L.is_of lock.now) (IsSeatAt (sends_on to.now)) result }
    ensures parts { (view result.seat).parts ≡ (view own.seat).parts }
    ensures ended { A.has_ended accept.new ≡ true }
    ensures all { GoesOn L.owner L.knows W.count own (A.given_count accept.old) result (A.given_count accept.new) }
{
    let running = workers > 0;
    let fed = feed(rt, alloc, lock, to, worker, gate, accept, own, running);
    let Worked {
        pass,
        mut seat,
        tally,
    } = fed;
    stop(rt, to, &mut seat, workers);
    Worked { pass, seat, tally }
}

// Takes in what a worker brought back.
pub(crate) fn take_in<L: IssuePasses<Pass = P>, J: Drop, W: Serve<L, J, Tally = Y>, P, Y>(
    lock: &L,
    to: &Outgoing<J>,
    worker: &W,
    own: Worked<P, Seat<J>, Y>,
    other: Worked<P, Seat<J>, Y>,
) -> Worked<P, Seat<J>, Y>
    requires placed { IsPlaced (L.is_of lock.now) (IsSeatAt (sends_on to.now)) own }
    requires other { IsPlaced (L.is_of lock.now) (IsSeatAt (sends_on to.now)) other }
    requires part { 0 < (view own.seat).parts }
    requires worked { IsWorkers L.owner L.knows W.count other }
    ensures placed { IsPlaced (L.is_of lock.now) (IsSeatAt (sends_on to.now)) result }
    ensures parts { (view result.seat).parts ≡ (view own.seat).parts + 1 }
    ensures all { (given : ℕ) → GoesOn L.owner L.knows W.count own given result given }
{
    let Worked {
        mut pass,
        mut seat,
        mut tally,
    } = own;
    let Worked {
        pass: other_pass,
        seat: other_seat,
        tally: other_tally,
    } = other;
    lock.end(&mut pass, other_pass);
    to.absorb::<Unite>(&mut seat, other_seat);
    worker.add(&mut tally, other_tally);
    Worked { pass, seat, tally }
}

// A job that no worker has taken, or `None` where the channel is empty.
fn left_over<R: Wait, J: Drop>(rt: &R, from: &Incoming<J>, seat: &mut Seat<J>) -> Option<(u64, J)>
    requires channel { IsSeatAt (receives_on from.now) seat.old }
    requires all { (view seat.old).parts ≡ all_parts }
    ensures channel { IsSeatAt (receives_on from.now) seat.new }
    ensures taken { MatchOption result ((view seat.new ≡ view seat.old) × ((view seat.new).sent ≡ (view seat.new).taken)) (λ _. view seat.new ≡ traffic (view seat.old).parts (view seat.old).sent ((view seat.old).taken + 1)) }
{
    for _ in rt.forever() {
        match from.try_recv_as::<Take, R>(rt, seat) {
            Ok(Message::Job { number, job }) => return Some((number, job)),
            Ok(Message::Stop) => {}
            Err(_) => return None,
        }
    }
    unreachable!()
}

// Serves what no worker has taken.
pub(crate) fn drain<
    R: Wait,
    L: IssuePasses<Pass = P>,
    J: Drop,
    W: Serve<L, J, Tally = Y>,
    G: Gate,
    P,
    Y,
>(
    rt: &R,
    alloc: Global,
    lock: &L,
    from: &Incoming<J>,
    worker: &W,
    gate: &G,
    own: Worked<P, Seat<J>, Y>,
) -> Worked<P, Seat<J>, Y>
    requires placed { IsPlaced (L.is_of lock.now) (IsSeatAt (receives_on from.now)) own }
    requires parts { (view own.seat).parts ≡ all_parts }
    ensures same_lock { L.is_of lock.now result.pass }
    ensures even { (view result.seat).sent ≡ (view result.seat).taken }
    ensures all { (given : ℕ) → GoesOn L.owner L.knows W.count own given result given }
{
    let Worked {
        mut pass,
        mut seat,
        mut tally,
    } = own;
    for _ in rt.forever() {
        let (number, job) = match left_over(rt, from, &mut seat) {
            Some(left) => left,
            None => return Worked { pass, seat, tally },
        };
        serve_one(
            rt, alloc, lock, worker, gate, &mut pass, &mut tally, number, job,
        );
    }
    unreachable!()
}
