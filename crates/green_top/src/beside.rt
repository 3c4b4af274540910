//! A session that a store plays beside its disk.
ghost use Rattle.std.specs.Prelude.{◌≡◌, ◌+◌, []};
ghost use Rattle.world_rules.specs.Placed.{AllPlaced};
ghost use Rattle.world_rules.specs.World.{empty_world};
ghost use Rattle.green_store.specs.Sessions.{greatest_session};
ghost use Rattle.green_top.specs.Outcome.{IsRun, HasServedAlone};
ghost use Rattle.green_top.specs.inside.Conversation.{io_by};
ghost use Rattle.green_top.specs.inside.Enduring.{RunsThrough};
ghost use Rattle.green_top.specs.inside.Stored.{HasTendedIn};

use crate::plays::{Beginning, PlaySession, Replied};
use crate::session::{Served, serve};
use febe_data::Request;
use green_io::{Clock, Disk, Sink, Source};
use green_store::{Step, StepAnswer, Store};
use std::alloc::Global;
use std::marker::PhantomData;

/// A store, and the number of the session that it serves; 0 where none has begun.
#[derive(Drop)]
pub(crate) struct Serves {
    pub(crate) store: Store,
    pub(crate) session: u64,
}

/// Puts the store's trees and pages right by one step, for which it asks the clock, and tells whether something was done. Whatever
/// comes of it, a session goes on as if it had not been made, and the log is left alone.
pub(crate) fn put_right<C: Clock, D: Disk>(
    alloc: Global,
    serves: &mut Serves,
    clock: &mut C,
    disk: &mut D,
) -> bool
    ensures tended { HasTendedIn D.state D.fault_count serves.old disk.old (C.coming clock.old) serves.new disk.new (C.coming clock.new) }
{
    let moment = clock.now();
    let answer = serves.store.step(alloc, disk, moment, Step::Background);
    matches!(
        &answer,
        StepAnswer::Balanced | StepAnswer::Flushed | StepAnswer::Swept
    )
}

/// Plays by a store over a disk of this type, which nobody else changes meanwhile.
#[derive(Drop)]
pub(crate) struct Beside<D> {
    over: PhantomData<D>,
}

impl<D: Disk> PlaySession for Beside<D> {
    ghost use Rattle.green_top.specs.inside.Stored.{HasBegunIn, HasAskedIn, HasTendedIn, HasEndedIn};

    type First = Serves;

    type Second = D;

    ghost ready = { λ _ _ _. Unit {0} };

    ghost seen = { λ serves _. serves.store.history };

    ghost faults = { λ _ disk. D.fault_count disk };

    ghost number = { λ serves. serves.session };

    ghost limits = { λ serves. serves.store.limits };

    ghost begun = { HasBegunIn D.state D.fault_count };

    ghost tells = { HasAskedIn D.state D.fault_count };

    ghost tended = { HasTendedIn D.state D.fault_count };

    ghost ended = { HasEndedIn D.state D.fault_count };

    fn begin<C: Clock>(
        &self,
        alloc: Global,
        first: &mut Serves,
        second: &mut D,
        clock: &mut C,
    ) -> Beginning {
        let moment = clock.now();
        match first.store.step(alloc, second, moment, Step::Begin) {
            StepAnswer::Begun { session } => {
                first.session = session;
                Beginning::Begun
            }
            StepAnswer::NoNumber => Beginning::NoNumber,
            StepAnswer::Memory => Beginning::Memory,
            _ => unreachable!(),
        }
    }

    fn ask<C: Clock>(
        &self,
        alloc: Global,
        first: &mut Serves,
        second: &mut D,
        clock: &mut C,
        request: Request,
    ) -> Replied {
        let session = first.session;
        let moment = clock.now();
        let step = Step::Ask { session, request };
        let StepAnswer::Reply { reply, point } = first.store.step(alloc, second, moment, step)
        else {
            unreachable!();
        };
        Replied { reply, point }
    }

    fn tend<C: Clock>(&self, alloc: Global, first: &mut Serves, second: &mut D, clock: &mut C) {
        put_right(alloc, first, clock, second);
    }

    fn end<C: Clock>(&self, alloc: Global, first: &mut Serves, second: &mut D, clock: &mut C) {
        let session = first.session;
        let moment = clock.now();
        let _ended = first
            .store
            .step(alloc, second, moment, Step::End { session });
    }
}

/// Serves one session by a store that has just opened, beside its disk.
pub(crate) fn serve_beside<C: Clock, S: Source, K: Sink, D: Disk>(
    alloc: Global,
    serves: &mut Serves,
    clock: &mut C,
    source: &mut S,
    sink: &mut K,
    disk: &mut D,
) -> Served
    requires placed { AllPlaced empty_world serves.old.store.history }
    requires unnumbered { serves.old.session ≡ 0 }
    ensures run { (exchanges : _)
        × IsRun serves.old.store.limits serves.new.session (io_by S.left S.fault_count K.taken K.fault_count source.old sink.old (D.fault_count disk.old)) (io_by S.left S.fault_count K.taken K.fault_count source.new sink.new (D.fault_count disk.new))
        serves.new.store.history exchanges result.points.items result.bytes_read result.end
        × HasServedAlone serves.old.store.history serves.new.session serves.new.store.history exchanges (D.fault_count disk.old) (D.fault_count disk.new)
        × RunsThrough result.end serves.old.store.limits (greatest_session serves.old.store.history + 1) serves.new.session exchanges [] (C.coming clock.old) (C.coming clock.new) (D.state disk.old) serves.old.store (D.fault_count disk.old) (D.state disk.new) serves.new.store (D.fault_count disk.new) }
{
    let player = Beside::<D> { over: PhantomData };
    serve(alloc, &player, serves, disk, clock, source, sink)
}
