//! The steps that calls are made of.
ghost use Rattle.std.specs.Prelude.{◌≡◌, ℕ, true, false, [], ◌∷◌, ◌++◌, length, replicate};
ghost use Rattle.history_lock.specs.Passes.{finding, taking_in};
ghost use Rattle.history_lock.specs.inside.Steps.{IsIdle, IsSameSeat, IsHolding, closing, released, successor, HasTaken, HasPlayed, HasCounted, HasFinished, HasSeen, Recounted};

use crate::kept::{Kept, Played};
use crate::lock::{COUNT, HistoryLock, LOCK, SLOT};
use crate::steps::{Acquire, CloseOff, Fork, Free, Look, Recount, TakeIn};
use crate::tried::Acted;
use crate::view::View;
use atomic_table::Seat;
use std::alloc::Global;
use std::sync::Wait;

const FREE: u64 = 0;

const HELD: u64 = 1;

impl<T: Kept> HistoryLock<T> {
    // One exchange on the word, and the value where it was free.
    pub(crate) fn try_lock(&self, seat: &mut Seat<Option<T>, View<T::Entry>>) -> bool
        requires { (seat.old.table_id ≡ self.now.table.shared.table_id) × IsIdle seat.old.me }
        ensures same { IsSameSeat seat.old seat.new }
        ensures taken { result ≡ true → HasTaken T.history T.owner T.fixed T.marks (finding seat.old.me.0 (0 ∷ [])) seat.new.me }
        ensures busy { result ≡ false → seat.new.me ≡ (finding seat.old.me.0 (1 ∷ []), []) }
    {
        let shared = &self.table.shared;
        let found = shared.compare_exchange::<Acquire>(seat, LOCK, FREE, HELD);
        found == FREE
    }

    // The same, and the value stays in its slot.
    pub(crate) fn try_close(&self, seat: &mut Seat<Option<T>, View<T::Entry>>) -> bool
        requires { (seat.old.table_id ≡ self.now.table.shared.table_id) × IsIdle seat.old.me }
        ensures same { IsSameSeat seat.old seat.new }
        ensures closed { result ≡ true → (history : _) × (seat.new.me ≡ (closing (finding seat.old.me.0 (0 ∷ [])) history, [])) }
        ensures busy { result ≡ false → seat.new.me ≡ (finding seat.old.me.0 (1 ∷ []), []) }
    {
        let shared = &self.table.shared;
        let word = shared.compare_exchange::<CloseOff>(seat, LOCK, FREE, HELD);
        word == FREE
    }

    pub(crate) fn wait_for_lock<R: Wait>(&self, rt: &R, seat: &mut Seat<Option<T>, View<T::Entry>>)
        requires { (seat.old.table_id ≡ self.now.table.shared.table_id) × IsIdle seat.old.me }
        ensures same { IsSameSeat seat.old seat.new }
        ensures taken { (n : ℕ) × HasTaken T.history T.owner T.fixed T.marks (finding seat.old.me.0 (replicate n 1 ++ 0 ∷ [])) seat.new.me }
    {
        for _ in rt.forever() {
            if self.try_lock(seat) {
                return;
            }
            self.table.shared.park(rt, LOCK, HELD as u32);
        }
        unreachable!()
    }

    // Makes a play, puts the value back, stores the length of its history, and frees the lock. The number after the play is answered beside.
    pub(crate) fn finish(
        &self,
        alloc: Global,
        seat: &mut Seat<Option<T>, View<T::Entry>>,
        number: u64,
        job: T::Job,
    ) -> (Acted<T::Answer>, u64)
        requires table { seat.old.table_id ≡ self.now.table.shared.table_id }
        requires number { number ≡ seat.old.me.0.number }
        requires holding { IsHolding T.history T.fixed T.marks seat.old.me }
        ensures same { IsSameSeat seat.old seat.new }
        ensures number { result.1 ≡ seat.new.me.0.number }
        ensures played { HasFinished T.owner T.plays seat.old.me.0 job result.0.answer result.0.point seat.new.me }
    {
        let shared = &self.table.shared;
        let mut kept = shared.exchange(seat, SLOT, None).unwrap();
        let Played { answer, number } = kept.play(alloc, number, job);
        let point = kept.count();
        let empty = shared.exchange(seat, SLOT, Some(kept));
        let None = empty else { unreachable!() };
        self.note_count(seat, point);
        self.let_go(seat);
        (Acted { answer, point }, number)
    }

    // Stores the length of the history.
    fn note_count(&self, seat: &mut Seat<Option<T>, View<T::Entry>>, count: u64)
        requires table { seat.old.table_id ≡ self.now.table.shared.table_id }
        requires played { (played : HasPlayed T.history T.owner T.fixed seat.old.me) × (count ≡ length (T.history played.kept)) }
        ensures same { IsSameSeat seat.old seat.new }
        ensures counted { Recounted T.history T.owner T.marks seat.old.me seat.new.me }
    {
        self.table.shared.store::<Recount>(seat, COUNT, count);
    }

    // Frees the lock, and wakes one that waits for it.
    fn let_go(&self, seat: &mut Seat<Option<T>, View<T::Entry>>)
        requires table { seat.old.table_id ≡ self.now.table.shared.table_id }
        requires counted { HasCounted T.history T.fixed seat.old.me }
        ensures same { IsSameSeat seat.old seat.new }
        ensures released { seat.new.me ≡ (released seat.old.me.0, []) }
    {
        self.table.shared.store::<Free>(seat, LOCK, FREE);
        self.table.shared.wake_one(LOCK);
    }

    // Loads the length of the history, and has then seen it.
    pub(crate) fn look(&self, seat: &mut Seat<Option<T>, View<T::Entry>>) -> u64
        requires { (seat.old.table_id ≡ self.now.table.shared.table_id) × (seat.old.me.0.spent ≡ false) }
        ensures same { IsSameSeat seat.old seat.new }
        ensures seen { HasSeen T.owner seat.old.me result seat.new.me }
    {
        self.table.shared.load::<Look>(seat, COUNT)
    }
    // Another seat, which has seen what this one has.
    pub(crate) fn fork(
        &self,
        seat: &mut Seat<Option<T>, View<T::Entry>>,
    ) -> Seat<Option<T>, View<T::Entry>>
        requires { (seat.old.table_id ≡ self.now.table.shared.table_id) × (seat.old.me.0.spent ≡ false) }
        ensures same { IsSameSeat seat.old seat.new × (seat.new.me ≡ seat.old.me) }
        ensures made { (result.table_id ≡ seat.old.table_id) × (result.me ≡ (successor seat.old.me.0, [])) }
    {
        self.table.shared.split_seat::<Fork>(seat)
    }

    // Takes in what another seat knows, before the history is looked at.
    pub(crate) fn take_in(
        &self,
        seat: &mut Seat<Option<T>, View<T::Entry>>,
        other: Seat<Option<T>, View<T::Entry>>,
    )
        requires this { (seat.old.table_id ≡ self.now.table.shared.table_id) × (seat.old.me.0.spent ≡ false) }
        requires other { (other.table_id ≡ self.now.table.shared.table_id) × IsIdle other.me }
        ensures same { IsSameSeat seat.old seat.new }
        ensures taken_in { seat.new.me ≡ (taking_in seat.old.me.0 other.me.0, seat.old.me.1) }
    {
        self.table.shared.join_seat::<TakeIn>(seat, other);
    }
}
