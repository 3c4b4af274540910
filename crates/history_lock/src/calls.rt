//! What can be done with a lock and its passes.
ghost use Rattle.std.specs.Prelude.{◌≡◌, ℕ, [], ◌∷◌, ◌++◌, replicate, IfOk, IfErr};
ghost use Rattle.history_lock.specs.Passes.{known, IsPassOf, MatchTried, newcomer, finding, all_ended, AreApart, HasActed, HasLooked, HasTakenIn, Fits};

use crate::kept::Kept;
use crate::lock::{HistoryLock, SLOT};
use crate::pass::{Pass, Token};
use crate::tried::{Acted, Trial, Tried};
use atomic_table::{Refused, Table};
use std::alloc::Global;
use std::snapshot::Snapshot;
use std::sync::Wait;

impl<T: Kept> HistoryLock<T> {
    /// The lock, and a pass that has no number and has seen the value's history. The value comes back for want of memory.
    pub fn new(alloc: Global, kept: T) -> Result<(HistoryLock<T>, Pass<T>), T>
        ensures ok { IfOk result (λ made. IsPassOf made.0 made.1 × (known made.1 ≡ newcomer (T.history kept) (T.fixed kept))) }
        ensures err { IfErr result (λ back. back ≡ kept) }
    {
        let count = kept.count();
        let about = Snapshot::of(&kept);
        let Ok(mut slots) = Vec::with_capacity(alloc, 1) else {
            return Err(kept);
        };
        slots.push_reserved(Some(kept));
        match Table::new(alloc, &[0, count], slots, &about) {
            Ok((table, seat)) => Ok((HistoryLock { table }, Token { number: 0, seat })),
            Err(Refused { mut slots }) => {
                let kept = slots.pop().unwrap().unwrap();
                slots.destroy_empty();
                Err(kept)
            }
        }
    }

    /// Another pass, with no number, which has seen what the given one has. It takes no memory.
    pub fn new_pass(&self, from: &mut Pass<T>) -> Pass<T>
        requires { IsPassOf self.now from.old }
        ensures made { IsPassOf self.now result × (known result ≡ newcomer (known from.old).seen (known from.old).fixed) }
        ensures same { IsPassOf self.now from.new × (known from.new ≡ known from.old) }
    {
        let seat = self.fork(&mut from.seat);
        let number = 0;
        Token { number, seat }
    }

    /// Waits until it has the lock, and makes a play for the pass's number.
    pub fn act<R: Wait>(
        &self,
        rt: &R,
        alloc: Global,
        pass: &mut Pass<T>,
        job: T::Job,
    ) -> Acted<T::Answer>
        requires { IsPassOf self.now pass.old }
        ensures same_lock { IsPassOf self.now pass.new }
        ensures acted { (n : ℕ) × HasActed T.owner T.plays (known pass.old) job result.answer result.point (replicate n 1 ++ 0 ∷ []) (known pass.new) }
    {
        self.wait_for_lock(rt, &mut pass.seat);
        let (acted, number) = self.finish(alloc, &mut pass.seat, pass.number, job);
        pass.number = number;
        acted
    }

    /// The same, unless its one exchange finds the lock held: then the job comes back. It does not wait.
    pub fn try_act(&self, alloc: Global, pass: &mut Pass<T>, job: T::Job) -> Tried<T>
        requires { IsPassOf self.now pass.old }
        ensures same_lock { IsPassOf self.now pass.new }
        ensures tried { MatchTried result (λ acted. HasActed T.owner T.plays (known pass.old) job acted.answer acted.point (0 ∷ []) (known pass.new)) (λ back. (back ≡ job) × (known pass.new ≡ finding (known pass.old) (1 ∷ []))) }
    {
        if !self.try_lock(&mut pass.seat) {
            return Trial::Busy(job);
        }
        let (acted, number) = self.finish(alloc, &mut pass.seat, pass.number, job);
        pass.number = number;
        Trial::Done(acted)
    }

    /// The length of the history, all of which the pass has then seen. It takes no memory and does not wait.
    pub fn front(&self, pass: &mut Pass<T>) -> u64
        requires { IsPassOf self.now pass.old }
        ensures same_lock { IsPassOf self.now pass.new }
        ensures looked { HasLooked T.owner (known pass.old) result (known pass.new) }
    {
        self.look(&mut pass.seat)
    }

    /// Ends a pass. The other keeps its number and entries, and has then seen the history.
    pub fn end_pass(&self, into: &mut Pass<T>, pass: Pass<T>)
        requires into { IsPassOf self.now into.old }
        requires pass { IsPassOf self.now pass }
        ensures same_lock { IsPassOf self.now into.new }
        ensures taken_in { HasTakenIn T.owner (known into.old) (known pass) (known into.new) }
    {
        let Token { number: _, seat } = pass;
        self.take_in(&mut into.seat, seat);
        self.look(&mut into.seat);
    }

    /// Ends the lock. The lock and the pass come back where its one exchange finds the lock held. It does not wait.
    pub fn into_inner(self, pass: Pass<T>) -> Result<T, (HistoryLock<T>, Pass<T>)>
        requires { IsPassOf self pass }
        ensures ok { IfOk result (λ kept. Fits T.owner (T.history kept) (T.fixed kept) (known pass)) }
        ensures apart { IfOk result (λ _. AreApart (all_ended (known pass))) }
        ensures err { IfErr result (λ back. (back.0 ≡ self) × IsPassOf back.0 back.1 × (known back.1 ≡ finding (known pass) (1 ∷ []))) }
    {
        let Token { number, mut seat } = pass;
        if !self.try_close(&mut seat) {
            return Err((self, Token { number, seat }));
        }
        let HistoryLock { table } = self;
        let mut closed = table.close_with(seat);
        let kept = closed.take(SLOT).unwrap();
        closed.free();
        Ok(kept)
    }
}
