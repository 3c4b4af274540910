//! Who plays a session's steps: a store beside its disk, or a pass beside its lock.
ghost use Rattle.std.specs.Prelude.{◌≡◌, ◌≤◌, ℕ, true, List};
ghost use Rattle.febe_data.specs.LimitsView.{LimitsView};
ghost use Rattle.febe_data.specs.Plain.{PlainEntry, plain_request, plain_reply};
ghost use Rattle.febe_data.specs.Validity.{IsRequest, IsReply};
ghost use Rattle.world_rules.specs.History.{is_live};
ghost use Rattle.world_rules.specs.Legal.{Exchange};
ghost use Rattle.green_top.specs.Times.{Coming};
ghost use Rattle.green_top.specs.inside.Play.{BeginIs, EndsAt, HasReplied};

use febe_data::{Reply, Request};
use green_io::Clock;
use std::alloc::Global;

/// What came of a Begin.
#[derive(Clone, Copy, Debug, PartialEq, Eq)]
pub(crate) enum Beginning {
    Begun,
    /// Each number is taken.
    NoNumber,
    /// There was no memory left.
    Memory,
}

/// A reply, and the number of entries in the history behind it.
#[derive(Drop)]
pub(crate) struct Replied {
    pub(crate) reply: Reply,
    pub(crate) point: u64,
}

/// A player of one session at a time. What changes from step to step are a first and a second: a store with the session's
/// number, and its disk; or a pass, and nothing. It asks the clock once for each step that it makes, before the step.
pub(crate) trait PlaySession {
    type First;

    type Second;

    // The first and the second belong to the player.
    ghost ready: { Self → Self.First → Self.Second → Type 0 };

    // The history, as far as it was seen.
    ghost seen: { Self.First → Self.Second → List PlainEntry };

    // The disk's count of faults; 0 where no disk is seen.
    ghost faults: { Self.First → Self.Second → ℕ };

    // The session's number; 0 where none has begun.
    ghost number: { Self.First → ℕ };

    // What the history may hold.
    ghost limits: { Self.First → LimitsView };

    // What each step tells beside what all players promise, with what the clock was to give before and behind it: a Begin, a
    // request with its exchange, what is done between requests, and an End.
    ghost begun: { Self.First → Self.Second → Coming → Self.First → Self.Second → Coming → Type 0 };

    ghost tells: { Self.First → Self.Second → Coming → Exchange → Self.First → Self.Second → Coming → Type 0 };

    ghost tended: { Self.First → Self.Second → Coming → Self.First → Self.Second → Coming → Type 0 };

    ghost ended: { Self.First → Self.Second → Coming → Self.First → Self.Second → Coming → Type 0 };

    /// Begins a session.
    fn begin<C: Clock>(
        &self,
        alloc: Global,
        first: &mut Self::First,
        second: &mut Self::Second,
        clock: &mut C,
    ) -> Beginning
        requires ready { ready self.now first.old second.old }
        requires unnumbered { number first.old ≡ 0 }
        ensures ready { ready self.now first.new second.new }
        ensures limits { limits first.new ≡ limits first.old }
        ensures never_falls { faults first.old second.old ≤ faults first.new second.new }
        ensures begins { BeginIs (seen first.old second.old) (number first.new) (seen first.new second.new) result }
        ensures begun { begun first.old second.old (C.coming clock.old) first.new second.new (C.coming clock.new) };

    /// Asks a request of the session.
    fn ask<C: Clock>(
        &self,
        alloc: Global,
        first: &mut Self::First,
        second: &mut Self::Second,
        clock: &mut C,
        request: Request,
    ) -> Replied
        requires ready { ready self.now first.old second.old }
        requires live { is_live (seen first.old second.old) (number first.old) ≡ true }
        requires valid { IsRequest (plain_request request) }
        ensures ready { ready self.now first.new second.new }
        ensures limits { limits first.new ≡ limits first.old }
        ensures number { number first.new ≡ number first.old }
        ensures never_falls { faults first.old second.old ≤ faults first.new second.new }
        ensures valid { IsReply (plain_reply result.reply) }
        ensures replied { HasReplied tells (limits first.old) (number first.old) (seen first.old second.old) first.old second.old (C.coming clock.old) (plain_request request) (plain_reply result.reply) result.point (seen first.new second.new) first.new second.new (C.coming clock.new) };

    /// Does what is done once a reply is written.
    fn tend<C: Clock>(
        &self,
        alloc: Global,
        first: &mut Self::First,
        second: &mut Self::Second,
        clock: &mut C,
    )
        requires ready { ready self.now first.old second.old }
        ensures ready { ready self.now first.new second.new }
        ensures limits { limits first.new ≡ limits first.old }
        ensures number { number first.new ≡ number first.old }
        ensures seen { seen first.new second.new ≡ seen first.old second.old }
        ensures never_falls { faults first.old second.old ≤ faults first.new second.new }
        ensures tended { tended first.old second.old (C.coming clock.old) first.new second.new (C.coming clock.new) };

    /// Ends the session, which is live.
    fn end<C: Clock>(
        &self,
        alloc: Global,
        first: &mut Self::First,
        second: &mut Self::Second,
        clock: &mut C,
    )
        requires ready { ready self.now first.old second.old }
        requires live { is_live (seen first.old second.old) (number first.old) ≡ true }
        ensures ready { ready self.now first.new second.new }
        ensures limits { limits first.new ≡ limits first.old }
        ensures number { number first.new ≡ number first.old }
        ensures never_falls { faults first.old second.old ≤ faults first.new second.new }
        ensures ends { EndsAt (number first.old) (seen first.old second.old) (seen first.new second.new) }
        ensures ended { ended first.old second.old (C.coming clock.old) first.new second.new (C.coming clock.new) };
}
