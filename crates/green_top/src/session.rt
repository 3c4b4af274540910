//! One session from a source to a sink.
ghost use Rattle.std.specs.Prelude.{◌≡◌, []};
ghost use Rattle.world_rules.specs.History.{is_live};
ghost use Rattle.green_top.specs.Outcome.{IsRun};
ghost use Rattle.green_top.specs.inside.Conversation.{io_by, state_by, IsGreeted, HasBegun, IsConversed, IsSession};
ghost use Rattle.green_top.specs.inside.Play.{Leads, HasSat, HasServed};

use crate::exchange::{Closing, Talk, answer_next, take_next};
use crate::plays::{Beginning, PlaySession};
use crate::session_end::SessionEnd;
use febe_data::List;
use febe_feed::Feed;
use green_io::{Clock, Sink, Source};
use green_session::{Put, Turns, put_bytes};
use std::alloc::Global;

/// Once a session has given so many bytes, no more are read.
pub const MOST_INPUT: u64 = 1_099_511_627_776;

/// What a session came to.
#[derive(Drop)]
pub(crate) struct Served {
    pub(crate) end: SessionEnd,
    /// The number of entries after each reply, one point a reply.
    pub(crate) points: List<u64>,
    /// How many bytes the source gave.
    pub(crate) bytes_read: u64,
}

/// Greets the session, and answers its requests as they come, up to a quit or what else ends it.
fn converse<P: PlaySession, C: Clock, S: Source, K: Sink>(
    alloc: Global,
    player: &P,
    first: &mut P::First,
    second: &mut P::Second,
    clock: &mut C,
    source: &mut S,
    sink: &mut K,
    talk: &mut Talk,
) -> Closing
    requires ready { P.ready player.now first.old second.old }
    requires begun { HasBegun (P.number first.old) (state_by P.seen P.faults S.left S.fault_count K.taken K.fault_count first.old second.old source.old sink.old talk.old) }
    ensures ready { P.ready player.now first.new second.new }
    ensures limits { P.limits first.new ≡ P.limits first.old }
    ensures number { P.number first.new ≡ P.number first.old }
    ensures conversed { let state = state_by P.seen P.faults S.left S.fault_count K.taken K.fault_count in
        (exchanges : _) × IsConversed (P.limits first.old) (P.number first.old) (state first.old second.old source.old sink.old talk.old) (state first.new second.new source.new sink.new talk.new) exchanges result.end
        × Leads P.tells P.tended result.end first.old second.old (C.coming clock.old) exchanges first.new second.new (C.coming clock.new) }
    ensures live { is_live (P.seen first.new second.new) (P.number first.new) ≡ result.live }
{
    match put_bytes(sink, b"P0~") {
        Put::Done => {}
        Put::WriteFault => return Closing {
            end: SessionEnd::WriteFault,
            live: true,
        },
        Put::Memory => unreachable!(),
    }
    loop {
        let closing = answer_next(alloc, player, first, second, clock, source, sink, talk);
        if let Some(closing) = closing {
            return closing;
        }
    }
}

/// Begins a session that has sent its greeting, and ends it whatever came of it.
fn run_session<P: PlaySession, C: Clock, S: Source, K: Sink>(
    alloc: Global,
    player: &P,
    first: &mut P::First,
    second: &mut P::Second,
    clock: &mut C,
    source: &mut S,
    sink: &mut K,
    talk: &mut Talk,
) -> SessionEnd
    requires ready { P.ready player.now first.old second.old }
    requires unnumbered { P.number first.old ≡ 0 }
    requires no_points { talk.old.points.items ≡ [] }
    requires greeted { IsGreeted (state_by P.seen P.faults S.left S.fault_count K.taken K.fault_count first.old second.old source.old sink.old talk.old) }
    ensures ready { P.ready player.now first.new second.new }
    ensures session { let state = state_by P.seen P.faults S.left S.fault_count K.taken K.fault_count in
        (exchanges : _) × IsSession (P.limits first.old) (P.number first.new) (state first.old second.old source.old sink.old talk.old) (state first.new second.new source.new sink.new talk.new) exchanges result
        × HasSat P.seen P.number P.begun P.tells P.tended P.ended result first.old second.old (C.coming clock.old) exchanges first.new second.new (C.coming clock.new) }
{
    match player.begin(alloc, first, second, clock) {
        Beginning::Begun => {}
        Beginning::NoNumber => return SessionEnd::NoNumber,
        Beginning::Memory => return SessionEnd::Memory,
    }
    let Closing { end, live } = converse(alloc, player, first, second, clock, source, sink, talk);
    // A quit has ended the session: nothing is left to be done.
    let over = !live;
    if over {
        return end;
    }
    player.end(alloc, first, second, clock);
    end
}

/// Serves one session, which has no number yet.
pub(crate) fn serve<P: PlaySession, C: Clock, S: Source, K: Sink>(
    alloc: Global,
    player: &P,
    first: &mut P::First,
    second: &mut P::Second,
    clock: &mut C,
    source: &mut S,
    sink: &mut K,
) -> Served
    requires ready { P.ready player.now first.old second.old }
    requires unnumbered { P.number first.old ≡ 0 }
    ensures ready { P.ready player.now first.new second.new }
    ensures run { let io = io_by S.left S.fault_count K.taken K.fault_count in
        (exchanges : _) × IsRun (P.limits first.old) (P.number first.new) (io source.old sink.old (P.faults first.old second.old)) (io source.new sink.new (P.faults first.new second.new)) (P.seen first.new second.new) exchanges result.points.items result.bytes_read result.end
        × HasServed P.seen P.number P.begun P.tells P.tended P.ended result.end first.old second.old (C.coming clock.old) exchanges first.new second.new (C.coming clock.new) }
{
    let mut feed = Feed::new(alloc);
    let mut turns = Turns::new(MOST_INPUT);
    let points = List::new(alloc);
    match take_next(alloc, source, &mut feed, &mut turns) {
        Ok(None) => {}
        Ok(Some(_)) => unreachable!(),
        Err(end) => {
            let bytes_read = turns.taken();
            return Served {
                end,
                points,
                bytes_read,
            };
        }
    }
    let mut talk = Talk {
        feed,
        turns,
        points,
    };
    let end = run_session(alloc, player, first, second, clock, source, sink, &mut talk);
    let Talk {
        feed: _feed,
        turns,
        points,
    } = talk;
    let bytes_read = turns.taken();
    Served {
        end,
        points,
        bytes_read,
    }
}
