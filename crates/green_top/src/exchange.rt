//! One request of a session, and its reply.
ghost use Rattle.std.specs.Prelude.{◌≡◌, ◌≢◌, ◌↔◌, true, IsTrue};
ghost use Rattle.febe_data.specs.Plain.{plain_request, quit};
ghost use Rattle.febe_data.specs.Validity.{IsRequest};
ghost use Rattle.world_rules.specs.History.{is_live};
ghost use Rattle.green_session.specs.Taking.{read_state, IsTaken};
ghost use Rattle.green_top.specs.inside.Next.{NextIs};
ghost use Rattle.green_top.specs.inside.Play.{AsksOnce, LeadsOn};
ghost use Rattle.green_top.specs.inside.Progress.{answer_state, HandlesRequest};
ghost use Rattle.green_top.specs.inside.Conversation.{state_by, IsRound};

use crate::plays::{PlaySession, Replied};
use crate::session_end::SessionEnd;
use febe_data::{List, Request};
use febe_feed::Feed;
use green_io::{Clock, Sink, Source};
use green_session::{Put, Taken, Turns, put_reply, take_request};
use std::alloc::Global;

/// What a session was given and has not answered yet, how much it may still be given, and the points of its replies.
#[derive(Drop)]
pub(crate) struct Talk {
    pub(crate) feed: Feed,
    pub(crate) turns: Turns,
    pub(crate) points: List<u64>,
}

/// What came of a reply, and whether the session is live behind it.
#[derive(Drop)]
pub(crate) struct Answered {
    pub(crate) put: Put,
    pub(crate) live: bool,
}

/// How a conversation ended, and whether the session is still live.
#[derive(Drop)]
pub(crate) struct Closing {
    pub(crate) end: SessionEnd,
    pub(crate) live: bool,
}

/// What comes next: the greeting, a request, or what ends the session.
pub(crate) fn take_next<S: Source>(
    alloc: Global,
    source: &mut S,
    feed: &mut Feed,
    turns: &mut Turns,
) -> Result<Option<Request>, SessionEnd>
    ensures next { NextIs (IsTaken (read_state (S.left source.old) (S.fault_count source.old) feed.old turns.old) (read_state (S.left source.new) (S.fault_count source.new) feed.new turns.new)) result }
{
    match take_request(alloc, source, feed, turns) {
        Taken::Greeting => Ok(None),
        Taken::Request(request) => Ok(Some(request)),
        Taken::End => Err(SessionEnd::End),
        Taken::Malformed { at } => Err(SessionEnd::Malformed { at }),
        Taken::Truncated { at } => Err(SessionEnd::Truncated { at }),
        Taken::ReadFault => Err(SessionEnd::ReadFault),
        Taken::Memory => Err(SessionEnd::Memory),
        Taken::Budget => Err(SessionEnd::Budget),
    }
}

fn is_quit(request: &Request) -> bool
    ensures { IsTrue result ↔ (plain_request request.now ≡ quit) }
{
    matches!(request, Request::Quit)
}

/// Answers a request of the session, notes its point and writes its reply. Room for the point is taken first, so that no
/// entry stands without its point.
fn answer_one<P: PlaySession, C: Clock, K: Sink>(
    alloc: Global,
    player: &P,
    first: &mut P::First,
    second: &mut P::Second,
    clock: &mut C,
    request: Request,
    sink: &mut K,
    points: &mut List<u64>,
) -> Answered
    requires ready { P.ready player.now first.old second.old }
    requires live { is_live (P.seen first.old second.old) (P.number first.old) ≡ true }
    requires valid { IsRequest (plain_request request) }
    ensures ready { P.ready player.now first.new second.new }
    ensures limits { P.limits first.new ≡ P.limits first.old }
    ensures number { P.number first.new ≡ P.number first.old }
    ensures answered { (exchanges : _) × HandlesRequest (P.limits first.old) (P.number first.old)
        (answer_state (P.seen first.old second.old) points.old.items (K.taken sink.old) (K.fault_count sink.old) (P.faults first.old second.old))
        (answer_state (P.seen first.new second.new) points.new.items (K.taken sink.new) (K.fault_count sink.new) (P.faults first.new second.new)) (plain_request request) result.put exchanges
        × AsksOnce P.tells first.old second.old (C.coming clock.old) exchanges first.new second.new (C.coming clock.new) }
    ensures live { is_live (P.seen first.new second.new) (P.number first.new) ≡ result.live }
    ensures stays { plain_request request ≢ quit → result.live ≡ true }
{
    let live = !is_quit(&request);
    if points.reserve(1).is_err() {
        return Answered {
            put: Put::Memory,
            live: true,
        };
    }
    let Replied { reply, point } = player.ask(alloc, first, second, clock, request);
    points.push_reserved(point);
    let put = put_reply(alloc, sink, &reply);
    Answered { put, live }
}

/// Takes one request of the session, answers it and writes its reply, or tells what ends the session. Once a reply is written
/// the player does what is then to be done.
pub(crate) fn answer_next<P: PlaySession, C: Clock, S: Source, K: Sink>(
    alloc: Global,
    player: &P,
    first: &mut P::First,
    second: &mut P::Second,
    clock: &mut C,
    source: &mut S,
    sink: &mut K,
    talk: &mut Talk,
) -> Option<Closing>
    requires ready { P.ready player.now first.old second.old }
    requires live { is_live (P.seen first.old second.old) (P.number first.old) ≡ true }
    requires greeted { talk.old.feed.greeted ≡ true }
    ensures ready { P.ready player.now first.new second.new }
    ensures limits { P.limits first.new ≡ P.limits first.old }
    ensures number { P.number first.new ≡ P.number first.old }
    ensures round { let state = state_by P.seen P.faults S.left S.fault_count K.taken K.fault_count in
        (exchanges : _) × IsRound (P.limits first.old) (P.number first.old) (state first.old second.old source.old sink.old talk.old) (state first.new second.new source.new sink.new talk.new) exchanges result
        × LeadsOn P.tells P.tended result first.old second.old (C.coming clock.old) exchanges first.new second.new (C.coming clock.new) }
{
    let request = match take_next(alloc, source, &mut talk.feed, &mut talk.turns) {
        Ok(Some(request)) => request,
        Ok(None) => unreachable!(),
        Err(end) => return Some(Closing { end, live: true }),
    };
    let quits = is_quit(&request);
    let Answered { put, live } = answer_one(
        alloc,
        player,
        first,
        second,
        clock,
        request,
        sink,
        &mut talk.points,
    );
    match put {
        Put::Done => {}
        Put::WriteFault => return Some(Closing {
            end: SessionEnd::WriteFault,
            live,
        }),
        Put::Memory => return Some(Closing {
            end: SessionEnd::Memory,
            live,
        }),
    }
    player.tend(alloc, first, second, clock);
    if quits {
        return Some(Closing {
            end: SessionEnd::Quit,
            live,
        });
    }
    None
}
