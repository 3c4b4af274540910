//! Reading requests from a source.
ghost use Rattle.std.specs.Prelude.{◌≡◌, ◌≤◌, ◌+◌, ◌^◌, ◌-◌, min, ℕ};
ghost use Rattle.green_session.specs.Taking.{TurnsView, read_state, IsTaken};
ghost use Rattle.green_session.specs.inside.Turns.{AreTurns};
ghost use Rattle.green_session.specs.inside.InputEnd.{answer_at_end};

use febe_data::Request;
use febe_feed::{Feed, Next};
use green_io::{ReadAnswer, Source};
use std::alloc::Global;
use std::marker::Model;

/// How many bytes may be taken, and how many the source gave.
#[derive(Clone, Copy, Debug, PartialEq, Eq)]
pub struct Turns {
    limit: u64,
    /// How many bytes the source gave, or the greatest number.
    taken: u64,
}

impl Model for Turns {
    ghost Value = { TurnsView };

    ghost view = { λ t. record { limit = t.limit; taken = t.taken } };

    ghost invariant = { λ t. AreTurns t.limit t.taken };

    ghost inverse = { λ v. record { limit = v.limit; taken = v.taken } };
}

impl Turns {
    /// So many bytes, and no read is made once as many were taken. The last read may take up to 4,095 more.
    pub fn new(limit: u64) -> Turns
        ensures { result ≡ record { limit = limit; taken = 0 } }
    {
        Turns { limit, taken: 0 }
    }

    /// How many bytes the source gave with these turns, or the greatest number.
    pub fn taken(&self) -> u64
        ensures { result ≡ self.now.taken }
    {
        self.taken
    }
}

/// What was taken from a source.
#[derive(Debug, Drop)]
pub enum Taken {
    Greeting,
    Request(Request),
    /// The input ends before its first byte or between requests.
    End,
    /// The byte at this offset can't stand there.
    Malformed { at: u64 },
    /// The input ends within the greeting or a request, after so many bytes.
    Truncated { at: u64 },
    /// The source failed.
    ReadFault,
    /// There was no memory left.
    Memory,
    /// As many bytes as the turns allow were taken, or more, and another read is needed.
    Budget,
}

/// Takes what comes next in the input, and reads the source as far as that needs.
pub fn take_request<S: Source>(
    alloc: Global,
    source: &mut S,
    feed: &mut Feed,
    turns: &mut Turns,
) -> Taken
    ensures taken { IsTaken (read_state (S.left source.old) (S.fault_count source.old) feed.old turns.old) (read_state (S.left source.new) (S.fault_count source.new) feed.new turns.new) result }
{
    loop {
        match feed.next(alloc) {
            Ok(Next::NotYet) => {}
            Ok(Next::Greeting) => return Taken::Greeting,
            Ok(Next::Request(request)) => return Taken::Request(request),
            Ok(Next::Bad { at }) => return Taken::Malformed { at },
            Err(_) => return Taken::Memory,
        }
        if turns.taken >= turns.limit {
            return Taken::Budget;
        }
        let Ok(mut piece) = feed.take_room(alloc) else {
            return Taken::Memory;
        };
        match source.read(&mut *piece) {
            ReadAnswer::Got(n) => {
                turns.taken = turns.taken.saturating_add(n as u64);
                if feed.push(alloc, piece.split_at(n).0).is_err() {
                    return Taken::Memory;
                }
                feed.give_back_room(piece);
            }
            ReadAnswer::End => return answer_at_end(feed),
            ReadAnswer::Failed => return Taken::ReadFault,
        }
    }
}

/// What came where the input has ended.
fn answer_at_end(feed: &Feed) -> Taken
    ensures { result ≡ answer_at_end feed.now }
{
    if feed.held() == 0 {
        return Taken::End;
    }
    Taken::Truncated { at: feed.end() }
}
