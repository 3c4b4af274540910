//! What is done with each connection.
ghost use Rattle.std.specs.Prelude.{◌≡◌};
ghost use Rattle.history_lock.specs.Histories.{StartsWith};
ghost use Rattle.history_lock.specs.Passes.{known, IsPassOf};

use crate::clocks::MakeClock;
use febe_data::List;
use green_io::{Clock, Disk, StdSink, StdSource};
use green_store::Housed;
use green_top::{background_round, serve_session};
use history_lock::{HistoryLock, Pass};
use log::{Log, info};
use session_pool::Serve;
use std::alloc::Global;
use std::net::TcpStream;
use std::sync::Wait;

/// Serves a session on each connection, with a clock of its own, and logs a line where it ends.
#[derive(Clone, Copy, Drop)]
pub(crate) struct Sessions<O> {
    /// Where the lines go, and from where clocks come.
    pub(crate) rt: O,
    /// Whether a background round follows each session, since no thread makes them.
    pub(crate) makes_rounds: bool,
}

/// Serves one session on a connection, however it ends. Replies are sent as soon as they are written.
fn serve_connection<R: Wait, C: Clock, D: Disk>(
    rt: &R,
    alloc: Global,
    lock: &HistoryLock<Housed<D>>,
    pass: &mut Pass<Housed<D>>,
    clock: &mut C,
    connection: &TcpStream,
)
    requires lock { IsPassOf lock.now pass.old }
    requires new { (known pass.old).number ≡ 0 }
    ensures same_lock { IsPassOf lock.now pass.new }
    ensures seen { StartsWith (known pass.new).seen (known pass.old).seen }
{
    // A connection that goes on delaying what it sends is served all the same.
    let _ = connection.set_nodelay(true);
    let mut source = StdSource::new(connection);
    let mut sink = StdSink::new(connection);
    let mut points = List::new(alloc);
    let _end = serve_session(
        rt,
        alloc,
        lock,
        pass,
        clock,
        &mut source,
        &mut sink,
        &mut points,
    );
}

impl<D: Disk, O: MakeClock + Log> Serve<HistoryLock<Housed<D>>, TcpStream> for Sessions<O> {
    type Tally = u64;

    ghost count = { λ tally. tally };

    fn tally(&self) -> u64 {
        0
    }

    fn serve<R: Wait>(
        &self,
        rt: &R,
        alloc: Global,
        lock: &HistoryLock<Housed<D>>,
        pass: &mut Pass<Housed<D>>,
        job: TcpStream,
        tally: &mut u64,
    ) {
        let mut clock = self.rt.clock();
        serve_connection(rt, alloc, lock, pass, &mut clock, &job);
        info!(self.rt; "session {} ended", pass.number());
        if self.makes_rounds {
            let _round = background_round(rt, alloc, lock, pass, &mut clock);
        }
        *tally = tally.saturating_add(1);
    }

    fn add(&self, into: &mut u64, other: u64) {
        *into = into.saturating_add(other);
    }

    fn served(&self, tally: &u64) -> u64 {
        *tally
    }
}
