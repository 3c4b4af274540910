//! A server on a listener.
ghost use Rattle.std.specs.Prelude.{◌≡◌};
ghost use Rattle.std.specs.Thread.{IsSync, IsSend};
ghost use Rattle.history_lock.specs.Histories.{StartsWith};
ghost use Rattle.history_lock.specs.Passes.{known, IsPassOf};
ghost use Rattle.green_listener.specs.Listened.{HasListened};

use crate::clocks::MakeClock;
use crate::connections::Connections;
use crate::rounds::{ENDED, SERVING, start_rounds};
use crate::sessions::Sessions;
use green_io::Disk;
use green_store::Housed;
use history_lock::{HistoryLock, Pass};
use log::Log;
use session_pool::{Gate, Serve, run_pool};
use std::alloc::Global;
use std::net::{TcpListener, TcpStream};
use std::sync::Wait;
use std::sync::atomic::AtomicU64;
use std::sync::atomic::Ordering::SeqCst;
use std::thread;
use std::thread::Threads;
use std::time::Clock;

// What is to be served, and in how many threads.
#[derive(Drop)]
struct Service {
    listener: TcpListener,
    sessions: Option<u32>,
    workers: u32,
}

// Serves the connections, with a round behind each session where no thread makes them.
fn serve_connections<
    R: Threads + Wait + MakeClock + Log + Sync,
    D: Disk + Send + Sync,
    G: Gate + Sync,
>(
    rt: &R,
    alloc: Global,
    service: Service,
    lock: &HistoryLock<Housed<D>>,
    pass: &mut Pass<Housed<D>>,
    gate: &G,
    makes_rounds: bool,
) -> u64
    requires { IsPassOf lock.now pass.old }
    ensures { HasListened lock.now pass.old result pass.new }
{
    let Service {
        listener,
        sessions,
        workers,
    } = service;
    let mut connections = Connections::new(listener, sessions);
    let worker = Sessions { rt, makes_rounds };
    let tally = run_pool(
        rt,
        alloc,
        lock,
        pass,
        workers,
        &mut connections,
        &worker,
        gate,
    );
    <Sessions<&R> as Serve<HistoryLock<Housed<D>>, TcpStream>>::served(&worker, &tally)
}

/// Accepts connections and serves a session on each, in as many threads as could be started of those that are asked for. It
/// returns after the stated number of sessions, or where a thousand connections in a row could not be accepted, once every
/// session that was begun is over, and answers how many connections it served. Each session's end is logged in a line, as
/// `session 3 ended`; where no session began the number is 0. Each session has a clock of its own.
///
/// It makes no background rounds.
pub fn serve_listener<
    R: Threads + Wait + MakeClock + Log + Sync,
    D: Disk + Send + Sync,
    G: Gate + Sync,
>(
    rt: &R,
    alloc: Global,
    listener: TcpListener,
    sessions: Option<u32>,
    workers: u32,
    lock: &HistoryLock<Housed<D>>,
    pass: &mut Pass<Housed<D>>,
    gate: &G,
) -> u64
    requires { IsPassOf lock.now pass.old }
    ensures { HasListened lock.now pass.old result pass.new }
{
    let service = Service {
        listener,
        sessions,
        workers,
    };
    serve_connections(rt, alloc, service, lock, pass, gate, false)
}

// What comes out of a scope in which sessions were served.
#[derive(Drop)]
struct Served<P> {
    pass: P,
    count: u64,
}

// Serves the connections in a scope, beside a thread that makes rounds with the other pass.
fn serve_beside_rounds<
    'a,
    R: Threads + Wait + Clock + MakeClock + Log + Sync,
    D: Disk + Send + Sync,
    G: Gate + Sync,
>(
    rt: &'a R,
    alloc: Global,
    service: Service,
    lock: &'a HistoryLock<Housed<D>>,
    pass: Pass<Housed<D>>,
    background: Pass<Housed<D>>,
    gate: &'a G,
    state: &'a AtomicU64,
) -> Served<Pass<Housed<D>>>
    requires pass { IsPassOf lock.now pass }
    requires background { IsPassOf lock.now background }
    ensures { HasListened lock.now pass result.count result.pass }
{
    thread::scope(
        thread::scope_env(),
        rt,
        move |scope| -> Served<Pass<Housed<D>>>
            requires rows { IsSync R.row × IsSync D.row × IsSend D.row × IsSync G.row }
            requires pass { IsPassOf lock.now pass }
            requires background { IsPassOf lock.now background }
            ensures { HasListened lock.entry.now pass result.count result.pass }
        {
            let has_rounds = start_rounds(scope, rt, alloc, lock, background, state);
            let mut pass = pass;
            let count = serve_connections(rt, alloc, service, lock, &mut pass, gate, !has_rounds);
            state.store(ENDED, SeqCst);
            Served { pass, count }
        },
    )
}

/// Serves a listener as [`serve_listener`] does, beside a thread that makes background rounds until the sessions have ended.
/// If the system gives it no such thread, it makes a round itself behind each session.
pub fn serve_with_rounds<
    R: Threads + Wait + Clock + MakeClock + Log + Sync,
    D: Disk + Send + Sync,
    G: Gate + Sync,
>(
    rt: &R,
    alloc: Global,
    listener: TcpListener,
    sessions: Option<u32>,
    workers: u32,
    lock: &HistoryLock<Housed<D>>,
    pass: &mut Pass<Housed<D>>,
    gate: &G,
) -> u64
    requires { IsPassOf lock.now pass.old }
    ensures served { HasListened lock.now pass.old result pass.new }
    ensures seen { StartsWith (known pass.new).seen (known pass.old).seen }
{
    let own = lock.new_pass(pass);
    let background = lock.new_pass(pass);
    let state = AtomicU64::new(SERVING);
    let service = Service {
        listener,
        sessions,
        workers,
    };
    let served = serve_beside_rounds(rt, alloc, service, lock, own, background, gate, &state);
    let Served { pass: own, count } = served;
    lock.end_pass(pass, own);
    count
}
