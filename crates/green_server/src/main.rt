//! Serves sessions over TCP, all on the files of one folder.
#![tactic(auto)]

ghost use Rattle.std.specs.Prelude.{◌≡◌, ◌≤◌, ◌↔◌, false, IsTrue, MatchOption};

mod lines;
mod refusal;

use febe_data::Limits;
use green_io::FolderDisk;
use green_listener::{MakeClock, serve_with_rounds};
use green_store::{Housed, OpenFault, Store};
use history_lock::HistoryLock;
use lines::ErrorLines;
use log::{Level, Log, Logged, info};
use refusal::Refusal;
use server_words::{ServerWords, read_words, usage};
use session_pool::OpenGate;
use std::alloc::Global;
use std::io::Write;
use std::net::TcpListener;
use std::process::ExitCode;
use std::rt::Env;
use std::sync::Wait;
use std::thread::Threads;
use std::time::Clock;
use std::{env, io, str};
use tumbler::Text;

/// The words of the command line, from the program's name on. Each word has to be UTF-8.
fn words_of(rt: &(impl Env + AllocGlobal)) -> io::Result<Vec<String>> {
    Ok(env::args(rt)?.collect(rt.alloc())?)
}

/// A word as it was read, which was a `str`.
fn word_of(text: &Text) -> &str {
    str::from_utf8(text.as_slice()).unwrap_or("")
}

/// The store of a folder, housed with its disk.
fn open(rt: HostRuntime, folder: &str) -> Result<Housed<FolderDisk>, Refusal> {
    let mut disk = FolderDisk::new(rt, folder)?;
    let limits = Limits::new(4_194_304, 1_073_741_824, 256).unwrap();
    let store = Store::open(rt.alloc(), &mut disk, limits)?;
    Ok(Housed::new(store, disk))
}

/// Says where the server listens. Where the word has port 0, the port that was got stands in its place.
fn announce(rt: HostRuntime, listener: &TcpListener, address: &str) -> io::Result<()> {
    match address.strip_suffix(":0") {
        Some(host) => {
            let port = listener.local_addr()?.port();
            println!(rt; "listening on {host}:{port}")?;
        }
        None => println!(rt; "listening on {address}")?,
    }
    rt.stdout().flush()
}

/// Tells that the address cannot be listened on, or not any longer.
fn not_listening(log: &impl Log, address: &str) -> Refusal {
    info!(log; "cannot listen on {address}");
    Refusal::NotListening
}

/// Whether so many connections are all that the server was to serve. Where no number was asked for they never are.
fn are_all(served: u64, sessions: Option<u32>) -> bool
    ensures { MatchOption sessions (result ≡ false) (λ number. IsTrue result ↔ (number ≤ served)) }
{
    match sessions {
        Some(sessions) => served >= u64::from(sessions),
        None => false,
    }
}

/// Opens the store, listens, and serves until the server is done.
fn serve<R: Threads + Wait + Clock + MakeClock + Log + Sync>(
    rt: HostRuntime,
    runtime: &R,
    words: &ServerWords,
) -> Result<(), Refusal> {
    let housed = open(rt, word_of(&words.folder))?;
    let Ok((lock, mut pass)) = HistoryLock::new(rt.alloc(), housed) else {
        return Err(Refusal::Closed(OpenFault::Memory));
    };
    let address = word_of(&words.address);
    let Ok(listener) = TcpListener::bind(&rt, address) else {
        return Err(not_listening(runtime, address));
    };
    // There is nowhere left to tell of a line that cannot be written.
    let _ = announce(rt, &listener, address);
    let served = serve_with_rounds(
        runtime,
        rt.alloc(),
        listener,
        words.sessions,
        words.workers,
        &lock,
        &mut pass,
        &OpenGate,
    );
    if are_all(served, words.sessions) {
        Ok(())
    } else {
        Err(not_listening(runtime, address))
    }
}

/// Reads the words and serves as they ask.
fn run<R: Threads + Wait + Clock + MakeClock + Log + Sync>(
    rt: HostRuntime,
    runtime: &R,
) -> Result<(), Refusal> {
    let Ok(words) = words_of(&rt) else {
        return Err(Refusal::Usage);
    };
    let words = read_words(rt.alloc(), words.as_slice())?;
    serve(rt, runtime, &words)
}

/// Tells on standard error why the server does not serve.
fn tell(alloc: Global, log: &impl Log, refusal: Refusal) {
    match refusal {
        Refusal::Usage => {
            if let Ok(text) = usage(alloc) {
                info!(log; "{text}");
            }
        }
        Refusal::Closed(fault) => info!(log; "{fault}"),
        // What could not be listened on was told where it was known.
        Refusal::NotListening => {}
    }
}

fn main(rt: HostRuntime) -> ExitCode {
    let runtime = Logged::new(rt, Level::Info, ErrorLines(rt));
    match run(rt, &runtime) {
        Ok(()) => ExitCode::SUCCESS,
        Err(refusal) => {
            tell(rt.alloc(), &runtime, refusal);
            ExitCode::from(refusal.status())
        }
    }
}
