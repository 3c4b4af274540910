use crate::{serve_listener, serve_with_rounds};
use febe_data::{Limits, List};
use green_fakes::MemoryDisk;
use green_store::{Housed, Store};
use history_lock::HistoryLock;
use session_pool::OpenGate;
use std::alloc::Global;
use std::io::Write;
use std::net::{SocketAddr, TcpListener, TcpStream};
use std::test::Fail;
use std::{io, thread};

const WRITER: &str =
    "P0~34~0.1.1.0.1~11~0~0.1.1.0.1.0.1~0.1.1~t5:hello5~1~0.1.1.0.1.0.1~1~0.1.1~1.5~16~";

const WRITER_REPLIES: &str = "P0~34~11~0.1.1.0.1.0.1~0~5~1~t5:hello16~";

const READER: &str = "P0~34~0.1.1.0.1~35~0.1.1.0.1.0.1~1~1~5~1~0.1.1.0.1.0.1~1~0.1.1~1.5~16~";

const READER_REPLIES: &str = "P0~34~35~0.1.1.0.1.0.1~5~1~t5:hello16~";

// A store over an empty disk, which never fails.
fn house(alloc: Global) -> Result<Housed<MemoryDisk>, Fail> {
    let limits = Limits::new(1000, 1000, 256)?;
    let mut disk = MemoryDisk::new(alloc, List::new(alloc));
    let store = Store::open(alloc, &mut disk, limits)?;
    Ok(Housed::new(store, disk))
}

// What the server replies to a session that sends all of this.
fn ask(rt: HostRuntime, address: SocketAddr, session: &str) -> io::Result<String> {
    let mut stream = TcpStream::connect(&rt, address)?;
    stream.write_all(session.as_bytes())?;
    io::read_to_string(rt.alloc(), stream)
}

// One session after another.
fn ask_in_turn(rt: HostRuntime, address: SocketAddr) -> io::Result<(String, String)> {
    let first = ask(rt, address, WRITER)?;
    let second = ask(rt, address, READER)?;
    Ok((first, second))
}

// A session beside one that breaks off in the middle of a request.
fn ask_beside_broken(rt: HostRuntime, address: SocketAddr) -> io::Result<String> {
    let mut broken = TcpStream::connect(&rt, address)?;
    broken.write_all(b"P0~34~0.1.1.0.2~11~0~0.1.1")?;
    let mut whole = TcpStream::connect(&rt, address)?;
    whole.write_all(WRITER.as_bytes())?;
    drop(broken);
    io::read_to_string(rt.alloc(), whole)
}

#[test]
fn two_clients_in_turn(rt: HostRuntime) -> Result<(), Fail> {
    let Ok((lock, mut pass)) = HistoryLock::new(rt.alloc(), house(rt.alloc())?) else {
        panic!(rt; "there is memory for a lock")
    };
    let listener = TcpListener::bind(&rt, "127.0.0.1:0")?;
    let address = listener.local_addr()?;
    let clients = thread::spawn(&rt, move || ask_in_turn(rt, address)).map_err(|_| "no thread")?;
    let served = serve_listener(
        &rt,
        rt.alloc(),
        listener,
        Some(2),
        2,
        &lock,
        &mut pass,
        &OpenGate,
    );
    assert!(rt; served == 2);
    let (first, second) = clients.join(&rt)?;
    assert!(rt; first.as_str() == WRITER_REPLIES);
    assert!(rt; second.as_str() == READER_REPLIES);
    Ok(())
}

#[test]
fn one_client_breaks_off(rt: HostRuntime) -> Result<(), Fail> {
    let Ok((lock, mut pass)) = HistoryLock::new(rt.alloc(), house(rt.alloc())?) else {
        panic!(rt; "there is memory for a lock")
    };
    let listener = TcpListener::bind(&rt, "127.0.0.1:0")?;
    let address = listener.local_addr()?;
    let clients = thread::spawn(&rt, move || ask_beside_broken(rt, address)).map_err(
        |_| "no thread",
    )?;
    let served = serve_with_rounds(
        &rt,
        rt.alloc(),
        listener,
        Some(2),
        2,
        &lock,
        &mut pass,
        &OpenGate,
    );
    assert!(rt; served == 2);
    assert!(rt; clients.join(&rt)?.as_str() == WRITER_REPLIES);
    Ok(())
}

#[test]
fn a_listener_that_gives_no_connection(rt: HostRuntime) -> Result<(), Fail> {
    let Ok((lock, mut pass)) = HistoryLock::new(rt.alloc(), house(rt.alloc())?) else {
        panic!(rt; "there is memory for a lock")
    };
    let listener = TcpListener::bind(&rt, "127.0.0.1:0")?;
    // No client comes, and nothing is waited for.
    listener.set_nonblocking(true)?;
    let served = serve_listener(
        &rt,
        rt.alloc(),
        listener,
        Some(1),
        1,
        &lock,
        &mut pass,
        &OpenGate,
    );
    assert!(rt; served == 0);
    Ok(())
}
