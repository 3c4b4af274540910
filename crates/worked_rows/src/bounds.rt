//! Requests and replies as long as they may be, and longer ones.

use crate::flat_tables::{check_step, most};
use crate::sessions::{Sessions, bytes_of, push_row};
use crate::tables::{BEGINNING, Step};
use febe_data::{Memory, append_number};
use std::alloc::Global;
use std::process::Abort;
use std::test::Fail;
use tumbler::Text;

/// The front of a request, a part that comes behind it so many times, the rest of it, and the reply.
type Long = (
    &'static str,
    &'static str,
    usize,
    &'static str,
    &'static str,
);

/// As many runs as a want may name, where there is a link from the byte that all of them are.
const MOST_RUNS: &[Long] = &[
    ("29~0~1~A~65536~", "0.1.1~1.1~", 65_536, "0~0~", "29~1~"),
    (
        "29~0~1~A~65535~",
        "0.1.1~1.1~",
        65_535,
        "1~A~1~0.1.1~1.1~0~",
        "29~0~",
    ),
];

/// One run more, in another end.
const ONE_RUN_MORE: &[Long] = &[(
    "29~0~1~A~65536~",
    "0.1.1~1.1~",
    65_536,
    "1~A~1~0.1.1~1.1~0~",
    "?11~",
)];

const LINKED: Step = (
    1,
    "0~A~0.1.1~t1:a 27~A~1~A~1~0.1.1~1.1~0~0~",
    "0~ 27~0.1.1.0.1.0.1.0.2.1~",
);

/// Runs that a copy names, where each span is two of them.
const COPIES: &[Long] = &[
    (
        "2~A~0.1.3~1~A~32769~",
        "0.1.1~1.2~",
        32_768,
        "0.1.1~1.1~",
        "?11~",
    ),
    ("2~A~0.1.3~1~A~32768~", "0.1.1~1.2~", 32_768, "", "2~"),
    ("1~A~", "", 0, "", "1~1~0.1.1~1.65538~"),
];

const SWAPPED: Step = (1, "0~A~0.1.1~t2:ab 3~A~3~0.1.1~0.1.2~0.1.3~", "0~ 3~");

/// The text that is retrieved.
const TEXT: &[Long] = &[("0~A~0.1.1~t4096:", "x", 4_096, "", "0~")];

/// A retrieve of 4,096 bytes more than a reply has room for.
const ONE_TEXT_MORE: &[Long] = &[("5~1~A~4097~", "0.1.1~1.4096~", 4_097, "", "?11~")];

/// One byte at the first 513 positions, and another one behind them.
const ONE_BYTE: &[Long] = &[
    ("0~A~0.1.1~t1:b", "", 0, "", "0~"),
    ("2~A~0.1.2~1~A~512~", "0.1.1~1.1~", 512, "", "2~"),
    ("0~A~0.1.514~t1:c", "", 0, "", "0~"),
];

/// Adds the part so many times.
fn push_times(bytes: &mut Text, part: &[u8], times: usize) -> Result<(), Memory> {
    for _ in 0..times {
        bytes.extend_from_slice(part)?;
    }
    Ok(())
}

/// What begins with the front, and goes on with the part so many times.
fn repeated(alloc: Global, front: &str, part: &[u8], times: usize) -> Result<Text, Memory> {
    let mut bytes = bytes_of(alloc, front)?;
    push_times(&mut bytes, part, times)?;
    Ok(bytes)
}

/// A world in which the first session has made a document.
fn begun(rt: &impl Abort, alloc: Global) -> Result<Sessions, Fail> {
    let mut sessions = Sessions::new(alloc, most()?)?;
    check_step(rt, alloc, &mut sessions, &BEGINNING)?;
    Ok(sessions)
}

/// The first session asks, and is told what is wanted.
fn check_told(
    rt: &impl Abort,
    alloc: Global,
    sessions: &mut Sessions,
    request: &[u8],
    wanted: &[u8],
) -> Result<(), Fail> {
    let reply = sessions.ask(alloc, 1, request)?.ok_or("no request")?;
    assert!(rt; reply.as_slice() == wanted);
    Ok(())
}

fn check_long(
    rt: &impl Abort,
    alloc: Global,
    sessions: &mut Sessions,
    long: &Long,
) -> Result<(), Fail> {
    let (front, part, times, rest, wanted) = *long;
    let mut request = repeated(alloc, front, part.as_bytes(), times)?;
    push_row(&mut request, rest)?;
    let wanted = bytes_of(alloc, wanted)?;
    check_told(rt, alloc, sessions, request.as_slice(), wanted.as_slice())
}

fn check_all(
    rt: &impl Abort,
    alloc: Global,
    sessions: &mut Sessions,
    all: &[Long],
) -> Result<(), Fail> {
    for long in all {
        check_long(rt, alloc, sessions, long)?;
    }
    Ok(())
}

/// A world with the link.
fn with_link(rt: &impl Abort, alloc: Global) -> Result<Sessions, Fail> {
    let mut sessions = begun(rt, alloc)?;
    check_step(rt, alloc, &mut sessions, &LINKED)?;
    Ok(sessions)
}

#[test]
fn a_want_names_so_many_runs(rt: HostRuntime) -> Result<(), Fail> {
    let alloc = rt.alloc();
    let mut sessions = with_link(&rt, alloc)?;
    check_all(&rt, alloc, &mut sessions, MOST_RUNS)
}

#[test]
fn a_want_of_more_runs_is_refused(rt: HostRuntime) -> Result<(), Fail> {
    let alloc = rt.alloc();
    let mut sessions = with_link(&rt, alloc)?;
    check_all(&rt, alloc, &mut sessions, ONE_RUN_MORE)
}

#[test]
fn a_copy_names_so_many_runs(rt: HostRuntime) -> Result<(), Fail> {
    let alloc = rt.alloc();
    let mut sessions = begun(&rt, alloc)?;
    check_step(&rt, alloc, &mut sessions, &SWAPPED)?;
    check_all(&rt, alloc, &mut sessions, COPIES)
}

/// The text of 4,096 bytes, so many times.
fn texts(alloc: Global, front: &str, times: usize) -> Result<Text, Memory> {
    let text = repeated(alloc, "t4096:", b"x", 4_096)?;
    repeated(alloc, front, text.as_slice(), times)
}

/// The request that retrieves it so many times.
fn whole_spans(alloc: Global, front: &str, times: usize) -> Result<Text, Memory> {
    repeated(alloc, front, b"0.1.1~1.4096~", times)
}

/// A world in which that document shows the text.
fn with_text(rt: &impl Abort, alloc: Global) -> Result<Sessions, Fail> {
    let mut sessions = begun(rt, alloc)?;
    check_all(rt, alloc, &mut sessions, TEXT)?;
    Ok(sessions)
}

#[test]
fn each_span_of_a_retrieve_gives_an_item(rt: HostRuntime) -> Result<(), Fail> {
    let alloc = rt.alloc();
    let mut sessions = with_text(&rt, alloc)?;
    let request = whole_spans(alloc, "5~1~A~64~", 64)?;
    let wanted = texts(alloc, "5~64~", 64)?;
    check_told(
        &rt,
        alloc,
        &mut sessions,
        request.as_slice(),
        wanted.as_slice(),
    )
}

#[test]
fn a_retrieve_gives_so_many_bytes(rt: HostRuntime) -> Result<(), Fail> {
    let alloc = rt.alloc();
    let mut sessions = with_text(&rt, alloc)?;
    let request = whole_spans(alloc, "5~1~A~4096~", 4_096)?;
    let wanted = texts(alloc, "5~4096~", 4_096)?;
    check_told(
        &rt,
        alloc,
        &mut sessions,
        request.as_slice(),
        wanted.as_slice(),
    )?;
    check_all(&rt, alloc, &mut sessions, ONE_TEXT_MORE)
}

/// Adds a position of a text.
fn push_position(bytes: &mut Text, n: u32) -> Result<(), Memory> {
    bytes.extend_from_slice(b"0.1.")?;
    append_number(bytes, n)
}

/// Adds the spans of the odd positions below the bound. No two of these positions are neighbours.
fn push_odd_spans(bytes: &mut Text, bound: u32) -> Result<(), Memory> {
    for n in 1..bound {
        if n % 2 == 1 {
            push_position(bytes, n)?;
            bytes.extend_from_slice(b"1.1~")?;
        }
    }
    Ok(())
}

fn push_diagonal(bytes: &mut Text, left: u32, right: u32, length: u32) -> Result<(), Memory> {
    push_position(bytes, left)?;
    push_position(bytes, right)?;
    append_number(bytes, length)
}

/// Adds the diagonals of one pair each of this position on the left, with the first 256 on the right.
fn push_single(bytes: &mut Text, left: u32) -> Result<(), Memory> {
    for right in 1..257 {
        push_diagonal(bytes, left, right, 1)?;
    }
    Ok(())
}

/// The request that has the spans of the odd positions below the bound between the front and the rest.
fn odd_request(alloc: Global, front: &str, bound: u32, rest: &str) -> Result<Text, Memory> {
    let mut request = bytes_of(alloc, front)?;
    push_odd_spans(&mut request, bound)?;
    push_row(&mut request, rest)?;
    Ok(request)
}

/// The reply to the relation of the first 256 odd positions with the first 256.
fn singles(alloc: Global) -> Result<Text, Memory> {
    let mut reply = bytes_of(alloc, "10~65536~")?;
    for left in 1..512 {
        if left % 2 == 1 {
            push_single(&mut reply, left)?;
        }
    }
    Ok(reply)
}

/// The reply to the relation of the first 256 positions with themselves: each diagonal begins at the first position on
/// the left or on the right, and ends at the last.
fn joined(alloc: Global) -> Result<Text, Memory> {
    let mut reply = bytes_of(alloc, "10~511~")?;
    for right in 1..257 {
        push_diagonal(&mut reply, 1, right, 257 - right)?;
    }
    for left in 2..257 {
        push_diagonal(&mut reply, left, 1, 257 - left)?;
    }
    Ok(reply)
}

/// A world with the one byte at all those positions.
fn with_one_byte(rt: &impl Abort, alloc: Global) -> Result<Sessions, Fail> {
    let mut sessions = begun(rt, alloc)?;
    check_all(rt, alloc, &mut sessions, ONE_BYTE)?;
    Ok(sessions)
}

#[test]
fn pairs_in_a_row_are_one_diagonal(rt: HostRuntime) -> Result<(), Fail> {
    let alloc = rt.alloc();
    let mut sessions = with_one_byte(&rt, alloc)?;
    let request = bytes_of(alloc, "10~A~1~0.1.1~1.256~A~1~0.1.1~1.256~")?;
    let wanted = joined(alloc)?;
    check_told(
        &rt,
        alloc,
        &mut sessions,
        request.as_slice(),
        wanted.as_slice(),
    )
}

#[test]
fn a_relation_has_so_many_diagonals(rt: HostRuntime) -> Result<(), Fail> {
    let alloc = rt.alloc();
    let mut sessions = with_one_byte(&rt, alloc)?;
    let request = odd_request(alloc, "10~A~256~", 512, "A~1~0.1.1~1.256~")?;
    let wanted = singles(alloc)?;
    check_told(
        &rt,
        alloc,
        &mut sessions,
        request.as_slice(),
        wanted.as_slice(),
    )
}

/// One diagonal too many, and 256 too many.
const TOO_MANY: &[(&str, u32, &str)] = &[
    ("10~A~257~", 512, "0.1.514~1.1~A~2~0.1.1~1.256~0.1.514~1.1~"),
    ("10~A~257~", 514, "A~1~0.1.1~1.256~"),
];

#[test]
fn a_relation_of_more_diagonals_is_refused(rt: HostRuntime) -> Result<(), Fail> {
    let alloc = rt.alloc();
    let mut sessions = with_one_byte(&rt, alloc)?;
    for (front, bound, rest) in TOO_MANY {
        let request = odd_request(alloc, front, *bound, rest)?;
        check_told(&rt, alloc, &mut sessions, request.as_slice(), b"?11~")?;
    }
    Ok(())
}
