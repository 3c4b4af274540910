//! Whole sessions beside what they are answered.
//!
//! Spaces part the requests of a row and its replies, and are no bytes of them. The letter `A` stands for the first
//! document of the first account, `0.1.1.0.1.0.1`.

use crate::runs::{
    BEGIN, Figures, HELLO, HELLO_ANSWERED, Kind, Mark, RESTART, Ran, Session, check_session,
    run_bytes,
};
use crate::sessions::bytes_of;
use std::alloc::Global;
use std::process::Abort;
use std::test::Fail;
use tumbler::{Memory, Text};

fn check_marks(rt: &impl Abort, alloc: Global, ran: &Ran, wanted: &[Mark]) -> Result<(), Fail> {
    let marks = ran.marks(alloc)?;
    assert_eq!(rt; marks.as_slice(), wanted);
    Ok(())
}

/// The history of a session that inserts a text.
const HELLO_MARKS: &[Mark] = &[
    RESTART,
    BEGIN,
    (Kind::Account, 1, 2),
    (Kind::Create, 1, 3),
    (Kind::Insert, 1, 4),
    (Kind::End, 1, 5),
];

const HELLO_FIGURES: Figures = Figures {
    status: 0,
    opened: 1,
    bytes_read: 82,
    place: 0,
};

fn check_hello(rt: &impl Abort, alloc: Global, piece: Option<u32>) -> Result<(), Fail> {
    let wanted = bytes_of(alloc, HELLO_ANSWERED)?;
    let ran = run_bytes(alloc, bytes_of(alloc, HELLO)?, piece)?;
    assert_eq!(rt; ran.written(), wanted.as_slice());
    assert_eq!(rt; ran.figures(), HELLO_FIGURES);
    assert_eq!(rt; ran.points(), [3, 4, 5, 5, 6].as_slice());
    check_marks(rt, alloc, &ran, HELLO_MARKS)
}

#[test]
fn a_text_is_inserted_and_retrieved(rt: HostRuntime) -> Result<(), Fail> {
    check_hello(&rt, rt.alloc(), None)?;
    check_hello(&rt, rt.alloc(), Some(1))
}

#[test]
fn no_input_is_no_session(rt: HostRuntime) -> Result<(), Fail> {
    let alloc = rt.alloc();
    let ran = run_bytes(alloc, Text::new(alloc), None)?;
    assert_eq!(rt; ran.status, 0);
    assert!(rt; ran.written().is_empty());
    assert!(rt; ran.points().is_empty());
    check_marks(&rt, alloc, &ran, &[RESTART])
}

/// Sessions that end between requests.
const WHOLE: &[(&str, &str)] = &[
    ("", ""),
    ("P0~", "P0~"),
    ("P0~ 16~", "P0~ 16~"),
    ("P0~ 11~", "P0~ ?1~"),
    ("P0~ 5~1~0.1.1.0.1.0.1~1~0.1.1~1.1~", "P0~ ?2~"),
    ("P0~ 16~ 13~0.1.1.0.1.0.1~ 5~0~", "P0~ 16~"),
    ("P0~ 16~ garbage", "P0~ 16~"),
    (
        "P0~ 34~0.1.1.0.1~ 11~ 0~0.1.1.0.1.0.1~0.1.1~t3:16~ 5~1~0.1.1.0.1.0.1~1~0.1.1~1.3~ 16~",
        "P0~ 34~ 11~0.1.1.0.1.0.1~ 0~ 5~1~t3:16~ 16~",
    ),
    // each request where nothing was made yet
    ("P0~ 1~0.1.1.0.1.0.1~ 16~", "P0~ ?2~ 16~"),
    (
        "P0~ 2~0.1.1.0.1.0.1~0.1.1~1~0.1.1.0.1.0.1~1~0.1.1~1.5~ 3~0.1.1.0.1.0.1~3~0.1.1~0.1.2~0.1.3~ 5~0~",
        "P0~ ?2~ ?2~ 5~0~",
    ),
    (
        "P0~ 10~0.1.1.0.1.0.1~1~0.1.1~1.5~0.1.1.0.1.0.1~1~0.1.1~1.5~ 12~0.1.1.0.1.0.1~0.1.1~1.5~ 13~0.1.1.0.1.0.1~ 14~0.1.1.0.1.0.1~",
        "P0~ ?2~ ?2~ ?1~ ?2~",
    ),
    (
        "P0~ 18~0.1.1.0.1.0.1.0.2.1~1~ 22~1~0.1.1.0.1.0.1~1~0.1.1~1.5~ 27~0.1.1.0.1.0.1~0~0~0~ 28~0~",
        "P0~ ?9~ ?2~ ?2~ 28~0~0~0~",
    ),
    (
        "P0~ 29~0~0~0~0~ 30~0~0~0~0~ 31~0~0~0~0~0~1~ 35~0.1.1.0.1.0.1~1~1~ 36~0.1.1.0.1.0.1~ 16~",
        "P0~ 29~0~ 30~0~ 31~0~ ?2~ ?2~ 16~",
    ),
    ("P0~ 40~0.1.1.0.1.0.1~ 16~", "P0~ ?2~ 16~"),
];

#[test]
fn sessions_beside_their_answers(rt: HostRuntime) -> Result<(), Fail> {
    for (input, output) in WHOLE {
        let session = Session {
            input: *input,
            output: *output,
            status: 0,
            place: 0,
        };
        check_session(&rt, rt.alloc(), &session)?;
    }
    Ok(())
}

/// Sessions in which a byte can't stand where it does, and the place of that byte.
const MALFORMED: &[(&str, &str, u64)] = &[
    ("P1~", "", 1),
    ("p0~", "", 0),
    ("P00~", "", 2),
    ("11~", "", 0),
    ("P0~ 007~", "P0~", 4),
    ("P0~ 4~", "P0~", 4),
    ("P0~ 41~", "P0~", 4),
    ("P0~ 400~", "P0~", 5),
    ("P0~ 34~0.1.0~", "P0~", 11),
    ("P0~ 34~3~", "P0~", 7),
    ("P0~ 11~ x", "P0~ ?1~", 6),
    ("P0~ 11~ P0~", "P0~ ?1~", 6),
    ("P0~ 18~0~16~ x", "P0~ ?9~", 11),
    (
        "P0~ 34~0.1.1.0.1~ 11~ 0~0.1.1.0.1.0.1~0.1.1~t2:abc 16~",
        "P0~ 34~ 11~0.1.1.0.1.0.1~ 0~",
        46,
    ),
    (
        "P0~ 34~0.1.1.0.1~ 11~ 0~0.1.1.0.1.0.1~0.1.1~t3:16~ x",
        "P0~ 34~ 11~0.1.1.0.1.0.1~ 0~",
        47,
    ),
];

/// Runs sessions that all end with one status.
fn check_sessions(
    rt: &impl Abort,
    alloc: Global,
    rows: &[(&'static str, &'static str, u64)],
    status: u8,
) -> Result<(), Fail> {
    for (input, output, place) in rows {
        let session = Session {
            input: *input,
            output: *output,
            status,
            place: *place,
        };
        check_session(rt, alloc, &session)?;
    }
    Ok(())
}

#[test]
fn requests_before_a_wrong_byte_are_answered(rt: HostRuntime) -> Result<(), Fail> {
    check_sessions(&rt, rt.alloc(), MALFORMED, 3)
}

/// Sessions that end within the greeting or a request, and their lengths.
const TRUNCATED: &[(&str, &str, u64)] = &[
    ("P", "", 1),
    ("P0", "", 2),
    ("P0~ 1", "P0~", 4),
    ("P0~ 16", "P0~", 5),
    ("P0~ 11~ 16", "P0~ ?1~", 8),
    ("P0~ 11~ 34~0.1.1.0.1", "P0~ ?1~", 18),
    (
        "P0~ 34~0.1.1.0.1~ 11~ 0~0.1.1.0.1.0.1~0.1.1~t5:hell",
        "P0~ 34~ 11~0.1.1.0.1.0.1~",
        48,
    ),
];

#[test]
fn requests_before_the_end_within_one_are_answered(rt: HostRuntime) -> Result<(), Fail> {
    check_sessions(&rt, rt.alloc(), TRUNCATED, 4)
}

/// The input of a session that inserts a text of so many bytes.
fn with_text(alloc: Global, count: usize) -> Result<Text, Memory> {
    let mut input = bytes_of(alloc, "P0~ 34~0.1.1.0.1~ 11~ 0~A~0.1.1~t20000:")?;
    for _ in 0..count {
        input.push(b'x')?;
    }
    input.extend_from_slice(b"14~0.1.1.0.1.0.1~")?;
    Ok(input)
}

#[test]
fn a_text_of_many_pieces_is_inserted(rt: HostRuntime) -> Result<(), Fail> {
    let alloc = rt.alloc();
    let wanted = bytes_of(alloc, "P0~ 34~ 11~A~ 0~ 14~0.1.1~1.20000~")?;
    let ran = run_bytes(alloc, with_text(alloc, 20_000)?, None)?;
    assert_eq!(rt; ran.status, 0);
    assert_eq!(rt; ran.written(), wanted.as_slice());
    Ok(())
}
