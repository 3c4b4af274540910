//! Inputs that are cut at each byte.
//!
//! A cut behind a whole request ends the session well, and one within a request, or within the greeting, is told with its
//! place. Behind a byte that can't stand every cut tells that byte's place.

use crate::exchanges::{Exchange, HELLO, Side, all_of, first_of, push_row, whole_in};
use crate::runs::{Ran, Streams, WORDS, disk_failing, run};
use febe_data::Text;
use std::alloc::Global;
use std::process::Abort;
use std::test::Fail;

/// A text with copies of itself, and what it shares with itself.
const COPIES: &[Exchange] = &[
    ("P0~", "P0~"),
    ("34~0.1.1.0.1~", "34~"),
    ("11~", "11~A~"),
    ("0~A~0.1.1~t3:abc", "0~"),
    ("2~A~0.1.2~1~A~1~0.1.1~1.3~", "2~"),
    ("2~A~0.1.7~1~A~1~0.1.1~1.1~", "2~"),
    ("5~1~A~1~0.1.1~1.9~", "5~1~t7:aabcbca"),
    (
        "10~A~1~0.1.1~1.7~A~1~0.1.1~1.7~",
        "10~9~0.1.1~0.1.1~7~0.1.1~0.1.2~1~0.1.1~0.1.7~1~0.1.2~0.1.1~1~0.1.2~0.1.7~1~ \
         0.1.3~0.1.5~2~0.1.5~0.1.3~2~0.1.7~0.1.1~1~0.1.7~0.1.2~1~",
    ),
];

/// A link from bytes that are parted afterwards, with questions about it of which two are refused.
const LINKS: &[Exchange] = &[
    ("P0~", "P0~"),
    ("34~0.1.1.0.1~", "34~"),
    ("11~", "11~A~"),
    ("0~A~0.1.1~t6:abcdef", "0~"),
    ("27~A~1~A~1~0.1.2~1.3~0~0~", "27~A.0.2.1~"),
    ("3~A~3~0.1.3~0.1.5~0.1.7~", "3~"),
    ("18~A.0.2.1~1~", "18~1~A~2~0.1.2~1.1~0.1.5~1.2~"),
    ("18~A.0.2.1~2~", "18~0~"),
    ("18~A.0.2.1~4~", "?10~"),
    ("18~A.0.2.2~1~", "?9~"),
    (
        "28~1~A~1~0.1.1~1.6~",
        "28~1~A~2~0.1.2~1.1~0.1.5~1.2~1~A~0~1~A~0~",
    ),
];

/// What another account is shown of a document and its link, before and after it is published, and of a version.
const PRIVATE: &[Exchange] = &[
    ("P0~", "P0~"),
    ("34~0.1.1.0.1~", "34~"),
    ("11~", "11~A~"),
    ("0~A~0.1.1~t2:ab", "0~"),
    ("27~A~1~A~1~0.1.1~1.1~0~0~", "27~A.0.2.1~"),
    ("13~A~", "13~A.1~"),
    ("34~0.1.1.0.2~", "34~"),
    ("14~A~", "?15~"),
    ("5~2~A.1~1~0.1.1~1.2~A~1~0.1.1~1.2~", "?15~"),
    ("18~A.0.2.1~1~", "?9~"),
    ("29~0~0~0~0~", "29~0~"),
    ("40~A~", "?15~"),
    ("34~0.1.1.0.1~", "34~"),
    ("40~A~", "40~"),
    ("34~0.1.1.0.2~", "34~"),
    ("5~1~A~1~0.1.1~1.2~", "5~1~t2:ab"),
    ("18~A.0.2.1~1~", "18~1~A~1~0.1.1~1.1~"),
    ("22~1~A~1~0.1.1~1.2~", "22~1~A~"),
    ("36~A.1~", "36~"),
    ("35~A.1~1~2~", "?15~"),
];

const GREETING: &[Exchange] = &[("P0~", "P0~")];

const TEXT_OF_TWO: &[Exchange] = &[
    ("P0~", "P0~"),
    ("34~0.1.1.0.1~", "34~"),
    ("11~", "11~A~"),
    ("0~A~0.1.1~t2:ab", "0~"),
];

/// Exchanges, bytes that come behind their requests, and the place of the first byte that can't stand.
struct Row {
    exchanges: &'static [Exchange],
    rest: &'static str,
    place: usize,
}

/// The place of a row that has no such byte.
const NONE: usize = usize::MAX;

/// Sessions in which each byte may stand.
const SESSIONS: &[Row] = &[
    Row {
        exchanges: HELLO,
        rest: "",
        place: NONE,
    },
    Row {
        exchanges: COPIES,
        rest: "",
        place: NONE,
    },
    Row {
        exchanges: LINKS,
        rest: "",
        place: NONE,
    },
    Row {
        exchanges: PRIVATE,
        rest: "",
        place: NONE,
    },
];

/// Inputs with a byte that can't stand.
const MALFORMED: &[Row] = &[
    Row {
        exchanges: GREETING,
        rest: "007~",
        place: 4,
    },
    Row {
        exchanges: GREETING,
        rest: "4~",
        place: 4,
    },
    Row {
        exchanges: &[],
        rest: "P1~",
        place: 1,
    },
    Row {
        exchanges: GREETING,
        rest: "34~0.1.0~",
        place: 11,
    },
    Row {
        exchanges: TEXT_OF_TWO,
        rest: "c16~",
        place: 46,
    },
];

/// The status and the place of a run that is given the first `cut` bytes, of which the first `whole` are whole requests.
fn ending(row: &Row, whole: usize, cut: usize) -> (u8, u64) {
    if cut > row.place {
        return (3, row.place as u64);
    }
    if cut == whole {
        return (0, 0);
    }
    (4, cut as u64)
}

/// Runs the first `cut` bytes of an input.
fn run_front(alloc: Global, input: &[u8], cut: usize) -> Result<Ran, Fail> {
    let (front, _) = input.split_at(cut.min(input.len()));
    let streams = Streams::new(alloc, Text::from_slice(alloc, front)?);
    Ok(run(alloc, WORDS, streams, disk_failing(alloc, &[])?)?)
}

fn check_cut(
    rt: &impl Abort,
    alloc: Global,
    row: &Row,
    input: &[u8],
    cut: usize,
) -> Result<(), Fail> {
    let ran = run_front(alloc, input, cut)?;
    let count = whole_in(alloc, row.exchanges, Side::Requests, cut)?;
    let whole = first_of(alloc, row.exchanges, Side::Requests, count)?;
    let told = first_of(alloc, row.exchanges, Side::Replies, count)?;
    let ended = (ran.status, ran.report.place);
    assert!(rt; ended == ending(row, whole.len(), cut), "at {cut}");
    assert!(rt; ran.written() == told.as_slice(), "at {cut}");
    assert!(rt; ran.report.bytes_read == cut as u64, "at {cut}");
    Ok(())
}

/// Cuts the row's input before its first byte, behind each of its bytes but the last, and not at all.
fn check_cuts(rt: &impl Abort, alloc: Global, row: &Row) -> Result<(), Fail> {
    let mut input = all_of(alloc, row.exchanges, Side::Requests)?;
    push_row(&mut input, row.rest)?;
    for cut in 0..input.len().saturating_add(1) {
        check_cut(rt, alloc, row, input.as_slice(), cut)?;
    }
    Ok(())
}

#[test]
fn sessions_are_cut_at_each_byte(rt: HostRuntime) -> Result<(), Fail> {
    for row in SESSIONS {
        check_cuts(&rt, rt.alloc(), row)?;
    }
    Ok(())
}

#[test]
fn malformed_inputs_are_cut_at_each_byte(rt: HostRuntime) -> Result<(), Fail> {
    for row in MALFORMED {
        check_cuts(&rt, rt.alloc(), row)?;
    }
    Ok(())
}
