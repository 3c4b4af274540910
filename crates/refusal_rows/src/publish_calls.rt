//! A disk that fails at each call of a publish.
//!
//! A publish that is refused opens nothing to others, and one that is refused behind another takes nothing back.

use crate::disk_calls::{FAR, calls_made};
use crate::exchanges::{Exchange, Side, all_of, bytes_of, first_of};
use crate::runs::{Streams, WORDS, disk_failing, run, run_row};
use std::alloc::Global;
use std::process::Abort;
use std::test::Fail;

/// A document that is published, and looked at from another account.
const ONCE: &[Exchange] = &[
    ("P0~", "P0~"),
    ("34~0.1.1.0.1~", "34~"),
    ("11~", "11~A~"),
    ("40~A~", "40~"),
    ("34~0.1.1.0.2~", "34~"),
    ("14~A~", "14~0~0~"),
];

/// The same, published twice.
const TWICE: &[Exchange] = &[
    ("P0~", "P0~"),
    ("34~0.1.1.0.1~", "34~"),
    ("11~", "11~A~"),
    ("40~A~", "40~"),
    ("40~A~", "40~"),
    ("34~0.1.1.0.2~", "34~"),
    ("14~A~", "14~0~0~"),
];

/// A session, how many of its exchanges come before a publish, what it is told where a call of that publish fails, and what a
/// later session of the other account is told at each of the four.
struct Row {
    exchanges: &'static [Exchange],
    before: usize,
    told: &'static str,
    later: [&'static str; 4],
}

const LATER: &str = "P0~ 34~0.1.1.0.2~ 35~A~1~1~";

const HIDDEN: &str = "P0~ 34~ ?15~";

const SHOWN: &str = "P0~ 34~ 35~A~";

const ROWS: &[Row] = &[
    // once its gate was written the publish reads as made
    Row {
        exchanges: ONCE,
        before: 3,
        told: "P0~ 34~ 11~A~ ?13~ 34~ ?15~",
        later: [HIDDEN, HIDDEN, HIDDEN, SHOWN],
    },
    // the second mends what the first has left
    Row {
        exchanges: TWICE,
        before: 3,
        told: "P0~ 34~ 11~A~ ?13~ 40~ 34~ 14~0~0~",
        later: [SHOWN; 4],
    },
    // the first one stays
    Row {
        exchanges: TWICE,
        before: 4,
        told: "P0~ 34~ 11~A~ 40~ ?13~ 34~ 14~0~0~",
        later: [SHOWN; 4],
    },
];

/// How many calls of the disk come before the publish.
fn calls_before(alloc: Global, row: &Row) -> Result<u64, Fail> {
    let input = first_of(alloc, row.exchanges, Side::Requests, row.before)?;
    let disk = disk_failing(alloc, &[FAR])?;
    let ran = run(alloc, WORDS, Streams::new(alloc, input), disk)?;
    let mut disk = ran.into_disk();
    Ok(calls_made(&mut disk))
}

/// This call fails.
fn check_call(
    rt: &impl Abort,
    alloc: Global,
    row: &Row,
    call: u64,
    later: &str,
) -> Result<(), Fail> {
    let input = all_of(alloc, row.exchanges, Side::Requests)?;
    let disk = disk_failing(alloc, &[call])?;
    let ran = run(alloc, WORDS, Streams::new(alloc, input), disk)?;
    assert!(rt; ran.status == 0, "at {call}");
    assert!(rt;
        ran.written() == bytes_of(alloc, row.told)?.as_slice(),
        "at {call}"
    );
    let again = run_row(alloc, WORDS, LATER, ran.into_disk())?;
    assert!(rt;
        again.written() == bytes_of(alloc, later)?.as_slice(),
        "later, at {call}"
    );
    Ok(())
}

fn check_row(rt: &impl Abort, alloc: Global, row: &Row) -> Result<(), Fail> {
    let mut call = calls_before(alloc, row)?;
    for later in row.later.as_slice() {
        call = call.saturating_add(1);
        check_call(rt, alloc, row, call, later)?;
    }
    Ok(())
}

#[test]
fn a_disk_fails_at_each_call_of_a_publish(rt: HostRuntime) -> Result<(), Fail> {
    for row in ROWS {
        check_row(&rt, rt.alloc(), row)?;
    }
    Ok(())
}
