//! Three sessions of three accounts: each request that names a document meets one that is private to another account.
//!
//! The letter `A` stands for the first document of the first account, `0.1.1.0.1.0.1`.

use crate::flat_tables::{check_step, most};
use crate::sessions::Sessions;
use crate::store_rows::{House, begin, check_request, fresh};
use crate::tables::Step;
use std::alloc::Global;
use std::process::Abort;
use std::test::Fail;

/// One request a line. Each account makes a document. Then each request that names documents, also in specs, names the first
/// one's, which is private; only a close and a follow do not tell that it is there.
const LINES: &[Step] = &[
    (1, "34~0.1.1.0.1~", "34~"),
    (2, "34~0.1.1.0.2~", "34~"),
    (3, "34~0.1.1.0.3~", "34~"),
    (1, "11~", "11~A~"),
    (2, "11~", "11~0.1.1.0.2.0.1~"),
    (3, "11~", "11~0.1.1.0.3.0.1~"),
    (1, "0~A~0.1.1~t4:abcd", "0~"),
    (2, "0~0.1.1.0.2.0.1~0.1.1~t2:xy", "0~"),
    (
        1,
        "27~A~1~A~1~0.1.1~1.2~1~A~1~0.1.3~1.2~0~",
        "27~0.1.1.0.1.0.1.0.2.1~",
    ),
    (2, "0~A~0.1.1~t1:z", "?15~"),
    (2, "1~A~", "?15~"),
    (2, "2~0.1.1.0.2.0.1~0.1.1~1~A~1~0.1.1~1.1~", "?15~"),
    (2, "3~A~3~0.1.1~0.1.2~0.1.3~", "?15~"),
    (2, "5~2~0.1.1.0.2.0.1~1~0.1.1~1.2~A~1~0.1.1~1.1~", "?15~"),
    (3, "10~0.1.1.0.3.0.1~1~0.1.1~1.1~A~1~0.1.1~1.1~", "?15~"),
    (3, "12~A~0.1.1~1.1~", "?15~"),
    (3, "13~A~", "?15~"),
    (3, "14~A~", "?15~"),
    (3, "22~1~A~1~0.1.1~1.2~", "?15~"),
    (
        2,
        "27~0.1.1.0.2.0.1~1~0.1.1.0.2.0.1~1~0.1.1~1.1~1~A~1~0.1.1~1.1~0~",
        "?15~",
    ),
    (2, "28~1~A~1~0.1.1~1.4~", "?15~"),
    (2, "29~0~0~1~A~1~0.1.1~1.1~0~", "?15~"),
    (3, "30~0~0~0~1~A~1~0.1.1~1.1~", "?15~"),
    (3, "31~0~1~A~1~0.1.1~1.1~0~0~0~5~", "?15~"),
    (2, "35~A~1~1~", "?15~"),
    (3, "40~A~", "?15~"),
    (2, "36~A~", "?3~"),
    (2, "18~0.1.1.0.1.0.1.0.2.1~1~", "?9~"),
    (2, "30~0~0~0~0~", "30~0~"),
    (1, "40~A~", "40~"),
    (2, "35~A~1~1~", "35~A~"),
    (2, "2~0.1.1.0.2.0.1~0.1.3~1~A~1~0.1.1~1.2~", "2~"),
    (2, "18~0.1.1.0.1.0.1.0.2.1~1~", "18~1~A~1~0.1.1~1.2~"),
    (1, "22~1~A~1~0.1.1~1.2~", "22~1~A~"),
    (2, "22~1~A~1~0.1.1~1.2~", "22~2~A~0.1.1.0.2.0.1~"),
    (
        2,
        "28~1~0.1.1.0.2.0.1~1~0.1.1~1.4~",
        "28~1~0.1.1.0.2.0.1~1~0.1.3~1.2~1~0.1.1.0.2.0.1~0~1~0.1.1.0.2.0.1~0~",
    ),
    (3, "35~A~2~2~", "35~0.1.1.0.3.0.2~"),
    (
        3,
        "5~1~0.1.1.0.3.0.2~1~0.1.1~0.2~",
        "5~2~t4:abcd0.1.1.0.1.0.1.0.2.1~",
    ),
    (2, "5~1~0.1.1.0.3.0.2~1~0.1.1~1.1~", "?15~"),
    (1, "40~A~", "40~"),
];

#[test]
fn the_flat_world_refuses_what_is_private(rt: HostRuntime) -> Result<(), Fail> {
    let alloc = rt.alloc();
    let mut sessions = Sessions::new(alloc, most()?)?;
    assert!(rt; LINES.len() == 40);
    for line in LINES {
        check_step(&rt, alloc, &mut sessions, line)?;
    }
    assert!(rt; sessions.is_folded(alloc)?);
    Ok(())
}

fn check_line(rt: &impl Abort, alloc: Global, house: &mut House, line: &Step) -> Result<(), Fail> {
    let (session, request, wanted) = *line;
    check_request(rt, alloc, house, session, request, wanted)
}

#[test]
fn a_store_refuses_what_is_private(rt: HostRuntime) -> Result<(), Fail> {
    let alloc = rt.alloc();
    let mut house = fresh(alloc)?;
    for session in 1..4u64 {
        assert!(rt; begin(alloc, &mut house) == Some(session));
    }
    for line in LINES {
        check_line(&rt, alloc, &mut house, line)?;
    }
    Ok(())
}
