//! One history of two sessions: what versions, copies and links show after edits.

use crate::flat_tables::{check_step, most};
use crate::sessions::Sessions;
use crate::tables::{BEGINNING, Step};
use std::test::Fail;

/// The first session makes a version of its document. Then it links from two bytes of the document, deletes the first
/// byte and swaps two pairs, which parts neither the two bytes nor the version, and publishes. The second session opens a copy.
const STEPS: &[Step] = &[
    BEGINNING,
    (
        1,
        "0~A~0.1.1~t6:abcdef 13~A~ 27~A~1~A~1~0.1.2~1.2~0~0~ 12~A~0.1.1~1.1~ 3~A~3~0.1.1~0.1.3~0.1.5~ 40~A~",
        "0~ 13~0.1.1.0.1.0.1.1~ 27~0.1.1.0.1.0.1.0.2.1~ 12~ 3~ 40~",
    ),
    (1, "5~1~0.1.1.0.1.0.1.1~1~0.1.1~0.2~", "5~1~t6:abcdef"),
    (
        2,
        "34~0.1.1.0.2~ 35~A~2~2~ 5~1~0.1.1.0.2.0.1~1~0.1.1~0.2~",
        "34~ 35~0.1.1.0.2.0.1~ 5~2~t5:debcf0.1.1.0.1.0.1.0.2.1~",
    ),
    (2, "18~0.1.1.0.1.0.1.0.2.1~1~", "18~1~A~1~0.1.3~1.2~"),
];

#[test]
fn what_was_made_is_shown_after_edits(rt: HostRuntime) -> Result<(), Fail> {
    let alloc = rt.alloc();
    let mut sessions = Sessions::new(alloc, most()?)?;
    for step in STEPS {
        check_step(&rt, alloc, &mut sessions, step)?;
    }
    assert!(rt; sessions.is_folded(alloc)?);
    Ok(())
}
