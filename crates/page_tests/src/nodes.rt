//! Streams of nodes on each plane, cut at every byte, and with bytes that no arena's stream has.

use enfilade_core::{ContentPlane, KeyPlane, TextPlane};
use node_pages::{PagedPlane, append_nodes, read_nodes};
use std::alloc::Global;
use std::process::Abort;
use std::test::Fail;
use tumbler::{List, Memory, Text};

/// A node with the bytes `hello` at 1.1.
const CONTENTS: &[u8] =
    b"\x00\x00\x00\x00\x01\x02\x00\x00\x00\x01\x00\x00\x00\x01\x00\x00\x00\x05hello";

/// A node with the key 9 at 1.1, whose span is 0.3 wide.
const KEYS: &[u8] =
    b"\x00\x00\x00\x00\x01\x02\x00\x00\x00\x01\x00\x00\x00\x01\x01\x00\x00\x00\x09\x02\x00\x00\x00\x00\x00\x00\x00\x03";

/// A node with one position at 1.1, which shows 7.5.
const RUN: &[u8] =
    b"\x00\x00\x00\x00\x01\x02\x00\x00\x00\x01\x00\x00\x00\x01\x02\x00\x00\x00\x07\x00\x00\x00\x05\x00\x00\x00\x01";

/// A root above it, at 1 on the first axis. Its extents are 1.2 and 7.6.
const ROOT: &[u8] =
    b"\x01\x00\x00\x00\x01\x00\x00\x00\x00\x00\x00\x00\x00\x01\x00\x00\x00\x01\x00\x02\x00\x00\x00\x01\x00\x00\x00\x02\x02\x00\x00\x00\x07\x00\x00\x00\x06";

/// What is no stream of the two nodes where this byte stands at this place: another kind, another count, a last place 0,
/// a length 0, a node that names itself, an extent that is not so.
const BAD: &[(usize, u8)] = &[
    (0, 1),
    (0, 2),
    (1, 255),
    (4, 2),
    (5, 1),
    (13, 0),
    (26, 0),
    (27, 0),
    (31, 0),
    (39, 1),
    (54, 3),
    (63, 7),
];

fn both(alloc: Global) -> Result<Text, Memory> {
    let mut bytes = List::from_slice(alloc, RUN)?;
    bytes.extend_from_slice(ROOT)?;
    Ok(bytes)
}

/// Reads an arena, and writes its nodes from a number on.
fn again<P: PagedPlane>(alloc: Global, bytes: &[u8], from: u64) -> Result<Text, Fail> {
    let Some(arena) = read_nodes::<P>(alloc, bytes)? else {
        return Err(Fail::from("no stream"));
    };
    let mut out = List::new(alloc);
    append_nodes(&arena, from, &mut out)?;
    Ok(out)
}

fn is_stream<P: PagedPlane>(alloc: Global, bytes: &[u8]) -> Result<bool, Memory> {
    Ok(read_nodes::<P>(alloc, bytes)?.is_some())
}

#[test]
fn streams_both_ways(rt: HostRuntime) -> Result<(), Fail> {
    let alloc = rt.alloc();
    let bytes = both(alloc)?;
    assert!(rt; again::<ContentPlane>(alloc, CONTENTS, 0)?.as_slice() == CONTENTS);
    assert!(rt; again::<KeyPlane>(alloc, KEYS, 0)?.as_slice() == KEYS);
    assert!(rt; again::<TextPlane>(alloc, bytes.as_slice(), 0)?.as_slice() == bytes.as_slice());
    assert!(rt; again::<TextPlane>(alloc, bytes.as_slice(), 1)?.as_slice() == ROOT);
    assert!(rt; again::<TextPlane>(alloc, bytes.as_slice(), 3)?.is_empty());
    Ok(())
}

#[test]
fn streams_cut_at_every_byte(rt: HostRuntime) -> Result<(), Fail> {
    let alloc = rt.alloc();
    let bytes = both(alloc)?;
    let mut front = List::new(alloc);
    for byte in bytes.as_slice() {
        let is_whole = front.is_empty() || front.as_slice() == RUN;
        assert!(rt; is_stream::<TextPlane>(alloc, front.as_slice())? == is_whole);
        front.push(*byte)?;
    }
    front.push(0)?;
    assert!(rt; !is_stream::<TextPlane>(alloc, front.as_slice())?);
    Ok(())
}

/// The bytes, with another byte at one place.
fn changed(alloc: Global, bytes: &[u8], at: usize, byte: u8) -> Result<Text, Memory> {
    let mut out = List::new(alloc);
    for (k, b) in bytes.iter().enumerate() {
        out.push(if k == at { byte } else { *b })?;
    }
    Ok(out)
}

#[test]
fn bytes_that_no_stream_has(rt: HostRuntime) -> Result<(), Fail> {
    let alloc = rt.alloc();
    let bytes = both(alloc)?;
    for case in BAD {
        let other = changed(alloc, bytes.as_slice(), case.0, case.1)?;
        assert!(rt;
            !is_stream::<TextPlane>(alloc, other.as_slice())?,
            "at {}",
            case.0
        );
    }
    // the run shows 7.9, and the root's extent is as that
    let shown = changed(alloc, bytes.as_slice(), 22, 9)?;
    assert!(rt; !is_stream::<TextPlane>(alloc, shown.as_slice())?);
    let shown = changed(alloc, shown.as_slice(), 63, 10)?;
    assert!(rt; is_stream::<TextPlane>(alloc, shown.as_slice())?);
    Ok(())
}
