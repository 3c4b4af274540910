//! Bodies that were worked out by hand, in both formats and both ways, each bound of their fields, and each byte that may
//! be missing.

use entry_codec::laws::old_has_new;
use entry_codec::{LogFormat, body_length, decode, decode_old, encode, split_body};
use febe_data::{List, Memory, Text};
use std::alloc::Global;
use std::process::Abort;
use std::test::Fail;

/// The first session makes a document. In the old format.
const OLD_CREATED: &[u8] =
    b"\x00\x00\x00\x2b\x01\x00\x00\x00\x00\x00\x00\x00\x01\x00\x00\x00\x00\x00\x00\x00\x03\x01\x06\x00\x00\x00\x01\x00\x00\x00\x01\x00\x00\x00\x00\x00\x00\x00\x01\x00\x00\x00\x00\x00\x00\x00\x01";

/// The same in the new one, at moment 1,003.
const CREATED: &[u8] =
    b"\x00\x00\x00\x00\x00\x00\x00\x33\x02\x00\x00\x00\x00\x00\x00\x03\xeb\x00\x00\x00\x00\x00\x00\x00\x01\x00\x00\x00\x00\x00\x00\x00\x03\x01\x06\x00\x00\x00\x01\x00\x00\x00\x01\x00\x00\x00\x00\x00\x00\x00\x01\x00\x00\x00\x00\x00\x00\x00\x01";

/// It inserts `hello`. In the old format.
const OLD_INSERTED: &[u8] =
    b"\x00\x00\x00\x3c\x01\x00\x00\x00\x00\x00\x00\x00\x01\x00\x00\x00\x00\x00\x00\x00\x04\x04\x06\x00\x00\x00\x01\x00\x00\x00\x01\x00\x00\x00\x00\x00\x00\x00\x01\x00\x00\x00\x00\x00\x00\x00\x01\x00\x00\x00\x01\x00\x00\x00\x01\x00\x00\x00\x05hello";

/// The same in the new one, at moment 1,005.
const INSERTED: &[u8] =
    b"\x00\x00\x00\x00\x00\x00\x00\x48\x02\x00\x00\x00\x00\x00\x00\x03\xed\x00\x00\x00\x00\x00\x00\x00\x01\x00\x00\x00\x00\x00\x00\x00\x04\x04\x06\x00\x00\x00\x01\x00\x00\x00\x01\x00\x00\x00\x00\x00\x00\x00\x01\x00\x00\x00\x00\x00\x00\x00\x01\x00\x00\x00\x01\x00\x00\x00\x01\x00\x00\x00\x00\x00\x00\x00\x05hello";

/// Deletes, in a document with one place: `2 + 0.1` of the document `7`. In the old format.
const OLD_DELETED: &[u8] =
    b"\x00\x00\x00\x25\x01\x00\x00\x00\x00\x00\x00\x00\x02\x00\x00\x00\x00\x00\x00\x00\x01\x05\x01\x00\x00\x00\x07\x01\x00\x00\x00\x02\x02\x00\x00\x00\x00\x00\x00\x00\x01";

/// The same in the new one, at the last moment of all.
const DELETED: &[u8] =
    b"\x00\x00\x00\x00\x00\x00\x00\x2d\x02\xff\xff\xff\xff\xff\xff\xff\xff\x00\x00\x00\x00\x00\x00\x00\x02\x00\x00\x00\x00\x00\x00\x00\x01\x05\x01\x00\x00\x00\x07\x01\x00\x00\x00\x02\x02\x00\x00\x00\x00\x00\x00\x00\x01";

/// Swaps two blocks of the document `7`: the cuts are 1, 2 and 4. In the old format.
const OLD_SWAPPED: &[u8] =
    b"\x00\x00\x00\x27\x01\x00\x00\x00\x00\x00\x00\x00\x02\x00\x00\x00\x00\x00\x00\x00\x01\x06\x01\x00\x00\x00\x07\x00\x00\x00\x03\x00\x00\x00\x01\x00\x00\x00\x02\x00\x00\x00\x04";

/// The same in the new one, at moment 0.
const SWAPPED: &[u8] =
    b"\x00\x00\x00\x00\x00\x00\x00\x2f\x02\x00\x00\x00\x00\x00\x00\x00\x00\x00\x00\x00\x00\x00\x00\x00\x02\x00\x00\x00\x00\x00\x00\x00\x01\x06\x01\x00\x00\x00\x07\x00\x00\x00\x03\x00\x00\x00\x01\x00\x00\x00\x02\x00\x00\x00\x04";

/// Copies to place 1 of the document `7` what the span `2 + 1` picks of the document `8`. In the old format.
const OLD_COPIED: &[u8] =
    b"\x00\x00\x00\x32\x01\x00\x00\x00\x00\x00\x00\x00\x02\x00\x00\x00\x00\x00\x00\x00\x01\x07\x01\x00\x00\x00\x07\x00\x00\x00\x01\x00\x00\x00\x01\x01\x00\x00\x00\x08\x00\x00\x00\x01\x01\x00\x00\x00\x02\x01\x00\x00\x00\x01";

/// The same in the new one, at moment 256.
const COPIED: &[u8] =
    b"\x00\x00\x00\x00\x00\x00\x00\x3a\x02\x00\x00\x00\x00\x00\x00\x01\x00\x00\x00\x00\x00\x00\x00\x00\x02\x00\x00\x00\x00\x00\x00\x00\x01\x07\x01\x00\x00\x00\x07\x00\x00\x00\x01\x00\x00\x00\x01\x01\x00\x00\x00\x08\x00\x00\x00\x01\x01\x00\x00\x00\x02\x01\x00\x00\x00\x01";

/// Makes the first link of the document `7`, with three empty ends. In the old format.
const OLD_LINKED: &[u8] =
    b"\x00\x00\x00\x2b\x01\x00\x00\x00\x00\x00\x00\x00\x02\x00\x00\x00\x00\x00\x00\x00\x01\x08\x01\x00\x00\x00\x07\x00\x00\x00\x01\x00\x00\x00\x01\x00\x00\x00\x00\x00\x00\x00\x00\x00\x00\x00\x00";

/// The same in the new one, at moment 1.
const LINKED: &[u8] =
    b"\x00\x00\x00\x00\x00\x00\x00\x33\x02\x00\x00\x00\x00\x00\x00\x00\x01\x00\x00\x00\x00\x00\x00\x00\x02\x00\x00\x00\x00\x00\x00\x00\x01\x08\x01\x00\x00\x00\x07\x00\x00\x00\x01\x00\x00\x00\x01\x00\x00\x00\x00\x00\x00\x00\x00\x00\x00\x00\x00";

/// The first session publishes its document. In the old format.
const OLD_PUBLISHED: &[u8] =
    b"\x00\x00\x00\x2b\x01\x00\x00\x00\x00\x00\x00\x00\x01\x00\x00\x00\x00\x00\x00\x00\x05\x09\x06\x00\x00\x00\x01\x00\x00\x00\x01\x00\x00\x00\x00\x00\x00\x00\x01\x00\x00\x00\x00\x00\x00\x00\x01";

/// The same in the new one, at moment 1,700,000,000,000.
const PUBLISHED: &[u8] =
    b"\x00\x00\x00\x00\x00\x00\x00\x33\x02\x00\x00\x01\x8b\xcf\xe5\x68\x00\x00\x00\x00\x00\x00\x00\x00\x01\x00\x00\x00\x00\x00\x00\x00\x05\x09\x06\x00\x00\x00\x01\x00\x00\x00\x01\x00\x00\x00\x00\x00\x00\x00\x01\x00\x00\x00\x00\x00\x00\x00\x01";

/// Nothing.
const NOTHING: &[u8] = b"";

/// What is no body of a Create in the old format where this byte stands at this place: another length, another format,
/// another kind, another count of places, a last place 0.
const BAD_OLD: &[(usize, u8)] = &[
    (0, 1),
    (3, 42),
    (3, 44),
    (4, 0),
    (4, 2),
    (21, 0),
    (21, 2),
    (21, 10),
    (22, 5),
    (22, 7),
    (22, 25),
    (46, 0),
];

/// So for the new format. A length of 2 ^ 63 or of 2 ^ 32 too much is no length of it.
const BAD: &[(usize, u8)] = &[
    (0, 0x80),
    (3, 1),
    (7, 50),
    (7, 52),
    (8, 0),
    (8, 1),
    (8, 3),
    (33, 0),
    (33, 2),
    (33, 10),
    (34, 5),
    (34, 7),
    (34, 25),
    (58, 0),
];

/// What is no body of an Insert in the new format: a text whose length is 2 ^ 63 or 2 ^ 32 too much, one more, one less.
const BAD_TEXTS: &[(usize, u8)] = &[(67, 0x80), (70, 1), (74, 4), (74, 6)];

fn is_body(alloc: Global, format: LogFormat, bytes: &[u8]) -> Result<bool, Memory> {
    match format {
        LogFormat::Old => match decode_old(alloc, bytes)? {
            Some(_) => Ok(true),
            None => Ok(false),
        },
        LogFormat::New => match decode(alloc, bytes)? {
            Some(_) => Ok(true),
            None => Ok(false),
        },
    }
}

/// Decodes the body, and encodes the entry with its moment again, which has to be this one.
fn again(alloc: Global, body: &[u8], moment: u64) -> Result<Text, Fail> {
    let Some(logged) = decode(alloc, body)? else {
        return Err(Fail::from("no body"));
    };
    if logged.moment != moment {
        return Err(Fail::from("another moment"));
    }
    Ok(encode(alloc, &logged.entry, logged.moment)?)
}

/// Decodes a body of the old format, and encodes the entry in the new one, with the moment that stands for none. Both
/// have to be as long as they are said to be.
fn renewed(alloc: Global, body: &[u8]) -> Result<Text, Fail> {
    let Some(entry) = decode_old(alloc, body)? else {
        return Err(Fail::from("no old body"));
    };
    old_has_new();
    if body_length(LogFormat::Old, &entry) != body.len() as u64 {
        return Err(Fail::from("another old length"));
    }
    let renewed = encode(alloc, &entry, 0)?;
    if body_length(LogFormat::New, &entry) != renewed.len() as u64 {
        return Err(Fail::from("another length"));
    }
    Ok(renewed)
}

/// Both bodies are of the same entry, this one with this moment, and neither is one in the other format.
fn check_both(
    rt: &impl Abort,
    alloc: Global,
    old: &[u8],
    body: &[u8],
    moment: u64,
) -> Result<(), Fail> {
    assert!(rt; again(alloc, body, moment)?.as_slice() == body);
    let renewed = renewed(alloc, old)?;
    assert!(rt; renewed.as_slice() == moved(alloc, body)?.as_slice());
    assert!(rt; !is_body(alloc, LogFormat::Old, body)?);
    assert!(rt; !is_body(alloc, LogFormat::New, old)?);
    Ok(())
}

/// The body, with the moment 0.
fn moved(alloc: Global, body: &[u8]) -> Result<Text, Memory> {
    let mut out = List::new(alloc);
    for (k, byte) in body.iter().enumerate() {
        out.push(if 9 <= k && k < 17 { 0 } else { *byte })?;
    }
    Ok(out)
}

#[test]
fn bodies_both_ways(rt: HostRuntime) -> Result<(), Fail> {
    let alloc = rt.alloc();
    for row in [
        (OLD_CREATED, CREATED, 1003),
        (OLD_INSERTED, INSERTED, 1005),
        (OLD_DELETED, DELETED, u64::MAX),
        (OLD_SWAPPED, SWAPPED, 0),
        (OLD_COPIED, COPIED, 256),
        (OLD_LINKED, LINKED, 1),
        (OLD_PUBLISHED, PUBLISHED, 1_700_000_000_000),
    ]
    .as_slice()
    {
        check_both(&rt, alloc, row.0, row.1, row.2)?;
    }
    assert_eq!(rt; OLD_CREATED.len(), 47);
    assert_eq!(rt; CREATED.len(), 59);
    assert_eq!(rt; OLD_INSERTED.len(), 64);
    assert_eq!(rt; INSERTED.len(), 80);
    Ok(())
}

/// Each front of the body, and the body with one more byte, is none.
fn check_fronts(
    rt: &impl Abort,
    alloc: Global,
    format: LogFormat,
    body: &[u8],
) -> Result<(), Fail> {
    let mut front = List::new(alloc);
    for byte in body {
        assert!(rt; !is_body(alloc, format, front.as_slice())?);
        assert!(rt; split_body(format, front.as_slice()).is_none());
        front.push(*byte)?;
    }
    assert!(rt; is_body(alloc, format, front.as_slice())?);
    front.push(0)?;
    assert!(rt; !is_body(alloc, format, front.as_slice())?);
    match split_body(format, front.as_slice()) {
        Some((first, rest)) => assert!(rt; first == body && rest.len() == 1),
        None => return Err(Fail::from("no body in front")),
    }
    Ok(())
}

#[test]
fn old_bodies_cut_at_every_byte(rt: HostRuntime) -> Result<(), Fail> {
    let alloc = rt.alloc();
    for body in [
        OLD_CREATED,
        OLD_INSERTED,
        OLD_DELETED,
        OLD_SWAPPED,
        OLD_COPIED,
        OLD_LINKED,
        OLD_PUBLISHED,
    ]
    .as_slice()
    {
        check_fronts(&rt, alloc, LogFormat::Old, body)?;
    }
    assert!(rt; !is_body(alloc, LogFormat::Old, NOTHING)?);
    Ok(())
}

#[test]
fn bodies_cut_at_every_byte(rt: HostRuntime) -> Result<(), Fail> {
    let alloc = rt.alloc();
    for body in [
        CREATED, INSERTED, DELETED, SWAPPED, COPIED, LINKED, PUBLISHED,
    ]
    .as_slice()
    {
        check_fronts(&rt, alloc, LogFormat::New, body)?;
    }
    assert!(rt; !is_body(alloc, LogFormat::New, NOTHING)?);
    Ok(())
}

/// The bytes, with another byte at one place.
fn changed(alloc: Global, bytes: &[u8], at: usize, byte: u8) -> Result<Text, Memory> {
    let mut out = List::new(alloc);
    for (k, b) in bytes.iter().enumerate() {
        out.push(if k == at { byte } else { *b })?;
    }
    Ok(out)
}

/// The body is none where one of these bytes stands at its place.
fn check_bad(
    rt: &impl Abort,
    alloc: Global,
    format: LogFormat,
    body: &[u8],
    bad: &[(usize, u8)],
) -> Result<(), Fail> {
    for case in bad {
        let bytes = changed(alloc, body, case.0, case.1)?;
        assert!(rt;
            !is_body(alloc, format, bytes.as_slice())?,
            "{} at {}",
            case.1,
            case.0
        );
    }
    Ok(())
}

#[test]
fn bytes_that_no_body_has(rt: HostRuntime) -> Result<(), Fail> {
    let alloc = rt.alloc();
    check_bad(&rt, alloc, LogFormat::Old, OLD_CREATED, BAD_OLD)?;
    check_bad(&rt, alloc, LogFormat::New, CREATED, BAD)?;
    check_bad(&rt, alloc, LogFormat::New, INSERTED, BAD_TEXTS)?;
    Ok(())
}

#[test]
fn bytes_that_other_bodies_have(rt: HostRuntime) -> Result<(), Fail> {
    let alloc = rt.alloc();
    let old = changed(alloc, OLD_CREATED, 46, 2)?;
    assert!(rt; is_body(alloc, LogFormat::Old, old.as_slice())?);
    let old = changed(alloc, OLD_CREATED, 12, 9)?;
    assert!(rt; is_body(alloc, LogFormat::Old, old.as_slice())?);
    let body = changed(alloc, CREATED, 58, 2)?;
    assert!(rt; is_body(alloc, LogFormat::New, body.as_slice())?);
    let body = changed(alloc, CREATED, 16, 9)?;
    assert!(rt; again(alloc, body.as_slice(), 777)?.as_slice() == body.as_slice());
    Ok(())
}

/// What stands between the length of a body and the fields of its change, for an entry of session 1 and serial 1, at
/// moment 1.
fn append_head(out: &mut Text, kind: u8) -> Result<(), Memory> {
    out.push(2)?;
    for _ in 0..3 {
        out.extend_from_slice(&1u64.to_be_bytes())?;
    }
    out.push(kind)?;
    // the document `7`
    out.push(1)?;
    out.extend_from_slice(&7u32.to_be_bytes())
}

/// The length, and the bytes that it counts.
fn counted(alloc: Global, bytes: &Text) -> Result<Text, Memory> {
    let mut body = List::new(alloc);
    body.extend_from_slice(&(bytes.len() as u64).to_be_bytes())?;
    body.extend_from_slice(bytes.as_slice())?;
    Ok(body)
}

/// A Rearrange with so many cuts.
fn with_cuts(alloc: Global, count: u32) -> Result<Text, Memory> {
    let mut bytes = List::new(alloc);
    append_head(&mut bytes, 6)?;
    bytes.extend_from_slice(&count.to_be_bytes())?;
    for _ in 0..count {
        bytes.extend_from_slice(&1u32.to_be_bytes())?;
    }
    counted(alloc, &bytes)
}

/// A spec of the document `7` with so many spans `(0, 0)`.
fn append_spec(out: &mut Text, spans: u32) -> Result<(), Memory> {
    out.push(1)?;
    out.extend_from_slice(&7u32.to_be_bytes())?;
    out.extend_from_slice(&spans.to_be_bytes())?;
    for _ in 0..spans {
        out.extend_from_slice(&[0, 0])?;
    }
    Ok(())
}

/// A Copy of two specs with so many spans.
fn with_spans(alloc: Global, first: u32, second: u32) -> Result<Text, Memory> {
    let mut bytes = List::new(alloc);
    append_head(&mut bytes, 7)?;
    bytes.extend_from_slice(&1u32.to_be_bytes())?;
    bytes.extend_from_slice(&2u32.to_be_bytes())?;
    append_spec(&mut bytes, first)?;
    append_spec(&mut bytes, second)?;
    counted(alloc, &bytes)
}

fn is_new(alloc: Global, bytes: &Text) -> Result<bool, Memory> {
    is_body(alloc, LogFormat::New, bytes.as_slice())
}

#[test]
fn lists_at_and_past_their_bounds(rt: HostRuntime) -> Result<(), Fail> {
    let alloc = rt.alloc();
    assert!(rt; is_new(alloc, &with_cuts(alloc, 65_536)?)?);
    assert!(rt; !is_new(alloc, &with_cuts(alloc, 65_537)?)?);
    assert!(rt; is_new(alloc, &with_spans(alloc, 32_768, 32_768)?)?);
    assert!(rt; !is_new(alloc, &with_spans(alloc, 32_768, 32_769)?)?);
    assert!(rt; !is_new(alloc, &with_spans(alloc, 65_537, 0)?)?);
    Ok(())
}
