//! Replies that are read, at bytes that were worked out by hand.

use febe_data::{Item, Refusal, Reply, Text};
use febe_reply::{GotReply, read_reply, write_reply};
use std::alloc::Global;
use std::process::Abort;
use std::test::Fail;

/// A reply of each kind, and its bytes.
const REPLIES: &[(&str, &str)] = &[
    ("inserted", "0~"),
    ("copied", "2~"),
    ("rearranged", "3~"),
    ("deleted", "12~"),
    ("quit", "16~"),
    ("account set", "34~"),
    ("closed", "36~"),
    ("published", "40~"),
    ("span set", "1~2~0.1.1~1.5~0.2.1~1.2~"),
    ("whole span", "14~0.1.1~1.9~"),
    ("retrieved", "5~0~"),
    ("retrieved", "5~3~t0:0~t6:a~bt1:"),
    ("retrieved", "5~2~t6:abefcd0.1.1.0.1.0.1.0.2.1~"),
    ("related", "10~0~"),
    ("related", "10~2~0.1.1~0.1.12~3~0.1.4294967295~0.1.70~0~"),
    ("created", "11~0.1.1.0.1.0.1~"),
    ("versioned", "13~0.2~"),
    ("linked", "27~0.3~"),
    ("opened", "35~0.4~"),
    ("followed", "18~1~0.2~1~0.2~0.5~"),
    ("documents", "22~2~0.3~0~"),
    ("end sets", "28~0~1~0.8~1~0.1~0.2~0~"),
    ("link count", "29~4294967295~"),
    ("links", "30~1~0.4~"),
    ("next links", "31~0~"),
    ("no account", "?1~"),
    ("no such end", "?10~"),
    ("memory", "?14~"),
    ("private", "?15~"),
];

/// Bytes in which no reply begins, and the first place that no reply has.
const BAD: &[(&str, usize)] = &[
    ("~", 0),
    ("4~", 1),
    ("6~", 0),
    ("00~", 1),
    ("15~", 1),
    ("37~", 1),
    ("41~", 1),
    ("100~", 2),
    ("400~", 2),
    ("?0~", 1),
    ("?16~", 2),
    ("?20~", 2),
    ("?140~", 3),
    ("?150~", 3),
    ("??", 1),
    ("5~65537~", 6),
    ("5~1~T", 4),
    ("5~1~t01", 6),
    ("5~1~t16777217", 12),
    // one item is there, and no other begins so
    ("5~2~t1:a~", 8),
    ("10~01", 4),
    ("10~1~1.", 5),
    ("10~1~0.2.1~", 7),
    ("10~1~0.1.0~", 9),
    ("10~1~0.1.4294967296", 18),
    ("10~1~0.1.1~0.1.1.", 16),
    ("10~1~0.1.1~0.1.1~01", 18),
    ("29~4294967296", 12),
    ("1~1~0.1~0.0", 10),
];

/// Bytes behind which more has to come.
const MORE: &[&str] = &[
    "",
    "?",
    "?1",
    "1",
    "4",
    "5~65536~",
    "5~1~t5:hel",
    "5~1~t16777216:",
    "10~65536~",
    "10~1~0.1.4294967295",
];

fn name_of_refusal(refusal: &Refusal) -> &'static str {
    match refusal {
        Refusal::NoAccount => "no account",
        Refusal::NoSuchEnd => "no such end",
        Refusal::Memory => "memory",
        Refusal::Private => "private",
        _ => "another refusal",
    }
}

fn name_of(reply: &Reply) -> &'static str {
    match reply {
        Reply::Inserted => "inserted",
        Reply::Copied => "copied",
        Reply::Rearranged => "rearranged",
        Reply::Deleted => "deleted",
        Reply::Quit => "quit",
        Reply::AccountSet => "account set",
        Reply::Closed => "closed",
        Reply::SpanSet(_) => "span set",
        Reply::WholeSpan(_) => "whole span",
        Reply::Retrieved(_) => "retrieved",
        Reply::Related(_) => "related",
        Reply::Created(_) => "created",
        Reply::Versioned(_) => "versioned",
        Reply::Linked(_) => "linked",
        Reply::Opened(_) => "opened",
        Reply::Followed(_) => "followed",
        Reply::Documents(_) => "documents",
        Reply::EndSets { .. } => "end sets",
        Reply::LinkCount(_) => "link count",
        Reply::Links(_) => "links",
        Reply::NextLinks(_) => "next links",
        Reply::Refused(refusal) => name_of_refusal(refusal),
        Reply::Published => "published",
    }
}

/// The name of the reply in which the bytes begin, how many bytes spell it, and how it is written.
fn read_and_written(alloc: Global, bytes: &[u8]) -> Result<(&'static str, usize, Text), Fail> {
    let GotReply::Reply { reply, used } = read_reply(alloc, bytes)? else {
        return Err(Fail::from("no reply"));
    };
    let written = write_reply(alloc, &reply)?;
    Ok((name_of(&reply), used, written))
}

/// Reads and writes the reply, alone and with other bytes behind it.
fn check_reply(rt: &impl Abort, alloc: Global, name: &str, spelling: &str) -> Result<(), Fail> {
    for tail in ["", "~", "0", "?1~"] {
        let mut bytes = Text::from_slice(alloc, spelling.as_bytes())?;
        bytes.extend_from_slice(tail.as_bytes())?;
        let (read, used, written) = read_and_written(alloc, bytes.as_slice())?;
        assert_eq!(rt; read, name, "at {spelling}");
        assert_eq!(rt; used, spelling.len(), "at {spelling}");
        assert_eq!(rt; written.as_slice(), spelling.as_bytes(), "at {spelling}");
    }
    Ok(())
}

#[test]
fn each_reply_is_read_and_written(rt: HostRuntime) -> Result<(), Fail> {
    for (name, spelling) in REPLIES {
        check_reply(&rt, rt.alloc(), name, spelling)?;
    }
    Ok(())
}

fn check_prefixes(rt: &impl Abort, alloc: Global, spelling: &str) -> Result<(), Fail> {
    let bytes = spelling.as_bytes();
    for cut in 0..bytes.len() {
        let got = read_reply(alloc, &bytes[..cut])?;
        assert!(rt; matches!(&got, GotReply::More), "at {cut} of {spelling}");
    }
    Ok(())
}

#[test]
fn each_prefix_wants_more(rt: HostRuntime) -> Result<(), Fail> {
    for (_, spelling) in REPLIES {
        check_prefixes(&rt, rt.alloc(), spelling)?;
    }
    for bytes in MORE {
        let got = read_reply(rt.alloc(), bytes.as_bytes())?;
        assert!(rt; matches!(&got, GotReply::More), "at {bytes}");
    }
    Ok(())
}

/// The place that is bad.
fn place_of(got: &GotReply) -> Option<usize> {
    match got {
        GotReply::Bad { at } => Some(*at),
        _ => None,
    }
}

#[test]
fn bytes_that_begin_no_reply(rt: HostRuntime) -> Result<(), Fail> {
    for (bytes, place) in BAD {
        let got = read_reply(rt.alloc(), bytes.as_bytes())?;
        assert_eq!(rt; place_of(&got), Some(*place), "at {bytes}");
    }
    Ok(())
}

#[test]
fn items_that_were_read(rt: HostRuntime) -> Result<(), Fail> {
    let GotReply::Reply { reply, .. } = read_reply(rt.alloc(), b"5~2~t2:hi0.7~")? else {
        return Err(Fail::from("no reply"));
    };
    let Reply::Retrieved(items) = &reply else {
        return Err(Fail::from("no items"));
    };
    let [Item::Bytes(text), Item::Link(id)] = items.as_slice() else {
        return Err(Fail::from("other items"));
    };
    assert_eq!(rt; text.as_slice(), b"hi".as_slice());
    assert_eq!(rt; id.places(), [7].as_slice());
    Ok(())
}

#[test]
fn diagonals_that_were_read(rt: HostRuntime) -> Result<(), Fail> {
    let GotReply::Reply { reply, .. } = read_reply(rt.alloc(), b"10~1~0.1.4~0.1.12~3~")? else {
        return Err(Fail::from("no reply"));
    };
    let Reply::Related(diagonals) = &reply else {
        return Err(Fail::from("no diagonals"));
    };
    let [diagonal] = diagonals.as_slice() else {
        return Err(Fail::from("other diagonals"));
    };
    assert_eq!(rt; diagonal.left, 4);
    assert_eq!(rt; diagonal.right, 12);
    assert_eq!(rt; diagonal.length, 3);
    Ok(())
}
