//! Sessions that were made elsewhere, with pages behind each kept entry, behind a few, and with none.

use crate::disk_rows::disk_failing;
use crate::generated_rows::{folded, spelled};
use crate::paged_runs::{beside_log, log_alone, position_in, run_on_bytes};
use crate::runs::Ran;
use crate::store_rows::{
    Asked, House, ask, asks_all, begin, house_over, reopened, settles, sweeps,
};
use crate::summary_rows::REPLIES;
use febe_data::{Memory, Request, Text};
use febe_wire::write_request;
use green_io::Area;
use green_top::generated;
use std::alloc::Global;
use std::process::Abort;
use std::test::Fail;

/// Pages behind each kept entry.
const EACH: &[&str] = &["green_batch", ".", "--limits", "4194304", "1073741824", "1"];

/// Pages behind a few.
const FEW: &[&str] = &[
    "green_batch",
    ".",
    "--limits",
    "4194304",
    "1073741824",
    "32",
];

/// No pages before so many are kept.
const NONE: &[&str] = &[
    "green_batch",
    ".",
    "--limits",
    "4194304",
    "1073741824",
    "4194304",
];

/// A greeting and the first requests of the start 7.
fn first_requests(alloc: Global, count: usize) -> Result<Text, Memory> {
    let requests = generated(alloc, 7)?;
    let mut bytes = Text::from_slice(alloc, b"P0~")?;
    for (before, request) in requests.as_slice().iter().enumerate() {
        if before < count {
            let spelling = write_request(alloc, request)?;
            bytes.extend_from_slice(spelling.as_slice())?;
        }
    }
    Ok(bytes)
}

fn run_mixed(alloc: Global, words: &[&str], count: usize) -> Result<Ran, Fail> {
    let input = first_requests(alloc, count)?;
    run_on_bytes(alloc, words, disk_failing(alloc, &[])?, input)
}

#[test]
fn pages_change_no_reply(rt: HostRuntime) -> Result<(), Fail> {
    let alloc = rt.alloc();
    let each = run_mixed(alloc, EACH, 400)?;
    let none = run_mixed(alloc, NONE, 400)?;
    assert!(rt; each.status == 0 && none.status == 0);
    assert!(rt; each.written() == none.written());
    assert!(rt; each.disk.area(Area::Second) == none.disk.area(Area::Second));
    assert!(rt; position_in(each.disk.area(Area::Home)).is_some());
    assert!(rt; none.disk.area(Area::Home).is_empty());
    Ok(())
}

#[test]
fn replies_with_pages_are_those_of_elsewhere(rt: HostRuntime) -> Result<(), Fail> {
    let alloc = rt.alloc();
    let mut input = Text::from_slice(alloc, b"P0~")?;
    input.extend_from_slice(spelled(alloc, 7)?.as_slice())?;
    let ran = run_on_bytes(alloc, FEW, disk_failing(alloc, &[])?, input)?;
    assert!(rt; ran.status == 0);
    let written = ran.written();
    assert!(rt; written.starts_with(b"P0~"));
    assert!(rt; folded(written.split_at(3).1) == REPLIES);
    Ok(())
}

/// The later session opens the eight documents for writing.
const OPENS: &[Asked] = &[
    ("34~0.1.1.0.1~", "34~"),
    ("35~0.1.1.0.1.0.1~2~1~", "35~0.1.1.0.1.0.1~"),
    ("35~0.1.1.0.1.0.2~2~1~", "35~0.1.1.0.1.0.2~"),
    ("35~0.1.1.0.1.0.3~2~1~", "35~0.1.1.0.1.0.3~"),
    ("35~0.1.1.0.1.0.4~2~1~", "35~0.1.1.0.1.0.4~"),
    ("35~0.1.1.0.1.0.5~2~1~", "35~0.1.1.0.1.0.5~"),
    ("35~0.1.1.0.1.0.6~2~1~", "35~0.1.1.0.1.0.6~"),
    ("35~0.1.1.0.1.0.7~2~1~", "35~0.1.1.0.1.0.7~"),
    ("35~0.1.1.0.1.0.8~2~1~", "35~0.1.1.0.1.0.8~"),
];

/// Two stores that have been told the same, and session 2 of each.
struct Pair {
    paged: House,
    plain: House,
}

/// By hand, so that a caller's exits do not look into the fields.
impl Drop for Pair {
    fn drop(self) {
        let Pair { paged: _, plain: _ } = self;
    }
}

/// One goes on from what the run has left, pages and log, and one from the log alone.
fn pair_of(rt: &impl Abort, alloc: Global, ran: &Ran) -> Result<Pair, Fail> {
    let log = ran.disk.area(Area::Second);
    let mut paged = house_over(alloc, beside_log(alloc, &ran.disk, log)?, 16)?;
    let mut plain = house_over(alloc, log_alone(alloc, &ran.disk)?, 4_194_304)?;
    assert!(rt; begin(alloc, &mut paged) == Some(2));
    assert!(rt; begin(alloc, &mut plain) == Some(2));
    asks_all(rt, alloc, &mut paged, 2, OPENS)?;
    asks_all(rt, alloc, &mut plain, 2, OPENS)?;
    Ok(Pair { paged, plain })
}

impl Pair {
    /// Both answer the same, and then put right one thing, if there is one.
    fn check(&mut self, rt: &impl Abort, alloc: Global, request: &Request) -> Result<(), Fail> {
        let told = ask(alloc, &mut self.paged, 2, request.try_clone(alloc)?)?;
        let wanted = ask(alloc, &mut self.plain, 2, request.try_clone(alloc)?)?;
        assert!(rt; told.as_slice() == wanted.as_slice());
        assert!(rt; !told.as_slice().is_empty());
        sweeps(alloc, &mut self.paged);
        sweeps(alloc, &mut self.plain);
        Ok(())
    }
}

/// The requests of the start 7 that come behind the first so many.
fn check_rest(
    rt: &impl Abort,
    alloc: Global,
    pair: &mut Pair,
    first: usize,
    until: usize,
) -> Result<(), Fail> {
    let requests = generated(alloc, 7)?;
    for (before, request) in requests.as_slice().iter().enumerate() {
        if first <= before && before < until {
            pair.check(rt, alloc, request)?;
        }
    }
    Ok(())
}

#[test]
fn a_store_goes_on_from_pages_as_from_its_log(rt: HostRuntime) -> Result<(), Fail> {
    let alloc = rt.alloc();
    let ran = run_mixed(alloc, FEW, 500)?;
    let position = position_in(ran.disk.area(Area::Home)).ok_or("no pages")?;
    let mut pair = pair_of(&rt, alloc, &ran)?;
    assert!(rt; pair.paged.store.flushed() == position);
    assert!(rt; pair.plain.store.flushed() == 0);
    check_rest(&rt, alloc, &mut pair, 500, 900)
}

/// The requests that insert a byte in front of a document, and a document for them.
const MAKES: &[Asked] = &[("34~0.1.1.0.1~", "34~"), ("11~", "11~A~")];

const INSERTS: &[Asked] = &[("0~A~0.1.1~t1:x", "0~")];

/// Inserts a byte so many times, with a background step behind each. Tells whether nodes were let go.
fn types(rt: &impl Abort, alloc: Global, house: &mut House, times: u64) -> Result<bool, Fail> {
    let mut swept = false;
    for _ in 0..times {
        asks_all(rt, alloc, house, 1, INSERTS)?;
        swept = sweeps(alloc, house) || swept;
    }
    Ok(swept)
}

/// What is there after so many inserts, in a later session.
const FINDS: &[Asked] = &[
    ("34~0.1.1.0.1~", "34~"),
    ("35~A~1~1~", "35~A~"),
    ("14~A~", "14~0.1.1~1.700~"),
    ("5~1~A~1~0.1.698~1.9~", "5~1~t3:xxx"),
];

#[test]
fn pages_come_behind_a_sweep(rt: HostRuntime) -> Result<(), Fail> {
    let alloc = rt.alloc();
    let mut house = house_over(alloc, disk_failing(alloc, &[])?, 64)?;
    assert!(rt; begin(alloc, &mut house) == Some(1));
    asks_all(&rt, alloc, &mut house, 1, MAKES)?;
    assert!(rt; types(&rt, alloc, &mut house, 700)?);
    assert!(rt; settles(alloc, &mut house));
    // Fewer than 64 of the 701 kept entries are not on pages.
    assert!(rt; house.store.flushed() > 637);
    let mut again = reopened(alloc, &house, 0)?;
    assert!(rt; again.store.flushed() == house.store.flushed());
    assert!(rt; begin(alloc, &mut again) == Some(2));
    asks_all(&rt, alloc, &mut again, 2, FINDS)
}
