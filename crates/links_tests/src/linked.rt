//! Links are added, found by what is at their ends, and taken back.
//!
//! At their ends is the first document's content: (3, 2) are its bytes 3 and 4. The link (2, 1) is the first one of
//! the second document.
ghost use Rattle.std.specs.Prelude.{◌≡◌, ◌⊎◌, ◌<◌, false, length, All, IsTrue};
ghost use Rattle.tumbler.specs.Address.{IsDocument};
ghost use Rattle.tumbler.specs.Span.{SpanFits};
ghost use Rattle.links.specs.LinkLists.{IsRun, IsLink, HoldsRuns, plain_link, has_in, most_links, marks_of};
ghost use Rattle.links.specs.Finding.{EndsFit, SpansFit};

use febe_data::Run;
use links::{LinkMarks, LinkRow, Links, WantedEnds};
use std::alloc::Global;
use std::process::Abort;
use std::test::Fail;
use tumbler::{List, Span, Tumbler};

mod plain;
mod random;
mod read;

fn tumbler(rt: &impl Abort, alloc: Global, places: &[u32]) -> Tumbler {
    Tumbler::from_places(alloc, places).expect(rt, "a tumbler")
}

fn document(rt: &impl Abort, alloc: Global, number: u32) -> Tumbler
    ensures { IsDocument result }
{
    let document = tumbler(rt, alloc, &[1, 1, 0, 1, 0, number]);
    assert!(rt; document.is_document());
    document
}

fn id(rt: &impl Abort, alloc: Global, name: (u32, u32)) -> Tumbler {
    tumbler(rt, alloc, &[1, 1, 0, 1, 0, name.0, 0, 2, name.1])
}

// ---- what is at the ends

fn run(rt: &impl Abort, alloc: Global, first: u32, length: u32) -> Run
    ensures { IsRun result }
{
    assert!(rt; 0 < first);
    assert!(rt; 0 < length);
    assert!(rt; first < 1_000);
    assert!(rt; length < 1_000);
    let content = document(rt, alloc, 1);
    Run {
        origin: content.copy(),
        content,
        first,
        length,
    }
}

fn runs(rt: &impl Abort, alloc: Global, plain: &[(u32, u32)]) -> List<Run>
    ensures { All IsRun result.items }
{
    let mut made = List::new(alloc);
    for bytes in plain {
        made.push(run(rt, alloc, bytes.0, bytes.1))
            .expect(rt, "memory");
    }
    made
}

/// What is at the ends of a link.
#[derive(Clone, Copy)]
struct Ends<'a> {
    from: &'a [(u32, u32)],
    to: &'a [(u32, u32)],
    three: &'a [(u32, u32)],
}

fn link(rt: &impl Abort, alloc: Global, name: (u32, u32), ends: Ends<'_>) -> LinkRow
    ensures { IsLink (plain_link result) }
{
    LinkRow {
        id: id(rt, alloc, name),
        home: document(rt, alloc, name.0),
        from: runs(rt, alloc, ends.from),
        to: runs(rt, alloc, ends.to),
        three: runs(rt, alloc, ends.three),
    }
}

/// Whether no link has the id.
#[tactic(auto, using(links::proofs::Trials::trials))]
fn is_new(links: &Links, id: &Tumbler) -> bool
    ensures { IsTrue result → has_in links.now.links id.now ≡ false }
{
    let Some(_link) = links.get(id) else {
        return true;
    };
    false
}

fn has_room(links: &Links) -> bool
    ensures { IsTrue result → length links.now.links < most_links }
{
    links.nth(4_294_967_293).is_none()
}

fn add(rt: &impl Abort, alloc: Global, links: &mut Links, name: (u32, u32), ends: Ends<'_>) {
    let link = link(rt, alloc, name, ends);
    assert!(rt; is_new(links, &link.id));
    assert!(rt; has_room(links));
    links.add(alloc, link).expect(rt, "memory");
}

const SECOND_OF_FIRST: Ends<'static> = Ends {
    from: &[(3, 2), (6, 1)],
    to: &[(1, 2)],
    three: &[(9, 1)],
};

/// The links (1, 1), (1, 2) and (2, 1).
fn three_links(rt: &impl Abort, alloc: Global) -> Links {
    let mut links = Links::new(alloc).expect(rt, "memory");
    let ends = Ends {
        from: &[(5, 1)],
        to: &[(7, 2)],
        three: &[(9, 1)],
    };
    add(rt, alloc, &mut links, (2, 1), ends);
    let ends = Ends {
        from: &[(1, 3)],
        to: &[(7, 1)],
        three: &[],
    };
    add(rt, alloc, &mut links, (1, 1), ends);
    add(rt, alloc, &mut links, (1, 2), SECOND_OF_FIRST);
    links
}

// ---- look-ups

/// Whether the link has this name.
fn is_named(link: Option<&LinkRow>, name: (u32, u32)) -> bool {
    let Some(link) = link else {
        return false;
    };
    link.id.places() == [1, 1, 0, 1, 0, name.0, 0, 2, name.1].as_slice()
        && link.home.places() == [1, 1, 0, 1, 0, name.0].as_slice()
}

#[test]
fn gives_links_back(rt: HostRuntime) -> Result<(), Fail> {
    let alloc = rt.alloc();
    let links = three_links(&rt, alloc);
    for name in [(1, 1), (1, 2), (2, 1)] {
        assert!(rt; is_named(links.get(&id(&rt, alloc, name)), name));
    }
    for name in [(1, 3), (2, 2), (3, 1)] {
        assert!(rt; links.get(&id(&rt, alloc, name)).is_none());
    }
    Ok(())
}

#[test]
fn counts_links_in_order_and_by_home(rt: HostRuntime) -> Result<(), Fail> {
    let alloc = rt.alloc();
    let links = three_links(&rt, alloc);
    links.in_order();
    assert!(rt; is_named(links.nth(0), (1, 1)));
    assert!(rt; is_named(links.nth(1), (1, 2)));
    assert!(rt; is_named(links.nth(2), (2, 1)));
    assert!(rt; links.nth(3).is_none());
    for (home, count) in [(1, 2), (2, 1), (3, 0)] {
        assert_eq!(rt;
            links.count_of_home(&document(&rt, alloc, home)),
            count,
            "of {home}"
        );
    }
    Ok(())
}

// ---- what is found

fn span(rt: &impl Abort, alloc: Global, first: u32, length: u32) -> Span
    ensures { SpanFits result }
{
    let span = Span {
        start: tumbler(rt, alloc, &[1, 1, 0, 1, 0, 1, 0, 1, first]),
        width: Tumbler::width(alloc, 9, length),
    };
    assert!(rt; span.fits());
    span
}

fn spans(rt: &impl Abort, alloc: Global, plain: &[(u32, u32)]) -> List<Span>
    ensures { All SpanFits result.items }
{
    let mut made = List::new(alloc);
    for bytes in plain {
        made.push(span(rt, alloc, bytes.0, bytes.1))
            .expect(rt, "memory");
    }
    made
}

/// The spans of what is asked of an end, if something is.
fn asked_of(rt: &impl Abort, alloc: Global, plain: Option<&[(u32, u32)]>) -> Option<List<Span>>
    ensures { SpansFit result }
{
    let Some(plain) = plain else {
        return None;
    };
    Some(spans(rt, alloc, plain))
}

/// What is asked of the ends.
#[derive(Clone, Copy)]
struct Asked<'a> {
    from: Option<&'a [(u32, u32)]>,
    to: Option<&'a [(u32, u32)]>,
    three: Option<&'a [(u32, u32)]>,
}

const ANY: Asked<'static> = Asked {
    from: None,
    to: None,
    three: None,
};

fn wanted(rt: &impl Abort, alloc: Global, asked: Asked<'_>) -> WantedEnds
    ensures { EndsFit result }
{
    WantedEnds {
        from: asked_of(rt, alloc, asked.from),
        to: asked_of(rt, alloc, asked.to),
        three: asked_of(rt, alloc, asked.three),
    }
}

fn is_id(id: &Tumbler, name: (u32, u32)) -> bool {
    id.places() == [1, 1, 0, 1, 0, name.0, 0, 2, name.1].as_slice()
}

fn are(found: &[Tumbler], expected: &[(u32, u32)]) -> bool {
    if found.len() != expected.len() {
        return false;
    }
    for (id, name) in found.iter().zip(expected) {
        if !is_id(id, *name) {
            return false;
        }
    }
    true
}

/// The span that holds a document, with all that is in it.
fn home(rt: &impl Abort, alloc: Global, number: u32) -> Span
    ensures { SpanFits result }
{
    let span = Span {
        start: document(rt, alloc, number),
        width: Tumbler::width(alloc, 6, 1),
    };
    assert!(rt; span.fits());
    span
}

fn homes(rt: &impl Abort, alloc: Global, numbers: &[u32]) -> List<Span>
    ensures { All SpanFits result.items }
{
    let mut made = List::new(alloc);
    for number in numbers {
        made.push(home(rt, alloc, *number)).expect(rt, "memory");
    }
    made
}

/// Whether these are all links that are found, of any home.
fn finds(
    rt: &impl Abort,
    alloc: Global,
    links: &Links,
    asked: Asked<'_>,
    expected: &[(u32, u32)],
) -> bool {
    let ends = wanted(rt, alloc, asked);
    let homes = homes(rt, alloc, &[]);
    let zero = Tumbler::zero(alloc);
    let found = links
        .find(alloc, &homes, &ends, &zero, 99)
        .expect(rt, "memory");
    are(found.as_slice(), expected)
}

/// Whether these are all links with one of the bytes at their first end.
fn finds_from(
    rt: &impl Abort,
    alloc: Global,
    links: &Links,
    from: &[(u32, u32)],
    expected: &[(u32, u32)],
) -> bool {
    let asked = Asked {
        from: Some(from),
        to: None,
        three: None,
    };
    finds(rt, alloc, links, asked, expected)
}

#[test]
fn finds_what_meets_one_end(rt: HostRuntime) -> Result<(), Fail> {
    let alloc = rt.alloc();
    let links = three_links(&rt, alloc);
    assert!(rt; finds(&rt, alloc, &links, ANY, &[(1, 1), (1, 2), (2, 1)]));
    assert!(rt; finds_from(&rt, alloc, &links, &[(3, 1)], &[(1, 1), (1, 2)]));
    assert!(rt; finds_from(&rt, alloc, &links, &[(6, 1), (5, 1)], &[(1, 2), (2, 1)]));
    assert!(rt; finds_from(&rt, alloc, &links, &[(2, 1), (2, 1)], &[(1, 1)]));
    assert!(rt; finds_from(&rt, alloc, &links, &[(7, 9)], &[]));
    assert!(rt; finds_from(&rt, alloc, &links, &[(3, 0)], &[]));
    assert!(rt; finds_from(&rt, alloc, &links, &[], &[]));
    Ok(())
}

/// Whether these are the links that are found above a bound, up to a limit, in the homes.
fn finds_above(
    rt: &impl Abort,
    alloc: Global,
    links: &Links,
    numbers: &[u32],
    after: &Tumbler,
    limit: u32,
    expected: &[(u32, u32)],
) -> bool {
    let ends = wanted(rt, alloc, ANY);
    let homes = homes(rt, alloc, numbers);
    let found = links
        .find(alloc, &homes, &ends, after, limit)
        .expect(rt, "memory");
    are(found.as_slice(), expected)
}

#[test]
fn finds_from_a_bound_on_up_to_a_limit_and_by_home(rt: HostRuntime) -> Result<(), Fail> {
    let alloc = rt.alloc();
    let links = three_links(&rt, alloc);
    let zero = Tumbler::zero(alloc);
    assert!(rt; finds_above(&rt, alloc, &links, &[], &zero, 0, &[]));
    assert!(rt; finds_above(&rt, alloc, &links, &[], &zero, 2, &[(1, 1), (1, 2)]));
    assert!(rt; finds_above(&rt, alloc, &links, &[2], &zero, 9, &[(2, 1)]));
    assert!(rt; finds_above(&rt, alloc, &links, &[3], &zero, 9, &[]));
    let home = document(&rt, alloc, 1);
    assert!(rt; finds_above(&rt, alloc, &links, &[], &home, 9, &[(1, 1), (1, 2), (2, 1)]));
    let first = id(&rt, alloc, (1, 1));
    assert!(rt; finds_above(&rt, alloc, &links, &[], &first, 1, &[(1, 2)]));
    assert!(rt; finds_above(&rt, alloc, &links, &[3, 1], &first, 9, &[(1, 2)]));
    let last = id(&rt, alloc, (2, 1));
    assert!(rt; finds_above(&rt, alloc, &links, &[], &last, 9, &[]));
    Ok(())
}

#[test]
fn finds_what_meets_each_end_that_is_given(rt: HostRuntime) -> Result<(), Fail> {
    let alloc = rt.alloc();
    let links = three_links(&rt, alloc);
    let both = Asked {
        from: Some(&[(3, 1)]),
        to: Some(&[(7, 1)]),
        three: None,
    };
    assert!(rt; finds(&rt, alloc, &links, both, &[(1, 1)]));
    let all = Asked {
        from: Some(&[(4, 2)]),
        to: Some(&[(2, 6)]),
        three: Some(&[(9, 1)]),
    };
    assert!(rt; finds(&rt, alloc, &links, all, &[(1, 2), (2, 1)]));
    let nothing = Asked {
        from: Some(&[(1, 9)]),
        to: Some(&[(1, 9)]),
        three: Some(&[]),
    };
    assert!(rt; finds(&rt, alloc, &links, nothing, &[]));
    Ok(())
}

fn is_span(span: &Span, bytes: (u32, u32)) -> bool {
    span.start.places() == [1, 1, 0, 1, 0, 1, 0, 1, bytes.0].as_slice()
        && span.width.places() == [0, 0, 0, 0, 0, 0, 0, 0, bytes.1].as_slice()
}

fn are_spans(found: &[Span], expected: &[(u32, u32)]) -> bool {
    if found.len() != expected.len() {
        return false;
    }
    for (span, bytes) in found.iter().zip(expected) {
        if !is_span(span, *bytes) {
            return false;
        }
    }
    true
}

/// Whether these are the spans of an end that meet some bytes.
fn has_spans(
    rt: &impl Abort,
    alloc: Global,
    links: &Links,
    end: u32,
    bytes: (u32, u32),
    expected: &[(u32, u32)],
) -> bool
    requires { (end ≡ 1) ⊎ (end ≡ 2) ⊎ (end ≡ 3) }
{
    let meeting = span(rt, alloc, bytes.0, bytes.1);
    let found = links
        .spans_of_end(alloc, end, &meeting)
        .expect(rt, "memory");
    are_spans(found.as_slice(), expected)
}

#[test]
fn gives_the_spans_of_each_end(rt: HostRuntime) -> Result<(), Fail> {
    let alloc = rt.alloc();
    let links = three_links(&rt, alloc);
    let from = [(1, 3), (3, 2), (5, 1), (6, 1)];
    assert!(rt; has_spans(&rt, alloc, &links, 1, (1, 20), &from));
    assert!(rt; has_spans(&rt, alloc, &links, 2, (1, 20), &[(1, 2), (7, 1), (7, 2)]));
    assert!(rt; has_spans(&rt, alloc, &links, 3, (1, 20), &[(9, 1)]));
    assert!(rt; has_spans(&rt, alloc, &links, 1, (3, 1), &[(1, 3), (3, 2)]));
    Ok(())
}

// ---- changes

/// A link comes in and is taken back.
#[tactic(auto, using(links::proofs::Trials::goes_again))]
fn come_and_go(rt: &impl Abort, alloc: Global, links: &mut Links, name: (u32, u32), ends: Ends<'_>)
    ensures { links.new.links ≡ links.old.links }
{
    let link = link(rt, alloc, name, ends);
    let id = link.id.copy();
    assert!(rt; is_new(links, &link.id));
    assert!(rt; has_room(links));
    let marks = marks(links);
    links.add(alloc, link).expect(rt, "memory");
    links.back(&id, &marks);
}

/// The marks of the indexes, which hold what is at the ends.
fn marks(links: &Links) -> LinkMarks
    ensures value { result ≡ marks_of links.now }
    ensures below { (result.from.root.0 < result.from.count) × (result.to.root.0 < result.to.count) × (result.three.root.0 < result.three.count) }
    ensures from { HoldsRuns 1 links.now.links links.now.from }
    ensures to { HoldsRuns 2 links.now.links links.now.to }
    ensures three { HoldsRuns 3 links.now.links links.now.three }
{
    let _from = links.index(1).mark();
    let _to = links.index(2).mark();
    let _three = links.index(3).mark();
    links.mark()
}

#[test]
fn goes_back(rt: HostRuntime) -> Result<(), Fail> {
    let alloc = rt.alloc();
    let mut links = three_links(&rt, alloc);
    come_and_go(&rt, alloc, &mut links, (1, 3), SECOND_OF_FIRST);
    assert!(rt; links.get(&id(&rt, alloc, (1, 3))).is_none());
    assert_eq!(rt; links.count_of_home(&document(&rt, alloc, 1)), 2);
    assert!(rt; is_named(links.nth(2), (2, 1)));
    Ok(())
}
