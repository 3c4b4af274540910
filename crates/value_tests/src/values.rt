//! The bounds, the copies, the spellings and the numbers, at values that are stated here.
ghost use Rattle.std.specs.Prelude.{◌<◌};

use febe_data::{
    BadLimits, Change, Diagonal, Entry, Generator, Item, Limits, List, Memory, Mode, Refusal,
    Reply, Request, Rule, Run, Span, Spec, Tumbler, Want, append_diagonals, append_items,
    append_number, append_span, append_spans, append_spec, append_specs, append_text,
    append_tumbler, append_tumblers,
};
use std::alloc::Global;
use std::process::Abort;
use std::test::Fail;

/// The tumbler of that one place.
fn made(alloc: Global, n: u32) -> Tumbler
    requires { 0 < n }
{
    Tumbler::zero(alloc).child(n)
}

fn is(tumbler: &Tumbler, n: u32) -> bool {
    tumbler.places() == [n].as_slice()
}

fn tumblers_of(alloc: Global, n: u32) -> Result<List<Tumbler>, Memory>
    requires { 0 < n }
{
    let mut tumblers = List::new(alloc);
    tumblers.push(made(alloc, n))?;
    Ok(tumblers)
}

fn are_tumblers(tumblers: &List<Tumbler>, n: u32) -> bool {
    match tumblers.get(0) {
        Some(tumbler) => tumblers.len() == 1 && is(tumbler, n),
        None => false,
    }
}

/// The span from that number on, 5 wide.
fn span_of(alloc: Global, n: u32) -> Span
    requires { 0 < n }
{
    Span {
        start: made(alloc, n),
        width: made(alloc, 5),
    }
}

fn spans_of(alloc: Global, n: u32) -> Result<List<Span>, Memory>
    requires { 0 < n }
{
    let mut spans = List::new(alloc);
    spans.push(span_of(alloc, n))?;
    Ok(spans)
}

fn are_spans(spans: &List<Span>, n: u32) -> bool {
    match spans.get(0) {
        Some(span) => spans.len() == 1 && is(&span.start, n) && is(&span.width, 5),
        None => false,
    }
}

fn spec_of(alloc: Global, n: u32) -> Result<Spec, Memory>
    requires { 0 < n }
{
    Ok(Spec {
        document: made(alloc, n),
        spans: spans_of(alloc, n)?,
    })
}

fn is_spec(spec: &Spec, n: u32) -> bool {
    is(&spec.document, n) && are_spans(&spec.spans, n)
}

fn specs_of(alloc: Global, n: u32) -> Result<List<Spec>, Memory>
    requires { 0 < n }
{
    let mut specs = List::new(alloc);
    specs.push(spec_of(alloc, n)?)?;
    Ok(specs)
}

fn are_specs(specs: &List<Spec>, n: u32) -> bool {
    match specs.get(0) {
        Some(spec) => specs.len() == 1 && is_spec(spec, n),
        None => false,
    }
}

/// A want whose homes are those of that number, and whose ends are 51, 52 and 53.
fn want_of(alloc: Global, n: u32) -> Result<Want, Memory>
    requires { 0 < n }
{
    Ok(Want {
        homes: spans_of(alloc, n)?,
        from: specs_of(alloc, 51)?,
        to: specs_of(alloc, 52)?,
        three: specs_of(alloc, 53)?,
    })
}

fn is_want(want: &Want, n: u32) -> bool {
    are_spans(&want.homes, n)
        && are_specs(&want.from, 51)
        && are_specs(&want.to, 52)
        && are_specs(&want.three, 53)
}

fn insert_of(alloc: Global) -> Result<Request, Memory> {
    let text = List::from_slice(alloc, b"hello")?;
    Ok(Request::Insert {
        document: made(alloc, 1),
        at: made(alloc, 2),
        text,
    })
}

fn copy_of(alloc: Global) -> Result<Request, Memory> {
    let specs = specs_of(alloc, 5)?;
    Ok(Request::Copy {
        document: made(alloc, 3),
        at: made(alloc, 4),
        specs,
    })
}

fn rearrange_of(alloc: Global) -> Result<Request, Memory> {
    let cuts = tumblers_of(alloc, 7)?;
    Ok(Request::Rearrange {
        document: made(alloc, 6),
        cuts,
    })
}

fn create_link_of(alloc: Global) -> Result<Request, Memory> {
    let from = specs_of(alloc, 9)?;
    let to = specs_of(alloc, 10)?;
    let three = specs_of(alloc, 11)?;
    Ok(Request::CreateLink {
        home: made(alloc, 8),
        from,
        to,
        three,
    })
}

fn is_changing(request: &Request) -> bool {
    match request {
        Request::Insert { document, at, text } => {
            is(document, 1) && is(at, 2) && text.as_slice() == b"hello".as_slice()
        }
        Request::Copy {
            document,
            at,
            specs,
        } => is(document, 3) && is(at, 4) && are_specs(specs, 5),
        Request::Rearrange { document, cuts } => is(document, 6) && are_tumblers(cuts, 7),
        Request::CreateLink {
            home,
            from,
            to,
            three,
        } => { is(home, 8) && are_specs(from, 9) && are_specs(to, 10) && are_specs(three, 11) }
        Request::Publish { document } => is(document, 12),
        _ => false,
    }
}

fn relate_of(alloc: Global) -> Result<Request, Memory> {
    let left = spec_of(alloc, 22)?;
    let right = spec_of(alloc, 23)?;
    Ok(Request::Relate { left, right })
}

fn next_links_of(alloc: Global) -> Result<Request, Memory> {
    let want = want_of(alloc, 28)?;
    Ok(Request::NextLinks {
        want,
        after: made(alloc, 29),
        limit: 30,
    })
}

fn is_looking(request: &Request) -> bool {
    match request {
        Request::Retrieve { specs } => are_specs(specs, 21),
        Request::Relate { left, right } => is_spec(left, 22) && is_spec(right, 23),
        Request::FindDocuments { specs } => are_specs(specs, 24),
        Request::EndSets { specs } => are_specs(specs, 25),
        Request::CountLinks { want } => is_want(want, 26),
        Request::FindLinks { want } => is_want(want, 27),
        Request::NextLinks { want, after, limit } => is_want(want, 28)
            && is(after, 29)
            && *limit == 30,
        _ => false,
    }
}

fn items_of(alloc: Global) -> Result<List<Item>, Memory> {
    let text = List::from_slice(alloc, b"abc")?;
    let mut items = List::new(alloc);
    items.push(Item::Bytes(text))?;
    items.push(Item::Link(made(alloc, 1)))?;
    Ok(items)
}

fn diagonals_of(alloc: Global) -> Result<List<Diagonal>, Memory> {
    let diagonal = Diagonal {
        left: 3,
        right: 4,
        length: 5,
    };
    List::from_slice(alloc, &[diagonal.copy()])
}

fn end_sets_of(alloc: Global) -> Result<Reply, Memory> {
    let from = specs_of(alloc, 8)?;
    let to = specs_of(alloc, 9)?;
    let three = specs_of(alloc, 10)?;
    Ok(Reply::EndSets { from, to, three })
}

fn are_items(items: &List<Item>) -> bool {
    match (items.get(0), items.get(1)) {
        (Some(Item::Bytes(text)), Some(Item::Link(id))) => {
            items.len() == 2 && text.as_slice() == b"abc".as_slice() && is(id, 1)
        }
        _ => false,
    }
}

fn is_reply(reply: &Reply) -> bool {
    match reply {
        Reply::Retrieved(items) => are_items(items),
        Reply::SpanSet(spans) => are_spans(spans, 2),
        Reply::Related(diagonals) => {
            diagonals.as_slice()
                == [Diagonal {
                    left: 3,
                    right: 4,
                    length: 5,
                }]
                .as_slice()
        }
        Reply::Followed(specs) => are_specs(specs, 6),
        Reply::Documents(documents) => are_tumblers(documents, 7),
        Reply::EndSets { from, to, three } => {
            are_specs(from, 8) && are_specs(to, 9) && are_specs(three, 10)
        }
        Reply::Links(ids) => are_tumblers(ids, 11),
        Reply::NextLinks(ids) => are_tumblers(ids, 12),
        _ => false,
    }
}

fn inserted(alloc: Global) -> Result<Change, Memory> {
    let text = List::from_slice(alloc, b"abc")?;
    Ok(Change::Insert {
        document: made(alloc, 1),
        at: 4,
        first: 9,
        text,
    })
}

fn rearranged(alloc: Global) -> Result<Change, Memory> {
    let cuts = List::from_slice(alloc, &[2, 3, 5])?;
    Ok(Change::Rearrange {
        document: made(alloc, 2),
        cuts,
    })
}

fn copied(alloc: Global) -> Result<Change, Memory> {
    let specs = specs_of(alloc, 4)?;
    Ok(Change::Copy {
        document: made(alloc, 3),
        at: 6,
        specs,
    })
}

fn linked(alloc: Global) -> Result<Change, Memory> {
    let from = specs_of(alloc, 6)?;
    let to = specs_of(alloc, 7)?;
    let three = specs_of(alloc, 8)?;
    Ok(Change::Link {
        home: made(alloc, 5),
        number: 7,
        place: 8,
        from,
        to,
        three,
    })
}

fn is_change(change: &Change) -> bool {
    match change {
        Change::Insert {
            document,
            at,
            first,
            text,
        } => { is(document, 1) && *at == 4 && *first == 9 && text.as_slice() == b"abc".as_slice() }
        Change::Rearrange { document, cuts } => is(document, 2)
            && cuts.as_slice() == [2, 3, 5].as_slice(),
        Change::Copy {
            document,
            at,
            specs,
        } => is(document, 3) && *at == 6 && are_specs(specs, 4),
        Change::Link {
            home,
            number,
            place,
            from,
            to,
            three,
        } => {
            is(home, 5)
                && *number == 7
                && *place == 8
                && are_specs(from, 6)
                && are_specs(to, 7)
                && are_specs(three, 8)
        }
        Change::Publish { document } => is(document, 9),
        _ => false,
    }
}

#[test]
fn limits_at_and_past_their_bounds(rt: HostRuntime) -> Result<(), Fail> {
    let greatest = Limits::new(4_194_304, 1_073_741_824, 4_194_304)?.copy();
    assert_eq!(rt; greatest.entries(), 4_194_304);
    assert_eq!(rt; greatest.text(), 1_073_741_824);
    assert_eq!(rt; greatest.flush(), 4_194_304);
    assert_eq!(rt; Limits::new(0, 0, 1)?.flush(), 1);
    assert_eq!(rt; Limits::new(4_194_305, 0, 1), Err(BadLimits));
    assert_eq!(rt; Limits::new(0, 1_073_741_825, 1), Err(BadLimits));
    assert_eq!(rt; Limits::new(0, 0, 0), Err(BadLimits));
    assert_eq!(rt; Limits::new(0, 0, 4_194_305), Err(BadLimits));
    Ok(())
}

#[test]
fn numbers_of_refusals_modes_and_rules(rt: HostRuntime) {
    let refusals = [
        (Refusal::NoAccount, 1),
        (Refusal::NoSuchDocument, 2),
        (Refusal::NotOpen, 3),
        (Refusal::NotOpenForWriting, 4),
        (Refusal::NotOwner, 5),
        (Refusal::Conflict, 6),
        (Refusal::BadAddress, 7),
        (Refusal::BadCuts, 8),
        (Refusal::NoSuchLink, 9),
        (Refusal::NoSuchEnd, 10),
        (Refusal::TooLong, 11),
        (Refusal::Full, 12),
        (Refusal::Disk, 13),
        (Refusal::Memory, 14),
        (Refusal::Private, 15),
    ];
    for (refusal, number) in refusals.iter() {
        assert_eq!(rt; refusal.copy().number(), *number);
    }
    assert_eq!(rt; Mode::Read.copy().number(), 1);
    assert_eq!(rt; Mode::Write.number(), 2);
    assert_eq!(rt; Rule::Refuse.copy().number(), 1);
    assert_eq!(rt; Rule::Copy.number(), 2);
    assert_eq!(rt; Rule::Always.number(), 3);
}

#[test]
fn copies(rt: HostRuntime) {
    let run = Run {
        origin: made(rt.alloc(), 2),
        content: made(rt.alloc(), 1),
        first: 3,
        length: 5,
    };
    let copy = run.copy();
    assert!(rt; is(&copy.origin, 2) && is(&copy.content, 1));
    assert!(rt; copy.first == 3 && copy.length == 5);
}

fn check_changing(rt: &impl Abort, alloc: Global, request: Request) -> Result<(), Memory> {
    let copy = request.try_clone(alloc)?;
    assert!(rt; is_changing(&copy));
    Ok(())
}

#[test]
fn clones_of_changing_requests(rt: HostRuntime) -> Result<(), Fail> {
    let alloc = rt.alloc();
    check_changing(&rt, alloc, insert_of(alloc)?)?;
    check_changing(&rt, alloc, copy_of(alloc)?)?;
    check_changing(&rt, alloc, rearrange_of(alloc)?)?;
    check_changing(&rt, alloc, create_link_of(alloc)?)?;
    let document = made(alloc, 12);
    check_changing(&rt, alloc, Request::Publish { document })?;
    Ok(())
}

fn check_looking(rt: &impl Abort, alloc: Global, request: Request) -> Result<(), Memory> {
    let copy = request.try_clone(alloc)?;
    assert!(rt; is_looking(&copy));
    Ok(())
}

#[test]
fn clones_of_looking_requests(rt: HostRuntime) -> Result<(), Fail> {
    let alloc = rt.alloc();
    let specs = specs_of(alloc, 21)?;
    check_looking(&rt, alloc, Request::Retrieve { specs })?;
    check_looking(&rt, alloc, relate_of(alloc)?)?;
    let specs = specs_of(alloc, 24)?;
    check_looking(&rt, alloc, Request::FindDocuments { specs })?;
    let specs = specs_of(alloc, 25)?;
    check_looking(&rt, alloc, Request::EndSets { specs })?;
    let want = want_of(alloc, 26)?;
    check_looking(&rt, alloc, Request::CountLinks { want })?;
    let want = want_of(alloc, 27)?;
    check_looking(&rt, alloc, Request::FindLinks { want })?;
    check_looking(&rt, alloc, next_links_of(alloc)?)?;
    Ok(())
}

fn check_reply(rt: &impl Abort, alloc: Global, reply: Reply) -> Result<(), Memory> {
    let copy = reply.try_clone(alloc)?;
    assert!(rt; is_reply(&copy));
    Ok(())
}

#[test]
fn clones_of_replies(rt: HostRuntime) -> Result<(), Fail> {
    let alloc = rt.alloc();
    check_reply(&rt, alloc, Reply::Retrieved(items_of(alloc)?))?;
    check_reply(&rt, alloc, Reply::SpanSet(spans_of(alloc, 2)?))?;
    check_reply(&rt, alloc, Reply::Related(diagonals_of(alloc)?))?;
    check_reply(&rt, alloc, Reply::Followed(specs_of(alloc, 6)?))?;
    check_reply(&rt, alloc, Reply::Documents(tumblers_of(alloc, 7)?))?;
    check_reply(&rt, alloc, end_sets_of(alloc)?)?;
    check_reply(&rt, alloc, Reply::Links(tumblers_of(alloc, 11)?))?;
    check_reply(&rt, alloc, Reply::NextLinks(tumblers_of(alloc, 12)?))?;
    Ok(())
}

fn check_change(rt: &impl Abort, alloc: Global, change: Change) -> Result<(), Memory> {
    let entry = Entry {
        session: 2,
        serial: 7,
        change,
    };
    let copy = entry.try_clone(alloc)?;
    assert!(rt; copy.session == 2 && copy.serial == 7 && is_change(&copy.change));
    Ok(())
}

#[test]
fn clones_of_entries(rt: HostRuntime) -> Result<(), Fail> {
    let alloc = rt.alloc();
    check_change(&rt, alloc, inserted(alloc)?)?;
    check_change(&rt, alloc, rearranged(alloc)?)?;
    check_change(&rt, alloc, copied(alloc)?)?;
    check_change(&rt, alloc, linked(alloc)?)?;
    let document = made(alloc, 9);
    check_change(&rt, alloc, Change::Publish { document })?;
    Ok(())
}

#[test]
fn numbers_of_the_generator(rt: HostRuntime) {
    let mut from_seven = Generator::new(7);
    assert_eq!(rt; from_seven.next(), 2_118_330_556);
    assert_eq!(rt; from_seven.next(), 4_104_526_463);
    assert_eq!(rt; from_seven.next(), 3_893_713_506);
    let mut from_the_greatest = Generator::new(18_446_744_073_709_551_615);
    assert_eq!(rt; from_the_greatest.next(), 3_149_104_977);
}

#[test]
fn spellings_of_values(rt: HostRuntime) -> Result<(), Fail> {
    let alloc = rt.alloc();
    let mut out = List::new(alloc);
    append_tumbler(&mut out, &Tumbler::from_places(alloc, &[1, 1, 0, 1])?)?;
    append_tumbler(&mut out, &Tumbler::from_places(alloc, &[0, 5])?)?;
    append_tumbler(&mut out, &Tumbler::zero(alloc))?;
    append_span(&mut out, &span_of(alloc, 3))?;
    append_number(&mut out, 4_294_967_295)?;
    append_text(&mut out, b"hello")?;
    append_text(&mut out, b"")?;
    let spelling = b"0.1.1.0.1~1.5~0~0.3~0.5~4294967295~t5:hellot0:";
    assert_eq!(rt; out.as_slice(), spelling.as_slice());
    Ok(())
}

#[test]
fn spellings_of_lists(rt: HostRuntime) -> Result<(), Fail> {
    let alloc = rt.alloc();
    let mut out = List::new(alloc);
    append_tumblers(&mut out, &[made(alloc, 7)])?;
    append_spans(&mut out, &[span_of(alloc, 3)])?;
    let spec = Spec {
        document: made(alloc, 8),
        spans: List::new(alloc),
    };
    append_spec(&mut out, &spec)?;
    append_specs(&mut out, &[spec])?;
    append_items(&mut out, &[Item::Link(made(alloc, 9))])?;
    let diagonal = Diagonal {
        left: 1,
        right: 12,
        length: 3,
    };
    append_diagonals(&mut out, &[diagonal])?;
    let spelling = b"1~0.7~1~0.3~0.5~0.8~0~1~0.8~0~1~0.9~1~0.1.1~0.1.12~3~";
    assert_eq!(rt; out.as_slice(), spelling.as_slice());
    Ok(())
}
