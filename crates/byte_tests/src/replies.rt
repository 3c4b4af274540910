//! The spelling of each reply, beside the bytes that a front end reads.
ghost use Rattle.std.specs.Prelude.{◌≡◌, ◌≤◌, ◌<◌, length, IfOk};
ghost use Rattle.tumbler.specs.Places.{IsTumbler};
ghost use Rattle.febe_data.specs.Plain.{plain_reply, plain_spec, plain_specs};
ghost use Rattle.febe_data.specs.Validity.{IsText, IsSpan, IsSpec, IsSpecSet, IsList, IsReply};

mod reading;

use febe_data::{Diagonal, Item, List, Memory, Refusal, Reply, Span, Spec, Text, Tumbler};
use febe_reply::write_reply;
use std::alloc::Global;
use std::process::Abort;
use std::test::Fail;
use tumbler::BadTumbler;

fn text_of(alloc: Global, bytes: &[u8]) -> Result<Text, Memory>
    requires { length bytes.now ≤ 16777216 }
    ensures { IfOk result (λ text. IsText text.items) }
{
    List::from_slice(alloc, bytes)
}

fn tumbler_of(alloc: Global, places: &[u32]) -> Result<Tumbler, BadTumbler>
    ensures { IfOk result IsTumbler }
{
    let tumbler = Tumbler::from_places(alloc, places)?;
    let _places = tumbler.places();
    Ok(tumbler)
}

/// The tumbler of that one place.
fn made(alloc: Global, n: u32) -> Tumbler
    requires { 0 < n }
    ensures { IsTumbler result }
{
    let tumbler = Tumbler::zero(alloc).child(n);
    let _places = tumbler.places();
    tumbler
}

fn tumblers_of(alloc: Global, n: u32) -> Result<List<Tumbler>, Memory>
    requires { 0 < n }
    ensures { IfOk result (λ tumblers. IsList IsTumbler tumblers.items) }
{
    let mut tumblers = List::new(alloc);
    tumblers.push(made(alloc, n))?;
    Ok(tumblers)
}

/// The span from that number on, 5 wide.
fn span_of(alloc: Global, n: u32) -> Span
    requires { 0 < n }
    ensures { IsSpan result }
{
    Span {
        start: made(alloc, n),
        width: made(alloc, 5),
    }
}

fn spans_of(alloc: Global, n: u32) -> Result<List<Span>, Memory>
    requires { 0 < n }
    ensures spans { IfOk result (λ spans. IsList IsSpan spans.items) }
    ensures one { IfOk result (λ spans. length spans.items ≡ 1) }
{
    let mut spans = List::new(alloc);
    spans.push(span_of(alloc, n))?;
    Ok(spans)
}

fn spec_of(alloc: Global, n: u32) -> Result<Spec, Memory>
    requires { 0 < n }
    ensures spec { IfOk result (λ spec. IsSpec (plain_spec spec)) }
    ensures one { IfOk result (λ spec. length spec.spans.items ≡ 1) }
{
    Ok(Spec {
        document: made(alloc, n),
        spans: spans_of(alloc, n)?,
    })
}

fn specs_of(alloc: Global, n: u32) -> Result<List<Spec>, Memory>
    requires { 0 < n }
    ensures { IfOk result (λ specs. IsSpecSet (plain_specs specs.items)) }
{
    let mut specs = List::new(alloc);
    specs.push(spec_of(alloc, n)?)?;
    Ok(specs)
}

fn spells(rt: &impl Abort, alloc: Global, reply: Reply, spelling: &[u8]) -> Result<(), Memory>
    requires { IsReply (plain_reply reply) }
{
    assert_eq!(rt; write_reply(alloc, &reply)?.as_slice(), spelling);
    Ok(())
}

#[test]
fn replies_that_give_nothing(rt: HostRuntime) -> Result<(), Fail> {
    let alloc = rt.alloc();
    spells(&rt, alloc, Reply::Inserted, b"0~")?;
    spells(&rt, alloc, Reply::Copied, b"2~")?;
    spells(&rt, alloc, Reply::Rearranged, b"3~")?;
    spells(&rt, alloc, Reply::Deleted, b"12~")?;
    spells(&rt, alloc, Reply::Quit, b"16~")?;
    spells(&rt, alloc, Reply::AccountSet, b"34~")?;
    spells(&rt, alloc, Reply::Closed, b"36~")?;
    spells(&rt, alloc, Reply::Refused(Refusal::NoAccount), b"?1~")?;
    spells(&rt, alloc, Reply::Refused(Refusal::Memory), b"?14~")?;
    Ok(())
}

#[test]
fn replies_on_private_documents(rt: HostRuntime) -> Result<(), Fail> {
    let alloc = rt.alloc();
    spells(&rt, alloc, Reply::Published, b"40~")?;
    spells(&rt, alloc, Reply::Refused(Refusal::Private), b"?15~")?;
    Ok(())
}

#[test]
fn items_that_were_retrieved(rt: HostRuntime) -> Result<(), Fail> {
    let alloc = rt.alloc();
    spells(&rt, alloc, Reply::Retrieved(List::new(alloc)), b"5~0~")?;
    let mut text = List::new(alloc);
    text.push(Item::Bytes(text_of(alloc, b"hello")?))?;
    spells(&rt, alloc, Reply::Retrieved(text), b"5~1~t5:hello")?;
    let mut both = List::new(alloc);
    both.push(Item::Bytes(text_of(alloc, b"abefcd")?))?;
    both.push(Item::Link(tumbler_of(alloc, &[1, 1, 0, 1, 0, 1, 0, 2, 1])?))?;
    spells(
        &rt,
        alloc,
        Reply::Retrieved(both),
        b"5~2~t6:abefcd0.1.1.0.1.0.1.0.2.1~",
    )?;
    Ok(())
}

#[test]
fn places_and_a_number(rt: HostRuntime) -> Result<(), Fail> {
    let alloc = rt.alloc();
    let document = tumbler_of(alloc, &[1, 1, 0, 1, 0, 1])?;
    spells(&rt, alloc, Reply::Created(document), b"11~0.1.1.0.1.0.1~")?;
    spells(&rt, alloc, Reply::Versioned(made(alloc, 2)), b"13~0.2~")?;
    spells(&rt, alloc, Reply::Linked(made(alloc, 3)), b"27~0.3~")?;
    spells(&rt, alloc, Reply::Opened(made(alloc, 4)), b"35~0.4~")?;
    spells(&rt, alloc, Reply::LinkCount(90), b"29~90~")?;
    Ok(())
}

#[test]
fn lists_of_places(rt: HostRuntime) -> Result<(), Fail> {
    let alloc = rt.alloc();
    let documents = tumblers_of(alloc, 3)?;
    spells(&rt, alloc, Reply::Documents(documents), b"22~1~0.3~")?;
    let ids = tumblers_of(alloc, 4)?;
    spells(&rt, alloc, Reply::Links(ids), b"30~1~0.4~")?;
    let ids = tumblers_of(alloc, 6)?;
    spells(&rt, alloc, Reply::NextLinks(ids), b"31~1~0.6~")?;
    let diagonals = List::from_slice(
        alloc,
        &[Diagonal {
            left: 1,
            right: 12,
            length: 3,
        }],
    )?;
    let spelling = b"10~1~0.1.1~0.1.12~3~";
    spells(&rt, alloc, Reply::Related(diagonals), spelling)?;
    Ok(())
}

#[test]
fn spans_and_specs(rt: HostRuntime) -> Result<(), Fail> {
    let alloc = rt.alloc();
    let span = span_of(alloc, 1);
    spells(&rt, alloc, Reply::WholeSpan(span), b"14~0.1~0.5~")?;
    let spans = spans_of(alloc, 1)?;
    spells(&rt, alloc, Reply::SpanSet(spans), b"1~1~0.1~0.5~")?;
    let specs = specs_of(alloc, 2)?;
    spells(&rt, alloc, Reply::Followed(specs), b"18~1~0.2~1~0.2~0.5~")?;
    let ends = Reply::EndSets {
        from: specs_of(alloc, 7)?,
        to: specs_of(alloc, 8)?,
        three: specs_of(alloc, 9)?,
    };
    let spelling = b"28~1~0.7~1~0.7~0.5~1~0.8~1~0.8~0.5~1~0.9~1~0.9~0.5~";
    spells(&rt, alloc, ends, spelling)?;
    Ok(())
}
