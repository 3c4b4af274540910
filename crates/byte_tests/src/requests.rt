//! The grammar at bytes that were worked out by hand.

mod tables;

use self::tables::{
    BAD, BAD_NUMBERS, BAD_SPANS, FURTHER, MORE, MORE_NUMBERS, MORE_SPANS, NUMBERS, PARTS, REQUESTS,
    SPANS, SPELLED_NUMBERS, SPELLED_TUMBLERS,
};
use febe_data::{List, Memory, Mode, Request, Rule, Span, Spec, Text, Tumbler, Want};
use febe_wire::{
    Got, GotNumber, GotSpans, read_number, read_request, read_spans, write_number, write_request,
    write_tumbler,
};
use std::alloc::Global;
use std::process::Abort;
use std::test::Fail;

fn name_of(request: &Request) -> &'static str {
    match request {
        Request::Insert { .. } => "insert",
        Request::SpanSet { .. } => "span set",
        Request::Copy { .. } => "copy",
        Request::Rearrange { .. } => "rearrange",
        Request::Retrieve { .. } => "retrieve",
        Request::Relate { .. } => "relate",
        Request::Create => "create",
        Request::Delete { .. } => "delete",
        Request::Version { .. } => "version",
        Request::WholeSpan { .. } => "whole span",
        Request::Quit => "quit",
        Request::Follow { .. } => "follow",
        Request::FindDocuments { .. } => "find documents",
        Request::CreateLink { .. } => "create link",
        Request::EndSets { .. } => "end sets",
        Request::CountLinks { .. } => "count links",
        Request::FindLinks { .. } => "find links",
        Request::NextLinks { .. } => "next links",
        Request::Account { .. } => "account",
        Request::Open { .. } => "open",
        Request::Close { .. } => "close",
        Request::Publish { .. } => "publish",
    }
}

/// The place that is bad.
fn place_of(got: &Got) -> Option<usize> {
    match got {
        Got::Bad { at } => Some(*at),
        _ => None,
    }
}

fn wants_more(got: &Got) -> bool {
    matches!(got, Got::More)
}

/// How many bytes spell the request, where the bytes begin with one.
fn used_of(got: &Got) -> Option<usize> {
    match got {
        Got::Request { used, .. } => Some(*used),
        _ => None,
    }
}

/// The name of the request in which the bytes begin, how many bytes spell it, and how it is written.
fn read_and_written(alloc: Global, bytes: &[u8]) -> Result<(&'static str, usize, Text), Fail> {
    let Got::Request { request, used } = read_request(alloc, bytes)? else {
        return Err(Fail::from("no request"));
    };
    let written = write_request(alloc, &request)?;
    Ok((name_of(&request), used, written))
}

/// Reads and writes the request, alone and with other bytes behind it.
fn check_request(rt: &impl Abort, alloc: Global, name: &str, spelling: &str) -> Result<(), Fail> {
    for tail in ["", "~", ".1~", "0~", "16~", "t0:", spelling] {
        let mut bytes = Text::from_slice(alloc, spelling.as_bytes())?;
        bytes.extend_from_slice(tail.as_bytes())?;
        let (read, used, written) = read_and_written(alloc, bytes.as_slice())?;
        assert_eq!(rt; read, name, "at {spelling}");
        assert_eq!(rt; used, spelling.len(), "at {spelling}");
        assert_eq!(rt; written.as_slice(), spelling.as_bytes(), "at {spelling}");
    }
    Ok(())
}

#[test]
fn each_request_is_read_and_written(rt: HostRuntime) -> Result<(), Fail> {
    for (name, spelling, _) in REQUESTS {
        check_request(&rt, rt.alloc(), name, spelling)?;
    }
    for (name, spelling) in FURTHER {
        check_request(&rt, rt.alloc(), name, spelling)?;
    }
    Ok(())
}

fn check_prefixes(rt: &impl Abort, alloc: Global, spelling: &str) -> Result<(), Fail> {
    let bytes = spelling.as_bytes();
    for cut in 0..bytes.len() {
        let got = read_request(alloc, &bytes[..cut])?;
        assert!(rt; wants_more(&got), "at {cut} of {spelling}");
    }
    Ok(())
}

#[test]
fn each_prefix_wants_more(rt: HostRuntime) -> Result<(), Fail> {
    for (_, spelling, _) in REQUESTS {
        check_prefixes(&rt, rt.alloc(), spelling)?;
    }
    for (_, spelling) in FURTHER {
        check_prefixes(&rt, rt.alloc(), spelling)?;
    }
    for bytes in MORE {
        let got = read_request(rt.alloc(), bytes.as_bytes())?;
        assert!(rt; wants_more(&got), "at {bytes}");
    }
    Ok(())
}

/// The spelling with another byte at the index.
fn changed(alloc: Global, spelling: &str, index: usize, byte: u8) -> Result<Text, Memory> {
    let mut bytes = Text::new(alloc);
    for (k, old) in spelling.as_bytes().iter().enumerate() {
        bytes.push(if k == index { byte } else { *old })?;
    }
    Ok(bytes)
}

#[test]
fn each_changed_byte_is_found(rt: HostRuntime) -> Result<(), Fail> {
    for (_, spelling, changes) in REQUESTS {
        for (index, byte, place) in *changes {
            let bytes = changed(rt.alloc(), spelling, *index, *byte)?;
            let got = read_request(rt.alloc(), bytes.as_slice())?;
            assert_eq!(rt; place_of(&got), Some(*place), "at {index} of {spelling}");
        }
    }
    Ok(())
}

#[test]
fn bytes_that_begin_no_request(rt: HostRuntime) -> Result<(), Fail> {
    for (bytes, place) in BAD {
        let got = read_request(rt.alloc(), bytes.as_bytes())?;
        assert_eq!(rt; place_of(&got), Some(*place), "at {bytes}");
    }
    Ok(())
}

fn put_tumbler(out: &mut List<usize>, tumbler: &Tumbler) -> Result<(), Memory> {
    out.push(tumbler.places().len())?;
    for place in tumbler.places() {
        out.push(*place as usize)?;
    }
    Ok(())
}

fn put_span(out: &mut List<usize>, span: &Span) -> Result<(), Memory> {
    put_tumbler(out, &span.start)?;
    put_tumbler(out, &span.width)
}

fn put_spans(out: &mut List<usize>, spans: &List<Span>) -> Result<(), Memory> {
    out.push(spans.len())?;
    for span in spans.as_slice() {
        put_span(out, span)?;
    }
    Ok(())
}

fn put_spec(out: &mut List<usize>, spec: &Spec) -> Result<(), Memory> {
    put_tumbler(out, &spec.document)?;
    put_spans(out, &spec.spans)
}

fn put_specs(out: &mut List<usize>, specs: &List<Spec>) -> Result<(), Memory> {
    out.push(specs.len())?;
    for spec in specs.as_slice() {
        put_spec(out, spec)?;
    }
    Ok(())
}

fn put_want(out: &mut List<usize>, want: &Want) -> Result<(), Memory> {
    put_spans(out, &want.homes)?;
    put_specs(out, &want.from)?;
    put_specs(out, &want.to)?;
    put_specs(out, &want.three)
}

fn put_text(out: &mut List<usize>, text: &Text) -> Result<(), Memory> {
    out.push(text.len())?;
    for byte in text.as_slice() {
        out.push(usize::from(*byte))?;
    }
    Ok(())
}

fn put_tumblers(out: &mut List<usize>, tumblers: &List<Tumbler>) -> Result<(), Memory> {
    out.push(tumblers.len())?;
    for tumbler in tumblers.as_slice() {
        put_tumbler(out, tumbler)?;
    }
    Ok(())
}

fn number_of_mode(mode: &Mode) -> usize {
    match mode {
        Mode::Read => 1,
        Mode::Write => 2,
    }
}

fn number_of_rule(rule: &Rule) -> usize {
    match rule {
        Rule::Refuse => 1,
        Rule::Copy => 2,
        Rule::Always => 3,
    }
}

/// The parts of a request on links or without a document.
fn put_other(out: &mut List<usize>, request: &Request) -> Result<(), Memory> {
    match request {
        Request::Relate { left, right } => {
            put_spec(out, left)?;
            put_spec(out, right)
        }
        Request::Follow { link, end } => {
            put_tumbler(out, link)?;
            out.push(*end as usize)
        }
        Request::CreateLink {
            home,
            from,
            to,
            three,
        } => {
            put_tumbler(out, home)?;
            put_specs(out, from)?;
            put_specs(out, to)?;
            put_specs(out, three)
        }
        Request::CountLinks { want } => put_want(out, want),
        Request::FindLinks { want } => put_want(out, want),
        Request::NextLinks { want, after, limit } => {
            put_want(out, want)?;
            put_tumbler(out, after)?;
            out.push(*limit as usize)
        }
        Request::Retrieve { specs } => put_specs(out, specs),
        Request::FindDocuments { specs } => put_specs(out, specs),
        Request::EndSets { specs } => put_specs(out, specs),
        Request::Account { account } => put_tumbler(out, account),
        _ => Ok(()),
    }
}

/// The parts of a request, each by its name.
fn put_request(out: &mut List<usize>, request: &Request) -> Result<(), Memory> {
    match request {
        Request::Insert { document, at, text } => {
            put_tumbler(out, document)?;
            put_tumbler(out, at)?;
            put_text(out, text)
        }
        Request::Copy {
            document,
            at,
            specs,
        } => {
            put_tumbler(out, document)?;
            put_tumbler(out, at)?;
            put_specs(out, specs)
        }
        Request::Rearrange { document, cuts } => {
            put_tumbler(out, document)?;
            put_tumblers(out, cuts)
        }
        Request::Delete { document, span } => {
            put_tumbler(out, document)?;
            put_span(out, span)
        }
        Request::Open {
            document,
            mode,
            rule,
        } => {
            put_tumbler(out, document)?;
            out.push(number_of_mode(mode))?;
            out.push(number_of_rule(rule))
        }
        Request::SpanSet { document } => put_tumbler(out, document),
        Request::Version { document } => put_tumbler(out, document),
        Request::WholeSpan { document } => put_tumbler(out, document),
        Request::Close { document } | Request::Publish { document } => put_tumbler(out, document),
        other => put_other(out, other),
    }
}

#[test]
fn the_parts_of_each_request(rt: HostRuntime) -> Result<(), Fail> {
    for (bytes, wanted) in PARTS {
        let Got::Request { request, .. } = read_request(rt.alloc(), bytes.as_bytes())? else {
            return Err(Fail::from("no request"));
        };
        let mut parts = List::new(rt.alloc());
        put_request(&mut parts, &request)?;
        assert_eq!(rt; parts.as_slice(), *wanted, "at {bytes}");
    }
    Ok(())
}

#[test]
fn numbers_and_their_bounds(rt: HostRuntime) {
    for (bytes, most, wanted, length) in NUMBERS {
        match read_number(bytes.as_bytes(), *most) {
            GotNumber::Number { number, used } => {
                assert_eq!(rt; number, *wanted, "at {bytes}");
                assert_eq!(rt; used, *length, "at {bytes}");
            }
            _ => panic!(rt; "at {bytes}"),
        }
    }
    for (bytes, most, place) in BAD_NUMBERS {
        match read_number(bytes.as_bytes(), *most) {
            GotNumber::Bad { at } => assert_eq!(rt; at, *place, "at {bytes}"),
            _ => panic!(rt; "at {bytes}"),
        }
    }
    for (bytes, most) in MORE_NUMBERS {
        let got = read_number(bytes.as_bytes(), *most);
        assert!(rt; matches!(got, GotNumber::More), "at {bytes}");
    }
}

#[test]
fn lists_of_spans(rt: HostRuntime) -> Result<(), Fail> {
    for (bytes, count, length) in SPANS {
        match read_spans(rt.alloc(), bytes.as_bytes())? {
            GotSpans::Spans { spans, used } => {
                assert_eq!(rt; spans.len(), *count, "at {bytes}");
                assert_eq!(rt; used, *length, "at {bytes}");
            }
            _ => panic!(rt; "at {bytes}"),
        }
    }
    for (bytes, place) in BAD_SPANS {
        match read_spans(rt.alloc(), bytes.as_bytes())? {
            GotSpans::Bad { at } => assert_eq!(rt; at, *place, "at {bytes}"),
            _ => panic!(rt; "at {bytes}"),
        }
    }
    for bytes in MORE_SPANS {
        let got = read_spans(rt.alloc(), bytes.as_bytes())?;
        assert!(rt; matches!(got, GotSpans::More), "at {bytes}");
    }
    Ok(())
}

fn put_times(out: &mut Text, bytes: &str, times: usize) -> Result<(), Memory> {
    for _ in 0..times {
        out.extend_from_slice(bytes.as_bytes())?;
    }
    Ok(())
}

/// A retrieve of two specs of document 0, of 32,768 spans and of this many.
fn two_specs(alloc: Global, count: &str, spans: usize) -> Result<Text, Memory> {
    let mut bytes = Text::from_slice(alloc, b"5~2~0~32768~")?;
    put_times(&mut bytes, "0~0~", 32_768)?;
    bytes.extend_from_slice(b"0~")?;
    bytes.extend_from_slice(count.as_bytes())?;
    put_times(&mut bytes, "0~0~", spans)?;
    Ok(bytes)
}

#[test]
fn as_many_spans_as_a_set_may_have(rt: HostRuntime) -> Result<(), Fail> {
    let bytes = two_specs(rt.alloc(), "32768~", 32_768)?;
    let (name, used, written) = read_and_written(rt.alloc(), bytes.as_slice())?;
    assert_eq!(rt; name, "retrieve");
    // twelve bytes, the spans, eight bytes, the spans
    assert_eq!(rt; used, 12 + 4 * 32_768 + 8 + 4 * 32_768);
    assert_eq!(rt; written.as_slice(), bytes.as_slice());
    let bytes = two_specs(rt.alloc(), "32769~", 32_769)?;
    let got = read_request(rt.alloc(), bytes.as_slice())?;
    // the last digit of the second count
    assert_eq!(rt; place_of(&got), Some(12 + 4 * 32_768 + 2 + 4));
    Ok(())
}

/// The bytes, and behind them the item as many times as this.
fn filled(alloc: Global, bytes: &str, item: &str, times: usize) -> Result<Text, Memory> {
    let mut filled = Text::from_slice(alloc, bytes.as_bytes())?;
    put_times(&mut filled, item, times)?;
    Ok(filled)
}

/// Reads a list of 65,536 items, and one that lacks an item yet.
fn check_items(rt: &impl Abort, alloc: Global, prefix: &str, item: &str) -> Result<(), Fail> {
    let bytes = filled(alloc, prefix, item, 65_535)?;
    let got = read_request(alloc, bytes.as_slice())?;
    assert!(rt; wants_more(&got), "at {prefix}");
    let bytes = filled(alloc, prefix, item, 65_536)?;
    let got = read_request(alloc, bytes.as_slice())?;
    assert_eq!(rt; used_of(&got), Some(bytes.len()), "at {prefix}");
    Ok(())
}

#[test]
fn as_many_items_as_a_list_may_have(rt: HostRuntime) -> Result<(), Fail> {
    check_items(&rt, rt.alloc(), "22~65536~", "0~0~")?;
    check_items(&rt, rt.alloc(), "3~0~65536~", "0~")?;
    check_items(&rt, rt.alloc(), "5~1~0~65536~", "0~0~")
}

#[test]
fn numbers_and_tumblers_are_written_behind_what_is_there(rt: HostRuntime) -> Result<(), Fail> {
    for (number, wanted) in SPELLED_NUMBERS {
        let mut bytes = Text::from_slice(rt.alloc(), b"P0~")?;
        write_number(&mut bytes, *number)?;
        let mut whole = Text::from_slice(rt.alloc(), b"P0~")?;
        whole.extend_from_slice(wanted.as_bytes())?;
        assert_eq!(rt; bytes.as_slice(), whole.as_slice(), "at {wanted}");
    }
    for (places, wanted) in SPELLED_TUMBLERS {
        let mut bytes = Text::new(rt.alloc());
        write_tumbler(&mut bytes, &Tumbler::from_places(rt.alloc(), places)?)?;
        assert_eq!(rt; bytes.as_slice(), wanted.as_bytes(), "at {wanted}");
    }
    Ok(())
}
