//! Fields at bytes that were worked out by hand.

use febe_data::{Mode, Rule};
use febe_fields::{
    Field, Scanned, Scanner, mode_at, number_at, rule_at, span_at, spans_at, spec_at, specs_at,
    text_at, tumbler_at, tumblers_at,
};
use std::test::Fail;

#[test]
fn numbers_texts_and_choices(rt: HostRuntime) {
    assert_eq!(rt;
        number_at(b"4294967295~0"),
        Some((4294967295, b"0".as_slice()))
    );
    assert_eq!(rt; number_at(b"00~"), None);
    assert_eq!(rt;
        text_at(b"t3:abcd"),
        Some((b"abc".as_slice(), b"d".as_slice()))
    );
    assert!(rt; matches!(mode_at(b"1~"), Some((Mode::Read, []))));
    assert!(rt; matches!(rule_at(b"3~"), Some((Rule::Always, []))));
}

#[test]
fn tumblers_and_spans(rt: HostRuntime) -> Result<(), Fail> {
    let alloc = rt.alloc();
    let Some((document, rest)) = tumbler_at(alloc, b"2.1.0.7~~") else {
        return Err(Fail::from("no tumbler"));
    };
    assert_eq!(rt; document.places(), [0, 0, 1, 0, 7].as_slice());
    assert_eq!(rt; rest, b"~".as_slice());
    let Some((span, _)) = span_at(alloc, b"0.1.5~1.3~") else {
        return Err(Fail::from("no span"));
    };
    assert_eq!(rt; span.start.places(), [1, 5].as_slice());
    assert_eq!(rt; span.width.places(), [0, 3].as_slice());
    let Some((tumblers, _)) = tumblers_at(alloc, b"2~0.1~0.2~")? else {
        return Err(Fail::from("no tumblers"));
    };
    assert_eq!(rt; tumblers.len(), 2);
    let Some((spans, _)) = spans_at(alloc, b"1~0.1~1.5~")? else {
        return Err(Fail::from("no spans"));
    };
    assert_eq!(rt; spans.len(), 1);
    Ok(())
}

#[test]
fn specs(rt: HostRuntime) -> Result<(), Fail> {
    let alloc = rt.alloc();
    let Some((spec, _)) = spec_at(alloc, b"0.1~1~0.1~1.5~")? else {
        return Err(Fail::from("no spec"));
    };
    assert_eq!(rt; spec.document.places(), [1].as_slice());
    assert_eq!(rt; spec.spans.len(), 1);
    let Some((specs, rest)) = specs_at(alloc, b"1~0.1~1~0.1~1.5~7")? else {
        return Err(Fail::from("no specs"));
    };
    assert_eq!(rt; specs.len(), 1);
    assert_eq!(rt; rest, b"7".as_slice());
    Ok(())
}

#[test]
fn scans(rt: HostRuntime) {
    for (field, bytes, used) in [
        (Field::Tumbler, "0.1.1.0.1~~", 10),
        (Field::Number, "10~", 3),
        (Field::Text, "t3:abc", 6),
        (Field::Span, "0.1.5~1.3~", 10),
        (Field::Specs, "1~0.1~1~0.1~1.5~", 16),
        (Field::Rule, "3~", 2),
    ] {
        let scanned = Scanner::open(field, &[]).scan(bytes.as_bytes());
        assert_eq!(rt; scanned, Scanned::Complete { used }, "{bytes}");
    }
    let texts = Scanner::open(Field::Text, &[Field::Mode]);
    assert_eq!(rt; texts.scan(b"t3:abc"), Scanned::Incomplete);
    assert_eq!(rt; texts.scan(b"t3:abc3~"), Scanned::Bad { at: 6 });
}
