//! How many bytes the fields of entries are written in. Nothing here takes memory.
ghost use Rattle.std.specs.Prelude.{◌≡◌, ◌≤◌, length, map, All};
ghost use Rattle.std.specs.List.{flat_map};
ghost use Rattle.febe_data.specs.Plain.{plain_spec, plain_change};
ghost use Rattle.febe_data.specs.Validity.{IsSpan, IsSpec, IsSpecSet};
ghost use Rattle.entry_codec.specs.Format.{tumbler_bytes, span_bytes, spec_bytes, specs_bytes, text_bytes, change_bytes};
ghost use Rattle.entry_codec.specs.Bodies.{IsEncodable};

use crate::fields::length_size;
use crate::format::LogFormat;
use febe_data::{Change, Span, Spec, Tumbler};

/// The bytes of a tumbler: its count of places, and the places.
fn tumbler_size(tumbler: &Tumbler) -> u64
    ensures is { result ≡ length (tumbler_bytes tumbler.now) }
    ensures few { result ≤ 97 }
{
    1 + 4 * tumbler.places().len() as u64
}

fn span_size(span: &Span) -> u64
    ensures is { result ≡ length (span_bytes span.now) }
    ensures few { result ≤ 194 }
{
    tumbler_size(&span.start) + tumbler_size(&span.width)
}

/// Spans, without their count.
fn each_span_size(spans: &[Span]) -> u64
    requires { length spans.now ≤ 65536 }
    ensures is { result ≡ length (flat_map span_bytes spans.now) }
    ensures few { result ≤ 12713984 }
{
    let mut size = 0;
    for span in spans {
        size += span_size(span);
    }
    size
}

fn spec_size(spec: &Spec) -> u64
    requires { length spec.now.spans.items ≤ 65536 }
    ensures is { result ≡ length (spec_bytes (plain_spec spec.now)) }
    ensures few { result ≤ 12714085 }
{
    tumbler_size(&spec.document) + 4 + each_span_size(spec.spans.as_slice())
}

/// Specs, without their count.
fn each_spec_size(specs: &[Spec]) -> u64
    requires few { length specs.now ≤ 65536 }
    requires each { All IsSpec (map plain_spec specs.now) }
    ensures { result ≡ length (flat_map spec_bytes (map plain_spec specs.now)) }
{
    let mut size = 0;
    for spec in specs {
        size += spec_size(spec);
    }
    size
}

/// A list of specs.
fn specs_size(specs: &[Spec]) -> u64
    requires { IsSpecSet (map plain_spec specs.now) }
    ensures is { result ≡ length (specs_bytes (map plain_spec specs.now)) }
    ensures few { result ≤ 19333124 }
{
    4 + each_spec_size(specs)
}

/// A text: its length and its bytes.
fn text_size(format: LogFormat, text: &[u8]) -> u64
    requires { length text.now ≤ 16777216 }
    ensures is { result ≡ length (text_bytes format text.now) }
    ensures few { result ≤ 16777224 }
{
    length_size(format) as u64 + text.len() as u64
}

/// The fields of a change that is logged.
pub(crate) fn change_size(format: LogFormat, change: &Change) -> u64
    requires { IsEncodable (plain_change change.now) }
    ensures is { result ≡ length (change_bytes format (plain_change change.now)) }
    ensures few { result ≤ 60000000 }
{
    match change {
        Change::Create { document } => tumbler_size(document),
        Change::Version { source, document } => tumbler_size(source) + tumbler_size(document),
        Change::OpenCopy { source, document } => tumbler_size(source) + tumbler_size(document),
        // the place and the number of the first byte have four bytes each
        Change::Insert {
            document,
            at: _,
            first: _,
            text,
        } => tumbler_size(document) + 8 + text_size(format, text.as_slice()),
        Change::Delete { document, span } => tumbler_size(document) + span_size(span),
        Change::Rearrange { document, cuts } => tumbler_size(document) + 4 + 4 * cuts.len() as u64,
        Change::Copy {
            document,
            at: _,
            specs,
        } => tumbler_size(document) + 4 + specs_size(specs.as_slice()),
        // so have the number of the link and its place
        Change::Link {
            home,
            number: _,
            place: _,
            from,
            to,
            three,
        } => {
            tumbler_size(home)
                + 8
                + specs_size(from.as_slice())
                + specs_size(to.as_slice())
                + specs_size(three.as_slice())
        }
        Change::Publish { document } => tumbler_size(document),
        _ => 0,
    }
}
