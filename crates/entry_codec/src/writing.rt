//! How the fields of entries are written in the new format, at the end of a text.
ghost use Rattle.std.specs.Prelude.{◌≡◌, ◌≤◌, ◌++◌, ◌∷◌, [], length, map, All, OnOk};
ghost use Rattle.std.specs.List.{flat_map};
ghost use Rattle.febe_data.specs.Plain.{plain_spec, plain_specs, plain_change};
ghost use Rattle.febe_data.specs.Validity.{IsSpec, IsList, IsSpecSet};
ghost use Rattle.entry_codec.specs.Format.{u32_bytes, u64_bytes, tumbler_bytes, span_bytes, list_bytes, spec_bytes, specs_bytes, text_bytes, kind_of, change_bytes};
ghost use Rattle.entry_codec.specs.declared.format.LogFormat.TheVariants.{New};
ghost use Rattle.entry_codec.specs.Bodies.{IsEncodable};

use febe_data::{Change, Memory, Span, Spec, Text, Tumbler};

pub(crate) fn append_u8(out: &mut Text, n: u8) -> Result<(), Memory>
    ensures { OnOk result (out.new.items ≡ out.old.items ++ n ∷ []) }
{
    out.push(n)
}

pub(crate) fn append_u32(out: &mut Text, n: u32) -> Result<(), Memory>
    ensures { OnOk result (out.new.items ≡ out.old.items ++ u32_bytes n) }
{
    out.extend_from_slice(&n.to_be_bytes())
}

pub(crate) fn append_u64(out: &mut Text, n: u64) -> Result<(), Memory>
    ensures { OnOk result (out.new.items ≡ out.old.items ++ u64_bytes n) }
{
    out.extend_from_slice(&n.to_be_bytes())
}

fn append_each_number(out: &mut Text, numbers: &[u32]) -> Result<(), Memory>
    ensures { OnOk result (out.new.items ≡ out.old.items ++ flat_map u32_bytes numbers.now) }
{
    for number in numbers {
        append_u32(out, *number)?;
    }
    Ok(())
}

fn append_numbers(out: &mut Text, numbers: &[u32]) -> Result<(), Memory>
    requires { length numbers.now ≤ 65536 }
    ensures { OnOk result (out.new.items ≡ out.old.items ++ list_bytes u32_bytes numbers.now) }
{
    append_u32(out, numbers.len() as u32)?;
    append_each_number(out, numbers)
}

fn append_tumbler(out: &mut Text, tumbler: &Tumbler) -> Result<(), Memory>
    ensures { OnOk result (out.new.items ≡ out.old.items ++ tumbler_bytes tumbler.now) }
{
    let places = tumbler.places();
    append_u8(out, places.len() as u8)?;
    append_each_number(out, places)
}

fn append_two(out: &mut Text, one: &Tumbler, other: &Tumbler) -> Result<(), Memory>
    ensures { OnOk result (out.new.items ≡ out.old.items ++ (tumbler_bytes one.now ++ tumbler_bytes other.now)) }
{
    append_tumbler(out, one)?;
    append_tumbler(out, other)
}

fn append_text(out: &mut Text, text: &[u8]) -> Result<(), Memory>
    requires { length text.now ≤ 16777216 }
    ensures { OnOk result (out.new.items ≡ out.old.items ++ text_bytes New text.now) }
{
    append_u64(out, text.len() as u64)?;
    out.extend_from_slice(text)
}

fn append_span(out: &mut Text, span: &Span) -> Result<(), Memory>
    ensures { OnOk result (out.new.items ≡ out.old.items ++ span_bytes span.now) }
{
    append_tumbler(out, &span.start)?;
    append_tumbler(out, &span.width)
}

fn append_each_span(out: &mut Text, spans: &[Span]) -> Result<(), Memory>
    ensures { OnOk result (out.new.items ≡ out.old.items ++ flat_map span_bytes spans.now) }
{
    for span in spans {
        append_span(out, span)?;
    }
    Ok(())
}

fn append_spec(out: &mut Text, spec: &Spec) -> Result<(), Memory>
    requires { length spec.now.spans.items ≤ 65536 }
    ensures { OnOk result (out.new.items ≡ out.old.items ++ spec_bytes (plain_spec spec.now)) }
{
    append_tumbler(out, &spec.document)?;
    append_u32(out, spec.spans.len() as u32)?;
    append_each_span(out, spec.spans.as_slice())
}

fn append_each_spec(out: &mut Text, specs: &[Spec]) -> Result<(), Memory>
    requires { All IsSpec (map plain_spec specs.now) }
    ensures { OnOk result (out.new.items ≡ out.old.items ++ flat_map spec_bytes (map plain_spec specs.now)) }
{
    for spec in specs {
        append_spec(out, spec)?;
    }
    Ok(())
}

fn append_specs(out: &mut Text, specs: &[Spec]) -> Result<(), Memory>
    requires { IsSpecSet (map plain_spec specs.now) }
    ensures { OnOk result (out.new.items ≡ out.old.items ++ specs_bytes (map plain_spec specs.now)) }
{
    append_u32(out, specs.len() as u32)?;
    append_each_spec(out, specs)
}

/// The number of a logged change's kind, and 0 for all others.
pub(crate) fn kind_of(change: &Change) -> u8
    ensures { result ≡ kind_of (plain_change change.now) }
{
    match change {
        Change::Create { document: _ } => 1,
        Change::Version {
            source: _,
            document: _,
        } => 2,
        Change::OpenCopy {
            source: _,
            document: _,
        } => 3,
        Change::Insert {
            document: _,
            at: _,
            first: _,
            text: _,
        } => 4,
        Change::Delete {
            document: _,
            span: _,
        } => 5,
        Change::Rearrange {
            document: _,
            cuts: _,
        } => 6,
        Change::Copy {
            document: _,
            at: _,
            specs: _,
        } => 7,
        Change::Link {
            home: _,
            number: _,
            place: _,
            from: _,
            to: _,
            three: _,
        } => 8,
        Change::Publish { document: _ } => 9,
        _ => 0,
    }
}

fn append_content(out: &mut Text, first: u32, text: &[u8]) -> Result<(), Memory>
    requires { length text.now ≤ 16777216 }
    ensures { OnOk result (out.new.items ≡ out.old.items ++ (u32_bytes first ++ text_bytes New text.now)) }
{
    append_u32(out, first)?;
    append_text(out, text)
}

fn append_insert(
    out: &mut Text,
    document: &Tumbler,
    at: u32,
    first: u32,
    text: &[u8],
) -> Result<(), Memory>
    requires { length text.now ≤ 16777216 }
    ensures { OnOk result (out.new.items ≡ out.old.items ++ (tumbler_bytes document.now ++ (u32_bytes at ++ (u32_bytes first ++ text_bytes New text.now)))) }
{
    append_tumbler(out, document)?;
    append_u32(out, at)?;
    append_content(out, first, text)
}

fn append_copy(out: &mut Text, document: &Tumbler, at: u32, specs: &[Spec]) -> Result<(), Memory>
    requires { IsSpecSet (map plain_spec specs.now) }
    ensures { OnOk result (out.new.items ≡ out.old.items ++ (tumbler_bytes document.now ++ (u32_bytes at ++ specs_bytes (map plain_spec specs.now)))) }
{
    append_tumbler(out, document)?;
    append_u32(out, at)?;
    append_specs(out, specs)
}

fn append_ends(out: &mut Text, from: &[Spec], to: &[Spec], three: &[Spec]) -> Result<(), Memory>
    requires from { IsSpecSet (map plain_spec from.now) }
    requires to { IsSpecSet (map plain_spec to.now) }
    requires three { IsSpecSet (map plain_spec three.now) }
    ensures { OnOk result (out.new.items ≡ out.old.items ++ (specs_bytes (map plain_spec from.now) ++ (specs_bytes (map plain_spec to.now) ++ specs_bytes (map plain_spec three.now)))) }
{
    append_specs(out, from)?;
    append_specs(out, to)?;
    append_specs(out, three)
}

fn append_link(
    out: &mut Text,
    number: u32,
    place: u32,
    from: &[Spec],
    to: &[Spec],
    three: &[Spec],
) -> Result<(), Memory>
    requires from { IsSpecSet (map plain_spec from.now) }
    requires to { IsSpecSet (map plain_spec to.now) }
    requires three { IsSpecSet (map plain_spec three.now) }
    ensures { OnOk result (out.new.items ≡ out.old.items ++ (u32_bytes number ++ (u32_bytes place ++ (specs_bytes (map plain_spec from.now) ++ (specs_bytes (map plain_spec to.now) ++ specs_bytes (map plain_spec three.now)))))) }
{
    append_u32(out, number)?;
    append_u32(out, place)?;
    append_ends(out, from, to, three)
}

/// Adds the fields of a change that is logged.
pub(crate) fn append_change(out: &mut Text, change: &Change) -> Result<(), Memory>
    requires { IsEncodable (plain_change change.now) }
    ensures { OnOk result (out.new.items ≡ out.old.items ++ change_bytes New (plain_change change.now)) }
{
    match change {
        Change::Create { document } => append_tumbler(out, document),
        Change::Version { source, document } => append_two(out, source, document),
        Change::OpenCopy { source, document } => append_two(out, source, document),
        Change::Insert {
            document,
            at,
            first,
            text,
        } => append_insert(out, document, *at, *first, text.as_slice()),
        Change::Delete { document, span } => {
            append_tumbler(out, document)?;
            append_span(out, span)
        }
        Change::Rearrange { document, cuts } => {
            append_tumbler(out, document)?;
            append_numbers(out, cuts.as_slice())
        }
        Change::Copy {
            document,
            at,
            specs,
        } => append_copy(out, document, *at, specs.as_slice()),
        Change::Link {
            home,
            number,
            place,
            from,
            to,
            three,
        } => {
            append_tumbler(out, home)?;
            append_link(
                out,
                *number,
                *place,
                from.as_slice(),
                to.as_slice(),
                three.as_slice(),
            )
        }
        Change::Publish { document } => append_tumbler(out, document),
        _ => Ok(()),
    }
}
