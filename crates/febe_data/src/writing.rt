//! How the parts of requests and replies are written, at the end of a text.
ghost use Rattle.std.specs.Prelude.{◌≡◌, ◌≤◌, ◌++◌, length, map, All, codes, decimal, OnOk, OnErr};
ghost use Rattle.std.specs.List.{flat_map};
ghost use Rattle.std.specs.Io.{StartsWith};
ghost use Rattle.febe_data.specs.Plain.{plain_spec, plain_item};
ghost use Rattle.febe_data.specs.Validity.{IsSpec, IsItem, IsList};
ghost use Rattle.febe_data.specs.Spelling.{zeros_of, spell_number, spell_places, spell_tumbler, spell_text, spell_span, spell_list, spell_spec, spell_item, spell_text_address, spell_diagonal};

use crate::reply::Item;
use crate::run::Diagonal;
use crate::spec::Spec;
use itoa::Buffer;
use tumbler::{Memory, Span, Text, Tumbler};

fn append_digits(out: &mut Text, number: u32) -> Result<(), Memory>
    ensures ok { OnOk result (out.new.items ≡ out.old.items ++ decimal number) }
    ensures err { OnErr result (StartsWith out.new.items out.old.items) }
{
    let mut buffer = Buffer::new();
    out.extend_from_slice(buffer.format(number).as_bytes())
}

/// Adds a number. Where memory is short, some front of it may have been added.
pub fn append_number(out: &mut Text, number: u32) -> Result<(), Memory>
    ensures ok { OnOk result (out.new.items ≡ out.old.items ++ spell_number number) }
    ensures err { OnErr result (StartsWith out.new.items out.old.items) }
{
    append_digits(out, number)?;
    out.push(b'~')
}

/// How many places from the first on are 0.
fn zeros(places: &[u32]) -> usize
    ensures value { result ≡ zeros_of places.now }
    ensures within { result ≤ length places.now }
{
    for (k, place) in places.iter().enumerate() {
        if *place != 0 {
            return k;
        }
    }
    places.len()
}

fn append_place(out: &mut Text, place: u32) -> Result<(), Memory>
    ensures ok { OnOk result (out.new.items ≡ out.old.items ++ (codes "." ++ decimal place)) }
    ensures err { OnErr result (StartsWith out.new.items out.old.items) }
{
    out.push(b'.')?;
    append_digits(out, place)
}

fn append_places(out: &mut Text, places: &[u32]) -> Result<(), Memory>
    ensures ok { OnOk result (out.new.items ≡ out.old.items ++ spell_places places.now) }
    ensures err { OnErr result (StartsWith out.new.items out.old.items) }
{
    for place in places {
        append_place(out, *place)?;
    }
    Ok(())
}

/// Adds a tumbler. Where memory is short, some front of it may have been added.
pub fn append_tumbler(out: &mut Text, tumbler: &Tumbler) -> Result<(), Memory>
    ensures ok { OnOk result (out.new.items ≡ out.old.items ++ spell_tumbler tumbler.now) }
    ensures err { OnErr result (StartsWith out.new.items out.old.items) }
{
    let places = tumbler.places();
    let n = zeros(places);
    append_digits(out, n as u32)?;
    append_places(out, places.split_at(n).1)?;
    out.push(b'~')
}

/// Adds a text. Where memory is short, some front of it may have been added.
pub fn append_text(out: &mut Text, text: &[u8]) -> Result<(), Memory>
    requires { length text.now ≤ 16777216 }
    ensures ok { OnOk result (out.new.items ≡ out.old.items ++ spell_text text.now) }
    ensures err { OnErr result (StartsWith out.new.items out.old.items) }
{
    out.push(b't')?;
    append_digits(out, text.len() as u32)?;
    out.push(b':')?;
    out.extend_from_slice(text)
}

fn append_each_tumbler(out: &mut Text, tumblers: &[Tumbler]) -> Result<(), Memory>
    ensures ok { OnOk result (out.new.items ≡ out.old.items ++ flat_map spell_tumbler tumblers.now) }
    ensures err { OnErr result (StartsWith out.new.items out.old.items) }
{
    for tumbler in tumblers {
        append_tumbler(out, tumbler)?;
    }
    Ok(())
}

/// Adds a list of tumblers. Where memory is short, some front of it may have been added.
pub fn append_tumblers(out: &mut Text, tumblers: &[Tumbler]) -> Result<(), Memory>
    requires { length tumblers.now ≤ 65536 }
    ensures ok { OnOk result (out.new.items ≡ out.old.items ++ spell_list spell_tumbler tumblers.now) }
    ensures err { OnErr result (StartsWith out.new.items out.old.items) }
{
    append_number(out, tumblers.len() as u32)?;
    append_each_tumbler(out, tumblers)
}

/// Adds a span. Where memory is short, some front of it may have been added.
pub fn append_span(out: &mut Text, span: &Span) -> Result<(), Memory>
    ensures ok { OnOk result (out.new.items ≡ out.old.items ++ spell_span span.now) }
    ensures err { OnErr result (StartsWith out.new.items out.old.items) }
{
    append_tumbler(out, &span.start)?;
    append_tumbler(out, &span.width)
}

fn append_each_span(out: &mut Text, spans: &[Span]) -> Result<(), Memory>
    ensures ok { OnOk result (out.new.items ≡ out.old.items ++ flat_map spell_span spans.now) }
    ensures err { OnErr result (StartsWith out.new.items out.old.items) }
{
    for span in spans {
        append_span(out, span)?;
    }
    Ok(())
}

/// Adds a list of spans. Where memory is short, some front of it may have been added.
pub fn append_spans(out: &mut Text, spans: &[Span]) -> Result<(), Memory>
    requires { length spans.now ≤ 65536 }
    ensures ok { OnOk result (out.new.items ≡ out.old.items ++ spell_list spell_span spans.now) }
    ensures err { OnErr result (StartsWith out.new.items out.old.items) }
{
    append_number(out, spans.len() as u32)?;
    append_each_span(out, spans)
}

/// Adds a spec. Where memory is short, some front of it may have been added.
pub fn append_spec(out: &mut Text, spec: &Spec) -> Result<(), Memory>
    requires { length spec.now.spans.items ≤ 65536 }
    ensures ok { OnOk result (out.new.items ≡ out.old.items ++ spell_spec (plain_spec spec.now)) }
    ensures err { OnErr result (StartsWith out.new.items out.old.items) }
{
    append_tumbler(out, &spec.document)?;
    append_spans(out, spec.spans.as_slice())
}

fn append_each_spec(out: &mut Text, specs: &[Spec]) -> Result<(), Memory>
    requires { All IsSpec (map plain_spec specs.now) }
    ensures ok { OnOk result (out.new.items ≡ out.old.items ++ flat_map spell_spec (map plain_spec specs.now)) }
    ensures err { OnErr result (StartsWith out.new.items out.old.items) }
{
    for spec in specs {
        append_spec(out, spec)?;
    }
    Ok(())
}

/// Adds a list of specs. Where memory is short, some front of it may have been added.
pub fn append_specs(out: &mut Text, specs: &[Spec]) -> Result<(), Memory>
    requires { IsList IsSpec (map plain_spec specs.now) }
    ensures ok { OnOk result (out.new.items ≡ out.old.items ++ spell_list spell_spec (map plain_spec specs.now)) }
    ensures err { OnErr result (StartsWith out.new.items out.old.items) }
{
    append_number(out, specs.len() as u32)?;
    append_each_spec(out, specs)
}

fn append_item(out: &mut Text, item: &Item) -> Result<(), Memory>
    requires { IsItem (plain_item item.now) }
    ensures ok { OnOk result (out.new.items ≡ out.old.items ++ spell_item (plain_item item.now)) }
    ensures err { OnErr result (StartsWith out.new.items out.old.items) }
{
    match item {
        Item::Bytes(text) => append_text(out, text.as_slice()),
        Item::Link(id) => append_tumbler(out, id),
    }
}

fn append_each_item(out: &mut Text, items: &[Item]) -> Result<(), Memory>
    requires { All IsItem (map plain_item items.now) }
    ensures ok { OnOk result (out.new.items ≡ out.old.items ++ flat_map spell_item (map plain_item items.now)) }
    ensures err { OnErr result (StartsWith out.new.items out.old.items) }
{
    for item in items {
        append_item(out, item)?;
    }
    Ok(())
}

/// Adds a list of items. Where memory is short, some front of it may have been added.
pub fn append_items(out: &mut Text, items: &[Item]) -> Result<(), Memory>
    requires { IsList IsItem (map plain_item items.now) }
    ensures ok { OnOk result (out.new.items ≡ out.old.items ++ spell_list spell_item (map plain_item items.now)) }
    ensures err { OnErr result (StartsWith out.new.items out.old.items) }
{
    append_number(out, items.len() as u32)?;
    append_each_item(out, items)
}

fn append_text_address(out: &mut Text, position: u32) -> Result<(), Memory>
    ensures ok { OnOk result (out.new.items ≡ out.old.items ++ spell_text_address position) }
    ensures err { OnErr result (StartsWith out.new.items out.old.items) }
{
    append_digits(out, 0)?;
    append_place(out, 1)?;
    append_place(out, position)?;
    out.push(b'~')
}

fn append_diagonal(out: &mut Text, diagonal: &Diagonal) -> Result<(), Memory>
    ensures ok { OnOk result (out.new.items ≡ out.old.items ++ spell_diagonal diagonal.now) }
    ensures err { OnErr result (StartsWith out.new.items out.old.items) }
{
    append_text_address(out, diagonal.left)?;
    append_text_address(out, diagonal.right)?;
    append_number(out, diagonal.length)
}

fn append_each_diagonal(out: &mut Text, diagonals: &[Diagonal]) -> Result<(), Memory>
    ensures ok { OnOk result (out.new.items ≡ out.old.items ++ flat_map spell_diagonal diagonals.now) }
    ensures err { OnErr result (StartsWith out.new.items out.old.items) }
{
    for diagonal in diagonals {
        append_diagonal(out, diagonal)?;
    }
    Ok(())
}

/// Adds a list of diagonals. Where memory is short, some front of it may have been added.
pub fn append_diagonals(out: &mut Text, diagonals: &[Diagonal]) -> Result<(), Memory>
    requires { length diagonals.now ≤ 65536 }
    ensures ok { OnOk result (out.new.items ≡ out.old.items ++ spell_list spell_diagonal diagonals.now) }
    ensures err { OnErr result (StartsWith out.new.items out.old.items) }
{
    append_number(out, diagonals.len() as u32)?;
    append_each_diagonal(out, diagonals)
}
