//! How requests are written.
ghost use Rattle.std.specs.Prelude.{◌≡◌, ◌++◌, OnOk, OnErr, IfOk};
ghost use Rattle.std.specs.Io.{StartsWith};
ghost use Rattle.febe_data.specs.Plain.{plain_spec, plain_specs, plain_want, plain_request, insert, copy, rearrange, delete, follow, create_link, count_links, next_links, relate, opens};
ghost use Rattle.febe_data.specs.FieldValues.{request_number};
ghost use Rattle.febe_data.specs.Spelling.{spell_number, spell_tumbler};
ghost use Rattle.febe_data.specs.Validity.{IsRequest};
ghost use Rattle.febe_wire.specs.Grammar.{spell_values, spell_request};

use febe_data::{
    List, Memory, Mode, Request, Rule, Span, Spec, Text, Tumbler, Want, append_number, append_span,
    append_spans, append_spec, append_specs, append_text, append_tumbler, append_tumblers,
};
use std::alloc::Global;

/// Adds a number. Where memory is short, some prefix of it may have been added.
pub fn write_number(out: &mut Text, number: u32) -> Result<(), Memory>
    ensures ok { OnOk result (out.new.items ≡ out.old.items ++ spell_number number) }
    ensures err { OnErr result (StartsWith out.new.items out.old.items) }
{
    append_number(out, number)
}

/// Adds a tumbler. Where memory is short, some prefix of it may have been added.
pub fn write_tumbler(out: &mut Text, tumbler: &Tumbler) -> Result<(), Memory>
    ensures ok { OnOk result (out.new.items ≡ out.old.items ++ spell_tumbler tumbler.now) }
    ensures err { OnErr result (StartsWith out.new.items out.old.items) }
{
    append_tumbler(out, tumbler)
}

/// The number of a request.
fn number_of(request: &Request) -> u32
    ensures { result ≡ request_number (plain_request request.now) }
{
    match request {
        Request::Insert { .. } => 0,
        Request::SpanSet { .. } => 1,
        Request::Copy { .. } => 2,
        Request::Rearrange { .. } => 3,
        Request::Retrieve { .. } => 5,
        Request::Relate { .. } => 10,
        Request::Create => 11,
        Request::Delete { .. } => 12,
        Request::Version { .. } => 13,
        Request::WholeSpan { .. } => 14,
        Request::Quit => 16,
        Request::Follow { .. } => 18,
        Request::FindDocuments { .. } => 22,
        Request::CreateLink { .. } => 27,
        Request::EndSets { .. } => 28,
        Request::CountLinks { .. } => 29,
        Request::FindLinks { .. } => 30,
        Request::NextLinks { .. } => 31,
        Request::Account { .. } => 34,
        Request::Open { .. } => 35,
        Request::Close { .. } => 36,
        Request::Publish { .. } => 40,
    }
}

fn append_insert(
    out: &mut Text,
    document: &Tumbler,
    at: &Tumbler,
    text: &Text,
) -> Result<(), Memory>
    requires { IsRequest (insert document.now at.now text.now.items) }
    ensures { OnOk result (out.new.items ≡ out.old.items ++ spell_values (insert document.now at.now text.now.items)) }
{
    append_tumbler(out, document)?;
    append_tumbler(out, at)?;
    append_text(out, text.as_slice())
}

fn append_copy(
    out: &mut Text,
    document: &Tumbler,
    at: &Tumbler,
    specs: &List<Spec>,
) -> Result<(), Memory>
    requires { IsRequest (copy document.now at.now (plain_specs specs.now.items)) }
    ensures { OnOk result (out.new.items ≡ out.old.items ++ spell_values (copy document.now at.now (plain_specs specs.now.items))) }
{
    append_tumbler(out, document)?;
    append_tumbler(out, at)?;
    append_specs(out, specs.as_slice())
}

fn append_rearrange(out: &mut Text, document: &Tumbler, cuts: &List<Tumbler>) -> Result<(), Memory>
    requires { IsRequest (rearrange document.now cuts.now.items) }
    ensures { OnOk result (out.new.items ≡ out.old.items ++ spell_values (rearrange document.now cuts.now.items)) }
{
    append_tumbler(out, document)?;
    append_tumblers(out, cuts.as_slice())
}

fn append_relate(out: &mut Text, left: &Spec, right: &Spec) -> Result<(), Memory>
    requires { IsRequest (relate (plain_spec left.now) (plain_spec right.now)) }
    ensures { OnOk result (out.new.items ≡ out.old.items ++ spell_values (relate (plain_spec left.now) (plain_spec right.now))) }
{
    append_spec(out, left)?;
    append_spec(out, right)
}

fn append_delete(out: &mut Text, document: &Tumbler, span: &Span) -> Result<(), Memory>
    ensures { OnOk result (out.new.items ≡ out.old.items ++ spell_values (delete document.now span.now)) }
{
    append_tumbler(out, document)?;
    append_span(out, span)
}

fn append_follow(out: &mut Text, link: &Tumbler, end: u32) -> Result<(), Memory>
    ensures { OnOk result (out.new.items ≡ out.old.items ++ spell_values (follow link.now end)) }
{
    append_tumbler(out, link)?;
    append_number(out, end)
}

fn append_create_link(
    out: &mut Text,
    home: &Tumbler,
    from: &List<Spec>,
    to: &List<Spec>,
    three: &List<Spec>,
) -> Result<(), Memory>
    requires { IsRequest (create_link home.now (plain_specs from.now.items) (plain_specs to.now.items) (plain_specs three.now.items)) }
    ensures { OnOk result (out.new.items ≡ out.old.items ++ spell_values (create_link home.now (plain_specs from.now.items) (plain_specs to.now.items) (plain_specs three.now.items))) }
{
    append_tumbler(out, home)?;
    append_specs(out, from.as_slice())?;
    append_specs(out, to.as_slice())?;
    append_specs(out, three.as_slice())
}

fn append_want(out: &mut Text, want: &Want) -> Result<(), Memory>
    requires { IsRequest (count_links (plain_want want.now)) }
    ensures { OnOk result (out.new.items ≡ out.old.items ++ spell_values (count_links (plain_want want.now))) }
{
    append_spans(out, want.homes.as_slice())?;
    append_specs(out, want.from.as_slice())?;
    append_specs(out, want.to.as_slice())?;
    append_specs(out, want.three.as_slice())
}

fn append_next_links(out: &mut Text, want: &Want, after: &Tumbler, limit: u32) -> Result<(), Memory>
    requires { IsRequest (next_links (plain_want want.now) after.now limit) }
    ensures { OnOk result (out.new.items ≡ out.old.items ++ spell_values (next_links (plain_want want.now) after.now limit)) }
{
    append_want(out, want)?;
    append_tumbler(out, after)?;
    append_number(out, limit)
}

fn append_open(out: &mut Text, document: &Tumbler, mode: &Mode, rule: &Rule) -> Result<(), Memory>
    ensures { OnOk result (out.new.items ≡ out.old.items ++ spell_values (opens document.now mode.now rule.now)) }
{
    append_tumbler(out, document)?;
    append_number(out, mode.number())?;
    append_number(out, rule.number())
}

fn append_parts(out: &mut Text, request: &Request) -> Result<(), Memory>
    requires { IsRequest (plain_request request.now) }
    ensures { OnOk result (out.new.items ≡ out.old.items ++ spell_values (plain_request request.now)) }
{
    match request {
        Request::Create | Request::Quit => Ok(()),
        Request::SpanSet { document } => append_tumbler(out, document),
        Request::Version { document } => append_tumbler(out, document),
        Request::WholeSpan { document } => append_tumbler(out, document),
        Request::Account { account } => append_tumbler(out, account),
        Request::Close { document } => append_tumbler(out, document),
        Request::Publish { document } => append_tumbler(out, document),
        Request::Retrieve { specs } => append_specs(out, specs.as_slice()),
        Request::FindDocuments { specs } => append_specs(out, specs.as_slice()),
        Request::EndSets { specs } => append_specs(out, specs.as_slice()),
        Request::CountLinks { want } | Request::FindLinks { want } => append_want(out, want),
        Request::Insert { document, at, text } => append_insert(out, document, at, text),
        Request::Copy {
            document,
            at,
            specs,
        } => append_copy(out, document, at, specs),
        Request::Rearrange { document, cuts } => append_rearrange(out, document, cuts),
        Request::Relate { left, right } => append_relate(out, left, right),
        Request::Delete { document, span } => append_delete(out, document, span),
        Request::Follow { link, end } => append_follow(out, link, *end),
        Request::CreateLink {
            home,
            from,
            to,
            three,
        } => append_create_link(out, home, from, to, three),
        Request::NextLinks { want, after, limit } => append_next_links(out, want, after, *limit),
        Request::Open {
            document,
            mode,
            rule,
        } => append_open(out, document, mode, rule),
    }
}

/// The one spelling of the request: its number, then its parts.
pub fn write_request(alloc: Global, request: &Request) -> Result<Text, Memory>
    requires { IsRequest (plain_request request.now) }
    ensures { IfOk result (λ text. text.items ≡ spell_request (plain_request request.now)) }
{
    let mut out = List::new(alloc);
    append_number(&mut out, number_of(request))?;
    append_parts(&mut out, request)?;
    Ok(out)
}
