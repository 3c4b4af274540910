//! A reply's bytes: its number, and what it gives.
ghost use Rattle.std.specs.Prelude.{◌≡◌, ◌≤◌, ◌++◌, ◌∷◌, [], length, codes, decimal, OnOk, IfOk, IfSome};
ghost use Rattle.std.specs.List.{flat_map};
ghost use Rattle.febe_data.specs.Plain.{plain_reply, retrieved, bytes};
ghost use Rattle.febe_data.specs.FieldValues.{reply_values};
ghost use Rattle.febe_data.specs.Spelling.{spell_number, spell_value};
ghost use Rattle.febe_data.specs.Validity.{IsReply};
ghost use Rattle.febe_reply.specs.ReplyGrammar.{reply_head, spell_reply};

use febe_data::{
    Item, List, Memory, Reply, Text, append_diagonals, append_items, append_number, append_span,
    append_spans, append_specs, append_tumbler, append_tumblers,
};
use itoa::Buffer;
use std::alloc::Global;

fn append_head(out: &mut Text, reply: &Reply) -> Result<(), Memory>
    ensures { OnOk result (out.new.items ≡ out.old.items ++ reply_head (plain_reply reply.now)) }
{
    match reply {
        Reply::Inserted => append_number(out, 0),
        Reply::SpanSet(_) => append_number(out, 1),
        Reply::Copied => append_number(out, 2),
        Reply::Rearranged => append_number(out, 3),
        Reply::Retrieved(_) => append_number(out, 5),
        Reply::Related(_) => append_number(out, 10),
        Reply::Created(_) => append_number(out, 11),
        Reply::Deleted => append_number(out, 12),
        Reply::Versioned(_) => append_number(out, 13),
        Reply::WholeSpan(_) => append_number(out, 14),
        Reply::Quit => append_number(out, 16),
        Reply::Followed(_) => append_number(out, 18),
        Reply::Documents(_) => append_number(out, 22),
        Reply::Linked(_) => append_number(out, 27),
        Reply::EndSets { .. } => append_number(out, 28),
        Reply::LinkCount(_) => append_number(out, 29),
        Reply::Links(_) => append_number(out, 30),
        Reply::NextLinks(_) => append_number(out, 31),
        Reply::AccountSet => append_number(out, 34),
        Reply::Opened(_) => append_number(out, 35),
        Reply::Closed => append_number(out, 36),
        Reply::Published => append_number(out, 40),
        Reply::Refused(refusal) => {
            out.push(b'?')?;
            append_number(out, u32::from(refusal.number()))
        }
    }
}

fn append_payload(out: &mut Text, reply: &Reply) -> Result<(), Memory>
    requires { IsReply (plain_reply reply.now) }
    ensures { OnOk result (out.new.items ≡ out.old.items ++ flat_map spell_value (reply_values (plain_reply reply.now))) }
{
    match reply {
        Reply::Inserted
        | Reply::Copied
        | Reply::Rearranged
        | Reply::Deleted
        | Reply::Quit
        | Reply::AccountSet
        | Reply::Closed
        | Reply::Refused(_)
        | Reply::Published => Ok(()),
        Reply::SpanSet(spans) => append_spans(out, spans.as_slice()),
        Reply::WholeSpan(span) => append_span(out, span),
        Reply::Retrieved(items) => append_items(out, items.as_slice()),
        Reply::Related(diagonals) => append_diagonals(out, diagonals.as_slice()),
        Reply::Created(place) => append_tumbler(out, place),
        Reply::Versioned(place) => append_tumbler(out, place),
        Reply::Linked(place) => append_tumbler(out, place),
        Reply::Opened(place) => append_tumbler(out, place),
        Reply::Followed(specs) => append_specs(out, specs.as_slice()),
        Reply::Documents(places) => append_tumblers(out, places.as_slice()),
        Reply::Links(places) => append_tumblers(out, places.as_slice()),
        Reply::NextLinks(places) => append_tumblers(out, places.as_slice()),
        Reply::EndSets { from, to, three } => {
            append_specs(out, from.as_slice())?;
            append_specs(out, to.as_slice())?;
            append_specs(out, three.as_slice())
        }
        Reply::LinkCount(count) => append_number(out, *count),
    }
}

/// The one spelling of the reply.
pub fn write_reply(alloc: Global, reply: &Reply) -> Result<Text, Memory>
    requires { IsReply (plain_reply reply.now) }
    ensures { IfOk result (λ text. text.items ≡ spell_reply (plain_reply reply.now)) }
{
    let mut out = List::new(alloc);
    append_head(&mut out, reply)?;
    append_payload(&mut out, reply)?;
    Ok(out)
}

/// A text that a reply gives alone is not copied to be written where it has so many bytes or more.
const LONG_TEXT: usize = 65_536;

/// A reply's bytes in two parts, one behind the other.
#[derive(Drop)]
pub struct ReplyParts<'a> {
    /// What comes first: the whole reply where `text` is empty.
    pub head: Text,
    /// The one text of the reply, of 65,536 bytes or more; or nothing.
    pub text: &'a [u8],
}

/// The text of a reply that gives one long text and nothing else.
fn long_text(reply: &Reply) -> Option<&[u8]>
    ensures { IfSome result (λ text. plain_reply reply.now ≡ retrieved (bytes text.now ∷ [])) }
{
    let Reply::Retrieved(items) = reply else {
        return None;
    };
    let [Item::Bytes(text)] = items.as_slice() else {
        return None;
    };
    if text.len() < LONG_TEXT {
        return None;
    }
    Some(text.as_slice())
}

/// What stands before the bytes of a text of this length in a reply that gives it alone.
fn text_head(alloc: Global, length: u32) -> Result<Text, Memory>
    ensures { IfOk result (λ head. head.items ≡ spell_number 5 ++ spell_number 1 ++ codes "t" ++ decimal length ++ codes ":") }
{
    let mut out = List::new(alloc);
    append_number(&mut out, 5)?;
    append_number(&mut out, 1)?;
    out.push(b't')?;
    let mut buffer = Buffer::new();
    out.extend_from_slice(buffer.format(length).as_bytes())?;
    out.push(b':')?;
    Ok(out)
}

/// The one spelling of the reply, in two parts.
///
/// A text of 65,536 bytes or more that the reply gives alone is lent. Any other reply stands in `head` as a whole. Want of
/// memory is the only error.
pub fn reply_parts(alloc: Global, reply: &Reply) -> Result<ReplyParts<'_>, Memory>
    requires { IsReply (plain_reply reply.now) }
    ensures { IfOk result (λ parts. parts.head.items ++ parts.text.now ≡ spell_reply (plain_reply reply.now)) }
{
    let Some(text) = long_text(reply) else {
        let head = write_reply(alloc, reply)?;
        return Ok(ReplyParts { head, text: &[] });
    };
    let head = text_head(alloc, text.len() as u32)?;
    Ok(ReplyParts { head, text })
}
