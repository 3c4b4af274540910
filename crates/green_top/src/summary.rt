//! What is told of a generated session.
ghost use Rattle.std.specs.Prelude.{◌≡◌, ◌+◌, ◌^◌, [], ◌∷◌, ◌++◌, ◌<◌, ◌≤◌, length, string_bytes, IfOk, OnOk};
ghost use Rattle.febe_data.specs.Plain.{plain_change, plain_reply, plain_history};
ghost use Rattle.world_rules.specs.Apply.{world_of};
ghost use Rattle.green_top.specs.Summary.{sum_after, replies_sum, refusals_in, summary_line, summary_of};
ghost use Rattle.green_top.specs.inside.Summing.{documents_by, links_by, SpellReplies, AreReplies};

use febe_data::{Change, Entry, List, Memory, Reply, Text};
use febe_reply::laws::one_reply;
use febe_reply::{GotReply, read_reply};
use green_store::Store;
use itoa::Buffer;
use std::alloc::Global;
use world_rules::LookUp;

/// The sum with one byte more.
fn sum_after(sum: u64, byte: u8) -> u64
    ensures { result ≡ sum_after sum byte }
{
    let greater = (sum as u128) * 31 + byte as u128;
    (greater % 18_446_744_073_709_551_616) as u64
}

/// The sum of the replies' bytes.
fn sum_of(bytes: &[u8]) -> u64
    ensures { result ≡ replies_sum bytes.now }
{
    let mut sum = 0;
    for byte in bytes {
        sum = sum_after(sum, *byte);
    }
    sum
}

/// 1 for a refusal, and 0 for any other reply.
fn refusal_count(reply: &Reply) -> usize
    ensures value { result ≡ refusals_in (plain_reply reply.now ∷ []) }
    ensures few { result ≤ 1 }
{
    match reply {
        Reply::Refused(_) => 1,
        _ => 0,
    }
}

/// How many of the replies are refusals.
fn refusals_in(alloc: Global, bytes: &[u8]) -> Result<usize, Memory>
    requires { AreReplies bytes.now }
    ensures { (replies : _) → SpellReplies bytes.now replies → IfOk result (λ count. count ≡ refusals_in replies) }
{
    // So the first reply of a rest is the one that is read from it.
    one_reply();
    let mut count = 0;
    let mut rest = bytes;
    'reading: while !rest.is_empty() {
        let GotReply::Reply { reply, used } = read_reply(alloc, rest)? else {
            unreachable!();
        };
        count += refusal_count(&reply);
        rest = rest.split_at(used).1;
    }
    Ok(count)
}

/// How many documents and links entries made.
#[derive(Clone, Copy)]
struct Made {
    documents: usize,
    links: usize,
}

impl Made {
    /// The change is another entry's.
    fn add(&mut self, change: &Change)
        requires documents_room { self.old.documents + 1 < 2 ^ 64 }
        requires links_room { self.old.links + 1 < 2 ^ 64 }
        ensures documents { self.new.documents ≡ self.old.documents + documents_by (plain_change change.now) }
        ensures links { self.new.links ≡ self.old.links + links_by (plain_change change.now) }
    {
        match change {
            Change::Create { .. } | Change::Version { .. } | Change::OpenCopy { .. } => {
                self.documents += 1;
            }
            Change::Link { .. } => self.links += 1,
            _ => {}
        }
    }
}

/// How many documents and links all these entries made.
fn made_by(history: &[Entry]) -> Made
    ensures documents { result.documents ≡ length (world_of (plain_history history.now)).documents }
    ensures links { result.links ≡ length (world_of (plain_history history.now)).links }
{
    let mut made = Made {
        documents: 0,
        links: 0,
    };
    for entry in history {
        made.add(&entry.change);
    }
    made
}

/// Adds a line.
fn append_line(out: &mut Text, name: &str, number: u64) -> Result<(), Memory>
    ensures { OnOk result (out.new.items ≡ out.old.items ++ summary_line name.now number) }
{
    let mut buffer = Buffer::new();
    out.extend_from_slice(name.as_bytes())?;
    out.extend_from_slice(b" ")?;
    out.extend_from_slice(buffer.format(number).as_bytes())?;
    out.extend_from_slice(b"\n")
}

/// The summary of a session that was generated from this start, had these replies and left this store.
pub(crate) fn summary_of(
    alloc: Global,
    start: u32,
    replies: &[u8],
    store: &Store,
) -> Result<Text, Memory>
    requires { AreReplies replies.now }
    ensures { (told : _) → SpellReplies replies.now told → IfOk result (λ text. text.items ≡ summary_of start told (world_of store.now.history)) }
{
    let sum = sum_of(replies);
    let refused = refusals_in(alloc, replies)?;
    let made = made_by(store.history().as_slice());
    let mut out = List::new(alloc);
    append_line(&mut out, "start", u64::from(start))?;
    append_line(&mut out, "requests", 2_010)?;
    append_line(&mut out, "refused", refused as u64)?;
    append_line(&mut out, "documents", made.documents as u64)?;
    append_line(&mut out, "bytes", store.world().content() as u64)?;
    append_line(&mut out, "links", made.links as u64)?;
    append_line(&mut out, "replies", sum)?;
    Ok(out)
}
