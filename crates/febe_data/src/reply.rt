//! What the back end answers.
ghost use Rattle.std.specs.Prelude.{◌≡◌, IfOk, map};
ghost use Rattle.febe_data.specs.Plain.{plain_item, plain_reply};

use crate::refusal::Refusal;
use crate::run::Diagonal;
use crate::spec::{Spec, clone_spans, clone_specs, clone_tumblers};
use std::alloc::Global;
use tumbler::{List, Memory, Span, Text, Tumbler};

/// A piece of what was retrieved.
#[derive(Debug, Drop)]
pub enum Item {
    /// The bytes that one V-span picked.
    Bytes(Text),
    /// The id of a link that it picked.
    Link(Tumbler),
}

impl Item {
    /// The same item, in memory of its own.
    pub fn try_clone(&self, alloc: Global) -> Result<Item, Memory>
        ensures { IfOk result (λ copy. plain_item copy ≡ plain_item self.now) }
    {
        Ok(match self {
            Item::Bytes(text) => Item::Bytes(List::from_slice(alloc, text.as_slice())?),
            Item::Link(id) => Item::Link(id.copy()),
        })
    }
}

fn clone_items(alloc: Global, items: &[Item]) -> Result<List<Item>, Memory>
    ensures { IfOk result (λ copy. map plain_item copy.items ≡ map plain_item items.now) }
{
    let mut copy = List::new(alloc);
    copy.reserve(items.len())?;
    for item in items {
        copy.push_reserved(item.try_clone(alloc)?);
    }
    Ok(copy)
}

/// A reply, which says by its variant what it answers.
#[derive(Debug)]
pub enum Reply {
    Inserted,
    Copied,
    Rearranged,
    Deleted,
    Quit,
    AccountSet,
    Closed,
    /// The span of the document's text and that of its links, where there are any.
    SpanSet(List<Span>),
    WholeSpan(Span),
    Retrieved(List<Item>),
    Related(List<Diagonal>),
    /// The document that was made.
    Created(Tumbler),
    /// The version that was made.
    Versioned(Tumbler),
    /// The id of the link that was made.
    Linked(Tumbler),
    /// The document that was opened.
    Opened(Tumbler),
    Followed(List<Spec>),
    Documents(List<Tumbler>),
    EndSets {
        from: List<Spec>,
        to: List<Spec>,
        three: List<Spec>,
    },
    LinkCount(u32),
    Links(List<Tumbler>),
    NextLinks(List<Tumbler>),
    Refused(Refusal),
    Published,
}

/// By hand, so that a caller's exits do not look into the variants.
impl Drop for Reply {
    fn drop(self) {
        match self {
            Reply::Inserted => {}
            Reply::Copied => {}
            Reply::Rearranged => {}
            Reply::Deleted => {}
            Reply::Quit => {}
            Reply::AccountSet => {}
            Reply::Closed => {}
            Reply::SpanSet(_) => {}
            Reply::WholeSpan(_) => {}
            Reply::Retrieved(_) => {}
            Reply::Related(_) => {}
            Reply::Created(_) => {}
            Reply::Versioned(_) => {}
            Reply::Linked(_) => {}
            Reply::Opened(_) => {}
            Reply::Followed(_) => {}
            Reply::Documents(_) => {}
            Reply::EndSets {
                from: _,
                to: _,
                three: _,
            } => {}
            Reply::LinkCount(_) => {}
            Reply::Links(_) => {}
            Reply::NextLinks(_) => {}
            Reply::Refused(_) => {}
            Reply::Published => {}
        }
    }
}

impl Reply {
    /// The same reply, in memory of its own.
    pub fn try_clone(&self, alloc: Global) -> Result<Reply, Memory>
        ensures { IfOk result (λ copy. plain_reply copy ≡ plain_reply self.now) }
    {
        Ok(match self {
            Reply::Inserted => Reply::Inserted,
            Reply::Copied => Reply::Copied,
            Reply::Rearranged => Reply::Rearranged,
            Reply::Deleted => Reply::Deleted,
            Reply::Quit => Reply::Quit,
            Reply::AccountSet => Reply::AccountSet,
            Reply::Closed => Reply::Closed,
            Reply::SpanSet(spans) => Reply::SpanSet(clone_spans(alloc, spans.as_slice())?),
            Reply::WholeSpan(span) => Reply::WholeSpan(span.copy()),
            Reply::Retrieved(items) => Reply::Retrieved(clone_items(alloc, items.as_slice())?),
            Reply::Related(diagonals) => {
                Reply::Related(List::from_slice(alloc, diagonals.as_slice())?)
            }
            Reply::Created(document) => Reply::Created(document.copy()),
            Reply::Versioned(document) => Reply::Versioned(document.copy()),
            Reply::Linked(id) => Reply::Linked(id.copy()),
            Reply::Opened(document) => Reply::Opened(document.copy()),
            Reply::Followed(specs) => Reply::Followed(clone_specs(alloc, specs.as_slice())?),
            Reply::Documents(documents) => {
                Reply::Documents(clone_tumblers(alloc, documents.as_slice())?)
            }
            Reply::EndSets { from, to, three } => Reply::EndSets {
                from: clone_specs(alloc, from.as_slice())?,
                to: clone_specs(alloc, to.as_slice())?,
                three: clone_specs(alloc, three.as_slice())?,
            },
            Reply::LinkCount(count) => Reply::LinkCount(*count),
            Reply::Links(ids) => Reply::Links(clone_tumblers(alloc, ids.as_slice())?),
            Reply::NextLinks(ids) => Reply::NextLinks(clone_tumblers(alloc, ids.as_slice())?),
            Reply::Refused(refusal) => Reply::Refused(refusal.copy()),
            Reply::Published => Reply::Published,
        })
    }
}
