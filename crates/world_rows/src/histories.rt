//! A short history, and what it speaks of.

use febe_data::{Change, Entry, List, Memory, Mode, Span, Spec, Tumbler};
use std::alloc::Global;

pub(crate) const ACCOUNT: [u32; 4] = [1, 1, 0, 1];

/// The account's first document.
pub(crate) const FIRST: [u32; 6] = [1, 1, 0, 1, 0, 1];

/// Its second one.
pub(crate) const SECOND: [u32; 6] = [1, 1, 0, 1, 0, 2];

/// The address of these places.
pub(crate) fn address(alloc: Global, places: &[u32]) -> Result<Tumbler, Memory> {
    match Tumbler::from_places(alloc, places) {
        Ok(tumbler) => Ok(tumbler),
        Err(_bad) => Err(Memory),
    }
}

/// So many positions of a text, from this one on.
pub(crate) fn span(alloc: Global, first: u32, count: u32) -> Result<Span, Memory> {
    Ok(Span {
        start: address(alloc, &[1, first])?,
        width: address(alloc, &[0, count])?,
    })
}

/// These positions of a document, as one spec.
pub(crate) fn specs(
    alloc: Global,
    document: &[u32],
    first: u32,
    count: u32,
) -> Result<List<Spec>, Memory> {
    let mut spans = List::new(alloc);
    spans.push(span(alloc, first, count)?)?;
    let mut specs = List::new(alloc);
    specs.push(Spec {
        document: address(alloc, document)?,
        spans,
    })?;
    Ok(specs)
}

/// Adds a change of session 1.
fn push(history: &mut List<Entry>, change: Change) -> Result<(), Memory> {
    let serial = history.len() as u64;
    history.push(Entry {
        session: 1,
        serial,
        change,
    })
}

/// Makes a document and closes it.
fn push_document(alloc: Global, history: &mut List<Entry>, document: &[u32]) -> Result<(), Memory> {
    let made = address(alloc, document)?;
    push(history, Change::Create { document: made })?;
    let closed = address(alloc, document)?;
    push(history, Change::Close { document: closed })
}

/// Opens the first document for writing, puts `abc` into it, and quotes `ab` in the second.
fn push_text(alloc: Global, history: &mut List<Entry>) -> Result<(), Memory> {
    let opened = Change::Open {
        document: address(alloc, &FIRST)?,
        mode: Mode::Write,
    };
    push(history, opened)?;
    let inserted = Change::Insert {
        document: address(alloc, &FIRST)?,
        at: 1,
        first: 1,
        text: List::from_slice(alloc, b"abc")?,
    };
    push(history, inserted)?;
    let quoted = Change::Copy {
        document: address(alloc, &SECOND)?,
        at: 1,
        specs: specs(alloc, &FIRST, 1, 2)?,
    };
    push(history, quoted)
}

/// Links `a` of the first document to its `b`, with `c` as the third end.
fn push_link(alloc: Global, history: &mut List<Entry>) -> Result<(), Memory> {
    let linked = Change::Link {
        home: address(alloc, &FIRST)?,
        number: 1,
        place: 1,
        from: specs(alloc, &FIRST, 1, 1)?,
        to: specs(alloc, &FIRST, 2, 1)?,
        three: specs(alloc, &FIRST, 3, 1)?,
    };
    push(history, linked)
}

/// A session sets its account, makes these two documents in this order, puts a text, a quotation and a link into them, and
/// publishes the first one.
pub(crate) fn history(
    alloc: Global,
    document: &[u32],
    other: &[u32],
) -> Result<List<Entry>, Memory> {
    let mut history = List::new(alloc);
    let account = address(alloc, &ACCOUNT)?;
    push(&mut history, Change::Begin)?;
    push(&mut history, Change::Account { account })?;
    push_document(alloc, &mut history, document)?;
    push_document(alloc, &mut history, other)?;
    push_text(alloc, &mut history)?;
    push_link(alloc, &mut history)?;
    let document = address(alloc, &FIRST)?;
    push(&mut history, Change::Publish { document })?;
    Ok(history)
}
