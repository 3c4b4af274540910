//! Spans of documents, which requests and links name.
ghost use Rattle.std.specs.Prelude.{◌≡◌, IfOk, map};
ghost use Rattle.febe_data.specs.Plain.{plain_spec};

use std::alloc::Global;
use tumbler::{List, Memory, Span, Tumbler};

/// Spans of one document's V-addresses.
#[derive(Debug, Drop)]
pub struct Spec {
    pub document: Tumbler,
    pub spans: List<Span>,
}

impl Spec {
    /// Another spec of the same document and spans.
    pub fn try_clone(&self, alloc: Global) -> Result<Spec, Memory>
        ensures { IfOk result (λ copy. plain_spec copy ≡ plain_spec self.now) }
    {
        Ok(Spec {
            document: self.document.copy(),
            spans: clone_spans(alloc, self.spans.as_slice())?,
        })
    }
}

pub(crate) fn clone_spans(alloc: Global, spans: &[Span]) -> Result<List<Span>, Memory>
    ensures { IfOk result (λ copy. copy.items ≡ spans.now) }
{
    List::from_slice(alloc, spans)
}

pub(crate) fn clone_specs(alloc: Global, specs: &[Spec]) -> Result<List<Spec>, Memory>
    ensures { IfOk result (λ copy. map plain_spec copy.items ≡ map plain_spec specs.now) }
{
    let mut copy = List::new(alloc);
    copy.reserve(specs.len())?;
    for spec in specs {
        copy.push_reserved(spec.try_clone(alloc)?);
    }
    Ok(copy)
}

pub(crate) fn clone_tumblers(alloc: Global, tumblers: &[Tumbler]) -> Result<List<Tumbler>, Memory>
    ensures { IfOk result (λ copy. copy.items ≡ tumblers.now) }
{
    List::from_slice(alloc, tumblers)
}
