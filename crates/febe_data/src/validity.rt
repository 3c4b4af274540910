//! Which requests the grammar can spell. Tumblers and numbers are right by their types, so what can be wrong is how
//! many bytes, items or spans there are.
ghost use Rattle.std.specs.Prelude.{◌↔◌, [], map, IsTrue};
ghost use Rattle.std.specs.List.{AllByRecursion};
ghost use Rattle.tumbler.specs.Places.{IsTumbler};
ghost use Rattle.febe_data.specs.FieldValues.{want_values};
ghost use Rattle.febe_data.specs.Plain.{plain_request, plain_spec, plain_want};
ghost use Rattle.febe_data.specs.Validity.{IsText, IsSpan, IsList, IsSpec, IsSpecSet, IsFieldValue, IsRequest};

use crate::bounds::{MOST_ITEMS, MOST_TEXT_BYTES};
use crate::request::Request;
use crate::spec::Spec;
use crate::want::Want;
use tumbler::{MOST_PLACES, Span, Tumbler};

/// It is, by its type.
fn is_tumbler(tumbler: &Tumbler) -> bool
    ensures { IsTrue result ↔ IsTumbler tumbler.now }
{
    tumbler.places().len() <= MOST_PLACES
}

fn is_text(text: &[u8]) -> bool
    ensures { IsTrue result ↔ IsText text.now }
{
    text.len() <= MOST_TEXT_BYTES as usize
}

fn is_span(span: &Span) -> bool
    ensures { IsTrue result ↔ IsSpan span.now }
{
    is_tumbler(&span.start) && is_tumbler(&span.width)
}

fn are_spans(spans: &[Span]) -> bool
    ensures { IsTrue result ↔ IsList IsSpan spans.now }
{
    for span in spans {
        if !is_span(span) {
            return false;
        }
    }
    spans.len() <= MOST_ITEMS as usize
}

fn are_tumblers(tumblers: &[Tumbler]) -> bool
    ensures { IsTrue result ↔ IsList IsTumbler tumblers.now }
{
    for tumbler in tumblers {
        if !is_tumbler(tumbler) {
            return false;
        }
    }
    tumblers.len() <= MOST_ITEMS as usize
}

fn is_spec(spec: &Spec) -> bool
    ensures { IsTrue result ↔ IsSpec (plain_spec spec.now) }
{
    is_tumbler(&spec.document) && are_spans(spec.spans.as_slice())
}

fn is_spec_set(specs: &[Spec]) -> bool
    ensures { IsTrue result ↔ IsSpecSet (map plain_spec specs.now) }
{
    if specs.len() > MOST_ITEMS as usize {
        return false;
    }
    let mut spans: usize = 0;
    for spec in specs {
        if !is_spec(spec) {
            return false;
        }
        spans += spec.spans.len();
    }
    spans <= MOST_ITEMS as usize
}

fn is_want(want: &Want) -> bool
    ensures { IsTrue result ↔ AllByRecursion IsFieldValue (want_values (plain_want want.now) []) }
{
    are_spans(want.homes.as_slice())
        && is_spec_set(want.from.as_slice())
        && is_spec_set(want.to.as_slice())
        && is_spec_set(want.three.as_slice())
}

impl Request {
    /// Whether the request keeps to the bounds of the grammar: its texts, its lists, and the spans of each spec set.
    pub fn is_valid(&self) -> bool
        ensures { IsTrue result ↔ IsRequest (plain_request self.now) }
    {
        match self {
            Request::Insert { document, at, text } => {
                is_tumbler(document) && is_tumbler(at) && is_text(text.as_slice())
            }
            Request::SpanSet { document } => is_tumbler(document),
            Request::Copy {
                document,
                at,
                specs,
            } => is_tumbler(document) && is_tumbler(at) && is_spec_set(specs.as_slice()),
            Request::Rearrange { document, cuts } => {
                is_tumbler(document) && are_tumblers(cuts.as_slice())
            }
            Request::Retrieve { specs } => is_spec_set(specs.as_slice()),
            Request::Relate { left, right } => is_spec(left) && is_spec(right),
            Request::Create => true,
            Request::Delete { document, span } => is_tumbler(document) && is_span(span),
            Request::Version { document } => is_tumbler(document),
            Request::WholeSpan { document } => is_tumbler(document),
            Request::Quit => true,
            Request::Follow { link, end } => {
                // Each number of the type is right, which is known once it is read.
                let _end = *end;
                is_tumbler(link)
            }
            Request::FindDocuments { specs } => is_spec_set(specs.as_slice()),
            Request::CreateLink {
                home,
                from,
                to,
                three,
            } => {
                is_tumbler(home)
                    && is_spec_set(from.as_slice())
                    && is_spec_set(to.as_slice())
                    && is_spec_set(three.as_slice())
            }
            Request::EndSets { specs } => is_spec_set(specs.as_slice()),
            Request::CountLinks { want } => is_want(want),
            Request::FindLinks { want } => is_want(want),
            Request::NextLinks { want, after, limit } => {
                let _limit = *limit;
                is_want(want) && is_tumbler(after)
            }
            Request::Account { account } => is_tumbler(account),
            Request::Open {
                document,
                mode: _,
                rule: _,
            } => is_tumbler(document),
            Request::Close { document } => is_tumbler(document),
            Request::Publish { document } => is_tumbler(document),
        }
    }
}
