//! What a retrieve gives: when it is refused, and its items.
ghost use Rattle.std.specs.Prelude.{◌≡◌, ℕ, ◌+◌, ◌-◌, ◌==◌, ◌&&◌, ◌<◌, ◌≤◌, ◌^◌, ◌↔◌, IsTrue, false, not, Option, None, [], ◌∷◌, ◌++◌, length, min, filter, map, count_by, All, OnOk, IfOk};
ghost use Rattle.std.specs.List.{list_any, sum_by, flat_map};
ghost use Rattle.tumbler.specs.Span.{SpanFits, end_of};
ghost use Rattle.febe_data.specs.Plain.{plain_spec, plain_item, link};
ghost use Rattle.world_rules.specs.World.{is_text_of, is_link_of};
ghost use Rattle.world_rules.specs.Picking.{is_within, picked_text, addresses_of, picked_by_spec, picked_addresses};
ghost use Rattle.world_rules.specs.Answers.{items_of_span, items_of, NamesTumbler};
ghost use Rattle.flat_world.specs.inside.ByteIndex.{HasBytesOf, item_of};
ghost use Rattle.world_rules.specs.Refusals.{is_bad_span, has_bad_span, span_bytes, span_items, total_of};

use crate::byte_index::{ByteIndex, push_byte};
use crate::flat::FlatWorld;
use febe_data::{Item, List, Memory, Span, Spec, Tumbler};
use std::alloc::Global;
use world_rules::{Row, Size, WorldError};

/// How many text rows of the document the span picks.
fn text_rows(rows: &[Row], document: &Tumbler, start: &Tumbler, end: &Tumbler) -> usize
    ensures { result ≡ count_by (λ row. is_text_of document.now row && is_within start.now end.now row) rows.now }
{
    rows.iter()
        .filter(|row| row.is_text_of(document) && row.is_within(start, end))
        .count()
}

/// How many link rows of the document the span picks.
fn link_rows(rows: &[Row], document: &Tumbler, start: &Tumbler, end: &Tumbler) -> usize
    ensures { result ≡ count_by (λ row. is_link_of document.now row && is_within start.now end.now row) rows.now }
{
    rows.iter()
        .filter(|row| row.is_link_of(document) && row.is_within(start, end))
        .count()
}

impl FlatWorld {
    /// What one span of a document gives.
    fn span_size(&self, document: &Tumbler, span: &Span) -> Size
        requires { SpanFits span.now }
        ensures bytes { result.bytes ≡ span_bytes self.now.world document.now span.now }
        ensures items { result.items ≡ min (span_items self.now.world document.now span.now) (2 ^ 64 - 1) }
    {
        let rows = self.rows.as_slice();
        let end = span.start.add(&span.width);
        let bytes = text_rows(rows, document, &span.start, &end);
        let links = link_rows(rows, document, &span.start, &end);
        let texts = if bytes == 0 { 0 } else { 1 };
        Size {
            bytes,
            items: links.saturating_add(texts),
        }
    }

    /// What the spans of one spec give.
    #[tactic(auto, using(flat_rows::proofs::Sizes::sizes))]
    fn spec_size(&self, spec: &Spec) -> Size
        requires { list_any is_bad_span (plain_spec spec.now).spans ≡ false }
        ensures bytes { result.bytes ≡ min (sum_by (span_bytes self.now.world spec.now.document) spec.now.spans.items) (2 ^ 64 - 1) }
        ensures items { result.items ≡ min (sum_by (span_items self.now.world spec.now.document) spec.now.spans.items) (2 ^ 64 - 1) }
    {
        let mut bytes: usize = 0;
        let mut items: usize = 0;
        for span in spec.spans.as_slice() {
            let size = self.span_size(&spec.document, span);
            bytes = bytes.saturating_add(size.bytes);
            items = items.saturating_add(size.items);
        }
        Size { bytes, items }
    }

    /// What the specs give.
    #[tactic(auto, using(flat_rows::proofs::Sizes::sizes))]
    pub(crate) fn size_of(&self, specs: &[Spec]) -> Size
        requires { has_bad_span (map plain_spec specs.now) ≡ false }
        ensures bytes { result.bytes ≡ min (total_of (span_bytes self.now.world) (map plain_spec specs.now)) (2 ^ 64 - 1) }
        ensures items { result.items ≡ min (total_of (span_items self.now.world) (map plain_spec specs.now)) (2 ^ 64 - 1) }
    {
        let mut bytes: usize = 0;
        let mut items: usize = 0;
        for spec in specs {
            let size = self.spec_size(spec);
            bytes = bytes.saturating_add(size.bytes);
            items = items.saturating_add(size.items);
        }
        Size { bytes, items }
    }
}

/// Adds the bytes of the document's text rows within the span, where there is such a row.
fn push_text(
    alloc: Global,
    items: &mut List<Item>,
    rows: &[Row],
    index: &ByteIndex,
    document: &Tumbler,
    start: &Tumbler,
    end: &Tumbler,
) -> Result<(), Memory>
    ensures items { OnOk result (map plain_item items.new.items ≡ map plain_item items.old.items ++ item_of index.now (filter (λ row. is_text_of document.now row && is_within start.now end.now row) rows.now)) }
    ensures valid { OnOk result (All NamesTumbler (map plain_item items.old.items) → All NamesTumbler (map plain_item items.new.items)) }
{
    let mut text = List::new(alloc);
    let mut picked = false;
    for row in rows {
        if row.is_text_of(document) && row.is_within(start, end) {
            picked = true;
            push_byte(&mut text, index, &row.address)?;
        }
    }
    if !picked {
        return Ok(());
    }
    items.push(Item::Bytes(text))
}

/// The link at the row.
fn link_at(row: &Row) -> Item
    ensures item { plain_item result ≡ link row.now.address }
    ensures valid { NamesTumbler (plain_item result) }
{
    let _ = row.address.places();
    Item::Link(row.address.copy())
}

/// Adds the ids of the document's links within the span.
fn push_links(
    items: &mut List<Item>,
    rows: &[Row],
    document: &Tumbler,
    start: &Tumbler,
    end: &Tumbler,
) -> Result<(), Memory>
    ensures items { OnOk result (map plain_item items.new.items ≡ map plain_item items.old.items ++ map (λ row. link row.address) (filter (λ row. is_link_of document.now row && is_within start.now end.now row) rows.now)) }
    ensures valid { OnOk result (All NamesTumbler (map plain_item items.old.items) → All NamesTumbler (map plain_item items.new.items)) }
{
    for row in rows {
        if row.is_link_of(document) && row.is_within(start, end) {
            items.push(link_at(row))?;
        }
    }
    Ok(())
}

impl FlatWorld {
    /// Adds what one span of a document gives.
    fn push_span(
        &self,
        alloc: Global,
        items: &mut List<Item>,
        index: &ByteIndex,
        document: &Tumbler,
        span: &Span,
    ) -> Result<(), Memory>
        requires fits { SpanFits span.now }
        requires indexed { HasBytesOf self.now.world.bytes (addresses_of (picked_text self.now.world document.now span.now)) index.now }
        ensures items { OnOk result (map plain_item items.new.items ≡ map plain_item items.old.items ++ items_of_span self.now.world document.now span.now) }
        ensures valid { OnOk result (All NamesTumbler (map plain_item items.old.items) → All NamesTumbler (map plain_item items.new.items)) }
    {
        let rows = self.rows.as_slice();
        let end = span.start.add(&span.width);
        push_text(alloc, items, rows, index, document, &span.start, &end)?;
        push_links(items, rows, document, &span.start, &end)
    }

    /// Adds what the spans of one spec give.
    #[tactic(auto, using(crate::proofs::Retrieved::levels))]
    fn push_spec(
        &self,
        alloc: Global,
        items: &mut List<Item>,
        index: &ByteIndex,
        spec: &Spec,
    ) -> Result<(), Memory>
        requires fits { list_any is_bad_span (plain_spec spec.now).spans ≡ false }
        requires indexed { HasBytesOf self.now.world.bytes (picked_by_spec self.now.world (plain_spec spec.now)) index.now }
        ensures items { OnOk result (map plain_item items.new.items ≡ map plain_item items.old.items ++ flat_map (items_of_span self.now.world spec.now.document) spec.now.spans.items) }
        ensures valid { OnOk result (All NamesTumbler (map plain_item items.old.items) → All NamesTumbler (map plain_item items.new.items)) }
    {
        for span in spec.spans.as_slice() {
            self.push_span(alloc, items, index, &spec.document, span)?;
        }
        Ok(())
    }

    /// Adds what the specs give.
    #[tactic(auto, using(crate::proofs::Retrieved::levels))]
    fn push_specs(
        &self,
        alloc: Global,
        items: &mut List<Item>,
        index: &ByteIndex,
        specs: &[Spec],
    ) -> Result<(), Memory>
        requires fits { has_bad_span (map plain_spec specs.now) ≡ false }
        requires indexed { HasBytesOf self.now.world.bytes (picked_addresses self.now.world (map plain_spec specs.now)) index.now }
        ensures items { OnOk result (map plain_item items.new.items ≡ map plain_item items.old.items ++ items_of self.now.world (map plain_spec specs.now)) }
        ensures valid { OnOk result (All NamesTumbler (map plain_item items.old.items) → All NamesTumbler (map plain_item items.new.items)) }
    {
        for spec in specs {
            self.push_spec(alloc, items, index, spec)?;
        }
        Ok(())
    }

    /// The items that the specs pick.
    pub(crate) fn picked_items(
        &self,
        alloc: Global,
        specs: &[Spec],
    ) -> Result<List<Item>, WorldError>
        requires { has_bad_span (map plain_spec specs.now) ≡ false }
        ensures items { IfOk result (λ made. map plain_item made.items ≡ items_of self.now.world (map plain_spec specs.now)) }
        ensures valid { IfOk result (λ made. All NamesTumbler (map plain_item made.items)) }
    {
        let index = self.byte_index(alloc, specs)?;
        let mut items = List::new(alloc);
        self.push_specs(alloc, &mut items, &index, specs)?;
        Ok(items)
    }
}
