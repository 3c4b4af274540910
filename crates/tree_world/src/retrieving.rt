//! What a retrieve gives: how much it is, and its items.
ghost use Rattle.std.specs.Prelude.{◌≡◌, ◌+◌, ◌-◌, ◌^◌, ◌≤◌, ◌++◌, min, map, length, false, All, IfOk, OnOk};
ghost use Rattle.std.specs.List.{list_any, sum_by};
ghost use Rattle.tumbler.specs.Span.{SpanFits};
ghost use Rattle.febe_data.specs.Plain.{plain_spec, plain_item, link};
ghost use Rattle.granfilade.specs.Content.{content, tree_rows};
ghost use Rattle.granfilade.specs.Puts.{IsContent};
ghost use Rattle.enfilade_core.specs.Rows.{rows_of};
ghost use Rattle.poom.specs.Laid.{IsRoot, texts};
ghost use Rattle.poom.specs.Picked.{picked_from};
ghost use Rattle.world_rules.specs.FlatView.{FlatView};
ghost use Rattle.world_rules.specs.Answers.{items_of, NamesTumbler};
ghost use Rattle.world_rules.specs.Refusals.{is_bad_span, has_bad_span, total_of, span_bytes, span_items};
ghost use Rattle.tree_world.specs.Trees.{text_in, links_in};
ghost use Rattle.tree_world.specs.Standing.{Stands};
ghost use Rattle.tree_world.specs.inside.Seen.{text_count, item_count, text_picked, links_picked, text_item, items_picked, items_by_spec, items_by_specs};

use crate::positions::bound;
use crate::text_reading::text_between;
use crate::world::TreeWorld;
use enfilade_core::Node;
use febe_data::{Item, List, Memory, Span, Spec, Tumbler};
use granfilade::Granfilade;
use poom::Poom;
use std::alloc::Global;
use world_rules::{Size, WorldError};

impl TreeWorld {
    /// How much a span gives, of a text that is so long and of so many links.
    fn span_size(&self, document: &Tumbler, long: u32, many: u32, span: &Span) -> Size
        requires fits { SpanFits span.now }
        requires long { long ≡ length (text_in self.now document.now) }
        requires many { many ≡ length (links_in self.now document.now) }
        requires few_bytes { long ≤ 4294967294 }
        requires few_links { many ≤ 4294967294 }
        ensures bytes { result.bytes ≡ text_count self.now document.now span.now }
        ensures items { result.items ≡ item_count self.now document.now span.now }
    {
        let bytes = self.text_count(document, long, span) as usize;
        let links = self.link_count(document, many, span) as usize;
        let texts = if bytes == 0 { 0 } else { 1 };
        Size {
            bytes,
            items: texts + links,
        }
    }

    /// How much the spans of a spec give.
    #[tactic(auto, using(crate::proofs::Sizes::sizes, crate::proofs::Steps::fit))]
    fn spec_size(&self, spec: &Spec) -> Size
        requires { list_any is_bad_span (plain_spec spec.now).spans ≡ false }
        ensures bytes { result.bytes ≡ min (sum_by (text_count self.now spec.now.document) spec.now.spans.items) (2 ^ 64 - 1) }
        ensures items { result.items ≡ min (sum_by (item_count self.now spec.now.document) spec.now.spans.items) (2 ^ 64 - 1) }
    {
        let long = self.text_long(&spec.document);
        let many = self.links_long(&spec.document);
        let mut bytes: usize = 0;
        let mut items: usize = 0;
        for span in spec.spans.as_slice() {
            let size = self.span_size(&spec.document, long, many, span);
            bytes = bytes.saturating_add(size.bytes);
            items = items.saturating_add(size.items);
        }
        Size { bytes, items }
    }

    /// How much the specs give, tree by tree.
    #[tactic(auto, using(crate::proofs::Sizes::sizes, crate::proofs::Steps::fit))]
    fn specs_size(&self, specs: &[Spec]) -> Size
        requires { has_bad_span (map plain_spec specs.now) ≡ false }
        ensures bytes { result.bytes ≡ min (total_of (text_count self.now) (map plain_spec specs.now)) (2 ^ 64 - 1) }
        ensures items { result.items ≡ min (total_of (item_count self.now) (map plain_spec specs.now)) (2 ^ 64 - 1) }
    {
        let mut bytes: usize = 0;
        let mut items: usize = 0;
        for spec in specs {
            let size = self.spec_size(spec);
            bytes = bytes.saturating_add(size.bytes);
            items = items.saturating_add(size.items);
        }
        Size { bytes, items }
    }

    /// How many bytes and items the specs give. It takes no memory.
    pub(crate) fn size_of(&self, specs: &[Spec]) -> Size
        requires { has_bad_span (map plain_spec specs.now) ≡ false }
        ensures bytes { (view : FlatView) → Stands self.now view → result.bytes ≡ min (total_of (span_bytes view.world) (map plain_spec specs.now)) (2 ^ 64 - 1) }
        ensures items { (view : FlatView) → Stands self.now view → result.items ≡ min (total_of (span_items view.world) (map plain_spec specs.now)) (2 ^ 64 - 1) }
    {
        self.specs_size(specs)
    }
}

/// Adds one item with the bytes that a span picks from a tree's text, which is so long, where it picks any.
fn push_text(
    alloc: Global,
    items: &mut List<Item>,
    contents: &Granfilade,
    pooms: &Poom,
    root: Node,
    long: u32,
    span: &Span,
) -> Result<(), Memory>
    requires contents { IsContent (tree_rows contents.now) }
    requires root { IsRoot pooms.now root.0 }
    requires fits { SpanFits span.now }
    requires long { long ≡ length (texts (rows_of pooms.now root.0)) }
    requires few { long ≤ 4294967294 }
    ensures items { OnOk result (map plain_item items.new.items ≡ map plain_item items.old.items ++ text_item (content contents.now) (picked_from 1 span.now 1 (texts (rows_of pooms.now root.0)))) }
    ensures valid { OnOk result (All NamesTumbler (map plain_item items.old.items) → All NamesTumbler (map plain_item items.new.items)) }
{
    let from = bound(1, &span.start, long);
    let to = bound(1, &span.start.add(&span.width), long);
    if to <= from {
        return Ok(());
    }
    let text = text_between(alloc, contents, pooms, root, from, to)?;
    items.push(Item::Bytes(text))
}

/// The link of that id.
fn link_item(id: &Tumbler) -> Item
    ensures item { plain_item result ≡ link id.now }
    ensures valid { NamesTumbler (plain_item result) }
{
    let _ = id.places();
    Item::Link(id.copy())
}

/// Adds the links of these ids.
#[tactic(auto, using(crate::proofs::Retrieved::link_steps))]
fn push_links(items: &mut List<Item>, ids: &[Tumbler]) -> Result<(), Memory>
    ensures items { OnOk result (map plain_item items.new.items ≡ map plain_item items.old.items ++ map link ids.now) }
    ensures valid { OnOk result (All NamesTumbler (map plain_item items.old.items) → All NamesTumbler (map plain_item items.new.items)) }
{
    for id in ids {
        items.push(link_item(id))?;
    }
    Ok(())
}

impl TreeWorld {
    /// Adds one item with the bytes that a span picks from a document's text, which is so long, where it picks any.
    fn push_span_text(
        &self,
        alloc: Global,
        items: &mut List<Item>,
        document: &Tumbler,
        long: u32,
        span: &Span,
    ) -> Result<(), Memory>
        requires fits { SpanFits span.now }
        requires long { long ≡ length (text_in self.now document.now) }
        requires few { long ≤ 4294967294 }
        ensures items { OnOk result (map plain_item items.new.items ≡ map plain_item items.old.items ++ text_item (content self.now.contents) (text_picked self.now document.now span.now)) }
        ensures valid { OnOk result (All NamesTumbler (map plain_item items.old.items) → All NamesTumbler (map plain_item items.new.items)) }
    {
        let Some(root) = self.documents.root(document) else {
            return Ok(());
        };
        push_text(alloc, items, &self.contents, &self.pooms, root, long, span)
    }

    /// Adds the links that a span picks from a document's, which are so many.
    fn push_span_links(
        &self,
        items: &mut List<Item>,
        document: &Tumbler,
        many: u32,
        span: &Span,
    ) -> Result<(), Memory>
        requires fits { SpanFits span.now }
        requires many { many ≡ length (links_in self.now document.now) }
        requires few { many ≤ 4294967294 }
        ensures items { OnOk result (map plain_item items.new.items ≡ map plain_item items.old.items ++ map link (links_picked self.now document.now span.now)) }
        ensures valid { OnOk result (All NamesTumbler (map plain_item items.old.items) → All NamesTumbler (map plain_item items.new.items)) }
    {
        if self.link_count(document, many, span) == 0 {
            return Ok(());
        }
        let Some(root) = self.documents.root(document) else {
            return Ok(());
        };
        let ids = self.pooms.picked_links(root, span)?;
        push_links(items, ids.as_slice())
    }

    /// Adds what a span gives.
    fn push_span(
        &self,
        alloc: Global,
        items: &mut List<Item>,
        document: &Tumbler,
        long: u32,
        many: u32,
        span: &Span,
    ) -> Result<(), Memory>
        requires fits { SpanFits span.now }
        requires long { long ≡ length (text_in self.now document.now) }
        requires many { many ≡ length (links_in self.now document.now) }
        requires few_bytes { long ≤ 4294967294 }
        requires few_links { many ≤ 4294967294 }
        ensures items { OnOk result (map plain_item items.new.items ≡ map plain_item items.old.items ++ items_picked self.now document.now span.now) }
        ensures valid { OnOk result (All NamesTumbler (map plain_item items.old.items) → All NamesTumbler (map plain_item items.new.items)) }
    {
        self.push_span_text(alloc, items, document, long, span)?;
        self.push_span_links(items, document, many, span)
    }

    /// Adds what the spans of a spec give.
    #[tactic(auto, using(crate::proofs::Steps::steps, crate::proofs::Steps::fit))]
    fn push_spec(&self, alloc: Global, items: &mut List<Item>, spec: &Spec) -> Result<(), Memory>
        requires { list_any is_bad_span (plain_spec spec.now).spans ≡ false }
        ensures items { OnOk result (map plain_item items.new.items ≡ map plain_item items.old.items ++ items_by_spec self.now (plain_spec spec.now)) }
        ensures valid { OnOk result (All NamesTumbler (map plain_item items.old.items) → All NamesTumbler (map plain_item items.new.items)) }
    {
        let long = self.text_long(&spec.document);
        let many = self.links_long(&spec.document);
        for span in spec.spans.as_slice() {
            self.push_span(alloc, items, &spec.document, long, many, span)?;
        }
        Ok(())
    }

    /// What the specs give, tree by tree.
    #[tactic(auto, using(crate::proofs::Steps::steps, crate::proofs::Steps::fit))]
    fn items_by_specs(&self, alloc: Global, specs: &[Spec]) -> Result<List<Item>, Memory>
        requires { has_bad_span (map plain_spec specs.now) ≡ false }
        ensures items { IfOk result (λ made. map plain_item made.items ≡ items_by_specs self.now (map plain_spec specs.now)) }
        ensures valid { IfOk result (λ made. All NamesTumbler (map plain_item made.items)) }
    {
        let mut items = List::new(alloc);
        for spec in specs {
            self.push_spec(alloc, &mut items, spec)?;
        }
        Ok(items)
    }

    /// What the specs give.
    pub(crate) fn picked_items(
        &self,
        alloc: Global,
        specs: &[Spec],
    ) -> Result<List<Item>, WorldError>
        requires { has_bad_span (map plain_spec specs.now) ≡ false }
        ensures items { (view : FlatView) → Stands self.now view → IfOk result (λ made. map plain_item made.items ≡ items_of view.world (map plain_spec specs.now)) }
        ensures valid { IfOk result (λ made. All NamesTumbler (map plain_item made.items)) }
    {
        let _ = &self.contents;
        let items = self.items_by_specs(alloc, specs)?;
        Ok(items)
    }
}
