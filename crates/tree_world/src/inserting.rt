//! Text comes in.
ghost use Rattle.std.specs.Prelude.{◌≡◌, ℕ, ◌+◌, ◌^◌, ◌<◌, ◌≤◌, length, IfSome, OnOk, OnErr};
ghost use Rattle.tumbler.specs.Address.{IsDocument};
ghost use Rattle.tumbler.specs.Places.{place_bound};
ghost use Rattle.tumbler.specs.Span.{SpanFits};
ghost use Rattle.enfilade_core.specs.Exchange.{Grows};
ghost use Rattle.granfilade.specs.Content.{laid, content, tree_rows};
ghost use Rattle.granfilade.specs.Steps.{last_of};
ghost use Rattle.granfilade.specs.Puts.{IsNext, IsContent, put_in};
ghost use Rattle.links.specs.LinkLists.{run_span};
ghost use Rattle.febe_data.specs.Plain.{text_inserted};
ghost use Rattle.world_rules.specs.FlatView.{FlatView};
ghost use Rattle.tree_world.specs.Standing.{Stands};
ghost use Rattle.tree_world.specs.Changed.{after_change};
ghost use Rattle.tree_world.specs.Undone.{EntryCame, DocumentEdited};
ghost use Rattle.tree_world.specs.inside.Seen.{text_run};
ghost use Rattle.spanfilade.specs.Index.{rows_in_index};
ghost use Rattle.spanfilade.specs.Index.{IsCovered as IsIndexed};

use crate::counts::one_more;
use crate::editing::has_place;
use crate::marking::set_root;
use crate::world::TreeWorld;
use febe_data::{Memory, Span, Tumbler};
use granfilade::Granfilade;
use spanfilade::Spanfilade;

/// The bytes come in at their address. Where it is refused the contents are as before.
fn put_text(contents: &mut Granfilade, start: &Tumbler, text: &[u8]) -> Result<(), Memory>
    requires next { IsNext start.now (content contents.old) }
    requires room { last_of start.now + length text.now < place_bound }
    requires rows { IsContent (tree_rows contents.old) }
    ensures grows { Grows contents.old.nodes contents.new.nodes }
    ensures bytes { OnOk result (content contents.new ≡ put_in start.now (laid start.now text.now) (content contents.old)) }
    ensures rows { OnOk result (IsContent (tree_rows contents.new)) }
    ensures refused { OnErr result (contents.new ≡ contents.old) }
{
    let mark = contents.mark();
    let Ok(()) = contents.put(start, text) else {
        contents.back(&mark);
        return Err(Memory);
    };
    Ok(())
}

/// The span is covered for the document. Where it is refused the index is as before.
fn cover(index: &mut Spanfilade, span: &Span, document: &Tumbler) -> Result<(), Memory>
    requires { SpanFits span.now }
    ensures covered { OnOk result (IsIndexed span.now document.now (rows_in_index index.old) (rows_in_index index.new)) }
    ensures grows { Grows index.old.nodes index.new.nodes }
    ensures refused { OnErr result (index.new ≡ index.old) }
{
    let mark = index.mark();
    let Ok(()) = index.cover(span, document) else {
        index.back(&mark);
        return Err(Memory);
    };
    Ok(())
}

/// The addresses of so many bytes of a document.
fn text_span(document: &Tumbler, first: u32, count: u32) -> Span
    requires document { IsDocument document.now }
    requires first { 1 ≤ first }
    requires numbers { first + count < 2 ^ 32 }
    ensures value { result ≡ run_span (text_run document.now first count) }
    ensures fits { SpanFits result }
{
    let start = document.extended(&[0, 1, first]).unwrap();
    let width = Tumbler::width(start.allocator(), start.places().len(), count);
    Span { start, width }
}

/// How many bytes a text has, where `first` is the next number of the document's content and all of them have numbers.
fn numbered(content: u32, first: u32, long: usize) -> Option<u32>
    ensures next { IfSome result (λ count. first ≡ content + 1) }
    ensures count { IfSome result (λ count. count ≡ long) }
    ensures numbers { IfSome result (λ count. first + count < 2 ^ 32) }
{
    if long > u32::MAX as usize {
        return None;
    }
    let count = long as u32;
    if content.checked_add(1)? != first {
        return None;
    }
    first.checked_add(count)?;
    Some(count)
}

impl TreeWorld {
    /// The text's bytes come into the document's content, and are shown at a position.
    pub(crate) fn insert(
        &mut self,
        document: &Tumbler,
        at: u32,
        first: u32,
        text: &[u8],
    ) -> Result<(), Memory>
        ensures ok { (view : FlatView) (session : ℕ) → Stands self.old view → OnOk result (Stands self.new (after_change view session (text_inserted document.now at first text.now))) }
        ensures err { OnErr result (self.new ≡ self.old) }
        ensures came { OnOk result (EntryCame (DocumentEdited document.now) self.old self.new) }
        ensures sessions { self.new.sessions ≡ self.old.sessions }
    {
        let counted = one_more(self.counted)?;
        let Some(root) = self.documents.root(document) else {
            return Err(Memory);
        };
        let Some(count) = numbered(self.documents.content(document), first, text.len()) else {
            return Err(Memory);
        };
        if !has_place(self.pooms.length(root), at, count) {
            return Err(Memory);
        }
        let Some(total) = self.content.checked_add(text.len()) else {
            return Err(Memory);
        };
        self.due.reserve(1)?;
        let span = text_span(document, first, count);
        let contents = self.contents.mark();
        let nodes = self.pooms.mark();
        put_text(&mut self.contents, &span.start, text)?;
        let Ok(made) = self.pooms.insert(root, at, document, first, count) else {
            self.contents.back(&contents);
            return Err(Memory);
        };
        let Ok(()) = cover(&mut self.index, &span, document) else {
            self.pooms.back(nodes);
            self.contents.back(&contents);
            return Err(Memory);
        };
        set_root(
            &mut self.due,
            &self.pooms,
            &mut self.documents,
            document,
            root,
            made,
        );
        self.documents.set_content(document, first - 1 + count);
        self.content = total;
        self.counted = counted;
        Ok(())
    }
}
