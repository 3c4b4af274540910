//! What requests ask of a world, whatever it keeps: look-ups, each with the answer that the definitions give for any view
//! that the value stands for.
ghost use Rattle.std.specs.Prelude.{◌≡◌, ◌+◌, ◌-◌, ◌^◌, ◌<◌, ℕ, not, min, length, map, true, false, is_none, nat_lt, All, IsOk, IfOk, OnOk, OnErr, IfSome, IfNone, Some};
ghost use Rattle.std.specs.List.{list_any};
ghost use Rattle.tumbler.specs.Places.{IsTumbler};
ghost use Rattle.tumbler.specs.Address.{most_document_places, IsAccount, IsDocument};
ghost use Rattle.febe_data.specs.Plain.{plain_spec, plain_item, plain_want, plain_entry};
ghost use Rattle.febe_data.specs.Validity.{IsDiagonal};
ghost use Rattle.world_rules.specs.World.{has_document, account_of_session, mode_of, is_held_against, text_length, link_length, next_document, next_version, content_length, links_made_in};
ghost use Rattle.world_rules.specs.Readable.{is_published};
ghost use Rattle.world_rules.specs.Holding.{holder};
ghost use Rattle.world_rules.specs.Picking.{picked_addresses, runs_of};
ghost use Rattle.world_rules.specs.Refusals.{is_bad_span, has_bad_span, is_too_long, total_of, span_bytes, span_items};
ghost use Rattle.world_rules.specs.Relation.{diagonals};
ghost use Rattle.world_rules.specs.Finding.{documents_found, links_found, ids_found, ids_after, link_at};
ghost use Rattle.world_rules.specs.Ends.{end_set, NamesSpans};
ghost use Rattle.world_rules.specs.Answers.{items_of, follow_of, NamesTumbler};
ghost use Rattle.world_rules.specs.FlatView.{FlatView, entries_in, after_entry};
ghost use Rattle.world_rules.specs.InPlace.{DropsOnly, HasRoom};
ghost use Rattle.world_rules.specs.Wanted.{AreWantedRuns};

use crate::ends::End;
use crate::errors::WorldError;
use febe_data::{Diagonal, Entry, Item, List, Memory, Mode, Run, Spec, Tumbler, Want};
use std::alloc::Global;

/// How many bytes and items a retrieve gives, counted up to the greatest `usize`.
#[derive(Clone, Copy, Debug)]
pub struct Size {
    pub bytes: usize,
    pub items: usize,
}

/// The runs that are looked for in each end of links.
#[derive(Debug, Drop)]
pub struct WantedRuns {
    pub from: List<Run>,
    pub to: List<Run>,
    pub three: List<Run>,
}

/// What is asked of documents, sessions and numbers.
pub trait LookUp {
    /// The value answers as the definitions do for this view. A value may stand for many: for lists in other orders, say.
    ghost stands: { Self → FlatView → Type 0 };

    /// How many entries the limits have counted.
    fn counted(&self) -> u64
        ensures { (view : FlatView) → stands self.now view → result ≡ view.counted };

    /// How many entries the session has.
    fn entries_of(&self, session: u64) -> u64
        ensures { (view : FlatView) → stands self.now view → result ≡ entries_in view.sessions session };

    /// How many content bytes there are.
    fn content(&self) -> usize
        ensures { (view : FlatView) → stands self.now view → result ≡ length view.world.bytes };

    fn has_document(&self, document: &Tumbler) -> bool
        ensures { (view : FlatView) → stands self.now view → result ≡ has_document view.world document.now };

    /// Whether the document is published.
    fn is_published(&self, document: &Tumbler) -> bool
        ensures { (view : FlatView) → stands self.now view → result ≡ is_published view.world document.now };

    /// The account that the session has set, if it has.
    fn account_of_session(&self, session: u64) -> Option<Tumbler>
        ensures { (view : FlatView) → stands self.now view → result ≡ account_of_session view.world session };

    /// What the session has the document open for, if it has it open.
    fn mode_of(&self, session: u64, document: &Tumbler) -> Option<Mode>
        ensures { (view : FlatView) → stands self.now view → result ≡ mode_of view.world session document.now };

    /// Whether another session has the document open for writing.
    fn is_held_against(&self, session: u64, document: &Tumbler) -> bool
        ensures { (view : FlatView) → stands self.now view → result ≡ is_held_against view.world session document.now };

    /// The session that has the document open for writing, if one has.
    fn holder_of(&self, document: &Tumbler) -> Option<u64>
        ensures { (view : FlatView) → stands self.now view → result ≡ holder view.world document.now };

    /// How many positions the document's text has.
    fn text_length(&self, document: &Tumbler) -> usize
        ensures { (view : FlatView) → stands self.now view → result ≡ text_length view.world document.now };

    /// How many positions the document's links have.
    fn link_length(&self, document: &Tumbler) -> usize
        ensures { (view : FlatView) → stands self.now view → result ≡ link_length view.world document.now };

    /// The address of the account's next document. It is refused only where that is no tumbler.
    fn next_document(&self, account: &Tumbler) -> Result<Tumbler, WorldError>
        ensures value { (view : FlatView) → stands self.now view → IfOk result (λ document. document ≡ next_document view.world account.now) }
        ensures valid { IfOk result IsTumbler }
        ensures accepted { (view : FlatView) → stands self.now view → IsAccount account.now → IsTumbler (next_document view.world account.now) → IsOk result };

    /// The address of the document's next version. It is refused only where that is no tumbler.
    fn next_version(&self, document: &Tumbler) -> Result<Tumbler, WorldError>
        ensures value { (view : FlatView) → stands self.now view → IfOk result (λ version. version ≡ next_version view.world document.now) }
        ensures valid { IfOk result IsTumbler }
        ensures accepted { (view : FlatView) → stands self.now view → IsDocument document.now → length document.now < most_document_places → IsTumbler (next_version view.world document.now) → IsOk result };

    /// The number of the document's next content byte. It is refused only where a place can't hold it.
    fn next_content(&self, document: &Tumbler) -> Result<u32, WorldError>
        ensures value { (view : FlatView) → stands self.now view → IfOk result (λ number. number ≡ content_length view.world document.now + 1) }
        ensures accepted { (view : FlatView) → stands self.now view → IsDocument document.now → content_length view.world document.now + 1 < 2 ^ 32 → IsOk result };

    /// The number of the next link that is made in the document. It is refused only where a place can't hold it.
    fn next_link(&self, home: &Tumbler) -> Result<u32, WorldError>
        ensures value { (view : FlatView) → stands self.now view → IfOk result (λ number. number ≡ links_made_in view.world home.now + 1) }
        ensures accepted { (view : FlatView) → stands self.now view → links_made_in view.world home.now + 1 < 2 ^ 32 → IsOk result };
}

/// What is asked of content and links.
pub trait Find: LookUp {
    /// How many addresses the specs pick, with repeats.
    fn picked_length(&self, alloc: Global, specs: &[Spec]) -> Result<usize, WorldError>
        ensures { (view : FlatView) → Self.stands self.now view → IfOk result (λ picked. picked ≡ length (picked_addresses view.world (map plain_spec specs.now))) };

    /// The runs that the specs pick, where there are at most so many. Where there are more it need not make them all.
    fn runs_up_to(
        &self,
        alloc: Global,
        specs: &[Spec],
        most: usize,
    ) -> Result<Option<List<Run>>, WorldError>
        ensures runs { (view : FlatView) → Self.stands self.now view → IfOk result (λ found. IfSome found (λ runs. runs.items ≡ runs_of view.world (map plain_spec specs.now))) }
        ensures few { IfOk result (λ found. IfSome found (λ runs. nat_lt most (length runs.items) ≡ false)) }
        ensures many { (view : FlatView) → Self.stands self.now view → IfOk result (λ found. IfNone found (nat_lt most (length (runs_of view.world (map plain_spec specs.now))) ≡ true)) };

    /// How many bytes and items the specs give. It takes no memory.
    fn retrieved_size(&self, specs: &[Spec]) -> Size
        requires fits { has_bad_span (map plain_spec specs.now) ≡ false }
        ensures bytes { (view : FlatView) → Self.stands self.now view → result.bytes ≡ min (total_of (span_bytes view.world) (map plain_spec specs.now)) (2 ^ 64 - 1) }
        ensures items { (view : FlatView) → Self.stands self.now view → result.items ≡ min (total_of (span_items view.world) (map plain_spec specs.now)) (2 ^ 64 - 1) };

    /// What the specs give.
    fn retrieved(&self, alloc: Global, specs: &[Spec]) -> Result<List<Item>, WorldError>
        requires fits { has_bad_span (map plain_spec specs.now) ≡ false }
        ensures items { (view : FlatView) → Self.stands self.now view → IfOk result (λ made. map plain_item made.items ≡ items_of view.world (map plain_spec specs.now)) }
        ensures valid { IfOk result (λ made. All NamesTumbler (map plain_item made.items)) };

    /// Where the two specs pick the same content, where a reply has room for it.
    fn diagonals(
        &self,
        alloc: Global,
        left: &Spec,
        right: &Spec,
    ) -> Result<Option<List<Diagonal>>, WorldError>
        requires left { list_any is_bad_span (plain_spec left.now).spans ≡ false }
        requires right { list_any is_bad_span (plain_spec right.now).spans ≡ false }
        ensures value { (view : FlatView) → Self.stands self.now view → IfOk result (λ found. IfSome found (λ made. made.items ≡ diagonals view.world (plain_spec left.now) (plain_spec right.now))) }
        ensures valid { IfOk result (λ found. IfSome found (λ made. All IsDiagonal made.items)) }
        ensures few { IfOk result (λ found. IfSome found (λ made. is_too_long (length made.items) ≡ false)) }
        ensures many { (view : FlatView) → Self.stands self.now view → IfOk result (λ found. IfNone found (is_too_long (length (diagonals view.world (plain_spec left.now) (plain_spec right.now))) ≡ true)) };

    /// The documents that the session may read and that have content which the specs pick, ascending.
    fn documents_found(
        &self,
        alloc: Global,
        session: u64,
        specs: &[Spec],
    ) -> Result<List<Tumbler>, WorldError>
        ensures items { (view : FlatView) → Self.stands self.now view → IfOk result (λ made. made.items ≡ documents_found view.world session (map plain_spec specs.now)) }
        ensures valid { IfOk result (λ made. All IsTumbler made.items) };

    /// How many links are wanted, of those whose home the session may read. The runs are those that the want's specs pick.
    fn links_found(&self, session: u64, want: &Want, runs: &WantedRuns) -> Result<u32, WorldError>
        requires { (view : FlatView) → Self.stands self.now view → AreWantedRuns view.world (plain_want want.now) runs.now }
        ensures { (view : FlatView) → Self.stands self.now view → IfOk result (λ count. count ≡ length (links_found view.world session (plain_want want.now))) };

    /// The ids of these links, ascending.
    fn ids_found(
        &self,
        alloc: Global,
        session: u64,
        want: &Want,
        runs: &WantedRuns,
    ) -> Result<List<Tumbler>, WorldError>
        requires { (view : FlatView) → Self.stands self.now view → AreWantedRuns view.world (plain_want want.now) runs.now }
        ensures items { (view : FlatView) → Self.stands self.now view → IfOk result (λ made. made.items ≡ ids_found view.world session (plain_want want.now)) }
        ensures valid { IfOk result (λ made. All IsTumbler made.items) };

    /// The first so many of them above the tumbler.
    fn ids_after(
        &self,
        alloc: Global,
        session: u64,
        want: &Want,
        runs: &WantedRuns,
        after: &Tumbler,
        limit: u32,
    ) -> Result<List<Tumbler>, WorldError>
        requires { (view : FlatView) → Self.stands self.now view → AreWantedRuns view.world (plain_want want.now) runs.now }
        ensures items { (view : FlatView) → Self.stands self.now view → IfOk result (λ made. made.items ≡ ids_after view.world session (plain_want want.now) after.now limit) }
        ensures valid { IfOk result (λ made. All IsTumbler made.items) };

    /// Whether there is a link of that id whose home the session may read.
    fn has_link(&self, session: u64, id: &Tumbler) -> bool
        ensures { (view : FlatView) → Self.stands self.now view → result ≡ not (is_none (link_at view.world session id.now)) };

    /// Where that end of the link is now: one spec for each of its runs whose origin the session may read. Nothing where
    /// there is no such link.
    fn end_now(
        &self,
        alloc: Global,
        session: u64,
        id: &Tumbler,
        end: End,
    ) -> Result<List<Spec>, WorldError>
        ensures value { (view : FlatView) → Self.stands self.now view → IfOk result (λ made. map plain_spec made.items ≡ follow_of view.world session (link_at view.world session id.now) (Some end)) }
        ensures valid { IfOk result (λ made. All NamesSpans (map plain_spec made.items)) };

    /// One spec for each spec: which of the text that it picks is in that end of some link whose home the session may read.
    fn end_set(
        &self,
        alloc: Global,
        session: u64,
        end: End,
        specs: &[Spec],
    ) -> Result<List<Spec>, WorldError>
        ensures value { (view : FlatView) → Self.stands self.now view → IfOk result (λ made. map plain_spec made.items ≡ end_set view.world session end (map plain_spec specs.now)) }
        ensures valid { IfOk result (λ made. All NamesSpans (map plain_spec made.items)) };
}

/// A world that entries change.
pub trait Apply: Find {
    /// Changes the world as the entry says, and counts it. A restart, a begin and an end take no memory, where the session
    /// has an entry and one more can be counted.
    fn apply(&mut self, alloc: Global, entry: &Entry) -> Result<(), Memory>
        ensures ok { (view : FlatView) → Self.stands self.old view → OnOk result (Self.stands self.new (after_entry view (plain_entry entry.now))) }
        ensures err { (view : FlatView) → Self.stands self.old view → OnErr result (Self.stands self.new view) }
        ensures in_place { (view : FlatView) → Self.stands self.old view → DropsOnly entry.now.change → HasRoom view.sessions entry.now.session → IsOk result };
}
