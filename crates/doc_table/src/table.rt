//! The table of documents.
ghost use Rattle.std.specs.Prelude.{◌≡◌, ℕ, ◌+◌, ◌<◌, ◌≤◌, List, [], ◌∷◌, ◌++◌, length, slice_get, count_by, OnOk, OnErr, IsTrue, true, false};
ghost use Rattle.std.specs.Option.{option_map, option_copied};
ghost use Rattle.std.specs.Ordering.{nat_cmp};
ghost use Rattle.std.specs.Cmp.Lexicographic.{slice_cmp};
ghost use Rattle.std.specs.List.Sorted.{IsStrictlySortedBy};
ghost use Rattle.tumbler.specs.Address.{IsAccount, IsDocument};
ghost use Rattle.world_rules.specs.World.{is_child_of};
ghost use Rattle.doc_table.specs.DocumentRows.{most_documents, documents_in, has_in, root_in, content_in, published_in, added, removed, with_root, with_roots, with_content, with_mark, next_document_in, version_address_in};

use crate::rows::{DocumentRow, find, place, set_roots};
use crate::siblings::first_sibling;
use febe_data::bounds::MOST_DOCUMENT_PLACES;
use std::alloc::Global;
use std::collections::BTreeMap;
use std::marker::Model;
use tumbler::{Memory, Tumbler};
use world_rules::{Readers, count_down, count_of, count_up, is_of_account};

/// The documents that there are, in ascending order.
///
/// A look-up, a next address and a change of a root take time that grows as the logarithm of the number of documents.
/// What comes in or goes also moves one pointer for each document above it. Only `add` takes memory.
#[derive(Drop)]
pub struct DocTable<R> {
    rows: Vec<Box<DocumentRow<R>>>,
    counts: BTreeMap<Tumbler, u32>,
}

impl<R> Model for DocTable<R> {
    ghost use Rattle.std.specs.Prelude.{List, length, ◌≤◌};
    ghost use Rattle.std.specs.Coded.{coded_list};
    ghost use Rattle.doc_table.specs.declared.rows.DocumentRow.{DocumentRow};
    ghost use Rattle.world_rules.specs.World.{is_child_of};
    ghost use Rattle.doc_table.specs.DocumentRows.{documents_in, most_documents};
    ghost use Rattle.doc_table.specs.inside.Kept.{unboxed, IsAscending, HoldsCounts};

    ghost Value = { List (DocumentRow R) };

    ghost view = { λ t. unboxed t.rows.items };

    ghost invariant = { λ t. (length t.rows.items ≤ most_documents) × IsAscending (documents_in (unboxed t.rows.items)) × HoldsCounts (documents_in (unboxed t.rows.items)) t.counts };
}

impl<R: Copy> DocTable<R> {
    /// A table without documents. It takes no memory.
    pub fn new(alloc: Global) -> DocTable<R>
        ensures { result ≡ [] }
    {
        DocTable {
            rows: Vec::new(alloc),
            counts: BTreeMap::new(alloc),
        }
    }

    /// Whether the document is there.
    pub fn has(&self, document: &Tumbler) -> bool
        ensures { result ≡ has_in self.now document.now }
    {
        find(self.rows.as_slice(), document).is_some()
    }

    /// The root of the document's tree, if the document is there.
    pub fn root(&self, document: &Tumbler) -> Option<R>
        ensures { result ≡ root_in self.now document.now }
    {
        let rows = self.rows.as_slice();
        let Some(at) = find(rows, document) else {
            return None;
        };
        let row = &rows[at];
        Some(row.root)
    }

    /// How many bytes of content were set for the document, and 0 where it is not there.
    pub fn content(&self, document: &Tumbler) -> u32
        ensures { result ≡ content_in self.now document.now }
    {
        let rows = self.rows.as_slice();
        let Some(at) = find(rows, document) else {
            return 0;
        };
        let row = &rows[at];
        row.content
    }

    /// Whether the document is published, and false where it is not there. It takes no memory.
    pub fn published(&self, document: &Tumbler) -> bool
        ensures { result ≡ published_in self.now document.now }
    {
        let rows = self.rows.as_slice();
        let Some(at) = find(rows, document) else {
            return false;
        };
        let row = &rows[at];
        row.published
    }

    /// The `k`-th document in ascending order, counted from 0.
    pub fn nth(&self, k: u32) -> Option<&Tumbler>
        ensures { option_copied result ≡ slice_get (documents_in self.now) k }
    {
        match self.rows.as_slice().get(k as usize) {
            Some(row) => Some(&row.document),
            None => None,
        }
    }

    /// How many documents there are. It takes no memory.
    pub fn len(&self) -> usize
        ensures value { result ≡ length self.now }
        ensures few { result ≤ most_documents }
    {
        self.rows.len()
    }

    /// The root of the `k`-th document in ascending order, counted from 0. It takes no memory.
    pub fn root_at(&self, k: usize) -> Option<R>
        ensures { result ≡ option_map (λ (row : DocumentRow R). row.root) (slice_get self.now k) }
    {
        match self.rows.as_slice().get(k) {
            Some(row) => Some(row.root),
            None => None,
        }
    }

    /// The documents ascend, each once. It takes no memory.
    pub fn in_order(&self)
        ensures { IsStrictlySortedBy (slice_cmp nat_cmp) (documents_in self.now) }
    {
        let _rows = self.rows.as_slice();
    }

    /// Puts a document in, with no byte of content yet, and not published.
    pub fn add(&mut self, alloc: Global, document: &Tumbler, root: R) -> Result<(), Memory>
        requires absent { has_in self.old document.now ≡ false }
        requires room { length self.old < most_documents }
        ensures added { OnOk result (self.new ≡ added self.old document.now root) }
        ensures refused { OnErr result (self.new ≡ self.old) }
    {
        let at = place(self.rows.as_slice(), document);
        let row = Box::new(
            alloc,
            DocumentRow {
                document: document.copy(),
                root,
                content: 0,
                published: false,
            },
        )?;
        self.rows.reserve(1)?;
        count_up(&mut self.counts, first_sibling(document))?;
        let Ok(()) = self.rows.insert(at, row) else {
            unreachable!()
        };
        Ok(())
    }

    /// Takes a document out.
    pub fn remove(&mut self, document: &Tumbler)
        requires { IsTrue (has_in self.old document.now) }
        ensures { self.new ≡ removed self.old document.now }
    {
        let Some(at) = find(self.rows.as_slice(), document) else {
            unreachable!()
        };
        self.rows.remove(at);
        count_down(&mut self.counts, first_sibling(document));
    }

    /// Gives the document another root.
    pub fn set_root(&mut self, document: &Tumbler, root: R)
        requires { IsTrue (has_in self.old document.now) }
        ensures { self.new ≡ with_root self.old document.now root }
    {
        let Some(at) = find(self.rows.as_slice(), document) else {
            unreachable!()
        };
        let row = &mut self.rows[at];
        row.root = root;
    }

    /// Gives each document another root: the k-th document the k-th one. It takes no memory.
    pub fn set_roots(&mut self, roots: &[R])
        requires { length roots.now ≡ length self.old }
        ensures { self.new ≡ with_roots roots.now self.old }
    {
        set_roots(&mut self.rows, roots);
    }

    /// Sets how many bytes of content the document has.
    pub fn set_content(&mut self, document: &Tumbler, bytes: u32)
        requires { IsTrue (has_in self.old document.now) }
        ensures { self.new ≡ with_content self.old document.now bytes }
    {
        let Some(at) = find(self.rows.as_slice(), document) else {
            unreachable!()
        };
        let row = &mut self.rows[at];
        row.content = bytes;
    }

    /// Publishes the document. One that is published stays so. It takes no memory.
    pub fn publish(&mut self, document: &Tumbler)
        requires { IsTrue (has_in self.old document.now) }
        ensures { self.new ≡ with_mark self.old document.now true }
    {
        self.set_published(document, true);
    }

    /// Sets whether the document is published, by which the mark of before comes back. It takes no memory.
    pub fn set_published(&mut self, document: &Tumbler, mark: bool)
        requires { IsTrue (has_in self.old document.now) }
        ensures { self.new ≡ with_mark self.old document.now mark }
    {
        let Some(at) = find(self.rows.as_slice(), document) else {
            unreachable!()
        };
        let row = &mut self.rows[at];
        row.published = mark;
    }
}

impl<R: Copy> Readers for DocTable<R> {
    ghost publishes = { λ rows document. published_in rows document };

    fn is_published(&self, document: &Tumbler) -> bool {
        self.published(document)
    }
}

impl<R: Copy> DocTable<R> {
    /// The next document of an account: `account.0.D`, where D is one more than the number of documents that are
    /// `account.0` and one place.
    pub fn next_document(&self, account: &Tumbler) -> Tumbler
        requires { IsAccount account.now }
        ensures { result ≡ next_document_in (documents_in self.now) account.now }
    {
        let first = account.extended(&[0, 1]).unwrap();
        account.extended(&[0, self.next_number(&first)]).unwrap()
    }

    /// The address of a version of the source that this account makes.
    ///
    /// It is `source.k`, where k is one more than the number of documents that are the source and one place, if the
    /// source is the account's and has fewer than 20 places. Otherwise it is the account's next document.
    pub fn version_address(&self, source: &Tumbler, account: &Tumbler) -> Tumbler
        requires document { IsDocument source.now }
        requires account { IsAccount account.now }
        ensures { result ≡ version_address_in (documents_in self.now) source.now account.now }
    {
        if !is_of_account(account, source) || source.places().len() >= MOST_DOCUMENT_PLACES {
            return self.next_document(account);
        }
        source.child(self.next_number(&source.child(1)))
    }

    /// The number behind those of the documents that differ from this first address in the last place alone.
    fn next_number(&self, first: &Tumbler) -> u32
        ensures number { (front : List ℕ) → first.now ≡ front ++ 1 ∷ [] → result ≡ count_by (is_child_of front) (documents_in self.now) + 1 }
        ensures counted { 0 < result }
    {
        count_of(&self.counts, first) + 1
    }
}
