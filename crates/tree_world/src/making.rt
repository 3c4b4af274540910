//! Documents come in.
ghost use Rattle.std.specs.Prelude.{◌≡◌, ◌<◌, false, length, IsTrue, OnOk, OnErr};
ghost use Rattle.febe_data.specs.declared.access.Mode.TheVariants.{Write};
ghost use Rattle.febe_data.specs.Plain.{document_created, version_made};
ghost use Rattle.doc_table.specs.DocumentRows.{has_in, most_documents, added};
ghost use Rattle.access_table.specs.AccessRows.{opened};
ghost use Rattle.world_rules.specs.FlatView.{FlatView};
ghost use Rattle.tree_world.specs.Standing.{Stands};
ghost use Rattle.tree_world.specs.Changed.{after_change, MayComeIn};
ghost use Rattle.tree_world.specs.Undone.{EntryCame, DocumentCame};

use crate::counts::one_more;
use crate::indexing::{index_runs, text_runs};
use crate::marking::add_mark;
use crate::sessions::may_write;
use crate::world::TreeWorld;
use access_table::AccessTable;
use doc_table::DocTable;
use enfilade_core::Node;
use febe_data::{Memory, Mode, Tumbler};
use std::alloc::Global;

/// The last place of the table of documents.
const LAST_DOCUMENT: u32 = 4_294_967_293;

/// Whether the document can come in: no such document is there, and the session alone may write it.
fn may_come_in(
    documents: &DocTable<Node>,
    access: &AccessTable,
    session: u64,
    document: &Tumbler,
) -> bool
    ensures { IsTrue result → MayComeIn documents.now access.now.open_rows session document.now }
{
    if !document.is_document() {
        return false;
    }
    if documents.has(document) {
        return false;
    }
    if documents.nth(LAST_DOCUMENT).is_some() {
        return false;
    }
    if access.mode(session, document).is_some() {
        return false;
    }
    may_write(access, session, document)
}

/// The document comes into the table and is open for the session, or neither.
fn add_open(
    alloc: Global,
    documents: &mut DocTable<Node>,
    access: &mut AccessTable,
    session: u64,
    document: &Tumbler,
    root: Node,
) -> Result<(), Memory>
    requires absent { has_in documents.old document.now ≡ false }
    requires room { length documents.old < most_documents }
    ensures documents { OnOk result (documents.new ≡ added documents.old document.now root) }
    ensures access { OnOk result (access.new ≡ opened access.old session document.now Write) }
    ensures same_documents { OnErr result (documents.new ≡ documents.old) }
    ensures same_access { OnErr result (access.new ≡ access.old) }
{
    documents.add(alloc, document, root)?;
    let Ok(()) = access.open(alloc, session, document, Mode::Write) else {
        documents.remove(document);
        return Err(Memory);
    };
    Ok(())
}

impl TreeWorld {
    /// The document comes in, with nothing in it, open for the session to write.
    pub(crate) fn create(
        &mut self,
        alloc: Global,
        session: u64,
        document: &Tumbler,
    ) -> Result<(), Memory>
        ensures ok { (view : FlatView) → Stands self.old view → OnOk result (Stands self.new (after_change view session (document_created document.now))) }
        ensures err { OnErr result (self.new ≡ self.old) }
        ensures came { OnOk result (EntryCame (DocumentCame session document.now) self.old self.new) }
        ensures sessions { self.new.sessions ≡ self.old.sessions }
    {
        let counted = one_more(self.counted)?;
        if !may_come_in(&self.documents, &self.access, session, document) {
            return Err(Memory);
        }
        self.due.reserve(1)?;
        let mark = self.pooms.mark();
        let root = self.pooms.empty()?;
        let Ok(()) = add_open(
            alloc,
            &mut self.documents,
            &mut self.access,
            session,
            document,
            root,
        ) else {
            self.pooms.back(mark);
            return Err(Memory);
        };
        add_mark(&mut self.due, &self.pooms, document, root);
        self.counted = counted;
        Ok(())
    }
}

impl TreeWorld {
    /// The document comes in with all that stands in the source, open for the session to write.
    pub(crate) fn version(
        &mut self,
        alloc: Global,
        session: u64,
        source: &Tumbler,
        document: &Tumbler,
    ) -> Result<(), Memory>
        ensures ok { (view : FlatView) → Stands self.old view → OnOk result (Stands self.new (after_change view session (version_made source.now document.now))) }
        ensures err { OnErr result (self.new ≡ self.old) }
        ensures came { OnOk result (EntryCame (DocumentCame session document.now) self.old self.new) }
        ensures sessions { self.new.sessions ≡ self.old.sessions }
    {
        let counted = one_more(self.counted)?;
        if !may_come_in(&self.documents, &self.access, session, document) {
            return Err(Memory);
        }
        let Some(root) = self.documents.root(source) else {
            return Err(Memory);
        };
        let runs = text_runs(alloc, &self.pooms, root, source)?;
        self.due.reserve(1)?;
        let mark = self.index.mark();
        index_runs(alloc, &mut self.index, runs.as_slice(), document)?;
        let shared = self.pooms.version(root);
        let Ok(()) = add_open(
            alloc,
            &mut self.documents,
            &mut self.access,
            session,
            document,
            shared,
        ) else {
            self.index.back(&mark);
            return Err(Memory);
        };
        add_mark(&mut self.due, &self.pooms, document, shared);
        self.counted = counted;
        Ok(())
    }
}
