//! An entry is taken back, where it could not be kept.
ghost use Rattle.std.specs.Prelude.{◌≡◌, IfOk, IfSome, OnOk, OnErr};
ghost use Rattle.febe_data.specs.Plain.{plain_change, plain_entry};
ghost use Rattle.world_rules.specs.World.{link_address};
ghost use Rattle.world_rules.specs.FlatView.{FlatView, after_entry};
ghost use Rattle.tree_world.specs.Condition.{Condition, condition_of};
ghost use Rattle.tree_world.specs.Nodes.{WorldNodes, nodes_in, AllGrown};
ghost use Rattle.tree_world.specs.Standing.{Stands};
ghost use Rattle.tree_world.specs.Undone.{Tables, IsRow, IsHome, IsMark, IsKept, IsTouched, TablesWere, TablesMayGoBack, ComesBack, MayComeBack, ComesTo, ComesToNodes};

use crate::tending::Rebalance;
use crate::world::TreeWorld;
use access_table::AccessTable;
use doc_table::DocTable;
use enfilade_core::{Node, TreeMark};
use febe_data::{Change, Entry, Memory, Tumbler};
use links::{LinkMarks, Links};
use std::alloc::Global;

/// A world that can take its last entry back, so that an edit that could not be written down leaves no trace: neither in
/// what the world stands for, nor in the condition of its trees.
pub trait Undo: Rebalance {
    /// What has to be known to take an entry back.
    type UndoRecord: Drop;

    /// The entry that this was kept for is the last one that changed the world.
    ghost may_come_back: { Self → Self.UndoRecord → Type 0 };

    /// What undoing the record's entry leads back to, seen as a world: the entry is the last one that changed the
    /// world, and without it the world stands for this view.
    ghost comes_back: { Self → Self.UndoRecord → FlatView → Type 0 };

    /// What undoing the record's entry leads back to, seen as trees: the entry is the last one that changed the world,
    /// and without it the trees are in this condition.
    ghost comes_to: { Self → Self.UndoRecord → Condition → Type 0 };

    /// What undoing the record's entry leads back to, seen as nodes: the entry is the last one that changed the world, and
    /// without it the arenas hold these nodes.
    ghost comes_to_nodes: { Self → Self.UndoRecord → WorldNodes → Type 0 };

    /// Changes the world as the entry says, and counts it, as `apply` does. It is for the changes that the limits count,
    /// which alone are written down: a document made, a version, an edit, a link, a publish. Others are refused. Nodes only
    /// come in behind those that are there. Where it is refused the trees are in the condition that they were in, with the very
    /// nodes that they had.
    fn apply_with_undo(&mut self, alloc: Global, entry: &Entry) -> Result<Self::UndoRecord, Memory>
        ensures ok { (view : FlatView) → Self.stands self.old view → IfOk result (λ undo. Self.stands self.new (after_entry view (plain_entry entry.now))) }
        ensures last { (view : FlatView) → Self.stands self.old view → IfOk result (may_come_back self.new) }
        ensures back { (view : FlatView) → Self.stands self.old view → IfOk result (λ undo. comes_back self.new undo view) }
        ensures was { (view : FlatView) → Self.stands self.old view → IfOk result (λ undo. comes_to self.new undo (Self.condition self.old)) }
        ensures err { (view : FlatView) → Self.stands self.old view → OnErr result (Self.stands self.new view) }
        ensures stays { OnErr result (Self.condition self.new ≡ Self.condition self.old) }
        ensures grown { OnOk result (AllGrown (Self.world_nodes self.old) (Self.world_nodes self.new)) }
        ensures were { (view : FlatView) → Self.stands self.old view → IfOk result (λ undo. comes_to_nodes self.new undo (Self.world_nodes self.old)) }
        ensures same_nodes { OnErr result (Self.world_nodes self.new ≡ Self.world_nodes self.old) };

    /// Takes the last entry back. It takes no memory, and the time grows with what the entry brought.
    fn undo(&mut self, undo: Self::UndoRecord)
        requires { may_come_back self.old undo }
        ensures stands { (view : FlatView) → comes_back self.old undo view → Self.stands self.new view }
        ensures condition { (was : Condition) → comes_to self.old undo was → Self.condition self.new ≡ was }
        ensures nodes { (were : WorldNodes) → comes_to_nodes self.old undo were → Self.world_nodes self.new ≡ were };
}

/// What an entry is to touch in the tables, with what stands there before it.
pub enum Touched {
    /// A document that comes in.
    Document {
        document: Tumbler,
    },
    /// A document's root, and how many content bytes it has.
    Row {
        document: Tumbler,
        root: Node,
        content: u32,
    },
    /// A link that comes in, and its home's root.
    Link {
        home: Tumbler,
        root: Node,
        id: Tumbler,
    },
    /// A document's mark: whether it was published already.
    Mark {
        document: Tumbler,
        mark: bool,
    },
}

impl Drop for Touched {
    fn drop(self) {
        match self {
            Touched::Document { document: _ } => {}
            Touched::Row {
                document: _,
                root: _,
                content: _,
            } => {}
            Touched::Link {
                home: _,
                root: _,
                id: _,
            } => {}
            Touched::Mark {
                document: _,
                mark: _,
            } => {}
        }
    }
}

/// What a world of trees goes back to: a mark of each tree, the numbers, and what the entry was to touch.
pub struct UndoRecord {
    pub(crate) contents: TreeMark,
    pub(crate) content: usize,
    pub(crate) nodes: u64,
    pub(crate) index: TreeMark,
    pub(crate) links: LinkMarks,
    pub(crate) counted: u64,
    pub(crate) session: u64,
    pub(crate) touched: Touched,
}

impl Drop for UndoRecord {
    fn drop(self) {
        let UndoRecord {
            contents: _,
            content: _,
            nodes: _,
            index: _,
            links: _,
            counted: _,
            session: _,
            touched: _,
        } = self;
    }
}

impl TreeWorld {
    /// The document's row.
    fn row(&self, document: &Tumbler) -> Option<Touched>
        ensures { IfSome result (IsRow self.now document.now) }
    {
        let root = self.documents.root(document)?;
        Some(Touched::Row {
            document: document.copy(),
            root,
            content: self.documents.content(document),
        })
    }

    /// The link of that number, and its home's root.
    fn home(&self, home: &Tumbler, number: u32) -> Option<Touched>
        ensures { IfSome result (IsHome self.now home.now (link_address home.now number)) }
    {
        let root = self.documents.root(home)?;
        let Ok(id) = home.extended(&[0, 2, number]) else {
            return None;
        };
        Some(Touched::Link {
            home: home.copy(),
            root,
            id,
        })
    }

    /// The document's mark.
    fn mark(&self, document: &Tumbler) -> Touched
        ensures { IsMark self.now document.now result }
    {
        Touched::Mark {
            document: document.copy(),
            mark: self.documents.published(document),
        }
    }

    /// What the change is to touch, where the limits count it.
    fn touched(&self, change: &Change) -> Option<Touched>
        ensures { IfSome result (IsTouched self.now (plain_change change.now)) }
    {
        match change {
            Change::Create { document } => Some(Touched::Document {
                document: document.copy(),
            }),
            Change::Version {
                source: _,
                document,
            } => Some(Touched::Document {
                document: document.copy(),
            }),
            Change::OpenCopy {
                source: _,
                document,
            } => Some(Touched::Document {
                document: document.copy(),
            }),
            Change::Insert {
                document,
                at: _,
                first: _,
                text: _,
            } => self.row(document),
            Change::Delete { document, span: _ } => self.row(document),
            Change::Rearrange { document, cuts: _ } => self.row(document),
            Change::Copy {
                document,
                at: _,
                specs: _,
            } => self.row(document),
            Change::Link {
                home,
                number,
                place: _,
                from: _,
                to: _,
                three: _,
            } => self.home(home, *number),
            Change::Publish { document } => Some(self.mark(document)),
            _ => None,
        }
    }

    /// What the world goes back to, if it is changed by a change of the session.
    fn kept(&self, session: u64, change: &Change) -> Option<UndoRecord>
        ensures kept { IfSome result (IsKept self.now) }
        ensures session { IfSome result (λ undo. undo.session ≡ session) }
        ensures touched { IfSome result (λ undo. IsTouched self.now (plain_change change.now) undo.touched) }
    {
        let touched = self.touched(change)?;
        let links = LinkMarks {
            from: self.links.index(1).mark(),
            to: self.links.index(2).mark(),
            three: self.links.index(3).mark(),
        };
        Some(UndoRecord {
            contents: self.contents.mark(),
            content: self.content,
            nodes: self.pooms.mark(),
            index: self.index.mark(),
            links,
            counted: self.counted,
            session,
            touched,
        })
    }

    /// Changes the world as the entry says, and tells how it goes back.
    pub(crate) fn apply_kept(&mut self, alloc: Global, entry: &Entry) -> Result<UndoRecord, Memory>
        ensures ok { (view : FlatView) → Stands self.old view → IfOk result (λ undo. Stands self.new (after_entry view (plain_entry entry.now))) }
        ensures back { (view : FlatView) → Stands self.old view → IfOk result (λ undo. ComesBack self.new undo view) }
        ensures was { (view : FlatView) → Stands self.old view → IfOk result (λ undo. ComesTo self.new undo (condition_of self.old)) }
        ensures err { (view : FlatView) → Stands self.old view → OnErr result (Stands self.new view) }
        ensures stays { OnErr result (condition_of self.new ≡ condition_of self.old) }
        ensures grown { OnOk result (AllGrown (nodes_in self.old) (nodes_in self.new)) }
        ensures were { (view : FlatView) → Stands self.old view → IfOk result (λ undo. ComesToNodes self.new undo (nodes_in self.old)) }
        ensures same_nodes { OnErr result (nodes_in self.new ≡ nodes_in self.old) }
    {
        self.sessions.reserve(entry.session)?;
        let Some(undo) = self.kept(entry.session, &entry.change) else {
            return Err(Memory);
        };
        self.change(alloc, entry.session, &entry.change)?;
        self.sessions.count(entry.session);
        Ok(undo)
    }
}

/// The tables without what an entry did to them.
fn tables_back(
    documents: &mut DocTable<Node>,
    access: &mut AccessTable,
    links: &mut Links,
    undo: &UndoRecord,
)
    requires { TablesMayGoBack undo.now (record { documents = documents.old; access = access.old; links = links.old }) }
    ensures documents { (before : Tables) → TablesWere undo.now before (record { documents = documents.old; access = access.old; links = links.old }) → documents.new ≡ before.documents }
    ensures access { (before : Tables) → TablesWere undo.now before (record { documents = documents.old; access = access.old; links = links.old }) → access.new ≡ before.access }
    ensures links { (before : Tables) → TablesWere undo.now before (record { documents = documents.old; access = access.old; links = links.old }) → links.new ≡ before.links }
{
    match &undo.touched {
        Touched::Document { document } => {
            documents.remove(document);
            access.close(undo.session, document);
        }
        Touched::Row {
            document,
            root,
            content,
        } => {
            documents.set_root(document, *root);
            documents.set_content(document, *content);
        }
        Touched::Link { home, root, id } => {
            documents.set_root(home, *root);
            links.back(id, &undo.links);
        }
        Touched::Mark { document, mark } => documents.set_published(document, *mark),
    }
}

impl TreeWorld {
    /// Takes the last entry back.
    pub(crate) fn take_back(&mut self, undo: &UndoRecord)
        requires { MayComeBack self.old undo.now }
        ensures stands { (view : FlatView) → ComesBack self.old undo.now view → Stands self.new view }
        ensures condition { (was : Condition) → ComesTo self.old undo.now was → condition_of self.new ≡ was }
        ensures nodes { (were : WorldNodes) → ComesToNodes self.old undo.now were → nodes_in self.new ≡ were }
    {
        self.contents.back(&undo.contents);
        self.content = undo.content;
        self.pooms.back(undo.nodes);
        self.index.back(&undo.index);
        tables_back(&mut self.documents, &mut self.access, &mut self.links, undo);
        self.counted = undo.counted;
        self.sessions.uncount(undo.session);
    }
}

impl Undo for TreeWorld {
    type UndoRecord = UndoRecord;

    ghost may_come_back = { MayComeBack };

    ghost comes_back = { ComesBack };

    ghost comes_to = { ComesTo };

    ghost comes_to_nodes = { ComesToNodes };

    fn apply_with_undo(&mut self, alloc: Global, entry: &Entry) -> Result<UndoRecord, Memory> {
        self.apply_kept(alloc, entry)
    }

    fn undo(&mut self, undo: UndoRecord) {
        self.take_back(&undo)
    }
}
