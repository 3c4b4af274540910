//! Marks of documents whose trees may allow a step of the balancer, so that no step has to look for one.
//!
//! A document is marked when its tree gets a root that allows a step after one that did not. A mark goes only when the
//! balancer looks at it and the tree allows none. So each document whose tree allows a step is marked, and each mark is
//! dropped once.
ghost use Rattle.std.specs.Prelude.{◌≡◌, ◌<◌, ◌≤◌, true, false, Some, IsTrue, All, length, drop, IfSome, IfNone};
ghost use Rattle.enfilade_core.specs.BalanceState.{tree_allows};
ghost use Rattle.poom.specs.Laid.{IsRoot};
ghost use Rattle.doc_table.specs.DocumentRows.{root_in, with_root};
ghost use Rattle.tree_world.specs.Trees.{document_allows, is_marked, AreDue};
ghost use Rattle.tree_world.specs.Undone.{MarksStay};
ghost use Rattle.tree_world.specs.Condition.{documents_allow};
ghost use Rattle.tree_world.specs.inside.Marked.{AreIdle, IsLastDue, IsDueTree};

use doc_table::DocTable;
use enfilade_balance::allows;
use enfilade_core::Node;
use febe_data::{List, Tumbler};
use poom::Poom;

/// Marks the document where its root allows a step. It takes no memory.
pub(crate) fn add_mark(due: &mut List<Tumbler>, pooms: &Poom, document: &Tumbler, root: Node)
    requires room { 0 < due.old.spare }
    requires root { IsRoot pooms.now root.0 }
    ensures stay { MarksStay due.old.items due.new.items }
    ensures marked { tree_allows pooms.now root.0 ≡ true → IsTrue (is_marked due.new.items document.now) }
{
    if allows(pooms.arena(), root) {
        due.push_reserved(document.copy());
    }
}

/// Gives the document another root, and marks it where that one allows a step and the one before did not. It takes no
/// memory.
pub(crate) fn set_root(
    due: &mut List<Tumbler>,
    pooms: &Poom,
    documents: &mut DocTable<Node>,
    document: &Tumbler,
    old: Node,
    made: Node,
)
    requires room { 0 < due.old.spare }
    requires was { root_in documents.old document.now ≡ Some old }
    requires old { IsRoot pooms.now old.0 }
    requires made { IsRoot pooms.now made.0 }
    ensures documents { documents.new ≡ with_root documents.old document.now made }
    ensures stay { MarksStay due.old.items due.new.items }
    ensures due { AreDue pooms.now documents.old due.old.items → AreDue pooms.now documents.new due.new.items }
{
    documents.set_root(document, made);
    if allows(pooms.arena(), old) {
        return;
    }
    add_mark(due, pooms, document, made);
}

/// Whether the document is there, and its tree allows a step.
fn document_allows(pooms: &Poom, documents: &DocTable<Node>, document: &Tumbler) -> bool
    requires roots { All (λ row. IsRoot pooms.now row.root.0) documents.now }
    ensures { result ≡ document_allows pooms.now documents.now document.now }
{
    let Some(root) = documents.root(document) else {
        return false;
    };
    allows(pooms.arena(), root)
}

/// How many marks there are up to the last one whose document's tree allows a step.
fn marks_left(pooms: &Poom, documents: &DocTable<Node>, due: &[Tumbler]) -> usize
    requires roots { All (λ row. IsRoot pooms.now row.root.0) documents.now }
    ensures within { result ≤ length due.now }
    ensures behind { AreIdle pooms.now documents.now (drop result due.now) }
    ensures last { 0 < result → IsLastDue pooms.now documents.now due.now result }
{
    let mut left = due.len();
    while left > 0 {
        if document_allows(pooms, documents, &due[left - 1]) {
            return left;
        }
        left -= 1;
    }
    0
}

/// Whether some document's tree allows a step.
pub(crate) fn some_due(pooms: &Poom, documents: &DocTable<Node>, due: &[Tumbler]) -> bool
    requires roots { All (λ row. IsRoot pooms.now row.root.0) documents.now }
    requires due { AreDue pooms.now documents.now due.now }
    ensures { result ≡ documents_allow pooms.now documents.now }
{
    documents.in_order();
    marks_left(pooms, documents, due) > 0
}

/// A document whose tree allows a step, and its root, if there is one. It keeps that mark, and the marks behind it go.
pub(crate) fn due_tree(
    pooms: &Poom,
    documents: &DocTable<Node>,
    due: &mut List<Tumbler>,
) -> Option<(Tumbler, Node)>
    requires roots { All (λ row. IsRoot pooms.now row.root.0) documents.now }
    requires due { AreDue pooms.now documents.now due.old.items }
    ensures due { AreDue pooms.now documents.now due.new.items }
    ensures some { IfSome result (IsDueTree pooms.now documents.now due.new.items) }
    ensures none { IfNone result (documents_allow pooms.now documents.now ≡ false) }
{
    documents.in_order();
    let left = marks_left(pooms, documents, due.as_slice());
    due.truncate(left);
    if left == 0 {
        return None;
    }
    let Some(document) = due.get(left - 1) else {
        unreachable!()
    };
    let Some(root) = documents.root(document) else {
        unreachable!()
    };
    Some((document.copy(), root))
}
