//! The rows of the table, and where a document stands among them.
ghost use Rattle.std.specs.Prelude.{◌≡◌, length, IfSome, IfNone, false};
ghost use Rattle.std.specs.List.{prefix_len};
ghost use Rattle.doc_table.specs.DocumentRows.{documents_in, has_in, with_roots};
ghost use Rattle.doc_table.specs.inside.Kept.{unboxed, IsAscending, is_before, IsAt};

use tumbler::Tumbler;

/// A document, the root of its tree, how many content bytes it has, and whether it is published.
#[derive(Debug, Drop)]
pub struct DocumentRow<R> {
    pub document: Tumbler,
    pub root: R,
    pub content: u32,
    pub published: bool,
}

/// How many documents come before this one.
pub(crate) fn place<R>(rows: &[Box<DocumentRow<R>>], document: &Tumbler) -> usize
    requires { IsAscending (documents_in (unboxed rows.now)) }
    ensures { result ≡ prefix_len (is_before document.now) rows.now }
{
    rows.partition_point(|row| row.document.is_before(document))
}

/// Where the document's row is, if it is there.
pub(crate) fn find<R>(rows: &[Box<DocumentRow<R>>], document: &Tumbler) -> Option<usize>
    requires { IsAscending (documents_in (unboxed rows.now)) }
    ensures found { IfSome result (IsAt document.now rows.now) }
    ensures none { IfNone result (has_in (unboxed rows.now) document.now ≡ false) }
{
    let at = place(rows, document);
    if at >= rows.len() {
        return None;
    }
    let row = &rows[at];
    if row.document != *document {
        return None;
    }
    Some(at)
}

/// Gives each row another root: the k-th row the k-th one.
pub(crate) fn set_roots<R: Copy>(rows: &mut Vec<Box<DocumentRow<R>>>, roots: &[R])
    requires { length roots.now ≡ length rows.old.items }
    ensures { unboxed rows.new.items ≡ with_roots roots.now (unboxed rows.old.items) }
{
    for (k, root) in roots.iter().enumerate() {
        let row = &mut rows[k];
        row.root = *root;
    }
}
