//! Whether a tree has the contents of documents.
ghost use Rattle.std.specs.Prelude.{◌≡◌, ◌↔◌, ◌<◌, length, min, IsTrue, IfOk};
ghost use Rattle.enfilade_core.specs.Rows.{rows_of};
ghost use Rattle.enfilade_core.specs.Summary.{most_count};
ghost use Rattle.content_checks.specs.Listed.{AreDocuments, listed_bytes};
ghost use Rattle.content_checks.specs.Sound.{AreContents};

use crate::apart::are_apart;
use crate::bytes::have_bytes;
use enfilade_core::laws::nodes_are_well_formed;
use enfilade_core::{Arena, ContentPlane, Node};
use page_tables::TableDocument;
use tumbler::Memory;

/// How many bytes the documents have together, up to 2^64 - 1.
fn bytes_promised(documents: &[TableDocument]) -> u64
    ensures { result ≡ min (length (listed_bytes documents.now)) most_count }
{
    let mut bytes: u64 = 0;
    for document in documents {
        bytes = bytes.saturating_add(u64::from(document.content));
    }
    bytes
}

/// Whether the rows of a tree have the documents' bytes, and nothing else.
///
/// It goes through the rows twice and through the documents twice. Memory is taken for the rows, unless there are more of
/// them than bytes: then it is taken for none.
pub fn are_contents(
    arena: &Arena<ContentPlane>,
    root: Node,
    documents: &[TableDocument],
) -> Result<bool, Memory>
    requires root { root.0 < length arena.now }
    requires documents { AreDocuments documents.now }
    ensures { IfOk result (λ are. IsTrue are ↔ AreContents documents.now (rows_of arena.now root.0)) }
{
    nodes_are_well_formed(arena);
    if arena.leaves(root) > bytes_promised(documents) {
        return Ok(false);
    }
    let rows = arena.rows(root)?;
    if !are_apart(rows.as_slice()) {
        return Ok(false);
    }
    Ok(have_bytes(rows.as_slice(), documents))
}
