//! Whether the trees of documents are right.
ghost use Rattle.std.specs.Prelude.{◌≡◌, ◌↔◌, ℕ, map, All, IsTrue, IfOk, length, ◌<◌};
ghost use Rattle.page_tables.specs.Plain.{plain_link, plain_tables};
ghost use Rattle.page_tables.specs.declared.tables.TableDocument.{TableDocument as TableRow};
ghost use Rattle.content_checks.specs.Listed.{AreDocuments, AreLinks};
ghost use Rattle.content_checks.specs.Sound.{IsShown};
ghost use Rattle.content_checks.specs.inside.Steps.{AreShown, AreRight};

use crate::parts::is_one_document;
use crate::showing::{show_bytes, show_links};
use enfilade_core::{Arena, Row, TextPlane};
use page_tables::Tables;
use std::collections::BTreeSet;
use tumbler::Memory;

/// The most rows that a document has: one for each byte of its text and for each link.
const MOST_ROWS: u64 = 5_368_709_118;

/// Whether rows are those of a document, and all that they show is listed.
fn are_shown(rows: &[Row<u32>], tables: &Tables) -> bool
    requires documents { AreDocuments tables.now.documents.items }
    requires links { AreLinks (map plain_link tables.now.links.items) }
    ensures { IsTrue result ↔ AreShown (plain_tables tables.now) rows.now }
{
    if !is_one_document(rows) {
        return false;
    }
    if !show_bytes(rows, tables.documents.as_slice()) {
        return false;
    }
    show_links(rows, tables.links.as_slice())
}

/// Whether a node of an arena is the root of a document, and all that the document shows is listed.
///
/// For n rows the time goes by n, and by n log m for m documents or links. Memory is taken for the rows, unless there are
/// more than a document may have.
pub fn is_shown(poom: &Arena<TextPlane>, root: u64, tables: &Tables) -> Result<bool, Memory>
    requires documents { AreDocuments tables.now.documents.items }
    requires links { AreLinks (map plain_link tables.now.links.items) }
    ensures { IfOk result (λ is. IsTrue is ↔ IsShown poom.now (plain_tables tables.now) root) }
{
    let Some(node) = poom.at_number(root) else {
        return Ok(false);
    };
    if poom.leaves(node) > MOST_ROWS {
        return Ok(false);
    }
    let rows = poom.rows(node)?;
    Ok(are_shown(rows.as_slice(), tables))
}

/// The same of a root that may have been seen, where all that were seen are right.
fn is_right(
    poom: &Arena<TextPlane>,
    seen: &mut BTreeSet<u64>,
    root: u64,
    tables: &Tables,
) -> Result<bool, Memory>
    requires documents { AreDocuments tables.now.documents.items }
    requires links { AreLinks (map plain_link tables.now.links.items) }
    requires seen { AreRight poom.now (plain_tables tables.now) seen.old }
    ensures is { IfOk result (λ is. IsTrue is ↔ IsShown poom.now (plain_tables tables.now) root) }
    ensures seen { IfOk result (λ is. IsTrue is → AreRight poom.now (plain_tables tables.now) seen.new) }
{
    let fresh = seen.insert(root)?;
    if !fresh {
        return Ok(true);
    }
    let shown = is_shown(poom, root, tables)?;
    Ok(shown)
}

/// Whether each document's tree is right. The rows of a root are gone through once, however many documents have it. Rows
/// that different roots share are gone through for each of these.
pub fn documents_are_shown(poom: &Arena<TextPlane>, tables: &Tables) -> Result<bool, Memory>
    requires documents { AreDocuments tables.now.documents.items }
    requires links { AreLinks (map plain_link tables.now.links.items) }
    ensures { IfOk result (λ are. IsTrue are ↔ All (λ (row : TableRow). IsShown poom.now (plain_tables tables.now) row.root) tables.now.documents.items) }
{
    let mut seen = BTreeSet::new(poom.allocator());
    let documents = tables.documents.as_slice();
    for row in documents {
        let right = is_right(poom, &mut seen, row.root, tables)?;
        if !right {
            return Ok(false);
        }
    }
    Ok(true)
}
