//! Whether rows stand in ascending order of their addresses.
ghost use Rattle.std.specs.Prelude.{◌↔◌, map, IsTrue};
ghost use Rattle.page_tables.specs.Plain.{plain_link};
ghost use Rattle.table_checks.specs.TableRows.{addresses_of, ids_of};
ghost use Rattle.table_checks.specs.Sound.{Ascend};

use page_tables::{TableDocument, TableLink};

/// Whether the documents' addresses ascend, each once.
pub(crate) fn documents_ascend(rows: &[TableDocument]) -> bool
    ensures { IsTrue result ↔ Ascend (addresses_of rows.now) }
{
    for k in 1..rows.len() {
        let at = k - 1;
        let before = &rows[at];
        let row = &rows[k];
        if !before.document.is_before(&row.document) {
            return false;
        }
    }
    true
}

/// Whether the links' ids ascend, each once.
pub(crate) fn links_ascend(links: &[TableLink]) -> bool
    ensures { IsTrue result ↔ Ascend (ids_of (map plain_link links.now)) }
{
    for k in 1..links.len() {
        let at = k - 1;
        let before = &links[at];
        let link = &links[k];
        if !before.id.is_before(&link.id) {
            return false;
        }
    }
    true
}
