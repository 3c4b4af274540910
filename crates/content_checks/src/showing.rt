//! Whether all that rows of a document show is listed.
ghost use Rattle.std.specs.Prelude.{◌≡◌, ◌↔◌, map, All, IsTrue};
ghost use Rattle.std.specs.List.{Contains};
ghost use Rattle.page_tables.specs.Plain.{plain_link};
ghost use Rattle.poom.specs.Laid.{IsOneDocument, texts, links};
ghost use Rattle.content_checks.specs.inside.Steps.{IsBacked};
ghost use Rattle.content_checks.specs.Listed.{AreDocuments, AreLinks, listed_bytes, listed_ids};

use crate::listed::{has_bytes, has_links};
use crate::shown::shown_of;
use enfilade_core::Row;
use page_tables::{TableDocument, TableLink};

/// Whether each byte that a row shows is one that a document has.
fn row_shows_bytes(row: &Row<u32>, documents: &[TableDocument]) -> bool
    requires { AreDocuments documents.now }
    ensures { IsTrue result ↔ IsBacked 1 (listed_bytes documents.now) row.now }
{
    match shown_of(row, 1) {
        Some(shown) => has_bytes(documents, &shown),
        None => true,
    }
}

/// Whether each link that a row shows is listed.
fn row_shows_links(row: &Row<u32>, listed: &[TableLink]) -> bool
    requires { AreLinks (map plain_link listed.now) }
    ensures { IsTrue result ↔ IsBacked 2 (listed_ids (map plain_link listed.now)) row.now }
{
    match shown_of(row, 2) {
        Some(shown) => has_links(listed, &shown),
        None => true,
    }
}

/// Whether each byte that the rows show is one that a document has.
pub(crate) fn show_bytes(rows: &[Row<u32>], documents: &[TableDocument]) -> bool
    requires one { IsOneDocument rows.now }
    requires documents { AreDocuments documents.now }
    ensures { IsTrue result ↔ All (Contains (listed_bytes documents.now)) (texts rows.now) }
{
    for row in rows {
        if !row_shows_bytes(row, documents) {
            return false;
        }
    }
    true
}

/// Whether each link that the rows show is listed.
pub(crate) fn show_links(rows: &[Row<u32>], listed: &[TableLink]) -> bool
    requires one { IsOneDocument rows.now }
    requires listed { AreLinks (map plain_link listed.now) }
    ensures { IsTrue result ↔ All (Contains (listed_ids (map plain_link listed.now))) (links rows.now) }
{
    for row in rows {
        if !row_shows_links(row, listed) {
            return false;
        }
    }
    true
}
