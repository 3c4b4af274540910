//! Whether rows have the bytes of documents, one document after another.
ghost use Rattle.std.specs.Prelude.{◌≡◌, ◌↔◌, ℕ, ◌<◌, map, IsTrue, IfSome, IfNone};
ghost use Rattle.tumbler.specs.Address.{IsDocument};
ghost use Rattle.enfilade_core.specs.Plain.{plain_row};
ghost use Rattle.enfilade_core.specs.Planes.{plain_text};
ghost use Rattle.content_checks.specs.Listed.{AreDocuments, bytes_of, listed_bytes};
ghost use Rattle.content_checks.specs.inside.Steps.{HaveBytes, HasNext, HaveInFront, HaveNotInFront};

use enfilade_core::Row;
use page_tables::TableDocument;
use tumbler::Text;

/// The most bytes that a row may have.
const MOST_ROW_BYTES: usize = 1024;

/// Of how many bytes of a document the row has the last, if it has the next ones behind so many.
fn behind_row(row: &Row<Text>, document: &TableDocument, done: u32) -> Option<u32>
    requires address { IsDocument document.now.document }
    requires more { done < document.now.content }
    ensures some { IfSome result (HasNext document.now done (plain_row plain_text row.now)) }
    ensures none { IfNone result ((now : ℕ) → ¬ HasNext document.now done (plain_row plain_text row.now) now) }
{
    let content = document.content;
    let start = document.document.extended(&[0, 1, done + 1]).unwrap();
    if row.first != start {
        return None;
    }
    if !row.second.places().is_empty() {
        return None;
    }
    let bytes = row.leaf.len();
    if bytes == 0 {
        return None;
    }
    if bytes > MOST_ROW_BYTES {
        return None;
    }
    if bytes > (content - done) as usize {
        return None;
    }
    Some(done + bytes as u32)
}

/// The rows behind those that have a document's bytes, if rows in front have them all.
fn behind_document<'a>(rows: &'a [Row<Text>], document: &TableDocument) -> Option<&'a [Row<Text>]>
    requires { IsDocument document.now.document }
    ensures some { IfSome result (λ rest. HaveInFront (bytes_of document.now) (map (plain_row plain_text) rows.now) (map (plain_row plain_text) rest.now)) }
    ensures none { IfNone result (HaveNotInFront document.now (map (plain_row plain_text) rows.now)) }
{
    let mut rest = rows;
    let mut done = 0;
    while done < document.content {
        let Some((row, behind)) = rest.split_first() else {
            return None;
        };
        let Some(now) = behind_row(row, document, done) else {
            return None;
        };
        done = now;
        rest = behind;
    }
    Some(rest)
}

/// Whether the rows have the documents' bytes, each document's in order and behind those of the ones in front of it, and
/// no others.
pub(crate) fn have_bytes(rows: &[Row<Text>], documents: &[TableDocument]) -> bool
    requires { AreDocuments documents.now }
    ensures { IsTrue result ↔ HaveBytes (map (plain_row plain_text) rows.now) (listed_bytes documents.now) }
{
    let mut rest = rows;
    for document in documents {
        let Some(behind) = behind_document(rest, document) else {
            return false;
        };
        rest = behind;
    }
    rest.is_empty()
}
