//! Documents in the tables: where each stands, and what is asked of their addresses.
ghost use Rattle.std.specs.Prelude.{◌≡◌, ◌↔◌, All, IsTrue};
ghost use Rattle.std.specs.List.{prefix_len};
ghost use Rattle.tumbler.specs.Address.{IsDocument};
ghost use Rattle.page_tables.specs.declared.tables.TableDocument.{TableDocument as Row};
ghost use Rattle.table_checks.specs.TableRows.{addresses_of, content_in, is_listed};
ghost use Rattle.table_checks.specs.Sound.{Ascend, HasElder};
ghost use Rattle.table_checks.specs.inside.Places.{is_before};

use page_tables::TableDocument;
use tumbler::Tumbler;

/// How many documents come before this one.
fn place(rows: &[TableDocument], address: &Tumbler) -> usize
    requires { Ascend (addresses_of rows.now) }
    ensures { result ≡ prefix_len (is_before address.now) rows.now }
{
    rows.partition_point(|row| row.document.is_before(address))
}

/// How many bytes were ever put into a document, or `None` where the document is not listed. It takes time that grows as
/// the logarithm of the number of documents.
pub fn content_of(rows: &[TableDocument], address: &Tumbler) -> Option<u32>
    requires { Ascend (addresses_of rows.now) }
    ensures { result ≡ content_in rows.now address.now }
{
    let at = place(rows, address);
    if at >= rows.len() {
        return None;
    }
    let row = &rows[at];
    if row.document != *address {
        return None;
    }
    Some(row.content)
}

/// Whether the document is listed.
pub(crate) fn is_listed(rows: &[TableDocument], address: &Tumbler) -> bool
    requires { Ascend (addresses_of rows.now) }
    ensures { result ≡ is_listed rows.now address.now }
{
    content_of(rows, address).is_some()
}

/// Whether each address is a document's.
pub(crate) fn are_documents(rows: &[TableDocument]) -> bool
    ensures { IsTrue result ↔ All (λ (row : Row). IsDocument row.document) rows.now }
{
    for row in rows {
        if !row.document.is_document() {
            return false;
        }
    }
    true
}

/// Whether the document's elder is listed, if it has one.
fn has_elder(rows: &[TableDocument], address: &Tumbler) -> bool
    requires { Ascend (addresses_of rows.now) }
    ensures { IsTrue result ↔ HasElder rows.now address.now }
{
    let places = address.places();
    if places.is_empty() {
        return true;
    }
    let last = places[places.len() - 1];
    if last < 2 {
        return true;
    }
    is_listed(rows, &address.just_before())
}

/// Whether each document's elder is listed, if it has one.
pub(crate) fn have_elders(rows: &[TableDocument]) -> bool
    requires { Ascend (addresses_of rows.now) }
    ensures { IsTrue result ↔ All (λ (row : Row). HasElder rows.now row.document) rows.now }
{
    for row in rows {
        if !has_elder(rows, &row.document) {
            return false;
        }
    }
    true
}
