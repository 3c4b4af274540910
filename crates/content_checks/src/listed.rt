//! Whether what a row shows is listed.
ghost use Rattle.std.specs.Prelude.{◌≡◌, ◌↔◌, map, All, IsTrue, true, false};
ghost use Rattle.std.specs.List.{Contains};
ghost use Rattle.std.specs.List.Sorted.{IsPartitionPoint};
ghost use Rattle.tumbler.specs.Places.{comes_before};
ghost use Rattle.page_tables.specs.Plain.{plain_link};
ghost use Rattle.poom.specs.Pieces.{IsPiece, piece_addresses};
ghost use Rattle.content_checks.specs.Listed.{AreDocuments, AreLinks, listed_bytes, listed_ids};
ghost use Rattle.content_checks.specs.inside.Steps.{piece_of};

use crate::shown::Shown;
use page_tables::{TableDocument, TableLink};
use tumbler::Tumbler;

/// How many documents come before this one.
fn place(documents: &[TableDocument], document: &Tumbler) -> usize
    requires { AreDocuments documents.now }
    ensures { IsPartitionPoint (λ row. comes_before row.document document.now ≡ true) (λ row. comes_before row.document document.now ≡ false) documents.now result }
{
    documents.partition_point(|row| row.document.is_before(document))
}

/// Whether a document has all of these bytes.
pub(crate) fn has_bytes(documents: &[TableDocument], shown: &Shown) -> bool
    requires documents { AreDocuments documents.now }
    requires right { IsPiece (piece_of shown.now) }
    ensures { IsTrue result ↔ All (Contains (listed_bytes documents.now)) (piece_addresses 1 (piece_of shown.now)) }
{
    let last = shown.first + (shown.count - 1);
    let at = place(documents, &shown.document);
    if at >= documents.len() {
        return false;
    }
    let row = &documents[at];
    if row.document != shown.document {
        return false;
    }
    last <= row.content
}

/// How many links have a lesser id.
fn place_of_link(links: &[TableLink], id: &Tumbler) -> usize
    requires { AreLinks (map plain_link links.now) }
    ensures { IsPartitionPoint (λ link. comes_before link.id id.now ≡ true) (λ link. comes_before link.id id.now ≡ false) links.now result }
{
    links.partition_point(|link| link.id.is_before(id))
}

/// Whether all of these links are listed.
pub(crate) fn has_links(links: &[TableLink], shown: &Shown) -> bool
    requires links { AreLinks (map plain_link links.now) }
    requires right { IsPiece (piece_of shown.now) }
    ensures { IsTrue result ↔ All (Contains (listed_ids (map plain_link links.now))) (piece_addresses 2 (piece_of shown.now)) }
{
    let number = shown.first + (shown.count - 1);
    let last = shown.document.extended(&[0, 2, number]).unwrap();
    let at = place_of_link(links, &last);
    if at >= links.len() {
        return false;
    }
    let link = &links[at];
    link.id == last
}
