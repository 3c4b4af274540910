//! Documents, and the list of them.
ghost use Rattle.std.specs.Prelude.{◌≡◌, ◌++◌, All, OnOk};
ghost use Rattle.std.specs.List.{flat_map};
ghost use Rattle.febe_fields.specs.Reading.{Reads, ReadsIfOk, many_at};
ghost use Rattle.disk_fields.specs.Format.{AreCounted, list_bytes};
ghost use Rattle.disk_fields.specs.Reading.{made_at, both_at, counted_at};
ghost use Rattle.page_tables.specs.TableBytes.{document_bytes, IsDocumentRow};
ghost use Rattle.page_tables.specs.TableReading.{document_at};

use crate::counts::append_count;
use crate::tables::TableDocument;
use disk_fields::{append_tumbler, append_u32, append_u64, tumbler_at, u32_at, u64_at};
use std::alloc::Global;
use tumbler::{List, Memory, Text};

fn append_document(out: &mut Text, row: &TableDocument) -> Result<(), Memory>
    ensures spelled { OnOk result (out.new.items ≡ out.old.items ++ document_bytes row.now) }
    ensures right { OnOk result (IsDocumentRow row.now) }
{
    let _document = row.document.places();
    append_tumbler(out, &row.document)?;
    append_u64(out, row.root)?;
    append_u32(out, row.content)
}

fn append_each_document(out: &mut Text, rows: &[TableDocument]) -> Result<(), Memory>
    ensures spelled { OnOk result (out.new.items ≡ out.old.items ++ flat_map document_bytes rows.now) }
    ensures right { OnOk result (All IsDocumentRow rows.now) }
{
    for row in rows {
        append_document(out, row)?;
    }
    Ok(())
}

/// How many documents there are, and the documents.
pub(crate) fn append_documents(out: &mut Text, rows: &[TableDocument]) -> Result<(), Memory>
    ensures spelled { OnOk result (out.new.items ≡ out.old.items ++ list_bytes document_bytes rows.now) }
    ensures right { OnOk result (AreCounted IsDocumentRow rows.now) }
{
    append_count(out, rows.len())?;
    append_each_document(out, rows)
}

#[tactic(auto, unfolding(crate::specs::TableReading::document_at, disk_fields::specs::Reading::made_at, disk_fields::specs::Reading::both_at))]
fn document_at(alloc: Global, bytes: &[u8]) -> Option<(TableDocument, &[u8])>
    ensures { Reads (λ x. (x.0, x.1.now)) result (document_at bytes.now) }
{
    let Some((document, rest)) = tumbler_at(alloc, bytes) else {
        return None;
    };
    let Some((root, rest)) = u64_at(rest) else {
        return None;
    };
    let Some((content, rest)) = u32_at(rest) else {
        return None;
    };
    Some((
        TableDocument {
            document,
            root,
            content,
        },
        rest,
    ))
}

/// This many documents. Memory is taken for those that are there, whatever number was asked for.
fn many_documents_at(
    alloc: Global,
    count: u32,
    bytes: &[u8],
) -> Result<Option<(List<TableDocument>, &[u8])>, Memory>
    ensures { ReadsIfOk (λ x. (x.0.items, x.1.now)) result (many_at document_at count bytes.now) }
{
    let mut rows = List::new(alloc);
    let mut rest = bytes;
    for _ in 0..count {
        let Some((row, behind)) = document_at(alloc, rest) else {
            return Ok(None);
        };
        rows.reserve(1)?;
        rows.push_reserved(row);
        rest = behind;
    }
    Ok(Some((rows, rest)))
}

/// How many documents there are, and the documents.
#[tactic(auto, unfolding(disk_fields::specs::Reading::counted_at))]
pub(crate) fn documents_at(
    alloc: Global,
    bytes: &[u8],
) -> Result<Option<(List<TableDocument>, &[u8])>, Memory>
    ensures { ReadsIfOk (λ x. (x.0.items, x.1.now)) result (counted_at document_at bytes.now) }
{
    let Some((count, rest)) = u32_at(bytes) else {
        return Ok(None);
    };
    many_documents_at(alloc, count, rest)
}
