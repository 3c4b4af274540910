//! Whole tables.
ghost use Rattle.std.specs.Prelude.{◌≡◌, ◌++◌, IfOk, OnOk};
ghost use Rattle.febe_fields.specs.Reading.{ReadsIfOk};
ghost use Rattle.disk_fields.specs.Format.{u64_bytes};
ghost use Rattle.disk_fields.specs.Reading.{made_at, both_at};
ghost use Rattle.page_tables.specs.Plain.{plain_tables};
ghost use Rattle.page_tables.specs.TableBytes.{HasRoots, AreTablesOf, AreReadTables};
ghost use Rattle.page_tables.specs.TableReading.{tables_at, whole_tables};

use crate::documents::{append_documents, documents_at};
use crate::links::{append_links, links_at};
use crate::tables::Tables;
use disk_fields::{append_u64, u64_at};
use std::alloc::Global;
use tumbler::{List, Memory, Text};

/// The roots of the five trees that are not the documents'.
fn append_roots(out: &mut Text, tables: &Tables) -> Result<(), Memory>
    ensures spelled { OnOk result (out.new.items ≡ out.old.items ++ (u64_bytes tables.now.granfilade ++ (u64_bytes tables.now.spanfilade ++ (u64_bytes tables.now.from ++ (u64_bytes tables.now.to ++ u64_bytes tables.now.three))))) }
    ensures right { OnOk result (HasRoots (plain_tables tables.now)) }
{
    append_u64(out, tables.granfilade)?;
    append_u64(out, tables.spanfilade)?;
    append_u64(out, tables.from)?;
    append_u64(out, tables.to)?;
    append_u64(out, tables.three)
}

/// The tables as bytes: documents, roots and links, each list in its own order. A list of 2^32 items or more, which has
/// no bytes, is refused as if memory ran out.
pub fn write_tables(alloc: Global, tables: &Tables) -> Result<Text, Memory>
    ensures { IfOk result (λ bytes. AreTablesOf (plain_tables tables.now) bytes.items) }
{
    let mut bytes = List::new(alloc);
    append_documents(&mut bytes, tables.documents.as_slice())?;
    append_roots(&mut bytes, tables)?;
    append_links(&mut bytes, tables.links.as_slice())?;
    Ok(bytes)
}

/// The tables that the bytes begin with, and the bytes after them.
#[tactic(auto, unfolding(crate::specs::TableReading::tables_at, disk_fields::specs::Reading::made_at, disk_fields::specs::Reading::both_at))]
fn tables_at(alloc: Global, bytes: &[u8]) -> Result<Option<(Tables, &[u8])>, Memory>
    ensures { ReadsIfOk (λ x. (plain_tables x.0, x.1.now)) result (tables_at bytes.now) }
{
    let Some((documents, rest)) = documents_at(alloc, bytes)? else {
        return Ok(None);
    };
    let Some((granfilade, rest)) = u64_at(rest) else {
        return Ok(None);
    };
    let Some((spanfilade, rest)) = u64_at(rest) else {
        return Ok(None);
    };
    let Some((from, rest)) = u64_at(rest) else {
        return Ok(None);
    };
    let Some((to, rest)) = u64_at(rest) else {
        return Ok(None);
    };
    let Some((three, rest)) = u64_at(rest) else {
        return Ok(None);
    };
    let Some((links, rest)) = links_at(alloc, rest)? else {
        return Ok(None);
    };
    Ok(Some((
        Tables {
            documents,
            granfilade,
            spanfilade,
            from,
            to,
            three,
            links,
        },
        rest,
    )))
}

/// The tables, where the bytes are no more and no less.
#[tactic(auto, unfolding(crate::specs::TableReading::whole_tables))]
fn whole_tables(alloc: Global, bytes: &[u8]) -> Result<Option<Tables>, Memory>
    ensures { ReadsIfOk plain_tables result (whole_tables bytes.now) }
{
    let Some((tables, rest)) = tables_at(alloc, bytes)? else {
        return Ok(None);
    };
    if !rest.is_empty() {
        return Ok(None);
    }
    Ok(Some(tables))
}

/// The tables that the bytes are. `None` exactly where they are not what `write_tables` gives for any tables: one byte
/// less, one more, or any field out of its bounds. That the lists ascend is not asked.
///
/// Memory is taken for what the bytes hold, whatever the counts in them say. A list gets room for an item only once the
/// item was read, for four at first and then for twice as many, and reading ends at the first that is not there. A run
/// has 10 bytes or more, a document 13 and a link 14, so of all items together at most a tenth as many are held as there
/// are bytes.
pub fn read_tables(alloc: Global, bytes: &[u8]) -> Result<Option<Tables>, Memory>
    ensures { IfOk result (λ read. AreReadTables bytes.now read) }
{
    whole_tables(alloc, bytes)
}
