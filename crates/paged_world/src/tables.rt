//! The tables that stand beside a world's trees.
ghost use Rattle.std.specs.Prelude.{◌≡◌, map, IfOk};
ghost use Rattle.links.specs.LinkLists.{plain_link as plain_row};
ghost use Rattle.page_tables.specs.Plain.{plain_link, plain_tables};
ghost use Rattle.world_pages.specs.Pages.{table_document, table_link, tables_of_world};

use doc_table::DocTable;
use enfilade_core::{Arena, Node, TextPlane};
use febe_data::{List, Memory};
use links::{LinkRow, Links};
use page_tables::{TableDocument, TableLink, Tables};
use spanfilade::Spanfilade;
use std::alloc::Global;
use tree_world::TreeWorld;

/// A link as a row of tables.
fn table_link(alloc: Global, link: &LinkRow) -> Result<TableLink, Memory>
    ensures { IfOk result (λ made. plain_link made ≡ table_link (plain_row link.now)) }
{
    Ok(TableLink {
        id: link.id.copy(),
        home: link.home.copy(),
        from: List::from_slice(alloc, link.from.as_slice())?,
        to: List::from_slice(alloc, link.to.as_slice())?,
        three: List::from_slice(alloc, link.three.as_slice())?,
    })
}

/// The links as rows of tables, in ascending order of ids.
fn table_links(alloc: Global, links: &Links) -> Result<List<TableLink>, Memory>
    ensures { IfOk result (λ made. map plain_link made.items ≡ map table_link links.now.links) }
{
    let mut made = List::new(alloc);
    for k in 0..links.len() {
        let Some(link) = links.nth(k as u32) else {
            unreachable!()
        };
        made.push(table_link(alloc, link)?)?;
    }
    Ok(made)
}

/// The documents as rows of tables, in ascending order.
fn table_documents(alloc: Global, documents: &DocTable<Node>) -> Result<List<TableDocument>, Memory>
    ensures { IfOk result (λ made. made.items ≡ map table_document documents.now) }
{
    documents.in_order();
    let mut made = List::new(alloc);
    for k in 0..documents.len() {
        let Some(document) = documents.nth(k as u32) else {
            unreachable!()
        };
        let Some(root) = documents.root_at(k) else {
            unreachable!()
        };
        made.push(TableDocument {
            document: document.copy(),
            root: Arena::<TextPlane>::number(root),
            content: documents.content(document),
        })?;
    }
    Ok(made)
}

/// The number of an index's root.
fn root_number(index: &Spanfilade) -> u64
    ensures { result ≡ index.now.root.0 }
{
    let (_arena, root) = index.parts();
    Arena::<TextPlane>::number(root)
}

/// The tables beside the world's trees: its documents and links in ascending order, and the roots of the other trees.
pub(crate) fn tables_of(world: &TreeWorld, alloc: Global) -> Result<Tables, Memory>
    ensures { IfOk result (λ made. plain_tables made ≡ tables_of_world world.now) }
{
    let documents = table_documents(alloc, world.documents())?;
    let links = world.links();
    let rows = table_links(alloc, links)?;
    let (_arena, root) = world.contents().parts();
    Ok(Tables {
        documents,
        granfilade: Arena::<TextPlane>::number(root),
        spanfilade: root_number(world.index()),
        from: root_number(links.index(1)),
        to: root_number(links.index(2)),
        three: root_number(links.index(3)),
        links: rows,
    })
}
