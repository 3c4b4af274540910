//! Whether trees and tables can stand together.
ghost use Rattle.std.specs.Prelude.{◌↔◌, map, IsTrue, IfOk};
ghost use Rattle.page_tables.specs.Plain.{plain_link, plain_tables};
ghost use Rattle.content_checks.specs.Listed.{AreDocuments, AreLinks};
ghost use Rattle.content_checks.specs.Sound.{AreSound};

use crate::contents::are_contents;
use crate::documents::documents_are_shown;
use enfilade_core::{Arena, ContentPlane, TextPlane};
use page_tables::Tables;
use tumbler::Memory;

/// Whether the tree of contents has the documents' bytes, and each document's tree is right.
pub fn are_sound(
    contents: &Arena<ContentPlane>,
    poom: &Arena<TextPlane>,
    tables: &Tables,
) -> Result<bool, Memory>
    requires documents { AreDocuments tables.now.documents.items }
    requires links { AreLinks (map plain_link tables.now.links.items) }
    ensures { IfOk result (λ are. IsTrue are ↔ AreSound contents.now poom.now (plain_tables tables.now)) }
{
    let Some(root) = contents.at_number(tables.granfilade) else {
        return Ok(false);
    };
    let right = are_contents(contents, root, tables.documents.as_slice())?;
    if !right {
        return Ok(false);
    }
    let shown = documents_are_shown(poom, tables)?;
    Ok(shown)
}
