//! The tests of loading.
ghost use Rattle.std.specs.Prelude.{◌≡◌, ◌↔◌, map, All, IsTrue, IfOk};
ghost use Rattle.links.specs.LinkLists.{HoldsRuns, plain_link as kept_link};
ghost use Rattle.page_tables.specs.Plain.{plain_link};
ghost use Rattle.page_tables.specs.declared.tables.TableDocument.{TableDocument as TableRow};
ghost use Rattle.poom.specs.Laid.{IsRoot};
ghost use Rattle.green_flush.specs.Sound.{AreSound, CoversText, link_row};
ghost use Rattle.green_flush.specs.inside.Ends.{EndsHold};
ghost use Rattle.green_flush.specs.inside.Owning.{plain_owned, AreRooted};

use crate::owned::Owned;
use crate::shown::shown_runs;
use content_checks::are_sound as contents_are_sound;
use febe_data::{List, Memory};
use index_checks::{are_covered, hold_runs};
use links::LinkRow;
use page_tables::TableLink;
use spanfilade::Spanfilade;
use std::alloc::Global;
use table_checks::are_sound as tables_are_sound;

/// A link as indexes are asked for it.
fn link_row(alloc: Global, link: &TableLink) -> Result<LinkRow, Memory>
    ensures { IfOk result (λ row. kept_link row ≡ link_row (plain_link link.now)) }
{
    Ok(LinkRow {
        id: link.id,
        home: link.home,
        from: List::from_slice(alloc, link.from.as_slice())?,
        to: List::from_slice(alloc, link.to.as_slice())?,
        three: List::from_slice(alloc, link.three.as_slice())?,
    })
}

/// All links so.
fn link_rows(alloc: Global, links: &[TableLink]) -> Result<List<LinkRow>, Memory>
    ensures { IfOk result (λ rows. map kept_link rows.items ≡ map link_row (map plain_link links.now)) }
{
    let mut rows = List::new(alloc);
    rows.reserve(links.len())?;
    for link in links {
        rows.push_reserved(link_row(alloc, link)?);
    }
    Ok(rows)
}

/// Whether the index of an end holds the runs of these links at that end, and no others.
fn holds(end: u32, links: &[LinkRow], index: &Spanfilade) -> Result<bool, Memory>
    ensures { IfOk result (λ holds. IsTrue holds ↔ HoldsRuns end (map kept_link links.now) index.now) }
{
    let (arena, root) = index.parts();
    let holds = hold_runs(end, links, arena, root)?;
    Ok(holds)
}

/// Whether the three indexes hold the runs of the links' three ends.
fn ends_hold(links: &[LinkRow], owned: &Owned) -> Result<bool, Memory>
    ensures { IfOk result (λ hold. IsTrue hold ↔ EndsHold (map kept_link links.now) owned.now.from owned.now.to owned.now.three) }
{
    if !holds(1, links, &owned.from)? {
        return Ok(false);
    }
    if !holds(2, links, &owned.to)? {
        return Ok(false);
    }
    let three = holds(3, links, &owned.three)?;
    Ok(three)
}

/// Whether the index of spans has all that documents show.
fn cover(alloc: Global, owned: &Owned) -> Result<bool, Memory>
    requires { All (λ (row : TableRow). IsRoot owned.now.poom row.root) owned.now.tables.documents.items }
    ensures { IfOk result (λ cover. IsTrue cover ↔ All (CoversText owned.now.spanfilade owned.now.poom) owned.now.tables.documents.items) }
{
    let runs = shown_runs(alloc, &owned.poom, owned.tables.documents.as_slice())?;
    let (index, root) = owned.spanfilade.parts();
    let cover = are_covered(index, root, runs.as_slice())?;
    Ok(cover)
}

/// Whether trees and tables that were read pass the tests of loading: each part for itself, and beside the others.
pub(crate) fn are_sound(alloc: Global, owned: &Owned) -> Result<bool, Memory>
    requires { AreRooted owned.now }
    ensures { IfOk result (λ sound. IsTrue sound ↔ AreSound (plain_owned owned.now)) }
{
    let tables = &owned.tables;
    if !tables_are_sound(tables) {
        return Ok(false);
    }
    if !contents_are_sound(owned.granfilade.parts().0, owned.poom.arena(), tables)? {
        return Ok(false);
    }
    if !cover(alloc, owned)? {
        return Ok(false);
    }
    let links = link_rows(alloc, tables.links.as_slice())?;
    let hold = ends_hold(links.as_slice(), owned)?;
    Ok(hold)
}
