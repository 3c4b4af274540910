//! All that is asked of tables by themselves.
ghost use Rattle.std.specs.Prelude.{◌↔◌, IsTrue};
ghost use Rattle.page_tables.specs.Plain.{plain_tables};
ghost use Rattle.table_checks.specs.Sound.{AreSound};

use crate::documents::{are_documents, have_elders};
use crate::homes::have_homes;
use crate::numbers::are_numbered;
use crate::order::{documents_ascend, links_ascend};
use crate::runs::have_runs;
use page_tables::Tables;

/// Whether tables are sound by themselves, whatever the trees hold. It takes no memory, and time that grows as the number of
/// rows times its logarithm.
pub fn are_sound(tables: &Tables) -> bool
    ensures { IsTrue result ↔ AreSound (plain_tables tables.now) }
{
    let documents = tables.documents.as_slice();
    let links = tables.links.as_slice();
    if !documents_ascend(documents) {
        return false;
    }
    if !are_documents(documents) {
        return false;
    }
    if !have_elders(documents) {
        return false;
    }
    if !links_ascend(links) {
        return false;
    }
    if !have_homes(documents, links) {
        return false;
    }
    if !are_numbered(links) {
        return false;
    }
    have_runs(links)
}
