//! The homes of links: whether they are listed, and how many links each has.
ghost use Rattle.std.specs.Prelude.{◌≡◌, ◌↔◌, All, map, IsTrue};
ghost use Rattle.page_tables.specs.Plain.{PlainLink, plain_link, plain_tables};
ghost use Rattle.table_checks.specs.TableRows.{addresses_of, is_listed, links_in_home};
ghost use Rattle.table_checks.specs.Sound.{Ascend, AreSound};

use crate::documents::is_listed;
use page_tables::{TableDocument, TableLink, Tables};
use tumbler::Tumbler;

/// Whether each link's home is listed.
pub(crate) fn have_homes(rows: &[TableDocument], links: &[TableLink]) -> bool
    requires { Ascend (addresses_of rows.now) }
    ensures { IsTrue result ↔ All (λ (link : PlainLink). IsTrue (is_listed rows.now link.home)) (map plain_link links.now) }
{
    for link in links {
        if !is_listed(rows, &link.home) {
            return false;
        }
    }
    true
}

/// How many links were made in a document, and 0 where it is not listed. It takes time that grows as the logarithm of the
/// number of links.
pub fn links_of_home(tables: &Tables, home: &Tumbler) -> usize
    requires { AreSound (plain_tables tables.now) }
    ensures { result ≡ links_in_home (plain_tables tables.now).links home.now }
{
    let links = tables.links.as_slice();
    let start = links.partition_point(|link| link.home.is_before(home));
    let end = links.partition_point(|link| !home.is_before(&link.home));
    end - start
}
