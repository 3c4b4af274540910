//! Whether links are numbered in their homes.
ghost use Rattle.std.specs.Prelude.{◌≡◌, ◌↔◌, ◌+◌, ◌<◌, ◌^◌, [], ◌∷◌, length, All, map, IsTrue, if◌then◌else◌};
ghost use Rattle.tumbler.specs.Address.{IsDocument};
ghost use Rattle.world_rules.specs.World.{is_same, link_address};
ghost use Rattle.page_tables.specs.Plain.{PlainLink, plain_link};
ghost use Rattle.table_checks.specs.TableRows.{ids_of};
ghost use Rattle.table_checks.specs.Sound.{Ascend, AreNumbered};

use page_tables::TableLink;
use tumbler::Tumbler;

/// The number of a link behind one that has this home and number: the next one where both have one home, and otherwise 1.
fn number_behind(last: &Tumbler, number: u64, home: &Tumbler) -> u64
    requires { number + 1 < 2 ^ 64 }
    ensures { result ≡ (if is_same last.now home.now then number + 1 else 1) }
{
    if *last == *home { number + 1 } else { 1 }
}

/// Whether three places are those that a link address has behind its home.
fn is_link_end(end: &[u32], number: u64) -> bool
    requires { length end.now ≡ 3 }
    ensures value { IsTrue result ↔ (end.now ≡ 0 ∷ 2 ∷ number ∷ []) }
    ensures small { IsTrue result → number < 2 ^ 32 }
{
    if end[0] != 0 {
        return false;
    }
    if end[1] != 2 {
        return false;
    }
    end[2] as u64 == number
}

/// Whether the id is the home's link address of this number.
fn is_link_address(id: &Tumbler, home: &Tumbler, number: u64) -> bool
    ensures value { IsTrue result ↔ (id.now ≡ link_address home.now number) }
    ensures small { IsTrue result → number < 2 ^ 32 }
{
    let places = id.places();
    let front = home.places();
    if places.len() != front.len() + 3 {
        return false;
    }
    let (start, end) = places.split_at(front.len());
    if start != front {
        return false;
    }
    is_link_end(end, number)
}

/// Whether the links of each home are numbered from 1 on, without gaps. Those of one home stand together, since ids ascend
/// and homes are documents, so the last link's home and number are all that is kept.
pub(crate) fn are_numbered(links: &[TableLink]) -> bool
    requires ascend { Ascend (ids_of (map plain_link links.now)) }
    requires homes { All (λ (link : PlainLink). IsDocument link.home) (map plain_link links.now) }
    ensures { IsTrue result ↔ AreNumbered (map plain_link links.now) }
{
    if links.is_empty() {
        return true;
    }
    let mut home = links[0].home;
    let mut number = 0;
    for link in links {
        number = number_behind(&home, number, &link.home);
        if !is_link_address(&link.id, &link.home, number) {
            return false;
        }
        home = link.home;
    }
    true
}
