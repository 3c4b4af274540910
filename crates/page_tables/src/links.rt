//! Links, and the list of them.
ghost use Rattle.std.specs.Prelude.{◌≡◌, ◌++◌, map, All, OnOk};
ghost use Rattle.std.specs.List.{flat_map};
ghost use Rattle.febe_fields.specs.Reading.{ReadsIfOk, many_at};
ghost use Rattle.disk_fields.specs.Format.{AreCounted, list_bytes};
ghost use Rattle.disk_fields.specs.Reading.{made_at, both_at, counted_at};
ghost use Rattle.page_tables.specs.Plain.{plain_link};
ghost use Rattle.page_tables.specs.TableBytes.{link_bytes, runs_bytes, IsRun, IsLinkRow};
ghost use Rattle.page_tables.specs.TableReading.{link_at};

use crate::counts::append_count;
use crate::runs::{append_runs, runs_at};
use crate::tables::TableLink;
use disk_fields::{append_tumbler, tumbler_at, u32_at};
use std::alloc::Global;
use tumbler::{List, Memory, Text};

/// The runs of a link's three ends.
fn append_ends(out: &mut Text, link: &TableLink) -> Result<(), Memory>
    ensures spelled { OnOk result (out.new.items ≡ out.old.items ++ (runs_bytes link.now.from.items ++ (runs_bytes link.now.to.items ++ runs_bytes link.now.three.items))) }
    ensures from { OnOk result (AreCounted IsRun link.now.from.items) }
    ensures to { OnOk result (AreCounted IsRun link.now.to.items) }
    ensures three { OnOk result (AreCounted IsRun link.now.three.items) }
{
    append_runs(out, link.from.as_slice())?;
    append_runs(out, link.to.as_slice())?;
    append_runs(out, link.three.as_slice())
}

fn append_link(out: &mut Text, link: &TableLink) -> Result<(), Memory>
    ensures spelled { OnOk result (out.new.items ≡ out.old.items ++ link_bytes (plain_link link.now)) }
    ensures right { OnOk result (IsLinkRow (plain_link link.now)) }
{
    let _id = link.id.places();
    let _home = link.home.places();
    append_tumbler(out, &link.id)?;
    append_tumbler(out, &link.home)?;
    append_ends(out, link)
}

fn append_each_link(out: &mut Text, links: &[TableLink]) -> Result<(), Memory>
    ensures spelled { OnOk result (out.new.items ≡ out.old.items ++ flat_map link_bytes (map plain_link links.now)) }
    ensures right { OnOk result (All IsLinkRow (map plain_link links.now)) }
{
    for link in links {
        append_link(out, link)?;
    }
    Ok(())
}

/// How many links there are, and the links.
pub(crate) fn append_links(out: &mut Text, links: &[TableLink]) -> Result<(), Memory>
    ensures spelled { OnOk result (out.new.items ≡ out.old.items ++ list_bytes link_bytes (map plain_link links.now)) }
    ensures right { OnOk result (AreCounted IsLinkRow (map plain_link links.now)) }
{
    append_count(out, links.len())?;
    append_each_link(out, links)
}

#[tactic(auto, unfolding(crate::specs::TableReading::link_at, disk_fields::specs::Reading::made_at, disk_fields::specs::Reading::both_at))]
fn link_at(alloc: Global, bytes: &[u8]) -> Result<Option<(TableLink, &[u8])>, Memory>
    ensures { ReadsIfOk (λ x. (plain_link x.0, x.1.now)) result (link_at bytes.now) }
{
    let Some((id, rest)) = tumbler_at(alloc, bytes) else {
        return Ok(None);
    };
    let Some((home, rest)) = tumbler_at(alloc, rest) else {
        return Ok(None);
    };
    let Some((from, rest)) = runs_at(alloc, rest)? else {
        return Ok(None);
    };
    let Some((to, rest)) = runs_at(alloc, rest)? else {
        return Ok(None);
    };
    let Some((three, rest)) = runs_at(alloc, rest)? else {
        return Ok(None);
    };
    Ok(Some((
        TableLink {
            id,
            home,
            from,
            to,
            three,
        },
        rest,
    )))
}

/// This many links. Memory is taken for those that are there, whatever number was asked for.
fn many_links_at(
    alloc: Global,
    count: u32,
    bytes: &[u8],
) -> Result<Option<(List<TableLink>, &[u8])>, Memory>
    ensures { ReadsIfOk (λ x. (map plain_link x.0.items, x.1.now)) result (many_at link_at count bytes.now) }
{
    let mut links = List::new(alloc);
    let mut rest = bytes;
    for _ in 0..count {
        let Some((link, behind)) = link_at(alloc, rest)? else {
            return Ok(None);
        };
        links.reserve(1)?;
        links.push_reserved(link);
        rest = behind;
    }
    Ok(Some((links, rest)))
}

/// How many links there are, and the links.
#[tactic(auto, unfolding(disk_fields::specs::Reading::counted_at))]
pub(crate) fn links_at(
    alloc: Global,
    bytes: &[u8],
) -> Result<Option<(List<TableLink>, &[u8])>, Memory>
    ensures { ReadsIfOk (λ x. (map plain_link x.0.items, x.1.now)) result (counted_at link_at bytes.now) }
{
    let Some((count, rest)) = u32_at(bytes) else {
        return Ok(None);
    };
    many_links_at(alloc, count, rest)
}
