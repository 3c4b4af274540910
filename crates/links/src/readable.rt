//! Which links may be read: those whose home may.
ghost use Rattle.std.specs.Prelude.{◌≡◌, ◌++◌, ◌≤◌, take, length, IfOk, OnOk};
ghost use Rattle.world_rules.specs.Readers.{reads_by};
ghost use Rattle.links.specs.LinkLists.{link_in};
ghost use Rattle.links.specs.Readable.{is_read, ids_read};
ghost use Rattle.links.specs.inside.Read.{id_if_read};

use crate::table::Table;
use std::alloc::Global;
use tumbler::{List, Memory, Tumbler};
use world_rules::{Readers, reads};

/// Whether there is a link of the id, and its home may be read for the account.
pub(crate) fn is_read<R: Readers>(
    table: &Table,
    id: &Tumbler,
    readers: &R,
    account: &Option<Tumbler>,
) -> bool
    ensures { result ≡ is_read (reads_by (R.publishes readers.now) account.now) (link_in table.now id.now) }
{
    let Some(link) = table.get(id) else {
        return false;
    };
    reads(readers, account, &link.home)
}

/// Adds the id if its link may be read.
fn take_read<R: Readers>(
    table: &Table,
    id: &Tumbler,
    readers: &R,
    account: &Option<Tumbler>,
    found: &mut List<Tumbler>,
) -> Result<(), Memory>
    ensures { OnOk result (found.new.items ≡ found.old.items ++ id_if_read (reads_by (R.publishes readers.now) account.now) table.now id.now) }
{
    if !is_read(table, id, readers, account) {
        return Ok(());
    }
    found.push(id.copy())
}

/// The first of these ids, up to the limit, of links that may be read.
pub(crate) fn ids_read<R: Readers>(
    alloc: Global,
    table: &Table,
    ids: &[Tumbler],
    readers: &R,
    account: &Option<Tumbler>,
    limit: u32,
) -> Result<List<Tumbler>, Memory>
    ensures { IfOk result (λ made. made.items ≡ take limit (ids_read (reads_by (R.publishes readers.now) account.now) table.now ids.now)) }
{
    let mut found = List::new(alloc);
    for id in ids {
        if found.len() >= limit as usize {
            return Ok(found);
        }
        take_read(table, id, readers, account, &mut found)?;
    }
    Ok(found)
}

/// How many of the ids are of links that may be read. It takes no memory.
pub(crate) fn count_read<R: Readers>(
    table: &Table,
    ids: &[Tumbler],
    readers: &R,
    account: &Option<Tumbler>,
) -> usize
    ensures { result ≡ length (ids_read (reads_by (R.publishes readers.now) account.now) table.now ids.now) }
{
    ids.iter()
        .filter(|id| is_read(table, id, readers, account))
        .count()
}
