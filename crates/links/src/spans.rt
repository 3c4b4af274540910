//! Spans in ascending order, each once.
ghost use Rattle.std.specs.Prelude.{◌≡◌, map, IfOk, OnOk};
ghost use Rattle.world_rules.specs.Readers.{reads_by};
ghost use Rattle.links.specs.inside.Pairs.{pair_of, span_of_pair, pairs_of};
ghost use Rattle.links.specs.inside.Read.{rows_read, with_pair_if_read};

use crate::readable::is_read;
use crate::table::Table;
use enfilade_core::Row;
use std::alloc::Global;
use std::collections::BTreeSet;
use tumbler::{List, Memory, Span, Tumbler};
use world_rules::Readers;

/// The start and the width of each row, in an ordered set.
fn pairs_of(alloc: Global, rows: &[Row<Tumbler>]) -> Result<BTreeSet<(Tumbler, Tumbler)>, Memory>
    ensures { IfOk result (λ set. set.keys ≡ pairs_of (map pair_of rows.now)) }
{
    let mut pairs = BTreeSet::new(alloc);
    for row in rows {
        pairs.insert((row.first.copy(), row.leaf.copy()))?;
    }
    Ok(pairs)
}

/// The pairs as spans.
fn listed(alloc: Global, pairs: &BTreeSet<(Tumbler, Tumbler)>) -> Result<List<Span>, Memory>
    ensures { IfOk result (λ made. made.items ≡ map span_of_pair pairs.now.keys) }
{
    let mut made = List::new(alloc);
    for pair in pairs {
        made.push(Span {
            start: pair.0.copy(),
            width: pair.1.copy(),
        })?;
    }
    Ok(made)
}

/// The spans of rows, in ascending order by start and then by width, each once.
pub(crate) fn spans_in_order(alloc: Global, rows: &[Row<Tumbler>]) -> Result<List<Span>, Memory>
    ensures { IfOk result (λ made. made.items ≡ map span_of_pair (pairs_of (map pair_of rows.now))) }
{
    let pairs = pairs_of(alloc, rows)?;
    listed(alloc, &pairs)
}

/// Adds the start and the width of the row, if its link may be read for the account.
fn take_pair<R: Readers>(
    pairs: &mut BTreeSet<(Tumbler, Tumbler)>,
    table: &Table,
    row: &Row<Tumbler>,
    readers: &R,
    account: &Option<Tumbler>,
) -> Result<(), Memory>
    ensures { OnOk result (pairs.new.keys ≡ with_pair_if_read (reads_by (R.publishes readers.now) account.now) table.now pairs.old.keys row.now) }
{
    if !is_read(table, &row.second, readers, account) {
        return Ok(());
    }
    pairs.insert((row.first.copy(), row.leaf.copy()))?;
    Ok(())
}

/// The start and the width of each row whose link may be read, in an ordered set.
fn pairs_read<R: Readers>(
    alloc: Global,
    table: &Table,
    rows: &[Row<Tumbler>],
    readers: &R,
    account: &Option<Tumbler>,
) -> Result<BTreeSet<(Tumbler, Tumbler)>, Memory>
    ensures { IfOk result (λ set. set.keys ≡ pairs_of (map pair_of (rows_read (reads_by (R.publishes readers.now) account.now) table.now rows.now))) }
{
    let mut pairs = BTreeSet::new(alloc);
    for row in rows {
        take_pair(&mut pairs, table, row, readers, account)?;
    }
    Ok(pairs)
}

/// The spans of those rows whose links may be read, in ascending order by start and then by width, each once.
pub(crate) fn spans_read<R: Readers>(
    alloc: Global,
    table: &Table,
    rows: &[Row<Tumbler>],
    readers: &R,
    account: &Option<Tumbler>,
) -> Result<List<Span>, Memory>
    ensures { IfOk result (λ made. made.items ≡ map span_of_pair (pairs_of (map pair_of (rows_read (reads_by (R.publishes readers.now) account.now) table.now rows.now)))) }
{
    let pairs = pairs_read(alloc, table, rows, readers, account)?;
    listed(alloc, &pairs)
}
