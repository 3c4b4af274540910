//! Rows in one order, so that two lists of them can be compared.
ghost use Rattle.std.specs.Prelude.{◌≡◌, ◌↔◌, IsTrue, IfOk};
ghost use Rattle.std.specs.List.Sorted.{IsPermutation};
ghost use Rattle.index_checks.specs.inside.Order.{row_cmp, AreSorted};

use enfilade_core::Row;
use std::alloc::Global;
use std::cmp::Ordering;
use tumbler::{Memory, Tumbler};

/// Another row with the same places.
fn copy_row(row: &Row<Tumbler>) -> Row<Tumbler>
    ensures { result ≡ row.now }
{
    Row {
        first: row.first.copy(),
        second: row.second.copy(),
        leaf: row.leaf.copy(),
    }
}

/// Which of two rows comes first: by the keys, then by the starts, then by the widths.
fn compare_rows(a: &Row<Tumbler>, b: &Row<Tumbler>) -> Ordering
    ensures { result ≡ row_cmp a.now b.now }
{
    let by_start = a.first.cmp(&b.first).then(a.leaf.cmp(&b.leaf));
    a.second.cmp(&b.second).then(by_start)
}

/// Copies of rows.
pub(crate) fn copied_rows(alloc: Global, rows: &[Row<Tumbler>]) -> Result<Vec<Row<Tumbler>>, Memory>
    ensures { IfOk result (λ made. made.items ≡ rows.now) }
{
    let mut made = Vec::new(alloc);
    made.reserve(rows.len())?;
    for row in rows {
        made.push(copy_row(row))?;
    }
    Ok(made)
}

/// The rows in order.
pub(crate) fn sorted_rows(mut rows: Vec<Row<Tumbler>>) -> Result<Vec<Row<Tumbler>>, Memory>
    ensures moved { IfOk result (λ made. IsPermutation rows.items made.items) }
    ensures sorted { IfOk result (λ made. AreSorted made.items) }
{
    rows.sort_by(|a, b| compare_rows(a, b))?;
    Ok(rows)
}

/// Whether two rows are the same.
fn is_same_row(a: &Row<Tumbler>, b: &Row<Tumbler>) -> bool
    ensures { IsTrue result ↔ (a.now ≡ b.now) }
{
    a.first == b.first && a.second == b.second && a.leaf == b.leaf
}

/// Whether two lists of rows are the same.
pub(crate) fn are_same(a: &[Row<Tumbler>], b: &[Row<Tumbler>]) -> bool
    ensures { IsTrue result ↔ (a.now ≡ b.now) }
{
    if a.len() != b.len() {
        return false;
    }
    for k in 0..a.len() {
        if !is_same_row(&a[k], &b[k]) {
            return false;
        }
    }
    true
}
