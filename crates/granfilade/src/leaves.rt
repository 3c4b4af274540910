//! New rows for bytes that are put.
ghost use Rattle.std.specs.Prelude.{◌≡◌, ◌+◌, ◌<◌, [], length, map, IfOk};
ghost use Rattle.tumbler.specs.Places.{place_bound};
ghost use Rattle.enfilade_core.specs.Plain.{plain_row};
ghost use Rattle.enfilade_core.specs.Planes.{plain_text};
ghost use Rattle.granfilade.specs.Content.{so_far_on};
ghost use Rattle.granfilade.specs.Steps.{last_of};
ghost use Rattle.granfilade.specs.Puts.{IsByteAddress};
ghost use Rattle.granfilade.specs.Leaves.{AreLeaves};

use crate::parts::so_far_on;
use enfilade_core::Row;
use tumbler::laws::is_tumbler;
use tumbler::{List, Memory, Text, Tumbler};

/// The most bytes that a row may have.
pub(crate) const MOST_LEAF_BYTES: usize = 1024;

/// A row of bytes, so many addresses after a start.
fn leaf(start: &Tumbler, done: usize, bytes: &[u8]) -> Result<Row<Text>, Memory>
    requires { last_of start.now + done < place_bound }
    ensures first { IfOk result (λ row. row.first ≡ so_far_on start.now done) }
    ensures second { IfOk result (λ row. row.second ≡ []) }
    ensures bytes { IfOk result (λ row. row.leaf.items ≡ bytes.now) }
{
    let alloc = start.allocator();
    Ok(Row {
        first: so_far_on(start, done),
        second: Tumbler::zero(alloc),
        leaf: List::from_slice(alloc, bytes)?,
    })
}

/// Rows for bytes from a start on, each as long as it may be but the last.
pub(crate) fn leaves(start: &Tumbler, bytes: &[u8]) -> Result<List<Row<Text>>, Memory>
    requires address { IsByteAddress start.now }
    requires room { last_of start.now + length bytes.now < place_bound }
    ensures { IfOk result (λ made. AreLeaves start.now bytes.now (map (plain_row plain_text) made.items)) }
{
    is_tumbler(start);
    let mut rows = List::new(start.allocator());
    let mut done = 0;
    while done < bytes.len() {
        let rest = bytes.split_at(done).1;
        let count = rest.len().min(MOST_LEAF_BYTES);
        rows.push(leaf(start, done, rest.split_at(count).0)?)?;
        done += count;
    }
    Ok(rows)
}

/// Rows for a text from a start on. Where one row has room for all of it, it comes into that without a copy.
pub(crate) fn leaves_of(start: &Tumbler, text: Text) -> Result<List<Row<Text>>, Memory>
    requires address { IsByteAddress start.now }
    requires room { last_of start.now + length text.items < place_bound }
    ensures { IfOk result (λ made. AreLeaves start.now text.items (map (plain_row plain_text) made.items)) }
{
    if text.is_empty() {
        return leaves(start, text.as_slice());
    }
    if text.len() > MOST_LEAF_BYTES {
        return leaves(start, text.as_slice());
    }
    let alloc = start.allocator();
    is_tumbler(start);
    let mut rows = List::new(alloc);
    rows.push(Row {
        first: start.copy(),
        second: Tumbler::zero(alloc),
        leaf: text,
    })?;
    Ok(rows)
}
