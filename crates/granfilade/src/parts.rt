//! The part of rows' bytes that lies in a span.
ghost use Rattle.std.specs.Prelude.{◌≡◌, ◌≢◌, ℕ, ◌+◌, ◌<◌, ◌≤◌, ◌++◌, [], nat_lt, length, map, All, IfSome, OnOk, OnErr};
ghost use Rattle.std.specs.Io.{StartsWith};
ghost use Rattle.tumbler.specs.Places.{place_bound, IsTumbler, comes_before};
ghost use Rattle.tumbler.specs.Span.{end_of};
ghost use Rattle.enfilade_core.specs.Rows.{moved};
ghost use Rattle.enfilade_core.specs.Axes.{IsWellFormedRow, InOrder};
ghost use Rattle.enfilade_core.specs.Plain.{plain_row};
ghost use Rattle.enfilade_core.specs.Planes.{content_widths, plain_text};
ghost use Rattle.granfilade.specs.Content.{so_far_on, laid, laid_out, bytes_in};
ghost use Rattle.granfilade.specs.Steps.{last_of};

use enfilade_core::Row;
use tumbler::{Memory, Span, Text, Tumbler};

/// The address that comes so many after this one.
#[tactic(auto, using(crate::proofs::Stepping::stepping))]
pub(crate) fn so_far_on(start: &Tumbler, count: usize) -> Tumbler
    requires { last_of start.now + count < place_bound }
    ensures { result ≡ so_far_on start.now count }
{
    let long = start.places().len();
    start.add(&Tumbler::width(start.allocator(), long, count as u32))
}

/// How many of so many addresses from a start on come before a place, where that differs from the start in the last
/// place at most; otherwise it is not told.
fn count_beside(start: &Tumbler, count: usize, at: &Tumbler) -> Option<usize>
    ensures within { IfSome result (λ found. found ≤ count) }
    ensures each { IfSome result (λ found. (k : ℕ) → k < count → comes_before (so_far_on start.now k) at.now ≡ nat_lt k found) }
{
    let (first, front) = start.places().split_last()?;
    let (wanted, beside) = at.places().split_last()?;
    if front != beside {
        return None;
    }
    let distance = wanted.saturating_sub(*first) as usize;
    Some(distance.min(count))
}

/// How many of so many addresses from a start on come before a place.
fn count_before(start: &Tumbler, count: usize, at: &Tumbler) -> usize
    requires filled { start.now ≢ [] }
    requires room { last_of start.now + count < place_bound }
    ensures within { result ≤ count }
    ensures each { (k : ℕ) → k < count → comes_before (so_far_on start.now k) at.now ≡ nat_lt k result }
{
    if let Some(found) = count_beside(start, count, at) {
        return found;
    }
    if count == 0 || so_far_on(start, count - 1).is_before(at) {
        return count;
    }
    let mut low = 0;
    let mut high = count;
    while low < high {
        let middle = low + (high - low) / 2;
        if so_far_on(start, middle).is_before(at) {
            low = middle + 1;
            continue;
        }
        high = middle;
    }
    low
}

/// Adds to `into` the bytes, laid out from `first` on, whose address is in the span, where `end` is the span's end.
fn append_part(
    first: &Tumbler,
    bytes: &[u8],
    span: &Span,
    end: &Tumbler,
    into: &mut Text,
) -> Result<(), Memory>
    requires filled { first.now ≢ [] }
    requires room { last_of first.now + length bytes.now < place_bound }
    requires end { end.now ≡ end_of span.now }
    ensures ok { OnOk result (into.new.items ≡ into.old.items ++ bytes_in span.now (laid first.now bytes.now)) }
    ensures err { OnErr result (into.new ≡ into.old) }
{
    let from = count_before(first, bytes.len(), &span.start);
    let to = count_before(first, bytes.len(), end);
    if to <= from {
        return Ok(());
    }
    into.extend_from_slice(&bytes[from..to])
}

/// Adds to `into` the bytes of rows, seen from a base, whose address is in the span, where `end` is the span's end.
pub(crate) fn append_rows(
    rows: &[Row<Text>],
    first: &Tumbler,
    second: &Tumbler,
    span: &Span,
    end: &Tumbler,
    into: &mut Text,
) -> Result<(), Memory>
    requires well_formed { All (IsWellFormedRow content_widths) (map (moved first.now second.now) (map (plain_row plain_text) rows.now)) }
    requires ordered { InOrder (map (moved first.now second.now) (map (plain_row plain_text) rows.now)) }
    requires start { IsTumbler span.now.start }
    requires end { end.now ≡ end_of span.now }
    ensures ok { OnOk result (into.new.items ≡ into.old.items ++ bytes_in span.now (laid_out (map (moved first.now second.now) (map (plain_row plain_text) rows.now)))) }
    ensures err { OnErr result (StartsWith into.new.items into.old.items) }
{
    for row in rows {
        let at = first.add(&row.first);
        if !at.is_before(end) {
            return Ok(());
        }
        append_part(&at, row.leaf.as_slice(), span, end, into)?;
    }
    Ok(())
}
