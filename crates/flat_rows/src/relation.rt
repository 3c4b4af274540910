//! Where two specs pick the same content.
ghost use Rattle.std.specs.Prelude.{◌≡◌, ◌++◌, ◌∷◌, [], false, length, filter, All, IfOk, OnOk};
ghost use Rattle.std.specs.List.{list_any};
ghost use Rattle.febe_data.specs.Plain.{plain_spec};
ghost use Rattle.febe_data.specs.Validity.{IsDiagonal};
ghost use Rattle.flat_rows.specs.PairIndex.{AddsPlace, pairs_among, pairs_with, places_in, IsPlaceIndex, IsPairSet};
ghost use Rattle.world_rules.specs.Picking.{picks, is_picked_by};
ghost use Rattle.world_rules.specs.Refusals.{is_bad_span};
ghost use Rattle.world_rules.specs.Relation.{next_pair, is_start, reach, diagonal_from, diagonals_of, diagonals};

use febe_data::{Diagonal, List, Memory, Span, Spec, Tumbler};
use std::alloc::Global;
use std::collections::{BTreeMap, BTreeSet};
use world_rules::{Pair, Row, WorldError};

/// Whether some span picks the row.
#[tactic(auto, using(crate::proofs::Relations::picked_steps))]
fn is_in_some(spans: &[Span], row: &Row) -> bool
    requires { list_any is_bad_span spans.now ≡ false }
    ensures { result ≡ list_any (λ span. picks span row.now) spans.now }
{
    for span in spans {
        if row.is_within(&span.start, &span.start.add(&span.width)) {
            return true;
        }
    }
    false
}

/// Whether the spec picks the row.
fn is_picked(spec: &Spec, row: &Row) -> bool
    requires { list_any is_bad_span (plain_spec spec.now).spans ≡ false }
    ensures { result ≡ is_picked_by (plain_spec spec.now) row.now }
{
    row.is_text_of(&spec.document) && is_in_some(spec.spans.as_slice(), row)
}

/// Adds a position at the address.
fn add_place(
    alloc: Global,
    index: &mut BTreeMap<Tumbler, Vec<u32>>,
    address: &Tumbler,
    place: u32,
) -> Result<(), Memory>
    ensures { OnOk result (AddsPlace address.now place index.old index.new) }
{
    let mut places = match index.remove(address) {
        Some(places) => places,
        None => Vec::new(alloc),
    };
    places.push(place)?;
    index.insert(address.copy(), places)?;
    Ok(())
}

/// The positions at which the spec picks each address.
#[tactic(auto, using(crate::proofs::Relations::place_steps))]
fn place_index(
    alloc: Global,
    rows: &[Row],
    spec: &Spec,
) -> Result<BTreeMap<Tumbler, Vec<u32>>, Memory>
    requires { list_any is_bad_span (plain_spec spec.now).spans ≡ false }
    ensures { IfOk result (λ index. IsPlaceIndex (filter (is_picked_by (plain_spec spec.now)) rows.now) index) }
{
    let mut index = BTreeMap::new(alloc);
    for row in rows {
        if is_picked(spec, row) {
            add_place(alloc, &mut index, &row.address, row.n)?;
        }
    }
    Ok(index)
}

/// Adds the pairs of one position on the left with these on the right.
fn push_pairs(pairs: &mut Vec<Pair>, left: u32, rights: &[u32]) -> Result<(), Memory>
    ensures { OnOk result (pairs.new.items ≡ pairs.old.items ++ pairs_with left rights.now) }
{
    for right in rights {
        pairs.push(Pair {
            left,
            right: *right,
        })?;
    }
    Ok(())
}

/// Adds the pairs of one row, by the index of the rows on the right.
#[tactic(auto, using(crate::proofs::Relations::pair_steps))]
fn push_row(
    pairs: &mut Vec<Pair>,
    index: &BTreeMap<Tumbler, Vec<u32>>,
    row: &Row,
) -> Result<(), Memory>
    ensures { OnOk result (pairs.new.items ≡ pairs.old.items ++ pairs_with row.now.n (places_in index.now row.now.address)) }
{
    let Some(rights) = index.get(&row.address) else {
        return Ok(());
    };
    push_pairs(pairs, row.n, rights.as_slice())
}

/// The pairs of positions that the one spec and the other pick of these rows and that have the same content.
#[tactic(auto, using(crate::proofs::Relations::pair_steps))]
pub fn pairs_of(alloc: Global, rows: &[Row], left: &Spec, right: &Spec) -> Result<Vec<Pair>, Memory>
    requires left { list_any is_bad_span (plain_spec left.now).spans ≡ false }
    requires right { list_any is_bad_span (plain_spec right.now).spans ≡ false }
    ensures { IfOk result (λ pairs. pairs.items ≡ pairs_among rows.now (plain_spec left.now) (plain_spec right.now)) }
{
    let index = place_index(alloc, rows, right)?;
    let mut pairs = Vec::new(alloc);
    for row in rows {
        if is_picked(left, row) {
            push_row(&mut pairs, &index, row)?;
        }
    }
    Ok(pairs)
}

/// The pairs as a set.
#[tactic(auto, using(crate::proofs::Relations::set_steps))]
fn pair_set(alloc: Global, pairs: &[Pair]) -> Result<BTreeSet<(u32, u32)>, Memory>
    ensures { IfOk result (λ members. IsPairSet pairs.now members) }
{
    let mut members = BTreeSet::new(alloc);
    for pair in pairs {
        members.insert((pair.left, pair.right))?;
    }
    Ok(members)
}

/// Whether no pair stands just before this one.
#[tactic(auto, using(world_rules::proofs::Diagonals::start_steps))]
fn is_start(pairs: &[Pair], members: &BTreeSet<(u32, u32)>, pair: Pair) -> bool
    requires { IsPairSet pairs.now members.now }
    ensures { result ≡ is_start pairs.now pair }
{
    if pair.left == 0 || pair.right == 0 {
        return true;
    }
    !members.contains(&(pair.left - 1, pair.right - 1))
}

/// One position on, on both sides, where there are such positions.
fn next_pair(pair: Pair) -> Result<Pair, WorldError>
    ensures { IfOk result (λ next. next ≡ next_pair pair) }
{
    Ok(Pair {
        left: pair.left.checked_add(1).ok_or(WorldError::TooGreat)?,
        right: pair.right.checked_add(1).ok_or(WorldError::TooGreat)?,
    })
}

/// How many pairs follow each other from this one on.
#[tactic(auto, using(world_rules::proofs::Diagonals::reach_steps))]
fn reach(pairs: &[Pair], members: &BTreeSet<(u32, u32)>, start: Pair) -> Result<u32, WorldError>
    requires { IsPairSet pairs.now members.now }
    ensures { IfOk result (λ count. count ≡ reach pairs.now (length pairs.now) start) }
{
    let mut pair = start;
    let mut length: u32 = 0;
    for _ in 0..pairs.len() {
        if !members.contains(&(pair.left, pair.right)) {
            return Ok(length);
        }
        pair = next_pair(pair)?;
        length = length.checked_add(1).ok_or(WorldError::TooGreat)?;
    }
    Ok(length)
}

/// The diagonal that begins at this pair, where the grammar can spell it.
fn diagonal_from(
    pairs: &[Pair],
    members: &BTreeSet<(u32, u32)>,
    start: Pair,
) -> Result<Diagonal, WorldError>
    requires { IsPairSet pairs.now members.now }
    ensures value { IfOk result (λ diagonal. diagonal ≡ diagonal_from pairs.now start) }
    ensures valid { IfOk result IsDiagonal }
{
    if start.left == 0 || start.right == 0 {
        return Err(WorldError::TooGreat);
    }
    Ok(Diagonal {
        left: start.left,
        right: start.right,
        length: reach(pairs, members, start)?,
    })
}

/// From each pair that has none before it as far as pairs follow.
#[tactic(auto, using(world_rules::proofs::Diagonals::diagonal_steps))]
pub fn diagonals_of(alloc: Global, pairs: &[Pair]) -> Result<List<Diagonal>, WorldError>
    ensures value { IfOk result (λ made. made.items ≡ diagonals_of pairs.now) }
    ensures valid { IfOk result (λ made. All IsDiagonal made.items) }
{
    let members = pair_set(alloc, pairs)?;
    let mut made = List::new(alloc);
    for pair in pairs {
        if is_start(pairs, &members, *pair) {
            made.push(diagonal_from(pairs, &members, *pair)?)?;
        }
    }
    Ok(made)
}
