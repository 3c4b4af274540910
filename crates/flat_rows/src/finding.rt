//! Which documents and links are found by what specs pick.
ghost use Rattle.std.specs.Prelude.{◌≡◌, ◌+◌, ◌&&◌, ◌++◌, ◌∷◌, [], length, take, map, filter, All, IfOk, OnOk};
ghost use Rattle.std.specs.List.{list_any};
ghost use Rattle.std.specs.Ordering.{nat_cmp, is_lt};
ghost use Rattle.std.specs.Cmp.Lexicographic.{slice_cmp};
ghost use Rattle.tumbler.specs.Places.{IsTumbler};
ghost use Rattle.febe_data.specs.Plain.{plain_spec, plain_want};
ghost use Rattle.world_rules.specs.World.{ascending};
ghost use Rattle.flat_rows.specs.Sets.{is_in_set, IsSetOf, IsSetShowing};
ghost use Rattle.flat_rows.specs.PlainLink.{plain_link};
ghost use Rattle.world_rules.specs.Meeting.{shares_byte, share_bytes};
ghost use Rattle.world_rules.specs.Readable.{is_readable_by};
ghost use Rattle.flat_rows.specs.Meeting.{is_end_met, is_met, is_met_by};
ghost use Rattle.world_rules.specs.Wanted.{AreWantedRuns};
ghost use Rattle.world_rules.specs.Finding.{documents_found, is_in_span, is_home_wanted, links_found, ids_found, ids_after};

use crate::links::LinkRow;
use crate::picks::end_of;
use crate::search::is_readable;
use febe_data::{List, Memory, Run, Span, Spec, Tumbler, Want};
use std::alloc::Global;
use std::collections::BTreeSet;
use world_rules::{Row, WantedRuns, WorldError};

/// The set of these tumblers.
#[tactic(auto, using(crate::proofs::Found::set_steps))]
pub fn set_of(alloc: Global, tumblers: &[Tumbler]) -> Result<BTreeSet<Tumbler>, Memory>
    ensures { IfOk result (λ set. IsSetOf tumblers.now set) }
{
    let mut set = BTreeSet::new(alloc);
    for tumbler in tumblers {
        set.insert(tumbler.copy())?;
    }
    Ok(set)
}

/// Adds a tumbler.
fn push_tumbler(made: &mut List<Tumbler>, tumbler: &Tumbler) -> Result<(), Memory>
    ensures items { OnOk result (made.new.items ≡ made.old.items ++ tumbler.now ∷ []) }
    ensures valid { IsTumbler tumbler.now }
{
    let _ = tumbler.places();
    made.push(tumbler.copy())
}

/// The tumblers of the set, ascending.
pub fn list_of(alloc: Global, set: &BTreeSet<Tumbler>) -> Result<List<Tumbler>, WorldError>
    ensures items { IfOk result (λ made. made.items ≡ set.now.keys) }
    ensures valid { IfOk result (λ made. All IsTumbler made.items) }
{
    let mut made = List::new(alloc);
    for tumbler in set {
        push_tumbler(&mut made, tumbler)?;
    }
    Ok(made)
}

/// The first so many of the tumblers above the bound.
pub fn first_above(
    alloc: Global,
    tumblers: &[Tumbler],
    bound: &Tumbler,
    limit: u32,
) -> Result<List<Tumbler>, Memory>
    ensures items { IfOk result (λ made. made.items ≡ take limit (filter (λ tumbler. is_lt (slice_cmp nat_cmp bound.now tumbler)) tumblers.now)) }
    ensures valid { IfOk result (λ made. All IsTumbler made.items) }
{
    let mut made = List::new(alloc);
    for tumbler in tumblers {
        if bound < tumbler {
            push_tumbler(&mut made, tumbler)?;
        }
    }
    made.truncate(limit as usize);
    Ok(made)
}

/// Whether the set has the address. Most addresses are before the set's first one or behind its last, and are not searched for.
fn has_address(addresses: &BTreeSet<Tumbler>, address: &Tumbler) -> bool
    ensures { result ≡ is_in_set addresses.now address.now }
{
    let Some(first) = addresses.first() else {
        return false;
    };
    let Some(last) = addresses.last() else {
        return false;
    };
    if first > address || last < address {
        return false;
    }
    addresses.contains(address)
}

/// The documents in which some row has one of the addresses.
pub fn documents_showing(
    alloc: Global,
    rows: &[Row],
    addresses: &BTreeSet<Tumbler>,
) -> Result<BTreeSet<Tumbler>, Memory>
    ensures { IfOk result (λ set. IsSetShowing rows.now addresses.now set) }
{
    let mut shown = BTreeSet::new(alloc);
    for row in rows {
        if has_address(addresses, &row.address) {
            shown.insert(row.document.copy())?;
        }
    }
    Ok(shown)
}

/// Whether the account reads the document, and the set has it.
fn is_found(
    published: &[Tumbler],
    account: &Option<Tumbler>,
    shown: &BTreeSet<Tumbler>,
    document: &Tumbler,
) -> bool
    ensures { result ≡ (is_readable_by published.now account.now document.now && is_in_set shown.now document.now) }
{
    is_readable(published, account, document) && shown.contains(document)
}

/// Which of the documents the account reads and the set has, ascending.
pub fn documents_in(
    alloc: Global,
    documents: &[Tumbler],
    published: &[Tumbler],
    account: &Option<Tumbler>,
    shown: &BTreeSet<Tumbler>,
) -> Result<BTreeSet<Tumbler>, Memory>
    ensures { IfOk result (λ set. set.keys ≡ ascending (filter (λ document. is_readable_by published.now account.now document && is_in_set shown.now document) documents.now)) }
{
    let mut found = BTreeSet::new(alloc);
    for document in documents {
        if is_found(published, account, shown, document) {
            found.insert(document.copy())?;
        }
    }
    Ok(found)
}

/// The number behind the run's last byte.
fn number_behind(run: &Run) -> u64
    ensures { result ≡ run.now.first + run.now.length }
{
    u64::from(run.first) + u64::from(run.length)
}

/// Whether some byte is in both runs.
fn shares_byte(a: &Run, b: &Run) -> bool
    ensures { result ≡ shares_byte a.now b.now }
{
    let first = a.first.max(b.first);
    let end = number_behind(a).min(number_behind(b));
    a.content == b.content && u64::from(first) < end
}

/// Whether the run shares a byte with one of the others.
fn shares_with_any(run: &Run, others: &[Run]) -> bool
    ensures { result ≡ list_any (shares_byte run.now) others.now }
{
    others.iter().any(|other| shares_byte(run, other))
}

/// Whether a run of the one list shares a byte with one of the other.
fn share_bytes(picked: &[Run], runs: &[Run]) -> bool
    ensures { result ≡ share_bytes picked.now runs.now }
{
    picked.iter().any(|run| shares_with_any(run, runs))
}

/// Whether the end's runs share a byte with those that the specs pick, or there is no spec.
fn is_end_met(specs: &[Spec], picked: &[Run], runs: &[Run]) -> bool
    ensures { result ≡ is_end_met (map plain_spec specs.now) picked.now runs.now }
{
    specs.is_empty() || share_bytes(picked, runs)
}

/// Whether the address is in the span, whose end is an address.
fn is_in_span(span: &Span, address: &Tumbler) -> Result<bool, WorldError>
    ensures { IfOk result (λ inside. inside ≡ is_in_span span.now address.now) }
{
    let end = end_of(span)?;
    Ok(span.start.cmp(address).is_le() && address.cmp(&end).is_lt())
}

/// Whether the home is in some span, or there is no span.
fn is_home_wanted(homes: &[Span], home: &Tumbler) -> Result<bool, WorldError>
    ensures { IfOk result (λ wanted. wanted ≡ is_home_wanted homes.now home.now) }
{
    if homes.is_empty() {
        return Ok(true);
    }
    for span in homes {
        if is_in_span(span, home)? {
            return Ok(true);
        }
    }
    Ok(false)
}

/// Whether the link's home is wanted, and each end has a byte that is looked for there.
fn is_met(want: &Want, wanted: &WantedRuns, link: &LinkRow) -> Result<bool, WorldError>
    ensures { IfOk result (λ met. met ≡ is_met (plain_want want.now) wanted.now (plain_link link.now)) }
{
    if !is_home_wanted(want.homes.as_slice(), &link.home)? {
        return Ok(false);
    }
    let from = is_end_met(
        want.from.as_slice(),
        wanted.from.as_slice(),
        link.from.as_slice(),
    );
    let to = is_end_met(want.to.as_slice(), wanted.to.as_slice(), link.to.as_slice());
    let three = is_end_met(
        want.three.as_slice(),
        wanted.three.as_slice(),
        link.three.as_slice(),
    );
    Ok(from && to && three)
}

/// Whether the account reads the link's home, and the link is met.
fn is_met_by(
    published: &[Tumbler],
    account: &Option<Tumbler>,
    want: &Want,
    wanted: &WantedRuns,
    link: &LinkRow,
) -> Result<bool, WorldError>
    ensures { IfOk result (λ met. met ≡ is_met_by published.now account.now (plain_want want.now) wanted.now (plain_link link.now)) }
{
    if !is_readable(published, account, &link.home) {
        return Ok(false);
    }
    is_met(want, wanted, link)
}

/// How many of the links whose home the account reads are met.
#[tactic(auto, using(crate::proofs::Found::met_steps))]
pub fn count_met(
    published: &[Tumbler],
    account: &Option<Tumbler>,
    want: &Want,
    wanted: &WantedRuns,
    links: &[LinkRow],
) -> Result<u32, WorldError>
    ensures { IfOk result (λ count. count ≡ length (filter (is_met_by published.now account.now (plain_want want.now) wanted.now) (map plain_link links.now))) }
{
    let mut count: u32 = 0;
    for link in links {
        if is_met_by(published, account, want, wanted, link)? {
            count = count.checked_add(1).ok_or(WorldError::TooGreat)?;
        }
    }
    Ok(count)
}

/// The ids of these links, ascending.
#[tactic(auto, using(crate::proofs::Found::met_steps))]
pub fn ids_met(
    alloc: Global,
    published: &[Tumbler],
    account: &Option<Tumbler>,
    want: &Want,
    wanted: &WantedRuns,
    links: &[LinkRow],
) -> Result<BTreeSet<Tumbler>, WorldError>
    ensures { IfOk result (λ set. set.keys ≡ ascending (map (λ link. link.id) (filter (is_met_by published.now account.now (plain_want want.now) wanted.now) (map plain_link links.now)))) }
{
    let mut ids = BTreeSet::new(alloc);
    for link in links {
        if is_met_by(published, account, want, wanted, link)? {
            ids.insert(link.id.copy())?;
        }
    }
    Ok(ids)
}
