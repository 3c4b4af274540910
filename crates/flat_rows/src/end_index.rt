//! The bytes that are in an end of some link that is read, by the documents whose content they are.
ghost use Rattle.std.specs.Prelude.{◌≡◌, IfOk, OnOk, None};
ghost use Rattle.std.specs.List.{list_any};
ghost use Rattle.std.specs.BTreeMap.{Updates};
ghost use Rattle.std.specs.Ordering.{nat_cmp};
ghost use Rattle.std.specs.Cmp.Lexicographic.{slice_cmp};
ghost use Rattle.flat_rows.specs.PlainLink.{plain_link};
ghost use Rattle.world_rules.specs.Picking.{is_in_run, is_in_runs};
ghost use Rattle.flat_rows.specs.EndIndex.{is_in_piece, pieces_of, is_indexed, is_in_end_by, Indexes, IndexesMore};

use crate::links::LinkRow;
use crate::runs::{content_of, number_of};
use crate::search::is_readable;
use febe_data::{List, Memory, Run, Tumbler};
use std::alloc::Global;
use std::collections::BTreeMap;
use world_rules::{End, WorldError};

/// Bytes of one document's content that follow each other.
#[derive(Clone, Copy, Debug)]
pub struct Piece {
    /// The number of the first byte.
    pub first: u32,
    /// The number of bytes.
    pub length: u32,
}

impl Piece {
    fn has(self, number: u32) -> bool
        ensures { result ≡ is_in_piece number self }
    {
        self.first <= number && number - self.first < self.length
    }
}

/// The pieces of the document's content, which leave the index.
fn take_pieces(
    alloc: Global,
    index: &mut BTreeMap<Tumbler, List<Piece>>,
    content: &Tumbler,
) -> List<Piece>
    ensures items { result.items ≡ pieces_of index.old content.now }
    ensures updates { Updates (slice_cmp nat_cmp) index.old index.new content.now None }
{
    match index.remove(content) {
        Some(pieces) => pieces,
        None => List::new(alloc),
    }
}

/// Adds the bytes of a run.
fn add_run(
    alloc: Global,
    index: &mut BTreeMap<Tumbler, List<Piece>>,
    run: &Run,
) -> Result<(), Memory>
    ensures { OnOk result (IndexesMore (λ address. is_in_run address run.now) index.old index.new) }
{
    let mut pieces = take_pieces(alloc, index, &run.content);
    pieces.push(Piece {
        first: run.first,
        length: run.length,
    })?;
    index.insert(run.content.copy(), pieces)?;
    Ok(())
}

/// Adds the bytes of the runs.
fn add_runs(
    alloc: Global,
    index: &mut BTreeMap<Tumbler, List<Piece>>,
    runs: &[Run],
) -> Result<(), Memory>
    ensures { OnOk result (IndexesMore (is_in_runs runs.now) index.old index.new) }
{
    for run in runs {
        add_run(alloc, index, run)?;
    }
    Ok(())
}

#[tactic(auto, using(crate::proofs::Indexed::end_steps))]
/// Adds the bytes of that end, where the account reads the link's home.
fn add_end(
    alloc: Global,
    index: &mut BTreeMap<Tumbler, List<Piece>>,
    published: &[Tumbler],
    account: &Option<Tumbler>,
    link: &LinkRow,
    end: End,
) -> Result<(), Memory>
    ensures { OnOk result (IndexesMore (is_in_end_by published.now account.now end (plain_link link.now)) index.old index.new) }
{
    if !is_readable(published, account, &link.home) {
        return Ok(());
    }
    add_runs(alloc, index, link.runs(end))
}

/// The bytes that are in that end of some link whose home the account reads.
pub fn end_index(
    alloc: Global,
    links: &[LinkRow],
    published: &[Tumbler],
    account: &Option<Tumbler>,
    end: End,
) -> Result<BTreeMap<Tumbler, List<Piece>>, Memory>
    ensures { IfOk result (Indexes (λ address. list_any (λ link. is_in_end_by published.now account.now end (plain_link link) address) links.now)) }
{
    let mut index = BTreeMap::new(alloc);
    for link in links {
        add_end(alloc, &mut index, published, account, link, end)?;
    }
    Ok(index)
}

fn has_number(pieces: &[Piece], number: u32) -> bool
    ensures { result ≡ list_any (is_in_piece number) pieces.now }
{
    pieces.iter().any(|piece| piece.has(number))
}

/// Whether the index has the byte of the address.
pub fn is_indexed(
    alloc: Global,
    index: &BTreeMap<Tumbler, List<Piece>>,
    address: &Tumbler,
) -> Result<bool, WorldError>
    ensures { IfOk result (λ found. found ≡ is_indexed index.now address.now) }
{
    let content = Tumbler::from_places(alloc, content_of(address)).map_err(
        |_| WorldError::NoTumbler,
    )?;
    let Some(pieces) = index.get(&content) else {
        return Ok(false);
    };
    Ok(has_number(pieces.as_slice(), number_of(address)))
}
