//! Where the three ends of links are now, as far as a session may read.
ghost use Rattle.std.specs.Prelude.{◌≡◌, ◌&&◌, filter, map, All, IfOk, Some};
ghost use Rattle.std.specs.List.{find, list_any};
ghost use Rattle.std.specs.Option.{option_map, option_copied};
ghost use Rattle.tumbler.specs.Span.{end_of};
ghost use Rattle.febe_data.specs.Plain.{plain_spec};
ghost use Rattle.world_rules.specs.World.{is_text_of, is_same, account_of_session};
ghost use Rattle.world_rules.specs.Readable.{is_readable_by};
ghost use Rattle.world_rules.specs.Picking.{is_within, content_of, number_of, is_in_run, places_of};
ghost use Rattle.flat_rows.specs.PlainLink.{plain_link};
ghost use Rattle.world_rules.specs.Finding.{link_at};
ghost use Rattle.world_rules.specs.Ends.{run_now, end_set, NamesSpans};
ghost use Rattle.world_rules.specs.Answers.{follow_of};
ghost use Rattle.flat_rows.specs.EndIndex.{is_indexed, indexed_of};

use crate::flat::FlatWorld;
use febe_data::{List, Memory, Run, Span, Spec, Tumbler};
use flat_rows::LinkRow;
use flat_rows::end_index::{Piece, end_index, is_indexed};
use flat_rows::intervals::intervals;
use flat_rows::runs::{content_of, number_of};
use flat_rows::search::{account_of_session, is_readable};
use std::alloc::Global;
use std::collections::BTreeMap;
use world_rules::{End, Row, WorldError};

/// Whether the address is one of the run's bytes.
pub(crate) fn is_in_run(address: &Tumbler, run: &Run) -> bool
    ensures { result ≡ is_in_run address.now run.now }
{
    let number = number_of(address);
    content_of(address) == run.content.places()
        && run.first <= number
        && number - run.first < run.length
}

/// Whether the row shows a byte of the run in its origin.
fn shows(row: &Row, run: &Run) -> bool
    ensures { result ≡ (is_text_of run.now.origin row.now && is_in_run row.now.address run.now) }
{
    row.is_text_of(&run.origin) && is_in_run(&row.address, run)
}

/// The positions at which the run's origin shows its bytes.
fn positions_of_run(alloc: Global, rows: &[Row], run: &Run) -> Result<List<u32>, Memory>
    ensures { IfOk result (λ made. made.items ≡ places_of (filter (λ row. is_text_of run.now.origin row && is_in_run row.address run.now) rows.now)) }
{
    let mut positions = List::new(alloc);
    for row in rows {
        if shows(row, run) {
            positions.push(row.n)?;
        }
    }
    Ok(positions)
}

/// The addresses from a start on that are before an end.
#[derive(Debug, Drop)]
struct Extent {
    start: Tumbler,
    end: Tumbler,
}

/// Where the spans start and end.
fn extents_of(alloc: Global, spans: &[Span]) -> Result<List<Extent>, WorldError>
    ensures { IfOk result (λ made. made.items ≡ map (λ span. record { start = span.start; end = end_of span }) spans.now) }
{
    let mut extents = List::new(alloc);
    for span in spans {
        if !span.fits() {
            return Err(WorldError::NoTumbler);
        }
        extents.push(Extent {
            start: span.start.copy(),
            end: span.start.add(&span.width),
        })?;
    }
    Ok(extents)
}

/// Whether one of them holds the row's V-address.
fn is_within_any(row: &Row, extents: &[Extent]) -> bool
    ensures { result ≡ list_any (λ extent. is_within extent.start extent.end row.now) extents.now }
{
    extents
        .iter()
        .any(|extent| row.is_within(&extent.start, &extent.end))
}

/// Whether some span of the spec picks the row from its document's text. The extents are those of the spans.
fn is_picked(row: &Row, document: &Tumbler, extents: &[Extent]) -> bool
    ensures { result ≡ (is_text_of document.now row.now && list_any (λ extent. is_within extent.start extent.end row.now) extents.now) }
{
    row.is_text_of(document) && is_within_any(row, extents)
}

/// Whether the row is picked and the index has its byte.
fn is_indexed_pick(
    alloc: Global,
    row: &Row,
    document: &Tumbler,
    extents: &[Extent],
    index: &BTreeMap<Tumbler, List<Piece>>,
) -> Result<bool, WorldError>
    ensures { IfOk result (λ found. found ≡ ((is_text_of document.now row.now && list_any (λ extent. is_within extent.start extent.end row.now) extents.now) && is_indexed index.now row.now.address)) }
{
    if !is_picked(row, document, extents) {
        return Ok(false);
    }
    is_indexed(alloc, index, &row.address)
}

/// The positions of the picked rows whose bytes the index has.
fn indexed_positions(
    alloc: Global,
    rows: &[Row],
    document: &Tumbler,
    extents: &[Extent],
    index: &BTreeMap<Tumbler, List<Piece>>,
) -> Result<List<u32>, WorldError>
    ensures { IfOk result (λ made. made.items ≡ places_of (filter (λ row. (is_text_of document.now row && list_any (λ extent. is_within extent.start extent.end row) extents.now) && is_indexed index.now row.address) rows.now)) }
{
    let mut positions = List::new(alloc);
    for row in rows {
        let found = is_indexed_pick(alloc, row, document, extents, index)?;
        if found {
            positions.push(row.n)?;
        }
    }
    Ok(positions)
}

/// The first link of that id whose home the account reads.
fn first_link<'a>(
    links: &'a [LinkRow],
    published: &[Tumbler],
    account: &Option<Tumbler>,
    id: &Tumbler,
) -> Option<&'a LinkRow>
    ensures { option_copied result ≡ find (λ link. is_readable_by published.now account.now link.home && is_same link.id id.now) links.now }
{
    links.iter().find(|link| is_readable(published, account, &link.home) && link.id == *id)
}

/// The runs whose origin the account reads, in their order.
#[tactic(auto, using(std::proofs::lemmas::List::Elements::filter_more))]
fn readable_runs(
    alloc: Global,
    published: &[Tumbler],
    account: &Option<Tumbler>,
    runs: &[Run],
) -> Result<List<Run>, Memory>
    ensures { IfOk result (λ made. made.items ≡ filter (λ run. is_readable_by published.now account.now run.origin) runs.now) }
{
    let mut made = List::new(alloc);
    for run in runs {
        if is_readable(published, account, &run.origin) {
            made.push(run.copy())?;
        }
    }
    Ok(made)
}

impl FlatWorld {
    /// The account that the session has set, if it has.
    pub(crate) fn account_of(&self, session: u64) -> Option<Tumbler>
        ensures { result ≡ account_of_session self.now.world session }
    {
        account_of_session(self.accounts.as_slice(), session)
    }

    /// The link of that id, where the account reads its home.
    fn link_for(&self, account: &Option<Tumbler>, id: &Tumbler) -> Option<&LinkRow>
        ensures { option_map plain_link (option_copied result) ≡ find (λ link. is_readable_by self.now.world.published account.now link.home && is_same link.id id.now) self.now.world.links }
    {
        let (links, published) = (self.links.as_slice(), self.published.as_slice());
        first_link(links, published, account, id)
    }

    /// The link of that id, where the session may read its home.
    pub(crate) fn link_at(&self, session: u64, id: &Tumbler) -> Option<&LinkRow>
        ensures { option_map plain_link (option_copied result) ≡ link_at self.now.world session id.now }
    {
        let account = self.account_of(session);
        self.link_for(&account, id)
    }

    /// Where the run's origin shows its bytes now.
    fn run_now(&self, alloc: Global, run: &Run) -> Result<Spec, WorldError>
        ensures value { IfOk result (λ spec. plain_spec spec ≡ run_now self.now.world run.now) }
        ensures valid { IfOk result (λ spec. NamesSpans (plain_spec spec)) }
    {
        let positions = positions_of_run(alloc, self.rows.as_slice(), run)?;
        let _ = run.origin.places();
        Ok(Spec {
            document: run.origin.copy(),
            spans: intervals(alloc, positions.as_slice())?,
        })
    }

    /// One spec for each run.
    fn runs_now(&self, alloc: Global, runs: &[Run]) -> Result<List<Spec>, WorldError>
        ensures value { IfOk result (λ made. map plain_spec made.items ≡ map (run_now self.now.world) runs.now) }
        ensures valid { IfOk result (λ made. All NamesSpans (map plain_spec made.items)) }
    {
        let mut specs = List::new(alloc);
        for run in runs {
            specs.push(self.run_now(alloc, run)?)?;
        }
        Ok(specs)
    }

    /// Which of the text that the spec picks the index has.
    fn indexed_of(
        &self,
        alloc: Global,
        index: &BTreeMap<Tumbler, List<Piece>>,
        spec: &Spec,
    ) -> Result<Spec, WorldError>
        ensures value { IfOk result (λ made. plain_spec made ≡ indexed_of self.now.world index.now (plain_spec spec.now)) }
        ensures valid { IfOk result (λ made. NamesSpans (plain_spec made)) }
    {
        let rows = self.rows.as_slice();
        let extents = extents_of(alloc, spec.spans.as_slice())?;
        let positions = indexed_positions(alloc, rows, &spec.document, extents.as_slice(), index)?;
        let _ = spec.document.places();
        Ok(Spec {
            document: spec.document.copy(),
            spans: intervals(alloc, positions.as_slice())?,
        })
    }

    /// One spec for each spec, by the index.
    fn indexed_specs(
        &self,
        alloc: Global,
        index: &BTreeMap<Tumbler, List<Piece>>,
        specs: &[Spec],
    ) -> Result<List<Spec>, WorldError>
        ensures value { IfOk result (λ made. map plain_spec made.items ≡ map (indexed_of self.now.world index.now) (map plain_spec specs.now)) }
        ensures valid { IfOk result (λ made. All NamesSpans (map plain_spec made.items)) }
    {
        let mut made = List::new(alloc);
        for spec in specs {
            made.push(self.indexed_of(alloc, index, spec)?)?;
        }
        Ok(made)
    }

    /// One spec for each spec: which of the text that it picks is in that end of some link whose home the session may read.
    pub(crate) fn specs_in_end(
        &self,
        alloc: Global,
        session: u64,
        end: End,
        specs: &[Spec],
    ) -> Result<List<Spec>, WorldError>
        ensures value { IfOk result (λ made. map plain_spec made.items ≡ end_set self.now.world session end (map plain_spec specs.now)) }
        ensures valid { IfOk result (λ made. All NamesSpans (map plain_spec made.items)) }
    {
        let account = self.account_of(session);
        let (links, published) = (self.links.as_slice(), self.published.as_slice());
        let index = end_index(alloc, links, published, &account, end)?;
        self.indexed_specs(alloc, &index, specs)
    }

    /// Where that end of the link is now, of its runs whose origin the session may read. Nothing where it finds no such link.
    pub(crate) fn end_specs(
        &self,
        alloc: Global,
        session: u64,
        id: &Tumbler,
        end: End,
    ) -> Result<List<Spec>, WorldError>
        ensures value { IfOk result (λ made. map plain_spec made.items ≡ follow_of self.now.world session (link_at self.now.world session id.now) (Some end)) }
        ensures valid { IfOk result (λ made. All NamesSpans (map plain_spec made.items)) }
    {
        let account = self.account_of(session);
        let Some(found) = self.link_for(&account, id) else {
            return Ok(List::new(alloc));
        };
        let published = self.published.as_slice();
        let runs = readable_runs(alloc, published, &account, found.runs(end))?;
        self.runs_now(alloc, runs.as_slice())
    }
}
