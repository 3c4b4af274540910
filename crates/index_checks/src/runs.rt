//! The rows that an index has for the runs at one end of links.
ghost use Rattle.std.specs.Prelude.{◌≡◌, ◌↔◌, ◌++◌, map, All, IsTrue, IfOk, IfSome, IfNone};
ghost use Rattle.std.specs.List.{flat_map};
ghost use Rattle.spanfilade.specs.Index.{row_of, rows_for};
ghost use Rattle.links.specs.LinkLists.{plain_link, run_span, runs_at, rows_at};
ghost use Rattle.index_checks.specs.inside.Addressed.{HasAddress, HaveAddresses};

use enfilade_core::Row;
use febe_data::Run;
use links::LinkRow;
use tumbler::{Memory, Tumbler};

/// The row of a run for a key, if the run's bytes have addresses.
fn run_row(run: &Run, key: &Tumbler) -> Option<Row<Tumbler>>
    ensures made { IfSome result (λ row. row ≡ row_of (run_span run.now) key.now) }
    ensures addressed { IfSome result (λ row. HasAddress run.now) }
    ensures none { IfNone result (¬ HasAddress run.now) }
{
    let Ok(first) = run.content.extended(&[0, 1, run.first]) else {
        return None;
    };
    let leaf = Tumbler::width(first.allocator(), first.places().len(), run.length);
    Some(Row {
        first,
        second: key.copy(),
        leaf,
    })
}

/// Adds the rows of runs for a key, and tells whether all of their bytes have addresses. Where some have not, only rows of
/// runs before them come in.
fn append_runs(runs: &[Run], key: &Tumbler, into: &mut Vec<Row<Tumbler>>) -> Result<bool, Memory>
    ensures told { IfOk result (λ all. IsTrue all ↔ All HasAddress runs.now) }
    ensures rows { IfOk result (λ all. IsTrue all → into.new.items ≡ into.old.items ++ rows_for (map run_span runs.now) key.now) }
{
    for run in runs {
        let Some(row) = run_row(run, key) else {
            return Ok(false);
        };
        into.push(row)?;
    }
    Ok(true)
}

/// The runs at an end of a link: 1, 2, or 3 for any other number.
fn runs_at(end: u32, link: &LinkRow) -> &[Run]
    ensures { result.now ≡ runs_at end (plain_link link.now) }
{
    match end {
        1 => link.from.as_slice(),
        2 => link.to.as_slice(),
        _ => link.three.as_slice(),
    }
}

/// Adds the rows of the runs at an end of links, and tells whether all of their bytes have addresses. Where some have not,
/// only rows of runs before them come in.
pub(crate) fn append_links(
    end: u32,
    links: &[LinkRow],
    into: &mut Vec<Row<Tumbler>>,
) -> Result<bool, Memory>
    ensures told { IfOk result (λ all. IsTrue all ↔ All (HaveAddresses end) (map plain_link links.now)) }
    ensures rows { IfOk result (λ all. IsTrue all → into.new.items ≡ into.old.items ++ flat_map (rows_at end) (map plain_link links.now)) }
{
    for link in links {
        if !append_runs(runs_at(end, link), &link.id, into)? {
            return Ok(false);
        }
    }
    Ok(true)
}
