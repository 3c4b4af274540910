//! Whether the runs of links are runs that a link may have.
ghost use Rattle.std.specs.Prelude.{◌↔◌, All, map, IsTrue};
ghost use Rattle.page_tables.specs.Plain.{plain_link};
ghost use Rattle.table_checks.specs.Sound.{IsLinkRun, HasLinkRuns};

use febe_data::Run;
use page_tables::TableLink;

fn is_run(run: &Run) -> bool
    ensures { IsTrue result ↔ IsLinkRun run.now }
{
    if run.first == 0 || run.length == 0 {
        return false;
    }
    if run.first.checked_add(run.length).is_none() {
        return false;
    }
    run.content.is_document()
}

fn are_runs(runs: &[Run]) -> bool
    ensures { IsTrue result ↔ All IsLinkRun runs.now }
{
    for run in runs {
        if !is_run(run) {
            return false;
        }
    }
    true
}

fn has_runs(link: &TableLink) -> bool
    ensures { IsTrue result ↔ HasLinkRuns (plain_link link.now) }
{
    if !are_runs(link.from.as_slice()) {
        return false;
    }
    if !are_runs(link.to.as_slice()) {
        return false;
    }
    are_runs(link.three.as_slice())
}

/// Whether each run of each link is one that a link may have.
pub(crate) fn have_runs(links: &[TableLink]) -> bool
    ensures { IsTrue result ↔ All HasLinkRuns (map plain_link links.now) }
{
    for link in links {
        if !has_runs(link) {
            return false;
        }
    }
    true
}
