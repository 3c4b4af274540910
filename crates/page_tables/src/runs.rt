//! Runs, and lists of them.
ghost use Rattle.std.specs.Prelude.{◌≡◌, ◌++◌, All, OnOk};
ghost use Rattle.std.specs.List.{flat_map};
ghost use Rattle.febe_fields.specs.Reading.{Reads, ReadsIfOk, many_at};
ghost use Rattle.disk_fields.specs.Format.{AreCounted};
ghost use Rattle.disk_fields.specs.Reading.{made_at, both_at, counted_at};
ghost use Rattle.page_tables.specs.TableBytes.{run_bytes, runs_bytes, IsRun};
ghost use Rattle.page_tables.specs.TableReading.{run_at, runs_at};

use crate::counts::append_count;
use disk_fields::{append_tumbler, append_u32, tumbler_at, u32_at};
use febe_data::Run;
use std::alloc::Global;
use tumbler::{List, Memory, Text};

fn append_run(out: &mut Text, run: &Run) -> Result<(), Memory>
    ensures spelled { OnOk result (out.new.items ≡ out.old.items ++ run_bytes run.now) }
    ensures right { OnOk result (IsRun run.now) }
{
    let _origin = run.origin.places();
    let _content = run.content.places();
    append_tumbler(out, &run.origin)?;
    append_tumbler(out, &run.content)?;
    append_u32(out, run.first)?;
    append_u32(out, run.length)
}

fn append_each_run(out: &mut Text, runs: &[Run]) -> Result<(), Memory>
    ensures spelled { OnOk result (out.new.items ≡ out.old.items ++ flat_map run_bytes runs.now) }
    ensures right { OnOk result (All IsRun runs.now) }
{
    for run in runs {
        append_run(out, run)?;
    }
    Ok(())
}

/// How many runs there are, and the runs.
pub(crate) fn append_runs(out: &mut Text, runs: &[Run]) -> Result<(), Memory>
    ensures spelled { OnOk result (out.new.items ≡ out.old.items ++ runs_bytes runs.now) }
    ensures right { OnOk result (AreCounted IsRun runs.now) }
{
    append_count(out, runs.len())?;
    append_each_run(out, runs)
}

#[tactic(auto, unfolding(crate::specs::TableReading::run_at, disk_fields::specs::Reading::made_at, disk_fields::specs::Reading::both_at))]
fn run_at(alloc: Global, bytes: &[u8]) -> Option<(Run, &[u8])>
    ensures { Reads (λ x. (x.0, x.1.now)) result (run_at bytes.now) }
{
    let Some((origin, rest)) = tumbler_at(alloc, bytes) else {
        return None;
    };
    let Some((content, rest)) = tumbler_at(alloc, rest) else {
        return None;
    };
    let Some((first, rest)) = u32_at(rest) else {
        return None;
    };
    let Some((length, rest)) = u32_at(rest) else {
        return None;
    };
    Some((
        Run {
            origin,
            content,
            first,
            length,
        },
        rest,
    ))
}

/// This many runs. Memory is taken for those that are there, whatever number was asked for.
fn many_runs_at(
    alloc: Global,
    count: u32,
    bytes: &[u8],
) -> Result<Option<(List<Run>, &[u8])>, Memory>
    ensures { ReadsIfOk (λ x. (x.0.items, x.1.now)) result (many_at run_at count bytes.now) }
{
    let mut runs = List::new(alloc);
    let mut rest = bytes;
    for _ in 0..count {
        let Some((run, behind)) = run_at(alloc, rest) else {
            return Ok(None);
        };
        runs.reserve(1)?;
        runs.push_reserved(run);
        rest = behind;
    }
    Ok(Some((runs, rest)))
}

/// How many runs there are, and the runs.
#[tactic(auto, unfolding(disk_fields::specs::Reading::counted_at))]
pub(crate) fn runs_at(alloc: Global, bytes: &[u8]) -> Result<Option<(List<Run>, &[u8])>, Memory>
    ensures { ReadsIfOk (λ x. (x.0.items, x.1.now)) result (runs_at bytes.now) }
{
    let Some((count, rest)) = u32_at(bytes) else {
        return Ok(None);
    };
    many_runs_at(alloc, count, rest)
}
