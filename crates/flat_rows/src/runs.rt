//! The runs of content that spec sets name.
ghost use Rattle.std.specs.Prelude.{◌≡◌, ◌++◌, map, IfOk, OnOk};
ghost use Rattle.febe_data.specs.Plain.{plain_spec};
ghost use Rattle.world_rules.specs.Picking.{content_of, number_of, is_next_byte, stretches, stretches_on, run_of, runs_of_span, runs_of_spec, runs_of};

use febe_data::{List, Run, Tumbler};
use std::alloc::Global;
use world_rules::WorldError;

/// The places of the document whose content byte the address is.
pub fn content_of(address: &Tumbler) -> &[u32]
    ensures { result.now ≡ content_of address.now }
{
    let places = address.places();
    places.split_at(places.len().saturating_sub(3)).0
}

/// The number of the content byte at the address.
pub fn number_of(address: &Tumbler) -> u32
    ensures { result ≡ number_of address.now }
{
    match address.places().last() {
        Some(number) => *number,
        None => 0,
    }
}

/// Whether the second address is the next byte of the same content.
fn is_next_byte(a: &Tumbler, b: &Tumbler) -> bool
    ensures { result ≡ is_next_byte a.now b.now }
{
    content_of(a) == content_of(b) && u64::from(number_of(b)) == u64::from(number_of(a)) + 1
}

/// The run of so many bytes from the first on, where its content is a tumbler.
fn run_of(alloc: Global, origin: &Tumbler, first: &Tumbler, count: u32) -> Result<Run, WorldError>
    ensures { IfOk result (λ run. run ≡ run_of origin.now (record { first = first.now; count = count })) }
{
    let content = Tumbler::from_places(alloc, content_of(first)).map_err(
        |_| WorldError::NoTumbler,
    )?;
    Ok(Run {
        origin: origin.copy(),
        content,
        first: number_of(first),
        length: count,
    })
}

/// Adds the runs of the first address and those that come after it.
fn push_runs_from(
    alloc: Global,
    made: &mut List<Run>,
    origin: &Tumbler,
    first: &Tumbler,
    rest: &[Tumbler],
) -> Result<(), WorldError>
    ensures { OnOk result (made.new.items ≡ made.old.items ++ map (run_of origin.now) (stretches_on is_next_byte first.now first.now 1 rest.now)) }
{
    let mut begin = first;
    let mut last = first;
    let mut count: u32 = 1;
    for address in rest {
        if is_next_byte(last, address) {
            count = count.checked_add(1).ok_or(WorldError::TooGreat)?;
        } else {
            made.push(run_of(alloc, origin, begin, count)?)?;
            begin = address;
            count = 1;
        }
        last = address;
    }
    made.push(run_of(alloc, origin, begin, count)?)?;
    Ok(())
}

/// Adds the runs of these addresses: as many bytes in each as follow each other.
pub fn push_runs(
    alloc: Global,
    made: &mut List<Run>,
    origin: &Tumbler,
    addresses: &[Tumbler],
) -> Result<(), WorldError>
    ensures { OnOk result (made.new.items ≡ made.old.items ++ map (run_of origin.now) (stretches is_next_byte addresses.now)) }
{
    let Some((first, rest)) = addresses.split_first() else {
        return Ok(());
    };
    push_runs_from(alloc, made, origin, first, rest)
}
