//! Choosing pages that no header reaches.
ghost use Rattle.std.specs.Prelude.{◌≡◌, ℕ, ◌<◌, ◌≤◌, true, IfOk, OnOk};
ghost use Rattle.page_chains.specs.Chains.{is_in};
ghost use Rattle.page_flush.specs.inside.Fresh.{IsFresh, AreChosen};

use crate::spared::Spared;
use febe_data::{List, Memory};

/// Page numbers are below this one.
pub(crate) const NUMBERS: u64 = 1 << 40;

/// The lowest page from this number on that is not spared. There is no memory for a page past the last one.
fn next_fresh(spared: &Spared, from: u64) -> Result<u64, Memory>
    ensures fresh { IfOk result (λ number. IsFresh spared.now from number) }
    ensures lowest { IfOk result (λ number. (k : ℕ) → from ≤ k → k < number → is_in k spared.now ≡ true) }
{
    for number in from..NUMBERS {
        if !spared.has(number) {
            return Ok(number);
        }
    }
    Err(Memory)
}

/// Adds so many pages that are not spared, the lowest ones from the next number on. The next number stands behind them
/// then.
///
/// Each number is looked at once, so that for n pages the time goes by n log n.
pub(crate) fn choose(
    spared: &Spared,
    next: &mut u64,
    count: usize,
    numbers: &mut List<u64>,
) -> Result<(), Memory>
    ensures { OnOk result (AreChosen spared.now next.old next.new count numbers.old.items numbers.new.items) }
{
    for _ in 0..count {
        let number = next_fresh(spared, *next)?;
        numbers.push(number)?;
        *next = number + 1;
    }
    Ok(())
}
