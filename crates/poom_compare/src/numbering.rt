//! Bytes of content as numbers.
ghost use Rattle.std.specs.Prelude.{◌≡◌, All, IfOk, OnOk};
ghost use Rattle.poom_compare.specs.Placed.{AreNumbers, AreStretchesOf, HasNumber, IsPlaced, KeepsNumbers, number_in};

use crate::placing::Placed;
use crate::stretch::Stretch;
use std::alloc::Global;
use std::collections::BTreeMap;
use tumbler::{Memory, Tumbler};

/// The most contents that are numbered. So many are in no memory.
const MOST_CONTENTS: usize = 1_073_741_823;

/// How many bytes a content may have, so that those of the next one have numbers behind it.
const BYTES: u64 = 4_294_967_296;

/// The number of a document's content, or 0 where it has none yet.
fn number_in(numbers: &BTreeMap<Tumbler, u32>, document: &Tumbler) -> u32
    ensures { result ≡ number_in numbers.now document.now }
{
    match numbers.get(document) {
        Some(number) => *number,
        None => 0,
    }
}

/// The number of a document's content: the next one where it has none yet.
fn number(numbers: &mut BTreeMap<Tumbler, u32>, document: &Tumbler) -> Result<u32, Memory>
    requires { AreNumbers numbers.old }
    ensures numbers { OnOk result (AreNumbers numbers.new) }
    ensures keeps { OnOk result (KeepsNumbers numbers.old numbers.new) }
    ensures has { OnOk result (HasNumber numbers.new document.now) }
    ensures number { IfOk result (λ number. number ≡ number_in numbers.new document.now) }
{
    let number = number_in(numbers, document);
    if number != 0 {
        return Ok(number);
    }
    let count = numbers.len();
    if MOST_CONTENTS <= count {
        return Err(Memory);
    }
    let next = count as u32 + 1;
    numbers.insert(document.copy(), next)?;
    Ok(next)
}

/// The runs with their bytes as numbers.
pub(crate) fn numbered(
    alloc: Global,
    numbers: &mut BTreeMap<Tumbler, u32>,
    placed: &[Placed],
) -> Result<Vec<Stretch>, Memory>
    requires numbers { AreNumbers numbers.old }
    requires placed { All IsPlaced placed.now }
    ensures numbers { OnOk result (AreNumbers numbers.new) }
    ensures keeps { OnOk result (KeepsNumbers numbers.old numbers.new) }
    ensures stretches { IfOk result (λ made. AreStretchesOf numbers.new placed.now made.items) }
{
    let mut made = Vec::new(alloc);
    for run in placed {
        let number = number(numbers, &run.document)?;
        made.push(Stretch {
            at: run.at,
            first: u64::from(number) * BYTES + u64::from(run.first),
            length: run.length,
        })?;
    }
    Ok(made)
}
