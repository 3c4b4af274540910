//! Reading the entries in a log's bytes, of either format.
ghost use Rattle.std.specs.Prelude.{IfOk};
ghost use Rattle.edit_log.specs.inside.Scan.{IsDecodedAs, StepsOver, HasScanned};

use entry_codec::{LogFormat, Logged, decode, decode_old, split_body};
use febe_data::{List, Memory};
use std::alloc::Global;

/// How many entries a log has at most.
const MOST_ENTRIES: usize = 4_194_304;

/// What stands at a gate.
#[derive(Debug, Drop)]
pub(crate) enum AtGate {
    /// The log ends here.
    End,
    /// The gate is open, and what stands behind it is no entry.
    Damaged,
    /// An entry and its moment, and how many bytes its gate and its body have.
    Row { row: Logged, length: usize },
}

/// The entry and the moment whose body of this format the bytes are, if they are one. The old format has no moments: 0
/// stands for them.
fn decode_as(alloc: Global, format: LogFormat, bytes: &[u8]) -> Result<Option<Logged>, Memory>
    ensures { IfOk result (λ row. IsDecodedAs format bytes.now row) }
{
    match format {
        LogFormat::Old => {
            let Some(entry) = decode_old(alloc, bytes)? else {
                return Ok(None);
            };
            Ok(Some(Logged { entry, moment: 0 }))
        }
        LogFormat::New => decode(alloc, bytes),
    }
}

/// Reads the gate in front of these bytes and the body behind it, where there are so many entries before it.
fn read_gate(alloc: Global, format: LogFormat, rest: &[u8], count: usize) -> Result<AtGate, Memory>
    ensures { IfOk result (λ found. StepsOver format count rest.now found) }
{
    let Some((gate, behind)) = rest.split_first() else {
        return Ok(AtGate::End);
    };
    if *gate != 1 || behind.is_empty() {
        return Ok(AtGate::End);
    }
    if count >= MOST_ENTRIES {
        return Ok(AtGate::Damaged);
    }
    let Some((body, _)) = split_body(format, behind) else {
        return Ok(AtGate::Damaged);
    };
    let Some(row) = decode_as(alloc, format, body)? else {
        return Ok(AtGate::Damaged);
    };
    Ok(AtGate::Row {
        row,
        length: 1 + body.len(),
    })
}

/// What a log's bytes have.
#[derive(Debug, Drop)]
pub(crate) enum Scanned {
    /// These entries with their moments, and behind them the end, at this place.
    Ends { at: usize, rows: List<Logged> },
    /// What stands behind the gate at this place is no entry.
    Damaged { at: usize },
}

/// Reads the entries in the bytes of a log of this format.
pub(crate) fn scan(alloc: Global, format: LogFormat, bytes: &[u8]) -> Result<Scanned, Memory>
    ensures { IfOk result (λ scanned. HasScanned format bytes.now scanned) }
{
    let mut rows = List::new(alloc);
    let mut at = 0;
    loop {
        let (_, rest) = bytes.split_at(at);
        match read_gate(alloc, format, rest, rows.len())? {
            AtGate::End => return Ok(Scanned::Ends { at, rows }),
            AtGate::Damaged => return Ok(Scanned::Damaged { at }),
            AtGate::Row { row, length } => {
                rows.push(row)?;
                at += length;
            }
        }
    }
}
