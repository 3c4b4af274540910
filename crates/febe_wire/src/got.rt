//! Reading a request from the start of bytes.
ghost use Rattle.std.specs.Prelude.{IfOk};
ghost use Rattle.febe_data.specs.Plain.{plain_request};
ghost use Rattle.febe_fields.specs.Prefixes.{HasSpelledPrefix};
ghost use Rattle.febe_wire.specs.Grammar.{IsSpelled};
ghost use Rattle.febe_wire.specs.Reads.{IsGot, IsRead, IsReadAtOnce};

use crate::request::request_at;
use crate::scan::RequestScanner;
use febe_data::bounds::MOST_ITEMS;
use febe_data::{Memory, Request};
use febe_fields::Scanned;
use std::alloc::Global;

/// What stands at the start of bytes.
#[derive(Debug, Drop)]
pub enum Got {
    /// A request, which so many bytes spell. What stands behind them was not looked at.
    Request { request: Request, used: usize },
    /// The bytes are a proper prefix of a request, and more of it has to come.
    More,
    /// The first bytes, so many, are a prefix of a request, and the byte behind them can't stand there.
    Bad { at: usize },
}

/// The request that a prefix of the first 65,536 bytes spells, and how many bytes it has. `None` where there is none.
///
/// Each byte of the request is looked at once, and none behind it. As few bytes as these spell no more spans than a
/// set may have, so that these are not counted.
pub fn read_at_once(alloc: Global, bytes: &[u8]) -> Result<Option<(Request, usize)>, Memory>
    ensures read { IfOk result (λ read. IsReadAtOnce bytes.now read) }
{
    let most = bytes.len().min(MOST_ITEMS as usize);
    let (first, _) = bytes.split_at(most);
    let Some((request, rest)) = request_at(alloc, first)? else {
        return Ok(None);
    };
    Ok(Some((request, most - rest.len())))
}

/// The request that the first bytes spell, so many.
pub fn read_spelled(alloc: Global, bytes: &[u8], used: usize) -> Result<Request, Memory>
    requires { HasSpelledPrefix IsSpelled bytes.now used }
    ensures read { IfOk result (λ request. IsRead bytes.now (plain_request request) used) }
{
    let Some((request, _)) = request_at(alloc, bytes)? else {
        unreachable!();
    };
    Ok(request)
}

/// The request in which the bytes begin. One that is short is read at once. Where that fails, for want of memory too,
/// the bytes are scanned, and read if they spell one. No rest is copied.
pub fn read_request(alloc: Global, bytes: &[u8]) -> Result<Got, Memory>
    ensures got { IfOk result (λ got. IsGot bytes.now got) }
{
    match read_at_once(alloc, bytes) {
        Ok(Some((request, used))) => Ok(Got::Request { request, used }),
        _ => read_scanned(alloc, bytes),
    }
}

/// The request in which the bytes begin, read where a scan says that it is whole.
fn read_scanned(alloc: Global, bytes: &[u8]) -> Result<Got, Memory>
    ensures got { IfOk result (λ got. IsGot bytes.now got) }
{
    let mut scanner = RequestScanner::Start;
    match scanner.scan(bytes) {
        Scanned::Incomplete => Ok(Got::More),
        Scanned::Bad { at } => Ok(Got::Bad { at }),
        Scanned::Complete { used } => {
            let request = read_spelled(alloc, bytes, used)?;
            Ok(Got::Request { request, used })
        }
    }
}
