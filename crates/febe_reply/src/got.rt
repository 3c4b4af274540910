//! Reading a reply from the start of bytes.
ghost use Rattle.std.specs.Prelude.{IfOk};
ghost use Rattle.febe_reply.specs.Reads.{IsGotReply};

use crate::replies::reply_at;
use crate::scan::ReplyScanner;
use febe_data::{Memory, Reply};
use febe_fields::Scanned;
use std::alloc::Global;

/// What stands at the start of bytes.
#[derive(Debug, Drop)]
pub enum GotReply {
    /// A reply, which so many bytes spell. What stands behind them was not looked at.
    Reply { reply: Reply, used: usize },
    /// The bytes are a proper prefix of a reply, and more of it has to come.
    More,
    /// The first bytes, so many, are a prefix of a reply, and the byte behind them can't stand there.
    Bad { at: usize },
}

/// The reply in which the bytes begin. Each byte is looked at twice at most, and no rest is copied. `Err` where
/// memory for the reply runs out.
pub fn read_reply(alloc: Global, bytes: &[u8]) -> Result<GotReply, Memory>
    ensures got { IfOk result (λ got. IsGotReply bytes.now got) }
{
    match ReplyScanner::Start.scan(bytes) {
        Scanned::Incomplete => Ok(GotReply::More),
        Scanned::Bad { at } => Ok(GotReply::Bad { at }),
        Scanned::Complete { used } => {
            let Some((reply, _)) = reply_at(alloc, bytes)? else {
                unreachable!();
            };
            Ok(GotReply::Reply { reply, used })
        }
    }
}
