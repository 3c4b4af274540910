//! Writing to a sink.
ghost use Rattle.std.specs.Prelude.{◌≡◌, ◌≢◌};
ghost use Rattle.febe_data.specs.Plain.{plain_reply};
ghost use Rattle.febe_data.specs.Validity.{IsReply};
ghost use Rattle.febe_reply.specs.ReplyGrammar.{spell_reply};
ghost use Rattle.green_session.specs.Putting.{IsPut};
ghost use Rattle.green_session.specs.declared.put.Put.TheVariants.{Memory};

use febe_data::Reply;
use febe_reply::reply_parts;
use green_io::{Sink, WriteAnswer};
use std::alloc::Global;

/// Whether all was written.
#[derive(Clone, Copy, Debug, PartialEq, Eq)]
pub enum Put {
    Done,
    /// The sink failed. A prefix of the bytes may have been written, but not all of them.
    WriteFault,
    /// There was no memory for the bytes, and nothing was written.
    Memory,
}

/// Writes the bytes, up to a write that fails. It takes no memory.
#[tactic(auto, using(crate::proofs::Known::known))]
pub fn put_bytes<K: Sink>(sink: &mut K, bytes: &[u8]) -> Put
    ensures put { IsPut (K.taken sink.old) (K.taken sink.new) (K.fault_count sink.old) (K.fault_count sink.new) bytes.now result }
    ensures no_memory { result ≢ Memory }
{
    let mut at = 0;
    'writing: while at < bytes.len() {
        match sink.write(bytes.split_at(at).1) {
            WriteAnswer::Took(n) => at += n,
            WriteAnswer::Failed => return Put::WriteFault,
        }
    }
    Put::Done
}

/// Writes the reply's bytes.
pub fn put_reply<K: Sink>(alloc: Global, sink: &mut K, reply: &Reply) -> Put
    requires { IsReply (plain_reply reply.now) }
    ensures put { IsPut (K.taken sink.old) (K.taken sink.new) (K.fault_count sink.old) (K.fault_count sink.new) (spell_reply (plain_reply reply.now)) result }
{
    let Ok(parts) = reply_parts(alloc, reply) else {
        return Put::Memory;
    };
    match put_bytes(sink, parts.head.as_slice()) {
        Put::Done => put_bytes(sink, parts.text),
        short => short,
    }
}
