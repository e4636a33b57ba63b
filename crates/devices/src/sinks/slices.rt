//! Writes large slices to a sink.

ghost use Rattle.std.specs.Prelude.{◌≡◌, [], OnOk, OnErr};
ghost use Rattle.devices.specs.sinks.SinkSteps.{IsAppended, IsAppendCut};
ghost use Rattle.devices.specs.sinks.Writes.{HasRoom};

use crate::sinks::sink::{Sink, SinkFault};

/// The number of bytes that are collected before a put.
pub const LARGE: usize = 65_536;

/// Puts all the bytes, in the number of calls that the sink needs. If the device fails, the sink has taken a prefix of them.
pub fn put_all<S: Sink>(sink: &mut S, bytes: &[u8]) -> Result<(), SinkFault>
    ensures written { OnOk result
        (IsAppended bytes.now [] [] (S.state sink.old) (S.state sink.new)) }
    ensures refused { OnErr result
        (IsAppendCut 1 bytes.now [] (S.state sink.old) (S.state sink.new)) }
{
    let mut rest = bytes;
    while !rest.is_empty() {
        let (_, remaining) = rest.split_at(sink.put(rest)?);
        rest = remaining;
    }
    Ok(())
}

/// Puts the buffer and empties it. If the device fails, the sink has taken a prefix of it.
pub fn flush<S: Sink>(sink: &mut S, buffer: &mut Vec<u8>) -> Result<(), SinkFault>
    ensures written { OnOk result
        (IsAppended [] buffer.old.items buffer.new.items (S.state sink.old) (S.state sink.new)) }
    ensures empty { OnOk result (buffer.new.items ≡ []) }
    ensures refused { OnErr result
        (IsAppendCut 1 [] buffer.old.items (S.state sink.old) (S.state sink.new)) }
{
    put_all(sink, buffer.as_slice())?;
    buffer.clear();
    Ok(())
}

/// Puts the buffer and empties it, if it is full. If the device fails, the sink has taken a prefix of it.
#[tactic(auto, using(crate::proofs::Prefixes::buffered))]
pub fn flush_full<S: Sink>(sink: &mut S, buffer: &mut Vec<u8>) -> Result<(), SinkFault>
    ensures written { OnOk result
        (IsAppended [] buffer.old.items buffer.new.items (S.state sink.old) (S.state sink.new)) }
    ensures room { OnOk result (HasRoom buffer.new.items) }
    ensures refused { OnErr result
        (IsAppendCut 1 [] buffer.old.items (S.state sink.old) (S.state sink.new)) }
{
    if buffer.len() >= LARGE {
        flush(sink, buffer)?;
    }
    Ok(())
}
