//! Writes a complete text to a sink.

ghost use Rattle.std.specs.Prelude.{ℕ, List, OnOk};
ghost use Rattle.devices.specs.sinks.Writes.{Writes, WritesOn};

use crate::sinks::sink::Sink;
use crate::sinks::slices::{LARGE, flush};
use crate::sinks::write_fault::WriteFault;
use std::alloc::Global;

/// A text that is written in parts.
pub trait Text {
    /// The complete text.
    ghost text: { Self → List ℕ };

    /// The facts that the types of its parts guarantee, known after it is written.
    ghost kept: { Self → Type 0 };

    /// Writes the text after the bytes that the buffer holds.
    fn write<S: Sink>(
        &self,
        alloc: Global,
        sink: &mut S,
        buffer: &mut Vec<u8>,
    ) -> Result<(), WriteFault>
        ensures writes { WritesOn (text self.now)
            buffer.old.items buffer.new.items (S.state sink.old) (S.state sink.new) result }
        ensures kept { OnOk result (kept self.now) };
}

/// Begins the sink and writes the text.
///
/// # Errors
///
/// The sink is unchanged, or it was begun and holds a prefix of the text.
///
/// - `SinkFault`: it refused a call.
/// - `OutOfMemory`: memory was refused.
#[tactic(auto, using(crate::proofs::Prefixes::cut_at_begin))]
pub fn write_text<S: Sink, T: Text>(alloc: Global, text: &T, sink: &mut S) -> Result<(), WriteFault>
    ensures writes { Writes (T.text text.now) (S.state sink.old) (S.state sink.new) result }
    ensures kept { OnOk result (T.kept text.now) }
{
    let mut buffer = Vec::with_capacity(alloc, 2 * LARGE)?;
    sink.begin()?;
    text.write(alloc, sink, &mut buffer)?;
    flush(sink, &mut buffer)?;
    Ok(())
}
