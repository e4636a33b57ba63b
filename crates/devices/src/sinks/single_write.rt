//! One write to a file or another output.

ghost use Rattle.std.specs.Io.KnownBytes.{WriteAppends};
ghost use Rattle.std.specs.Prelude.{◌<◌, ◌≤◌, length, IfOk};

use crate::sinks::sink::SinkFault;
use std::io::{ErrorKind, Write};

/// Writes the first of these bytes to `output` by one write, and returns the number that it took: at least one if there is one. Repeats a
/// write that a signal interrupts.
///
/// # Errors
///
/// The write failed, whatever the system's reason, or took no byte although there is one: the output is full. No byte was taken.
#[tactic(auto, using(crate::proofs::WriteFacts::appends_after, crate::proofs::WriteFacts::keeps_after_none, crate::proofs::WriteFacts::keeps_self, crate::proofs::WriteFacts::keeps_after))]
pub fn write_some<W: Write>(output: &mut W, bytes: &[u8]) -> Result<usize, SinkFault>
    ensures within { IfOk result (λ count. count ≤ length bytes.now) }
    ensures some { IfOk result (λ count. 0 < length bytes.now → 0 < count) }
    ensures takes { WriteAppends (W.contents output.old) (W.contents output.new) result bytes.now }
{
    for _ in 0..u64::MAX {
        match output.write(bytes) {
            Ok(0) if !bytes.is_empty() => return Err(SinkFault::new()),
            Ok(count) => return Ok(count),
            Err(error) if error.kind() == ErrorKind::Interrupted => {}
            Err(error) => return Err(SinkFault::of(&error)),
        }
    }
    Err(SinkFault::new())
}
