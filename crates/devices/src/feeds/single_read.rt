//! One read of a file or another input.

ghost use Rattle.std.specs.Io.KnownBytes.{ReadConsumes};
ghost use Rattle.std.specs.Prelude.{◌≤◌, length, IfOk};

use crate::feeds::feed::FeedFault;
use std::io::{ErrorKind, Read};

/// Writes the bytes of one read of `input` to the start of `buffer`, and returns their number: at most the buffer's length,
/// and perhaps fewer than are left. Repeats a read that a signal interrupts. For a buffer that is not empty, 0 means that
/// no byte is left.
///
/// # Errors
///
/// The read failed, whatever the system's reason. No byte was taken from the input. The contents of the buffer are
/// unspecified.
pub fn read_some<R: Read>(input: &mut R, buffer: &mut [u8]) -> Result<usize, FeedFault>
    ensures within { IfOk result (λ count. count ≤ length buffer.old) }
    ensures reads { ReadConsumes (R.remaining input.old) (R.remaining input.new) result buffer.new }
{
    for _ in 0..u64::MAX {
        match input.read(buffer) {
            Ok(count) => return Ok(count),
            Err(error) if error.kind() == ErrorKind::Interrupted => {}
            Err(error) => return Err(FeedFault::of(&error)),
        }
    }
    Err(FeedFault::new())
}
