//! Writes lines part by part, in large slices to a sink.

ghost use Rattle.std.specs.Prelude.{◌≡◌, ◌+◌, ◌<◌, ◌≤◌, ℕ, List, ◌∷◌, ◌++◌, length, drop, IfOk, IfErr, OnOk};
ghost use Rattle.std.specs.List.{concat};
ghost use Rattle.minelib_lines.specs.Lines.{text_of};
ghost use Rattle.minelib_writing.specs.inner.KeptParts.{HoldsFrom};
ghost use Rattle.minelib_writing.specs.inner.Parts.{text_from};
ghost use Rattle.minelib_writing.specs.declared.parts.TheConstants.{MOST_AT_ONCE};
ghost use Rattle.devices.specs.sinks.SinkSteps.{refusals, IsAppendCut};
ghost use Rattle.devices.specs.sinks.Writes.{IsWrittenOn, WritesOn};

use crate::fields::append_text;
use devices::sinks::sink::Sink;
use devices::sinks::slices::flush_full;
use devices::sinks::write_fault::WriteFault;
use pit_units::scratch::{SCRATCH, Scratch};
use std::alloc::AllocError;

/// The largest number of parts that are appended at once: a buffer that is not full has the capacity for them.
pub const MOST_AT_ONCE: usize = 512;

/// Lines that are written part by part: the text of a part is zero or more lines.
pub trait Parted {
    ghost lines: { Self → List (List ℕ) };

    ghost parts: { Self → List (List ℕ) };

    /// The facts that its type guarantees for the part at a position, known after the part is written.
    ghost kept: { Self → ℕ → Type 0 };

    /// The number of parts.
    fn len(&self) -> usize
        ensures { result ≡ length (parts self.now) };

    /// Appends the part at `index`, and perhaps some after it, and returns their number, at most `MOST_AT_ONCE`. If memory is refused, a
    /// prefix of their text may be appended. The scratch buffer is for their lines.
    fn append(
        &self,
        index: usize,
        out: &mut Vec<u8>,
        scratch: &mut Scratch,
    ) -> Result<usize, AllocError>
        requires { index < length (parts self.now) }
        ensures some { IfOk result (λ n. 0 < n) }
        ensures within { IfOk result (λ n. index + n ≤ length (parts self.now)) }
        ensures few { IfOk result (λ n. n ≤ MOST_AT_ONCE) }
        ensures appended { IfOk result (λ n.
            out.new.items ≡ out.old.items ++ text_from (parts self.now) index n) }
        ensures kept { IfOk result (λ n. HoldsFrom (kept self.now) index (index + n)) };

    /// The parts are the lines, each with its LF.
    ghost whole: { (parted : Self) → concat (parts parted) ≡ text_of (lines parted) };
}

/// Writes the lines after the bytes that the buffer holds.
pub fn write_parts<S: Sink, L: Parted>(
    sink: &mut S,
    buffer: &mut Vec<u8>,
    parted: &L,
) -> Result<(), WriteFault>
    ensures writes { WritesOn (text_of (L.lines parted.now))
        buffer.old.items buffer.new.items (S.state sink.old) (S.state sink.new) result }
    ensures kept { OnOk result
        (HoldsFrom (L.kept parted.now) 0 (length (L.parts parted.now))) }
{
    let mut scratch = [0; SCRATCH];
    let mut index = 0;
    while index < parted.len() {
        let count = write_some(sink, buffer, parted, index, &mut scratch)?;
        index += count;
    }
    Ok(())
}

// Writes one part or more, and returns their number.
#[tactic(auto, using(crate::proofs::SectionsWritten::nothing_put))]
fn write_some<S: Sink, L: Parted>(
    sink: &mut S,
    buffer: &mut Vec<u8>,
    parted: &L,
    index: usize,
    scratch: &mut Scratch,
) -> Result<usize, WriteFault>
    requires { index < length (L.parts parted.now) }
    ensures some { IfOk result (λ n. 0 < n) }
    ensures within { IfOk result (λ n. index + n ≤ length (L.parts parted.now)) }
    ensures few { IfOk result (λ n. n ≤ MOST_AT_ONCE) }
    ensures written { IfOk result (λ n. IsWrittenOn (text_from (L.parts parted.now) index n)
        buffer.old.items buffer.new.items (S.state sink.old) (S.state sink.new)) }
    ensures refused { IfErr result
        (λ fault. IsAppendCut (refusals fault) (concat (drop index (L.parts parted.now)))
        buffer.old.items (S.state sink.old) (S.state sink.new)) }
    ensures kept { IfOk result (λ n. HoldsFrom (L.kept parted.now) index (index + n)) }
{
    let count = parted.append(index, buffer, scratch)?;
    flush_full(sink, buffer)?;
    Ok(count)
}

/// Writes a section line and the lines under it after the bytes that the buffer holds.
#[tactic(auto, using(crate::proofs::SectionsWritten::nothing_put))]
pub fn write_titled<S: Sink, L: Parted>(
    sink: &mut S,
    buffer: &mut Vec<u8>,
    title: &[u8],
    parted: &L,
) -> Result<(), WriteFault>
    ensures writes { WritesOn (text_of (title.now ∷ L.lines parted.now))
        buffer.old.items buffer.new.items (S.state sink.old) (S.state sink.new) result }
    ensures kept { OnOk result
        (HoldsFrom (L.kept parted.now) 0 (length (L.parts parted.now))) }
{
    append_text(buffer, title, b'\n')?;
    flush_full(sink, buffer)?;
    write_parts(sink, buffer, parted)
}
