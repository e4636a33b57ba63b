//! Writes the objective, the coefficients and the limits, each under its section line.

ghost use Rattle.std.specs.Prelude.{OnOk, length};
ghost use Rattle.minelib_lines.specs.Lines.{text_of};
ghost use Rattle.minelib_writing.specs.Written.{section_lines};
ghost use Rattle.minelib_writing.specs.inner.KeptParts.{HoldsFrom};
ghost use Rattle.devices.specs.sinks.Writes.{WritesOn};

use crate::parts::{Parted, write_titled};
use devices::sinks::sink::Sink;
use devices::sinks::write_fault::WriteFault;

/// Writes the three sections after the bytes that the buffer holds.
pub fn write_sections<S: Sink, V: Parted, C: Parted, L: Parted>(
    sink: &mut S,
    buffer: &mut Vec<u8>,
    values: &V,
    coefs: &C,
    limits: &L,
) -> Result<(), WriteFault>
    ensures writes { WritesOn
        (text_of (section_lines (V.lines values.now) (C.lines coefs.now) (L.lines limits.now)))
        buffer.old.items buffer.new.items (S.state sink.old) (S.state sink.new) result }
    ensures values { OnOk result (HoldsFrom (V.kept values.now) 0 (length (V.parts values.now))) }
    ensures coefs { OnOk result (HoldsFrom (C.kept coefs.now) 0 (length (C.parts coefs.now))) }
    ensures limits { OnOk result (HoldsFrom (L.kept limits.now) 0 (length (L.parts limits.now))) }
{
    write_titled(sink, buffer, b"OBJECTIVE_FUNCTION:", values)?;
    write_titled(sink, buffer, b"RESOURCE_CONSTRAINT_COEFFICIENTS:", coefs)?;
    write_titled(sink, buffer, b"RESOURCE_CONSTRAINT_LIMITS:", limits)
}
