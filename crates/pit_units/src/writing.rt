//! Writes a decimal as its shortest text.

ghost use Rattle.std.specs.Prelude.{◌≡◌, ◌++◌, OnOk, OnErr};
ghost use Rattle.pit_units.specs.Decimal.{shortest};
ghost use Rattle.pit_units.specs.DecimalRange.{IsInDecimalRange};

use crate::decimal::Dec;
use crate::scratch::{LINE_END, SCRATCH, append_line, write_dec};
use std::alloc::{AllocError, Global};

/// Appends the shortest text of a decimal. If memory is refused, `out` is unchanged.
pub fn put_dec(_alloc: Global, out: &mut Vec<u8>, dec: Dec) -> Result<(), AllocError>
    ensures ok { OnOk result (out.new.items ≡ out.old.items ++ shortest dec) }
    ensures err { OnErr result (out.new.items ≡ out.old.items) }
    ensures in_range { IsInDecimalRange dec }
{
    let mut scratch = [0; SCRATCH];
    let start = write_dec(&mut scratch, LINE_END, dec);
    append_line(out, &scratch, start)
}
