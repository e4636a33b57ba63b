//! Appends fields and the bytes that end them.

ghost use Rattle.std.specs.Prelude.{◌≡◌, ◌++◌, ◌∷◌, [], OnOk, decimal};
ghost use Rattle.pit_units.specs.Decimal.{shortest};
ghost use Rattle.pit_units.specs.DecimalRange.{IsInDecimalRange};

use pit_units::Dec;
use pit_units::scratch::{
    LINE_END, SCRATCH, append_line, write_byte, write_dec, write_field, write_integer,
};
use std::alloc::AllocError;

/// Appends a text and the byte that ends it.
#[inline(always)]
pub fn append_text(out: &mut Vec<u8>, text: &[u8], end: u8) -> Result<(), AllocError>
    ensures { OnOk result (out.new.items ≡ out.old.items ++ (text.now ++ end ∷ [])) }
{
    out.extend_from_slice(text)?;
    out.push(end)?;
    Ok(())
}

/// Appends an integer and the byte that ends it.
#[inline(always)]
pub fn append_integer_to(out: &mut Vec<u8>, number: u64, end: u8) -> Result<(), AllocError>
    ensures { OnOk result (out.new.items ≡ out.old.items ++ (decimal number ++ end ∷ [])) }
{
    let mut scratch = [0; SCRATCH];
    let at = write_byte(&mut scratch, LINE_END, end);
    let start = write_integer(&mut scratch, at, number);
    append_line(out, &scratch, start)
}

/// Appends a space and an integer.
#[inline(always)]
pub fn append_field(out: &mut Vec<u8>, number: u64) -> Result<(), AllocError>
    ensures { OnOk result (out.new.items ≡ out.old.items ++ 32 ∷ decimal number) }
{
    let mut scratch = [0; SCRATCH];
    let start = write_field(&mut scratch, LINE_END, number);
    append_line(out, &scratch, start)
}

/// Appends the shortest text of a decimal and the byte that ends it.
#[inline(always)]
pub fn append_decimal_to(out: &mut Vec<u8>, number: Dec, end: u8) -> Result<(), AllocError>
    ensures text { OnOk result (out.new.items ≡ out.old.items ++ (shortest number ++ end ∷ [])) }
    ensures kept { IsInDecimalRange number }
{
    let mut scratch = [0; SCRATCH];
    let at = write_byte(&mut scratch, LINE_END, end);
    let start = write_dec(&mut scratch, at, number);
    append_line(out, &scratch, start)
}
