//! The lines of values, one for each block.

ghost use Rattle.std.specs.Prelude.{◌≡◌, ◌+◌, ◌<◌, ◌≤◌, ◌++◌, ◌∷◌, [], length, map, pos, slice_index_or, All, HoldsAt, OnOk, decimal};
ghost use Rattle.std.specs.List.{flat_map};
ghost use Rattle.pit_units.specs.Decimal.{shortest};
ghost use Rattle.pit_units.specs.DecimalRange.{IsInDecimalRange};
ghost use Rattle.mine_instance.specs.BlockValues.{values_in};
ghost use Rattle.mine_instance.specs.Largest.{largest};
ghost use Rattle.plan_parts.specs.declared.ranges.TheConstants.{MAX_DESTINATIONS};
ghost use Rattle.minelib_lines.specs.Lines.{line_of, lines_from};
ghost use Rattle.pit_units.specs.Line.{line_in};
ghost use Rattle.pit_units.specs.declared.scratch.TheConstants.{LINE_END};
ghost use Rattle.minelib_writing.specs.Written.{largest_line, value_line};

use crate::lines::Line;
use crate::parts::Parted;
use mine_instance::values::block::BlockValues;
use mine_instance::values::list::ValueList;
use pit_units::scratch::{
    LINE_END, Scratch, append_line, write_byte, write_dec, write_hundredths, write_integer,
};
use std::alloc::AllocError;

/// The values of each block.
#[derive(Drop)]
pub struct ValueLines<'a, V: ValueList> {
    pub values: &'a V,
    pub ghost few: { All (λ of_block. length of_block ≤ MAX_DESTINATIONS) (V.list values.now) },
}

impl<'a, V: ValueList> Parted for ValueLines<'a, V> {
    ghost lines = { λ s. lines_from value_line 0 (V.list s.values.now) };

    ghost use Rattle.minelib_writing.specs.inner.Parts.{line_parts, lines_whole};

    ghost parts = { λ s. line_parts (lines_from value_line 0 (V.list s.values.now)) };

    ghost kept = { λ s n. HoldsAt (λ of_block. All IsInDecimalRange of_block) (V.list s.values.now) n };

    ghost whole = { λ s. lines_whole (lines_from value_line 0 (V.list s.values.now)) };

    #[tactic(auto, using(crate::proofs::LineFacts::line_parts_count))]
    fn len(&self) -> usize {
        self.values.len()
    }

    #[tactic(auto, using(crate::proofs::LineFacts::line_parts_count))]
    fn append(
        &self,
        index: usize,
        out: &mut Vec<u8>,
        scratch: &mut Scratch,
    ) -> Result<usize, AllocError> {
        append_values(out, scratch, index, self.values.of_block(index))?;
        Ok(1)
    }
}

fn append_values(
    out: &mut Vec<u8>,
    scratch: &mut Scratch,
    id: usize,
    values: BlockValues,
) -> Result<(), AllocError>
    requires { length (values_in values) ≤ MAX_DESTINATIONS }
    ensures text { OnOk result (out.new.items
        ≡ out.old.items ++ (line_of (decimal id ∷ map shortest (values_in values.entry)) ++ 10 ∷ [])) }
    ensures kept { OnOk result (All IsInDecimalRange (values_in values.entry)) }
{
    let end = write_byte(scratch, LINE_END, b'\n');
    let at = write_values(scratch, end, values);
    let start = write_integer(scratch, at, id as u64);
    append_line(out, scratch, start)
}

// Writes the values of a line, each after a space.
#[inline(always)]
fn write_values(scratch: &mut Scratch, end: usize, values: BlockValues) -> usize
    requires few { length (values_in values) ≤ MAX_DESTINATIONS }
    requires end { end + 1 ≡ LINE_END }
    ensures text { line_in scratch.new result
        ≡ flat_map (λ value. 32 ∷ shortest value) (values_in values.entry) ++ line_in scratch.old end }
    ensures start { (20 ≤ result) × (result ≤ LINE_END) }
    ensures kept { All IsInDecimalRange (values_in values.entry) }
{
    let mut at = end;
    let mut remaining = values.len();
    while remaining > 0 {
        remaining -= 1;
        at = write_value(scratch, at, values, remaining);
        at = write_byte(scratch, at, b' ');
    }
    at
}

// Writes the value at a position. Does not convert cents to a decimal.
#[inline(always)]
fn write_value(scratch: &mut Scratch, at: usize, values: BlockValues, index: usize) -> usize
    requires index { index < length (values_in values) }
    requires at { (28 ≤ at) × (at ≤ LINE_END) }
    ensures text { line_in scratch.new result
        ≡ shortest (slice_index_or (values_in values.entry) index (pos 0)) ++ line_in scratch.old at }
    ensures long { (at ≤ result + 28) × (result ≤ at) }
    ensures kept { IsInDecimalRange (slice_index_or (values_in values.entry) index (pos 0)) }
{
    match values {
        BlockValues::Hundreds(values) => write_dec(scratch, at, values[index]),
        BlockValues::Cents(cents) => write_hundredths(scratch, at, cents[index]),
    }
}

/// The largest value of each block.
#[derive(Drop)]
pub struct LargestLines<'a, V: ValueList> {
    pub values: &'a V,
    pub ghost some: { All (λ of_block. 0 < length of_block) (V.list values.now) },
}

impl<'a, V: ValueList> Parted for LargestLines<'a, V> {
    ghost lines = { λ s. lines_from largest_line 0 (V.list s.values.now) };

    ghost use Rattle.minelib_writing.specs.inner.Parts.{line_parts, lines_whole};

    ghost parts = { λ s. line_parts (lines_from largest_line 0 (V.list s.values.now)) };

    ghost kept = { λ s n. HoldsAt (λ of_block. IsInDecimalRange (largest of_block)) (V.list s.values.now) n };

    ghost whole = { λ s. lines_whole (lines_from largest_line 0 (V.list s.values.now)) };

    #[tactic(auto, using(crate::proofs::LineFacts::line_parts_count))]
    fn len(&self) -> usize {
        self.values.len()
    }

    #[tactic(auto, using(crate::proofs::LineFacts::line_parts_count))]
    fn append(
        &self,
        index: usize,
        out: &mut Vec<u8>,
        scratch: &mut Scratch,
    ) -> Result<usize, AllocError> {
        append_largest(out, scratch, index, self.values.of_block(index))?;
        Ok(1)
    }
}

fn append_largest(
    out: &mut Vec<u8>,
    scratch: &mut Scratch,
    id: usize,
    values: BlockValues,
) -> Result<(), AllocError>
    requires { 0 < length (values_in values) }
    ensures text { OnOk result (out.new.items
        ≡ out.old.items ++ (line_of (decimal id ∷ shortest (largest (values_in values.entry)) ∷ [])
        ++ 10 ∷ [])) }
    ensures kept { OnOk result (IsInDecimalRange (largest (values_in values.entry))) }
{
    let at = write_byte(scratch, LINE_END, b'\n');
    let at = write_value(scratch, at, values, values.first_largest());
    let at = write_byte(scratch, at, b' ');
    let start = write_integer(scratch, at, id as u64);
    append_line(out, scratch, start)
}
