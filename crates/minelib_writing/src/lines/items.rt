//! The lines of blocks and limits, and of a CPIT's values.

ghost use Rattle.std.specs.Prelude.{◌≡◌, ◌+◌, ◌*◌, ◌≤◌, ◌++◌, ◌∷◌, [], pos, OnOk, decimal, ⊤};
ghost use Rattle.pit_units.specs.Decimal.{shortest};
ghost use Rattle.pit_units.specs.DecimalRange.{IsInDecimalRange};
ghost use Rattle.mine_instance.specs.WellFormed.{HasDecimals};
ghost use Rattle.minelib_lines.specs.Lines.{line_of};
ghost use Rattle.pit_units.specs.Line.{line_in};
ghost use Rattle.pit_units.specs.declared.scratch.TheConstants.{LINE_END};
ghost use Rattle.minelib_writing.specs.Written.{block_line, bound_fields, limit_line, one_value_line};

use crate::fields::{append_decimal_to, append_integer_to, append_text};
use crate::lines::Line;
use pit_units::Dec;
use pit_units::scratch::{
    LINE_END, Scratch, append_line, write_byte, write_field, write_integer, write_millionths,
};
use plan_parts::block::Block;
use plan_parts::limit::{Bound, Limit};
use std::alloc::AllocError;

impl Line for Block {
    ghost fields = { block_line };

    ghost kept = { λ b. ⊤ };

    fn append(
        &self,
        index: usize,
        out: &mut Vec<u8>,
        scratch: &mut Scratch,
    ) -> Result<(), AllocError> {
        let at = write_byte(scratch, LINE_END, b'\n');
        let at = write_field(scratch, at, u64::from(self.zone));
        let at = write_ore(scratch, at, self);
        let at = write_place(scratch, at, self);
        let start = write_integer(scratch, at, index as u64);
        append_line(out, scratch, start)
    }
}

#[inline(always)]
fn write_place(scratch: &mut Scratch, at: usize, block: &Block) -> usize
    requires { (63 ≤ at) × (at ≤ LINE_END) }
    ensures text { line_in scratch.new result ≡ 32 ∷ (decimal block.now.x ++ 32 ∷ (decimal block.now.y
        ++ 32 ∷ (decimal block.now.z ++ line_in scratch.old at))) }
    ensures start { (at ≤ result + 63) × (result ≤ at) }
{
    let at = write_field(scratch, at, u64::from(block.z));
    let at = write_field(scratch, at, u64::from(block.y));
    write_field(scratch, at, u64::from(block.x))
}

#[inline(always)]
#[tactic(auto, using(pit_units::proofs::Text::whole_millionths))]
fn write_ore(scratch: &mut Scratch, at: usize, block: &Block) -> usize
    requires { (56 ≤ at) × (at ≤ LINE_END) }
    ensures text { line_in scratch.new result ≡ 32 ∷ (shortest (pos (block.now.kg * 1000))
        ++ 32 ∷ (shortest (pos block.now.grade) ++ line_in scratch.old at)) }
    ensures start { (at ≤ result + 56) × (result ≤ at) }
{
    let at = write_millionths(scratch, at, block.grade);
    let at = write_byte(scratch, at, b' ');
    let at = write_millionths(scratch, at, block.kg * 1000);
    write_byte(scratch, at, b' ')
}

impl Line for Limit {
    ghost fields = { limit_line };

    ghost kept = { λ l. HasDecimals l.bound };

    #[tactic(auto, using(crate::proofs::ByKeys::limit_text, std::proofs::Common::append_assoc))]
    fn append(
        &self,
        _index: usize,
        out: &mut Vec<u8>,
        _scratch: &mut Scratch,
    ) -> Result<(), AllocError> {
        append_integer_to(out, u64::from(self.resource), b' ')?;
        append_integer_to(out, u64::from(self.period), b' ')?;
        append_bound(out, &self.bound)
    }
}

fn append_bound(out: &mut Vec<u8>, bound: &Bound) -> Result<(), AllocError>
    ensures text { OnOk result (out.new.items
        ≡ out.old.items ++ (line_of (bound_fields bound.now) ++ 10 ∷ [])) }
    ensures kept { OnOk result (HasDecimals bound.now) }
{
    match bound {
        Bound::AtMost(v) => {
            append_text(out, b"L", b' ')?;
            append_decimal_to(out, *v, b'\n')
        }
        Bound::AtLeast(v) => {
            append_text(out, b"G", b' ')?;
            append_decimal_to(out, *v, b'\n')
        }
        Bound::Between(v, w) => {
            append_text(out, b"I", b' ')?;
            append_decimal_to(out, *v, b' ')?;
            append_decimal_to(out, *w, b'\n')
        }
    }
}

// The one value of a block.
impl Line for Dec {
    ghost fields = { one_value_line };

    ghost kept = { IsInDecimalRange };

    #[tactic(auto, using(std::proofs::Common::append_assoc))]
    fn append(
        &self,
        index: usize,
        out: &mut Vec<u8>,
        _scratch: &mut Scratch,
    ) -> Result<(), AllocError> {
        append_integer_to(out, index as u64, b' ')?;
        append_decimal_to(out, *self, b'\n')
    }
}
