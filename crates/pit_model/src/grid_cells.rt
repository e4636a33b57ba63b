//! The cells of a `grid` record, in millimetres.

ghost use Rattle.std.specs.Prelude.{◌≡◌, ◌≤◌, ◌≤ℤ◌, IfOk};
ghost use Rattle.pit_model.specs.StatedCells.{origin_in, size_in};
ghost use Rattle.plan_parts.specs.declared.ranges.TheConstants.{MAX_ORIGIN, MAX_SIZE, MIN_ORIGIN};

use crate::numbers::number_in;
use crate::plan_fault::PlanFaultKind;
use plan_parts::ranges::{MAX_ORIGIN, MAX_SIZE, MIN_ORIGIN};

/// Returns the origin that a cell states in metres, as millimetres, -10^12 to 10^12. Fails like `number_in`.
pub fn origin_in(cell: &[u8]) -> Result<i64, PlanFaultKind>
    ensures value { result ≡ origin_in cell.now }
    ensures in_range { IfOk result (λ m. (MIN_ORIGIN ≤ℤ m) × (m ≤ℤ MAX_ORIGIN)) }
{
    let metres = number_in(
        cell,
        3,
        i128::from(MIN_ORIGIN) * 1000,
        i128::from(MAX_ORIGIN) * 1000,
    )?;
    Ok((metres.millionths() / 1000) as i64)
}

/// Returns the size of a block that a cell states in metres, as millimetres, 1 to 100,000. Fails like `number_in`.
pub fn size_in(cell: &[u8]) -> Result<u32, PlanFaultKind>
    ensures value { result ≡ size_in cell.now }
    ensures in_range { IfOk result (λ n. (1 ≤ n) × (n ≤ MAX_SIZE)) }
{
    let metres = number_in(cell, 3, 1000, i128::from(MAX_SIZE) * 1000)?;
    Ok((metres.millionths().unsigned_abs() / 1000) as u32)
}
