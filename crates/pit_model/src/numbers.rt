//! The numbers in a plan's cells.

ghost use Rattle.std.specs.Prelude.{◌≡◌, ◌≤◌, ◌≤ℤ◌, IfOk};
ghost use Rattle.pit_model.specs.StatedCells.{integer_in, number_in};

use crate::plan_fault::PlanFaultKind;
use pit_units::{Dec, MILLIONTHS, parse_within};

/// Returns the number that a cell states, with at most `decimals` decimals and from `low` to `high` millionths.
///
/// # Errors
///
/// - `Number`: the cell is no decimal.
/// - `TooFine`: it has more decimals.
/// - `Range`: the number is out of range.
pub fn number_in(cell: &[u8], decimals: u8, low: i128, high: i128) -> Result<Dec, PlanFaultKind>
    requires { decimals ≤ 6 }
    ensures value { result ≡ number_in decimals low high cell.now }
    ensures in_range { IfOk result (λ m. (low ≤ℤ m) × (m ≤ℤ high)) }
{
    Ok(parse_within(cell, decimals, low, high)?)
}

/// Returns the integer that a cell states, from `low` to `high`. Fails like `number_in`.
pub fn integer_in(cell: &[u8], low: u32, high: u32) -> Result<u32, PlanFaultKind>
    ensures value { result ≡ integer_in low high cell.now }
    ensures in_range { IfOk result (λ n. (low ≤ n) × (n ≤ high)) }
{
    let number = number_in(cell, 0, low as i128 * MILLIONTHS, high as i128 * MILLIONTHS)?;
    Ok(number.whole() as u32)
}
