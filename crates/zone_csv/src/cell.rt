//! What a cell of a row states.

ghost use Rattle.std.specs.Prelude.{◌≡◌, ℕ, ◌*◌, ◌^◌, ◌<◌, ◌≤◌, ◌≤ℤ◌, ◌-ℤ◌, pos, unsigned_abs, Err, IfOk};
ghost use Rattle.plan_parts.specs.PlanInvariant.{IsAxis};
ghost use Rattle.pit_units.specs.Decimal.{decimal_within};
ghost use Rattle.records.specs.Cells.{trimmed};
ghost use Rattle.zone_csv.specs.Cell.{a_fault, largest, smallest};
ghost use Rattle.zone_csv.specs.Row.{index_in_cell, number_in_cell, size_in_cell};
ghost use Rattle.zone_csv.specs.EncodedRow.{IsInGrid};
ghost use Rattle.zone_csv.specs.inner.RowAnswers.{in_row};
ghost use Rattle.plan_parts.specs.declared.ranges.TheConstants.{GRID_CELLS};

use crate::row_fault::{Column, RowFault, RowFaultKind};
use pit_units::{DecFault, parse_within, usual_dec};
use plan_parts::grid::Axis;
use plan_parts::ranges::GRID_CELLS;
use records::cells::trimmed;

#[inline(always)]
pub(crate) fn a_fault(row: u32, column: Column, kind: RowFaultKind) -> RowFault
    ensures { result ≡ a_fault row column kind }
{
    RowFault { row, column, kind }
}

// The fault of a row without the row's number. In a result these two bytes come before the number or block that may take their
// place. A whole `RowFault` would overlap half of the first 8 bytes, which would then be copied in halves.
#[derive(Clone, Copy)]
pub(crate) struct ColumnFault {
    pub column: Column,
    pub kind: RowFaultKind,
}

// Returns the fault of a cell that states no allowed decimal.
fn no_decimal(column: Column, fault: DecFault) -> ColumnFault
    ensures { (row : ℕ) → number_in_cell row column (Err fault)
        ≡ Err (a_fault row result.column result.kind) }
{
    let kind = match fault {
        DecFault::Number => RowFaultKind::Number,
        DecFault::TooFine => RowFaultKind::TooFine,
        DecFault::Range => RowFaultKind::Range,
    };
    ColumnFault { column, kind }
}

// Reads the number in a field without the blanks at its ends: at most `decimals` decimals, from `low` to `high` millionths. Most
// fields have the usual form and no blanks, and are read in one pass.
#[inline(always)]
#[tactic(auto, using(crate::proofs::RowFacts::usual_number))]
fn number_of(
    column: Column,
    decimals: u8,
    low: i64,
    high: i64,
    field: &[u8],
) -> Result<i64, ColumnFault>
    requires { decimals ≤ 6 }
    ensures value { (row : ℕ) → in_row row result
        ≡ number_in_cell row column (decimal_within decimals low high (trimmed field.now)) }
    ensures in_range { IfOk result (λ number. (low ≤ℤ number) × (number ≤ℤ high)) }
{
    match usual_dec(field, decimals) {
        Some(number) if low <= number && number <= high => Ok(number),
        _ => any_number(column, decimals, low, high, trimmed(field)),
    }
}

// Reads the number in a cell of any form.
#[inline(never)]
fn any_number(
    column: Column,
    decimals: u8,
    low: i64,
    high: i64,
    cell: &[u8],
) -> Result<i64, ColumnFault>
    requires { decimals ≤ 6 }
    ensures value { (row : ℕ) → in_row row result
        ≡ number_in_cell row column (decimal_within decimals low high cell.now) }
    ensures in_range { IfOk result (λ number. (low ≤ℤ number) × (number ≤ℤ high)) }
{
    let number = parse_within(cell, decimals, i128::from(low), i128::from(high)).map_err(
        |fault| no_decimal(column, fault),
    )?;
    Ok(number.millionths() as i64)
}

// Reads the millionths in a field without its blanks: at most `decimals` decimals, from 0 to `most`.
#[inline(always)]
pub(crate) fn millionths_in(
    column: Column,
    decimals: u8,
    most: u64,
    field: &[u8],
) -> Result<u64, ColumnFault>
    requires { (decimals ≤ 6) × (most < 2 ^ 63) }
    ensures value { (row : ℕ) → in_row row result
        ≡ size_in_cell row column decimals most (trimmed field.now) }
    ensures in_range { IfOk result (λ size. size ≤ most) }
{
    Ok(number_of(column, decimals, 0, most as i64, field)? as u64)
}

// Returns the index of the blocks at the coordinate in a field without its blanks.
#[inline(always)]
pub(crate) fn index_of(column: Column, axis: Axis, field: &[u8]) -> Result<u16, ColumnFault>
    requires { IsAxis axis }
    ensures value { (row : ℕ) → in_row row result
        ≡ index_in_cell row column axis (trimmed field.now) }
    ensures in_grid { IfOk result (λ index. index < GRID_CELLS) }
{
    let coordinate = number_of(column, 3, smallest(axis), largest(axis), field)?;
    let above = above_origin(axis, coordinate);
    let size = size(axis);
    if above % size != 0 {
        let kind = RowFaultKind::OffGrid;
        return Err(ColumnFault { column, kind });
    }
    Ok((above / size) as u16)
}

// Returns the distance of a coordinate above the origin, in millionths of a metre.
#[inline(always)]
fn above_origin(axis: Axis, coordinate: i64) -> u64
    requires axis { IsAxis axis }
    requires in_grid { IsInGrid axis coordinate }
    ensures value { result ≡ unsigned_abs (coordinate -ℤ smallest axis) }
    ensures low { result < GRID_CELLS * (1000 * axis.size) }
{
    (coordinate - smallest(axis)) as u64
}

#[inline(always)]
fn size(axis: Axis) -> u64
    ensures { result ≡ 1000 * axis.size }
{
    1000 * u64::from(axis.size)
}

#[inline(always)]
fn smallest(axis: Axis) -> i64
    requires { IsAxis axis }
    ensures { result ≡ smallest axis }
{
    1000 * axis.origin
}

#[inline(always)]
fn largest(axis: Axis) -> i64
    requires { IsAxis axis }
    ensures { result ≡ largest axis }
{
    smallest(axis) + (u64::from(GRID_CELLS) * size(axis)) as i64 - 1
}
