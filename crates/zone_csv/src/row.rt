//! The block that a row states.

ghost use Rattle.std.specs.Prelude.{◌≡◌, ◌+◌, ◌<◌, ◌≤◌, OnOk};
ghost use Rattle.csv.specs.Records.{fields_of};
ghost use Rattle.plan_parts.specs.PlanInvariant.{IsGrid};
ghost use Rattle.zone_csv.specs.Row.{row_of};
ghost use Rattle.zone_csv.specs.inner.RowAnswers.{in_row};
ghost use Rattle.plan_parts.specs.declared.ranges.TheConstants.{MAX_ROWS, MAX_ZONES};

use crate::cell::{ColumnFault, index_of, millionths_in};
use crate::columns::Columns;
use crate::row_fault::{Column, RowFaultKind};
use csv::ByteRecord;
use plan_parts::block::Block;
use plan_parts::grid::Grid;
use plan_parts::ranges::{MAX_GRADE, MAX_KG, MAX_ROWS};
use records::cells::field_at;

// The number of the last record that may state a block: the header is record 1, and a file has at most 1,000,000 blocks.
const LAST_ROW: u32 = MAX_ROWS + 1;

// Returns what the record with this number states, under a header with these columns.
#[tactic(auto, unfolding(crate::specs::Row::row_of))]
#[inline(always)]
pub(crate) fn row_of(
    row: &ByteRecord,
    number: u32,
    columns: Columns,
    grid: Grid,
    zone: u8,
) -> Result<Block, ColumnFault>
    requires grid { IsGrid grid }
    requires zone { zone < MAX_ZONES }
    ensures value { in_row number result
        ≡ row_of grid zone columns number (fields_of row.now) }
    ensures within { OnOk result (number ≤ MAX_ROWS + 1) }
{
    if number > LAST_ROW {
        return Err(whole(RowFaultKind::TooManyRows));
    }
    if row.len() != columns.width {
        return Err(whole(RowFaultKind::Width));
    }
    let [x, y, z, tonnes, grade] = columns.places;
    let x = index_of(Column::X, grid.x, field_at(row, x))?;
    let y = index_of(Column::Y, grid.y, field_at(row, y))?;
    let z = index_of(Column::Z, grid.z, field_at(row, z))?;
    let millionths = millionths_in(Column::Tonnes, 3, MAX_KG * 1000, field_at(row, tonnes))?;
    let grade = millionths_in(Column::Grade, 6, MAX_GRADE, field_at(row, grade))?;
    Ok(Block {
        x,
        y,
        z,
        kg: millionths / 1000,
        grade,
        zone,
    })
}

// Returns a fault of the row as a whole.
fn whole(kind: RowFaultKind) -> ColumnFault
    ensures { result ≡ record { column = Column.Whole; kind = kind } }
{
    ColumnFault {
        column: Column::Whole,
        kind,
    }
}
