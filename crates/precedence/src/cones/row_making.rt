//! Computes the rows of a cone.

ghost use Rattle.std.specs.Prelude.{◌≡◌, ◌+◌, ◌-◌, ◌*◌, ◌<◌, ◌≤◌, ◌++◌, [], ◌∷◌, OnOk, IfOk, max};
ghost use Rattle.plan_parts.specs.PlanInvariant.{IsCone, IsGrid};
ghost use Rattle.precedence.specs.inner.Rows.{center, edge, IsTable, AreExactUpTo};
ghost use Rattle.plan_parts.specs.declared.ranges.TheConstants.{GRID_CELLS};

use crate::cones::cone_rows::{Extent, Row, SideCounts};
use crate::cones::counting::row_counts;
use crate::places::code::{BENCH, ROW};
use plan_parts::cone::Cone;
use plan_parts::grid::Grid;
use std::alloc::{AllocError, Global};

/// Returns the rows of a cone, in order, for a model no larger than `extent`: a block is in the cone exactly if its code is in one of
/// these rows.
pub fn cone_rows(
    alloc: Global,
    grid: Grid,
    cone: Cone,
    extent: Extent,
) -> Result<Vec<Row>, AllocError>
    requires grid { IsGrid grid }
    requires cone { IsCone cone }
    ensures { IfOk result (λ rows. IsTable grid cone extent rows.items) }
{
    let mut rows = Vec::new(alloc);
    let top = u16::from(cone.k).min(extent.benches);
    for dz in 1..top + 1 {
        add_bench(&mut rows, grid, cone, extent, dz)?;
    }
    Ok(rows)
}

// Appends the rows of the bench `dz` above.
fn add_bench(
    rows: &mut Vec<Row>,
    grid: Grid,
    cone: Cone,
    extent: Extent,
    dz: u16,
) -> Result<(), AllocError>
    requires grid { IsGrid grid }
    requires cone { IsCone cone }
    requires up { 1 ≤ dz }
    requires within { dz ≤ cone.k }
    requires before { AreExactUpTo grid cone extent (edge extent.rows dz 0) rows.old.items }
    ensures { OnOk result (AreExactUpTo grid cone extent (edge extent.rows (dz + 1) 0) rows.new.items) }
{
    let mut counts = SideCounts { west: 0, east: 0 };
    for i in 0..2 * extent.rows + 1 {
        counts = row_counts(grid, cone, extent.rows, dz, i, counts);
        add_row(rows, bench_row(extent, dz, i, counts))?;
    }
    Ok(())
}

// Appends a row if it has codes.
fn add_row(rows: &mut Vec<Row>, row: Row) -> Result<(), AllocError>
    ensures row { OnOk result (row.first < row.past → rows.new.items ≡ rows.old.items ++ row ∷ []) }
    ensures no_row { OnOk result (row.past ≤ row.first → rows.new.items ≡ rows.old.items) }
{
    if row.first < row.past {
        rows.push(row)?;
    }
    Ok(())
}

// Returns the row `i` of the bench `dz` above, with the numbers of blocks in `counts` on each side.
fn bench_row(extent: Extent, dz: u16, i: u16, counts: SideCounts) -> Row
    requires up { 1 ≤ dz }
    requires dz { dz < GRID_CELLS }
    requires i { i ≤ 2 * extent.rows }
    requires west { counts.west ≤ GRID_CELLS }
    requires east { counts.east ≤ GRID_CELLS }
    ensures first { result.first ≡ center extent.rows dz i + 1 - counts.west }
    ensures past { result.past ≡ center extent.rows dz i + max counts.east 1 }
{
    let center = u64::from(dz) * BENCH + u64::from(i) * ROW - u64::from(extent.rows) * ROW;
    Row {
        first: center + 1 - u64::from(counts.west),
        past: center + u64::from(counts.east).max(1),
    }
}
