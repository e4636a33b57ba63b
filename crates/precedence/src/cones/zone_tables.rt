//! The tables of all zones' cones.

ghost use Rattle.std.specs.Prelude.{◌≡◌, ◌<◌, IfOk, IfSome, OnOk, Some, All, length, slice_get, slice_index, slice_index_or};
ghost use Rattle.plan_parts.specs.PlanInvariant.{IsCone, IsGrid};
ghost use Rattle.precedence.specs.inner.ZoneTables.{HasTableAt, HasTables, IsExact};
ghost use Rattle.precedence.specs.declared.cones.cone_table.ConeTable.{ConeTable};

use crate::cones::bounds::extent_for;
use crate::cones::cone_rows::Extent;
use crate::cones::cone_table::ConeTable;
use crate::cones::row_making::cone_rows;
use crate::cones::widths::{pasts_of, widths_of};
use crate::lanes::benches::benches_of;
use plan_parts::cone::Cone;
use plan_parts::grid::Grid;
use std::alloc::{AllocError, Global};

/// The tables of different cones, and the index of each zone's table.
#[derive(Debug, Drop)]
pub struct ZoneTables {
    pub tables: Vec<ConeTable>,
    pub of_zone: Vec<usize>,
    pub ghost below: { All (λ t. t < length tables.items) of_zone.items },
}

impl ZoneTables {
    /// Returns the table of a zone's cone.
    pub fn of(&self, zone: u8) -> &ConeTable
        requires { zone < length self.now.of_zone.items }
        ensures { slice_get self.now.tables.items (slice_index self.now.of_zone.items zone)
            ≡ Some result.now }
    {
        &self.tables[self.of_zone[zone as usize]]
    }

    /// Returns the number of rows of all tables.
    pub fn rows(&self) -> usize {
        rows_before(self.tables.as_slice())
    }
}

/// Returns the tables of the cones, which are listed by zone, each covering its zone's extent. Equal cones share a table.
pub fn tables_of(
    alloc: Global,
    grid: Grid,
    cones: &[Cone],
    extents: &[Extent],
) -> Result<ZoneTables, AllocError>
    requires grid { IsGrid grid }
    requires cones { All IsCone cones.now }
    requires each { length extents.now ≡ length cones.now }
    ensures { IfOk result (λ t. HasTables grid cones.now extents.now t.tables.items t.of_zone.items) }
{
    let mut tables = Vec::new(alloc);
    let mut of_zone = Vec::with_capacity(alloc, cones.len())?;
    for cone in cones {
        let place = place_of(alloc, &mut tables, grid, cones, extents, *cone)?;
        of_zone.push(place)?;
    }
    Ok(ZoneTables { tables, of_zone })
}

// Returns the index of a cone's table, which is appended if there is none.
fn place_of(
    alloc: Global,
    tables: &mut Vec<ConeTable>,
    grid: Grid,
    cones: &[Cone],
    extents: &[Extent],
    cone: Cone,
) -> Result<usize, AllocError>
    requires grid { IsGrid grid }
    requires cone { IsCone cone }
    requires each { length extents.now ≡ length cones.now }
    requires exact { All (IsExact grid cones.now extents.now) tables.old.items }
    ensures exact { OnOk result (All (IsExact grid cones.now extents.now) tables.new.items) }
    ensures has { IfOk result (HasTableAt cone tables.old.items tables.new.items) }
{
    if let Some(place) = find_cone(tables.as_slice(), cone) {
        return Ok(place);
    }
    let place = tables.len();
    let start = rows_before(tables.as_slice());
    let table = table_of(alloc, grid, cones, extents, cone, start)?;
    tables.push(table)?;
    Ok(place)
}

// Returns the index of a table of the cone.
fn find_cone(tables: &[ConeTable], cone: Cone) -> Option<usize>
    ensures within { IfSome result (λ place. place < length tables.now) }
    ensures same { IfSome result (λ place. (t : ConeTable)
        → (slice_index_or tables.now place t).cone ≡ cone) }
{
    tables.iter().position(|table| table.cone == cone)
}

fn rows_before(tables: &[ConeTable]) -> usize {
    match tables.last() {
        Some(table) => table.start.saturating_add(table.rows.len()),
        None => 0,
    }
}

fn table_of(
    alloc: Global,
    grid: Grid,
    cones: &[Cone],
    extents: &[Extent],
    cone: Cone,
    start: usize,
) -> Result<ConeTable, AllocError>
    requires grid { IsGrid grid }
    requires cone { IsCone cone }
    requires each { length extents.now ≡ length cones.now }
    ensures cone { IfOk result (λ table. table.cone ≡ cone) }
    ensures exact { IfOk result (IsExact grid cones.now extents.now) }
{
    let rows = cone_rows(alloc, grid, cone, extent_for(cones, extents, cone))?;
    let past = pasts_of(alloc, rows.as_slice())?;
    let benches = benches_of(alloc, past.as_slice())?;
    let widths = widths_of(rows.as_slice());
    Ok(ConeTable {
        cone,
        rows,
        past,
        benches,
        widths,
        start,
    })
}
