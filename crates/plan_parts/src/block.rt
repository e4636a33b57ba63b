//! A block of the model.

ghost use Rattle.std.specs.Prelude.{◌<◌, ◌≤◌, ◌↔◌, IsSome, IfSome};
ghost use Rattle.plan_parts.specs.declared.ranges.TheConstants.{GRID_CELLS, MAX_GRADE, MAX_KG, MAX_ZONES};

use crate::ranges::{GRID_CELLS, MAX_GRADE, MAX_KG, MAX_ZONES};

/// A block of the model: its cell in the grid, its tonnage and grade, and the zone file that contains it. The fields of every
/// value are in range.
#[derive(Clone, Copy, Debug, PartialEq, Eq)]
pub struct Block {
    /// The tonnage in kilograms, 0 to 10^9.
    pub kg: u64,
    /// The grade in millionths of a gram per tonne, 0 to 10^12.
    pub grade: u64,
    /// The index along x, 0 to 9999, in blocks from the grid's origin.
    pub x: u16,
    /// The index along y, 0 to 9999.
    pub y: u16,
    /// The index along z, 0 to 9999, growing upward: the bench.
    pub z: u16,
    /// The number of the zone file, 0 to 63.
    pub zone: u8,
    pub ghost x_in_grid: { x < GRID_CELLS },
    pub ghost y_in_grid: { y < GRID_CELLS },
    pub ghost z_in_grid: { z < GRID_CELLS },
    pub ghost kg_in_range: { kg ≤ MAX_KG },
    pub ghost grade_in_range: { grade ≤ MAX_GRADE },
    pub ghost zone_in_range: { zone < MAX_ZONES },
}

impl Block {
    ghost use Rattle.plan_parts.specs.BlockParts.{AreInRange, HasParts};

    /// Returns the block with these fields, or `None` if a field is out of range.
    pub fn new(x: u16, y: u16, z: u16, kg: u64, grade: u64, zone: u8) -> Option<Block>
        ensures in_range { IsSome result ↔ AreInRange x y z kg grade zone }
        ensures parts { IfSome result (HasParts x y z kg grade zone) }
    {
        if x < GRID_CELLS
            && y < GRID_CELLS
            && z < GRID_CELLS
            && kg <= MAX_KG
            && grade <= MAX_GRADE
            && zone < MAX_ZONES
        {
            Some(Block {
                x,
                y,
                z,
                kg,
                grade,
                zone,
            })
        } else {
            None
        }
    }
}
