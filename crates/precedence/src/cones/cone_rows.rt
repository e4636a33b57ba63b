//! Types for the rows of cones. Definitions name these types, so this module has no functions.

ghost use Rattle.std.specs.Prelude.{◌<◌, ◌≤◌, ◌^◌};
ghost use Rattle.plan_parts.specs.declared.ranges.TheConstants.{GRID_CELLS};

/// The largest distances between two blocks of a model.
#[derive(Clone, Copy, Debug)]
pub struct Extent {
    /// Along y, in rows.
    pub rows: u16,
    /// Along z, in benches.
    pub benches: u16,
    pub ghost few_rows: { rows < GRID_CELLS },
    pub ghost few_benches: { benches < GRID_CELLS },
}

/// The reach of the slopes in one cone row: a block at a distance of `d` blocks along x is inside exactly if `(d * weight)^2 + used <=
/// reach`. Lengths are in millimetres, multiplied by the numbers of the slopes to make them integers.
#[derive(Clone, Copy, Debug)]
pub struct Reach {
    /// The length of one block along x.
    pub weight: u64,
    /// The square of the distance along y.
    pub used: u128,
    /// The square of the reach.
    pub reach: u128,
    pub ghost small_weight: { weight ≤ 10 ^ 11 },
    pub ghost small_used: { used ≤ 10 ^ 30 },
    pub ghost small_reach: { reach ≤ 10 ^ 30 },
}

/// The numbers of distances 0, 1, .. along x that are inside in a cone row, on each side: at most 10,000.
#[derive(Clone, Copy, Debug)]
pub struct SideCounts {
    pub west: u16,
    pub east: u16,
}

/// The largest reach of a cone's rows to the west and to the east of the block below, in blocks.
#[derive(Clone, Copy, Debug)]
pub struct Widths {
    pub west: u64,
    pub east: u64,
}

/// The position of a cone row: its codes are from `first` to `past` (exclusive), as distances from the code of the block below.
#[derive(Clone, Copy, Debug)]
pub struct Row {
    pub first: u64,
    pub past: u64,
    pub ghost in_order: { first ≤ past },
    pub ghost small: { past < 10 ^ 15 },
}
