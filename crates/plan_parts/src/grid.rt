//! The grid of the block model, in millimetres.

/// One axis of the grid.
#[derive(Clone, Copy, Debug, PartialEq, Eq)]
pub struct Axis {
    /// The centroid of the blocks of index 0, in millimetres, -10^12 to 10^12.
    pub origin: i64,
    /// The size of a block, in millimetres, 1 to 100,000.
    pub size: u32,
}

/// The grid: a block of index `i` along an axis has its centroid at `origin + i * size`.
#[derive(Clone, Copy, Debug, PartialEq, Eq)]
pub struct Grid {
    pub x: Axis,
    pub y: Axis,
    pub z: Axis,
}
