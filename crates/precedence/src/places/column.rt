//! Columns of the grid along x. Definitions name this constant, so this module has no functions.

/// The number of cells along x in a column: at most 127 columns cover the grid.
pub const COLUMN: u16 = 79;
