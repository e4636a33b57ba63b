//! The slope cone of a zone: the blocks above a block that must be extracted no later than the block.

/// A slope as rise over run; its tangent is `p / q`.
#[derive(Clone, Copy, Debug, PartialEq, Eq)]
pub struct Slope {
    /// The rise, 1 to 1000.
    pub p: u16,
    /// The run, 1 to 1000.
    pub q: u16,
}

/// The slopes on the four sides of a zone's blocks, and the number of benches above that count.
#[derive(Clone, Copy, Debug, PartialEq, Eq)]
pub struct Cone {
    /// Toward +x.
    pub east: Slope,
    /// Toward -x.
    pub west: Slope,
    /// Toward +y.
    pub north: Slope,
    /// Toward -y.
    pub south: Slope,
    /// The number of benches, 1 to 20.
    pub k: u8,
}
