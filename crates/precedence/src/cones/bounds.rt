//! The distances from the blocks of a zone to the blocks above them.

ghost use Rattle.std.specs.Prelude.{◌≡◌, ◌<◌, ◌≤◌, ℕ, All, IfOk, length, slice_index_or};
ghost use Rattle.plan_parts.specs.declared.block.Block.{Block};
ghost use Rattle.plan_parts.specs.declared.cone.Cone.{Cone};
ghost use Rattle.precedence.specs.inner.Rows.{IsWithin};
ghost use Rattle.precedence.specs.inner.ZoneTables.{Holds, IsWider};
ghost use Rattle.precedence.specs.declared.cones.cone_rows.Extent.{Extent};
ghost use Rattle.plan_parts.specs.declared.ranges.TheConstants.{GRID_CELLS};

use crate::cones::cone_rows::Extent;
use plan_parts::block::Block;
use plan_parts::cone::Cone;
use plan_parts::ranges::GRID_CELLS;
use std::alloc::{AllocError, Global};

/// The smallest and largest index along y of a set of blocks, and their largest index along z.
#[derive(Clone, Copy, Debug)]
pub struct Bounds {
    pub south: u16,
    pub north: u16,
    pub top: u16,
}

// No distance.
const NOWHERE: Extent = Extent {
    rows: 0,
    benches: 0,
};

/// Returns, for each of `zones` zones, the largest distances between a block of the zone and a block whose identifier is not smaller.
pub fn extents_of(alloc: Global, blocks: &[Block], zones: usize) -> Result<Vec<Extent>, AllocError>
    requires { All (λ b. b.zone < zones) blocks.now }
    ensures each { IfOk result (λ extents. length extents.items ≡ zones) }
    ensures near { IfOk result (λ extents. (i j : ℕ) (d : Block) (e : Extent) → i ≤ j → j < length blocks.now
        → IsWithin (slice_index_or extents.items (slice_index_or blocks.now i d).zone e)
        (slice_index_or blocks.now i d) (slice_index_or blocks.now j d)) }
{
    let mut extents = vec![in alloc; NOWHERE; zones]?;
    let mut bounds = Bounds {
        south: GRID_CELLS - 1,
        north: 0,
        top: 0,
    };
    let mut i = blocks.len();
    while i > 0 {
        i -= 1;
        let block = blocks[i];
        let zone = block.zone as usize;
        bounds = widened(bounds, &block);
        extents[zone] = extent_to_bounds(extents[zone], bounds, &block);
    }
    Ok(extents)
}

// Extends the bounds to the block.
fn widened(bounds: Bounds, block: &Block) -> Bounds
    ensures holds { Holds result block.now }
    ensures more { (other : Block) → Holds bounds other → Holds result other }
    ensures north { bounds.north < GRID_CELLS → result.north < GRID_CELLS }
    ensures top { bounds.top < GRID_CELLS → result.top < GRID_CELLS }
{
    Bounds {
        south: bounds.south.min(block.y),
        north: bounds.north.max(block.y),
        top: bounds.top.max(block.z),
    }
}

// Extends the extent to reach from the block to each block within the bounds.
fn extent_to_bounds(extent: Extent, bounds: Bounds, block: &Block) -> Extent
    requires north { bounds.north < GRID_CELLS }
    requires top { bounds.top < GRID_CELLS }
    ensures wider { IsWider result extent }
    ensures within { (other : Block) → Holds bounds other → IsWithin result block.now other }
{
    let south = block.y.saturating_sub(bounds.south);
    let north = bounds.north.saturating_sub(block.y);
    Extent {
        rows: extent.rows.max(south).max(north),
        benches: extent.benches.max(bounds.top.saturating_sub(block.z)),
    }
}

/// Returns an extent that covers the extent of every zone with the cone.
pub fn extent_for(cones: &[Cone], extents: &[Extent], cone: Cone) -> Extent
    requires { length extents.now ≡ length cones.now }
    ensures { (z : ℕ) (c : Cone) (e : Extent) → z < length cones.now
        → slice_index_or cones.now z c ≡ cone → IsWider result (slice_index_or extents.now z e) }
{
    let mut rows = 0;
    let mut benches = 0;
    for zone in 0..cones.len() {
        let extent = extent_where(&cones[zone], cone, extents[zone]);
        rows = greater(rows, extent.rows);
        benches = greater(benches, extent.benches);
    }
    Extent { rows, benches }
}

// Returns the zone's extent if the zone has the cone, else no distance.
fn extent_where(own: &Cone, cone: Cone, extent: Extent) -> Extent
    ensures { own.now ≡ cone → result ≡ extent }
{
    if *own == cone { extent } else { NOWHERE }
}

fn greater(one: u16, other: u16) -> u16
    ensures one { one ≤ result }
    ensures other { other ≤ result }
    ensures few { one < GRID_CELLS → other < GRID_CELLS → result < GRID_CELLS }
{
    if one < other { other } else { one }
}
