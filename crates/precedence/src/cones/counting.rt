//! Counts of the blocks of a row that are inside a cone.

ghost use Rattle.std.specs.Prelude.{◌≡◌, ◌*◌, ◌<◌, ◌≤◌, ◌^◌, false};
ghost use Rattle.plan_parts.specs.PlanInvariant.{IsCone, IsGrid, IsSlope};
ghost use Rattle.precedence.specs.Cone.{square};
ghost use Rattle.precedence.specs.inner.Reach.{is_in_reach, slope_across, CountsAll, CountsRow, CountsSide};
ghost use Rattle.plan_parts.specs.declared.ranges.TheConstants.{GRID_CELLS, MAX_SIZE, MAX_SLOPE};

use crate::cones::cone_rows::{Reach, SideCounts};
use plan_parts::cone::{Cone, Slope};
use plan_parts::grid::Grid;
use plan_parts::ranges::GRID_CELLS;

/// Counts the blocks of the row `i` on the bench `dz` above that are inside the slopes, if the block's own row is `rows`. `nearby` is a
/// guess, such as the counts of a nearby row: it changes the time and not the result.
pub fn row_counts(
    grid: Grid,
    cone: Cone,
    rows: u16,
    dz: u16,
    i: u16,
    nearby: SideCounts,
) -> SideCounts
    requires grid { IsGrid grid }
    requires cone { IsCone cone }
    requires rows { rows < GRID_CELLS }
    requires dz { dz < GRID_CELLS }
    requires i { i ≤ 2 * rows }
    ensures { CountsRow grid cone rows dz i result }
{
    let across = slope_across(cone, rows, i);
    let dy = i.abs_diff(rows);
    SideCounts {
        west: side_count(grid, cone.west, across, dy, dz, nearby.west),
        east: side_count(grid, cone.east, across, dy, dz, nearby.east),
    }
}

fn slope_across(cone: Cone, rows: u16, i: u16) -> Slope
    ensures { result ≡ slope_across cone rows i }
{
    if rows < i { cone.north } else { cone.south }
}

fn side_count(grid: Grid, along: Slope, across: Slope, dy: u16, dz: u16, nearby: u16) -> u16
    requires grid { IsGrid grid }
    requires along { IsSlope along }
    requires across { IsSlope across }
    requires dy { dy < GRID_CELLS }
    requires dz { dz < GRID_CELLS }
    ensures few { result ≤ GRID_CELLS }
    ensures counts { CountsSide grid along across dy dz result }
{
    let reach = reach_in_row(grid, along, across, dy, dz);
    lowered(reach, raised(reach, nearby.min(GRID_CELLS)))
}

// Returns the slopes' reach in the row `dy` rows away on the bench `dz` above.
fn reach_in_row(grid: Grid, along: Slope, across: Slope, dy: u16, dz: u16) -> Reach
    requires grid { IsGrid grid }
    requires along { IsSlope along }
    requires across { IsSlope across }
    requires dy { dy < GRID_CELLS }
    requires dz { dz < GRID_CELLS }
    ensures weight { result.weight ≡ grid.x.size * along.p * across.q }
    ensures used { result.used ≡ square (dy * (grid.y.size * across.p * along.q)) }
    ensures reach { result.reach ≡ square (dz * (grid.z.size * along.q * across.q)) }
{
    Reach {
        weight: weight(grid.x.size, along.p, across.q),
        used: squared(dy, weight(grid.y.size, across.p, along.q)),
        reach: squared(dz, weight(grid.z.size, along.q, across.q)),
    }
}

#[tactic(auto, using(crate::proofs::Reaches::products))]
fn weight(size: u32, a: u16, b: u16) -> u64
    requires size { size ≤ MAX_SIZE }
    requires a { a ≤ MAX_SLOPE }
    requires b { b ≤ MAX_SLOPE }
    ensures value { result ≡ size * a * b }
    ensures small { result ≤ 10 ^ 11 }
{
    u64::from(size) * u64::from(a) * u64::from(b)
}

#[tactic(auto, using(crate::proofs::Reaches::products))]
fn squared(distance: u16, weight: u64) -> u128
    requires distance { distance < GRID_CELLS }
    requires weight { weight ≤ 10 ^ 11 }
    ensures value { result ≡ square (distance * weight) }
    ensures small { result ≤ 10 ^ 30 }
{
    let length = u128::from(u64::from(distance) * weight);
    length * length
}

#[tactic(auto, using(crate::proofs::Reaches::products))]
fn is_in_reach(reach: Reach, distance: u16) -> bool
    requires { distance < GRID_CELLS }
    ensures { result ≡ is_in_reach distance reach }
{
    squared(distance, reach.weight) + reach.used <= reach.reach
}

// Raises the count as long as the next distance is inside.
fn raised(reach: Reach, count: u16) -> u16
    requires { count ≤ GRID_CELLS }
    ensures few { result ≤ GRID_CELLS }
    ensures enough { result < GRID_CELLS → is_in_reach result reach ≡ false }
{
    let mut count = count;
    while count < GRID_CELLS && is_in_reach(reach, count) {
        count += 1;
    }
    count
}

// Lowers the count as long as its last distance is not inside.
fn lowered(reach: Reach, count: u16) -> u16
    requires few { count ≤ GRID_CELLS }
    requires enough { count < GRID_CELLS → is_in_reach count reach ≡ false }
    ensures few { result ≤ GRID_CELLS }
    ensures counts { CountsAll reach result }
{
    let mut count = count;
    while count > 0 && !is_in_reach(reach, count - 1) {
        count -= 1;
    }
    count
}
