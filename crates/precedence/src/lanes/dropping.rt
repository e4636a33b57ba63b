//! Drops the lanes that see a block between: a block in the lane's cone whose own cone contains the block at the distance.

ghost use Rattle.std.specs.Prelude.{◌≡◌, ◌+◌, ◌-◌, ◌<◌, ◌≤◌, ◌^◌, ◌⊎◌, ℕ, length, slice_index, slice_index_or};
ghost use Rattle.std.specs.List.Sorted.{IsStrictlyIncreasing};
ghost use Rattle.precedence.specs.declared.lanes.strip.Strip.{Strip};
ghost use Rattle.precedence.specs.inner.lanes.Windows.{Drops, MayDrop, Meets, MeetsIn};
ghost use Rattle.precedence.specs.inner.Rows.{pasts, start_of};

use crate::cones::cone_table::ConeTable;
use crate::lanes::benches::start_near;
use crate::lanes::bits::without;
use crate::lanes::strip::Strip;
use crate::lanes::strips::Strips;
use crate::places::start_of::{is_last_below, start_of};
use std::cell::Cell;

/// The largest distance of a strip from its first.
pub const MOST: u64 = 63;

/// Drops lanes that see a block of the strip from which a distance is in a row of the table. The distance is `most` from the strip's first.
/// The rows before `row` are passed over: all such lanes are dropped if these rows end too early.
#[inline(always)]
pub fn drop_by_rows(lanes: u128, strip: &Strip, table: &ConeTable, most: u64, row: usize) -> u128
    requires most { most < 10 ^ 15 }
    requires row { row ≤ length table.now.rows.items }
    ensures may { MayDrop (λ i. (e : ℕ) × Meets strip.now table.now.rows.items (strip.now.start + most) i e) lanes result }
    ensures all { row ≤ start_of (most - 63 + 1) (pasts table.now.rows.items)
        → Drops (λ i. (e : ℕ) × Meets strip.now table.now.rows.items (strip.now.start + most) i e) lanes result }
{
    let rows = table.rows.as_slice();
    let mut number = row;
    let mut rest = lanes;
    while number < rows.len() && rows[number].first <= most {
        let row = rows[number];
        let first = most - most.min(row.past - 1);
        let past = (most - row.first + 1).min(u64::from(strip.len));
        if first < past {
            rest = without(rest, strip.word, first as u32, (past - first) as u32);
        }
        number += 1;
    }
    rest
}

/// Drops the lanes that see a block of one of the strips from which `distance` is in a row of the table. Puts the number of a strip that
/// dropped some into `by`.
pub fn drop_by_strips(
    lanes: u128,
    strips: &Strips,
    table: &ConeTable,
    distance: u64,
    by: &Cell<usize>,
) -> u128
    requires { distance < 10 ^ 15 }
    ensures { Drops (MeetsIn strips.now.strips.items table.now.rows.items distance) lanes result }
{
    let rows = table.rows.as_slice();
    let starts = strips.starts.as_slice();
    let mut rest = lanes;
    let mut row = rows.len();
    let mut k = 0;
    while k < starts.len() && starts[k] <= distance && rest != 0 {
        let most = distance - starts[k];
        row = row_reached(table, most.saturating_sub(MOST) + 1, row.saturating_sub(2));
        if row < rows.len() && rows[row].first <= most {
            let now = drop_by_rows(rest, &strips.strips[k], table, most, row);
            if now != rest {
                by.set(k);
            }
            rest = now;
            k += 1;
        } else {
            k = next_strip(strips, table.past.as_slice(), k, row, distance);
        }
    }
    rest
}

/// Returns the first row that ends at `target` or later. `hint` guesses the row before it.
#[inline(always)]
pub fn row_reached(table: &ConeTable, target: u64, hint: usize) -> usize
    ensures { result ≡ start_of target (pasts table.now.rows.items) }
{
    let past = table.past.as_slice();
    if is_last_below(past, hint, target) {
        return hint + 1;
    }
    start_near(past, table.benches.as_slice(), target)
}

// Returns the first strip after the strip `k` that can have a distance from which `distance` is in a row before the row `row`.
#[inline(always)]
fn next_strip(strips: &Strips, past: &[u64], k: usize, row: usize, distance: u64) -> usize
    requires k { k < length strips.now.strips.items }
    requires row { row ≤ length past.now }
    requires rising { IsStrictlyIncreasing past.now }
    ensures later { k < result }
    ensures passed { (j : ℕ) (s : Strip) → k < j → j < result → j < length strips.now.strips.items
        → (row ≡ 0) ⊎ (slice_index past.now (row - 1) + 63 ≤ distance - (slice_index_or strips.now.strips.items j s).start) }
{
    let starts = strips.starts.as_slice();
    if row == 0 {
        return starts.len();
    }
    let target = distance.saturating_sub(past[row - 1].saturating_add(MOST - 1));
    start_of(starts, k, target).max(k + 1)
}
