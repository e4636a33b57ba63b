//! Windows: the reduced lists of up to 64 blocks with one cone.

ghost use Rattle.std.specs.Prelude.{◌≡◌, ◌↔◌, ◌<◌, ◌^◌, ℕ, true, IfOk, IsTrue, OnOk, length, slice_index, slice_index_or};
ghost use Rattle.precedence.specs.inner.lanes.Bits.{has_bit};
ghost use Rattle.precedence.specs.inner.lanes.Windows.{scene, AreRetained, AreWindows, HasLane, IsWindow, Scene, table_of};
ghost use Rattle.precedence.specs.inner.Lists.{Appends};
ghost use Rattle.precedence.specs.declared.lanes.strips.Window.{Window};

use crate::cones::block_cones::BlockCones;
use crate::lanes::bits::{has_bit, seen_at};
use crate::lanes::looking::{lanes_of, look};
use crate::lanes::serving::serve;
use crate::lanes::strip::Strip;
use crate::lanes::strips::{Sight, Strips, Window, Windows};
use crate::lists::id_range::IdRange;
use crate::lists::ids_as_ranges::push_id;
use crate::places::start_of::start_of;
use std::alloc::{AllocError, Global};

// More strips than this are many.
const MANY: usize = 4096;

// Fewer blocks than this in each strip are few.
const FEW: usize = 8;

/// Returns one window without lanes for each of `tables` tables.
pub fn no_windows(alloc: Global, tables: usize) -> Result<Windows, AllocError>
    ensures { IfOk result (λ windows. (b : Scene) → length b.tables ≡ tables → AreWindows b windows) }
{
    let mut windows = Vec::with_capacity(alloc, tables)?;
    let mut by_table = Vec::with_capacity(alloc, tables)?;
    for _ in 0..tables {
        windows.push(Window {
            base: 0,
            lanes: 0,
            found: Vec::new(alloc),
        })?;
        by_table.push(no_strips(alloc))?;
    }
    Ok(Windows {
        windows,
        sight: Sight {
            all: no_strips(alloc),
            by_table,
        },
        covers: Vec::new(alloc),
    })
}

fn no_strips(alloc: Global) -> Strips {
    Strips {
        strips: Vec::new(alloc),
        starts: Vec::new(alloc),
    }
}

/// Appends the block's reduced list as ranges; the last range may be lengthened. The window of its cone is replaced if the block is no
/// lane of it.
pub fn add_retained(
    ranges: &mut Vec<IdRange>,
    windows: &mut Windows,
    cones: &BlockCones<'_>,
    id: usize,
) -> Result<(), AllocError>
    requires id { id < length (scene cones.now).codes }
    requires windows { AreWindows (scene cones.now) windows.old }
    ensures retained { OnOk result (Appends (AreRetained (scene cones.now) id) ranges.old.items ranges.new.items) }
    ensures windows { AreWindows (scene cones.now) windows.new }
{
    let number = cones.tables.of_zone[cones.zones[id] as usize];
    if !has_lane(&windows.windows[number], cones.places.codes[id]) {
        make_window(windows, cones, number, id)?;
    }
    add_lane(ranges, cones, &windows.windows[number], id)
}

fn has_lane(window: &Window, code: u64) -> bool
    ensures { IsTrue result ↔ HasLane window.now code }
{
    window.base <= code
        && code - window.base < 64
        && has_bit(window.lanes, (code - window.base) as u32)
}

// Replaces the window of a table by a window from the block `id` on.
fn make_window(
    windows: &mut Windows,
    cones: &BlockCones<'_>,
    number: usize,
    id: usize,
) -> Result<(), AllocError>
    requires id { id < length (scene cones.now).codes }
    requires number { number ≡ table_of (scene cones.now) id }
    requires windows { AreWindows (scene cones.now) windows.old }
    ensures lane { OnOk result ((w : Window)
        → HasLane (slice_index_or windows.new.windows.items number w) (slice_index (scene cones.now).codes id)) }
    ensures windows { AreWindows (scene cones.now) windows.new }
{
    let Windows {
        windows,
        sight,
        covers,
    } = windows;
    let window = &mut windows[number];
    let base = cones.places.codes[id];
    let lanes = lanes_of(cones, number, id);
    window.lanes = 0;
    window.found.clear();
    covers.clear();
    let tables = cones.tables.tables.as_slice();
    look(sight, cones, &tables[number], base, id)?;
    let lanes = served_at_once(lanes, sight.all.strips.as_slice());
    serve(&mut window.found, covers, tables, sight, lanes)?;
    window.base = base;
    window.lanes = lanes;
    Ok(())
}

// Returns the lanes that are served at once: all, but only the first if many strips see few blocks, which each lane would retain at other
// distances.
fn served_at_once(lanes: u128, strips: &[Strip]) -> u128
    requires { lanes < 2 ^ 64 }
    ensures few { result < 2 ^ 64 }
    ensures among { (i : ℕ) → has_bit result i ≡ true → has_bit lanes i ≡ true }
    ensures first { has_bit lanes 0 ≡ true → has_bit result 0 ≡ true }
{
    if strips.len() > MANY && blocks_seen(strips) / FEW < strips.len() {
        seen_at(lanes, 1, 0)
    } else {
        lanes
    }
}

// Returns the number of blocks that the strips see, as far as numbers go: a guess.
fn blocks_seen(strips: &[Strip]) -> usize {
    let mut blocks = 0usize;
    for strip in strips {
        blocks = blocks.saturating_add(strip.word.count_ones() as usize);
    }
    blocks
}

// Appends the reduced list of a block that is a lane of the window.
fn add_lane(
    ranges: &mut Vec<IdRange>,
    cones: &BlockCones<'_>,
    window: &Window,
    id: usize,
) -> Result<(), AllocError>
    requires id { id < length (scene cones.now).codes }
    requires window { IsWindow (scene cones.now) (table_of (scene cones.now) id) window.now }
    requires lane { HasLane window.now (slice_index (scene cones.now).codes id) }
    ensures { OnOk result (Appends (AreRetained (scene cones.now) id) ranges.old.items ranges.new.items) }
{
    let codes = cones.places.codes.as_slice();
    let code = codes[id];
    let lane = (code - window.base) as u32;
    for found in window.found.iter() {
        if has_bit(u128::from(found.lanes), lane) {
            let id = start_of(codes, found.near.get() as usize, code + found.distance) as u32;
            found.near.set(id);
            push_id(ranges, id)?;
        }
    }
    Ok(())
}
