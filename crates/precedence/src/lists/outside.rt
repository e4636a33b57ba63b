//! Passes over blocks outside a cone, many at a time.

ghost use Rattle.std.specs.Prelude.{◌≡◌, ◌+◌, ◌*◌, ◌/◌, ◌<◌, ◌≤◌, ℕ, true, false, length, slice_index, IsTrue};
ghost use Rattle.precedence.specs.inner.Outside.{IsOutside, IsNoWider, SidesExclude};
ghost use Rattle.precedence.specs.inner.Rows.{is_in_row};
ghost use Rattle.precedence.specs.inner.lanes.Bits.{has_bit};
ghost use Rattle.precedence.specs.declared.cones.cone_rows.Row.{Row};
ghost use Rattle.precedence.specs.declared.places.column.TheConstants.{COLUMN};
ghost use Rattle.precedence.specs.declared.places.columns.TheConstants.{CHUNK};
ghost use Rattle.plan_parts.specs.declared.ranges.TheConstants.{GRID_CELLS};

use crate::cones::cone_rows::Widths;
use crate::lanes::bits::{bits_between, seen_at};
use crate::lists::row_ranges::Hint;
use crate::places::Places;
use crate::places::code::ROW;
use crate::places::column::COLUMN;
use crate::places::columns::{CHUNK, FEW_ROWS};
use plan_parts::ranges::GRID_CELLS;

// The largest width of a cone with blocks that are passed over.
const WIDE: u64 = 50_000;

/// The identifier from which on blocks are looked for, and the identifier from which on another attempt to pass over blocks pays: a
/// guess.
#[derive(Clone, Copy, Debug)]
pub struct IdAfter {
    pub id: u32,
    pub retry: u32,
}

/// The value before the first row.
pub const BEFORE_ALL: IdAfter = IdAfter { id: 0, retry: 0 };

// The sides of a cone: blocks with an index along x before `west`, or from `east` on, are outside it. The columns between them are a bit
// each.
#[derive(Clone, Copy, Debug)]
struct Sides {
    west: u64,
    east: u64,
    columns: u128,
    ghost between: { (x : ℕ) → west ≤ x → x < east → x < GRID_CELLS → has_bit columns (x / COLUMN) ≡ true },
}

/// A method to pass over blocks after an empty range.
pub trait PassBlocks {
    /// Returns the identifier from which on blocks are looked for after the range of the row `i`. `past` has the end of each row of the
    /// cone. No block passed over is in a row that is no wider than `widths`.
    fn id_after(
        &self,
        places: &Places,
        past: &[u64],
        widths: &Widths,
        i: usize,
        range: Hint,
        retry: u32,
        from: u64,
    ) -> IdAfter
        requires { range.past ≤ length places.now.codes.items }
        ensures later { range.past ≤ result.id }
        ensures within { result.id ≤ length places.now.codes.items }
        ensures outside { (row : Row) (m : ℕ) → IsNoWider widths.now.west widths.now.east row
            → range.past ≤ m → m < result.id
            → is_in_row from row (slice_index places.now.codes.items m) ≡ false };
}

/// Passes over nothing: rows with many blocks have little to pass over, and each step costs time.
#[derive(Clone, Copy, Debug)]
pub struct ByRow;

/// Passes over chunks of identifiers whose blocks are outside all rows of the cone.
#[derive(Clone, Copy, Debug)]
pub struct ByChunk;

impl PassBlocks for ByRow {
    #[inline(always)]
    fn id_after(
        &self,
        _places: &Places,
        _past: &[u64],
        _widths: &Widths,
        _i: usize,
        range: Hint,
        retry: u32,
        _from: u64,
    ) -> IdAfter {
        IdAfter {
            id: range.past,
            retry,
        }
    }
}

impl PassBlocks for ByChunk {
    #[inline(always)]
    fn id_after(
        &self,
        places: &Places,
        past: &[u64],
        widths: &Widths,
        i: usize,
        range: Hint,
        retry: u32,
        from: u64,
    ) -> IdAfter {
        if range.first < range.past || range.past < retry {
            return IdAfter {
                id: range.past,
                retry,
            };
        }
        id_after_empty(places, past, widths, i, range.past, from)
    }
}

// Returns the identifier after an empty range, if an attempt to pass over blocks pays.
#[cold]
#[inline(never)]
fn id_after_empty(
    places: &Places,
    past: &[u64],
    widths: &Widths,
    i: usize,
    id: u32,
    from: u64,
) -> IdAfter
    requires id { id ≤ length places.now.codes.items }
    ensures later { id ≤ result.id }
    ensures within { result.id ≤ length places.now.codes.items }
    ensures outside { (row : Row) (m : ℕ) → IsNoWider widths.now.west widths.now.east row → id ≤ m → m < result.id
        → is_in_row from row (slice_index places.now.codes.items m) ≡ false }
{
    let start = i.saturating_add(FEW_ROWS);
    let mut next = id as usize;
    if gets_on(places.codes.as_slice(), past, start, next, from) {
        next = pass_outside(places, past, sides_of(widths, from), i, next, from);
    }
    IdAfter {
        id: next as u32,
        retry: end_of_chunk(places.codes.len(), next) as u32,
    }
}

// Returns the first identifier from `id` on that is not passed over, for these sides.
fn pass_outside(
    places: &Places,
    past: &[u64],
    sides: Sides,
    i: usize,
    id: usize,
    from: u64,
) -> usize
    requires id { id ≤ length places.now.codes.items }
    ensures later { id ≤ result }
    ensures within { result ≤ length places.now.codes.items }
    ensures outside { (m : ℕ) → id ≤ m → m < result
        → IsOutside sides.west sides.east (slice_index places.now.codes.items m) }
{
    let codes = places.codes.as_slice();
    let mut next = id;
    let mut row = i.saturating_add(FEW_ROWS);
    while gets_on(codes, past, row, next, from) && is_outside(places, sides, next) {
        next = end_of_chunk(codes.len(), next);
        row = row.saturating_add(FEW_ROWS);
    }
    next
}

// Returns whether the remainder of a chunk, from an identifier on, extends past the row.
#[inline(always)]
fn gets_on(codes: &[u64], past: &[u64], row: usize, id: usize, from: u64) -> bool
    ensures { IsTrue result → id < length codes.now }
{
    if id >= codes.len() || row >= past.len() {
        return false;
    }
    let end = end_of_chunk(codes.len(), id);
    from.saturating_add(past[row]) <= codes[end - 1]
}

// Returns the end of an identifier's chunk.
#[inline(always)]
fn end_of_chunk(count: usize, id: usize) -> usize
    ensures later { id < count → id < result }
    ensures within { result ≤ count }
    ensures chunk { result ≤ id / CHUNK * CHUNK + CHUNK }
{
    (id / CHUNK * CHUNK).saturating_add(CHUNK).min(count)
}

// Returns whether the blocks of an identifier's chunk, from the identifier on, are outside the cone.
#[inline(always)]
fn is_outside(places: &Places, sides: Sides, id: usize) -> bool
    ensures { IsTrue result → (m : ℕ) → id ≤ m → m < id / CHUNK * CHUNK + CHUNK
        → m < length places.now.codes.items
        → IsOutside sides.west sides.east (slice_index places.now.codes.items m) }
{
    match places.columns.get(id / CHUNK) {
        Some(seen) => seen_at(*seen, sides.columns, 0) == 0,
        None => false,
    }
}

// Returns the sides of a cone, as seen from the code `from`.
fn sides_of(widths: &Widths, from: u64) -> Sides
    ensures { SidesExclude widths.now from result.west result.east }
{
    let x = from % ROW;
    let cells = u64::from(GRID_CELLS);
    if x >= cells || widths.west > WIDE || widths.east > WIDE {
        return around(0, cells);
    }
    around(x.saturating_sub(widths.west), x + widths.east)
}

fn around(west: u64, east: u64) -> Sides
    ensures west { result.west ≡ west }
    ensures east { result.east ≡ east }
{
    let column = u64::from(COLUMN);
    let past = (east / column).min(127) + 1;
    let first = (west / column).min(past);
    Sides {
        west,
        east,
        columns: bits_between(first as u32, past as u32),
    }
}
