//! Looks at the rows of a cone from all lanes of a window at once.

ghost use Rattle.std.specs.Prelude.{◌≡◌, ◌+◌, ◌<◌, ◌≤◌, ◌^◌, ℕ, true, false, [], ◌++◌, ◌∷◌, IfSome, None, OnOk, length, slice_index, slice_index_or};
ghost use Rattle.precedence.specs.declared.lanes.strips.Strips.{Strips};
ghost use Rattle.precedence.specs.declared.places.code.TheConstants.{CODES};
ghost use Rattle.precedence.specs.inner.lanes.Bits.{has_bit};
ghost use Rattle.precedence.specs.inner.lanes.Windows.{IsBlockAt, of_table, scene, Sees};
ghost use Rattle.precedence.specs.inner.lanes.Looking.{EndBy, EndByOrLike, HasAdded, HasNone, IsLike, IsNext, IsPut, IsRowFrom, IsRange, TablesEndBy};
ghost use Rattle.precedence.specs.inner.Rows.{is_in_rows, start_of};

use crate::cones::block_cones::BlockCones;
use crate::cones::cone_rows::Row;
use crate::cones::cone_table::ConeTable;
use crate::lanes::bits::{bits_between, joined};
use crate::lanes::dropping::row_reached;
use crate::lanes::strip::Strip;
use crate::lanes::strips::{Sight, Strips};
use crate::places::start_of::start_of;
use std::alloc::AllocError;

// The row that was found last, and the last block that was seen there: guesses.
#[derive(Clone, Copy, Debug)]
struct Near {
    row: usize,
    id: usize,
}

/// Puts what a window's lanes see in the rows of a table into `sight`. The block `id` is the first of the window.
pub fn look(
    sight: &mut Sight,
    cones: &BlockCones<'_>,
    table: &ConeTable,
    base: u64,
    id: usize,
) -> Result<(), AllocError>
    requires base { base < CODES }
    requires tables { length sight.old.by_table.items ≡ length (scene cones.now).tables }
    ensures sees { OnOk result (Sees (scene cones.now) table.now.rows.items base (10 ^ 15) sight.new) }
    ensures tables { length sight.new.by_table.items ≡ length (scene cones.now).tables }
{
    clear(sight);
    let mut near = Near { row: 0, id };
    let mut at = 0;
    while let Some(strip) = next_strip(cones, table, base, at, &mut near) {
        let next = add_strip(sight, cones, base, strip)?;
        near.id = next.saturating_sub(1);
        at = strip.start + u64::from(strip.len);
    }
    Ok(())
}

fn clear(sight: &mut Sight)
    ensures all { sight.new.all.strips.items ≡ [] }
    ensures tables { length sight.new.by_table.items ≡ length sight.old.by_table.items }
    ensures each { (n : ℕ) (s : Strips) → n < length sight.new.by_table.items
        → (slice_index_or sight.new.by_table.items n s).strips.items ≡ [] }
{
    clear_strips(&mut sight.all);
    for number in 0..sight.by_table.len() {
        clear_strips(&mut sight.by_table[number]);
    }
}

fn clear_strips(strips: &mut Strips)
    ensures { strips.new.strips.items ≡ [] }
{
    strips.strips.clear();
    strips.starts.clear();
}

// Returns the next distances of a row, from `at` on, at which some lane sees a block.
fn next_strip(
    cones: &BlockCones<'_>,
    table: &ConeTable,
    base: u64,
    at: u64,
    near: &mut Near,
) -> Option<Strip>
    requires base { base < CODES }
    requires at { at ≤ 10 ^ 15 }
    ensures next { IfSome result (λ strip. IsNext (scene cones.now) table.now.rows.items base at strip) }
    ensures none { result ≡ None → HasNone (scene cones.now) table.now.rows.items base at (10 ^ 15) }
{
    let codes = cones.places.codes.as_slice();
    let mut at = at;
    loop {
        let row = row_from(table, at, near)?;
        let start = at.max(row.first);
        let len = (row.past - start).min(64);
        let id = start_of(codes, near.id, base + start);
        near.id = id;
        if id >= codes.len() {
            return None;
        }
        if codes[id] < base + start + len + 63 {
            return Some(Strip {
                start,
                len: len as u32,
                word: 0,
                id: id as u32,
            });
        }
        at = codes[id] - base - 63;
    }
}

// Returns the first row that ends after `at`.
#[inline(always)]
fn row_from(table: &ConeTable, at: u64, near: &mut Near) -> Option<Row>
    requires { at ≤ 10 ^ 15 }
    ensures some { IfSome result (λ row. IsRowFrom table.now.rows.items at row) }
    ensures none { result ≡ None → (e : ℕ) → at ≤ e → is_in_rows 0 table.now.rows.items e ≡ false }
{
    let number = row_reached(table, at + 1, near.row);
    near.row = number;
    if number < table.rows.len() {
        Some(table.rows[number])
    } else {
        None
    }
}

// Appends a strip with the bits of the blocks that the lanes see there, and returns the first block after them: a guess.
fn add_strip(
    sight: &mut Sight,
    cones: &BlockCones<'_>,
    base: u64,
    strip: Strip,
) -> Result<usize, AllocError>
    requires base { base < CODES }
    requires first { strip.id ≡ start_of (base + strip.start) (scene cones.now).codes }
    requires tables { length sight.old.by_table.items ≡ length (scene cones.now).tables }
    requires ends { EndBy strip.start sight.old.all.strips.items }
    requires tables_end { TablesEndBy strip.start sight.old.by_table.items }
    ensures added { OnOk result (HasAdded (scene cones.now) base strip sight.old sight.new) }
    ensures tables { length sight.new.by_table.items ≡ length sight.old.by_table.items }
{
    let codes = cones.places.codes.as_slice();
    let from = base + strip.start;
    let past = from + u64::from(strip.len) + 63;
    let mut word = 0;
    let mut id = strip.id as usize;
    while id < codes.len() && codes[id] < past {
        let (bits, next) = range_from(cones, id, from, 128);
        let number = cones.tables.of_zone[cones.zones[id] as usize];
        add_bits(&mut sight.by_table[number], strip, bits)?;
        word = joined(word, bits);
        id = next;
    }
    push_strip(&mut sight.all, with_word(strip, word))?;
    Ok(id)
}

// Returns the bits of the blocks from `id` on that follow one another along x and have the same cone, and the first block after them.
#[inline(always)]
fn range_from(cones: &BlockCones<'_>, id: usize, from: u64, most: u32) -> (u128, usize)
    requires id { id < length (scene cones.now).codes }
    requires low { from ≤ slice_index (scene cones.now).codes id }
    requires up { slice_index (scene cones.now).codes id < from + most }
    requires most { most ≤ 128 }
    ensures { IsRange (scene cones.now) id result.1 from most result.0 }
{
    let first = cones.places.codes[id] - from;
    let count = u64::from(cones.same_cone[id]).max(1);
    let past = (first + count).min(u64::from(most));
    (bits_between(first as u32, past as u32), id + count as usize)
}

// Adds bits to the strip, which is appended if it is missing.
fn add_bits(strips: &mut Strips, strip: Strip, bits: u128) -> Result<(), AllocError>
    requires { EndByOrLike strip strips.old.strips.items }
    ensures { OnOk result (IsPut strip bits strips.old.strips.items strips.new.strips.items) }
{
    let count = strips.strips.len();
    if count > 0 && strips.strips[count - 1].start == strip.start {
        strips.strips[count - 1].word = joined(strips.strips[count - 1].word, bits);
        return Ok(());
    }
    push_strip(strips, with_word(strip, bits))
}

// Returns the strip with this word.
#[inline(always)]
fn with_word(strip: Strip, word: u128) -> Strip
    ensures like { IsLike strip result }
    ensures word { result.word ≡ word }
{
    Strip {
        start: strip.start,
        len: strip.len,
        word,
        id: strip.id,
    }
}

fn push_strip(strips: &mut Strips, strip: Strip) -> Result<(), AllocError>
    requires { EndBy strip.start strips.old.strips.items }
    ensures { OnOk result (strips.new.strips.items ≡ strips.old.strips.items ++ (strip ∷ [])) }
{
    strips.strips.reserve(1)?;
    strips.starts.push(strip.start)?;
    strips.strips.push(strip)?;
    Ok(())
}

/// Returns the lanes of a window: the blocks from the block `id` on, up to 64 codes, whose cones have the table `number`.
pub fn lanes_of(cones: &BlockCones<'_>, number: usize, id: usize) -> u128
    requires { id < length (scene cones.now).codes }
    ensures few { result < 2 ^ 64 }
    ensures sound { (i : ℕ) → has_bit result i ≡ true
        → (c : ℕ) × IsBlockAt (scene cones.now) (of_table (scene cones.now) number) (slice_index (scene cones.now).codes id + i) c }
    ensures complete { (i c : ℕ) → i < 64 → IsBlockAt (scene cones.now) (of_table (scene cones.now) number) (slice_index (scene cones.now).codes id + i) c
        → has_bit result i ≡ true }
{
    let codes = cones.places.codes.as_slice();
    let base = codes[id];
    let mut lanes = 0;
    let mut id = id;
    while id < codes.len() && codes[id] < base + 64 {
        let (bits, next) = range_from(cones, id, base, 64);
        if cones.tables.of_zone[cones.zones[id] as usize] == number {
            lanes = joined(lanes, bits);
        }
        id = next;
    }
    lanes
}
