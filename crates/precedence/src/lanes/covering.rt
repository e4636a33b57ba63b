//! Covers: strips by which all lanes are dropped at many distances at once.

ghost use Rattle.std.specs.Prelude.{◌≡◌, ◌+◌, ◌-◌, ◌<◌, ◌≤◌, ◌^◌, ℕ, true, false, List, All, OnOk, IfOk, length};
ghost use Rattle.precedence.specs.declared.lanes.covering.TheConstants.{COVERS};
ghost use Rattle.precedence.specs.declared.lanes.strips.Cover.{Cover};
ghost use Rattle.precedence.specs.declared.lanes.strips.Strips.{Strips};
ghost use Rattle.precedence.specs.inner.lanes.Bits.{has_bit};
ghost use Rattle.precedence.specs.inner.lanes.Windows.{AreCovers, AreUncovered, Drops, IsCover, MayDrop, MeetsAny};
ghost use Rattle.precedence.specs.inner.Rows.{is_in_rows};

use crate::cones::cone_table::ConeTable;
use crate::lanes::bits::{cleared, seen_at};
use crate::lanes::dropping::{MOST, drop_by_rows, drop_by_strips, row_reached};
use crate::lanes::strip::Strip;
use crate::lanes::strips::{Cover, Strips};
use std::alloc::AllocError;
use std::cell::Cell;

/// The largest number of covers that are kept.
pub const COVERS: usize = 6;

/// Clears bits of a strip's offsets at which a cover applies: all lanes see a block between. Bit k is the distance `start` + k.
#[inline(always)]
pub fn uncovered(offsets: u64, strip: &Strip, covers: &[Cover], tables: &[ConeTable]) -> u64
    ensures { AreUncovered tables.now covers.now strip.now.start offsets result }
{
    let mut rest = offsets;
    for cover in covers {
        if rest == 0 {
            return 0;
        }
        if cover.table < tables.len() {
            rest = uncovered_by(rest, strip, cover, &tables[cover.table]);
        }
    }
    rest
}

// Clears bits of a strip's offsets at which one cover applies.
#[inline(always)]
fn uncovered_by(offsets: u64, strip: &Strip, cover: &Cover, table: &ConeTable) -> u64
    ensures among { (k : ℕ) → has_bit result k ≡ true → has_bit offsets k ≡ true }
    ensures covered { (k : ℕ) → has_bit offsets k ≡ true → has_bit result k ≡ false
        → (e : ℕ) × (cover.now.first ≤ e) × (e < cover.now.past) × (e ≤ strip.now.start + k) × (is_in_rows 0 table.now.rows.items (strip.now.start + k - e) ≡ true) }
{
    let target = strip.start.saturating_sub(cover.first.saturating_add(MOST)) + 1;
    let number = row_reached(table, target, cover.row.get());
    cover.row.set(number);
    if cover.first >= cover.past || number >= table.rows.len() {
        return offsets;
    }
    let row = table.rows[number];
    let first = (row.first + cover.first).max(strip.start) - strip.start;
    let past = (row.past + cover.past - 1)
        .min(strip.start + u64::from(strip.len))
        .saturating_sub(strip.start);
    if first < past {
        cleared(offsets, first as u32, past as u32)
    } else {
        offsets
    }
}

/// Drops lanes that see a block between in a cover's strip, from the row on that `uncovered` found for the distance's strip.
pub fn drop_by_covers(
    lanes: u128,
    covers: &[Cover],
    tables: &[ConeTable],
    by_table: &[Strips],
    distance: u64,
) -> u128
    requires distance { distance < 10 ^ 15 }
    requires each { length by_table.now ≡ length tables.now }
    ensures { MayDrop (MeetsAny tables.now by_table.now distance) lanes result }
{
    let mut rest = lanes;
    for cover in covers {
        if rest != 0 {
            rest = drop_by_cover(rest, cover, tables, by_table, distance);
        }
    }
    rest
}

#[inline(always)]
fn drop_by_cover(
    lanes: u128,
    cover: &Cover,
    tables: &[ConeTable],
    by_table: &[Strips],
    distance: u64,
) -> u128
    requires distance { distance < 10 ^ 15 }
    requires each { length by_table.now ≡ length tables.now }
    ensures { MayDrop (MeetsAny tables.now by_table.now distance) lanes result }
{
    if cover.table >= by_table.len() {
        return lanes;
    }
    let strips = &by_table[cover.table];
    if cover.strip >= strips.strips.len() {
        return lanes;
    }
    let strip = &strips.strips[cover.strip];
    if distance < strip.start {
        return lanes;
    }
    let table = &tables[cover.table];
    let row = cover.row.get().min(table.rows.len());
    drop_by_rows(lanes, strip, table, distance - strip.start, row)
}

/// Drops the lanes of `there` that see a block between, and keeps covers of the strips that drop some: distances at which all `lanes` see
/// a block.
pub fn drop_by_all(
    there: u128,
    lanes: u128,
    covers: &mut Vec<Cover>,
    tables: &[ConeTable],
    by_table: &[Strips],
    distance: u64,
) -> Result<u128, AllocError>
    requires distance { distance < 10 ^ 15 }
    requires each { length by_table.now ≡ length tables.now }
    requires covers { AreCovers lanes by_table.now covers.old.items }
    ensures covers { OnOk result (AreCovers lanes by_table.now covers.new.items) }
    ensures drops { IfOk result (λ rest. Drops (MeetsAny tables.now by_table.now distance) there rest) }
{
    let mut rest = there;
    for number in 0..tables.len() {
        let by = Cell::new(usize::MAX);
        let strips = &by_table[number];
        rest = drop_by_strips(rest, strips, &tables[number], distance, &by);
        let place = by.get();
        if place < strips.strips.len() {
            let cover = cover_of(lanes, &strips.strips[place], number, place);
            keep_cover(covers, cover)?;
        }
    }
    Ok(rest)
}

// Returns the first range of a strip's distances at which all lanes see a block.
fn cover_of(lanes: u128, strip: &Strip, table: usize, number: usize) -> Cover
    ensures table { result.table ≡ table }
    ensures strip { result.strip ≡ number }
    ensures first { strip.now.start ≤ result.first }
    ensures past { result.past ≤ strip.now.start + strip.now.len }
    ensures all { (i e : ℕ) → result.first ≤ e → e < result.past → has_bit lanes i ≡ true
        → has_bit strip.now.word (i + (e - strip.now.start)) ≡ true }
{
    let first = first_seen(lanes, strip);
    let past = first_unseen(lanes, strip, first);
    Cover {
        table,
        strip: number,
        first: strip.start + u64::from(first),
        past: strip.start + u64::from(past),
        row: Cell::new(0),
    }
}

fn first_seen(lanes: u128, strip: &Strip) -> u32
    ensures { result ≤ strip.now.len }
{
    let mut at = 0;
    while at < strip.len && seen_at(lanes, strip.word, at) != lanes {
        at += 1;
    }
    at
}

fn first_unseen(lanes: u128, strip: &Strip, from: u32) -> u32
    requires { from ≤ strip.now.len }
    ensures within { result ≤ strip.now.len }
    ensures all { (i at : ℕ) → from ≤ at → at < result → has_bit lanes i ≡ true → has_bit strip.now.word (i + at) ≡ true }
{
    let mut at = from;
    while at < strip.len && seen_at(lanes, strip.word, at) == lanes {
        at += 1;
    }
    at
}

// Keeps a cover, in place of the oldest one if `COVERS` are kept.
fn keep_cover(covers: &mut Vec<Cover>, cover: Cover) -> Result<(), AllocError>
    ensures all { OnOk result ((lanes : ℕ) (by_table : List Strips) → All (IsCover lanes by_table) covers.old.items → IsCover lanes by_table cover
        → All (IsCover lanes by_table) covers.new.items) }
    ensures few { OnOk result (length covers.old.items ≤ COVERS → length covers.new.items ≤ COVERS) }
{
    if covers.len() >= COVERS {
        covers.remove(0);
    }
    covers.push(cover)?;
    Ok(())
}
