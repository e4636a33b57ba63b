//! The number of identifiers in the lists of all blocks, counted by the rows of their cones.

ghost use Rattle.std.specs.Prelude.{◌≡◌, ◌+◌, ◌++◌, ◌==◌, ◌<◌, ◌≤◌, ℕ, [], ◌∷◌, if◌then◌else◌, All, IfOk, OnOk, length, slice_index, sum_by};
ghost use Rattle.std.specs.List.Sorted.{IsStrictlyIncreasing};
ghost use Rattle.precedence.specs.Cone.{positions_where};
ghost use Rattle.precedence.specs.inner.SameCone.{HaveSameCone, FollowAlong};
ghost use Rattle.precedence.specs.inner.Arcs.{codes_with, count_in};
ghost use Rattle.precedence.specs.inner.Lists.{in_cones};
ghost use Rattle.precedence.specs.inner.Rows.{is_in_rows, AreInOrder};
ghost use Rattle.precedence.specs.declared.places.code.TheConstants.{CODES};
ghost use Rattle.plan_parts.specs.declared.ranges.TheConstants.{MAX_BLOCKS};

use crate::cones::cone_rows::Row;
use crate::cones::zone_tables::ZoneTables;
use crate::lists::arc_counts::even_stretch::stretch_from;
use crate::lists::row_ranges::{NOTHING_KNOWN, find_range};
use crate::lists::same_cone::follow_of;
use crate::places::Places;
use crate::places::start_of::start_of;
use std::alloc::{AllocError, Global};

pub mod even_stretch;

/// Returns the number of identifiers in the lists of all blocks. The loop visits the rows of each cone, and for each row the blocks with
/// this cone. So the start and end of a row's range are mostly those of the block before, or 1 more. `same_cone` has, for each block, the
/// number of blocks from it on that follow one another with the same cone. Fails only if memory is refused.
pub fn arcs_in_cones(
    alloc: Global,
    places: &Places,
    zones: &[u8],
    same_cone: &[u16],
    tables: &ZoneTables,
) -> Result<u64, AllocError>
    requires each { length zones.now ≡ length places.now.codes.items }
    requires zones { All (λ z. z < length tables.now.of_zone.items) zones.now }
    requires same_cone { HaveSameCone places.now.codes.items tables.now.of_zone.items zones.now same_cone.now }
    ensures { IfOk result (λ arcs. arcs ≡ sum_by length (in_cones tables.now.tables.items
        tables.now.of_zone.items places.now.codes.items zones.now places.now.codes.items)) }
{
    let mut arcs = 0;
    for number in 0..tables.tables.len() {
        let own = codes_with(alloc, places, zones, tables.of_zone.as_slice(), number)?;
        let own = own.as_slice();
        let follow = follow_of(alloc, own)?;
        let rows = tables.tables[number].rows.as_slice();
        arcs += arcs_in_rows(places, same_cone, own, follow.as_slice(), rows);
    }
    Ok(arcs)
}

// Returns the codes of the blocks whose cone has the table with this number.
fn codes_with(
    alloc: Global,
    places: &Places,
    zones: &[u8],
    of_zone: &[usize],
    number: usize,
) -> Result<Vec<u64>, AllocError>
    requires each { length zones.now ≡ length places.now.codes.items }
    requires zones { All (λ z. z < length of_zone.now) zones.now }
    ensures own { IfOk result (λ own. own.items
        ≡ codes_with of_zone.now number zones.now places.now.codes.items) }
    ensures small { IfOk result (λ own. All (λ c. c < CODES) own.items) }
    ensures few { IfOk result (λ own. length own.items ≤ MAX_BLOCKS) }
{
    let mut own = Vec::new(alloc);
    for k in 0..places.codes.len() {
        let place = of_zone[zones[k] as usize];
        push_own(&mut own, place, number, places.codes[k])?;
    }
    Ok(own)
}

// Appends the code if the two numbers are equal.
#[inline(always)]
fn push_own(own: &mut Vec<u64>, place: usize, number: usize, code: u64) -> Result<(), AllocError>
    requires code { code < CODES }
    requires small { All (λ c. c < CODES) own.old.items }
    ensures own { OnOk result (own.new.items
        ≡ own.old.items ++ (if place == number then code ∷ [] else [])) }
    ensures small { OnOk result (All (λ c. c < CODES) own.new.items) }
    ensures few { OnOk result (length own.new.items ≤ length own.old.items + 1) }
{
    if place == number {
        own.push(code)?;
    }
    Ok(())
}

// Returns the number of identifiers in the rows, as seen from each of the codes. `follow` has, for each code, the number of codes from it
// on that follow one another.
fn arcs_in_rows(
    places: &Places,
    same_cone: &[u16],
    own: &[u64],
    follow: &[u16],
    rows: &[Row],
) -> u64
    requires same_cone { FollowAlong places.now.codes.items same_cone.now }
    requires follow { FollowAlong own.now follow.now }
    requires in_order { AreInOrder rows.now }
    requires rising { IsStrictlyIncreasing own.now }
    requires small { All (λ c. c < CODES) own.now }
    requires few { length own.now ≤ MAX_BLOCKS }
    ensures { result ≡ sum_by (λ from. length (positions_where (is_in_rows from rows.now) 0 places.now.codes.items)) own.now }
{
    let mut arcs = 0;
    for row in rows {
        arcs += arcs_in_row(places, same_cone, own, follow, *row);
    }
    arcs
}

// Returns the number of identifiers in one row, as seen from each of the codes. Codes with an empty row are passed over. Codes whose
// numbers grow or shrink evenly are counted many at a time.
fn arcs_in_row(places: &Places, same_cone: &[u16], own: &[u64], follow: &[u16], row: Row) -> u64
    requires same_cone { FollowAlong places.now.codes.items same_cone.now }
    requires follow { FollowAlong own.now follow.now }
    requires rising { IsStrictlyIncreasing own.now }
    requires small { All (λ c. c < CODES) own.now }
    requires few { length own.now ≤ MAX_BLOCKS }
    ensures { result ≡ sum_by (count_in places.now.codes.items row) own.now }
{
    let mut arcs = 0;
    let mut range = NOTHING_KNOWN;
    let mut k = 0;
    while k < own.len() {
        range = find_range(places, row, range, own[k]);
        if range.first < range.past {
            let stretch = stretch_from(places, same_cone, own, follow, row, k, range);
            arcs += stretch.arcs;
            k += stretch.blocks;
            range = stretch.last;
        } else {
            k = next_own(places, own, row, k, range.first as usize);
        }
    }
    arcs
}

// Returns the first index after `k` of a code whose row can contain the identifier `id`, or the number of codes.
fn next_own(places: &Places, own: &[u64], row: Row, k: usize, id: usize) -> usize
    requires rising { IsStrictlyIncreasing own.now }
    requires k { k < length own.now }
    ensures later { k < result }
    ensures within { result ≤ length own.now }
    ensures none { (j : ℕ) → k < j → j < result → id < length places.now.codes.items
        → slice_index own.now j + row.past ≤ slice_index places.now.codes.items id }
{
    if id >= places.codes.len() {
        return own.len();
    }
    let far = places.codes[id].saturating_sub(row.past);
    start_of(own, k, far + 1).max(k + 1)
}
