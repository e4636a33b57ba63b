//! Numbers blocks by the order of their cells.

ghost use Rattle.std.specs.Prelude.{◌≡◌, ◌≤◌, ◌<◌, ◌++◌, [], ◌∷◌, None, IfOk, IfErr, IsTrue, OnOk, All, length, map, nat_eq, slice_index_or};
ghost use Rattle.std.specs.List.{IsDistinct};
ghost use Rattle.std.specs.List.Sorted.{IsStrictlyIncreasing};
ghost use Rattle.std.specs.Map.{keys_of, values_of};
ghost use Rattle.indexmap.specs.IndexMap.{get, IsUnique};
ghost use Rattle.plan_parts.specs.declared.block.Block.{Block};
ghost use Rattle.precedence.specs.Codes.{place_codes};
ghost use Rattle.precedence.specs.Numbering.{IsNumbering};
ghost use Rattle.precedence.specs.SameBlock.{IsReason};
ghost use Rattle.precedence.specs.inner.Seen.{placed, IsSortedTable};
ghost use Rattle.plan_parts.specs.declared.ranges.TheConstants.{MAX_BLOCKS};

use crate::numbering::Numbering;
use crate::numbering::listed_blocks::ListedBlocks;
use crate::numbering::place_hashes::PlaceHashes;
use crate::numbering::same::Same;
use crate::places::code::code;
use indexmap::IndexMap;
use pit_units::OrMemory;
use plan_parts::block::Block;
use std::alloc::{AllocError, Global};

// The code of a block's cell, and the block's position in the list.
type Place = (u64, u32);

// The first position of each cell.
type Seen = IndexMap<u64, u32, PlaceHashes>;

/// Numbers a list of at most 64,000,000 blocks: the identifier of a block is the number of blocks of the list with a smaller (z, y, x).
///
/// # Errors
///
/// - `Same`: two blocks have the same indices; it names the first repetition.
/// - `OutOfMemory`: memory was refused.
pub fn number_blocks<L: ListedBlocks>(
    alloc: Global,
    listed: &L,
) -> Result<Numbering, OrMemory<Same>>
    requires { length (L.listed listed.now) ≤ MAX_BLOCKS }
    ensures numbering { IfOk result (IsNumbering (L.listed listed.now)) }
    ensures same { IfErr result (IsReason (L.listed listed.now)) }
{
    let places = sorted_places(alloc, listed)?;
    let positions = positions_of(alloc, places)?;
    let ordered = blocks_at(alloc, listed, positions.as_slice())?;
    Ok(Numbering::new(ordered, positions))
}

// Returns the cell of each block, in order.
fn sorted_places<L: ListedBlocks>(alloc: Global, listed: &L) -> Result<Vec<Place>, OrMemory<Same>>
    requires { length (L.listed listed.now) ≤ MAX_BLOCKS }
    ensures sorted { IfOk result (λ places. IsSortedTable (L.listed listed.now) places.items) }
    ensures same { IfErr result (IsReason (L.listed listed.now)) }
{
    let mut places = places_of_list(alloc, listed)?;
    // The blocks of a file are mostly in order: this sort finds such ranges.
    places.sort_by_key(|place| place.0)?;
    if rise(places.as_slice()) {
        return Ok(places);
    }
    // Some cell is listed twice: the list itself defines which repetition is first.
    require_distinct(alloc, listed)?;
    Ok(places)
}

// Returns the cell of each block, in the order of the list.
fn places_of_list<L: ListedBlocks>(alloc: Global, listed: &L) -> Result<Vec<Place>, AllocError>
    requires { length (L.listed listed.now) ≤ MAX_BLOCKS }
    ensures { IfOk result (λ places. places.items ≡ placed 0 (L.listed listed.now)) }
{
    let count = listed.count();
    let mut places = Vec::with_capacity(alloc, count)?;
    for position in 0..count {
        let block = listed.block_at(position);
        places.push((code(&block), position as u32))?;
    }
    Ok(places)
}

// Returns whether each cell comes before the next.
fn rise(places: &[Place]) -> bool
    ensures { IsTrue result → IsStrictlyIncreasing (keys_of places.now) }
{
    places.is_sorted_by(|place, next| place.0 < next.0)
}

// Fails at the first block of a list whose cell was listed before.
fn require_distinct<L: ListedBlocks>(alloc: Global, listed: &L) -> Result<(), OrMemory<Same>>
    requires { length (L.listed listed.now) ≤ MAX_BLOCKS }
    ensures differ { OnOk result (IsDistinct nat_eq (place_codes (L.listed listed.now))) }
    ensures same { IfErr result (IsReason (L.listed listed.now)) }
{
    let count = listed.count();
    let mut seen = Seen::with_capacity_and_hasher(alloc, count, PlaceHashes::of(listed))?;
    for position in 0..count {
        let block = listed.block_at(position);
        let again = position as u32;
        if let Some(first) = note(&mut seen, code(&block), again)? {
            return Err(OrMemory::Fault(Same { first, again }));
        }
    }
    Ok(())
}

// Stores a cell's position, and returns the position stored for the cell before, if any.
#[tactic(auto, using(crate::proofs::SeenPlaces::noted))]
fn note(seen: &mut Seen, place: u64, position: u32) -> Result<Option<u32>, AllocError>
    ensures before { IfOk result (λ before. before ≡ get nat_eq seen.old place) }
    ensures noted { OnOk result (get nat_eq seen.old place ≡ None
        → seen.new.entries ≡ seen.old.entries ++ (place, position) ∷ []) }
    ensures unique { IsUnique nat_eq seen.new }
{
    match seen.insert(place, position) {
        Ok(before) => Ok(before),
        Err(_) => Err(AllocError),
    }
}

// Returns the positions, in the order of the cells.
fn positions_of(alloc: Global, places: Vec<Place>) -> Result<Vec<u32>, AllocError>
    ensures { IfOk result (λ positions. positions.items ≡ values_of places.items) }
{
    places.iter().map(|place| place.1).collect(alloc)
}

// Returns the blocks at these positions.
fn blocks_at<L: ListedBlocks>(
    alloc: Global,
    listed: &L,
    positions: &[u32],
) -> Result<Vec<Block>, AllocError>
    requires { All (λ p. p < length (L.listed listed.now)) positions.now }
    ensures len { IfOk result (λ ordered. length ordered.items ≡ length positions.now) }
    ensures blocks { IfOk result
        (λ ordered. (d : Block) → ordered.items
        ≡ map (λ p. slice_index_or (L.listed listed.now) p d) positions.now) }
{
    let mut ordered = Vec::with_capacity(alloc, positions.len())?;
    for position in positions {
        ordered.push(listed.block_at(*position as usize))?;
    }
    Ok(ordered)
}
