//! Predecessors that are computed lazily.

ghost use Rattle.std.specs.Prelude.{◌≡◌, ◌<◌, ◌^◌, ◌++◌, [], IfOk, OnOk, filter, length, map, not, slice_index_or, sum_by};
ghost use Rattle.precedence.specs.PredecessorOfAny.{is_predecessor_of_any};
ghost use Rattle.precedence.specs.Cone.{preds};
ghost use Rattle.precedence.specs.Zones.{HasZones};
ghost use Rattle.precedence.specs.IdRanges.{ids_of};
ghost use Rattle.precedence.specs.inner.Lists.{in_cone};
ghost use Rattle.precedence.specs.declared.places.code.TheConstants.{CODES};

use crate::cones::block_cones::BlockCones;
use crate::cones::bounds::extents_of;
use crate::cones::zone_tables::{ZoneTables, tables_of};
use crate::lanes::strips::Windows;
use crate::lanes::windows::{add_retained, no_windows};
use crate::lists::arc_counts::arcs_in_cones;
use crate::lists::id_range::IdRange;
use crate::lists::ids_as_ranges::add_ids_of_ranges;
use crate::lists::outside::{ByChunk, ByRow};
use crate::lists::pred_lists::PredLists;
use crate::lists::predecessors::Preds;
use crate::lists::row_ranges::{Hint, add_ranges_in_rows, no_hints};
use crate::lists::same_cone::same_cone_of;
use crate::numbering::Numbering;
use crate::places::{Places, places_of};
use plan_parts::block::Block;
use plan_parts::plan::Plan;
use std::alloc::{AllocError, Global};
use std::cell::Cell;
use std::marker::Model;

// A cone of one bench under slopes of 1:1 has about this many blocks.
const USUAL: usize = 8;

/// The predecessors of each block by identifier, in ascending order, computed when they are requested. Takes 11 bytes for each block, 40
/// bytes for each cone row, and the windows. Contracts see the list of all lists, as with `Preds`.
#[derive(Drop)]
pub struct LazyPreds {
    places: Places,
    // by identifier
    zones: Vec<u8>,
    // the number of blocks from each one on that follow one another along x with the same cone
    same_cone: Vec<u16>,
    tables: ZoneTables,
    // the last range of each row of the tables: a guess, which changes the time and not the lists
    hints: Vec<Cell<Hint>>,
    // the reduced lists of the last windows' blocks
    windows: Windows,
}

impl Model for LazyPreds {
    ghost use Rattle.std.specs.Prelude.{ℕ, List};

    ghost Value = { List (List ℕ) };

    ghost use Rattle.precedence.specs.inner.LazyPredsFields.{lazy_lists_of, IsLazyPreds};

    ghost view = { lazy_lists_of };

    ghost invariant = { IsLazyPreds };
}

impl LazyPreds {
    /// Creates lists whose entry for a block has the blocks of the cone above it. The slopes and the number of benches are those of the
    /// block's zone. The plan must have the zone of each block. Fails only if memory is refused.
    pub fn new(alloc: Global, numbering: &Numbering, plan: &Plan) -> Result<LazyPreds, AllocError>
        requires { HasZones plan.now numbering.now.blocks }
        ensures { IfOk result (λ lazy. lazy ≡ preds plan.now numbering.now.blocks) }
    {
        let blocks = numbering.blocks();
        let places = places_of(alloc, blocks)?;
        let zones = zones_of(alloc, blocks)?;
        let cones = plan.cones();
        let extents = extents_of(alloc, blocks, cones.len())?;
        let tables = tables_of(alloc, plan.grid(), cones, extents.as_slice())?;
        let same_cone = same_cone_of(
            alloc,
            places.codes.as_slice(),
            zones.as_slice(),
            tables.of_zone.as_slice(),
        )?;
        let hints = no_hints(alloc, tables.rows())?;
        let windows = no_windows(alloc, tables.tables.len())?;
        Ok(LazyPreds {
            places,
            zones,
            same_cone,
            tables,
            hints,
            windows,
        })
    }

    /// Returns whether many rows of a bench have few blocks. If so, computing all lists takes less time than counting by the rows of the
    /// cones.
    pub fn is_sparse(&self) -> bool {
        self.places.sparse
    }

    /// Returns the number of identifiers in all lists. Fails only if memory is refused.
    pub fn arcs(&self, alloc: Global) -> Result<u64, AllocError>
        ensures { IfOk result (λ arcs. arcs ≡ sum_by length self.now) }
    {
        arcs_in_cones(
            alloc,
            &self.places,
            self.zones.as_slice(),
            self.same_cone.as_slice(),
            &self.tables,
        )
    }

    /// Appends the block's reduced list as ranges; the last range may be lengthened. A predecessor is dropped if it is also a predecessor
    /// of another of the block's predecessors. Stores results for the blocks after it in its row. The lists stay unchanged. Fails only if
    /// memory is refused; then a part of the reduced list may be appended.
    #[tactic(auto, using(crate::proofs::AllLists::lazy_length))]
    pub fn add_retained(&mut self, ranges: &mut Vec<IdRange>, block: u32) -> Result<(), AllocError>
        requires block { block < length self.old }
        ensures retained { OnOk result (ids_of ranges.new.items ≡ ids_of ranges.old.items ++ filter
            (λ c. not (is_predecessor_of_any self.old (slice_index_or self.old block []) c)) (slice_index_or self.old block [])) }
        ensures kept { self.new ≡ self.old }
        ensures countable { length (slice_index_or self.old block []) < 2 ^ 63 }
    {
        let cones = BlockCones {
            places: &self.places,
            zones: self.zones.as_slice(),
            same_cone: self.same_cone.as_slice(),
            tables: &self.tables,
        };
        add_retained(ranges, &mut self.windows, &cones, block as usize)?;
        Ok(())
    }

    /// Returns all lists, stored. Fails only if memory is refused.
    #[tactic(auto, using(crate::proofs::AllLists::lazy_length))]
    pub fn stored(&self, alloc: Global) -> Result<Preds, AllocError>
        ensures { IfOk result (λ lists. lists ≡ self.now) }
    {
        let count = self.zones.len();
        let mut flat = Vec::with_capacity(alloc, count.saturating_mul(USUAL))?;
        let mut ends = Vec::with_capacity(alloc, count)?;
        let mut ranges = Vec::new(alloc);
        for id in 0..count as u32 {
            ranges.clear();
            self.add_ranges(&mut ranges, id)?;
            add_ids_of_ranges(&mut flat, ranges.as_slice())?;
            ends.push(flat.len())?;
        }
        Ok(Preds::of_parts(flat, ends))
    }
}

impl PredLists for LazyPreds {
    ghost lists = { λ lazy. lazy };

    #[tactic(auto, using(crate::proofs::AllLists::lazy_length))]
    fn count(&self) -> usize {
        self.zones.len()
    }

    #[tactic(auto, using(crate::proofs::AllLists::lazy_length))]
    fn add_ranges(&self, ranges: &mut Vec<IdRange>, id: u32) -> Result<(), AllocError> {
        let index = id as usize;
        let zone = self.zones[index];
        let from = self.places.codes[index];
        add_ranges_in_cone(
            ranges,
            &self.places,
            &self.tables,
            self.hints.as_slice(),
            zone,
            from,
        )
    }
}

/// Returns the predecessors of each block by identifier, in ascending order: the blocks of the cone above it. The slopes and the number
/// of benches are those of the block's zone. The plan must have the zone of each block. Fails only if memory is refused.
pub fn preds(alloc: Global, numbering: &Numbering, plan: &Plan) -> Result<Preds, AllocError>
    requires { HasZones plan.now numbering.now.blocks }
    ensures { IfOk result (λ lists. lists ≡ preds plan.now numbering.now.blocks) }
{
    let lazy = LazyPreds::new(alloc, numbering, plan)?;
    lazy.stored(alloc)
}

fn zones_of(alloc: Global, blocks: &[Block]) -> Result<Vec<u8>, AllocError>
    ensures { IfOk result (λ zones. zones.items ≡ map (λ b. b.zone) blocks.now) }
{
    blocks.iter().map(|block| block.zone).collect(alloc)
}

// Appends the ranges of the blocks in the rows of a zone's cone, as seen from the code `from`.
#[inline(always)]
fn add_ranges_in_cone(
    ranges: &mut Vec<IdRange>,
    places: &Places,
    tables: &ZoneTables,
    hints: &[Cell<Hint>],
    zone: u8,
    from: u64,
) -> Result<(), AllocError>
    requires zone { zone < length tables.now.of_zone.items }
    requires from { from < CODES }
    ensures { OnOk result (ids_of ranges.new.items
        ≡ ids_of ranges.old.items ++ in_cone tables.now.tables.items tables.now.of_zone.items
        places.now.codes.items zone from) }
{
    let table = tables.of(zone);
    let rows = table.rows.as_slice();
    let past = table.past.as_slice();
    let widths = &table.widths;
    let hints = &hints[table.start.min(hints.len())..];
    if places.sparse {
        add_ranges_in_rows(&ByChunk, ranges, places, rows, past, widths, hints, from)
    } else {
        add_ranges_in_rows(&ByRow, ranges, places, rows, past, widths, hints, from)
    }
}
