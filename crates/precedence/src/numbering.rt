//! The blocks of a model by identifier.

ghost use Rattle.std.specs.Prelude.{◌≡◌, ◌≤◌, ◌<◌, length, slice_get, slice_index, All, Some};
ghost use Rattle.std.specs.List.Sorted.{IsStrictlyIncreasing};
ghost use Rattle.precedence.specs.Codes.{place_codes};
ghost use Rattle.plan_parts.specs.declared.ranges.TheConstants.{MAX_BLOCKS};

use plan_parts::block::Block;
use std::marker::Model;

pub mod listed_blocks;
pub mod number_by_place;
pub mod number_rows;
pub mod place_hashes;
pub mod same;

/// The blocks of a model in the order of their identifiers 0, 1, 2, .., and the position of each in the numbered list. Contracts see a
/// record of both.
#[derive(Debug, Drop)]
pub struct Numbering {
    blocks: Vec<Block>,
    positions: Vec<u32>,
}

impl Model for Numbering {
    ghost use Rattle.precedence.specs.Numbering.{NumberingView};

    ghost Value = { NumberingView };

    ghost use Rattle.precedence.specs.inner.NumberingFields.{numbered_of, KeepsNumbering};

    ghost view = { numbered_of };

    ghost invariant = { KeepsNumbering };
}

impl Numbering {
    // Returns the numbering with these columns.
    pub(crate) fn new(blocks: Vec<Block>, positions: Vec<u32>) -> Numbering
        requires rising { IsStrictlyIncreasing (place_codes blocks.items) }
        requires placed { length positions.items ≡ length blocks.items }
        requires within { All (λ p. p < length blocks.items) positions.items }
        requires few { length blocks.items ≤ MAX_BLOCKS }
        ensures { result ≡ record { blocks = blocks.items; positions = positions.items } }
    {
        Numbering { blocks, positions }
    }

    /// Returns the number of blocks, at most 64,000,000.
    pub fn len(&self) -> u32
        ensures value { result ≡ length self.now.blocks }
        ensures positions { length self.now.positions ≡ result }
        ensures few { result ≤ MAX_BLOCKS }
    {
        self.blocks.len() as u32
    }

    /// Returns the block with the identifier `id`.
    pub fn block(&self, id: u32) -> Block
        requires { id < length self.now.blocks }
        ensures { slice_get self.now.blocks id ≡ Some result }
    {
        self.blocks[id as usize]
    }

    /// Returns the position in the list, from 0, of the block with the identifier `id`.
    pub fn position(&self, id: u32) -> u32
        requires { id < length self.now.blocks }
        ensures { result ≡ slice_index self.now.positions id }
    {
        self.positions[id as usize]
    }

    /// Returns the blocks in the order of their identifiers.
    pub fn blocks(&self) -> &[Block]
        ensures value { result.now ≡ self.now.blocks }
        ensures rising { IsStrictlyIncreasing (place_codes self.now.blocks) }
        ensures few { length self.now.blocks ≤ MAX_BLOCKS }
    {
        self.blocks.as_slice()
    }

    /// Returns each block's position in the list, from 0, in the order of identifiers.
    pub fn positions(&self) -> &[u32]
        ensures value { result.now ≡ self.now.positions }
        ensures each { length self.now.positions ≡ length self.now.blocks }
        ensures within { All (λ p. p < length self.now.blocks) self.now.positions }
    {
        self.positions.as_slice()
    }

    /// Returns the blocks in the order of their identifiers, and the position of each in the list, from 0.
    pub fn into_parts(self) -> (Vec<Block>, Vec<u32>)
        ensures blocks { result.0.items ≡ self.blocks }
        ensures positions { result.1.items ≡ self.positions }
        ensures each { length self.positions ≡ length self.blocks }
        ensures within { All (λ p. p < length self.blocks) self.positions }
        ensures few { length self.blocks ≤ MAX_BLOCKS }
    {
        (self.blocks, self.positions)
    }
}
