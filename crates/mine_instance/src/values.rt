//! Stored values of the blocks at the destinations.

ghost use Rattle.std.specs.Prelude.{◌≡◌, ◌*◌, ◌^◌, ◌-◌, ◌<◌, ◌++◌, ◌∷◌, ◌↔◌, length, vec_len, slice_index_or, [], All, IsTrue, OnOk, OnErr};
ghost use Rattle.std.specs.List.{flat_map};
ghost use Rattle.mine_instance.specs.ByBlock.{by_block};

use crate::values::block::BlockValues;
use crate::values::list::ValueList;
use pit_units::Dec;
use std::alloc::AllocError;
use std::marker::Model;

pub mod block;
pub mod in_hundreds;
pub mod largest;
pub mod lazy;
pub mod list;

/// The values of blocks in order of identifier, one for each destination, in units of 100 cents. Contracts see a list of values for
/// each block.
#[derive(Debug, Drop)]
pub struct Values {
    // The values of all blocks, block after block.
    all: Vec<Dec>,
    count: usize,
    width: usize,
}

impl Model for Values {
    ghost use Rattle.std.specs.Prelude.{◌≡◌, ◌*◌, List, ℤ, vec_len};
    ghost use Rattle.mine_instance.specs.ByBlock.{by_block};

    ghost Value = { List (List ℤ) };

    ghost view = { λ v. by_block v.count v.width v.all.items };

    ghost invariant = { λ v. vec_len v.all ≡ v.count * v.width };
}

impl Values {
    /// Makes the values of `count` blocks from a list with `width` values for each block, block after block.
    pub fn new(all: Vec<Dec>, count: usize, width: usize) -> Values
        requires { vec_len all ≡ count * width }
        ensures { result ≡ by_block count width all.items }
    {
        Values { all, count, width }
    }

    /// Returns the number of blocks.
    #[tactic(auto, using(crate::proofs::ByBlockFacts::by_blocks))]
    pub fn len(&self) -> usize
        ensures { result ≡ length self.now }
    {
        self.count
    }

    /// Returns whether each block has `width` values.
    pub fn are_of_width(&self, width: usize) -> bool
        ensures { IsTrue result ↔ All (λ values. length values ≡ width) self.now }
    {
        self.len() == 0 || self.width == width
    }

    /// Returns the values of a block, in the order of the destinations.
    #[tactic(auto, using(crate::proofs::ByBlockFacts::by_blocks))]
    pub fn of(&self, block: usize) -> &[Dec]
        requires { block < length self.now }
        ensures { result.now ≡ slice_index_or self.now block [] }
    {
        let (_, rest) = self.all.as_slice().split_at(block * self.width);
        let (values, _) = rest.split_at(self.width);
        values
    }

    /// Appends the values of a block; each block must have the same number of values. There must be fewer than 2^64 - 1 blocks. If
    /// memory is refused, the values are unchanged.
    #[tactic(auto, using(crate::proofs::ByBlockFacts::by_blocks))]
    pub fn push(&mut self, values: &[Dec]) -> Result<(), AllocError>
        requires room { length self.old < 2 ^ 64 - 1 }
        requires width { All (λ of_block. length of_block ≡ length values.now) self.old }
        ensures ok { OnOk result (self.new ≡ self.old ++ values.now ∷ []) }
        ensures kept { OnErr result (self.new ≡ self.old) }
    {
        self.all.extend_from_slice(values)?;
        self.count += 1;
        // Without earlier blocks, the width was arbitrary.
        self.width = values.len();
        Ok(())
    }

    /// Returns the values of all blocks, block after block.
    pub fn into_flat(self) -> Vec<Dec>
        ensures { result.items ≡ flat_map (λ of_block. of_block) self }
    {
        let Values { all, .. } = self;
        all
    }
}

impl ValueList for Values {
    ghost list = { λ values. values };

    fn len(&self) -> usize {
        self.len()
    }

    fn of_block(&self, block: usize) -> BlockValues<'_> {
        BlockValues::Hundreds(self.of(block))
    }
}
