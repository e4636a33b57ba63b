//! Lists of the values of blocks, stored or computed lazily.

ghost use Rattle.std.specs.Prelude.{◌≡◌, ◌<◌, ℤ, List, [], length, slice_index_or};
ghost use Rattle.mine_instance.specs.BlockValues.{values_in};

use crate::values::block::BlockValues;

/// The values of blocks in order of identifier. `Values` stores them, and `LazyValues` computes them lazily.
pub trait ValueList {
    ghost list: { Self → List (List ℤ) };

    /// Returns the number of blocks.
    fn len(&self) -> usize
        ensures { result ≡ length (list self.now) };

    /// Returns the values of a block.
    fn of_block(&self, block: usize) -> BlockValues<'_>
        requires { block < length (list self.now) }
        ensures { values_in result ≡ slice_index_or (list self.now) block [] };
}
