//! Blocks by their positions in a list.

ghost use Rattle.std.specs.Prelude.{◌≡◌, ◌<◌, ◌≤◌, List, Some, length, slice_get};
ghost use Rattle.plan_parts.specs.declared.block.Block.{Block};
ghost use Rattle.plan_parts.specs.declared.ranges.TheConstants.{MAX_BLOCKS};
ghost use Rattle.precedence.specs.Identifier.{blocks_of_rows};

use plan_parts::block::Block;
use rows::{RowLists, Valued};

/// Blocks that can be numbered: each has a position in a list. Contracts see the list.
pub trait ListedBlocks {
    ghost listed: { Self → List Block };

    /// Returns the number of blocks.
    fn count(&self) -> usize
        requires { length (listed self.now) ≤ MAX_BLOCKS }
        ensures { result ≡ length (listed self.now) };

    /// Returns the block at a position, from 0.
    fn block_at(&self, position: usize) -> Block
        requires { position < length (listed self.now) }
        ensures { slice_get (listed self.now) position ≡ Some result };
}

impl<'a> ListedBlocks for &'a [Block] {
    ghost listed = { λ blocks. blocks.now };

    fn count(&self) -> usize {
        self.len()
    }

    fn block_at(&self, position: usize) -> Block {
        self[position]
    }
}

impl<'a> ListedBlocks for &'a [Valued] {
    ghost listed = { λ rows. blocks_of_rows rows.now };

    fn count(&self) -> usize {
        self.len()
    }

    fn block_at(&self, position: usize) -> Block {
        self[position].block
    }
}

impl ListedBlocks for RowLists {
    ghost listed = { λ rows. blocks_of_rows rows };

    fn count(&self) -> usize {
        self.len()
    }

    fn block_at(&self, position: usize) -> Block {
        RowLists::block_at(self, position)
    }
}
