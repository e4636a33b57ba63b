//! Receivers of the items of a block file, a precedence file and a model file, which store or count them.

ghost use Rattle.std.specs.Prelude.{◌≡◌, ◌<◌, ◌≤◌, ◌++◌, [], ◌∷◌, ℕ, ℤ, List, All, OnOk, OnErr, length, sum_by, true};
ghost use Rattle.mine_instance.specs.Order.{coef_before};
ghost use Rattle.mine_instance.specs.declared.coefs.coef.Coef.{Coef as ACoef};
ghost use Rattle.minelib_reading.specs.ModelDraft.{is_after, last_of};
ghost use Rattle.plan_parts.specs.declared.block.Block.{Block as ABlock};
ghost use Rattle.plan_parts.specs.declared.ranges.TheConstants.{MAX_BLOCKS};

use mine_instance::coefs::coef::Coef;
use pit_units::Dec;
use plan_parts::block::Block;
use std::alloc::AllocError;

/// A receiver of blocks, one after the other.
pub trait TakeBlocks {
    ghost blocks: { Self → List ABlock };

    /// Returns the number of blocks.
    fn count(&self) -> usize
        ensures value { result ≡ length (blocks self.now) };

    /// Adds a block. There must be fewer than 64,000,000.
    fn take(&mut self, block: Block) -> Result<(), AllocError>
        requires { length (blocks self.old) < MAX_BLOCKS }
        ensures { OnOk result (blocks self.new ≡ blocks self.old ++ block ∷ []) };
}

/// A receiver of lists of predecessors, block after block.
pub trait TakePreds {
    ghost lists: { Self → List (List ℕ) };

    /// Returns the number of lists.
    fn count(&self) -> usize
        ensures { result ≡ length (lists self.now) };

    /// Returns the number of identifiers in all lists.
    fn arcs(&self) -> usize
        ensures { result ≡ sum_by length (lists self.now) };

    /// Adds the list of the next block. If memory is refused, the lists are invalid.
    fn take(&mut self, list: &Vec<u32>) -> Result<(), AllocError>
        requires few { length (lists self.old) < MAX_BLOCKS }
        requires short { length list.now.items ≤ MAX_BLOCKS }
        ensures { OnOk result (lists self.new ≡ lists self.old ++ list.now.items ∷ []) };
}

/// A receiver of values, block after block, and of coefficients, one after the other.
pub trait TakeItems {
    ghost values: { Self → List (List ℤ) };

    ghost coefs: { Self → List ACoef };

    /// Returns the number of blocks that have values.
    fn values_len(&self) -> usize
        ensures { result ≡ length (values self.now) };

    /// Returns the number of coefficients.
    fn coefs_len(&self) -> usize
        ensures { result ≡ length (coefs self.now) };

    /// Returns whether a coefficient follows the last one.
    fn is_after(&self, coef: &Coef) -> bool
        ensures { result ≡ is_after coef_before (last_of (coefs self.now)) coef.now };

    /// Adds the values of a block; each block must have the same number of values, and there must be fewer than 64,000,000. If
    /// memory is refused, the values are unchanged. The coefficients never change.
    fn take_values(&mut self, row: &Vec<Dec>) -> Result<(), AllocError>
        requires few { length (values self.old) < MAX_BLOCKS }
        requires width { All (λ of_block. length of_block ≡ length row.now.items) (values self.old) }
        ensures ok { OnOk result (values self.new ≡ values self.old ++ row.now.items ∷ []) }
        ensures refused { OnErr result (values self.new ≡ values self.old) }
        ensures coefs { coefs self.new ≡ coefs self.old };

    /// Adds a coefficient, which must follow the last one. The values never change.
    fn take_coef(&mut self, coef: Coef) -> Result<(), AllocError>
        requires next { is_after coef_before (last_of (coefs self.old)) coef ≡ true }
        requires block { coef.b < MAX_BLOCKS }
        requires destination { coef.d < 256 }
        requires resource { coef.r < 256 }
        ensures ok { OnOk result (coefs self.new ≡ coefs self.old ++ coef ∷ []) }
        ensures values { values self.new ≡ values self.old };
}
