//! Values that are computed lazily.

ghost use Rattle.std.specs.Prelude.{◌≡◌, ◌<◌, List, [], length, map, slice_index_or, All};
ghost use Rattle.mine_instance.specs.OfModel.{in_hundreds, values_of};
ghost use Rattle.mine_instance.specs.WorthsOf.{AreWorthsOf};
ghost use Rattle.plan_parts.specs.Plan.{PlanParts};
ghost use Rattle.precedence.specs.Identifier.{blocks_of_rows};
ghost use Rattle.precedence.specs.Numbering.{IsNumbering, NumberingView};
ghost use Rattle.rows.specs.declared.item.Valued.{Valued as ARow};

use crate::values::block::BlockValues;
use crate::values::list::ValueList;
use rows::RowWorths;
use std::marker::Model;

/// The values of blocks in order of identifier, computed lazily from the worths of the rows with these blocks. Besides these worths
/// it stores 4 bytes for each block. Contracts see a list of values for each block.
#[derive(Debug, Drop)]
pub struct LazyValues {
    worths: RowWorths,
    // The position of each block's row.
    positions: Vec<u32>,
}

impl Model for LazyValues {
    ghost use Rattle.std.specs.Prelude.{◌<◌, List, ℤ, All, length};
    ghost use Rattle.mine_instance.specs.inner.LazyValueFields.{values_at};
    ghost use Rattle.std.specs.Prelude.{map};

    ghost Value = { List (List ℤ) };

    ghost view = { λ f. map (values_at f.worths) f.positions.items };

    ghost invariant = { λ f. All (λ p. p < length f.worths) f.positions.items };
}

impl LazyValues {
    /// Makes the values from the worths at these positions, each below the number of rows. If the worths belong to rows by a plan,
    /// and the positions come from the numbering of the rows' blocks, these are the values of the blocks in order of identifier.
    pub fn new(worths: RowWorths, positions: Vec<u32>) -> LazyValues
        requires { All (λ p. p < length worths) positions.items }
        ensures value { result
            ≡ map (λ p. map in_hundreds (slice_index_or worths p [])) positions.items }
        ensures of_model { (plan : PlanParts) → (rows : List ARow) → (n : NumberingView)
            → AreWorthsOf plan worths rows → IsNumbering (blocks_of_rows rows) n
            → n.positions ≡ positions.items → result ≡ map (values_of plan) n.blocks }
    {
        LazyValues { worths, positions }
    }
}

impl ValueList for LazyValues {
    ghost list = { λ lazy. lazy };

    fn len(&self) -> usize {
        self.positions.len()
    }

    fn of_block(&self, block: usize) -> BlockValues<'_> {
        BlockValues::Cents(self.worths.at(self.positions[block] as usize))
    }
}
