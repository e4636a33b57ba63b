//! Numbers the blocks of rows.

ghost use Rattle.std.specs.Prelude.{◌≤◌, IfOk, IfErr, length};
ghost use Rattle.precedence.specs.Identifier.{blocks_of_rows};
ghost use Rattle.precedence.specs.Numbering.{IsNumbering};
ghost use Rattle.precedence.specs.SameBlock.{IsReason};
ghost use Rattle.plan_parts.specs.declared.ranges.TheConstants.{MAX_BLOCKS};

use crate::numbering::Numbering;
use crate::numbering::number_by_place::number_blocks;
use crate::numbering::same::Same;
use pit_units::OrMemory;
use rows::Valued;
use std::alloc::Global;

/// Numbers the blocks of a list of at most 64,000,000 rows: the identifier of a block is the number of blocks of the list with a smaller
/// (z, y, x).
///
/// # Errors
///
/// - `Same`: two blocks have the same indices; it names the first repetition.
/// - `OutOfMemory`: memory was refused.
pub fn number(alloc: Global, rows: &[Valued]) -> Result<Numbering, OrMemory<Same>>
    requires { length rows.now ≤ MAX_BLOCKS }
    ensures numbering { IfOk result (IsNumbering (blocks_of_rows rows.now)) }
    ensures same { IfErr result (IsReason (blocks_of_rows rows.now)) }
{
    number_blocks(alloc, &rows)
}
