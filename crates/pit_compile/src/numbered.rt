//! Numbers the rows of a model.

ghost use Rattle.std.specs.Prelude.{◌<◌, ◌≤◌, length, All, IfErr, IfOk};
ghost use Rattle.precedence.specs.Identifier.{blocks_of_rows};
ghost use Rattle.precedence.specs.Numbering.{IsNumbering};
ghost use Rattle.pit_compile.specs.inner.ModelRows.{HasPlace};
ghost use Rattle.pit_compile.specs.inner.Repeats.{IsRepeat};
ghost use Rattle.pit_compile.specs.inner.ValuedRows.{IsValuedAt};
ghost use Rattle.plan_parts.specs.declared.ranges.TheConstants.{MAX_BLOCKS};

use pit_units::OrMemory;
use precedence::{Numbering, Same, number_blocks};
use refusals::refusal::{Refusal, RowAt};
use rows::RowLists;
use std::alloc::Global;

/// Returns the blocks of the rows by identifier.
///
/// # Errors
///
/// - `Same`: two blocks are in the same cell. It names the first row in the cell of an earlier row, and that earlier row.
/// - `OutOfMemory`: memory was refused.
pub fn numbered(alloc: Global, rows: &RowLists) -> Result<Numbering, Refusal>
    requires few { length rows.now ≤ MAX_BLOCKS }
    requires placed { All HasPlace rows.now }
    ensures numbering { IfOk result (IsNumbering (blocks_of_rows rows.now)) }
    ensures refused { IfErr result (IsRepeat rows.now) }
{
    match number_blocks(alloc, rows) {
        Ok(numbering) => Ok(numbering),
        Err(OrMemory::Fault(Same { first, again })) => Err(Refusal::Same {
            first: row_at(rows, first),
            again: row_at(rows, again),
        }),
        Err(OrMemory::OutOfMemory) => Err(Refusal::OutOfMemory),
    }
}

// Returns the row at a position. The header is record 1, so the row at place 0 is record 2.
fn row_at(rows: &RowLists, position: u32) -> RowAt
    requires there { position < length rows.now }
    requires placed { All HasPlace rows.now }
    ensures { IsValuedAt rows.now position result }
{
    let row = rows.at(position as usize);
    RowAt {
        file: row.file,
        row: row.place + 2,
    }
}
