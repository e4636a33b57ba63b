//! The columns of blocks along x, by chunks of identifiers.

ghost use Rattle.std.specs.Prelude.{◌≡◌, ◌/◌, ◌<◌, ℕ, true, IfOk, length, slice_index_or};
ghost use Rattle.plan_parts.specs.declared.block.Block.{Block};
ghost use Rattle.precedence.specs.Codes.{place_codes};
ghost use Rattle.precedence.specs.inner.Outside.{AreColumns};
ghost use Rattle.precedence.specs.inner.lanes.Bits.{has_bit};
ghost use Rattle.precedence.specs.declared.places.column.TheConstants.{COLUMN};

use crate::lanes::bits::{bits_between, joined};
use crate::places::code::{BENCH, ROW};
use crate::places::column::COLUMN;
use plan_parts::block::Block;
use std::alloc::{AllocError, Global};

/// The number of identifiers in a chunk.
pub const CHUNK: usize = 64;

/// The number of rows that must be passed over with each chunk: looking at a row takes hardly longer than looking at a chunk.
pub const FEW_ROWS: usize = 8;

// More chunks than this must extend over several rows for passing over to pay.
const MANY: usize = 16;

/// Returns whether many chunks extend over `FEW_ROWS` rows or more of one bench, so that blocks can be passed over.
pub fn is_sparse(codes: &[u64]) -> bool {
    let mut thin = 0usize;
    for k in 0..codes.len() / CHUNK {
        let first = codes[k * CHUNK];
        let last = codes[k * CHUNK + CHUNK - 1];
        if first / BENCH == last / BENCH && last.saturating_sub(first) >= FEW_ROWS as u64 * ROW {
            thin = thin.saturating_add(1);
        }
    }
    thin > MANY
}

/// Returns the columns of each chunk of blocks.
pub fn columns_of(alloc: Global, blocks: &[Block]) -> Result<Vec<u128>, AllocError>
    ensures { IfOk result (λ columns. AreColumns columns.items (place_codes blocks.now)) }
{
    let chunks = blocks.len() / CHUNK + 1;
    let mut columns = Vec::with_capacity(alloc, chunks)?;
    for k in 0..chunks {
        let start = k * CHUNK;
        let end = blocks.len().min(start + CHUNK);
        columns.push(columns_in(&blocks[start..end]))?;
    }
    Ok(columns)
}

fn columns_in(blocks: &[Block]) -> u128
    ensures { (k : ℕ) (d : Block) → k < length blocks.now → has_bit result ((slice_index_or blocks.now k d).x / COLUMN) ≡ true }
{
    let mut columns = 0;
    for block in blocks {
        let column = u32::from(block.x / COLUMN);
        columns = joined(columns, bits_between(column, column + 1));
    }
    columns
}
