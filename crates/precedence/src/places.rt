//! The codes of all blocks, by identifier.

ghost use Rattle.std.specs.Prelude.{◌≡◌, ◌<◌, ◌≤◌, All, IfOk, length, map};
ghost use Rattle.std.specs.List.Sorted.{IsStrictlyIncreasing};
ghost use Rattle.precedence.specs.Codes.{place_code, place_codes};
ghost use Rattle.precedence.specs.inner.Outside.{AreColumns};
ghost use Rattle.precedence.specs.declared.places.code.TheConstants.{CODES};
ghost use Rattle.plan_parts.specs.declared.ranges.TheConstants.{MAX_BLOCKS};

use crate::places::code::code;
use crate::places::columns::{columns_of, is_sparse};
use plan_parts::block::Block;
use std::alloc::{AllocError, Global};

pub mod code;
pub mod column;
pub mod columns;
pub mod start_of;

/// The codes of all blocks of a model in the order of their identifiers.
#[derive(Debug, Drop)]
pub struct Places {
    pub codes: Vec<u64>,
    /// The columns of each chunk of identifiers, a bit for each column.
    pub columns: Vec<u128>,
    /// Whether looking at the columns saves time.
    pub sparse: bool,
    pub ghost rising: { IsStrictlyIncreasing codes.items },
    pub ghost few: { length codes.items ≤ MAX_BLOCKS },
    pub ghost small: { All (λ c. c < CODES) codes.items },
    pub ghost spanned: { AreColumns columns.items codes.items },
}

/// Returns the codes and columns of blocks that are ordered by identifier.
pub fn places_of(alloc: Global, blocks: &[Block]) -> Result<Places, AllocError>
    requires rising { IsStrictlyIncreasing (place_codes blocks.now) }
    requires few { length blocks.now ≤ MAX_BLOCKS }
    ensures { IfOk result (λ places. places.codes.items ≡ place_codes blocks.now) }
{
    let codes = codes_of(alloc, blocks)?;
    let columns = columns_of(alloc, blocks)?;
    let sparse = is_sparse(codes.as_slice());
    Ok(Places {
        codes,
        columns,
        sparse,
    })
}

fn codes_of(alloc: Global, blocks: &[Block]) -> Result<Vec<u64>, AllocError>
    ensures { IfOk result (λ codes. codes.items ≡ map place_code blocks.now) }
{
    blocks.iter().map(|block| code(block)).collect(alloc)
}
