//! A linear index for each cell, in the order of identifiers.

ghost use Rattle.std.specs.Prelude.{◌≡◌, ◌<◌};
ghost use Rattle.precedence.specs.Codes.{place_code};
ghost use Rattle.precedence.specs.declared.places.code.TheConstants.{CODES};

use plan_parts::block::Block;

/// The distance between the codes of two neighbouring rows of a bench.
pub const ROW: u64 = 100_000;

/// The distance between the codes of two neighbouring benches.
pub const BENCH: u64 = 10_000_000_000;

/// The upper bound (exclusive) of all codes.
pub const CODES: u64 = 100_000_000_000_000;

/// Returns the code of a block's cell.
#[inline(always)]
pub fn code(block: &Block) -> u64
    ensures value { result ≡ place_code block.now }
    ensures small { result < CODES }
{
    u64::from(block.z) * BENCH + u64::from(block.y) * ROW + u64::from(block.x)
}
