//! The blocks of an instance.

use plan_parts::block::Block;
use plan_parts::listed::Listed;

/// Blocks in order of identifier.
pub type Blocks = Listed<Block>;
