//! Hashes of cells, which depend on the complete list.

ghost use Rattle.std.specs.Prelude.{◌≤◌, length};
ghost use Rattle.plan_parts.specs.declared.ranges.TheConstants.{MAX_BLOCKS};

use crate::numbering::listed_blocks::ListedBlocks;
use crate::places::code::code;
use std::hash::{BuildHasher, DefaultHasher, Hasher};

/// Hashes that begin with the cells of a complete list: if one block of the list changes, all hashes change. This is meant to make it hard
/// to choose blocks whose cells have similar hashes. No proof guarantees it, and only the time of a search depends on it.
#[derive(Clone, Copy)]
pub struct PlaceHashes {
    beginning: DefaultHasher,
}

impl PlaceHashes {
    /// Returns hashes that begin with the cells of these blocks.
    pub fn of<L: ListedBlocks>(listed: &L) -> PlaceHashes
        requires { length (L.listed listed.now) ≤ MAX_BLOCKS }
    {
        let mut beginning = DefaultHasher::new();
        for position in 0..listed.count() {
            let block = listed.block_at(position);
            beginning.write_u64(code(&block));
        }
        PlaceHashes { beginning }
    }
}

impl BuildHasher for PlaceHashes {
    type Hasher = DefaultHasher;

    ghost build_hasher = { λ hashes. hashes.beginning };

    fn build_hasher(&self) -> DefaultHasher {
        self.beginning
    }
}
