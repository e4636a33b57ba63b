//! Lists of predecessors, stored or computed lazily.

ghost use Rattle.std.specs.Prelude.{◌≡◌, ◌<◌, ◌^◌, ◌++◌, [], ℕ, List, OnOk, length, slice_index_or};
ghost use Rattle.precedence.specs.IdRanges.{ids_of};

use crate::lists::id_range::IdRange;
use std::alloc::AllocError;

/// A list of predecessors for each block by identifier. `Preds` stores the lists, and `LazyPreds` computes the list of a block when it
/// is requested.
pub trait PredLists {
    ghost lists: { Self → List (List ℕ) };

    /// Returns the number of lists.
    fn count(&self) -> usize
        ensures { result ≡ length (lists self.now) };

    /// Appends ranges that represent the list of a block, which has fewer than 2^63 identifiers. If memory is refused, ranges that
    /// represent a part of the list may be appended.
    fn add_ranges(&self, ranges: &mut Vec<IdRange>, id: u32) -> Result<(), AllocError>
        requires { id < length (lists self.now) }
        ensures list { OnOk result (ids_of ranges.new.items
            ≡ ids_of ranges.old.items ++ slice_index_or (lists self.now) id []) }
        ensures countable { length (slice_index_or (lists self.now) id []) < 2 ^ 63 };
}
