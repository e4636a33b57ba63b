//! Lists of predecessors that are computed lazily, one at a time.

ghost use Rattle.std.specs.Prelude.{◌≡◌, ◌<◌, ◌^◌, ◌++◌, [], ℕ, List, OnOk, length, slice_index_or};
ghost use Rattle.precedence.specs.IdRanges.{ids_of};

use crate::lists::id_range::IdRange;
use crate::lists::pred_lists::PredLists;
use std::alloc::AllocError;

/// A list of predecessors for each block by identifier, computed when it is requested. Intermediate results are stored for later
/// requests, and change no list. A reference to `PredLists` gives the same lists.
pub trait MadeLists {
    ghost lists: { Self → List (List ℕ) };

    /// Returns the number of lists.
    fn count(&self) -> usize
        ensures { result ≡ length (lists self.now) };

    /// Appends the list of a block, which has fewer than 2^63 identifiers, as ranges; the last range may be lengthened. The lists stay
    /// unchanged. If memory is refused, a part of the list may be appended.
    fn add_ranges(&mut self, ranges: &mut Vec<IdRange>, id: u32) -> Result<(), AllocError>
        requires { id < length (lists self.old) }
        ensures list { OnOk result (ids_of ranges.new.items
            ≡ ids_of ranges.old.items ++ slice_index_or (lists self.old) id []) }
        ensures kept { lists self.new ≡ lists self.old }
        ensures countable { length (slice_index_or (lists self.old) id []) < 2 ^ 63 };
}

impl<'a, P: PredLists> MadeLists for &'a P {
    ghost lists = { λ preds. P.lists preds.now };

    fn count(&self) -> usize {
        (**self).count()
    }

    fn add_ranges(&mut self, ranges: &mut Vec<IdRange>, id: u32) -> Result<(), AllocError> {
        (**self).add_ranges(ranges, id)
    }
}
