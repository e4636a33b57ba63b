//! The reduced lists of predecessors.

ghost use Rattle.std.specs.Prelude.{◌≡◌};
ghost use Rattle.fewer_arcs.specs.Reduced.{reduced};

use precedence::{IdRange, LazyPreds, MadeLists, PredLists};
use std::alloc::AllocError;
use std::marker::Model;

/// The reduced lists of predecessors: a predecessor of a block is dropped if it is also a predecessor of another of the block's
/// predecessors. The list of a block is computed when it is requested. Contracts see the list of all lists.
#[derive(Drop)]
pub struct ReducedPreds {
    preds: LazyPreds,
}

impl Model for ReducedPreds {
    ghost use Rattle.std.specs.Prelude.{ℕ, List};
    ghost use Rattle.fewer_arcs.specs.Reduced.{reduced};

    ghost Value = { List (List ℕ) };

    ghost view = { λ f. reduced f.preds };
}

impl ReducedPreds {
    /// Returns the reduced lists of `preds`.
    pub fn new(preds: LazyPreds) -> ReducedPreds
        ensures { result ≡ reduced preds }
    {
        ReducedPreds { preds }
    }
}

impl MadeLists for ReducedPreds {
    ghost lists = { λ reduced. reduced };

    fn count(&self) -> usize {
        self.preds.count()
    }

    fn add_ranges(&mut self, ranges: &mut Vec<IdRange>, id: u32) -> Result<(), AllocError> {
        self.preds.add_retained(ranges, id)
    }
}
