//! The predecessors of each block of a model.

ghost use Rattle.std.specs.Prelude.{◌≡◌, ◌-◌, ◌<◌, ◌≤◌, ◌++◌, [], ◌∷◌, OnOk, OnErr, Some, drop, length, slice_get, sum_by, take};
ghost use Rattle.precedence.specs.inner.PredsFields.{pieces, start_at, AreEnds};

use crate::lists::id_range::IdRange;
use crate::lists::ids_as_ranges::add_ranges_of_ids;
use crate::lists::pred_lists::PredLists;
use std::alloc::{AllocError, Global};
use std::marker::Model;

/// A list of identifiers per block, in the order of the blocks' identifiers. Contracts see the list of these lists.
#[derive(Debug, Drop)]
pub struct Preds {
    // all lists, one after the other
    flat: Vec<u32>,
    // the end of each list
    ends: Vec<usize>,
}

impl Model for Preds {
    ghost use Rattle.std.specs.Prelude.{ℕ, List};

    ghost Value = { List (List ℕ) };

    ghost use Rattle.precedence.specs.inner.PredsFields.{lists_of, KeepsPreds};

    ghost view = { lists_of };

    ghost invariant = { KeepsPreds };
}

impl Preds {
    /// Returns a value without lists.
    pub fn new(alloc: Global) -> Preds
        ensures { result ≡ [] }
    {
        Preds {
            flat: Vec::new(alloc),
            ends: Vec::new(alloc),
        }
    }

    // Returns the lists between consecutive ends in `flat`.
    pub(crate) fn of_parts(flat: Vec<u32>, ends: Vec<usize>) -> Preds
        requires { AreEnds 0 ends.items (length flat.items) }
        ensures { result ≡ pieces flat.items 0 ends.items }
    {
        Preds { flat, ends }
    }

    /// Appends the list of the next block. If memory is refused, the lists stay unchanged.
    pub fn push(&mut self, list: &[u32]) -> Result<(), AllocError>
        ensures ok { OnOk result (self.new ≡ self.old ++ list.now ∷ []) }
        ensures err { OnErr result (self.new ≡ self.old) }
    {
        let start = self.flat.len();
        self.flat.extend_from_slice(list)?;
        match self.ends.push(self.flat.len()) {
            Ok(()) => Ok(()),
            Err(_) => {
                self.flat.truncate(start);
                Err(AllocError)
            }
        }
    }

    /// Returns the number of blocks that have a list.
    #[tactic(auto, using(crate::proofs::Pieces::as_many_pieces))]
    pub fn len(&self) -> usize
        ensures { result ≡ length self.now }
    {
        self.ends.len()
    }

    /// Returns the number of identifiers in all lists.
    #[tactic(auto, using(crate::proofs::Pieces::arcs_are))]
    pub fn arcs(&self) -> usize
        ensures { result ≡ sum_by length self.now }
    {
        self.flat.len()
    }

    /// Returns the list of the block `id`.
    #[tactic(auto, using(crate::proofs::Pieces::as_many_pieces))]
    pub fn of(&self, id: u32) -> &[u32]
        requires { id < length self.now }
        ensures { slice_get self.now id ≡ Some result.now }
    {
        piece(self.flat.as_slice(), self.ends.as_slice(), id as usize)
    }
}

impl PredLists for Preds {
    ghost lists = { λ preds. preds };

    fn count(&self) -> usize {
        self.len()
    }

    fn add_ranges(&self, ranges: &mut Vec<IdRange>, id: u32) -> Result<(), AllocError> {
        add_ranges_of_ids(ranges, self.of(id))
    }
}

// Returns the part of `flat` up to the end at `index`.
#[tactic(auto, using(crate::proofs::Pieces::parts))]
fn piece<'a>(flat: &'a [u32], ends: &[usize], index: usize) -> &'a [u32]
    requires ends { AreEnds 0 ends.now (length flat.now) }
    requires within { index < length ends.now }
    ensures { slice_get (pieces flat.now 0 ends.now) index ≡ Some result.now }
{
    let start = start_of_piece(ends, index);
    ids_between(flat, start, ends[index])
}

#[tactic(auto, using(crate::proofs::Pieces::start_is))]
fn start_of_piece(ends: &[usize], index: usize) -> usize
    requires { index < length ends.now }
    ensures { result ≡ start_at 0 ends.now index }
{
    if index == 0 { 0 } else { ends[index - 1] }
}

// Returns the identifiers from the index `start` to the index `end` (exclusive).
fn ids_between(ids: &[u32], start: usize, end: usize) -> &[u32]
    requires in_order { start ≤ end }
    requires within { end ≤ length ids.now }
    ensures { result.now ≡ take (end - start) (drop start ids.now) }
{
    &ids[start..end]
}
