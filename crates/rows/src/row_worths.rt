//! The worths of the rows of several files as one list.

ghost use Rattle.std.specs.Prelude.{◌≡◌, ◌<◌, All, length, map, slice_index_or, []};
ghost use Rattle.rows.specs.inner.Own.{own_on, HasOwn};

use crate::item_ref::ItemRef;
use crate::packed::worths::PackedWorths;
use std::marker::Model;

/// The worths of the rows of several files, stored in the lists of the valuers, and the order of the rows. In memory a row takes 4 bytes, and 8
/// bytes for each of its worths. Contracts see the list of each row's worths.
#[derive(Debug, Drop)]
pub struct RowWorths {
    lists: Vec<PackedWorths>,
    item_refs: Vec<ItemRef>,
}

impl Model for RowWorths {
    ghost use Rattle.std.specs.Prelude.{List, ℤ, All, map};
    ghost use Rattle.rows.specs.inner.Own.{own_on, HasOwn};

    ghost Value = { List (List ℤ) };

    ghost view = { λ r. map (own_on r.lists.items) r.item_refs.items };

    ghost invariant = { λ r. All (HasOwn r.lists.items) r.item_refs.items };
}

impl RowWorths {
    // Makes a list of the worths at these positions of the lists.
    pub(crate) fn new(lists: Vec<PackedWorths>, item_refs: Vec<ItemRef>) -> RowWorths
        requires { All (HasOwn lists.items) item_refs.items }
        ensures { result ≡ map (own_on lists.items) item_refs.items }
    {
        RowWorths { lists, item_refs }
    }

    /// Returns the number of rows.
    pub fn len(&self) -> usize
        ensures { result ≡ length self.now }
    {
        self.item_refs.len()
    }

    /// Returns the worths of the row at a position, from 0.
    pub fn at(&self, position: usize) -> &[i64]
        requires { position < length self.now }
        ensures { result.now ≡ slice_index_or self.now position [] }
    {
        let item_ref = self.item_refs[position];
        own_on(&self.lists, item_ref)
    }
}

// Returns the worths at a position of these lists.
fn own_on(lists: &[PackedWorths], item_ref: ItemRef) -> &[i64]
    requires { HasOwn lists.now item_ref }
    ensures { result.now ≡ own_on lists.now item_ref }
{
    lists[item_ref.list()].at(item_ref.position())
}
