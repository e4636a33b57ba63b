//! The rows of several files as one list.

ghost use Rattle.std.specs.Prelude.{◌≡◌, ◌<◌, All, Some, filter_map, length, map, slice_get, IfOk};
ghost use Rattle.std.specs.List.{AllZip};
ghost use Rattle.std.specs.Option.{option_map};
ghost use Rattle.rows.specs.ItemsView.{items_in};
ghost use Rattle.rows.specs.Packed.{row_on, HasRow};
ghost use Rattle.rows.specs.inner.Own.{HasWorths};

use crate::item::{Item, Valued};
use crate::item_ref::ItemRef;
use crate::packed::items::PackedItems;
use crate::packed::worths::PackedWorths;
use crate::row_worths::RowWorths;
use plan_parts::block::Block;
use std::alloc::{AllocError, Global};
use std::marker::Model;

/// The rows of several files, stored in the lists of the valuers, and their order. The order takes 4 bytes for each row. Contracts see one
/// list: the rows in this order.
#[derive(Debug, Drop)]
pub struct RowLists {
    lists: Vec<PackedItems>,
    item_refs: Vec<ItemRef>,
}

impl Model for RowLists {
    ghost use Rattle.std.specs.Prelude.{List, All, filter_map};
    ghost use Rattle.rows.specs.ItemsView.{items_in};
    ghost use Rattle.rows.specs.Packed.{row_on, HasRow};
    ghost use Rattle.rows.specs.declared.item.Valued.{Valued};

    ghost Value = { List Valued };

    ghost view = { λ r. filter_map (row_on (items_in r.lists.items)) r.item_refs.items };

    ghost invariant = { λ r. All (HasRow (items_in r.lists.items)) r.item_refs.items };
}

impl RowLists {
    /// Makes a list of the rows at these positions of the lists, without copying them.
    pub fn new(lists: Vec<PackedItems>, item_refs: Vec<ItemRef>) -> RowLists
        requires { All (HasRow (items_in lists.items)) item_refs.items }
        ensures { result ≡ filter_map (row_on (items_in lists.items)) item_refs.items }
    {
        RowLists { lists, item_refs }
    }

    /// Returns the number of rows.
    #[tactic(auto, using(crate::proofs::Found::found))]
    pub fn len(&self) -> usize
        ensures { result ≡ length self.now }
    {
        self.item_refs.len()
    }

    /// Returns the row at a position, from 0.
    #[tactic(auto, using(crate::proofs::Found::found))]
    pub fn at(&self, position: usize) -> Valued
        requires { position < length self.now }
        ensures { slice_get self.now position ≡ Some result }
    {
        let item_ref = self.item_refs[position];
        row_on(&self.lists, item_ref)
    }

    /// Returns the block of the row at a position, from 0.
    #[tactic(auto, using(crate::proofs::Found::found))]
    pub fn block_at(&self, position: usize) -> Block
        requires { position < length self.now }
        ensures { Some result ≡ option_map (λ row. row.block) (slice_get self.now position) }
    {
        let item_ref = self.item_refs[position];
        block_on(&self.lists, item_ref)
    }

    /// Returns the worths of the rows without moving them, and drops everything else. Fails only if memory for one entry for each list is
    /// refused.
    pub fn into_worths(self, alloc: Global) -> Result<RowWorths, AllocError>
        ensures { IfOk result (λ worths. worths ≡ map (λ row. row.worths) self) }
    {
        Ok(RowWorths::new(worths_of(alloc, self.lists)?, self.item_refs))
    }
}

fn row_on(lists: &[PackedItems], item_ref: ItemRef) -> Valued
    requires { HasRow (items_in lists.now) item_ref }
    ensures { Some result ≡ row_on (items_in lists.now) item_ref }
{
    match lists[item_ref.list()].at(item_ref.position()) {
        Item::Row(row) => row,
        Item::End { .. } => unreachable!(),
    }
}

fn block_on(lists: &[PackedItems], item_ref: ItemRef) -> Block
    requires { HasRow (items_in lists.now) item_ref }
    ensures { Some result ≡ option_map (λ row. row.block) (row_on (items_in lists.now) item_ref) }
{
    lists[item_ref.list()]
        .block_at(item_ref.position())
        .unwrap()
}

// Returns the worths of each of these lists of items, and drops the remainder.
fn worths_of(alloc: Global, lists: Vec<PackedItems>) -> Result<Vec<PackedWorths>, AllocError>
    ensures { IfOk result (λ worths. AllZip HasWorths (items_in lists.items) worths.items) }
{
    let mut worths = Vec::with_capacity(alloc, lists.len())?;
    for items in lists {
        worths.push(items.into_worths())?;
    }
    Ok(worths)
}
