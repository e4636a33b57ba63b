//! The order of rows that stay in the valuers' lists.

ghost use Rattle.std.specs.Prelude.{◌≡◌, ℕ, ◌<◌, ◌≤◌, [], All, IfOk, OnOk, length, replicate};
ghost use Rattle.std.specs.List.{flat_map};
ghost use Rattle.collector.specs.Complete.{Fits, IsComplete};
ghost use Rattle.collector.specs.Lists.{AreRows};
ghost use Rattle.collector.specs.inner.Places.{AreFew, IsOfFile, IsPlaced, IsStored, IsStoredAs, items_on};
ghost use Rattle.rows.specs.ItemsView.{items_in};
ghost use Rattle.rows.specs.Packed.{key_of};
ghost use Rattle.plan_parts.specs.declared.ranges.TheConstants.{MAX_VALUERS, MAX_ZONES};
ghost use Rattle.rows.specs.declared.item.Item.{Item as AnItem};
ghost use Rattle.rows.specs.declared.item_ref.TheConstants.{LISTS, POSITIONS};

use crate::by_place::ByPlace;
use rows::{ItemKey, ItemRef, PackedItems, RowLists};
use std::alloc::{AllocError, Global};

/// Returns the rows of the files 0 to `files` - 1, file after file and in order of place, from lists of items that are complete
/// together. The rows are not copied. Fails only if memory is refused.
pub fn in_order(alloc: Global, files: u8, lists: Vec<PackedItems>) -> Result<RowLists, AllocError>
    requires few { length lists.items ≤ MAX_VALUERS }
    requires files { files ≤ MAX_ZONES }
    requires complete { IsComplete files (flat_map (λ list. list) (items_in lists.items)) }
    ensures { IfOk result (AreRows files (flat_map (λ list. list) (items_in lists.items))) }
{
    let mut places = no_places(alloc, files)?;
    store_lists(&mut places, &lists)?;
    let item_refs = all_item_refs(alloc, places)?;
    Ok(RowLists::new(lists, item_refs))
}

// Makes empty lists of places for `files` files.
fn no_places(alloc: Global, files: u8) -> Result<Vec<ByPlace<ItemRef>>, AllocError>
    ensures { IfOk result (λ places. places.items ≡ replicate files []) }
{
    let mut places = Vec::with_capacity(alloc, files as usize)?;
    for _ in 0..files {
        places.push(ByPlace::new(alloc))?;
    }
    Ok(places)
}

// Stores the rows of all lists at their places.
fn store_lists(places: &mut [ByPlace<ItemRef>], lists: &[PackedItems]) -> Result<(), AllocError>
    requires few { length lists.now ≤ MAX_VALUERS }
    requires short { length (flat_map (λ list. list) (items_in lists.now)) ≤ POSITIONS }
    requires files { All (λ item. IsOfFile (length places.old) (key_of item)) (flat_map (λ list. list) (items_in lists.now)) }
    ensures placed { OnOk result
        (All (IsPlaced (items_in lists.now) places.new) (flat_map (λ list. list) (items_in lists.now))) }
    ensures few { (files : ℕ) (counts : ℕ → ℕ)
        → All (Fits files counts) (flat_map (λ list. list) (items_in lists.now)) → AreFew counts places.old
        → OnOk result (AreFew counts places.new) }
    ensures count { length places.new ≡ length places.old }
{
    for list in 0..lists.len() {
        store_list(places, lists, list as u8)?;
    }
    Ok(())
}

// Stores the rows of a list at their places. A place that had a row of that place still has one.
fn store_list(
    places: &mut [ByPlace<ItemRef>],
    lists: &[PackedItems],
    list: u8,
) -> Result<(), AllocError>
    requires there { list < length lists.now }
    requires reported { list < LISTS }
    requires short { length (items_on (items_in lists.now) list) ≤ POSITIONS }
    requires files { All (λ item. IsOfFile (length places.old) (key_of item)) (items_on (items_in lists.now) list) }
    ensures placed { OnOk result (All (IsPlaced (items_in lists.now) places.new) (items_on (items_in lists.now) list)) }
    ensures kept { (item : AnItem) → IsPlaced (items_in lists.now) places.old item
        → OnOk result (IsPlaced (items_in lists.now) places.new item) }
    ensures few { (files : ℕ) (counts : ℕ → ℕ) → All (Fits files counts) (items_on (items_in lists.now) list)
        → AreFew counts places.old → OnOk result (AreFew counts places.new) }
    ensures count { length places.new ≡ length places.old }
{
    let items = &lists[list as usize];
    for position in 0..items.len() {
        let item_key = items.key_at(position);
        store_by_key(places, item_key, ItemRef::new(list, position as u32))?;
    }
    Ok(())
}

// Stores the position of the row with this mark; an end mark is not stored.
fn store_by_key(
    places: &mut [ByPlace<ItemRef>],
    item_key: ItemKey,
    item_ref: ItemRef,
) -> Result<(), AllocError>
    requires { IsOfFile (length places.old) item_key }
    ensures stored { OnOk result (IsStoredAs item_key item_ref places.old places.new) }
    ensures count { length places.new ≡ length places.old }
{
    match item_key {
        ItemKey::Row { file, place } => store_row(places, file, place, item_ref),
        ItemKey::End { .. } => Ok(()),
    }
}

// Stores the position of the row with this file and place.
fn store_row(
    places: &mut [ByPlace<ItemRef>],
    file: u8,
    place: u32,
    item_ref: ItemRef,
) -> Result<(), AllocError>
    requires { file < length places.old }
    ensures stored { OnOk result (IsStored file place item_ref places.old places.new) }
    ensures count { length places.new ≡ length places.old }
{
    places[file as usize].store(place, item_ref)
}

// Returns the positions of all files, file after file. Frees the positions of each file once they are copied.
fn all_item_refs(alloc: Global, places: Vec<ByPlace<ItemRef>>) -> Result<Vec<ItemRef>, AllocError>
    ensures { IfOk result (λ item_refs. item_refs.items ≡ flat_map (λ of_file. of_file) places.items) }
{
    let mut item_refs = Vec::new(alloc);
    for of_file in places {
        item_refs.extend_from_slice(of_file.as_slice())?;
    }
    Ok(item_refs)
}
