//! Items packed without the space that a row does not use.

ghost use Rattle.std.specs.Prelude.{◌≡◌, ◌+◌, ◌<◌, ◌≤◌, ◌++◌, [], ◌∷◌, All, OnOk, OnErr, Some, length, slice_get, vec_len, vec_capacity};
ghost use Rattle.std.specs.Option.{option_map};
ghost use Rattle.plan_parts.specs.formulas.WorthRange.{IsWorth};
ghost use Rattle.plan_parts.specs.declared.ranges.TheConstants.{MAX_DESTINATIONS};
ghost use Rattle.rows.specs.Packed.{key_of, row_of, AreWorths};
ghost use Rattle.rows.specs.ItemsView.{IsFullFor};
ghost use Rattle.rows.specs.inner.Entries.{item_with};
ghost use Rattle.rows.specs.inner.Own.{HasWorths};

use crate::item::Item;
use crate::item_key::ItemKey;
use crate::keeps::Keeps;
use crate::long_lists::make_room_for;
use crate::packed::entry::Entry;
use crate::packed::worths::{PackedWorths, worths_of_item};
use crate::worths::{MAX_WORTHS, Worths};
use plan_parts::block::Block;
use std::alloc::{AllocError, Allocator, Global};
use std::marker::Model;

/// Items as a valuer packs them, without the space that a row does not use. In memory an item takes 24 bytes, and 8 bytes for each worth of a
/// row. Contracts see the list of the items, the capacity left for items and for worths, and the number of worths of a row.
#[derive(Debug, Drop)]
pub struct PackedItems<A: Allocator = Global> {
    entries: Vec<Entry, A>,
    // the same number for each entry, one entry after the other; zeros for an end mark
    worths: Vec<i64, A>,
    width: usize,
}

impl<A: Allocator> Model for PackedItems<A> {
    ghost use Rattle.std.specs.Prelude.{◌≡◌, ◌*◌, ◌-◌, ◌≤◌, vec_len, vec_capacity, length};
    ghost use Rattle.plan_parts.specs.declared.ranges.TheConstants.{MAX_DESTINATIONS};
    ghost use Rattle.rows.specs.ItemsView.{PackedView};
    ghost use Rattle.rows.specs.inner.Entries.{items_of};

    ghost Value = { PackedView };

    ghost view = { λ p. record {
      items = items_of p.width p.worths.items p.entries.items;
      room = vec_capacity p.entries - vec_len p.entries;
      worths_room = vec_capacity p.worths - vec_len p.worths;
      width = p.width;
    } };

    ghost invariant = { λ p. (length p.worths.items ≡ length p.entries.items * p.width)
        × (1 ≤ p.width) × (p.width ≤ MAX_DESTINATIONS) };
}

impl<A: Allocator + Copy> PackedItems<A> {
    /// Makes an empty list for rows with `width` worths.
    pub fn new(alloc: A, width: usize) -> PackedItems<A>
        requires some { 1 ≤ width }
        requires few { width ≤ MAX_DESTINATIONS }
        ensures items { result.items ≡ [] }
        ensures width { result.width ≡ width }
    {
        PackedItems {
            entries: Vec::new(alloc),
            worths: Vec::new(alloc),
            width,
        }
    }
}

impl<A: Allocator> PackedItems<A> {
    /// Returns the number of items.
    #[tactic(auto, using(crate::proofs::Entries::entries))]
    pub fn len(&self) -> usize
        ensures { result ≡ length self.now.items }
    {
        self.entries.len()
    }

    /// Returns the item at a position, from 0.
    #[tactic(auto, using(crate::proofs::Entries::entries))]
    pub fn at(&self, position: usize) -> Item
        requires { position < length self.now.items }
        ensures { slice_get self.now.items position ≡ Some result }
    {
        let own = worths_of_item(&self.worths, position, self.width);
        self.entries[position].item(own)
    }

    /// Returns the mark of the item at a position, from 0.
    #[tactic(auto, using(crate::proofs::Entries::entries))]
    pub fn key_at(&self, position: usize) -> ItemKey
        requires { position < length self.now.items }
        ensures { option_map key_of (slice_get self.now.items position) ≡ Some result }
    {
        self.entries[position].item_key()
    }

    /// Returns the block of the row at a position, from 0, or `None` if the item there is no row.
    #[tactic(auto, using(crate::proofs::Entries::entries))]
    pub fn block_at(&self, position: usize) -> Option<Block>
        requires { position < length self.now.items }
        ensures { result ≡ option_map (λ row. row.block) (row_of self.now.items position) }
    {
        self.entries[position].block()
    }

    // Appends an item with these worths.
    fn push(&mut self, entry: Entry, own: &[i128]) -> Result<(), AllocError>
        requires { AreWorths self.old.width own.now }
        ensures appended { OnOk result
            (self.new.items ≡ self.old.items ++ item_with own.now entry ∷ []) }
        ensures kept { OnErr result (self.new.items ≡ self.old.items) }
        ensures width { self.new.width ≡ self.old.width }
        ensures full { OnErr result (IsFullFor self.new.width self.new) }
    {
        make_room_for(&mut self.entries, 1)?;
        make_room_for(&mut self.worths, self.width)?;
        push_cents(&mut self.worths, own);
        self.entries.push(entry).unwrap();
        Ok(())
    }
}

impl PackedItems {
    // Returns the worths of the items, and drops the remainder.
    pub(crate) fn into_worths(self) -> PackedWorths
        ensures { HasWorths self.items result }
    {
        PackedWorths {
            worths: self.worths,
            width: self.width,
        }
    }
}

impl<A: Allocator> Keeps for PackedItems<A> {
    ghost held = { λ list. list.items };

    ghost is_for = { λ list width. list.width ≡ width };

    ghost is_full = { λ list width. IsFullFor width list };

    fn keep_row(
        &mut self,
        file: u8,
        place: u32,
        block: Block,
        worths: Worths,
    ) -> Result<(), AllocError> {
        self.push(Entry::of_row(file, place, block), worths.as_slice())
    }

    fn keep_end(&mut self, file: u8, rows: u32) -> Result<(), AllocError> {
        let zeros = [0; MAX_WORTHS];
        let width = self.width;
        self.push(Entry::of_end(file, rows), &zeros[..width])
    }
}

fn push_cents<A: Allocator>(worths: &mut Vec<i64, A>, cents: &[i128])
    requires room { vec_len worths.old + length cents.now ≤ vec_capacity worths.old }
    requires fits { All IsWorth cents.now }
    ensures { worths.new.items ≡ worths.old.items ++ cents.now }
{
    for worth in cents {
        worths.push(*worth as i64).unwrap();
    }
}
