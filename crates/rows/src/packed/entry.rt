//! Items without their worths.

ghost use Rattle.std.specs.Prelude.{◌≡◌, ◌≤◌, ℕ, ℤ, List, Some, None, length};
ghost use Rattle.plan_parts.specs.declared.ranges.TheConstants.{MAX_DESTINATIONS};
ghost use Rattle.rows.specs.Packed.{key_of};
ghost use Rattle.rows.specs.inner.Entries.{item_with};

use crate::item::{Item, Valued};
use crate::item_key::ItemKey;
use crate::worths::Worths;
use plan_parts::block::Block;
use plan_parts::ranges::MAX_ZONES;
use std::marker::Model;

/// An item without its worths, which are in one list with the worths of other items. Contracts see its file, its place or count, and the
/// block of a row.
#[derive(Debug, Drop)]
pub struct Entry {
    grade: u64,
    kg: u32,
    // the place of a row, the count of an end mark
    number: u32,
    x: u16,
    y: u16,
    z: u16,
    // below 64 for a row, and not for an end mark, so no other byte distinguishes the two
    zone: u8,
    file: u8,
}

const _: () = prove!(size_of::<Entry>() == 24);

impl Model for Entry {
    ghost use Rattle.plan_parts.specs.BlockParts.{AreInRange};
    ghost use Rattle.rows.specs.inner.EntryFields.{block_in};
    ghost use Rattle.rows.specs.inner.EntryView.{EntryView};

    ghost Value = { EntryView };

    ghost view = { λ e. record { file = e.file; number = e.number; block = block_in e } };

    ghost invariant = { λ e. AreInRange e.x e.y e.z e.kg e.grade 0 };
}

impl Entry {
    /// Makes the entry of a row.
    #[tactic(auto, using(crate::proofs::Entries::block_kept))]
    pub fn of_row(file: u8, place: u32, block: Block) -> Entry
        ensures { result ≡ record { file = file; number = place; block = Some block } }
    {
        Entry {
            grade: block.grade,
            kg: block.kg as u32,
            number: place,
            x: block.x,
            y: block.y,
            z: block.z,
            zone: block.zone,
            file,
        }
    }

    /// Makes the entry of an end mark.
    pub fn of_end(file: u8, rows: u32) -> Entry
        ensures { result ≡ record { file = file; number = rows; block = None } }
    {
        Entry {
            grade: 0,
            kg: 0,
            number: rows,
            x: 0,
            y: 0,
            z: 0,
            zone: MAX_ZONES,
            file,
        }
    }

    /// Returns the item with these worths.
    pub fn item(&self, own: &[i64]) -> Item
        requires some { 1 ≤ length own.now }
        requires few { length own.now ≤ MAX_DESTINATIONS }
        ensures { result ≡ item_with own.now self.now }
    {
        match self.block() {
            Some(block) => Item::Row(Valued {
                file: self.file,
                place: self.number,
                block,
                worths: Worths::of_cents(own),
            }),
            None => Item::End {
                file: self.file,
                rows: self.number,
            },
        }
    }

    /// Returns the item's mark: the item without a block and worths.
    pub fn item_key(&self) -> ItemKey
        ensures { (own : List ℤ) → result ≡ key_of (item_with own self.now) }
    {
        if self.zone < MAX_ZONES {
            ItemKey::Row {
                file: self.file,
                place: self.number,
            }
        } else {
            ItemKey::End {
                file: self.file,
                rows: self.number,
            }
        }
    }

    /// Returns the block of a row.
    pub fn block(&self) -> Option<Block>
        ensures { result ≡ self.now.block }
    {
        if self.zone < MAX_ZONES {
            Some(Block {
                x: self.x,
                y: self.y,
                z: self.z,
                kg: u64::from(self.kg),
                grade: self.grade,
                zone: self.zone,
            })
        } else {
            None
        }
    }
}
