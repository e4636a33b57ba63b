//! Lists in which a valuer stores its items.

ghost use Rattle.std.specs.Prelude.{◌≡◌, ◌≤◌, ◌++◌, [], ◌∷◌, ℕ, List, OnOk, OnErr, vec_len, vec_capacity};
ghost use Rattle.rows.specs.Packed.{AreWorths};
ghost use Rattle.rows.specs.declared.item.Item.{Item as AnItem};
ghost use Rattle.rows.specs.declared.item.Item.TheVariants.{Row as ARow, End as AnEnd};

use crate::item::{Item, Valued};
use crate::long_lists::make_room_for;
use crate::worths::Worths;
use plan_parts::block::Block;
use std::alloc::{AllocError, Allocator};

/// A list that stores items: unchanged, or packed without the space that a row does not use.
pub trait Keeps {
    /// The items in order.
    ghost held: { Self → List AnItem };

    /// The list is for rows with this number of worths.
    ghost is_for: { Self → ℕ → Type 0 };

    /// The list has no capacity left for a row with this number of worths.
    ghost is_full: { Self → ℕ → Type 0 };

    /// Appends a row with the list's number of worths. Memory is refused only if the list has no capacity left for it.
    fn keep_row(
        &mut self,
        file: u8,
        place: u32,
        block: Block,
        worths: Worths,
    ) -> Result<(), AllocError>
        requires fits { (width : ℕ) × is_for self.old width × AreWorths width worths }
        ensures appended { OnOk result (held self.new ≡ held self.old
            ++ ARow (record { file = file; place = place; block = block; worths = worths }) ∷ []) }
        ensures kept { OnErr result (held self.new ≡ held self.old) }
        ensures width { (width : ℕ) → is_for self.old width → is_for self.new width }
        ensures full { OnErr result ((width : ℕ) → is_for self.new width
            → is_full self.new width) };

    /// Appends the end mark of a file that sent `rows` rows. Memory is refused as for a row.
    fn keep_end(&mut self, file: u8, rows: u32) -> Result<(), AllocError>
        ensures appended { OnOk result (held self.new ≡ held self.old ++ AnEnd file rows ∷ []) }
        ensures kept { OnErr result (held self.new ≡ held self.old) }
        ensures width { (width : ℕ) → is_for self.old width → is_for self.new width }
        ensures full { OnErr result ((width : ℕ) → is_for self.new width
            → is_full self.new width) };
}

impl<A: Allocator> Keeps for Vec<Item, A> {
    ghost held = { λ list. list.items };

    ghost is_for = { λ list width. Unit {0} };

    ghost is_full = { λ list width. vec_capacity list ≤ vec_len list };

    fn keep_row(
        &mut self,
        file: u8,
        place: u32,
        block: Block,
        worths: Worths,
    ) -> Result<(), AllocError> {
        push_item(
            self,
            Item::Row(Valued {
                file,
                place,
                block,
                worths,
            }),
        )
    }

    fn keep_end(&mut self, file: u8, rows: u32) -> Result<(), AllocError> {
        push_item(self, Item::End { file, rows })
    }
}

fn push_item<A: Allocator>(items: &mut Vec<Item, A>, item: Item) -> Result<(), AllocError>
    ensures appended { OnOk result (items.new.items ≡ items.old.items ++ item ∷ []) }
    ensures kept { OnErr result (items.new.items ≡ items.old.items) }
    ensures full { OnErr result (vec_capacity items.new ≤ vec_len items.new) }
{
    make_room_for(items, 1)?;
    items.push(item).unwrap();
    Ok(())
}
