//! The position of a row among packed items.

ghost use Rattle.std.specs.Prelude.{◌≡◌, ◌<◌};
ghost use Rattle.rows.specs.declared.item_ref.TheConstants.{LISTS, POSITIONS};

use std::marker::Model;

/// The number of lists that a spot can distinguish: one for each valuer that there can be.
pub const LISTS: u8 = 64;

/// The number of positions of a list that a spot can distinguish. The largest model has 64,000,064 rows and end marks.
pub const POSITIONS: u32 = 67_108_864;

/// The position of a row among several lists of packed items: the list in 6 bits, and the position in it in 26. Contracts see the two numbers.
#[derive(Clone, Copy, Debug)]
pub struct ItemRef {
    // the list times `POSITIONS`, plus the position in the list
    number: u32,
}

const _: () = prove!(size_of::<ItemRef>() == 4);

impl Model for ItemRef {
    ghost use Rattle.rows.specs.ItemRefView.{ItemRefView};
    ghost use Rattle.rows.specs.inner.ItemRefFields.{item_ref_in, number_of, number_back};

    ghost Value = { ItemRefView };

    ghost view = { item_ref_in };

    ghost inverse = { number_of };

    ghost inverse_ok = { λ s h i. record { number = number_back s i } };
}

impl ItemRef {
    /// Makes the spot for a position of a list, both from 0.
    pub fn new(list: u8, position: u32) -> ItemRef
        requires list { list < LISTS }
        requires position { position < POSITIONS }
        ensures { result ≡ record { list = list; position = position } }
    {
        ItemRef {
            number: u32::from(list) * POSITIONS + position,
        }
    }

    /// Returns the number of the list.
    pub fn list(self) -> usize
        ensures { result ≡ self.list }
    {
        (self.number / POSITIONS) as usize
    }

    /// Returns the position in the list.
    pub fn position(self) -> usize
        ensures { result ≡ self.position }
    {
        (self.number % POSITIONS) as usize
    }
}
