//! The items of one valuer, unpacked.

ghost use Rattle.std.specs.Prelude.{◌≡◌, ◌-◌, vec_len, vec_capacity};

use crate::item::Item;
use std::marker::Model;

/// The items of one valuer: the rows and end marks that it took, in order. Contracts see the list of the items, and the capacity that is
/// left.
#[derive(Debug, Drop)]
pub struct Items {
    items: Vec<Item>,
}

impl Model for Items {
    ghost use Rattle.std.specs.Prelude.{◌-◌, vec_len, vec_capacity};
    ghost use Rattle.rows.specs.ItemsView.{ItemsView};

    ghost Value = { ItemsView };

    ghost view = { λ l. record {
      items = l.items.items;
      room = vec_capacity l.items - vec_len l.items;
    } };
}

impl Items {
    /// Makes a list of these items. Allocates no memory.
    pub fn new(items: Vec<Item>) -> Items
        ensures items { result.items ≡ items.items }
        ensures room { result.room ≡ vec_capacity items - vec_len items }
    {
        Items { items }
    }

    /// Returns the items in order.
    pub fn as_slice(&self) -> &[Item]
        ensures { result.now ≡ self.now.items }
    {
        self.items.as_slice()
    }
}
