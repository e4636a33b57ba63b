//! Items of a file in order of place.

ghost use Rattle.std.specs.Prelude.{◌≡◌, [], OnOk, OnErr};
ghost use Rattle.collector.specs.inner.WithAt.{with_at};

use std::alloc::{AllocError, Global};
use std::marker::Model;

/// An item for each place of a file, up to the last place that has an item. A place before it without an item holds the item of a later
/// place.
#[derive(Drop)]
pub struct ByPlace<T> {
    items: Vec<T>,
}

impl<T> Model for ByPlace<T> {
    ghost use Rattle.std.specs.Prelude.{List};

    ghost Value = { List T };

    ghost view = { λ p. p.items.items };
}

impl<T: Copy> ByPlace<T> {
    /// Makes an empty list.
    pub fn new(alloc: Global) -> ByPlace<T>
        ensures { result ≡ [] }
    {
        ByPlace {
            items: Vec::new(alloc),
        }
    }

    /// Puts an item at its place. If memory is refused, nothing changes.
    pub fn store(&mut self, place: u32, item: T) -> Result<(), AllocError>
        ensures ok { OnOk result (self.new ≡ with_at self.old place item) }
        ensures err { OnErr result (self.new ≡ self.old) }
    {
        let place = place as usize;
        if place < self.items.len() {
            self.items[place] = item;
            Ok(())
        } else {
            self.items.resize(place + 1, item)
        }
    }

    /// Returns the items, in the order of the places.
    pub fn as_slice(&self) -> &[T]
        ensures { result.now ≡ self.now }
    {
        self.items.as_slice()
    }

    /// Returns the items, in the order of the places.
    pub fn into_vec(self) -> Vec<T>
        ensures { result.items ≡ self }
    {
        self.items
    }
}
