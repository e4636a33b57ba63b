//! A list of items for contracts alone.

ghost use Rattle.std.specs.Prelude.{◌≡◌, ◌++◌, [], ◌∷◌};
ghost use Rattle.plan_parts.specs.inner.Past.{items_in};

use std::marker::Model;
use std::snapshot::Snapshot;

/// Items in the order of their arrival. Uses one byte for any number of items, since none is stored. Contracts see the list of the
/// items.
#[derive(Drop)]
pub struct Past<T> {
    links: Links<T>,
}

// No item, or an item after others.
#[derive(Drop)]
enum Links<T> {
    Start,
    More(Snapshot<Links<T>>, Snapshot<T>),
}

impl<T> Model for Past<T> {
    ghost use Rattle.std.specs.Prelude.{List};
    ghost use Rattle.plan_parts.specs.inner.Past.{items_in};

    ghost Value = { List T };

    ghost view = { λ p. items_in p.links };
}

impl<T> Past<T> {
    /// Makes the empty list.
    pub fn new() -> Past<T>
        ensures { result ≡ [] }
    {
        Past {
            links: Links::Start,
        }
    }

    /// Returns these items, followed by `item`.
    pub fn with(&self, item: &T) -> Past<T>
        ensures { result ≡ self.now ++ item.now ∷ [] }
    {
        Past {
            links: self.links.with(item),
        }
    }
}

impl<T> Links<T> {
    // Returns these items, followed by `item`.
    fn with(&self, item: &T) -> Links<T>
        ensures { items_in result ≡ items_in self.now ++ item.now ∷ [] }
    {
        Links::More(Snapshot::of(self), Snapshot::of(item))
    }
}
