//! The worths of packed items.

ghost use Rattle.std.specs.Prelude.{◌≡◌, ◌+◌, ◌*◌, ◌≤◌, length, take, drop};
ghost use Rattle.rows.specs.inner.Own.{own_at};

/// The worths of items, the same number for each, one item after the other.
#[derive(Debug, Drop)]
pub struct PackedWorths {
    pub worths: Vec<i64>,
    /// The number of worths of an item.
    pub width: usize,
}

impl PackedWorths {
    /// Returns the worths of the item at a position, from 0.
    pub fn at(&self, position: usize) -> &[i64]
        requires { position * self.now.width + self.now.width ≤ length self.now.worths.items }
        ensures { result.now ≡ own_at self.now position }
    {
        worths_of_item(&self.worths, position, self.width)
    }
}

/// Returns the worths at a position, if each item has `width` worths.
#[inline(always)]
pub fn worths_of_item(worths: &[i64], position: usize, width: usize) -> &[i64]
    requires { position * width + width ≤ length worths.now }
    ensures { result.now ≡ take width (drop (position * width) worths.now) }
{
    let (_, rest) = worths.split_at(position * width);
    let (own, _) = rest.split_at(width);
    own
}
