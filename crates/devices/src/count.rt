//! A count without a limit, for contracts alone.

ghost use Rattle.std.specs.Prelude.{◌≡◌, ◌+◌};
ghost use Rattle.devices.specs.Count.{count_of};

use std::snapshot::Snapshot;

/// An integer for contracts alone. It uses no memory, and there is always a larger one.
#[derive(Drop)]
pub enum Count {
    Zero,
    More(usize, Snapshot<Count>),
}

/// Returns the count plus `more`.
pub fn raised(count: &Count, more: usize) -> Count
    ensures { count_of result ≡ count_of count.now + more }
{
    Count::More(more, Snapshot::of(count))
}
