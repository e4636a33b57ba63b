//! A range of identifiers.

ghost use Rattle.std.specs.Prelude.{◌+◌, ◌<◌, ◌≤◌, ◌^◌};

/// A range of `len` consecutive identifiers, at least one, from `first` on.
#[derive(Clone, Copy, Debug)]
pub struct IdRange {
    pub first: u32,
    pub len: u32,
    pub ghost some: { 0 < len },
    pub ghost within: { first + len ≤ 2 ^ 32 },
}
