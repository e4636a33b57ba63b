//! Strips: what a window's lanes see at consecutive distances of their cone.

ghost use Rattle.std.specs.Prelude.{◌+◌, ◌<◌, ◌≤◌, ◌^◌};

/// Up to 64 distances of a cone row and the blocks there: lane i sees the bit i + k at the distance `start` + k.
#[derive(Clone, Copy, Debug)]
pub struct Strip {
    pub start: u64,
    pub len: u32,
    pub word: u128,
    /// The first identifier that it sees: a guess.
    pub id: u32,
    pub ghost some: { 0 < len },
    pub ghost few: { len ≤ 64 },
    pub ghost small: { start + len ≤ 10 ^ 15 },
}
