//! What a window's lanes see in their cone, and what they retain.

ghost use Rattle.std.specs.Prelude.{◌≡◌, ◌≤◌, ◌^◌, map};
ghost use Rattle.precedence.specs.inner.lanes.Strips.{AreApart};

use crate::lanes::strip::Strip;
use std::cell::Cell;

/// Strips in order, and the start of each.
#[derive(Debug, Drop)]
pub struct Strips {
    pub strips: Vec<Strip>,
    pub starts: Vec<u64>,
    pub ghost each: { starts.items ≡ map (λ s. s.start) strips.items },
    pub ghost apart: { AreApart strips.items },
}

/// What a window's lanes see of all blocks, and of the blocks whose cones have one table, by the table's number.
#[derive(Debug, Drop)]
pub struct Sight {
    pub all: Strips,
    pub by_table: Vec<Strips>,
}

/// Distances of a strip, from `first` to `past` (exclusive), at which all lanes see a block whose cone has the table.
#[derive(Debug, Drop)]
pub struct Cover {
    pub table: usize,
    pub strip: usize,
    pub first: u64,
    pub past: u64,
    /// The first row that can reach the strip that was tried last: a guess.
    pub row: Cell<usize>,
    pub ghost small: { past ≤ 10 ^ 15 },
}

/// The lanes that retain the block that they see at a distance.
#[derive(Debug, Drop)]
pub struct Found {
    pub distance: u64,
    pub lanes: u64,
    /// An identifier that a lane saw there, or a smaller one: a guess.
    pub near: Cell<u32>,
}

/// The lanes of a window from the code `base` on, and what they retain.
#[derive(Debug, Drop)]
pub struct Window {
    pub base: u64,
    pub lanes: u128,
    pub found: Vec<Found>,
}

/// One window for each table, by its number, and scratch space for new windows.
#[derive(Debug, Drop)]
pub struct Windows {
    pub windows: Vec<Window>,
    pub sight: Sight,
    pub covers: Vec<Cover>,
}
