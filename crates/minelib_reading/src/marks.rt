//! A test whether numbers are distinct, in linear time.

ghost use Rattle.std.specs.Prelude.{◌≡◌, ◌<◌, ◌≤◌, length, All, IfOk};
ghost use Rattle.minelib_reading.specs.inner.Marks.{AreClear, AreMarked, rise_above};
ghost use Rattle.minelib_reading.specs.LineForms.{all_differ};
ghost use Rattle.plan_parts.specs.declared.ranges.TheConstants.{MAX_BLOCKS};

use std::alloc::{AllocError, Global};
use std::marker::Model;

/// A mark for each block. Between two calls no mark is set. Contracts see the number of blocks.
#[derive(Drop)]
pub struct Marks {
    alloc: Global,
    blocks: usize,
    // Empty before the first list is tested.
    places: Vec<bool>,
}

impl Model for Marks {
    ghost use Rattle.std.specs.Prelude.{ℕ, ◌≤◌, vec_len};
    ghost use Rattle.minelib_reading.specs.inner.Marks.{AreClear};
    ghost use Rattle.plan_parts.specs.declared.ranges.TheConstants.{MAX_BLOCKS};

    ghost Value = { ℕ };

    ghost view = { λ m. m.blocks };

    ghost invariant = { λ m. (m.blocks ≤ MAX_BLOCKS) × (vec_len m.places ≤ m.blocks)
        × AreClear m.places.items };
}

impl Marks {
    /// Makes marks for `blocks` blocks. Allocates no memory before a list is tested.
    pub fn new(alloc: Global, blocks: usize) -> Marks
        requires { blocks ≤ MAX_BLOCKS }
        ensures { result ≡ blocks }
    {
        Marks {
            alloc,
            blocks,
            places: Vec::new(alloc),
        }
    }

    /// Returns the number of blocks.
    pub fn len(&self) -> usize
        ensures value { result ≡ self.now }
        ensures few { result ≤ MAX_BLOCKS }
    {
        self.blocks
    }

    /// Returns whether the identifiers are distinct. Each must be below the number of blocks. Fails only if memory is refused.
    pub fn all_differ(&mut self, ids: &[u32]) -> Result<bool, AllocError>
        requires { All (λ id. id < self.old) ids.now }
        ensures value { IfOk result (λ differ. differ ≡ all_differ ids.now) }
        ensures kept { self.new ≡ self.old }
    {
        if self.places.len() < self.blocks {
            self.places = Vec::from_elem(self.alloc, false, self.blocks)?;
        }
        let differ = mark_new(self.places.as_mut_slice(), ids);
        unmark(self.places.as_mut_slice(), ids);
        Ok(differ)
    }
}

/// Returns whether the numbers rise and the first is above `own`. Such numbers are distinct and other than `own`, so they need no
/// marks.
pub fn rise_above(own: u32, ids: &[u32]) -> bool
    ensures { result ≡ rise_above own ids.now }
{
    let mut last = own;
    for id in ids {
        if *id <= last {
            return false;
        }
        last = *id;
    }
    true
}

// Marks the numbers up to the first marked one, and returns whether there was none.
fn mark_new(marks: &mut [bool], ids: &[u32]) -> bool
    requires below { All (λ id. id < length marks.old) ids.now }
    requires clear { AreClear marks.old }
    ensures value { result ≡ all_differ ids.now }
    ensures marked { AreMarked ids.now marks.new }
    ensures kept { length marks.new ≡ length marks.old }
{
    for id in ids {
        if marks[*id as usize] {
            return false;
        }
        marks[*id as usize] = true;
    }
    true
}

fn unmark(marks: &mut [bool], ids: &[u32])
    requires below { All (λ id. id < length marks.old) ids.now }
    requires marked { AreMarked ids.now marks.old }
    ensures clear { AreClear marks.new }
    ensures kept { length marks.new ≡ length marks.old }
{
    for id in ids {
        marks[*id as usize] = false;
    }
}
