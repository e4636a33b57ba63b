//! Reduced lists of up to 64 blocks at once: the blocks with one cone on 64 consecutive codes are lanes, one bit of a word each.

pub mod benches;
pub mod bits;
pub mod covering;
pub mod dropping;
pub mod looking;
pub mod serving;
pub mod strip;
pub mod strips;
pub mod windows;
