//! Repeated blocks.

use thiserror::Error;

/// Two blocks of a list with the same indices. `again` is the first position, from 0, whose indices were listed before, and `first` is
/// the position at which they were listed.
#[derive(Clone, Copy, Debug, Error, PartialEq, Eq)]
#[error("the block at position {again} stands where that at position {first} does")]
pub struct Same {
    pub first: u32,
    pub again: u32,
}
