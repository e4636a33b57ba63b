//! What is missing in a collector.

use thiserror::Error;

/// The first file that has no end mark, or no row for a place below the end mark's count; and the first place of that file without
/// a row.
#[derive(Clone, Copy, Debug, Error, PartialEq, Eq)]
#[error("file {file} lacks place {place}")]
pub struct Missing {
    /// The number of the file, from 0.
    pub file: u8,
    /// The place, from 0.
    pub place: u32,
}
