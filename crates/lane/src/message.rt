//! The messages of the lane.

use plan_parts::block::Block;

/// A message that a take end takes: a row or the end mark of a file, or a mark that ends the taker.
#[derive(Clone, Copy, Debug, PartialEq, Eq)]
pub enum Taken {
    /// A row of a file: `place` counts the file's rows from 0.
    Row { file: u8, place: u32, block: Block },
    /// The end of a file that had `rows` rows.
    End { file: u8, rows: u32 },
    /// Every file has ended, and no message follows.
    Stop,
    /// The lane was given up.
    Quit,
}
