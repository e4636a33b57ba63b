//! The items that a valuer makes from the messages that it took.

use crate::worths::Worths;
use plan_parts::block::Block;
use plan_parts::listed::Listed;

/// A row of a zone file with its worths.
#[derive(Clone, Copy, Debug, PartialEq, Eq)]
pub struct Valued {
    /// The number of the file, from 0 in the order of the zone files.
    pub file: u8,
    /// Its place among the rows of its file, from 0.
    pub place: u32,
    pub block: Block,
    pub worths: Worths,
}

/// A message of a file, as a valuer returns it.
#[derive(Clone, Copy, Debug, PartialEq, Eq)]
pub enum Item {
    /// A row, with its worths.
    Row(Valued),
    /// The end mark of a file, with the number of rows that it sent.
    End { file: u8, rows: u32 },
}

/// Rows in order, such as the rows of a file.
pub type Rows = Listed<Valued>;
