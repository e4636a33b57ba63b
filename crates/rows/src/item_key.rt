//! The identity of an item.

/// An item without the block of a row and its worths.
#[derive(Clone, Copy, Debug, PartialEq, Eq)]
pub enum ItemKey {
    /// The row at this place of this file.
    Row { file: u8, place: u32 },
    /// The end mark of a file, with the number of rows that it sent.
    End { file: u8, rows: u32 },
}
