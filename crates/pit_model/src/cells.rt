//! The cells of a record, with their number.

ghost use Rattle.std.specs.Prelude.{◌≡◌, length};
ghost use Rattle.csv.specs.Records.{fields_of};
ghost use Rattle.records.specs.RecordCells.{cell_at, cells_of};

use csv::ByteRecord;
use records::cells::{cell_at, cell_count};
use std::marker::Model;

/// A record and the number of its cells. Contracts see the cells.
#[derive(Drop)]
pub struct Cells<'a> {
    row: &'a ByteRecord,
    count: usize,
}

impl<'a> Model for Cells<'a> {
    ghost use Rattle.std.specs.Prelude.{◌≡◌, ℕ, List, length};
    ghost use Rattle.csv.specs.Records.{fields_of};
    ghost use Rattle.records.specs.RecordCells.{cells_of};

    ghost Value = { List (List ℕ) };

    ghost view = { λ c. cells_of (fields_of c.row.now) };

    ghost invariant = { λ c. c.count ≡ length (cells_of (fields_of c.row.now)) };
}

impl<'a> Cells<'a> {
    /// Counts the cells of a record.
    pub fn of(row: &'a ByteRecord) -> Cells<'a>
        ensures { result ≡ cells_of (fields_of row.now) }
    {
        Cells {
            row,
            count: cell_count(row),
        }
    }

    /// Returns the number of cells, without empty cells at the end.
    pub fn len(&self) -> usize
        ensures { result ≡ length self.now }
    {
        self.count
    }

    /// Returns the trimmed cell at a place, or an empty cell if there is none.
    pub fn at(&self, place: usize) -> &[u8]
        ensures { result.now ≡ cell_at self.now place }
    {
        cell_at(self.row, place)
    }
}
