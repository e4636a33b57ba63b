//! The first fault of a zone file.

ghost use Rattle.std.specs.Prelude.{◌≡◌};
ghost use Rattle.zone_csv.specs.Columns.{all_columns, column_name};

use std::fmt;
use thiserror::Error;

/// The number of columns that state a block.
pub const COLUMNS: usize = 5;

/// A column of a zone file, as a fault names it.
#[derive(Clone, Copy, Debug, PartialEq, Eq)]
pub enum Column {
    X,
    Y,
    Z,
    Tonnes,
    Grade,
    /// The row as a whole.
    Whole,
}

impl Column {
    /// Returns all columns of a zone file, in the order in which faults are searched.
    pub fn all() -> [Column; COLUMNS]
        ensures { result ≡ all_columns }
    {
        [
            Column::X,
            Column::Y,
            Column::Z,
            Column::Tonnes,
            Column::Grade,
        ]
    }

    /// Returns the column's name in the header, or the word for the row as a whole.
    pub fn name(self) -> &'static str
        ensures { result.now ≡ column_name self }
    {
        match self {
            Column::X => "x",
            Column::Y => "y",
            Column::Z => "z",
            Column::Tonnes => "tonnes",
            Column::Grade => "grade",
            Column::Whole => "whole",
        }
    }
}

impl fmt::Display for Column {
    ghost use Rattle.std.specs.Prelude.{Some};
    ghost use Rattle.zone_csv.specs.Columns.{column_name};

    ghost output = { λ column. Some (column_name column) };

    fn fmt<W: fmt::Write>(&self, f: &mut fmt::Formatter<W>) -> fmt::Result {
        f.write_str(self.name())
    }
}

/// What is wrong with a row. If a row has several faults, the first is reported: `TooManyRows`, then `Width`, then the fault of the
/// first column that has one. If a column has several, the first in this order is reported.
#[derive(Clone, Copy, Debug, PartialEq, Eq)]
pub enum RowFaultKind {
    /// The column is missing from the header, or the text has no record at all.
    MissingColumn,
    /// The header has the column more than once.
    TwiceColumn,
    /// The row has more cells than the header, or fewer.
    Width,
    /// The cell is no decimal number.
    Number,
    /// The number has a digit other than zero after the decimals that its column allows: 3, or 6 for a grade.
    TooFine,
    /// The number is out of its column's range.
    Range,
    /// The coordinate is no centroid of a block.
    OffGrid,
    /// The file has more rows than the maximum.
    TooManyRows,
}

impl fmt::Display for RowFaultKind {
    ghost use Rattle.std.specs.Prelude.{Some};
    ghost use Rattle.zone_csv.specs.FaultText.{row_kind_name};

    ghost output = { λ kind. Some (row_kind_name kind) };

    fn fmt<W: fmt::Write>(&self, f: &mut fmt::Formatter<W>) -> fmt::Result {
        f.write_str(match self {
            RowFaultKind::MissingColumn => "MissingColumn",
            RowFaultKind::TwiceColumn => "TwiceColumn",
            RowFaultKind::Width => "Width",
            RowFaultKind::Number => "Number",
            RowFaultKind::TooFine => "TooFine",
            RowFaultKind::Range => "Range",
            RowFaultKind::OffGrid => "OffGrid",
            RowFaultKind::TooManyRows => "TooManyRows",
        })
    }
}

/// The first fault of a zone file, with its record and column.
#[derive(Clone, Copy, Debug, Error, PartialEq, Eq)]
pub struct RowFault {
    /// The number of the record, from 1, with the header included. A line without a byte is no record; a line of blanks is a record
    /// with one cell.
    pub row: u32,
    pub column: Column,
    pub kind: RowFaultKind,
}

impl fmt::Display for RowFault {
    ghost use Rattle.std.specs.Prelude.{Some};
    ghost use Rattle.zone_csv.specs.FaultText.{row_fault_text};

    ghost output = { λ fault. Some (row_fault_text fault) };

    fn fmt<W: fmt::Write>(&self, f: &mut fmt::Formatter<W>) -> fmt::Result {
        let RowFault { row, column, kind } = self;
        write!(f, "row {row} column {column}: {kind}")
    }
}
