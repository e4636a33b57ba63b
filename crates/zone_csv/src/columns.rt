//! The places of the columns in the header of a zone file.

ghost use Rattle.std.specs.Prelude.{◌≡◌};
ghost use Rattle.csv.specs.Records.{fields_of};
ghost use Rattle.zone_csv.specs.Header.{columns_of, one_place, places_in};

use crate::cell::a_fault;
use crate::row_fault::{COLUMNS, Column, RowFault, RowFaultKind};
use csv::ByteRecord;
use records::cells::{cell_at, is_word};

/// The number of cells of each record, and the places of the columns in it, from 0, in the order of `Column::all`.
#[derive(Clone, Copy, Debug, PartialEq, Eq)]
pub struct Columns {
    pub width: usize,
    pub places: [usize; COLUMNS],
}

// Returns the columns that a header names, or the fault of the first column that is missing or appears twice.
#[tactic(auto, unfolding(crate::specs::Header::columns_of))]
pub(crate) fn columns_of(header: &ByteRecord) -> Result<Columns, RowFault>
    ensures { result ≡ columns_of (fields_of header.now) }
{
    let columns = Column::all();
    let mut places = [0; COLUMNS];
    for k in 0..columns.len() {
        places[k] = place_in(header, columns[k])?;
    }
    Ok(Columns {
        width: header.len(),
        places,
    })
}

// Returns the place of a column, or the header's fault.
fn place_in(header: &ByteRecord, column: Column) -> Result<usize, RowFault>
    ensures { result ≡ one_place column (places_in (fields_of header.now) column) }
{
    let name = column.name().as_bytes();
    let mut found = None;
    for place in 0..header.len() {
        if is_word(cell_at(header, place), name) {
            if found.is_some() {
                return Err(a_fault(1, column, RowFaultKind::TwiceColumn));
            }
            found = Some(place);
        }
    }
    found.ok_or(a_fault(1, column, RowFaultKind::MissingColumn))
}
