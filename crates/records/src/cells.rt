//! The cells of a record, as plans and zone files see them.

ghost use Rattle.std.specs.Prelude.{◌≡◌, [], length, slice_index_or};
ghost use Rattle.csv.specs.Records.{fields_of};
ghost use Rattle.records.specs.Cells.{is_blank, without_leading_blanks, without_trailing_blanks, trimmed, is_word};
ghost use Rattle.records.specs.RecordCells.{cells_of, cell_at};

use csv::ByteRecord;

/// Returns whether the byte is a space or a tab.
#[inline(always)]
pub fn is_blank(byte: u8) -> bool
    ensures { result ≡ is_blank byte }
{
    byte == b' ' || byte == b'\t'
}

/// Returns the cell without the spaces and tabs at both ends.
#[inline(always)]
pub fn trimmed(cell: &[u8]) -> &[u8]
    ensures { result.now ≡ trimmed cell.now }
{
    without_trailing_blanks(without_leading_blanks(cell))
}

/// Returns the cell without the spaces and tabs at its start.
#[inline(always)]
pub fn without_leading_blanks(cell: &[u8]) -> &[u8]
    ensures { result.now ≡ without_leading_blanks cell.now }
{
    let mut rest = cell;
    while let [first, tail @ ..] = rest {
        if !is_blank(*first) {
            break;
        }
        rest = tail;
    }
    rest
}

#[inline(always)]
#[tactic(auto, using(crate::proofs::CellFacts::blank_at_end, crate::proofs::CellFacts::other_at_end))]
fn without_trailing_blanks(cell: &[u8]) -> &[u8]
    ensures { result.now ≡ without_trailing_blanks cell.now }
{
    let mut rest = cell;
    while let [prefix @ .., last] = rest {
        if !is_blank(*last) {
            break;
        }
        rest = prefix;
    }
    rest
}

/// Returns the number of cells of a record, without the empty and blank ones at its end.
pub fn cell_count(row: &ByteRecord) -> usize
    ensures { result ≡ length (cells_of (fields_of row.now)) }
{
    let mut count = 0;
    for i in 0..row.len() {
        if !cell_at(row, i).is_empty() {
            count = i + 1;
        }
    }
    count
}

/// Returns the trimmed cell of a record at a place. It is empty if the record has no such cell.
#[inline(always)]
#[tactic(auto, using(crate::proofs::CellFacts::at_cell))]
pub fn cell_at(row: &ByteRecord, place: usize) -> &[u8]
    ensures value { result.now ≡ cell_at (cells_of (fields_of row.now)) place }
    ensures field { result.now ≡ trimmed (slice_index_or (fields_of row.now) place []) }
{
    trimmed(field_at(row, place))
}

/// Returns the cell of a record at a place with its blanks. It is empty if the record has no such cell.
#[inline(always)]
#[tactic(auto, using(crate::proofs::CellFacts::field_there, crate::proofs::CellFacts::none_there))]
pub fn field_at(row: &ByteRecord, place: usize) -> &[u8]
    ensures { result.now ≡ slice_index_or (fields_of row.now) place [] }
{
    row.get(place).unwrap_or(&[])
}

/// Returns whether the cell is the word, in upper or lower case of ASCII letters.
pub fn is_word(cell: &[u8], word: &[u8]) -> bool
    ensures { result ≡ is_word cell.now word.now }
{
    cell.eq_ignore_ascii_case(word)
}
