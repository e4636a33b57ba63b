//! The records of a text of comma-separated cells, one at a time.
//!
//! A record is as in RFC 4180, as the crate `csv` defines it: cells between commas, quoted cells between double quotes with inner
//! quotes doubled, lines ended by LF, CR or both. Records may differ in length, no cell is trimmed, no record is a header, and a
//! line without a byte is no record. One byte order mark at the start of the text is dropped.
//!
//! RFC 4180 does not define all texts. A quote inside an unquoted cell is a byte of the cell. Bytes after a closing quote are
//! appended to the cell. A quote that is not closed extends to the end of the text. A cell may have any bytes.

ghost use Rattle.std.specs.Prelude.{◌≡◌, ◌+◌, ◌<◌, ◌≤◌, true, IfOk, IfSome, OnOk, Ok, length};
ghost use Rattle.std.specs.List.{All};
ghost use Rattle.csv.specs.Records.{fields_of};
ghost use Rattle.records.specs.RecordReader.{TakesRow, Rows, rows_ahead};
ghost use Rattle.records.specs.Records.{records_of};
ghost use Rattle.records.specs.inner.RecordsAhead.{IsBetweenRecords, IsUnread, TakesNext, rows_remaining};

use csv::{ByteRecord, Reader, ReaderBuilder};
use std::alloc::{AllocError, Global};
use std::io::{Cursor, Read};
use std::marker::Model;

// The progress of a reader.
#[derive(Clone, Copy)]
enum Progress {
    // No record was requested yet.
    Unread,
    // A record may follow.
    Reading,
    // The text has ended.
    Ended,
    // Memory was refused, possibly inside a record.
    Refused,
}

/// A reader of the records of a text, which it owns or borrows: comma-separated values as in RFC 4180, read by the crate `csv`. Its
/// buffer and tables are in the reader itself, about sixteen kilobytes; it allocates memory only for the record that it reads into.
///
/// Contracts see the remaining records, or that their end was returned, or that memory was refused.
#[derive(Drop)]
pub struct RecordReader<R: Read> {
    alloc: Global,
    reader: Reader<R>,
    stage: Progress,
}

impl<R: Read> Model for RecordReader<R> {
    ghost use Rattle.records.specs.RecordReader.{RecordReaderView};
    ghost use Rattle.records.specs.inner.RecordsAhead.{ahead_of, IsSetUp};

    ghost Value = { RecordReaderView };

    ghost view = { λ r. ahead_of R.remaining r.stage r.reader };

    ghost invariant = { λ r. IsSetUp R.remaining r.stage r.reader };
}

impl RecordReader<Cursor<Vec<u8>>> {
    /// Makes a reader of the records of `text`, which it owns. Allocates no memory and reads nothing yet.
    #[tactic(auto, using(crate::proofs::RecordSteps::few_records, crate::proofs::RecordSteps::records_have_cells))]
    pub fn new(alloc: Global, text: Vec<u8>) -> RecordReader<Cursor<Vec<u8>>>
        ensures records { result ≡ Rows (records_of text.items) }
        ensures few { length (records_of text.items) ≤ length text.items }
        ensures cells { All (λ row. 0 < length row) (records_of text.items) }
    {
        RecordReader {
            alloc,
            reader: reader_of(alloc, Cursor::new(text)),
            stage: Progress::Unread,
        }
    }
}

impl<'a> RecordReader<&'a [u8]> {
    /// Makes a reader of the records of `text`, which it borrows. Allocates no memory and reads nothing yet.
    #[tactic(auto, using(crate::proofs::RecordSteps::few_records, crate::proofs::RecordSteps::records_have_cells))]
    pub fn from_slice(alloc: Global, text: &'a [u8]) -> RecordReader<&'a [u8]>
        ensures records { result ≡ Rows (records_of text.now) }
        ensures few { length (records_of text.now) ≤ length text.now }
        ensures cells { All (λ row. 0 < length row) (records_of text.now) }
    {
        RecordReader {
            alloc,
            reader: reader_of(alloc, text),
            stage: Progress::Unread,
        }
    }
}

impl<R: Read> RecordReader<R> {
    /// Reads the next record into `row`, and replaces what `row` held. Returns whether there was a record. `false` means that the
    /// text has ended, now and at every later call; then `row` is unspecified.
    ///
    /// # Errors
    ///
    /// Memory was refused for `row`. The reader returns no further record, and every later call returns this error. After the end
    /// of the text, no call returns an error.
    pub fn next(&mut self, row: &mut ByteRecord) -> Result<bool, AllocError>
        ensures takes { TakesRow self.old result (fields_of row.new) self.new }
        ensures fewer { result ≡ Ok true → rows_ahead self.new + 1 ≡ rows_ahead self.old }
        ensures cells { result ≡ Ok true → 0 < length (fields_of row.new) }
    {
        let found = match self.stage {
            Progress::Unread => take_first(self.alloc, &mut self.reader, row),
            Progress::Reading => take_record(&mut self.reader, row),
            Progress::Ended => return Ok(false),
            Progress::Refused => return Err(AllocError),
        };
        match found {
            Ok(true) => {
                self.stage = Progress::Reading;
                Ok(true)
            }
            Ok(false) => {
                self.stage = Progress::Ended;
                Ok(false)
            }
            Err(refusal) => {
                self.stage = Progress::Refused;
                Err(refusal)
            }
        }
    }
}

// Takes the first record.
fn take_first<R: Read>(
    alloc: Global,
    reader: &mut Reader<R>,
    row: &mut ByteRecord,
) -> Result<bool, AllocError>
    ensures { IsUnread R.remaining reader.old
        → IfOk result (λ found. TakesNext R.remaining reader.old reader.new found
        (fields_of row.new)) }
{
    name_no_columns(alloc, reader)?;
    take_record(reader, row)
}

// Gives the reader a header without cells. Else it would store two copies of the first record, of any length, as its own header.
fn name_no_columns<R: Read>(alloc: Global, reader: &mut Reader<R>) -> Result<(), AllocError>
    ensures { IsUnread R.remaining reader.old
        → OnOk result (IsBetweenRecords R.remaining reader.new
        × (rows_remaining R.remaining reader.new ≡ rows_remaining R.remaining reader.old)) }
{
    match reader.set_byte_headers(ByteRecord::new(alloc)) {
        Ok(()) => Ok(()),
        Err(_) => Err(AllocError),
    }
}

// Takes the next record. The crate's contract does not exclude an error of the reader underneath. Here that reader has bytes in
// memory and no errors, so every error is one of memory.
fn take_record<R: Read>(reader: &mut Reader<R>, row: &mut ByteRecord) -> Result<bool, AllocError>
    ensures { IsBetweenRecords R.remaining reader.old
        → IfOk result (λ found. TakesNext R.remaining reader.old reader.new found
        (fields_of row.new)) }
{
    match reader.read_byte_record(row) {
        Ok(found) => Ok(found),
        Err(_) => Err(AllocError),
    }
}

// Makes a reader with the crate's defaults, but with records of any length. It has yet to get a header, so that the first record is
// not used as one.
fn reader_of<R: Read>(alloc: Global, source: R) -> Reader<R>
    ensures { IfSome (R.remaining source)
        (λ text. IsUnread R.remaining result × (rows_remaining R.remaining result ≡ records_of text)) }
{
    ReaderBuilder::new()
        .flexible(true)
        .from_reader(alloc, source)
}
