//! The result of a zone file's reader.

use devices::feeds::fed_fault::FedFault;
use zone_csv::row_fault::RowFault;

/// The result of a reader: an error of its feed or of the text, if there was one, or out of memory. The blocks of the rows
/// before a faulty row were sent.
pub type ReadResult = Result<(), FedFault<RowFault>>;
