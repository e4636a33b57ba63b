//! The errors of a run.

ghost use Rattle.std.specs.Prelude.{◌≡◌};
ghost use Rattle.refusals.specs.declared.refusal.Refusal.TheVariants.{Settings as OfSettings, OutOfMemory};

use crate::settings_fault::SettingsFault;
use minelib_lines::text_name::TextName;
use std::alloc::AllocError;
use std::fmt;
use thiserror::Error;
use zone_csv::row_fault::RowFault;

/// A row of a zone file.
#[derive(Clone, Copy, Debug, Error, PartialEq, Eq)]
pub struct RowAt {
    /// The number of the file, from 0.
    pub file: u8,
    /// The number of the record; the header is record 1.
    pub row: u32,
}

impl fmt::Display for RowAt {
    ghost use Rattle.std.specs.Prelude.{Some};
    ghost use Rattle.refusals.specs.FaultText.{row_text};

    ghost output = { λ at. Some (row_text at) };

    fn fmt<W: fmt::Write>(&self, f: &mut fmt::Formatter<W>) -> fmt::Result {
        let RowAt { file, row } = self;
        write!(f, "file {file} row {row}")
    }
}

/// Why a run returned an error. Files are numbered from 0, in the order of the feeds.
#[derive(Clone, Copy, Debug, Error, PartialEq, Eq)]
pub enum Refusal {
    /// The settings do not fit the plan.
    Settings(SettingsFault),
    /// The start of a thread was refused.
    NoThread,
    /// The feed of a zone file failed.
    FeedFailed { file: u8 },
    /// A zone file has more than `MAX_FILE_BYTES` bytes.
    TooLong { file: u8 },
    /// A zone file has an invalid row.
    Row { file: u8, fault: RowFault },
    /// Two blocks are in the same cell: `again` is the first row in the cell of an earlier row, and `first` is that row.
    Same { first: RowAt, again: RowAt },
    /// The sink of this file refused a call.
    SinkFailed { which: TextName },
    /// Memory was refused.
    OutOfMemory,
}

impl fmt::Display for Refusal {
    ghost use Rattle.std.specs.Prelude.{Some};
    ghost use Rattle.refusals.specs.FaultText.{refusal_text};

    ghost output = { λ refusal. Some (refusal_text refusal) };

    fn fmt<W: fmt::Write>(&self, f: &mut fmt::Formatter<W>) -> fmt::Result {
        match self {
            Refusal::Settings(kind) => write!(f, "settings: {kind}"),
            Refusal::NoThread => f.write_str("NoThread"),
            Refusal::FeedFailed { file } => write!(f, "file {file}: FeedFailed"),
            Refusal::TooLong { file } => write!(f, "file {file}: TooLong"),
            Refusal::Row { file, fault } => write!(f, "file {file} {fault}"),
            Refusal::Same { first, again } => write!(f, "{again} repeats {first}"),
            Refusal::SinkFailed { which } => write!(f, "sink {which}: SinkFailed"),
            Refusal::OutOfMemory => f.write_str("OutOfMemory"),
        }
    }
}

impl From<SettingsFault> for Refusal {
    ghost from_gives = { λ fault refusal. refusal ≡ OfSettings fault };

    fn from(fault: SettingsFault) -> Refusal {
        Refusal::Settings(fault)
    }
}

impl From<AllocError> for Refusal {
    ghost from_gives = { λ _ refusal. refusal ≡ OutOfMemory };

    fn from(_refusal: AllocError) -> Refusal {
        Refusal::OutOfMemory
    }
}
