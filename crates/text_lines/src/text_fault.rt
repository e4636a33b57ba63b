//! Errors of MineLib texts.

ghost use Rattle.std.specs.Prelude.{◌≡◌};
ghost use Rattle.text_lines.specs.Reading.{error_in_file, fault_in_file};

use pit_units::{DecFault, OrMemory};
use std::fmt;
use thiserror::Error;

/// A file of an instance.
#[derive(Clone, Copy, Debug, Error, PartialEq, Eq)]
pub enum TextFile {
    /// The blocks.
    Blocks,
    /// The predecessors of each block.
    Prec,
    /// The production scheduling problem.
    Pcpsp,
    /// The constrained pit limit problem.
    Cpit,
}

impl fmt::Display for TextFile {
    ghost use Rattle.std.specs.Prelude.{Some};
    ghost use Rattle.text_lines.specs.FaultText.{file_ending};

    ghost output = { λ file. Some (file_ending file) };

    fn fmt<W: fmt::Write>(&self, f: &mut fmt::Formatter<W>) -> fmt::Result {
        f.write_str(match self {
            TextFile::Blocks => "blocks",
            TextFile::Prec => "prec",
            TextFile::Pcpsp => "pcpsp",
            TextFile::Cpit => "cpit",
        })
    }
}

/// The error of a line of a MineLib text. If several kinds apply to a line, the first in this order is returned:
///
/// - an unknown key, a repeated key, the number of fields (of a limit: 5 if the third is `I`, else 4);
/// - the fields left to right, each by `Number`, `TooFine`, `Range` and `Name`;
/// - `Order`, `Count`, repeated predecessors, `Missing`.
#[derive(Clone, Copy, Debug, Error, PartialEq, Eq)]
pub enum TextKind {
    /// The line has too few or too many fields.
    Fields,
    /// A field is not a decimal number.
    Number,
    /// A number has more decimals than its field allows.
    TooFine,
    /// A number is out of range.
    Range,
    /// An identifier is not the next one, coefficients or limits do not ascend, or the ends of an interval are swapped.
    Order,
    /// The stated number of predecessors is not the number of listed predecessors, or NBLOCKS is not the number of blocks.
    Count,
    /// A header key is repeated, or a predecessor is repeated or is the block itself.
    Twice,
    /// The key is unknown, a header key follows a section's key, a section is not the next one, or a line without a key comes before the
    /// first section.
    Key,
    /// A section begins although header keys or objective lines are missing, or the text ends although lines, keys or sections are
    /// missing.
    Missing,
    /// NAME is not a NAME, TYPE is not the type of the file, or a limit letter is not `L`, `G` or `I`.
    Name,
}

impl fmt::Display for TextKind {
    ghost use Rattle.std.specs.Prelude.{Some};
    ghost use Rattle.text_lines.specs.FaultText.{text_kind_name};

    ghost output = { λ kind. Some (text_kind_name kind) };

    fn fmt<W: fmt::Write>(&self, f: &mut fmt::Formatter<W>) -> fmt::Result {
        f.write_str(match self {
            TextKind::Fields => "Fields",
            TextKind::Number => "Number",
            TextKind::TooFine => "TooFine",
            TextKind::Range => "Range",
            TextKind::Order => "Order",
            TextKind::Count => "Count",
            TextKind::Twice => "Twice",
            TextKind::Key => "Key",
            TextKind::Missing => "Missing",
            TextKind::Name => "Name",
        })
    }
}

impl From<DecFault> for TextKind {
    ghost use Rattle.std.specs.Prelude.{◌≡◌, Err};
    ghost use Rattle.text_lines.specs.StatedFields.{number_in_field};

    ghost from_gives = { λ fault kind. Err kind ≡ number_in_field (Err fault) };

    fn from(fault: DecFault) -> TextKind {
        match fault {
            DecFault::Number => TextKind::Number,
            DecFault::TooFine => TextKind::TooFine,
            DecFault::Range => TextKind::Range,
        }
    }
}

impl From<TextKind> for OrMemory<TextKind> {
    ghost use Rattle.pit_units.specs.declared.or_memory.OrMemory.TheVariants.{Fault};

    ghost from_gives = { λ kind error. error ≡ Fault kind };

    fn from(kind: TextKind) -> OrMemory<TextKind> {
        OrMemory::Fault(kind)
    }
}

/// An invalid line of a text: its number, from 1, and its error. If something is missing at the end of the text, the number is the number
/// of lines + 1.
#[derive(Clone, Copy, Debug, PartialEq, Eq)]
pub struct LineFault {
    pub line: u64,
    pub kind: TextKind,
}

impl LineFault {
    /// Returns the error with the file of an instance that has the text.
    pub fn in_file(self, file: TextFile) -> TextFault
        ensures { result ≡ fault_in_file file self }
    {
        let LineFault { line, kind } = self;
        TextFault { file, line, kind }
    }
}

/// The first invalid line of an instance's texts.
#[derive(Clone, Copy, Debug, Error, PartialEq, Eq)]
pub struct TextFault {
    pub file: TextFile,
    /// The number of the line, from 1; if something is missing at the end, the number of lines + 1.
    pub line: u64,
    pub kind: TextKind,
}

impl fmt::Display for TextFault {
    ghost use Rattle.std.specs.Prelude.{Some};
    ghost use Rattle.text_lines.specs.FaultText.{text_fault_text};

    ghost output = { λ fault. Some (text_fault_text fault) };

    fn fmt<W: fmt::Write>(&self, f: &mut fmt::Formatter<W>) -> fmt::Result {
        let TextFault { file, line, kind } = self;
        write!(f, "{file} line {line}: {kind}")
    }
}

/// Returns the error with the file of an instance that was not read.
pub fn error_in_file(error: OrMemory<LineFault>, file: TextFile) -> OrMemory<TextFault>
    ensures { result ≡ error_in_file file error }
{
    match error {
        OrMemory::Fault(fault) => OrMemory::Fault(fault.in_file(file)),
        OrMemory::OutOfMemory => OrMemory::OutOfMemory,
    }
}
