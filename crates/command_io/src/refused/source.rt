//! The sources of the program.

use std::fmt;
use text_lines::text_fault::TextFile;

/// A source that the program reads.
#[derive(Clone, Copy, Debug, PartialEq, Eq)]
pub enum Source {
    /// Standard input.
    Input,
    /// The file of a plan.
    Plan,
    /// A zone file, by its number from 0.
    Zone(usize),
    /// A file of an instance.
    Text(TextFile),
}

impl fmt::Display for Source {
    ghost use Rattle.std.specs.Prelude.{Some};
    ghost use Rattle.command_io.specs.Refused.{source_text};

    ghost output = { λ source. Some (source_text source) };

    fn fmt<W: fmt::Write>(&self, f: &mut fmt::Formatter<W>) -> fmt::Result {
        match self {
            Source::Input => f.write_str("input"),
            Source::Plan => f.write_str("plan"),
            Source::Zone(file) => write!(f, "file {file}"),
            Source::Text(file) => write!(f, "{file}"),
        }
    }
}
