//! The numbers of blocks, retained arcs and all arcs.

use std::fmt;

/// The counts of a reduced precedence file, displayed as the line that the program prints.
#[derive(Clone, Copy, Debug, PartialEq, Eq)]
pub struct ThinCounts {
    /// The number of blocks.
    pub rows: usize,
    /// The number of retained arcs.
    pub retained: u128,
    /// The number of all arcs.
    pub all: u128,
}

impl fmt::Display for ThinCounts {
    ghost use Rattle.std.specs.Prelude.{Some};
    ghost use Rattle.thin_command.specs.CountsText.{counts_words};

    ghost output = { λ counts. Some (counts_words counts) };

    fn fmt<W: fmt::Write>(&self, f: &mut fmt::Formatter<W>) -> fmt::Result {
        let ThinCounts {
            rows,
            retained,
            all,
        } = self;
        write!(f, "rows {rows} arcs {retained} of {all}")
    }
}
