//! The files of an instance by name.

ghost use Rattle.std.specs.Prelude.{◌≡◌};
ghost use Rattle.minelib_lines.specs.TextNames.{all_texts, ending_of};

use std::fmt;
use thiserror::Error;

/// A file of an instance, in the order of writing.
#[derive(Clone, Copy, Debug, Error, PartialEq, Eq)]
pub enum TextName {
    Blocks,
    Prec,
    Upit,
    Pcpsp,
    Cpit,
}

impl TextName {
    /// Returns all files, in the order of writing.
    pub fn all() -> [TextName; 5]
        ensures { result ≡ all_texts }
    {
        [
            TextName::Blocks,
            TextName::Prec,
            TextName::Upit,
            TextName::Pcpsp,
            TextName::Cpit,
        ]
    }

    /// Returns the extension of the file, which faults and section lines also use.
    pub fn ending(self) -> &'static str
        ensures { result.now ≡ ending_of self }
    {
        match self {
            TextName::Blocks => "blocks",
            TextName::Prec => "prec",
            TextName::Upit => "upit",
            TextName::Pcpsp => "pcpsp",
            TextName::Cpit => "cpit",
        }
    }
}

impl fmt::Display for TextName {
    ghost use Rattle.std.specs.Prelude.{Some};
    ghost use Rattle.minelib_lines.specs.TextNames.{ending_of};

    ghost output = { λ name. Some (ending_of name) };

    fn fmt<W: fmt::Write>(&self, f: &mut fmt::Formatter<W>) -> fmt::Result {
        f.write_str(self.ending())
    }
}
