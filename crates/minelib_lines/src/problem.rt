//! The problem of a model file.

ghost use Rattle.std.specs.Prelude.{◌≡◌};
ghost use Rattle.minelib_lines.specs.HeaderKeys.{keys_of, type_text};

use crate::header_key::HeaderKey;

/// The problem that a model file states.
#[derive(Clone, Copy, Debug, PartialEq, Eq)]
pub enum Problem {
    /// Production scheduling: a block has a value and coefficients at each destination.
    Pcpsp,
    /// Constrained pit limit: a block has one value, and its own coefficients.
    Cpit,
}

impl Problem {
    /// Returns the value of TYPE for the problem.
    pub fn type_text(self) -> &'static [u8]
        ensures { result.now ≡ type_text self }
    {
        match self {
            Problem::Pcpsp => b"PCPSP",
            Problem::Cpit => b"CPIT",
        }
    }

    /// Returns the keys of the problem's files, in the order in which they are written.
    pub fn keys(self) -> &'static [HeaderKey]
        ensures { result.now ≡ keys_of self }
    {
        match self {
            Problem::Pcpsp => HeaderKey::of_pcpsp(),
            Problem::Cpit => HeaderKey::of_cpit(),
        }
    }
}
