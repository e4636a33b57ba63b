//! The counts of an instance's files.

ghost use Rattle.std.specs.Prelude.{◌≡◌};
ghost use Rattle.check_command.specs.inner.CountSteps.{no_counts};

use std::fmt;

/// The counts of an instance. Its text is the line that the program prints.
#[derive(Clone, Copy, Debug, PartialEq, Eq)]
pub struct Counts {
    pub blocks: usize,
    pub arcs: usize,
    pub coefficients: usize,
    pub limits: usize,
    /// The number of coefficients of the constrained pit limit problem, if it has a text.
    pub cpit: Option<usize>,
}

impl Counts {
    /// Makes the counts before any file.
    pub fn new() -> Counts
        ensures { result ≡ no_counts }
    {
        Counts {
            blocks: 0,
            arcs: 0,
            coefficients: 0,
            limits: 0,
            cpit: None,
        }
    }
}

impl fmt::Display for Counts {
    ghost use Rattle.std.specs.Prelude.{Some};
    ghost use Rattle.check_command.specs.Counts.{counts_words};

    ghost output = { λ counts. Some (counts_words counts) };

    fn fmt<W: fmt::Write>(&self, f: &mut fmt::Formatter<W>) -> fmt::Result {
        let Counts {
            blocks,
            arcs,
            coefficients,
            limits,
            cpit,
        } = self;
        match cpit {
            None => write!(
                f,
                "blocks {blocks} arcs {arcs} coefficients {coefficients} limits {limits}"
            ),
            Some(cpit) => write!(
                f,
                "blocks {blocks} arcs {arcs} coefficients {coefficients} limits {limits} cpit {cpit}"
            ),
        }
    }
}
