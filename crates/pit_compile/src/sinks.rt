//! The sinks of a run.

ghost use Rattle.std.specs.Borrow.{sem};
ghost use Rattle.std.specs.Prelude.{◌≡◌, IfOk, Ok};
ghost use Rattle.minelib_lines.specs.declared.text_name.TextName.{TextName as AName};
ghost use Rattle.pit_compile.specs.SinkBorrowed.{BorrowsSink};
ghost use Rattle.pit_compile.specs.Sinks.{sink_of};

use minelib_lines::text_name::TextName;

/// A sink for each file of an instance, in the order of writing.
#[derive(Debug, Drop)]
pub struct Sinks<S> {
    pub blocks: S,
    pub prec: S,
    pub upit: S,
    pub pcpsp: S,
    pub cpit: S,
}

impl<S> Sinks<S> {
    /// Makes a sink for each file by `make`, in the order of writing. Returns the first error of `make`.
    pub fn each<E, F: Fn(TextName) -> Result<S, E>>(make: F) -> Result<Sinks<S>, E>
    where
        S: Drop,
        requires { F.IsAlwaysCallable make }
        ensures { IfOk result
            (λ sinks. (name : AName) → F.post make name (Ok (sink_of sinks name))) }
    {
        Ok(Sinks {
            blocks: make(TextName::Blocks)?,
            prec: make(TextName::Prec)?,
            upit: make(TextName::Upit)?,
            pcpsp: make(TextName::Pcpsp)?,
            cpit: make(TextName::Cpit)?,
        })
    }

    /// Returns a mutable reference to the sink of this file.
    pub fn of_mut(&mut self, name: TextName) -> &mut S
        ensures* writes_back { sem 𝓛 (BorrowsSink S.row self.entry name result) }
        ensures value { result.now ≡ sink_of self.old name }
    {
        match name {
            TextName::Blocks => &mut self.blocks,
            TextName::Prec => &mut self.prec,
            TextName::Upit => &mut self.upit,
            TextName::Pcpsp => &mut self.pcpsp,
            TextName::Cpit => &mut self.cpit,
        }
    }
}
