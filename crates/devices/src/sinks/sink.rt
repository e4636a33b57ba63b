//! A device that takes bytes.

ghost use Rattle.std.specs.Prelude.{◌≡◌, [], OnOk, OnErr};
ghost use Rattle.devices.specs.sinks.SinkState.{SinkState, IsWritten, IsCutOff, IsPut};

use pit_units::OrMemory;
use std::io;
use thiserror::Error;

/// A device refused to take bytes, or to begin. Any code outside this crate can make one from an `io::Error`, so it does not show that a
/// sink refused a call; the `failures` of the sink's state do.
#[derive(Clone, Copy, Debug, Error, PartialEq, Eq)]
#[error("the sink failed")]
pub struct SinkFault {
    refused: (),
}

impl SinkFault {
    /// Returns the error of a device that reported this I/O error.
    pub fn of(_error: &io::Error) -> SinkFault {
        SinkFault::new()
    }

    // Returns the error of a device of this crate.
    pub(crate) fn new() -> SinkFault {
        SinkFault { refused: () }
    }
}

impl From<SinkFault> for OrMemory<SinkFault> {
    ghost use Rattle.pit_units.specs.declared.or_memory.OrMemory.TheVariants.{Fault};

    ghost from_gives = { λ fault error. error ≡ Fault fault };

    fn from(fault: SinkFault) -> OrMemory<SinkFault> {
        OrMemory::Fault(fault)
    }
}

/// A destination of one text: a file, or bytes in memory.
pub trait Sink {
    /// Its state, as far as it reports it.
    ghost state: { Self → SinkState };

    /// Begins a new text. The sink drops the text that it held, and holds no byte of the new one yet.
    ///
    /// # Errors
    ///
    /// The device failed. The sink is unchanged, or it was begun and is empty.
    fn begin(&mut self) -> Result<(), SinkFault>
        ensures begins { OnOk result (IsWritten [] (state self.old) (state self.new)) }
        ensures refused { OnErr result (IsCutOff 1 [] (state self.old) (state self.new)) };

    /// Takes the first bytes of `bytes`, and returns their number: at least one if `bytes` is not empty.
    ///
    /// # Errors
    ///
    /// The device failed. No byte was taken.
    fn put(&mut self, bytes: &[u8]) -> Result<usize, SinkFault>
        ensures puts { IsPut bytes.now (state self.old) (state self.new) result };
}
