//! An error, or out of memory.

ghost use Rattle.std.specs.Prelude.{◌≡◌};
ghost use Rattle.pit_units.specs.declared.or_memory.OrMemory.TheVariants.{OutOfMemory};

use std::alloc::{AllocError, AllocFailed};
use std::fmt::Display;
use thiserror::Error;

/// The reason why a call that may allocate memory fails.
#[derive(Clone, Copy, Debug, Error, PartialEq, Eq)]
#[error_bound(F: Display)]
pub enum OrMemory<F> {
    /// The error of the input.
    #[error("{0}")]
    Fault(F),
    /// Memory was refused.
    #[error("OutOfMemory")]
    OutOfMemory,
}

impl<F> From<AllocError> for OrMemory<F> {
    ghost from_gives = { λ _ error. error ≡ OutOfMemory };

    fn from(_refusal: AllocError) -> OrMemory<F> {
        OrMemory::OutOfMemory
    }
}

impl<F, T: Drop> From<AllocFailed<T>> for OrMemory<F> {
    ghost from_gives = { λ _ error. error ≡ OutOfMemory };

    fn from(_refusal: AllocFailed<T>) -> OrMemory<F> {
        OrMemory::OutOfMemory
    }
}
