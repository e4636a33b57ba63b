//! The faults of items.

ghost use Rattle.std.specs.Prelude.{◌≡◌};
ghost use Rattle.collector.specs.declared.add_fault.AddFault.TheVariants.{OutOfMemory};

use std::alloc::AllocError;
use thiserror::Error;

/// Why an item was not added: the first reason in this order. The collector is unchanged.
#[derive(Clone, Copy, Debug, Error, PartialEq, Eq)]
pub enum AddFault {
    /// A row with the file and the place of a stored row.
    #[error("a second row of one place")]
    Double,
    /// A row or an end mark of an unexpected file, or a row whose place is not below 1,000,000.
    #[error("a file or a place that is not expected")]
    Stranger,
    /// A row whose place is not below the count of its file's end mark.
    #[error("a row past the end of its file")]
    AfterEnd,
    /// An end mark of a file that has one already.
    #[error("a second end of one file")]
    SecondEnd,
    /// An end mark whose count is above 1,000,000, or not above the place of a stored row of its file.
    #[error("a file that ends before its last row")]
    BadCount,
    /// Memory was refused.
    #[error("OutOfMemory")]
    OutOfMemory,
}

impl From<AllocError> for AddFault {
    ghost from_gives = { λ _ fault. fault ≡ OutOfMemory };

    fn from(_refusal: AllocError) -> AddFault {
        AddFault::OutOfMemory
    }
}
