//! The error of a call that reads the text of a feed.

ghost use Rattle.std.specs.Prelude.{◌≡◌};
ghost use Rattle.devices.specs.feeds.Fed.{fed_fault};
ghost use Rattle.devices.specs.declared.feeds.fed_fault.FedFault.TheVariants.{Unread};

use crate::feeds::slurp::SlurpFault;
use pit_units::OrMemory;
use std::fmt::Display;
use thiserror::Error;

/// Why the text of a feed gives no value.
#[derive(Debug, Drop, Error, PartialEq, Eq)]
#[error_bound(F: Display)]
pub enum FedFault<F> {
    /// The feed was not read to its end, or memory was refused.
    #[error("{0}")]
    Unread(SlurpFault),
    /// The feed was read to its end, and its text has this error.
    #[error("{0}")]
    Text(F),
}

impl<F> From<SlurpFault> for FedFault<F> {
    ghost from_gives = { λ unread fault. fault ≡ Unread unread };

    fn from(unread: SlurpFault) -> FedFault<F> {
        FedFault::Unread(unread)
    }
}

impl<F> From<OrMemory<F>> for FedFault<F> {
    ghost from_gives = { λ error fault. fault ≡ fed_fault error };

    fn from(error: OrMemory<F>) -> FedFault<F> {
        match error {
            OrMemory::Fault(fault) => FedFault::Text(fault),
            OrMemory::OutOfMemory => FedFault::Unread(SlurpFault::OutOfMemory),
        }
    }
}
