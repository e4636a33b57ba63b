//! The reason why a text is not a decimal.

use thiserror::Error;

/// The reason why a text is not an allowed decimal. If several apply, the first one here is returned.
#[derive(Clone, Copy, Debug, Error, PartialEq, Eq)]
pub enum DecFault {
    /// The text is not a decimal: digits with at most one sign before them and one point before, among or after them.
    #[error("no decimal number")]
    Number,
    /// A digit after the allowed decimals is not zero.
    #[error("too many decimals")]
    TooFine,
    /// The number is above 10^18 or below -10^18.
    #[error("a decimal out of range")]
    Range,
}
