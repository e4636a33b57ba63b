//! The settings of a run.

/// The settings of a run.
#[derive(Clone, Copy, Debug, PartialEq, Eq)]
pub struct Settings {
    /// The number of threads that value rows, 1 to 64.
    pub valuers: usize,
    /// The number of messages that the lane can hold, 1 to 4096.
    pub capacity: usize,
}
