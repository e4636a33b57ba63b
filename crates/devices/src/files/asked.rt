//! Records of the calls to a system, for contracts alone. They use no memory.

use crate::shown_bytes::ShownBytes;
use std::snapshot::Snapshot;

/// The files that were requested, each with the result.
#[derive(Drop)]
pub(crate) enum Asked<F> {
    Nothing,
    Opened(ShownBytes, Snapshot<F>, Snapshot<Asked<F>>),
    Unopened(ShownBytes, Snapshot<Asked<F>>),
}

/// The paths for which slots were made.
#[derive(Drop)]
pub(crate) enum Made {
    Nothing,
    Slot(ShownBytes, Snapshot<Made>),
}
