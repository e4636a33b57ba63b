//! Why a text was not written.

use crate::sinks::sink::SinkFault;
use pit_units::OrMemory;

/// Why a text was not written: the sink refused a call, or memory was refused and the sink refused no call. Either the
/// sink was not begun and is unchanged, or it was begun and holds a prefix of the text, which may be empty.
pub type WriteFault = OrMemory<SinkFault>;
