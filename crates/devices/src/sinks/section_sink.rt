//! A sink over a vector that already holds something.

ghost use Rattle.std.specs.Prelude.{◌≡◌, ◌+◌, ◌<◌, [], ◌++◌, Some, length, true, false, IsOk, IfOk, OnOk, OnErr};
ghost use Rattle.devices.specs.sinks.SectionSinkView.{section_sink_state as sink_state};

use crate::count::{Count, raised};
use crate::sinks::sink::{Sink, SinkFault};
use std::alloc::AllocError;
use std::marker::Model;

/// A sink that writes texts one after the other into a vector, each under its own line. The bytes before a text never
/// change. It fails only if memory is refused.
#[derive(Drop)]
pub struct SectionSink {
    bytes: Vec<u8>,
    start: usize,
    begun: bool,
    failures: Count,
}

impl Model for SectionSink {
    ghost use Rattle.std.specs.Prelude.{◌≤◌, take, drop, length, vec_capacity};
    ghost use Rattle.devices.specs.Count.{count_of};
    ghost use Rattle.devices.specs.sinks.SectionSinkView.{SectionSinkView};

    ghost Value = { SectionSinkView };

    ghost view = { λ s. record {
      begun = s.begun;
      before = take s.start s.bytes.items;
      taken = drop s.start s.bytes.items;
      room = vec_capacity s.bytes;
      failures = count_of s.failures;
    } };

    ghost invariant = { λ s. s.start ≤ length s.bytes.items };
}

impl SectionSink {
    /// Makes a sink that appends to these bytes. It is not begun.
    pub fn new(bytes: Vec<u8>) -> SectionSink
        ensures { sink_state result ≡ record
            { begun = false; before = bytes.items; taken = Some []; failures = 0 } }
    {
        let start = bytes.len();
        SectionSink {
            bytes,
            start,
            begun: false,
            failures: Count::Zero,
        }
    }

    /// Ends the text and appends this line, which includes its LF. Both never change from now on, and the sink is not
    /// begun.
    ///
    /// # Errors
    ///
    /// Memory was refused. The sink is unchanged.
    pub fn section(&mut self, line: &[u8]) -> Result<(), AllocError>
        ensures kept { OnOk result (sink_state self.new ≡ record {
          begun = false;
          before = self.old.before ++ self.old.taken ++ line.now;
          taken = Some [];
          failures = self.old.failures;
        }) }
        ensures refused { OnErr result (sink_state self.new ≡ sink_state self.old) }
        ensures fails_only { OnErr result
            (self.old.room < length self.old.before + length self.old.taken + length line.now) }
    {
        self.bytes.extend_from_slice(line)?;
        self.start = self.bytes.len();
        self.begun = false;
        Ok(())
    }

    /// Returns the bytes before the text, and the text.
    pub fn into_vec(self) -> Vec<u8>
        ensures { result.items ≡ self.before ++ self.taken }
    {
        self.bytes
    }
}

impl Sink for SectionSink {
    ghost state = { sink_state };

    /// Drops the text. Never fails.
    fn begin(&mut self) -> Result<(), SinkFault>
        ensures begins { IsOk result }
        ensures empties { sink_state self.new ≡ record (sink_state self.old) { begun = true; taken = Some [] } }
    {
        self.begun = true;
        self.bytes.truncate(self.start);
        Ok(())
    }

    /// Takes all the bytes.
    ///
    /// # Errors
    ///
    /// Memory for them was refused. None was taken.
    fn put(&mut self, bytes: &[u8]) -> Result<usize, SinkFault>
        ensures all { IfOk result (λ n. n ≡ length bytes.now) }
        ensures takes { OnOk result
            (sink_state self.new ≡ record (sink_state self.old)
            { taken = Some (self.old.taken ++ bytes.now) }) }
        ensures refused { OnErr result
            (sink_state self.new ≡ record (sink_state self.old) { failures = self.old.failures + 1 }) }
        ensures fails_only { OnErr result
            (self.old.room < length self.old.before + length self.old.taken + length bytes.now) }
    {
        if self.bytes.extend_from_slice(bytes).is_err() {
            self.failures = raised(&self.failures, 1);
            return Err(SinkFault::new());
        }
        Ok(bytes.len())
    }
}
