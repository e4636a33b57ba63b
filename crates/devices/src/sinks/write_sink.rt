//! An output as a sink.

ghost use Rattle.std.specs.Io.KnownBytes.{WriteAppends};
ghost use Rattle.std.specs.Prelude.{◌≡◌, [], IsErr, OnErr};
ghost use Rattle.devices.specs.sinks.WriteSinkView.{report_as_before, write_sink_state as sink_state};
ghost use Rattle.devices.specs.sinks.SinkState.{IsCutOff, IsPut};

use crate::count::{Count, raised};
use crate::sinks::single_write::write_some;
use crate::sinks::sink::{Sink, SinkFault};
use std::io::Write;
use std::marker::Model;
use std::snapshot::Snapshot;

/// A sink over a continuous output, such as standard output: it is begun, and cannot be begun again. It reports the bytes of the output if
/// the output reported them at first. It allocates no memory.
#[derive(Drop)]
pub struct WriteSink<W: Write> {
    output: W,
    // the output before the first put
    first: Snapshot<W>,
    failures: Count,
}

impl<W: Write> Model for WriteSink<W> {
    ghost use Rattle.devices.specs.Count.{count_of};
    ghost use Rattle.devices.specs.sinks.WriteSinkView.{report_as_before, StillReports, WriteSinkView};

    ghost Value = { WriteSinkView };

    ghost view = { λ s. record {
      held = report_as_before (W.contents s.first.value) (W.contents s.output);
      failures = count_of s.failures;
    } };

    ghost invariant = { λ s. StillReports (W.contents s.first.value) (W.contents s.output) };
}

impl<W: Write> WriteSink<W> {
    /// Makes a sink over this output.
    pub fn new(output: W) -> WriteSink<W>
        ensures { result ≡ record { held = W.contents output; failures = 0 } }
    {
        let first = Snapshot::of(&output);
        WriteSink {
            output,
            first,
            failures: Count::Zero,
        }
    }

    /// Returns the output.
    pub fn output(&self) -> &W
        ensures { self.now.held ≡ report_as_before self.now.held (W.contents result.now) }
    {
        &self.output
    }
}

impl<W: Write> Sink for WriteSink<W> {
    ghost state = { sink_state };

    /// Always fails: the output cannot drop the bytes that it took.
    fn begin(&mut self) -> Result<(), SinkFault>
        ensures refused { OnErr result (IsCutOff 1 [] (sink_state self.old) (sink_state self.new)) }
        ensures never { IsErr result }
    {
        self.failures = raised(&self.failures, 1);
        Err(SinkFault::new())
    }

    /// Writes the bytes that one write to the output takes. Repeats a write that a signal interrupts.
    fn put(&mut self, bytes: &[u8]) -> Result<usize, SinkFault>
        // The bytes that it takes are appended to the output.
        ensures puts { IsPut bytes.now (sink_state self.old) (sink_state self.new) result }
        ensures bytes { WriteAppends self.old.held self.new.held result bytes.now }
    {
        let written = write_some(&mut self.output, bytes);
        if written.is_err() {
            self.failures = raised(&self.failures, 1);
        }
        written
    }
}
