//! A file as a sink.

ghost use Rattle.std.specs.Prelude.{◌≡◌, ◌+◌, [], false, true, ◌++◌, ◌∷◌, is_some, IsErr, IsOk, IsTrue, IfOk, IfSome, OnOk, OnErr};
ghost use Rattle.std.specs.Io.KnownBytes.{WriteAppends};
ghost use Rattle.devices.specs.files.Reported.{held_report};
ghost use Rattle.devices.specs.sinks.FileSinkView.{file_sink_state as sink_state, unbegun, HasFile, HoldsNewFile};
ghost use Rattle.devices.specs.sinks.SinkState.{IsCutOff, IsWritten, IsPut};

use crate::count::{Count, raised};
use crate::files::file_slot::{FileSlot, FileSlots};
use crate::sinks::single_write::write_some;
use crate::sinks::sink::{Sink, SinkFault};
use std::alloc::{AllocError, Global};
use std::marker::Model;
use std::snapshot::Snapshot;

/// A sink that writes to the file of its slot, which it creates once. It reports the bytes of the file if the file does, and no file of a
/// system does. Contracts see the path of the file as the bytes before its text, which no writer changes. Only `new` allocates memory.
#[derive(Drop)]
pub struct FileSink<P: FileSlot> {
    // its slot, until the file is to be created
    slot: Option<P>,
    // the slot as it was made
    first: Snapshot<P>,
    file: Option<P::File>,
    failures: Count,
}

impl<P: FileSlot> Model for FileSink<P> {
    ghost use Rattle.std.specs.Prelude.{◌≡◌, is_some, IfSome};
    ghost use Rattle.devices.specs.Count.{count_of};
    ghost use Rattle.devices.specs.files.Reported.{file_report, Reports};
    ghost use Rattle.devices.specs.sinks.FileSinkView.{FileSinkView, HasFile};

    ghost Value = { FileSinkView };

    ghost view = { λ s. record {
      path = P.path s.first.value;
      has_slot = is_some s.slot;
      begun = is_some s.file;
      held = file_report P.reports P.File.contents s.file;
      failures = count_of s.failures;
    } };

    ghost invariant = { λ s. IfSome s.slot (λ slot. slot ≡ s.first.value)
        × Reports P.reports P.File.contents s.file
        × HasFile P.File.path (is_some s.file) (P.path s.first.value) };
}

impl<P: FileSlot> FileSink<P> {
    /// Makes a sink for the file at this path. It is not begun: the file is not touched, and need not exist.
    ///
    /// # Errors
    ///
    /// Memory for the path was refused. No slot was made.
    pub fn new<F: FileSlots<Slot = P>>(
        files: &mut F,
        alloc: Global,
        path: &str,
    ) -> Result<FileSink<P>, AllocError>
        ensures unbegun { IfOk result (λ sink. sink ≡ unbegun P.reports path.now) }
        ensures made { OnOk result (F.made files.new ≡ F.made files.old ++ path.now ∷ []) }
        ensures kept { OnErr result (F.made files.new ≡ F.made files.old) }
    {
        let path = String::from_str(alloc, path)?;
        Ok(FileSink::from_slot(files.slot(path)))
    }

    /// Makes a sink for the file of this slot. It is not begun. Allocates no memory, and never fails.
    pub fn from_slot(slot: P) -> FileSink<P>
        ensures { result ≡ unbegun P.reports (P.path slot) }
    {
        FileSink {
            first: Snapshot::of(&slot),
            slot: Some(slot),
            file: None,
            failures: Count::Zero,
        }
    }

    /// Returns its slot, until `begin` was called.
    pub fn slot(&self) -> Option<&P>
        ensures has { is_some result ≡ self.now.has_slot }
        ensures path { IfSome result (λ slot. P.path slot.now ≡ self.now.path) }
    {
        self.slot.as_ref()
    }

    /// Returns its file, after it was begun.
    pub fn file(&self) -> Option<&P::File>
        ensures begun { is_some result ≡ self.now.begun }
        ensures held { IfSome result (λ file. held_report P.reports (P.File.contents file.now) ≡ self.now.held) }
        ensures there { HasFile P.File.path self.now.begun self.now.path }
    {
        self.file.as_ref()
    }
}

impl<P: FileSlot> Sink for FileSink<P> {
    ghost state = { sink_state };

    /// Creates the file, or empties an existing one. The first call uses up the slot, even if it fails.
    ///
    /// # Errors
    ///
    /// The file cannot be created, or `begin` was called before. The sink is unchanged, with one more refusal.
    fn begin(&mut self) -> Result<(), SinkFault>
        ensures begins { OnOk result (IsWritten [] (sink_state self.old) (sink_state self.new)) }
        ensures refused { OnErr result (IsCutOff 1 [] (sink_state self.old) (sink_state self.new)) }
        ensures path { self.new.path ≡ self.old.path }
        ensures once { OnOk result (self.old.has_slot ≡ true) }
        ensures sure { IsTrue P.is_sure → self.old.has_slot ≡ true → IsOk result }
        ensures used_up { self.new.has_slot ≡ false }
        ensures file { OnOk result
            (HoldsNewFile P.File.path P.File.contents P.reports self.old.path self.new.held) }
        ensures kept { OnErr result
            (self.new ≡ record self.old { has_slot = false; failures = self.old.failures + 1 }) }
    {
        let Some(slot) = self.slot.take() else {
            self.failures = raised(&self.failures, 1);
            return Err(SinkFault::new());
        };
        match slot.create() {
            Ok(file) => {
                self.file = Some(file);
                Ok(())
            }
            Err(error) => {
                self.failures = raised(&self.failures, 1);
                Err(SinkFault::of(&error))
            }
        }
    }

    /// Writes the bytes that one write to the file takes. Repeats a write that a signal interrupts.
    ///
    /// # Errors
    ///
    /// The sink was not begun, or the file takes no byte.
    fn put(&mut self, bytes: &[u8]) -> Result<usize, SinkFault>
        // Its path and its slot are unchanged, and a sink that was not begun takes nothing.
        ensures path { self.new.path ≡ self.old.path }
        ensures slot { self.new.has_slot ≡ self.old.has_slot }
        ensures unbegun { self.old.begun ≡ false → IsErr result }

        // The bytes that it takes are appended to the file.
        ensures puts { IsPut bytes.now (sink_state self.old) (sink_state self.new) result }
        ensures bytes { WriteAppends self.old.held self.new.held result bytes.now }
    {
        let written = match &mut self.file {
            Some(file) => write_some(file, bytes),
            None => Err(SinkFault::new()),
        };
        if written.is_err() {
            self.failures = raised(&self.failures, 1);
        }
        written
    }
}
