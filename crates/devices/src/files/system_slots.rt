//! Creates files of the system.
//!
//! No contract can state which file of a system is at a path, or what it holds, so reviewers must read this module.

ghost use Rattle.std.specs.Prelude.{◌≡◌, [], ◌∷◌, ◌++◌, string_bytes};

use crate::files::asked::Made;
use crate::files::file_slot::{FileSlot, FileSlots};
use crate::files::system_files::SystemFile;
use crate::shown_bytes::shown;
use std::fs::File;
use std::io;
use std::rt::Files;
use std::snapshot::Snapshot;

/// Slots for files of a system.
#[derive(Drop)]
pub struct SystemSlots<'a, R: Files> {
    rt: &'a R,
    made: Made,
}

impl<'a, R: Files> SystemSlots<'a, R> {
    /// Makes slots through this runtime; none was made yet.
    pub fn new(rt: &'a R) -> SystemSlots<'a, R>
        ensures { ⟦<SystemSlots<'a, R> as FileSlots>⟧.made result ≡ [] }
    {
        SystemSlots {
            rt,
            made: Made::Nothing,
        }
    }
}

impl<'a, R: Files> FileSlots for SystemSlots<'a, R> {
    ghost use Rattle.devices.specs.files.Asked.{paths_of};

    type Slot = SystemSlot<'a, R>;

    ghost made = { λ slots. paths_of slots.made };

    fn slot(&mut self, path: String) -> SystemSlot<'a, R> {
        let before = Snapshot::of(&self.made);
        self.made = Made::Slot(shown(path.as_bytes()), before);
        SystemSlot { rt: self.rt, path }
    }
}

/// The permission to create one file of the system, once.
#[derive(Drop)]
pub struct SystemSlot<'a, R: Files> {
    rt: &'a R,
    path: String,
}

impl<'a, R: Files> FileSlot for SystemSlot<'a, R> {
    ghost use Rattle.std.specs.Prelude.{false, string_bytes};

    type File = SystemFile<R::File>;

    ghost reports = { false };

    ghost is_sure = { false };

    ghost path = { λ slot. string_bytes slot.path };

    fn create(self) -> io::Result<SystemFile<R::File>> {
        let file = File::create(self.rt, self.path.as_str())?;
        Ok(SystemFile::at(file, self.path.as_str()))
    }
}
