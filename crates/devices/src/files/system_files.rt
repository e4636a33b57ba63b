//! Opens files of the system.
//!
//! No contract can state which file of a system is at a path, or what it holds, so reviewers must read this module.

ghost use Rattle.std.specs.Prelude.{◌≡◌, [], ◌∷◌, ◌++◌};

use crate::files::asked::Asked;
use crate::files::file_access::{AtPath, FileAccess};
use crate::shown_bytes::{ShownBytes, shown};
use std::fs::File;
use std::io;
use std::io::{Read, Write};
use std::rt::Files;
use std::snapshot::Snapshot;

/// The files of a system, for opening them.
#[derive(Drop)]
pub struct SystemFiles<'a, R: Files> {
    rt: &'a R,
    asked: Asked<R::File>,
}

impl<'a, R: Files> SystemFiles<'a, R> {
    /// Opens files through this runtime; none was requested yet.
    pub fn new(rt: &'a R) -> SystemFiles<'a, R>
        ensures { ⟦<SystemFiles<'a, R> as FileAccess>⟧.opened result ≡ [] }
    {
        SystemFiles {
            rt,
            asked: Asked::Nothing,
        }
    }
}

impl<'a, R: Files> FileAccess for SystemFiles<'a, R> {
    ghost use Rattle.devices.specs.files.Asked.{openings_of};

    type File = SystemFile<R::File>;

    ghost opened = { λ files. openings_of R.File.remaining files.asked };

    fn open(&mut self, path: &str) -> io::Result<SystemFile<R::File>> {
        match File::open(self.rt, path) {
            Ok(file) => {
                let before = Snapshot::of(&self.asked);
                self.asked = Asked::Opened(shown(path.as_bytes()), Snapshot::of(&file), before);
                Ok(SystemFile::at(file, path))
            }
            Err(error) => {
                let before = Snapshot::of(&self.asked);
                self.asked = Asked::Unopened(shown(path.as_bytes()), before);
                Err(error)
            }
        }
    }
}

/// A file of the system that was opened or created.
#[derive(Drop)]
pub struct SystemFile<F: Read + Write> {
    file: F,
    path: ShownBytes,
}

impl<F: Read + Write> SystemFile<F> {
    // Makes the file that was opened or created by this path.
    pub(crate) fn at(file: F, path: &str) -> SystemFile<F>
        ensures path { ⟦<SystemFile<F> as AtPath>⟧.path result ≡ path.now }
        ensures remaining { ⟦<SystemFile<F> as Read>⟧.remaining result ≡ F.remaining file }
        ensures contents { ⟦<SystemFile<F> as Write>⟧.contents result ≡ F.contents file }
    {
        SystemFile {
            file,
            path: shown(path.as_bytes()),
        }
    }
}

impl<F: Read + Write> AtPath for SystemFile<F> {
    ghost use Rattle.devices.specs.ShownBytes.{bytes_of};

    ghost path = { λ file. bytes_of file.path };

    ghost given = { λ _. 0 };
}

impl<F: Read + Write> Read for SystemFile<F> {
    ghost remaining = { λ file. F.remaining file.file };

    fn read(&mut self, buffer: &mut [u8]) -> io::Result<usize> {
        self.file.read(buffer)
    }
}

impl<F: Read + Write> Write for SystemFile<F> {
    ghost contents = { λ file. F.contents file.file };

    fn write(&mut self, bytes: &[u8]) -> io::Result<usize> {
        self.file.write(bytes)
    }

    fn flush(&mut self) -> io::Result<()> {
        self.file.flush()
    }
}
