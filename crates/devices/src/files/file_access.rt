//! Opens files by their paths.

ghost use Rattle.std.specs.Prelude.{◌≡◌, ◌++◌, ℕ, List, [], ◌∷◌, IfOk, OnErr};
ghost use Rattle.devices.specs.files.Opening.{Opening, Opened, Unopened};

use std::io;
use std::io::Read;

/// A file that was opened or created.
pub trait AtPath {
    /// The path by which it was opened or created.
    ghost path: { Self → List ℕ };
    /// The number of bytes that it gave since.
    ghost given: { Self → ℕ };
}

/// Opens files for reading, and records the requests for contracts. It can do nothing else with files: its holder can neither create,
/// empty, remove nor rename them.
pub trait FileAccess {
    /// An open file.
    type File: Read + AtPath + Drop;

    /// The requests to open so far, in order.
    ghost opened: { Self → List Opening };

    /// Opens the file at this path, from its first byte.
    ///
    /// # Errors
    ///
    /// It cannot be opened, whatever the system's reason.
    fn open(&mut self, path: &str) -> io::Result<Self::File>
        ensures path { IfOk result (λ file. Self.File.path file ≡ path.now) }
        ensures whole { IfOk result (λ file. Self.File.given file ≡ 0) }
        ensures opened { IfOk result (λ file. opened self.new
            ≡ opened self.old ++ Opened path.now (Self.File.remaining file) ∷ []) }
        ensures refused { OnErr result (opened self.new ≡ opened self.old ++ Unopened path.now ∷ []) };
}
