//! Creates files once, at their paths.

ghost use Rattle.std.specs.Prelude.{◌≡◌, ◌++◌, ℕ, List, [], ◌∷◌, Bool, string_bytes, IsOk, IsTrue, IfOk};
ghost use Rattle.devices.specs.files.Reported.{empty_report, held_report};

use crate::files::file_access::AtPath;
use std::io;
use std::io::Write;

/// The permission to create the file at one path, once: creating it uses up the slot. Its holder can do nothing else with files.
pub trait FileSlot: Drop {
    /// A created file.
    type File: Write + AtPath + Drop;

    /// Whether its file reports its bytes. A file of a system does not.
    ghost reports: { Bool };

    /// Whether its file can always be created. A file of a system cannot.
    ghost is_sure: { Bool };

    /// The path of its file.
    ghost path: { Self → List ℕ };

    /// Creates the file, or empties an existing one.
    ///
    /// # Errors
    ///
    /// It cannot be created, whatever the system's reason.
    fn create(self) -> io::Result<Self::File>
        ensures path { IfOk result (λ file. Self.File.path file ≡ path self) }
        ensures empty { IfOk result (λ file. held_report reports (Self.File.contents file) ≡ empty_report reports) }
        ensures sure { IsTrue is_sure → IsOk result };
}

/// Makes slots, and records their paths for contracts.
pub trait FileSlots {
    type Slot: FileSlot;

    /// The paths of the slots that it made so far, in order.
    ghost made: { Self → List (List ℕ) };

    /// Makes a slot for the file at this path, and does not touch the file.
    fn slot(&mut self, path: String) -> Self::Slot
        ensures path { Self.Slot.path result ≡ string_bytes path }
        ensures made { made self.new ≡ made self.old ++ string_bytes path ∷ [] };
}
