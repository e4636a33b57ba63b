//! What a command works with.

ghost use Rattle.std.specs.Prelude.{◌≡◌, []};

use devices::files::file_slot::FileSlots;
use devices::files::opener::Opener;
use run_threads::Starts;
use std::alloc::Global;
use std::marker::Model;

/// The files that a command may open, the slots by which it creates files, its thread starts, its text for standard output, and its
/// lines for standard error.
#[derive(Drop)]
pub struct World<'a, O: Opener + Drop, F: FileSlots + Drop, R> {
    pub files: O,
    pub slots: F,
    pub starts: Starts<'a, R>,
    pub text: Vec<u8>,
    pub lines: Vec<u8>,
}

impl<'a, O: Opener + Drop, F: FileSlots + Drop, R> Model for World<'a, O, F, R> {
    ghost use Rattle.command_io.specs.World.{World as AWorld};

    ghost Value = { AWorld };

    ghost view = { λ w. record {
      reports = F.Slot.reports;
      opened = O.opened w.files;
      made = F.made w.slots;
      starts = w.starts;
      text = w.text.items;
      lines = w.lines.items;
    } };
}

impl<'a, O: Opener + Drop, F: FileSlots + Drop, R> World<'a, O, F, R> {
    /// Makes a world with these files, slots and starts, in which nothing is printed yet.
    pub fn new(alloc: Global, files: O, slots: F, starts: Starts<'a, R>) -> World<'a, O, F, R>
        ensures { result ≡ record {
          reports = F.Slot.reports;
          opened = O.opened files;
          made = F.made slots;
          starts = starts.entry;
          text = [];
          lines = [];
        } }
    {
        World {
            files,
            slots,
            starts,
            text: Vec::new(alloc),
            lines: Vec::new(alloc),
        }
    }
}
