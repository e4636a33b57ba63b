//! The test hook of a run, which is called for each row and each reader.

ghost use Rattle.std.specs.Prelude.{ℕ};

use std::sync::Wait;

/// A test hook, which a run calls before it values a row, and before a reader pulls for the first time. It may wait.
///
/// Only the calls establish `passed_row` and `passed_reader`. So a contract that states them for an unknown gate guarantees that the gate
/// was called. An implementation may keep the defaults.
pub trait Gate {
    /// `row` was called for this valuer and the row at this place of this file.
    ghost passed_row: { Self → ℕ → ℕ → ℕ → Type 0 } = { λ gate valuer file place. Unit {0} };

    /// `reader` was called for this file's reader.
    ghost passed_reader: { Self → ℕ → Type 0 } = { λ gate file. Unit {0} };

    /// Is called by a valuer before it values the row at this place of this file.
    fn row<R: Wait>(&self, rt: &R, valuer: u8, file: u8, place: u32)
        ensures { passed_row self.now valuer file place };

    /// Is called on the thread of a file's reader before its first pull.
    fn reader<R: Wait>(&self, rt: &R, file: u8)
        ensures { passed_reader self.now file };
}

/// A gate that lets everything pass at once.
#[derive(Clone, Copy, Debug, PartialEq, Eq)]
pub struct OpenGate;

impl Gate for OpenGate {
    fn row<R: Wait>(&self, _rt: &R, _valuer: u8, _file: u8, _place: u32) {}

    fn reader<R: Wait>(&self, _rt: &R, _file: u8) {}
}
