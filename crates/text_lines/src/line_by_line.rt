//! Reads the lines of a text one after the other.

ghost use Rattle.std.specs.Prelude.{◌≡◌, ℕ, ◌+◌, ◌<◌, ◌^◌, List, Result, IfOk, length};
ghost use Rattle.text_lines.specs.Reading.{Leaves, at_line, read_lines};
ghost use Rattle.text_lines.specs.TextLines.{end_of, lines_in, lines_of, numbered_lines};
ghost use Rattle.text_lines.specs.declared.text_fault.TextKind.{TextKind as Kind};

use crate::cut_lines::{cut_line, is_skipped, strip_carriage_return, without_mark};
use crate::text_fault::{LineFault, TextKind};
use pit_units::OrMemory;

/// The contents of the lines of a text so far.
pub trait Admit {
    /// The state after the next line, or the error of the line.
    ghost admit_line: { Self → List ℕ → Result Self Kind };

    /// Admits the next line, which must not be a skipped line.
    ///
    /// # Errors
    ///
    /// The line is invalid after the lines before it, or memory was refused. The state is then invalid.
    fn admit(&mut self, line: &[u8]) -> Result<(), OrMemory<TextKind>>
        ensures { Leaves self.new result (admit_line self.old line.now) };
}

/// Passes the lines of a text that are not skipped to `state`, and returns the number of the line after the last.
///
/// # Errors
///
/// The first line that the state rejects, or `OutOfMemory` if memory was refused. The state is then invalid.
pub fn read_lines<S: Admit>(state: &mut S, text: &[u8]) -> Result<u64, OrMemory<LineFault>>
    ensures read { Leaves state.new result (read_lines S.admit_line state.old (lines_in text.now)) }
    ensures number { IfOk result (λ n. n ≡ end_of text.now) }
{
    read_on(state, 1, without_mark(text))
}

/// Passes the lines of a part of a text that are not skipped to `state`, and returns the number of the line after the last. The first
/// line of the part has the number `first`.
///
/// # Errors
///
/// Fails like `read_lines`.
pub fn read_on<S: Admit>(state: &mut S, first: u64, part: &[u8]) -> Result<u64, OrMemory<LineFault>>
    requires { first + length part.now < 2 ^ 64 }
    ensures read { Leaves state.new result
        (read_lines S.admit_line state.old (numbered_lines first (lines_of part.now))) }
    ensures number { IfOk result (λ n. n ≡ first + length (lines_of part.now)) }
{
    let mut number = first;
    let mut rest = part;
    while !rest.is_empty() {
        let (whole, following) = cut_line(rest);
        let line = strip_carriage_return(whole);
        if !is_skipped(line) {
            admit_at(state, number, line)?;
        }
        number += 1;
        rest = following;
    }
    Ok(number)
}

fn admit_at<S: Admit>(state: &mut S, number: u64, line: &[u8]) -> Result<(), OrMemory<LineFault>>
    ensures { Leaves state.new result (at_line number (S.admit_line state.old line.now)) }
{
    match state.admit(line) {
        Ok(()) => Ok(()),
        Err(OrMemory::Fault(kind)) => Err(OrMemory::Fault(LineFault { line: number, kind })),
        Err(OrMemory::OutOfMemory) => Err(OrMemory::OutOfMemory),
    }
}
