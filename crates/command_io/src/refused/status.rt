//! The exit statuses of the program.

ghost use Rattle.std.specs.Prelude.{◌≡◌, ◌≢◌};
ghost use Rattle.std.specs.Process.{exit_status};
ghost use Rattle.command_io.specs.Ending.{PrintsLines, PrintsText};
ghost use Rattle.command_io.specs.WriteAll.{TakesAtMost, printed_lines};

use crate::ending::Streams;
use crate::write_all::write_all;
use devices::sinks::sink::Sink;
use std::process::ExitCode;

/// A plan, a model or a file of an instance is invalid, or an input is too long.
pub const REFUSED: u8 = 1;

/// The arguments of the command line, or the settings of a run, are invalid.
pub const USAGE: u8 = 2;

/// A file could not be opened, or a read or a write failed.
pub const DEVICE: u8 = 3;

/// Memory or a thread was refused.
pub const RESOURCES: u8 = 4;

/// Writes the output of a run to standard output or standard error, after the bytes that these took before, and returns the exit
/// status.
///
/// - With the status 0 it writes `text` to standard output. If that does not take the whole text, it returns the status 3, and
///   writes the line `pitc: output: SinkFailed` to standard error.
/// - With another status it writes `lines` to standard error and nothing to standard output. If `lines` is empty, since there was
///   no memory for a line, it writes `pitc: OutOfMemory`.
///
/// A failure of standard error changes nothing.
pub fn finish<P: Sink, E: Sink>(
    streams: &mut Streams<P, E>,
    status: u8,
    text: &[u8],
    lines: &[u8],
) -> ExitCode
    ensures done { status ≡ 0
        → PrintsText P.state E.state text.now streams.old streams.new (exit_status result) }
    ensures refused { status ≢ 0 → exit_status result ≡ status }
    ensures reported { status ≢ 0 → PrintsLines P.state E.state lines.now streams.old streams.new }
{
    if status != 0 {
        write_line(&mut streams.errors, lines_to_print(lines));
        return ExitCode::from(status);
    }
    match write_all(&mut streams.output, text) {
        Ok(()) => ExitCode::from(0),
        Err(_) => {
            write_line(&mut streams.errors, b"pitc: output: SinkFailed\n");
            ExitCode::from(DEVICE)
        }
    }
}

// Returns the lines to print, or the line for refused memory if there are none.
fn lines_to_print(lines: &[u8]) -> &[u8]
    ensures { result.now ≡ printed_lines lines.now }
{
    match lines {
        [] => b"pitc: OutOfMemory\n",
        _ => lines,
    }
}

// Writes a line. After a failure, a prefix of it was taken.
fn write_line<E: Sink>(errors: &mut E, line: &[u8])
    ensures { TakesAtMost line.now (E.state errors.old) (E.state errors.new) }
{
    let _ = write_all(errors, line);
}
