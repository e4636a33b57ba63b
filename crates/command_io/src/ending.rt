//! The end of a program.

ghost use Rattle.std.specs.Prelude.{◌≡◌, ◌≢◌, IfErr, IfOk};
ghost use Rattle.std.specs.Process.{exit_status};
ghost use Rattle.command_io.specs.Ending.{Exits, Prints, Reports};
ghost use Rattle.command_io.specs.FaultLine.{Ends};

use crate::refused::Refused;
use crate::refused::fault_line::report;
use crate::refused::status::finish;
use crate::world::World;
use devices::files::file_slot::FileSlots;
use devices::files::opener::Opener;
use devices::sinks::sink::Sink;
use std::alloc::Global;
use std::process::ExitCode;

/// The end of a command.
#[derive(Drop)]
pub struct Ended<S> {
    /// The exit status of the command.
    pub status: u8,
    /// The sinks of the files that the command writes, if slots for these were made.
    pub sinks: Option<S>,
}

/// Standard output and standard error.
#[derive(Drop)]
pub struct Streams<P, E> {
    pub output: P,
    pub errors: E,
}

/// Prints what a command left in the world, and returns the exit status of the program, like `finish`. If the command failed before it had a
/// status, first appends the line of the error to the lines, like `report`, and changes nothing else in the world.
pub fn end<S: Drop, R, O: Opener + Drop, F: FileSlots + Drop, P: Sink, E: Sink>(
    alloc: Global,
    ended: Result<Ended<S>, Refused>,
    world: &mut World<'_, O, F, R>,
    streams: &mut Streams<P, E>,
) -> ExitCode
    ensures kept { IfOk ended (λ _. world.new ≡ world.old) }
    ensures printed { IfOk ended (λ ended. Prints P.state E.state world.new ended.status
        streams.old streams.new (exit_status result)) }
    ensures reported { IfErr ended (λ refused. Exits P.state E.state
        (Reports refused world.old world.new) world.new streams.old streams.new (exit_status result)) }
{
    let status = status_of(alloc, ended, &mut world.lines);
    finish(
        streams,
        status,
        world.text.as_slice(),
        world.lines.as_slice(),
    )
}

// Returns the status of a command, or reports why it has none.
fn status_of<S: Drop>(alloc: Global, ended: Result<Ended<S>, Refused>, lines: &mut Vec<u8>) -> u8
    ensures kept { IfOk ended (λ ended. (result ≡ ended.status) × (lines.new.items ≡ lines.old.items)) }
    ensures ends { IfErr ended (λ refused. Ends refused lines.old.items lines.new.items result) }
    ensures fails { IfErr ended (λ _. result ≢ 0) }
{
    match ended {
        Ok(ended) => ended.status,
        Err(refused) => report(alloc, &refused, lines),
    }
}
