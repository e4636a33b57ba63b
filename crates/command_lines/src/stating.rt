//! The reading of a program's arguments, in the same way for every program.

ghost use Rattle.std.specs.Prelude.{◌≡◌, [], List, Option, map, string_bytes, true, IfOk, IfErr};
ghost use Rattle.clap.specs.Words.{App, Row, Text, app_of, fault_of, found_of, is_simple_and_free, matches_of, rows_of, subcommand_of, subcommand_rows_of};
ghost use Rattle.command_lines.specs.CommandLine.{IsNoMemoryLine, RefusesBy};
ghost use Rattle.command_lines.specs.inner.Commands.{FindsIfAny, IsLineOf};

use crate::job::JobFault;
use clap::error::ErrorKind;
use clap::{ArgMatches, Command};
use std::alloc::{AllocError, Global};

/// A value that the arguments of a program may state.
pub(crate) trait Stating: Sized + Drop {
    /// The command line of the program.
    ghost app: { App };

    /// Whether the value has what `clap` found for the program itself, and for a subcommand.
    ghost finds: { List Row → Option (Text × List Row) → Self → Type 0 };

    /// Makes the command line of the program.
    fn command_line<'a>(alloc: Global) -> Result<Command<'a>, AllocError>
        ensures { IfOk result (IsLineOf app) };

    /// Returns the value that has what `clap` found, if there is one.
    fn find(alloc: Global, matches: &ArgMatches<'_>) -> Result<Option<Self>, AllocError>
        ensures { IfOk result
            (FindsIfAny (finds (rows_of (found_of matches.now)) (subcommand_rows_of matches.now))) };
}

/// Returns the value that these arguments state. The first argument is the program's name.
///
/// # Errors
///
/// - `Line`: `clap` rejects the arguments, or they request help or the version.
/// - `OutOfMemory`: memory was refused, here or within `clap`.
pub(crate) fn stated<T: Stating>(alloc: Global, arguments: &[String]) -> Result<T, JobFault>
    ensures accepted { IfOk result (λ _. fault_of T.app (map string_bytes arguments.now) ≡ []) }
    ensures stated { let arguments = map string_bytes arguments.now in
        IfOk result (T.finds (matches_of T.app arguments) (subcommand_of T.app arguments)) }
    ensures refused { let arguments = map string_bytes arguments.now in
        IfErr result (RefusesBy T.app (T.finds (matches_of T.app arguments) (subcommand_of T.app arguments))
        arguments) }
    ensures memory { IfErr result IsNoMemoryLine }
{
    let mut command = T::command_line(alloc)?;
    if let Some(stated) = stated_if_any(alloc, &mut command, arguments)? {
        return Ok(stated);
    }
    let fault = command.error(
        ErrorKind::MissingRequiredArgument,
        "an argument is required",
    )?;
    Err(JobFault::from(fault))
}

// Returns the value that clap finds in these arguments, if clap finds all its parts.
fn stated_if_any<'a, T: Stating>(
    alloc: Global,
    command: &mut Command<'a>,
    arguments: &'a [String],
) -> Result<Option<T>, JobFault>
    requires { IsLineOf T.app command.old }
    ensures accepted { IfOk result (λ _. fault_of T.app (map string_bytes arguments.now) ≡ []) }
    ensures found { let arguments = map string_bytes arguments.now in
        IfOk result (FindsIfAny (T.finds (matches_of T.app arguments) (subcommand_of T.app arguments))) }
    ensures refused { let arguments = map string_bytes arguments.now in
        IfErr result (RefusesBy T.app (T.finds (matches_of T.app arguments) (subcommand_of T.app arguments))
        arguments) }
    ensures memory { IfErr result IsNoMemoryLine }
{
    let matches = command.try_get_matches_from_mut(arguments)?;
    Ok(T::find(alloc, &matches)?)
}
