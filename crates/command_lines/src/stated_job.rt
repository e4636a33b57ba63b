//! The job that the arguments of a command line state.

ghost use Rattle.std.specs.Prelude.{◌≡◌, [], Some, codes, map, string_bytes, IfOk, IfErr};
ghost use Rattle.clap.specs.Words.{fault_of, found_of, rows_of, subcommand_rows_of};
ghost use Rattle.command_lines.specs.CommandLine.{Finds, IsNoMemoryLine, RefusesBy, StatesJob, program};
ghost use Rattle.command_lines.specs.inner.Commands.{FindsIfAny};

use crate::command_line::command_line;
use crate::job::{Job, JobFault};
use crate::run_arguments::run_arguments;
use crate::stating::{Stating, stated};
use clap::{ArgMatches, Command};
use std::alloc::{AllocError, Global};

/// Returns the job that these arguments state. The first argument is the program's name.
///
/// # Errors
///
/// - `Line`: `clap` rejects the arguments, or they request help or the version.
/// - `OutOfMemory`: memory was refused, here or within `clap`.
#[tactic(auto, unfolding(crate::specs::CommandLine::StatesJob))]
pub fn job(alloc: Global, arguments: &[String]) -> Result<Job, JobFault>
    ensures accepted { IfOk result (λ _. fault_of program (map string_bytes arguments.now) ≡ []) }
    ensures stated { IfOk result (StatesJob (map string_bytes arguments.now)) }
    ensures refused { let arguments = map string_bytes arguments.now in
        IfErr result (RefusesBy program (StatesJob arguments) arguments) }
    ensures memory { IfErr result IsNoMemoryLine }
{
    stated(alloc, arguments)
}

impl Stating for Job {
    ghost app = { program };

    ghost finds = { λ _ found. Finds found };

    fn command_line<'a>(alloc: Global) -> Result<Command<'a>, AllocError> {
        command_line(alloc)
    }

    fn find(alloc: Global, matches: &ArgMatches<'_>) -> Result<Option<Job>, AllocError> {
        found_job(alloc, matches)
    }
}

// Returns the job that clap found in the arguments.
fn found_job(alloc: Global, matches: &ArgMatches<'_>) -> Result<Option<Job>, AllocError>
    ensures { IfOk result (FindsIfAny (Finds (subcommand_rows_of matches.now))) }
{
    let Some((name, found)) = matches.subcommand() else {
        return Ok(None);
    };
    match name {
        "compile" => compile_job(alloc, found),
        "check" => check_job(alloc, found),
        // clap finds no other subcommand
        _ => Ok(None),
    }
}

fn check_job(alloc: Global, found: &ArgMatches<'_>) -> Result<Option<Job>, AllocError>
    ensures { IfOk result
        (FindsIfAny (Finds (Some (codes "check", rows_of (found_of found.now))))) }
{
    let Some(base) = found.get_str("base") else {
        return Ok(None);
    };
    let base = String::from_str(alloc, base)?;
    Ok(Some(Job::Check { base }))
}

fn compile_job(alloc: Global, found: &ArgMatches<'_>) -> Result<Option<Job>, AllocError>
    ensures { IfOk result
        (FindsIfAny (Finds (Some (codes "compile", rows_of (found_of found.now))))) }
{
    let Some(run) = run_arguments(alloc, found)? else {
        return Ok(None);
    };
    Ok(Some(Job::Compile(run)))
}
