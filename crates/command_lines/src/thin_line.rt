//! The command line of pitc_thin, and the run that its arguments state.

ghost use Rattle.std.specs.Prelude.{◌≡◌, [], map, string_bytes, IfOk, IfErr};
ghost use Rattle.clap.specs.Words.{app_of, fault_of};
ghost use Rattle.command_lines.specs.CommandLine.{FindsArguments, IsNoMemoryLine, RefusesBy};
ghost use Rattle.command_lines.specs.ThinLine.{StatesRun, thin_program, thin_top};
ghost use Rattle.command_lines.specs.inner.Commands.{IsCommandOf};

use crate::command_line::{
    VERSION, capacity_option, out_option, plan_option, valuers_option, zones,
};
use crate::job::{JobFault, RunArguments};
use crate::run_arguments::run_arguments;
use crate::stating::{Stating, stated};
use clap::{ArgMatches, Command};
use std::alloc::{AllocError, Global};

const ABOUT: &str = "Writes the precedences of a model without arcs that follow from others.

A predecessor of a block is dropped if it is also a predecessor of another of the block's predecessors.
The retained arcs allow the same pits and schedules, and a solver has fewer arcs to take. If all zones
have one cone, no retained arc can be spared; if cones differ, some can be.";

const AFTER: &str = "Example:
  pitc_thin --plan march.plan --out out/march.thin north.csv south.csv
      reads the plan and its zone files, one for each zone of the plan and in its order,
      writes out/march.thin, replacing what is there, in the format of the file out/march.prec of pitc,
      and prints `rows N arcs M of L`: N blocks, M retained arcs, L arcs of all lists

An input whose path is that of FILE is overwritten. `-` is a file of that name. `pitc check BASE` reads
FILE too, if it is BASE.prec. Statuses and faults are those of pitc compile.";

/// Returns the run that these arguments state. The first argument is the program's name.
///
/// # Errors
///
/// - `Line`: `clap` rejects the arguments, or they request help or the version.
/// - `OutOfMemory`: memory was refused, here or within `clap`.
#[tactic(auto, unfolding(crate::specs::ThinLine::StatesRun))]
pub fn thin_run(alloc: Global, arguments: &[String]) -> Result<RunArguments, JobFault>
    ensures accepted { IfOk result (λ _. fault_of thin_program (map string_bytes arguments.now) ≡ []) }
    ensures stated { IfOk result (StatesRun (map string_bytes arguments.now)) }
    ensures refused { let arguments = map string_bytes arguments.now in
        IfErr result (RefusesBy thin_program (StatesRun arguments) arguments) }
    ensures memory { IfErr result IsNoMemoryLine }
{
    stated(alloc, arguments)
}

impl Stating for RunArguments {
    ghost app = { thin_program };

    ghost finds = { λ rows _. FindsArguments rows };

    fn command_line<'a>(alloc: Global) -> Result<Command<'a>, AllocError> {
        thin_command(alloc)
    }

    fn find(alloc: Global, matches: &ArgMatches<'_>) -> Result<Option<RunArguments>, AllocError> {
        run_arguments(alloc, matches)
    }
}

/// Makes the program's command line. Fails only if memory is refused.
pub fn thin_command<'a>(alloc: Global) -> Result<Command<'a>, AllocError>
    ensures { IfOk result (λ command. app_of command ≡ thin_program) }
{
    top_command(alloc)
        .arg(plan_option(alloc))?
        .arg(out_option(alloc, "FILE", "The file that is written"))?
        .arg(valuers_option(alloc))?
        .arg(capacity_option(alloc))?
        .arg(zones(alloc))
}

// Makes the program itself, without its arguments.
#[tactic(auto, unfolding(crate::specs::ThinLine::thin_top))]
fn top_command<'a>(alloc: Global) -> Command<'a>
    ensures { IsCommandOf thin_top result }
{
    Command::new(alloc, "pitc_thin")
        .about(ABOUT)
        .after_help(AFTER)
        .version(VERSION)
}
