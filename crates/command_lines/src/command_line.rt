//! The command line of the program.

ghost use Rattle.std.specs.Prelude.{◌≡◌, false, IfOk};
ghost use Rattle.clap.specs.Words.{app_of, new_app, rule_of};
ghost use Rattle.command_lines.specs.CommandLine.{base_word, capacity_word, check_words, compile_words, out_word, plan_word, program, top_words, valuers_word, zone_word};
ghost use Rattle.command_lines.specs.inner.Commands.{IsCommandOf};

use clap::{Arg, Command, value_parser};
use plan_parts::ranges::{MAX_CAPACITY, MAX_VALUERS};
use std::alloc::{AllocError, Global};

/// The version, which equals the newest version in CHANGELOG.md.
pub(crate) const VERSION: &str = "0.2.0";

const ABOUT: &str = "Turns the block models of an open pit mine into a MineLib instance.

Without arguments, pitc reads a plan and then its zone files from standard input, cut at each line that is
exactly `--`, and prints the five texts of the instance, each under a line that begins with `== `.
It reads up to the end of its input: a terminal that brings nothing is yours to end (Ctrl-D).";

const AFTER: &str = "Examples:
  pitc < march.txt
      reads the plan, and behind each line `--` a zone file, from march.txt
  pitc compile --plan march.plan --out out/march north.csv south.csv
      writes the files of the instance, out/march.blocks and so on
  pitc check out/march
      reads these files and prints their counts

Statuses:
  0  done, also where help or the version was asked for
  1  a plan, a model or a text is refused, or an input is too long
  2  the arguments are refused, or there are not as many zone files as the plan has zones
  3  an input cannot be opened or read, or an output cannot be written
  4  memory or a thread was refused

Causes of errors, and mistakes that raise none: docs/causes.md. The plan, zone files and written files:
docs/formats.md. From an export to an instance: docs/tutorial.md; to a solver: docs/solvers.md. The pages are
in share/pitc, beside the bin of pitc where it is installed, as /usr/share/pitc, and in its archive.";

const AFTER_COMPILE: &str = "Example:
  pitc compile --plan march.plan --out out/march north.csv south.csv
      reads the plan and its zone files, one for each zone of the plan and in its order,
      writes out/march.blocks, out/march.prec, out/march.upit, out/march.pcpsp and out/march.cpit,
      replacing what is there, and prints `rows N`, the number of blocks

BASE is a name and no folder: `--out out/` writes out/.blocks and so on. An input whose path is that of
one of the files is overwritten. `-` is a file of that name. Only status 0 says that the files that stand
at BASE are those of one run.";

const AFTER_CHECK: &str = "Example:
  pitc check out/march
      reads out/march.blocks, out/march.prec and out/march.pcpsp, and out/march.cpit where it is there,
      and prints `blocks N arcs M coefficients C limits L`, and ` cpit P` behind it where there is a cpit file

It cannot tell whether the files are those of one run: only the status 0 of that run says so.";

/// Makes the program's command line. Without arguments the program reads a model from standard input. Fails only if memory is
/// refused.
pub fn command_line<'a>(alloc: Global) -> Result<Command<'a>, AllocError>
    ensures { IfOk result (λ command. app_of command ≡ program) }
{
    let compile = compile_command(alloc)?;
    let check = check_command(alloc)?;
    top_command(alloc).subcommand(compile)?.subcommand(check)
}

// Makes the program itself, without its subcommands.
#[tactic(auto, unfolding(crate::specs::CommandLine::top_words))]
fn top_command<'a>(alloc: Global) -> Command<'a>
    ensures { app_of result ≡ top_words }
{
    Command::new(alloc, "pitc")
        .about(ABOUT)
        .after_help(AFTER)
        .version(VERSION)
        .override_usage("pitc\n       pitc <COMMAND>")
        .subcommand_required(true)
}

fn compile_command<'a>(alloc: Global) -> Result<Command<'a>, AllocError>
    ensures { IfOk result (IsCommandOf compile_words) }
{
    subcommand(
        alloc,
        "compile",
        "Writes the files of the instance of a plan and its zone files",
        AFTER_COMPILE,
    )
    .arg(plan_option(alloc))?
    .arg(out_option(
        alloc,
        "BASE",
        "What the paths of the files begin with, as out/march: a name and no folder",
    ))?
    .arg(valuers_option(alloc))?
    .arg(capacity_option(alloc))?
    .arg(zones(alloc))
}

/// Makes the option `--plan P`.
#[tactic(auto, unfolding(crate::specs::CommandLine::plan_word))]
pub(crate) fn plan_option<'a>(alloc: Global) -> Arg<'a>
    ensures rule { rule_of result ≡ plan_word }
    ensures local { result.global ≡ false }
{
    Arg::new(alloc, "plan")
        .long("plan")
        .value_name("P")
        .required(true)
        .help("The file of the plan")
}

/// Makes the option `--out`, with the name and the help of its value.
#[tactic(auto, unfolding(crate::specs::CommandLine::out_word))]
pub(crate) fn out_option<'a>(alloc: Global, name: &'a str, help: &'a str) -> Arg<'a>
    ensures rule { rule_of result ≡ out_word }
    ensures local { result.global ≡ false }
{
    Arg::new(alloc, "out")
        .long("out")
        .value_name(name)
        .required(true)
        .help(help)
}

/// Makes the option `--valuers N`.
#[tactic(auto, unfolding(crate::specs::CommandLine::valuers_word))]
pub(crate) fn valuers_option<'a>(alloc: Global) -> Arg<'a>
    ensures rule { rule_of result ≡ valuers_word }
    ensures local { result.global ≡ false }
{
    Arg::new(alloc, "valuers")
        .long("valuers")
        .value_name("N")
        .default_value("4")
        .value_parser(value_parser!(usize).range(1..=MAX_VALUERS as i64))
        .help("How many threads value blocks, from 1 to 64")
}

/// Makes the option `--capacity N`.
#[tactic(auto, unfolding(crate::specs::CommandLine::capacity_word))]
pub(crate) fn capacity_option<'a>(alloc: Global) -> Arg<'a>
    ensures rule { rule_of result ≡ capacity_word }
    ensures local { result.global ≡ false }
{
    Arg::new(alloc, "capacity")
        .long("capacity")
        .value_name("N")
        .default_value("64")
        .value_parser(value_parser!(usize).range(1..=MAX_CAPACITY as i64))
        .help("How many blocks wait between the threads, from 1 to 4096")
}

/// Makes the arguments ZONE.
#[tactic(auto, unfolding(crate::specs::CommandLine::zone_word))]
pub(crate) fn zones<'a>(alloc: Global) -> Arg<'a>
    ensures rule { rule_of result ≡ zone_word }
    ensures local { result.global ≡ false }
{
    Arg::new(alloc, "zone")
        .value_name("ZONE")
        .num_args(1..)
        .required(true)
        .help("The zone files, one for each zone of the plan, in its order")
}

fn check_command<'a>(alloc: Global) -> Result<Command<'a>, AllocError>
    ensures { IfOk result (IsCommandOf check_words) }
{
    subcommand(
        alloc,
        "check",
        "Reads the files of an instance and prints its counts",
        AFTER_CHECK,
    )
    .arg(base(alloc))
}

#[tactic(auto, unfolding(crate::specs::CommandLine::base_word))]
fn base<'a>(alloc: Global) -> Arg<'a>
    ensures rule { rule_of result ≡ base_word }
    ensures local { result.global ≡ false }
{
    Arg::new(alloc, "base")
        .value_name("BASE")
        .required(true)
        .help("What the paths of the files begin with, as out/march")
}

// Makes a subcommand without its arguments.
fn subcommand<'a>(alloc: Global, name: &'a str, about: &'a str, after: &'a str) -> Command<'a>
    ensures { IsCommandOf (new_app name.now) result }
{
    Command::new(alloc, name).about(about).after_help(after)
}
