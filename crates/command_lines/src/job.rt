//! Jobs that the arguments of a command line state.

ghost use Rattle.std.specs.Prelude.{◌≡◌, ◌↔◌, string_bytes, IsFalse, IsTrue, IfOk, OnErr};
ghost use Rattle.command_lines.specs.Asked.{ShowsFault};
ghost use Rattle.command_lines.specs.CommandLine.{AppendsText, IsEndedText, IsRefusal};

use plan_parts::settings::Settings;
use std::alloc::{AllocError, Global};
use thiserror::Error;

/// The exit status if the arguments are rejected.
pub const USAGE: u8 = 2;

/// A job of the program.
#[derive(Debug, Drop, PartialEq, Eq)]
pub enum Job {
    /// Compiles the plan in the file `plan` with the zone files `zones`, in order, and writes the files of the instance, whose
    /// paths begin with `out`.
    Compile(RunArguments),
    /// Reads the files of an instance, whose paths begin with `base`, and prints its counts.
    Check { base: String },
}

/// The values of a run in the arguments: the file of its plan, the base of its output, its settings, and its zone files in order.
/// There is at least one zone file.
#[derive(Debug, Drop, PartialEq, Eq)]
pub struct RunArguments {
    pub plan: String,
    pub out: String,
    pub settings: Settings,
    pub zones: Vec<String>,
}

/// Why arguments state no job.
#[derive(Debug, Drop, Error)]
pub enum JobFault {
    /// The arguments are rejected, or request help or the version. The error's text is for the user.
    #[error("{0}")]
    Line(clap::Error),
    /// Memory was refused.
    #[error("OutOfMemory")]
    OutOfMemory,
}

impl From<AllocError> for JobFault {
    ghost use Rattle.command_lines.specs.declared.job.JobFault.TheVariants.{OutOfMemory};

    ghost from_gives = { λ _ fault. fault ≡ OutOfMemory };

    fn from(_refusal: AllocError) -> JobFault {
        JobFault::OutOfMemory
    }
}

impl From<clap::Error> for JobFault {
    ghost use Rattle.command_lines.specs.CommandLine.{HandsOn};

    ghost from_gives = { HandsOn };

    fn from(error: clap::Error) -> JobFault {
        if error.kind() == clap::error::ErrorKind::OutOfMemory {
            return JobFault::OutOfMemory;
        }
        JobFault::Line(error)
    }
}

/// Appends what the program shows in place of a job, like `append_error`, and returns the exit status: `USAGE` if the arguments are
/// rejected, else 0. If memory is refused, before or now, `text` and `lines` are unchanged.
pub fn append_fault(
    alloc: Global,
    fault: &JobFault,
    text: &mut Vec<u8>,
    lines: &mut Vec<u8>,
) -> Result<u8, AllocError>
    ensures shown { IfOk result
        (ShowsFault fault.now text.old.items text.new.items lines.old.items lines.new.items) }
    ensures kept { OnErr result
        ((text.new.items ≡ text.old.items) × (lines.new.items ≡ lines.old.items)) }
{
    let JobFault::Line(error) = fault else {
        return Err(AllocError);
    };
    if append_error(alloc, error, text, lines)? {
        return Ok(USAGE);
    }
    Ok(0)
}

/// Appends the text of an error of `clap`: to `lines` if the error rejects the arguments; else to `text`, since it is the help or
/// the version. Returns whether the error rejects them. The appended text is not empty and ends with a line feed. If memory is
/// refused, both are unchanged.
pub fn append_error(
    alloc: Global,
    error: &clap::Error,
    text: &mut Vec<u8>,
    lines: &mut Vec<u8>,
) -> Result<bool, AllocError>
    ensures refuses { IfOk result (λ refused. IsTrue refused ↔ IsRefusal error.now) }
    ensures reported { IfOk result (λ refused. IsTrue refused
        → AppendsText lines.old.items lines.new.items) }
    ensures shown { IfOk result (λ refused. IsFalse refused
        → AppendsText text.old.items text.new.items) }
    ensures quiet { IfOk result (λ refused. IsTrue refused → text.new.items ≡ text.old.items) }
    ensures still { IfOk result (λ refused. IsFalse refused → lines.new.items ≡ lines.old.items) }
    ensures kept { OnErr result
        ((text.new.items ≡ text.old.items) × (lines.new.items ≡ lines.old.items)) }
{
    let arguments = error_text(alloc, error)?;
    if error.use_stderr() {
        lines.extend_from_slice(arguments.as_bytes())?;
        return Ok(true);
    }
    text.extend_from_slice(arguments.as_bytes())?;
    Ok(false)
}

/// Returns the text of an error of `clap`: its help, its version, or why the arguments are rejected. The text is not empty and ends
/// with a line feed. Fails only if memory is refused.
pub fn error_text(alloc: Global, error: &clap::Error) -> Result<String, AllocError>
    ensures { IfOk result (λ text. IsEndedText (string_bytes text)) }
{
    let arguments = format!(in alloc; "{error}")?;
    let arguments = arguments.as_str();
    let arguments = arguments.strip_suffix("\n").unwrap_or(arguments);
    Ok(format!(in alloc; "{arguments}\n")?)
}
