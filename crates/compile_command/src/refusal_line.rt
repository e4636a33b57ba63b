//! The line that the program prints for a failed run, and the exit status.

ghost use Rattle.std.specs.Prelude.{◌≡◌, ◌++◌, IfOk, OnOk, OnErr};
ghost use Rattle.command_io.specs.FaultLine.{program_line};
ghost use Rattle.command_io.specs.Refused.{run_status};
ghost use Rattle.refusals.specs.FaultText.{refusal_text};

use command_io::refused::Refused;
use command_io::refused::fault_line::append_line;
use refusals::refusal::Refusal;
use std::alloc::{AllocError, Global};

/// Appends the line of an error, and returns the exit status. Fails only if memory is refused; then `lines` is unchanged.
pub fn refusal_line(alloc: Global, refusal: &Refusal, lines: &mut Vec<u8>) -> Result<u8, AllocError>
    ensures status { IfOk result (λ status. status ≡ run_status refusal.now) }
    ensures appends { OnOk result
        (lines.new.items ≡ lines.old.items ++ program_line (refusal_text refusal.now)) }
    ensures err { OnErr result (lines.new.items ≡ lines.old.items) }
{
    let refused = Refused::Run(*refusal);
    append_line(alloc, &refused, lines)?;
    Ok(refused.status())
}
