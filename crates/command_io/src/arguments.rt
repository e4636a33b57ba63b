//! The arguments that the program was started with.

ghost use Rattle.std.specs.IoError.{error_kind};
ghost use Rattle.std.specs.Prelude.{◌≡◌, ◌≢◌, Err, IfErr, IfOk};
ghost use Rattle.std.specs.Vec.Iter.{into_iter_items};
ghost use Rattle.refusals.specs.declared.refusal.Refusal.TheVariants.{OutOfMemory};

use crate::refused::Refused;
use refusals::refusal::Refusal;
use std::alloc::{AllocError, Global};
use std::env::Args;
use std::io::{self, ErrorKind};

/// Returns all arguments that the system gave, in order, beginning with the program's name. If the system returned an error
/// instead, an argument is not UTF-8, or memory was refused.
///
/// # Errors
///
/// - `NotUtf8`: an argument, possibly the program's name, is not UTF-8.
/// - `Run`: memory was refused.
pub fn arguments_of(alloc: Global, given: io::Result<Args>) -> Result<Vec<String>, Refused>
    ensures all { IfOk given (λ remaining. IfOk result (λ arguments. arguments.items ≡ into_iter_items remaining)) }
    ensures memory { IfOk given (λ remaining. IfErr result (λ why. why ≡ Refused.Run OutOfMemory)) }
    ensures encoding { IfErr given (λ error. error_kind error ≡ ErrorKind.InvalidData
        → result ≡ Err Refused.NotUtf8) }
    ensures other { IfErr given (λ error. error_kind error ≢ ErrorKind.InvalidData
        → result ≡ Err (Refused.Run OutOfMemory)) }
{
    match given {
        Ok(arguments) => Ok(in_order(alloc, arguments)?),
        Err(error) if error.kind() == ErrorKind::InvalidData => Err(Refused::NotUtf8),
        Err(_) => Err(Refused::Run(Refusal::OutOfMemory)),
    }
}

// Copies these arguments.
fn in_order(alloc: Global, arguments: Args) -> Result<Vec<String>, AllocError>
    ensures { IfOk result (λ taken. taken.items ≡ into_iter_items arguments) }
{
    arguments.collect(alloc)
}
