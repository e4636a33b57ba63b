//! Writing all bytes to an output.

ghost use Rattle.std.specs.Prelude.{OnErr, OnOk};
ghost use Rattle.command_io.specs.WriteAll.{TakesAll, TakesLess};

use devices::sinks::sink::{Sink, SinkFault};

/// Writes all these bytes to an output, after those that it has.
///
/// # Errors
///
/// The output refused a call. It took a prefix of the bytes, but not all.
#[tactic(auto, using(crate::proofs::Outputs::took_none, crate::proofs::Outputs::took_all))]
pub fn write_all<S: Sink>(output: &mut S, bytes: &[u8]) -> Result<(), SinkFault>
    ensures whole { OnOk result (TakesAll bytes.now (S.state output.old) (S.state output.new)) }
    ensures short { OnErr result (TakesLess bytes.now (S.state output.old) (S.state output.new)) }
{
    let mut taken = 0;
    while taken < bytes.len() {
        taken += output.put(&bytes[taken..])?;
    }
    Ok(())
}
