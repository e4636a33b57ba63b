//! Writes the files of an instance, one sink after the other.

ghost use Rattle.std.specs.Prelude.{◌≡◌, IfErr, OnOk};
ghost use Rattle.mine_instance.specs.Valid.{IsValid};
ghost use Rattle.pit_compile.specs.SinkAnswers.{AreCutOff};
ghost use Rattle.pit_compile.specs.inner.SinkWriting.{in_sink};
ghost use Rattle.pit_compile.specs.Sinks.{sink_states, AreWritten};

use crate::sinks::Sinks;
use devices::sinks::sink::Sink;
use devices::sinks::write_fault::WriteFault;
use mine_instance::coefs::list::CoefList;
use mine_instance::instance::Instance;
use mine_instance::values::list::ValueList;
use minelib_lines::text_name::TextName;
use minelib_writing::write_named;
use pit_units::OrMemory;
use precedence::PredLists;
use refusals::refusal::Refusal;
use std::alloc::Global;

/// Begins the sinks and writes the files of an instance, one after the other.
///
/// # Errors
///
/// - `SinkFailed`: a sink refused a call.
/// - `OutOfMemory`: memory was refused.
///
/// The sinks before that sink hold their files. That sink is unchanged, or begun with a prefix of its file. The sinks after
/// it are unchanged.
pub fn write_texts<P: PredLists, C: CoefList, V: ValueList, S: Sink>(
    alloc: Global,
    instance: &Instance<P, C, V>,
    sinks: &mut Sinks<S>,
) -> Result<(), Refusal>
    requires { IsValid instance.now }
    ensures written { let states = sink_states S.state in
        OnOk result (AreWritten instance.now (states sinks.old) (states sinks.new)) }
    ensures refused { let states = sink_states S.state in
        IfErr result (AreCutOff instance.now (states sinks.old) (states sinks.new)) }
{
    for name in TextName::all() {
        in_sink(name, write_named(alloc, name, instance, sinks.of_mut(name)))?;
    }
    Ok(())
}

// Returns the result of writing to a sink, as the result of a run.
fn in_sink(which: TextName, written: Result<(), WriteFault>) -> Result<(), Refusal>
    ensures { result ≡ in_sink which written }
{
    match written {
        Ok(()) => Ok(()),
        Err(OrMemory::Fault(_)) => Err(Refusal::SinkFailed { which }),
        Err(OrMemory::OutOfMemory) => Err(Refusal::OutOfMemory),
    }
}
