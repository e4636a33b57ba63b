//! Writes the reduced lists of an instance.

ghost use Rattle.std.specs.Prelude.{◌≡◌, ◌≤◌, length, sum_by, IfErr, IfOk, MatchResult, OnOk};
ghost use Rattle.devices.specs.sinks.SinkState.{IsWritten};
ghost use Rattle.mine_instance.specs.Valid.{IsValid};
ghost use Rattle.plan_parts.specs.declared.ranges.TheConstants.{MAX_BLOCKS};
ghost use Rattle.thin_command.specs.Thin.{IsStopped, counts_of, thin_text};
ghost use Rattle.thin_command.specs.inner.Answered.{in_sink};

use crate::counts::ThinCounts;
use devices::sinks::sink::Sink;
use devices::sinks::write_fault::WriteFault;
use fewer_arcs::ReducedPreds;
use mine_instance::instance::Instance;
use mine_instance::{LazyCoefs, LazyValues};
use minelib_lines::text_name::TextName;
use minelib_writing::{count_arcs, write_lists};
use pit_units::OrMemory;
use precedence::LazyPreds;
use refusals::refusal::Refusal;
use std::alloc::{AllocError, Global};

/// Begins the sink and writes the reduced lists of the instance, which is used up. Returns the counts of the instance.
///
/// # Errors
///
/// - `SinkFailed`: the sink failed.
/// - `OutOfMemory`: memory was refused.
///
/// The sink is unchanged, or begun with a prefix of the text.
pub fn write_reduced<S: Sink>(
    alloc: Global,
    instance: Instance<LazyPreds, LazyCoefs, LazyValues>,
    sink: &mut S,
) -> Result<ThinCounts, Refusal>
    requires { IsValid instance }
    ensures written { OnOk result
        (IsWritten (thin_text instance) (S.state sink.old) (S.state sink.new)) }
    ensures counts { IfOk result (λ counts. counts ≡ counts_of instance) }
    ensures refused { IfErr result
        (IsStopped (thin_text instance) (S.state sink.old) (S.state sink.new)) }
{
    let (rows, preds) = parts_of(instance);
    let all = count_all(alloc, &preds)?;
    let mut reduced = ReducedPreds::new(preds);
    let retained = in_sink(write_lists(alloc, &mut reduced, sink))?;
    Ok(ThinCounts {
        rows,
        retained,
        all,
    })
}

// Returns the number of predecessors of all blocks. Counts by the rows of the cones, or by the lists if that is faster.
fn count_all(alloc: Global, preds: &LazyPreds) -> Result<u128, AllocError>
    requires { length preds.now ≤ MAX_BLOCKS }
    ensures { IfOk result (λ arcs. arcs ≡ sum_by length preds.now) }
{
    if preds.is_sparse() {
        return count_arcs(alloc, preds);
    }
    Ok(u128::from(preds.arcs(alloc)?))
}

// Returns the number of an instance's blocks, and their predecessors.
fn parts_of(instance: Instance<LazyPreds, LazyCoefs, LazyValues>) -> (usize, LazyPreds)
    ensures rows { result.0 ≡ length instance.blocks }
    ensures preds { result.1 ≡ instance.preds }
{
    let rows = instance.blocks_len();
    (rows, instance.preds)
}

// Returns the result of writing as the result of a run.
fn in_sink(written: Result<u128, WriteFault>) -> Result<u128, Refusal>
    ensures { result ≡ in_sink written }
{
    match written {
        Ok(arcs) => Ok(arcs),
        Err(OrMemory::Fault(_)) => Err(Refusal::SinkFailed {
            which: TextName::Prec,
        }),
        Err(OrMemory::OutOfMemory) => Err(Refusal::OutOfMemory),
    }
}
