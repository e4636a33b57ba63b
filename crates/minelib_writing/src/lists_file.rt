//! The precedence file of lists of predecessors, without an instance.

ghost use Rattle.std.specs.Prelude.{◌≡◌, ◌<◌, ◌≤◌, ◌^◌, [], All, length, slice_index_or, sum_by, IfOk, MatchResult};
ghost use Rattle.devices.specs.sinks.SinkState.{IsCutOff, IsWritten};
ghost use Rattle.devices.specs.sinks.SinkSteps.{refusals};
ghost use Rattle.minelib_writing.specs.Written.{text_preds};
ghost use Rattle.plan_parts.specs.declared.ranges.TheConstants.{MAX_BLOCKS};

use crate::id_text::IdText;
use crate::lines::preds::{count_of, write_counted};
use devices::sinks::sink::Sink;
use devices::sinks::slices::{LARGE, flush};
use devices::sinks::write_fault::WriteFault;
use precedence::{IdRange, MadeLists, PredLists};
use std::alloc::{AllocError, Global};

/// Begins the sink and writes the precedence file of these lists, one for each block by identifier, each computed when its line is
/// written. Returns the number of their identifiers. After an error, the sink is as the writers of an instance leave it.
#[tactic(auto, using(crate::proofs::SectionsWritten::cut_at_begin))]
pub fn write_lists<M: MadeLists, S: Sink>(
    alloc: Global,
    preds: &mut M,
    sink: &mut S,
) -> Result<u128, WriteFault>
    requires few { length (M.lists preds.old) ≤ MAX_BLOCKS }
    requires below { All (λ ids. All (λ id. id < length (M.lists preds.old)) ids) (M.lists preds.old) }
    ensures writes { MatchResult result
        (λ _. IsWritten (text_preds (M.lists preds.old)) (S.state sink.old) (S.state sink.new))
        (λ fault. IsCutOff (refusals fault) (text_preds (M.lists preds.old)) (S.state sink.old)
        (S.state sink.new)) }
    ensures arcs { IfOk result (λ arcs. arcs ≡ sum_by length (M.lists preds.old)) }
{
    let texts = IdText::below(alloc, preds.count())?;
    let mut buffer = Vec::with_capacity(alloc, 2 * LARGE)?;
    let mut arcs = 0;
    sink.begin()?;
    write_counted(alloc, sink, &mut buffer, preds, &texts, &mut arcs)?;
    flush(sink, &mut buffer)?;
    Ok(arcs)
}

/// Returns the number of identifiers in all lists. Fails only if memory is refused.
pub fn count_arcs<P: PredLists>(alloc: Global, preds: &P) -> Result<u128, AllocError>
    requires few { length (P.lists preds.now) ≤ MAX_BLOCKS }
    ensures { IfOk result (λ arcs. arcs ≡ sum_by length (P.lists preds.now)) }
{
    let mut ranges = Vec::new(alloc);
    let mut arcs = 0;
    for id in 0..preds.count() {
        arcs += u128::from(list_len(preds, id as u32, &mut ranges)?);
    }
    Ok(arcs)
}

// Returns the number of identifiers in the list of a block. The vector is scratch space for their ranges.
fn list_len<P: PredLists>(preds: &P, id: u32, ranges: &mut Vec<IdRange>) -> Result<u64, AllocError>
    requires { id < length (P.lists preds.now) }
    ensures count { IfOk result (λ n. n ≡ length (slice_index_or (P.lists preds.now) id [])) }
    ensures countable { IfOk result (λ n. n < 2 ^ 63) }
{
    ranges.clear();
    preds.add_ranges(ranges, id)?;
    Ok(count_of(ranges.as_slice()))
}
