//! The lines of predecessors, one for each block.

ghost use Rattle.std.specs.Prelude.{◌≡◌, ◌+◌, ◌<◌, ◌≤◌, ◌^◌, ◌++◌, ◌∷◌, [], All, length, slice_index_or, sum_by, IfOk, OnOk};
ghost use Rattle.precedence.specs.IdRanges.{ids_of};
ghost use Rattle.minelib_lines.specs.Lines.{line_of, lines_from, text_of};
ghost use Rattle.minelib_writing.specs.Written.{prec_line};
ghost use Rattle.minelib_writing.specs.inner.Parts.{line_of_preds};
ghost use Rattle.plan_parts.specs.declared.ranges.TheConstants.{MAX_BLOCKS};
ghost use Rattle.devices.specs.sinks.Writes.{WritesOn};

use crate::fields::append_field;
use crate::id_text::IdText;
use devices::sinks::sink::Sink;
use devices::sinks::slices::flush_full;
use devices::sinks::write_fault::WriteFault;
use precedence::{IdRange, MadeLists};
use std::alloc::{AllocError, Global};

/// Writes the line of each block after the bytes that the buffer holds, and counts the predecessors of all blocks in `arcs`. Requests the
/// ranges of a block when its line is written. `texts` has the texts of the identifiers of the blocks and of their predecessors.
pub fn write_counted<S: Sink, M: MadeLists>(
    alloc: Global,
    sink: &mut S,
    buffer: &mut Vec<u8>,
    preds: &mut M,
    texts: &IdText,
    arcs: &mut u128,
) -> Result<(), WriteFault>
    requires few { length (M.lists preds.old) ≤ MAX_BLOCKS }
    requires own { length (M.lists preds.old) ≤ texts.now }
    requires preds { All (λ ids. All (λ id. id < texts.now) ids) (M.lists preds.old) }
    requires none { arcs.old ≡ 0 }
    ensures writes { WritesOn (text_of (lines_from prec_line 0 (M.lists preds.old)))
        buffer.old.items buffer.new.items (S.state sink.old) (S.state sink.new) result }
    ensures counted { OnOk result (arcs.new ≡ sum_by length (M.lists preds.old)) }
{
    let mut ranges = Vec::new(alloc);
    for id in 0..preds.count() {
        write_line(sink, buffer, preds, id as u32, texts, &mut ranges, arcs)?;
    }
    Ok(())
}

// Writes the line of one block, and adds the number of its predecessors to `arcs`. The vector is scratch space for their ranges.
#[tactic(auto, using(crate::proofs::SectionsWritten::nothing_put))]
fn write_line<S: Sink, M: MadeLists>(
    sink: &mut S,
    buffer: &mut Vec<u8>,
    preds: &mut M,
    id: u32,
    texts: &IdText,
    ranges: &mut Vec<IdRange>,
    arcs: &mut u128,
) -> Result<(), WriteFault>
    requires block { id < length (M.lists preds.old) }
    requires own { id < texts.now }
    requires preds { All (λ pred. pred < texts.now) (slice_index_or (M.lists preds.old) id []) }
    requires room { arcs.old < 2 ^ 127 }
    ensures writes { WritesOn (line_of_preds (M.lists preds.old) id)
        buffer.old.items buffer.new.items (S.state sink.old) (S.state sink.new) result }
    ensures kept { M.lists preds.new ≡ M.lists preds.old }
    ensures counted { OnOk result
        (arcs.new ≡ arcs.old + length (slice_index_or (M.lists preds.old) id [])) }
    ensures countable { OnOk result (length (slice_index_or (M.lists preds.old) id []) < 2 ^ 63) }
{
    *arcs += u128::from(append_line(buffer, preds, id, texts, ranges)?);
    flush_full(sink, buffer)?;
    Ok(())
}

// Appends the line of a block, and returns the number of its predecessors.
fn append_line<M: MadeLists>(
    out: &mut Vec<u8>,
    preds: &mut M,
    id: u32,
    texts: &IdText,
    ranges: &mut Vec<IdRange>,
) -> Result<u64, AllocError>
    requires block { id < length (M.lists preds.old) }
    requires own { id < texts.now }
    requires preds { All (λ pred. pred < texts.now) (slice_index_or (M.lists preds.old) id []) }
    ensures text { OnOk result (out.new.items
        ≡ out.old.items ++ line_of_preds (M.lists preds.old) id) }
    ensures kept { M.lists preds.new ≡ M.lists preds.old }
    ensures count { IfOk result (λ n. n ≡ length (slice_index_or (M.lists preds.old) id [])) }
    ensures countable { IfOk result (λ n. n < 2 ^ 63) }
{
    ranges.clear();
    preds.add_ranges(ranges, id)?;
    append_preds(out, id, ranges.as_slice(), texts)
}

fn append_preds(
    out: &mut Vec<u8>,
    id: u32,
    ranges: &[IdRange],
    texts: &IdText,
) -> Result<u64, AllocError>
    requires own { id < texts.now }
    requires preds { All (λ pred. pred < texts.now) (ids_of ranges.now) }
    requires countable { length (ids_of ranges.now) < 2 ^ 63 }
    ensures text { OnOk result (out.new.items
        ≡ out.old.items ++ (line_of (prec_line id (ids_of ranges.now)) ++ 10 ∷ [])) }
    ensures count { IfOk result (λ n. n ≡ length (ids_of ranges.now)) }
{
    let count = count_of(ranges);
    texts.append_one(out, id)?;
    append_field(out, count)?;
    texts.append(out, ranges)?;
    out.push(b'\n')?;
    Ok(count)
}

/// Returns the number of identifiers in the ranges.
pub fn count_of(ranges: &[IdRange]) -> u64
    requires { length (ids_of ranges.now) < 2 ^ 63 }
    ensures { result ≡ length (ids_of ranges.now) }
{
    let mut count = 0;
    for range in ranges {
        count += u64::from(range.len);
    }
    count
}
