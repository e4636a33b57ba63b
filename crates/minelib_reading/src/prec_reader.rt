//! A reader of precedence files.

ghost use Rattle.std.specs.Prelude.{◌≡◌, ◌<◌, ◌≤◌, ◌&&◌, [], not, All, IfOk, OnOk, length};
ghost use Rattle.text_lines.specs.FieldValues.{all_by};
ghost use Rattle.text_lines.specs.StatedFields.{below_in};
ghost use Rattle.minelib_reading.specs.inner.LinesTaken.{admit_preds, no_lists};
ghost use Rattle.minelib_reading.specs.LineFields.{item_in};
ghost use Rattle.minelib_reading.specs.LineForms.{all_differ, preds_form, has_id};
ghost use Rattle.minelib_reading.specs.PrecText.{finish_preds, preds_in, preds_stated};
ghost use Rattle.pit_units.specs.OrMemory.{Gives};
ghost use Rattle.text_lines.specs.Reading.{Leaves};
ghost use Rattle.text_lines.specs.TextLines.{fields_of};
ghost use Rattle.plan_parts.specs.declared.ranges.TheConstants.{MAX_BLOCKS};

use crate::marks::{Marks, rise_above};
use crate::taking::TakePreds;
use pit_units::OrMemory;
use precedence::Preds;
use std::alloc::{AllocError, Global};
use std::marker::Model;
use text_lines::line_by_line::{Admit, read_lines};
use text_lines::text_fault::{LineFault, TextKind};
use text_lines::text_fields::{first_integer, has_field, lacks_two_fields};

/// The predecessors of the lines so far, in order of the blocks' identifiers.
#[derive(Drop)]
pub struct PrecDraft<P: TakePreds> {
    preds: P,
    // The predecessors of the line that is being read.
    ids: Vec<u32>,
    marks: Marks,
}

impl<P: TakePreds> Model for PrecDraft<P> {
    ghost use Rattle.minelib_reading.specs.inner.LinesTaken.{PrecDraftView};

    ghost Value = { PrecDraftView };

    ghost view = { λ d. record { blocks = d.marks; lists = P.lists d.preds } };
}

impl<P: TakePreds> Admit for PrecDraft<P> {
    ghost admit_line = { admit_preds };

    fn admit(&mut self, line: &[u8]) -> Result<(), OrMemory<TextKind>> {
        preds_in_line(line, self.preds.count(), &mut self.ids, &mut self.marks)?;
        self.preds.take(&self.ids)?;
        Ok(())
    }
}

// Reads the predecessors of a line after `before` other lines into `ids`.
#[tactic(auto, using(crate::proofs::counts::LaterLines::preds_counted, crate::proofs::counts::LaterLines::preds_by_count))]
fn preds_in_line(
    line: &[u8],
    before: usize,
    ids: &mut Vec<u32>,
    marks: &mut Marks,
) -> Result<(), OrMemory<TextKind>>
    ensures value { Leaves ids.new.items result (preds_stated marks.old before (fields_of line.now)) }
    ensures kept { marks.new ≡ marks.old }
    ensures few { OnOk result ((before < MAX_BLOCKS) × (length ids.new.items ≤ MAX_BLOCKS)) }
{
    match uncounted_preds(line, before, ids, marks) {
        Ok(()) => Ok(()),
        Err(OrMemory::Fault(_)) if lacks_two_fields(line) => {
            Err(OrMemory::Fault(TextKind::Fields))
        }
        Err(error) => Err(error),
    }
}

// Reads the predecessors of a line with two or more fields.
fn uncounted_preds(
    line: &[u8],
    before: usize,
    ids: &mut Vec<u32>,
    marks: &mut Marks,
) -> Result<(), OrMemory<TextKind>>
    ensures value { Leaves ids.new.items result (item_in (preds_form marks.old before) (fields_of line.now)) }
    ensures kept { marks.new ≡ marks.old }
    ensures few { OnOk result ((before < MAX_BLOCKS) × (length ids.new.items ≤ MAX_BLOCKS)) }
{
    let blocks = marks.len();
    let (id, after_id) = first_integer(line, blocks as u64)?;
    let (stated, after_stated) = first_integer(after_id, blocks as u64)?;
    read_ids(after_stated, blocks, ids)?;
    if id != before as u64 {
        return Err(OrMemory::Fault(TextKind::Order));
    }
    if stated != ids.len() as u64 {
        return Err(OrMemory::Fault(TextKind::Count));
    }
    if !are_others(ids, before as u32, marks)? {
        return Err(OrMemory::Fault(TextKind::Twice));
    }
    Ok(())
}

// Returns whether the numbers are distinct and other than `own`. Most lists rise, which is faster to test than marks.
#[tactic(auto, using(crate::proofs::counts::MarkFacts::rising_differ))]
fn are_others(ids: &[u32], own: u32, marks: &mut Marks) -> Result<bool, AllocError>
    requires { All (λ id. id < marks.old) ids.now }
    ensures value { IfOk result
        (λ others. others ≡ (not (has_id ids.now own) && all_differ ids.now)) }
    ensures kept { marks.new ≡ marks.old }
{
    if rise_above(own, ids) {
        return Ok(true);
    }
    if has_id(ids, own) {
        return Ok(false);
    }
    marks.all_differ(ids)
}

// Reads all identifiers of a line, each below `blocks`.
fn read_ids(line: &[u8], blocks: usize, ids: &mut Vec<u32>) -> Result<(), OrMemory<TextKind>>
    requires { blocks ≤ MAX_BLOCKS }
    ensures value { Leaves ids.new.items result (all_by (below_in blocks) [] (fields_of line.now)) }
    ensures below { OnOk result (All (λ id. id < blocks) ids.new.items) }
{
    ids.clear();
    let mut rest = line;
    while has_field(rest) {
        let (id, following) = first_integer(rest, blocks as u64)?;
        ids.push(id as u32)?;
        rest = following;
    }
    Ok(())
}

fn has_id(ids: &[u32], id: u32) -> bool
    ensures { result ≡ has_id ids.now id }
{
    ids.iter().any(|other| *other == id)
}

impl<P: TakePreds + Drop> PrecDraft<P> {
    /// Makes a draft before the first line. `none` receives the lists, and must have none yet.
    pub fn new(alloc: Global, none: P, blocks: usize) -> PrecDraft<P>
        requires none { P.lists none ≡ [] }
        requires few { blocks ≤ MAX_BLOCKS }
        ensures { result ≡ no_lists blocks }
    {
        PrecDraft {
            preds: none,
            ids: Vec::new(alloc),
            marks: Marks::new(alloc, blocks),
        }
    }

    /// Returns the lists after all lines; `end` is the number of the line after the last.
    ///
    /// # Errors
    ///
    /// `Missing`, at the line `end`: the number of lists is not the number of blocks.
    pub fn finish(self, end: u64) -> Result<P, OrMemory<LineFault>>
        ensures { Gives P.lists result (finish_preds self.blocks end self.lists) }
    {
        if self.preds.count() == self.marks.len() {
            Ok(self.preds)
        } else {
            Err(OrMemory::Fault(LineFault {
                line: end,
                kind: TextKind::Missing,
            }))
        }
    }
}

/// Returns the predecessors that a text states for `blocks` blocks.
///
/// # Errors
///
/// - `Fault`: the first invalid line, or `Missing` at the line after the last.
/// - `OutOfMemory`: memory was refused.
#[tactic(auto, using(crate::proofs::encoded::EncodedRead::preds_read))]
pub fn read_preds(alloc: Global, blocks: usize, text: &[u8]) -> Result<Preds, OrMemory<LineFault>>
    requires { blocks ≤ MAX_BLOCKS }
    ensures { Gives (λ lists. lists) result (preds_in blocks text.now) }
{
    let mut draft = PrecDraft::new(alloc, Preds::new(alloc), blocks);
    let end = read_lines(&mut draft, text)?;
    draft.finish(end)
}
