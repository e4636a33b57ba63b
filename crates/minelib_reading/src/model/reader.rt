//! A reader of model files.

ghost use Rattle.std.specs.Prelude.{◌≤◌};
ghost use Rattle.minelib_reading.specs.ModelText.{model_in};
ghost use Rattle.pit_units.specs.OrMemory.{Gives};
ghost use Rattle.plan_parts.specs.declared.ranges.TheConstants.{MAX_BLOCKS};

use crate::kept::StoredItems;
use crate::model::draft::ModelDraft;
use minelib_lines::problem::Problem;
use pit_units::OrMemory;
use std::alloc::Global;
use text_lines::line_by_line::read_lines;
use text_lines::text_fault::LineFault;

/// Returns the content of a problem's model file for `blocks` blocks.
///
/// # Errors
///
/// - `Fault`: the first invalid line.
/// - `OutOfMemory`: memory was refused.
pub fn read_model(
    alloc: Global,
    problem: Problem,
    blocks: usize,
    text: &[u8],
) -> Result<ModelDraft<StoredItems>, OrMemory<LineFault>>
    requires { blocks ≤ MAX_BLOCKS }
    ensures { Gives (λ x. x) result (model_in problem blocks text.now) }
{
    let mut draft = ModelDraft::new(alloc, problem, blocks, StoredItems::new(alloc));
    let end = read_lines(&mut draft, text)?;
    draft.finish(end)
}
