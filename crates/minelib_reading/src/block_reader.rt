//! A reader of block files.

ghost use Rattle.std.specs.Prelude.{◌≡◌, ◌<◌, ◌≤◌, [], length, IfOk, OnOk};
ghost use Rattle.plan_parts.specs.Block.{block_with};
ghost use Rattle.plan_parts.specs.BlockParts.{AreInRange};
ghost use Rattle.minelib_reading.specs.BlockText.{block_stated, blocks_in, with_block};
ghost use Rattle.minelib_reading.specs.LineFields.{item_in};
ghost use Rattle.minelib_reading.specs.LineForms.{block_form};
ghost use Rattle.pit_units.specs.OrMemory.{Gives};
ghost use Rattle.text_lines.specs.TextLines.{fields_of};
ghost use Rattle.plan_parts.specs.declared.ranges.TheConstants.{MAX_BLOCKS};

use crate::taking::TakeBlocks;
use mine_instance::blocks::Blocks;
use pit_units::OrMemory;
use plan_parts::block::Block;
use plan_parts::ranges::{GRID_CELLS, MAX_BLOCKS, MAX_GRADE, MAX_KG, MAX_ZONES};
use std::alloc::Global;
use std::marker::Model;
use text_lines::line_by_line::{Admit, read_lines};
use text_lines::text_fault::{LineFault, TextKind};
use text_lines::text_fields::{fault_kind_of_line, first_integer, first_size, has_field};

// The number of fields in a line: the identifier, three indices, tonnes, grade and zone.
const FIELDS: usize = 7;

/// The blocks of the lines so far, in order of identifier.
#[derive(Drop)]
pub struct BlockDraft<B: TakeBlocks> {
    blocks: B,
}

impl<B: TakeBlocks> Model for BlockDraft<B> {
    ghost use Rattle.std.specs.Prelude.{List};
    ghost use Rattle.plan_parts.specs.declared.block.Block.{Block as ABlock};

    ghost Value = { List ABlock };

    ghost view = { λ d. B.blocks d.blocks };
}

impl<B: TakeBlocks> Admit for BlockDraft<B> {
    ghost admit_line = { with_block };

    fn admit(&mut self, line: &[u8]) -> Result<(), OrMemory<TextKind>> {
        let block = block_in_line(line, self.blocks.count())?;
        self.blocks.take(block)?;
        Ok(())
    }
}

impl<B: TakeBlocks + Drop> BlockDraft<B> {
    /// Makes a draft before the first line. `none` receives the blocks, and must have none yet.
    pub fn new(none: B) -> BlockDraft<B>
        requires { B.blocks none ≡ [] }
        ensures { result ≡ [] }
    {
        BlockDraft { blocks: none }
    }

    /// Returns the blocks after all lines.
    pub fn finish(self) -> B
        ensures { B.blocks result ≡ self }
    {
        self.blocks
    }
}

// Returns the block of a line after `before` other blocks.
#[tactic(auto, using(crate::proofs::counts::LaterLines::block_counted, crate::proofs::counts::LaterLines::block_kind))]
fn block_in_line(line: &[u8], before: usize) -> Result<Block, TextKind>
    ensures value { result ≡ block_stated before (fields_of line.now) }
    ensures few { OnOk result (before < MAX_BLOCKS) }
{
    match uncounted_block(line, before) {
        Ok(block) => Ok(block),
        Err(kind) => Err(fault_kind_of_line(line, FIELDS, kind)),
    }
}

#[inline(always)]
fn uncounted_block(line: &[u8], before: usize) -> Result<Block, TextKind>
    ensures value { result ≡ item_in (block_form before) (fields_of line.now) }
    ensures few { OnOk result (before < MAX_BLOCKS) }
{
    let (id, after_id) = first_integer(line, MAX_BLOCKS as u64)?;
    let (x, after_x) = first_integer(after_id, u64::from(GRID_CELLS))?;
    let (y, after_y) = first_integer(after_x, u64::from(GRID_CELLS))?;
    let (z, after_z) = first_integer(after_y, u64::from(GRID_CELLS))?;
    let (tonnes, after_tonnes) = first_size(after_z, 3, MAX_KG * 1000)?;
    let (grade, after_grade) = first_size(after_tonnes, 6, MAX_GRADE)?;
    let (zone, after_zone) = first_integer(after_grade, u64::from(MAX_ZONES))?;
    if has_field(after_zone) {
        return Err(TextKind::Fields);
    }
    if id != before as u64 {
        return Err(TextKind::Order);
    }
    Ok(block_with(
        x as u16,
        y as u16,
        z as u16,
        tonnes / 1000,
        grade,
        zone as u8,
    ))
}

fn block_with(x: u16, y: u16, z: u16, kg: u64, grade: u64, zone: u8) -> Block
    requires { AreInRange x y z kg grade zone }
    ensures { result ≡ block_with x y z kg grade zone }
{
    Block {
        x,
        y,
        z,
        kg,
        grade,
        zone,
    }
}

/// Returns the blocks that a text states, in order of identifier.
///
/// # Errors
///
/// - `Fault`: the first invalid line.
/// - `OutOfMemory`: memory was refused.
#[tactic(auto, using(crate::proofs::models::ValidRead::few_blocks))]
pub fn read_blocks(alloc: Global, text: &[u8]) -> Result<Blocks, OrMemory<LineFault>>
    ensures stated { Gives (λ x. x) result (blocks_in text.now) }
    ensures few { IfOk result (λ blocks. length blocks ≤ MAX_BLOCKS) }
{
    let blocks = drafted(alloc, text)?;
    Ok(blocks)
}

fn drafted(alloc: Global, text: &[u8]) -> Result<Blocks, OrMemory<LineFault>>
    ensures { Gives (λ x. x) result (blocks_in text.now) }
{
    let mut draft = BlockDraft::new(Vec::new(alloc));
    read_lines(&mut draft, text)?;
    Ok(Blocks::new(draft.finish()))
}
