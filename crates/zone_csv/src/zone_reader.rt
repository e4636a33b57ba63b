//! A reader of zone files.

ghost use Rattle.std.specs.Prelude.{◌≡◌, ◌↔◌, ◌+◌, ◌<◌, ◌≤◌, List, length, None, Some, Err, IfOk, IfSome};
ghost use Rattle.plan_parts.specs.PlanInvariant.{IsGrid};
ghost use Rattle.zone_csv.specs.ZoneReaderView.{Ahead, Answers, all_ahead, blocks_remaining};
ghost use Rattle.zone_csv.specs.ZoneInvariant.{HasFewBlocks, HasOwnBlocks};
ghost use Rattle.zone_csv.specs.ZoneStates.{ZoneFails, ZoneStates};
ghost use Rattle.zone_csv.specs.declared.row_fault.RowFault.{RowFault as ARowFault};
ghost use Rattle.plan_parts.specs.declared.block.Block.{Block as ABlock};
ghost use Rattle.records.specs.Records.{records_of};
ghost use Rattle.zone_csv.specs.inner.ReaderStages.{reader_view, IsCounted};
ghost use Rattle.plan_parts.specs.declared.ranges.TheConstants.{MAX_ROWS, MAX_ZONES};

use crate::cell::{ColumnFault, a_fault};
use crate::columns::{Columns, columns_of};
use crate::row::row_of;
use crate::row_fault::{Column, RowFault, RowFaultKind};
use csv::ByteRecord;
use pit_units::OrMemory;
use plan_parts::block::Block;
use plan_parts::grid::Grid;
use plan_parts::plan::Plan;
use records::RecordReader;
use std::alloc::Global;
use std::io::Cursor;
use std::marker::Model;

// The progress of a reader.
#[derive(Clone, Copy)]
enum Stage {
    // Nothing was read.
    Header,
    // Everything before the record with this number was read.
    Body { columns: Columns, number: u32 },
    // The file was read to its end.
    Ended,
    // The file was read up to this fault.
    Failed(OrMemory<RowFault>),
}

/// A reader of a zone file. It returns the blocks of the rows, in order, up to the file's first fault.
///
/// Contracts see what it has yet to return: the blocks before the first fault, and that fault, if there is one. Or they see that
/// the fault or the end was returned, or that memory was refused.
#[derive(Drop)]
pub struct ZoneReader {
    records: RecordReader<Cursor<Vec<u8>>>,
    row: ByteRecord,
    grid: Grid,
    zone: u8,
    stage: Stage,
}

impl Model for ZoneReader {
    ghost use Rattle.std.specs.Prelude.{◌<◌};
    ghost use Rattle.plan_parts.specs.PlanInvariant.{IsGrid};
    ghost use Rattle.zone_csv.specs.ZoneReaderView.{ZoneReaderView};
    ghost use Rattle.zone_csv.specs.inner.ReaderStages.{reader_view, IsCounted};
    ghost use Rattle.plan_parts.specs.declared.ranges.TheConstants.{MAX_ZONES};

    ghost Value = { ZoneReaderView };

    ghost view = { λ r. reader_view r.grid r.zone r.stage r.records };

    ghost invariant = { λ r. IsGrid r.grid × (r.zone < MAX_ZONES) × IsCounted r.stage };
}

impl ZoneReader {
    /// Makes a reader of the zone file `text`, for the zone with this number in the plan. Reads nothing and allocates no memory
    /// yet.
    pub fn new(alloc: Global, text: Vec<u8>, plan: &Plan, zone: u8) -> ZoneReader
        requires { zone < length plan.now.cones }
        ensures says { result ≡ all_ahead plan.now.grid zone text.items }
        // The same, by what the records state.
        ensures encoded { (blocks : List ABlock) → (result ≡ Ahead blocks None)
            ↔ ZoneStates plan.now.grid zone (records_of text.items) blocks None }
        ensures invalid { (blocks : List ABlock) (fault : ARowFault) → (result ≡ Ahead blocks (Some fault))
            ↔ ZoneFails plan.now.grid zone (records_of text.items) blocks fault }
        ensures few { HasFewBlocks plan.now.grid zone text.items }
        ensures own { HasOwnBlocks plan.now.grid zone text.items }
    {
        ZoneReader {
            records: RecordReader::new(alloc, text),
            row: ByteRecord::new(alloc),
            grid: plan.grid(),
            zone,
            stage: Stage::Header,
        }
    }

    /// Returns the next block, or `None` at the end of the file and at every later call. The first call also reads the header.
    ///
    /// # Errors
    ///
    /// Every later call returns the same error.
    ///
    /// - `Fault`: the file's first fault, after the blocks before it were returned.
    /// - `OutOfMemory`: memory was refused for a record. It never occurs after the end or the fault was returned.
    pub fn next(&mut self) -> Result<Option<Block>, OrMemory<RowFault>>
        ensures answers { Answers self.old result self.new }
        ensures fewer { IfOk result
            (λ found. IfSome found (λ _. blocks_remaining self.new + 1 ≡ blocks_remaining self.old)) }
    {
        step(
            &mut self.stage,
            &mut self.records,
            &mut self.row,
            self.grid,
            self.zone,
        )
    }
}

// Returns the next result of a reader at a stage, and moves it to its next stage.
#[inline(always)]
fn step(
    stage: &mut Stage,
    records: &mut RecordReader<Cursor<Vec<u8>>>,
    row: &mut ByteRecord,
    grid: Grid,
    zone: u8,
) -> Result<Option<Block>, OrMemory<RowFault>>
    requires grid { IsGrid grid }
    requires zone { zone < MAX_ZONES }
    requires counted { IsCounted stage.old }
    ensures answers { Answers (reader_view grid zone stage.old records.old) result
        (reader_view grid zone stage.new records.new) }
    ensures counted { IsCounted stage.new }
{
    match *stage {
        Stage::Header => first_row(stage, records, row, grid, zone),
        Stage::Body { columns, number } => {
            next_row(stage, columns, number, records, row, grid, zone)
        }
        Stage::Ended => Ok(None),
        Stage::Failed(fault) => Err(fault),
    }
}

fn failed(stage: &mut Stage, fault: OrMemory<RowFault>) -> Result<Option<Block>, OrMemory<RowFault>>
    ensures stage { stage.new ≡ Stage.Failed fault }
    ensures fault { result ≡ Err fault }
{
    *stage = Stage::Failed(fault);
    Err(fault)
}

// Reads the header, and returns the result for the row after it.
fn first_row(
    stage: &mut Stage,
    records: &mut RecordReader<Cursor<Vec<u8>>>,
    row: &mut ByteRecord,
    grid: Grid,
    zone: u8,
) -> Result<Option<Block>, OrMemory<RowFault>>
    requires grid { IsGrid grid }
    requires zone { zone < MAX_ZONES }
    ensures answers { Answers (reader_view grid zone Stage.Header records.old) result
        (reader_view grid zone stage.new records.new) }
    ensures counted { IsCounted stage.new }
{
    match records.next(row) {
        Ok(true) => match columns_of(row) {
            Ok(columns) => next_row(stage, columns, 2, records, row, grid, zone),
            Err(fault) => failed(stage, OrMemory::Fault(fault)),
        },
        Ok(false) => {
            let fault = a_fault(1, Column::X, RowFaultKind::MissingColumn);
            failed(stage, OrMemory::Fault(fault))
        }
        Err(_) => failed(stage, OrMemory::OutOfMemory),
    }
}

// Returns the result for the next record, which has this number.
#[inline(always)]
fn next_row(
    stage: &mut Stage,
    columns: Columns,
    number: u32,
    records: &mut RecordReader<Cursor<Vec<u8>>>,
    row: &mut ByteRecord,
    grid: Grid,
    zone: u8,
) -> Result<Option<Block>, OrMemory<RowFault>>
    requires grid { IsGrid grid }
    requires zone { zone < MAX_ZONES }
    requires counted { number ≤ MAX_ROWS + 2 }
    ensures answers { Answers (reader_view grid zone (Stage.Body columns number) records.old)
        result
        (reader_view grid zone stage.new records.new) }
    ensures counted { IsCounted stage.new }
{
    match records.next(row) {
        Ok(true) => match row_of(row, number, columns, grid, zone) {
            Ok(block) => {
                *stage = Stage::Body {
                    columns,
                    number: number + 1,
                };
                Ok(Some(block))
            }
            Err(ColumnFault { column, kind }) => {
                failed(stage, OrMemory::Fault(a_fault(number, column, kind)))
            }
        },
        Ok(false) => {
            *stage = Stage::Ended;
            Ok(None)
        }
        Err(_) => failed(stage, OrMemory::OutOfMemory),
    }
}
