//! Memory for the results of a run's threads, which is allocated before the first start.

ghost use Rattle.std.specs.Prelude.{IfOk};
ghost use Rattle.run_threads.specs.inner.Ready.{IsRoomFor};

use crate::file_reading::FileRead;
use crate::read_result::ReadResult;
use lane::{EndedPut, TakeEnd};
use rows::PackedItems;
use std::alloc::{AllocError, Global};
use valuers::ValuerResult;

/// Empty lists with capacity for the results of the readers and the valuers.
#[derive(Drop)]
pub struct ResultRoom {
    pub reads: Vec<FileRead>,
    pub ended: Vec<EndedPut>,
    pub answers: Vec<ReadResult>,
    pub values: Vec<ValuerResult<PackedItems>>,
    pub takers: Vec<TakeEnd>,
    pub items: Vec<PackedItems>,
}

/// Allocates capacity for the results of `files` readers and `valuers` valuers.
pub fn room_for(alloc: Global, files: usize, valuers: usize) -> Result<ResultRoom, AllocError>
    ensures { IfOk result (λ room. IsRoomFor files valuers room) }
{
    Ok(ResultRoom {
        reads: Vec::with_capacity(alloc, files)?,
        ended: Vec::with_capacity(alloc, files)?,
        answers: Vec::with_capacity(alloc, files)?,
        values: Vec::with_capacity(alloc, valuers)?,
        takers: Vec::with_capacity(alloc, valuers)?,
        items: Vec::with_capacity(alloc, valuers)?,
    })
}
