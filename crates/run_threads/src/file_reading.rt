//! The reader of a zone file, which puts the file's rows into the lane.

ghost use Rattle.std.specs.Prelude.{◌≡◌, ◌++◌, [], ◌∷◌, length};
ghost use Rattle.run_threads.specs.Reading.{IsRead};
ghost use Rattle.run_threads.specs.inner.Promises.{IsUnsent};
ghost use Rattle.run_threads.specs.inner.Sending.{HasPut};
ghost use Rattle.zone_csv.specs.Zone.{blocks_of, fault_of};

use crate::read_result::ReadResult;
use crate::starts::OnThread;
use devices::feeds::feed::Feed;
use devices::feeds::slurp::slurp;
use lane::{EndedPut, PutEnd, Taken};
use pit_units::OrMemory;
use plan_parts::plan::Plan;
use plan_parts::ranges::MAX_FILE_BYTES;
use std::alloc::Global;
use std::sync::Wait;
use valuers::Gate;
use zone_csv::row_fault::RowFault;
use zone_csv::zone_reader::ZoneReader;

/// The result of a file's reader.
#[derive(Drop)]
pub struct FileRead {
    /// The file's put end, after its end mark.
    pub ended: EndedPut,
    /// Whether the file was read to its end, or the error.
    pub answer: ReadResult,
}

/// Reads all of the zone file that `feed` gives, and puts a row for each of its blocks into the lane, in order. After the last
/// row, or after a fault, always puts the file's end mark. Calls `gate` before the first pull. `file` is the number of the file,
/// and of its zone in `plan`, from 0. Runs on its own thread.
///
/// If the file was not read to its end, `answer` says why. After a faulty row, the blocks before that row were put.
pub fn read_file<R: Wait, F: Feed + Drop, G: Gate>(
    _thread: &OnThread,
    rt: &R,
    alloc: Global,
    mut feed: F,
    plan: &Plan,
    file: u8,
    mut put_end: PutEnd,
    gate: &G,
) -> FileRead
    requires { IsUnsent plan.now file put_end }
    ensures end { (result.ended.lane ≡ put_end.lane) × (result.ended.file ≡ file) }
    ensures read { IsRead F.state plan.now.grid file feed
        result.answer result.ended.sent }
    ensures passed { G.passed_reader gate.now file }
{
    let answer = put_file(rt, alloc, &mut feed, plan, file, &mut put_end, gate);
    FileRead {
        ended: put_end.end(rt),
        answer,
    }
}

// Puts the rows of the feed's zone file, without the end mark.
fn put_file<R: Wait, F: Feed, G: Gate>(
    rt: &R,
    alloc: Global,
    feed: &mut F,
    plan: &Plan,
    file: u8,
    put_end: &mut PutEnd,
    gate: &G,
) -> ReadResult
    requires { IsUnsent plan.now file put_end.old }
    ensures end { (put_end.new.lane ≡ put_end.old.lane) × (put_end.new.file ≡ file) }
    ensures read { IsRead F.state plan.now.grid file feed.old result
        (put_end.new.sent ++ Taken.End file (length put_end.new.sent) ∷ []) }
    ensures passed { G.passed_reader gate.now file }
{
    gate.reader(rt, file);
    let text = slurp(alloc, feed, MAX_FILE_BYTES as u64)?;
    put_blocks(rt, alloc, text, plan, file, put_end)?;
    Ok(())
}

// Puts a row for each block of the text, up to its end or its first fault.
fn put_blocks<R: Wait>(
    rt: &R,
    alloc: Global,
    text: Vec<u8>,
    plan: &Plan,
    file: u8,
    put_end: &mut PutEnd,
) -> Result<(), OrMemory<RowFault>>
    requires { IsUnsent plan.now file put_end.old }
    ensures end { (put_end.new.lane ≡ put_end.old.lane) × (put_end.new.file ≡ file) }
    ensures put { let grid = plan.now.grid in
        HasPut file (blocks_of grid file text.items) (fault_of grid file text.items)
        result put_end.new.sent }
{
    let mut reader = ZoneReader::new(alloc, text, plan, file);
    while let Some(block) = reader.next()? {
        put_end.row(rt, block);
    }
    Ok(())
}
